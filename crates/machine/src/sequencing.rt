ghost use Rattle.std.specs.Prelude.{◌≡◌, true};
ghost use Rattle.states.specs.Sequencing.{next_cycle, following, hand_after, sound, sound_up_to};

use isa::Cycle;
use states::{Following, Phase, Underway};

// What follows the state that comes next.
pub(crate) fn what_follows(work: &Underway) -> Following
    requires { sound_up_to work.now.next work.now ≡ true }
    ensures value { result ≡ following work.now.instruction work.now.taken work.now.cycle work.now.next }
    ensures sound { sound (hand_after work.now result) ≡ true }
{
    let states = work.instruction.states(work.taken, work.cycle);
    match work.next {
        Phase::T1 => Following::Phase(Phase::T2),
        Phase::T2 => Following::Phase(Phase::T3),
        Phase::T3 => if states > 3 {
            Following::Phase(Phase::T4)
        } else {
            next_cycle(work)
        },
        Phase::T4 => if states > 4 {
            Following::Phase(Phase::T5)
        } else {
            next_cycle(work)
        },
        Phase::T5 => next_cycle(work),
    }
}

// What follows a cycle.
fn next_cycle(work: &Underway) -> Following
    ensures { result ≡ next_cycle work.now.instruction work.now.taken work.now.cycle }
{
    match work.cycle {
        Cycle::First => if work.instruction.states(work.taken, Cycle::Second) > 0 {
            Following::Cycle(Cycle::Second)
        } else {
            Following::End
        },
        Cycle::Second => if work.instruction.states(work.taken, Cycle::Third) > 0 {
            Following::Cycle(Cycle::Third)
        } else {
            Following::End
        },
        Cycle::Third => Following::End,
    }
}
