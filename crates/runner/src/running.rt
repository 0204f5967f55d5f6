ghost use Rattle.std.specs.Prelude.{◌≡◌, ◌≤◌, true};
ghost use Rattle.machine.specs.Machines.{situation_of};
ghost use Rattle.states.specs.Tallies.{nothing};
ghost use Rattle.runner.specs.Halts.{halts};
ghost use Rattle.runner.specs.Running.{levels_at, runs};

use bus::Bus;
use machine::{Machine, RunKey};
use report::Ending;
use states::{Levels, State, Tally, Ticked};

// The most ticks that a run takes.
const TICKS: u32 = 60_000;

// The instruction that the first tick's interrupt jams: a restart of cell 0.
pub(crate) const RESTART: u8 = 0x05;

// How a run ended, and what its ticks added up to.
#[derive(Clone, Copy)]
pub struct Finished {
    pub tally: Tally,
    pub ending: Ending,
}

// Ticks with READY high until a halt ends, a tick is refused or 60,000 ticks are spent. INT is high at the
// first tick only, and jams a restart of cell 0.
pub fn run_to_halt<B: Bus>(machine: &mut Machine, key: &RunKey, bus: &mut B) -> Finished
    ensures outcome { runs 60000 true nothing (situation_of machine.old (B.wiring bus.old)) ≡ record { finished = result; after = situation_of machine.new (B.wiring bus.new) } }
    ensures frame_kept { B.frame bus.new ≡ B.frame bus.old }
{
    let mut tally = Tally::default();
    let ending = run_ticks(machine, key, TICKS, bus, &mut tally);
    Finished { tally, ending }
}

// Counts at most so many ticks, and answers how they ended.
fn run_ticks<B: Bus>(
    machine: &mut Machine,
    key: &RunKey,
    ticks: u32,
    bus: &mut B,
    tally: &mut Tally,
) -> Ending
    requires { (ticks ≤ 60000) × (tally.old ≡ nothing) }
    ensures outcome { runs ticks true nothing (situation_of machine.old (B.wiring bus.old)) ≡ record { finished = record { tally = tally.exit.now; ending = result }; after = situation_of machine.new (B.wiring bus.new) } }
    ensures frame_kept { B.frame bus.new ≡ B.frame bus.old }
{
    for tick in 0..ticks {
        match machine.tick(key, levels(tick == 0), bus) {
            Err(fault) => return Ending::Refused(fault.cause),
            Ok(ticked) => {
                tally.count_tick(&ticked);
                if ends_halt(&ticked) {
                    return Ending::Halted;
                }
            }
        }
    }
    Ending::Spent
}

// The levels of a tick.
fn levels(first: bool) -> Levels
    ensures { result ≡ levels_at first }
{
    Levels {
        ready: true,
        int: first,
        jam: RESTART,
    }
}

// Whether the tick is the last state of a halt.
fn ends_halt(ticked: &Ticked) -> bool
    ensures { result ≡ halts ticked.now }
{
    ticked.state == State::Stopped && ticked.ended.is_some()
}
