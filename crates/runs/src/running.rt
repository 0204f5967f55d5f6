ghost use Rattle.std.specs.Prelude.{◌≡◌, ◌+◌, ◌/◌, length, Ok};
ghost use Rattle.std.specs.Result.{result_err};
ghost use Rattle.machine.specs.Machines.{situation_of};
ghost use Rattle.states.specs.Sequencing.{states_in_hand};
ghost use Rattle.states.specs.Tallies.{nothing};
ghost use Rattle.runs.specs.Schedules.{levels_of, judged};
ghost use Rattle.runs.specs.Histories.{Extends, RefusedExtends, levels_made};
ghost use Rattle.runs.specs.Runs.{AddsUp, EndsAt, EndsAtTick, OneByOne, answered, at_tick, ran, ran_over};

use crate::good_schedules::Schedule;
use crate::outcomes::{Ran, RunFault};
use crate::refusals::ScheduleRefusal;
use bus::{Bus, Wired};
use cpu::Fault;
use machine::{Machine, RunKey};
use states::{Tally, Ticked};

// Ticks the machine by a schedule, in order, up to the first tick that is refused; the ticks before it stay
// made. The schedule is judged as a whole before the first tick, and a refused one leaves all as it was.
// A run is its ticks taken one by one, its numbers add up, and a fault's index is the number of ticks accepted.
pub fn run<B: Bus>(
    machine: &mut Machine,
    key: &RunKey,
    schedule: &[u8],
    bus: &mut B,
) -> Result<Ran, ScheduleRefusal>
    ensures outcome { ran schedule.now (situation_of machine.old (B.wiring bus.old)) ≡ record { answer = result; after = situation_of machine.new (B.wiring bus.new) } }
    ensures sum { AddsUp result }
    ensures end { EndsAt schedule.now result }
    ensures one_by_one { OneByOne B.State }
    ensures used { Extends (levels_made (judged schedule.now) schedule.now) (situation_of machine.old (B.wiring bus.old)) (situation_of machine.new (B.wiring bus.new)) }
    ensures frame_kept { B.frame bus.new ≡ B.frame bus.old }
{
    keep_the_laws(bus);
    let schedule = Schedule::new(schedule)?;
    Ok(run_good(machine, key, &schedule, bus))
}

// The proof of the laws. It does nothing.
fn keep_the_laws<B: Wired>(_bus: &B)
    ensures one_by_one { OneByOne B.State }
    ensures refused { RefusedExtends B.State }
{}

// Ticks the machine by a schedule that was judged good.
fn run_good<B: Bus>(
    machine: &mut Machine,
    key: &RunKey,
    schedule: &Schedule<'_>,
    bus: &mut B,
) -> Ran
    ensures outcome { answered (situation_of machine.old (B.wiring bus.old)) (ran_over (levels_of schedule.now.bytes.now) (situation_of machine.old (B.wiring bus.old))) ≡ record { answer = Ok result; after = situation_of machine.new (B.wiring bus.new) } }
    ensures sum { AddsUp (Ok result) }
    ensures end { EndsAt schedule.now.bytes.now (Ok result) }
    ensures used { Extends (levels_of schedule.now.bytes.now) (situation_of machine.old (B.wiring bus.old)) (situation_of machine.new (B.wiring bus.new)) }
    ensures frame_kept { B.frame bus.new ≡ B.frame bus.old }
{
    let in_hand_before = machine.states_in_hand();
    let mut tally = Tally::default();
    let answer = run_ticks(machine, key, schedule, bus, &mut tally);
    Ran {
        tally,
        in_hand_before,
        in_hand_after: machine.states_in_hand(),
        fault: answer.err(),
    }
}

// Makes the ticks of a schedule, and counts those that are accepted.
fn run_ticks<B: Bus>(
    machine: &mut Machine,
    key: &RunKey,
    schedule: &Schedule<'_>,
    bus: &mut B,
    tally: &mut Tally,
) -> Result<(), RunFault>
    requires { tally.old ≡ nothing }
    ensures course { ran_over (levels_of schedule.now.bytes.now) (situation_of machine.old (B.wiring bus.old)) ≡ record { tally = tally.exit.now; fault = result_err result; after = situation_of machine.new (B.wiring bus.new) } }
    ensures sum { tally.exit.now.accepted + states_in_hand machine.old.hand ≡ tally.exit.now.table_states + tally.exit.now.waits + tally.exit.now.idle + states_in_hand machine.new.hand }
    ensures end { EndsAtTick (result_err result) tally.exit.now.accepted (length schedule.now.bytes.now / 2) }
    ensures used { Extends (levels_of schedule.now.bytes.now) (situation_of machine.old (B.wiring bus.old)) (situation_of machine.new (B.wiring bus.new)) }
    ensures frame_kept { B.frame bus.new ≡ B.frame bus.old }
{
    tick_through(machine, key, schedule, bus, tally)
}

// The same, tick by tick.
fn tick_through<B: Bus>(
    machine: &mut Machine,
    key: &RunKey,
    schedule: &Schedule<'_>,
    bus: &mut B,
    tally: &mut Tally,
) -> Result<(), RunFault>
    requires { tally.old ≡ nothing }
    ensures course { ran_over (levels_of schedule.now.bytes.now) (situation_of machine.old (B.wiring bus.old)) ≡ record { tally = tally.exit.now; fault = result_err result; after = situation_of machine.new (B.wiring bus.new) } }
    ensures frame_kept { B.frame bus.new ≡ B.frame bus.old }
{
    for levels in schedule.ticks() {
        let answer = machine.tick(key, levels, bus);
        let ticked = at_tick(answer, tally.accepted as usize)?;
        tally.count_tick(&ticked);
    }
    Ok(())
}

// The answer of a tick, with the tick's index added to its fault, if any.
fn at_tick(answer: Result<Ticked, Fault>, tick: usize) -> Result<Ticked, RunFault>
    ensures { result ≡ at_tick tick answer }
{
    answer.map_err(|fault| RunFault { fault, tick })
}
