ghost use Rattle.std.specs.Prelude.{◌≡◌, ◌≤◌, true};
ghost use Rattle.cpu.specs.Place.{place_of};
ghost use Rattle.states.specs.Tallies.{nothing};
ghost use Rattle.runner.specs.Stepping.{feed_at, steps};

use crate::running::{Finished, RESTART};
use bus::Bus;
use cpu::Processor;
use report::Ending;
use states::Tally;
use stepper::{Feed, step};

// No step is taken once so many table states are counted.
const STATES: u32 = 60_000;

// As many steps as can come to so many states: each has three at least.
const STEPS: u32 = 20_000;

// Steps until a halt ends, a step is refused, or 60,000 table states are counted. The first step jams a restart
// of cell 0, the others are the processor's own.
pub fn step_to_halt<B: Bus>(processor: &mut Processor, bus: &mut B) -> Finished
    ensures outcome { steps 20000 true nothing (place_of processor.old (B.wiring bus.old)) ≡ record { finished = result; after = place_of processor.new (B.wiring bus.new) } }
    ensures frame_kept { B.frame bus.new ≡ B.frame bus.old }
{
    let mut tally = Tally::default();
    let ending = take_steps(processor, STEPS, bus, &mut tally);
    Finished { tally, ending }
}

// Counts at most so many steps, and answers how they ended.
fn take_steps<B: Bus>(
    processor: &mut Processor,
    most: u32,
    bus: &mut B,
    tally: &mut Tally,
) -> Ending
    requires { (most ≤ 20000) × (tally.old ≡ nothing) }
    ensures outcome { steps most true nothing (place_of processor.old (B.wiring bus.old)) ≡ record { finished = record { tally = tally.exit.now; ending = result }; after = place_of processor.new (B.wiring bus.new) } }
    ensures frame_kept { B.frame bus.new ≡ B.frame bus.old }
{
    for taken in 0..most {
        if tally.table_states >= STATES {
            return Ending::Spent;
        }
        match step(processor, feed(taken == 0), bus) {
            Err(fault) => return Ending::Refused(fault.cause),
            Ok(None) => return Ending::Halted,
            Ok(Some(states)) => {
                tally.count_step(Some(states));
                if processor.stopped {
                    return Ending::Halted;
                }
            }
        }
    }
    Ending::Spent
}

// The feed of a step.
fn feed(first: bool) -> Feed
    ensures { result ≡ feed_at first }
{
    if first { Feed::Jam(RESTART) } else { Feed::Own }
}
