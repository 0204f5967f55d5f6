ghost use Rattle.std.specs.Prelude.{◌≡◌};
ghost use Rattle.cpu.specs.Place.{place_of};
ghost use Rattle.cpu.specs.Nesting.{Moves, RemembersEight, ForgetsTheOldest};
ghost use Rattle.stepper.specs.Steps.{stepped};
ghost use Rattle.stepper.specs.StepLaws.{LawfulSteps};
ghost use Rattle.stepper.specs.Examples.{ExamplesHold};

use crate::feeds::Feed;
use crate::fetching::fetch;
use crate::performing::perform;
use bus::{Bus, Wired};
use cpu::{Fault, Processor};
use isa::decode;

// One instruction of a processor that no machine holds. It answers the table states of what it carried out, and
// none where an own step found the processor stopped and did nothing. A refused step leaves processor, cells and card
// as they were. Every step keeps the laws of a step, and the ring remembers eight program counters, so that an eighth
// nested call overwrites the oldest. The worked examples come out as they are written.
pub fn step<B: Bus>(processor: &mut Processor, feed: Feed, bus: &mut B) -> Result<Option<u8>, Fault>
    ensures outcome { stepped feed (place_of processor.old (B.wiring bus.old)) ≡ record { answer = result; after = place_of processor.new (B.wiring bus.new) } }
    ensures frame_kept { B.frame bus.new ≡ B.frame bus.old }
    ensures lawful { LawfulSteps B.State }
    ensures ring { Moves × RemembersEight × ForgetsTheOldest }
    ensures examples { ExamplesHold B.State }
{
    keep_the_laws(bus);
    let pc = processor.ring.pc();
    let mut next = *processor;
    let byte = match feed {
        Feed::Own => {
            if processor.stopped {
                return Ok(None);
            }
            fetch(&mut next, bus)
        }
        Feed::Jam(byte) => {
            next.stopped = false;
            byte
        }
    };
    let instruction = decode(byte).ok_or(Fault::in_decoder(pc))?;
    let states = perform(&mut next, pc, instruction, bus)?;
    *processor = next;
    Ok(Some(states))
}

// The proof of the laws. It does nothing.
fn keep_the_laws<B: Wired>(_bus: &B)
    ensures lawful { LawfulSteps B.State }
    ensures ring { Moves × RemembersEight × ForgetsTheOldest }
    ensures examples { ExamplesHold B.State }
{}
