ghost use Rattle.std.specs.Prelude.{◌≡◌};
ghost use Rattle.states.specs.Sequencing.{states_in_hand};

use crate::machines::Machine;
use cpu::Processor;
use isa::Cycle;
use states::{InHand, Underway};

impl Machine {
    // What the processor holds. It is a copy: nothing done to it reaches the machine.
    pub fn processor(&self) -> Processor
        ensures { result ≡ self.now.processor }
    {
        self.processor
    }

    // The states that the instruction in hand has spent, waits left out. At an instruction's start it is 0.
    pub fn states_in_hand(&self) -> u8
        ensures { result ≡ states_in_hand self.now.hand }
    {
        match self.hand {
            InHand::Start => 0,
            InHand::Opening(_) => 1,
            InHand::Opened(_) => 2,
            InHand::Underway(work) => states_before(&work),
        }
    }
}

fn states_before(work: &Underway) -> u8
    ensures { result ≡ states_in_hand (InHand.Underway work.now) }
{
    let first = work.instruction.states(work.taken, Cycle::First);
    let second = work.instruction.states(work.taken, Cycle::Second);
    let in_cycles = match work.cycle {
        Cycle::First => 0,
        Cycle::Second => first,
        Cycle::Third => first + second,
    };
    in_cycles + work.next as u8
}
