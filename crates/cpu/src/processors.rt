ghost use Rattle.std.specs.Prelude.{◌≡◌};
ghost use Rattle.cpu.specs.Processor.{view_of, powered};

use crate::address_ring::AddressRing;
use isa::{Flags, Registers};

// A processor: all that it holds from one instruction to the next.
#[derive(Clone, Copy, PartialEq, Eq, Debug)]
pub struct Processor {
    pub registers: Registers,
    pub flags: Flags,
    pub ring: AddressRing,
    pub stopped: bool,
}

impl Processor {
    // A processor at power-up: all zero, and stopped.
    pub fn new() -> Processor
        ensures { view_of result ≡ powered }
    {
        Processor {
            registers: Registers::default(),
            flags: Flags::default(),
            ring: AddressRing::new(),
            stopped: true,
        }
    }
}
