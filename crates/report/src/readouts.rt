// What a processor shows.
ghost use Rattle.cpu.specs.Processor.{view_of};
ghost use Rattle.report.specs.Line.{readout_text};
ghost use Rattle.report.specs.Readouts.{readout_of};
ghost use Rattle.std.specs.Prelude.{◌≡◌, Some};

use crate::digits::Hex4;
use crate::fields::{FlagDigits, RegisterFields};
use cpu::Processor;
use isa::{Flags, Registers};
use std::fmt;

// What a processor shows: its registers and flags, the program counter and the ring number.
#[derive(Clone, Copy, PartialEq, Eq, Debug)]
pub struct Readout {
    pub registers: Registers,
    pub flags: Flags,
    pub pc: u16,
    // The ring number.
    pub k: u8,
}

impl Readout {
    // What this processor shows.
    pub fn of(processor: &Processor) -> Readout
        ensures { result ≡ readout_of (view_of processor.now) }
    {
        Readout {
            registers: processor.registers,
            flags: processor.flags,
            pc: processor.ring.pc(),
            k: processor.ring.number(),
        }
    }
}

impl fmt::Display for Readout {
    ghost output = { λ readout. Some (readout_text readout) };

    fn fmt<W: fmt::Write>(&self, f: &mut fmt::Formatter<W>) -> fmt::Result {
        write!(
            f,
            "{} F={} PC={} K={}",
            RegisterFields(self.registers),
            FlagDigits(self.flags),
            Hex4(self.pc),
            self.k
        )
    }
}
