ghost use Rattle.std.specs.Prelude.{◌≡◌};
ghost use Rattle.cpu.specs.Processor.{view_of};
ghost use Rattle.example_table.specs.Sights.{sight_of};

use cpu::Processor;
use isa::Flags;
use report::{Hex2, Hex4};
use std::fmt;

// What a row of the trace shows of a processor: the flags carry, zero, sign, parity as digits, A, L, the ring
// number and the program counter.
#[derive(Clone, Copy)]
pub(crate) struct Sight {
    pub(crate) flags: [u8; 4],
    pub(crate) a: u8,
    pub(crate) l: u8,
    pub(crate) k: u8,
    pub(crate) pc: u16,
}

impl fmt::Display for Sight {
    fn fmt<W: fmt::Write>(&self, f: &mut fmt::Formatter<W>) -> fmt::Result {
        let [carry, zero, sign, parity] = self.flags;
        write!(f, "F={carry}{zero}{sign}{parity}")?;
        write!(f, " A={} L={}", Hex2(self.a), Hex2(self.l))?;
        write!(f, " K={} PC={}", self.k, Hex4(self.pc))
    }
}

// What is seen of a processor.
pub(crate) fn sight_of(processor: &Processor) -> Sight
    ensures { result ≡ sight_of (view_of processor.now) }
{
    let Flags {
        carry,
        zero,
        sign,
        parity,
    } = processor.flags;
    Sight {
        flags: [carry, zero, sign, parity].map(u8::from),
        a: processor.registers.a,
        l: processor.registers.l,
        k: processor.ring.number(),
        pc: processor.ring.pc(),
    }
}
