ghost use Rattle.std.specs.Prelude.{◌≡◌, ◌/◌, ◌%◌, ◌<◌, Some};
ghost use Rattle.std.specs.Result.{result_ok};
ghost use Rattle.isa.specs.Decoding.{by_fields, quarter0, quarter1, quarter3, decoded};
ghost use Rattle.isa.specs.Laws.{InTable, OnlyOne, EncodesBack};

use crate::conditions::Condition;
use crate::instructions::{Instruction, Operand};
use crate::refusals::Refusal;

// The instruction that a byte stands for, and none for the six bytes that the instruction table lacks.
// No other instruction has that byte for a code, and encoding it gives the byte with its free bits at zero.
pub fn decode(code: u8) -> Option<Instruction>
    ensures value { result ≡ decoded code }
    ensures in_table { InTable code result }
    ensures only_one { OnlyOne code result }
    ensures encodes_back { EncodesBack code result }
{
    obey_table(code);
    Fields::from(code).instruction().ok()
}

// The proof that decoding keeps to the instruction table at this byte. It does nothing.
fn obey_table(code: u8)
    ensures in_table { InTable code (decoded code) }
    ensures only_one { OnlyOne code (decoded code) }
    ensures encodes_back { EncodesBack code (decoded code) }
{}

// The bit fields hh mmm lll of a byte, with the port, which is bits 5 to 1.
#[derive(Clone, Copy)]
struct Fields {
    high: u8,
    port: u8,
    middle: u8,
    low: u8,
    ghost high_bits: { high < 4 },
    ghost middle_bits: { middle < 8 },
    ghost low_bits: { low < 8 },
}

impl From<u8> for Fields {
    ghost from_gives = { λ code f. (f.high ≡ code / 64) × ((f.port ≡ code / 2 % 32) × ((f.middle ≡ code / 8 % 8) × (f.low ≡ code % 8))) };

    fn from(code: u8) -> Self {
        Fields {
            high: code / 64,
            port: code / 2 % 32,
            middle: code / 8 % 8,
            low: code % 8,
        }
    }
}

impl Fields {
    fn instruction(self) -> Result<Instruction, Refusal>
        ensures { result_ok result ≡ by_fields self.high self.port self.middle self.low }
    {
        match self.high {
            0 => self.in_quarter_0(),
            1 => self.in_quarter_1(),
            2 => Ok(Instruction::Arithmetic(self.middle.try_into()?, self.low.try_into()?)),
            _ => self.in_quarter_3(),
        }
    }

    fn in_quarter_0(self) -> Result<Instruction, Refusal>
        ensures { result_ok result ≡ quarter0 self.middle self.low }
    {
        Ok(match (self.middle, self.low) {
            (0, 0 | 1) => Instruction::Halt,
            (d, 0) => Instruction::Increment(d.try_into()?),
            (d, 1) => Instruction::Decrement(d.try_into()?),
            (r, 2) => Instruction::Rotate(r.try_into()?),
            (c, 3) => Instruction::Return(c.try_into()?),
            (p, 4) => Instruction::Arithmetic(p.try_into()?, Operand::Immediate),
            (a, 5) => Instruction::Restart(a),
            (7, 6) => Instruction::StoreImmediate,
            (d, 6) => Instruction::LoadImmediate(d.try_into()?),
            _ => Instruction::Return(Condition::Always),
        })
    }

    fn in_quarter_1(self) -> Result<Instruction, Refusal>
        ensures { result_ok result ≡ Some (quarter1 self.port self.middle self.low) }
    {
        Ok(match self.low {
            0 => Instruction::Jump(self.middle.try_into()?),
            2 => Instruction::Call(self.middle.try_into()?),
            4 => Instruction::Jump(Condition::Always),
            6 => Instruction::Call(Condition::Always),
            _ => if self.port < 8 {
                Instruction::Input(self.port)
            } else {
                Instruction::Output(self.port)
            },
        })
    }

    fn in_quarter_3(self) -> Result<Instruction, Refusal>
        ensures { result_ok result ≡ Some (quarter3 self.middle self.low) }
    {
        Ok(match (self.middle, self.low) {
            (7, 7) => Instruction::Halt,
            (d, 7) => Instruction::LoadMemory(d.try_into()?),
            (7, s) => Instruction::StoreMemory(s.try_into()?),
            (d, s) => Instruction::Load(d.try_into()?, s.try_into()?),
        })
    }
}
