ghost use Rattle.std.specs.Prelude.{◌≡◌};
ghost use Rattle.cpu.specs.Processor.{view_of};
ghost use Rattle.cpu.specs.Effects.{target_of, operand_byte, taking, finished};

use crate::processors::Processor;
use alu::{Outcome, combine, decrement, increment, rotate};
use isa::{Instruction, Operand, Register};

impl Processor {
    // What an instruction does to registers, flags, ring and stopped mark, once its cycles have moved what
    // they move. `low` is the byte that cycle two gave, `high` that of cycle three; `taken` tells whether
    // its condition held. A byte or a result is bound before it is taken: the check does not cover a call on
    // the processor whose arguments read the processor.
    pub fn finish(&mut self, instruction: Instruction, taken: bool, low: u8, high: u8)
        ensures { view_of self.new ≡ finished instruction taken low high (view_of self.old) }
    {
        match instruction {
            Instruction::Load(d, s) => {
                let byte = self.registers.get(s);
                self.registers.set(d, byte);
            }
            Instruction::LoadMemory(d) | Instruction::LoadImmediate(d) => self
                .registers
                .set(d, low),
            Instruction::Increment(d) => {
                let outcome = increment(self.registers.get(d), self.flags.carry);
                self.take(d, outcome);
            }
            Instruction::Decrement(d) => {
                let outcome = decrement(self.registers.get(d), self.flags.carry);
                self.take(d, outcome);
            }
            Instruction::Arithmetic(group, operand) => {
                let byte = self.operand_byte(operand, low);
                let outcome = combine(group, self.registers.a, byte, self.flags.carry);
                self.take(Register::A, outcome);
            }
            Instruction::Rotate(rotation) => {
                let outcome = rotate(rotation, self.registers.a, self.flags);
                self.take(Register::A, outcome);
            }
            Instruction::Jump(_) if taken => self.ring = self.ring.jump(target(low, high)),
            Instruction::Call(_) if taken => self.ring = self.ring.call(target(low, high)),
            Instruction::Return(_) if taken => self.ring = self.ring.come_back(),
            Instruction::Restart(a) => self.ring = self.ring.call(8 * u16::from(a)),
            Instruction::Input(_) => self.registers.a = low,
            Instruction::Halt => self.stopped = true,
            // A store, an output, or what is not taken.
            _ => {}
        }
    }

    // The operand of a group: what the register holds, or the byte that cycle two gave.
    fn operand_byte(&self, operand: Operand, low: u8) -> u8
        ensures { result ≡ operand_byte operand (view_of self.now) low }
    {
        match operand {
            Operand::Register(s) => self.registers.get(s),
            Operand::Memory | Operand::Immediate => low,
        }
    }

    // The register takes the result, and the flags tell of it.
    fn take(&mut self, register: Register, outcome: Outcome)
        ensures { view_of self.new ≡ taking (view_of self.old) register outcome }
    {
        self.registers.set(register, outcome.value);
        self.flags = outcome.flags;
    }
}

// Apart from the address of M, since each is one call of the library.
// The address that bytes 2 and 3 give; the two high bits of byte 3 do not count.
fn target(low: u8, high: u8) -> u16
    ensures { result ≡ target_of low high }
{
    u16::from_be_bytes([high % 64, low])
}
