ghost use Rattle.std.specs.Prelude.{◌≡◌, ◌<◌};
ghost use Rattle.isa.specs.Codes.{bits};
ghost use Rattle.isa.specs.Encoding.{conditional, arithmetic_code, encoded};
ghost use Rattle.isa.specs.Laws.{DecodesBack};

use crate::conditions::Condition;
use crate::instructions::{Group, Instruction, Operand};
use crate::refusals::Refusal;
use crate::register_file::Register;

// The plain code of an instruction: free bits at zero, and 00H for a halt. Decoding it gives the
// instruction back. Refused is what no code of the instruction table stands for: one more or one less of
// A, a restart number above 7, an input port above 7, an output port outside 8 to 31.
pub fn encode(instruction: Instruction) -> Result<u8, Refusal>
    ensures value { result ≡ encoded instruction }
    ensures decodes_back { DecodesBack instruction result }
{
    obey_table(instruction);
    plain_code(instruction)
}

// The proof that encoding keeps to the instruction table at this instruction. It does nothing.
fn obey_table(instruction: Instruction)
    ensures { DecodesBack instruction (encoded instruction) }
{}

fn plain_code(instruction: Instruction) -> Result<u8, Refusal>
    ensures { result ≡ encoded instruction }
{
    Ok(match instruction {
        Instruction::Load(d, s) => code(3, d as u8, s as u8),
        Instruction::LoadMemory(d) => code(3, d as u8, 7),
        Instruction::StoreMemory(s) => code(3, 7, s as u8),
        Instruction::LoadImmediate(d) => code(0, d as u8, 6),
        Instruction::StoreImmediate => code(0, 7, 6),
        Instruction::Increment(Register::A) | Instruction::Decrement(Register::A) => return Err(
            Refusal::NoInstruction,
        ),
        Instruction::Increment(d) => code(0, d as u8, 0),
        Instruction::Decrement(d) => code(0, d as u8, 1),
        Instruction::Arithmetic(group, operand) => arithmetic_code(group, operand),
        Instruction::Rotate(rotation) => code(0, rotation as u8, 2),
        Instruction::Jump(condition) => conditional_code(1, condition, 4, 0),
        Instruction::Call(condition) => conditional_code(1, condition, 6, 2),
        Instruction::Return(condition) => conditional_code(0, condition, 7, 3),
        Instruction::Restart(a @ 0..=7) => code(0, a, 5),
        Instruction::Input(m @ 0..=7) | Instruction::Output(m @ 8..=31) => 64 + 2 * m + 1,
        Instruction::Restart(_) | Instruction::Input(_) | Instruction::Output(_) => return Err(
            Refusal::NoInstruction,
        ),
        Instruction::Halt => 0,
    })
}

// The byte hh mmm lll.
fn code(high: u8, middle: u8, low: u8) -> u8
    requires { (high < 4) × ((middle < 8) × (low < 8)) }
    ensures { result ≡ bits high middle low }
{
    high * 64 + middle * 8 + low
}

// The low bits tell an unconditional form from a conditional one, whose middle bits are fcc.
fn conditional_code(high: u8, condition: Condition, always: u8, when: u8) -> u8
    requires { (high < 4) × ((always < 8) × (when < 8)) }
    ensures { result ≡ conditional high condition always when }
{
    match condition {
        Condition::Always => code(high, 0, always),
        Condition::When(flag, value) => code(high, 4 * u8::from(value) + flag as u8, when),
    }
}

fn arithmetic_code(group: Group, operand: Operand) -> u8
    ensures { result ≡ arithmetic_code group operand }
{
    match operand {
        Operand::Register(s) => code(2, group as u8, s as u8),
        Operand::Memory => code(2, group as u8, 7),
        Operand::Immediate => code(0, group as u8, 4),
    }
}
