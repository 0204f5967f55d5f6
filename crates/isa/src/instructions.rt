ghost use Rattle.std.specs.Prelude.{◌≡◌};
ghost use Rattle.isa.specs.Decoding.{group_with_code, operand_with_code, rotation_with_code};

use crate::conditions::Condition;
use crate::refusals::Refusal;
use crate::register_file::Register;

// The eight arithmetic and logic groups, in the order of their codes 0 to 7: AD, AC, SU, SB, ND, XR, OR, CP.
#[derive(Clone, Copy, PartialEq, Eq, Debug)]
pub enum Group {
    Add,
    AddCarry,
    Subtract,
    SubtractBorrow,
    And,
    Xor,
    Or,
    Compare,
}

// What a group combines the accumulator with: a register, the memory cell M, or byte 2.
#[derive(Clone, Copy, PartialEq, Eq, Debug)]
pub enum Operand {
    Register(Register),
    Memory,
    Immediate,
}

// The four rotations, in the order of their codes 0 to 3: RLC, RRC, RAL, RAR.
#[derive(Clone, Copy, PartialEq, Eq, Debug)]
pub enum Rotation {
    Left,
    Right,
    LeftThroughCarry,
    RightThroughCarry,
}

// An instruction, in the order of the instruction table. Bytes 2 and 3 are no part of it.
#[derive(Clone, Copy, PartialEq, Eq, Debug)]
pub enum Instruction {
    // Lds: the first register takes the second.
    Load(Register, Register),
    // LdM: the register takes M.
    LoadMemory(Register),
    // LMs: M takes the register.
    StoreMemory(Register),
    // LdI: the register takes byte 2.
    LoadImmediate(Register),
    // LMI: M takes byte 2.
    StoreImmediate,
    // INd: one more; the table has no INA.
    Increment(Register),
    // DCd: one less; the table has no DCA.
    Decrement(Register),
    // ADs to CPI: the accumulator with the operand.
    Arithmetic(Group, Operand),
    // RLC, RRC, RAL, RAR.
    Rotate(Rotation),
    // JMP, JFc, JTc.
    Jump(Condition),
    // CAL, CFc, CTc.
    Call(Condition),
    // RET, RFc, RTc.
    Return(Condition),
    // RST: a call of 8 times the number, which is 0 to 7.
    Restart(u8),
    // INP: the accumulator takes the input of port 0 to 7.
    Input(u8),
    // OUT: the accumulator goes to port 8 to 31.
    Output(u8),
    // HLT: the processor stops.
    Halt,
}

// The group with this code. A code above 7 is refused.
impl TryFrom<u8> for Group {
    type Error = Refusal;

    ghost try_from_gives = { λ code r. r ≡ group_with_code code };

    fn try_from(code: u8) -> Result<Self, Refusal> {
        match code {
            0 => Ok(Group::Add),
            1 => Ok(Group::AddCarry),
            2 => Ok(Group::Subtract),
            3 => Ok(Group::SubtractBorrow),
            4 => Ok(Group::And),
            5 => Ok(Group::Xor),
            6 => Ok(Group::Or),
            7 => Ok(Group::Compare),
            _ => Err(Refusal::NoInstruction),
        }
    }
}

// The register or M with this code sss. A number above 7 is refused.
impl TryFrom<u8> for Operand {
    type Error = Refusal;

    ghost try_from_gives = { λ code r. r ≡ operand_with_code code };

    fn try_from(code: u8) -> Result<Self, Refusal> {
        match code {
            7 => Ok(Operand::Memory),
            _ => Ok(Operand::Register(code.try_into()?)),
        }
    }
}

// The rotation with this code. A code above 3 is refused.
impl TryFrom<u8> for Rotation {
    type Error = Refusal;

    ghost try_from_gives = { λ code r. r ≡ rotation_with_code code };

    fn try_from(code: u8) -> Result<Self, Refusal> {
        match code {
            0 => Ok(Rotation::Left),
            1 => Ok(Rotation::Right),
            2 => Ok(Rotation::LeftThroughCarry),
            3 => Ok(Rotation::RightThroughCarry),
            _ => Err(Refusal::NoInstruction),
        }
    }
}
