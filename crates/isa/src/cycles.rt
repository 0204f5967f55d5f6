ghost use Rattle.std.specs.Prelude.{◌≡◌, ◌<◌, ◌≤◌, Bool};
ghost use Rattle.isa.specs.Cycles.{cycle_number, taken_under, transfer_in, kind_of, kind_in, states_in, table_states_of, MovesIfItHasStates};

use crate::conditions::Flags;
use crate::instructions::{Instruction, Operand};
use crate::register_file::Register;

// A memory cycle of an instruction. Each has at most one transfer.
#[derive(Clone, Copy, PartialEq, Eq, Debug)]
pub enum Cycle {
    First = 1,
    Second = 2,
    Third = 3,
}

// What a cycle is for, by the names that the processor puts out: PCI reads the first byte of an
// instruction, PCR any other byte, PCW writes, PCC goes to a port.
#[derive(Clone, Copy, PartialEq, Eq, Debug)]
pub enum CycleKind {
    Pci,
    Pcr,
    Pcw,
    Pcc,
}

// The one transfer of a cycle.
#[derive(Clone, Copy, PartialEq, Eq, Debug)]
pub enum Transfer {
    // A byte of the instruction is read at the program counter.
    Fetch,
    // M is read.
    Read,
    // M takes a register.
    WriteRegister(Register),
    // M takes byte 2.
    WriteImmediate,
    // A byte is read from the port, to which the accumulator is shown.
    Input(u8),
    // The accumulator goes to the port.
    Output(u8),
}

impl Cycle {
    // 1, 2 or 3.
    pub fn number(self) -> u8
        ensures { result ≡ cycle_number self }
    {
        self as u8
    }
}

impl Transfer {
    // The kind of a cycle, other than the first, that has this transfer.
    fn kind(self) -> CycleKind
        ensures { result ≡ kind_of self }
    {
        match self {
            Transfer::Fetch | Transfer::Read => CycleKind::Pcr,
            Transfer::WriteRegister(_) | Transfer::WriteImmediate => CycleKind::Pcw,
            Transfer::Input(_) | Transfer::Output(_) => CycleKind::Pcc,
        }
    }
}

impl Instruction {
    // Whether the instruction goes through under these flags: its condition holds, or it has none.
    pub fn taken(self, flags: &Flags) -> bool
        ensures { result ≡ taken_under self flags.now }
    {
        match self {
            Instruction::Jump(condition)
            | Instruction::Call(condition)
            | Instruction::Return(condition) => flags.meet(condition),
            _ => true,
        }
    }

    // What the cycle moves, and none where the instruction has no such cycle.
    pub fn transfer(self, cycle: Cycle) -> Option<Transfer>
        ensures value { result ≡ transfer_in self cycle }
        ensures where_there_are_states { MovesIfItHasStates self cycle result }
    {
        match cycle {
            Cycle::First => Some(Transfer::Fetch),
            Cycle::Second => self.second_transfer(),
            Cycle::Third => self.third_transfer(),
        }
    }

    fn second_transfer(self) -> Option<Transfer>
        ensures value { result ≡ transfer_in self Cycle.Second }
        ensures where_there_are_states { MovesIfItHasStates self Cycle.Second result }
    {
        match self {
            Instruction::LoadMemory(_) | Instruction::Arithmetic(_, Operand::Memory) => Some(
                Transfer::Read,
            ),
            Instruction::StoreMemory(s) => Some(Transfer::WriteRegister(s)),
            Instruction::LoadImmediate(_)
            | Instruction::StoreImmediate
            | Instruction::Arithmetic(_, Operand::Immediate)
            | Instruction::Jump(_)
            | Instruction::Call(_) => Some(Transfer::Fetch),
            Instruction::Input(port) => Some(Transfer::Input(port)),
            Instruction::Output(port) => Some(Transfer::Output(port)),
            _ => None,
        }
    }

    fn third_transfer(self) -> Option<Transfer>
        ensures value { result ≡ transfer_in self Cycle.Third }
        ensures where_there_are_states { MovesIfItHasStates self Cycle.Third result }
    {
        match self {
            Instruction::StoreImmediate => Some(Transfer::WriteImmediate),
            Instruction::Jump(_) | Instruction::Call(_) => Some(Transfer::Fetch),
            _ => None,
        }
    }

    // The kind of the cycle, and none where the instruction has no such cycle.
    pub fn kind(self, cycle: Cycle) -> Option<CycleKind>
        ensures { result ≡ kind_in self cycle }
    {
        match cycle {
            Cycle::First => Some(CycleKind::Pci),
            _ => self.transfer(cycle).map(Transfer::kind),
        }
    }

    // The states of the cycle: 3, 4 or 5, and 0 where the instruction has no such cycle.
    pub fn states(self, taken: bool, cycle: Cycle) -> u8
        ensures value { result ≡ states_in self taken cycle }
        ensures at_most_five { result ≤ 5 }
        ensures none_or_three { 0 < result → 3 ≤ result }
    {
        match (self, cycle) {
            (Instruction::Halt | Instruction::StoreMemory(_), Cycle::First) => 4,
            (Instruction::Return(_), Cycle::First) => if taken { 5 } else { 3 },
            (
                Instruction::Load(_, _)
                | Instruction::Increment(_)
                | Instruction::Decrement(_)
                | Instruction::Arithmetic(_, Operand::Register(_))
                | Instruction::Rotate(_)
                | Instruction::Restart(_),
                Cycle::First,
            ) => 5,
            (_, Cycle::First) => 3,
            (
                Instruction::StoreMemory(_)
                | Instruction::StoreImmediate
                | Instruction::Jump(_)
                | Instruction::Call(_)
                | Instruction::Output(_),
                Cycle::Second,
            ) => 3,
            (
                Instruction::LoadMemory(_)
                | Instruction::LoadImmediate(_)
                | Instruction::Arithmetic(_, Operand::Memory | Operand::Immediate)
                | Instruction::Input(_),
                Cycle::Second,
            ) => 5,
            (Instruction::StoreImmediate, Cycle::Third) => 3,
            (Instruction::Jump(_) | Instruction::Call(_), Cycle::Third) => if taken {
                5
            } else {
                3
            },
            _ => 0,
        }
    }

    // The states of all its cycles together.
    pub fn table_states(self, taken: bool) -> u8
        ensures { result ≡ table_states_of self taken }
    {
        self.states(taken, Cycle::First)
            + self.states(taken, Cycle::Second)
            + self.states(taken, Cycle::Third)
    }
}
