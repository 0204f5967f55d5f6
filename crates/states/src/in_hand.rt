use isa::{Cycle, Instruction};

// The state of a cycle that comes next.
#[derive(Clone, Copy, PartialEq, Eq, Debug)]
pub enum Phase {
    T1,
    T2,
    T3,
    T4,
    T5,
}

// An instruction whose first byte is still to come.
#[derive(Clone, Copy, PartialEq, Eq, Debug)]
pub struct Opening {
    // T1I began it: its first byte is the jam byte, and the program counter stays.
    pub jammed: bool,
    // The program counter at its start.
    pub start: u16,
}

// An instruction whose first byte is taken.
#[derive(Clone, Copy, PartialEq, Eq, Debug)]
pub struct Underway {
    pub instruction: Instruction,
    // The program counter at its start.
    pub start: u16,
    // Whether its condition, if it has one, held.
    pub taken: bool,
    pub cycle: Cycle,
    pub next: Phase,
    // The program counter as the last T2 found it: where a fetch reads.
    pub address: u16,
    // The bytes that cycles two and three gave.
    pub low: u8,
    pub high: u8,
}

// How far a machine is in an instruction.
#[derive(Clone, Copy, PartialEq, Eq, Debug)]
pub enum InHand {
    // At an instruction's start.
    Start,
    // T1 or T1I is over; T2 comes next.
    Opening(Opening),
    // T2 of cycle one is over; WAIT or T3 comes next.
    Opened(Opening),
    // T3 of cycle one is over.
    Underway(Underway),
}
