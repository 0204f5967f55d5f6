use isa::CycleKind;

// What a tick brings from outside: the levels of the READY and INT lines, and the byte that an
// interrupting card would put on the bus.
#[derive(Clone, Copy, PartialEq, Eq, Debug)]
pub struct Levels {
    pub ready: bool,
    pub int: bool,
    pub jam: u8,
}

// The states of the processor. T1I is T1 of an interrupt, Wait a wait for READY, Stopped the fourth state of
// a halt and every state of a stopped processor.
#[derive(Clone, Copy, PartialEq, Eq, Debug)]
pub enum State {
    T1,
    T1I,
    T2,
    Wait,
    T3,
    T4,
    T5,
    Stopped,
}

// The answer of an accepted tick: its state, the number and the kind of its cycle, and the table states of
// the instruction that it ended, if it ended one. An idle tick, that of a stopped machine, has cycle 0 and
// no kind.
#[derive(Clone, Copy, PartialEq, Eq, Debug)]
pub struct Ticked {
    pub state: State,
    // A number and not an enum, since an idle tick answers 0, which is no cycle.
    pub cycle: u8,
    pub kind: Option<CycleKind>,
    pub ended: Option<u8>,
}
