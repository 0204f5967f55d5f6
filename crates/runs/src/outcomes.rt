use cpu::Fault;
use states::Tally;

// The fault of the tick that stopped a run, and that tick's index in the schedule, counted from 0.
#[derive(Clone, Copy, PartialEq, Eq, Debug)]
pub struct RunFault {
    pub fault: Fault,
    pub tick: usize,
}

// What a run came to: what its accepted ticks add up to, the states in hand before and after, and the fault that
// stopped it, if one did. An instruction that was begun before the run counts with all its table states if it ends
// in the run.
#[derive(Clone, Copy, PartialEq, Eq, Debug)]
pub struct Ran {
    pub tally: Tally,
    pub in_hand_before: u8,
    pub in_hand_after: u8,
    pub fault: Option<RunFault>,
}
