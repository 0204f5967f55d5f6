use report::Readout;
use runs::RunFault;
use states::Tally;

// What one engine came to: the instructions that ended and their table states, waits, idle states, the states in
// hand, the ticks that all these make, and what the processor showed as the last instruction ended.
#[derive(Clone, Copy, PartialEq, Eq, Debug)]
pub struct Column {
    // Its accepted ticks are the ticks that all the others make.
    pub tally: Tally,
    pub in_hand: u8,
    pub readout: Readout,
}

// What both engines came to, and the fault of the tick that stopped the schedule, if one did. The state engine
// counts its ticks one by one. The instruction engine knows neither waits nor idle states nor states in hand: its
// column takes these from the state engine, and its ticks are the states of its steps with these.
#[derive(Clone, Copy, PartialEq, Eq, Debug)]
pub struct Slip {
    pub states: Column,
    pub steps: Column,
    pub fault: Option<RunFault>,
}
