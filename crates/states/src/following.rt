use crate::in_hand::Phase;
use isa::Cycle;

// What follows a state: another state of its cycle, another cycle, or the instruction's end.
#[derive(Clone, Copy, PartialEq, Eq, Debug)]
pub enum Following {
    Phase(Phase),
    Cycle(Cycle),
    End,
}
