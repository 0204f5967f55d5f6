use bus::{Board, LatchCard};
use cpu::Processor;
use machine::Machine;

// A machine with the board that it works on, a store and a port card, and beside it a processor that goes by steps,
// with a board of its own. So nothing but a call on the machine alters what the machine works on.
// No model stands in for its fields, since programs and clauses name them; so each command says that frames are kept.
#[derive(Drop)]
pub struct Panel<S> {
    pub machine: Machine,
    pub board: Board<S, LatchCard>,
    pub processor: Processor,
    pub step_board: Board<S, LatchCard>,
}
