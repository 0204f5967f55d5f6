// What the arithmetic unit of the Intel 8008 makes of its operands, and what it does to the flags.
#![tactic(auto)]

mod arithmetic;
mod outcomes;
mod rotations;

pub use arithmetic::{combine, decrement, increment};
pub use outcomes::Outcome;
pub use rotations::rotate;
