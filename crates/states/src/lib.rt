// The states of the Intel 8008: how far an instruction is, which state comes next, and what each does.
#![tactic(auto)]

mod following;
mod in_hand;
mod tallies;
mod ticks;

pub use following::Following;
pub use in_hand::{InHand, Opening, Phase, Underway};
pub use tallies::Tally;
pub use ticks::{Levels, State, Ticked};
