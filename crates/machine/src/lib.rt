// The state engine: a processor that goes state by state, with each WAIT and each interrupt as the Intel
// 8008 made them.
#![tactic(auto)]

mod holding;
mod keys;
mod machines;
mod powering;
mod reading;
mod refusals;
mod sequencing;
mod ticking;
mod transfers;

pub use keys::{HoldKey, RunKey};
pub use machines::Machine;
pub use powering::power;
pub use refusals::HoldRefusal;
pub use states::{Levels, State, Ticked};
