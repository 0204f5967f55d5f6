// Reads BNPF paper tapes, the form in which the programs of PROMs were punched.
#![tactic(auto)]

mod reader;
mod refusals;

pub use reader::read_tape;
pub use refusals::TapeRefusal;
