// The line that says what the processor did, made from values.
#![tactic(auto)]

mod digits;
mod fields;
mod output;
mod readouts;
mod summary;

pub use digits::{Hex2, Hex4};
pub use fields::{FlagDigits, RegisterFields};
pub use output::{Outcome, line};
pub use readouts::Readout;
pub use summary::{Ending, Report};
