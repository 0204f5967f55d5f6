// The slip that goes out with a card: one tape and one schedule on both engines, and what each came to.
#![tactic(auto)]

mod agreeing;
mod beginnings;
mod closing;
mod columns;
mod comparing;
mod feeding;
mod making;
mod noting;
mod output;
mod patterns;
mod refusals;
mod sheets;

pub use columns::{Column, Slip};
pub use making::make_slip;
pub use patterns::{drive_ready, interrupt_at};
pub use refusals::SlipRefusal;
