// The instruction engine: a processor that goes instruction by instruction.
#![tactic(auto)]

mod feeds;
mod fetching;
mod performing;
mod stepping;

pub use feeds::Feed;
pub use stepping::step;
