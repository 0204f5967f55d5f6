// Peripherals for the bus of an Intel 8008: a store in a ring of shift registers, and a card that
// feeds in a list at one port and puts out into a buffer at another.
#![tactic(auto)]

mod feed;
mod shift;

pub use feed::FeedCard;
pub use shift::ShiftStore;
