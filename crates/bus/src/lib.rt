// What an Intel 8008 processor is wired to: a store of 16,384 cells, and the cards at its ports.
// The traits say what every store and every card owes; a flat store and a card of latches meet them.
#![tactic(auto)]

mod buses;
mod cards;
mod flat;
mod latches;
mod stores;

pub use buses::{Board, Bus, HeldBoard, MemoryBus, SeenBoard, Wired};
pub use cards::{PortCard, Trouble};
pub use flat::FlatStore;
pub use latches::LatchCard;
pub use stores::{Store, Written, cell_at};
