// The processor of the Intel 8008: its registers, flags and address ring, and what each instruction does
// to them.
#![tactic(auto)]

mod address_ring;
mod effects;
mod faults;
mod processors;
mod ring_moves;

pub use address_ring::AddressRing;
pub use faults::{Cause, Fault, Layer};
pub use processors::Processor;
