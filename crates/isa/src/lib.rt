// The instruction set of the Intel 8008: what there is to name, how it is coded in bytes, and how many
// cycles and states each instruction takes.
#![tactic(auto)]

mod conditions;
mod cycles;
mod decoder;
mod encoder;
mod instructions;
mod refusals;
mod register_file;

pub use conditions::{Condition, Flag, Flags};
pub use cycles::{Cycle, CycleKind, Transfer};
pub use decoder::decode;
pub use encoder::encode;
pub use instructions::{Group, Instruction, Operand, Rotation};
pub use refusals::Refusal;
pub use register_file::{Register, Registers};
