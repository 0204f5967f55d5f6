// Runs a tape from power-up until the processor halts, and says what came of it.
#![tactic(auto)]

mod running;
mod tape_runs;
mod walking;

pub use running::{Finished, run_to_halt};
pub use tape_runs::{run_tape, step_tape};
pub use walking::step_to_halt;
