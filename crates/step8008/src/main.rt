// Reads a BNPF tape from standard input, steps it instruction by instruction from power-up and prints one line
// that says what the processor did.
#![tactic(auto)]

use report::Outcome;
use runner::step_tape;
use std::io;
use std::io::Read;

// The most bytes of tape that are read.
const TAPE: u64 = 60_000;

// The cells of the store, all RAM.
const CELLS: usize = 16384;

// The programs read alike and call different engines. What only reads and prints has no contract to share.
fn main(rt: HostRuntime) -> io::Result<()> {
    let mut tape = Vec::new(rt.alloc());
    let _ = rt.stdin().take(TAPE).read_to_end(&mut tape)?;
    let mut memory = vec![in rt.alloc(); 0u8; CELLS]?;
    let outcome = Outcome(step_tape(&tape, &mut memory));
    println!(rt; "{outcome}")
}
