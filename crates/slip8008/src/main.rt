// Reads a BNPF tape from standard input, runs it on both engines over the schedule that the arguments describe, and
// prints what each engine came to, side by side.
#![tactic(auto)]

mod arguments;
mod refusals;

use refusals::Refusal;
use slips::{Slip, make_slip};
use std::io;
use std::io::Read;

// The most bytes of tape that are read.
const TAPE: u64 = 60_000;

fn main(rt: HostRuntime) -> io::Result<()> {
    match run(&rt) {
        Ok(slip) => println!(rt; "{slip}"),
        Err(Refusal::Failed(error)) => Err(error),
        Err(refusal) => println!(rt; "{refusal}"),
    }
}

// The slip of the tape that standard input has and of the schedule that the arguments describe.
fn run(rt: &HostRuntime) -> Result<Slip, Refusal> {
    let schedule = arguments::read(rt)?;
    let mut tape = Vec::new(rt.alloc());
    let _ = rt.stdin().take(TAPE).read_to_end(&mut tape)?;
    Ok(make_slip(rt.alloc(), &tape, &schedule)?)
}
