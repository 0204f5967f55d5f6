// Compares worked examples with what comes of them: refusals with their places, and the trace of a string search.
#![tactic(auto)]

mod comparing;
mod refusals;
mod rows;
mod sights;
mod trace;

use comparing::Tally;
use refusals::compare_refusals;
use std::io;
use trace::compare_trace;

fn main(rt: HostRuntime) -> io::Result<()> {
    let mut tally = Tally::default();
    compare_refusals(&rt, &mut tally)?;
    compare_trace(&rt, &mut tally)?;
    println!(rt; "{} of {} rows differ", tally.different, tally.rows)
}
