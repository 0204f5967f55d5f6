// Runs a table of tapes, each over a fresh memory, and compares the line of each with the expected one.
#![tactic(auto)]

ghost use Rattle.std.specs.Prelude.{◌≡◌, ◌*◌, IfOk, vec_len};

mod rows;

use report::line;
use rows::{HALTED_IN_CELL_0, ROWS, Row};
use runner::run_tape;
use std::alloc::{AllocError, Global};
use std::io;

// The cells of the memory, all RAM.
const CELLS: usize = 16384;

fn main(rt: HostRuntime) -> io::Result<()> {
    let mut full = zero_words(rt.alloc(), CELLS)?;
    full.push(b'$')?;
    let overfull = zero_words(rt.alloc(), CELLS + 1)?;
    let long_rows = [
        Row {
            name: "a word for each cell, then $",
            tape: &full,
            expected: HALTED_IN_CELL_0,
        },
        Row {
            name: "one word more than cells",
            tape: &overfull,
            expected: "tape 8 at 163840",
        },
    ];
    let mut passed = 0u32;
    for row in ROWS.iter().chain(long_rows.iter()) {
        if run_row(&rt, row)? {
            passed = passed.saturating_add(1);
        }
    }
    println!(rt; "{passed} of {} rows passed", ROWS.len() + long_rows.len())
}

// Runs the tape of a row and prints what came of it; answers whether it was the expected line.
fn run_row(rt: &HostRuntime, row: &Row<'_>) -> io::Result<bool> {
    let mut memory = vec![in rt.alloc(); 0u8; CELLS]?;
    let came = line(rt.alloc(), &run_tape(row.tape, &mut memory))?;
    let as_expected = came.as_str() == row.expected;
    if as_expected {
        println!(rt; "{}: ok", row.name)?;
    } else {
        println!(rt; "{}: WRONG expected {} came {came}", row.name, row.expected)?;
    }
    Ok(as_expected)
}

// A tape of so many zero bytes, with nothing between their words.
fn zero_words(heap: Global, count: usize) -> Result<Vec<u8>, AllocError>
    ensures { IfOk result (λ tape. vec_len tape ≡ count * 10) }
{
    b"BNNNNNNNNF".repeat(heap, count)
}
