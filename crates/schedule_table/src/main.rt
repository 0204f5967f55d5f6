// Runs a table of schedules, each row over a fresh machine, and compares what each run answers with what is
// expected.
#![tactic(auto)]

mod lines;
mod rows;
mod schedules;
mod spent;

use bus::{Board, Bus, FlatStore, LatchCard};
use lines::Line;
use machine::{Machine, RunKey, power};
use rows::{ROWS, Row, Run};
use runs::run;
use spent::run_spent;
use std::alloc::{AllocError, Global};
use std::io;

fn main(rt: HostRuntime) -> io::Result<()> {
    let mut passed = 0u32;
    for row in ROWS.iter() {
        passed = passed.saturating_add(u32::from(run_row(&rt, row)?));
    }
    passed = passed.saturating_add(u32::from(run_spent(&rt)?));
    println!(rt; "{passed} of {} rows passed", ROWS.len() + 1)
}

// Makes the runs of a row, up to the first that answers something else than is expected, and prints what came
// of them; answers whether all was as expected. Input port 1 gives 77.
fn run_row(rt: &HostRuntime, row: &Row) -> io::Result<bool> {
    let mut memory = row.program.to_vec(rt.alloc())?;
    let mut board = Board {
        store: FlatStore {
            bytes: &mut memory,
            fixed: 0,
        },
        card: LatchCard::new(),
    };
    let _ = board.card.set_input(1, 77);
    let (mut machine, key) = power(&board);
    for part in row.runs {
        let came = run_part(rt.alloc(), part, &mut machine, &key, &mut board)?;
        if came.as_str() != part.expected {
            println!(rt;
                "{}: WRONG expected {} came {came}",
                row.name, part.expected
            )?;
            return Ok(false);
        }
    }
    println!(rt; "{}: ok", row.name)?;
    Ok(true)
}

// Makes one run, and answers its line.
fn run_part(
    heap: Global,
    part: &Run,
    machine: &mut Machine,
    key: &RunKey,
    board: &mut Board<FlatStore<'_>, LatchCard>,
) -> Result<String, AllocError> {
    let _ = if part.port_1 {
        board.card.fit(1)
    } else {
        board.card.unfit(1)
    };
    let schedule = part.schedule.bytes(heap)?;
    run_over(heap, &schedule, machine, key, board)
}

// Runs a machine over a schedule, and answers the line of what came of it.
pub(crate) fn run_over<B: Bus>(
    heap: Global,
    schedule: &[u8],
    machine: &mut Machine,
    key: &RunKey,
    bus: &mut B,
) -> Result<String, AllocError> {
    let answer = run(machine, key, schedule, bus);
    let processor = machine.processor();
    format!(in heap; "{}", Line { answer, processor })
}
