// The string search, step by step.

ghost use Rattle.std.specs.Prelude.{◌≡◌, false};
ghost use Rattle.cpu.specs.Processor.{view_of, powered, with_stopped};
ghost use Rattle.example_table.specs.Trace.{states_of};

use crate::comparing::Tally;
use crate::rows::{AFTER_HLT, PROGRAM, ROWS, Row, TEXT, TEXT_AT};
use crate::sights::sight_of;
use bus::{Board, FlatStore, LatchCard};
use cpu::{Fault, Processor};
use std::alloc::{AllocError, Global};
use std::io;
use stepper::{Feed, step};

// Takes an own step for each row, and compares what stands before it; then what stands after the last, and the
// table states of all.
pub(crate) fn compare_trace(rt: &HostRuntime, tally: &mut Tally) -> io::Result<()> {
    let mut memory = search_memory(rt.alloc())?;
    let mut board = Board {
        store: FlatStore {
            bytes: &mut memory,
            fixed: 0,
        },
        card: LatchCard::new(),
    };
    let mut processor = running_processor();
    let mut states = 0u32;
    for row in ROWS.iter() {
        compare_row(rt, tally, row, &processor)?;
        let answer = step(&mut processor, Feed::Own, &mut board);
        states = states.saturating_add(u32::from(states_of(answer)));
    }
    compare_row(rt, tally, &AFTER_HLT, &processor)?;
    tally.compare(rt, "table states of the trace", "117", &states)
}

// Compares a row with what is seen of the processor.
fn compare_row(
    rt: &HostRuntime,
    tally: &mut Tally,
    row: &Row,
    processor: &Processor,
) -> io::Result<()> {
    let expected = format!(in rt.alloc(); "{}", row.sight)?;
    tally.compare(rt, row.name, &expected, &sight_of(processor))
}

// All zero, as at power-up, but not stopped.
fn running_processor() -> Processor
    ensures { view_of result ≡ with_stopped powered false }
{
    let mut processor = Processor::new();
    processor.stopped = false;
    processor
}

// The program from cell 0 on, and the text that it searches, with zeros between them.
fn search_memory(heap: Global) -> Result<Vec<u8>, AllocError> {
    let mut memory = PROGRAM.to_vec(heap)?;
    memory.resize(TEXT_AT, 0)?;
    memory.extend_from_slice(&TEXT)?;
    Ok(memory)
}

// The table states of a step. One that was refused, or that found the processor stopped, has none.
fn states_of(answer: Result<Option<u8>, Fault>) -> u8
    ensures { result ≡ states_of answer }
{
    answer.unwrap_or(None).unwrap_or(0)
}
