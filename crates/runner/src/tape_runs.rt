ghost use Rattle.std.specs.Prelude.{◌≡◌, ℕ, List, Ok};
ghost use Rattle.bus.specs.Flat.{flat_cells, flat_frame};
ghost use Rattle.bus.specs.Latch.{all_fitted, fitted_of, latches_of, zeroed};
ghost use Rattle.cpu.specs.Processor.{view_of};
ghost use Rattle.tape.specs.Reading.{OneReading};
ghost use Rattle.runner.specs.TapeRun.{Run, TapeRun, MemoryRun, by_ticks, by_steps, report_of};

use crate::running::{Finished, run_to_halt};
use crate::walking::step_to_halt;
use bus::{Board, FlatStore, LatchCard};
use cpu::Processor;
use machine::power;
use report::{Readout, Report};
use tape::{TapeRefusal, read_tape};

// Reads a tape into the memory, which is all RAM, powers up a machine over it and a latch card, all fitted and
// zero, and runs it tick by tick. A refused tape leaves the words before the fault in the memory, and no tick is
// made.
pub fn run_tape(tape: &[u8], memory: &mut [u8]) -> Result<Report, TapeRefusal>
    ensures run { TapeRun by_ticks tape.now memory.old memory.new result }
    ensures unambiguous { OneReading }
{
    run_by::<Ticks>(tape, memory)
}

// The same, with a processor that goes step by step. A call for each engine, since the engines are no types of the
// callers.
pub fn step_tape(tape: &[u8], memory: &mut [u8]) -> Result<Report, TapeRefusal>
    ensures run { TapeRun by_steps tape.now memory.old memory.new result }
    ensures unambiguous { OneReading }
{
    run_by::<Steps>(tape, memory)
}

// Reads a tape into the memory and runs it, if it is not refused.
fn run_by<E: Engine>(tape: &[u8], memory: &mut [u8]) -> Result<Report, TapeRefusal>
    ensures run { TapeRun E.by tape.now memory.old memory.new result }
    ensures unambiguous { OneReading }
{
    read_tape(tape, memory)?;
    Ok(run_memory::<E>(memory))
}

// Runs a memory, which is all RAM, with a latch card all fitted and zero.
fn run_memory<E: Engine>(memory: &mut [u8]) -> Report
    ensures { MemoryRun E.by memory.old memory.new (Ok result) }
{
    let mut store = FlatStore {
        bytes: memory,
        fixed: 0,
    };
    let mut card = LatchCard::new();
    E::run(&mut store, &mut card)
}

// What runs a store and a port card from power-up.
trait Engine {
    ghost by: { List ℕ → Run };

    fn run(store: &mut FlatStore<'_>, card: &mut LatchCard) -> Report
        requires { (store.old.fixed ≡ 0) × ((latches_of card.old ≡ zeroed) × (fitted_of card.old ≡ all_fitted)) }
        ensures report { result ≡ report_of (by store.old.bytes.now).processor (by store.old.bytes.now).finished }
        ensures cells { flat_cells store.new ≡ (by store.old.bytes.now).cells }
        ensures frame { flat_frame store.new ≡ flat_frame store.old };
}

// A machine that goes tick by tick.
struct Ticks;

impl Engine for Ticks {
    ghost by = { by_ticks };

    fn run(store: &mut FlatStore<'_>, card: &mut LatchCard) -> Report {
        let mut board = Board { store, card };
        let (mut machine, key) = power(&board);
        let finished = run_to_halt(&mut machine, &key, &mut board);
        report_of(&machine.processor(), finished)
    }
}

// A processor that goes step by step.
struct Steps;

impl Engine for Steps {
    ghost by = { by_steps };

    fn run(store: &mut FlatStore<'_>, card: &mut LatchCard) -> Report {
        let mut board = Board { store, card };
        let mut processor = Processor::new();
        let finished = step_to_halt(&mut processor, &mut board);
        report_of(&processor, finished)
    }
}

// What the processor shows, and what its run came to.
fn report_of(processor: &Processor, finished: Finished) -> Report
    ensures { result ≡ report_of (view_of processor.now) finished }
{
    Report {
        readout: Readout::of(processor),
        tally: finished.tally,
        ending: finished.ending,
    }
}
