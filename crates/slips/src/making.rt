ghost use Rattle.std.specs.Prelude.{◌≡◌, replicate, IfOk};
ghost use Rattle.bus.specs.Flat.{flat, flat_cells};
ghost use Rattle.bus.specs.Latch.{latch_rules, all_fitted, fitted_of, latches_of, zeroed};
ghost use Rattle.bus.specs.Wiring.{wired};
ghost use Rattle.runs.specs.Schedules.{levels_of};
ghost use Rattle.slips.specs.Columns.{SlipOf};
ghost use Rattle.slips.specs.SideBySide.{wiring_of};
ghost use Rattle.slips.specs.Slips.{powered_over, Slipped};

use crate::columns::Slip;
use crate::comparing::compare;
use crate::refusals::SlipRefusal;
use bus::{Board, FlatStore, LatchCard};
use runs::Schedule;
use std::alloc::{AllocError, Global};
use tape::read_tape;

// The cells of each store, all RAM.
const CELLS: usize = 16384;

// Runs one schedule from power-up over two like stores that hold the words of one tape, with like latch cards, all
// fitted and zero: the state engine by its ticks, and the instruction engine by the steps that these come to. The two
// columns are equal, always. The tape is judged before the schedule.
pub fn make_slip(heap: Global, tape: &[u8], schedule: &[u8]) -> Result<Slip, SlipRefusal>
    ensures { Slipped tape.now schedule.now result }
{
    let mut memory = zeros(heap)?;
    slip_tape(heap, tape, schedule, &mut memory)
}

// The same, with a memory of zeros for the tape.
fn slip_tape(
    heap: Global,
    tape: &[u8],
    schedule: &[u8],
    memory: &mut [u8],
) -> Result<Slip, SlipRefusal>
    requires { memory.old ≡ replicate 16384 0 }
    ensures { Slipped tape.now schedule.now result }
{
    read_tape(tape, memory)?;
    let schedule = Schedule::new(schedule)?;
    let mut twin = Vec::from_slice(heap, memory)?;
    Ok(slip_memory(&schedule, memory, &mut twin))
}

// The bytes of a store at zero.
fn zeros(heap: Global) -> Result<Vec<u8>, AllocError>
    ensures { IfOk result (λ v. v.items ≡ replicate 16384 0) }
{
    vec![in heap; 0u8; CELLS]
}

// The slip of a schedule over two equal memories.
fn slip_memory(schedule: &Schedule<'_>, memory: &mut [u8], twin: &mut [u8]) -> Slip
    requires { twin.old ≡ memory.old }
    ensures { SlipOf (powered_over memory.old) (levels_of schedule.now.bytes.now) result }
{
    compare(schedule, &mut board_over(memory), &mut board_over(twin))
}

// A store in the memory, all RAM, and a latch card, all fitted and zero.
fn board_over(memory: &mut [u8]) -> Board<FlatStore<'_>, LatchCard>
    ensures { wiring_of flat_cells (λ c. latch_rules (fitted_of c)) latches_of result ≡ wired (flat memory.old 0) (latch_rules all_fitted) zeroed }
{
    Board {
        store: FlatStore {
            bytes: memory,
            fixed: 0,
        },
        card: LatchCard::new(),
    }
}
