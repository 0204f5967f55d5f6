ghost use Rattle.std.specs.Prelude.{◌≡◌, []};
ghost use Rattle.cpu.specs.Place.{place_of, powered_place};
ghost use Rattle.machine.specs.Machines.{situation_of};
ghost use Rattle.states.specs.Situation.{powered_up};
ghost use Rattle.states.specs.Tallies.{Within};
ghost use Rattle.runs.specs.Schedules.{levels_of};
ghost use Rattle.runs.specs.Histories.{and_ticks};
ghost use Rattle.slips.specs.Sheets.{kept_of};
ghost use Rattle.slips.specs.Columns.{SlipOf};
ghost use Rattle.slips.specs.SideBySide.{at_power_up, wiring_of, SideBySide};

use crate::columns::Slip;
use crate::sheets::Sheet;
use bus::{Board, PortCard, Store};
use cpu::Processor;
use machine::{Machine, RunKey, power};
use runs::{RunFault, Schedule};

// Powers up a machine, and a processor over a like store and a like card, ticks the machine by a schedule and feeds
// the processor each instruction as it ends.
pub(crate) fn compare<S: Store, T: Store, C: PortCard>(
    schedule: &Schedule<'_>,
    board: &mut Board<S, C>,
    twin_board: &mut Board<T, C>,
) -> Slip
    requires { wiring_of T.Store.cells C.rules C.state twin_board.old ≡ wiring_of S.cells C.rules C.state board.old }
    ensures { SlipOf (powered_place (wiring_of S.cells C.rules C.state board.old)) (levels_of schedule.now.bytes.now) result }
{
    let (mut machine, key) = power(board);
    let mut twin = Processor::new();
    let mut sheet = Sheet::new(twin);
    let fault = tick_both(
        schedule,
        &mut machine,
        &key,
        board,
        &mut twin,
        twin_board,
        &mut sheet,
    );
    sheet.slip(machine.states_in_hand(), &twin, fault)
}

// Ticks the machine by a schedule, up to the first tick that is refused, and feeds the twin each instruction as it
// ends. Both were just powered up, the twin over a like store and a like card.
fn tick_both<S: Store, T: Store, C: PortCard>(
    schedule: &Schedule<'_>,
    machine: &mut Machine,
    key: &RunKey,
    board: &mut Board<S, C>,
    twin: &mut Processor,
    twin_board: &mut Board<T, C>,
    sheet: &mut Sheet,
) -> Option<RunFault>
    requires machine { situation_of machine.old (wiring_of S.cells C.rules C.state board.old) ≡ powered_up (wiring_of S.cells C.rules C.state board.old) }
    requires twin { kept_of sheet.old (place_of twin.old (wiring_of T.Store.cells C.rules C.state twin_board.old)) ≡ at_power_up (powered_place (wiring_of S.cells C.rules C.state board.old)) }
    ensures beside { SideBySide (powered_place (wiring_of S.cells C.rules C.state board.old)) (and_ticks (levels_of schedule.now.bytes.now) (powered_up (wiring_of S.cells C.rules C.state board.old)) []) (situation_of machine.new (wiring_of S.cells C.rules C.state board.new)) (kept_of sheet.new (place_of twin.new (wiring_of T.Store.cells C.rules C.state twin_board.new))) result }
    ensures few { Within 65536 sheet.new.counts }
    ensures few_steps { Within 65536 sheet.new.steps }
{
    for levels in schedule.ticks() {
        match machine.tick(key, levels, board) {
            Err(fault) => return Some(RunFault {
                fault,
                tick: sheet.counts.accepted as usize,
            }),
            Ok(ticked) => sheet.note(&ticked, levels.jam, machine.processor(), twin, twin_board),
        }
    }
    None
}
