ghost use Rattle.std.specs.Prelude.{◌≡◌, ◌+◌, ◌*◌, ◌/◌, ◌<◌, ◌≤◌, length, slice_index};
ghost use Rattle.runs.specs.Schedules.{levels_at, length_judged, other_bits, bits_judged, judged};

use crate::planned_ticks::levels;
use crate::refusals::ScheduleRefusal;
use machine::Levels;

// The bytes of the longest schedule: two for each of 65,536 ticks.
const LONGEST: usize = 131_072;

// The largest first byte of a tick: READY and INT high.
const BOTH_HIGH: u8 = 3;

// Judges a schedule: first its length, then each first byte.
pub fn judge(schedule: &[u8]) -> Result<(), ScheduleRefusal>
    ensures { result ≡ judged schedule.now }
{
    judge_length(schedule.len())?;
    judge_bits(schedule)
}

// A schedule of so many bytes has whole ticks, and not too many.
fn judge_length(bytes: usize) -> Result<(), ScheduleRefusal>
    ensures { result ≡ length_judged bytes }
{
    if bytes % 2 == 1 || bytes > LONGEST {
        return Err(ScheduleRefusal::BadLength);
    }
    Ok(())
}

// No first byte has a bit besides READY and INT.
#[tactic(auto, using(crate::proofs::Pairs::bits_bad, crate::proofs::Pairs::bits_good, crate::proofs::Pairs::bits_none))]
fn judge_bits(schedule: &[u8]) -> Result<(), ScheduleRefusal>
    ensures { result ≡ bits_judged 0 schedule.now }
{
    for (tick, pair) in schedule.chunks_exact(2).enumerate() {
        if has_other_bits(pair[0]) {
            return Err(ScheduleRefusal::OtherBits(tick));
        }
    }
    Ok(())
}

// Whether a first byte has a bit besides READY and INT.
fn has_other_bits(bits: u8) -> bool
    ensures { result ≡ other_bits bits }
{
    bits > BOTH_HIGH
}

// The levels of the tick with this index. Past the schedule's end both lines are low and the jam byte is 0.
pub fn levels_at(schedule: &[u8], tick: usize) -> Levels
    ensures within { tick < length schedule.now / 2 → result ≡ levels_at (slice_index schedule.now (2 * tick)) (slice_index schedule.now (2 * tick + 1)) }
    ensures past { length schedule.now / 2 ≤ tick → result ≡ levels_at 0 0 }
{
    // By index: the library's `nth` of chunks goes through all that lie before.
    if tick >= schedule.len() / 2 {
        return levels(0, 0);
    }
    levels(schedule[2 * tick], schedule[2 * tick + 1])
}
