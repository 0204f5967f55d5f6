ghost use Rattle.std.specs.Prelude.{◌≡◌, ℕ, ◌<◌, length, slice_index};
ghost use Rattle.slips.specs.Patterns.{ready_byte, interrupted_byte};

use std::cmp::Ordering;

// Fills a schedule: INT low, the jam byte 0, and READY high in the last of every `low` + 1 ticks. With `low` 0 it is
// high throughout.
pub fn drive_ready(schedule: &mut [u8], low: u8)
    ensures { (k : ℕ) → k < length schedule.new → slice_index schedule.new k ≡ ready_byte low k }
{
    fill(
        schedule,
        |index, _|
            ensures { result ≡ ready_byte low index }
        {
            let low = usize::from(low);
            u8::from(index % 2 == 0 && index / 2 % (low + 1) == low)
        },
    )
}

// Raises INT at a tick of a schedule, and puts the jam byte on the bus from that tick on. READY stays as it is. A
// tick past the schedule's end changes nothing.
pub fn interrupt_at(schedule: &mut [u8], tick: usize, jam: u8)
    ensures { (k : ℕ) → k < length schedule.new → slice_index schedule.new k ≡ interrupted_byte tick jam k (slice_index schedule.old k) }
{
    fill(
        schedule,
        |index, byte|
            ensures { result ≡ interrupted_byte tick jam index byte }
        {
            match (index / 2).cmp(&tick) {
                Ordering::Less => byte,
                _ if index % 2 == 1 => jam,
                Ordering::Equal => byte % 2 + 2,
                Ordering::Greater => byte,
            }
        },
    )
}

// Puts at each index what the rule makes of the index and of the byte that stands there.
fn fill<F: Fn(usize, u8) -> u8>(schedule: &mut [u8], rule: F)
    requires { F.IsAlwaysCallable rule }
    ensures { (k : ℕ) → k < length schedule.new → F.post rule k (slice_index schedule.old k) (slice_index schedule.new k) }
{
    for (index, byte) in schedule.iter_mut().enumerate() {
        *byte = rule(index, *byte);
    }
}
