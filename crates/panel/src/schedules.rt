// The schedule of a run.
ghost use Rattle.std.specs.Prelude.{◌≡◌, [], drop, MatchResult, None, Some};
ghost use Rattle.panel.specs.Numbers.{digit_of};
ghost use Rattle.panel.specs.Schedules.{Put, bytes_of, first_byte, paired, schedule_of};

use crate::commands::Mistake;
use crate::numbers::digit_value;
use crate::words::{Gap, first_word, is_gap};

// Puts the schedule of a line of `run` into `schedule`, in the place of what it held: each two digits in a row are
// a byte, and blanks may stand between bytes. The buffer is lent, so that a schedule as long as the last needs no memory.
pub fn read_schedule(line: &[u8], schedule: &mut Vec<u8>) -> Result<(), Mistake>
    ensures { Put result schedule.new.items (schedule_of line.now) }
{
    let (_, digits) = first_word(line);
    schedule.clear();
    read_bytes(digits, schedule)
}

// Puts the bytes of a text of digits and blanks into `bytes`, which is empty.
fn read_bytes(text: &[u8], bytes: &mut Vec<u8>) -> Result<(), Mistake>
    requires { bytes.old.items ≡ [] }
    ensures { Put result bytes.new.items (bytes_of text.now) }
{
    let mut left = text;
    while let [first, others @ ..] = left {
        if is_gap(Gap::Blank, *first) {
            left = others;
        } else {
            let (byte, others) = split_byte(left)?;
            bytes.push(byte)?;
            left = others;
        }
    }
    Ok(())
}

// The byte whose two digits a text begins with, and what follows them.
fn split_byte(text: &[u8]) -> Result<(u8, &[u8]), Mistake>
    ensures { MatchResult result (λ cut. (first_byte text.now ≡ Some cut.0) × (cut.1.now ≡ drop 2 text.now)) (λ mistake. (mistake ≡ Mistake.BadSchedule) × (first_byte text.now ≡ None)) }
{
    let ([high, low], others) = text.split_first_chunk::<2>().ok_or(Mistake::BadSchedule)?;
    let byte = pair(*high, *low).ok_or(Mistake::BadSchedule)?;
    Ok((byte, others))
}

// The byte of two digits.
fn pair(high: u8, low: u8) -> Option<u8>
    ensures { result ≡ paired (digit_of high) (digit_of low) }
{
    Some(digit_value(high)? * 16 + digit_value(low)?)
}
