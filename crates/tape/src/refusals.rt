// Why a tape is refused, and where.
ghost use Rattle.std.specs.Prelude.{◌≡◌, Some};
ghost use Rattle.tape.specs.Refusals.{refusal_number, refusal_place, refusal_text};

use std::error::Error;
use std::fmt;

// What stopped the reading of a tape, with the index of the byte at fault.
#[derive(Clone, Copy, PartialEq, Eq, Debug)]
pub enum TapeRefusal {
    // Inside a word another byte stands where a letter is due; at the input's end the place is the input's length.
    BadWord(usize),
    // A word begins, and the buffer has no room for it.
    BufferFull(usize),
}

impl TapeRefusal {
    // The number that the refusal is reported under.
    pub fn number(self) -> u8
        ensures { result ≡ refusal_number self }
    {
        match self {
            TapeRefusal::BadWord(_) => 7,
            TapeRefusal::BufferFull(_) => 8,
        }
    }

    // The index of the byte at fault, or the tape's length where a word is cut short.
    pub fn place(self) -> usize
        ensures { result ≡ refusal_place self }
    {
        match self {
            TapeRefusal::BadWord(place) | TapeRefusal::BufferFull(place) => place,
        }
    }
}

// The refusal's number and the place of the byte at fault, as `tape 7 at 2`.
impl fmt::Display for TapeRefusal {
    ghost output = { λ refusal. Some (refusal_text refusal) };

    fn fmt<W: fmt::Write>(&self, f: &mut fmt::Formatter<W>) -> fmt::Result {
        write!(f, "tape {} at {}", self.number(), self.place())
    }
}

impl Error for TapeRefusal {}
