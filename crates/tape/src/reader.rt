// The reader of a tape.
ghost use Rattle.std.specs.Prelude.{◌≡◌, ◌+◌, ◌<◌, ◌≤◌, true, false, [], length, drop, OnOk, MatchOption, MatchResult};
ghost use Rattle.std.specs.List.{prefix_len};
ghost use Rattle.tape.specs.Places.{Stands, Letter, NoLetter, Found, is_blank};
ghost use Rattle.tape.specs.Reading.{Reading, OneReading, with_place};
ghost use Rattle.tape.specs.Words.{WordFrom, BrokenFrom};

use crate::refusals::TapeRefusal;

// How many letters a word has between its B and its F.
const LETTERS: usize = 8;

// Whether a byte is skipped outside a word: a B begins a word there, and a $ ends the tape.
fn is_blank(byte: u8) -> bool
    ensures { result ≡ is_blank byte }
{
    !matches!(char::from(byte), 'B' | '$')
}

// How many bytes are skipped before the next B or $, or before the input's end.
fn count_blanks(ahead: &[u8]) -> usize
    ensures skipped { result ≡ prefix_len is_blank ahead.now }
    ensures within { result ≤ length ahead.now }
{
    ahead.iter().take_while(|byte| is_blank(**byte)).count()
}

// A tape, and the place that the reading has come to. It has no model, which would hide both from the clauses that speak
// of them; so three methods say that the tape stays the same.
#[derive(Drop)]
struct Reader<'a> {
    tape: &'a [u8],
    at: usize,
    ghost within: { at ≤ length tape.now },
}

impl<'a> Reader<'a> {
    // The character at the place, or none at the input's end.
    fn symbol(&self) -> Option<char>
        ensures { MatchOption result (drop self.now.at self.now.tape.now ≡ []) (λ c. Stands self.now.tape.now self.now.at c) }
    {
        self.tape.get(self.at).map(|byte| char::from(*byte))
    }

    // Goes on to the next B, or to the tape's end, and tells whether a word begins there.
    fn find_word(&mut self) -> bool
        ensures found { Found self.old.tape.now self.old.at self.new.at result }
        ensures same_tape { self.new.tape.now ≡ self.old.tape.now }
    {
        self.at += count_blanks(&self.tape[self.at..]);
        matches!(self.symbol(), Some('B'))
    }

    // Goes on past the letter at the place, and answers `value` with the letter's bit after its own: 1 for P, 0 for N.
    fn read_letter(&mut self, value: u8) -> Result<u8, TapeRefusal>
        requires { value < 128 }
        ensures letter { MatchResult result (Letter self.old.tape.now self.old.at value) (λ e. (e ≡ TapeRefusal.BadWord self.old.at) × NoLetter self.old.tape.now self.old.at) }
        ensures moves { OnOk result (self.new.at ≡ self.old.at + 1) }
        ensures same_tape { self.new.tape.now ≡ self.old.tape.now }
    {
        let bit = match self.symbol() {
            Some('N') => 0,
            Some('P') => 1,
            _ => return Err(TapeRefusal::BadWord(self.at)),
        };
        self.at += 1;
        Ok(value * 2 + bit)
    }

    // Goes on past the word whose B stands at the place, and answers its byte. The first letter is bit 7.
    fn read_word(&mut self) -> Result<u8, TapeRefusal>
        requires { self.old.at < length self.old.tape.now }
        ensures word { MatchResult result (WordFrom self.old.tape.now (self.old.at + 1)) (BrokenFrom self.old.tape.now (self.old.at + 1)) }
        ensures moves { OnOk result (self.new.at ≡ self.old.at + 10) }
        ensures same_tape { self.new.tape.now ≡ self.old.tape.now }
    {
        self.at += 1;
        let mut value = 0;
        for _ in 0..LETTERS {
            value = self.read_letter(value)?;
        }
        match self.symbol() {
            Some('F') => {
                self.at += 1;
                Ok(value)
            }
            _ => Err(TapeRefusal::BadWord(self.at)),
        }
    }

    // Goes on to the tape's end, where the buffer is full: a word before it is refused.
    fn expect_end(&mut self) -> Result<(), TapeRefusal>
        ensures { MatchResult result (λ _. Found self.old.tape.now self.old.at self.new.at false) (λ e. (e ≡ TapeRefusal.BufferFull self.new.at) × Found self.old.tape.now self.old.at self.new.at true) }
    {
        if self.find_word() {
            return Err(TapeRefusal::BufferFull(self.at));
        }
        Ok(())
    }

    // Reads words into the buffer until the tape ends, and answers how many.
    #[tactic(auto, using(crate::proofs::Progress::placed))]
    fn read_words(&mut self, buffer: &mut [u8]) -> Result<usize, TapeRefusal>
        requires { self.old.at ≡ 0 }
        ensures { Reading self.old.tape.now buffer.old buffer.new (with_place self.new.at result) }
    {
        for (count, byte) in buffer.iter_mut().enumerate() {
            if !self.find_word() {
                return Ok(count);
            }
            *byte = self.read_word()?;
        }
        self.expect_end()?;
        Ok(buffer.len())
    }
}

// Reads the words of a tape into the buffer, from its first byte on.
//
// Answers how many words it placed and where the tape ends: the index of its $, or the input's length.
// A tape that is refused leaves the words before the fault in the buffer. Every other byte stays as it was.
#[tactic(auto, using(crate::proofs::Unambiguous::one_reading))]
pub fn read_tape(tape: &[u8], buffer: &mut [u8]) -> Result<(usize, usize), TapeRefusal>
    ensures reading { Reading tape.now buffer.old buffer.new result }
    ensures unambiguous { OneReading }
{
    let mut reader = Reader { tape, at: 0 };
    let count = reader.read_words(buffer)?;
    Ok((count, reader.at))
}
