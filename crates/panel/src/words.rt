// Texts as bytes, and their words.
ghost use Rattle.std.specs.Prelude.{◌≡◌};
ghost use Rattle.std.specs.List.{position};
ghost use Rattle.std.specs.Option.{ok_or};
ghost use Rattle.panel.specs.Numbers.{at_most, number_of};
ghost use Rattle.panel.specs.Reading.{level_of, without_more};
ghost use Rattle.panel.specs.Words.{after_blanks, from_gap, is_gap, no_word, rest_of, up_to_gap, word_of};

use crate::commands::{Command, Mistake};
use crate::numbers::{number, number_to};

// What words are parted by. It is a value and no closure: the definitions of a text's parts go by it.
#[derive(Clone, Copy, PartialEq, Eq, Debug)]
pub(crate) enum Gap {
    // A space, a tab, a carriage return or a line feed.
    Blank,
    // This byte.
    Mark(u8),
}

// Whether a text has no word: it is empty, or has blanks alone.
pub fn is_blank(text: &[u8]) -> bool
    ensures { result ≡ no_word text.now }
{
    skip_blanks(text).is_empty()
}

// The first word of a text, and what follows it. A text with no word gives an empty one.
pub(crate) fn first_word(text: &[u8]) -> (&[u8], &[u8])
    ensures word { result.0.now ≡ word_of text.now }
    ensures others { result.1.now ≡ rest_of text.now }
{
    cut(skip_blanks(text), Gap::Blank)
}

// What is left of a line, word by word.
#[derive(Clone, Copy)]
pub(crate) struct Words<'a> {
    pub(crate) text: &'a [u8],
}

impl<'a> Words<'a> {
    // The next word, which is empty where there is none.
    pub(crate) fn next_word(&mut self) -> &'a [u8]
        ensures word { result.now ≡ word_of self.old.text.now }
        ensures others { self.new.text.now ≡ rest_of self.old.text.now }
    {
        let (word, others) = first_word(self.text);
        self.text = others;
        word
    }

    // The number that the next word is, as an address.
    pub(crate) fn address(&mut self) -> Result<u16, Mistake>
        ensures value { result ≡ ok_or (number_of (word_of self.old.text.now)) Mistake.BadNumber }
        ensures others { self.new.text.now ≡ rest_of self.old.text.now }
    {
        number(self.next_word()).ok_or(Mistake::BadNumber)
    }

    // The number that the next word is, as a byte.
    pub(crate) fn byte(&mut self) -> Result<u8, Mistake>
        ensures value { result ≡ ok_or (at_most 255 (number_of (word_of self.old.text.now))) Mistake.BadNumber }
        ensures others { self.new.text.now ≡ rest_of self.old.text.now }
    {
        number_to(self.next_word(), u8::MAX).ok_or(Mistake::BadNumber)
    }

    // The level that the next word is: high for 1, low for 0.
    pub(crate) fn level(&mut self) -> Result<bool, Mistake>
        ensures value { result ≡ ok_or (level_of (at_most 1 (number_of (word_of self.old.text.now)))) Mistake.BadNumber }
        ensures others { self.new.text.now ≡ rest_of self.old.text.now }
    {
        let number = number_to(self.next_word(), 1).ok_or(Mistake::BadNumber)?;
        Ok(number == 1)
    }

    // Whether no word is left.
    pub(crate) fn is_over(&self) -> bool
        ensures { result ≡ no_word self.now.text.now }
    {
        is_blank(self.text)
    }

    // A command, if no word is left after it.
    pub(crate) fn complete(&self, command: Command) -> Result<Command, Mistake>
        ensures { result ≡ without_more command self.now.text.now }
    {
        if self.is_over() {
            Ok(command)
        } else {
            Err(Mistake::TooManyWords)
        }
    }
}

// A text up to its first gap, and from that gap on.
pub(crate) fn cut(text: &[u8], gap: Gap) -> (&[u8], &[u8])
    ensures front { result.0.now ≡ up_to_gap gap text.now }
    ensures back { result.1.now ≡ from_gap gap text.now }
{
    text.split_at(gap_place(text, gap).unwrap_or(text.len()))
}

// A text from its first byte on that is no blank. The library's `trim_ascii_start` also takes form feeds off.
fn skip_blanks(text: &[u8]) -> &[u8]
    ensures { result.now ≡ after_blanks text.now }
{
    let mut left = text;
    while let [b' ' | b'\t' | b'\r' | b'\n', others @ ..] = left {
        left = others;
    }
    left
}

// The place of a text's first gap, if it has one.
fn gap_place(text: &[u8], gap: Gap) -> Option<usize>
    ensures { result ≡ position (is_gap gap) text.now }
{
    text.iter().position(|byte| is_gap(gap, *byte))
}

// Whether a byte is such a gap.
pub(crate) fn is_gap(gap: Gap, byte: u8) -> bool
    ensures { result ≡ is_gap gap byte }
{
    match gap {
        Gap::Blank => matches!(byte, b' ' | b'\t' | b'\r' | b'\n'),
        Gap::Mark(mark) => byte == mark,
    }
}
