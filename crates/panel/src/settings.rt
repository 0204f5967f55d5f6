// The settings among the program's arguments.
ghost use Rattle.std.specs.Prelude.{◌≡◌, drop};
ghost use Rattle.panel.specs.Settings.{latch_of, setting_named, setting_of};

use crate::numbers::{number, number_to};
use crate::words::{Gap, cut};

// What a word of the program's arguments sets.
#[derive(Clone, Copy, PartialEq, Eq, Debug)]
pub enum Setting {
    // The count of fixed cells.
    Fixed(u16),
    // The byte that an input port answers.
    Input(u8, u8),
    // A port to fit.
    Fit(u8),
    // A port to unfit.
    Unfit(u8),
}

// The setting of a word `fixed=COUNT`, `input=PORT:BYTE`, `fit=PORT` or `unfit=PORT`, if it is one.
pub fn read_setting(word: &[u8]) -> Option<Setting>
    ensures { result ≡ setting_of word.now }
{
    let (name, value) = cut(word, Gap::Mark(b'='));
    read_value(name, after_mark(value))
}

// The setting of a name and a value.
fn read_value(name: &[u8], value: &[u8]) -> Option<Setting>
    ensures { result ≡ setting_named name.now value.now }
{
    match name {
        b"fixed" => number(value).map(Setting::Fixed),
        b"input" => read_latch(value),
        b"fit" => number_to(value, 31).map(Setting::Fit),
        b"unfit" => number_to(value, 31).map(Setting::Unfit),
        _ => None,
    }
}

// An input port and its byte, parted by a colon.
fn read_latch(value: &[u8]) -> Option<Setting>
    ensures { result ≡ latch_of value.now }
{
    let (port, byte) = cut(value, Gap::Mark(b':'));
    let port = number_to(port, 7)?;
    let byte = number_to(after_mark(byte), u8::MAX)?;
    Some(Setting::Input(port, byte))
}

// A text without the mark that it begins with.
fn after_mark(text: &[u8]) -> &[u8]
    ensures { result.now ≡ drop 1 text.now }
{
    text.split_first().map_or(text, |(_, value)| value)
}
