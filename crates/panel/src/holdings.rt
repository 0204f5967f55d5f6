// What a processor holds, and its line.
ghost use Rattle.std.specs.Prelude.{◌≡◌, Some};
ghost use Rattle.panel.specs.Lines.{halt_text, holding_text, yes_or_no};

use report::Readout;
use std::fmt;

// What a processor shows, whether it is stopped, and the states that its instruction has spent.
#[derive(Clone, Copy, PartialEq, Eq, Debug)]
pub struct Holding {
    pub readout: Readout,
    pub stopped: bool,
    pub hand: u8,
}

impl fmt::Display for Holding {
    ghost output = { λ holding. Some (holding_text holding) };

    fn fmt<W: fmt::Write>(&self, f: &mut fmt::Formatter<W>) -> fmt::Result {
        write!(f, "{} {}", self.readout, HaltFields(*self))
    }
}

// Whether a processor is stopped, and its states in hand.
#[derive(Clone, Copy, PartialEq, Eq, Debug)]
struct HaltFields(Holding);

impl fmt::Display for HaltFields {
    ghost output = { λ fields. Some (halt_text fields.0) };

    fn fmt<W: fmt::Write>(&self, f: &mut fmt::Formatter<W>) -> fmt::Result {
        let stopped = yes_or_no(self.0.stopped);
        let hand = self.0.hand;
        write!(f, "stopped={stopped} hand={hand}")
    }
}

// A word for each of two. No type of its own, since a crate can give a Display only to its own types.
pub(crate) fn yes_or_no(so: bool) -> &'static str
    ensures { result.now ≡ yes_or_no so }
{
    if so { "yes" } else { "no" }
}
