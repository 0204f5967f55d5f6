// The line of a run or of a refused tape.
ghost use Rattle.report.specs.Line.{line_of};
ghost use Rattle.std.specs.Prelude.{◌≡◌, IfOk, Some, string_bytes};

use crate::summary::Report;
use std::alloc::{AllocError, Global};
use std::fmt;
use tape::TapeRefusal;

// What came of a tape, shown as its line: the report of its run, or its refusal. The line ends without a line feed.
#[derive(Clone, Copy, PartialEq, Eq, Debug)]
pub struct Outcome(pub Result<Report, TapeRefusal>);

impl fmt::Display for Outcome {
    ghost output = { λ outcome. Some (line_of outcome.0) };

    fn fmt<W: fmt::Write>(&self, f: &mut fmt::Formatter<W>) -> fmt::Result {
        match self.0 {
            Ok(report) => write!(f, "{report}"),
            Err(refusal) => write!(f, "{refusal}"),
        }
    }
}

// The line of what came of a tape, as a text of its own.
pub fn line(heap: Global, outcome: &Result<Report, TapeRefusal>) -> Result<String, AllocError>
    ensures { IfOk result (λ text. string_bytes text ≡ line_of outcome.now) }
{
    let outcome = Outcome(*outcome);
    format!(in heap; "{outcome}")
}
