// A run in one line: where the processor stood at the end, what was counted, and why it stopped.
ghost use Rattle.report.specs.Line.{count_fields, ending_text, report_text};
ghost use Rattle.std.specs.Prelude.{Some};

use crate::readouts::Readout;
use cpu::Cause;
use states::Tally;
use std::fmt;

// Why a run stopped: the processor halted, its budget was spent, or it was refused.
#[derive(Clone, Copy, PartialEq, Eq, Debug)]
pub enum Ending {
    Halted,
    Spent,
    Refused(Cause),
    // It was refused for what is known by its number alone.
    RefusedBy(u8),
}

// A refusal is shown by its number.
impl fmt::Display for Ending {
    ghost output = { λ ending. Some (ending_text ending) };

    fn fmt<W: fmt::Write>(&self, f: &mut fmt::Formatter<W>) -> fmt::Result {
        match *self {
            Ending::Halted => f.write_str("halted"),
            Ending::Spent => f.write_str("spent"),
            Ending::Refused(cause) => write!(f, "refused {}", cause.number()),
            Ending::RefusedBy(number) => write!(f, "refused {number}"),
        }
    }
}

// What the processor shows at the end of a run, what the run counted, and why it stopped.
#[derive(Clone, Copy, PartialEq, Eq, Debug)]
pub struct Report {
    pub readout: Readout,
    pub tally: Tally,
    pub ending: Ending,
}

impl fmt::Display for Report {
    ghost output = { λ report. Some (report_text report) };

    fn fmt<W: fmt::Write>(&self, f: &mut fmt::Formatter<W>) -> fmt::Result {
        write!(
            f,
            "{} {} {}",
            self.readout,
            CountFields(self.tally),
            self.ending
        )
    }
}

// The counts of a run, each under its letter; the line leaves out how many ticks were accepted.
#[derive(Clone, Copy, PartialEq, Eq, Debug)]
struct CountFields(Tally);

impl fmt::Display for CountFields {
    ghost output = { λ fields. Some (count_fields fields.0) };

    fn fmt<W: fmt::Write>(&self, f: &mut fmt::Formatter<W>) -> fmt::Result {
        let t = self.0;
        write!(
            f,
            "N={} T={} W={} I={}",
            t.instructions, t.table_states, t.waits, t.idle
        )
    }
}
