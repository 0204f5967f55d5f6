// What came of a command, and its line.
ghost use Rattle.std.specs.Prelude.{Some};
ghost use Rattle.panel.specs.Lines.{answer_text, cell_text, deposit_text, written_text};

use crate::commands::Mistake;
use crate::fault_fields::FaultFields;
use crate::holdings::{Holding, yes_or_no};
use crate::refusals::Refusal;
use crate::run_fields::{RanFields, ScheduleFields};
use crate::step_fields::{SteppedFields, TickedFields};
use bus::Written;
use cpu::Fault;
use report::{Hex2, Hex4};
use runs::{Ran, ScheduleRefusal};
use states::Ticked;
use std::fmt;

// What came of a command. It is shown as one line of fields, which ends without a line feed.
#[derive(Clone, Copy, PartialEq, Eq, Debug)]
pub enum Answer {
    Ticked(Ticked),
    // A tick or a step was refused.
    Refused(Fault),
    Ran(Ran),
    // The schedule of a run was refused.
    BadSchedule(ScheduleRefusal),
    // A step was made, of so many table states, if it carried out an instruction.
    Stepped(Option<u8>),
    // Whether the machine is held now: yes or no, as it is printed.
    Held(bool),
    // A hold or an input was refused.
    RefusedBy(Refusal),
    // An address and its byte.
    Examined(u16, u8),
    // An address, a byte and what became of it there.
    Deposited(u16, u8, Written),
    // A port and the byte that it answers from now on.
    Latched(u8, u8),
    // What a processor holds.
    Holds(Holding),
    // Nothing was done.
    Mistaken(Mistake),
}

impl fmt::Display for Answer {
    ghost output = { λ answer. Some (answer_text answer) };

    fn fmt<W: fmt::Write>(&self, f: &mut fmt::Formatter<W>) -> fmt::Result {
        match *self {
            Answer::Ticked(ticked) => write!(f, "{}", TickedFields(ticked)),
            Answer::Refused(fault) => write!(f, "{}", FaultFields(fault)),
            Answer::Ran(ran) => write!(f, "{}", RanFields(ran)),
            Answer::BadSchedule(refusal) => write!(f, "{}", ScheduleFields(refusal)),
            Answer::Stepped(stepped) => write!(f, "{}", SteppedFields(stepped)),
            Answer::Held(held) => {
                let held = yes_or_no(held);
                write!(f, "held={held}")
            }
            Answer::RefusedBy(refusal) => write!(f, "refused={}", refusal.number()),
            Answer::Examined(address, byte) => write!(f, "{}", CellFields(address, byte)),
            Answer::Deposited(address, byte, written) => {
                write!(f, "{}", DepositFields(address, byte, written))
            }
            Answer::Latched(port, byte) => write!(f, "port={} byte={}", Hex2(port), Hex2(byte)),
            Answer::Holds(holding) => write!(f, "{holding}"),
            Answer::Mistaken(mistake) => write!(f, "{mistake}"),
        }
    }
}

// An address and a byte.
#[derive(Clone, Copy, PartialEq, Eq, Debug)]
struct CellFields(u16, u8);

impl fmt::Display for CellFields {
    ghost output = { λ cell. Some (cell_text cell.0 cell.1) };

    fn fmt<W: fmt::Write>(&self, f: &mut fmt::Formatter<W>) -> fmt::Result {
        let address = Hex4(self.0);
        let byte = Hex2(self.1);
        write!(f, "address={address} byte={byte}")
    }
}

// An address, a byte and what became of it there.
#[derive(Clone, Copy, PartialEq, Eq, Debug)]
struct DepositFields(u16, u8, Written);

impl fmt::Display for DepositFields {
    ghost output = { λ deposit. Some (deposit_text deposit.0 deposit.1 deposit.2) };

    fn fmt<W: fmt::Write>(&self, f: &mut fmt::Formatter<W>) -> fmt::Result {
        let cell = CellFields(self.0, self.1);
        let fate = Fate(self.2);
        write!(f, "{cell} written={fate}")
    }
}

// What became of a write.
#[derive(Clone, Copy, PartialEq, Eq, Debug)]
struct Fate(Written);

impl fmt::Display for Fate {
    ghost output = { λ fate. Some (written_text fate.0) };

    fn fmt<W: fmt::Write>(&self, f: &mut fmt::Formatter<W>) -> fmt::Result {
        match self.0 {
            Written::Taken => f.write_str("taken"),
            Written::Dropped => f.write_str("dropped"),
        }
    }
}
