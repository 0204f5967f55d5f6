// Ticks and steps, as fields.
ghost use Rattle.std.specs.Prelude.{◌≡◌, Some};
ghost use Rattle.panel.specs.Lines.{kind_text, number_text, state_text, stepped_text, ticked_text};

use isa::CycleKind;
use states::{State, Ticked};
use std::fmt;

// An accepted tick: its state, the number and the kind of its cycle, and the table states of the instruction that
// it ended.
#[derive(Clone, Copy)]
pub(crate) struct TickedFields(pub Ticked);

impl fmt::Display for TickedFields {
    ghost output = { λ fields. Some (ticked_text fields.0) };

    fn fmt<W: fmt::Write>(&self, f: &mut fmt::Formatter<W>) -> fmt::Result {
        let state = state_text(self.0.state);
        let cycle = self.0.cycle;
        let kind = kind_text(self.0.kind);
        let ended = Number(self.0.ended);
        write!(f, "state={state} cycle={cycle} kind={kind} ended={ended}")
    }
}

// A step that was not refused: its table states, or a dash where a stopped processor did nothing.
#[derive(Clone, Copy)]
pub(crate) struct SteppedFields(pub Option<u8>);

impl fmt::Display for SteppedFields {
    ghost output = { λ fields. Some (stepped_text fields.0) };

    fn fmt<W: fmt::Write>(&self, f: &mut fmt::Formatter<W>) -> fmt::Result {
        let states = Number(self.0);
        write!(f, "states={states}")
    }
}

// A number, or a dash where there is none.
#[derive(Clone, Copy)]
struct Number(Option<u8>);

impl fmt::Display for Number {
    ghost output = { λ number. Some (number_text number.0) };

    fn fmt<W: fmt::Write>(&self, f: &mut fmt::Formatter<W>) -> fmt::Result {
        match self.0 {
            Some(number) => write!(f, "{number}"),
            None => f.write_str("-"),
        }
    }
}

// The name of a state. It belongs to another crate, so no `Display` for it can stand here.
fn state_text(state: State) -> &'static str
    ensures { result.now ≡ state_text state }
{
    match state {
        State::T1 => "T1",
        State::T1I => "T1I",
        State::T2 => "T2",
        State::Wait => "WAIT",
        State::T3 => "T3",
        State::T4 => "T4",
        State::T5 => "T5",
        State::Stopped => "STOPPED",
    }
}

// The name of a cycle's kind, of another crate too, or a dash where there is none.
fn kind_text(kind: Option<CycleKind>) -> &'static str
    ensures { result.now ≡ kind_text kind }
{
    match kind {
        None => "-",
        Some(CycleKind::Pci) => "PCI",
        Some(CycleKind::Pcr) => "PCR",
        Some(CycleKind::Pcw) => "PCW",
        Some(CycleKind::Pcc) => "PCC",
    }
}
