ghost use Rattle.std.specs.Prelude.{◌≡◌, Some};
ghost use Rattle.panel.specs.Lines.{mistake_text, reason_text};
ghost use Rattle.panel.specs.declared.commands.Mistake.TheVariants.{NoMemory};

use states::Levels;
use std::alloc::AllocFailed;
use std::error::Error;
use std::fmt;
use stepper::Feed;

// What a line asks for.
#[derive(Clone, Copy, PartialEq, Eq, Debug)]
pub enum Command {
    // One tick of the machine.
    Tick(Levels),
    // A run of the machine, by a schedule that is read apart.
    Run,
    // One step of the processor beside it.
    Step(Feed),
    Hold,
    // The byte at an address.
    Examine(u16),
    // A byte written to an address.
    Deposit(u16, u8),
    Release,
    // The byte that an input port answers.
    Input(u8, u8),
    // What the machine's processor holds.
    Registers,
    // What the processor beside the machine holds.
    StepRegisters,
}

// Why a line is not carried out.
#[derive(Clone, Copy, PartialEq, Eq, Debug)]
pub enum Mistake {
    NoSuchCommand,
    // A number is missing, has another character than a digit or is too large.
    BadNumber,
    // More words than the command has.
    TooManyWords,
    // A schedule has another character than a digit, or a digit alone.
    BadSchedule,
    // The machine is held.
    IsHeld,
    // The machine is not held.
    IsNotHeld,
    NoMemory,
}

// What found no memory is a mistake of its own.
impl<T: Drop> From<AllocFailed<T>> for Mistake {
    ghost from_gives = { λ _ mistake. mistake ≡ NoMemory };

    fn from(_: AllocFailed<T>) -> Self {
        Self::NoMemory
    }
}

impl Error for Mistake {}

impl fmt::Display for Mistake {
    ghost output = { λ mistake. Some (mistake_text mistake) };

    fn fmt<W: fmt::Write>(&self, f: &mut fmt::Formatter<W>) -> fmt::Result {
        let reason = reason_of(*self);
        write!(f, "error: {reason}")
    }
}

// The reason by itself: apart from the text around it, so that its contract is a match on the mistakes.
fn reason_of(mistake: Mistake) -> &'static str
    ensures { result.now ≡ reason_text mistake }
{
    match mistake {
        Mistake::NoSuchCommand => "no such command",
        Mistake::BadNumber => "a number is missing, bad or too large",
        Mistake::TooManyWords => "too many words",
        Mistake::BadSchedule => "a schedule is pairs of hexadecimal digits",
        Mistake::IsHeld => "the machine is held",
        Mistake::IsNotHeld => "the machine is not held",
        Mistake::NoMemory => "out of memory",
    }
}
