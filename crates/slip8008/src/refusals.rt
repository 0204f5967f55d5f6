use slips::SlipRefusal;
use std::alloc::{AllocError, AllocFailed};
use std::{fmt, io};

// Why the program prints no slip.
#[derive(Drop)]
pub enum Refusal {
    NoSuchArgument(String),
    // There is no slip of the tape and the schedule.
    NoSlip(SlipRefusal),
    // The system failed the program.
    Failed(io::Error),
}

impl From<SlipRefusal> for Refusal {
    fn from(refusal: SlipRefusal) -> Refusal {
        Refusal::NoSlip(refusal)
    }
}

impl From<io::Error> for Refusal {
    fn from(error: io::Error) -> Refusal {
        Refusal::Failed(error)
    }
}

impl From<AllocError> for Refusal {
    fn from(error: AllocError) -> Refusal {
        Refusal::Failed(io::Error::from(error))
    }
}

impl<T: Drop> From<AllocFailed<T>> for Refusal {
    fn from(failed: AllocFailed<T>) -> Refusal {
        Refusal::Failed(io::Error::from(failed))
    }
}

impl fmt::Display for Refusal {
    fn fmt<W: fmt::Write>(&self, f: &mut fmt::Formatter<W>) -> fmt::Result {
        match self {
            Refusal::NoSuchArgument(word) => write!(
                f,
                "error: no such argument: {word} (use ticks=COUNT, low=COUNT, int=TICK:JAM)"
            ),
            Refusal::NoSlip(refusal) => write!(f, "{refusal}"),
            Refusal::Failed(error) => write!(f, "{error}"),
        }
    }
}
