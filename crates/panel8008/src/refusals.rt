use std::alloc::AllocError;
use std::error::Error;
use std::{fmt, io};
use tape::TapeRefusal;

// Why the program carries no command out.
#[derive(Debug, Drop)]
pub enum Refusal {
    NoTapeNamed,
    // A word of the arguments is no setting.
    NoSuchSetting(String),
    // No file at this path can be opened.
    NoTapeAt(String),
    BadTape(TapeRefusal),
    // The system failed the program.
    Failed(io::Error),
}

impl Error for Refusal {}

impl From<io::Error> for Refusal {
    fn from(error: io::Error) -> Refusal {
        Refusal::Failed(error)
    }
}

impl From<TapeRefusal> for Refusal {
    fn from(refusal: TapeRefusal) -> Refusal {
        Refusal::BadTape(refusal)
    }
}

impl From<AllocError> for Refusal {
    fn from(error: AllocError) -> Refusal {
        Refusal::Failed(io::Error::from(error))
    }
}

impl fmt::Display for Refusal {
    fn fmt<W: fmt::Write>(&self, f: &mut fmt::Formatter<W>) -> fmt::Result {
        match self {
            Refusal::NoTapeNamed => write!(f, "error: no tape is named"),
            Refusal::NoSuchSetting(word) => write!(f, "error: no such setting: {word}"),
            Refusal::NoTapeAt(path) => write!(f, "error: no tape at {path}"),
            Refusal::BadTape(refusal) => write!(f, "{refusal}"),
            Refusal::Failed(error) => write!(f, "{error}"),
        }
    }
}
