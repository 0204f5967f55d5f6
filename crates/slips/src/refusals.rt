ghost use Rattle.std.specs.Prelude.{◌≡◌};
ghost use Rattle.slips.specs.declared.refusals.SlipRefusal.TheVariants.{BadTape, BadSchedule, NoMemory};

use runs::ScheduleRefusal;
use std::alloc::AllocError;
use tape::TapeRefusal;

// Why there is no slip.
#[derive(Clone, Copy, PartialEq, Eq, Debug)]
pub enum SlipRefusal {
    // The tape is refused.
    BadTape(TapeRefusal),
    // The schedule is refused. The tape was good.
    BadSchedule(ScheduleRefusal),
    // There is no memory for the two stores.
    NoMemory,
}

impl From<TapeRefusal> for SlipRefusal {
    ghost from_gives = { λ refusal r. r ≡ BadTape refusal };

    fn from(refusal: TapeRefusal) -> SlipRefusal {
        SlipRefusal::BadTape(refusal)
    }
}

impl From<ScheduleRefusal> for SlipRefusal {
    ghost from_gives = { λ refusal r. r ≡ BadSchedule refusal };

    fn from(refusal: ScheduleRefusal) -> SlipRefusal {
        SlipRefusal::BadSchedule(refusal)
    }
}

impl From<AllocError> for SlipRefusal {
    ghost from_gives = { λ _ r. r ≡ NoMemory };

    fn from(_e: AllocError) -> SlipRefusal {
        SlipRefusal::NoMemory
    }
}
