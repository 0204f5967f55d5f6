ghost use Rattle.std.specs.Prelude.{◌≡◌};
ghost use Rattle.runs.specs.Schedules.{refusal_number};

// Why a schedule is refused.
#[derive(Clone, Copy, PartialEq, Eq, Debug)]
pub enum ScheduleRefusal {
    // Its length is odd, or it has more than 65,536 ticks.
    BadLength,
    // A first byte has a bit besides READY and INT: the index of the first such tick, counted from 0.
    OtherBits(usize),
}

impl ScheduleRefusal {
    // The number that the refusal is known by: 5 or 6.
    pub fn number(self) -> u8
        ensures { result ≡ refusal_number self }
    {
        match self {
            ScheduleRefusal::BadLength => 5,
            ScheduleRefusal::OtherBits(_) => 6,
        }
    }
}
