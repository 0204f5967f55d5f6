ghost use Rattle.std.specs.Prelude.{◌≡◌, MatchResult};
ghost use Rattle.std.specs.Iterator.{YieldsFirst, item_count};
ghost use Rattle.runs.specs.Schedules.{levels_at, levels_of};
ghost use Rattle.runs.specs.Planned.{JudgedGood, JudgedBad, planned};

use crate::good_schedules::Schedule;
use crate::refusals::ScheduleRefusal;
use crate::schedules::judge;
use machine::Levels;

impl<'a> Schedule<'a> {
    // The schedule that has these bytes, if it is judged good.
    pub fn new(bytes: &'a [u8]) -> Result<Schedule<'a>, ScheduleRefusal>
        ensures { MatchResult result (JudgedGood bytes.now) (JudgedBad bytes.now) }
    {
        judge(bytes)?;
        Ok(Schedule { bytes })
    }

    // The levels of its ticks, one by one.
    pub fn ticks(&self) -> PlannedTicks<'a>
        ensures { planned result ≡ levels_of self.now.bytes.now }
    {
        PlannedTicks { rest: self.bytes }
    }
}

// The levels of the ticks that are left of a schedule.
#[derive(Clone, Copy)]
pub struct PlannedTicks<'a> {
    rest: &'a [u8],
}

impl Iterator for PlannedTicks<'_> {
    type Item = Levels;

    ghost next_gives = { YieldsFirst planned };

    ghost remaining = { item_count planned };

    #[tactic(auto, using(crate::proofs::Pairs::levels_next, crate::proofs::Pairs::levels_none))]
    fn next(&mut self) -> Option<Levels> {
        let ([bits, jam], rest) = self.rest.split_first_chunk::<2>()?;
        self.rest = rest;
        Some(levels(*bits, *jam))
    }
}

// The levels that the two bytes of a tick mean.
pub(crate) fn levels(bits: u8, jam: u8) -> Levels
    ensures { result ≡ levels_at bits jam }
{
    let (ready, int) = (bits % 2 == 1, bits / 2 % 2 == 1);
    Levels { ready, int, jam }
}
