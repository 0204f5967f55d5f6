ghost use Rattle.std.specs.Prelude.{◌≡◌};
ghost use Rattle.states.specs.Tallies.{counted, counted_step, held, plus, Exactly, Within};

use crate::ticks::{State, Ticked};

// What ticks and steps add up to: the accepted ticks, the instructions that ended and their table states, waits and
// idle states.
#[derive(Clone, Copy, PartialEq, Eq, Debug, Default)]
pub struct Tally {
    pub accepted: u32,
    pub instructions: u32,
    pub table_states: u32,
    pub waits: u32,
    pub idle: u32,
}

impl Tally {
    // Counts one more accepted tick. No count goes past the largest of 32 bits; below that the counts are exact.
    pub fn count_tick(&mut self, ticked: &Ticked)
        ensures value { self.new ≡ held (plus self.old (counted ticked.now)) }
        ensures exact { Exactly self.old (counted ticked.now) self.new }
    {
        self.add(&Tally {
            accepted: 1,
            waits: u32::from(ticked.state == State::Wait),
            idle: u32::from(ticked.cycle == 0),
            ..Tally::of(ticked.ended)
        });
    }

    // Counts one more step, by the states that it answered, if it carried out an instruction. No count goes past the
    // largest of 32 bits; below that the counts are exact.
    pub fn count_step(&mut self, states: Option<u8>)
        ensures value { self.new ≡ held (plus self.old (counted_step states)) }
        ensures exact { Exactly self.old (counted_step states) self.new }
    {
        self.add(&Tally::of(states));
    }

    // The tally of an instruction that ended with so many table states, if one did.
    fn of(ended: Option<u8>) -> Tally
        ensures value { result ≡ counted_step ended }
        ensures few { Within 1 result }
    {
        Tally {
            instructions: u32::from(ended.is_some()),
            table_states: u32::from(ended.unwrap_or(0)),
            ..Tally::default()
        }
    }

    // Adds another tally, count by count.
    fn add(&mut self, more: &Tally)
        ensures { self.new ≡ held (plus self.old more.now) }
    {
        self.accepted = self.accepted.saturating_add(more.accepted);
        self.instructions = self.instructions.saturating_add(more.instructions);
        self.table_states = self.table_states.saturating_add(more.table_states);
        self.waits = self.waits.saturating_add(more.waits);
        self.idle = self.idle.saturating_add(more.idle);
    }
}
