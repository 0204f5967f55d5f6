// Runs, as fields.
ghost use Rattle.std.specs.Prelude.{Some};
ghost use Rattle.panel.specs.Lines.{bad_tick_text, counts_text, hands_text, ran_text, schedule_text, stop_text};

use crate::fault_fields::FaultFields;
use runs::{Ran, RunFault, ScheduleRefusal};
use states::Tally;
use std::fmt;

// What a run came to.
#[derive(Clone, Copy)]
pub(crate) struct RanFields(pub Ran);

impl fmt::Display for RanFields {
    ghost output = { λ fields. Some (ran_text fields.0) };

    fn fmt<W: fmt::Write>(&self, f: &mut fmt::Formatter<W>) -> fmt::Result {
        let ran = self.0;
        write!(
            f,
            "{} {} {}",
            Counts(ran.tally),
            Hands(ran),
            Stop(ran.fault)
        )
    }
}

// The ticks accepted, the instructions that ended and their table states, waits and idle states.
#[derive(Clone, Copy)]
struct Counts(Tally);

impl fmt::Display for Counts {
    ghost output = { λ fields. Some (counts_text fields.0) };

    fn fmt<W: fmt::Write>(&self, f: &mut fmt::Formatter<W>) -> fmt::Result {
        let tally = self.0;
        write!(
            f,
            "ticks={} instructions={} states={} waits={} idle={}",
            tally.accepted, tally.instructions, tally.table_states, tally.waits, tally.idle
        )
    }
}

// The states in hand before the run and after it.
#[derive(Clone, Copy)]
struct Hands(Ran);

impl fmt::Display for Hands {
    ghost output = { λ fields. Some (hands_text fields.0) };

    fn fmt<W: fmt::Write>(&self, f: &mut fmt::Formatter<W>) -> fmt::Result {
        let before = self.0.in_hand_before;
        let after = self.0.in_hand_after;
        write!(f, "before={before} after={after}")
    }
}

// The fault that stopped a run and the index of its tick, or that none did.
#[derive(Clone, Copy)]
struct Stop(Option<RunFault>);

impl fmt::Display for Stop {
    ghost output = { λ stop. Some (stop_text stop.0) };

    fn fmt<W: fmt::Write>(&self, f: &mut fmt::Formatter<W>) -> fmt::Result {
        match self.0 {
            None => f.write_str("fault=-"),
            Some(stop) => write!(f, "{} tick={}", FaultFields(stop.fault), stop.tick),
        }
    }
}

// A refused schedule: its refusal's number, and the first tick that has other bits.
#[derive(Clone, Copy)]
pub(crate) struct ScheduleFields(pub ScheduleRefusal);

impl fmt::Display for ScheduleFields {
    ghost output = { λ fields. Some (schedule_text fields.0) };

    fn fmt<W: fmt::Write>(&self, f: &mut fmt::Formatter<W>) -> fmt::Result {
        let number = self.0.number();
        let tick = BadTick(self.0);
        write!(f, "refused={number} tick={tick}")
    }
}

// The first tick that has other bits, or a dash where the length is bad.
#[derive(Clone, Copy)]
struct BadTick(ScheduleRefusal);

impl fmt::Display for BadTick {
    ghost output = { λ tick. Some (bad_tick_text tick.0) };

    fn fmt<W: fmt::Write>(&self, f: &mut fmt::Formatter<W>) -> fmt::Result {
        match self.0 {
            ScheduleRefusal::BadLength => f.write_str("-"),
            ScheduleRefusal::OtherBits(tick) => write!(f, "{tick}"),
        }
    }
}
