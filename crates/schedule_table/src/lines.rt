use cpu::{Layer, Processor};
use runs::{Ran, RunFault, ScheduleRefusal};
use std::fmt;

// What a run answered, with A and the program counter after it.
#[derive(Clone, Copy)]
pub(crate) struct Line {
    pub(crate) answer: Result<Ran, ScheduleRefusal>,
    pub(crate) processor: Processor,
}

impl fmt::Display for Line {
    fn fmt<W: fmt::Write>(&self, f: &mut fmt::Formatter<W>) -> fmt::Result {
        match self.answer {
            Ok(ran) => write!(f, "{}", Answer(ran))?,
            Err(refusal) => write!(f, "{}", Refused(refusal))?,
        }
        let a = self.processor.registers.a;
        let pc = self.processor.ring.pc();
        write!(f, " A={a} PC={pc}")
    }
}

// A refused schedule: its number, and the first tick with other bits.
#[derive(Clone, Copy)]
struct Refused(ScheduleRefusal);

impl fmt::Display for Refused {
    fn fmt<W: fmt::Write>(&self, f: &mut fmt::Formatter<W>) -> fmt::Result {
        write!(f, "schedule {}", self.0.number())?;
        match self.0 {
            ScheduleRefusal::BadLength => Ok(()),
            ScheduleRefusal::OtherBits(tick) => write!(f, " at {tick}"),
        }
    }
}

// Ticks accepted, instructions, table states, waits, idle states, states in hand before and after, and the
// fault, if any.
#[derive(Clone, Copy)]
struct Answer(Ran);

impl fmt::Display for Answer {
    fn fmt<W: fmt::Write>(&self, f: &mut fmt::Formatter<W>) -> fmt::Result {
        let ran = self.0;
        let tally = ran.tally;
        write!(f, "a={} n={}", tally.accepted, tally.instructions)?;
        write!(
            f,
            " t={} w={} i={}",
            tally.table_states, tally.waits, tally.idle
        )?;
        write!(f, " h={}>{}", ran.in_hand_before, ran.in_hand_after)?;
        match ran.fault {
            None => Ok(()),
            Some(stop) => write!(f, " {}", Stop(stop)),
        }
    }
}

// The refusal's number, who refused, the tick, the instruction's start and the cycle.
#[derive(Clone, Copy)]
struct Stop(RunFault);

impl fmt::Display for Stop {
    fn fmt<W: fmt::Write>(&self, f: &mut fmt::Formatter<W>) -> fmt::Result {
        let RunFault { fault, tick } = self.0;
        let by = match fault.layer {
            Layer::Decoder => "decoder",
            Layer::PortCard => "card",
        };
        write!(f, "refused {} by {by} at tick {tick}", fault.cause.number())?;
        write!(f, " pc {} cycle {}", fault.pc, fault.cycle)
    }
}
