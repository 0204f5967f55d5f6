use crate::refusals::Refusal;
use slips::{drive_ready, interrupt_at};
use std::alloc::{AllocError, Global};
use std::env;

// The ticks of a schedule, where the arguments do not say how many.
const TICKS: usize = 1_000;

// The most ticks that a schedule has.
const MOST: usize = 65_536;

// The jam byte of the first interrupt, where the arguments give none: a restart of cell 0.
const RESTART: u8 = 0x05;

// What one argument asks for.
enum Word {
    Ticks(usize),
    Low(u8),
    Interrupt(usize, u8),
}

// What all arguments ask for: the ticks, in how many of them READY is low before each in which it is high, and the
// interrupts with their jam bytes.
#[derive(Drop)]
struct Plan {
    ticks: usize,
    low: u8,
    interrupts: Vec<(usize, u8)>,
}

// The schedule that the program's arguments describe.
pub fn read(rt: &HostRuntime) -> Result<Vec<u8>, Refusal> {
    let mut plan = Plan {
        ticks: TICKS,
        low: 0,
        interrupts: Vec::new(rt.alloc()),
    };
    for word in env::args(rt)?.skip(1) {
        match read_word(&word) {
            Some(Word::Ticks(count)) => plan.ticks = count,
            Some(Word::Low(count)) => plan.low = count,
            Some(Word::Interrupt(tick, jam)) => plan.interrupts.push((tick, jam))?,
            None => return Err(Refusal::NoSuchArgument(word)),
        }
    }
    Ok(plan.schedule(rt.alloc())?)
}

impl Plan {
    // The schedule, with a restart in its first tick where no interrupt is asked for.
    fn schedule(self, heap: Global) -> Result<Vec<u8>, AllocError> {
        let mut schedule = vec![in heap; 0u8; 2 * self.ticks.min(MOST)]?;
        drive_ready(&mut schedule, self.low);
        if self.interrupts.is_empty() {
            interrupt_at(&mut schedule, 0, RESTART);
        }
        for (tick, jam) in self.interrupts {
            interrupt_at(&mut schedule, tick, jam);
        }
        Ok(schedule)
    }
}

// Reads `ticks=COUNT`, `low=COUNT` or `int=TICK:JAM`: counts and ticks in decimal, the jam byte in hexadecimal.
fn read_word(word: &str) -> Option<Word> {
    let (name, value) = word.split_once('=')?;
    match name {
        "ticks" => value.parse().ok().map(Word::Ticks),
        "low" => value.parse().ok().map(Word::Low),
        "int" => {
            let (tick, jam) = value.split_once(':')?;
            let jam = u8::from_str_radix(jam, 16).ok()?;
            Some(Word::Interrupt(tick.parse().ok()?, jam))
        }
        _ => None,
    }
}
