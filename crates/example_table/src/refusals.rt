// Examples of what is refused.

ghost use Rattle.std.specs.Prelude.{◌≡◌, false};
ghost use Rattle.bus.specs.Latch.{latches_of, fitted_of, zeroed, all_fitted, marked};

use crate::comparing::Tally;
use bus::{Board, FlatStore, LatchCard};
use cpu::{Fault, Layer, Processor};
use machine::power;
use report::Hex4;
use states::Levels;
use std::{fmt, io};
use stepper::{Feed, step};
use tape::{TapeRefusal, read_tape};

#[derive(Clone, Copy)]
enum Engine {
    Steps,
    Ticks,
}

// A first byte that an engine meets at cell 8, and the line of its refusal.
#[derive(Clone, Copy)]
struct Example {
    name: &'static str,
    engine: Engine,
    byte: u8,
    expected: &'static str,
}

static EXAMPLES: [Example; 4] = [
    Example {
        name: "43H, port 1 unfitted, by a step",
        engine: Engine::Steps,
        byte: 0x43,
        expected: "refusal 1 by the port card, PC=0008, cycle 2",
    },
    Example {
        name: "43H, port 1 unfitted, by ticks",
        engine: Engine::Ticks,
        byte: 0x43,
        expected: "refusal 1 by the port card, PC=0008, cycle 2",
    },
    Example {
        name: "22H by a step",
        engine: Engine::Steps,
        byte: 0x22,
        expected: "refusal 3 by the decoder, PC=0008, cycle 1",
    },
    Example {
        name: "22H by ticks",
        engine: Engine::Ticks,
        byte: 0x22,
        expected: "refusal 3 by the decoder, PC=0008, cycle 1",
    },
];

// The restart that leads a processor just powered up to cell 8.
const RST_1: u8 = 0x0D;

// Compares the refusals of both engines, and that of a tape.
pub(crate) fn compare_refusals(rt: &HostRuntime, tally: &mut Tally) -> io::Result<()> {
    for example in EXAMPLES.iter() {
        let met = match example.engine {
            Engine::Steps => meet(example.byte, by_steps),
            Engine::Ticks => meet(example.byte, by_ticks),
        };
        tally.compare(rt, example.name, example.expected, &Met(met))?;
    }
    let mut buffer = [0u8; 16];
    let met = read_tape(b"BNX", &mut buffer).err();
    tally.compare(rt, "the tape BNX", "refusal 7 at place 2", &TapeMet(met))
}

// The refusal that an engine meets, over a memory with the byte in cell 8 and a card without input port 1.
fn meet<E: FnOnce(&mut Board<FlatStore<'_>, LatchCard>) -> Result<(), Fault>>(
    byte: u8,
    engine: E,
) -> Option<Fault>
    requires { E.IsAlwaysCallable engine }
{
    let mut memory = [0, 0, 0, 0, 0, 0, 0, 0, byte];
    let mut board = Board {
        store: FlatStore {
            bytes: &mut memory,
            fixed: 0,
        },
        card: card_without_port_1(),
    };
    engine(&mut board).err()
}

// The instruction engine: a jammed restart, and an own step at the byte.
fn by_steps(board: &mut Board<FlatStore<'_>, LatchCard>) -> Result<(), Fault> {
    let mut processor = Processor::new();
    for feed in [Feed::Jam(RST_1), Feed::Own] {
        let _ = step(&mut processor, feed, board)?;
    }
    Ok(())
}

// The state engine: the ticks of the same two instructions, at most 5 and 11.
fn by_ticks(board: &mut Board<FlatStore<'_>, LatchCard>) -> Result<(), Fault> {
    let (mut machine, key) = power(board);
    for tick in 0..16u8 {
        let levels = Levels {
            ready: true,
            int: tick == 0,
            jam: RST_1,
        };
        let _ = machine.tick(&key, levels, board)?;
    }
    Ok(())
}

// Latches at zero, and every port fitted but input port 1.
fn card_without_port_1() -> LatchCard
    ensures latches { latches_of result ≡ zeroed }
    ensures fitted { fitted_of result ≡ marked all_fitted 1 false }
{
    let mut card = LatchCard::new();
    let _ = card.unfit(1);
    card
}

// A refusal's number, who refused, the program counter at the instruction's start and the cycle.
#[derive(Clone, Copy)]
struct Met(Option<Fault>);

impl fmt::Display for Met {
    fn fmt<W: fmt::Write>(&self, f: &mut fmt::Formatter<W>) -> fmt::Result {
        let Some(fault) = self.0 else {
            return f.write_str("no refusal");
        };
        let by = match fault.layer {
            Layer::Decoder => "the decoder",
            Layer::PortCard => "the port card",
        };
        write!(f, "refusal {} by {by}", fault.cause.number())?;
        write!(f, ", PC={}, cycle {}", Hex4(fault.pc), fault.cycle)
    }
}

// The number of a tape's refusal, and the place of the byte at fault.
#[derive(Clone, Copy)]
struct TapeMet(Option<TapeRefusal>);

impl fmt::Display for TapeMet {
    fn fmt<W: fmt::Write>(&self, f: &mut fmt::Formatter<W>) -> fmt::Result {
        match self.0 {
            None => f.write_str("no refusal"),
            Some(refusal) => write!(
                f,
                "refusal {} at place {}",
                refusal.number(),
                refusal.place()
            ),
        }
    }
}
