// The front panel as a program: loads a tape into a store, powers a machine up over it, and carries out the
// commands that standard input has, one to a line.
#![tactic(auto)]

mod arguments;
mod refusals;
mod session;
mod tapes;

use arguments::Arguments;
use bus::{Board, FlatStore, LatchCard, Store};
use machine::power;
use panel::{Key, Panel};
use refusals::Refusal;
use std::io;
use std::io::BufReader;

// The cells of a store.
const CELLS: usize = 16384;

fn main(rt: HostRuntime) -> io::Result<()> {
    match run(&rt) {
        Err(Refusal::Failed(error)) => Err(error),
        Err(refusal) => println!(rt; "{refusal}"),
        Ok(()) => Ok(()),
    }
}

// Loads the tape that the arguments name into two stores, and works a panel over them.
fn run(rt: &HostRuntime) -> Result<(), Refusal> {
    let Arguments { tape, fixed, card } = arguments::read(rt)?;
    let mut memory = vec![in rt.alloc(); 0u8; CELLS]?;
    tapes::load(rt, tape, &mut memory)?;
    let mut step_memory = memory.clone()?;
    work(rt, &mut memory, &mut step_memory, fixed, card)?;
    Ok(())
}

// Works a panel over two stores that hold the same, with a like card for each. Where there is no memory to read
// commands into, none is carried out.
fn work<'a>(
    rt: &HostRuntime,
    memory: &'a mut [u8],
    step_memory: &'a mut [u8],
    fixed: usize,
    card: LatchCard,
) -> io::Result<()> {
    let board = Board {
        store: FlatStore {
            bytes: memory,
            fixed,
        },
        card,
    };
    let step_store = FlatStore {
        bytes: step_memory,
        fixed,
    };
    let input = BufReader::new(rt.alloc(), rt.stdin())?;
    let (machine, key) = power(&board);
    let mut panel = Panel::new(machine, board, step_store);
    let (key, outcome) = session::converse(rt, input, &mut panel, Key::Run(key));
    session::put_down(&panel, key);
    outcome
}
