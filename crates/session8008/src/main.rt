// Holds a machine that was just powered up, looks into a cell, writes to it, looks again, releases the machine
// and ticks it. It prints what came of each call.
#![tactic(auto)]

use bus::{Board, FlatStore, LatchCard, Written};
use machine::power;
use states::Levels;
use std::io;

fn main(rt: HostRuntime) -> io::Result<()> {
    let mut memory = [0u8; 16];
    let mut board = Board {
        store: FlatStore {
            bytes: &mut memory,
            fixed: 0,
        },
        card: LatchCard::new(),
    };
    let levels = Levels {
        ready: true,
        int: true,
        jam: 5,
    };
    let (mut machine, run_key) = power(&board);
    match machine.hold(run_key, &board) {
        Ok(hold_key) => {
            let before = machine.examine(&hold_key, &mut board, 3);
            let written = machine.deposit(&hold_key, &mut board, 3, 0xC0);
            let after = machine.examine(&hold_key, &mut board, 3);
            let run_key = machine.release(hold_key, &board);
            let ticked = machine.tick(&run_key, levels, &mut board);
            let taken = written == Written::Taken;
            let accepted = ticked.is_ok();
            println!(rt;
                "cell 3 held {before}, taken {taken}, holds {after}, tick accepted {accepted}"
            )
        }
        Err(refusal) => println!(rt; "hold refused by {}", refusal.number()),
    }
}
