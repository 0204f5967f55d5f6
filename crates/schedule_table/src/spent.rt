// A run that a spent card stops, and the runs that go on from there.

use crate::run_over;
use crate::schedules::Schedule;
use bus::{Board, FlatStore};
use machine::power;
use peripherals::FeedCard;
use std::io;

// Two inputs over a list of one byte: the second input is refused, and refused again after a wait. A card that
// is fed anew lets it go on.
pub(crate) fn run_spent(rt: &HostRuntime) -> io::Result<bool> {
    let heap = rt.alloc();
    let mut memory = [0x43u8, 0x43].to_vec(heap)?;
    let mut unused = [0u8; 1];
    let mut unused_too = [0u8; 1];
    let mut board = Board {
        store: FlatStore {
            bytes: &mut memory,
            fixed: 0,
        },
        card: FeedCard::new(&[77], &mut unused, 1, 8),
    };
    let (mut machine, key) = power(&board);
    let into_refusal = Schedule::Ticks(b"IRRRRRRRRRRRRRRRRRR", 0x05).bytes(heap)?;
    let stopped = run_over(heap, &into_refusal, &mut machine, &key, &mut board)?;
    let wait_and_again = Schedule::Ticks(b"-R", 0x05).bytes(heap)?;
    let again = run_over(heap, &wait_and_again, &mut machine, &key, &mut board)?;
    board.card = FeedCard::new(&[88], &mut unused_too, 1, 8);
    let to_the_end = Schedule::Ticks(b"RRR", 0x05).bytes(heap)?;
    let gone_on = run_over(heap, &to_the_end, &mut machine, &key, &mut board)?;
    judge(rt, [stopped.as_str(), again.as_str(), gone_on.as_str()])
}

// What the three runs must answer.
const EXPECTED: [&str; 3] = [
    "a=18 n=2 t=13 w=0 i=0 h=0>5 refused 2 by card at tick 18 pc 1 cycle 2 A=77 PC=2",
    "a=1 n=0 t=0 w=1 i=0 h=5>5 refused 2 by card at tick 1 pc 1 cycle 2 A=77 PC=2",
    "a=3 n=1 t=8 w=0 i=0 h=5>0 A=88 PC=2",
];

// Says whether the three runs answered as they must.
fn judge(rt: &HostRuntime, came: [&str; 3]) -> io::Result<bool> {
    let right = came == EXPECTED;
    if right {
        println!(rt; "a spent card, and then one fed anew: ok")?;
    } else {
        let [stopped, again, gone_on] = came;
        println!(rt;
            "a spent card, and then one fed anew: WRONG came {stopped}, {again}, {gone_on}"
        )?;
    }
    Ok(right)
}
