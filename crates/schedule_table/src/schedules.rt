use std::alloc::{AllocError, Global};

// A schedule of the table.
#[derive(Clone, Copy)]
pub enum Schedule {
    // A letter for each tick, and one jam byte for all.
    Ticks(&'static [u8], u8),
    // The bytes as they are.
    Bytes(&'static [u8]),
    // One byte, so many times.
    Repeated(u8, usize),
}

impl Schedule {
    // The bytes of the schedule.
    pub(crate) fn bytes(&self, heap: Global) -> Result<Vec<u8>, AllocError> {
        match self {
            Schedule::Ticks(letters, jam) => ticks(heap, letters, *jam),
            Schedule::Bytes(bytes) => bytes.to_vec(heap),
            Schedule::Repeated(byte, count) => vec![in heap; *byte; *count],
        }
    }
}

// Two bytes for each letter.
fn ticks(heap: Global, letters: &[u8], jam: u8) -> Result<Vec<u8>, AllocError> {
    letters
        .iter()
        .flat_map(|letter| [first_byte(*letter), jam])
        .collect(heap)
}

// The first byte of a tick: `R` is READY, `I` READY and INT, `i` INT alone, `x` READY and another bit, and
// anything else nothing.
fn first_byte(letter: u8) -> u8 {
    match letter {
        b'R' => 1,
        b'i' => 2,
        b'I' => 3,
        b'x' => 5,
        _ => 0,
    }
}
