use crate::refusals::Refusal;
use std::fs;
use std::io::Read;
use tape::read_tape;

// The most bytes of a tape that are read.
const LONGEST: u64 = 60_000;

// Reads the tape of this path into the memory.
pub fn load(rt: &HostRuntime, path: String, memory: &mut [u8]) -> Result<(), Refusal> {
    let Ok(file) = fs::open(rt, &path) else {
        return Err(Refusal::NoTapeAt(path));
    };
    let mut tape = Vec::new(rt.alloc());
    let _ = file.take(LONGEST).read_to_end(&mut tape)?;
    let _ = read_tape(&tape, memory)?;
    Ok(())
}
