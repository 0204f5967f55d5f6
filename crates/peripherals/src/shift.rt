ghost use Rattle.std.specs.Prelude.{◌≡◌, ◌%◌, ◌<◌, cond, true, Some, None, length};
ghost use Rattle.bus.specs.Store.{byte_at, answer_at, written};
ghost use Rattle.peripherals.specs.Shift.{ShiftFrame, shift, shift_cells, shift_frame, shift_frame_at};
ghost use Rattle.peripherals.specs.Shift.{bytes_of, head_of, has_cell, head_after, place_of, places_in, place_after};

use bus::{Store, Written, cell_at};

// The first cell of the ring, 0800H.
const FIRST: usize = 2048;

// The cells of a whole ring.
const RING: usize = 1024;

// A store in a lent ring of shift registers. Byte i of the buffer is cell 0800H + i, and RAM, for i
// below 1,024; bytes from 1,024 on are never touched. Every other cell, and one past a short
// buffer, is fixed and holds 255.
// The bytes stay put, and a head goes round them to the cell that is wanted, one place at a time and
// always forward. It stays at the cell of the last read or write that had a place in the ring.
#[derive(Drop)]
pub struct ShiftStore<'a> {
    bytes: &'a mut [u8],
    head: usize,
}

impl<'a> ShiftStore<'a> {
    // A store in the ring that `bytes` is, with the head at byte 0.
    pub fn new(bytes: &'a mut [u8]) -> ShiftStore<'a>
        ensures cells { shift_cells result ≡ shift bytes.old }
        ensures frame { shift_frame result ≡ shift_frame_at bytes.entry.ghost_name bytes.old }
        ensures head { head_of result ≡ 0 }
    {
        ShiftStore { bytes, head: 0 }
    }

    // Where the head stands: 0 at first, then at the byte of the last cell of the ring that was
    // read or written.
    pub fn head(&self) -> usize
        ensures { result ≡ head_of self.now }
    {
        self.head
    }

    // How many places the ring has.
    fn places(&self) -> usize
        ensures { result ≡ places_in (length (bytes_of self.now)) }
    {
        self.bytes.len().min(RING)
    }

    // Moves the head one place forward, and from the last place, or past it, round to the first.
    fn step(&mut self)
        ensures head { head_of self.new ≡ place_after (length (bytes_of self.old)) (head_of self.old) }
        ensures bytes_kept { bytes_of self.new ≡ bytes_of self.old }
        ensures frame_kept { shift_frame self.new ≡ shift_frame self.old }
    {
        let last = self.places().saturating_sub(1);
        self.head = if self.head < last { self.head + 1 } else { 0 };
    }

    // Steps the head round to a place of the ring, one place at a time, as shift registers move.
    fn turn_to(&mut self, place: usize)
        requires { place < places_in (length (bytes_of self.old)) }
        ensures head { head_of self.new ≡ place }
        ensures bytes_kept { bytes_of self.new ≡ bytes_of self.old }
        ensures frame_kept { shift_frame self.new ≡ shift_frame self.old }
    {
        while self.head != place {
            self.step();
        }
    }

    // The place of the cell at an address, where the ring has it.
    fn place_in_ring(&self, address: u16) -> Option<usize>
        ensures { result ≡ cond (has_cell self.now address) (Some (place_of (address % 16384))) None }
    {
        let place = cell_at(address).checked_sub(FIRST)?;
        (place < self.places()).then_some(place)
    }

    // Brings the head to the cell at an address, where the ring has it, and answers its place.
    fn seek(&mut self, address: u16) -> Option<usize>
        ensures place { result ≡ cond (has_cell self.old address) (Some (place_of (address % 16384))) None }
        ensures head { head_of self.new ≡ head_after self.old address }
        ensures bytes_kept { bytes_of self.new ≡ bytes_of self.old }
        ensures frame_kept { shift_frame self.new ≡ shift_frame self.old }
    {
        let place = self.place_in_ring(address)?;
        self.turn_to(place);
        Some(place)
    }

    // Sets the cell at an address, which the ring has. The head stands there.
    // Apart from `write`, where the proof that the other cells stay did not close: by the head or by the place, before or
    // after the head turns, or with lemmas.
    fn put(&mut self, address: u16, byte: u8)
        requires in_ring { has_cell self.old address ≡ true }
        requires at_cell { head_of self.old ≡ place_of (address % 16384) }
        ensures after { shift_cells self.new ≡ written (shift_cells self.old) address byte }
        ensures frame_kept { shift_frame self.new ≡ shift_frame self.old }
        ensures head_kept { head_of self.new ≡ head_of self.old }
    {
        self.bytes[self.head] = byte;
    }
}

impl Store for ShiftStore<'_> {
    ghost cells = { shift_cells };

    ghost Frame = { ShiftFrame };

    ghost frame = { shift_frame };

    // The head ends at the cell, where the ring has it, and else stays.
    fn read(&mut self, address: u16) -> u8
        ensures value { result ≡ byte_at (shift_cells self.old) address }
        ensures cells_kept { shift_cells self.new ≡ shift_cells self.old }
        ensures frame_kept { shift_frame self.new ≡ shift_frame self.old }
        ensures head { head_of self.new ≡ head_after self.old address }
    {
        // By a match: where a closure reads the lent bytes, a proof loses what the others hold.
        match self.seek(address) {
            Some(place) => self.bytes[place],
            None => 255,
        }
    }

    // The head ends at the cell, where the ring has it, and else stays.
    fn write(&mut self, address: u16, byte: u8) -> Written
        ensures answer { result ≡ answer_at (shift_cells self.old) address }
        ensures after { shift_cells self.new ≡ written (shift_cells self.old) address byte }
        ensures frame_kept { shift_frame self.new ≡ shift_frame self.old }
        ensures head { head_of self.new ≡ head_after self.old address }
    {
        match self.seek(address) {
            Some(_) => {
                self.put(address, byte);
                Written::Taken
            }
            None => Written::Dropped,
        }
    }
}
