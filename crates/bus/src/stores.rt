ghost use Rattle.std.specs.Prelude.{◌≡◌, ◌%◌};
ghost use Rattle.bus.specs.Store.{Cells, Lent, byte_at, answer_at, written};

// The cells of a store.
const CELLS: u16 = 16384;

// The number of the cell that an address names: the address mod 16,384.
pub fn cell_at(address: u16) -> usize
    ensures { result ≡ address % 16384 }
{
    usize::from(address % CELLS)
}

// What became of a write.
#[derive(Clone, Copy, PartialEq, Eq, Debug)]
pub enum Written {
    // The cell is RAM and holds the byte now.
    Taken,
    // The cell is fixed and holds what it held.
    Dropped,
}

// A store of 16,384 cells, each with a byte and a kind. An address is taken mod 16,384.
// No call is ever refused.
pub trait Store {
    // The cell at each address.
    ghost cells: { Self → Cells };

    ghost Frame: { Type 0 };

    // What no call alters besides the cells: where a lent buffer lies, how long it is and what it
    // holds past the cells.
    ghost frame: { Self → Frame };

    // The byte of the cell at `address`. Every cell stays as it is; what may move is how the store
    // gets at its cells, as the head of a shift register does.
    fn read(&mut self, address: u16) -> u8
        ensures value { result ≡ byte_at (cells self.old) address }
        ensures cells_kept { cells self.new ≡ cells self.old }
        ensures frame_kept { frame self.new ≡ frame self.old };

    // Puts `byte` into the cell at `address` where that is RAM. A fixed cell, every other cell and
    // the kind of each stay as they are.
    fn write(&mut self, address: u16, byte: u8) -> Written
        ensures answer { result ≡ answer_at (cells self.old) address }
        ensures after { cells self.new ≡ written (cells self.old) address byte }
        ensures frame_kept { frame self.new ≡ frame self.old };
}

// A lent store is a store.
impl<S: Store> Store for &mut S {
    ghost cells = { λ r. S.cells r.now };

    ghost Frame = { Lent S.Frame };

    ghost frame = { λ r. record { place = r.ghost_name; of = S.frame r.now } };

    fn read(&mut self, address: u16) -> u8 {
        (**self).read(address)
    }

    fn write(&mut self, address: u16, byte: u8) -> Written {
        (**self).write(address, byte)
    }
}
