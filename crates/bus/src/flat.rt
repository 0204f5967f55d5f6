ghost use Rattle.bus.specs.Flat.{FlatFrame, flat_cells, flat_frame};

use crate::stores::{Store, Written, cell_at};

// A store in a lent buffer. Cell n is byte n; the cells below `fixed` are fixed, and the rest RAM.
// Cells past the buffer are fixed and hold 255, so a count past the buffer leaves no RAM.
// Bytes past the last cell are never touched.
#[derive(Drop)]
pub struct FlatStore<'a> {
    pub bytes: &'a mut [u8],
    pub fixed: usize,
}

impl Store for FlatStore<'_> {
    ghost cells = { flat_cells };

    ghost Frame = { FlatFrame };

    ghost frame = { flat_frame };

    fn read(&mut self, address: u16) -> u8 {
        // Reborrowed first: of a field lent as it stands a proof knows the length, and not the bytes.
        let bytes = &mut *self.bytes;
        bytes.get(cell_at(address)).copied().unwrap_or(255)
    }

    fn write(&mut self, address: u16, byte: u8) -> Written {
        let n = cell_at(address);
        let ram = self.fixed..self.bytes.len();
        if !ram.contains(&n) {
            return Written::Dropped;
        }
        // By index: of a write through `get_mut` a proof knows the buffer's length, and not its bytes.
        self.bytes[n] = byte;
        Written::Taken
    }
}
