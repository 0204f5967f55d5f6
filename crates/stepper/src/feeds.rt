// Where a step gets its first byte.
#[derive(Clone, Copy, PartialEq, Eq, Debug)]
pub enum Feed {
    // From the store, at the program counter.
    Own,
    // From an interrupting card. The program counter stays, and a stopped processor goes on.
    Jam(u8),
}
