ghost use Rattle.std.specs.Prelude.{ℕ, ◌<◌, slice_index};

// Eight address registers of 14 bits in a ring, and the ring number: the one with that number is the
// program counter. A call goes one round further, so that the eighth nested call overwrites the oldest
// return address.
#[derive(Clone, Copy, PartialEq, Eq, Debug)]
pub struct AddressRing {
    pub(crate) registers: [u16; 8],
    pub(crate) number: u8,
    ghost within: { number < 8 },
    ghost fourteen_bits: { (n : ℕ) → slice_index registers n < 16384 },
}
