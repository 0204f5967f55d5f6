ghost use Rattle.std.specs.Prelude.{◌≡◌};
ghost use Rattle.alu.specs.Rotations.{turned, turning, rotated};

use crate::outcomes::Outcome;
use isa::{Flags, Rotation};

// The accumulator turned by one bit: its eight bits, where carry takes the bit that went round, or the nine
// bits of it and carry. The other flags stay.
pub fn rotate(rotation: Rotation, a: u8, flags: Flags) -> Outcome
    ensures { result ≡ rotated rotation a flags }
{
    let (value, carry) = turn(rotation, a, flags.carry);
    Outcome {
        value,
        flags: Flags { carry, ..flags },
    }
}

// The accumulator and carry after a rotation.
fn turn(rotation: Rotation, a: u8, carry: bool) -> (u8, bool)
    ensures { turned result.0 result.1 ≡ turning rotation a carry }
{
    match rotation {
        Rotation::Left => (a.rotate_left(1), a >= 128),
        Rotation::Right => (a.rotate_right(1), a % 2 == 1),
        Rotation::LeftThroughCarry => (a << 1 | u8::from(carry), a >= 128),
        Rotation::RightThroughCarry => (a >> 1 | u8::from(carry) << 7, a % 2 == 1),
    }
}
