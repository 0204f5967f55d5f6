ghost use Rattle.std.specs.Prelude.{◌≡◌, ◌+◌};
ghost use Rattle.isa.specs.Conditions.{bit};
ghost use Rattle.alu.specs.Arithmetic.{sum, difference, combined, incremented, decremented};

use crate::outcomes::Outcome;
use isa::Group;

// What a group makes of the accumulator and its operand: the accumulator and the flags after it. Results
// are mod 256; carry is one exactly when a sum passes 255 or a difference is below 0, and the logic groups
// clear it; a comparison sets the flags of the difference and keeps the accumulator.
pub fn combine(group: Group, a: u8, operand: u8, carry: bool) -> Outcome
    ensures { result ≡ combined group a operand carry }
{
    match group {
        Group::Add => add(a, operand, false),
        Group::AddCarry => add(a, operand, carry),
        Group::Subtract => subtract(a, operand, false),
        Group::SubtractBorrow => subtract(a, operand, carry),
        Group::And => Outcome::of(a & operand, false),
        Group::Xor => Outcome::of(a ^ operand, false),
        Group::Or => Outcome::of(a | operand, false),
        Group::Compare => Outcome {
            value: a,
            ..subtract(a, operand, false)
        },
    }
}

// One more, mod 256, with the flags of the result and the carry as it was.
pub fn increment(value: u8, carry: bool) -> Outcome
    ensures { result ≡ incremented value carry }
{
    Outcome::of(value.wrapping_add(1), carry)
}

// One less, mod 256, with the flags of the result and the carry as it was.
pub fn decrement(value: u8, carry: bool) -> Outcome
    ensures { result ≡ decremented value carry }
{
    Outcome::of(value.wrapping_sub(1), carry)
}

fn add(a: u8, b: u8, carry: bool) -> Outcome
    ensures { result ≡ sum (a + b + bit carry) }
{
    let over = u16::from(a) + u16::from(b) + u16::from(carry) > 255;
    Outcome::of(a.wrapping_add(b).wrapping_add(u8::from(carry)), over)
}

fn subtract(a: u8, b: u8, borrow: bool) -> Outcome
    ensures { result ≡ difference a (b + bit borrow) }
{
    let under = u16::from(a) < u16::from(b) + u16::from(borrow);
    Outcome::of(a.wrapping_sub(b).wrapping_sub(u8::from(borrow)), under)
}
