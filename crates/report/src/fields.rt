// The registers and the flags, as they stand in the line.
ghost use Rattle.report.specs.Line.{flag_digit, flag_digits, register_fields};
ghost use Rattle.std.specs.Prelude.{◌≡◌, Some, decimal};

use crate::digits::Hex2;
use isa::{Flags, Registers};
use std::fmt;

// The seven registers, each shown under its letter as two digits. A type of its own, since a crate can give a Display
// only to its own types.
#[derive(Clone, Copy, PartialEq, Eq, Debug)]
pub struct RegisterFields(pub Registers);

impl fmt::Display for RegisterFields {
    ghost output = { λ fields. Some (register_fields fields.0) };

    fn fmt<W: fmt::Write>(&self, f: &mut fmt::Formatter<W>) -> fmt::Result {
        let r = self.0;
        write!(
            f,
            "A={} B={} C={} D={} E={} H={} L={}",
            Hex2(r.a),
            Hex2(r.b),
            Hex2(r.c),
            Hex2(r.d),
            Hex2(r.e),
            Hex2(r.h),
            Hex2(r.l)
        )
    }
}

// The four flags, shown in the order carry, zero, sign, parity, each as 1 where it is set and as 0 where not. A type of
// its own, as that of the registers is.
#[derive(Clone, Copy, PartialEq, Eq, Debug)]
pub struct FlagDigits(pub Flags);

impl fmt::Display for FlagDigits {
    ghost output = { λ digits. Some (flag_digits digits.0) };

    fn fmt<W: fmt::Write>(&self, f: &mut fmt::Formatter<W>) -> fmt::Result {
        let carry = flag_digit(self.0.carry);
        let zero = flag_digit(self.0.zero);
        let sign = flag_digit(self.0.sign);
        let parity = flag_digit(self.0.parity);
        write!(f, "{carry}{zero}{sign}{parity}")
    }
}

// 1 for a flag that is set, and 0 for one that is not: a function of its own, whose contract says the digit's text.
#[tactic(auto, using(crate::proofs::Flags::decimal_flag))]
fn flag_digit(is_set: bool) -> u8
    ensures { decimal result ≡ flag_digit is_set }
{
    u8::from(is_set)
}
