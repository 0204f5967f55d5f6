ghost use Rattle.std.specs.Prelude.{◌≡◌};
ghost use Rattle.alu.specs.Outcomes.{outcome};

use isa::Flags;

// What a register takes, and the flags after it.
#[derive(Clone, Copy, PartialEq, Eq, Debug)]
pub struct Outcome {
    pub value: u8,
    pub flags: Flags,
}

impl Outcome {
    // A result with the flags that tell of it, and the carry as given.
    pub(crate) fn of(value: u8, carry: bool) -> Outcome
        ensures { result ≡ outcome carry value }
    {
        Outcome {
            value,
            flags: Flags {
                carry,
                zero: value == 0,
                sign: value >= 128,
                parity: value.count_ones() % 2 == 0,
            },
        }
    }
}
