ghost use Rattle.std.specs.Prelude.{◌≡◌};
ghost use Rattle.isa.specs.Refusals.{refusal_number};

// Why an instruction is not encoded, or a code not decoded: the instruction table lacks it.
#[derive(Clone, Copy, PartialEq, Eq, Debug)]
pub enum Refusal {
    NoInstruction = 3,
}

impl Refusal {
    // The number that a refusal is known by.
    pub fn number(self) -> u8
        ensures { result ≡ refusal_number self }
    {
        self as u8
    }
}
