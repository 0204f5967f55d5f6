ghost use Rattle.std.specs.Prelude.{◌≡◌};
ghost use Rattle.panel.specs.Lines.{refused_number};

use bus::Trouble;

// Why a hold or an input is refused.
#[derive(Clone, Copy, PartialEq, Eq, Debug)]
pub enum Refusal {
    // A hold: the machine is inside an instruction.
    InsideInstruction,
    // An input: its port is no input port of the card.
    Port(Trouble),
    // What is known by its number alone.
    Numbered(u8),
}

impl Refusal {
    // The number that the refusal is known by.
    pub fn number(self) -> u8
        ensures { result ≡ refused_number self }
    {
        match self {
            Refusal::InsideInstruction => 4,
            Refusal::Port(trouble) => trouble.number(),
            Refusal::Numbered(number) => number,
        }
    }
}
