ghost use Rattle.std.specs.Prelude.{◌≡◌};
ghost use Rattle.machine.specs.Holding.{hold_refusal_number};

use crate::keys::RunKey;

// Why a hold is refused, with the run key back.
#[derive(Drop)]
pub enum HoldRefusal {
    // The machine is inside an instruction.
    InsideInstruction(RunKey),
}

impl HoldRefusal {
    // The number that the refusal is known by.
    pub fn number(&self) -> u8
        ensures { result ≡ hold_refusal_number self.now }
    {
        match self {
            HoldRefusal::InsideInstruction(_) => 4,
        }
    }
}
