ghost use Rattle.std.specs.Prelude.{◌≡◌, ◌==◌};
ghost use Rattle.agreement.specs.InstructionMachine.{begun_after};
ghost use Rattle.slips.specs.Feeding.{begun_of};

use states::{State, Ticked};

// How the instruction in hand began: by T1, or by T1I, with the jam byte once it is accepted at T3.
#[derive(Clone, Copy)]
pub(crate) enum Beginning {
    Nothing,
    Own,
    Interrupt,
    Jam(u8),
}

impl Beginning {
    // What an accepted tick, with this jam byte, shows of the instruction's beginning.
    pub(crate) fn after(self, ticked: &Ticked, jam: u8) -> Beginning
        ensures { begun_of result ≡ begun_after (begun_of self) jam ticked.now.state (ticked.now.cycle == 1) }
    {
        match (ticked.state, self) {
            (State::T1, _) if ticked.cycle == 1 => Beginning::Own,
            (State::T1I, _) => Beginning::Interrupt,
            (State::T3, Beginning::Interrupt) if ticked.cycle == 1 => Beginning::Jam(jam),
            _ => self,
        }
    }
}
