ghost use Rattle.std.specs.Prelude.{◌≡◌, true};
ghost use Rattle.states.specs.Sequencing.{sound as soundly};

use cpu::Processor;
use states::InHand;

// A processor and the instruction that it has in hand.
#[derive(Drop)]
pub struct Machine {
    pub(crate) processor: Processor,
    pub(crate) hand: InHand,
    ghost sound: { soundly hand ≡ true },
}
