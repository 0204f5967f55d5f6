ghost use Rattle.std.specs.Prelude.{◌≡◌};
ghost use Rattle.cpu.specs.Place.{place_of};
ghost use Rattle.stepper.specs.Steps.{stepped};
ghost use Rattle.slips.specs.Feeding.{begun_of, states_of, place_fed, states_fed};

use crate::beginnings::Beginning;
use bus::Bus;
use cpu::Processor;
use stepper::{Feed, step};

// Feeds the instruction engine the instruction that ended: an own step, or a jam. It answers the states of the
// step, if one was carried out.
pub(crate) fn feed_twin<B: Bus>(
    beginning: Beginning,
    twin: &mut Processor,
    bus: &mut B,
) -> Option<u8>
    ensures place { place_of twin.new (B.wiring bus.new) ≡ place_fed (begun_of beginning) (place_of twin.old (B.wiring bus.old)) }
    ensures states { result ≡ states_fed (begun_of beginning) (place_of twin.old (B.wiring bus.old)) }
{
    match beginning {
        Beginning::Own => take_step(Feed::Own, twin, bus),
        Beginning::Jam(byte) => take_step(Feed::Jam(byte), twin, bus),
        Beginning::Nothing | Beginning::Interrupt => None,
    }
}

// One step, and its states, if it was carried out.
fn take_step<B: Bus>(feed: Feed, twin: &mut Processor, bus: &mut B) -> Option<u8>
    ensures place { place_of twin.new (B.wiring bus.new) ≡ (stepped feed (place_of twin.old (B.wiring bus.old))).after }
    ensures states { result ≡ states_of (stepped feed (place_of twin.old (B.wiring bus.old))).answer }
{
    step(twin, feed, bus).unwrap_or(None)
}
