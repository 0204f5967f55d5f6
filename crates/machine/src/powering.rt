ghost use Rattle.std.specs.Prelude.{◌≡◌, []};
ghost use Rattle.cpu.specs.Place.{powered_place};
ghost use Rattle.agreement.specs.Calls.{History, run};
ghost use Rattle.agreement.specs.Agreement.{EnginesAgree, TicksAddUp, MachinesAgree};
ghost use Rattle.machine.specs.Machines.{situation_of};
ghost use Rattle.states.specs.Situation.{powered_up};
ghost use Rattle.states.specs.TickLaws.{LawfulTicks, ZeroAtAStart};
ghost use Rattle.states.specs.WholeInstruction.{LastsItsTableStates};

use crate::keys::RunKey;
use crate::machines::Machine;
use bus::Wired;
use cpu::Processor;
use states::InHand;

// A machine at power-up, wired to this store and this port card, with its run key: all zero, stopped, at an
// instruction's start. The bus is only looked at; the calls that follow are made with it.
// Every tick of the machine keeps the laws of a tick, and every instruction lasts its table states and its waits.
// In every history of calls from here on the two engines agree, the ticks add up, and two machines that are fed
// the same come to the same.
pub fn power<B: Wired>(bus: &B) -> (Machine, RunKey)
    ensures machine { situation_of result.0 (B.wiring bus.now) ≡ powered_up (B.wiring bus.now) }
    ensures history { History (powered_place (B.wiring bus.now)) [] (situation_of result.0 (B.wiring bus.now)) run }
    ensures engines_agree { EnginesAgree (powered_place (B.wiring bus.now)) }
    ensures ticks_add_up { TicksAddUp (powered_place (B.wiring bus.now)) }
    ensures machines_agree { MachinesAgree (powered_place (B.wiring bus.now)) }
    ensures lawful { LawfulTicks B.State }
    ensures zero_at_a_start { ZeroAtAStart }
    ensures lasting { LastsItsTableStates B.State }
{
    keep_the_laws(bus);
    (
        Machine {
            processor: Processor::new(),
            hand: InHand::Start,
        },
        RunKey { only: () },
    )
}

// The proof of the laws. It does nothing.
fn keep_the_laws<B: Wired>(bus: &B)
    ensures history { History (powered_place (B.wiring bus.now)) [] (powered_up (B.wiring bus.now)) run }
    ensures engines_agree { EnginesAgree (powered_place (B.wiring bus.now)) }
    ensures ticks_add_up { TicksAddUp (powered_place (B.wiring bus.now)) }
    ensures machines_agree { MachinesAgree (powered_place (B.wiring bus.now)) }
    ensures lawful { LawfulTicks B.State }
    ensures zero_at_a_start { ZeroAtAStart }
    ensures lasting { LastsItsTableStates B.State }
{}
