ghost use Rattle.std.specs.Prelude.{◌≡◌};
ghost use Rattle.cpu.specs.Place.{place_of};
ghost use Rattle.states.specs.Transfers.{moves};
ghost use Rattle.machine.specs.Carried.{CarriedOut};

use bus::{Bus, Trouble};
use cpu::Processor;
use isa::Transfer;

// The transfer of a cycle, and the byte that it gave, 0 where it gives none. A fetch reads at `address`;
// `low` is byte 2.
pub(crate) fn carry_out<B: Bus>(
    transfer: Option<Transfer>,
    address: u16,
    low: u8,
    processor: &Processor,
    bus: &mut B,
) -> Result<u8, Trouble>
    ensures transfer { CarriedOut (moves transfer address low (place_of processor.now (B.wiring bus.old))) result (place_of processor.now (B.wiring bus.old)) (place_of processor.now (B.wiring bus.new)) }
    ensures frame_kept { B.frame bus.new ≡ B.frame bus.old }
{
    match transfer {
        None => Ok(0),
        Some(Transfer::Fetch) => Ok(bus.read(address)),
        Some(Transfer::Read) => Ok(bus.read(processor.registers.memory_address())),
        Some(Transfer::WriteRegister(register)) => {
            let _ = bus.write(
                processor.registers.memory_address(),
                processor.registers.get(register),
            );
            Ok(0)
        }
        Some(Transfer::WriteImmediate) => {
            let _ = bus.write(processor.registers.memory_address(), low);
            Ok(0)
        }
        Some(Transfer::Input(port)) => bus.input(port, processor.registers.a),
        Some(Transfer::Output(port)) => {
            bus.output(port, processor.registers.a)?;
            Ok(0)
        }
    }
}
