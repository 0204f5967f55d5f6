ghost use Rattle.std.specs.Prelude.{◌≡◌};
ghost use Rattle.bus.specs.Store.{byte_at};
ghost use Rattle.cpu.specs.Processor.{view_of, pc_in, advancing};

use bus::MemoryBus;
use cpu::Processor;

// The byte at the program counter, which moves on by one.
pub(crate) fn fetch<B: MemoryBus>(processor: &mut Processor, bus: &mut B) -> u8
    ensures byte { result ≡ byte_at (B.wiring bus.old).cells (pc_in (view_of processor.old)) }
    ensures processor { view_of processor.new ≡ advancing (view_of processor.old) }
    ensures kept { B.wiring bus.new ≡ B.wiring bus.old }
    ensures frame_kept { B.frame bus.new ≡ B.frame bus.old }
{
    let byte = bus.read(processor.ring.pc());
    processor.ring = processor.ring.advance();
    byte
}
