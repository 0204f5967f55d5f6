ghost use Rattle.std.specs.Prelude.{◌≡◌, false};
ghost use Rattle.cpu.specs.Place.{place_of};
ghost use Rattle.stepper.specs.Instructions.{goes_to_port, done, performs};
ghost use Rattle.stepper.specs.Steps.{PerformedBy};

use crate::fetching::fetch;
use bus::{Bus, MemoryBus};
use cpu::{Fault, Processor};
use isa::{Instruction, Operand};

// An instruction whose first byte is taken, and its table states. The program counter at its start is `pc`.
pub(crate) fn perform<B: Bus>(
    processor: &mut Processor,
    pc: u16,
    instruction: Instruction,
    bus: &mut B,
) -> Result<u8, Fault>
    ensures outcome { PerformedBy (performs pc instruction (place_of processor.old (B.wiring bus.old))) result (place_of processor.old (B.wiring bus.old)) (place_of processor.new (B.wiring bus.new)) }
    ensures frame_kept { B.frame bus.new ≡ B.frame bus.old }
{
    match instruction {
        Instruction::Input(port) => {
            processor.registers.a = Fault::place(bus.input(port, processor.registers.a), pc, 2)?;
            Ok(8)
        }
        Instruction::Output(port) => {
            Fault::place(bus.output(port, processor.registers.a), pc, 2)?;
            Ok(6)
        }
        _ => Ok(perform_in_memory(processor, pc, instruction, bus)),
    }
}

// The same for an instruction that goes to no port, and so is not refused.
fn perform_in_memory<B: MemoryBus>(
    processor: &mut Processor,
    pc: u16,
    instruction: Instruction,
    bus: &mut B,
) -> u8
    requires { goes_to_port instruction ≡ false }
    ensures outcome { performs pc instruction (place_of processor.old (B.wiring bus.old)) ≡ done (place_of processor.new (B.wiring bus.new)) result }
    ensures frame_kept { B.frame bus.new ≡ B.frame bus.old }
{
    let taken = instruction.taken(&processor.flags);
    let states = instruction.table_states(taken);
    match instruction {
        Instruction::LoadMemory(_) | Instruction::Arithmetic(_, Operand::Memory) => {
            let low = bus.read(processor.registers.memory_address());
            processor.finish(instruction, taken, low, 0);
            states
        }
        Instruction::StoreMemory(s) => {
            let _ = bus.write(
                processor.registers.memory_address(),
                processor.registers.get(s),
            );
            states
        }
        Instruction::LoadImmediate(_) | Instruction::Arithmetic(_, Operand::Immediate) => {
            let low = fetch(processor, bus);
            processor.finish(instruction, taken, low, 0);
            states
        }
        Instruction::StoreImmediate => {
            let low = fetch(processor, bus);
            let _ = bus.write(processor.registers.memory_address(), low);
            states
        }
        Instruction::Jump(_) | Instruction::Call(_) => {
            let low = fetch(processor, bus);
            let high = fetch(processor, bus);
            processor.finish(instruction, taken, low, high);
            states
        }
        _ => {
            processor.finish(instruction, taken, 0, 0);
            states
        }
    }
}
