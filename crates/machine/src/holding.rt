ghost use Rattle.std.specs.Prelude.{◌≡◌, is_ok};
ghost use Rattle.bus.specs.Store.{byte_at, answer_at};
ghost use Rattle.bus.specs.Wiring.{writing};
ghost use Rattle.agreement.specs.Calls.{Use, run, held, hold as Held, examine as Examined, deposit as Deposited, release as Released};
ghost use Rattle.machine.specs.Machines.{situation_of};
ghost use Rattle.machine.specs.Holding.{at_start, key_after};

use crate::keys::{HoldKey, RunKey};
use crate::machines::Machine;
use crate::refusals::HoldRefusal;
use bus::{MemoryBus, Wired, Written};
use states::InHand;

impl Machine {
    // Turns the run key into a hold key at an instruction's start, also of a stopped machine. Inside an
    // instruction the hold is refused by 4, and the run key comes back. Machine, store and card stay as they are; the
    // bus is only looked at to say of what the promise speaks.
    pub fn hold<B: Wired>(&self, key: RunKey, bus: &B) -> Result<HoldKey, HoldRefusal>
        ensures answer { is_ok result ≡ at_start self.now.hand }
        ensures used { Use (situation_of self.now (B.wiring bus.now)) run (Held (is_ok result)) (situation_of self.now (B.wiring bus.now)) (key_after (is_ok result)) }
    {
        if self.may_hold(bus) {
            let RunKey { only } = key;
            Ok(HoldKey { only })
        } else {
            Err(HoldRefusal::InsideInstruction(key))
        }
    }

    // The byte of a cell of the held machine's store. No cell changes, nor does the card.
    pub fn examine<B: MemoryBus>(&self, _key: &HoldKey, bus: &mut B, address: u16) -> u8
        ensures value { result ≡ byte_at (B.wiring bus.old).cells address }
        ensures kept { B.wiring bus.new ≡ B.wiring bus.old }
        ensures frame_kept { B.frame bus.new ≡ B.frame bus.old }
        ensures used { Use (situation_of self.now (B.wiring bus.old)) held (Examined address result) (situation_of self.now (B.wiring bus.new)) held }
    {
        self.read_held(bus, address)
    }

    // Writes a byte to a cell of the held machine's store: taken where the cell is RAM, and dropped where it is
    // fixed. The card stays as it is.
    pub fn deposit<B: MemoryBus>(
        &self,
        _key: &HoldKey,
        bus: &mut B,
        address: u16,
        byte: u8,
    ) -> Written
        ensures answer { result ≡ answer_at (B.wiring bus.old).cells address }
        ensures after { B.wiring bus.new ≡ writing (B.wiring bus.old) address byte }
        ensures frame_kept { B.frame bus.new ≡ B.frame bus.old }
        ensures used { Use (situation_of self.now (B.wiring bus.old)) held (Deposited address byte result) (situation_of self.now (B.wiring bus.new)) held }
    {
        self.write_held(bus, address, byte)
    }

    // Turns the hold key back into a run key. Machine, store and card stay as they are.
    pub fn release<B: Wired>(&self, key: HoldKey, bus: &B) -> RunKey
        ensures used { Use (situation_of self.now (B.wiring bus.now)) held Released (situation_of self.now (B.wiring bus.now)) run }
    {
        let HoldKey { only } = key;
        RunKey { only }
    }

    // Whether the machine is at an instruction's start, as a call of a history.
    fn may_hold<B: Wired>(&self, bus: &B) -> bool
        ensures answer { result ≡ at_start self.now.hand }
        ensures used { Use (situation_of self.now (B.wiring bus.now)) run (Held result) (situation_of self.now (B.wiring bus.now)) (key_after result) }
    {
        matches!(self.hand, InHand::Start)
    }

    // Reads a cell, as a call of a history.
    fn read_held<B: MemoryBus>(&self, bus: &mut B, address: u16) -> u8
        ensures value { result ≡ byte_at (B.wiring bus.old).cells address }
        ensures kept { B.wiring bus.new ≡ B.wiring bus.old }
        ensures frame_kept { B.frame bus.new ≡ B.frame bus.old }
        ensures used { Use (situation_of self.now (B.wiring bus.old)) held (Examined address result) (situation_of self.now (B.wiring bus.new)) held }
    {
        bus.read(address)
    }

    // Writes to a cell, as a call of a history.
    fn write_held<B: MemoryBus>(&self, bus: &mut B, address: u16, byte: u8) -> Written
        ensures answer { result ≡ answer_at (B.wiring bus.old).cells address }
        ensures after { B.wiring bus.new ≡ writing (B.wiring bus.old) address byte }
        ensures frame_kept { B.frame bus.new ≡ B.frame bus.old }
        ensures used { Use (situation_of self.now (B.wiring bus.old)) held (Deposited address byte result) (situation_of self.now (B.wiring bus.new)) held }
    {
        bus.write(address, byte)
    }
}
