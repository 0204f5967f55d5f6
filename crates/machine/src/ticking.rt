ghost use Rattle.std.specs.Prelude.{◌≡◌, true, false, None};
ghost use Rattle.cpu.specs.Processor.{view_of};
ghost use Rattle.cpu.specs.Place.{place_of};
ghost use Rattle.isa.specs.Decoding.{decoded};
ghost use Rattle.states.specs.Sequencing.{sound_up_to};
ghost use Rattle.agreement.specs.Calls.{Use, run, tick as Ticks};
ghost use Rattle.machine.specs.Machines.{situation_of, quiet_of};
ghost use Rattle.machine.specs.Calling.{TicksAreCalls};
ghost use Rattle.states.specs.States.{cycle_one, begins, opens, proceeds, addresses, having, tells, fourth_state};
ghost use Rattle.states.specs.Ticks.{ticked, opened, transfers, goes};

use crate::keys::RunKey;
use crate::machines::Machine;
use crate::sequencing::what_follows;
use crate::transfers::carry_out;
use bus::{Bus, MemoryBus, Wired};
use cpu::Fault;
use isa::{Cycle, CycleKind, Instruction, Transfer, decode};
use states::{Following, InHand, Levels, Opening, Phase, State, Ticked, Underway};

impl Machine {
    // One state, decided by how far the machine is in an instruction and by the levels. A refused tick leaves
    // machine, cells and card as they were, and so does a WAIT.
    pub fn tick<B: Bus>(
        &mut self,
        _key: &RunKey,
        levels: Levels,
        bus: &mut B,
    ) -> Result<Ticked, Fault>
        ensures outcome { ticked levels (situation_of self.old (B.wiring bus.old)) ≡ record { answer = result; after = situation_of self.new (B.wiring bus.new) } }
        ensures used { Use (situation_of self.old (B.wiring bus.old)) run (Ticks levels result) (situation_of self.new (B.wiring bus.new)) run }
        ensures frame_kept { B.frame bus.new ≡ B.frame bus.old }
    {
        count_as_call(bus);
        match (self.hand, levels.ready, levels.int) {
            (InHand::Start, _, int) => Ok(self.begin(int)),
            (InHand::Opening(opening), _, _) => Ok(self.open(opening)),
            (InHand::Opened(_), false, _) => Ok(in_cycle_one(State::Wait)),
            (InHand::Opened(opening), true, _) => self.take_first_byte(opening, levels.jam, bus),
            (InHand::Underway(work), ready, _) => self.go_on(work, ready, bus),
        }
    }

    // The next state of an instruction under way.
    fn go_on<B: Bus>(&mut self, work: Underway, ready: bool, bus: &mut B) -> Result<Ticked, Fault>
        requires { self.old.hand ≡ InHand.Underway work }
        ensures outcome { goes work.next ready work (place_of self.old.processor (B.wiring bus.old)) ≡ record { answer = result; after = situation_of self.new (B.wiring bus.new) } }
        ensures frame_kept { B.frame bus.new ≡ B.frame bus.old }
    {
        match (work.next, ready) {
            (Phase::T1, _) => Ok(self.proceed(State::T1, work)),
            (Phase::T2, _) => Ok(self.address(work)),
            (Phase::T3, false) => Ok(tell(&work, State::Wait, None)),
            (Phase::T3, true) => self.transfer(work, bus),
            (Phase::T4, _) => Ok(self.proceed(fourth_state(work.instruction), work)),
            (Phase::T5, _) => Ok(self.proceed(State::T5, work)),
        }
    }

    // T1I, T1 or an idle state.
    fn begin(&mut self, int: bool) -> Ticked
        requires { self.old.hand ≡ InHand.Start }
        ensures { quiet_of result self.new ≡ begins int (view_of self.old.processor) }
    {
        let start = self.processor.ring.pc();
        if int {
            self.processor.stopped = false;
            self.hand = InHand::Opening(Opening {
                jammed: true,
                start,
            });
            return in_cycle_one(State::T1I);
        }
        if self.processor.stopped {
            return Ticked {
                state: State::Stopped,
                cycle: 0,
                kind: None,
                ended: None,
            };
        }
        self.hand = InHand::Opening(Opening {
            jammed: false,
            start,
        });
        in_cycle_one(State::T1)
    }

    // T2 of cycle one.
    fn open(&mut self, opening: Opening) -> Ticked
        ensures { quiet_of result self.new ≡ opens opening (view_of self.old.processor) }
    {
        if !opening.jammed {
            self.processor.ring = self.processor.ring.advance();
        }
        self.hand = InHand::Opened(opening);
        in_cycle_one(State::T2)
    }

    // A state of an instruction under way is over.
    fn proceed(&mut self, state: State, work: Underway) -> Ticked
        requires { sound_up_to work.next work ≡ true }
        ensures { quiet_of result self.new ≡ proceeds state work (view_of self.old.processor) }
    {
        let mut ended = None;
        match what_follows(&work) {
            Following::Phase(next) => self.hand = InHand::Underway(Underway { next, ..work }),
            Following::Cycle(cycle) => self.hand = InHand::Underway(Underway {
                cycle,
                next: Phase::T1,
                ..work
            }),
            Following::End => {
                self.processor
                    .finish(work.instruction, work.taken, work.low, work.high);
                self.hand = InHand::Start;
                ended = Some(work.instruction.table_states(work.taken));
            }
        }
        tell(&work, state, ended)
    }

    // T2 of a later cycle.
    fn address(&mut self, work: Underway) -> Ticked
        requires { (self.old.hand ≡ InHand.Underway work) × (work.next ≡ Phase.T2) }
        ensures { quiet_of result self.new ≡ addresses work (view_of self.old.processor) }
    {
        let address = self.processor.ring.pc();
        if let Some(Transfer::Fetch) = work.instruction.transfer(work.cycle) {
            self.processor.ring = self.processor.ring.advance();
        }
        self.proceed(State::T2, Underway { address, ..work })
    }
}

impl Machine {
    // T3 of cycle one: the first byte is taken.
    fn take_first_byte<B: MemoryBus>(
        &mut self,
        opening: Opening,
        jam: u8,
        bus: &mut B,
    ) -> Result<Ticked, Fault>
        requires { self.old.hand ≡ InHand.Opened opening }
        ensures outcome { opened true jam opening (place_of self.old.processor (B.wiring bus.old)) ≡ record { answer = result; after = situation_of self.new (B.wiring bus.new) } }
        ensures frame_kept { B.frame bus.new ≡ B.frame bus.old }
    {
        let byte = if opening.jammed {
            jam
        } else {
            bus.read(opening.start)
        };
        let instruction = decode(byte).ok_or(Fault::in_decoder(opening.start))?;
        let taken = instruction.taken(&self.processor.flags);
        let work = Underway {
            instruction,
            start: opening.start,
            taken,
            cycle: Cycle::First,
            next: Phase::T3,
            address: opening.start,
            low: 0,
            high: 0,
        };
        Ok(self.proceed(State::T3, work))
    }

    // T3 of a later cycle: its one transfer.
    fn transfer<B: Bus>(&mut self, work: Underway, bus: &mut B) -> Result<Ticked, Fault>
        requires { (self.old.hand ≡ InHand.Underway work) × (work.next ≡ Phase.T3) }
        ensures outcome { transfers true work (place_of self.old.processor (B.wiring bus.old)) ≡ record { answer = result; after = situation_of self.new (B.wiring bus.new) } }
        ensures frame_kept { B.frame bus.new ≡ B.frame bus.old }
    {
        let transfer = work.instruction.transfer(work.cycle);
        let answer = carry_out(transfer, work.address, work.low, &self.processor, bus);
        let byte = Fault::place(answer, work.start, work.cycle.number())?;
        Ok(self.proceed(State::T3, with_byte(work, byte)))
    }
}

// The proof that a tick is a call of a history. It does nothing.
fn count_as_call<B: Wired>(_bus: &B)
    ensures { TicksAreCalls B.State }
{}

// The answer of a state of it.
fn tell(work: &Underway, state: State, ended: Option<u8>) -> Ticked
    ensures { result ≡ tells state work.now ended }
{
    Ticked {
        state,
        cycle: work.cycle.number(),
        kind: work.instruction.kind(work.cycle),
        ended,
    }
}

// It, with the byte that its cycle gave.
fn with_byte(work: Underway, byte: u8) -> Underway
    ensures { result ≡ having work byte }
{
    match work.cycle {
        Cycle::First => work,
        Cycle::Second => Underway { low: byte, ..work },
        Cycle::Third => Underway { high: byte, ..work },
    }
}

// The answer of a state of cycle one before the first byte is taken.
fn in_cycle_one(state: State) -> Ticked
    ensures { result ≡ cycle_one state }
{
    Ticked {
        state,
        cycle: 1,
        kind: Some(CycleKind::Pci),
        ended: None,
    }
}

// The fourth state of a cycle: T4, but for a halt.
fn fourth_state(instruction: Instruction) -> State
    ensures { result ≡ fourth_state instruction }
{
    match instruction {
        Instruction::Halt => State::Stopped,
        _ => State::T4,
    }
}
