ghost use Rattle.std.specs.Prelude.{◌≡◌};
ghost use Rattle.bus.specs.Store.{Lent, byte_at, answer_at};
ghost use Rattle.bus.specs.Card.{input_of, output_of};
ghost use Rattle.bus.specs.Wiring.{Frames, Wiring, wired, writing, with_state};

use crate::cards::{PortCard, Trouble};
use crate::stores::{Store, Written};

// The meaning of what a processor is wired to: a store, and the cards at its ports.
pub trait Wired {
    ghost State: { Type 0 };

    // The store's cells, and the rules and the state of the port card.
    ghost wiring: { Self → Wiring State };

    ghost Frame: { Type 0 };

    // What no call alters besides: where lent buffers lie, how long they are and what they hold past their use.
    ghost frame: { Self → Frame };
}

// The memory side of it: reads and writes, which leave the card alone.
pub trait MemoryBus: Wired {
    // The byte of the cell at `address`.
    fn read(&mut self, address: u16) -> u8
        ensures value { result ≡ byte_at (Self.wiring self.old).cells address }
        ensures kept { Self.wiring self.new ≡ Self.wiring self.old }
        ensures frame_kept { Self.frame self.new ≡ Self.frame self.old };

    // Puts `byte` into the cell at `address` where that is RAM.
    fn write(&mut self, address: u16, byte: u8) -> Written
        ensures answer { result ≡ answer_at (Self.wiring self.old).cells address }
        ensures after { Self.wiring self.new ≡ writing (Self.wiring self.old) address byte }
        ensures frame_kept { Self.frame self.new ≡ Self.frame self.old };
}

// What a processor is wired to: a store, and the cards at its ports. `Board` makes one of any store and any card.
pub trait Bus: MemoryBus {
    // An input at `port`, to which the accumulator `a` is offered; answers the byte that comes in.
    fn input(&mut self, port: u8, a: u8) -> Result<u8, Trouble>
        ensures answer { result ≡ (input_of (Self.wiring self.old).rules (Self.wiring self.old).state port a).answer }
        ensures after { Self.wiring self.new ≡ with_state (Self.wiring self.old) (input_of (Self.wiring self.old).rules (Self.wiring self.old).state port a).after }
        ensures frame_kept { Self.frame self.new ≡ Self.frame self.old };

    // An output of `byte` at `port`.
    fn output(&mut self, port: u8, byte: u8) -> Result<(), Trouble>
        ensures answer { result ≡ (output_of (Self.wiring self.old).rules (Self.wiring self.old).state port byte).answer }
        ensures after { Self.wiring self.new ≡ with_state (Self.wiring self.old) (output_of (Self.wiring self.old).rules (Self.wiring self.old).state port byte).after }
        ensures frame_kept { Self.frame self.new ≡ Self.frame self.old };
}

// A store and a port card, wired to one processor.
#[derive(Drop)]
pub struct Board<S, C> {
    pub store: S,
    pub card: C,
}

impl<S: Store, C: PortCard> Wired for Board<S, C> {
    ghost State = { C.State };

    ghost wiring = { λ b. wired (S.cells b.store) (C.rules b.card) (C.state b.card) };

    ghost Frame = { Frames S.Frame C.Frame };

    ghost frame = { λ b. record { store = S.frame b.store; card = C.frame b.card } };
}

impl<S: Store, C: PortCard> MemoryBus for Board<S, C> {
    fn read(&mut self, address: u16) -> u8 {
        self.store.read(address)
    }

    fn write(&mut self, address: u16, byte: u8) -> Written {
        self.store.write(address, byte)
    }
}

impl<S: Store, C: PortCard> Bus for Board<S, C> {
    fn input(&mut self, port: u8, a: u8) -> Result<u8, Trouble> {
        self.card.input(port, a)
    }

    fn output(&mut self, port: u8, byte: u8) -> Result<(), Trouble> {
        self.card.output(port, byte)
    }
}

// A board of which only the store is lent to be worked on, as for a held machine; the card is looked at.
#[derive(Drop)]
pub struct HeldBoard<'s, 'c, S, C> {
    pub store: &'s mut S,
    pub card: &'c C,
}

impl<S: Store, C: PortCard> Wired for HeldBoard<'_, '_, S, C> {
    ghost State = { C.State };

    ghost wiring = { λ b. wired (S.cells b.store.now) (C.rules b.card.now) (C.state b.card.now) };

    ghost Frame = { Frames (Lent S.Frame) C.Frame };

    ghost frame = { λ b. record { store = record { place = b.store.ghost_name; of = S.frame b.store.now }; card = C.frame b.card.now } };
}

impl<S: Store, C: PortCard> MemoryBus for HeldBoard<'_, '_, S, C> {
    fn read(&mut self, address: u16) -> u8 {
        (*self.store).read(address)
    }

    fn write(&mut self, address: u16, byte: u8) -> Written {
        (*self.store).write(address, byte)
    }
}

// A store and a port card that are only looked at.
#[derive(Clone, Copy)]
pub struct SeenBoard<'s, 'c, S, C> {
    pub store: &'s S,
    pub card: &'c C,
}

impl<S: Store, C: PortCard> Wired for SeenBoard<'_, '_, S, C> {
    ghost State = { C.State };

    ghost wiring = { λ b. wired (S.cells b.store.now) (C.rules b.card.now) (C.state b.card.now) };

    ghost Frame = { Frames S.Frame C.Frame };

    ghost frame = { λ b. record { store = S.frame b.store.now; card = C.frame b.card.now } };
}
