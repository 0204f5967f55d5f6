ghost use Rattle.std.specs.Prelude.{◌≡◌, ℕ, ◌<◌, ◌≤◌, Err};
ghost use Rattle.bus.specs.declared.cards.Trouble.TheVariants.{NoCard};
ghost use Rattle.bus.specs.Store.{Lent};
ghost use Rattle.bus.specs.Card.{Rules, input_of, output_of, trouble_number};

// Why a transfer is refused.
#[derive(Clone, Copy, PartialEq, Eq, Debug)]
pub enum Trouble {
    // No card answers at this port and way.
    NoCard = 1,
    // A card answers there, and has no more to give or no more room.
    Spent = 2,
}

impl Trouble {
    // The refusal's number, which never changes: 1 for no card, 2 for a spent one.
    pub fn number(self) -> u8
        ensures { result ≡ trouble_number self }
    {
        self as u8
    }
}

// What answers at the ports: input ports are 0 to 7, output ports 8 to 31.
// A card has a state, and rules that say of each state, port and byte whether the transfer is
// clear, and what comes of it. A clear transfer is carried out once for each call; any other is
// refused with its trouble, and the state stays. No call alters the rules.
pub trait PortCard {
    ghost State: { Type 0 };

    // The card's own state, which the rules speak of.
    ghost state: { Self → State };

    // Which transfers are clear in each state, and what comes of them.
    ghost rules: { Self → Rules State };

    ghost Frame: { Type 0 };

    // What no call alters besides the state: where a lent buffer lies and how long it is.
    ghost frame: { Self → Frame };

    // An input at `port`, to which the accumulator `a` is offered; answers the byte that comes in.
    fn input(&mut self, port: u8, a: u8) -> Result<u8, Trouble>
        ensures answer { result ≡ (input_of (rules self.old) (state self.old) port a).answer }
        ensures after { state self.new ≡ (input_of (rules self.old) (state self.old) port a).after }
        ensures rules_kept { rules self.new ≡ rules self.old }
        ensures frame_kept { frame self.new ≡ frame self.old };

    // An output of `byte` at `port`.
    fn output(&mut self, port: u8, byte: u8) -> Result<(), Trouble>
        ensures answer { result ≡ (output_of (rules self.old) (state self.old) port byte).answer }
        ensures after { state self.new ≡ (output_of (rules self.old) (state self.old) port byte).after }
        ensures rules_kept { rules self.new ≡ rules self.old }
        ensures frame_kept { frame self.new ≡ frame self.old };

    // No input port lies past 7.
    ghost input_ports: { (c : Self) (s : State) (p a : ℕ) → 8 ≤ p → (rules c).input s p a ≡ Err NoCard };

    // Output ports begin at 8.
    ghost output_ports_from: { (c : Self) (s : State) (p b : ℕ) → p < 8 → (rules c).output s p b ≡ Err NoCard };

    // Output ports end at 31.
    ghost output_ports_to: { (c : Self) (s : State) (p b : ℕ) → 32 ≤ p → (rules c).output s p b ≡ Err NoCard };
}

// A lent card is a card.
impl<C: PortCard> PortCard for &mut C {
    ghost State = { C.State };

    ghost state = { λ r. C.state r.now };

    ghost rules = { λ r. C.rules r.now };

    ghost Frame = { Lent C.Frame };

    ghost frame = { λ r. record { place = r.ghost_name; of = C.frame r.now } };

    ghost input_ports = { λ r. C.input_ports r.now };

    ghost output_ports_from = { λ r. C.output_ports_from r.now };

    ghost output_ports_to = { λ r. C.output_ports_to r.now };

    fn input(&mut self, port: u8, a: u8) -> Result<u8, Trouble> {
        (**self).input(port, a)
    }

    fn output(&mut self, port: u8, byte: u8) -> Result<(), Trouble> {
        (**self).output(port, byte)
    }
}
