ghost use Rattle.std.specs.Prelude.{◌≡◌};
ghost use Rattle.cpu.specs.Faults.{cause_number, cause_of, decoder_fault, card_fault, placed};

use bus::Trouble;

// Why an instruction is refused.
#[derive(Clone, Copy, PartialEq, Eq, Debug)]
pub enum Cause {
    // There is no card at the port.
    NoCard = 1,
    // The card at the port is spent.
    Spent = 2,
    // The first byte is no instruction.
    NoInstruction = 3,
}

// Who refused it.
#[derive(Clone, Copy, PartialEq, Eq, Debug)]
pub enum Layer {
    Decoder,
    PortCard,
}

// A refused instruction: why and by whom, the program counter at the instruction's start, and the cycle
// in which it was refused.
#[derive(Clone, Copy, PartialEq, Eq, Debug)]
pub struct Fault {
    pub cause: Cause,
    pub layer: Layer,
    pub pc: u16,
    // Its number, as the answer of a tick has it, where 0 is that of no cycle.
    pub cycle: u8,
}

impl Cause {
    // The number that the refusal is known by: 1, 2 or 3.
    pub fn number(self) -> u8
        ensures { result ≡ cause_number self }
    {
        self as u8
    }
}

// The cause of a port card's trouble.
impl From<Trouble> for Cause {
    ghost from_gives = { λ trouble cause. cause ≡ cause_of trouble };

    fn from(trouble: Trouble) -> Self {
        match trouble {
            Trouble::NoCard => Cause::NoCard,
            Trouble::Spent => Cause::Spent,
        }
    }
}

impl Fault {
    // The first byte of the instruction that starts at `pc` is none that the instruction table has.
    pub fn in_decoder(pc: u16) -> Fault
        ensures { result ≡ decoder_fault pc }
    {
        Fault {
            cause: Cause::NoInstruction,
            layer: Layer::Decoder,
            pc,
            cycle: 1,
        }
    }

    // The port card's trouble with the instruction that starts at `pc`, in this cycle of it.
    pub fn in_card(trouble: Trouble, pc: u16, cycle: u8) -> Fault
        ensures { result ≡ card_fault pc cycle trouble }
    {
        Fault {
            cause: trouble.into(),
            layer: Layer::PortCard,
            pc,
            cycle,
        }
    }

    // The answer of a port card, with the place of the instruction added to its trouble, if any.
    pub fn place<T>(answer: Result<T, Trouble>, pc: u16, cycle: u8) -> Result<T, Fault>
        ensures { result ≡ placed pc cycle answer }
    {
        answer.map_err(|trouble| Fault::in_card(trouble, pc, cycle))
    }
}
