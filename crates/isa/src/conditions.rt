ghost use Rattle.std.specs.Prelude.{◌≡◌};
ghost use Rattle.isa.specs.Conditions.{flag_with_code, condition_with_code, flag_in, holds};

use crate::refusals::Refusal;

// The four flags, in the order of their codes 0 to 3.
#[derive(Clone, Copy, PartialEq, Eq, Debug)]
pub enum Flag {
    Carry,
    Zero,
    Sign,
    Parity,
}

// What the four flags hold.
#[derive(Clone, Copy, PartialEq, Eq, Default, Debug)]
pub struct Flags {
    pub carry: bool,
    pub zero: bool,
    pub sign: bool,
    pub parity: bool,
}

// What a jump, a call or a return waits for: nothing, or that a flag has a value.
#[derive(Clone, Copy, PartialEq, Eq, Debug)]
pub enum Condition {
    Always,
    When(Flag, bool),
}

// The flag with this code. A code above 3 is refused.
impl TryFrom<u8> for Flag {
    type Error = Refusal;

    ghost try_from_gives = { λ code r. r ≡ flag_with_code code };

    fn try_from(code: u8) -> Result<Self, Refusal> {
        match code {
            0 => Ok(Flag::Carry),
            1 => Ok(Flag::Zero),
            2 => Ok(Flag::Sign),
            3 => Ok(Flag::Parity),
            _ => Err(Refusal::NoInstruction),
        }
    }
}

// The condition on a flag with these bits fcc. A number above 7 is refused.
impl TryFrom<u8> for Condition {
    type Error = Refusal;

    ghost try_from_gives = { λ code r. r ≡ condition_with_code code };

    fn try_from(code: u8) -> Result<Self, Refusal> {
        let value = code >= 4;
        let flag = Flag::try_from(if value { code - 4 } else { code })?;
        Ok(Condition::When(flag, value))
    }
}

impl Flags {
    // Whether the condition holds.
    pub fn meet(&self, condition: Condition) -> bool
        ensures { result ≡ holds condition self.now }
    {
        match condition {
            Condition::Always => true,
            Condition::When(flag, value) => self.get(flag) == value,
        }
    }

    // What the flag holds.
    fn get(&self, flag: Flag) -> bool
        ensures { result ≡ flag_in self.now flag }
    {
        match flag {
            Flag::Carry => self.carry,
            Flag::Zero => self.zero,
            Flag::Sign => self.sign,
            Flag::Parity => self.parity,
        }
    }
}
