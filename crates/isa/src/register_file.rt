ghost use Rattle.std.specs.Prelude.{◌≡◌};
ghost use Rattle.isa.specs.RegisterFile.{register_with_code, held, replaced, memory_address};

use crate::refusals::Refusal;

// The seven registers, in the order of their codes 0 to 6.
#[derive(Clone, Copy, PartialEq, Eq, Debug)]
pub enum Register {
    A,
    B,
    C,
    D,
    E,
    H,
    L,
}

// The register with this code. A code above 6 is refused.
impl TryFrom<u8> for Register {
    type Error = Refusal;

    ghost try_from_gives = { λ code r. r ≡ register_with_code code };

    fn try_from(code: u8) -> Result<Self, Refusal> {
        match code {
            0 => Ok(Register::A),
            1 => Ok(Register::B),
            2 => Ok(Register::C),
            3 => Ok(Register::D),
            4 => Ok(Register::E),
            5 => Ok(Register::H),
            6 => Ok(Register::L),
            _ => Err(Refusal::NoInstruction),
        }
    }
}

// What the seven registers hold.
#[derive(Clone, Copy, PartialEq, Eq, Default, Debug)]
pub struct Registers {
    pub a: u8,
    pub b: u8,
    pub c: u8,
    pub d: u8,
    pub e: u8,
    pub h: u8,
    pub l: u8,
}

impl Registers {
    // The byte that the register holds.
    pub fn get(&self, register: Register) -> u8
        ensures { result ≡ held self.now register }
    {
        match register {
            Register::A => self.a,
            Register::B => self.b,
            Register::C => self.c,
            Register::D => self.d,
            Register::E => self.e,
            Register::H => self.h,
            Register::L => self.l,
        }
    }

    // The register takes the byte, and no other register changes.
    pub fn set(&mut self, register: Register, byte: u8)
        ensures { self.new ≡ replaced self.old register byte }
    {
        match register {
            Register::A => self.a = byte,
            Register::B => self.b = byte,
            Register::C => self.c = byte,
            Register::D => self.d = byte,
            Register::E => self.e = byte,
            Register::H => self.h = byte,
            Register::L => self.l = byte,
        }
    }

    // The address of M, the memory cell that H and L point to. The two high bits of H do not count.
    pub fn memory_address(&self) -> u16
        ensures { result ≡ memory_address self.now }
    {
        u16::from_be_bytes([self.h % 64, self.l])
    }
}
