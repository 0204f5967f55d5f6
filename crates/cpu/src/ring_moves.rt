ghost use Rattle.std.specs.Prelude.{◌≡◌, ◌<◌};
ghost use Rattle.cpu.specs.AddressRing.{ring_of, zero_ring, pc_of, with_pc, advanced, jumped, called, returned};

use crate::address_ring::AddressRing;

impl AddressRing {
    // All registers and the number at zero, as at power-up.
    pub fn new() -> AddressRing
        ensures { ring_of result ≡ zero_ring }
    {
        AddressRing {
            registers: [0; 8],
            number: 0,
        }
    }

    // The program counter.
    pub fn pc(&self) -> u16
        ensures value { result ≡ pc_of (ring_of self.now) }
        ensures fourteen_bits { result < 16384 }
    {
        self.registers[usize::from(self.number)]
    }

    // The ring number, 0 to 7.
    pub fn number(&self) -> u8
        ensures value { result ≡ (ring_of self.now).number }
        ensures within { result < 8 }
    {
        self.number
    }

    // All eight registers, by their numbers.
    pub fn registers(&self) -> [u16; 8]
        ensures { result ≡ (ring_of self.now).registers }
    {
        self.registers
    }

    // The program counter moves on by one, mod 16,384.
    pub fn advance(self) -> AddressRing
        ensures { ring_of result ≡ advanced (ring_of self) }
    {
        self.with_pc(self.number, self.pc() + 1)
    }

    // The program counter becomes the target, taken mod 16,384.
    pub fn jump(self, target: u16) -> AddressRing
        ensures { ring_of result ≡ jumped (ring_of self) target }
    {
        self.with_pc(self.number, target)
    }

    // The number moves on by one, mod 8, and the new program counter is the target, taken mod 16,384.
    pub fn call(self, target: u16) -> AddressRing
        ensures { ring_of result ≡ called (ring_of self) target }
    {
        self.with_pc((self.number + 1) % 8, target)
    }

    // The number moves back by one, mod 8; every register stays, the one that is left too.
    pub fn come_back(self) -> AddressRing
        ensures { ring_of result ≡ returned (ring_of self) }
    {
        // Bound first: the check takes no `..self` beside facts, and no array field straight into a literal.
        let registers = self.registers;
        AddressRing {
            registers,
            number: (self.number + 7) % 8,
        }
    }

    // The register with this number takes the address, taken mod 16,384, and is the program counter.
    fn with_pc(self, number: u8, address: u16) -> AddressRing
        requires { number < 8 }
        ensures { ring_of result ≡ with_pc (ring_of self) number address }
    {
        let mut registers = self.registers;
        registers[usize::from(number)] = address % 16384;
        AddressRing { registers, number }
    }
}
