// Numbers in hexadecimal, with capital digits and a fixed width.
ghost use Rattle.std.specs.Prelude.{◌≡◌, ◌<◌, [], ◌∷◌, Some};
ghost use Rattle.std.specs.Fmt.{DisplaysOnOk};
ghost use Rattle.std.proofs.Math.Utf8.{encode};
ghost use Rattle.report.specs.Digits.{hex_digit, hex2, hex4};

use std::fmt;

// A byte, shown as two digits. With an address it makes two types and not one with a count of digits: the value of
// each fills its digits, whereas a count beside the value could be too small for it.
#[derive(Clone, Copy, PartialEq, Eq, Debug)]
pub struct Hex2(pub u8);

impl fmt::Display for Hex2 {
    ghost output = { λ byte. Some (hex2 byte.0) };

    fn fmt<W: fmt::Write>(&self, f: &mut fmt::Formatter<W>) -> fmt::Result {
        write_byte(f, self.0)
    }
}

// An address, shown as four digits.
#[derive(Clone, Copy, PartialEq, Eq, Debug)]
pub struct Hex4(pub u16);

impl fmt::Display for Hex4 {
    ghost output = { λ address. Some (hex4 address.0) };

    fn fmt<W: fmt::Write>(&self, f: &mut fmt::Formatter<W>) -> fmt::Result {
        let [high, low] = self.0.to_be_bytes();
        write!(f, "{}{}", Hex2(high), Hex2(low))
    }
}

// Writes a byte as two digits. Each is a character: the library's `{byte:02X}`, which fills and aligns too, makes a line
// of registers take a third more time.
fn write_byte<W: fmt::Write>(f: &mut fmt::Formatter<W>, byte: u8) -> fmt::Result
    ensures { DisplaysOnOk W.write_str_gives f.old result (Some (hex2 byte)) f.new }
{
    let high = hex_digit(byte / 16);
    let low = hex_digit(byte % 16);
    write!(f, "{high}{low}")
}

// The digit of a value below sixteen.
fn hex_digit(value: u8) -> char
    requires { value < 16 }
    ensures { encode result ≡ hex_digit value ∷ [] }
{
    char::from(if value < 10 {
        b'0' + value
    } else {
        b'A' + (value - 10)
    })
}
