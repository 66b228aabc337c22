// Bytes from hexadecimal digits in either case, and the digits of bytes.
ghost use Rattle.std.specs.Prelude.{◌≡◌, ◌<◌};
ghost use Rattle.hex_records.specs.Digits.{capital as capital_of, byte_of, digit_of};

use hexadecimal::pair;

// A to F for a to f, any other character as it is.
fn capital(c: u8) -> u8
    ensures { result ≡ capital_of c }
{
    if c < b'a' {
        return c;
    }
    if c <= b'f' { c - 32 } else { c }
}

// The byte of two digits, 256 where one of the characters is none.
pub(crate) fn byte_of(c: u8, d: u8) -> u16
    ensures { result ≡ byte_of c d }
{
    pair(capital(c), capital(d))
}

// The digit of a number under 16.
pub(crate) fn digit_of(n: u8) -> u8
    requires { n < 16 }
    ensures { result ≡ digit_of n }
{
    if n < 10 { b'0' + n } else { b'A' - 10 + n }
}
