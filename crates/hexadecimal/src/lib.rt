// Bytes from hexadecimal text.
#![tactic(auto)]

ghost use Rattle.std.specs.Prelude.{◌≡◌, ◌≤◌, ◌++◌, length, take, drop};
ghost use Rattle.hexadecimal.specs.Text.{digit as digit_of, pair as pair_of, spelled};

// The value of a digit, 16 for any other character.
fn digit(c: u8) -> u8
    ensures { result ≡ digit_of c }
{
    if c < b'0' {
        return 16;
    }
    if c <= b'9' {
        return c - b'0';
    }
    if c < b'A' {
        return 16;
    }
    if c <= b'F' { c - b'A' + 10 } else { 16 }
}

// The byte of two digits, 256 where one of the characters is none.
pub fn pair(c: u8, d: u8) -> u16
    ensures { result ≡ pair_of c d }
{
    let high = digit(c) as u16;
    let low = digit(d) as u16;
    if high < 16 {
        if low < 16 {
            return high * 16 + low;
        }
    }
    256
}

// Writes the bytes that a text spells, as many as there is room for, and gives their number; the bytes after them stay.
pub fn parse(text: &[u8], bytes: &mut [u8]) -> usize
    ensures upper_bound { result ≤ length bytes.new }
    ensures bytes_after { bytes.new ≡ take (length bytes.old) (spelled text.now) ++ drop result bytes.old }
{
    let mut n = 0;
    let mut i = 0;
    while i + 1 < text.len() {
        let value = pair(text[i], text[i + 1]);
        if value < 256 {
            if n == bytes.len() {
                return n;
            }
            bytes[n] = value as u8;
            n += 1;
            i += 2;
        } else {
            i += 1;
        }
    }
    n
}
