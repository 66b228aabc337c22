// What a well-formed line says.
ghost use Rattle.std.specs.Prelude.{◌≡◌, ◌+◌, ◌≤◌, length, get_or};
ghost use Rattle.hex_records.specs.Judging.{line_bytes, length_in, address_in, data_in, form_check, after};
ghost use Rattle.hex_records.specs.Internal.{put_at};

use crate::Place;
use crate::judging::value_at;
use numbers::words::word;

// The byte of a line at an index, 0 past the end.
fn byte_in(body: &[u8], k: usize) -> u8
    requires { form_check (line_bytes body.now) ≡ 0 }
    ensures { result ≡ get_or (line_bytes body.now) k 0 }
{
    value_at(&body[1..], k) as u8
}

// The number of its data bytes.
pub fn data_length(body: &[u8]) -> u8
    requires { form_check (line_bytes body.now) ≡ 0 }
    ensures { result ≡ length_in (line_bytes body.now) }
{
    byte_in(body, 0)
}

// Its address.
pub fn address_in(body: &[u8]) -> u16
    requires { form_check (line_bytes body.now) ≡ 0 }
    ensures { result ≡ address_in (line_bytes body.now) }
{
    word(byte_in(body, 1), byte_in(body, 2))
}

// Where reading stands after it.
pub fn place_after(body: &[u8]) -> Place
    requires { form_check (line_bytes body.now) ≡ 0 }
    ensures { result ≡ after (line_bytes body.now) }
{
    if byte_in(body, 3) == 0 {
        return Place::Next(address_in(body) as u32 + data_length(body) as u32);
    }
    Place::Ended
}

// Copies its data to an index of a buffer.
pub fn copy_data(body: &[u8], out: &mut [u8], n: usize)
    requires body_value { form_check (line_bytes body.now) ≡ 0 }
    requires body_in_bounds { n + length_in (line_bytes body.now) ≤ length out.old }
    ensures { out.new ≡ put_at out.old n (data_in (line_bytes body.now)) }
{
    let count = data_length(body) as usize;
    let mut k = 0;
    while k < count {
        out[n + k] = byte_in(body, 4 + k);
        k += 1;
    }
}
