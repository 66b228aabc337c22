// A line judged by the bytes that it spells: they are looked up in the text, and stored nowhere.
ghost use Rattle.std.specs.Prelude.{◌≡◌, false, cond, ltb, eqb, length, get_or};
ghost use Rattle.hex_records.specs.Digits.{pairs};
ghost use Rattle.hex_records.specs.Judging.{line_bytes, shape_check, open_check, follow_check, line_check};
ghost use Rattle.hex_records.specs.Internal.{lone as lone_of, summed_of};

use crate::digits::byte_of;
use crate::{Place, Summed};
use numbers::checks::{differ, first, under, unless};
use numbers::words::byte_at;

// Whether a last character stands alone that is no CR.
fn lone(line: &[u8]) -> bool
    ensures { result ≡ lone_of line.now }
{
    if line.len() % 2 == 0 {
        return false;
    }
    line[line.len() - 1] != b'\r'
}

// How many bytes the characters after the colon spell.
fn count_of(line: &[u8]) -> usize
    ensures { result ≡ length (pairs line.now) }
{
    let half = line.len() / 2;
    if lone(line) { half + 1 } else { half }
}

// The byte at an index, 256 where two characters spell none, and 0 past the end.
pub(crate) fn value_at(line: &[u8], k: usize) -> u16
    ensures { result ≡ get_or (pairs line.now) k 0 }
{
    if k < line.len() / 2 {
        return byte_of(line[2 * k], line[2 * k + 1]);
    }
    if k < count_of(line) { 256 } else { 0 }
}

// Whether all are bytes, with one more.
fn good_with(good: bool, value: u16) -> bool
    ensures { result ≡ cond (ltb value 256) good false }
{
    if value < 256 { good } else { false }
}

// The bytes of a line together.
fn summed(line: &[u8]) -> Summed
    ensures { result ≡ summed_of (pairs line.now) }
{
    let n = count_of(line);
    let mut sum: u16 = 0;
    let mut good = true;
    let mut k = 0;
    while k < n {
        let value = value_at(line, k);
        good = good_with(good, value);
        sum = (sum + value) % 256;
        k += 1;
    }
    Summed { sum, good }
}

// By the type: a data record has a byte, the end record neither length nor address.
fn shape_check(kind: usize, n: usize, address: usize) -> u8
    ensures { result ≡ shape_check kind n address }
{
    if kind == 0 {
        return under(n, 1, 30);
    }
    if kind == 1 {
        return first(differ(n, 0, 30), differ(address, 0, 30));
    }
    0
}

// Nothing comes after the end record.
fn open_check(place: Place) -> u8
    ensures { result ≡ open_check place }
{
    match place {
        Place::First => 0,
        Place::Next(_) => 0,
        Place::Ended => 30,
    }
}

// An address follows on.
fn follow_check(place: Place, address: usize) -> u8
    ensures { result ≡ follow_check place address }
{
    match place {
        Place::First => 0,
        Place::Next(n) => differ(address, n as usize, 32),
        Place::Ended => 0,
    }
}

// The address of a data record follows on.
fn follow_data(place: Place, kind: usize, address: usize) -> u8
    ensures { result ≡ cond (eqb kind 0) (follow_check place address) 0 }
{
    if kind == 0 {
        return follow_check(place, address);
    }
    0
}

// The refusal of a line, by the characters after its colon.
fn judge_digits(place: Place, line: &[u8]) -> u8
    ensures { result ≡ line_check place (pairs line.now) }
{
    let n = value_at(line, 0) as usize;
    let address = value_at(line, 1) as usize * 256 + value_at(line, 2) as usize;
    let kind = value_at(line, 3) as usize;
    let all = summed(line);
    let form = first(
        unless(all.good, 30),
        first(
            differ(count_of(line), n + 5, 30),
            first(
                differ(all.sum as usize, 0, 30),
                shape_check(kind, n, address),
            ),
        ),
    );
    first(
        open_check(place),
        first(
            form,
            first(under(1, kind, 31), follow_data(place, kind, address)),
        ),
    )
}

// The refusal of a line without its LF.
pub fn judge_line(place: Place, body: &[u8]) -> u8
    ensures { result ≡ line_check place (line_bytes body.now) }
{
    if byte_at(body, 0) != b':' {
        return 30;
    }
    judge_digits(place, &body[1..])
}
