// A record written: its bytes are looked up where they stand, and each is written as two digits.
ghost use Rattle.std.specs.Prelude.{◌≡◌, [], ◌∷◌, ◌≤◌, ◌<◌, ◌+◌, ◌*◌, ◌%◌, length, get_or};
ghost use Rattle.numbers.specs.Folds.{total};
ghost use Rattle.hex_records.specs.Digits.{spelled};
ghost use Rattle.hex_records.specs.Records.{checksum, record_front, record_bytes, line};
ghost use Rattle.hex_records.specs.Internal.{put_at};

use crate::digits::digit_of;
use numbers::words::{byte_at, high, low};

// Writes a byte as two digits.
fn put_byte(out: &mut [u8], n: usize, byte: u8)
    requires { n + 2 ≤ length out.old }
    ensures { out.new ≡ put_at out.old n (spelled (byte ∷ [])) }
{
    out[n] = digit_of(byte / 16);
    out[n + 1] = digit_of(byte % 16);
}

// The sum of some bytes, modulo 256.
fn sum_of(row: &[u8]) -> u16
    ensures { result ≡ total row.now % 256 }
{
    let mut sum: u16 = 0;
    let mut k = 0;
    while k < row.len() {
        let byte = byte_at(row, k);
        sum = (sum + byte as u16) % 256;
        k += 1;
    }
    sum
}

// The checksum of a record.
fn checksum_of(address: u16, kind: u8, row: &[u8]) -> u8
    requires { length row.now < 256 }
    ensures { result ≡ checksum (record_front address kind row.now) }
{
    let front = row.len() as u16 + high(address) as u16 + low(address) as u16 + kind as u16;
    ((256 - (front + sum_of(row)) % 256) % 256) as u8
}

// The byte of a record at an index.
fn record_byte(address: u16, kind: u8, row: &[u8], k: usize) -> u8
    requires row_len_bound { length row.now < 256 }
    requires k_in_bounds { k < length row.now + 5 }
    ensures { result ≡ get_or (record_bytes address kind row.now) k 0 }
{
    if k == 0 {
        return row.len() as u8;
    }
    if k == 1 {
        return high(address);
    }
    if k == 2 {
        return low(address);
    }
    if k == 3 {
        return kind;
    }
    if k < row.len() + 4 {
        return row[k - 4];
    }
    checksum_of(address, kind, row)
}

// Writes the digits of a record's bytes at an index.
fn put_digits(out: &mut [u8], n: usize, address: u16, kind: u8, row: &[u8])
    requires row_len_bound { length row.now < 256 }
    requires row_in_bounds { n + 2 * (length row.now + 5) ≤ length out.old }
    ensures { out.new ≡ put_at out.old n (spelled (record_bytes address kind row.now)) }
{
    let count = row.len() + 5;
    let mut k = 0;
    while k < count {
        let byte = record_byte(address, kind, row, k);
        put_byte(out, n + 2 * k, byte);
        k += 1;
    }
}

// Writes a record's line at an index.
pub fn put_line(out: &mut [u8], n: usize, address: u16, kind: u8, row: &[u8])
    requires row_len_bound { length row.now < 256 }
    requires row_in_bounds { n + (2 * length row.now + 12) ≤ length out.old }
    ensures { out.new ≡ put_at out.old n (line address kind row.now) }
{
    out[n] = b':';
    put_digits(out, n + 1, address, kind, row);
    out[n + 11 + 2 * row.len()] = b'\n';
}
