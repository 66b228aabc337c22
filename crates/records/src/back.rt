// Giving a record back: 17 and 26, and its bytes.
ghost use Rattle.std.specs.Prelude.{◌≡◌, cond, ◌<◌, eqb, ltb, get_or, set};
ghost use Rattle.numbers.specs.Checks.{both as both_of, under as under_of};
ghost use Rattle.records.specs.Back.{back_refusal, listed, given_back};

use crate::Record;
use numbers::checks::{both, differ, first, under};
use numbers::words::put_byte;

// 26 where a byte that the record counts has an address above 7FFF.
fn address_check(given: Record, k: usize) -> u8
    requires { k < 2 }
    ensures { result ≡ both_of (under_of k given.count 26) (under_of 0x7FFF (get_or given.addresses k 0) 26) }
{
    let addresses = given.addresses;
    both(
        under(k, given.count as usize, 26),
        under(0x7FFF, addresses[k] as usize, 26),
    )
}

// 17, then 26; every address is tested before a byte is written.
pub(crate) fn refusal(given: Record, memory: &[u8]) -> u8
    ensures { result ≡ back_refusal given memory.now }
{
    let size = differ(memory.len(), 32768, 17);
    let count = under(2, given.count as usize, 26);
    let addresses = first(address_check(given, 0), address_check(given, 1));
    first(size, first(count, addresses))
}

// A byte that the record counts goes back to its address.
fn put_listed(given: Record, k: usize, memory: &mut [u8])
    requires { k < 2 }
    ensures { memory.new ≡
        cond (ltb k given.count) (set memory.old (get_or given.addresses k 0) (get_or given.values k 0)) memory.old }
{
    let addresses = given.addresses;
    let values = given.values;
    if k < given.count as usize {
        put_byte(memory, addresses[k] as usize, values[k]);
    }
}

// All of them, in the record's order, unless it is refused.
pub(crate) fn put_unless(number: u8, given: Record, memory: &mut [u8])
    ensures { memory.new ≡ cond (eqb number 0) (given_back memory.old (listed given)) memory.old }
{
    if number == 0 {
        put_listed(given, 0, memory);
        put_listed(given, 1, memory);
    }
}
