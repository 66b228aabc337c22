// Checks as numbers: 0 where a rule holds, else the number of the refusal. A caller combines them by `first`, with no branch of its own.
ghost use Rattle.std.specs.Prelude.{◌≡◌};
ghost use Rattle.numbers.specs.Checks.{first as first_of, both as both_of, under as under_of, unless as unless_of, differ as differ_of};

// The first of two checks that fails.
pub fn first(a: u8, b: u8) -> u8
    ensures { result ≡ first_of a b }
{
    if a == 0 { b } else { a }
}

// Fails, as the second does, where both fail.
pub fn both(a: u8, b: u8) -> u8
    ensures { result ≡ both_of a b }
{
    if a == 0 { 0 } else { b }
}

// `number` where a is under b.
pub fn under(a: usize, b: usize, number: u8) -> u8
    ensures { result ≡ under_of a b number }
{
    if a < b { number } else { 0 }
}

// `number` unless the test holds.
pub fn unless(holds: bool, number: u8) -> u8
    ensures { result ≡ unless_of holds number }
{
    if holds { 0 } else { number }
}

// `number` where a and b differ.
pub fn differ(a: usize, b: usize, number: u8) -> u8
    ensures { result ≡ differ_of a b number }
{
    if a == b { 0 } else { number }
}
