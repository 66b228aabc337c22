// Sums and differences of bytes and of words, with a carry into them, and CC after them.
ghost use Rattle.std.specs.Prelude.{◌≡◌, ◌<◌, ◌≤◌, ◌-◌, ◌/◌, false};
ghost use Rattle.arithmetic.specs.Sums.{sum, carry_out, difference, borrow_out, sum_overflow, difference_overflow, after_sum, after_difference, after_increment, after_decrement};

use crate::flags::{with_c, with_nz, with_v};
use crate::width::Unsigned;

// The carry out of bit n of a + m + c.
#[tactic(auto, using(crate::proofs::SumLaws::shifted), unfolding(crate::specs::Sums::carry_out))]
fn carry_out(n: u32, a: u32, m: u32, c: bool) -> bool
    requires { n < 16 }
    ensures { result ≡ carry_out n a m c }
{
    let limit = 1u32 << (n + 1);
    limit <= a % limit + m % limit + u32::from(c)
}

// The borrow out of bit n of a - m - c.
#[tactic(auto, using(crate::proofs::SumLaws::shifted), unfolding(crate::specs::Sums::borrow_out))]
fn borrow_out(n: u32, a: u32, m: u32, c: bool) -> bool
    requires { n < 16 }
    ensures { result ≡ borrow_out n a m c }
{
    let limit = 1u32 << (n + 1);
    a % limit < m % limit + u32::from(c)
}

// V of a sum of width w.
#[tactic(auto, using(crate::proofs::SumLaws::differ), unfolding(crate::specs::Sums::sum_overflow))]
fn sum_overflow(w: u32, a: u32, m: u32, c: bool) -> bool
    requires { (2 ≤ w) × (w ≤ 16) }
    ensures { result ≡ sum_overflow w a m c }
{
    carry_out(w - 1, a, m, c) != carry_out(w - 2, a, m, c)
}

// V of a difference of width w.
#[tactic(auto, using(crate::proofs::SumLaws::differ), unfolding(crate::specs::Sums::difference_overflow))]
fn difference_overflow(w: u32, a: u32, m: u32, c: bool) -> bool
    requires { (2 ≤ w) × (w ≤ 16) }
    ensures { result ≡ difference_overflow w a m c }
{
    borrow_out(w - 1, a, m, c) != borrow_out(w - 2, a, m, c)
}

// a + m + c.
#[tactic(auto, unfolding(crate::specs::Sums::sum))]
pub fn sum<T: Unsigned>(a: T, m: T, c: bool) -> T
    ensures { T.value result ≡ sum T.BITS (T.value a) (T.value m) c }
{
    T::low_bits(a.wide() + m.wide() + u32::from(c))
}

// a - m - c, of which a borrow makes a number again.
#[tactic(auto, using(crate::proofs::SumLaws::shifted, crate::proofs::SumLaws::lent), unfolding(crate::specs::Sums::difference, crate::specs::Sums::borrow_out))]
pub fn difference<T: Unsigned>(a: T, m: T, c: bool) -> T
    ensures { T.value result ≡ difference T.BITS (T.value a) (T.value m) c }
{
    let lent = 1u32 << T::BITS;
    T::low_bits(lent + a.wide() - m.wide() - u32::from(c))
}

// H of a sum: the carry out of its lower half.
pub fn half_carry<T: Unsigned>(a: T, m: T, c: bool) -> bool
    ensures { result ≡ carry_out (T.BITS / 2 - 1) (T.value a) (T.value m) c }
{
    carry_out(T::BITS / 2 - 1, a.wide(), m.wide(), c)
}

// H of a difference: the borrow out of its lower half.
pub fn half_borrow<T: Unsigned>(a: T, m: T, c: bool) -> bool
    ensures { result ≡ borrow_out (T.BITS / 2 - 1) (T.value a) (T.value m) c }
{
    borrow_out(T::BITS / 2 - 1, a.wide(), m.wide(), c)
}

// CC after a + m + c.
#[tactic(auto, unfolding(crate::specs::Sums::after_sum))]
pub fn after_sum<T: Unsigned>(a: T, m: T, c: bool, cc: u8) -> u8
    ensures { result ≡ after_sum T.BITS (T.value a) (T.value m) c cc }
{
    let v = sum_overflow(T::BITS, a.wide(), m.wide(), c);
    let carry = carry_out(T::BITS - 1, a.wide(), m.wide(), c);
    with_v(v, with_c(carry, with_nz(sum(a, m, c), cc)))
}

// CC after a - m - c.
#[tactic(auto, unfolding(crate::specs::Sums::after_difference))]
pub fn after_difference<T: Unsigned>(a: T, m: T, c: bool, cc: u8) -> u8
    ensures { result ≡ after_difference T.BITS (T.value a) (T.value m) c cc }
{
    let v = difference_overflow(T::BITS, a.wide(), m.wide(), c);
    let borrow = borrow_out(T::BITS - 1, a.wide(), m.wide(), c);
    with_v(v, with_c(borrow, with_nz(difference(a, m, c), cc)))
}

// CC after m + 1.
#[tactic(auto, using(crate::proofs::SumLaws::one), unfolding(crate::specs::Sums::after_increment))]
pub fn after_increment<T: Unsigned>(m: T, cc: u8) -> u8
    ensures { result ≡ after_increment T.BITS (T.value m) cc }
{
    let v = sum_overflow(T::BITS, m.wide(), 1, false);
    with_v(v, with_nz(sum(m, T::low_bits(1), false), cc))
}

// CC after m - 1.
#[tactic(auto, using(crate::proofs::SumLaws::one), unfolding(crate::specs::Sums::after_decrement))]
pub fn after_decrement<T: Unsigned>(m: T, cc: u8) -> u8
    ensures { result ≡ after_decrement T.BITS (T.value m) cc }
{
    let v = difference_overflow(T::BITS, m.wide(), 1, false);
    with_v(v, with_nz(difference(m, T::low_bits(1), false), cc))
}
