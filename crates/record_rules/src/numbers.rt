//! Numbers of a certificate from a place on, 4 bytes each: their signs, their values, and a value that is a weight plus a total.
ghost use Rattle.std.specs.Prelude.{◌*◌, ◌<◌, ◌≤◌, ◌^◌, ◌≡◌, get_or, length, pos, ◌+ℤ◌};
ghost use Rattle.foundations.specs.Lists.{every};
ghost use Rattle.foundations.specs.Sums.{sum};
ghost use Rattle.model.specs.Certificate.{eq_z};
ghost use Rattle.record_rules.specs.Numbers.{Spans, Low, not_negative, is_zero, NumbersIn};

use integers::{above_zero, int32_at};
use model::{Limits, WideRow};

// Whether a value is a weight plus a total.
pub fn is_sum(value: i32, weight: i32, total: u64) -> bool
    requires { total ≤ 2 ^ 40 }
    ensures { result ≡ eq_z value (weight +ℤ pos total) }
{
    i64::from(value) == i64::from(weight) + total as i64
}

// None of the count numbers from `at` on is negative.
pub(crate) fn none_negative(z: &[u8], at: usize, count: usize) -> bool
    requires { Spans (length z.now) at count }
    ensures { result ≡ every (not_negative z.now at) count }
{
    let mut ok = true;
    for i in 0..count {
        let t = 0 <= int32_at(z, at + 4 * i);
        ok &= t;
    }
    ok
}

// A function of its own: as `== 0` in the closure below the proof did not close, since the search does not find that equal bits are equal numbers.
fn is_zero(x: i32) -> bool
    ensures { result ≡ eq_z x (pos 0) }
{
    x == 0
}

// The count numbers from `at` on are all 0.
pub(crate) fn all_zero(z: &[u8], at: usize, count: usize) -> bool
    requires { Spans (length z.now) at count }
    ensures { result ≡ every (is_zero z.now at) count }
{
    let mut ok = true;
    for i in 0..count {
        let t = is_zero(int32_at(z, at + 4 * i));
        ok &= t;
    }
    ok
}

// The count numbers from `at` on, 0 for a negative one.
pub(crate) fn numbers_in(z: &[u8], at: usize, count: usize) -> WideRow
    requires { Spans (length z.now) at count }
    ensures { NumbersIn z.now at count result }
{
    let mut r = [0u64; Limits::PLACES];
    for i in 0..count {
        r[i] = u64::from(above_zero(int32_at(z, at + 4 * i)));
    }
    r
}

// The first n of them added up.
pub(crate) fn total_of(numbers: &WideRow, n: usize) -> u64
    requires { Low numbers.now n }
    ensures { (result ≡ sum n (λ i. get_or numbers.now i 0)) × (result ≤ n * 2 ^ 31) }
{
    numbers[..n].iter().sum()
}
