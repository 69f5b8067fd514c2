//! Arithmetic on numbers: the exact result, or none.

ghost use Rattle.std.specs.Prelude.{◌≡◌, ◌^◌, ◌<◌, neg_ℤ};
ghost use Rattle.std.specs.Option.{SomeIff};
ghost use Rattle.std.specs.Ordering.{int_cmp};
ghost use Rattle.st_num.specs.Number.{sum, difference, product, quotient, remainder, power};

use crate::Num;
use std::cmp::Ordering;

/// The sum, where it is in range.
pub fn add(a: Num, b: Num) -> Option<Num>
    ensures { result ≡ sum a b }
{
    let (left, right) = (a.magnitude(), b.magnitude());
    if a.is_negative() == b.is_negative() {
        let magnitude = left.checked_add(right)?;
        return Some(Num::signed(a.is_negative(), magnitude));
    }
    if left < right {
        Some(Num::signed(b.is_negative(), right - left))
    } else {
        Some(Num::signed(a.is_negative(), left - right))
    }
}

/// The difference, where it is in range.
pub fn sub(a: Num, b: Num) -> Option<Num>
    ensures { result ≡ difference a b }
{
    add(a, opposite(b))
}

/// The number with the other sign.
fn opposite(a: Num) -> Num
    ensures { result ≡ neg_ℤ a }
{
    Num::signed(!a.is_negative(), a.magnitude())
}

/// The product, where it is in range.
pub fn mul(a: Num, b: Num) -> Option<Num>
    ensures { result ≡ product a b }
{
    let magnitude = a.magnitude().checked_mul(b.magnitude())?;
    Some(Num::signed(a.is_negative() != b.is_negative(), magnitude))
}

/// The quotient where it is whole. Nothing is rounded.
pub fn div_exact(a: Num, b: Num) -> Option<Num>
    ensures { result ≡ quotient a b }
{
    let (left, right) = (a.magnitude(), b.magnitude());
    if right == 0 || left % right != 0 {
        return None;
    }
    Some(Num::signed(a.is_negative() != b.is_negative(), left / right))
}

/// The remainder of division toward zero, which has the sign of the dividend.
pub fn rem(a: Num, b: Num) -> Option<Num>
    ensures { result ≡ remainder a b }
{
    if b.magnitude() == 0 {
        return None;
    }
    Some(Num::signed(a.is_negative(), a.magnitude() % b.magnitude()))
}

/// The power, where it is in range, by repeated squaring.
pub fn pow(a: Num, b: Num) -> Option<Num>
    ensures { result ≡ power a b }
{
    if b.is_negative() {
        return None;
    }
    let magnitude = raised(a.magnitude(), b.magnitude())?;
    let is_odd = b.magnitude() % 2 == 1;
    Some(Num::signed(a.is_negative() && is_odd, magnitude))
}

/// The power of magnitudes, where it is in range.
fn raised(base: u128, exponent: u128) -> Option<u128>
    ensures { SomeIff result (base ^ exponent < 2 ^ 128) (base ^ exponent) }
{
    let mut done: u128 = 1;
    let mut square = base;
    let mut left = exponent;
    while left > 0 {
        if left % 2 == 1 {
            let Some(more) = done.checked_mul(square) else {
                return None;
            };
            done = more;
        }
        left /= 2;
        if left > 0 {
            let Some(more) = square.checked_mul(square) else {
                return None;
            };
            square = more;
        }
    }
    Some(done)
}

/// The order by size.
pub fn compare(a: Num, b: Num) -> Ordering
    ensures { result ≡ int_cmp a b }
{
    match (a.is_negative(), b.is_negative()) {
        (false, true) => Ordering::Greater,
        (true, false) => Ordering::Less,
        (false, false) => a.magnitude().cmp(&b.magnitude()),
        (true, true) => b.magnitude().cmp(&a.magnitude()),
    }
}
