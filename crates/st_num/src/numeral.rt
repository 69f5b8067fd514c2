//! Numbers in texts: how they are read and printed.

ghost use Rattle.std.specs.Prelude.{◌≡◌, ℕ, ◌+◌, ◌*◌, ◌++◌, ◌^◌, ◌<◌, ◌≤◌, ◌↔◌, IsNone, IfSome, IfOk, OnOk, OnErr, take};
ghost use Rattle.std.specs.Option.{SomeIff};
ghost use Rattle.std.specs.Fmt.{signed_decimal};
ghost use Rattle.std.specs.Str.Parse.{IsNumeral, digits_value};
ghost use Rattle.st_num.specs.Numeral.{IsDigitsOf, Spells};

use crate::{NoMemory, Num};
use itoa::Buffer;
use thiserror::Error;

/// Why a text gives no number.
#[derive(Clone, Copy, Debug, PartialEq, Eq, Error)]
pub enum NumFault {
    #[error("not the spelling of a number")]
    Malformed,
    #[error("a number of 2^128 or more")]
    Large,
}

/// The number that the text spells. Leading zeros are read, also after `0x`.
pub fn read_number(text: &[u8]) -> Result<u128, NumFault>
    ensures value { (n : ℕ) → (result ≡ Ok n) ↔ (Spells text.now n × (n < 2 ^ 128)) }
    ensures large { (result ≡ Err NumFault.Large)
        ↔ ((n : ℕ) × Spells text.now n × (2 ^ 128 ≤ n)) }
    ensures malformed { (result ≡ Err NumFault.Malformed) ↔ ((n : ℕ) → ¬ (Spells text.now n)) }
{
    match text.strip_prefix(b"0x") {
        Some(digits) => read_digits(digits, 16),
        None => read_digits(text, 10),
    }
}

/// The value of these digits in this radix.
fn read_digits(digits: &[u8], radix: u32) -> Result<u128, NumFault>
    requires { (2 ≤ radix) × (radix ≤ 36) }
    ensures ok { IfOk result (λ n. IsDigitsOf radix digits.now n × (n < 2 ^ 128)) }
    ensures large { result ≡ Err NumFault.Large →
        IsNumeral radix digits.now × (2 ^ 128 ≤ digits_value radix digits.now) }
    ensures malformed { result ≡ Err NumFault.Malformed → ¬ (IsNumeral radix digits.now) }
{
    if digits.is_empty() {
        return Err(NumFault::Malformed);
    }
    let mut value = Some(0);
    for byte in digits {
        let Some(digit) = char::from(*byte).to_digit(radix) else {
            return Err(NumFault::Malformed);
        };
        value = with_digit(value, digit, radix);
    }
    value.ok_or(NumFault::Large)
}

/// The value with one more digit behind, where both are in range.
fn with_digit(value: Option<u128>, digit: u32, radix: u32) -> Option<u128>
    ensures none { IsNone value → IsNone result }
    ensures some { IfSome value (λ n.
        SomeIff result (n * radix + digit < 2 ^ 128) (n * radix + digit)) }
{
    let shifted = value?.checked_mul(u128::from(radix))?;
    shifted.checked_add(u128::from(digit))
}

/// Appends the decimal text of the number, after `-` where it is negative.
///
/// Want of memory may leave the first part of the text behind what was there.
pub fn print_number(n: Num, out: &mut Vec<u8>) -> Result<(), NoMemory>
    ensures ok { OnOk result (out.new.items ≡ out.old.items ++ signed_decimal n) }
    ensures err { OnErr result ((k : ℕ)
        × (out.new.items ≡ out.old.items ++ take k (signed_decimal n))) }
{
    if n.is_negative() {
        out.push(b'-')?;
    }
    out.extend_from_slice(Buffer::new().format(n.magnitude()).as_bytes())?;
    Ok(())
}
