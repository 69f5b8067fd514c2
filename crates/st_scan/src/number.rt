//! Numbers: where their digits end, and their value.

ghost use Rattle.std.specs.Prelude.{◌≡◌, ◌≤◌, nat_lt, IsTrue, MatchOption, MatchResult};
ghost use Rattle.std.specs.Char.{digit_value};
ghost use Rattle.std.specs.List.{prefix_len};
ghost use Rattle.st_scan.specs.inner.NumberFronts.{NoHexadecimal, LongestHexadecimal, LongestNumber};
ghost use Rattle.st_scan.specs.inner.Readings.{IsReading, Stops, begins_digit};

use crate::TokenKind;
use crate::read::{Reading, Stop};
use st_num::{NumFault, RuleId};

/// How many digits in this radix stand at the front.
fn digit_count(bytes: &[u8], radix: u32) -> usize
    requires { (2 ≤ radix) × (radix ≤ 36) }
    ensures { result ≡ prefix_len (λ b. nat_lt (digit_value b) radix) bytes.now }
{
    bytes
        .iter()
        .take_while(|byte| char::from(**byte).is_digit(radix))
        .count()
}

/// How many bytes `0x` and the hexadecimal digits behind it take.
fn hexadecimal_length(bytes: &[u8]) -> Option<usize>
    ensures { MatchOption result
        (NoHexadecimal bytes.now)
        (λ size. LongestHexadecimal bytes.now size) }
{
    let digits = bytes.strip_prefix(b"0x")?;
    let count = digit_count(digits, 16);
    if count == 0 {
        return None;
    }
    Some(count + 2)
}

/// The longest number at the front, which begins with a digit.
fn number_front(bytes: &[u8]) -> &[u8]
    requires { IsTrue (begins_digit bytes.now) }
    ensures { LongestNumber bytes.now result.now }
{
    if let Some(length) = hexadecimal_length(bytes) {
        return &bytes[..length];
    }
    let length = digit_count(bytes, 10);
    &bytes[..length]
}

/// The number at the front, which begins with a digit.
pub(crate) fn read_number(bytes: &[u8]) -> Result<Reading, Stop>
    requires { IsTrue (begins_digit bytes.now) }
    ensures { MatchResult result
        (λ reading. IsReading bytes.now reading)
        (λ stop. Stops bytes.now stop) }
{
    let text = number_front(bytes);
    match st_num::read_number(text) {
        Ok(value) => Ok(Reading {
            kind: TokenKind::Number(value),
            length: text.len(),
        }),
        Err(NumFault::Large) => Err(Stop::Refused {
            skipped: 0,
            rule: RuleId::L3,
        }),
        Err(NumFault::Malformed) => unreachable!(),
    }
}
