//! Numbers as words, and the values of options.

ghost use Rattle.std.specs.Prelude.{◌≡◌, ℕ, MatchResult};
ghost use Rattle.st_words.specs.Numbers.{IsNumber, Says, SaysFuel, SaysDepth};

use crate::{CommandWord, WordsFault};
use st_num::read_number;

/// How many digits a number may have.
const DIGITS: usize = 7;

/// The number that the text is, between these limits.
pub(crate) fn number_of(text: &str, low: u32, high: u32) -> Result<u32, WordsFault>
    ensures { MatchResult result
        (λ n. IsNumber low high text.now n)
        (λ fault. (n : ℕ) → ¬ (IsNumber low high text.now n)) }
{
    if text.len() > DIGITS || text.starts_with("0x") {
        return Err(WordsFault::Usage);
    }
    let Ok(number) = read_number(text.as_bytes()) else {
        return Err(WordsFault::Usage);
    };
    let Ok(number) = u32::try_from(number) else {
        return Err(WordsFault::Usage);
    };
    if number < low || high < number {
        return Err(WordsFault::Usage);
    }
    Ok(number)
}

/// What an option with these values says.
fn said(values: &[CommandWord], default: u32, low: u32, high: u32) -> Result<u32, WordsFault>
    ensures { MatchResult result
        (λ n. Says default low high values.now n)
        (λ fault. (n : ℕ) → ¬ (Says default low high values.now n)) }
{
    match values {
        [] => Ok(default),
        [text] => number_of(text.as_str(), low, high),
        _ => Err(WordsFault::Usage),
    }
}

/// The fuel that the values of `--fuel` say.
pub(crate) fn fuel_of(values: &[CommandWord]) -> Result<u32, WordsFault>
    ensures { MatchResult result
        (λ n. SaysFuel values.now n)
        (λ fault. (n : ℕ) → ¬ (SaysFuel values.now n)) }
{
    said(values, 1_000, 0, 1_000_000)
}

/// The depth that the values of `--depth` say.
pub(crate) fn depth_of(values: &[CommandWord]) -> Result<u32, WordsFault>
    ensures { MatchResult result
        (λ n. SaysDepth values.now n)
        (λ fault. (n : ℕ) → ¬ (SaysDepth values.now n)) }
{
    said(values, 200, 2, 500)
}
