//! Numbers as words: decimal, without a leading zero.

ghost use Rattle.std.specs.Prelude.{◌≡◌, ◌≢◌, ◌++◌, ℕ, true, MatchOption, IfSome, OnOk, OnErr};
ghost use Rattle.std.specs.Fmt.{decimal, signed_decimal};
ghost use Rattle.st_text.specs.Numbers.{IsNoNatural, IsNoInteger};
ghost use Rattle.st_num.specs.Number.{signed};
ghost use Rattle.st_text.specs.Printing.{IsCutOff};

use crate::front::after;
use itoa::Buffer;
use st_num::{NoMemory, Num, read_number};

/// The number below 2^128 that the word is.
pub fn read_natural(word: &[u8]) -> Option<u128>
    ensures { MatchOption result (IsNoNatural word.now) (λ n. word.now ≡ decimal n) }
{
    let Ok(n) = read_number(word) else {
        return None;
    };
    if Buffer::new().format(n).as_bytes() != word {
        return None;
    }
    Some(n)
}

/// The number that the word is, with `-` before a negative one.
#[tactic(auto, using(crate::proofs::NumberWords::integer_steps))]
pub fn read_integer(word: &[u8]) -> Option<Num>
    ensures { MatchOption result (IsNoInteger word.now) (λ z. word.now ≡ signed_decimal z) }
{
    if let Some(digits) = after(word, b'-') {
        return negative(read_natural(digits));
    }
    let Some(magnitude) = read_natural(word) else {
        return None;
    };
    Num::new(false, magnitude)
}

/// The negative number of this magnitude, where there is one.
fn negative(magnitude: Option<u128>) -> Option<Num>
    ensures { MatchOption result (IfSome magnitude (λ n. n ≡ 0))
        (λ z. (n : ℕ) × (magnitude ≡ Some n) × (n ≢ 0) × (z ≡ signed true n)) }
{
    Num::new(true, magnitude?)
}

/// Appends the number.
pub fn print_natural(n: u128, out: &mut Vec<u8>) -> Result<(), NoMemory>
    ensures ok { OnOk result (out.new.items ≡ out.old.items ++ decimal n) }
    ensures err { OnErr result (IsCutOff out.old.items (decimal n) out.new.items) }
{
    out.extend_from_slice(Buffer::new().format(n).as_bytes())?;
    Ok(())
}
