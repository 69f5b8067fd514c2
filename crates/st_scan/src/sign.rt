//! The longest sign at the front of some bytes.

ghost use Rattle.std.specs.Prelude.{MatchOption};
ghost use Rattle.st_scan.specs.Signs.{NoSign, LongestSign};

use crate::first_bytes::FirstBytes;
use st_num::Mark;

/// The longest sign at the front.
pub(crate) fn sign_at(first_bytes: &FirstBytes, bytes: &[u8]) -> Option<Mark>
    ensures { MatchOption result (NoSign bytes.now) (λ mark. LongestSign bytes.now mark) }
{
    let first = *bytes.first()?;
    for (at, byte) in first_bytes.signs.iter().enumerate() {
        // Few signs begin with the same byte, and to compare bytes is quick.
        if *byte == first && bytes.starts_with(Mark::ALL[at].spelling().as_bytes()) {
            return Some(Mark::ALL[at]);
        }
    }
    None
}
