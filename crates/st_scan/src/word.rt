//! The reserved word that a name is.

ghost use Rattle.std.specs.Prelude.{◌≡◌, MatchOption};
ghost use Rattle.st_num.specs.Words.{word_spelling};
ghost use Rattle.st_scan.specs.Spelling.{IsReserved};

use crate::first_bytes::FirstBytes;
use st_num::Word;

/// The reserved word that is spelled so, where the name is reserved.
pub(crate) fn word_of(first_bytes: &FirstBytes, name: &[u8]) -> Option<Word>
    ensures { MatchOption result
        (¬ (IsReserved name.now))
        (λ word. name.now ≡ word_spelling word) }
{
    let first = *name.first()?;
    for (at, byte) in first_bytes.words.iter().enumerate() {
        // Few words begin with the same byte, and to compare bytes is quick.
        if *byte == first && Word::ALL[at].spelling().as_bytes() == name {
            return Some(Word::ALL[at]);
        }
    }
    None
}
