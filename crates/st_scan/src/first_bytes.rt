//! The first bytes of signs and reserved words, by which they are looked up.

ghost use Rattle.std.specs.Prelude.{◌≡◌};
ghost use Rattle.st_scan.specs.inner.FirstBytes.{sign_bytes, word_bytes};

use st_num::{Mark, Word};

/// How many signs there are.
const SIGN_COUNT: usize = Mark::ALL.len();

/// How many reserved words there are.
const WORD_COUNT: usize = Word::ALL.len();

/// The first byte of each sign and of each reserved word, in the order of `Mark::ALL` and of
/// `Word::ALL`.
#[derive(Drop)]
pub(crate) struct FirstBytes {
    pub signs: [u8; SIGN_COUNT],
    pub words: [u8; WORD_COUNT],
    ghost of_signs: { signs ≡ sign_bytes },
    ghost of_words: { words ≡ word_bytes },
}

/// The first byte of each sign.
fn sign_bytes() -> [u8; SIGN_COUNT]
    ensures { result ≡ sign_bytes }
{
    let mut bytes = [0; SIGN_COUNT];
    for (at, mark) in Mark::ALL.iter().enumerate() {
        bytes[at] = mark.spelling().as_bytes()[0];
    }
    bytes
}

/// The first byte of each reserved word.
fn word_bytes() -> [u8; WORD_COUNT]
    ensures { result ≡ word_bytes }
{
    let mut bytes = [0; WORD_COUNT];
    for (at, word) in Word::ALL.iter().enumerate() {
        bytes[at] = word.spelling().as_bytes()[0];
    }
    bytes
}

impl FirstBytes {
    /// The first bytes of all.
    pub(crate) fn new() -> FirstBytes {
        FirstBytes {
            signs: sign_bytes(),
            words: word_bytes(),
        }
    }
}
