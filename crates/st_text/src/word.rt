//! How words are read.

ghost use Rattle.std.specs.Prelude.{◌≡◌, ℕ, ◌≤◌, ◌<◌, ◌++◌, true, false, length, take, slice_index};
ghost use Rattle.std.specs.List.{list_all};
ghost use Rattle.st_text.specs.Text.{is_word_byte};
ghost use Rattle.st_text.specs.inner.Fronts.{AnswersTree, Stops, FirstIsWord};

use crate::fault::MALFORMED;
use crate::front::ends;
use crate::{TextFault, TextTree};
use st_num::Row;
use std::alloc::Global;

/// Whether words may have this byte.
pub(crate) fn is_word_byte(byte: u8) -> bool
    ensures { result ≡ is_word_byte byte }
{
    match byte {
        b'a'..=b'z' | b'A'..=b'Z' | b'0'..=b'9' => true,
        b'*' | b'+' | b'-' | b'?' | b'^' | b'_' | b'\'' => true,
        _ => false,
    }
}

/// How many bytes that words may have stand at the front.
fn word_len(bytes: &[u8]) -> usize
    ensures within { result ≤ length bytes.now }
    ensures word { list_all is_word_byte (take result bytes.now) ≡ true }
    ensures ends { result < length bytes.now →
        is_word_byte (slice_index bytes.now result) ≡ false }
{
    for (at, byte) in bytes.iter().enumerate() {
        if !is_word_byte(*byte) {
            return at;
        }
    }
    bytes.len()
}

/// The bytes of a word at the front, and the rest.
fn split_word(bytes: &[u8]) -> (&[u8], &[u8])
    ensures whole { bytes.now ≡ result.0.now ++ result.1.now }
    ensures word { list_all is_word_byte result.0.now ≡ true }
    ensures stops { Stops result.1.now }
{
    let len = word_len(bytes);
    bytes.split_at(len)
}

/// The word at the front of the bytes, and the rest.
#[tactic(auto, using(crate::proofs::Words::word_answer, crate::proofs::Words::word_none))]
pub(crate) fn read_word(
    alloc: Global,
    bytes: &[u8],
    limit: usize,
) -> Result<(TextTree, &[u8]), TextFault>
    requires { FirstIsWord bytes.now }
    ensures { AnswersTree limit bytes.now result }
{
    let (word, rest) = split_word(bytes);
    if !ends(rest) {
        return Err(MALFORMED);
    }
    Ok((TextTree::Word(Row::from_slice(alloc, word)?), rest))
}
