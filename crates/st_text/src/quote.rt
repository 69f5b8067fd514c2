//! How quoted texts are read.

ghost use Rattle.std.specs.Prelude.{◌≡◌, ◌≢◌, ℕ, MatchOption, ◌++◌, ◌∷◌, ◌↔◌, IsTrue, IsUtf8};
ghost use Rattle.st_num.specs.Texts.{IsTextByte};
ghost use Rattle.st_text.specs.Text.{escaped};
ghost use Rattle.st_text.specs.inner.Fronts.{AnswersTree, AnswersContent, ReadsNoContent, unescape};

use crate::fault::MALFORMED;
use crate::front::ends;
use crate::{TextFault, TextTree};
use st_num::{Name, Row};
use std::alloc::Global;

/// The byte that a letter behind a backslash stands for, or 0.
fn unescape(letter: u8) -> u8
    ensures { result ≡ unescape letter }
{
    match letter {
        b'"' | b'\\' => letter,
        b'n' => b'\n',
        b't' => b'\t',
        _ => 0,
    }
}

/// The byte that is written at the front between quotes, and the rest.
#[tactic(auto, using(crate::proofs::Content::byte_steps))]
fn read_byte(first: u8, others: &[u8]) -> Option<(u8, &[u8])>
    requires { first ≢ 34 }
    ensures { MatchOption result
        (ReadsNoContent (first ∷ others.now))
        (λ p. IsTextByte p.0 × (first ∷ others.now ≡ escaped p.0 ++ p.1.now)) }
{
    if first == b'\\' {
        let Some((letter, rest)) = others.split_first() else {
            return None;
        };
        let byte = unescape(*letter);
        if byte == 0 {
            return None;
        }
        return Some((byte, rest));
    }
    if first < 32 {
        return None;
    }
    Some((first, others))
}

/// The bytes of a text up to its closing quote, and the rest.
#[tactic(auto, using(crate::proofs::Content::content_steps))]
fn read_content(alloc: Global, bytes: &[u8]) -> Result<(Name, &[u8]), TextFault>
    ensures { AnswersContent bytes.now result }
{
    let mut found = Row::new(alloc);
    let mut rest = bytes;
    'content: while let Some((first, others)) = rest.split_first() {
        if *first == b'"' {
            return Ok((found, others));
        }
        let Some((byte, behind)) = read_byte(*first, others) else {
            return Err(MALFORMED);
        };
        found.push(byte)?;
        rest = behind;
    }
    Err(MALFORMED)
}

/// Whether the bytes are a text in UTF-8.
fn is_utf8(bytes: &[u8]) -> bool
    ensures { IsTrue result ↔ IsUtf8 bytes.now }
{
    str::from_utf8(bytes).is_ok()
}

/// The text behind its opening quote, and the rest.
#[tactic(auto, using(crate::proofs::Content::quote_steps))]
pub(crate) fn read_quote(
    alloc: Global,
    bytes: &[u8],
    limit: usize,
) -> Result<(TextTree, &[u8]), TextFault>
    ensures { AnswersTree limit (34 ∷ bytes.now) result }
{
    let (content, rest) = read_content(alloc, bytes)?;
    if !is_utf8(content.as_slice()) {
        return Err(MALFORMED);
    }
    if !ends(rest) {
        return Err(MALFORMED);
    }
    Ok((TextTree::Quote(content), rest))
}
