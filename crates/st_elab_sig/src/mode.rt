//! The mode of a relation: which of its holes are inputs.

ghost use Rattle.std.specs.Prelude.{◌≡◌, ◌≢◌, [], ◌∷◌, Bool, List, filter, IfOk, IfSome, IfNone, MatchOption};
ghost use Rattle.st_el.specs.Erasure.{is_mode};
ghost use Rattle.st_elab_sig.specs.Modes.{mode_kind, AreModeWords, IsMode};

use st_el::{Hint, is_mode};
use st_num::{NoMemory, Row, Token, TokenKind};
use std::alloc::Global;

/// The first hint named `mode`, and the hints behind it.
fn first_mode(hints: &[Hint]) -> Option<(&Hint, &[Hint])>
    ensures { MatchOption result (filter is_mode hints.now ≡ [])
        (λ found. filter is_mode hints.now ≡ found.0.now ∷ filter is_mode found.1.now) }
{
    for (i, hint) in hints.iter().enumerate() {
        if is_mode(hint) {
            return Some((hint, &hints[i + 1..]));
        }
    }
    None
}

/// Whether the word stands for an input, if it is one of the two words.
fn input_of(word: &Token) -> Option<bool>
    ensures { MatchOption result ((input : Bool) → word.now.kind ≢ mode_kind input)
        (λ input. word.now.kind ≡ mode_kind input) }
{
    let TokenKind::Low(name) = &word.kind else {
        return None;
    };
    if name.as_slice() == b"in".as_slice() {
        return Some(true);
    }
    if name.as_slice() == b"out".as_slice() {
        return Some(false);
    }
    None
}

/// The mode that the words of a hint say, if they say one.
fn mode_said(alloc: Global, words: &[Token], holes: usize) -> Result<Option<Row<bool>>, NoMemory>
    ensures said { IfOk result (λ found. IfSome found (AreModeWords words.now holes)) }
    ensures never { IfOk result
        (λ found. IfNone found ((mode : List Bool) → AreModeWords words.now holes mode → ⊥)) }
{
    if holes == 0 || words.len() != holes {
        return Ok(None);
    }
    let mut mode = Row::new(alloc);
    for word in words {
        let Some(input) = input_of(word) else {
            return Ok(None);
        };
        mode.push(input)?;
    }
    Ok(Some(mode))
}

/// The mode of a relation with so many holes, if its hints give one. It is empty where no hint is
/// named `mode`.
pub fn mode_of(alloc: Global, hints: &[Hint], holes: usize) -> Result<Option<Row<bool>>, NoMemory>
    ensures said { IfOk result (λ found. IfSome found (IsMode hints.now holes)) }
    ensures never { IfOk result
        (λ found. IfNone found ((mode : List Bool) → IsMode hints.now holes mode → ⊥)) }
{
    let Some((hint, others)) = first_mode(hints) else {
        return Ok(Some(Row::new(alloc)));
    };
    if first_mode(others).is_some() {
        return Ok(None);
    }
    mode_said(alloc, hint.words.as_slice(), holes)
}
