//! Names and hints of the open definition.

ghost use Rattle.std.specs.Prelude.{◌≡◌, ◌++◌, OnOk, IfOk};
ghost use Rattle.st_parse_builder.specs.Definitions.{piece_text};
ghost use Rattle.st_parse.specs.inner.Drafts as spec;

use crate::draft::{Draft, Head};
use itoa::Buffer;
use st_el::Hint;
use st_num::{Mark, NoMemory, Row, Token, TokenKind};
use st_parse_builder::copy_name;
use std::alloc::Global;

/// Adds a piece of a name, a dash, or a dot with a piece.
fn push_piece(alloc: Global, kind: &TokenKind, text: &mut Vec<u8>) -> Result<(), NoMemory>
    ensures { OnOk result (text.new.items ≡ text.old.items ++ piece_text kind.now) }
{
    match kind {
        TokenKind::Number(number) => {
            text.extend_from_slice(Buffer::new().format(*number).as_bytes())?;
        }
        TokenKind::Sign(Mark::Minus) => text.push(b'-')?,
        TokenKind::Dot(name) => {
            text.push(b'.')?;
            text.extend_from_slice(name.as_slice())?;
        }
        _ => {
            let name = copy_name(alloc, kind)?;
            text.extend_from_slice(name.as_slice())?;
        }
    }
    Ok(())
}

/// Keeps the name behind the first word.
fn name(alloc: Global, head: &mut Head, token: &Token) -> Result<(), NoMemory>
    ensures { IfOk result (λ _. head.new ≡ spec.named token.now head.old) }
{
    head.name = copy_name(alloc, &token.kind)?;
    Ok(())
}

/// One more token of the name of a fragment or rule. The sign before it begins the name.
fn identify(alloc: Global, head: &mut Head, token: &Token) -> Result<(), NoMemory>
    ensures { IfOk result (λ _. head.new ≡ spec.identified token.now head.old) }
{
    let Some(text) = head.id.take() else {
        head.id = Some(Row::new(alloc));
        return Ok(());
    };
    let mut text = text.into_vec();
    push_piece(alloc, &token.kind, &mut text)?;
    head.id = Some(Row::from_vec(text));
    Ok(())
}

/// A hint with this name, and no word behind it yet.
fn hint_begun(alloc: Global, token: &Token) -> Result<Hint, NoMemory>
    ensures { IfOk result (λ hint. hint ≡ spec.hint_begun token.now) }
{
    let name = copy_name(alloc, &token.kind)?;
    let words = Row::new(alloc);
    Ok(Hint { name, words })
}

/// One more word of a hint.
fn add_word(alloc: Global, hint: &mut Hint, token: &Token) -> Result<(), NoMemory>
    ensures { IfOk result (λ _. hint.new ≡ spec.hint_more token.now hint.old) }
{
    let word = token.copy(alloc)?;
    hint.words.push(word)?;
    Ok(())
}

/// The name behind the first word is read.
pub(crate) fn put_name(alloc: Global, draft: &mut Draft, token: &Token) -> Result<(), NoMemory>
    ensures { IfOk result (λ _.
        draft.new ≡ spec.with_head (spec.named token.now draft.old.head) draft.old) }
{
    name(alloc, &mut draft.head, token)
}

/// A token of the name of a fragment or rule is read.
pub(crate) fn put_id(alloc: Global, draft: &mut Draft, token: &Token) -> Result<(), NoMemory>
    ensures { IfOk result (λ _.
        draft.new ≡ spec.with_head (spec.identified token.now draft.old.head) draft.old) }
{
    identify(alloc, &mut draft.head, token)
}

/// The name of a hint is read.
pub(crate) fn begin_hint(alloc: Global, draft: &mut Draft, token: &Token) -> Result<(), NoMemory>
    ensures { IfOk result (λ _.
        draft.new ≡ spec.with_hints draft.old.hints (spec.hint_begun token.now) draft.old) }
{
    draft.hint = hint_begun(alloc, token)?;
    Ok(())
}

/// A word of a hint is read.
pub(crate) fn put_word(alloc: Global, draft: &mut Draft, token: &Token) -> Result<(), NoMemory>
    ensures { IfOk result (λ _. draft.new
        ≡ spec.with_hints draft.old.hints (spec.hint_more token.now draft.old.hint) draft.old) }
{
    add_word(alloc, &mut draft.hint, token)
}

/// A hint with nothing in it.
pub(crate) fn no_hint(alloc: Global) -> Hint
    ensures { result ≡ spec.no_hint }
{
    Hint {
        name: Row::new(alloc),
        words: Row::new(alloc),
    }
}

/// A hint ends, and is kept or passed over.
pub(crate) fn end_hint(alloc: Global, draft: &mut Draft, kept: bool) -> Result<(), NoMemory>
    ensures { IfOk result (λ _. draft.new
        ≡ spec.with_hints (spec.hints_with kept draft.old.hint draft.old.hints) spec.no_hint
        draft.old) }
{
    let hint = std::mem::replace(&mut draft.hint, no_hint(alloc));
    if kept {
        draft.hints.push(hint)?;
    }
    Ok(())
}
