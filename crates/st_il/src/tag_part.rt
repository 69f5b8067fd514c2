//! The parts of a tag.

ghost use Rattle.std.specs.Prelude.{◌≡◌, ◌≢◌, ◌↔◌, ◌++◌, ◌∷◌, ℕ, List, IsTrue, IsNone, IfSome, IfNone, IfOk, MatchOption};
ghost use Rattle.std.specs.List.{All};
ghost use Rattle.st_num.specs.Signs.{spelling};
ghost use Rattle.st_num.specs.declared.mark.Mark.{Mark};
ghost use Rattle.st_il.specs.declared.template.TagPart.{TagPart};
ghost use Rattle.st_il.specs.Notation.{role_of, is_name_byte, IsAtom};
ghost use Rattle.st_il.specs.Template.{IsTagPart, AreTagParts, written};

use crate::template::{Role, TagPart, has_role};
use st_num::{Mark, Name, NoMemory, Row};
use std::alloc::Global;

/// The parts of a tag, with one space between them; none where the bytes are no such parts.
pub fn tag_parts(alloc: Global, tag: &[u8]) -> Result<Option<Row<TagPart>>, NoMemory>
    ensures some { IfOk result (λ found. IfSome found (λ ws. AreTagParts ws tag.now)) }
    ensures none { IfOk result
        (λ found. IfNone found ((ws : List TagPart) → AreTagParts ws tag.now → ⊥)) }
{
    let mut parts = Row::new(alloc);
    let mut rest = tag;
    'parts: loop {
        let (text, behind) = split_tag_part(rest);
        let Some(part) = tag_part_of(alloc, text)? else {
            return Ok(None);
        };
        parts.push(part)?;
        let Some(others) = behind else {
            return Ok(Some(parts));
        };
        rest = others;
    }
}

/// What stands before the first space, and what stands behind it.
fn split_tag_part(bytes: &[u8]) -> (&[u8], Option<&[u8]>)
    ensures front { All (λ byte. byte ≢ 32) result.0.now }
    ensures whole { MatchOption result.1 (bytes.now ≡ result.0.now)
        (λ behind. bytes.now ≡ result.0.now ++ 32 ∷ behind.now) }
{
    for (i, byte) in bytes.iter().enumerate() {
        if *byte == b' ' {
            return (&bytes[..i], Some(&bytes[i + 1..]));
        }
    }
    (bytes, None)
}

/// The part that is written so, if there is one.
fn tag_part_of(alloc: Global, text: &[u8]) -> Result<Option<TagPart>, NoMemory>
    ensures some { IfOk result
        (λ found. IfSome found (λ part. IsTagPart part × (written part ≡ text.now))) }
    ensures none { IfOk result
        (λ found. IfNone found ((part : TagPart) → IsTagPart part → written part ≢ text.now)) }
{
    if text == b"%".as_slice() {
        return Ok(Some(TagPart::Hole));
    }
    if is_atom(text) {
        return Ok(Some(TagPart::Atom(Name::from_slice(alloc, text)?)));
    }
    match sign_of(text) {
        Some(sign) => Ok(Some(TagPart::Sign(sign))),
        None => Ok(None),
    }
}

/// The sign of notations that is written so, if there is one.
fn sign_of(text: &[u8]) -> Option<Mark>
    ensures some { IfSome result
        (λ sign. (role_of sign ≢ Role.Other) × (spelling sign ≡ text.now)) }
    ensures none { IfNone result
        ((sign : Mark) → role_of sign ≢ Role.Other → spelling sign ≢ text.now) }
{
    find_sign(&Mark::ALL, text)
}

/// Whether the sign stands in notations and is written so.
fn is_written(sign: Mark, text: &[u8]) -> bool
    ensures { IsTrue result ↔ ((role_of sign ≢ Role.Other) × (spelling sign ≡ text.now)) }
{
    has_role(sign) && sign.spelling().as_bytes() == text
}

/// The first of the signs that stands in notations and is written so, if there is one.
fn find_sign(signs: &[Mark], text: &[u8]) -> Option<Mark>
    ensures some { IfSome result
        (λ sign. (role_of sign ≢ Role.Other) × (spelling sign ≡ text.now)) }
    ensures none { IfNone result
        (All (λ sign. role_of sign ≢ Role.Other → spelling sign ≢ text.now) signs.now) }
{
    for sign in signs {
        if is_written(*sign, text) {
            return Some(*sign);
        }
    }
    None
}

/// Whether the text is a name of capitals, or several joined by dots.
fn is_atom(text: &[u8]) -> bool
    ensures { IsTrue result ↔ IsAtom text.now }
{
    let mut due = true;
    for byte in text {
        if due {
            if !byte.is_ascii_uppercase() {
                return false;
            }
            due = false;
        } else if *byte == b'.' {
            due = true;
        } else if !is_name_byte(*byte) {
            return false;
        }
    }
    !due
}

/// Whether a name of capitals may go on with this byte.
fn is_name_byte(byte: u8) -> bool
    ensures { result ≡ is_name_byte byte }
{
    byte.is_ascii_uppercase() || byte.is_ascii_digit() || byte == b'_' || byte == b'\''
}
