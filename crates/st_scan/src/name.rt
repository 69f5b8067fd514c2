//! Names: how long they are, and of which kind.

ghost use Rattle.std.specs.Prelude.{◌≡◌, IsTrue, IfOk};
ghost use Rattle.std.specs.List.{prefix_len, take_while};
ghost use Rattle.st_scan.specs.Bytes.{is_lower, is_letter, is_name_part};
ghost use Rattle.st_scan.specs.Spelling.{Spells, is_name, begins_lower, has_lower};

use crate::TokenKind;
use crate::first_bytes::FirstBytes;
use crate::word::word_of;
use st_num::{Name, NoMemory};
use std::alloc::Global;

/// Whether it is a lower-case letter.
pub(crate) fn is_lower(byte: u8) -> bool
    ensures { result ≡ is_lower byte }
{
    byte.is_ascii_lowercase()
}

/// Whether it is a letter of either case.
pub(crate) fn is_letter(byte: u8) -> bool
    ensures { result ≡ is_letter byte }
{
    byte.is_ascii_alphabetic()
}

/// Whether it may stand in a name: a letter, a digit, `_` or `'`.
fn is_name_part(byte: u8) -> bool
    ensures { result ≡ is_name_part byte }
{
    byte.is_ascii_alphanumeric() || byte == b'_' || byte == b'\''
}

/// Whether a lower-case letter stands first.
pub(crate) fn begins_lower(bytes: &[u8]) -> bool
    ensures { result ≡ begins_lower bytes.now }
{
    match bytes.first() {
        Some(byte) => is_lower(*byte),
        None => false,
    }
}

/// Whether a lower-case letter stands anywhere.
fn has_lower(bytes: &[u8]) -> bool
    ensures { result ≡ has_lower bytes.now }
{
    bytes.iter().any(|byte| is_lower(*byte))
}

/// How many bytes at the front may all stand in a name.
fn name_length(bytes: &[u8]) -> usize
    ensures { result ≡ prefix_len is_name_part bytes.now }
{
    bytes.iter().take_while(|byte| is_name_part(**byte)).count()
}

/// The longest front whose bytes may all stand in a name.
pub(crate) fn name_front(bytes: &[u8]) -> &[u8]
    ensures { result.now ≡ take_while is_name_part bytes.now }
{
    let length = name_length(bytes);
    &bytes[..length]
}

/// The token that a name alone is.
pub(crate) fn kind_of_name(
    alloc: Global,
    first_bytes: &FirstBytes,
    name: &[u8],
) -> Result<TokenKind, NoMemory>
    requires { IsTrue (is_name name.now) }
    ensures { IfOk result (λ kind. Spells name.now kind) }
{
    if let Some(word) = word_of(first_bytes, name) {
        return Ok(TokenKind::Reserved(word));
    }
    let copy = Name::from_slice(alloc, name)?;
    if begins_lower(name) {
        Ok(TokenKind::Low(copy))
    } else if has_lower(name) {
        Ok(TokenKind::Mix(copy))
    } else {
        Ok(TokenKind::Up(copy))
    }
}
