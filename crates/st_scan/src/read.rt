//! One token at the front of what stands behind blanks and comments.

ghost use Rattle.std.specs.Prelude.{◌≡◌, ◌-◌, ◌<◌, length, IsTrue, IfOk, MatchResult};
ghost use Rattle.st_scan.specs.Gaps.{opens_comment};
ghost use Rattle.st_scan.specs.inner.Readings.{IsReading, Stops, begins_letter, begins_digit, begins_quote, begins_dot, begins_fun, BeginsSign, farther, IsWithin};
ghost use Rattle.st_scan.specs.declared.read.Stop.TheVariants.{Memory};

use crate::TokenKind;
use crate::first_bytes::FirstBytes;
use crate::gap::opens_comment;
use crate::name::{begins_lower, is_letter, kind_of_name, name_front};
use crate::number::read_number;
use crate::sign::sign_at;
use crate::text::read_text;
use st_num::{Name, NoMemory, RuleId};
use std::alloc::Global;

/// A token, and how many bytes it takes.
#[derive(Drop)]
pub(crate) struct Reading {
    pub kind: TokenKind,
    pub length: usize,
}

/// Why no token is read: the rule, and how many bytes stand before the fault.
#[derive(Drop)]
pub(crate) enum Stop {
    Refused { skipped: usize, rule: RuleId },
    Memory,
}

impl Stop {
    /// The same fault, told from `count` bytes earlier.
    pub(crate) fn farther(self, count: usize) -> Stop
        requires { IsWithin (usize.MAX - count) self }
        ensures { result ≡ farther count self }
    {
        match self {
            Stop::Refused { skipped, rule } => Stop::Refused {
                skipped: count + skipped,
                rule,
            },
            Stop::Memory => Stop::Memory,
        }
    }
}

impl From<NoMemory> for Stop {
    ghost from_gives = { λ _ stop. stop ≡ Memory };

    fn from(_: NoMemory) -> Self {
        Stop::Memory
    }
}

/// Whether a letter stands first.
fn begins_letter(bytes: &[u8]) -> bool
    ensures { result ≡ begins_letter bytes.now }
{
    match bytes.first() {
        Some(byte) => is_letter(*byte),
        None => false,
    }
}

/// Whether a decimal digit stands first.
fn begins_digit(bytes: &[u8]) -> bool
    ensures { result ≡ begins_digit bytes.now }
{
    match bytes.first() {
        Some(byte) => byte.is_ascii_digit(),
        None => false,
    }
}

/// Whether a quote stands first.
fn begins_quote(bytes: &[u8]) -> bool
    ensures { result ≡ begins_quote bytes.now }
{
    match bytes.first() {
        Some(byte) => *byte == b'"',
        None => false,
    }
}

/// Whether a dot stands first, with a letter right behind.
fn begins_dot(bytes: &[u8]) -> bool
    ensures { result ≡ begins_dot bytes.now }
{
    match bytes.split_first() {
        Some((byte, behind)) => *byte == b'.' && begins_letter(behind),
        None => false,
    }
}

/// Whether a dollar sign stands first, with a lower-case letter right behind.
fn begins_fun(bytes: &[u8]) -> bool
    ensures { result ≡ begins_fun bytes.now }
{
    match bytes.split_first() {
        Some((byte, behind)) => *byte == b'$' && begins_lower(behind),
        None => false,
    }
}

/// The name at the front, which begins with a letter.
fn read_name(alloc: Global, first_bytes: &FirstBytes, bytes: &[u8]) -> Result<Reading, NoMemory>
    requires { IsTrue (begins_letter bytes.now) }
    ensures { IfOk result (λ reading. IsReading bytes.now reading) }
{
    let name = name_front(bytes);
    Ok(Reading {
        kind: kind_of_name(alloc, first_bytes, name)?,
        length: name.len(),
    })
}

/// The name at the front behind a dot.
fn read_dot(alloc: Global, bytes: &[u8]) -> Result<Reading, NoMemory>
    requires { IsTrue (begins_dot bytes.now) }
    ensures { IfOk result (λ reading. IsReading bytes.now reading) }
{
    let name = name_front(&bytes[1..]);
    Ok(Reading {
        kind: TokenKind::Dot(Name::from_slice(alloc, name)?),
        length: name.len() + 1,
    })
}

/// The name at the front behind a dollar sign.
fn read_fun(alloc: Global, bytes: &[u8]) -> Result<Reading, NoMemory>
    requires { IsTrue (begins_fun bytes.now) }
    ensures { IfOk result (λ reading. IsReading bytes.now reading) }
{
    let name = name_front(&bytes[1..]);
    Ok(Reading {
        kind: TokenKind::Fun(Name::from_slice(alloc, name)?),
        length: name.len() + 1,
    })
}

/// The sign at the front, where nothing but a sign can stand.
fn read_sign(first_bytes: &FirstBytes, bytes: &[u8]) -> Result<Reading, Stop>
    requires { BeginsSign bytes.now }
    ensures { MatchResult result
        (λ reading. IsReading bytes.now reading)
        (λ stop. Stops bytes.now stop) }
{
    match sign_at(first_bytes, bytes) {
        Some(mark) => Ok(Reading {
            kind: TokenKind::Sign(mark),
            length: mark.spelling().len(),
        }),
        None => Err(Stop::Refused {
            skipped: 0,
            rule: RuleId::L1,
        }),
    }
}

/// The token at the front of what stands behind blanks and closed comments.
pub(crate) fn read_token(
    alloc: Global,
    first_bytes: &FirstBytes,
    bytes: &[u8],
) -> Result<Reading, Stop>
    requires { 0 < length bytes.now }
    ensures { MatchResult result
        (λ reading. IsReading bytes.now reading)
        (λ stop. Stops bytes.now stop) }
{
    if opens_comment(bytes) {
        Err(Stop::Refused {
            skipped: 0,
            rule: RuleId::L2,
        })
    } else if begins_letter(bytes) {
        Ok(read_name(alloc, first_bytes, bytes)?)
    } else if begins_digit(bytes) {
        read_number(bytes)
    } else if begins_quote(bytes) {
        read_text(alloc, bytes)
    } else if begins_dot(bytes) {
        Ok(read_dot(alloc, bytes)?)
    } else if begins_fun(bytes) {
        Ok(read_fun(alloc, bytes)?)
    } else {
        read_sign(first_bytes, bytes)
    }
}
