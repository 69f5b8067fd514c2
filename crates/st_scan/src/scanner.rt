//! All tokens of a file, one behind the other.

ghost use Rattle.std.specs.Prelude.{◌≡◌, ◌+◌, ◌^◌, ◌<◌, ◌≤◌, List, ℕ, length, drop, MatchResult, IfOk, IfErr};
ghost use Rattle.st_scan.specs.Places.{place};
ghost use Rattle.st_scan.specs.Tokens.{Tokens};
ghost use Rattle.st_scan.specs.Answers.{HaveTexts, IsOnlyList, TellsFirst, TellsOnly};
ghost use Rattle.st_num.specs.declared.fault.Fault.TheVariants.{Refused};
ghost use Rattle.st_scan.specs.inner.Steps.{IsAt, IsNext, StopsNext, ReadsAll, StopsFile, IsUtf8Length};

use crate::first_bytes::FirstBytes;
use crate::gap::skip_gap;
use crate::line_column::LineColumn;
use crate::read::{Stop, read_token};
use crate::{LexFault, Token};
use st_num::{Row, RuleId};
use std::alloc::Global;

/// A token, with what is left behind it and the place of that.
#[derive(Drop)]
struct Step<'a> {
    token: Token,
    rest: &'a [u8],
    place: LineColumn,
}

/// The next token of what is left of a file, or nothing where only blanks and comments are left.
fn read_next<'a>(
    alloc: Global,
    first_bytes: &FirstBytes,
    file: u16,
    rest: &'a [u8],
    place: LineColumn,
) -> Result<Option<Step<'a>>, Stop>
    requires lines { place.line + length rest.now ≤ 2 ^ 32 }
    requires columns { place.column + length rest.now ≤ 2 ^ 32 }
    ensures { (whole : List ℕ) → IsAt whole rest.now place → MatchResult result
        (λ next. IsNext file whole rest.now next)
        (λ stop. StopsNext rest.now stop) }
{
    let here = skip_gap(rest);
    let gap = rest.len() - here.len();
    let place = place.behind(&rest[..gap]);
    if here.is_empty() {
        return Ok(None);
    }
    match read_token(alloc, first_bytes, here) {
        Ok(reading) => Ok(Some(Step {
            token: Token {
                at: place.span(file),
                touching: gap == 0,
                kind: reading.kind,
            },
            rest: &here[reading.length..],
            place: place.behind(&here[..reading.length]),
        })),
        Err(stop) => Err(stop.farther(gap)),
    }
}

/// The tokens up to the end of a file, whatever of it is UTF-8.
fn read_tokens(alloc: Global, file: u16, bytes: &[u8]) -> Result<Row<Token>, Stop>
    requires { length bytes.now < 2 ^ 32 }
    ensures { MatchResult result
        (λ tokens. ReadsAll file bytes.now tokens)
        (λ stop. StopsFile file bytes.now stop) }
{
    let first_bytes = FirstBytes::new();
    let mut tokens = Row::new(alloc);
    let mut rest = bytes;
    let mut place = LineColumn::start();
    'tokens: loop {
        let next = match read_next(alloc, &first_bytes, file, rest, place) {
            Ok(next) => next,
            Err(stop) => return Err(stop.farther(bytes.len() - rest.len())),
        };
        let Some(step) = next else {
            return Ok(tokens);
        };
        rest = step.rest;
        place = step.place;
        tokens.push(step.token)?;
    }
}

/// How many bytes at the front are UTF-8.
fn utf8_length(bytes: &[u8]) -> usize
    ensures { IsUtf8Length bytes.now result }
{
    match std::str::from_utf8(bytes) {
        Ok(_) => bytes.len(),
        Err(fault) => fault.valid_up_to(),
    }
}

/// The refusal of a file at what stands behind its first `skipped` bytes.
fn refusal(file: u16, bytes: &[u8], skipped: usize, rule: RuleId) -> LexFault
    requires small { length bytes.now < 2 ^ 32 }
    requires inside { skipped < length bytes.now }
    ensures { result ≡ Refused (place file bytes.now (drop skipped bytes.now)) rule }
{
    let here = LineColumn::start().behind(&bytes[..skipped]);
    LexFault::Refused {
        at: here.span(file),
        rule,
    }
}

/// The tokens of a file, or the place and the rule of its first fault.
pub fn scan(alloc: Global, file: u16, bytes: &[u8]) -> Result<Vec<Token>, LexFault>
    requires { length bytes.now < 2 ^ 32 }
    ensures tokens { IfOk result (λ tokens. Tokens file bytes.now tokens.items) }
    ensures texts { IfOk result (λ tokens. HaveTexts tokens.items) }
    ensures only_tokens { IfOk result (λ tokens. IsOnlyList file bytes.now tokens.items) }
    ensures refused { IfErr result (TellsFirst file bytes.now) }
    ensures only_fault { IfErr result (TellsOnly file bytes.now) }
{
    let valid = utf8_length(bytes);
    match read_tokens(alloc, file, bytes) {
        Ok(tokens) => {
            if valid < bytes.len() {
                return Err(refusal(file, bytes, valid, RuleId::L4));
            }
            Ok(tokens.into_vec())
        }
        Err(Stop::Refused { skipped, rule }) => {
            if valid <= skipped {
                return Err(refusal(file, bytes, valid, RuleId::L4));
            }
            Err(refusal(file, bytes, skipped, rule))
        }
        Err(Stop::Memory) => Err(LexFault::Memory),
    }
}
