//! The verification of derivations.

ghost use Rattle.std.specs.Prelude.{◌≡◌, ◌≤◌, ◌<◌, ◌^◌, ◌++◌, ℕ, List, codes, decimal, None, length, IfOk, IfSome, IfNone, MatchBool, Contains};
ghost use Rattle.st_deriv.specs.declared.line.Line.{Line};
ghost use Rattle.st_deriv.specs.LineText.{LineText};
ghost use Rattle.st_deriv.specs.LineText.{IsNoLine};
ghost use Rattle.st_ilcheck.specs.Typed.{Typed};
ghost use Rattle.st_iltext.specs.IlText.{IlText};
ghost use Rattle.st_answers.specs.inner.Checks.{Takes, TakenTo, HasNoLines, Ends, Tells};
ghost use Rattle.st_answers.specs.Verification.{VerifyGives, text_limit};
ghost use Rattle.st_answers.specs.VerdictTexts.{accepted_text, refused_il_text, rule_word, type_rule_word, untyped_text};
ghost use Rattle.st_semantics.specs.Notes.{nothing_noted};

use crate::answer::{Answer, unbuilt};
use crate::status::Status;
use itoa::Buffer;
use st_deriv::read_line;
use st_il::{Il, TypeRule};
use st_ilread::read_il;
use st_num::NoMemory;
use st_small::is_small_il;
use st_text::{TextFault, next_line};
use st_verify::{Accepted, Verifier, VerifyFault, VerifyRule, judge_language};
use std::alloc::Global;

/// Whether the bytes are the text of a line.
fn is_line_text(alloc: Global, bytes: &[u8]) -> Result<bool, NoMemory>
    ensures { IfOk result (λ is_line. MatchBool is_line
        ((line : Line) × LineText line bytes.now) (IsNoLine bytes.now)) }
{
    match read_line(alloc, bytes) {
        Ok(_) => Ok(true),
        Err(TextFault::Malformed { line: _ }) => Ok(false),
        Err(TextFault::Memory) => Err(NoMemory),
    }
}

/// Gives a line to the verifier, which keeps a refusal; false where it is the text of no line.
fn take_line(alloc: Global, verifier: &mut Verifier, bytes: &[u8]) -> Result<bool, NoMemory>
    requires { length verifier.old.notes.lines < 2 ^ 32 }
    ensures { IfOk result (λ is_line. MatchBool is_line
        ((line : Line) × LineText line bytes.now × Takes verifier.old line verifier.new)
        (IsNoLine bytes.now)) }
{
    if !is_line_text(alloc, bytes)? {
        return Ok(false);
    }
    match verifier.feed(alloc, bytes) {
        Ok(()) => Ok(true),
        Err(
            VerifyFault::Refused {
                rule: _,
                line: _,
                typing: _,
            },
        ) => Ok(true),
        Err(VerifyFault::Memory) => Err(NoMemory),
    }
}

/// Gives the verifier all lines that end in a line feed, and answers what stands behind them; none
/// where one is the text of no line.
fn take_lines<'a>(
    alloc: Global,
    verifier: &mut Verifier,
    bytes: &'a [u8],
) -> Result<Option<&'a [u8]>, NoMemory>
    requires new { verifier.old
        ≡ record { il = verifier.old.il; notes = nothing_noted; refusal = None } }
    requires short { length bytes.now ≤ text_limit }
    ensures some { IfOk result (λ taken. IfSome taken (λ rest.
        TakenTo verifier.old.il bytes.now verifier.new rest.now × ¬ (Contains rest.now 10))) }
    ensures none { IfOk result (λ taken. IfNone taken (HasNoLines bytes.now)) }
{
    let mut rest = bytes;
    while let Some((line, behind)) = next_line(rest) {
        if !take_line(alloc, verifier, line)? {
            return Ok(None);
        }
        rest = behind;
    }
    Ok(Some(rest))
}

/// The line that says that a derivation is accepted.
fn accepted_line(alloc: Global, accepted: Accepted) -> Result<Vec<u8>, NoMemory>
    ensures { IfOk result (λ bytes. bytes.items ≡ accepted_text accepted.lines accepted.steps) }
{
    let mut buffer = Buffer::new();
    let mut bytes = Vec::from_slice(alloc, b"accepted ")?;
    bytes.extend_from_slice(buffer.format(accepted.lines).as_bytes())?;
    bytes.extend_from_slice(b" lines ")?;
    bytes.extend_from_slice(buffer.format(accepted.steps).as_bytes())?;
    bytes.extend_from_slice(b" steps\n")?;
    Ok(bytes)
}

/// The name of a rule on derivations, as it is printed.
fn rule_word(rule: VerifyRule) -> &'static str
    ensures { result.now ≡ rule_word rule }
{
    match rule {
        VerifyRule::V1 => "V1",
        VerifyRule::V2 => "V2",
        VerifyRule::V3 => "V3",
        VerifyRule::V4 => "V4",
        VerifyRule::V5 => "V5",
        VerifyRule::V6 => "V6",
        VerifyRule::V7 => "V7",
        VerifyRule::V8 => "V8",
        VerifyRule::V9 => "V9",
        VerifyRule::V10 => "V10",
        VerifyRule::V11 => "V11",
        VerifyRule::V12 => "V12",
        VerifyRule::V13 => "V13",
    }
}

/// The line that says, behind these words, that a line is refused.
fn refused_line(
    alloc: Global,
    words: &str,
    line: u64,
    rule: VerifyRule,
) -> Result<Vec<u8>, NoMemory>
    ensures { IfOk result (λ bytes. bytes.items
        ≡ words.now ++ decimal line ++ codes " " ++ rule_word rule ++ codes "\n") }
{
    let mut buffer = Buffer::new();
    let mut bytes = Vec::from_slice(alloc, words.as_bytes())?;
    bytes.extend_from_slice(buffer.format(line).as_bytes())?;
    bytes.extend_from_slice(b" ")?;
    bytes.extend_from_slice(rule_word(rule).as_bytes())?;
    bytes.extend_from_slice(b"\n")?;
    Ok(bytes)
}

/// The answer that a verifier ends with.
fn verdict_answer(alloc: Global, verdict: Result<Accepted, VerifyFault>) -> Result<Answer, NoMemory>
    ensures { IfOk result (λ answer. Tells verdict answer.status answer.bytes.items) }
{
    match verdict {
        Ok(accepted) => Ok(Answer {
            status: Status::Done,
            bytes: accepted_line(alloc, accepted)?,
        }),
        Err(
            VerifyFault::Refused {
                rule,
                line,
                typing: _,
            },
        ) => Ok(Answer {
            status: Status::Verification,
            bytes: refused_line(alloc, "refused derivation ", line, rule)?,
        }),
        Err(VerifyFault::Memory) => Err(NoMemory),
    }
}

/// What the verifier says at the end, with this behind the last line feed.
fn finished(verifier: &mut Verifier, rest: &[u8]) -> Result<Accepted, VerifyFault>
    ensures { Ends verifier.old rest.now result }
{
    if !rest.is_empty() {
        verifier.judge_malformed()?;
    }
    verifier.finish()
}

/// The answer where the text of an internal language has this first line that is none.
fn malformed_answer(alloc: Global, line: u64) -> Result<Answer, NoMemory>
    ensures status { IfOk result (λ answer. answer.status ≡ Status.Verification) }
    ensures bytes { IfOk result (λ answer. answer.bytes.items
        ≡ refused_il_text line VerifyRule.V1) }
{
    Ok(Answer {
        status: Status::Verification,
        bytes: refused_line(alloc, "refused il ", line, VerifyRule::V1)?,
    })
}

/// The name of a rule on types, as it is printed.
fn type_rule_word(rule: TypeRule) -> &'static str
    ensures { result.now ≡ type_rule_word rule }
{
    match rule {
        TypeRule::T1 => "T1",
        TypeRule::T2 => "T2",
        TypeRule::T3 => "T3",
        TypeRule::T4 => "T4",
        TypeRule::T5 => "T5",
        TypeRule::T6 => "T6",
        TypeRule::T7 => "T7",
        TypeRule::T8 => "T8",
        TypeRule::T9 => "T9",
        TypeRule::T10 => "T10",
        TypeRule::T11 => "T11",
        TypeRule::T12 => "T12",
        TypeRule::T13 => "T13",
        TypeRule::T14 => "T14",
    }
}

/// The answer where the definition in this line of an internal language breaks a rule on types.
fn untyped_answer(alloc: Global, line: u64, rule: TypeRule) -> Result<Answer, NoMemory>
    ensures status { IfOk result (λ answer. answer.status ≡ Status.Verification) }
    ensures bytes { IfOk result (λ answer. answer.bytes.items ≡ untyped_text line rule) }
{
    let mut buffer = Buffer::new();
    let mut bytes = Vec::from_slice(alloc, b"refused il ")?;
    bytes.extend_from_slice(buffer.format(line).as_bytes())?;
    bytes.extend_from_slice(b" V2 ")?;
    bytes.extend_from_slice(type_rule_word(rule).as_bytes())?;
    bytes.extend_from_slice(b"\n")?;
    Ok(Answer {
        status: Status::Verification,
        bytes,
    })
}

/// Says whether the checker accepts a derivation over an internal language that is typed.
fn judge_files(alloc: Global, il: Il, derivation: &[u8]) -> Result<Answer, NoMemory>
    requires typed { Typed il }
    requires short { length derivation.now ≤ text_limit }
    ensures { (bytes : List ℕ) → IlText il bytes → IfOk result (λ answer. VerifyGives bytes
        derivation.now answer.status answer.bytes.items) }
{
    if !is_small_il(alloc, &il)? {
        return unbuilt(alloc);
    }
    let Ok(mut verifier) = Verifier::new(alloc, il) else {
        return Err(NoMemory);
    };
    let Some(rest) = take_lines(alloc, &mut verifier, derivation)? else {
        return unbuilt(alloc);
    };
    verdict_answer(alloc, finished(&mut verifier, rest))
}

/// Says whether the checker accepts a derivation, whose internal language is in another text.
pub fn verify_files(alloc: Global, il: &[u8], derivation: &[u8]) -> Result<Answer, NoMemory>
    requires { length derivation.now ≤ text_limit }
    ensures { IfOk result (λ answer. VerifyGives il.now derivation.now answer.status
        answer.bytes.items) }
{
    let il = match read_il(alloc, il) {
        Ok(il) => il,
        Err(TextFault::Malformed { line }) => return malformed_answer(alloc, line),
        Err(TextFault::Memory) => return Err(NoMemory),
    };
    match judge_language(alloc, &il) {
        Ok(()) => judge_files(alloc, il, derivation),
        Err(
            VerifyFault::Refused {
                rule: _,
                line,
                typing,
            },
        ) => match typing {
            Some(rule) => untyped_answer(alloc, line, rule),
            // (a language is refused by a rule on types alone)
            None => unreachable!(),
        },
        Err(VerifyFault::Memory) => Err(NoMemory),
    }
}
