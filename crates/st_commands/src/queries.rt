//! What is said of a query over the files of a specification.

ghost use Rattle.std.specs.Prelude.{◌≡◌, ◌<◌, ◌≤◌, ◌^◌, [], ◌∷◌, ◌++◌, codes, length, All, IfOk};
ghost use Rattle.st_ilcheck.specs.Typed.{Typed};
ghost use Rattle.st_semantics.specs.Breaches.{KeepModes};
ghost use Rattle.st_term.specs.TermText.{term_text};
ghost use Rattle.st_source.specs.Faults.{source_limit};
ghost use Rattle.st_commands.specs.Queries.{evaluation_depth, OutcomeGives, QueryGives, EvalGives};
ghost use Rattle.st_runs.specs.RunTexts.{depth_text};

use crate::query::eval;
use itoa::Buffer;
use st_answers::{Answer, Status, refused_term};
use st_il::{Il, Value};
use st_num::{Fault, NoMemory, Row};
use st_semantics::Outcome;
use st_source::{Specification, read_specification};
use st_term::print_term;
use st_words::CommandWord;
use std::alloc::Global;
use std::slice::from_ref;

/// The most calls that are open at once where a query is evaluated.
fn evaluation_depth() -> u32
    ensures { result ≡ evaluation_depth }
{
    200
}

/// The line of a value.
fn value_line(alloc: Global, value: &Value) -> Result<Vec<u8>, NoMemory>
    ensures { IfOk result (λ bytes. bytes.items ≡ term_text (value.now ∷ []) ++ codes "\n") }
{
    let mut bytes = Vec::new(alloc);
    print_term(alloc, from_ref(value), &mut bytes)?;
    bytes.extend_from_slice(b"\n")?;
    Ok(bytes)
}

/// The lines that say that more calls than so many would be open at once.
fn deep_lines(alloc: Global, depth: u32) -> Result<Vec<u8>, NoMemory>
    ensures { IfOk result (λ bytes. bytes.items ≡ depth_text depth ++ codes "  value\n") }
{
    let mut buffer = Buffer::new();
    let mut bytes = Vec::from_slice(alloc, b"depth ")?;
    bytes.extend_from_slice(buffer.format(depth).as_bytes())?;
    bytes.extend_from_slice(b"\n")?;
    bytes.extend_from_slice(b"  value\n")?;
    Ok(bytes)
}

/// The answer where a query comes to this, and so many calls may be open at once.
fn answer_outcome(alloc: Global, depth: u32, outcome: &Outcome) -> Result<Answer, NoMemory>
    ensures { IfOk result (λ answer. OutcomeGives depth outcome.now answer.status
        answer.bytes.items) }
{
    match outcome {
        Outcome::Val(value) => Ok(Answer {
            status: Status::Done,
            bytes: value_line(alloc, value)?,
        }),
        Outcome::NoValue => Ok(Answer {
            status: Status::Done,
            bytes: Vec::from_slice(alloc, b"no value\n")?,
        }),
        Outcome::Deep => Ok(Answer {
            status: Status::Depth,
            bytes: deep_lines(alloc, depth)?,
        }),
    }
}

/// What is said of a query over an internal language that breaks no rule, where so many calls may be
/// open at once.
fn answer_query(alloc: Global, il: &Il, depth: u32, query: &[u8]) -> Result<Answer, NoMemory>
    requires typed { Typed il.now }
    requires modes { KeepModes il.now }
    requires few { length query.now < 2 ^ 32 }
    ensures { IfOk result (λ answer. QueryGives il.now depth query.now answer.status
        answer.bytes.items) }
{
    match eval(alloc, il, depth, query) {
        Ok(outcome) => answer_outcome(alloc, depth, &outcome),
        Err(Fault::Refused { at, rule }) => refused_term(alloc, at, rule),
        Err(Fault::Memory) => Err(NoMemory),
    }
}

/// What is said of a query over the files of these names: that they are refused, or what it comes
/// to over their specification.
pub fn eval_files(
    alloc: Global,
    names: &[CommandWord],
    files: &[Row<u8>],
    query: &[u8],
) -> Result<Answer, NoMemory>
    requires named { length files.now ≡ length names.now }
    requires few { length files.now ≤ 64 }
    requires short { All (λ file. length file ≤ source_limit) files.now }
    requires short_query { length query.now ≤ source_limit }
    ensures { IfOk result (λ answer. EvalGives names.now query.now files.now answer.status
        answer.bytes.items) }
{
    let specification = read_specification(alloc, names, files)?;
    match specification {
        Specification::Accepted {
            definitions: _,
            elaborated,
            modes: _,
        } => answer_query(alloc, &elaborated.il, evaluation_depth(), query),
        Specification::Refused(answer) => Ok(answer),
    }
}
