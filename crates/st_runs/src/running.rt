//! Runs: from term to term, by the least that is derivable.

ghost use Rattle.std.specs.Prelude.{◌≡◌, ◌++◌, IfOk, OnOk};
ghost use Rattle.st_semantics.specs.Goals.{AreInputs};
ghost use Rattle.st_runs.specs.Runs.{RunSays};
ghost use Rattle.st_runs.specs.RunTexts.{term_line, ending_line};
ghost use Rattle.st_runs.specs.Transcript.{status_of};
ghost use Rattle.st_runs.specs.inner.Searching.{CanSearch, LeadsOn, Tells};

use crate::depth::deep;
use crate::searching::{Searching, Step, next_step};
use crate::transcript::Ending;
use itoa::Buffer;
use st_answers::Answer;
use st_il::Value;
use st_num::{NoMemory, Row};
use st_term::print_term;
use std::alloc::Global;

/// Adds the line of a term and its number.
fn push_term_line(
    alloc: Global,
    number: u32,
    term: &[Value],
    bytes: &mut Vec<u8>,
) -> Result<(), NoMemory>
    ensures { OnOk result (bytes.new.items ≡ bytes.old.items ++ term_line number term.now) }
{
    let mut buffer = Buffer::new();
    bytes.extend_from_slice(buffer.format(number).as_bytes())?;
    bytes.extend_from_slice(b" ")?;
    print_term(alloc, term, bytes)?;
    bytes.extend_from_slice(b"\n")?;
    Ok(())
}

/// The answer of a run whose terms are printed.
fn ended(mut bytes: Vec<u8>, ending: Ending, steps: u32) -> Result<Answer, NoMemory>
    ensures status { IfOk result (λ answer. answer.status ≡ status_of ending) }
    ensures bytes { IfOk result (λ answer.
        answer.bytes.items ≡ bytes.items ++ ending_line ending steps) }
{
    let mut buffer = Buffer::new();
    bytes.extend_from_slice(ending.word().as_bytes())?;
    bytes.extend_from_slice(b" after ")?;
    bytes.extend_from_slice(buffer.format(steps).as_bytes())?;
    bytes.extend_from_slice(b" steps\n")?;
    Ok(Answer {
        status: ending.status(),
        bytes,
    })
}

/// The answer of a run that ends after so many steps, since the next one goes there.
fn finish(
    alloc: Global,
    bytes: Vec<u8>,
    depth: u32,
    steps: u32,
    step: &Step,
) -> Result<Answer, NoMemory>
    ensures { IfOk result (λ answer. Tells depth bytes.items steps step.now answer.status
        answer.bytes.items) }
{
    match step {
        Step::To(_) => ended(bytes, Ending::Fuel, steps),
        Step::Stuck => ended(bytes, Ending::Stuck, steps),
        Step::Deep(chain) => deep(alloc, bytes, depth, chain),
    }
}

/// Runs a relation from a term, for so many steps at most.
pub fn run(
    alloc: Global,
    searching: &Searching,
    fuel: u32,
    start: Row<Value>,
) -> Result<Answer, NoMemory>
    requires can { CanSearch searching.now }
    requires leads { LeadsOn searching.now.language.now searching.now.relation.now }
    requires start { AreInputs searching.now.language.now searching.now.relation.now start }
    ensures { IfOk result (λ answer. RunSays searching.now.language.now searching.now.relation.now fuel
        searching.now.depth start answer.status answer.bytes.items) }
{
    let mut bytes = Vec::new(alloc);
    let mut term = start;
    for number in 0..fuel {
        push_term_line(alloc, number, term.as_slice(), &mut bytes)?;
        match next_step(alloc, searching, term.as_slice())? {
            Step::To(next) => term = next,
            Step::Stuck => return ended(bytes, Ending::Stuck, number),
            Step::Deep(chain) => return deep(alloc, bytes, searching.depth, &chain),
        }
    }
    push_term_line(alloc, fuel, term.as_slice(), &mut bytes)?;
    let last = next_step(alloc, searching, term.as_slice())?;
    finish(alloc, bytes, searching.depth, fuel, &last)
}
