//! All that is derivable from a term in one step.

ghost use Rattle.std.specs.Prelude.{◌≡◌, ◌++◌, flat_map, IfOk, OnOk};
ghost use Rattle.st_search.specs.Answers.{values_in};
ghost use Rattle.st_semantics.specs.Goals.{AreInputs};
ghost use Rattle.st_runs.specs.Runs.{NextSays};
ghost use Rattle.st_runs.specs.RunTexts.{output_line, outputs_text};
ghost use Rattle.st_runs.specs.inner.Searching.{CanSearch, GivesTyped};

use crate::depth::deep;
use crate::searching::{Searched, Searching, search};
use itoa::Buffer;
use st_answers::{Answer, Status};
use st_il::Value;
use st_num::NoMemory;
use st_search::Output;
use st_semantics::meaning_of_rules;
use st_term::print_term;
use std::alloc::Global;

/// Adds the line of what is derivable.
fn add_output(alloc: Global, values: &[Value], bytes: &mut Vec<u8>) -> Result<(), NoMemory>
    ensures { OnOk result (bytes.new.items ≡ bytes.old.items ++ output_line values.now) }
{
    print_term(alloc, values, bytes)?;
    bytes.extend_from_slice(b"\n")?;
    Ok(())
}

/// Adds the lines of outputs.
fn add_outputs(alloc: Global, found: &[Output], bytes: &mut Vec<u8>) -> Result<(), NoMemory>
    ensures { OnOk result
        (bytes.new.items ≡ bytes.old.items ++ flat_map output_line (values_in found.now)) }
{
    for output in found {
        add_output(alloc, output.values.as_slice(), bytes)?;
    }
    Ok(())
}

/// The answer that lists these outputs.
fn listed(alloc: Global, found: &[Output]) -> Result<Answer, NoMemory>
    ensures status { IfOk result (λ answer. answer.status ≡ Status.Done) }
    ensures bytes { IfOk result (λ answer. answer.bytes.items
        ≡ outputs_text (values_in found.now)) }
{
    let mut buffer = Buffer::new();
    let mut bytes = Vec::new(alloc);
    add_outputs(alloc, found, &mut bytes)?;
    bytes.extend_from_slice(buffer.format(found.len() as u64).as_bytes())?;
    bytes.extend_from_slice(b" outputs\n")?;
    Ok(Answer {
        status: Status::Done,
        bytes,
    })
}

/// All that a relation derives from a term.
pub fn next(alloc: Global, searching: &Searching, term: &[Value]) -> Result<Answer, NoMemory>
    requires can { CanSearch searching.now }
    requires typed { GivesTyped searching.now.language.now searching.now.relation.now }
    requires term { AreInputs searching.now.language.now searching.now.relation.now term.now }
    ensures { IfOk result (λ answer. NextSays searching.now.language.now searching.now.relation.now
        searching.now.depth term.now answer.status answer.bytes.items) }
{
    meaning_of_rules();
    match search(alloc, searching, term)? {
        Searched::Outputs(outputs) => listed(alloc, outputs.found.as_slice()),
        Searched::Deep(chain) => deep(alloc, Vec::new(alloc), searching.depth, &chain),
    }
}
