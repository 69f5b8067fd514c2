//! A relation that is searched, and one step of a run.

ghost use Rattle.std.specs.Prelude.{IfOk};
ghost use Rattle.st_semantics.specs.Goals.{AreInputs};
ghost use Rattle.st_runs.specs.inner.Searching.{CanSearch, SearchesTo, StepsTo};

use st_il::{Value, copy_values};
use st_num::{Name, NoMemory, Row};
use st_search::{Chain, Output, Outputs, SearchFault, SearchedLanguage, outputs_in};
use st_semantics::meaning_of_rules;
use std::alloc::Global;

/// A relation of a language that is known, and the depth to which it is searched.
#[derive(Clone, Copy)]
pub struct Searching<'a> {
    pub language: &'a SearchedLanguage<'a>,
    pub relation: &'a Name,
    pub depth: u32,
}

/// What a search came to.
#[derive(Drop)]
pub enum Searched {
    /// All that is derivable.
    Outputs(Outputs),
    /// A chain that begins there.
    Deep(Chain),
}

/// Where a run goes from a term.
#[derive(Drop)]
pub enum Step {
    /// To this term.
    To(Row<Value>),
    /// Nowhere: nothing is derivable.
    Stuck,
    /// A chain begins there.
    Deep(Chain),
}

/// What the relation derives from a term, or a chain that begins there.
pub fn search(alloc: Global, searching: &Searching, term: &[Value]) -> Result<Searched, NoMemory>
    requires can { CanSearch searching.now }
    requires term { AreInputs searching.now.language.now searching.now.relation.now term.now }
    ensures { IfOk result (SearchesTo searching.now.language.now searching.now.relation.now
        searching.now.depth term.now) }
{
    let found = outputs_in(
        alloc,
        searching.language,
        searching.relation,
        term,
        searching.depth,
    );
    match found {
        Ok(outputs) => Ok(Searched::Outputs(outputs)),
        Err(SearchFault::Deep(chain)) => Ok(Searched::Deep(chain)),
        Err(SearchFault::Memory) => Err(NoMemory),
    }
}

/// Where a run goes that has these outputs.
fn least_of(
    alloc: Global,
    searching: &Searching,
    term: &[Value],
    found: &[Output],
) -> Result<Step, NoMemory>
    requires found { SearchesTo searching.now.language.now searching.now.relation.now
        searching.now.depth term.now (Searched.Outputs (record { found = found.now })) }
    ensures { IfOk result (StepsTo searching.now.language.now searching.now.relation.now
        searching.now.depth term.now) }
{
    meaning_of_rules();
    match found.first() {
        Some(output) => Ok(Step::To(copy_values(alloc, output.values.as_slice())?)),
        None => Ok(Step::Stuck),
    }
}

/// Where a run goes from a term: to the least that is derivable.
pub fn next_step(alloc: Global, searching: &Searching, term: &[Value]) -> Result<Step, NoMemory>
    requires can { CanSearch searching.now }
    requires term { AreInputs searching.now.language.now searching.now.relation.now term.now }
    ensures { IfOk result (StepsTo searching.now.language.now searching.now.relation.now
        searching.now.depth term.now) }
{
    match search(alloc, searching, term)? {
        Searched::Outputs(outputs) => { least_of(alloc, searching, term, outputs.found.as_slice()) }
        Searched::Deep(chain) => Ok(Step::Deep(chain)),
    }
}
