//! All that a relation derives from some inputs.
//!
//! `solve` passes itself, with one goal less, to what runs the rules of its relation; nothing else
//! recurses over goals.

ghost use Rattle.std.specs.Prelude.{◌≡◌, ◌≤◌, ◌∷◌, [], false, None, IfOk};
ghost use Rattle.st_semantics.specs.Goals.{AreInputs};
ghost use Rattle.st_semantics.specs.Marks.{HasMark};
ghost use Rattle.st_search.specs.Searchable.{IsSearchable, HasNoOtherwise};
ghost use Rattle.st_search.specs.Answers.{goal_of, AreSorted, IsAnswer};
ghost use Rattle.st_search.specs.inner.Chains.{led, fault_before};
ghost use Rattle.st_search.specs.inner.Kept.{IsKept};
ghost use Rattle.st_search.specs.inner.Search.{IsSearch, IsSolved};

use crate::answer::{Chain, Output, Outputs, SearchFault};
use crate::found::{Found, joined};
use crate::language::{SearchedLanguage, searched_language};
use crate::relation::run_relation;
use crate::setting::Search;
use st_algo::Algos;
use st_eval::Setting;
use st_il::{Il, Value, copy_values};
use st_index::Index;
use st_num::{Name, NoMemory, Row};
use st_order::Directions;
use st_types::TypeTable;
use std::alloc::Global;

/// A goal alone.
fn goal_only(
    alloc: Global,
    relation: &Name,
    inputs: &[Value],
) -> Result<Row<(Name, Row<Value>)>, NoMemory>
    ensures { IfOk result (λ goals. goals ≡ (relation.now, inputs.now) ∷ []) }
{
    let mut goals = Row::new(alloc);
    let name = relation.copy(alloc)?;
    let values = copy_values(alloc, inputs)?;
    goals.push((name, values))?;
    Ok(goals)
}

/// The chain of a goal alone.
fn chain_of(alloc: Global, relation: &Name, inputs: &[Value]) -> Result<Chain, NoMemory>
    ensures { IfOk result (λ chain. chain
        ≡ record { goals = (relation.now, inputs.now) ∷ []; at = None }) }
{
    let goals = goal_only(alloc, relation, inputs)?;
    Ok(Chain { goals, at: None })
}

/// A chain with a goal before it.
fn led(alloc: Global, relation: &Name, inputs: &[Value], chain: Chain) -> Result<Chain, NoMemory>
    ensures { IfOk result (λ more. more ≡ led (goal_of relation.now inputs.now) chain) }
{
    let goals = goal_only(alloc, relation, inputs)?;
    let goals = joined(goals, chain.goals)?;
    let at = chain.at;
    Ok(Chain { goals, at })
}

/// What is told of a goal behind which the search ends by this.
fn fault_before(
    alloc: Global,
    relation: &Name,
    inputs: &[Value],
    fault: SearchFault,
) -> Result<SearchFault, NoMemory>
    ensures { IfOk result (λ more. more ≡ fault_before (goal_of relation.now inputs.now) fault) }
{
    match fault {
        SearchFault::Deep(chain) => {
            let chain = led(alloc, relation, inputs, chain)?;
            Ok(SearchFault::Deep(chain))
        }
        SearchFault::Memory => Ok(SearchFault::Memory),
    }
}

/// All that a relation derives from these inputs, where so many goals may stand below each other.
fn solve(
    alloc: Global,
    search: &Search<'_>,
    relation: &Name,
    inputs: &[Value],
    left: u32,
) -> Result<Found<Output>, SearchFault>
    requires search { IsSearch search.now }
    requires left { 1 ≤ left }
    ensures solved { IsSolved search.now.setting.index.now search.now.setting.depth left
        (goal_of relation.now inputs.now) result }
    ensures sorted { IfOk result (λ found. AreSorted found.items) }
{
    if left == 1 {
        let chain = chain_of(alloc, relation, inputs)?;
        return Err(SearchFault::Deep(chain));
    }
    let less = left - 1;
    let found = run_relation(
        alloc,
        search,
        &|inner: &Name, values: Row<Value>|
            requires search { IsSearch search.now }
            requires less { 1 ≤ less }
            ensures { IsSolved search.entry.now.setting.index.now search.entry.now.setting.depth less
                (goal_of inner.now values) result }
        { solve(alloc, search, inner, values.as_slice(), less) },
        relation,
        inputs,
    );
    match found {
        Ok(found) => {
            let items = found.items;
            let longest = found.longest + 1;
            Ok(Found { items, longest })
        }
        Err(fault) => Err(fault_before(alloc, relation, inputs, fault)?),
    }
}

/// All that a relation derives from these inputs, where as many goals may stand below each other as
/// calls may be open at once, and this is kept of the language.
fn solve_with(
    alloc: Global,
    index: &Index<'_>,
    types: &TypeTable,
    algos: &Algos,
    directions: &Directions<'_>,
    relation: &Name,
    inputs: &[Value],
    depth: u32,
) -> Result<Found<Output>, SearchFault>
    requires language { IsKept index.now types.now algos.now directions.now }
    requires depth { 1 ≤ depth }
    ensures solved { IsSolved index.now depth depth (goal_of relation.now inputs.now) result }
    ensures sorted { IfOk result (λ found. AreSorted found.items) }
{
    let setting = Setting {
        index,
        types,
        depth,
    };
    let search = Search {
        setting,
        algos,
        directions,
    };
    solve(alloc, &search, relation, inputs, depth)
}

/// All that a relation of a language that is known derives from these inputs, each once, in the
/// order of the values, with a derivation; at most so many calls may be open at once, and so many
/// goals stand below each other. Or a chain of goals that leads to what is Deep.
pub fn outputs_in(
    alloc: Global,
    language: &SearchedLanguage<'_>,
    relation: &Name,
    input: &[Value],
    depth: u32,
) -> Result<Outputs, SearchFault>
    requires relation { HasMark language.now false relation.now None }
    requires plain { HasNoOtherwise language.now relation.now }
    requires input { AreInputs language.now relation.now input.now }
    requires depth { 1 ≤ depth }
    ensures { IsAnswer language.now depth (goal_of relation.now input.now) result }
{
    let found = solve_with(
        alloc,
        &language.index,
        language.types,
        language.algos,
        &language.directions,
        relation,
        input,
        depth,
    )?;
    Ok(Outputs { found: found.items })
}

/// All that a relation derives from these inputs, each once, in the order of the values, with a
/// derivation; at most so many calls may be open at once, and so many goals stand below each other.
/// Or a chain of goals that leads to what is Deep.
pub fn outputs<'a>(
    alloc: Global,
    il: &'a Il,
    types: &'a TypeTable,
    algos: &'a Algos,
    relation: &Name,
    input: &[Value],
    depth: u32,
) -> Result<Outputs, SearchFault>
    requires language { IsSearchable il.now types.now algos.now }
    requires relation { HasMark il.now false relation.now None }
    requires plain { HasNoOtherwise il.now relation.now }
    requires input { AreInputs il.now relation.now input.now }
    requires depth { 1 ≤ depth }
    ensures { IsAnswer il.now depth (goal_of relation.now input.now) result }
{
    let language = searched_language(alloc, il, types, algos)?;
    outputs_in(alloc, &language, relation, input, depth)
}
