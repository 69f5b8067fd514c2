//! The table of a list of definitions.

ghost use Rattle.std.specs.Prelude.{◌≡◌, ◌↔◌, ◌<◌, ◌^◌, ◌∷◌, [], ℕ, IsTrue, length, IfOk, OnOk, Err, MatchOption, nat_eq};
ghost use Rattle.st_type_table.specs.declared.fault.Broken.{Broken};
ghost use Rattle.st_type_table.specs.Breach.{IsSound, FirstBreach, AllHaveFewParts, HasFewParts};
ghost use Rattle.st_type_table.specs.inner.Survey.{IsSurvey};
ghost use Rattle.st_type_table.specs.inner.Kept.{IsKept, defs_of, kept_of};
ghost use Rattle.std.specs.Cmp.Lexicographic.{pointwise};
ghost use Rattle.indexmap.specs.IndexMap.{insert_entry};

use crate::case_list::CaseList;
use crate::definitions::Definitions;
use crate::entry::{Entries, Entry};
use crate::fault::TypeFault;
use crate::flat::Flat;
use crate::joining::join_graph;
use crate::parts::check_def;
use crate::ranking::settle;
use crate::survey::{Survey, survey_of};
use indexmap::IndexMap;
use st_il::{SyntaxBody, SyntaxDef, copy_body};
use st_num::{Name, NoMemory, Row};
use std::alloc::Global;
use std::collections::VecDeque;

/// How many positions 32 bits can tell: a list that they count is shorter.
const LIMIT: usize = 4_294_967_296;

/// Whether the definitions, and the parts of each, are fewer than the limit.
pub(crate) fn are_few(defs: &[SyntaxDef]) -> bool
    ensures { IsTrue result ↔ ((length defs.now < 2 ^ 32) × AllHaveFewParts defs.now) }
{
    if defs.len() >= LIMIT {
        return false;
    }
    for def in defs {
        if !has_few_parts(&def.body) {
            return false;
        }
    }
    true
}

/// Whether the body has fewer alternatives or fields than the limit.
fn has_few_parts(body: &SyntaxBody) -> bool
    ensures { IsTrue result ↔ HasFewParts body.now }
{
    match body {
        SyntaxBody::Alias(_) => true,
        SyntaxBody::Variant(parts) => parts.len() < LIMIT,
        SyntaxBody::Fields(fields) => fields.len() < LIMIT,
    }
}

/// Whether all conditions hold, or the first that is false.
fn check_all(alloc: Global, defs: &Definitions, survey: &Survey) -> Result<(), TypeFault>
    requires survey { IsSurvey defs.now survey.now }
    requires few { length defs.now < 2 ^ 32 }
    ensures ok { OnOk result (IsSound defs.now) }
    ensures refused { (s : ℕ) (b : Broken) → result ≡ Err (TypeFault.Refused s b)
        → FirstBreach defs.now s b }
{
    for at in 0..defs.len() {
        match check_def(alloc, defs, survey, at)? {
            Some(broken) => {
                let syntax = at as u32;
                return Err(TypeFault::Refused { syntax, broken });
            }
            None => {}
        }
    }
    Ok(())
}

/// What is kept of the definitions, where they break no rule.
pub(crate) fn entries_of(alloc: Global, defs: &[SyntaxDef]) -> Result<Entries, TypeFault>
    requires few { length defs.now < 2 ^ 32 }
    ensures kept { IfOk result (λ map. IsKept map.entries) }
    ensures whole { IfOk result (λ map. defs_of map.entries ≡ defs.now) }
    ensures sound { OnOk result (IsSound defs.now) }
    ensures refused { (s : ℕ) (b : Broken) → result ≡ Err (TypeFault.Refused s b)
        → FirstBreach defs.now s b }
{
    let defs = Definitions::of(alloc, defs)?;
    let survey = survey_of(alloc, &defs)?;
    match check_all(alloc, &defs, &survey) {
        Ok(()) => {}
        Err(fault) => return Err(fault),
    }
    let entries = settled_entries(alloc, &defs, survey)?;
    Ok(entries)
}

/// What is kept of definitions that break no rule.
fn settled_entries(alloc: Global, defs: &Definitions, survey: Survey) -> Result<Entries, NoMemory>
    requires survey { IsSurvey defs.now survey }
    requires sound { IsSound defs.now }
    ensures kept { IfOk result (λ map. IsKept map.entries) }
    ensures whole { IfOk result (λ map. defs_of map.entries ≡ defs.now) }
{
    let graph = join_graph(alloc, defs)?;
    let joins = settle(alloc, graph.as_slice())?;
    let joins = joins.as_slice();
    let Survey { ranks, flats, .. } = survey;
    let ranks = ranks.as_slice();
    let entries = fill(alloc, defs, ranks, flats, joins)?;
    Ok(entries)
}

/// An entry for each definition.
fn fill(
    alloc: Global,
    defs: &Definitions,
    ranks: &[usize],
    flats: Row<Flat>,
    joins: &[usize],
) -> Result<Entries, NoMemory>
    requires sound { IsSound defs.now }
    requires ranks { length ranks.now ≡ length defs.now }
    requires flats { length flats ≡ length defs.now }
    requires joins { length joins.now ≡ length defs.now }
    ensures { IfOk result (λ map. map.entries ≡ kept_of defs.now ranks.now flats joins.now) }
{
    let mut map = IndexMap::new(alloc);
    let mut left = VecDeque::from_vec(flats.into_vec());
    for at in 0..defs.len() {
        let Some(flat) = next(&mut left) else {
            return Ok(map);
        };
        let def = defs.nth(at);
        let name = def.name.copy(alloc)?;
        let entry = entry_for(alloc, def, ranks[at], flat, joins[at])?;
        insert(&mut map, name, entry)?;
    }
    Ok(map)
}

/// Takes the first of those that are left.
fn next(left: &mut VecDeque<Flat>) -> Option<Flat>
    ensures { MatchOption result (left.old.items ≡ [])
        (λ flat. left.old.items ≡ flat ∷ left.new.items) }
{
    left.pop_front()
}

/// Keeps the entry under this name.
fn insert(map: &mut Entries, name: Name, entry: Entry) -> Result<(), NoMemory>
    ensures { OnOk result
        (map.new.entries ≡ insert_entry (pointwise nat_eq) map.old.entries name entry) }
{
    match map.insert(name, entry) {
        Ok(_) => Ok(()),
        Err(_) => Err(NoMemory),
    }
}

/// The entry of a definition: its body, its ranks and its cases.
fn entry_for(
    alloc: Global,
    def: &SyntaxDef,
    rank: usize,
    flat: Flat,
    join_rank: usize,
) -> Result<Entry, NoMemory>
    ensures { IfOk result (λ entry. entry ≡ record {
      body = def.now.body;
      rank = rank;
      cases = flat.cases.items;
      index = flat.cases.index;
      join_rank = join_rank;
    }) }
{
    let body = copy_body(alloc, &def.body)?;
    let Flat { cases, .. } = flat;
    let CaseList { items, index, .. } = cases;
    Ok(Entry {
        body,
        rank,
        cases: items,
        index,
        join_rank,
    })
}
