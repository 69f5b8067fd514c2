//! The cases of a list of alternatives, as long as their keys differ.

ghost use Rattle.std.specs.Prelude.{◌≡◌, ◌<◌, ◌↔◌, length, slice_get, suc, true, IsTrue, IfOk, OnOk};
ghost use Rattle.std.specs.Bool.{MatchBool};
ghost use Rattle.std.specs.Option.{option_copied};
ghost use Rattle.st_type_table.specs.Leads.{Ends};
ghost use Rattle.st_type_table.specs.inner.Flat.{AddsAlternative, AddsIncluded, IsReady, AreFlats, AllReached, alternatives_in, IsFlatAt, IsFlatOf, IsEndingPart, IsEndless, IsKnownPart, AllKnownParts, TriesAlternative, IsFlattened};
ghost use Rattle.st_type_table.specs.inner.CaseKeys.{IsKeyed};
ghost use Rattle.st_type_table.specs.inner.Graph.{AreRanks, graph_of, EndsIn};
ghost use Rattle.st_type_table.specs.inner.Rows.{AreRows};

use crate::case_list::CaseList;
use crate::definitions::Definitions;
use crate::graph::is_ranked;
use crate::resolve::meaning_in;
use crate::rows::rows_of;
use st_il::{Alternative, SyntaxBody, SyntaxDef, Ty};
use st_num::{Name, NoMemory, Row};
use std::alloc::Global;

/// The cases of a syntax, in order, as far as no two have one key.
#[derive(Drop)]
pub(crate) struct Flat {
    pub(crate) cases: CaseList,
    pub(crate) whole: bool,
    /// How many of the alternatives have cases with different keys, and end.
    pub(crate) reach: usize,
}

/// Adds the cases of another variant, and says whether all keys differ.
fn add_included(alloc: Global, cases: &mut CaseList, flat: &Flat) -> Result<bool, NoMemory>
    requires flat { flat.now.whole ≡ true → IsKeyed flat.now.cases }
    requires keyed { IsKeyed cases.old }
    ensures added { IfOk result
        (λ added. AddsIncluded cases.old.items cases.new.items flat.now added) }
    ensures keyed { OnOk result (IsKeyed cases.new) }
{
    if !flat.whole {
        return Ok(false);
    }
    for at in 0..flat.cases.items.len() {
        if !cases.add_from(alloc, &flat.cases, at)? {
            return Ok(false);
        }
    }
    Ok(true)
}

/// What is kept of the definition of this number, where there is one.
fn flat_at<'a>(flats: &'a [Flat], position: usize) -> Option<&'a Flat>
    ensures { option_copied result ≡ slice_get flats.now position }
{
    flats.get(position)
}

/// What is kept of the variant that the type means.
fn flat_of<'a>(defs: &Definitions, ranks: &[usize], flats: &'a [Flat], ty: &Ty) -> Option<&'a Flat>
    requires ranks { AreRanks (graph_of defs.now) ranks.now }
    requires size { length flats.now ≡ length defs.now }
    requires ends { EndsIn defs.now ty.now }
    requires known { IsFlatAt defs.now flats.now ty.now }
    ensures { IsFlatOf defs.now ty.now result }
{
    match meaning_in(defs, ranks, ty) {
        Ty::Name(name) => match defs.position_of(name) {
            Some(position) => flat_at(flats, position),
            None => None,
        },
        Ty::Bool => None,
        Ty::Nat => None,
        Ty::Int => None,
        Ty::Text => None,
        Ty::List(_) => None,
        Ty::Opt(_) => None,
        Ty::Tuple(_) => None,
    }
}

/// Adds the cases that an alternative brings, and says whether all keys differ.
pub(crate) fn add_alternative(
    alloc: Global,
    defs: &Definitions,
    ranks: &[usize],
    flats: &[Flat],
    alternative: &Alternative,
    cases: &mut CaseList,
) -> Result<bool, NoMemory>
    requires ranks { AreRanks (graph_of defs.now) ranks.now }
    requires size { length flats.now ≡ length defs.now }
    requires ready { IsReady defs.now flats.now alternative.now }
    requires keyed { IsKeyed cases.old }
    ensures added { IfOk result
        (λ added. AddsAlternative defs.now cases.old.items cases.new.items alternative.now added) }
    ensures keyed { OnOk result (IsKeyed cases.new) }
{
    match alternative {
        Alternative::Case(tag, operands) => {
            let added = cases.add(alloc, tag, operands.as_slice())?;
            Ok(added)
        }
        Alternative::Incl(name) => {
            let ty = Ty::Name(name.copy(alloc)?);
            match flat_of(defs, ranks, flats, &ty) {
                Some(flat) => {
                    let added = add_included(alloc, cases, flat)?;
                    Ok(added)
                }
                None => Ok(true),
            }
        }
    }
}

/// Whether each way from the name comes to an end.
fn ends(defs: &Definitions, ranks: &[usize], name: &Name) -> bool
    requires { AreRanks (graph_of defs.now) ranks.now }
    ensures { IsTrue result ↔ Ends defs.now name.now }
{
    match defs.position_of(name) {
        Some(position) => is_ranked(ranks, position),
        None => true,
    }
}

/// Whether what the alternative includes ends.
fn is_ending(defs: &Definitions, ranks: &[usize], alternative: &Alternative) -> bool
    requires { AreRanks (graph_of defs.now) ranks.now }
    ensures { MatchBool result (IsEndingPart defs.now alternative.now)
        (IsEndless defs.now alternative.now) }
{
    match alternative {
        Alternative::Case(_, _) => true,
        Alternative::Incl(name) => ends(defs, ranks, name),
    }
}

/// Adds the cases that an alternative brings, and says whether it ends and all keys differ.
fn try_alternative(
    alloc: Global,
    defs: &Definitions,
    ranks: &[usize],
    flats: &[Flat],
    alternative: &Alternative,
    cases: &mut CaseList,
) -> Result<bool, NoMemory>
    requires ranks { AreRanks (graph_of defs.now) ranks.now }
    requires size { length flats.now ≡ length defs.now }
    requires known { IsKnownPart defs.now flats.now alternative.now }
    requires keyed { IsKeyed cases.old }
    ensures added { IfOk result
        (λ added. TriesAlternative defs.now cases.old.items cases.new.items alternative.now added) }
    ensures keyed { OnOk result (IsKeyed cases.new) }
{
    if !is_ending(defs, ranks, alternative) {
        return Ok(false);
    }
    let added = add_alternative(alloc, defs, ranks, flats, alternative, cases)?;
    Ok(added)
}

/// The cases of these alternatives, as far as they end and have different keys.
fn flatten(
    alloc: Global,
    defs: &Definitions,
    ranks: &[usize],
    flats: &[Flat],
    alternatives: &[Alternative],
) -> Result<Flat, NoMemory>
    requires ranks { AreRanks (graph_of defs.now) ranks.now }
    requires size { length flats.now ≡ length defs.now }
    requires known { AllKnownParts defs.now flats.now alternatives.now }
    ensures { IfOk result (λ flat. IsFlattened defs.now alternatives.now flat) }
{
    let mut cases = CaseList::new(alloc);
    for reach in 0..alternatives.len() {
        let alternative = &alternatives[reach];
        if !try_alternative(alloc, defs, ranks, flats, alternative, &mut cases)? {
            let whole = false;
            return Ok(Flat {
                cases,
                whole,
                reach,
            });
        }
    }
    let whole = true;
    let reach = alternatives.len();
    Ok(Flat {
        cases,
        whole,
        reach,
    })
}

/// An empty list of cases for each definition.
fn empty_flats(alloc: Global, len: usize) -> Result<Vec<Flat>, NoMemory>
    ensures { IfOk result (λ flats. length flats.items ≡ len) }
{
    let mut flats = Vec::new(alloc);
    for i in 0..len {
        let cases = CaseList::new(alloc);
        flats.push(Flat {
            cases,
            whole: i < len,
            reach: 0,
        })?;
    }
    Ok(flats)
}

/// The cases of a definition whose inclusions are known.
fn flat_of_body(
    alloc: Global,
    defs: &Definitions,
    ranks: &[usize],
    flats: &[Flat],
    def: &SyntaxDef,
) -> Result<Flat, NoMemory>
    requires ranks { AreRanks (graph_of defs.now) ranks.now }
    requires size { length flats.now ≡ length defs.now }
    requires known { AllKnownParts defs.now flats.now (alternatives_in def.now) }
    ensures { IfOk result (λ flat. IsFlattened defs.now (alternatives_in def.now) flat) }
{
    match &def.body {
        SyntaxBody::Alias(_) => flatten(alloc, defs, ranks, flats, &[]),
        SyntaxBody::Variant(parts) => flatten(alloc, defs, ranks, flats, parts.as_slice()),
        SyntaxBody::Fields(_) => flatten(alloc, defs, ranks, flats, &[]),
    }
}

/// Adds the cases of the definitions of the next rank to those of ranks up to this one.
fn fill_rank(
    alloc: Global,
    defs: &Definitions,
    ranks: &[usize],
    rows: &[Row<usize>],
    rank: usize,
    flats: &mut Vec<Flat>,
) -> Result<(), NoMemory>
    requires ranks { AreRanks (graph_of defs.now) ranks.now }
    requires rows { AreRows ranks.now rows.now }
    requires flats { AreFlats defs.now ranks.now rank flats.old.items }
    requires within { rank < length defs.now }
    ensures { OnOk result (AreFlats defs.now ranks.now (suc rank) flats.new.items) }
{
    let row = rows[rank].as_slice();
    for position in row {
        let flat = flat_of_body(alloc, defs, ranks, flats, defs.nth(*position))?;
        flats[*position] = flat;
    }
    Ok(())
}

/// Adds the cases of the definitions that do not end, as far as they go.
fn fill_rest(
    alloc: Global,
    defs: &Definitions,
    ranks: &[usize],
    flats: &mut Vec<Flat>,
) -> Result<(), NoMemory>
    requires ranks { AreRanks (graph_of defs.now) ranks.now }
    requires flats { AreFlats defs.now ranks.now (length defs.now) flats.old.items }
    ensures right { OnOk result (AreFlats defs.now ranks.now (length defs.now) flats.new.items) }
    ensures reached { OnOk result (AllReached defs.now flats.new.items) }
{
    for i in 0..defs.len() {
        if ranks[i] == 0 {
            let flat = flat_of_body(alloc, defs, ranks, flats, defs.nth(i))?;
            flats[i] = flat;
        }
    }
    Ok(())
}

/// The cases of all definitions, as far as they end and have different keys.
pub(crate) fn flats_of(
    alloc: Global,
    defs: &Definitions,
    ranks: &[usize],
) -> Result<Row<Flat>, NoMemory>
    requires ranks { AreRanks (graph_of defs.now) ranks.now }
    ensures right { IfOk result (λ flats. AreFlats defs.now ranks.now (length defs.now) flats) }
    ensures reached { IfOk result (λ flats. AllReached defs.now flats) }
{
    let rows = rows_of(alloc, ranks)?;
    let mut flats = empty_flats(alloc, defs.len())?;
    for rank in 0..defs.len() {
        fill_rank(alloc, defs, ranks, rows.as_slice(), rank, &mut flats)?;
    }
    fill_rest(alloc, defs, ranks, &mut flats)?;
    Ok(Row::from_vec(flats))
}
