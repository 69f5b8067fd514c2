//! The conditions on a definition: on its name, and on its parts.

ghost use Rattle.std.specs.Prelude.{◌≡◌, ◌<◌, None, length, IfOk};
ghost use Rattle.st_type_table.specs.Leads.{leads_to};
ghost use Rattle.st_type_table.specs.Breach.{Finds, FindsAt, AllHold, on_parts};
ghost use Rattle.st_type_table.specs.inner.Graph.{AreRanks, graph_of};
ghost use Rattle.st_type_table.specs.inner.Flat.{IsReached, alternatives_in};
ghost use Rattle.st_type_table.specs.inner.Survey.{IsSurvey};
ghost use Rattle.st_type_table.specs.inner.Checking.{Returns, AreReturning, IsFirst, CheckedAt, part_count};

use crate::check::{Found, check_alternatives, check_fields, check_whole_alias, whole};
use crate::definitions::Definitions;
use crate::search::leading_to;
use crate::survey::Survey;
use st_il::{SyntaxBody, SyntaxDef};
use st_num::{NoMemory, RuleId};
use std::alloc::Global;

/// The conditions on the parts of a body from one number up to another.
fn check_body(
    alloc: Global,
    defs: &Definitions,
    ranks: &[usize],
    numbers: &[usize],
    own: usize,
    reach: usize,
    def: &SyntaxDef,
    from: usize,
    to: usize,
) -> Result<Found, NoMemory>
    requires ranks { AreRanks (graph_of defs.now) ranks.now }
    requires numbers { Returns defs.now def.now.name numbers.now own (leads_to def.now.body) }
    requires reach { IsReached defs.now (alternatives_in def.now) reach }
    requires before { AllHold defs.now (on_parts def.now.name def.now.body 0 from) }
    ensures { IfOk result
        (λ found. Finds defs.now (on_parts def.now.name def.now.body from to) found) }
{
    match &def.body {
        SyntaxBody::Alias(ty) => {
            let found = check_whole_alias(alloc, defs, &def.name, numbers, own, ty, from, to)?;
            Ok(found)
        }
        SyntaxBody::Variant(parts) => {
            let parts = parts.as_slice();
            let name = &def.name;
            let found = check_alternatives(
                alloc, defs, ranks, name, numbers, own, reach, parts, from, to,
            )?;
            Ok(found)
        }
        SyntaxBody::Fields(fields) => {
            let found = check_fields(alloc, defs, fields.as_slice(), from, to)?;
            Ok(found)
        }
    }
}

/// The same of the definition at this position, where those of this number lead back to its name.
fn check_numbered(
    alloc: Global,
    defs: &Definitions,
    survey: &Survey,
    numbers: &[usize],
    own: usize,
    at: usize,
    from: usize,
    to: usize,
) -> Result<Found, NoMemory>
    requires survey { IsSurvey defs.now survey.now }
    requires numbers { AreReturning defs.now at numbers.now own }
    requires within { at < length defs.now }
    requires before { FindsAt defs.now at 0 from None }
    ensures { IfOk result (λ found. FindsAt defs.now at from to found) }
{
    let ranks = survey.ranks.as_slice();
    let reach = survey.flats.as_slice()[at].reach;
    let def = defs.nth(at);
    let found = check_body(alloc, defs, ranks, numbers, own, reach, def, from, to)?;
    Ok(found)
}

/// The same where no definition before this one has its name: what leads back is in its component.
fn check_first(
    alloc: Global,
    defs: &Definitions,
    survey: &Survey,
    at: usize,
    from: usize,
    to: usize,
) -> Result<Found, NoMemory>
    requires survey { IsSurvey defs.now survey.now }
    requires first { IsFirst defs.now at at }
    requires within { at < length defs.now }
    requires before { FindsAt defs.now at 0 from None }
    ensures { IfOk result (λ found. FindsAt defs.now at from to found) }
{
    let numbers = survey.numbers.as_slice();
    let own = numbers[at];
    let found = check_numbered(alloc, defs, survey, numbers, own, at, from, to)?;
    Ok(found)
}

/// The same where an earlier definition has the name: what leads to that one leads back.
fn check_again(
    alloc: Global,
    defs: &Definitions,
    survey: &Survey,
    first: usize,
    at: usize,
    from: usize,
    to: usize,
) -> Result<Found, NoMemory>
    requires survey { IsSurvey defs.now survey.now }
    requires first { IsFirst defs.now at first }
    requires within { at < length defs.now }
    requires before { FindsAt defs.now at 0 from None }
    ensures { IfOk result (λ found. FindsAt defs.now at from to found) }
{
    let numbers = leading_to(alloc, survey.graph.as_slice(), first)?;
    let found = check_numbered(alloc, defs, survey, numbers.as_slice(), 1, at, from, to)?;
    Ok(found)
}

/// The conditions on the parts of a definition from one number up to another.
pub(crate) fn check_parts(
    alloc: Global,
    defs: &Definitions,
    survey: &Survey,
    at: usize,
    from: usize,
    to: usize,
) -> Result<Found, NoMemory>
    requires survey { IsSurvey defs.now survey.now }
    requires within { at < length defs.now }
    requires before { FindsAt defs.now at 0 from None }
    ensures { IfOk result (λ found. FindsAt defs.now at from to found) }
{
    let def = defs.nth(at);
    match defs.position_before(at, &def.name) {
        Some(first) => {
            let found = check_again(alloc, defs, survey, first, at, from, to)?;
            Ok(found)
        }
        None => {
            let found = check_first(alloc, defs, survey, at, from, to)?;
            Ok(found)
        }
    }
}

/// How many parts a body has.
fn part_count(body: &SyntaxBody) -> usize
    ensures { result ≡ part_count body.now }
{
    match body {
        SyntaxBody::Alias(_) => 1,
        SyntaxBody::Variant(parts) => parts.len(),
        SyntaxBody::Fields(fields) => fields.len(),
    }
}

/// The conditions on a definition.
pub(crate) fn check_def(
    alloc: Global,
    defs: &Definitions,
    survey: &Survey,
    at: usize,
) -> Result<Found, NoMemory>
    requires survey { IsSurvey defs.now survey.now }
    requires within { at < length defs.now }
    ensures { IfOk result (λ found. CheckedAt defs.now at found) }
{
    let def = defs.nth(at);
    match defs.position_before(at, &def.name) {
        Some(_) => return Ok(Some(whole(0, RuleId::B1))),
        None => {}
    }
    let count = part_count(&def.body);
    let found = check_parts(alloc, defs, survey, at, 0, count)?;
    Ok(found)
}
