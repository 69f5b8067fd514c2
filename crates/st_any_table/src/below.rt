//! Whether one type is a subtype of another.

ghost use Rattle.std.specs.Prelude.{◌↔◌, IsTrue, IfOk, OnOk, slice_get};
ghost use Rattle.st_il.specs.declared.ty.Ty.{out-Ty};
ghost use Rattle.st_il.specs.declared.ty.Ty.TheVariants as ty;
ghost use Rattle.st_type_table.specs.Meaning.{Means};
ghost use Rattle.st_type_table.specs.Same.{SameAll};
ghost use Rattle.st_type_table.specs.Sub.{Sub, StandsIn, IsContained};
ghost use Rattle.st_type_table.specs.inner.Graph.{EndsAt};
ghost use Rattle.st_any_table.specs.inner.Flats.{one_case, cases_at};
ghost use Rattle.st_any_table.specs.inner.Pairs.{Grows, AreNumbers, EachStandsIn, ElementsWait, BelowHere, BelowWaits};
ghost use Rattle.st_any_table.specs.inner.Surveys.{IsSurvey};

use crate::equal::{are_equal, one_waits};
use crate::flats::{first_operands, flat_of_type};
use crate::heads::meaning_of;
use crate::pairs::{Pair, one_pair, types_at};
use crate::ranks::{Node, is_ranked, settle};
use crate::survey::Survey;
use st_il::Ty;
use st_num::{NoMemory, Row};
use st_type_table::CaseDef;
use std::alloc::Global;

/// Whether the types are equal through aliases, one by one.
fn are_same(alloc: Global, survey: &Survey, ones: &[Ty], others: &[Ty]) -> Result<bool, NoMemory>
    requires { IsSurvey survey.now }
    ensures { IfOk result (λ yes. IsTrue yes ↔ SameAll survey.now.defs ones.now others.now) }
{
    if ones.len() != others.len() {
        return Ok(false);
    }
    for i in 0..ones.len() {
        let equal = are_equal(alloc, survey, &ones[i], &others[i])?;
        if !equal {
            return Ok(false);
        }
    }
    Ok(true)
}

/// Whether the case stands among those of these numbers, with equal operand types.
fn stands_in(
    alloc: Global,
    survey: &Survey,
    case: &CaseDef,
    numbers: &[usize],
) -> Result<bool, NoMemory>
    requires { IsSurvey survey.now }
    ensures { IfOk result (λ yes. IsTrue yes
        ↔ StandsIn survey.now.defs case.now (cases_at survey.now.cases numbers.now)) }
{
    match first_operands(survey.cases.as_slice(), numbers, &case.tag) {
        Some(operands) => {
            let own = case.operands.as_slice();
            let equal = are_same(alloc, survey, own, operands.as_slice())?;
            Ok(equal)
        }
        None => Ok(false),
    }
}

/// Whether the case of this number stands among those of the others, where there is one.
fn number_stands_in(
    alloc: Global,
    survey: &Survey,
    number: usize,
    upper: &[usize],
) -> Result<bool, NoMemory>
    requires { IsSurvey survey.now }
    ensures { IfOk result (λ yes. IsTrue yes
        ↔ EachStandsIn survey.now.defs (one_case (slice_get survey.now.cases number))
        (cases_at survey.now.cases upper.now)) }
{
    match survey.cases.get(number) {
        Some(case) => {
            let stands = stands_in(alloc, survey, case, upper)?;
            Ok(stands)
        }
        None => Ok(true),
    }
}

/// Whether each case of the first numbers stands among those of the others.
fn all_stand_in(
    alloc: Global,
    survey: &Survey,
    lower: &[usize],
    upper: &[usize],
) -> Result<bool, NoMemory>
    requires { IsSurvey survey.now }
    ensures { IfOk result (λ yes. IsTrue yes
        ↔ EachStandsIn survey.now.defs (cases_at survey.now.cases lower.now)
        (cases_at survey.now.cases upper.now)) }
{
    for number in lower {
        let stands = number_stands_in(alloc, survey, *number, upper)?;
        if !stands {
            return Ok(false);
        }
    }
    Ok(true)
}

/// Whether both types are variants, and each case of the first stands in the second.
fn is_contained(alloc: Global, survey: &Survey, left: &Ty, right: &Ty) -> Result<bool, NoMemory>
    requires { IsSurvey survey.now }
    ensures { IfOk result (λ yes. IsTrue yes ↔ IsContained survey.now.defs left.now right.now) }
{
    let heads = survey.heads.as_slice();
    let flats = survey.flats.as_slice();
    match (
        flat_of_type(&survey.defs, heads, flats, left),
        flat_of_type(&survey.defs, heads, flats, right),
    ) {
        (Some(lower), Some(upper)) => {
            let stand = all_stand_in(alloc, survey, lower.as_slice(), upper.as_slice())?;
            Ok(stand)
        }
        _ => Ok(false),
    }
}

/// Whether the first meaning is the natural numbers and the second the integers.
fn are_numbers(one: &Ty, other: &Ty) -> bool
    ensures { IsTrue result ↔ AreNumbers (out-Ty one.now) (out-Ty other.now) }
{
    match (one, other) {
        (Ty::Nat, Ty::Int) => true,
        _ => false,
    }
}

/// Whether the first type means the natural numbers and the second the integers.
fn mean_numbers(survey: &Survey, left: &Ty, right: &Ty) -> bool
    requires { IsSurvey survey.now }
    ensures { IsTrue result
        ↔ (Means survey.now.defs left.now ty.Nat × Means survey.now.defs right.now ty.Int) }
{
    let heads = survey.heads.as_slice();
    match (
        meaning_of(&survey.defs, heads, left),
        meaning_of(&survey.defs, heads, right),
    ) {
        (Some(one), Some(other)) => are_numbers(one, other),
        _ => false,
    }
}

/// Whether the first type is below the second, and not by elements.
fn is_below_here(alloc: Global, survey: &Survey, left: &Ty, right: &Ty) -> Result<bool, NoMemory>
    requires { IsSurvey survey.now }
    ensures { IfOk result (λ yes. IsTrue yes ↔ BelowHere survey.now.defs left.now right.now) }
{
    let equal = are_equal(alloc, survey, left, right)?;
    if equal {
        return Ok(true);
    }
    if mean_numbers(survey, left, right) {
        return Ok(true);
    }
    let contained = is_contained(alloc, survey, left, right)?;
    Ok(contained)
}

/// What two meanings wait for before the first is below the second by its elements.
fn elements_wait<'a>(
    alloc: Global,
    pairs: &mut Row<Pair<'a>>,
    one: &'a Ty,
    other: &'a Ty,
) -> Result<Node, NoMemory>
    ensures grows { OnOk result (Grows pairs.old pairs.new) }
    ensures node { IfOk result
        (λ node. ElementsWait pairs.new (out-Ty one.now) (out-Ty other.now) node) }
{
    match (one, other) {
        (Ty::List(one), Ty::List(other)) => {
            let node = one_waits(alloc, pairs, one.get(), other.get())?;
            Ok(node)
        }
        (Ty::Opt(one), Ty::Opt(other)) => {
            let node = one_waits(alloc, pairs, one.get(), other.get())?;
            Ok(node)
        }
        _ => Ok(None),
    }
}

/// What two types wait for before the first is below the second.
fn below_waits<'a>(
    alloc: Global,
    survey: &'a Survey,
    pairs: &mut Row<Pair<'a>>,
    left: &'a Ty,
    right: &'a Ty,
) -> Result<Node, NoMemory>
    requires { IsSurvey survey.now }
    ensures grows { OnOk result (Grows pairs.old pairs.new) }
    ensures waits { IfOk result
        (λ node. BelowWaits survey.now.defs pairs.new left.now right.now node) }
{
    let here = is_below_here(alloc, survey, left, right)?;
    if here {
        return Ok(Some(Row::new(alloc)));
    }
    let heads = survey.heads.as_slice();
    match (
        meaning_of(&survey.defs, heads, left),
        meaning_of(&survey.defs, heads, right),
    ) {
        (Some(one), Some(other)) => {
            let node = elements_wait(alloc, pairs, one, other)?;
            Ok(node)
        }
        _ => Ok(None),
    }
}

/// What each pair waits for that two types lead to before the first is below the second. The types
/// are the first pair.
fn below_graph<'a>(
    alloc: Global,
    survey: &'a Survey,
    left: &'a Ty,
    right: &'a Ty,
) -> Result<Row<Node>, NoMemory>
    requires { IsSurvey survey.now }
    ensures { IfOk result (λ graph. EndsAt graph 0 ↔ Sub survey.now.defs left.now right.now) }
{
    let mut pairs = one_pair(alloc, left, right)?;
    let mut graph = Row::new(alloc);
    for at in 0..usize::MAX {
        if at >= pairs.len() {
            return Ok(graph);
        }
        let (left, right) = types_at(&pairs, at);
        let node = below_waits(alloc, survey, &mut pairs, left, right)?;
        graph.push(node)?;
    }
    Err(NoMemory)
}

/// Whether the first type is a subtype of the second.
pub(crate) fn is_below(
    alloc: Global,
    survey: &Survey,
    left: &Ty,
    right: &Ty,
) -> Result<bool, NoMemory>
    requires { IsSurvey survey.now }
    ensures { IfOk result (λ yes. IsTrue yes ↔ Sub survey.now.defs left.now right.now) }
{
    let graph = below_graph(alloc, survey, left, right)?;
    let ranks = settle(alloc, graph.as_slice())?;
    Ok(is_ranked(ranks.as_slice(), 0))
}
