//! Whether two types are equal through aliases.

ghost use Rattle.std.specs.Prelude.{◌↔◌, IsTrue, IfOk, OnOk};
ghost use Rattle.st_il.specs.declared.ty.Ty.{out-Ty};
ghost use Rattle.st_type_table.specs.Same.{Same};
ghost use Rattle.st_type_table.specs.inner.Graph.{EndsAt};
ghost use Rattle.st_any_table.specs.inner.Pairs.{Grows, IsOneNode, PartsWait, TupleWaits, EqualWaits};
ghost use Rattle.st_any_table.specs.inner.Surveys.{IsSurvey};

use crate::heads::meaning_of;
use crate::pairs::{Pair, are_one, number_of, one_pair, types_at};
use crate::ranks::{Node, is_ranked, settle};
use crate::survey::Survey;
use st_il::Ty;
use st_num::{NoMemory, Row};
use std::alloc::Global;

/// The pair is waited for.
pub(crate) fn one_waits<'a>(
    alloc: Global,
    pairs: &mut Row<Pair<'a>>,
    left: &'a Ty,
    right: &'a Ty,
) -> Result<Node, NoMemory>
    ensures grows { OnOk result (Grows pairs.old pairs.new) }
    ensures node { IfOk result (λ node. IsOneNode pairs.new left.now right.now node) }
{
    let number = number_of(pairs, left, right)?;
    let mut numbers = Row::new(alloc);
    numbers.push(number)?;
    Ok(Some(numbers))
}

/// What tuples of these parts wait for before they are equal.
fn tuple_waits<'a>(
    alloc: Global,
    pairs: &mut Row<Pair<'a>>,
    ones: &'a [Ty],
    others: &'a [Ty],
) -> Result<Node, NoMemory>
    ensures grows { OnOk result (Grows pairs.old pairs.new) }
    ensures node { IfOk result (λ node. TupleWaits pairs.new ones.now others.now node) }
{
    if ones.len() != others.len() {
        return Ok(None);
    }
    let mut numbers = Row::new(alloc);
    for i in 0..ones.len() {
        let number = number_of(pairs, &ones[i], &others[i])?;
        numbers.push(number)?;
    }
    Ok(Some(numbers))
}

/// What two meanings that are not one wait for before they are equal.
fn parts_wait<'a>(
    alloc: Global,
    pairs: &mut Row<Pair<'a>>,
    one: &'a Ty,
    other: &'a Ty,
) -> Result<Node, NoMemory>
    ensures grows { OnOk result (Grows pairs.old pairs.new) }
    ensures node { IfOk result
        (λ node. PartsWait pairs.new (out-Ty one.now) (out-Ty other.now) node) }
{
    match (one, other) {
        (Ty::List(one), Ty::List(other)) => {
            let node = one_waits(alloc, pairs, one.get(), other.get())?;
            Ok(node)
        }
        (Ty::Opt(one), Ty::Opt(other)) => {
            let node = one_waits(alloc, pairs, one.get(), other.get())?;
            Ok(node)
        }
        (Ty::Tuple(ones), Ty::Tuple(others)) => {
            let node = tuple_waits(alloc, pairs, ones.as_slice(), others.as_slice())?;
            Ok(node)
        }
        _ => Ok(None),
    }
}

/// What two types wait for before they are equal.
fn equal_waits<'a>(
    alloc: Global,
    survey: &'a Survey,
    pairs: &mut Row<Pair<'a>>,
    left: &'a Ty,
    right: &'a Ty,
) -> Result<Node, NoMemory>
    requires { IsSurvey survey.now }
    ensures grows { OnOk result (Grows pairs.old pairs.new) }
    ensures waits { IfOk result
        (λ node. EqualWaits survey.now.defs pairs.new left.now right.now node) }
{
    let heads = survey.heads.as_slice();
    match (
        meaning_of(&survey.defs, heads, left),
        meaning_of(&survey.defs, heads, right),
    ) {
        (Some(one), Some(other)) => {
            if are_one(one, other) {
                return Ok(Some(Row::new(alloc)));
            }
            let node = parts_wait(alloc, pairs, one, other)?;
            Ok(node)
        }
        _ => Ok(None),
    }
}

/// What each pair waits for that two types lead to before they are equal. The types are the first
/// pair.
fn equal_graph<'a>(
    alloc: Global,
    survey: &'a Survey,
    left: &'a Ty,
    right: &'a Ty,
) -> Result<Row<Node>, NoMemory>
    requires { IsSurvey survey.now }
    ensures { IfOk result (λ graph. EndsAt graph 0 ↔ Same survey.now.defs left.now right.now) }
{
    let mut pairs = one_pair(alloc, left, right)?;
    let mut graph = Row::new(alloc);
    for at in 0..usize::MAX {
        if at >= pairs.len() {
            return Ok(graph);
        }
        let (left, right) = types_at(&pairs, at);
        let node = equal_waits(alloc, survey, &mut pairs, left, right)?;
        graph.push(node)?;
    }
    Err(NoMemory)
}

/// Whether the types are equal through aliases.
pub(crate) fn are_equal(
    alloc: Global,
    survey: &Survey,
    left: &Ty,
    right: &Ty,
) -> Result<bool, NoMemory>
    requires { IsSurvey survey.now }
    ensures { IfOk result (λ yes. IsTrue yes ↔ Same survey.now.defs left.now right.now) }
{
    let graph = equal_graph(alloc, survey, left, right)?;
    let ranks = settle(alloc, graph.as_slice())?;
    Ok(is_ranked(ranks.as_slice(), 0))
}
