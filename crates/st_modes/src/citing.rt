//! The functions and relations that rules and clauses cite.

ghost use Rattle.std.specs.Prelude.{◌≡◌, ◌++◌, map, OnOk};
ghost use Rattle.st_il.specs.Names.{flattened};
ghost use Rattle.st_semantics.specs.Iterations.{count_of};
ghost use Rattle.st_semantics.specs.Variables.{called, called_in, prem_called, relations_cited};
ghost use Rattle.st_order.specs.inner.Index.{names_in};
ghost use Rattle.st_order.specs.inner.Parts.{called_count, called_item, called_segment};
ghost use Rattle.st_modes.specs.inner.Citing.{functions_in_rule, functions_in_clause};

use st_il::{ClauseDef, IlExp, IlPrem, Iteration, ListItem, PathSeg, RuleDef};
use st_num::{Name, NoMemory, Row};

/// Adds the functions that stand in an expression.
#[cycle(called)]
pub(crate) fn push_called<'a>(exp: &'a IlExp, names: &mut Row<&'a Name>) -> Result<(), NoMemory>
    ensures { OnOk result (names_in names.new ≡ names_in names.old ++ called exp.now) }
{
    match exp {
        IlExp::Bool(_) | IlExp::Number(_) | IlExp::Text(_) | IlExp::Var(_) => Ok(()),
        IlExp::Empty(_) | IlExp::Absent(_) => Ok(()),
        IlExp::Not(x) | IlExp::Neg(x) | IlExp::Present(x) => push_called(x.get(), names),
        IlExp::Len(x) | IlExp::Dot(x, _) | IlExp::Up(_, x) => push_called(x.get(), names),
        IlExp::And(x, y)
        | IlExp::Or(x, y)
        | IlExp::Imp(x, y)
        | IlExp::Iff(x, y)
        | IlExp::Add(_, x, y)
        | IlExp::Sub(_, x, y)
        | IlExp::Mul(_, x, y)
        | IlExp::Div(_, x, y)
        | IlExp::Rem(_, x, y)
        | IlExp::Pow(_, x, y)
        | IlExp::Eq(x, y)
        | IlExp::Ne(x, y)
        | IlExp::Lt(x, y)
        | IlExp::Gt(x, y)
        | IlExp::Le(x, y)
        | IlExp::Ge(x, y)
        | IlExp::Member(x, y)
        | IlExp::At(x, y)
        | IlExp::Cat(x, y)
        | IlExp::Join(x, y) => {
            push_called(x.get(), names)?;
            push_called(y.get(), names)
        }
        IlExp::Case(_, _, parts) | IlExp::Fields(_, parts) => {
            push_all_called(parts.as_slice(), names)
        }
        IlExp::Tuple(parts) => push_all_called(parts.as_slice(), names),
        IlExp::Call(name, parts) => {
            names.push(name)?;
            push_all_called(parts.as_slice(), names)
        }
        IlExp::List(_, items) => push_item_called(items.as_slice(), names),
        IlExp::Set(x, path, y) | IlExp::Extend(x, path, y) => {
            push_called(x.get(), names)?;
            push_path_called(path.as_slice(), names)?;
            push_called(y.get(), names)?;
            Ok(())
        }
        IlExp::Slice(x, y, z) => {
            push_called(x.get(), names)?;
            push_called(y.get(), names)?;
            push_called(z.get(), names)
        }
        IlExp::Iter(how, _, body) => {
            push_count_called(how, names)?;
            push_called(body.get(), names)
        }
    }
}

/// Adds the functions that stand in several expressions.
#[cycle(called)]
pub(crate) fn push_all_called<'a>(
    exps: &'a [IlExp],
    names: &mut Row<&'a Name>,
) -> Result<(), NoMemory>
    ensures { OnOk result
        (names_in names.new ≡ names_in names.old ++ flattened (map called exps.now)) }
{
    for exp in exps {
        push_called(exp, names)?;
    }
    Ok(())
}

/// Adds the functions that stand in the parts of a list.
#[cycle(called)]
fn push_item_called<'a>(items: &'a [ListItem], names: &mut Row<&'a Name>) -> Result<(), NoMemory>
    ensures { OnOk result
        (names_in names.new ≡ names_in names.old ++ flattened (map called_item items.now)) }
{
    for item in items {
        match item {
            ListItem::One(exp) | ListItem::All(exp) => push_called(exp, names)?,
        }
    }
    Ok(())
}

/// Adds the functions that stand in the steps of a path.
#[cycle(called)]
fn push_path_called<'a>(path: &'a [PathSeg], names: &mut Row<&'a Name>) -> Result<(), NoMemory>
    ensures { OnOk result
        (names_in names.new ≡ names_in names.old ++ flattened (map (λ s. flattened (called_segment s)) path.now)) }
{
    for segment in path {
        push_segment_called(segment, names)?;
    }
    Ok(())
}

/// Adds the functions that stand in a step of a path.
#[cycle(called)]
fn push_segment_called<'a>(segment: &'a PathSeg, names: &mut Row<&'a Name>) -> Result<(), NoMemory>
    ensures { OnOk result
        (names_in names.new ≡ names_in names.old ++ flattened (called_segment segment.now)) }
{
    match segment {
        PathSeg::Field(_) => Ok(()),
        PathSeg::At(x) => push_called(x, names),
        PathSeg::Slice(x, y) => {
            push_called(x, names)?;
            push_called(y, names)
        }
    }
}

/// Adds the functions that stand in the count of an iteration.
#[cycle(called)]
fn push_count_called<'a>(how: &'a Iteration, names: &mut Row<&'a Name>) -> Result<(), NoMemory>
    ensures { OnOk result (names_in names.new ≡ names_in names.old ++ (called_count how.now).count) }
{
    match how {
        Iteration::Star | Iteration::Plus | Iteration::Quest => Ok(()),
        Iteration::Times(x) | Iteration::Below(_, x) => push_called(x.get(), names),
    }
}

/// Adds the functions that stand in the count of an iteration that repeats a premise.
fn push_called_in_count<'a>(how: &'a Iteration, names: &mut Row<&'a Name>) -> Result<(), NoMemory>
    ensures { OnOk result
        (names_in names.new ≡ names_in names.old ++ called_in (count_of how.now)) }
{
    match how {
        Iteration::Star | Iteration::Plus | Iteration::Quest => Ok(()),
        Iteration::Times(x) | Iteration::Below(_, x) => push_called(x.get(), names),
    }
}

/// Adds the functions that stand in a premise.
fn push_prem_called<'a>(prem: &'a IlPrem, names: &mut Row<&'a Name>) -> Result<(), NoMemory>
    ensures { OnOk result (names_in names.new ≡ names_in names.old ++ prem_called prem.now) }
{
    match prem {
        IlPrem::If(exp) => push_called(exp, names),
        IlPrem::Goal(_, exps) => push_all_called(exps.as_slice(), names),
        IlPrem::Otherwise => Ok(()),
        IlPrem::Each(how, _, body) => {
            push_called_in_count(how, names)?;
            push_prem_called(body.get(), names)
        }
    }
}

/// Adds the functions that stand in several premises.
fn push_prems_called<'a>(prems: &'a [IlPrem], names: &mut Row<&'a Name>) -> Result<(), NoMemory>
    ensures { OnOk result
        (names_in names.new ≡ names_in names.old ++ flattened (map prem_called prems.now)) }
{
    for prem in prems {
        push_prem_called(prem, names)?;
    }
    Ok(())
}

/// Adds the functions that stand in a rule.
pub(crate) fn push_rule_functions<'a>(
    rule: &'a RuleDef,
    names: &mut Row<&'a Name>,
) -> Result<(), NoMemory>
    ensures { OnOk result
        (names_in names.new ≡ names_in names.old ++ functions_in_rule rule.now) }
{
    push_all_called(rule.conclusion.as_slice(), names)?;
    push_prems_called(rule.premises.as_slice(), names)
}

/// Adds the functions that stand in a clause.
pub(crate) fn push_clause_functions<'a>(
    clause: &'a ClauseDef,
    names: &mut Row<&'a Name>,
) -> Result<(), NoMemory>
    ensures { OnOk result
        (names_in names.new ≡ names_in names.old ++ functions_in_clause clause.now) }
{
    push_all_called(clause.args.as_slice(), names)?;
    push_called(&clause.result, names)?;
    push_prems_called(clause.premises.as_slice(), names)
}

/// Adds the relation that a premise cites, if it cites one.
fn push_prem_relations<'a>(prem: &'a IlPrem, names: &mut Row<&'a Name>) -> Result<(), NoMemory>
    ensures { OnOk result (names_in names.new ≡ names_in names.old ++ relations_cited prem.now) }
{
    match prem {
        IlPrem::If(_) | IlPrem::Otherwise => Ok(()),
        IlPrem::Goal(relation, _) => names.push(relation),
        IlPrem::Each(_, _, body) => push_prem_relations(body.get(), names),
    }
}

/// Adds the relations that several premises cite.
pub(crate) fn push_relations<'a>(
    prems: &'a [IlPrem],
    names: &mut Row<&'a Name>,
) -> Result<(), NoMemory>
    ensures { OnOk result
        (names_in names.new ≡ names_in names.old ++ flattened (map relations_cited prems.now)) }
{
    for prem in prems {
        push_prem_relations(prem, names)?;
    }
    Ok(())
}
