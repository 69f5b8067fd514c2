//! The variables of expressions and premises.

ghost use Rattle.std.specs.Prelude.{◌≡◌, ◌++◌, [], ◌∷◌, map, OnOk};
ghost use Rattle.st_il.specs.Names.{flattened, has_name, without};
ghost use Rattle.st_semantics.specs.Iterations.{count_of, index_of};
ghost use Rattle.st_semantics.specs.Variables.{vars, vars_of, prem_vars, prems_vars};
ghost use Rattle.st_order.specs.inner.Index.{names_in};
ghost use Rattle.st_order.specs.inner.Parts.{counted, item_vars, segment_vars, exps_in};

use st_il::{IlExp, IlPrem, Iteration, ListItem, PathSeg};
use st_num::{Name, NoMemory, Row};
use std::alloc::Global;

/// Adds names.
pub fn push_names<'a>(list: &'a [Name], names: &mut Row<&'a Name>) -> Result<(), NoMemory>
    ensures { OnOk result (names_in names.new ≡ names_in names.old ++ list.now) }
{
    for name in list {
        names.push(name)?;
    }
    Ok(())
}

/// Adds names that are referred to.
pub(crate) fn push_refs<'a>(list: &[&'a Name], names: &mut Row<&'a Name>) -> Result<(), NoMemory>
    ensures { OnOk result (names_in names.new ≡ names_in names.old ++ names_in list.now) }
{
    for name in list {
        names.push(*name)?;
    }
    Ok(())
}

/// Adds the index of an iteration, if it has one.
pub(crate) fn push_index<'a>(how: &'a Iteration, names: &mut Row<&'a Name>) -> Result<(), NoMemory>
    ensures { OnOk result (names_in names.new ≡ names_in names.old ++ index_of how.now) }
{
    match how {
        Iteration::Star | Iteration::Plus | Iteration::Quest | Iteration::Times(_) => Ok(()),
        Iteration::Below(index, _) => names.push(index),
    }
}

/// Whether the name is the index of the iteration.
fn is_index(how: &Iteration, name: &Name) -> bool
    ensures { result ≡ has_name (index_of how.now) name.now }
{
    match how {
        Iteration::Star | Iteration::Plus | Iteration::Quest | Iteration::Times(_) => false,
        Iteration::Below(index, _) => *name == *index,
    }
}

/// Adds a name, unless it is the index of the iteration.
fn push_other<'a>(
    how: &Iteration,
    name: &'a Name,
    names: &mut Row<&'a Name>,
) -> Result<(), NoMemory>
    ensures { OnOk result
        (names_in names.new ≡ names_in names.old ++ without (index_of how.now) (name.now ∷ [])) }
{
    if !is_index(how, name) {
        names.push(name)?;
    }
    Ok(())
}

/// Adds the names but for the index of the iteration.
pub(crate) fn push_others<'a>(
    how: &Iteration,
    list: &[&'a Name],
    names: &mut Row<&'a Name>,
) -> Result<(), NoMemory>
    ensures { OnOk result (names_in names.new
        ≡ names_in names.old ++ without (index_of how.now) (names_in list.now)) }
{
    for name in list {
        push_other(how, *name, names)?;
    }
    Ok(())
}

/// Adds the variables of an expression, and the listed names of its iterations.
#[cycle(variables)]
pub(crate) fn push_vars<'a>(
    alloc: Global,
    exp: &'a IlExp,
    names: &mut Row<&'a Name>,
) -> Result<(), NoMemory>
    ensures { OnOk result (names_in names.new ≡ names_in names.old ++ vars exp.now) }
{
    match exp {
        IlExp::Bool(_) | IlExp::Number(_) | IlExp::Text(_) => Ok(()),
        IlExp::Empty(_) | IlExp::Absent(_) => Ok(()),
        IlExp::Var(name) => names.push(name),
        IlExp::Not(x) | IlExp::Neg(x) | IlExp::Present(x) => push_vars(alloc, x.get(), names),
        IlExp::Len(x) | IlExp::Dot(x, _) | IlExp::Up(_, x) => push_vars(alloc, x.get(), names),
        IlExp::And(x, y)
        | IlExp::Or(x, y)
        | IlExp::Imp(x, y)
        | IlExp::Iff(x, y)
        | IlExp::Add(_, x, y)
        | IlExp::Sub(_, x, y)
        | IlExp::Mul(_, x, y)
        | IlExp::Div(_, x, y)
        | IlExp::Rem(_, x, y)
        | IlExp::Pow(_, x, y)
        | IlExp::Eq(x, y)
        | IlExp::Ne(x, y)
        | IlExp::Lt(x, y)
        | IlExp::Gt(x, y)
        | IlExp::Le(x, y)
        | IlExp::Ge(x, y)
        | IlExp::Member(x, y)
        | IlExp::At(x, y)
        | IlExp::Cat(x, y)
        | IlExp::Join(x, y) => {
            push_vars(alloc, x.get(), names)?;
            push_vars(alloc, y.get(), names)
        }
        IlExp::Case(_, _, parts) | IlExp::Fields(_, parts) => {
            push_all_vars(alloc, parts.as_slice(), names)
        }
        IlExp::Tuple(parts) | IlExp::Call(_, parts) => {
            push_all_vars(alloc, parts.as_slice(), names)
        }
        IlExp::List(_, items) => push_item_vars(alloc, items.as_slice(), names),
        IlExp::Set(x, path, y) | IlExp::Extend(x, path, y) => {
            push_vars(alloc, x.get(), names)?;
            push_path_vars(alloc, path.as_slice(), names)?;
            push_vars(alloc, y.get(), names)?;
            Ok(())
        }
        IlExp::Slice(x, y, z) => {
            push_vars(alloc, x.get(), names)?;
            push_vars(alloc, y.get(), names)?;
            push_vars(alloc, z.get(), names)
        }
        IlExp::Iter(how, list, body) => {
            push_count_vars(alloc, how, names)?;
            push_names(list.as_slice(), names)?;
            let mut inner = Row::new(alloc);
            push_vars(alloc, body.get(), &mut inner)?;
            push_others(how, inner.as_slice(), names)
        }
    }
}

/// Adds the variables of several expressions.
#[cycle(variables)]
pub fn push_all_vars<'a>(
    alloc: Global,
    exps: &'a [IlExp],
    names: &mut Row<&'a Name>,
) -> Result<(), NoMemory>
    ensures { OnOk result (names_in names.new ≡ names_in names.old ++ flattened (map vars exps.now)) }
{
    for exp in exps {
        push_vars(alloc, exp, names)?;
    }
    Ok(())
}

/// Adds the variables of the parts of a list.
#[cycle(variables)]
fn push_item_vars<'a>(
    alloc: Global,
    items: &'a [ListItem],
    names: &mut Row<&'a Name>,
) -> Result<(), NoMemory>
    ensures { OnOk result
        (names_in names.new ≡ names_in names.old ++ flattened (map item_vars items.now)) }
{
    for item in items {
        match item {
            ListItem::One(exp) | ListItem::All(exp) => push_vars(alloc, exp, names)?,
        }
    }
    Ok(())
}

/// Adds the variables of the steps of a path.
#[cycle(variables)]
fn push_path_vars<'a>(
    alloc: Global,
    path: &'a [PathSeg],
    names: &mut Row<&'a Name>,
) -> Result<(), NoMemory>
    ensures { OnOk result
        (names_in names.new ≡ names_in names.old ++ flattened (map (λ s. flattened (segment_vars s)) path.now)) }
{
    for segment in path {
        push_segment_vars(alloc, segment, names)?;
    }
    Ok(())
}

/// Adds the variables of a step of a path.
#[cycle(variables)]
fn push_segment_vars<'a>(
    alloc: Global,
    segment: &'a PathSeg,
    names: &mut Row<&'a Name>,
) -> Result<(), NoMemory>
    ensures { OnOk result
        (names_in names.new ≡ names_in names.old ++ flattened (segment_vars segment.now)) }
{
    match segment {
        PathSeg::Field(_) => Ok(()),
        PathSeg::At(x) => push_vars(alloc, x, names),
        PathSeg::Slice(x, y) => {
            push_vars(alloc, x, names)?;
            push_vars(alloc, y, names)
        }
    }
}

/// Adds the variables of the count of an iteration.
#[cycle(variables)]
fn push_count_vars<'a>(
    alloc: Global,
    how: &'a Iteration,
    names: &mut Row<&'a Name>,
) -> Result<(), NoMemory>
    ensures { OnOk result (names_in names.new ≡ names_in names.old ++ (counted how.now).count) }
{
    match how {
        Iteration::Star | Iteration::Plus | Iteration::Quest => Ok(()),
        Iteration::Times(x) | Iteration::Below(_, x) => push_vars(alloc, x.get(), names),
    }
}

/// Adds the variables of several expressions.
pub fn push_vars_of<'a>(
    alloc: Global,
    exps: &[&'a IlExp],
    names: &mut Row<&'a Name>,
) -> Result<(), NoMemory>
    ensures { OnOk result
        (names_in names.new ≡ names_in names.old ++ vars_of (exps_in exps.now)) }
{
    for exp in exps {
        push_vars(alloc, *exp, names)?;
    }
    Ok(())
}

/// Adds the variables of the count of an iteration that repeats a premise.
fn push_vars_of_count<'a>(
    alloc: Global,
    how: &'a Iteration,
    names: &mut Row<&'a Name>,
) -> Result<(), NoMemory>
    ensures { OnOk result
        (names_in names.new ≡ names_in names.old ++ vars_of (count_of how.now)) }
{
    match how {
        Iteration::Star | Iteration::Plus | Iteration::Quest => Ok(()),
        Iteration::Times(x) | Iteration::Below(_, x) => push_vars(alloc, x.get(), names),
    }
}

/// Adds the variables of a premise, and the listed names of its iterations.
pub fn push_prem_vars<'a>(
    alloc: Global,
    prem: &'a IlPrem,
    names: &mut Row<&'a Name>,
) -> Result<(), NoMemory>
    ensures { OnOk result (names_in names.new ≡ names_in names.old ++ prem_vars prem.now) }
{
    match prem {
        IlPrem::If(exp) => push_vars(alloc, exp, names),
        IlPrem::Goal(_, exps) => push_all_vars(alloc, exps.as_slice(), names),
        IlPrem::Otherwise => Ok(()),
        IlPrem::Each(how, list, body) => {
            push_vars_of_count(alloc, how, names)?;
            push_names(list.as_slice(), names)?;
            let mut inner = Row::new(alloc);
            push_prem_vars(alloc, body.get(), &mut inner)?;
            push_others(how, inner.as_slice(), names)
        }
    }
}

/// Adds the variables of several premises, and the listed names of their iterations.
pub fn push_prems_vars<'a>(
    alloc: Global,
    prems: &'a [IlPrem],
    names: &mut Row<&'a Name>,
) -> Result<(), NoMemory>
    ensures { OnOk result (names_in names.new ≡ names_in names.old ++ prems_vars prems.now) }
{
    for prem in prems {
        push_prem_vars(alloc, prem, names)?;
    }
    Ok(())
}
