//! The variables that patterns bind.

ghost use Rattle.std.specs.Prelude.{◌≡◌, ◌++◌, [], ◌∷◌, map, OnOk};
ghost use Rattle.st_il.specs.Names.{flattened, among, without};
ghost use Rattle.st_semantics.specs.Iterations.{index_of};
ghost use Rattle.st_semantics.specs.Patterns.{binds, bound_by};
ghost use Rattle.st_order.specs.inner.Index.{names_in};
ghost use Rattle.st_order.specs.inner.Parts.{exps_in, names_bound, bound_in, bound_count, bound_item, bound_segment};

use crate::index::{push_known, set_of};
use crate::variables::{push_names, push_others};
use st_il::{IlExp, Iteration, ListItem, PathSeg};
use st_num::{Name, NoMemory, Row};
use st_semantics::is_pattern;
use std::alloc::Global;

/// Adds the name of a variable; any other expression has none of its own.
fn push_own<'a>(exp: &'a IlExp, names: &mut Row<&'a Name>) -> Result<(), NoMemory>
    ensures { OnOk result (names_in names.new ≡ names_in names.old ++ (bound_in exp.now).own) }
{
    match exp {
        IlExp::Var(name) => names.push(name),
        _ => Ok(()),
    }
}

/// Adds the count of an iteration, where it is a variable.
fn push_own_count<'a>(how: &'a Iteration, names: &mut Row<&'a Name>) -> Result<(), NoMemory>
    ensures { OnOk result (names_in names.new ≡ names_in names.old ++ (bound_count how.now).own) }
{
    match how {
        Iteration::Star | Iteration::Plus | Iteration::Quest => Ok(()),
        Iteration::Times(count) | Iteration::Below(_, count) => push_own(count.get(), names),
    }
}

/// Adds those of the names that an iteration iterates and that are not its index.
fn push_iterated<'a>(
    alloc: Global,
    how: &Iteration,
    list: &[Name],
    inner: &[&'a Name],
    names: &mut Row<&'a Name>,
) -> Result<(), NoMemory>
    ensures { OnOk result (names_in names.new
        ≡ names_in names.old ++ among list.now (without (index_of how.now) (names_in inner.now))) }
{
    let mut others = Row::new(alloc);
    push_others(how, inner, &mut others)?;
    let mut listed = Row::new(alloc);
    push_names(list, &mut listed)?;
    let listed = set_of(alloc, listed.as_slice())?;
    push_known(&listed, others.as_slice(), names)?;
    Ok(())
}

/// Adds the variables that an expression binds as a pattern.
#[cycle(bindings)]
pub(crate) fn push_bound<'a>(
    alloc: Global,
    exp: &'a IlExp,
    names: &mut Row<&'a Name>,
) -> Result<(), NoMemory>
    ensures { OnOk result (names_in names.new ≡ names_in names.old ++ binds exp.now) }
{
    match exp {
        IlExp::Bool(_) | IlExp::Number(_) | IlExp::Text(_) => Ok(()),
        IlExp::Empty(_) | IlExp::Absent(_) => Ok(()),
        IlExp::Var(name) => names.push(name),
        IlExp::Not(x) | IlExp::Neg(x) | IlExp::Present(x) => push_bound(alloc, x.get(), names),
        IlExp::Len(x) | IlExp::Dot(x, _) | IlExp::Up(_, x) => push_bound(alloc, x.get(), names),
        IlExp::And(x, y)
        | IlExp::Or(x, y)
        | IlExp::Imp(x, y)
        | IlExp::Iff(x, y)
        | IlExp::Add(_, x, y)
        | IlExp::Sub(_, x, y)
        | IlExp::Mul(_, x, y)
        | IlExp::Div(_, x, y)
        | IlExp::Rem(_, x, y)
        | IlExp::Pow(_, x, y)
        | IlExp::Eq(x, y)
        | IlExp::Ne(x, y)
        | IlExp::Lt(x, y)
        | IlExp::Gt(x, y)
        | IlExp::Le(x, y)
        | IlExp::Ge(x, y)
        | IlExp::Member(x, y)
        | IlExp::At(x, y)
        | IlExp::Cat(x, y)
        | IlExp::Join(x, y) => {
            push_bound(alloc, x.get(), names)?;
            push_bound(alloc, y.get(), names)
        }
        IlExp::Case(_, _, parts) | IlExp::Fields(_, parts) => {
            push_all_bound(alloc, parts.as_slice(), names)
        }
        IlExp::Tuple(parts) | IlExp::Call(_, parts) => {
            push_all_bound(alloc, parts.as_slice(), names)
        }
        IlExp::List(_, items) => push_item_bound(alloc, items.as_slice(), names),
        IlExp::Set(x, path, y) | IlExp::Extend(x, path, y) => {
            push_bound(alloc, x.get(), names)?;
            push_path_bound(alloc, path.as_slice(), names)?;
            push_bound(alloc, y.get(), names)?;
            Ok(())
        }
        IlExp::Slice(x, y, z) => {
            push_bound(alloc, x.get(), names)?;
            push_bound(alloc, y.get(), names)?;
            push_bound(alloc, z.get(), names)
        }
        IlExp::Iter(how, list, body) => {
            push_own_count(how, names)?;
            let mut inner = Row::new(alloc);
            push_bound(alloc, body.get(), &mut inner)?;
            push_iterated(alloc, how, list.as_slice(), inner.as_slice(), names)
        }
    }
}

/// Adds the variables that several expressions bind.
#[cycle(bindings)]
pub fn push_all_bound<'a>(
    alloc: Global,
    exps: &'a [IlExp],
    names: &mut Row<&'a Name>,
) -> Result<(), NoMemory>
    ensures { OnOk result (names_in names.new ≡ names_in names.old ++ names_bound (map bound_in exps.now)) }
{
    for exp in exps {
        push_bound(alloc, exp, names)?;
    }
    Ok(())
}

/// Adds the variables that the parts of a list bind.
#[cycle(bindings)]
fn push_item_bound<'a>(
    alloc: Global,
    items: &'a [ListItem],
    names: &mut Row<&'a Name>,
) -> Result<(), NoMemory>
    ensures { OnOk result
        (names_in names.new ≡ names_in names.old ++ names_bound (map bound_item items.now)) }
{
    for item in items {
        match item {
            ListItem::One(exp) | ListItem::All(exp) => push_bound(alloc, exp, names)?,
        }
    }
    Ok(())
}

/// Adds the variables that the steps of a path bind.
#[cycle(bindings)]
fn push_path_bound<'a>(
    alloc: Global,
    path: &'a [PathSeg],
    names: &mut Row<&'a Name>,
) -> Result<(), NoMemory>
    ensures { OnOk result
        (names_in names.new ≡ names_in names.old ++ flattened (map (λ s. names_bound (bound_segment s)) path.now)) }
{
    for segment in path {
        push_segment_bound(alloc, segment, names)?;
    }
    Ok(())
}

/// Adds the variables that a step of a path binds.
#[cycle(bindings)]
fn push_segment_bound<'a>(
    alloc: Global,
    segment: &'a PathSeg,
    names: &mut Row<&'a Name>,
) -> Result<(), NoMemory>
    ensures { OnOk result
        (names_in names.new ≡ names_in names.old ++ names_bound (bound_segment segment.now)) }
{
    match segment {
        PathSeg::Field(_) => Ok(()),
        PathSeg::At(x) => push_bound(alloc, x, names),
        PathSeg::Slice(x, y) => {
            push_bound(alloc, x, names)?;
            push_bound(alloc, y, names)
        }
    }
}

/// Adds the variables that an expression binds, if it is a pattern.
fn push_if_pattern<'a>(
    alloc: Global,
    exp: &'a IlExp,
    names: &mut Row<&'a Name>,
) -> Result<(), NoMemory>
    ensures { OnOk result
        (names_in names.new ≡ names_in names.old ++ bound_by (exp.now ∷ [])) }
{
    if !is_pattern(exp) {
        return Ok(());
    }
    push_bound(alloc, exp, names)?;
    Ok(())
}

/// Adds the variables that those of some expressions bind that are patterns.
pub(crate) fn push_bound_by<'a>(
    alloc: Global,
    exps: &[&'a IlExp],
    names: &mut Row<&'a Name>,
) -> Result<(), NoMemory>
    ensures { OnOk result
        (names_in names.new ≡ names_in names.old ++ bound_by (exps_in exps.now)) }
{
    for exp in exps {
        push_if_pattern(alloc, *exp, names)?;
    }
    Ok(())
}
