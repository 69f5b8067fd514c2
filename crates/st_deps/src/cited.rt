//! The names that stand in types, expressions and premises.

ghost use Rattle.std.specs.Prelude.{◌≡◌, ◌++◌, ◌∷◌, [], map, IfOk, OnOk};
ghost use Rattle.st_deps.specs.Cited.{fun_name, in_all, type_names, exp_names, count_names, item_names, step_names, prem_names};

use st_il::{IlExp, IlPrem, Iteration, ListItem, PathSeg, Ty};
use st_num::{Name, NoMemory, Row};
use std::alloc::Global;

/// Adds a name.
pub(crate) fn add_name(alloc: Global, name: &Name, names: &mut Row<Name>) -> Result<(), NoMemory>
    ensures { OnOk result (names.new ≡ names.old ++ name.now ∷ []) }
{
    let name = name.copy(alloc)?;
    names.push(name)?;
    Ok(())
}

/// The name of a function as it is written, with its `$`.
pub(crate) fn fun_name(alloc: Global, name: &Name) -> Result<Name, NoMemory>
    ensures { IfOk result (λ written. written ≡ fun_name name.now) }
{
    let mut written = Row::new(alloc);
    written.push(b'$')?;
    for byte in name.as_slice() {
        written.push(*byte)?;
    }
    Ok(written)
}

/// Adds the names in a type.
#[cycle(add_type)]
pub(crate) fn add_type(alloc: Global, ty: &Ty, names: &mut Row<Name>) -> Result<(), NoMemory>
    ensures { OnOk result (names.new ≡ names.old ++ type_names ty.now) }
{
    match ty {
        Ty::Bool | Ty::Nat | Ty::Int | Ty::Text => Ok(()),
        Ty::Name(name) => add_name(alloc, name, names),
        Ty::List(inner) | Ty::Opt(inner) => add_type(alloc, inner.get(), names),
        Ty::Tuple(parts) => add_types(alloc, parts.as_slice(), names),
    }
}

/// Adds the names in several types.
#[cycle(add_type)]
pub(crate) fn add_types(alloc: Global, tys: &[Ty], names: &mut Row<Name>) -> Result<(), NoMemory>
    ensures { OnOk result (names.new ≡ names.old ++ in_all (map type_names tys.now)) }
{
    for ty in tys {
        add_type(alloc, ty, names)?;
    }
    Ok(())
}

/// Adds the names in an expression.
#[cycle(add_exp)]
pub(crate) fn add_exp(alloc: Global, exp: &IlExp, names: &mut Row<Name>) -> Result<(), NoMemory>
    ensures { OnOk result (names.new ≡ names.old ++ exp_names exp.now) }
{
    match exp {
        IlExp::Bool(_) | IlExp::Number(_) | IlExp::Text(_) | IlExp::Var(_) => Ok(()),
        IlExp::Empty(ty) | IlExp::Absent(ty) => add_type(alloc, ty, names),
        IlExp::Not(x) | IlExp::Neg(x) | IlExp::Present(x) | IlExp::Len(x) | IlExp::Dot(x, _) => {
            add_exp(alloc, x.get(), names)
        }
        IlExp::And(x, y)
        | IlExp::Or(x, y)
        | IlExp::Imp(x, y)
        | IlExp::Iff(x, y)
        | IlExp::Add(_, x, y)
        | IlExp::Sub(_, x, y)
        | IlExp::Mul(_, x, y)
        | IlExp::Div(_, x, y)
        | IlExp::Rem(_, x, y)
        | IlExp::Pow(_, x, y)
        | IlExp::Eq(x, y)
        | IlExp::Ne(x, y)
        | IlExp::Lt(x, y)
        | IlExp::Gt(x, y)
        | IlExp::Le(x, y)
        | IlExp::Ge(x, y)
        | IlExp::Member(x, y)
        | IlExp::At(x, y)
        | IlExp::Cat(x, y)
        | IlExp::Join(x, y) => {
            add_exp(alloc, x.get(), names)?;
            add_exp(alloc, y.get(), names)
        }
        IlExp::Case(ty, _, parts) | IlExp::Fields(ty, parts) => {
            add_name(alloc, ty, names)?;
            add_exps(alloc, parts.as_slice(), names)
        }
        IlExp::Tuple(parts) => add_exps(alloc, parts.as_slice(), names),
        IlExp::Call(name, parts) => {
            let name = fun_name(alloc, name)?;
            names.push(name)?;
            add_exps(alloc, parts.as_slice(), names)
        }
        IlExp::List(ty, items) => {
            add_type(alloc, ty, names)?;
            add_items(alloc, items.as_slice(), names)
        }
        IlExp::Set(x, path, y) | IlExp::Extend(x, path, y) => {
            add_exp(alloc, x.get(), names)?;
            add_path(alloc, path.as_slice(), names)?;
            add_exp(alloc, y.get(), names)
        }
        IlExp::Slice(x, y, z) => {
            add_exp(alloc, x.get(), names)?;
            add_exp(alloc, y.get(), names)?;
            add_exp(alloc, z.get(), names)
        }
        IlExp::Up(ty, x) => {
            add_type(alloc, ty, names)?;
            add_exp(alloc, x.get(), names)
        }
        IlExp::Iter(count, _, body) => {
            add_count(alloc, count, names)?;
            add_exp(alloc, body.get(), names)
        }
    }
}

/// Adds the names in several expressions.
#[cycle(add_exp)]
pub(crate) fn add_exps(alloc: Global, exps: &[IlExp], names: &mut Row<Name>) -> Result<(), NoMemory>
    ensures { OnOk result (names.new ≡ names.old ++ in_all (map exp_names exps.now)) }
{
    for exp in exps {
        add_exp(alloc, exp, names)?;
    }
    Ok(())
}

/// Adds the names in the parts of a list.
#[cycle(add_exp)]
fn add_items(alloc: Global, items: &[ListItem], names: &mut Row<Name>) -> Result<(), NoMemory>
    ensures { OnOk result (names.new ≡ names.old ++ in_all (map item_names items.now)) }
{
    for item in items {
        add_item(alloc, item, names)?;
    }
    Ok(())
}

/// Adds the names in a part of a list.
#[cycle(add_exp)]
fn add_item(alloc: Global, item: &ListItem, names: &mut Row<Name>) -> Result<(), NoMemory>
    ensures { OnOk result (names.new ≡ names.old ++ item_names item.now) }
{
    match item {
        ListItem::One(x) | ListItem::All(x) => add_exp(alloc, x, names),
    }
}

/// Adds the names in the steps of a path.
#[cycle(add_exp)]
fn add_path(alloc: Global, path: &[PathSeg], names: &mut Row<Name>) -> Result<(), NoMemory>
    ensures { OnOk result (names.new ≡ names.old ++ in_all (map step_names path.now)) }
{
    for step in path {
        add_step(alloc, step, names)?;
    }
    Ok(())
}

/// Adds the names in a step of a path.
#[cycle(add_exp)]
fn add_step(alloc: Global, step: &PathSeg, names: &mut Row<Name>) -> Result<(), NoMemory>
    ensures { OnOk result (names.new ≡ names.old ++ step_names step.now) }
{
    match step {
        PathSeg::Field(_) => Ok(()),
        PathSeg::At(x) => add_exp(alloc, x, names),
        PathSeg::Slice(x, y) => {
            add_exp(alloc, x, names)?;
            add_exp(alloc, y, names)
        }
    }
}

/// Adds the names in the count of an iteration.
#[cycle(add_exp)]
fn add_count(alloc: Global, count: &Iteration, names: &mut Row<Name>) -> Result<(), NoMemory>
    ensures { OnOk result (names.new ≡ names.old ++ count_names count.now) }
{
    match count {
        Iteration::Star | Iteration::Plus | Iteration::Quest => Ok(()),
        Iteration::Times(x) | Iteration::Below(_, x) => add_exp(alloc, x.get(), names),
    }
}

/// Adds the names in a premise.
#[cycle(add_prem)]
pub(crate) fn add_prem(alloc: Global, prem: &IlPrem, names: &mut Row<Name>) -> Result<(), NoMemory>
    ensures { OnOk result (names.new ≡ names.old ++ prem_names prem.now) }
{
    match prem {
        IlPrem::If(exp) => add_exp(alloc, exp, names),
        IlPrem::Goal(relation, exps) => {
            add_name(alloc, relation, names)?;
            add_exps(alloc, exps.as_slice(), names)
        }
        IlPrem::Otherwise => Ok(()),
        IlPrem::Each(count, _, body) => {
            add_count(alloc, count, names)?;
            add_prem(alloc, body.get(), names)
        }
    }
}
