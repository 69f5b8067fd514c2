//! The variables of patterns, and names in byte order.

ghost use Rattle.std.specs.Prelude.{◌≡◌, ◌≤◌, ◌++◌, [], ◌∷◌, true, map, length, take, drop, IfOk, OnOk};
ghost use Rattle.std.specs.List.{list_all};
ghost use Rattle.st_il.specs.Names.{has_name, without};
ghost use Rattle.st_semantics.specs.Environments.{names_of};
ghost use Rattle.st_semantics.specs.Operands.{item_exp};
ghost use Rattle.st_semantics.specs.Iterations.{count_of, index_of};
ghost use Rattle.st_semantics.specs.Variables.{vars, vars_of};
ghost use Rattle.st_semantics.specs.Patterns.{is_pattern, told, told_item, all_patterns};
ghost use Rattle.st_match.specs.inner.Names.{StandsAt, IsInserted, AreOrdered};

use crate::rows::is_index;
use st_il::{Env, IlExp, Iteration, ListItem};
use st_num::{Name, NoMemory, Row};
use std::alloc::Global;
use std::cmp::Ordering;

// ---- the variables of patterns

/// Adds names.
fn push_names(alloc: Global, list: &[Name], names: &mut Row<Name>) -> Result<(), NoMemory>
    ensures { OnOk result (names.new ≡ names.old ++ list.now) }
{
    for name in list {
        names.push(name.copy(alloc)?)?;
    }
    Ok(())
}

/// Adds a name, unless it is the index of the iteration.
fn push_other(
    alloc: Global,
    how: &Iteration,
    name: &Name,
    names: &mut Row<Name>,
) -> Result<(), NoMemory>
    ensures { OnOk result
        (names.new ≡ names.old ++ without (index_of how.now) (name.now ∷ [])) }
{
    if !is_index(how, name) {
        names.push(name.copy(alloc)?)?;
    }
    Ok(())
}

/// Adds the names but for the index of the iteration.
fn push_others(
    alloc: Global,
    how: &Iteration,
    list: &[Name],
    names: &mut Row<Name>,
) -> Result<(), NoMemory>
    ensures { OnOk result
        (names.new ≡ names.old ++ without (index_of how.now) list.now) }
{
    for name in list {
        push_other(alloc, how, name, names)?;
    }
    Ok(())
}

/// Adds the variables of a pattern, and the listed names of its iterations.
#[cycle(variables)]
fn push_vars(alloc: Global, pattern: &IlExp, names: &mut Row<Name>) -> Result<(), NoMemory>
    requires { is_pattern pattern.now ≡ true }
    ensures { OnOk result (names.new ≡ names.old ++ vars pattern.now) }
{
    match pattern {
        IlExp::Var(name) => names.push(name.copy(alloc)?),
        IlExp::Up(_, part) | IlExp::Present(part) => push_vars(alloc, part.get(), names),
        IlExp::Case(_, _, parts) | IlExp::Fields(_, parts) => {
            push_all_vars(alloc, parts.as_slice(), names)
        }
        IlExp::Tuple(parts) => push_all_vars(alloc, parts.as_slice(), names),
        IlExp::List(_, items) => push_item_vars(alloc, items.as_slice(), names),
        IlExp::Cat(left, right) => {
            push_vars(alloc, left.get(), names)?;
            push_vars(alloc, right.get(), names)
        }
        IlExp::Iter(how, list, body) => {
            push_count_vars(alloc, how, names)?;
            push_names(alloc, list.as_slice(), names)?;
            let mut inner = Row::new(alloc);
            push_vars(alloc, body.get(), &mut inner)?;
            push_others(alloc, how, inner.as_slice(), names)
        }
        _ => Ok(()),
    }
}

/// Adds the variables of several patterns.
#[cycle(variables)]
fn push_all_vars(alloc: Global, patterns: &[IlExp], names: &mut Row<Name>) -> Result<(), NoMemory>
    requires { all_patterns (map told patterns.now) ≡ true }
    ensures { OnOk result (names.new ≡ names.old ++ vars_of patterns.now) }
{
    for pattern in patterns {
        push_vars(alloc, pattern, names)?;
    }
    Ok(())
}

/// Adds the variables of the parts of a list.
#[cycle(variables)]
fn push_item_vars(alloc: Global, items: &[ListItem], names: &mut Row<Name>) -> Result<(), NoMemory>
    requires { all_patterns (map told_item items.now) ≡ true }
    ensures { OnOk result (names.new ≡ names.old ++ vars_of (map item_exp items.now)) }
{
    for item in items {
        match item {
            ListItem::One(pattern) | ListItem::All(pattern) => push_vars(alloc, pattern, names)?,
        }
    }
    Ok(())
}

/// Adds the variables of the count of an iteration, if it has one.
#[cycle(variables)]
fn push_count_vars(alloc: Global, how: &Iteration, names: &mut Row<Name>) -> Result<(), NoMemory>
    requires { list_all is_pattern (count_of how.now) ≡ true }
    ensures { OnOk result (names.new ≡ names.old ++ vars_of (count_of how.now)) }
{
    match how {
        Iteration::Star | Iteration::Plus | Iteration::Quest => Ok(()),
        Iteration::Times(count) | Iteration::Below(_, count) => {
            push_vars(alloc, count.get(), names)
        }
    }
}

/// The variables of several patterns, and the listed names of their iterations.
pub(crate) fn vars_of(alloc: Global, patterns: &[IlExp]) -> Result<Row<Name>, NoMemory>
    requires { all_patterns (map told patterns.now) ≡ true }
    ensures { IfOk result (λ names. names ≡ vars_of patterns.now) }
{
    let mut names = Row::new(alloc);
    push_all_vars(alloc, patterns, &mut names)?;
    Ok(names)
}

// ---- names in order

/// Where a name is to stand among others in order, unless it is there.
fn position(name: &Name, names: &[Name]) -> Option<usize>
    ensures { StandsAt name.now names.now result }
{
    for i in 0..names.len() {
        match name.cmp(&names[i]) {
            Ordering::Less => return Some(i),
            Ordering::Equal => return None,
            Ordering::Greater => {}
        }
    }
    Some(names.len())
}

/// The names with one more at this position.
fn insert_at(alloc: Global, at: usize, name: &Name, names: Row<Name>) -> Result<Row<Name>, NoMemory>
    requires { at ≤ length names }
    ensures { IfOk result (λ more. more ≡ take at names ++ name.now ∷ drop at names) }
{
    let copy = name.copy(alloc)?;
    let mut more = names.into_vec();
    more.insert(at, copy)?;
    Ok(Row::from_vec(more))
}

/// The names in order with one more, unless it is there.
fn with_name(alloc: Global, name: &Name, names: Row<Name>) -> Result<Row<Name>, NoMemory>
    ensures { IfOk result (λ more. IsInserted name.now names more) }
{
    match position(name, names.as_slice()) {
        None => Ok(names),
        Some(at) => {
            let more = insert_at(alloc, at, name, names)?;
            Ok(more)
        }
    }
}

/// The names in order, each once.
pub(crate) fn in_order(alloc: Global, names: &[Name]) -> Result<Row<Name>, NoMemory>
    ensures { IfOk result (λ all. AreOrdered names.now all) }
{
    let mut all = Row::new(alloc);
    for name in names {
        all = with_name(alloc, name, all)?;
    }
    Ok(all)
}

/// The names of an environment, and behind them others.
pub(crate) fn with_env_names(
    alloc: Global,
    env: &Env,
    others: &[Name],
) -> Result<Row<Name>, NoMemory>
    ensures { IfOk result (λ names. names ≡ names_of env.now ++ others.now) }
{
    let mut names = Row::new(alloc);
    for entry in env.entries.as_slice() {
        names.push(entry.0.copy(alloc)?)?;
    }
    push_names(alloc, others, &mut names)?;
    Ok(names)
}
