//! What is bound at an element of an iteration, without copies. Only the variables that occur in an
//! expression are copied, where it is evaluated or matched.

ghost use Rattle.std.specs.Prelude.{◌≡◌, ◌++◌, [], Some, pos, List, IfOk, map, option_map, slice_get};
ghost use Rattle.std.specs.Option.{option_copied};
ghost use Rattle.st_il.specs.declared.definition.SyntaxDef.{SyntaxDef};
ghost use Rattle.st_il.specs.declared.value.Value.TheVariants as variant;
ghost use Rattle.st_semantics.specs.Environments.{lookup, names_of};
ghost use Rattle.st_semantics.specs.Formed.{IsFormed};
ghost use Rattle.st_semantics.specs.Variables.{vars};
ghost use Rattle.st_semantics.specs.Parts.{option_list};
ghost use Rattle.st_semantics.specs.Iterations.{index_of, heads, bound_to, counted_to};
ghost use Rattle.st_match.specs.inner.Scope.{value_held, entries_of, scope_env, column_now, columns_now, columns_from};
ghost use Rattle.st_eval.specs.inner.Known.{names_now};
ghost use Rattle.st_eval.specs.inner.Beside.{entry_in, entries_among};

use crate::variables::variables;
use st_il::{Env, IlExp, Iteration, Value, copy_value};
use st_match::{Bound, Elements, Held};
use st_num::{Name, NoMemory, Num, Row};
use std::alloc::Global;

/// The names of what is bound.
pub fn bound_names<'a>(alloc: Global, scope: &[Bound<'a>]) -> Result<Row<&'a Name>, NoMemory>
    ensures { IfOk result (λ names. names_now names ≡ names_of (scope_env scope.now)) }
{
    let mut names = Row::new(alloc);
    for bound in scope {
        names.push(bound.name)?;
    }
    Ok(names)
}

/// A number that is not negative as a value. There always is one.
pub(crate) fn number_value(number: u128) -> Option<Value>
    ensures { result ≡ Some (variant.Num (pos number)) }
{
    Some(Value::Num(Num::new(false, number)?))
}

/// What the first variable of this name is bound to.
fn find<'a>(name: &Name, scope: &[Bound<'a>]) -> Option<Held<'a>>
    ensures { option_map value_held result ≡ lookup name.now (entries_of scope.now) }
{
    for bound in scope {
        if name.as_slice() == bound.name.as_slice() {
            return Some(bound.value);
        }
    }
    None
}

/// The value of a variable, if it is bound.
fn value_bound(alloc: Global, name: &Name, scope: &[Bound]) -> Result<Option<Value>, NoMemory>
    ensures { IfOk result (λ value. value ≡ lookup name.now (entries_of scope.now)) }
{
    match find(name, scope) {
        None => Ok(None),
        Some(Held::Given(value)) => {
            let value = copy_value(alloc, value)?;
            Ok(Some(value))
        }
        Some(Held::Index(k)) => Ok(number_value(k)),
    }
}

/// Entries with that of a variable behind them, if it is bound.
fn with_entry(
    alloc: Global,
    entries: Row<(Name, Value)>,
    name: &Name,
    scope: &[Bound],
) -> Result<Row<(Name, Value)>, NoMemory>
    ensures { IfOk result (λ more. more ≡ entries ++ entry_in (scope_env scope.now) name.now) }
{
    let mut more = entries;
    let found = value_bound(alloc, name, scope)?;
    match found {
        None => Ok(more),
        Some(value) => {
            let name = name.copy(alloc)?;
            more.push((name, value))?;
            Ok(more)
        }
    }
}

/// The entries of these variables, of those that are bound.
pub fn entries_among(
    alloc: Global,
    names: &[&Name],
    scope: &[Bound],
) -> Result<Row<(Name, Value)>, NoMemory>
    ensures { IfOk result (λ entries.
        entries ≡ entries_among (scope_env scope.now) (names_now names.now)) }
{
    let mut entries = Row::new(alloc);
    for name in names {
        entries = with_entry(alloc, entries, name, scope)?;
    }
    Ok(entries)
}

/// An environment of the variables of an expression, of those that are bound.
pub fn bound_in(alloc: Global, exp: &IlExp, scope: &[Bound]) -> Result<Env, NoMemory>
    requires { (defs : List SyntaxDef) × IsFormed defs exp.now }
    ensures { IfOk result (λ env.
        env.entries ≡ entries_among (scope_env scope.now) (vars exp.now)) }
{
    let names = variables(alloc, exp)?;
    let entries = entries_among(alloc, names.as_slice(), scope)?;
    Ok(Env { entries })
}

/// The element of a list at this position from 0.
fn nth<'a>(elements: &'a [Value], at: u128) -> Option<&'a Value>
    ensures { option_copied result ≡ slice_get elements.now at }
{
    match usize::try_from(at) {
        Ok(at) => elements.get(at),
        Err(_) => None,
    }
}

/// The element of an iterated variable at this position from 0.
fn element_at<'a>(elements: &Elements<'a>, at: u128) -> Option<&'a Value>
    ensures { option_copied result ≡ slice_get (column_now elements.now) at }
{
    match elements {
        Elements::Many(values) => nth(values, at),
        Elements::Nothing => None,
        Elements::Single(value) => { if at == 0 { Some(value) } else { None } }
    }
}

/// The elements with that of a variable behind them, if it has one at this position.
fn with_head<'a>(
    found: Row<Held<'a>>,
    column: &Elements<'a>,
    at: u128,
) -> Result<Row<Held<'a>>, NoMemory>
    ensures { IfOk result (λ longer. map value_held longer
        ≡ map value_held found.entry ++ option_list (slice_get (column_now column.now) at)) }
{
    let mut longer = found;
    match element_at(column, at) {
        None => Ok(longer),
        Some(value) => {
            longer.push(Held::Given(value))?;
            Ok(longer)
        }
    }
}

/// The elements of all variables at this position.
fn heads<'a>(alloc: Global, columns: &[Elements<'a>], at: u128) -> Result<Row<Held<'a>>, NoMemory>
    ensures { IfOk result (λ found.
        map value_held found ≡ heads (columns_from at (columns_now columns.now))) }
{
    let mut found = Row::new(alloc);
    for column in columns {
        found = with_head(found, column, at)?;
    }
    Ok(found)
}

/// The index of an iteration at this element, if it has one.
fn indexed<'a>(alloc: Global, how: &'a Iteration, at: u128) -> Result<Row<Bound<'a>>, NoMemory>
    ensures { IfOk result (λ inner. entries_of inner ≡ counted_to (index_of how.now) at []) }
{
    let mut inner = Row::new(alloc);
    match how {
        Iteration::Below(index, _) => {
            inner.push(Bound {
                name: index,
                value: Held::Index(at),
            })?;
            Ok(inner)
        }
        Iteration::Star | Iteration::Plus | Iteration::Quest | Iteration::Times(_) => Ok(inner),
    }
}

/// The variables with these names behind them, each bound to what stands in its place.
fn with_names<'a>(
    names: &[&'a Name],
    heads: &[Held<'a>],
    bound: Row<Bound<'a>>,
) -> Result<Row<Bound<'a>>, NoMemory>
    ensures { IfOk result (λ inner. entries_of inner
        ≡ entries_of bound.entry ++ bound_to (names_now names.now) (map value_held heads.now) []) }
{
    let mut inner = bound;
    for (i, name) in names.iter().enumerate() {
        let Some(value) = heads.get(i) else {
            return Ok(inner);
        };
        inner.push(Bound {
            name: *name,
            value: *value,
        })?;
    }
    Ok(inner)
}

/// The variables with others behind them.
fn with_bound<'a>(bound: Row<Bound<'a>>, others: &[Bound<'a>]) -> Result<Row<Bound<'a>>, NoMemory>
    ensures { IfOk result (λ inner. inner ≡ bound.entry ++ others.now) }
{
    let mut inner = bound;
    for other in others {
        inner.push(*other)?;
    }
    Ok(inner)
}

/// The variables inside an iteration at this element: its index, and its names, each bound to its
/// element, before the others.
pub fn bound_inside<'a>(
    alloc: Global,
    how: &'a Iteration,
    names: &[&'a Name],
    columns: &[Elements<'a>],
    at: u128,
    scope: &[Bound<'a>],
) -> Result<Row<Bound<'a>>, NoMemory>
    ensures { IfOk result (λ inner. entries_of inner ≡ counted_to (index_of how.now) at
        (bound_to (names_now names.now) (heads (columns_from at (columns_now columns.now)))
        (entries_of scope.now))) }
{
    let heads = heads(alloc, columns, at)?;
    let inner = indexed(alloc, how, at)?;
    let inner = with_names(names, heads.as_slice(), inner)?;
    let inner = with_bound(inner, scope)?;
    Ok(inner)
}
