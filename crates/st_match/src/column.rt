//! The elements that an iteration goes over.

ghost use Rattle.std.specs.Prelude.{◌≡◌, ◌++◌, [], Some, length, map, IfOk, MatchOption, option_map, slice_get};
ghost use Rattle.std.specs.Option.{option_copied};
ghost use Rattle.st_semantics.specs.Environments.{lookup};
ghost use Rattle.st_semantics.specs.Parts.{option_list};
ghost use Rattle.st_semantics.specs.Iterations.{kind_of, index_of, may_be, column_of, columns, all_long, size_of, heads, bound_to, counted_to, gathered, spread, rows, Misfit, Over};
ghost use Rattle.st_match.specs.inner.Scope.{value_held, entries_of, scope_env, column_now, columns_now, columns_from};

use crate::arithmetic::natural;
use crate::list::nth;
use crate::made::limited;
use crate::scope::{Bound, Held, find};
use st_il::{Iteration, Value, copy_value};
use st_num::{Boxed, Kind, Name, NoMemory, Row};
use st_semantics::Outcome;
use std::alloc::Global;

/// The elements of an iterated variable.
#[derive(Clone, Copy)]
pub enum Elements<'a> {
    Many(&'a [Value]),
    Nothing,
    Single(&'a Value),
}

/// The elements of all iterated variables, and how many each has.
#[derive(Drop)]
pub struct Table<'a> {
    pub columns: Row<Elements<'a>>,
    pub size: u128,
}

/// What the iteration goes over.
fn kind_of(how: &Iteration) -> Kind
    ensures { result ≡ kind_of how.now }
{
    match how {
        Iteration::Quest => Kind::Opt,
        Iteration::Star | Iteration::Plus => Kind::List,
        Iteration::Times(_) | Iteration::Below(_, _) => Kind::List,
    }
}

/// Whether the iteration may have so many elements.
fn may_be(how: &Iteration, size: u128) -> bool
    ensures { result ≡ may_be how.now size }
{
    match how {
        Iteration::Plus => size > 0,
        Iteration::Star | Iteration::Quest => true,
        Iteration::Times(_) | Iteration::Below(_, _) => true,
    }
}

/// The elements of a value of this kind.
fn column_of<'a>(kind: Kind, value: &'a Value) -> Option<Elements<'a>>
    ensures { option_map column_now result ≡ column_of kind (Some value.now) }
{
    match kind {
        Kind::List => match value {
            Value::List(parts) => Some(Elements::Many(parts.as_slice())),
            _ => None,
        },
        Kind::Opt => match value {
            Value::Opt(None) => Some(Elements::Nothing),
            Value::Opt(Some(part)) => Some(Elements::Single(part.get())),
            _ => None,
        },
    }
}

/// The elements of a variable, where it has a value of this kind.
fn column_named<'a>(kind: Kind, name: &Name, scope: &[Bound<'a>]) -> Option<Elements<'a>>
    ensures { option_map column_now result
        ≡ column_of kind (lookup name.now (entries_of scope.now)) }
{
    match find(name, scope) {
        None => None,
        Some(Held::Given(value)) => column_of(kind, value),
        Some(Held::Index(_)) => None,
    }
}

/// The elements of these variables, where each has a value of this kind.
fn columns<'a>(
    alloc: Global,
    kind: Kind,
    names: &[Name],
    scope: &[Bound<'a>],
) -> Result<Option<Row<Elements<'a>>>, NoMemory>
    ensures { IfOk result (λ found.
        option_map columns_now found ≡ columns kind names.now (entries_of scope.now)) }
{
    let mut found = Row::new(alloc);
    for name in names {
        match column_named(kind, name, scope) {
            None => return Ok(None),
            Some(column) => found.push(column)?,
        }
    }
    Ok(Some(found))
}

/// How many elements a variable has.
fn length_of(column: &Elements) -> usize
    ensures { result ≡ length (column_now column.now) }
{
    match column {
        Elements::Many(elements) => elements.len(),
        Elements::Nothing => 0,
        Elements::Single(_) => 1,
    }
}

/// The element of a variable at this position from 0.
fn element_at<'a>(column: &Elements<'a>, at: u128) -> Option<&'a Value>
    ensures { option_copied result ≡ slice_get (column_now column.now) at }
{
    match column {
        Elements::Many(elements) => nth(elements, at),
        Elements::Nothing => None,
        Elements::Single(value) => { if at == 0 { Some(value) } else { None } }
    }
}

/// Whether each variable has so many elements.
fn all_long(size: u128, columns: &[Elements]) -> bool
    ensures { result ≡ all_long size (columns_now columns.now) }
{
    for column in columns {
        if length_of(column) as u128 != size {
            return false;
        }
    }
    true
}

/// The number of elements: the value of the count, or else that of the first variable.
fn size_of(count: &[Value], columns: &[Elements]) -> Option<u128>
    ensures { result ≡ size_of count.now (Some (columns_now columns.now)) }
{
    match count {
        [] => match columns.first() {
            None => None,
            Some(column) => Some(length_of(column) as u128),
        },
        [number] => natural(number),
        _ => None,
    }
}

/// The elements that an iteration goes over, where the lists of its variables fit.
pub fn spread<'a>(
    alloc: Global,
    how: &Iteration,
    names: &[Name],
    scope: &[Bound<'a>],
    count: &[Value],
) -> Result<Option<Table<'a>>, NoMemory>
    ensures { IfOk result (λ found. MatchOption found
        (spread how.now names.now (scope_env scope.now) count.now ≡ Misfit)
        (λ elements. spread how.now names.now (scope_env scope.now) count.now
        ≡ Over (rows (index_of how.now) names.now (entries_of scope.now) elements.size 0
        (columns_now elements.columns)))) }
{
    let Some(columns) = columns(alloc, kind_of(how), names, scope)? else {
        return Ok(None);
    };
    let Some(size) = size_of(count, columns.as_slice()) else {
        return Ok(None);
    };
    if all_long(size, columns.as_slice()) && may_be(how, size) {
        Ok(Some(Table { columns, size }))
    } else {
        Ok(None)
    }
}

/// The elements of all variables at this position.
fn heads<'a>(alloc: Global, columns: &[Elements<'a>], at: u128) -> Result<Row<Held<'a>>, NoMemory>
    ensures { IfOk result (λ found.
        map value_held found ≡ heads (columns_from at (columns_now columns.now))) }
{
    let mut found = Row::new(alloc);
    for column in columns {
        found = with_head(found, column, at)?;
    }
    Ok(found)
}

/// The elements with that of a variable behind them, if it has one at this position.
fn with_head<'a>(
    found: Row<Held<'a>>,
    column: &Elements<'a>,
    at: u128,
) -> Result<Row<Held<'a>>, NoMemory>
    ensures { IfOk result (λ longer. map value_held longer
        ≡ map value_held found.entry ++ option_list (slice_get (column_now column.now) at)) }
{
    let mut longer = found;
    match element_at(column, at) {
        None => Ok(longer),
        Some(value) => {
            longer.push(Held::Given(value))?;
            Ok(longer)
        }
    }
}

/// The variables of an iteration at this element: its index, and its names, each bound to its
/// element, before the others.
pub fn element_scope<'a>(
    alloc: Global,
    how: &'a Iteration,
    names: &'a [Name],
    table: &Table<'a>,
    at: u128,
    scope: &[Bound<'a>],
) -> Result<Row<Bound<'a>>, NoMemory>
    ensures { IfOk result (λ inner. entries_of inner ≡ counted_to (index_of how.now) at
        (bound_to names.now (heads (columns_from at (columns_now table.now.columns)))
        (entries_of scope.now))) }
{
    let heads = heads(alloc, table.columns.as_slice(), at)?;
    let inner = indexed(alloc, how, at)?;
    let inner = with_names(names, heads.as_slice(), inner)?;
    let inner = with_others(inner, scope)?;
    Ok(inner)
}

/// The index of an iteration at this element, if it has one.
fn indexed<'a>(alloc: Global, how: &'a Iteration, at: u128) -> Result<Row<Bound<'a>>, NoMemory>
    ensures { IfOk result (λ inner. entries_of inner ≡ counted_to (index_of how.now) at []) }
{
    let mut inner = Row::new(alloc);
    match how {
        Iteration::Below(index, _) => {
            inner.push(Bound {
                name: index,
                value: Held::Index(at),
            })?;
            Ok(inner)
        }
        Iteration::Star | Iteration::Plus | Iteration::Quest | Iteration::Times(_) => Ok(inner),
    }
}

/// The variables with these names behind them, each bound to what stands in its place.
fn with_names<'a>(
    names: &'a [Name],
    heads: &[Held<'a>],
    bound: Row<Bound<'a>>,
) -> Result<Row<Bound<'a>>, NoMemory>
    ensures { IfOk result (λ inner. entries_of inner
        ≡ entries_of bound.entry ++ bound_to names.now (map value_held heads.now) []) }
{
    let mut inner = bound;
    for (i, name) in names.iter().enumerate() {
        let Some(value) = heads.get(i) else {
            return Ok(inner);
        };
        inner.push(Bound {
            name,
            value: *value,
        })?;
    }
    Ok(inner)
}

/// The variables with others behind them.
fn with_others<'a>(bound: Row<Bound<'a>>, scope: &[Bound<'a>]) -> Result<Row<Bound<'a>>, NoMemory>
    ensures { IfOk result (λ inner. inner ≡ bound.entry ++ scope.now) }
{
    let mut inner = bound;
    for other in scope {
        inner.push(*other)?;
    }
    Ok(inner)
}

/// What an iteration makes of the values of its body.
pub fn gathered(alloc: Global, how: &Iteration, values: Row<Value>) -> Result<Outcome, NoMemory>
    ensures { IfOk result (λ outcome. outcome ≡ gathered how.now values) }
{
    match kind_of(how) {
        Kind::List => Ok(limited(Value::List(values))),
        Kind::Opt => match values.as_slice() {
            [] => Ok(Outcome::Val(Value::Opt(None))),
            [value, ..] => {
                let part = copy_value(alloc, value)?;
                let part = Boxed::new(alloc, part)?;
                Ok(limited(Value::Opt(Some(part))))
            }
        },
    }
}
