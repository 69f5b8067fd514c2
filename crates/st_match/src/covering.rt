//! Environments that cover all that give a pattern a value, found form by form.
//!
//! The calls go down the pattern. Over the operands of a case, the parts of a list and the elements
//! of an iteration they go by loops.

ghost use Rattle.std.specs.Prelude.{◌≡◌, ◌≤◌, ◌+◌, pos, IfOk, [], ◌∷◌, length, drop};
ghost use Rattle.st_semantics.specs.Parts.{option_list};
ghost use Rattle.st_match.specs.inner.Fitting.{field_values, IsElementCount};
ghost use Rattle.st_match.specs.inner.Covering.{AreCandidates, AreCandidatesOfAll, AreCandidatesOfItems, AreCandidatesOfCut, AreCandidatesOfCount, AreCandidatesOfElements, AreCandidatesOfEach, AreCandidatesOfCuts, IfCat};
ghost use Rattle.st_match.specs.inner.Rows.{AreRows, AreRowsOf, RowsLead};
ghost use Rattle.st_match.specs.inner.Positions.{PartLeads, ElementLeads, CutLeads, CutsLead};

use crate::environment::{append, bind_each, copy_envs, no_variables, single};
use crate::position::{Ends, Position, ends_before, finished, left_of};
use crate::rows::{column_of, kind_of, no_elements, product, with_rows_each};
use st_il::{Env, IlExp, Iteration, ListItem, Value, copy_values};
use st_num::{Boxed, Kind, Name, NoMemory, Num, Row};
use std::alloc::Global;
use std::slice::from_ref;

/// Environments that extend these, and cover all that extend them and give the pattern the value.
#[cycle(candidates)]
pub(crate) fn candidates(
    alloc: Global,
    pattern: &IlExp,
    value: &Value,
    envs: &[Env],
) -> Result<Row<Env>, NoMemory>
    ensures { IfOk result (λ found. AreCandidates pattern.now value.now envs.now found) }
{
    match pattern {
        IlExp::Var(name) => {
            let found = bind_each(alloc, name, value, envs)?;
            Ok(found)
        }
        IlExp::Up(_, part) => {
            let found = candidates(alloc, part.get(), value, envs)?;
            Ok(found)
        }
        IlExp::Case(_, tag, parts) => {
            let found = case_candidates(alloc, tag, parts.as_slice(), value, envs)?;
            Ok(found)
        }
        IlExp::Fields(_, parts) => {
            let found = record_candidates(alloc, parts.as_slice(), value, envs)?;
            Ok(found)
        }
        IlExp::Tuple(parts) => {
            let found = tuple_candidates(alloc, parts.as_slice(), value, envs)?;
            Ok(found)
        }
        IlExp::Present(part) => {
            let found = option_candidates(alloc, part.get(), value, envs)?;
            Ok(found)
        }
        IlExp::List(_, items) => {
            let found = list_candidates(alloc, items.as_slice(), value, envs)?;
            Ok(found)
        }
        IlExp::Cat(_, _) => {
            let found = cat_candidates(alloc, pattern, value, envs)?;
            Ok(found)
        }
        IlExp::Iter(how, names, body) => {
            let counted = count_candidates(alloc, how, element_count(value), envs)?;
            let counted = counted.as_slice();
            let found = iterated_candidates(
                alloc,
                body.get(),
                how,
                names.as_slice(),
                value,
                counted,
            )?;
            Ok(found)
        }
        _ => {
            let found = copy_envs(alloc, envs)?;
            Ok(found)
        }
    }
}

/// The candidates of a case, whatever its type.
#[cycle(candidates)]
fn case_candidates(
    alloc: Global,
    tag: &Name,
    parts: &[IlExp],
    value: &Value,
    envs: &[Env],
) -> Result<Row<Env>, NoMemory>
    ensures { IfOk result (λ found.
        AreCandidatesOfEach (λ type. IlExp.Case type tag.now parts.now) value.now envs.now found) }
{
    match value {
        Value::Case(other, values) => {
            if *tag != *other {
                return Ok(Row::new(alloc));
            }
            let found = all_candidates(alloc, parts, values.as_slice(), envs)?;
            Ok(found)
        }
        _ => Ok(Row::new(alloc)),
    }
}

/// The candidates of a record, whatever its type.
#[cycle(candidates)]
fn record_candidates(
    alloc: Global,
    parts: &[IlExp],
    value: &Value,
    envs: &[Env],
) -> Result<Row<Env>, NoMemory>
    ensures { IfOk result (λ found.
        AreCandidatesOfEach (λ type. IlExp.Fields type parts.now) value.now envs.now found) }
{
    match value {
        Value::Fields(fields) => {
            let found = field_candidates(alloc, parts, fields.as_slice(), envs)?;
            Ok(found)
        }
        _ => Ok(Row::new(alloc)),
    }
}

/// The candidates of a tuple.
#[cycle(candidates)]
fn tuple_candidates(
    alloc: Global,
    parts: &[IlExp],
    value: &Value,
    envs: &[Env],
) -> Result<Row<Env>, NoMemory>
    ensures { IfOk result (λ found.
        AreCandidates (IlExp.Tuple parts.now) value.now envs.now found) }
{
    match value {
        Value::Tuple(values) => {
            let found = all_candidates(alloc, parts, values.as_slice(), envs)?;
            Ok(found)
        }
        _ => Ok(Row::new(alloc)),
    }
}

/// The candidates of an option that has a part.
#[cycle(candidates)]
fn option_candidates(
    alloc: Global,
    part: &IlExp,
    value: &Value,
    envs: &[Env],
) -> Result<Row<Env>, NoMemory>
    ensures { IfOk result (λ found.
        AreCandidates (IlExp.Present part.now) value.now envs.now found) }
{
    match value {
        Value::Opt(option) => match option {
            Some(inner) => {
                let found = candidates(alloc, part, inner.get(), envs)?;
                Ok(found)
            }
            None => Ok(Row::new(alloc)),
        },
        _ => Ok(Row::new(alloc)),
    }
}

/// The candidates of a list, whatever the type of its elements.
#[cycle(candidates)]
fn list_candidates(
    alloc: Global,
    items: &[ListItem],
    value: &Value,
    envs: &[Env],
) -> Result<Row<Env>, NoMemory>
    ensures { IfOk result (λ found.
        AreCandidatesOfEach (λ type. IlExp.List type items.now) value.now envs.now found) }
{
    match value {
        Value::List(values) => {
            let found = item_candidates(alloc, items, values.as_slice(), envs)?;
            Ok(found)
        }
        _ => Ok(Row::new(alloc)),
    }
}

/// The candidates of a pattern that is two lists, one behind the other.
#[cycle(candidates)]
fn cat_candidates(
    alloc: Global,
    pattern: &IlExp,
    value: &Value,
    envs: &[Env],
) -> Result<Row<Env>, NoMemory>
    ensures { IfOk result (λ found. IfCat pattern.now (λ left right.
        AreCandidates pattern.now value.now envs.now found)) }
{
    match value {
        Value::List(values) => {
            let found = cut_candidates(alloc, pattern, values.as_slice(), envs)?;
            Ok(found)
        }
        _ => Ok(Row::new(alloc)),
    }
}

/// The candidates of a pattern at a list of these elements.
#[cycle(candidates)]
fn slice_candidates(
    alloc: Global,
    pattern: &IlExp,
    values: &[Value],
    envs: &[Env],
) -> Result<Row<Env>, NoMemory>
    ensures { IfOk result (λ found.
        AreCandidates pattern.now (Value.List values.now) envs.now found) }
{
    let list = Value::List(copy_values(alloc, values)?);
    let found = candidates(alloc, pattern, &list, envs)?;
    Ok(found)
}

// ---- patterns in their positions

/// The candidates of these patterns, one for each value.
#[cycle(candidates)]
pub(crate) fn all_candidates(
    alloc: Global,
    parts: &[IlExp],
    values: &[Value],
    envs: &[Env],
) -> Result<Row<Env>, NoMemory>
    ensures { IfOk result (λ found. AreCandidatesOfAll parts.now values.now envs.now found) }
{
    if parts.len() != values.len() {
        return Ok(Row::new(alloc));
    }
    let mut found = copy_envs(alloc, envs)?;
    for i in 0..parts.len() {
        found = candidates(alloc, &parts[i], &values[i], found.as_slice())?;
    }
    Ok(found)
}

/// The candidates of these patterns, one for the value of each field.
#[cycle(candidates)]
fn field_candidates(
    alloc: Global,
    parts: &[IlExp],
    fields: &[(Name, Value)],
    envs: &[Env],
) -> Result<Row<Env>, NoMemory>
    ensures { IfOk result (λ found.
        AreCandidatesOfAll parts.now (field_values fields.now) envs.now found) }
{
    if parts.len() != fields.len() {
        return Ok(Row::new(alloc));
    }
    let mut found = copy_envs(alloc, envs)?;
    for i in 0..parts.len() {
        found = candidates(alloc, &parts[i], &fields[i].1, found.as_slice())?;
    }
    Ok(found)
}

// ---- the parts of a list

/// The candidates of the parts of a list that has these elements.
#[cycle(candidates)]
fn item_candidates(
    alloc: Global,
    items: &[ListItem],
    values: &[Value],
    envs: &[Env],
) -> Result<Row<Env>, NoMemory>
    ensures { IfOk result (λ found. AreCandidatesOfItems items.now values.now envs.now found) }
{
    let start = copy_envs(alloc, envs)?;
    let first = Position {
        taken: 0,
        envs: start,
    };
    let mut positions = single(alloc, first)?;
    for i in 0..items.len() {
        positions = after_part(
            alloc,
            &items[i],
            &items[i + 1..],
            values,
            positions.as_slice(),
        )?;
    }
    let found = finished(alloc, values, positions.as_slice())?;
    Ok(found)
}

/// The positions that a part leads to.
#[cycle(candidates)]
fn after_part(
    alloc: Global,
    part: &ListItem,
    rest: &[ListItem],
    values: &[Value],
    positions: &[Position],
) -> Result<Row<Position>, NoMemory>
    ensures { IfOk result (λ after. PartLeads part.now rest.now values.now positions.now after) }
{
    match part {
        ListItem::One(pattern) => {
            let after = after_element(alloc, pattern, values, positions)?;
            Ok(after)
        }
        ListItem::All(pattern) => {
            let after = after_list(alloc, pattern, rest, values, positions)?;
            Ok(after)
        }
    }
}

/// The positions that an element leads to.
#[cycle(candidates)]
fn after_element(
    alloc: Global,
    pattern: &IlExp,
    values: &[Value],
    positions: &[Position],
) -> Result<Row<Position>, NoMemory>
    ensures { IfOk result (λ after. ElementLeads pattern.now values.now positions.now after) }
{
    let mut after = Row::new(alloc);
    for position in positions {
        let more = next_position(alloc, pattern, values, position)?;
        after = append(after, more)?;
    }
    Ok(after)
}

/// The position behind the next element, if there is one and it can be the pattern's value.
#[cycle(candidates)]
fn next_position(
    alloc: Global,
    pattern: &IlExp,
    values: &[Value],
    position: &Position,
) -> Result<Row<Position>, NoMemory>
    ensures { IfOk result (λ after.
        ElementLeads pattern.now values.now (position.now ∷ []) after) }
{
    let taken = position.taken;
    if taken >= values.len() {
        return Ok(Row::new(alloc));
    }
    let envs = candidates(alloc, pattern, &values[taken], position.envs.as_slice())?;
    if envs.is_empty() {
        return Ok(Row::new(alloc));
    }
    let next = Position {
        taken: taken + 1,
        envs,
    };
    let after = single(alloc, next)?;
    Ok(after)
}

/// The positions that all elements of a list lead to.
#[cycle(candidates)]
fn after_list(
    alloc: Global,
    pattern: &IlExp,
    rest: &[ListItem],
    values: &[Value],
    positions: &[Position],
) -> Result<Row<Position>, NoMemory>
    ensures { IfOk result (λ after.
        PartLeads (ListItem.All pattern.now) rest.now values.now positions.now after) }
{
    let mut after = Row::new(alloc);
    for position in positions {
        let more = later_positions(alloc, pattern, rest, values, position)?;
        after = append(after, more)?;
    }
    Ok(after)
}

/// The positions that all elements of a list lead to from one.
#[cycle(candidates)]
fn later_positions(
    alloc: Global,
    pattern: &IlExp,
    rest: &[ListItem],
    values: &[Value],
    position: &Position,
) -> Result<Row<Position>, NoMemory>
    ensures { IfOk result (λ after.
        PartLeads (ListItem.All pattern.now) rest.now values.now (position.now ∷ []) after) }
{
    let left = left_of(values, position.taken);
    let ends = ends_before(rest, left);
    let after = positions_between(alloc, pattern, values, position, ends)?;
    Ok(after)
}

/// The positions that all elements of a list lead to from one, where the list may end so.
#[cycle(candidates)]
fn positions_between(
    alloc: Global,
    pattern: &IlExp,
    values: &[Value],
    position: &Position,
    ends: Ends,
) -> Result<Row<Position>, NoMemory>
    requires { ends.end ≤ length (drop position.now.taken values.now) + 1 }
    ensures { IfOk result (λ after.
        CutsLead pattern.now values.now ends.first ends.end position.now after) }
{
    let mut after = Row::new(alloc);
    for count in ends.first..ends.end {
        let more = position_behind(alloc, pattern, values, position, count)?;
        after = append(after, more)?;
    }
    Ok(after)
}

/// The position behind so many elements, if they can be those of the pattern's value.
#[cycle(candidates)]
fn position_behind(
    alloc: Global,
    pattern: &IlExp,
    values: &[Value],
    position: &Position,
    count: usize,
) -> Result<Row<Position>, NoMemory>
    requires { count ≤ length (drop position.now.taken values.now) }
    ensures { IfOk result (λ after. CutLeads pattern.now values.now count position.now after) }
{
    let left = left_of(values, position.taken);
    let envs = slice_candidates(alloc, pattern, &left[..count], position.envs.as_slice())?;
    if envs.is_empty() {
        return Ok(Row::new(alloc));
    }
    let behind = Position {
        taken: position.taken + count,
        envs,
    };
    let after = single(alloc, behind)?;
    Ok(after)
}

/// The candidates of two lists, one behind the other, wherever the first one ends.
#[cycle(candidates)]
fn cut_candidates(
    alloc: Global,
    pattern: &IlExp,
    values: &[Value],
    envs: &[Env],
) -> Result<Row<Env>, NoMemory>
    ensures { IfOk result (λ found. IfCat pattern.now (λ left right.
        AreCandidatesOfCuts left right values.now envs.now found)) }
{
    let mut found = Row::new(alloc);
    for count in 0..values.len() + 1 {
        let more = cut_at(alloc, pattern, values, count, envs)?;
        found = append(found, more)?;
    }
    Ok(found)
}

/// The candidates of two lists, of which the first has so many elements.
#[cycle(candidates)]
fn cut_at(
    alloc: Global,
    pattern: &IlExp,
    values: &[Value],
    count: usize,
    envs: &[Env],
) -> Result<Row<Env>, NoMemory>
    requires { count ≤ length values.now }
    ensures { IfOk result (λ found. IfCat pattern.now (λ left right.
        AreCandidatesOfCut left right values.now count envs.now found)) }
{
    match pattern {
        IlExp::Cat(left, right) => {
            let first = slice_candidates(alloc, left.get(), &values[..count], envs)?;
            let first = first.as_slice();
            let found = slice_candidates(alloc, right.get(), &values[count..], first)?;
            Ok(found)
        }
        _ => Ok(Row::new(alloc)),
    }
}

// ---- iterations

/// The number of the elements, where the value is a list.
fn element_count(value: &Value) -> usize
    ensures { IsElementCount value.now result }
{
    match value {
        Value::List(values) => values.len(),
        _ => 0,
    }
}

/// The number as a value.
fn number(count: usize) -> Value
    ensures { result ≡ Value.Num (pos count) }
{
    match Num::new(false, count as u128) {
        Some(number) => Value::Num(number),
        None => unreachable!(),
    }
}

/// The candidates of the count of an iteration, if it has one.
#[cycle(candidates)]
fn count_candidates(
    alloc: Global,
    how: &Iteration,
    count: usize,
    envs: &[Env],
) -> Result<Row<Env>, NoMemory>
    ensures { IfOk result (λ found. AreCandidatesOfCount how.now count envs.now found) }
{
    match how {
        Iteration::Star | Iteration::Plus | Iteration::Quest => {
            let found = copy_envs(alloc, envs)?;
            Ok(found)
        }
        Iteration::Times(pattern) => {
            let found = candidates(alloc, pattern.get(), &number(count), envs)?;
            Ok(found)
        }
        Iteration::Below(_, pattern) => {
            let found = candidates(alloc, pattern.get(), &number(count), envs)?;
            Ok(found)
        }
    }
}

/// The candidates of an iteration, where its count is met.
#[cycle(candidates)]
fn iterated_candidates(
    alloc: Global,
    body: &IlExp,
    how: &Iteration,
    names: &[Name],
    value: &Value,
    counted: &[Env],
) -> Result<Row<Env>, NoMemory>
    ensures { IfOk result (λ found.
        AreCandidatesOfElements how.now names.now body.now value.now counted.now found) }
{
    match column_of(how, names, body) {
        // the whole value is the variable's, so that no element needs an environment
        Some(name) => {
            let found = bind_each(alloc, name, value, counted)?;
            Ok(found)
        }
        None => {
            let rows = rows_of(alloc, body, kind_of(how), value)?;
            let found = with_rows_each(alloc, how, names, rows.as_slice(), counted)?;
            Ok(found)
        }
    }
}

/// The rows of environments of the elements of a value.
#[cycle(candidates)]
fn rows_of(
    alloc: Global,
    body: &IlExp,
    kind: Kind,
    value: &Value,
) -> Result<Row<Row<Env>>, NoMemory>
    ensures { IfOk result (λ rows. AreRowsOf kind body.now value.now rows) }
{
    match kind {
        Kind::List => match value {
            Value::List(values) => {
                let rows = element_rows(alloc, body, values.as_slice())?;
                Ok(rows)
            }
            _ => Ok(Row::new(alloc)),
        },
        Kind::Opt => match value {
            Value::Opt(option) => {
                let rows = option_rows(alloc, body, option)?;
                Ok(rows)
            }
            _ => Ok(Row::new(alloc)),
        },
    }
}

/// The rows of environments of the part of an option, if it has one.
#[cycle(candidates)]
fn option_rows(
    alloc: Global,
    body: &IlExp,
    option: &Option<Boxed<Value>>,
) -> Result<Row<Row<Env>>, NoMemory>
    ensures { IfOk result (λ rows. AreRows body.now (option_list option.now) rows) }
{
    match option {
        Some(part) => {
            let rows = element_rows(alloc, body, from_ref(part.get()))?;
            Ok(rows)
        }
        None => {
            let rows = no_elements(alloc)?;
            Ok(rows)
        }
    }
}

/// The rows of environments of these elements.
#[cycle(candidates)]
fn element_rows(alloc: Global, body: &IlExp, values: &[Value]) -> Result<Row<Row<Env>>, NoMemory>
    ensures { IfOk result (λ rows. AreRows body.now values.now rows) }
{
    let mut rows = no_elements(alloc)?;
    for value in values {
        rows = longer_rows(alloc, body, value, rows)?;
    }
    Ok(rows)
}

/// The rows with one element more. In an element nothing is known of the variables outside.
#[cycle(candidates)]
fn longer_rows(
    alloc: Global,
    body: &IlExp,
    value: &Value,
    rows: Row<Row<Env>>,
) -> Result<Row<Row<Env>>, NoMemory>
    ensures { IfOk result (λ longer. RowsLead body.now value.now rows longer) }
{
    if rows.is_empty() {
        return Ok(rows);
    }
    let start = no_variables(alloc)?;
    let envs = candidates(alloc, body, value, start.as_slice())?;
    let longer = product(alloc, rows, envs.as_slice())?;
    Ok(longer)
}
