//! Paths into values: what stands at their end is replaced.

ghost use Rattle.std.specs.Prelude.{◌≡◌, ◌+◌, ◌<◌, ◌≤◌, ◌++◌, ◌∷◌, map, take, drop, length, option_map, option_and_then, IfOk};
ghost use Rattle.st_semantics.specs.Parts.{elements};
ghost use Rattle.st_il.specs.declared.expression.PathSeg.{out-PathSeg};
ghost use Rattle.st_semantics.specs.Paths.{step_at, path_of, replaced, in_field, in_element, in_part, put_back, finished};
ghost use Rattle.st_match.specs.inner.Changes.{step_of, step_here, path_here, keeps, replacing, along_change, with_value};

use crate::arithmetic::natural;
use crate::list::{concatenation_of, elements, nth, part_of};
use crate::made::{append, made};
use crate::record::fields;
use st_il::{PathSeg, Value, copy_fields, copy_value, copy_values};
use st_num::{Name, NoMemory, Row};
use st_semantics::Outcome;
use std::alloc::Global;

/// A step of a path, with the values of its positions.
#[derive(Clone, Copy)]
pub(crate) enum Stride<'a> {
    Into(&'a Name),
    Nth(u128),
    /// From a position on, so many elements.
    Part(u128, u128),
}

/// What comes in the place of a value.
#[derive(Clone, Copy)]
pub(crate) enum Change {
    /// The new value.
    Set,
    /// The old list with the new one behind it.
    Extend,
}

/// The step of a segment, with the first of these values, and the values behind them.
fn step_at<'a, 'b>(segment: &'a PathSeg, values: &'b [Value]) -> Option<(Stride<'a>, &'b [Value])>
    ensures { option_map step_here result ≡ step_at (out-PathSeg segment.now) values.now }
{
    match segment {
        PathSeg::Field(name) => Some((Stride::Into(name), values)),
        PathSeg::At(_) => {
            let (position, rest) = values.split_first()?;
            let position = natural(position)?;
            Some((Stride::Nth(position), rest))
        }
        PathSeg::Slice(_, _) => {
            let (from, rest) = values.split_first()?;
            let (size, rest) = rest.split_first()?;
            let from = natural(from)?;
            let size = natural(size)?;
            Some((Stride::Part(from, size), rest))
        }
    }
}

/// The steps of a path, with the first of these values, and the values behind them.
fn path_of<'a, 'b>(
    alloc: Global,
    path: &'a [PathSeg],
    values: &'b [Value],
) -> Result<Option<(Row<Stride<'a>>, &'b [Value])>, NoMemory>
    ensures { IfOk result (λ found. option_map path_here found ≡ path_of path.now values.now) }
{
    let mut steps = Row::new(alloc);
    let mut left = values;
    for segment in path {
        let Some((step, rest)) = step_at(segment, left) else {
            return Ok(None);
        };
        steps.push(step)?;
        left = rest;
    }
    Ok(Some((steps, left)))
}

/// What comes in the place of this value.
fn replacement(
    alloc: Global,
    how: Change,
    new: &Value,
    old: &Value,
) -> Result<Option<Value>, NoMemory>
    ensures { IfOk result (λ value. value ≡ replacing how new.now old.now) }
{
    match how {
        Change::Set => {
            let value = copy_value(alloc, new)?;
            Ok(Some(value))
        }
        Change::Extend => {
            let value = concatenation_of(alloc, old, new)?;
            Ok(value)
        }
    }
}

/// The value, in which what stands at the end of these steps is replaced.
#[cycle(replace)]
fn replaced(
    alloc: Global,
    steps: &[Stride],
    how: Change,
    new: &Value,
    old: &Value,
) -> Result<Option<Value>, NoMemory>
    ensures { IfOk result (λ value.
        value ≡ replaced (keeps how) (replacing how new.now) (map step_of steps.now) old.now) }
{
    match steps.split_first() {
        None => {
            let value = replacement(alloc, how, new, old)?;
            Ok(value)
        }
        Some((Stride::Into(name), rest)) => {
            let Some(fields) = fields(old) else {
                return Ok(None);
            };
            let found = in_field(alloc, rest, how, new, name, fields)?;
            match found {
                None => Ok(None),
                Some(fields) => Ok(Some(Value::Fields(fields))),
            }
        }
        Some((Stride::Nth(position), rest)) => {
            let Some(elements) = elements(old) else {
                return Ok(None);
            };
            let found = in_element(alloc, rest, how, new, *position, elements)?;
            match found {
                None => Ok(None),
                Some(elements) => Ok(Some(Value::List(elements))),
            }
        }
        Some((Stride::Part(from, size), rest)) => {
            let Some(elements) = elements(old) else {
                return Ok(None);
            };
            let found = in_part(alloc, rest, how, new, *from, *size, elements)?;
            match found {
                None => Ok(None),
                Some(elements) => Ok(Some(Value::List(elements))),
            }
        }
    }
}

/// The fields, where what stands in the first field of this name is replaced.
#[cycle(replace)]
fn in_field(
    alloc: Global,
    rest: &[Stride],
    how: Change,
    new: &Value,
    name: &Name,
    fields: &[(Name, Value)],
) -> Result<Option<Row<(Name, Value)>>, NoMemory>
    ensures { IfOk result (λ found. found ≡ in_field name.now
        (replaced (keeps how) (replacing how new.now) (map step_of rest.now)) fields.now) }
{
    for (i, field) in fields.iter().enumerate() {
        if name.as_slice() == field.0.as_slice() {
            let value = replaced(alloc, rest, how, new, &field.1)?;
            let found = with_field(alloc, fields, i, &field.0, value)?;
            return Ok(found);
        }
    }
    Ok(None)
}

/// The fields with this value under this name in the place of the field at a position, where there is
/// a value.
fn with_field(
    alloc: Global,
    fields: &[(Name, Value)],
    at: usize,
    name: &Name,
    value: Option<Value>,
) -> Result<Option<Row<(Name, Value)>>, NoMemory>
    requires { at < length fields.now }
    ensures { IfOk result (λ found. found ≡ with_value at fields.now name.now value) }
{
    let Some(value) = value else {
        return Ok(None);
    };
    let name = name.copy(alloc)?;
    let mut all = copy_fields(alloc, &fields[..at])?;
    all.push((name, value))?;
    let after = copy_fields(alloc, &fields[at + 1..])?;
    let all = append(all, after)?;
    Ok(Some(all))
}

/// The elements, where the one at this position is replaced.
#[cycle(replace)]
fn in_element(
    alloc: Global,
    rest: &[Stride],
    how: Change,
    new: &Value,
    position: u128,
    elements: &[Value],
) -> Result<Option<Row<Value>>, NoMemory>
    ensures { IfOk result (λ found. found ≡ in_element position
        (replaced (keeps how) (replacing how new.now) (map step_of rest.now)) elements.now) }
{
    let Some(element) = nth(elements, position) else {
        return Ok(None);
    };
    let value = replaced(alloc, rest, how, new, element)?;
    match value {
        None => Ok(None),
        Some(value) => {
            let all = with_element(alloc, elements, position, value)?;
            Ok(Some(all))
        }
    }
}

/// The elements with this value in the place of the one at this position.
fn with_element(
    alloc: Global,
    elements: &[Value],
    position: u128,
    value: Value,
) -> Result<Row<Value>, NoMemory>
    requires { position < length elements.now }
    ensures { IfOk result (λ all.
        all ≡ take position elements.now ++ value ∷ drop (position + 1) elements.now) }
{
    let at = position as usize;
    let mut all = copy_values(alloc, &elements[..at])?;
    all.push(value)?;
    let after = copy_values(alloc, &elements[at + 1..])?;
    let all = append(all, after)?;
    Ok(all)
}

/// The elements, where a slice is replaced, which keeps its length or may change it.
#[cycle(replace)]
fn in_part(
    alloc: Global,
    rest: &[Stride],
    how: Change,
    new: &Value,
    from: u128,
    size: u128,
    elements: &[Value],
) -> Result<Option<Row<Value>>, NoMemory>
    ensures { IfOk result (λ found. found ≡ in_part (keeps how) from size
        (replaced (keeps how) (replacing how new.now) (map step_of rest.now)) elements.now) }
{
    let Some(part) = part_of(from, size, elements) else {
        return Ok(None);
    };
    let part = Value::List(copy_values(alloc, part)?);
    let value = replaced(alloc, rest, how, new, &part)?;
    let found = put_back(alloc, how, from, size, elements, value)?;
    Ok(found)
}

/// A part of a list, where it is to keep its length or may get another one.
fn put_back(
    alloc: Global,
    how: Change,
    from: u128,
    size: u128,
    old: &[Value],
    value: Option<Value>,
) -> Result<Option<Row<Value>>, NoMemory>
    requires { from + size ≤ length old.now }
    ensures { IfOk result (λ found. found ≡ option_and_then
        (put_back (keeps how) from size old.now) (option_and_then elements value)) }
{
    let Some(Value::List(part)) = value else {
        return Ok(None);
    };
    match how {
        Change::Set => {
            if part.len() as u128 != size {
                return Ok(None);
            }
        }
        Change::Extend => {}
    }
    let end = from + size;
    let before = copy_values(alloc, &old[..from as usize])?;
    let after = copy_values(alloc, &old[end as usize..])?;
    let all = append(before, part)?;
    let all = append(all, after)?;
    Ok(Some(all))
}

/// The first value, in which what stands at the end of the path is replaced with the last.
fn finished(
    alloc: Global,
    how: Change,
    path: &[PathSeg],
    value: &Value,
    values: &[Value],
) -> Result<Option<Value>, NoMemory>
    ensures { IfOk result (λ found. found ≡ option_and_then
        (finished (keeps how) (replacing how) value.now) (path_of path.now values.now)) }
{
    let Some((steps, rest)) = path_of(alloc, path, values)? else {
        return Ok(None);
    };
    match rest {
        [new] => {
            let found = replaced(alloc, steps.as_slice(), how, new, value)?;
            Ok(found)
        }
        _ => Ok(None),
    }
}

/// The first operand, in which what stands at the end of the path is replaced with the last; the
/// positions of the path stand between them.
pub(crate) fn along(
    alloc: Global,
    how: Change,
    path: &[PathSeg],
    operands: &[Value],
) -> Result<Outcome, NoMemory>
    ensures { IfOk result (λ outcome. outcome ≡ along_change how path.now operands.now) }
{
    match operands.split_first() {
        None => Ok(Outcome::NoValue),
        Some((value, values)) => {
            let found = finished(alloc, how, path, value, values)?;
            Ok(made(found))
        }
    }
}
