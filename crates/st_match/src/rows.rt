//! Rows of environments, one for each element of an iteration, and the columns of their variables.

ghost use Rattle.std.specs.Prelude.{◌≡◌, ◌++◌, IfOk, IfSome, OnOk, [], ◌∷◌, map};
ghost use Rattle.st_il.specs.Names.{has_name};
ghost use Rattle.st_semantics.specs.Iterations.{kind_of, index_of};
ghost use Rattle.st_match.specs.inner.Fitting.{column_value};
ghost use Rattle.st_match.specs.inner.Covering.{Covers, IsVariable, IsColumn};
ghost use Rattle.st_match.specs.inner.Rows.{with_each, product, row_column, row_values, in_columns, HasColumns, ColumnsCover, ColumnCovers, AllColumnsCover};

use crate::environment::{append, bind_each, copy_envs, find, single};
use st_il::{Env, IlExp, Iteration, Value, copy_env, copy_value};
use st_num::{Boxed, Kind, Name, NoMemory, Row};
use std::alloc::Global;

/// What the iteration goes over.
pub(crate) fn kind_of(how: &Iteration) -> Kind
    ensures { result ≡ kind_of how.now }
{
    match how {
        Iteration::Quest => Kind::Opt,
        Iteration::Star | Iteration::Plus => Kind::List,
        Iteration::Times(_) | Iteration::Below(_, _) => Kind::List,
    }
}

/// Whether the name is the index of the iteration.
pub(crate) fn is_index(how: &Iteration, name: &Name) -> bool
    ensures { result ≡ has_name (index_of how.now) name.now }
{
    match how {
        Iteration::Below(index, _) => name.as_slice() == index.as_slice(),
        Iteration::Star | Iteration::Plus | Iteration::Quest | Iteration::Times(_) => false,
    }
}

/// The variable that a pattern is, perhaps as one of a wider type.
fn variable_of(pattern: &IlExp) -> Option<&Name>
    ensures { IfSome result (λ x. IsVariable pattern.now x.now) }
{
    match pattern {
        IlExp::Var(name) => Some(name),
        IlExp::Up(_, part) => match part.get() {
            IlExp::Var(name) => Some(name),
            _ => None,
        },
        _ => None,
    }
}

/// The variable that an iteration goes over, where there is one and its body is that variable by
/// itself.
pub(crate) fn column_of<'a>(how: &Iteration, names: &'a [Name], body: &IlExp) -> Option<&'a Name>
    ensures { IfSome result (λ x. IsColumn how.now names.now body.now x.now) }
{
    let variable = variable_of(body)?;
    match names {
        [name] => {
            if is_index(how, name) || name.as_slice() != variable.as_slice() {
                return None;
            }
            Some(name)
        }
        _ => None,
    }
}

/// The row with one environment more.
fn with_env(alloc: Global, row: &[Env], env: &Env) -> Result<Row<Env>, NoMemory>
    ensures { IfOk result (λ longer. longer ≡ row.now ++ env.now ∷ []) }
{
    let mut longer = copy_envs(alloc, row)?;
    longer.push(copy_env(alloc, env)?)?;
    Ok(longer)
}

/// The row with each of these environments behind it.
fn with_each(alloc: Global, row: &[Env], envs: &[Env]) -> Result<Row<Row<Env>>, NoMemory>
    ensures { IfOk result (λ rows. rows ≡ with_each row.now envs.now) }
{
    let mut rows = Row::new(alloc);
    for env in envs {
        let longer = with_env(alloc, row, env)?;
        rows.push(longer)?;
    }
    Ok(rows)
}

/// Each row with each of these environments behind it, in new memory.
fn copied_product(alloc: Global, rows: &[Row<Env>], envs: &[Env]) -> Result<Row<Row<Env>>, NoMemory>
    ensures { IfOk result (λ longer. longer ≡ product rows.now envs.now) }
{
    let mut longer = Row::new(alloc);
    for row in rows {
        let more = with_each(alloc, row.as_slice(), envs)?;
        longer = append(longer, more)?;
    }
    Ok(longer)
}

/// Puts the environment behind each row.
fn push_on_each(alloc: Global, env: &Env, rows: &mut [Row<Env>]) -> Result<(), NoMemory>
    ensures { OnOk result (rows.new ≡ map (λ row. row ++ env.now ∷ []) rows.old) }
{
    for i in 0..rows.len() {
        let last = copy_env(alloc, env)?;
        rows[i].push(last)?;
    }
    Ok(())
}

/// Each row with the environment behind it, where the rows stand.
fn pushed(alloc: Global, rows: Row<Row<Env>>, env: &Env) -> Result<Row<Row<Env>>, NoMemory>
    ensures { IfOk result (λ longer. longer ≡ map (λ row. row ++ env.now ∷ []) rows) }
{
    let mut longer = rows.into_vec();
    push_on_each(alloc, env, &mut longer)?;
    Ok(Row::from_vec(longer))
}

/// Each row with each of these environments behind it. Where there is one environment, no row is
/// copied.
pub(crate) fn product(
    alloc: Global,
    rows: Row<Row<Env>>,
    envs: &[Env],
) -> Result<Row<Row<Env>>, NoMemory>
    ensures { IfOk result (λ longer. longer ≡ product rows envs.now) }
{
    if envs.len() != 1 {
        return copied_product(alloc, rows.as_slice(), envs);
    }
    let longer = pushed(alloc, rows, &envs[0])?;
    Ok(longer)
}

/// One row, of no environments.
pub(crate) fn no_elements(alloc: Global) -> Result<Row<Row<Env>>, NoMemory>
    ensures { IfOk result (λ rows. rows ≡ [] ∷ []) }
{
    let row = Row::new(alloc);
    single(alloc, row)
}

/// The values of a variable in the environments of a row, where it has one in each.
fn row_values(alloc: Global, name: &Name, row: &[Env]) -> Result<Option<Row<Value>>, NoMemory>
    ensures { IfOk result (λ values. values ≡ row_values name.now row.now) }
{
    let mut values = Row::new(alloc);
    for env in row {
        match find(name, env) {
            None => return Ok(None),
            Some(value) => values.push(copy_value(alloc, value)?)?,
        }
    }
    Ok(Some(values))
}

/// The column of a variable in a row. That of an index is not asked for.
fn row_column(
    alloc: Global,
    how: &Iteration,
    name: &Name,
    row: &[Env],
) -> Result<Option<Row<Value>>, NoMemory>
    ensures { IfOk result (λ values. values ≡ row_column (index_of how.now) name.now row.now) }
{
    if is_index(how, name) {
        return Ok(None);
    }
    let values = row_values(alloc, name, row)?;
    Ok(values)
}

/// What is gathered of the elements of a variable.
fn column_value(alloc: Global, how: &Iteration, values: Row<Value>) -> Result<Value, NoMemory>
    ensures { IfOk result (λ value. value ≡ column_value (kind_of how.now) values) }
{
    match kind_of(how) {
        Kind::List => Ok(Value::List(values)),
        Kind::Opt => match values.as_slice() {
            [] => Ok(Value::Opt(None)),
            [value, ..] => {
                let part = copy_value(alloc, value)?;
                Ok(Value::Opt(Some(Boxed::new(alloc, part)?)))
            }
        },
    }
}

/// These environments with the column of a variable, where the row has one.
fn with_column(
    alloc: Global,
    how: &Iteration,
    name: &Name,
    row: &[Env],
    envs: &[Env],
) -> Result<Row<Env>, NoMemory>
    ensures { IfOk result (λ found. ColumnCovers (row_column (index_of how.now) name.now row.now)
        (kind_of how.now) name.now envs.now found) }
{
    match row_column(alloc, how, name, row)? {
        None => {
            let found = copy_envs(alloc, envs)?;
            Ok(found)
        }
        Some(values) => {
            let value = column_value(alloc, how, values)?;
            let found = bind_each(alloc, name, &value, envs)?;
            Ok(found)
        }
    }
}

/// The environment with the columns of a row, if it has no other values of their variables.
fn with_columns(
    alloc: Global,
    how: &Iteration,
    names: &[Name],
    row: &[Env],
    env: &Env,
) -> Result<Row<Env>, NoMemory>
    ensures { IfOk result (λ found.
        Covers (HasColumns (kind_of how.now) (index_of how.now) names.now row.now)
        (in_columns (index_of how.now) names.now row.now) (env.now ∷ []) found) }
{
    let same = copy_env(alloc, env)?;
    let mut found = single(alloc, same)?;
    for name in names {
        found = with_column(alloc, how, name, row, found.as_slice())?;
    }
    Ok(found)
}

/// The environments that the columns of these rows give to one.
fn with_rows(
    alloc: Global,
    how: &Iteration,
    names: &[Name],
    rows: &[Row<Env>],
    env: &Env,
) -> Result<Row<Env>, NoMemory>
    ensures { IfOk result (λ found. ColumnsCover how.now names.now rows.now env.now found) }
{
    let mut found = Row::new(alloc);
    for row in rows {
        let more = with_columns(alloc, how, names, row.as_slice(), env)?;
        found = append(found, more)?;
    }
    Ok(found)
}

/// The environments that the columns of these rows give to each of several.
pub(crate) fn with_rows_each(
    alloc: Global,
    how: &Iteration,
    names: &[Name],
    rows: &[Row<Env>],
    envs: &[Env],
) -> Result<Row<Env>, NoMemory>
    ensures { IfOk result (λ found. AllColumnsCover how.now names.now rows.now envs.now found) }
{
    let mut found = Row::new(alloc);
    for env in envs {
        let more = with_rows(alloc, how, names, rows, env)?;
        found = append(found, more)?;
    }
    Ok(found)
}
