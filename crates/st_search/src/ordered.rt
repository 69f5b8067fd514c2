//! Outputs in the order of their values, each once.

ghost use Rattle.std.specs.Prelude.{◌≡◌, ◌≤◌, ◌++◌, ◌∷◌, [], length, take, drop, IfOk};
ghost use Rattle.st_search.specs.inner.Ordered.{AreAdded, StandsAt};

use crate::answer::Output;
use st_il::compare_values;
use st_num::{NoMemory, Row};
use std::cmp::Ordering;

/// Where an output is to stand among others in order, unless one with its values is there.
fn position(output: &Output, found: &[Output]) -> Option<usize>
    ensures { StandsAt output.now found.now result }
{
    let values = output.values.as_slice();
    for i in 0..found.len() {
        match compare_values(values, found[i].values.as_slice()) {
            Ordering::Less => return Some(i),
            Ordering::Equal => return None,
            Ordering::Greater => {}
        }
    }
    Some(found.len())
}

/// The outputs with one more at this position.
fn insert_at(at: usize, output: Output, found: Row<Output>) -> Result<Row<Output>, NoMemory>
    requires { at ≤ length found }
    ensures { IfOk result (λ more. more ≡ take at found ++ output ∷ drop at found) }
{
    let mut more = found.into_vec();
    more.insert(at, output)?;
    Ok(Row::from_vec(more))
}

/// The outputs with one more; where one with its values is there, that one stays.
fn with_output(output: Output, found: Row<Output>) -> Result<Row<Output>, NoMemory>
    ensures { IfOk result (AreAdded (output ∷ []) found) }
{
    match position(&output, found.as_slice()) {
        None => Ok(found),
        Some(at) => {
            let more = insert_at(at, output, found)?;
            Ok(more)
        }
    }
}

/// The outputs with others.
pub(crate) fn with_outputs(others: Row<Output>, found: Row<Output>) -> Result<Row<Output>, NoMemory>
    ensures { IfOk result (AreAdded others found) }
{
    let mut others = others;
    let mut more = found;
    while let Some(output) = others.pop() {
        more = with_output(output, more)?;
    }
    Ok(more)
}
