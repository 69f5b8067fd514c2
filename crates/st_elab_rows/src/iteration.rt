//! The variables that an iteration names.

ghost use Rattle.std.specs.Prelude.{◌≡◌, length, IfOk};
ghost use Rattle.st_elab_table.specs.Iterations.{is_iterated, iterated_in};

use st_dims::{Within, is_among};
use st_elab_table::Scope;
use st_il::{HasVariables, Ty};
use st_num::{Dim, Name, NoMemory, Row};
use std::alloc::Global;

/// Whether the iteration, with this inside of it, goes over the variable.
fn is_iterated<P: HasVariables>(
    depth: usize,
    inner: &Within,
    body: &P,
    variable: &(Name, Ty, Dim),
) -> bool
    ensures { result ≡ is_iterated depth inner.now.indices (P.occurs body.now) variable.now }
{
    if variable.2.as_slice().len() <= depth || is_among(&variable.0, inner.indices.as_slice()) {
        return false;
    }
    body.has(&variable.0)
}

/// The variables that an iteration with this body names.
pub fn iterated<P: HasVariables>(
    alloc: Global,
    scope: &Scope,
    within: &Within,
    inner: &Within,
    body: &P,
) -> Result<Row<Name>, NoMemory>
    ensures { IfOk result (λ names. names ≡ iterated_in scope.now.variables
        (length within.now.kinds) inner.now.indices (P.occurs body.now)) }
{
    let depth = within.kinds.as_slice().len();
    let mut names = Row::new(alloc);
    for variable in scope.variables.as_slice() {
        if is_iterated(depth, inner, body, variable) {
            names.push(variable.0.copy(alloc)?)?;
        }
    }
    Ok(names)
}
