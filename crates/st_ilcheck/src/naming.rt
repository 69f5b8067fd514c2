//! Which variables an iteration names.

ghost use Rattle.std.specs.Prelude.{◌≡◌};
ghost use Rattle.std.specs.List.{list_all};
ghost use Rattle.std.specs.Option.{option_copied};
ghost use Rattle.st_il.specs.declared.expression.IlExp.{out-IlExp};
ghost use Rattle.st_il.specs.Names.{has_name};
ghost use Rattle.st_semantics.specs.Iterations.{count_of, index_of};
ghost use Rattle.st_semantics.specs.Variables.{has_otherwise};
ghost use Rattle.st_ilcheck.specs.Naming.{has_dimension, goes_over, is_once, is_repeated, is_named, names_exactly, names_kept, each_kept};

use crate::listed::{has_name, listed_as};
use st_il::{HasVariables, IlExp, IlPrem, Iteration, Listed};
use st_num::Name;

/// Whether a listed variable has a dimension left.
fn has_dimension(variable: Option<&Listed>) -> bool
    ensures { result ≡ has_dimension (option_copied variable.entry) }
{
    match variable {
        Some(variable) => !variable.dim.as_slice().is_empty(),
        None => false,
    }
}

/// Whether the name is the index of the iteration.
fn is_index(how: &Iteration, name: &Name) -> bool
    ensures { result ≡ has_name (index_of how.now) name.now }
{
    match how {
        Iteration::Below(index, _) => name.as_slice() == index.as_slice(),
        Iteration::Star | Iteration::Plus | Iteration::Quest | Iteration::Times(_) => false,
    }
}

/// Whether the iteration with this body goes over the variable.
fn goes_over<P: HasVariables>(how: &Iteration, listed: &[Listed], body: &P, name: &Name) -> bool
    ensures { result ≡ goes_over how.now listed.now (P.occurs body.now) name.now }
{
    if !has_dimension(listed_as(listed, name)) || is_index(how, name) {
        return false;
    }
    body.has(name)
}

/// Whether no name stands twice.
fn is_once(names: &[Name]) -> bool
    ensures { result ≡ is_once names.now }
{
    for i in 0..names.len() {
        if has_name(&names[i + 1..], &names[i]) {
            return false;
        }
    }
    true
}

/// Whether the iteration goes over each of these variables.
fn all_gone_over<P: HasVariables>(
    how: &Iteration,
    names: &[Name],
    listed: &[Listed],
    body: &P,
) -> bool
    ensures { result
        ≡ list_all (goes_over how.now listed.now (P.occurs body.now)) names.now }
{
    for name in names {
        if !goes_over(how, listed, body, name) {
            return false;
        }
    }
    true
}

/// Whether a listed variable is named, where the iteration goes over it.
fn is_named<P: HasVariables>(
    how: &Iteration,
    names: &[Name],
    listed: &[Listed],
    body: &P,
    variable: &Listed,
) -> bool
    ensures { result
        ≡ is_named how.now names.now listed.now (P.occurs body.now) variable.now }
{
    !goes_over(how, listed, body, &variable.name) || has_name(names, &variable.name)
}

/// Whether each listed variable is named that the iteration goes over.
fn all_named<P: HasVariables>(how: &Iteration, names: &[Name], listed: &[Listed], body: &P) -> bool
    ensures { result
        ≡ list_all (is_named how.now names.now listed.now (P.occurs body.now)) listed.now }
{
    for variable in listed {
        if !is_named(how, names, listed, body, variable) {
            return false;
        }
    }
    true
}

/// Whether something is named or counted.
fn is_repeated(how: &Iteration, names: &[Name]) -> bool
    ensures { result ≡ is_repeated names.now (count_of how.now) }
{
    match how {
        Iteration::Times(_) | Iteration::Below(_, _) => true,
        Iteration::Star | Iteration::Plus | Iteration::Quest => !names.is_empty(),
    }
}

/// Whether the iteration names exactly the variables of its body that it goes over, each once, and
/// at least one unless it has a count.
fn names_exactly<P: HasVariables>(
    how: &Iteration,
    names: &[Name],
    listed: &[Listed],
    body: &P,
) -> bool
    ensures { result ≡ names_exactly how.now names.now listed.now (P.occurs body.now) }
{
    is_once(names)
        && all_gone_over(how, names, listed, body)
        && all_named(how, names, listed, body)
        && is_repeated(how, names)
}

/// Whether an expression, where these variables are listed, names in its iteration exactly the
/// variables of the body that it goes over, each once, and at least one unless it has a count. An
/// expression that is no iteration does. What stands inside of the body is not asked.
pub fn names_kept(listed: &[Listed], exp: &IlExp) -> bool
    ensures { result ≡ names_kept listed.now (out-IlExp exp.now) }
{
    match exp {
        IlExp::Iter(how, names, body) => {
            names_exactly(how, names.as_slice(), listed, body.get())
        }
        _ => true,
    }
}

/// Whether the premise is an `otherwise`, iterated or not.
fn has_otherwise(premise: &IlPrem) -> bool
    ensures { result ≡ has_otherwise premise.now }
{
    match premise {
        IlPrem::If(_) | IlPrem::Goal(_, _) => false,
        IlPrem::Otherwise => true,
        IlPrem::Each(_, _, body) => has_otherwise(body.get()),
    }
}

/// Whether a premise that is iterated so, where these variables are listed, names exactly the
/// variables of the body that it goes over, each once, and at least one unless it has a count; and
/// the body is no `otherwise`. What stands inside of the body is not asked.
pub fn each_kept(how: &Iteration, names: &[Name], listed: &[Listed], body: &IlPrem) -> bool
    ensures { result ≡ each_kept how.now names.now listed.now body.now }
{
    names_exactly(how, names, listed, body) && !has_otherwise(body)
}
