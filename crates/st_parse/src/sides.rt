//! Parameters, arguments, types and results of the open definition.

ghost use Rattle.std.specs.Prelude.{◌≡◌};
ghost use Rattle.st_parse.specs.inner.Drafts as spec;

use crate::draft::{Draft, Sides};
use st_el::{Exp, Typ};
use st_num::Row;
use std::alloc::Global;

/// No parameters, no arguments, no type and no expression.
pub(crate) fn no_sides(alloc: Global) -> Sides
    ensures { result ≡ spec.no_sides }
{
    Sides {
        clause: false,
        params: Row::new(alloc),
        args: Row::new(alloc),
        typ: None,
        exp: None,
    }
}

/// The arguments are parameters.
pub(crate) fn put_params(draft: &mut Draft, params: Row<Typ>)
    ensures { draft.new ≡ spec.with_sides (spec.params_put params draft.old.sides) draft.old }
{
    draft.sides.clause = false;
    draft.sides.params = params;
}

/// The arguments are patterns.
pub(crate) fn put_args(draft: &mut Draft, args: Row<Exp>)
    ensures { draft.new ≡ spec.with_sides (spec.args_put args draft.old.sides) draft.old }
{
    draft.sides.clause = true;
    draft.sides.args = args;
}

/// The type of a variable or of a function is read.
pub(crate) fn put_typ(draft: &mut Draft, typ: Typ)
    ensures { draft.new ≡ spec.with_sides (spec.typ_put typ draft.old.sides) draft.old }
{
    draft.sides.typ = Some(typ);
}

/// A conclusion or the result of a clause is read.
pub(crate) fn put_exp(draft: &mut Draft, exp: Exp)
    ensures { draft.new ≡ spec.exp_filled exp draft.old }
{
    draft.sides.exp = Some(exp);
}
