//! Expressions and fillings, elaborated inside of iterations.

ghost use Rattle.std.specs.Prelude.{◌≡◌, length};
ghost use Rattle.st_el.specs.declared.expression.Count.{out-Count};
ghost use Rattle.st_notation.specs.Fitted.{fillings};
ghost use Rattle.st_elab_table.specs.Collections.{counted_at};
ghost use Rattle.st_elab_table.specs.Steps.{exp_of, holes, each_asked};
ghost use Rattle.st_elab_rows.specs.Told.{Told, Reaches, TellsAll};
ghost use Rattle.st_elab_table.specs.Inside.{ElabInside, InsideBreach};

use crate::collection::all_holes;
use crate::driver::answer;
use crate::inferred::arguments;
use crate::turn::counted;
use st_dims::Within;
use st_el::{Count, Exp};
use st_elab_rows::asking::{Asking, Context, by_itself};
use st_elab_table::{Decls, ExpFault, Scope};
use st_il::{IlExp, Iteration, Ty};
use st_notation::Filled;
use st_num::{Boxed, Row, Span};
use std::alloc::Global;

/// What the expression is at the type, inside of this, or the first breach.
pub fn check_inside(
    alloc: Global,
    decls: &Decls,
    scope: &Scope,
    within: &Within,
    exp: &Exp,
    ty: &Ty,
) -> Result<Boxed<IlExp>, ExpFault>
    ensures { Told (ElabInside decls.now scope.now within.now exp.now ty.now)
        (InsideBreach decls.now scope.now within.now exp.now ty.now) result }
{
    let context = Context {
        alloc,
        decls,
        scope,
        within,
    };
    let found = answer(&context, &Asking::Check(by_itself(exp), ty))?;
    Ok(found.exp)
}

/// What each part is at its type, inside of this, or the first breach.
pub fn check_parts(
    alloc: Global,
    decls: &Decls,
    scope: &Scope,
    within: &Within,
    parts: &[Exp],
    tys: &[Ty],
) -> Result<Row<IlExp>, ExpFault>
    requires { length parts.now ≡ length tys.now }
    ensures { TellsAll decls.now scope.now (each_asked within.now parts.now tys.now) exp_of
        result }
{
    let context = Context {
        alloc,
        decls,
        scope,
        within,
    };
    arguments(&context, &answer, parts, tys)
}

/// What fills each hole, at the type of the hole, inside of this, or the first breach.
pub fn check_fillings(
    alloc: Global,
    decls: &Decls,
    scope: &Scope,
    within: &Within,
    at: Span,
    filled: &[Filled<'_>],
    tys: &[Ty],
) -> Result<Row<IlExp>, ExpFault>
    requires { length filled.now ≡ length tys.now }
    ensures { TellsAll decls.now scope.now (holes within.now at (fillings filled.now) tys.now)
        exp_of result }
{
    let context = Context {
        alloc,
        decls,
        scope,
        within,
    };
    all_holes(&context, &answer, at, &[], filled, tys)
}

/// How often an iteration goes that stands inside of this, or the first breach.
pub fn check_count(
    alloc: Global,
    decls: &Decls,
    scope: &Scope,
    within: &Within,
    count: &Count,
) -> Result<Iteration, ExpFault>
    ensures { Reaches decls.now scope.now (counted_at within.now (out-Count count.now))
        (λ times. times) result }
{
    let context = Context {
        alloc,
        decls,
        scope,
        within,
    };
    counted(&context, &answer, count)
}
