//! Expressions, elaborated: at a type, or with their own.

ghost use Rattle.std.specs.Prelude.{◌≡◌, IfOk};
ghost use Rattle.st_el.specs.Plain.{plain_exp};
ghost use Rattle.st_il.specs.declared.definition.Il.{Il};
ghost use Rattle.st_il.specs.declared.ty.Ty.{Ty};
ghost use Rattle.st_il.specs.declared.expression.IlExp.{IlExp};
ghost use Rattle.st_erase.specs.Erasure.{erased_exp};
ghost use Rattle.st_elab_table.specs.Questions.{Breach};
ghost use Rattle.st_elab_table.specs.Elaboration.{around, Elab, ElabBreach, Infer, InferBreach};
ghost use Rattle.st_elab_law.specs.Agreement.{IsTableOf};
ghost use Rattle.st_elab_rows.specs.Told.{Told};
ghost use Rattle.st_elab_exp.specs.Exactly.{IsGiven, IsRefused};

use crate::driver::answer;
use crate::inside::check_inside;
use st_dims::Within;
use st_el::Exp;
use st_elab_rows::asking::{Asking, Context};
use st_elab_table::{Decls, ExpFault, Scope};
use st_il::{IlExp, Ty};
use st_num::{Dim, NoMemory, Row};
use std::alloc::Global;

/// What stands round an expression in this scope.
pub fn around(alloc: Global, scope: &Scope) -> Result<Within, NoMemory>
    ensures { IfOk result (λ within. within ≡ around scope.now) }
{
    let kinds = Dim::from_slice(alloc, scope.around.as_slice())?;
    let indices = Row::new(alloc);
    Ok(Within { kinds, indices })
}

/// What the expression is at the type: exactly what the table gives, or else exactly the first
/// breach. It is erased to the expression. Memory is wanting also where more than 10,000
/// questions lie inside one another.
pub fn check_exp(
    alloc: Global,
    decls: &Decls,
    scope: &Scope,
    exp: &Exp,
    ty: &Ty,
) -> Result<IlExp, ExpFault>
    ensures told { Told (Elab decls.now scope.now exp.now ty.now)
        (ElabBreach decls.now scope.now exp.now ty.now) result }
    ensures gives { (x : IlExp) → Elab decls.now scope.now exp.now ty.now x → IsGiven x result }
    ensures refuses { (b : Breach) → ElabBreach decls.now scope.now exp.now ty.now b
        → IsRefused b result }
    ensures erased { (il : Il) → IsTableOf il.defs decls.now
        → IfOk result (λ x. plain_exp (erased_exp il x) ≡ plain_exp exp.now) }
{
    let within = around(alloc, scope)?;
    let checked = check_inside(alloc, decls, scope, &within, exp, ty)?;
    Ok(checked.into_inner())
}

/// What the expression is, and its type: exactly what the table gives, or else exactly the first
/// breach. It is erased to the expression. Memory is wanting also where more than 10,000
/// questions lie inside one another.
pub fn infer_exp(
    alloc: Global,
    decls: &Decls,
    scope: &Scope,
    exp: &Exp,
) -> Result<(IlExp, Ty), ExpFault>
    ensures told { Told (λ found. Infer decls.now scope.now exp.now found.0 found.1)
        (InferBreach decls.now scope.now exp.now) result }
    ensures gives { (x : IlExp) (t : Ty) → Infer decls.now scope.now exp.now x t
        → IsGiven (x, t) result }
    ensures refuses { (b : Breach) → InferBreach decls.now scope.now exp.now b
        → IsRefused b result }
    ensures erased { (il : Il) → IsTableOf il.defs decls.now
        → IfOk result (λ found. plain_exp (erased_exp il found.0) ≡ plain_exp exp.now) }
{
    let within = around(alloc, scope)?;
    let context = Context {
        alloc,
        decls,
        scope,
        within: &within,
    };
    let found = answer(&context, &Asking::Infer { at: exp.at, exp })?;
    Ok((found.exp.into_inner(), found.ty))
}
