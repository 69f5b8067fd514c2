//! Clauses, elaborated.

ghost use Rattle.std.specs.Prelude.{◌≡◌, map, IfOk};
ghost use Rattle.st_il.specs.declared.definition.ClauseDef.{ClauseDef};
ghost use Rattle.st_il.specs.declared.definition.Il.{Il};
ghost use Rattle.st_elab_table.specs.Questions.{Breach};
ghost use Rattle.st_elab_law.specs.Agreement.{Declares};
ghost use Rattle.st_elab_rows.specs.Told.{Told};
ghost use Rattle.st_elab_exp.specs.Exactly.{IsGiven, IsRefused};
ghost use Rattle.st_elab_exp.specs.Erasing.{ClauseErases};
ghost use Rattle.st_elab_table.specs.Scopes.{IsScope, listed};
ghost use Rattle.st_elab_table.specs.Clauses.{parts_of, mentions_of, HasArguments, ElabClause, ClauseBreach};

use crate::elaborate::around;
use crate::inside::{check_inside, check_parts};
use crate::premise::elaborate_prems;
use crate::scope::{listed, scope_of};
use st_dims::mentions_of;
use st_el::{Exp, Prem};
use st_elab_table::{Decls, ExpFault, Scope};
use st_il::{ClauseDef, FunDef, IlExp, IlPrem};
use st_num::{Boxed, NoMemory, Row, RuleId, Span};
use std::alloc::Global;

/// The clause of these parts.
fn clause_of(
    alloc: Global,
    scope: &Scope,
    fun: &FunDef,
    args: Row<IlExp>,
    value: Boxed<IlExp>,
    premises: Row<IlPrem>,
) -> Result<ClauseDef, NoMemory>
    ensures { IfOk result (λ clause. clause
        ≡ record {
          fun = fun.now.name;
          variables = map listed scope.now.variables;
          args = args;
          result = value;
          premises = premises;
        }) }
{
    let name = fun.name.copy(alloc)?;
    let variables = listed(alloc, scope)?;
    Ok(ClauseDef {
        fun: name,
        variables,
        args,
        result: value.into_inner(),
        premises,
    })
}

/// What the clause is, in the scope of its variables.
fn clause_in(
    alloc: Global,
    decls: &Decls,
    scope: &Scope,
    fun: &FunDef,
    args: &[Exp],
    value: &Exp,
    premises: &[Prem],
) -> Result<ClauseDef, ExpFault>
    requires number { HasArguments fun.now (parts_of args.now value.now premises.now) }
    requires scope { IsScope decls.now (mentions_of (parts_of args.now value.now premises.now))
        scope.now }
    ensures { (at : Span)
        → Told (ElabClause decls.now fun.now (parts_of args.now value.now premises.now))
        (ClauseBreach decls.now fun.now at (parts_of args.now value.now premises.now)) result }
{
    let within = around(alloc, scope)?;
    let exps = check_parts(alloc, decls, scope, &within, args, fun.params.as_slice())?;
    let one = check_inside(alloc, decls, scope, &within, value, &fun.result)?;
    let prems = elaborate_prems(alloc, decls, scope, &within, premises)?;
    Ok(clause_of(alloc, scope, fun, exps, one, prems)?)
}

/// What a clause of this function is, whose definition stands at this place: exactly its
/// elaboration, or else exactly the first breach. It is erased to the clause. Memory is wanting
/// also where more than 10,000 questions lie inside one another.
pub fn elaborate_clause(
    alloc: Global,
    decls: &Decls,
    fun: &FunDef,
    at: Span,
    args: &Row<Exp>,
    value: &Exp,
    premises: &Row<Prem>,
) -> Result<ClauseDef, ExpFault>
    ensures told { Told (ElabClause decls.now fun.now
        (parts_of args.now value.now premises.now))
        (ClauseBreach decls.now fun.now at (parts_of args.now value.now premises.now)) result }
    ensures gives { (clause : ClauseDef)
        → ElabClause decls.now fun.now (parts_of args.now value.now premises.now) clause
        → IsGiven clause result }
    ensures refuses { (b : Breach)
        → ClauseBreach decls.now fun.now at (parts_of args.now value.now premises.now) b
        → IsRefused b result }
    ensures erased { (il : Il) → Declares il decls.now
        → IfOk result (ClauseErases il fun.now (parts_of args.now value.now premises.now)) }
{
    if args.len() != fun.params.len() {
        return Err(ExpFault::Refused {
            at,
            rule: RuleId::Y6,
        });
    }
    let mentions = mentions_of(alloc, args.as_slice(), value, premises.as_slice())?;
    let scope = scope_of(alloc, decls, mentions.as_slice())?;
    clause_in(
        alloc,
        decls,
        &scope,
        fun,
        args.as_slice(),
        value,
        premises.as_slice(),
    )
}
