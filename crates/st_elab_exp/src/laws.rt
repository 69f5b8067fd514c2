//! The laws of rules and clauses.

ghost use Rattle.std.specs.Prelude.{ℕ, List};
ghost use Rattle.st_num.specs.declared.span.Span.{Span};
ghost use Rattle.st_el.specs.declared.expression.Exp.{Exp};
ghost use Rattle.st_el.specs.declared.definition.Prem.{Prem};
ghost use Rattle.st_il.specs.declared.definition.FunDef.{FunDef};
ghost use Rattle.st_il.specs.declared.definition.RelationDef.{RelationDef};
ghost use Rattle.st_elab_table.specs.declared.decls.Decls.{Decls};
ghost use Rattle.st_elab_exp.specs.Single.{HasOneOutcome};
ghost use Rattle.st_elab_table.specs.Rules.{ElabRule, RuleBreach};
ghost use Rattle.st_elab_table.specs.Clauses.{ClauseParts, ElabClause, ClauseBreach};

/// A rule has at most one elaboration or one first breach, and not both.
pub fn one_rule()
    ensures { (D : Decls) (R : RelationDef) (name : List ℕ) (conclusion : Exp)
        (premises : List Prem)
        → HasOneOutcome (ElabRule D R name conclusion premises)
        (RuleBreach D R conclusion premises) }
{}

/// A clause has at most one elaboration or one first breach, and not both.
pub fn one_clause()
    ensures { (D : Decls) (f : FunDef) (at : Span) (c : ClauseParts)
        → HasOneOutcome (ElabClause D f c) (ClauseBreach D f at c) }
{}
