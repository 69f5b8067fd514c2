//! The laws of typing.

ghost use Rattle.std.specs.Prelude.{◌≡◌, ℕ, List, Some};
ghost use Rattle.std.specs.List.{AllByRecursion};
ghost use Rattle.st_el.specs.declared.expression.Exp.{Exp};
ghost use Rattle.st_el.specs.declared.definition.Prem.{Prem};
ghost use Rattle.st_il.specs.declared.definition.ClauseDef.{ClauseDef};
ghost use Rattle.st_il.specs.declared.definition.FunDef.{FunDef};
ghost use Rattle.st_il.specs.declared.definition.Il.{Il};
ghost use Rattle.st_il.specs.declared.definition.IlDef.TheVariants as def;
ghost use Rattle.st_il.specs.declared.definition.RelationDef.{RelationDef};
ghost use Rattle.st_il.specs.declared.definition.RuleDef.{RuleDef};
ghost use Rattle.st_ilcheck.specs.Declarations.{cited};
ghost use Rattle.st_ilcheck.specs.Typed.{KeepsVariables, KeepsIndices};
ghost use Rattle.st_elab_table.specs.declared.decls.Decls.{Decls};
ghost use Rattle.st_elab_table.specs.declared.decls.Scope.{Scope};
ghost use Rattle.st_elab_table.specs.Inferred.{fun_named};
ghost use Rattle.st_elab_table.specs.Judgements.{IsRelationOf};
ghost use Rattle.st_elab_table.specs.Rules.{ElabRule};
ghost use Rattle.st_elab_table.specs.Clauses.{ClauseParts, ElabClause};
ghost use Rattle.st_elab_law.specs.Agreement.{Declares};
ghost use Rattle.st_elab_typed.specs.Citations.{AreKnown, CitesKnown};
ghost use Rattle.st_elab_typed.specs.RuleNames.{DefKeepsNames};
ghost use Rattle.st_elab_typed.specs.Sources.{RepeatsNoOtherwise};
ghost use Rattle.st_elab_typed.specs.Law.{CheckedIsTyped, InferredIsTyped, ListingKeepsTypes};
ghost use Rattle.st_elab_typed.specs.RuleLaw.{AreDeclaredIn, RuleIsTyped, ClauseIsTyped};

/// T1: where the names in the types of all declarations are declared, what a rule or a clause
/// cites is declared, and each tag in it is a template with as many holes as operands.
pub fn elaborated_names_are_declared()
    ensures rules { (D : Decls) (R : RelationDef) (name : List ℕ) (conclusion : Exp)
        (premises : List Prem) (rule : RuleDef) → AreKnown D → IsRelationOf D R
        → ElabRule D R name conclusion premises rule → CitesKnown D (cited (def.Rule rule)) }
    ensures clauses { (D : Decls) (f : FunDef) (c : ClauseParts) (clause : ClauseDef)
        → AreKnown D → fun_named D.funs f.name ≡ Some f
        → ElabClause D f c clause → CitesKnown D (cited (def.Clause clause)) }
{}

/// T2: a variable of an elaborated rule or clause is listed once, with its dimension; the
/// iterations round each of its occurrences begin with it, and are all of it round one of them.
pub fn elaborated_variables_are_listed()
    ensures rules { (D : Decls) (R : RelationDef) (name : List ℕ) (conclusion : Exp)
        (premises : List Prem) (rule : RuleDef) → ElabRule D R name conclusion premises rule
        → KeepsVariables (def.Rule rule) }
    ensures clauses { (D : Decls) (f : FunDef) (c : ClauseParts) (clause : ClauseDef)
        → ElabClause D f c clause → KeepsVariables (def.Clause clause) }
{}

/// T14: an index in an elaborated rule or clause occurs only in bodies that have it as their
/// index.
pub fn elaborated_indices_stay_inside()
    ensures rules { (D : Decls) (R : RelationDef) (name : List ℕ) (conclusion : Exp)
        (premises : List Prem) (rule : RuleDef) → ElabRule D R name conclusion premises rule
        → KeepsIndices (def.Rule rule) }
    ensures clauses { (D : Decls) (f : FunDef) (c : ClauseParts) (clause : ClauseDef)
        → ElabClause D f c clause → KeepsIndices (def.Clause clause) }
{}

/// T14: an iteration in an elaborated rule or clause names exactly the variables of its body that
/// it goes over, and at least one unless it has a count; where no iterated premise of the source
/// is an `otherwise`, none in the internal language is.
pub fn elaborated_iterations_name_what_they_iterate()
    ensures rules { (D : Decls) (R : RelationDef) (name : List ℕ) (conclusion : Exp)
        (premises : List Prem) (rule : RuleDef) → AllByRecursion RepeatsNoOtherwise premises
        → ElabRule D R name conclusion premises rule → DefKeepsNames (def.Rule rule) }
    ensures clauses { (D : Decls) (f : FunDef) (c : ClauseParts) (clause : ClauseDef)
        → AllByRecursion RepeatsNoOtherwise c.premises → ElabClause D f c clause
        → DefKeepsNames (def.Clause clause) }
{}

/// What an expression is elaborated to, inside of whatever iterations, has the type that was asked,
/// or the one that is told where none was asked, and breaks none of the rules on types; where the
/// syntaxes break no rule, each of its variables is listed with its dimension, and each iteration
/// names what it goes over. The variables of a scope, as a rule lists them, are listed so.
pub fn elaborated_expressions_are_typed()
    ensures checked { CheckedIsTyped }
    ensures inferred { InferredIsTyped }
    ensures listing { (D : Decls) (S : Scope) → ListingKeepsTypes D S }
{}

/// What a rule or a clause is elaborated to breaks no rule on types, where the declarations are those
/// of the language, the syntaxes break no rule, and T2 and T14 are kept of its names. What the
/// definitions of a language declare is declared so.
pub fn elaborated_rules_are_typed()
    ensures rules { RuleIsTyped }
    ensures clauses { ClauseIsTyped }
    ensures declared { (il : Il) (D : Decls) → Declares il D → AreDeclaredIn il D }
{}
