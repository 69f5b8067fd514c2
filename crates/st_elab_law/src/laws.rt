//! The laws of erasure and of variables, and that each question is answered.

ghost use Rattle.std.specs.Prelude.{ℕ, List};
ghost use Rattle.st_el.specs.declared.expression.Exp.{Exp};
ghost use Rattle.st_el.specs.declared.definition.Prem.{Prem};
ghost use Rattle.st_il.specs.declared.definition.ClauseDef.{ClauseDef};
ghost use Rattle.st_il.specs.declared.definition.FunDef.{FunDef};
ghost use Rattle.st_il.specs.declared.definition.RelationDef.{RelationDef};
ghost use Rattle.st_il.specs.declared.definition.RuleDef.{RuleDef};
ghost use Rattle.st_elab_table.specs.declared.decls.Decls.{Decls};
ghost use Rattle.st_elab_table.specs.Rules.{ElabRule};
ghost use Rattle.st_elab_table.specs.Clauses.{ClauseParts, ElabClause};
ghost use Rattle.st_elab_law.specs.Law.{AnswersErase};
ghost use Rattle.st_elab_law.specs.KeepsNotes.{AnswersKeepNotes, RuleKeepsNotes, ClauseKeepsNotes};
ghost use Rattle.st_elab_law.specs.Totality.{EachIsAnswered};

/// What answers a question, inside of whatever iterations, is erased to what was asked, but for
/// places, parentheses and `$( )`: an expression at a type or with its own, an item of a
/// sequence, or what fills a hole.
pub fn erases_back()
    ensures { AnswersErase }
{}

/// What answers a question, and what a rule or a clause is elaborated to, has the variables of
/// what it came from, in the same order, and each stands under the same iterations. So it is of
/// indices, and of iterations that have to iterate something.
pub fn keeps_notes()
    ensures answers { AnswersKeepNotes }
    ensures rules { (D : Decls) (R : RelationDef) (name : List ℕ) (conclusion : Exp)
        (premises : List Prem) (rule : RuleDef) → ElabRule D R name conclusion premises rule
        → RuleKeepsNotes conclusion premises rule }
    ensures clauses { (D : Decls) (f : FunDef) (c : ClauseParts) (clause : ClauseDef)
        → ElabClause D f c clause → ClauseKeepsNotes c clause }
{}

/// No question is without an answer: an expression has an elaboration at a type, or a first
/// breach there.
pub fn each_is_answered()
    ensures { EachIsAnswered }
{}
