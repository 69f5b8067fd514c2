//! Laws of typing.

ghost use Rattle.std.specs.Prelude.{◌≡◌, ℕ, true, [], ◌∷◌, List, Option, Some};
ghost use Rattle.st_il.specs.declared.definition.ClauseDef.{ClauseDef};
ghost use Rattle.st_il.specs.declared.definition.Il.{Il};
ghost use Rattle.st_il.specs.declared.definition.Listed.{Listed};
ghost use Rattle.st_il.specs.declared.definition.RuleDef.{RuleDef};
ghost use Rattle.st_il.specs.declared.expression.IlExp.{IlExp};
ghost use Rattle.st_il.specs.declared.expression.IlPrem.{IlPrem};
ghost use Rattle.st_il.specs.declared.expression.IlExp.TheVariants as exp;
ghost use Rattle.st_il.specs.declared.expression.Iteration.TheVariants as iteration;
ghost use Rattle.st_il.specs.declared.ty.Ty.{Ty};
ghost use Rattle.st_il.specs.declared.ty.Ty.TheVariants as ty;
ghost use Rattle.st_il.specs.declared.type_rule.TypeRule.{TypeRule};
ghost use Rattle.st_il.specs.declared.type_rule.TypeRule.TheVariants.{T4, T13, T14};
ghost use Rattle.st_ilcheck.specs.Typings.{HasTyping};
ghost use Rattle.st_ilcheck.specs.Premises.{PremBreaks};
ghost use Rattle.st_ilcheck.specs.Definitions.{RuleBreaks, ClauseBreaks};
ghost use Rattle.st_ilcheck.specs.Typed.{Typed, IsTypeBreach};

/// An expression has at most one type; and one list of rules is broken in an expression, a
/// premise, a rule and a clause.
pub fn one_typing()
    ensures expressions { (il : Il) (ls : List Listed) (e : IlExp) (o p : Option Ty)
        (broken other : List TypeRule) → HasTyping il ls e o broken → HasTyping il ls e p other
        → (o ≡ p) × (broken ≡ other) }
    ensures premises { (il : Il) (ls : List Listed) (p : IlPrem) (broken other : List TypeRule)
        → PremBreaks il ls p broken → PremBreaks il ls p other → broken ≡ other }
    ensures rules { (il : Il) (r : RuleDef) (broken other : List TypeRule) → RuleBreaks il r broken
        → RuleBreaks il r other → broken ≡ other }
    ensures clauses { (il : Il) (c : ClauseDef) (broken other : List TypeRule)
        → ClauseBreaks il c broken → ClauseBreaks il c other → broken ≡ other }
{}

/// An internal language that is typed has no breach, and any other has at most one: the first
/// definition that breaks a rule, and the least rule that it breaks.
pub fn one_breach()
    ensures typed { (il : Il) (place : ℕ) (rule : TypeRule) → Typed il → IsTypeBreach il place rule
        → ⊥ }
    ensures one { (il : Il) (place other : ℕ) (rule broken : TypeRule) → IsTypeBreach il place rule
        → IsTypeBreach il other broken → (place ≡ other) × (rule ≡ broken) }
{}

/// Three expressions that break one rule each: `true` and 5 joined by `and`, `true` injected into
/// `bool`, and 5 iterated over nothing. Each has its type.
pub fn small_typings()
    ensures logic { (il : Il) → HasTyping il [] (exp.And (exp.Bool true) (exp.Number 5))
        (Some ty.Bool) (T4 ∷ []) }
    ensures injection { (il : Il) → HasTyping il [] (exp.Up ty.Bool (exp.Bool true))
        (Some ty.Bool) (T13 ∷ []) }
    ensures iteration { (il : Il)
        → HasTyping il [] (exp.Iter iteration.Star [] (exp.Number 5))
        (Some (ty.List ty.Nat)) (T14 ∷ []) }
{}
