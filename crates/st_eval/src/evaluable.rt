//! A typed language that keeps the rules on clauses can be evaluated.

ghost use Rattle.std.specs.Prelude.{Some, List, [], ◌∷◌};
ghost use Rattle.st_num.specs.declared.rule.RuleId.TheVariants.{M3, M4, M6, M7};
ghost use Rattle.st_il.specs.declared.definition.Il.{Il};
ghost use Rattle.st_il.specs.declared.definition.Listed.{Listed};
ghost use Rattle.st_il.specs.declared.expression.IlExp.{IlExp};
ghost use Rattle.st_il.specs.declared.ty.Ty.{Ty};
ghost use Rattle.st_il.specs.Definitions.{syntaxes};
ghost use Rattle.st_semantics.specs.Formed.{IsFormed};
ghost use Rattle.st_semantics.specs.Breaches.{ClausesKeep};
ghost use Rattle.st_ilcheck.specs.Typed.{Typed};
ghost use Rattle.st_ilcheck.specs.Typings.{HasTyping};
ghost use Rattle.st_eval.specs.Evaluable.{IsEvaluable};

/// Where no definition breaks a rule on types and no clause one of the rules M3, M4, M6 and M7, the
/// language can be evaluated. And in an expression that breaks no rule on types each record and each
/// absent part fits its type.
pub fn typed_languages_are_evaluable()
    ensures languages { (il : Il) → Typed il → ClausesKeep il (M3 ∷ M4 ∷ M6 ∷ M7 ∷ [])
        → IsEvaluable il (syntaxes il) }
    ensures expressions { (il : Il) (ls : List Listed) (e : IlExp) (t : Ty)
        → HasTyping il ls e (Some t) [] → IsFormed (syntaxes il) e }
{}
