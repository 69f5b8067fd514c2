//! The law of what the parser answers.

ghost use Rattle.std.specs.Prelude.{◌≡◌, List};
ghost use Rattle.st_num.specs.declared.rule.RuleId.{RuleId};
ghost use Rattle.st_num.specs.declared.span.Span.{Span};
ghost use Rattle.st_num.specs.declared.token.Token.{Token};
ghost use Rattle.st_el.specs.declared.definition.Def.{Def};
ghost use Rattle.st_parse.specs.Source.{IsSource, FaultAt};

use st_parse_builder::one_source;

/// Tokens have at most one answer, want of memory aside: one list of definitions, or one first
/// fault.
pub fn one_answer()
    ensures source { (tokens : List Token) (a b : List Def) → IsSource tokens a → IsSource tokens b
        → a ≡ b }
    ensures never { (tokens : List Token) (defs : List Def) (at : Span) (rule : RuleId)
        → FaultAt tokens at rule → IsSource tokens defs → ⊥ }
    ensures fault { (tokens : List Token) (at there : Span) (rule other : RuleId)
        → FaultAt tokens at rule → FaultAt tokens there other → (at ≡ there) × (rule ≡ other) }
{
    one_source();
}
