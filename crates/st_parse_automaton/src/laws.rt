//! The laws of refused tokens, of which there is at most one and none of definitions, and of the
//! actions that tokens add.

ghost use Rattle.std.specs.Prelude.{◌≡◌, [], ◌∷◌, List, ℕ, Some};
ghost use Rattle.st_num.specs.declared.token.Token.{Token};
ghost use Rattle.st_grammar.specs.declared.sort.Sort.{Sort};
ghost use Rattle.st_grammar.specs.Terminals.{Terminal};
ghost use Rattle.st_grammar.specs.Trees.{Tree};
ghost use Rattle.st_grammar.specs.Reading.{reads, start};
ghost use Rattle.st_grammar.specs.inner.Actions.{acts};
ghost use Rattle.st_parse_automaton.specs.declared.part_automaton.Expected.TheVariants.{Operand};
ghost use Rattle.st_parse_automaton.specs.Refusal.{AreDefinitions, RefusedAt};
ghost use Rattle.st_parse_automaton.specs.inner.PartAutomaton.{emissions};

/// Tokens have at most one refused position, and source has none.
pub fn refused_once()
    ensures never { (tokens : List Token) (k : ℕ) → RefusedAt tokens k → AreDefinitions tokens → ⊥ }
    ensures one { (tokens : List Token) (j k : ℕ) → RefusedAt tokens j → RefusedAt tokens k → j
        ≡ k }
{}

/// What the tokens of a part add, and their end, are the actions of its tree.
#[tactic(auto, using(crate::proofs::Emissions::part_emits))]
pub fn tokens_emit()
    ensures { (σ : Sort) (us : List Terminal) (t : Tree)
        → reads (start σ) us ≡ Some t → acts t ≡ emissions σ (Operand, []) us }
{}
