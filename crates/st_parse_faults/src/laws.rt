//! Laws of first faults: there is at most one, what those of the grammar say, and that judging the
//! tokens one after another finds the one that trees tell.

ghost use Rattle.std.specs.Prelude.{◌≡◌, ◌≤◌, List, length, ℕ};
ghost use Rattle.st_num.specs.declared.rule.RuleId.{RuleId};
ghost use Rattle.st_num.specs.declared.rule.RuleId.TheVariants.{S1, S4};
ghost use Rattle.st_num.specs.declared.token.Token.{Token};
ghost use Rattle.st_grammar.specs.Terminals.{Terminal};
ghost use Rattle.st_grammar.specs.Definitions.{Defs, ParseDefs};
ghost use Rattle.st_parse_automaton.specs.Refusal.{AreDefinitions, RefusedAt};
ghost use Rattle.st_parse_faults.specs.DefinitionNumbers.{defs_numbers};
ghost use Rattle.st_parse_faults.specs.DefinitionFaults.{Faultless, FirstFault};
ghost use Rattle.st_parse_faults.specs.inner.Folding.{AllPass, FirstBreak};

/// Tokens have at most one first fault, and none where all of them are kept.
pub fn one_fault()
    ensures never { (tokens : List Token) (k : ℕ) (r : RuleId) → FirstFault tokens k r
        → Faultless tokens → ⊥ }
    ensures one { (tokens : List Token) (j k : ℕ) (q r : RuleId) → FirstFault tokens j q
        → FirstFault tokens k r → (j ≡ k) × (q ≡ r) }
{}

/// Tokens that are all kept are source. A first fault of S1 or S4 is at the token that the grammar
/// refuses, and any other is not behind it.
pub fn faults_of_the_grammar()
    ensures source { (tokens : List Token) → Faultless tokens → AreDefinitions tokens }
    ensures refused { (tokens : List Token) (k : ℕ) → FirstFault tokens k S1
        → RefusedAt tokens k }
    ensures left_out { (tokens : List Token) (k : ℕ) → FirstFault tokens k S4
        → RefusedAt tokens k }
    ensures first { (tokens : List Token) (j k : ℕ) (r : RuleId) → RefusedAt tokens j
        → FirstFault tokens k r → k ≤ j }
{}

/// Trees tell what each token begins, and so the same faults as a fold over the tokens, which
/// judges them one after another.
pub fn judging_agrees()
    ensures parallel { (us : List Terminal) (ds : Defs) → ParseDefs us ds
        → length (defs_numbers ds) ≡ length us }
    ensures kept { (tokens : List Token) → AllPass tokens → Faultless tokens }
    ensures faultless { (tokens : List Token) → Faultless tokens → AllPass tokens }
    ensures broken { (tokens : List Token) (k : ℕ) (r : RuleId) → FirstBreak tokens k r
        → FirstFault tokens k r }
    ensures first { (tokens : List Token) (k : ℕ) (r : RuleId) → FirstFault tokens k r
        → FirstBreak tokens k r }
{}
