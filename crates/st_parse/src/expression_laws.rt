//! Laws of expressions and of their faults.

ghost use Rattle.std.specs.Prelude.{◌≡◌, ◌≤◌, List, length, ℕ, Some, None, Ok, Err};
ghost use Rattle.st_num.specs.declared.fault.Fault.TheVariants.{Refused};
ghost use Rattle.st_num.specs.declared.rule.RuleId.{RuleId};
ghost use Rattle.st_num.specs.declared.rule.RuleId.TheVariants.{S1, S4};
ghost use Rattle.st_num.specs.declared.span.Span.{Span};
ghost use Rattle.st_num.specs.declared.token.Token.{Token};
ghost use Rattle.st_el.specs.declared.expression.Exp.{Exp};
ghost use Rattle.st_grammar.specs.Terminals.{Terminal};
ghost use Rattle.st_grammar.specs.Trees.{Trees};
ghost use Rattle.st_parse.specs.Expressions.{ParseExpressions, ViableExpressions, AreExpressions, RefusedAt};
ghost use Rattle.st_parse.specs.ExpressionSource.{ParseExps, Answers};
ghost use Rattle.st_parse.specs.inner.ExpressionReading as read;
ghost use Rattle.st_parse.specs.ExpressionFaults.{Faultless, FirstFault, expressions_numbers};
ghost use Rattle.st_parse.specs.inner.ExpressionFolding.{AllPass, FirstBreak};

/// The tokens of expressions have one list of trees.
#[tactic(auto, using(crate::proofs::ExpressionReadings::one_list))]
pub fn one_list_of_expressions()
    ensures { (us : List Terminal) (a b : Trees)
        → ParseExpressions us a → ParseExpressions us b → a ≡ b }
{}

/// Tokens mean at most one list of expressions.
pub fn one_meaning()
    ensures { (names : List (List ℕ)) (tokens : List Token) (a b : List Exp)
        → ParseExps names tokens a → ParseExps names tokens b → a ≡ b }
{}

/// Expressions are read as their trees, tokens are read exactly where some further tokens make
/// expressions, and what is read and may end is expressions.
pub fn expressions_are_read()
    ensures complete { (us : List Terminal) (ts : Trees)
        → ParseExpressions us ts → read.reads read.start us ≡ Some ts }
    ensures sound { (us : List Terminal) (st : read.State) (ts : Trees)
        → read.reading read.start us ≡ Some st → read.finish st ≡ Some ts
        → ParseExpressions us ts }
    ensures viable { (names : List (List ℕ)) (us : List Terminal) (st : read.State)
        → read.reading read.start us ≡ Some st → ViableExpressions names us }
    ensures dead { (names : List (List ℕ)) (us : List Terminal)
        → read.reading read.start us ≡ None → ViableExpressions names us → ⊥ }
{}

/// Tokens have at most one first fault, and none where they are faultless. What is faultless is
/// expressions. A first fault of S1 or S4 is at the token that the grammar refuses, and any other
/// is not behind it.
pub fn faults_of_expressions()
    ensures never { (names : List (List ℕ)) (tokens : List Token) (k : ℕ) (r : RuleId)
        → FirstFault names tokens k r → Faultless names tokens → ⊥ }
    ensures one { (names : List (List ℕ)) (tokens : List Token) (j k : ℕ) (q r : RuleId)
        → FirstFault names tokens j q → FirstFault names tokens k r → (j ≡ k) × (q ≡ r) }
    ensures source { (names : List (List ℕ)) (tokens : List Token)
        → Faultless names tokens → AreExpressions names tokens }
    ensures refused { (names : List (List ℕ)) (tokens : List Token) (k : ℕ)
        → FirstFault names tokens k S1 → RefusedAt names tokens k }
    ensures left_out { (names : List (List ℕ)) (tokens : List Token) (k : ℕ)
        → FirstFault names tokens k S4 → RefusedAt names tokens k }
    ensures first { (names : List (List ℕ)) (tokens : List Token) (j k : ℕ) (r : RuleId)
        → RefusedAt names tokens j → FirstFault names tokens k r → k ≤ j }
{}

/// Trees tell what each token of expressions begins, and so the same faults as a fold over the
/// tokens, which judges them one after another.
pub fn judging_of_expressions_agrees()
    ensures parallel { (us : List Terminal) (ts : Trees) → ParseExpressions us ts
        → length (expressions_numbers ts) ≡ length us }
    ensures kept { (names : List (List ℕ)) (tokens : List Token)
        → AllPass names tokens → Faultless names tokens }
    ensures faultless { (names : List (List ℕ)) (tokens : List Token)
        → Faultless names tokens → AllPass names tokens }
    ensures broken { (names : List (List ℕ)) (tokens : List Token) (k : ℕ) (r : RuleId)
        → FirstBreak names tokens k r → FirstFault names tokens k r }
    ensures first { (names : List (List ℕ)) (tokens : List Token) (k : ℕ) (r : RuleId)
        → FirstFault names tokens k r → FirstBreak names tokens k r }
{}

/// Tokens have at most one answer, want of memory aside: one list of expressions, or one refusal.
pub fn one_answer_of_expressions()
    ensures source { (names : List (List ℕ)) (tokens : List Token) (a b : List Exp)
        → Answers names tokens (Ok a) → Answers names tokens (Ok b) → a ≡ b }
    ensures never { (names : List (List ℕ)) (tokens : List Token) (exps : List Exp) (at : Span)
        (rule : RuleId) → Answers names tokens (Err (Refused at rule))
        → Answers names tokens (Ok exps) → ⊥ }
    ensures fault { (names : List (List ℕ)) (tokens : List Token) (at there : Span)
        (rule other : RuleId) → Answers names tokens (Err (Refused at rule))
        → Answers names tokens (Err (Refused there other)) → (at ≡ there) × (rule ≡ other) }
{}
