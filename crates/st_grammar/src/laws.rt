//! Laws of the grammar: tokens have one tree, and reading them finds it.

ghost use Rattle.std.specs.Prelude.{◌≡◌, ◌++◌, List, ℕ, Some, None};
ghost use Rattle.st_grammar.specs.Terminals.{Terminal};
ghost use Rattle.st_grammar.specs.declared.sort.Sort.{Sort};
ghost use Rattle.st_grammar.specs.Trees.{Tree};
ghost use Rattle.st_grammar.specs.Grammar.{Parse, Viable};
ghost use Rattle.st_grammar.specs.Definitions.{Defs, ParseDefs, ViableDefs};
ghost use Rattle.st_grammar.specs.Reading as part;
ghost use Rattle.st_grammar.specs.Positions as position;
ghost use Rattle.st_grammar.specs.inner.Actions.{acts};
ghost use Rattle.st_grammar.specs.inner.Emission.{state_acts, emitted, emissions};

/// The tokens of a type, a notation, an expression or an arithmetic expression have one tree.
#[tactic(auto, using(crate::proofs::Completions::one_tree_of))]
pub fn one_tree()
    ensures { (σ : Sort) (us : List Terminal) (a b : Tree) → Parse σ us a → Parse σ us b → a ≡ b }
{}

/// The tokens of definitions have one list of trees.
#[tactic(auto, using(crate::proofs::PositionComplete::one_list_of_defs))]
pub fn one_list()
    ensures { (us : List Terminal) (a b : Defs) → ParseDefs us a → ParseDefs us b → a ≡ b }
{}

/// A part is read as its tree, tokens are read exactly where some further tokens make a tree, and
/// what is read and may end is a tree.
#[tactic(auto, using(crate::proofs::CompleteTrees::complete))]
pub fn parts_are_read()
    ensures complete { (σ : Sort) (us : List Terminal) (t : Tree)
        → Parse σ us t → part.reads (part.start σ) us ≡ Some t }
    ensures sound { (σ : Sort) (us : List Terminal) (st : part.State) (t : Tree)
        → part.reading (part.start σ) us ≡ Some st → part.finish st ≡ Some t → Parse σ us t }
    ensures viable { (names : List (List ℕ)) (σ : Sort) (us : List Terminal) (st : part.State)
        → part.reading (part.start σ) us ≡ Some st → Viable names σ us }
    ensures dead { (names : List (List ℕ)) (σ : Sort) (us : List Terminal)
        → part.reading (part.start σ) us ≡ None → Viable names σ us → ⊥ }
{}

/// Definitions are read as their trees, tokens are read exactly where some further tokens make
/// definitions, and what is read and may end is definitions.
#[tactic(auto, using(crate::proofs::PositionComplete::complete_defs))]
pub fn definitions_are_read()
    ensures complete { (us : List Terminal) (ds : Defs)
        → ParseDefs us ds → position.reads position.start us ≡ Some ds }
    ensures sound { (us : List Terminal) (st : position.State) (ds : Defs)
        → position.reading position.start us ≡ Some st → position.finish st ≡ Some ds
        → ParseDefs us ds }
    ensures viable { (names : List (List ℕ)) (us : List Terminal) (st : position.State)
        → position.reading position.start us ≡ Some st → ViableDefs names us }
    ensures dead { (names : List (List ℕ)) (us : List Terminal)
        → position.reading position.start us ≡ None → ViableDefs names us → ⊥ }
{}

/// A parser may emit actions while it reads: each token adds its own, and those that are emitted up
/// to the end are the actions of the part.
#[tactic(auto, using(crate::proofs::Emission::emits_next, crate::proofs::Emission::emits_part))]
pub fn readings_emit()
    ensures each { (st : part.State) (l : Terminal) (next : part.State)
        → part.step st l ≡ Some next → state_acts next ≡ state_acts st ++ emitted st l }
    ensures all { (σ : Sort) (us : List Terminal) (t : Tree)
        → part.reads (part.start σ) us ≡ Some t → acts t ≡ emissions (part.start σ) us }
{}
