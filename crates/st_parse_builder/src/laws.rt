//! Laws of the meaning of a source.

ghost use Rattle.std.specs.Prelude.{◌≡◌, ◌∷◌, ℕ, List, Some};
ghost use Rattle.st_num.specs.declared.token.Token.{Token};
ghost use Rattle.st_el.specs.declared.definition.Def.{Def};
ghost use Rattle.st_grammar.specs.declared.sort.Sort.{Sort};
ghost use Rattle.st_grammar.specs.declared.sort.Sort.TheVariants.{Typ as typ, Notation as notation};
ghost use Rattle.st_grammar.specs.Trees.{Tree};
ghost use Rattle.st_grammar.specs.Grammar.{Fits};
ghost use Rattle.st_grammar.specs.inner.Actions.{acts};
ghost use Rattle.st_parse_builder.specs.declared.piece.Piece.TheVariants.{Done};
ghost use Rattle.st_parse_builder.specs.declared.notation_piece.NotationPiece.TheVariants.{Hole};
ghost use Rattle.st_parse_builder.specs.Meaning.{meaning};
ghost use Rattle.st_parse_builder.specs.Notations.{typ_start, typ_meaning};
ghost use Rattle.st_parse_builder.specs.Definitions.{Parse};
ghost use Rattle.st_parse_builder.specs.inner.Building.{Stack, run};
ghost use Rattle.st_parse_builder.specs.inner.NotationBuilding as notations;

use st_grammar::one_list;

/// Tokens mean at most one list of definitions.
pub fn one_source()
    ensures { (names : List (List ℕ)) (tokens : List Token) (a b : List Def)
        → Parse names tokens a → Parse names tokens b → a ≡ b }
{
    one_list();
}

/// The actions of a part that the grammar allows put its meaning on the stack, and nothing else.
#[tactic(auto, using(crate::proofs::Builds::builds))]
pub fn parts_are_built()
    ensures { (σ : Sort) (t : Tree) (s : Stack)
        → Fits σ t → run (acts t) s ≡ Some (Done (meaning t) ∷ s) }
{}

/// The actions of a type that the grammar allows put its meaning on the stack, and nothing else.
#[tactic(auto, using(crate::proofs::NotationBuilds::typ_builds))]
pub fn types_are_built()
    ensures { (t : Tree) (s : notations.Stack)
        → Fits typ t
        → notations.run (acts t) s ≡ Some (Hole (typ_start t) (typ_meaning t) ∷ s) }
{}

/// The actions of a notation that the grammar allows put its meaning on the stack, as a type where
/// all of it is one, and nothing else.
#[tactic(auto, using(crate::proofs::NotationBuilds::notation_builds))]
pub fn notations_are_built()
    ensures { (t : Tree) (s : notations.Stack)
        → Fits notation t → notations.run (acts t) s ≡ Some (notations.piece_of t ∷ s) }
{}
