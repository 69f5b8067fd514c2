//! A typed language that keeps the rules on modes, and whose numbers and texts are those of values, can
//! be searched.

ghost use Rattle.st_il.specs.declared.definition.Il.{Il};
ghost use Rattle.st_il.specs.Definitions.{syntaxes};
ghost use Rattle.st_semantics.specs.Breaches.{KeepModes};
ghost use Rattle.st_semantics.specs.Typing.{ConclusionsAreTyped};
ghost use Rattle.st_order.specs.declared.relation_modes.Modes.{Modes};
ghost use Rattle.st_order.specs.Modes.{HasFew, AreModes};
ghost use Rattle.st_algo.specs.declared.algorithm.Algos.{Algos};
ghost use Rattle.st_algo.specs.Lowered.{AreLowered};
ghost use Rattle.st_ilcheck.specs.Typed.{Typed};
ghost use Rattle.st_search.specs.Proper.{IsProper};
ghost use Rattle.st_search.specs.Searchable.{IsSearchable};

/// Where no definition breaks a rule on types or one of the rules M1 to M7, and the numbers, texts,
/// tags and names of fields are those of values, relations can be searched by the algorithms to
/// which the language is lowered; and conclusions have the types of their relations.
pub fn typed_languages_are_searchable()
    ensures languages { (il : Il) (modes : Modes) (algos : Algos) → Typed il → IsProper il
        → KeepModes il → HasFew il → AreModes il modes → AreLowered il modes algos
        → IsSearchable il (syntaxes il) algos }
    ensures conclusions { (il : Il) → Typed il → IsProper il → ConclusionsAreTyped il }
{}
