//! The laws of sources.

ghost use Rattle.std.specs.Prelude.{List};
ghost use Rattle.st_el.specs.declared.definition.Def.{Def};
ghost use Rattle.st_ilcheck.specs.Typed.{Typed};
ghost use Rattle.st_elab_law.specs.Agreement.{Declares};
ghost use Rattle.st_elab_def.specs.declared.elaborated.Elaborated.{Elaborated};
ghost use Rattle.st_elab_def.specs.DeclsOf.{decls_of};
ghost use Rattle.st_elab_def.specs.Elaboration.{IsElaborated};
ghost use Rattle.st_elab_def.specs.Answers.{HasOneOutcome, HasTemplates};
ghost use Rattle.st_elab_def.specs.Erasing.{ErasesTo};
ghost use Rattle.st_elab_def.specs.Sources.{RepeatNoOtherwise};
ghost use Rattle.st_elab_def.specs.Keeping.{AllAreNamed, AllKeepVariables, AllKeepIndices, AllKeepNames};

/// A source has at most one internal language or one first breach, and not both.
pub fn one_outcome()
    ensures { (defs : List Def) → HasOneOutcome defs }
{}

/// What is elaborated declares what its source does.
pub fn declares_its_own()
    ensures { (defs : List Def) (e : Elaborated) → IsElaborated defs e
        → Declares e.il (decls_of defs) }
{}

/// What is elaborated is erased to its source, where the notations in it are templates: both are
/// the same but for what is not plain, with the fragments of each syntax joined.
pub fn erases_back()
    ensures { (defs : List Def) (e : Elaborated) → HasTemplates defs → IsElaborated defs e
        → ErasesTo defs e }
{}

/// T1: what a definition declares is new and keeps the conditions on it, what it cites is
/// declared, once, and its tags are templates with as many holes as operands, where the notations
/// of the source are templates.
pub fn names_are_declared()
    ensures { (defs : List Def) (e : Elaborated) → HasTemplates defs → IsElaborated defs e
        → AllAreNamed e.il }
{}

/// T2: a variable is listed once, with its dimension; the iterations round each of its occurrences
/// begin with it, and are all of it round one of them.
pub fn variables_are_listed()
    ensures { (defs : List Def) (e : Elaborated) → IsElaborated defs e → AllKeepVariables e.il }
{}

/// T14: an index occurs only in bodies that have it as their index.
pub fn indices_stay_inside()
    ensures { (defs : List Def) (e : Elaborated) → IsElaborated defs e → AllKeepIndices e.il }
{}

/// T14: an iteration names exactly the variables of its body that it goes over, and at least one
/// unless it has a count; and where no iterated premise of the source is an `otherwise`, none in
/// the internal language is.
pub fn iterations_name_what_they_iterate()
    ensures { (defs : List Def) (e : Elaborated) → RepeatNoOtherwise defs → IsElaborated defs e
        → AllKeepNames e.il }
{}

/// The internal language of a source that is elaborated is typed, where the notations of the
/// source are templates and no iterated premise of it is an `otherwise`.
pub fn elaborated_sources_are_typed()
    ensures { (defs : List Def) (e : Elaborated) → HasTemplates defs → RepeatNoOtherwise defs
        → IsElaborated defs e → Typed e.il }
{}
