//! The laws of signatures.

ghost use Rattle.std.specs.Prelude.{◌≡◌, ℕ, List, Bool, map, filter};
ghost use Rattle.st_el.specs.declared.ty.Typ.{Typ};
ghost use Rattle.st_el.specs.declared.notation.Notation.{Notation};
ghost use Rattle.st_el.specs.declared.definition.Hint.{Hint};
ghost use Rattle.st_el.specs.Plain.{plain_typ, plain_notation};
ghost use Rattle.st_el.specs.Erasure.{is_mode, plain_hint};
ghost use Rattle.st_il.specs.Template.{IsTemplate, tag_of};
ghost use Rattle.st_erase.specs.Notations.{erased_ty, notation_of};
ghost use Rattle.st_erase.specs.Definitions.{mode_hints};
ghost use Rattle.st_elab_sig.specs.Types.{ty_of};
ghost use Rattle.st_elab_sig.specs.Signatures.{template_of, holes_of};
ghost use Rattle.st_elab_sig.specs.Modes.{IsMode};

/// Types, notations and modes are erased to what they came from, but for places.
pub fn signatures_erase_back()
    ensures types { (t : Typ) → erased_ty (ty_of t) ≡ plain_typ t }
    ensures notations { (n : Notation) → IsTemplate (template_of n)
        → notation_of (tag_of (template_of n)) (map ty_of (holes_of n)) ≡ plain_notation n }
    ensures modes { (hints : List Hint) (holes : ℕ) (mode : List Bool) → IsMode hints holes mode
        → mode_hints mode ≡ map plain_hint (filter is_mode hints) }
{}

/// The hints of a relation give at most one mode.
pub fn one_mode()
    ensures { (hints : List Hint) (holes : ℕ) (a b : List Bool) → IsMode hints holes a
        → IsMode hints holes b → a ≡ b }
{}
