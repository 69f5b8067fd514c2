//! Laws of elaboration.

ghost use Rattle.std.specs.Prelude.{◌≡◌};
ghost use Rattle.st_elab_table.specs.declared.decls.Decls.{Decls};
ghost use Rattle.st_elab_table.specs.declared.decls.Scope.{Scope};
ghost use Rattle.st_elab_table.specs.Questions.{Question, Answer};
ghost use Rattle.st_elab_table.specs.Elaboration.{Answered};

/// A question has at most one answer: an expression has one elaboration at a type, or one first
/// breach, and not both.
pub fn one_answer()
    ensures { (D : Decls) (S : Scope) (q : Question) (a b : Answer) → Answered D S q a
        → Answered D S q b → a ≡ b }
{}
