//! The words that begin the texts of values.

ghost use Rattle.std.specs.Prelude.{◌≡◌, ◌≢◌, MatchOption};
ghost use Rattle.st_iltext.specs.declared.value_form.ValueForm.{ValueForm as Form};
ghost use Rattle.st_iltext.specs.inner.Forms.{form_word};
ghost use Rattle.st_text.specs.Text.{word};
ghost use Rattle.st_text.specs.Trees.{tree_of};

use crate::shape::is_word;
use st_text::TextTree;

/// What a value in parentheses is.
#[derive(Clone, Copy)]
pub enum ValueForm {
    Case,
    Fields,
    Tuple,
    List,
    Opt,
}

/// The form whose word the tree is.
pub fn form_of(tree: &TextTree) -> Option<ValueForm>
    ensures { MatchOption result ((f : Form) → tree_of tree.now ≢ word (form_word f))
        (λ f. tree_of tree.now ≡ word (form_word f)) }
{
    if is_word(tree, b"c") {
        return Some(ValueForm::Case);
    }
    if is_word(tree, b"r") {
        return Some(ValueForm::Fields);
    }
    if is_word(tree, b"t") {
        return Some(ValueForm::Tuple);
    }
    if is_word(tree, b"l") {
        return Some(ValueForm::List);
    }
    if is_word(tree, b"o") {
        return Some(ValueForm::Opt);
    }
    None
}
