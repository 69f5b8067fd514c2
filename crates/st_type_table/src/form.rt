//! The forms of types, by which types that are equal through aliases have one number.

ghost use Rattle.std.specs.Prelude.{◌≡◌};
ghost use Rattle.st_type_table.specs.inner.Forms.{form_number, pair_number, type_number, parts_number};

use indexmap::{IndexMap, IndexSet};
use st_il::Ty;
use st_num::Name;

/// What a type is without aliases, with the numbers of its parts.
#[derive(PartialEq, Eq, Hash, Drop)]
pub(crate) enum Form {
    Bool,
    Nat,
    Int,
    Text,
    /// A syntax that is no alias.
    Own(Name),
    List(usize),
    Opt(usize),
    /// The tuple without parts.
    Empty,
    /// A tuple, by its first part and the tuple of the others.
    Pair(usize, usize),
}

/// The forms of the syntaxes and of their parts, each once: its position is its number.
pub(crate) type FormList = IndexSet<Form>;

/// The numbers of the syntaxes, by their names.
pub(crate) type Numbers = IndexMap<Name, usize>;

/// The numbers of the syntaxes, and the forms that they number.
#[derive(Drop)]
pub(crate) struct Forms {
    pub(crate) numbers: Numbers,
    pub(crate) list: FormList,
}

/// The number of a form, where it is one of these.
fn form_number(forms: &Forms, form: &Form) -> Option<usize>
    ensures { result ≡ form_number forms.now.list.keys form.now }
{
    forms.list.get_index_of(form)
}

/// The number of a type, where its form is one of these.
#[cycle(number)]
pub(crate) fn type_number(forms: &Forms, ty: &Ty) -> Option<usize>
    ensures { result ≡ type_number forms.now.numbers.entries forms.now.list.keys ty.now }
{
    match ty {
        Ty::Bool => form_number(forms, &Form::Bool),
        Ty::Nat => form_number(forms, &Form::Nat),
        Ty::Int => form_number(forms, &Form::Int),
        Ty::Text => form_number(forms, &Form::Text),
        Ty::Name(name) => forms.numbers.get(name).copied(),
        Ty::List(one) => form_number(forms, &Form::List(type_number(forms, one.get())?)),
        Ty::Opt(one) => form_number(forms, &Form::Opt(type_number(forms, one.get())?)),
        Ty::Tuple(parts) => parts_number(forms, parts.as_slice()),
    }
}

/// The number of a tuple, by that of its first part and that of the tuple of the others.
fn pair_number(forms: &Forms, first: Option<usize>, rest: Option<usize>) -> Option<usize>
    ensures { result ≡ pair_number forms.now.list.keys first rest }
{
    match (first, rest) {
        (Some(first), Some(rest)) => form_number(forms, &Form::Pair(first, rest)),
        _ => None,
    }
}

/// The number of the tuple of these parts, where its form is one of these.
#[cycle(number)]
fn parts_number(forms: &Forms, parts: &[Ty]) -> Option<usize>
    ensures { result ≡ parts_number forms.now.numbers.entries forms.now.list.keys parts.now }
{
    let mut rest = form_number(forms, &Form::Empty);
    let mut at = parts.len();
    while at > 0 {
        at -= 1;
        rest = pair_number(forms, type_number(forms, &parts[at]), rest);
    }
    rest
}
