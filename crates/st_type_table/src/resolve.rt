//! What types mean among definitions whose aliases end.

ghost use Rattle.std.specs.Prelude.{◌≡◌};
ghost use Rattle.std.specs.Option.{option_copied};
ghost use Rattle.st_type_table.specs.Meaning.{body_of, alias_of, alternatives_of, fields_of, Means};
ghost use Rattle.st_type_table.specs.inner.Graph.{AreRanks, graph_of, EndsIn};

use crate::definitions::Definitions;
use st_il::{Alternative, SyntaxBody, Ty};
use st_num::{Name, Row};

/// The body of the first definition of this name.
pub(crate) fn body_of<'a>(defs: &Definitions<'a>, name: &Name) -> Option<&'a SyntaxBody>
    ensures { option_copied result ≡ body_of defs.now name.now }
{
    match defs.position_of(name) {
        Some(position) => Some(&defs.nth(position).body),
        None => None,
    }
}

/// What the type stands for, where it is the name of an alias.
fn alias_in<'a>(defs: &Definitions<'a>, ty: &Ty) -> Option<&'a Ty>
    ensures { option_copied result ≡ alias_of defs.now ty.now }
{
    match ty {
        Ty::Name(name) => match body_of(defs, name) {
            Some(SyntaxBody::Alias(written)) => Some(written),
            Some(SyntaxBody::Variant(_)) => None,
            Some(SyntaxBody::Fields(_)) => None,
            None => None,
        },
        Ty::Bool | Ty::Nat | Ty::Int | Ty::Text => None,
        Ty::List(_) | Ty::Opt(_) | Ty::Tuple(_) => None,
    }
}

/// The type without the aliases at its top.
pub(crate) fn meaning_in<'a>(defs: &Definitions<'a>, ranks: &[usize], ty: &'a Ty) -> &'a Ty
    requires ranks { AreRanks (graph_of defs.now) ranks.now }
    requires ends { EndsIn defs.now ty.now }
    ensures { Means defs.now ty.now result.now }
{
    let mut meaning = ty;
    while let Some(written) = alias_in(defs, meaning) {
        meaning = written;
    }
    meaning
}
