//! Equality of types through aliases.

ghost use Rattle.std.specs.Prelude.{◌≡◌, ◌↔◌, IsTrue};
ghost use Rattle.st_il.specs.declared.ty.Ty.{out-Ty};
ghost use Rattle.st_type_table.specs.Breach.{IsSound};
ghost use Rattle.st_type_table.specs.inner.Forms.{is_name, AreOneName, AreAlike};
ghost use Rattle.st_type_table.specs.inner.SameLevels.{SameAt};
ghost use Rattle.st_type_table.specs.Same.{Same, SameAll};

use crate::form::{Forms, type_number};
use crate::table::TypeTable;
use st_il::Ty;

/// Whether the type is a name.
fn is_name(ty: &Ty) -> bool
    ensures { result ≡ is_name (out-Ty ty.now) }
{
    match ty {
        Ty::Name(_) => true,
        Ty::Bool | Ty::Nat | Ty::Int | Ty::Text => false,
        Ty::List(_) | Ty::Opt(_) | Ty::Tuple(_) => false,
    }
}

/// Whether both types are one name.
fn are_one_name(a: &Ty, b: &Ty) -> bool
    ensures { IsTrue result ↔ AreOneName (out-Ty a.now) (out-Ty b.now) }
{
    match (a, b) {
        (Ty::Name(one), Ty::Name(other)) => *one == *other,
        _ => false,
    }
}

/// Whether the types are one name, or have one number.
fn are_alike(forms: &Forms, a: &Ty, b: &Ty) -> bool
    ensures { IsTrue result
        ↔ AreAlike forms.now.numbers.entries forms.now.list.keys a.now b.now }
{
    if are_one_name(a, b) {
        return true;
    }
    match (type_number(forms, a), type_number(forms, b)) {
        (Some(one), Some(other)) => one == other,
        _ => false,
    }
}

/// Whether the types are equal through aliases. An alias is compared by its number, so that no
/// chain of aliases is followed.
#[cycle(same)]
pub(crate) fn same(table: &TypeTable, a: &Ty, b: &Ty) -> bool
    ensures exact { IsTrue result ↔ Same table.now a.now b.now }
    ensures sound { IsSound table.now }
{
    let forms = &table.forms;
    if is_name(a) || is_name(b) {
        return are_alike(forms, a, b);
    }
    same_at(table, a, b)
}

/// Whether two types that are no names are equal through aliases.
#[cycle(same)]
fn same_at(table: &TypeTable, a: &Ty, b: &Ty) -> bool
    ensures { IsTrue result ↔ SameAt table.now (out-Ty a.now) (out-Ty b.now) }
{
    match (a, b) {
        (Ty::Bool, Ty::Bool) => true,
        (Ty::Nat, Ty::Nat) => true,
        (Ty::Int, Ty::Int) => true,
        (Ty::Text, Ty::Text) => true,
        (Ty::Name(one), Ty::Name(other)) => *one == *other,
        (Ty::List(one), Ty::List(other)) => same(table, one.get(), other.get()),
        (Ty::Opt(one), Ty::Opt(other)) => same(table, one.get(), other.get()),
        (Ty::Tuple(ones), Ty::Tuple(others)) => {
            same_all(table, ones.as_slice(), others.as_slice())
        }
        _ => false,
    }
}

/// Whether the types of two lists are equal through aliases, one by one.
#[cycle(same)]
fn same_all(table: &TypeTable, ones: &[Ty], others: &[Ty]) -> bool
    ensures { IsTrue result ↔ SameAll table.now ones.now others.now }
{
    if ones.len() != others.len() {
        return false;
    }
    for i in 0..ones.len() {
        if !same(table, &ones[i], &others[i]) {
            return false;
        }
    }
    true
}
