//! Which types are subtypes.

ghost use Rattle.std.specs.Prelude.{◌≡◌, ◌↔◌, IsTrue};
ghost use Rattle.st_il.specs.declared.ty.Ty.{Ty, out-Ty};
ghost use Rattle.st_type_table.specs.Breach.{IsSound};
ghost use Rattle.st_type_table.specs.Same.{SameAll};
ghost use Rattle.st_types.specs.inner.Levels.{told, level_at};
ghost use Rattle.st_type_table.specs.GoesUp.{GoesUp};
ghost use Rattle.st_type_table.specs.Sub.{Sub, StandsIn, AllStandIn, IsContained};

use crate::typing::operands_of;
use st_il::Ty;
use st_type_table::{CaseDef, TypeTable};

/// Whether the types are equal through aliases, one by one.
pub fn are_same(table: &TypeTable, ones: &[Ty], others: &[Ty]) -> bool
    ensures { IsTrue result ↔ SameAll table.now ones.now others.now }
{
    if ones.len() != others.len() {
        return false;
    }
    for i in 0..ones.len() {
        if !table.same(&ones[i], &others[i]) {
            return false;
        }
    }
    true
}

/// Whether the case stands among these, with the same tag and equal operand types.
fn stands_in(table: &TypeTable, case: &CaseDef, cases: &[CaseDef]) -> bool
    ensures { IsTrue result ↔ StandsIn table.now case.now cases.now }
{
    match operands_of(cases, &case.tag) {
        Some(operands) => are_same(table, case.operands.as_slice(), operands.as_slice()),
        None => false,
    }
}

/// Whether each of these cases stands among the others, with equal operand types.
fn all_stand_in(table: &TypeTable, lower: &[CaseDef], upper: &[CaseDef]) -> bool
    ensures { IsTrue result ↔ AllStandIn table.now lower.now upper.now }
{
    for case in lower {
        if !stands_in(table, case, upper) {
            return false;
        }
    }
    true
}

/// Whether both types are variants, and each case of the first stands in the second.
fn is_contained(table: &TypeTable, lower: &Ty, upper: &Ty) -> bool
    ensures { IsTrue result ↔ IsContained table.now lower.now upper.now }
{
    match (table.cases(lower), table.cases(upper)) {
        (Some(cases), Some(others)) => { all_stand_in(table, cases.as_slice(), others.as_slice()) }
        _ => false,
    }
}

/// Whether the first type is a subtype of the second. Each value of a type has the types above
/// it; each type is above itself, and above what is below a type below it.
pub fn is_sub(table: &TypeTable, lower: &Ty, upper: &Ty) -> bool
    ensures exact { IsTrue result ↔ Sub table.now lower.now upper.now }
    ensures up { IsTrue result → GoesUp table.now lower.now upper.now }
    ensures reflexive { (t : Ty) → Sub table.now t t }
    ensures transitive { (a b c : Ty) → Sub table.now a b → Sub table.now b c → Sub table.now a c }
{
    is_below(table, lower, upper)
}

/// What one level of two types says of the first as a subtype by numbers or by elements.
enum Level<'a> {
    Below,
    Apart,
    /// As these elements are.
    Elements(&'a Ty, &'a Ty),
}

/// One level of two types that have no aliases at their tops.
fn level_of<'a>(lower: &'a Ty, upper: &'a Ty) -> Level<'a>
    ensures { told result ≡ level_at (out-Ty lower.now) (out-Ty upper.now) }
{
    match (lower, upper) {
        (Ty::Nat, Ty::Int) => Level::Below,
        (Ty::List(one), Ty::List(other)) => Level::Elements(one.get(), other.get()),
        (Ty::Opt(one), Ty::Opt(other)) => Level::Elements(one.get(), other.get()),
        _ => Level::Apart,
    }
}

/// Whether the first type is a subtype of the second. Of two lists or options the elements are
/// asked next, so that a chain of aliases may be long.
fn is_below(table: &TypeTable, lower: &Ty, upper: &Ty) -> bool
    ensures exact { IsTrue result ↔ Sub table.now lower.now upper.now }
    ensures sound { IsSound table.now }
{
    let mut low = lower;
    let mut high = upper;
    'levels: loop {
        if table.same(low, high) {
            return true;
        }
        if is_contained(table, low, high) {
            return true;
        }
        match level_of(table.meaning(low), table.meaning(high)) {
            Level::Below => return true,
            Level::Apart => return false,
            Level::Elements(one, other) => {
                low = one;
                high = other;
            }
        }
    }
}
