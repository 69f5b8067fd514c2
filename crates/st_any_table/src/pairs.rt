//! Pairs of types, each once.

ghost use Rattle.std.specs.Prelude.{◌≡◌, ◌↔◌, ◌<◌, [], ◌∷◌, IsTrue, IfOk, OnOk, Some, length, slice_get};
ghost use Rattle.st_any_table.specs.inner.Pairs.{Grows};

use st_il::Ty;
use st_num::{NoMemory, Row};
use std::alloc::Global;
use std::marker::Model;

/// A pair of types. Contracts see the types.
#[derive(Drop)]
pub(crate) struct Pair<'a> {
    left: &'a Ty,
    right: &'a Ty,
}

impl<'a> Model for Pair<'a> {
    ghost use Rattle.std.specs.Coded.{codes};
    ghost use Rattle.st_il.specs.declared.ty.Ty.{Ty};
    ghost use Rattle.st_il.specs.contracts.ty.Ty as ty;

    ghost Value = { Ty × Ty };

    ghost coded = { Prim.hlevel (codes, ty.the_row.coded) };

    ghost view = { λ p. (p.left.now, p.right.now) };
}

impl<'a> Pair<'a> {
    ghost use Rattle.std.specs.Prelude.{◌≡◌};

    /// The pair of these types.
    fn of(left: &'a Ty, right: &'a Ty) -> Pair<'a>
        ensures { result ≡ (left.now, right.now) }
    {
        Pair { left, right }
    }

    fn left(&self) -> &'a Ty
        ensures { result.now ≡ self.now.0 }
    {
        self.left
    }

    fn right(&self) -> &'a Ty
        ensures { result.now ≡ self.now.1 }
    {
        self.right
    }
}

/// Whether the types are written the same.
#[cycle(equal)]
pub(crate) fn are_one(one: &Ty, other: &Ty) -> bool
    ensures { IsTrue result ↔ (one.now ≡ other.now) }
{
    match (one, other) {
        (Ty::Bool, Ty::Bool) => true,
        (Ty::Nat, Ty::Nat) => true,
        (Ty::Int, Ty::Int) => true,
        (Ty::Text, Ty::Text) => true,
        (Ty::Name(one), Ty::Name(other)) => *one == *other,
        (Ty::List(one), Ty::List(other)) => are_one(one.get(), other.get()),
        (Ty::Opt(one), Ty::Opt(other)) => are_one(one.get(), other.get()),
        (Ty::Tuple(ones), Ty::Tuple(others)) => are_all(ones.as_slice(), others.as_slice()),
        _ => false,
    }
}

/// Whether the types of two lists are written the same.
#[cycle(equal)]
fn are_all(ones: &[Ty], others: &[Ty]) -> bool
    ensures { IsTrue result ↔ (ones.now ≡ others.now) }
{
    if ones.len() != others.len() {
        return false;
    }
    for i in 0..ones.len() {
        if !are_one(&ones[i], &others[i]) {
            return false;
        }
    }
    true
}

/// One pair.
pub(crate) fn one_pair<'a>(
    alloc: Global,
    left: &'a Ty,
    right: &'a Ty,
) -> Result<Row<Pair<'a>>, NoMemory>
    ensures { IfOk result (λ pairs. pairs ≡ (left.now, right.now) ∷ []) }
{
    let mut pairs = Row::new(alloc);
    pairs.push(Pair::of(left, right))?;
    Ok(pairs)
}

/// The types of the pair of this number.
pub(crate) fn types_at<'a>(pairs: &Row<Pair<'a>>, at: usize) -> (&'a Ty, &'a Ty)
    requires { at < length pairs.now }
    ensures { slice_get pairs.now at ≡ Some (result.0.now, result.1.now) }
{
    let pairs = pairs.as_slice();
    let pair = &pairs[at];
    (pair.left(), pair.right())
}

/// Whether the pair is that of these types.
fn is_pair(pair: &Pair, left: &Ty, right: &Ty) -> bool
    ensures { IsTrue result ↔ (pair.now ≡ (left.now, right.now)) }
{
    if !are_one(pair.left, left) {
        return false;
    }
    are_one(pair.right, right)
}

/// The number of a pair, which is put behind the others where it is new.
pub(crate) fn number_of<'a>(
    pairs: &mut Row<Pair<'a>>,
    left: &'a Ty,
    right: &'a Ty,
) -> Result<usize, NoMemory>
    ensures grows { OnOk result (Grows pairs.old pairs.new) }
    ensures number { IfOk result
        (λ number. slice_get pairs.new number ≡ Some (left.now, right.now)) }
{
    let number = pairs.len();
    for at in 0..number {
        if is_pair(&pairs.as_slice()[at], left, right) {
            return Ok(at);
        }
    }
    pairs.push(Pair::of(left, right))?;
    Ok(number)
}
