//! Found expressions, and the types that they are fitted to.

ghost use Rattle.std.specs.Prelude.{◌≡◌, IfOk, MatchOption};
ghost use Rattle.st_il.specs.declared.ty.Ty.{Ty};
ghost use Rattle.st_il.specs.declared.expression.IlExp.{IlExp};
ghost use Rattle.st_il.specs.declared.expression.IlExp.TheVariants as il;
ghost use Rattle.st_elab_table.specs.declared.decls.Scope.{Scope};
ghost use Rattle.st_elab_table.specs.Steps.{made, as_list, as_number, larger, raised, injected, wider, number_type, is_collection};
ghost use Rattle.st_elab_table.specs.Questions.{Answer, Step};
ghost use Rattle.st_elab_table.specs.Elaboration.{Leads};
ghost use Rattle.st_elab_rows.specs.Told.{Reaches};

use st_elab_table::{Decls, ExpFault};
use st_il::{IlExp, NumTy, Ty, copy_ty};
use st_num::{Boxed, NoMemory, RuleId, Span};
use st_types::is_sub;
use std::alloc::Global;

/// The element type of a list type; Y5 at this place where it is none.
pub fn as_list<'a>(decls: &'a Decls, at: Span, ty: &'a Ty) -> Result<&'a Ty, ExpFault>
    ensures { (S : Scope) → Reaches decls.now S (as_list at ty.now) (λ x. x.now) result }
{
    match decls.types.meaning(ty) {
        Ty::List(element) => Ok(element.get()),
        _ => Err(ExpFault::Refused {
            at,
            rule: RuleId::Y5,
        }),
    }
}

/// The number type that a type means; Y5 at this place where it means none.
pub fn as_number(decls: &Decls, at: Span, ty: &Ty) -> Result<NumTy, ExpFault>
    ensures { (S : Scope) → Reaches decls.now S (as_number at ty.now) (λ n. n) result }
{
    match decls.types.meaning(ty) {
        Ty::Nat => Ok(NumTy::Nat),
        Ty::Int => Ok(NumTy::Int),
        _ => Err(ExpFault::Refused {
            at,
            rule: RuleId::Y5,
        }),
    }
}

/// Whether a type that is met without its aliases is a list or an option.
pub fn is_collection(ty: &Ty) -> bool
    ensures { result ≡ is_collection ty.now }
{
    match ty {
        Ty::List(_) | Ty::Opt(_) => true,
        Ty::Bool | Ty::Nat | Ty::Int | Ty::Text | Ty::Name(_) | Ty::Tuple(_) => false,
    }
}

/// The injection of an expression into a type.
pub fn up(alloc: Global, ty: &Ty, exp: Boxed<IlExp>) -> Result<Boxed<IlExp>, NoMemory>
    ensures { IfOk result (λ x. x ≡ il.Up ty.now exp) }
{
    let ty = copy_ty(alloc, ty)?;
    let injected = Boxed::new(alloc, IlExp::Up(ty, exp))?;
    Ok(injected)
}

/// The expression of this type, injected into a type above it where it is not of that type.
pub fn raise(
    alloc: Global,
    decls: &Decls,
    exp: Boxed<IlExp>,
    has: &Ty,
    ty: &Ty,
) -> Result<Boxed<IlExp>, NoMemory>
    ensures { IfOk result (λ x. (S : Scope) (next : IlExp → Step) (a : Answer)
        → Leads decls.now S (next x) a
        → Leads decls.now S (raised (made exp has.now) ty.now next) a) }
{
    if decls.types.same(has, ty) {
        return Ok(exp);
    }
    let injected = up(alloc, ty, exp)?;
    Ok(injected)
}

/// The larger of two types, that of the left side where each is below the other.
pub fn larger<'a>(decls: &Decls, left: &'a Ty, right: &'a Ty) -> Option<&'a Ty>
    ensures { (S : Scope) (next : Ty → Step) (none : Step) (a : Answer) → MatchOption result
        (Leads decls.now S none a → Leads decls.now S (larger left.now right.now next none) a)
        (λ ty. Leads decls.now S (next ty.now) a
        → Leads decls.now S (larger left.now right.now next none) a) }
{
    if is_sub(&decls.types, right, left) {
        return Some(left);
    }
    if is_sub(&decls.types, left, right) {
        return Some(right);
    }
    None
}

/// A number of the first type, injected into the second.
pub fn inject(
    alloc: Global,
    from: NumTy,
    to: NumTy,
    exp: Boxed<IlExp>,
) -> Result<Boxed<IlExp>, NoMemory>
    ensures { IfOk result (λ x. x ≡ injected from to exp) }
{
    match (from, to) {
        (NumTy::Nat, NumTy::Int) => up(alloc, &Ty::Int, exp),
        (NumTy::Nat, NumTy::Nat) => Ok(exp),
        (NumTy::Int, _) => Ok(exp),
    }
}

/// The type of arithmetic on two numbers of these types.
pub fn wider(one: NumTy, other: NumTy) -> NumTy
    ensures { result ≡ wider one other }
{
    match one {
        NumTy::Nat => other,
        NumTy::Int => NumTy::Int,
    }
}

/// The type of a number.
pub fn number_type(number: NumTy) -> Ty
    ensures { result ≡ number_type number }
{
    match number {
        NumTy::Nat => Ty::Nat,
        NumTy::Int => Ty::Int,
    }
}
