//! Questions about parts of an expression, and what answers them.

ghost use Rattle.std.specs.Prelude.{◌≡◌, IfOk};
ghost use Rattle.std.specs.Borrow.{Bor};
ghost use Rattle.st_dims.specs.declared.within.Within.{Within};
ghost use Rattle.st_il.specs.declared.ty.Ty.{Ty};
ghost use Rattle.st_elab_table.specs.Steps.{made, asked};
ghost use Rattle.st_elab_rows.specs.Asking.{made_by, question};
ghost use Rattle.st_elab_rows.specs.declared.asking.Asking.TheVariants as asking;

use st_dims::Within;
use st_el::Exp;
use st_elab_table::{Decls, Scope};
use st_il::{IlExp, Ty};
use st_num::{Boxed, Name, NoMemory, Span};
use std::alloc::Global;

/// An expression with its type.
#[derive(Drop)]
pub struct Found {
    pub exp: Boxed<IlExp>,
    pub ty: Ty,
}

/// What is found: this expression of this type.
pub fn give(alloc: Global, exp: IlExp, ty: Ty) -> Result<Found, NoMemory>
    ensures { IfOk result (λ given. made_by given ≡ made exp ty) }
{
    let exp = Boxed::new(alloc, exp)?;
    Ok(Found { exp, ty })
}

/// A part, with the place of its parentheses, where it has any.
#[derive(Clone, Copy)]
pub struct Part<'a> {
    pub at: Span,
    pub in_parentheses: bool,
    /// The variants at which the expression itself is being asked already.
    pub passed: &'a [Name],
    pub exp: &'a Exp,
}

/// The expression by itself, as a part.
pub fn by_itself<'a>(exp: &'a Exp) -> Part<'a>
    ensures { (w : Within) (t : Bor Ty)
        → question w (asking.Check result t) ≡ asked w exp.now t.now }
{
    Part {
        at: exp.at,
        in_parentheses: false,
        passed: &[],
        exp,
    }
}

/// What is asked of a part. The place is that of its parentheses, where it has any.
#[derive(Clone, Copy)]
pub enum Asking<'a> {
    /// What the part is at a type.
    Check(Part<'a>, &'a Ty),
    /// What the expression is, and its type.
    Infer { at: Span, exp: &'a Exp },
}

/// What an expression may name, and what stands round it.
#[derive(Drop)]
pub struct Context<'a> {
    pub alloc: Global,
    pub decls: &'a Decls,
    pub scope: &'a Scope,
    pub within: &'a Within,
}
