//! Written types in the internal language.

ghost use Rattle.std.specs.Prelude.{◌≡◌, map, IfOk};
ghost use Rattle.st_elab_sig.specs.Types.{ty_of};

use st_el::{Typ, TypNode};
use st_il::Ty;
use st_num::{Boxed, NoMemory, Row};
use std::alloc::Global;

/// What a written type is in the internal language.
#[cycle(ty)]
pub fn elaborate_typ(alloc: Global, typ: &Typ) -> Result<Ty, NoMemory>
    ensures { IfOk result (λ ty. ty ≡ ty_of typ.now) }
{
    match &typ.node {
        TypNode::Bool => Ok(Ty::Bool),
        TypNode::Nat => Ok(Ty::Nat),
        TypNode::Int => Ok(Ty::Int),
        TypNode::Text => Ok(Ty::Text),
        TypNode::Name(name) => Ok(Ty::Name(name.copy(alloc)?)),
        TypNode::Star(element) => Ok(Ty::List(boxed_ty(alloc, element)?)),
        TypNode::Quest(element) => Ok(Ty::Opt(boxed_ty(alloc, element)?)),
        TypNode::Tuple(parts) => Ok(Ty::Tuple(elaborate_typs(alloc, parts.as_slice())?)),
    }
}

/// What a written type in its box is in the internal language, in a box too.
#[cycle(ty)]
fn boxed_ty(alloc: Global, typ: &Boxed<Typ>) -> Result<Boxed<Ty>, NoMemory>
    ensures { IfOk result (λ ty. ty ≡ ty_of typ.now) }
{
    let ty = elaborate_typ(alloc, typ.get())?;
    Boxed::new(alloc, ty)
}

/// What written types are in the internal language, one after another.
#[cycle(ty)]
pub fn elaborate_typs(alloc: Global, typs: &[Typ]) -> Result<Row<Ty>, NoMemory>
    ensures { IfOk result (λ tys. tys ≡ map ty_of typs.now) }
{
    let mut tys = Row::new(alloc);
    for typ in typs {
        tys.push(elaborate_typ(alloc, typ)?)?;
    }
    Ok(tys)
}
