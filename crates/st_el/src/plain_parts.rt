//! Types, notations and premises without their places.

ghost use Rattle.std.specs.Prelude.{◌≡◌, map, IfOk};
ghost use Rattle.st_el.specs.Plain.{plain_typ, plain_typ_node, plain_notation, plain_not_node, plain_prem, plain_prem_node};

use crate::plain_expression::{plain_count, plain_exp};
use crate::{NotNode, Notation, Prem, PremNode, Typ, TypNode};
use st_num::{Boxed, NoMemory, Row, Span};
use std::alloc::Global;

/// The type without its places.
#[cycle(plain_typ)]
pub fn plain_typ(alloc: Global, typ: &Typ) -> Result<Typ, NoMemory>
    ensures { IfOk result (λ plain. plain ≡ plain_typ typ.now) }
{
    let node = plain_typ_node(alloc, &typ.node)?;
    Ok(Typ {
        at: Span::NOWHERE,
        node,
    })
}

/// What the type is, without the places of its parts.
#[cycle(plain_typ)]
fn plain_typ_node(alloc: Global, node: &TypNode) -> Result<TypNode, NoMemory>
    ensures { IfOk result (λ plain. plain ≡ plain_typ_node node.now) }
{
    match node {
        TypNode::Bool => Ok(TypNode::Bool),
        TypNode::Nat => Ok(TypNode::Nat),
        TypNode::Int => Ok(TypNode::Int),
        TypNode::Text => Ok(TypNode::Text),
        TypNode::Name(name) => Ok(TypNode::Name(name.copy(alloc)?)),
        TypNode::Star(inner) => {
            let inner = plain_typ(alloc, inner.get())?;
            Ok(TypNode::Star(Boxed::new(alloc, inner)?))
        }
        TypNode::Quest(inner) => {
            let inner = plain_typ(alloc, inner.get())?;
            Ok(TypNode::Quest(Boxed::new(alloc, inner)?))
        }
        TypNode::Tuple(parts) => Ok(TypNode::Tuple(plain_typs(alloc, parts.as_slice())?)),
    }
}

/// The types without their places, in order.
#[cycle(plain_typ)]
pub fn plain_typs(alloc: Global, typs: &[Typ]) -> Result<Row<Typ>, NoMemory>
    ensures { IfOk result (λ plain. plain ≡ map plain_typ typs.now) }
{
    let mut plain = Row::new(alloc);
    for typ in typs {
        plain.push(plain_typ(alloc, typ)?)?;
    }
    Ok(plain)
}

/// The notation without its places.
#[cycle(plain_notation)]
pub fn plain_notation(alloc: Global, notation: &Notation) -> Result<Notation, NoMemory>
    ensures { IfOk result (λ plain. plain ≡ plain_notation notation.now) }
{
    let node = plain_not_node(alloc, &notation.node)?;
    Ok(Notation {
        at: Span::NOWHERE,
        node,
    })
}

/// What the notation is, without the places of its parts.
#[cycle(plain_notation)]
fn plain_not_node(alloc: Global, node: &NotNode) -> Result<NotNode, NoMemory>
    ensures { IfOk result (λ plain. plain ≡ plain_not_node node.now) }
{
    match node {
        NotNode::Atom(name) => Ok(NotNode::Atom(name.copy(alloc)?)),
        NotNode::Hole(typ) => Ok(NotNode::Hole(plain_typ(alloc, typ)?)),
        NotNode::Seq(parts) => Ok(NotNode::Seq(plain_notations(alloc, parts.as_slice())?)),
        NotNode::Infix(left, sign, right) => {
            let left = Boxed::new(alloc, plain_notation(alloc, left.get())?)?;
            let right = Boxed::new(alloc, plain_notation(alloc, right.get())?)?;
            Ok(NotNode::Infix(left, *sign, right))
        }
        NotNode::Bracket(sign, inner) => {
            let inner = plain_notation(alloc, inner.get())?;
            Ok(NotNode::Bracket(*sign, Boxed::new(alloc, inner)?))
        }
    }
}

/// The notations without their places, in order.
#[cycle(plain_notation)]
pub fn plain_notations(alloc: Global, notations: &[Notation]) -> Result<Row<Notation>, NoMemory>
    ensures { IfOk result (λ plain. plain ≡ map plain_notation notations.now) }
{
    let mut plain = Row::new(alloc);
    for notation in notations {
        plain.push(plain_notation(alloc, notation)?)?;
    }
    Ok(plain)
}

/// The premise without its places, with its expressions made plain.
#[cycle(plain_prem)]
pub fn plain_prem(alloc: Global, prem: &Prem) -> Result<Prem, NoMemory>
    ensures { IfOk result (λ plain. plain ≡ plain_prem prem.now) }
{
    let node = plain_prem_node(alloc, &prem.node)?;
    Ok(Prem {
        at: Span::NOWHERE,
        node,
    })
}

/// What the premise is, with its expressions made plain.
#[cycle(plain_prem)]
fn plain_prem_node(alloc: Global, node: &PremNode) -> Result<PremNode, NoMemory>
    ensures { IfOk result (λ plain. plain ≡ plain_prem_node node.now) }
{
    match node {
        PremNode::If(exp) => Ok(PremNode::If(plain_exp(alloc, exp)?)),
        PremNode::Goal(name, exp) => {
            let name = name.copy(alloc)?;
            Ok(PremNode::Goal(name, plain_exp(alloc, exp)?))
        }
        PremNode::Otherwise => Ok(PremNode::Otherwise),
        PremNode::Each(prem, count) => {
            let prem = Boxed::new(alloc, plain_prem(alloc, prem.get())?)?;
            Ok(PremNode::Each(prem, plain_count(alloc, count)?))
        }
    }
}

/// The premises without their places, in order.
pub fn plain_prems(alloc: Global, prems: &[Prem]) -> Result<Row<Prem>, NoMemory>
    ensures { IfOk result (λ plain. plain ≡ map plain_prem prems.now) }
{
    let mut plain = Row::new(alloc);
    for prem in prems {
        plain.push(plain_prem(alloc, prem)?)?;
    }
    Ok(plain)
}
