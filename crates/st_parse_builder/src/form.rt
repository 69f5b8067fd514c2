//! Expressions from their parts.

ghost use Rattle.std.specs.Prelude.{◌≡◌, ◌∷◌, ◌++◌, IfOk};
ghost use Rattle.st_el.specs.declared.expression.Count.TheVariants as count;
ghost use Rattle.st_el.specs.declared.expression.Node.{out-Node};
ghost use Rattle.st_el.specs.declared.expression.Node.TheVariants as node;
ghost use Rattle.st_parse_builder.specs.Names.{name_of};
ghost use Rattle.st_parse_builder.specs.inner.Building.{call_name};
ghost use Rattle.st_parse_builder.specs.inner.Entries.{goes_on};
ghost use Rattle.st_parse_builder.specs.Meaning as meaning;

use crate::leaf::{copy_name, name_of};
use st_el::{Count, Exp, Node, Seg};
use st_grammar::Bracket;
use st_num::{Boxed, Mark, Name, NoMemory, Row, Span, Token};
use std::alloc::Global;

/// Two sides with a sign between them.
pub(crate) fn joined(alloc: Global, left: Exp, mark: Mark, right: Exp) -> Result<Exp, NoMemory>
    ensures { IfOk result (λ exp. exp ≡ meaning.joined left mark right) }
{
    let at = left.at;
    let left = Boxed::new(alloc, left)?;
    let right = Boxed::new(alloc, right)?;
    let node = if mark.is_notation() {
        Node::Infix(left, mark, right)
    } else {
        Node::Binary(left, mark, right)
    };
    Ok(Exp { at, node })
}

/// A sign that has only a right side.
pub(crate) fn prefixed(alloc: Global, mark: Mark, at: Span, exp: Exp) -> Result<Exp, NoMemory>
    ensures { IfOk result (λ whole. whole ≡ meaning.prefixed mark at exp) }
{
    let exp = Boxed::new(alloc, exp)?;
    match mark {
        Mark::Tilde => Ok(Exp {
            at,
            node: Node::Not(exp),
        }),
        Mark::Minus => Ok(Exp {
            at,
            node: Node::Neg(exp),
        }),
        _ => {
            let absent = Exp {
                at,
                node: Node::Seq(Row::new(alloc)),
            };
            let absent = Boxed::new(alloc, absent)?;
            Ok(Exp {
                at,
                node: Node::Infix(absent, mark, exp),
            })
        }
    }
}

/// An iteration.
pub(crate) fn iterated(alloc: Global, exp: Exp, count: Count) -> Result<Exp, NoMemory>
    ensures { IfOk result (λ whole. whole ≡ meaning.iterated exp count) }
{
    let at = exp.at;
    let exp = Boxed::new(alloc, exp)?;
    Ok(Exp {
        at,
        node: Node::Iter(exp, count),
    })
}

/// An iteration that goes as often as the bound says.
pub(crate) fn times_of(alloc: Global, body: Exp, bound: Exp) -> Result<Exp, NoMemory>
    ensures { IfOk result (λ whole. whole ≡ meaning.iterated body (count.Times bound)) }
{
    let bound = Boxed::new(alloc, bound)?;
    iterated(alloc, body, Count::Times(bound))
}

/// An iteration whose index runs below the bound.
pub(crate) fn below_of(alloc: Global, body: Exp, index: Name, bound: Exp) -> Result<Exp, NoMemory>
    ensures { IfOk result (λ whole. whole ≡ meaning.iterated body (count.Below index bound)) }
{
    let bound = Boxed::new(alloc, bound)?;
    iterated(alloc, body, Count::Below(index, bound))
}

/// What an iteration sign counts.
pub fn mark_count(mark: Mark) -> Count
    ensures { result ≡ meaning.mark_count mark }
{
    match mark {
        Mark::Star => Count::Star,
        Mark::Plus => Count::Plus,
        _ => Count::Quest,
    }
}

/// One part in a bracket.
pub(crate) fn enclosed(alloc: Global, bracket: Bracket, at: Span, exp: Exp) -> Result<Exp, NoMemory>
    ensures { IfOk result (λ whole. whole ≡ meaning.exp at (meaning.enclosed bracket exp)) }
{
    let exp = Boxed::new(alloc, exp)?;
    let node = match bracket {
        Bracket::TickRound => Node::Bracket(Mark::TickParen, exp),
        Bracket::TickSquare => Node::Bracket(Mark::TickBracket, exp),
        Bracket::TickBrace => Node::Bracket(Mark::TickBrace, exp),
        Bracket::Round | Bracket::Square | Bracket::Brace | Bracket::Dollar => Node::Arith(exp),
    };
    Ok(Exp { at, node })
}

/// One part between the bars of a length.
pub(crate) fn length_of(alloc: Global, at: Span, exp: Exp) -> Result<Exp, NoMemory>
    ensures { IfOk result (λ whole. whole ≡ meaning.exp at (node.Len exp)) }
{
    let exp = Boxed::new(alloc, exp)?;
    Ok(Exp {
        at,
        node: Node::Len(exp),
    })
}

/// One part in parentheses, or a tuple.
pub(crate) fn in_parens(alloc: Global, at: Span, mut parts: Row<Exp>) -> Result<Exp, NoMemory>
    ensures { IfOk result (λ whole. whole ≡ meaning.exp at (meaning.in_parens parts)) }
{
    if parts.len() == 1 {
        if let Some(part) = parts.pop() {
            let part = Boxed::new(alloc, part)?;
            return Ok(Exp {
                at,
                node: Node::Paren(part),
            });
        }
    }
    Ok(Exp {
        at,
        node: Node::Tuple(parts),
    })
}

/// A new value at a path.
pub(crate) fn changed(
    alloc: Global,
    mark: Mark,
    exp: Exp,
    path: Row<Seg>,
    new: Exp,
) -> Result<Exp, NoMemory>
    ensures { IfOk result (λ whole. whole ≡ meaning.changed mark exp path new) }
{
    let at = exp.at;
    let exp = Boxed::new(alloc, exp)?;
    let new = Boxed::new(alloc, new)?;
    let node = match mark {
        Mark::ExtendBy => Node::Extend(exp, path, new),
        _ => Node::Update(exp, path, new),
    };
    Ok(Exp { at, node })
}

/// The element at a position.
pub(crate) fn element(alloc: Global, whole: Exp, position: Exp) -> Result<Exp, NoMemory>
    ensures { IfOk result (λ exp. exp
        ≡ meaning.exp (meaning.place whole) (node.At whole position)) }
{
    let at = whole.at;
    let whole = Boxed::new(alloc, whole)?;
    let position = Boxed::new(alloc, position)?;
    Ok(Exp {
        at,
        node: Node::At(whole, position),
    })
}

/// The elements from a position on.
pub(crate) fn sliced(alloc: Global, whole: Exp, from: Exp, count: Exp) -> Result<Exp, NoMemory>
    ensures { IfOk result (λ exp. exp
        ≡ meaning.exp (meaning.place whole) (node.Slice whole from count)) }
{
    let at = whole.at;
    let whole = Boxed::new(alloc, whole)?;
    let from = Boxed::new(alloc, from)?;
    let count = Boxed::new(alloc, count)?;
    Ok(Exp {
        at,
        node: Node::Slice(whole, from, count),
    })
}

/// A name with another behind it and a dot between them.
pub(crate) fn with_dot(name: Name, behind: &[u8]) -> Result<Name, NoMemory>
    ensures { IfOk result (λ whole. whole ≡ name ++ 46 ∷ behind.now) }
{
    let mut bytes = name.into_vec();
    bytes.push(b'.')?;
    bytes.extend_from_slice(behind)?;
    Ok(Name::from_vec(bytes))
}

/// Whether an expression is an atom.
fn is_atom(exp: &Exp) -> bool
    ensures { result ≡ meaning.is_atom (meaning.opened exp.now) }
{
    matches!(&exp.node, Node::Atom(_))
}

/// Whether a dot goes on with the name of an atom.
pub(crate) fn goes_on(token: &Token, exp: &Option<Exp>) -> bool
    ensures { result ≡ goes_on token.now exp.now }
{
    match exp {
        None => false,
        Some(exp) => token.touching && is_atom(exp),
    }
}

/// The name of an atom, and the empty one for anything else.
fn atom_name(alloc: Global, node: Node) -> Name
    ensures { result ≡ meaning.atom_name (out-Node node) }
{
    match node {
        Node::Atom(name) => name,
        _ => Row::new(alloc),
    }
}

/// An atom that goes on with the name behind a dot.
fn atom_on(alloc: Global, exp: Exp, token: &Token) -> Result<Exp, NoMemory>
    ensures { IfOk result (λ whole. whole ≡ meaning.exp (meaning.place exp)
        (node.Atom (meaning.atom_name (meaning.opened exp) ++ 46 ∷ name_of token.now.kind))) }
{
    let Exp { at, node } = exp;
    let name = with_dot(atom_name(alloc, node), name_of(&token.kind))?;
    Ok(Exp {
        at,
        node: Node::Atom(name),
    })
}

/// A field of a record.
fn field_of(alloc: Global, exp: Exp, token: &Token) -> Result<Exp, NoMemory>
    ensures { IfOk result (λ whole. whole ≡ meaning.exp (meaning.place exp)
        (node.Dot exp (name_of token.now.kind))) }
{
    let at = exp.at;
    let name = copy_name(alloc, &token.kind)?;
    let exp = Boxed::new(alloc, exp)?;
    Ok(Exp {
        at,
        node: Node::Dot(exp, name),
    })
}

/// An expression with a dot and a name behind it.
pub(crate) fn dotted(alloc: Global, exp: Exp, token: &Token) -> Result<Exp, NoMemory>
    ensures { IfOk result (λ whole. whole ≡ meaning.dotted exp token.now) }
{
    if token.touching && is_atom(&exp) {
        atom_on(alloc, exp, token)
    } else {
        field_of(alloc, exp, token)
    }
}

/// The name of a function alone, which takes arguments.
pub(crate) fn call_name(node: Node) -> Option<Name>
    ensures { result ≡ call_name (out-Node node) }
{
    match node {
        Node::Call(name, args) => { if args.is_empty() { Some(name) } else { None } }
        _ => None,
    }
}
