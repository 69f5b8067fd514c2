//! Types and notations from their parts.

ghost use Rattle.std.specs.Prelude.{◌≡◌, [], IfOk};
ghost use Rattle.st_el.specs.declared.notation.NotNode.{out-NotNode};
ghost use Rattle.st_el.specs.declared.notation.NotNode.TheVariants as not_node;
ghost use Rattle.st_parse_builder.specs.Names.{name_of};
ghost use Rattle.st_parse_builder.specs.Notations as notations;

use crate::form::with_dot;
use crate::leaf::{copy_name, name_of};
use st_el::{NotNode, Notation, Typ, TypNode};
use st_grammar::Bracket;
use st_num::{Boxed, Mark, NoMemory, Row, Span, Token, TokenKind, Word};
use std::alloc::Global;

/// What a type of one token is.
fn typ_leaf(alloc: Global, kind: &TokenKind) -> Result<TypNode, NoMemory>
    ensures { IfOk result (λ node. node ≡ notations.typ_leaf kind.now) }
{
    match kind {
        TokenKind::Reserved(Word::Bool) => Ok(TypNode::Bool),
        TokenKind::Reserved(Word::Nat) => Ok(TypNode::Nat),
        TokenKind::Reserved(Word::Int) => Ok(TypNode::Int),
        TokenKind::Reserved(Word::Text) => Ok(TypNode::Text),
        _ => Ok(TypNode::Name(copy_name(alloc, kind)?)),
    }
}

/// A type of one token.
pub(crate) fn typ_of(alloc: Global, token: &Token) -> Result<Typ, NoMemory>
    ensures { IfOk result (λ typ.
        typ ≡ notations.typ_at token.now.at (notations.typ_leaf token.now.kind)) }
{
    let node = typ_leaf(alloc, &token.kind)?;
    Ok(Typ { at: token.at, node })
}

/// An atom of one token.
pub(crate) fn atom_of(alloc: Global, token: &Token) -> Result<Notation, NoMemory>
    ensures { IfOk result (λ atom.
        atom ≡ notations.notation_at token.now.at (not_node.Atom (name_of token.now.kind))) }
{
    let name = copy_name(alloc, &token.kind)?;
    Ok(Notation {
        at: token.at,
        node: NotNode::Atom(name),
    })
}

/// A type as a part of a notation that begins there.
pub(crate) fn hole(at: Span, typ: Typ) -> Notation
    ensures { result ≡ notations.hole at typ }
{
    Notation {
        at,
        node: NotNode::Hole(typ),
    }
}

/// An iterated type.
pub(crate) fn marked(alloc: Global, at: Span, mark: Mark, typ: Typ) -> Result<Typ, NoMemory>
    ensures { IfOk result (λ whole. whole ≡ notations.marked at mark typ) }
{
    let typ = Boxed::new(alloc, typ)?;
    let node = match mark {
        Mark::Question => TypNode::Quest(typ),
        _ => TypNode::Star(typ),
    };
    Ok(Typ { at, node })
}

/// One type in parentheses, or a tuple.
pub(crate) fn typ_in_parens(at: Span, types: Row<Typ>) -> Typ
    ensures { result ≡ notations.typ_in_parens at types }
{
    let mut types = types;
    if types.len() == 1 {
        if let Some(typ) = types.pop() {
            return typ;
        }
    }
    Typ {
        at,
        node: TypNode::Tuple(types),
    }
}

/// The sign that names a backquoted bracket, which is the opening one.
fn tick(bracket: Bracket) -> Mark
    ensures { result ≡ notations.tick bracket }
{
    match bracket {
        Bracket::TickRound => Mark::TickParen,
        Bracket::TickSquare => Mark::TickBracket,
        Bracket::TickBrace | Bracket::Round | Bracket::Square | Bracket::Brace | Bracket::Dollar =>
            Mark::TickBrace,
    }
}

/// A notation in a bracket.
pub(crate) fn enclosed(
    alloc: Global,
    bracket: Bracket,
    at: Span,
    notation: Notation,
) -> Result<Notation, NoMemory>
    ensures { IfOk result (λ whole. whole
        ≡ notations.notation_at at (not_node.Bracket (notations.tick bracket) notation)) }
{
    let notation = Boxed::new(alloc, notation)?;
    Ok(Notation {
        at,
        node: NotNode::Bracket(tick(bracket), notation),
    })
}

/// Two sides with a sign between them.
pub(crate) fn notation_joined(
    alloc: Global,
    left: Notation,
    mark: Mark,
    right: Notation,
) -> Result<Notation, NoMemory>
    ensures { IfOk result (λ whole. whole ≡ notations.notation_joined left mark right) }
{
    let at = left.at;
    let left = Boxed::new(alloc, left)?;
    let right = Boxed::new(alloc, right)?;
    Ok(Notation {
        at,
        node: NotNode::Infix(left, mark, right),
    })
}

/// The left side of a sign that has only a right one.
pub(crate) fn absent(alloc: Global, at: Span) -> Notation
    ensures { result ≡ notations.notation_at at (not_node.Seq []) }
{
    Notation {
        at,
        node: NotNode::Seq(Row::new(alloc)),
    }
}

/// What an atom is that goes on with the name behind a dot.
fn spelled_on(node: NotNode, token: &Token) -> Result<NotNode, NoMemory>
    ensures { IfOk result (λ whole.
        whole ≡ notations.spelled_on (out-NotNode node) (name_of token.now.kind)) }
{
    match node {
        NotNode::Atom(name) => Ok(NotNode::Atom(with_dot(name, name_of(&token.kind))?)),
        node => Ok(node),
    }
}

/// An atom that goes on with the name behind a dot.
pub(crate) fn notation_on(notation: Notation, token: &Token) -> Result<Notation, NoMemory>
    ensures { IfOk result (λ whole. whole ≡ notations.atom_on notation token.now) }
{
    let Notation { at, node } = notation;
    let node = spelled_on(node, token)?;
    Ok(Notation { at, node })
}
