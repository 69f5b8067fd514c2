//! What one token stands for.

ghost use Rattle.std.specs.Prelude.{◌≡◌, IfOk};
ghost use Rattle.st_parse_builder.specs.Names.{name_of, number_of, literal_node, leaf_node};

use st_el::Node;
use st_grammar::Leaf;
use st_num::{Name, NoMemory, Row, TokenKind, Word};
use std::alloc::Global;

/// The name that a token spells, without a dot or a dollar sign before it.
pub fn name_of(kind: &TokenKind) -> &[u8]
    ensures { result.now ≡ name_of kind.now }
{
    match kind {
        TokenKind::Low(name)
        | TokenKind::Up(name)
        | TokenKind::Mix(name)
        | TokenKind::Dot(name)
        | TokenKind::Fun(name) => name.as_slice(),
        TokenKind::Reserved(word) => word.spelling().as_bytes(),
        TokenKind::Number(_) | TokenKind::Text(_) | TokenKind::Sign(_) => &[],
    }
}

/// A copy of the name that a token spells.
pub fn copy_name(alloc: Global, kind: &TokenKind) -> Result<Name, NoMemory>
    ensures { IfOk result (λ name. name ≡ name_of kind.now) }
{
    Name::from_slice(alloc, name_of(kind))
}

/// The number that a token writes, and 0 for any other token.
fn number_of(kind: &TokenKind) -> u128
    ensures { result ≡ number_of kind.now }
{
    match kind {
        TokenKind::Number(number) => *number,
        _ => 0,
    }
}

/// The node of a literal: a text, a truth value or `eps`.
fn literal_node(alloc: Global, kind: &TokenKind) -> Result<Node, NoMemory>
    ensures { IfOk result (λ node. node ≡ literal_node kind.now) }
{
    match kind {
        TokenKind::Text(text) => Ok(Node::Text(text.copy(alloc)?)),
        TokenKind::Reserved(Word::True) => Ok(Node::Bool(true)),
        TokenKind::Reserved(Word::False) => Ok(Node::Bool(false)),
        _ => Ok(Node::Eps),
    }
}

/// The node of one token, of each sort of leaf.
pub(crate) fn leaf_node(alloc: Global, leaf: Leaf, kind: &TokenKind) -> Result<Node, NoMemory>
    ensures { IfOk result (λ node. node ≡ leaf_node leaf kind.now) }
{
    match leaf {
        Leaf::Low | Leaf::Basic | Leaf::Variable => Ok(Node::Name(copy_name(alloc, kind)?)),
        Leaf::Atom => Ok(Node::Atom(copy_name(alloc, kind)?)),
        Leaf::Number => Ok(Node::Number(number_of(kind))),
        Leaf::Literal => literal_node(alloc, kind),
        Leaf::Function => {
            let name = copy_name(alloc, kind)?;
            Ok(Node::Call(name, Row::new(alloc)))
        }
    }
}
