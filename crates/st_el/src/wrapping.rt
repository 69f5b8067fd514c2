//! Whether a part suits its context, and what is written round it otherwise.

ghost use Rattle.std.specs.Prelude.{◌≡◌, if◌then◌else◌};
ghost use Rattle.st_el.specs.SourceText.{opened, printed, printed_mark};
ghost use Rattle.st_el.specs.Wrappings.{level_of, takes_in, has_bar, is_arithmetic, is_count, suits, wrapping};
ghost use Rattle.st_el.specs.declared.context.Wrapping.TheVariants.{Bare, Parens};

use crate::context::{Around, Behind, Context, OPERAND_LEVEL, SEQUENCE_LEVEL, Wrapping};
use crate::{Count, Exp, Node};
use st_num::Mark;

/// How tightly a part holds together.
fn level_of(node: &Node) -> u8
    ensures { result ≡ level_of (opened node.now) }
{
    match node {
        Node::Seq(_) => SEQUENCE_LEVEL,
        Node::Infix(_, sign, _) | Node::Binary(_, sign, _) => sign.level(),
        Node::Not(_) => Mark::Tilde.prefix_level(),
        Node::Neg(_) => Mark::Minus.prefix_level(),
        _ => OPERAND_LEVEL,
    }
}

/// What an iteration is to the part before it.
pub fn behind_of(count: &Count) -> Behind
    ensures { result ≡ (printed_mark count.now).behind }
{
    match count {
        Count::Plus => Behind::Plus,
        Count::Star | Count::Quest | Count::Times(_) | Count::Below(_, _) => Behind::Other,
    }
}

/// Whether what stands behind an operand would be read as a part of its last token.
fn takes_in(node: &Node, behind: Behind) -> bool
    ensures { result ≡ takes_in behind (opened node.now) }
{
    match (behind, node) {
        (Behind::Dot, Node::Atom(_)) => true,
        (Behind::Plus, Node::Iter(_, count)) => matches!(behind_of(count), Behind::Plus),
        _ => false,
    }
}

/// Whether an operand begins with a bar.
#[cycle(bar)]
fn has_bar(node: &Node) -> bool
    ensures { result ≡ has_bar (opened node.now) }
{
    match node {
        Node::Len(_) => true,
        Node::Dot(whole, _) => begins_with_bar(whole.get(), Behind::Dot),
        Node::At(whole, _)
        | Node::Slice(whole, _, _)
        | Node::Update(whole, _, _)
        | Node::Extend(whole, _, _) => begins_with_bar(whole.get(), Behind::Other),
        Node::Iter(body, count) => begins_with_bar(body.get(), behind_of(count)),
        _ => false,
    }
}

/// Whether a part begins with a bar where this is behind it.
#[cycle(bar)]
fn begins_with_bar(exp: &Exp, behind: Behind) -> bool
    ensures { result ≡ (printed exp.now).begins_with_bar behind }
{
    !takes_in(&exp.node, behind) && has_bar(&exp.node)
}

/// Whether the signs of a part are those of arithmetic.
fn is_arithmetic(node: &Node) -> bool
    ensures { result ≡ is_arithmetic (opened node.now) }
{
    match node {
        Node::Binary(_, sign, _) => sign.level() >= 15,
        Node::Neg(_) => true,
        _ => false,
    }
}

/// Whether a part may stand right behind `^`.
fn is_count(node: &Node) -> bool
    ensures { result ≡ is_count (opened node.now) }
{
    matches!(node, Node::Number(_) | Node::Name(_) | Node::Arith(_))
}

/// Whether a part may stand in its context without parentheses.
fn suits(node: &Node, context: Context) -> bool
    ensures { result ≡ suits context (opened node.now) }
{
    context.least <= level_of(node)
        && !takes_in(node, context.behind)
        && !(context.bar_closes && has_bar(node))
}

/// What is written round a part at its context.
pub fn wrapping(node: &Node, context: Context) -> Wrapping
    ensures { result ≡ wrapping context (opened node.now) }
{
    match context.around {
        Around::Caret => {
            if is_count(node) {
                Wrapping::Bare
            } else {
                Wrapping::Dollar
            }
        }
        Around::Arithmetic => parens_unless(suits(node, context)),
        Around::Brackets | Around::Bars => {
            if is_arithmetic(node) {
                Wrapping::Dollar
            } else {
                parens_unless(suits(node, context))
            }
        }
    }
}

/// Parentheses, unless the part suits its context.
fn parens_unless(suits: bool) -> Wrapping
    ensures { result ≡ (if suits then Bare else Parens) }
{
    if suits {
        Wrapping::Bare
    } else {
        Wrapping::Parens
    }
}
