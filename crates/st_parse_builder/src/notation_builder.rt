//! Building types and notations: actions one after another.

ghost use Rattle.std.specs.Prelude.{◌≡◌, [], ◌∷◌, reverse, Some, None, IfOk};
ghost use Rattle.st_grammar.specs.declared.sort.Sort.TheVariants.{Typ as typ, Notation as notation};
ghost use Rattle.st_grammar.specs.Trees.{Tree};
ghost use Rattle.st_grammar.specs.Grammar.{Fits};
ghost use Rattle.st_el.specs.declared.ty.Typ.{Typ};
ghost use Rattle.st_el.specs.declared.notation.Notation.{Notation};
ghost use Rattle.st_parse_builder.specs.Notations.{typ_meaning, notation_meaning};
ghost use Rattle.st_grammar.specs.inner.Actions.{acts};
ghost use Rattle.st_parse_builder.specs.inner.NotationBuilding as pieces;
ghost use Rattle.st_parse_builder.specs.inner.Parts.{Makes, made_or, untold};
ghost use Rattle.st_parse_builder.specs.inner.NotationEntries as spec;
ghost use Rattle.st_parse_builder.specs.inner.NotationEntries.{applied, entries, typ_part, notation_part};
ghost use Rattle.st_parse_builder.specs.inner.HaveTrees.{HaveTrees, NotationTreesCome};

use crate::NotationPiece;
use crate::built::{Built, above, untold};
use crate::notation_form::hole;
use crate::notation_make::{
    end_elements, end_types, first_element, leaf_piece, next_part, notation_dot, notation_enclose,
    notation_join, notation_prefix, typ_mark,
};
use crate::notation_pieces::{NotationEntry, NotationStack, as_notation, as_type, take};
use st_el::{Notation, Typ};
use st_grammar::Action;
use st_num::{NoMemory, Row};
use std::alloc::Global;

/// A piece of this height.
fn begun(piece: NotationPiece, height: u8) -> NotationEntry
    ensures { result ≡ record { tree = Some piece; height = height; from = 0 } }
{
    Built {
        tree: Some(piece),
        height,
        from: 0,
    }
}

/// What an action makes of what is on top.
fn make(
    alloc: Global,
    stack: &mut NotationStack,
    action: &Action<'_>,
) -> Result<Option<NotationEntry>, NoMemory>
    ensures { IfOk result (λ made.
        Makes (applied action.now (reverse stack.old)) (reverse stack.new) made) }
{
    match action {
        Action::Operand(leaf, token) => {
            Ok(Some(begun(leaf_piece(alloc, *leaf, token.get())?, 1)))
        }
        Action::Dot(token) => notation_dot(stack, token.get()),
        Action::Mark(mark) => typ_mark(alloc, stack, *mark),
        Action::Here(at) => Ok(Some(begun(NotationPiece::From(*at), 0))),
        Action::Prefix(mark) => notation_prefix(alloc, stack, *mark),
        Action::Enclose(bracket) => notation_enclose(alloc, stack, *bracket),
        Action::Join(mark) => notation_join(alloc, stack, *mark),
        Action::Open(at) => Ok(Some(begun(NotationPiece::Types(*at, Row::new(alloc)), 0))),
        Action::First => first_element(alloc, stack),
        Action::Part => next_part(stack),
        Action::EndParens => end_types(stack),
        Action::EndSequence => end_elements(stack),
        Action::Times
        | Action::Below
        | Action::Label(_)
        | Action::Length
        | Action::EndCall
        | Action::OpenFields(_)
        | Action::Field
        | Action::EndFields
        | Action::OpenPath
        | Action::StepField(_)
        | Action::StepAt
        | Action::StepSlice
        | Action::At
        | Action::Slice
        | Action::Change(_) => Ok(None),
    }
}

/// What is made goes on the stack; what does not fit is a part without a tree.
fn finish(stack: &mut NotationStack, made: Option<NotationEntry>) -> Result<(), NoMemory>
    ensures { IfOk result (λ _. reverse stack.new ≡ made_or made (untold 0) ∷ reverse stack.old) }
{
    match made {
        Some(entry) => stack.push(entry),
        None => stack.push(untold(0)),
    }
}

/// One step of building. An action that does not fit makes a part without a tree.
fn apply(alloc: Global, stack: &mut NotationStack, action: &Action<'_>) -> Result<(), NoMemory>
    ensures fits { (s u : pieces.Stack) → pieces.applied action.now s ≡ Some u
        → reverse stack.old ≡ entries s → IfOk result (λ _. reverse stack.new ≡ entries u) }
    ensures trees { IfOk result
        (λ _. NotationTreesCome action.now (reverse stack.old) (reverse stack.new)) }
{
    let made = make(alloc, stack, action)?;
    finish(stack, made)
}

/// All the steps, from an empty stack.
fn apply_all(alloc: Global, actions: &[Action<'_>]) -> Result<NotationStack, NoMemory>
    ensures fits { (s : pieces.Stack) → pieces.run actions.now [] ≡ Some s
        → IfOk result (λ stack. reverse stack ≡ entries s) }
    ensures trees { IfOk result (λ stack. (u : pieces.Stack)
        → HaveTrees (reverse stack) u → pieces.run actions.now [] ≡ Some u) }
{
    let mut stack = Row::new(alloc);
    'actions: for action in actions {
        apply(alloc, &mut stack, action)?;
    }
    Ok(stack)
}

/// The one part on the stack. Where there is none, or more than one, it has no tree.
fn only(mut stack: NotationStack) -> NotationEntry
    ensures { result ≡ made_or (spec.the_part (reverse stack)) (untold 0) }
{
    let Some(top) = take(&mut stack) else {
        return untold(0);
    };
    if !stack.is_empty() {
        return untold(0);
    }
    top
}

/// The type that a part is. Where it is none, it has no tree.
fn typ_of(part: NotationEntry) -> Built<Typ>
    ensures { result ≡ made_or (spec.typ_in part) (untold 0) }
{
    let Some(part) = as_type(part) else {
        return untold(0);
    };
    let Built { tree, height, from } = part;
    let tree = match tree {
        None => None,
        Some((_, typ)) => Some(typ),
    };
    Built { tree, height, from }
}

/// The notation that a part is. A type alone may be an alias, and is kept as high as one may be.
fn notation_of(part: NotationEntry) -> Built<Notation>
    ensures { result ≡ made_or (spec.notation_in part) (untold 0) }
{
    let Built { tree, height, from } = part;
    match tree {
        Some(NotationPiece::Hole(at, typ)) => Built {
            tree: Some(hole(at, typ)),
            height: above(height),
            from,
        },
        tree => as_notation(Built { tree, height, from }).unwrap_or(untold(0)),
    }
}

/// Builds the type of these actions.
pub fn build_typ(alloc: Global, actions: &[Action<'_>]) -> Result<Built<Typ>, NoMemory>
    ensures exact { (t : Typ) → pieces.typ_built actions.now ≡ Some t
        → IfOk result (λ made. made ≡ typ_part t) }
    ensures none { pieces.typ_built actions.now ≡ None → IfOk result (λ made. made.tree ≡ None) }
    ensures tree { (t : Tree) → Fits typ t → actions.now ≡ acts t
        → IfOk result (λ made. made ≡ typ_part (typ_meaning t)) }
{
    let stack = apply_all(alloc, actions)?;
    Ok(typ_of(only(stack)))
}

/// Builds the notation of these actions. A type alone has a tree where it may be an alias, though as
/// a notation it may be 101 high.
pub fn build_notation(alloc: Global, actions: &[Action<'_>]) -> Result<Built<Notation>, NoMemory>
    ensures exact { (n : Notation) → pieces.notation_built actions.now ≡ Some n
        → IfOk result (λ made. made ≡ notation_part n) }
    ensures none { pieces.notation_built actions.now ≡ None
        → IfOk result (λ made. made.tree ≡ None) }
    ensures tree { (t : Tree) → Fits notation t → actions.now ≡ acts t
        → IfOk result (λ made. made ≡ notation_part (notation_meaning t)) }
{
    let stack = apply_all(alloc, actions)?;
    Ok(notation_of(only(stack)))
}
