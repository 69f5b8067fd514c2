//! Building: actions one after another.

ghost use Rattle.std.specs.Prelude.{◌≡◌, [], ◌∷◌, ◌++◌, List, length, reverse, Some, None, IfOk, OnSome};
ghost use Rattle.st_el.specs.declared.expression.Exp.{Exp};
ghost use Rattle.st_grammar.specs.declared.sort.Sort.{Sort};
ghost use Rattle.st_grammar.specs.Trees.{Tree};
ghost use Rattle.st_grammar.specs.Grammar.{Fits};
ghost use Rattle.st_parse_builder.specs.declared.piece.Piece.TheVariants as piece;
ghost use Rattle.st_parse_builder.specs.Meaning.{meaning};
ghost use Rattle.st_parse_builder.specs.Variables.{Occurrence, occurrences, variables};
ghost use Rattle.st_grammar.specs.inner.Actions.{acts};
ghost use Rattle.st_parse_builder.specs.inner.Building as pieces;
ghost use Rattle.st_parse_builder.specs.inner.PieceVariables.{stack_variables};
ghost use Rattle.st_parse_builder.specs.inner.Parts.{Makes, made_or, untold};
ghost use Rattle.st_parse_builder.specs.inner.Entries.{applied, begun, noted, Stands, the_exp, exp_part};
ghost use Rattle.st_parse_builder.specs.inner.HaveTrees.{TreesCome, exp_built};

use crate::Piece;
use crate::built::{Built, untold};
use crate::leaf::copy_name;
use crate::list::{end_call, end_fields, end_parens, end_sequence, field, first, part};
use crate::make::{below, dot, enclose, join, length, mark, operand, prefix, times};
use crate::path::{change, position, slice, step_at, step_field, step_slice};
use crate::pieces::{Entry, Stack, pop_done};
use st_el::Exp;
use st_grammar::{Action, TokenRef};
use st_num::{NoMemory, Row};
use std::alloc::Global;

/// A piece with no expression in it, before which so many variables are seen.
fn begun(piece: Piece, from: usize) -> Entry
    ensures { result ≡ begun from piece }
{
    Built {
        tree: Some(piece),
        height: 0,
        from,
    }
}

/// What an action makes of what is on top.
fn make<'a>(
    alloc: Global,
    stack: &mut Stack,
    seen: &mut Row<TokenRef<'a>>,
    action: &Action<'a>,
) -> Result<Option<Entry>, NoMemory>
    ensures part { IfOk result (λ made.
        Makes (applied (length seen.old) action.now (reverse stack.old)) (reverse stack.new) made) }
    ensures seen { IfOk result (λ made. OnSome made
        (noted action.now (reverse stack.old) (occurrences seen.old)
        ≡ Some (occurrences seen.new))) }
{
    match action {
        Action::Operand(leaf, token) => Ok(Some(operand(alloc, *leaf, token, seen)?)),
        Action::Dot(token) => dot(alloc, stack, token.get()),
        Action::Mark(sign) => mark(alloc, stack, *sign),
        Action::Times => times(alloc, stack),
        Action::Below => below(alloc, stack, seen),
        Action::Label(token) => {
            let name = copy_name(alloc, &token.get().kind)?;
            Ok(Some(begun(Piece::Label(name), seen.len())))
        }
        Action::Here(at) => Ok(Some(begun(Piece::Here(*at), seen.len()))),
        Action::Prefix(sign) => prefix(alloc, stack, *sign),
        Action::Enclose(bracket) => enclose(alloc, stack, *bracket),
        Action::Length => length(alloc, stack),
        Action::Join(sign) => join(alloc, stack, *sign),
        Action::Open(at) => Ok(Some(begun(Piece::Parts(*at, Row::new(alloc)), seen.len()))),
        Action::First => first(alloc, stack),
        Action::Part => part(stack),
        Action::EndParens => end_parens(alloc, stack),
        Action::EndCall => end_call(stack),
        Action::EndSequence => end_sequence(stack),
        Action::OpenFields(at) => {
            Ok(Some(begun(Piece::Fields(*at, Row::new(alloc)), seen.len())))
        }
        Action::Field => field(stack),
        Action::EndFields => end_fields(stack),
        Action::OpenPath => Ok(Some(begun(Piece::Path(Row::new(alloc)), seen.len()))),
        Action::StepField(token) => step_field(alloc, stack, token.get()),
        Action::StepAt => step_at(stack),
        Action::StepSlice => step_slice(stack),
        Action::At => position(alloc, stack),
        Action::Slice => slice(alloc, stack),
        Action::Change(sign) => change(alloc, stack, *sign),
    }
}

/// What is made goes on the stack; what does not fit is a part without a tree.
fn finish(stack: &mut Stack, made: Option<Entry>, from: usize) -> Result<(), NoMemory>
    ensures { IfOk result (λ _. reverse stack.new ≡ made_or made (untold from) ∷ reverse stack.old) }
{
    match made {
        Some(entry) => stack.push(entry),
        None => stack.push(untold(from)),
    }
}

/// One step of building. An action that does not fit makes a part without a tree.
fn apply<'a>(
    alloc: Global,
    stack: &mut Stack,
    seen: &mut Row<TokenRef<'a>>,
    action: &Action<'a>,
) -> Result<(), NoMemory>
    ensures fits { (before : List Occurrence) (s u : pieces.Stack)
        → pieces.applied action.now s ≡ Some u → Stands before s stack.old seen.old
        → IfOk result (λ _. Stands before u stack.new seen.new) }
    ensures trees { IfOk result
        (λ _. TreesCome action.now (reverse stack.old) (reverse stack.new)) }
{
    let made = make(alloc, stack, seen, action)?;
    finish(stack, made, seen.len())
}

/// The one expression on the stack. Where there is none, or more than one, it has no tree.
fn only(stack: &mut Stack, from: usize) -> Built<Exp>
    ensures { result ≡ made_or (the_exp (reverse stack.old)) (untold from) }
{
    let Some(top) = pop_done(stack) else {
        return untold(from);
    };
    if !stack.is_empty() {
        return untold(from);
    }
    top
}

/// Builds the expression of these actions, and adds the variables that occur in it to what is seen,
/// in the order of the text. Actions that are cut off build no expression alone, so that there is no
/// tree; the variables of what they build are added all the same.
pub fn build<'a>(
    alloc: Global,
    actions: &[Action<'a>],
    seen: &mut Row<TokenRef<'a>>,
) -> Result<Built<Exp>, NoMemory>
    ensures exact { (e : Exp) → pieces.run actions.now [] ≡ Some (piece.Done e ∷ [])
        → IfOk result (λ made. made ≡ exp_part (length seen.old) e) }
    ensures none { exp_built actions.now ≡ None → IfOk result (λ made. made.tree ≡ None) }
    ensures seen { (s : pieces.Stack) → pieces.run actions.now [] ≡ Some s
        → IfOk result (λ _. occurrences seen.new ≡ occurrences seen.old ++ stack_variables s) }
    ensures tree { (σ : Sort) (t : Tree) → Fits σ t → actions.now ≡ acts t
        → IfOk result (λ made. (made ≡ exp_part (length seen.old) (meaning t))
        × (occurrences seen.new ≡ occurrences seen.old ++ variables (meaning t))) }
{
    let from = seen.len();
    let mut stack = Row::new(alloc);
    'actions: for action in actions {
        apply(alloc, &mut stack, seen, action)?;
    }
    Ok(only(&mut stack, from))
}
