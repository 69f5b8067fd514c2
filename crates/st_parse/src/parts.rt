//! The part of a definition that is read.

ghost use Rattle.std.specs.Prelude.{◌≡◌, [], map, Some, IfOk};
ghost use Rattle.st_parse.specs.inner.Parts as spec;

use crate::draft::Draft;
use crate::members::{put_field, put_notation};
use crate::premise::{put_condition, put_each};
use crate::sides::{put_exp, put_typ};
use st_el::{Count, Exp, Notation, Typ};
use st_grammar::{Action, TokenRef};
use st_num::{Boxed, Name, NoMemory, Row};
use st_parse_automaton::{Slot, TokenClass, opens_round};
use st_parse_builder::copy_name;
use std::alloc::Global;

/// A token of a part, as the parser sees it and as it stands in the text.
#[derive(Drop)]
pub struct PartToken<'a> {
    pub class: TokenClass,
    pub token: TokenRef<'a>,
}

/// The tree of a part that ends. An argument is built where it is known what it is.
#[derive(Drop)]
pub enum PartTree {
    Typ(Typ),
    Notation(Notation),
    Exp(Exp),
    Argument,
}

/// The actions of the part that is read, its tokens where it is a count, and the actions of the
/// arguments before it.
#[derive(Drop)]
pub struct Parts<'a> {
    pub arguments: Row<Row<Action<'a>>>,
    pub actions: Row<Action<'a>>,
    pub words: Row<PartToken<'a>>,
}

/// Nothing is read of a part yet.
pub(crate) fn no_parts<'a>(alloc: Global) -> Parts<'a>
    ensures arguments { result.arguments ≡ [] }
    ensures actions { result.actions ≡ [] }
    ensures words { result.words ≡ [] }
{
    Parts {
        arguments: Row::new(alloc),
        actions: Row::new(alloc),
        words: Row::new(alloc),
    }
}

/// The count of a premise, with an index where its tokens begin so.
fn count_with(alloc: Global, index: Option<Name>, exp: Exp) -> Result<Count, NoMemory>
    ensures { IfOk result (λ count. count ≡ spec.count_with index exp) }
{
    let bound = Boxed::new(alloc, exp)?;
    match index {
        None => Ok(Count::Times(bound)),
        Some(name) => Ok(Count::Below(name, bound)),
    }
}

/// The index of a count that begins with these tokens.
pub(crate) fn index_in(alloc: Global, words: &[PartToken<'_>]) -> Result<Option<Name>, NoMemory>
    ensures { IfOk result (λ index. index ≡ spec.index_in (map spec.word_of words.now)) }
{
    let Some((first, rest)) = words.split_first() else {
        return Ok(None);
    };
    let Some((second, _)) = rest.split_first() else {
        return Ok(None);
    };
    if opens_round(first.class) {
        return Ok(Some(copy_name(alloc, &second.token.get().kind)?));
    }
    Ok(None)
}

/// An expression goes into the draft where it ends, with so many parentheses open round it.
fn fill_exp(
    alloc: Global,
    slot: Slot,
    around: usize,
    exp: Exp,
    words: &[PartToken<'_>],
    draft: &mut Draft,
) -> Result<(), NoMemory>
    ensures { IfOk result (λ _. draft.new
        ≡ spec.exp_put slot around exp (map spec.word_of words.now) draft.old) }
{
    match slot {
        Slot::Condition => {
            put_condition(draft, exp);
            Ok(())
        }
        Slot::Count => {
            let index = index_in(alloc, words)?;
            let count = count_with(alloc, index, exp)?;
            put_each(alloc, draft, around, count)
        }
        _ => {
            put_exp(draft, exp);
            Ok(())
        }
    }
}

/// A part that ends with this tree, with so many brackets open round it, goes into the draft.
pub(crate) fn fill(
    alloc: Global,
    slot: Slot,
    around: usize,
    tree: PartTree,
    words: &[PartToken<'_>],
    draft: &mut Draft,
) -> Result<(), NoMemory>
    ensures { IfOk result (λ _. draft.new
        ≡ spec.tree_put slot around tree (map spec.word_of words.now) draft.old) }
{
    match tree {
        PartTree::Typ(typ) => match slot {
            Slot::Field => put_field(alloc, draft, typ),
            _ => {
                put_typ(draft, typ);
                Ok(())
            }
        },
        PartTree::Notation(notation) => put_notation(draft, notation),
        PartTree::Exp(exp) => fill_exp(alloc, slot, around, exp, words, draft),
        PartTree::Argument => Ok(()),
    }
}
