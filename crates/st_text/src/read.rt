//! How text trees and rows of them are read.

ghost use Rattle.std.specs.Prelude.{◌≡◌, ◌∷◌};
ghost use Rattle.st_text.specs.Text.{TreeText, RowText, FrontText};
ghost use Rattle.st_text.specs.Reading.{Answers, IsNoTree, IsNoRow, IsNoFront};
ghost use Rattle.st_text.specs.inner.Fronts.{AnswersTree, AnswersRow};
ghost use Rattle.st_text.specs.Trees.{tree_of, trees_of};

use crate::fault::MALFORMED;
use crate::front::{after, closes, ends};
use crate::quote::read_quote;
use crate::word::{is_word_byte, read_word};
use crate::{TextFault, TextTree};
use st_num::{MOST_PARENTHESES, Row};
use std::alloc::Global;

/// The most parentheses that a text may have open at once.
const MOST_OPEN: usize = MOST_PARENTHESES as usize;

/// The tree whose text the bytes are.
#[tactic(auto, using(crate::proofs::Wholes::tree_steps))]
pub fn read_tree(alloc: Global, bytes: &[u8]) -> Result<TextTree, TextFault>
    ensures { Answers result (λ tree. TreeText (tree_of tree) bytes.now) (IsNoTree bytes.now) }
{
    let (tree, rest) = read_within(alloc, bytes, MOST_OPEN)?;
    if !rest.is_empty() {
        return Err(MALFORMED);
    }
    Ok(tree)
}

/// The tree whose text stands at the front of the bytes, and the rest. Behind a text stands
/// nothing, a space, a closing parenthesis or a line feed.
#[tactic(auto, using(crate::proofs::Wholes::front_some, crate::proofs::Wholes::front_none))]
pub fn read_front(alloc: Global, bytes: &[u8]) -> Result<(TextTree, &[u8]), TextFault>
    ensures { Answers result (λ read. FrontText (tree_of read.0) bytes.now read.1.now)
        (IsNoFront bytes.now) }
{
    let (tree, rest) = read_within(alloc, bytes, MOST_OPEN)?;
    Ok((tree, rest))
}

/// The trees whose texts the bytes are, with one space between them. There are none in no bytes.
#[tactic(auto, using(crate::proofs::Wholes::whole_row_steps))]
pub fn read_row(alloc: Global, bytes: &[u8]) -> Result<Row<TextTree>, TextFault>
    ensures { Answers result (λ trees. RowText (trees_of trees) bytes.now) (IsNoRow bytes.now) }
{
    let (trees, rest) = read_row_within(alloc, bytes, MOST_OPEN)?;
    if !rest.is_empty() {
        return Err(MALFORMED);
    }
    Ok(trees)
}

/// The list behind its opening parenthesis, and the rest.
#[cycle(read)]
#[tactic(auto, using(crate::proofs::Rows::list_steps))]
fn read_list(alloc: Global, bytes: &[u8], limit: usize) -> Result<(TextTree, &[u8]), TextFault>
    ensures { AnswersTree limit (40 ∷ bytes.now) result }
{
    if limit == 0 {
        return Err(MALFORMED);
    }
    let (trees, rest) = read_row_within(alloc, bytes, limit - 1)?;
    let Some(behind) = after(rest, b')') else {
        return Err(MALFORMED);
    };
    if !ends(behind) {
        return Err(MALFORMED);
    }
    Ok((TextTree::List(trees), behind))
}

/// The tree at the front of the bytes, with at most `limit` parentheses open, and the rest.
#[cycle(read)]
#[tactic(auto, using(crate::proofs::Rows::tree_at_end, crate::proofs::Rows::tree_no_first))]
fn read_within(alloc: Global, bytes: &[u8], limit: usize) -> Result<(TextTree, &[u8]), TextFault>
    ensures { AnswersTree limit bytes.now result }
{
    let Some((first, others)) = bytes.split_first() else {
        return Err(MALFORMED);
    };
    match *first {
        b'"' => read_quote(alloc, others, limit),
        b'(' => read_list(alloc, others, limit),
        byte if is_word_byte(byte) => read_word(alloc, bytes, limit),
        _ => Err(MALFORMED),
    }
}

/// The row at the front of the bytes, with at most `limit` parentheses open, and the rest.
#[cycle(read)]
#[tactic(auto, using(crate::proofs::Rows::row_steps))]
fn read_row_within(
    alloc: Global,
    bytes: &[u8],
    limit: usize,
) -> Result<(Row<TextTree>, &[u8]), TextFault>
    ensures { AnswersRow limit bytes.now result }
{
    let mut found = Row::new(alloc);
    if closes(bytes) {
        return Ok((found, bytes));
    }
    let (first, mut rest) = read_within(alloc, bytes, limit)?;
    found.push(first)?;
    'trees: while let Some(others) = after(rest, b' ') {
        let (next, behind) = read_within(alloc, others, limit)?;
        found.push(next)?;
        rest = behind;
    }
    Ok((found, rest))
}
