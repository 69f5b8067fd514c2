//! The trees of definitions: what each change and each part makes of a draft.

ghost use Rattle.std.specs.Prelude.{◌≡◌, IfOk};
ghost use Rattle.st_parse.specs.inner.Drafts as drafts;

use crate::change::Change;
use crate::definition::turn;
use crate::draft::Draft;
use crate::head::{begin_hint, end_hint, put_id, put_name, put_word};
use crate::members::{put_dots, put_label};
use crate::premise::{
    begin_premise, put_each, put_goal, put_if, put_otherwise, put_parenthesis, shape_count,
};
use crate::sides::{put_args, put_params};
use st_el::{Exp, Typ};
use st_num::{NoMemory, Row, Span, Token};
use st_parse_automaton::Shape;
use std::alloc::Global;

/// What a change makes of a draft, with the arguments as types and as expressions.
pub(crate) fn redraft(
    alloc: Global,
    change: Change,
    shape: Shape,
    token: &Token,
    params: Row<Typ>,
    args: Row<Exp>,
    draft: &mut Draft,
) -> Result<(), NoMemory>
    ensures { IfOk result (λ _.
        draft.new ≡ drafts.applied change shape token.now params args draft.old) }
{
    match change {
        Change::Nothing => Ok(()),
        Change::Begin(ending) => turn(alloc, ending, draft, token.at),
        Change::End(ending) => turn(alloc, ending, draft, Span::NOWHERE),
        Change::Name => put_name(alloc, draft, token),
        Change::Id => put_id(alloc, draft, token),
        Change::HintName => begin_hint(alloc, draft, token),
        Change::HintWord => put_word(alloc, draft, token),
        Change::HintEnd(kept) => end_hint(alloc, draft, kept),
        Change::Dots => {
            put_dots(draft);
            Ok(())
        }
        Change::Label => put_label(alloc, draft, token),
        Change::Params => {
            put_params(draft, params);
            Ok(())
        }
        Change::Args => {
            put_args(draft, args);
            Ok(())
        }
        Change::Premise(condition) => begin_premise(alloc, draft, condition, token),
        Change::Parenthesis => put_parenthesis(draft, token),
        Change::If => {
            put_if(draft, token);
            Ok(())
        }
        Change::Goal => put_goal(alloc, draft, token),
        Change::Otherwise => put_otherwise(alloc, draft),
        Change::Mark(around) => put_each(alloc, draft, around, shape_count(shape)),
    }
}
