//! What is kept of the definitions that are read: their trees, and what the limits ask of them.

ghost use Rattle.std.specs.Prelude.{◌≡◌, [], map, List, None, Some, IfOk};
ghost use Rattle.st_el.specs.Plain.{nowhere};
ghost use Rattle.st_grammar.specs.declared.action.Action.{Action};
ghost use Rattle.st_parse_builder.specs.inner.Parts as built;
ghost use Rattle.st_parse.specs.declared.draft.Draft.{Draft};
ghost use Rattle.st_parse.specs.inner.Drafts as drafts;
ghost use Rattle.st_parse.specs.inner.Parts as parts;
ghost use Rattle.st_parse.specs.inner.Ready.{Ready, Awaits, MayEnd};
ghost use Rattle.st_parse.specs.inner.Kept as spec;
ghost use Rattle.st_parse.specs.inner.Taken.{IsPart, AreTaken};

use crate::apply::redraft;
use crate::built_part::Part;
use crate::change::{Change, DefinitionEnd};
use crate::definition::{begun, turn};
use crate::draft::Draft;
use crate::parts::{PartToken, fill};
use crate::variables::{Variables, build_part, change_parts, count, no_variables};
use st_el::{Body, Def, DefNode, Exp, Typ};
use st_grammar::Action;
use st_num::{HIGHEST_TREE, NoMemory, Row, Span, Token};
use st_parse_automaton::{Shape, Slot};
use st_parse_builder::{above, higher};
use std::alloc::Global;

/// A draft, the first definition with a tree that is too high, and what is noted of variables. The
/// trees of the draft are of no use once a definition is too high.
#[derive(Drop)]
pub struct Kept<'a> {
    pub draft: Draft,
    pub tall: Option<Span>,
    pub heights: Heights,
    pub variables: Variables<'a>,
}

/// The height of the open premise, 0 where none is open, and whether an alternative is a type alone
/// that is 100 high: only as an alias is it not too high.
#[derive(Clone, Copy, Drop)]
pub struct Heights {
    pub premise: u8,
    pub high: bool,
}

/// Nothing of a definition is read.
fn no_heights() -> Heights
    ensures { result ≡ spec.no_heights }
{
    Heights {
        premise: 0,
        high: false,
    }
}

/// What is kept before the first token.
pub(crate) fn begun_kept<'a>(alloc: Global) -> Kept<'a>
    ensures { spec.Draws result (drafts.begun [] nowhere) }
{
    Kept {
        draft: begun(alloc, Row::new(alloc), Span::NOWHERE),
        tall: None,
        heights: no_heights(),
        variables: no_variables(alloc),
    }
}

/// Whether a definition is an alias.
fn is_alias(def: &Def) -> bool
    ensures { result ≡ spec.is_alias def.now }
{
    matches!(
        &def.node,
        DefNode::Syntax {
            body: Body::Alias(_),
            ..
        },
    )
}

/// Whether a definition that ends so has alternatives, or the notation of a relation.
fn has_notations(ending: DefinitionEnd) -> bool
    ensures { result ≡ spec.has_notations ending }
{
    matches!(ending, DefinitionEnd::Cases(_) | DefinitionEnd::Relation)
}

/// The place of a definition that is no alias, where an alternative of it is too high.
fn high_at(def: &Def, high: bool) -> Option<Span>
    ensures { result ≡ spec.high_at high def.now }
{
    if !is_alias(def) && high {
        Some(def.at)
    } else {
        None
    }
}

/// The same of the last of these definitions.
fn last_high(defs: &[Def], high: bool) -> Option<Span>
    ensures { result ≡ spec.last_high high defs.now }
{
    match defs.split_last() {
        None => None,
        Some((def, _)) => high_at(def, high),
    }
}

/// The first definition that is too high, where the last one ended so.
fn ended_high(ending: DefinitionEnd, high: bool, defs: &[Def], tall: Option<Span>) -> Option<Span>
    ensures { result ≡ spec.ended_high ending high defs.now tall }
{
    tall.or(last_high(defs, has_notations(ending) && high))
}

/// The height of the open premise where a sign iterates it. None is open where that is 0.
fn iterated(premise: u8) -> u8
    ensures { result ≡ spec.iterated premise }
{
    if premise > 0 { above(premise) } else { 0 }
}

/// What a part adds to the heights of the open definition.
fn with_part(slot: Slot, part: &Part, heights: Heights) -> Heights
    ensures { result ≡ spec.heights_with slot part.now heights }
{
    let Heights { premise, high } = heights;
    match slot {
        Slot::Condition => Heights {
            premise: above(part.height),
            high,
        },
        Slot::Count => Heights {
            premise: above(higher(premise, part.height)),
            high,
        },
        Slot::Case(_) | Slot::Notation => Heights {
            premise,
            high: high || part.height > HIGHEST_TREE,
        },
        Slot::Field | Slot::Var | Slot::Fun | Slot::Argument(_, _) | Slot::Rule => heights,
    }
}

/// What a token between parts does to the heights of the open definition.
fn with_change(change: Change, heights: Heights) -> Heights
    ensures { result ≡ spec.heights_behind change heights }
{
    let Heights { premise, high } = heights;
    match change {
        Change::Begin(_) | Change::End(_) => no_heights(),
        Change::Premise(_) | Change::Otherwise => Heights { premise: 0, high },
        Change::Mark(_) => Heights {
            premise: iterated(premise),
            high,
        },
        _ => heights,
    }
}

/// A definition that ends is asked whether an alternative is too high.
fn check_height(change: Change, draft: &Draft, high: bool, tall: Option<Span>) -> Option<Span>
    ensures { result ≡ spec.checked change draft.now high tall }
{
    match change {
        Change::Begin(ending) | Change::End(ending) => {
            ended_high(ending, high, draft.defs.as_slice(), tall)
        }
        _ => tall,
    }
}

/// What goes into the draft, where the open premise is not too high with it.
fn where_low<T: Drop>(premise: u8, taken: Option<T>) -> Option<T>
    ensures { result ≡ built.kept premise taken }
{
    if premise > HIGHEST_TREE { None } else { taken }
}

/// A token between parts changes the draft. Arguments that are too high do not go into it, nor does
/// what makes the open premise too high.
fn change_trees(
    alloc: Global,
    change: Change,
    shape: Shape,
    token: &Token,
    arguments: Option<(Row<Typ>, Row<Exp>)>,
    kept: &mut Kept<'_>,
) -> Result<(), NoMemory>
    ensures trees { (given : List (List Action)) (d e : Draft) → spec.Holds kept.old d
        → Ready change d → parts.redrafted change shape token.now given d ≡ Some e
        → AreTaken change given arguments → IfOk result (λ _. spec.Holds kept.new e) }
    ensures variables { kept.new.variables ≡ kept.old.variables }
{
    let at = kept.draft.head.at;
    let tall = kept.tall;
    let high = kept.heights.high;
    kept.heights = with_change(change, kept.heights);
    let Some((params, args)) = where_low(kept.heights.premise, arguments) else {
        kept.tall = tall.or(Some(at));
        return Ok(());
    };
    redraft(alloc, change, shape, token, params, args, &mut kept.draft)?;
    kept.tall = check_height(change, &kept.draft, high, tall);
    Ok(())
}

/// A part goes into the draft where it ends. One that is too high does not, nor does what makes the
/// open premise too high.
fn fill_trees(
    alloc: Global,
    slot: Slot,
    around: usize,
    part: Part,
    words: &[PartToken<'_>],
    kept: &mut Kept<'_>,
) -> Result<(), NoMemory>
    ensures trees { (given : List Action) (d e : Draft) → spec.Holds kept.old d → Awaits slot d
        → parts.refilled slot around given (map parts.word_of words.now) d ≡ Some e
        → IsPart slot given part → IfOk result (λ _. spec.Holds kept.new e) }
    ensures variables { kept.new.variables ≡ kept.old.variables }
{
    let at = kept.draft.head.at;
    let tall = kept.tall;
    kept.heights = with_part(slot, &part, kept.heights);
    let Some(tree) = where_low(kept.heights.premise, part.tree) else {
        kept.tall = tall.or(Some(at));
        return Ok(());
    };
    fill(alloc, slot, around, tree, words, &mut kept.draft)?;
    Ok(())
}

/// A token between parts changes what is kept.
pub(crate) fn change_kept<'a>(
    alloc: Global,
    change: Change,
    shape: Shape,
    token: &Token,
    arguments: &[Row<Action<'a>>],
    kept: &mut Kept<'a>,
) -> Result<(), NoMemory>
    ensures { (d e : Draft) → spec.Draws kept.old d → Ready change d
        → parts.redrafted change shape token.now arguments.now d ≡ Some e
        → IfOk result (λ _. spec.Draws kept.new e) }
{
    let taken = change_parts(alloc, change, arguments, &mut kept.variables)?;
    change_trees(alloc, change, shape, token, taken, kept)
}

/// A part ends, with so many brackets open round it.
pub(crate) fn fill_kept<'a>(
    alloc: Global,
    slot: Slot,
    around: usize,
    actions: &[Action<'a>],
    words: &[PartToken<'_>],
    kept: &mut Kept<'a>,
) -> Result<(), NoMemory>
    ensures { (d e : Draft) → spec.Draws kept.old d → Awaits slot d
        → parts.refilled slot around actions.now (map parts.word_of words.now) d ≡ Some e
        → IfOk result (λ _. spec.Draws kept.new e) }
{
    let part = build_part(alloc, slot, actions, words, &mut kept.variables)?;
    fill_trees(alloc, slot, around, part, words, kept)
}

/// The open definition ends so, and none begins.
pub(crate) fn end_kept<'a>(
    alloc: Global,
    ending: DefinitionEnd,
    kept: &mut Kept<'a>,
) -> Result<(), NoMemory>
    ensures { (d : Draft) → spec.Draws kept.old d → MayEnd ending d
        → IfOk result (λ _. spec.Tells kept.new (drafts.ended ending d)) }
{
    count(alloc, &mut kept.variables)?;
    turn(alloc, ending, &mut kept.draft, Span::NOWHERE)?;
    let high = kept.heights.high;
    kept.heights = no_heights();
    kept.tall = ended_high(ending, high, kept.draft.defs.as_slice(), kept.tall);
    Ok(())
}
