//! The verdict on one token.

ghost use Rattle.std.specs.Prelude.{◌≡◌, ◌≤◌, IfOk};
ghost use Rattle.st_num.specs.declared.limit.TheConstants.{HIGHEST_TREE};
ghost use Rattle.st_parse_faults.specs.inner.Seen as spec;
ghost use Rattle.std.specs.Option.{option_map};
ghost use Rattle.st_parse_automaton.specs.inner.DefinitionAutomaton as definitions;
ghost use Rattle.st_parse_automaton.specs.inner.Readings.{progress_of, step_of};

use crate::before::{Before, left_out, stands_before};
use crate::counts::{Counts, counts_after, counts_pass, event_of, member_due};
use crate::nesting::{bars, may_open, nesting_after};
use crate::role::attachment_of;
use crate::tally::{Tally, any_passes, count, single};
use st_grammar::Action;
use st_num::{HIGHEST_TREE, NoMemory, Row, RuleId, Token, TokenKind};
use st_parse_automaton::{Advance, At, Position, Progress, Shape, Step, TokenClass, advance};
use std::alloc::Global;

/// What is known behind some tokens: how far they are read, how many brackets are open, what is
/// counted between parts, and what between the brackets of a part, the innermost last.
#[derive(Drop)]
pub struct Seen {
    pub progress: Progress,
    pub nesting: u8,
    pub counts: Counts,
    pub tallies: Row<Tally>,
}

/// A token is read, or it breaks a rule.
#[derive(Drop)]
pub enum TokenVerdict<'a> {
    /// What is known behind it, how it stands, and what it adds to the actions.
    Passed(Seen, Advance, Row<Action<'a>>),
    /// The rule, and how far the tokens before it are read.
    Broken(RuleId, Progress),
}

/// The rule that a refused token breaks.
fn refusal(before: Before, nesting: u8, kind: &TokenKind) -> RuleId
    ensures { result ≡ spec.refusal before nesting kind.now }
{
    if left_out(before, nesting, kind) {
        RuleId::S4
    } else {
        RuleId::S1
    }
}

/// Whether more brackets and bars are open behind a token than may be.
fn opens_too_many(progress: &Progress, nesting: u8, shape: Shape) -> bool
    ensures { result ≡ spec.opens_too_many (progress_of progress.now) nesting shape }
{
    may_open(shape)
        && usize::from(HIGHEST_TREE) < bars(progress).saturating_add(usize::from(nesting))
}

/// What is known before the first token.
pub(crate) fn nothing_seen(alloc: Global) -> Result<Seen, NoMemory>
    ensures value { IfOk result (λ seen. spec.summary_of seen ≡ spec.nothing_summarized) }
    ensures bound { IfOk result (λ seen. spec.SeenKept seen) }
{
    let progress = Progress::At(At {
        position: Position::Between,
        brackets: Row::new(alloc),
    });
    nothing_counted(alloc, progress, 0)
}

/// What is known where a part begins and nothing else is counted.
pub fn nothing_counted(alloc: Global, progress: Progress, nesting: u8) -> Result<Seen, NoMemory>
    requires { nesting ≤ HIGHEST_TREE }
    ensures value { IfOk result (λ seen.
        spec.summary_of seen ≡ spec.nothing_counted (progress_of progress) nesting) }
    ensures bound { IfOk result (λ seen. spec.SeenKept seen) }
{
    let tallies = single(alloc, 0)?;
    Ok(Seen {
        progress,
        nesting,
        counts: Counts {
            definitions: 0,
            premises: 0,
            members: 0,
            iterations: 0,
        },
        tallies,
    })
}

/// What one more token makes of the reading, and where that leads.
fn next_step<'a>(
    alloc: Global,
    progress: &Progress,
    class: TokenClass,
    token: &'a Token,
) -> Result<Option<Step<'a>>, NoMemory>
    ensures step { IfOk result (λ step. option_map step_of step
        ≡ definitions.advanced token.now (definitions.advance (progress_of progress.now) class)) }
    ensures leads { IfOk result (λ step.
        spec.state_behind step ≡ definitions.step (progress_of progress.now) class) }
{
    advance(alloc, progress, class, token)
}

/// The verdict on one more token.
pub fn judge_token<'a>(
    alloc: Global,
    seen: Seen,
    token: &'a Token,
    class: TokenClass,
) -> Result<TokenVerdict<'a>, NoMemory>
    requires { spec.SeenKept seen }
    ensures value { IfOk result (λ verdict. spec.verdict_of verdict
        ≡ spec.judge (spec.summary_of seen) (token.now.kind) class) }
    ensures bound { IfOk result (λ verdict. spec.IsBounded verdict) }
    ensures step { IfOk result (λ verdict.
        spec.Stands (progress_of (seen.progress)) class token.now verdict) }
{
    let Seen {
        progress,
        nesting,
        counts,
        mut tallies,
    } = seen;
    let Some(step) = next_step(alloc, &progress, class, token)? else {
        let rule = refusal(stands_before(&progress), nesting, &token.kind);
        return Ok(TokenVerdict::Broken(rule, progress));
    };
    let next = step.progress;
    let nesting = nesting_after(nesting, class.shape);
    if opens_too_many(&next, nesting, class.shape) {
        return Ok(TokenVerdict::Broken(RuleId::S2, progress));
    }
    let counts = counts_after(counts, event_of(member_due(&progress), &next));
    let attachment = attachment_of(&progress, class.shape);
    count(alloc, attachment, class.shape, &next, &mut tallies)?;
    if counts_pass(counts) || any_passes(&tallies) {
        return Ok(TokenVerdict::Broken(RuleId::S3, progress));
    }
    let seen = Seen {
        progress: next,
        nesting,
        counts,
        tallies,
    };
    Ok(TokenVerdict::Passed(seen, step.advance, step.actions))
}
