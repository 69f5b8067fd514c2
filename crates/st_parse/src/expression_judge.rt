//! The verdict on one token of expressions.

ghost use Rattle.std.specs.Prelude.{◌≡◌, ◌≤◌, IfOk, []};
ghost use Rattle.st_num.specs.declared.limit.TheConstants.{HIGHEST_TREE};
ghost use Rattle.st_parse_faults.specs.inner.Seen as seen;
ghost use Rattle.st_parse_automaton.specs.inner.DefinitionAutomaton as definitions;
ghost use Rattle.st_parse_automaton.specs.declared.position.Slot.TheVariants as slot;
ghost use Rattle.st_num.specs.declared.token.Token.{Token};
ghost use Rattle.st_parse_automaton.specs.declared.position.TokenClass.{TokenClass};
ghost use Rattle.st_parse_automaton.specs.inner.Readings.{progress_of};
ghost use Rattle.st_parse.specs.inner.ExpressionSeen as spec;

use st_grammar::Action;
use st_num::{Mark, NoMemory, Row, RuleId, Token};
use st_parse_automaton::{
    Advance, Expected, Position, Progress, Reading, Shape, Slot, TokenClass, end, may_end,
};
use st_parse_faults::{Seen, TokenVerdict, judge_token, nothing_counted};
use std::alloc::Global;

/// Where an expression begins: it is read as the conclusion of a rule.
fn start(alloc: Global) -> Progress
    ensures { progress_of result ≡ definitions.start_of slot.Rule [] }
{
    let reading = Reading {
        expected: Expected::Operand,
        frames: Row::new(alloc),
    };
    Progress::Inside(Slot::Rule, reading, Row::new(alloc))
}

/// What is known where an expression begins.
pub(crate) fn begin(alloc: Global, nesting: u8) -> Result<Seen, NoMemory>
    requires { nesting ≤ HIGHEST_TREE }
    ensures value { IfOk result (λ next. seen.summary_of next
        ≡ seen.nothing_counted (definitions.start_of slot.Rule []) nesting) }
    ensures bound { IfOk result (λ next. seen.SeenKept next) }
{
    nothing_counted(alloc, start(alloc), nesting)
}

/// Whether a token is a comma behind a whole expression.
fn separates(progress: &Progress, class: TokenClass) -> bool
    ensures { result ≡ spec.separates (progress_of progress.now) class }
{
    matches!(class.shape, Shape::Sign(Mark::Comma)) && may_end(progress)
}

/// Whether the reading is in a part, and not at a position between parts.
fn is_inside(progress: &Progress) -> bool
    ensures { result ≡ spec.is_inside (progress_of progress.now) }
{
    matches!(progress, Progress::Inside(_, _, _))
}

/// The verdict where no rule goes on behind an expression.
fn alone(verdict: TokenVerdict<'_>) -> TokenVerdict<'_>
    ensures value { seen.verdict_of result ≡ spec.alone (seen.verdict_of verdict.entry) }
    ensures bound { seen.IsBounded verdict.entry → seen.IsBounded result }
    ensures step { (st : definitions.State) (l : TokenClass) (x : Token)
        → seen.Stands st l x verdict.entry → spec.Steps st l x result }
{
    match verdict {
        TokenVerdict::Passed(next, advance, actions) => {
            if is_inside(&next.progress) {
                TokenVerdict::Passed(next, advance, actions)
            } else {
                TokenVerdict::Broken(RuleId::S1, next.progress)
            }
        }
        TokenVerdict::Broken(rule, before) => TokenVerdict::Broken(rule, before),
    }
}

/// The actions of the end of the open expression.
pub(crate) fn end_actions<'a>(
    alloc: Global,
    progress: &Progress,
) -> Result<Row<Action<'a>>, NoMemory>
    ensures { IfOk result (λ actions. actions ≡ spec.end_actions (progress_of progress.now)) }
{
    let mut actions = Row::new(alloc);
    if let Progress::Inside(_, reading, _) = progress {
        end(reading, &mut actions)?;
    }
    Ok(actions)
}

/// The verdict on one more token, and the actions that it adds.
pub(crate) fn judge_next<'a>(
    alloc: Global,
    known: Seen,
    token: &'a Token,
    class: TokenClass,
) -> Result<TokenVerdict<'a>, NoMemory>
    requires { seen.SeenKept known }
    ensures value { IfOk result (λ verdict.
        seen.verdict_of verdict ≡ spec.judge (seen.summary_of known) (token.now.kind) class) }
    ensures bound { IfOk result (λ verdict. seen.IsBounded verdict) }
    ensures step { IfOk result (λ verdict.
        spec.Adds (spec.separates (progress_of (known.progress)) class)
        (progress_of (known.progress)) class token.now verdict) }
{
    if separates(&known.progress, class) {
        let added = end_actions(alloc, &known.progress)?;
        let next = begin(alloc, known.nesting)?;
        let advance = Advance::Behind(Slot::Rule, 0, Position::Premised);
        return Ok(TokenVerdict::Passed(next, advance, added));
    }
    let verdict = judge_token(alloc, known, token, class)?;
    Ok(alone(verdict))
}
