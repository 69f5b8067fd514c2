//! Expressions that are built while their tokens are read.

ghost use Rattle.std.specs.Prelude.{◌≡◌, [], ◌∷◌, ◌++◌, false, List, Some, IfOk};
ghost use Rattle.st_grammar.specs.declared.sort.Sort.TheVariants.{Expression as expression};
ghost use Rattle.st_grammar.specs.Trees.{Tree};
ghost use Rattle.st_grammar.specs.Grammar.{Fits};
ghost use Rattle.st_el.specs.declared.expression.Exp.{Exp};
ghost use Rattle.st_parse_builder.specs.Meaning.{meaning};
ghost use Rattle.st_grammar.specs.inner.Actions.{acts};
ghost use Rattle.st_parse.specs.inner.ExpressionDrafts.{IsBuilt, AreBuilt, with_exp, draft, with_actions, Completes};

use crate::expression_judge::judge_next;
use crate::reader::Reader;
use crate::take::add_actions;
use st_el::Exp;
use st_grammar::Action;
use st_num::{NoMemory, Row, Token};
use st_parse_automaton::{Advance, Progress, TokenClass};
use st_parse_builder::build;
use st_parse_faults::{Seen, TokenVerdict};
use std::alloc::Global;
use std::mem::replace;

/// The expressions that are whole, where none is too high, and the actions of the next one.
#[derive(Drop)]
pub(crate) struct ExpressionReader<'a> {
    pub exps: Option<Row<Exp>>,
    pub actions: Row<Action<'a>>,
}

/// What is kept before the first token.
pub(crate) fn begun_reader<'a>(alloc: Global) -> ExpressionReader<'a>
    ensures { result ≡ draft (Some []) [] }
{
    ExpressionReader {
        exps: Some(Row::new(alloc)),
        actions: Row::new(alloc),
    }
}

/// The expression of these actions, or none where it is too high.
fn built(alloc: Global, actions: &[Action<'_>]) -> Result<Option<Exp>, NoMemory>
    ensures { (t : Tree) → Fits (expression false) t → actions.now ≡ acts t
        → IfOk result (λ exp. IsBuilt (meaning t) exp) }
{
    let mut seen = Row::new(alloc);
    let exp = build(alloc, actions, &mut seen)?;
    Ok(exp.tree)
}

/// One more expression, where none is too high.
fn put(exps: Option<Row<Exp>>, exp: Option<Exp>) -> Result<Option<Row<Exp>>, NoMemory>
    ensures { IfOk result (λ all. all ≡ with_exp exps exp) }
{
    let Some(mut all) = exps else {
        return Ok(None);
    };
    let Some(exp) = exp else {
        return Ok(None);
    };
    all.push(exp)?;
    Ok(Some(all))
}

/// An expression ends whose actions are all there.
#[tactic(auto, using(crate::proofs::ExpressionDrafted::one_more_built))]
fn complete(alloc: Global, reader: &mut ExpressionReader<'_>) -> Result<(), NoMemory>
    ensures actions { IfOk result (λ _. reader.new.actions ≡ []) }
    ensures exps { (t : Tree) (es : List Exp) → Fits (expression false) t
        → acts t ≡ reader.old.actions → AreBuilt es reader.old.exps
        → IfOk result (λ _. AreBuilt (es ++ meaning t ∷ []) reader.new.exps) }
{
    let actions = replace(&mut reader.actions, Row::new(alloc));
    let exp = built(alloc, actions.as_slice())?;
    let exps = replace(&mut reader.exps, None);
    reader.exps = put(exps, exp)?;
    Ok(())
}

/// An expression ends with these actions.
pub(crate) fn end<'a>(
    alloc: Global,
    added: &mut Row<Action<'a>>,
    reader: &mut ExpressionReader<'a>,
) -> Result<(), NoMemory>
    ensures { IfOk result (λ _. Completes (with_actions added.old reader.old) reader.new) }
{
    add_actions(alloc, added, &mut reader.actions)?;
    complete(alloc, reader)
}

impl<'a> Reader<'a> for ExpressionReader<'a> {
    ghost use Rattle.st_parse.specs.inner.ExpressionSeen.{JudgesToken};
    ghost use Rattle.st_parse.specs.inner.ExpressionDrafts.{TakesToken};

    ghost Judges = { λ known class token verdict. JudgesToken known class token verdict };

    ghost Takes = { λ advance next class token added old new.
        TakesToken advance next class token added old new };

    fn judge(
        alloc: Global,
        known: Seen,
        token: &'a Token,
        class: TokenClass,
    ) -> Result<TokenVerdict<'a>, NoMemory> {
        judge_next(alloc, known, token, class)
    }

    /// A comma that begins a next expression stands behind the open one, and ends it.
    fn take(
        &mut self,
        alloc: Global,
        advance: Advance,
        _next: &Progress,
        _class: TokenClass,
        _token: &'a Token,
        added: &mut Row<Action<'a>>,
    ) -> Result<(), NoMemory> {
        match advance {
            Advance::On(_) | Advance::At(_) => add_actions(alloc, added, &mut self.actions),
            Advance::Behind(_, _, _) => end(alloc, added, self),
        }
    }
}
