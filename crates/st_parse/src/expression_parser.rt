//! The expressions that tokens mean.

ghost use Rattle.std.specs.Prelude.{◌≡◌, [], ◌∷◌, ◌++◌, false, List};
ghost use Rattle.st_grammar.specs.declared.sort.Bracket.{Bracket};
ghost use Rattle.st_grammar.specs.declared.sort.Sort.TheVariants.{Expression as expression};
ghost use Rattle.st_grammar.specs.Trees.{Tree};
ghost use Rattle.st_grammar.specs.Grammar.{Fits};
ghost use Rattle.st_el.specs.declared.expression.Exp.{Exp};
ghost use Rattle.st_parse_builder.specs.Meaning.{meaning};
ghost use Rattle.st_grammar.specs.inner.Actions.{acts};
ghost use Rattle.st_parse_automaton.specs.declared.position.Slot.{Slot};
ghost use Rattle.st_parse_automaton.specs.inner.PartAutomaton as parts;
ghost use Rattle.st_parse_automaton.specs.inner.DefinitionAutomaton as definitions;
ghost use Rattle.st_parse_automaton.specs.inner.Readings.{progress_of};
ghost use Rattle.st_parse.specs.inner.ExpressionDrafts.{AreBuilt};
ghost use Rattle.st_parse.specs.ExpressionSource.{AreWhole, Answers};

use crate::expression_draft::{ExpressionReader, begun_reader, end};
use crate::expression_judge::{begin, end_actions};
use crate::reader::{read_tokens, refused};
use st_el::Exp;
use st_num::{Name, Row, RuleId, Token};
use st_parse_automaton::{NameIndex, Progress};
use st_parse_faults::SyntaxFault;
use std::alloc::Global;

/// The expressions, where none is too high.
fn whole(tokens: &[Token], exps: Option<Row<Exp>>) -> Result<Row<Exp>, SyntaxFault>
    ensures { (es : List Exp) → AreBuilt es exps → AreWhole tokens.now es result }
{
    match exps {
        Some(exps) => Ok(exps),
        None => Err(refused(tokens, 0, RuleId::S2)),
    }
}

/// The last expression ends.
fn last(
    alloc: Global,
    tokens: &[Token],
    progress: &Progress,
    reader: ExpressionReader<'_>,
) -> Result<Row<Exp>, SyntaxFault>
    ensures { (k : Slot) (st : parts.State) (ks : List Bracket) (t : Tree) (es : List Exp)
        → progress_of progress.now ≡ definitions.inside k st ks → Fits (expression false) t
        → acts t ≡ reader.entry.actions ++ parts.finishing st → AreBuilt es reader.entry.exps
        → AreWhole tokens.now (es ++ meaning t ∷ []) result }
{
    let mut reader = reader;
    let mut added = end_actions(alloc, progress)?;
    end(alloc, &mut added, &mut reader)?;
    whole(tokens, reader.exps)
}

/// The expressions that the tokens mean, or the first fault and its place. The variables are the
/// names that are declared by `var`.
fn read_expressions(
    alloc: Global,
    tokens: &[Token],
    variables: &NameIndex<'_>,
) -> Result<Row<Exp>, SyntaxFault>
    ensures { Answers variables.now tokens.now result }
{
    let start = begin(alloc, 0)?;
    let mut reader = begun_reader(alloc);
    let reached = read_tokens(alloc, variables, tokens, start, &mut reader)?;
    if let Some(fault) = reached.fault {
        return Err(refused(tokens, fault.token, fault.rule));
    }
    last(alloc, tokens, &reached.progress, reader)
}

/// The expressions that the tokens mean, one or several with commas between them, or the first
/// fault and its place. The variables are the names that are declared by `var`.
pub fn parse_exp(
    alloc: Global,
    tokens: &[Token],
    variables: &[Name],
) -> Result<Row<Exp>, SyntaxFault>
    ensures { Answers variables.now tokens.now result }
{
    let variables = NameIndex::new(alloc, variables)?;
    read_expressions(alloc, tokens, &variables)
}
