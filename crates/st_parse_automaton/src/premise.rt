//! One token of premises.

ghost use Rattle.std.specs.Prelude.{◌≡◌, IfOk, reverse};
ghost use Rattle.std.specs.Option.{option_map};
ghost use Rattle.st_grammar.specs.declared.keyword.Keyword.TheVariants as key;
ghost use Rattle.st_parse_automaton.specs.inner.DefinitionAutomaton as definitions;
ghost use Rattle.st_parse_automaton.specs.inner.Readings.{progress_of};

use crate::position::{IterationState, Position, Progress, Slot, TokenClass};
use crate::progress::{at, has_closed, none_open, start_of, wants_iteration, when};
use crate::token::{at_caret, at_iteration_sign, closes_round, names_relation, opens_round};
use st_grammar::{Bracket, Keyword};
use st_num::{NoMemory, Row};
use std::alloc::Global;

/// Behind `--` and each `(`: one more `(`, or the name of a relation.
fn premise_step(class: TokenClass, mut brackets: Row<Bracket>) -> Result<Option<Progress>, NoMemory>
    ensures { IfOk result (λ next.
        option_map progress_of next ≡ definitions.premise_step class (reverse brackets)) }
{
    if opens_round(class) {
        brackets.push(Bracket::Round)?;
        return Ok(Some(at(Position::PremiseOpen, brackets)));
    }
    Ok(when(names_relation(class), Position::GoalColon, brackets))
}

/// The word `otherwise`, which stands in no parentheses.
fn otherwise(class: TokenClass, mut brackets: Row<Bracket>) -> Result<Option<Progress>, NoMemory>
    ensures { IfOk result (λ next.
        option_map progress_of next
        ≡ definitions.premise_word key.OtherwiseWord class (reverse brackets)) }
{
    match brackets.pop() {
        None => Ok(Some(at(Position::Premised, brackets))),
        Some(bracket) => {
            brackets.push(bracket)?;
            premise_step(class, brackets)
        }
    }
}

/// Behind `--` and each `(`: `if`, `otherwise`, one more `(`, or the name of a relation.
pub(crate) fn premise_word(
    alloc: Global,
    class: TokenClass,
    brackets: Row<Bracket>,
) -> Result<Option<Progress>, NoMemory>
    ensures { IfOk result (λ next.
        option_map progress_of next
        ≡ definitions.premise_word (class.keyword) class (reverse brackets)) }
{
    match class.keyword {
        Keyword::IfWord => Ok(Some(start_of(alloc, Slot::Condition, brackets))),
        Keyword::OtherwiseWord => otherwise(class, brackets),
        Keyword::SyntaxWord
        | Keyword::RelationWord
        | Keyword::RuleWord
        | Keyword::VarWord
        | Keyword::DefWord
        | Keyword::HintWord
        | Keyword::Dashes
        | Keyword::NoWord => premise_step(class, brackets),
    }
}

/// The `--` of a next premise.
pub(crate) fn next_premise(keyword: Keyword, brackets: Row<Bracket>) -> Option<Progress>
    ensures { option_map progress_of result ≡ definitions.next_premise keyword (reverse brackets) }
{
    let dashes = matches!(keyword, Keyword::Dashes);
    when(dashes, Position::PremiseOpen, brackets)
}

/// The brackets without the innermost.
fn tail(mut brackets: Row<Bracket>) -> Row<Bracket>
    ensures { reverse result ≡ definitions.tail (reverse brackets) }
{
    match brackets.pop() {
        Some(_) => brackets,
        None => brackets,
    }
}

/// Behind a condition: `)`, an iteration, or the `--` of a next premise.
pub(crate) fn iterate(
    alloc: Global,
    iterations: IterationState,
    class: TokenClass,
    brackets: Row<Bracket>,
) -> Option<Progress>
    ensures { option_map progress_of result
        ≡ definitions.iterate iterations class (reverse brackets) }
{
    let empty = none_open(&brackets);
    let wanting = wants_iteration(iterations);
    if closes_round(class) && (!empty && !wanting) {
        return Some(at(Position::Iterated(IterationState::Wanted), tail(brackets)));
    }
    if at_iteration_sign(class) && has_closed(iterations) {
        return Some(at(Position::Iterated(IterationState::Complete), brackets));
    }
    if at_caret(class) && has_closed(iterations) {
        return Some(start_of(alloc, Slot::Count, brackets));
    }
    if empty && !wanting {
        return next_premise(class.keyword, brackets);
    }
    None
}
