//! One token of the heading of a definition: in its name, behind it, or in a hint.

ghost use Rattle.std.specs.Prelude.{◌≡◌, IfOk, reverse};
ghost use Rattle.std.specs.Option.{option_map};
ghost use Rattle.st_parse_automaton.specs.inner.DefinitionAutomaton as definitions;
ghost use Rattle.st_parse_automaton.specs.inner.Readings.{progress_of};
ghost use Rattle.st_parse_automaton.specs.declared.position.Position.TheVariants as position;

use crate::frame::{agree, closed_by};
use crate::part_automaton::Shape;
use crate::position::{CaseAt, Host, Position, Progress, Slot, TokenClass};
use crate::progress::{at, begins, start_of, when};
use crate::step::is_label;
use crate::token::{
    at_colon, at_comma, at_equal, at_slash, closes_brace, closes_round, id_step, is_bar,
};
use st_grammar::{Bracket, Closing, Keyword};
use st_num::{NoMemory, Row};
use std::alloc::Global;

/// Behind `{` or a comma: the name of a field, or `}` where there is no field.
pub(crate) fn field_step(
    alloc: Global,
    first: bool,
    class: TokenClass,
    brackets: Row<Bracket>,
) -> Option<Progress>
    ensures { option_map progress_of result
        ≡ definitions.field_step first class (reverse brackets) }
{
    if is_label(class.shape) {
        return Some(start_of(alloc, Slot::Field, brackets));
    }
    when(first && closes_brace(class), Position::Between, brackets)
}

/// What a token makes behind hints, or where they may stand.
fn host_step(
    alloc: Global,
    host: Host,
    fresh: bool,
    class: TokenClass,
    brackets: Row<Bracket>,
) -> Option<Progress>
    ensures { option_map progress_of result
        ≡ definitions.host_step host fresh class (reverse brackets) }
{
    match host {
        Host::Syntax => {
            if fresh && at_slash(class) {
                return Some(at(Position::SyntaxId(true), brackets));
            }
            let body = Position::Entering(Slot::Case(CaseAt::Start));
            when(at_equal(class), body, brackets)
        }
        Host::Field => {
            if at_comma(class) {
                return Some(at(Position::FieldName(false), brackets));
            }
            when(closes_brace(class), Position::Between, brackets)
        }
        Host::Case => {
            let next = Position::Entering(Slot::Case(CaseAt::Barred));
            when(is_bar(class), next, brackets)
        }
        Host::Relation => begins(alloc, at_colon(class), Slot::Notation, brackets),
        Host::Var | Host::Notation | Host::Fun => None,
    }
}

/// A hint, or what stands behind all hints.
pub(crate) fn hint_or(
    alloc: Global,
    host: Host,
    fresh: bool,
    class: TokenClass,
    brackets: Row<Bracket>,
) -> Option<Progress>
    ensures { option_map progress_of result
        ≡ definitions.hint_or (class.keyword) host fresh class (reverse brackets) }
{
    match class.keyword {
        Keyword::HintWord => Some(at(Position::HintOpen(host), brackets)),
        Keyword::SyntaxWord
        | Keyword::RelationWord
        | Keyword::RuleWord
        | Keyword::VarWord
        | Keyword::DefWord
        | Keyword::IfWord
        | Keyword::OtherwiseWord
        | Keyword::Dashes
        | Keyword::NoWord => host_step(alloc, host, fresh, class, brackets),
    }
}

/// A token in a hint: a bracket opens or closes, or the hint ends.
pub(crate) fn hint_step(
    host: Host,
    class: TokenClass,
    mut brackets: Row<Bracket>,
) -> Result<Option<Progress>, NoMemory>
    ensures { IfOk result (λ next.
        option_map progress_of next
        ≡ definitions.hint_step host (reverse brackets) class
        (definitions.balance (reverse brackets) (class.shape))) }
{
    match class.shape {
        Shape::Open(bracket, _) => {
            brackets.push(bracket)?;
            Ok(Some(at(Position::HintWords(host), brackets)))
        }
        Shape::Close(Closing::ByBar) => Ok(Some(at(Position::HintWords(host), brackets))),
        Shape::Close(closing) => match brackets.pop() {
            Some(bracket) => {
                let closed = agree(closed_by(bracket), closing);
                Ok(when(closed, Position::HintWords(host), brackets))
            }
            None => {
                let ended = closes_round(class);
                Ok(when(ended, Position::Hinted(host, false), brackets))
            }
        },
        Shape::Single(_) | Shape::Dot(_) | Shape::Sign(_) | Shape::Other => {
            Ok(Some(at(Position::HintWords(host), brackets)))
        }
    }
}

/// The colon behind the name of a rule, whose conclusion is due.
fn colon_step(alloc: Global, class: TokenClass, brackets: Row<Bracket>) -> Option<Progress>
    ensures { option_map progress_of result ≡ definitions.colon_step class (reverse brackets) }
{
    begins(alloc, at_colon(class), Slot::Rule, brackets)
}

/// A token in the name of a fragment, or behind it.
pub(crate) fn syntax_id(
    alloc: Global,
    due: bool,
    class: TokenClass,
    brackets: Row<Bracket>,
) -> Option<Progress>
    ensures { option_map progress_of result
        ≡ definitions.own (position.SyntaxId due) class (reverse brackets) }
{
    match id_step(due, class) {
        Some(next) => Some(at(Position::SyntaxId(next), brackets)),
        None => {
            if due {
                None
            } else {
                hint_or(alloc, Host::Syntax, false, class, brackets)
            }
        }
    }
}

/// A token in the name of a rule, or behind it.
pub(crate) fn rule_id(
    alloc: Global,
    due: bool,
    class: TokenClass,
    brackets: Row<Bracket>,
) -> Option<Progress>
    ensures { option_map progress_of result
        ≡ definitions.own (position.RuleId due) class (reverse brackets) }
{
    match id_step(due, class) {
        Some(next) => Some(at(Position::RuleId(next), brackets)),
        None => {
            if due {
                None
            } else {
                colon_step(alloc, class, brackets)
            }
        }
    }
}

/// A token behind the name of a relation, in a rule.
pub(crate) fn rule_colon(
    alloc: Global,
    class: TokenClass,
    brackets: Row<Bracket>,
) -> Option<Progress>
    ensures { option_map progress_of result
        ≡ definitions.own position.RuleColon class (reverse brackets) }
{
    if at_slash(class) {
        return Some(at(Position::RuleId(true), brackets));
    }
    colon_step(alloc, class, brackets)
}
