//! One token of definitions.

ghost use Rattle.std.specs.Prelude.{◌≡◌, IfOk, reverse};
ghost use Rattle.std.specs.Prelude as Prelude;
ghost use Rattle.std.specs.Option.{option_map};
ghost use Rattle.st_parse_automaton.specs.inner.DefinitionAutomaton as definitions;
ghost use Rattle.st_num.specs.declared.token.Token.{Token};
ghost use Rattle.st_parse_automaton.specs.inner.PartAutomaton as parts;
ghost use Rattle.st_parse_automaton.specs.inner.Readings.{progress_of, reading_of, step_of};
ghost use Rattle.st_parse_automaton.specs.declared.position.Position.TheVariants as position;

use crate::heading::{field_step, hint_or, hint_step, rule_colon, rule_id, syntax_id};
use crate::part_automaton::{Expected, Reading};
use crate::position::{Advance, At, CaseAt, Host, Position, Progress, Slot, Step, TokenClass};
use crate::premise::{iterate, next_premise, premise_word};
use crate::progress::{at, begins, filled, slot_sort, start_of, when, whole};
use crate::step::{end, finish, is_label, step};
use crate::token::{
    at_colon, at_comma, at_dots, at_equal, closes_round, is_bar, is_fun, is_low, is_name,
    names_relation, opens_brace, opens_round,
};
use st_grammar::{Action, Bracket, Keyword};
use st_num::{NoMemory, Row, Token};
use std::alloc::Global;

/// A next definition begins with such a word: its name is due.
fn begin_definition(keyword: Keyword, brackets: Row<Bracket>) -> Option<Progress>
    ensures { option_map progress_of result ≡ definitions.begin_def keyword (reverse brackets) }
{
    match keyword {
        Keyword::SyntaxWord => Some(at(Position::SyntaxName, brackets)),
        Keyword::RelationWord => Some(at(Position::RelationName, brackets)),
        Keyword::RuleWord => Some(at(Position::RuleName, brackets)),
        Keyword::VarWord => Some(at(Position::VarName, brackets)),
        Keyword::DefWord => Some(at(Position::FunName, brackets)),
        Keyword::HintWord
        | Keyword::IfWord
        | Keyword::OtherwiseWord
        | Keyword::Dashes
        | Keyword::NoWord => None,
    }
}

/// What a token makes where an alternative may begin, and where it begins no notation.
fn enter_case(case: CaseAt, class: TokenClass, brackets: Row<Bracket>) -> Option<Progress>
    ensures { option_map progress_of result ≡ definitions.enter_case case class (reverse brackets) }
{
    match case {
        CaseAt::Start => {
            if opens_brace(class) {
                return Some(at(Position::FieldName(true), brackets));
            }
            if at_dots(class) {
                return Some(at(Position::Dotted, brackets));
            }
            let led = Position::Entering(Slot::Case(CaseAt::Led));
            when(is_bar(class), led, brackets)
        }
        CaseAt::Barred => when(at_dots(class), Position::Between, brackets),
        CaseAt::Led | CaseAt::Nowhere => None,
    }
}

/// What a token makes where a part may begin, and where it begins none.
fn enter_other(slot: Slot, class: TokenClass, brackets: Row<Bracket>) -> Option<Progress>
    ensures { option_map progress_of result
        ≡ definitions.enter_other slot class (reverse brackets) }
{
    match slot {
        Slot::Case(case) => enter_case(case, class, brackets),
        Slot::Argument(true, types) => {
            when(
                closes_round(class),
                Position::ArgumentsClosed(types),
                brackets,
            )
        }
        Slot::Argument(false, _)
        | Slot::Field
        | Slot::Var
        | Slot::Notation
        | Slot::Fun
        | Slot::Rule
        | Slot::Condition
        | Slot::Count => None,
    }
}

/// What stands behind the parameters or arguments of a function.
fn result_step(
    alloc: Global,
    types: bool,
    class: TokenClass,
    brackets: Row<Bracket>,
) -> Option<Progress>
    ensures { option_map progress_of result
        ≡ definitions.result_step types class (reverse brackets) }
{
    if at_colon(class) && types {
        return Some(start_of(alloc, Slot::Fun, brackets));
    }
    begins(alloc, at_equal(class), Slot::Rule, brackets)
}

/// A token behind the name of a function.
fn fun_named(alloc: Global, class: TokenClass, brackets: Row<Bracket>) -> Option<Progress>
    ensures { option_map progress_of result
        ≡ definitions.own position.FunNamed class (reverse brackets) }
{
    if opens_round(class) && class.touching {
        let slot = Slot::Argument(true, true);
        return Some(at(Position::Entering(slot), brackets));
    }
    result_step(alloc, true, class, brackets)
}

/// A token behind an argument.
fn argued(alloc: Global, types: bool, class: TokenClass, brackets: Row<Bracket>) -> Option<Progress>
    ensures { option_map progress_of result
        ≡ definitions.own (position.Argued types) class (reverse brackets) }
{
    if at_comma(class) {
        let slot = Slot::Argument(false, types);
        return Some(start_of(alloc, slot, brackets));
    }
    when(
        closes_round(class),
        Position::ArgumentsClosed(types),
        brackets,
    )
}

/// A token at a position where a name, or one sign, leads on to a next position.
fn own_name(position: Position, class: TokenClass, brackets: Row<Bracket>) -> Option<Progress>
    ensures { option_map progress_of result
        ≡ definitions.own_name position class (reverse brackets) }
{
    match position {
        Position::SyntaxName => {
            when(
                is_low(class),
                Position::Hinted(Host::Syntax, true),
                brackets,
            )
        }
        Position::VarName => {
            let named = is_low(class) || is_label(class.shape);
            when(named, Position::VarColon, brackets)
        }
        Position::RelationName => {
            let next = Position::Hinted(Host::Relation, false);
            when(names_relation(class), next, brackets)
        }
        Position::RuleName => when(names_relation(class), Position::RuleColon, brackets),
        Position::FunName => when(is_fun(class), Position::FunNamed, brackets),
        Position::HintOpen(host) => when(opens_round(class), Position::HintName(host), brackets),
        Position::HintName(host) => when(is_name(class), Position::HintWords(host), brackets),
        Position::Dotted => {
            let next = Position::Entering(Slot::Case(CaseAt::Led));
            when(is_bar(class), next, brackets)
        }
        _ => None,
    }
}

/// A token at a position, where it goes on with what stands before.
fn own(
    alloc: Global,
    position: Position,
    class: TokenClass,
    brackets: Row<Bracket>,
) -> Result<Option<Progress>, NoMemory>
    ensures { IfOk result (λ next.
        option_map progress_of next ≡ definitions.own position class (reverse brackets)) }
{
    match position {
        Position::Between => Ok(None),
        Position::SyntaxName
        | Position::VarName
        | Position::RelationName
        | Position::RuleName
        | Position::FunName
        | Position::HintOpen(_)
        | Position::HintName(_)
        | Position::Dotted => Ok(own_name(position, class, brackets)),
        Position::VarColon => Ok(begins(alloc, at_colon(class), Slot::Var, brackets)),
        Position::RuleColon => Ok(rule_colon(alloc, class, brackets)),
        Position::FunNamed => Ok(fun_named(alloc, class, brackets)),
        Position::Argued(types) => Ok(argued(alloc, types, class, brackets)),
        Position::ArgumentsClosed(types) => Ok(result_step(alloc, types, class, brackets)),
        Position::SyntaxId(due) => Ok(syntax_id(alloc, due, class, brackets)),
        Position::RuleId(due) => Ok(rule_id(alloc, due, class, brackets)),
        Position::Hinted(host, fresh) => Ok(hint_or(alloc, host, fresh, class, brackets)),
        Position::HintWords(host) => hint_step(host, class, brackets),
        Position::Entering(slot) => Ok(enter_other(slot, class, brackets)),
        Position::FieldName(first) => Ok(field_step(alloc, first, class, brackets)),
        Position::Premised => Ok(next_premise(class.keyword, brackets)),
        Position::PremiseOpen => premise_word(alloc, class, brackets),
        Position::GoalColon => Ok(begins(alloc, at_colon(class), Slot::Condition, brackets)),
        Position::Iterated(iterations) => Ok(iterate(alloc, iterations, class, brackets)),
    }
}

/// Takes one more token at a position where it begins no part, if it may stand there.
fn position_step(
    alloc: Global,
    position: Position,
    class: TokenClass,
    brackets: Row<Bracket>,
) -> Result<Option<Progress>, NoMemory>
    ensures { IfOk result (λ next.
        option_map progress_of next ≡ definitions.position_step position class (reverse brackets)) }
{
    if whole(position, &brackets) {
        turn(alloc, position, class, brackets)
    } else {
        own(alloc, position, class, brackets)
    }
}

/// A token at a position where definitions may end: it goes on, or begins a next definition.
fn turn(
    alloc: Global,
    position: Position,
    class: TokenClass,
    brackets: Row<Bracket>,
) -> Result<Option<Progress>, NoMemory>
    ensures { IfOk result (λ next.
        option_map progress_of next
        ≡ definitions.first_of_two (definitions.own position class (reverse brackets))
        (definitions.begin_def (class.keyword) (reverse brackets))) }
{
    let same = brackets.copy(alloc)?;
    match own(alloc, position, class, brackets)? {
        Some(next) => Ok(Some(next)),
        None => Ok(begin_definition(class.keyword, same)),
    }
}

/// A token that stands so and adds these actions, where it leads on.
fn stand<'a>(advance: Advance, actions: Row<Action<'a>>, next: Option<Progress>) -> Option<Step<'a>>
    ensures { (x : Token) → option_map step_of result
        ≡ definitions.advanced x
        (definitions.stands advance (λ _. actions.entry) (option_map progress_of next)) }
{
    match next {
        Some(progress) => Some(Step {
            advance,
            progress,
            actions,
        }),
        None => None,
    }
}

/// The part that is due at a position.
fn entering(position: Position) -> Option<Slot>
    ensures { result ≡ definitions.entering position }
{
    match position {
        Position::Entering(slot) => Some(slot),
        _ => None,
    }
}

/// A token at a position, where it begins no part.
fn stand_at<'a>(
    alloc: Global,
    position: Position,
    class: TokenClass,
    brackets: &Row<Bracket>,
) -> Result<Option<Step<'a>>, NoMemory>
    ensures { (x : Token) → IfOk result (λ step. option_map step_of step
        ≡ definitions.advanced x
        (definitions.at_position Prelude.None position class (reverse brackets.now))) }
{
    let next = position_step(alloc, position, class, brackets.copy(alloc)?)?;
    Ok(stand(Advance::At(position), Row::new(alloc), next))
}

/// A part that is read so far takes the token, if that may stand there.
fn take<'a>(
    alloc: Global,
    slot: Slot,
    reading: Reading,
    class: TokenClass,
    token: &'a Token,
    brackets: &Row<Bracket>,
) -> Result<Option<Step<'a>>, NoMemory>
    ensures { IfOk result (λ step. option_map step_of step
        ≡ definitions.advanced token.now
        (definitions.taken slot (reverse brackets.now)
        (parts.step (definitions.slot_sort slot) (reading_of reading) (class.shape))
        Prelude.None)) }
{
    let mut actions = Row::new(alloc);
    match step(slot_sort(slot), reading, class.shape, token, &mut actions)? {
        Some(next) => Ok(Some(Step {
            advance: Advance::On(slot),
            progress: Progress::Inside(slot, next, brackets.copy(alloc)?),
            actions,
        })),
        None => Ok(None),
    }
}

/// A token at a position where a part is due: the part begins with it, or it stands there.
fn enter<'a>(
    alloc: Global,
    slot: Slot,
    position: Position,
    class: TokenClass,
    token: &'a Token,
    brackets: &Row<Bracket>,
) -> Result<Option<Step<'a>>, NoMemory>
    ensures { IfOk result (λ step. option_map step_of step
        ≡ definitions.advanced token.now
        (definitions.at_position (Prelude.Some slot) position class (reverse brackets.now))) }
{
    let fresh = Reading {
        expected: Expected::Operand,
        frames: Row::new(alloc),
    };
    match take(alloc, slot, fresh, class, token, brackets)? {
        Some(step) => Ok(Some(step)),
        None => stand_at(alloc, position, class, brackets),
    }
}

/// A token behind a part, which ends before it, where it may.
fn leave<'a>(
    alloc: Global,
    slot: Slot,
    reading: &Reading,
    class: TokenClass,
    brackets: &Row<Bracket>,
) -> Result<Option<Step<'a>>, NoMemory>
    ensures { (x : Token) → IfOk result (λ step. option_map step_of step
        ≡ definitions.advanced x
        (definitions.behind_part slot class (reverse brackets.now)
        (parts.finishing (reading_of reading.now)) (parts.finish (reading_of reading.now)))) }
{
    let Some(part) = finish(reading) else {
        return Ok(None);
    };
    let position = filled(slot, part);
    let mut actions = Row::new(alloc);
    end(reading, &mut actions)?;
    let next = position_step(alloc, position, class, brackets.copy(alloc)?)?;
    let advance = Advance::Behind(slot, brackets.len(), position);
    Ok(stand(advance, actions, next))
}

/// A token in a part: the part takes it, or ends before it.
fn go_on<'a>(
    alloc: Global,
    slot: Slot,
    reading: &Reading,
    class: TokenClass,
    token: &'a Token,
    brackets: &Row<Bracket>,
) -> Result<Option<Step<'a>>, NoMemory>
    ensures { IfOk result (λ step. option_map step_of step
        ≡ definitions.advanced token.now
        (definitions.advance
        (definitions.inside slot (reading_of reading.now) (reverse brackets.now)) class)) }
{
    let same = Reading {
        expected: reading.expected,
        frames: reading.frames.copy(alloc)?,
    };
    match take(alloc, slot, same, class, token, brackets)? {
        Some(step) => Ok(Some(step)),
        None => leave(alloc, slot, reading, class, brackets),
    }
}

/// What one more token of definitions makes of the reading, if it may stand there.
pub fn advance<'a>(
    alloc: Global,
    progress: &Progress,
    class: TokenClass,
    token: &'a Token,
) -> Result<Option<Step<'a>>, NoMemory>
    ensures { IfOk result (λ step. option_map step_of step
        ≡ definitions.advanced token.now (definitions.advance (progress_of progress.now) class)) }
{
    match progress {
        Progress::At(here) => match entering(here.position) {
            Some(slot) => enter(alloc, slot, here.position, class, token, &here.brackets),
            None => stand_at(alloc, here.position, class, &here.brackets),
        },
        Progress::Inside(slot, reading, brackets) => {
            go_on(alloc, *slot, reading, class, token, brackets)
        }
    }
}

/// Whether definitions may end here.
pub fn may_end(progress: &Progress) -> bool
    ensures { result ≡ definitions.may_end (progress_of progress.now) }
{
    match progress {
        Progress::At(here) => whole(here.position, &here.brackets),
        Progress::Inside(slot, reading, brackets) => match finish(reading) {
            Some(part) => whole(filled(*slot, part), brackets),
            None => false,
        },
    }
}
