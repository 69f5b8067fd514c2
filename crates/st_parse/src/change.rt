//! What a token between parts changes.

ghost use Rattle.std.specs.Prelude.{◌≡◌};
ghost use Rattle.st_parse.specs.inner.Changes as spec;
ghost use Rattle.st_parse_automaton.specs.inner.Readings.{progress_of};

use st_parse_automaton::{Host, IterationState, Position, Progress, Slot};

/// What of a definition ends before the next one begins.
#[derive(Clone, Copy, Debug, PartialEq, Eq)]
pub enum DefinitionEnd {
    /// No definition is open.
    Nothing,
    Fields,
    /// Alternatives, and whether dots stand behind them.
    Cases(bool),
    Var,
    Relation,
    Fun,
    /// A rule or a clause.
    Rule,
    /// The same behind a condition.
    Condition,
}

/// What a token between parts changes.
#[derive(Clone, Copy, Debug, PartialEq, Eq)]
pub enum Change {
    Nothing,
    /// A definition begins, behind one that ends so.
    Begin(DefinitionEnd),
    /// The open definition ends with the token.
    End(DefinitionEnd),
    Name,
    /// One more token of the name of a fragment or rule.
    Id,
    HintName,
    HintWord,
    /// A hint ends, and whether it is kept.
    HintEnd(bool),
    /// Dots stand before the alternatives.
    Dots,
    /// The name of a field.
    Label,
    /// The arguments are parameters, or patterns.
    Params,
    Args,
    /// `--`, and whether a condition ends before it.
    Premise(bool),
    /// `(` before a condition.
    Parenthesis,
    If,
    /// The relation of a judgement.
    Goal,
    Otherwise,
    /// An iteration sign behind a premise in parentheses, with so many open round it.
    Mark(usize),
}

/// Whether the name of a definition is due, behind its word.
fn names_definition(position: Position) -> bool
    ensures { result ≡ spec.names_definition position }
{
    matches!(
        position,
        Position::SyntaxName
            | Position::RelationName
            | Position::RuleName
            | Position::VarName
            | Position::FunName
    )
}

/// What ends where hints may stand.
fn host_ending(host: Host) -> DefinitionEnd
    ensures { result ≡ spec.host_ending host }
{
    match host {
        Host::Case => DefinitionEnd::Cases(false),
        Host::Var => DefinitionEnd::Var,
        Host::Notation => DefinitionEnd::Relation,
        Host::Fun => DefinitionEnd::Fun,
        Host::Syntax | Host::Field | Host::Relation => DefinitionEnd::Nothing,
    }
}

/// What ends where a next definition may begin.
pub(crate) fn ending_of(position: Position) -> DefinitionEnd
    ensures { result ≡ spec.ending_of position }
{
    match position {
        Position::Hinted(host, _) => host_ending(host),
        Position::Premised => DefinitionEnd::Rule,
        Position::Iterated(_) => DefinitionEnd::Condition,
        _ => DefinitionEnd::Nothing,
    }
}

/// Hints of fields and alternatives are not kept.
fn keeps_hints(host: Host) -> bool
    ensures { result ≡ spec.keeps_hints host }
{
    !matches!(host, Host::Field | Host::Case)
}

/// What a token changes where hints may stand.
fn behind_hints(host: Host, after: Position) -> Change
    ensures { result ≡ spec.behind_hints host after }
{
    match after {
        Position::SyntaxId(_) => Change::Id,
        Position::Between => Change::End(DefinitionEnd::Fields),
        _ => {
            if names_definition(after) {
                Change::Begin(host_ending(host))
            } else {
                Change::Nothing
            }
        }
    }
}

/// What a token changes behind whole premises or a condition.
fn in_premises(before: Position, after: Position) -> Change
    ensures { result ≡ spec.in_premises before after }
{
    match after {
        Position::PremiseOpen => Change::Premise(matches!(before, Position::Iterated(_))),
        Position::Iterated(IterationState::Wanted) => Change::Nothing,
        _ => Change::Begin(ending_of(before)),
    }
}

/// What a token changes behind `--` and the parentheses that are open.
fn in_premise(after: Position) -> Change
    ensures { result ≡ spec.in_premise after }
{
    match after {
        Position::PremiseOpen => Change::Parenthesis,
        Position::GoalColon => Change::Goal,
        _ => Change::Otherwise,
    }
}

/// What a token changes in the name of a fragment or a rule, or before that of a rule.
fn in_id(after: Position) -> Change
    ensures { result ≡ spec.in_id after }
{
    match after {
        Position::SyntaxId(_) | Position::RuleId(_) => Change::Id,
        _ => Change::Nothing,
    }
}

/// What a token changes in a hint: it goes on with it, or ends it.
fn in_hint(host: Host, after: Position) -> Change
    ensures { result ≡ spec.in_hint host after }
{
    match after {
        Position::HintWords(_) => Change::HintWord,
        _ => Change::HintEnd(keeps_hints(host)),
    }
}

/// What a token changes that stands where a part may begin, but begins none.
fn entering(after: Position) -> Change
    ensures { result ≡ spec.entering after }
{
    match after {
        Position::Dotted => Change::Dots,
        Position::Between => Change::End(DefinitionEnd::Cases(true)),
        _ => Change::Nothing,
    }
}

/// What changes from a position to a position.
fn change_at(before: Position, after: Position) -> Change
    ensures { result ≡ spec.change_at before after }
{
    match before {
        Position::Between => Change::Begin(DefinitionEnd::Nothing),
        Position::SyntaxName
        | Position::RelationName
        | Position::RuleName
        | Position::VarName
        | Position::FunName => Change::Name,
        Position::RuleColon | Position::SyntaxId(_) | Position::RuleId(_) => in_id(after),
        Position::Hinted(host, _) => behind_hints(host, after),
        Position::HintName(_) => Change::HintName,
        Position::HintWords(host) => in_hint(host, after),
        Position::Entering(_) => entering(after),
        Position::FieldName(_) => Change::End(DefinitionEnd::Fields),
        Position::Premised | Position::Iterated(_) => in_premises(before, after),
        Position::PremiseOpen => in_premise(after),
        Position::VarColon
        | Position::FunNamed
        | Position::Argued(_)
        | Position::ArgumentsClosed(_)
        | Position::HintOpen(_)
        | Position::Dotted
        | Position::GoalColon => Change::Nothing,
    }
}

/// What the arguments of a function are, told by the part behind them.
fn behind_arguments(slot: Slot) -> Change
    ensures { result ≡ spec.behind_arguments slot }
{
    match slot {
        Slot::Fun => Change::Params,
        Slot::Rule => Change::Args,
        _ => Change::Nothing,
    }
}

/// What changes from a position into a part.
fn change_into(before: Position, slot: Slot) -> Change
    ensures { result ≡ spec.change_into before slot }
{
    match before {
        Position::FunNamed | Position::ArgumentsClosed(_) => behind_arguments(slot),
        Position::FieldName(_) => Change::Label,
        Position::PremiseOpen => Change::If,
        _ => Change::Nothing,
    }
}

/// What a token changes that leads from this position there.
pub(crate) fn change_of(before: Position, after: &Progress) -> Change
    ensures { result ≡ spec.change_of before (progress_of after.now) }
{
    match after {
        Progress::At(here) => match here.position {
            Position::Iterated(IterationState::Complete) => Change::Mark(here.brackets.len()),
            position => change_at(before, position),
        },
        Progress::Inside(slot, _, _) => change_into(before, *slot),
    }
}
