//! What is kept of a reading of definitions.

use crate::part_automaton::{Reading, Shape};
use st_grammar::{Action, Bracket, Keyword};
use st_num::Row;

/// What a token can be, in a part of a definition and between parts.
#[derive(Clone, Copy, Debug, PartialEq, Eq)]
pub struct TokenClass {
    pub shape: Shape,
    pub touching: bool,
    pub keyword: Keyword,
    /// A name that begins with a capital and has a lower-case letter.
    pub mix: bool,
    /// A name, a reserved word or a number.
    pub piece: bool,
    /// A dot with a name.
    pub dot: bool,
}

/// What a hint stands behind.
#[derive(Clone, Copy, Debug, PartialEq, Eq)]
pub enum Host {
    Syntax,
    Field,
    Case,
    Var,
    Relation,
    Notation,
    Fun,
}

/// Where an alternative is due.
#[derive(Clone, Copy, Debug, PartialEq, Eq)]
pub enum CaseAt {
    /// At the start of a body.
    Start,
    /// Behind the bar before the first.
    Led,
    /// Behind the bar of a later one.
    Barred,
    Nowhere,
}

/// What a part is read for.
#[derive(Clone, Copy, Debug, PartialEq, Eq)]
pub enum Slot {
    Field,
    Case(CaseAt),
    Var,
    Notation,
    Fun,
    /// Whether nothing stands before it in the parentheses, and whether all before reads as types.
    Argument(bool, bool),
    Rule,
    Condition,
    Count,
}

/// How the iterations of a condition end so far.
#[derive(Clone, Copy, Debug, PartialEq, Eq)]
pub enum IterationState {
    None,
    /// With `)`, which wants an iteration.
    Wanted,
    Complete,
}

/// A position between tokens.
#[derive(Clone, Copy, Debug, PartialEq, Eq)]
pub enum Position {
    Between,
    SyntaxName,
    VarName,
    VarColon,
    RelationName,
    RuleName,
    RuleColon,
    FunName,
    FunNamed,
    /// Behind an argument, and behind all; whether all of them read as types.
    Argued(bool),
    ArgumentsClosed(bool),
    /// In a name, and whether a piece is due.
    SyntaxId(bool),
    RuleId(bool),
    /// Where hints may stand, and whether `/` may.
    Hinted(Host, bool),
    HintOpen(Host),
    HintName(Host),
    HintWords(Host),
    Entering(Slot),
    Dotted,
    /// Whether no field stands before.
    FieldName(bool),
    Premised,
    PremiseOpen,
    GoalColon,
    Iterated(IterationState),
}

/// How far definitions are read: the position, and what is open there, the innermost last.
#[derive(Drop)]
pub struct At {
    pub position: Position,
    pub brackets: Row<Bracket>,
}

/// How far definitions are read, also in a part.
#[derive(Drop)]
pub enum Progress {
    At(At),
    /// A part, what it is read for, and what is open round it.
    Inside(Slot, Reading, Row<Bracket>),
}

/// How a token stands that leads on.
#[derive(Clone, Copy, Debug, PartialEq, Eq)]
pub enum Advance {
    /// In a part that is read for this: it goes on with it, or is the first of it.
    On(Slot),
    /// Between parts, at this position.
    At(Position),
    /// At this position, behind a part that is read for this and ends before the token, with so
    /// many brackets open round it.
    Behind(Slot, usize, Position),
}

/// What a token makes of a reading: how it stands, where it leads, and what it adds to the actions
/// of its part. Where a part ends before it, that is what the end adds.
#[derive(Drop)]
pub struct Step<'a> {
    pub advance: Advance,
    pub progress: Progress,
    pub actions: Row<Action<'a>>,
}
