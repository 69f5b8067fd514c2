//! What a frame says of the position in it.

ghost use Rattle.std.specs.Prelude.{◌≡◌, reverse};
ghost use Rattle.st_grammar.specs.Grammar as grammar;
ghost use Rattle.st_grammar.specs.Trees as tree;
ghost use Rattle.st_parse_automaton.specs.inner.PartAutomaton as parts;

use crate::part_automaton::{Expected, Frame, Lead, Part, PartKind, Shape};
use st_grammar::{
    Bracket, Closing, Leaf, Sort, Style, is_iteration_sign, is_type_iteration_sign, prefix_right,
    right_of,
};
use st_num::{Mark, Row};

/// The level of what binds tightest.
pub(crate) const TIGHT: u8 = 20;

/// The sort of the part that is read in the frame.
fn frame_sort(frame: Frame) -> Sort
    ensures { result ≡ parts.frame_sort frame }
{
    match frame {
        Frame::Within(_, _, _, sort) | Frame::Over(_, sort) => sort,
        Frame::Timing => Sort::Count,
    }
}

/// The sort of the part that is read innermost; with nothing open it is the base.
pub fn top(base: Sort, frames: &Row<Frame>) -> Sort
    ensures { result ≡ parts.top base (reverse frames.now) }
{
    match frames.as_slice().last() {
        None => base,
        Some(frame) => frame_sort(*frame),
    }
}

/// The least level of what stands behind what leads to it.
fn wanted(lead: Lead) -> u8
    ensures { result ≡ parts.wanted lead }
{
    match lead {
        Lead::Left(mark) => right_of(mark),
        Lead::Ahead(mark) => prefix_right(mark),
        Lead::Items => TIGHT,
    }
}

/// How loose a sign must be to close over a part behind this.
pub(crate) fn reach(lead: Lead) -> u8
    ensures { result ≡ parts.reach lead }
{
    match lead {
        Lead::Left(mark) => right_of(mark),
        Lead::Ahead(mark) => prefix_right(mark),
        Lead::Items => 14,
    }
}

/// The level of what leads to a last part: that of its sign, or of a sequence.
pub(crate) fn lead_level(lead: Lead) -> u8
    ensures { result ≡ parts.lead_level lead }
{
    match lead {
        Lead::Left(mark) => mark.level(),
        Lead::Ahead(mark) => mark.prefix_level(),
        Lead::Items => 14,
    }
}

/// The least level of a part in such a bracket.
fn kind_least(kind: PartKind) -> u8
    ensures { result ≡ parts.kind_least kind }
{
    match kind {
        PartKind::Index | PartKind::Segment => 13,
        PartKind::Plain(_)
        | PartKind::Length
        | PartKind::Arguments
        | PartKind::Update(_)
        | PartKind::Below => 1,
    }
}

/// The least level that is wanted in the frame.
fn frame_least(frame: Frame) -> u8
    ensures { result ≡ parts.frame_least frame }
{
    match frame {
        Frame::Within(kind, _, _, _) => kind_least(kind),
        Frame::Over(lead, _) => wanted(lead),
        Frame::Timing => 1,
    }
}

/// The least level that is wanted innermost.
pub(crate) fn least(frames: &Row<Frame>) -> u8
    ensures { result ≡ parts.least (reverse frames.now) }
{
    match frames.as_slice().last() {
        None => 1,
        Some(frame) => frame_least(*frame),
    }
}

/// What closes such a bracket.
pub(crate) fn closed_by(bracket: Bracket) -> Closing
    ensures { result ≡ tree.closed_by bracket }
{
    match bracket {
        Bracket::Round | Bracket::TickRound | Bracket::Dollar => Closing::ByRound,
        Bracket::Square | Bracket::TickSquare => Closing::BySquare,
        Bracket::Brace | Bracket::TickBrace => Closing::ByBrace,
    }
}

/// What closes such a bracket.
pub(crate) fn kind_closing(kind: PartKind) -> Closing
    ensures { result ≡ parts.kind_closing kind }
{
    match kind {
        PartKind::Plain(bracket) => closed_by(bracket),
        PartKind::Length => Closing::ByBar,
        PartKind::Arguments | PartKind::Below => Closing::ByRound,
        PartKind::Index | PartKind::Segment | PartKind::Update(_) => Closing::BySquare,
    }
}

/// Whether the two are the same closing token.
pub(crate) fn agree(left: Closing, right: Closing) -> bool
    ensures { result ≡ tree.agree left right }
{
    match (left, right) {
        (Closing::ByRound, Closing::ByRound) => true,
        (Closing::BySquare, Closing::BySquare) => true,
        (Closing::ByBrace, Closing::ByBrace) => true,
        (Closing::ByBar, Closing::ByBar) => true,
        (_, _) => false,
    }
}

/// How the parts in such a bracket are set off, where it stands in a part of this sort.
fn bracket_style(bracket: Bracket, sort: Sort) -> Style
    ensures { result ≡ grammar.bracket_style bracket sort }
{
    match (bracket, sort) {
        (Bracket::Round, Sort::Arithmetic) => Style::Lone,
        (Bracket::Round, _) => Style::Parts,
        (Bracket::Brace, _) => Style::Fields,
        (_, _) => Style::Lone,
    }
}

/// How the parts behind an operand and `[` are set off, in a part of this sort.
fn index_style(sort: Sort) -> Style
    ensures { result ≡ grammar.index_style sort }
{
    match sort {
        Sort::Arithmetic => Style::Lone,
        _ => Style::Ends,
    }
}

/// How the parts of such a bracket are set off, where it stands in a position of this sort.
pub(crate) fn kind_style(sort: Sort, kind: PartKind) -> Style
    ensures { result ≡ parts.kind_style sort kind }
{
    match kind {
        PartKind::Plain(bracket) => bracket_style(bracket, sort),
        PartKind::Arguments => Style::Parts,
        PartKind::Index => index_style(sort),
        PartKind::Segment => Style::Ends,
        PartKind::Length | PartKind::Update(_) | PartKind::Below => Style::Lone,
    }
}

/// The sort of the parts in such a bracket, by the sort of the part in which it stands.
pub(crate) fn kind_sort(sort: Sort, kind: PartKind) -> Sort
    ensures { result ≡ parts.kind_sort sort kind }
{
    match kind {
        PartKind::Plain(bracket) => sort.inside(bracket),
        PartKind::Length => Sort::Expression(true),
        PartKind::Below => Sort::Bound,
        PartKind::Arguments | PartKind::Index | PartKind::Segment | PartKind::Update(_) =>
            Sort::Expression(false),
    }
}

/// What is expected where such a bracket has opened.
pub(crate) fn kind_expected(kind: PartKind) -> Expected
    ensures { result ≡ parts.kind_expected kind }
{
    match kind {
        PartKind::Plain(Bracket::Brace) => Expected::Label,
        _ => Expected::Operand,
    }
}

/// An operand of one token as a part.
pub(crate) fn leaf_part(leaf: Leaf) -> Part
    ensures { result ≡ parts.leaf_part leaf }
{
    match leaf {
        Leaf::Low | Leaf::Basic => Part::Typ(true),
        Leaf::Variable => Part::Names,
        Leaf::Atom => Part::Atom,
        Leaf::Number | Leaf::Literal => Part::Whole,
        Leaf::Function => Part::Function,
    }
}

/// A bracket as a part, where all in it reads as types or not.
pub(crate) fn kind_part(kind: PartKind, types: bool) -> Part
    ensures { result ≡ parts.kind_part kind types }
{
    match kind {
        PartKind::Plain(Bracket::Round) => Part::Typ(types),
        _ => Part::Whole,
    }
}

/// Whether it is the name of a function.
pub(crate) fn is_function(part: Part) -> bool
    ensures { result ≡ parts.is_function part }
{
    matches!(part, Part::Function)
}

/// Whether it is an atom in a notation, which goes on behind dots.
fn is_atom(part: Part) -> bool
    ensures { result ≡ parts.is_atom part }
{
    matches!(part, Part::Atom | Part::Names)
}

/// Whether it is a name or parentheses, perhaps iterated.
fn is_type(part: Part) -> bool
    ensures { result ≡ parts.is_type part }
{
    matches!(part, Part::Typ(_))
}

/// Whether all of the part reads as a type.
pub(crate) fn reads_type(part: Part) -> bool
    ensures { result ≡ parts.reads_type part }
{
    match part {
        Part::Typ(types) => types,
        Part::Function | Part::Atom | Part::Names | Part::Whole => false,
    }
}

/// The part with a dot behind it, which touches it or not.
pub(crate) fn dotted(part: Part, touching: bool) -> Part
    ensures { result ≡ parts.dotted part touching }
{
    match part {
        Part::Atom if touching => Part::Atom,
        Part::Atom | Part::Names => Part::Names,
        Part::Function | Part::Typ(_) | Part::Whole => Part::Whole,
    }
}

/// The part with an iteration sign behind it.
pub(crate) fn marked(mark: Mark, part: Part) -> Part
    ensures { result ≡ parts.marked mark part }
{
    match part {
        Part::Typ(types) => Part::Typ(is_type_iteration_sign(mark) && types),
        Part::Function | Part::Atom | Part::Names | Part::Whole => Part::Whole,
    }
}

/// Whether a dot goes on with the part.
pub(crate) fn may_dot(sort: Sort, part: Part, touching: bool) -> bool
    ensures { result ≡ parts.may_dot sort part touching }
{
    match sort {
        Sort::Expression(_) | Sort::Arithmetic => true,
        Sort::Notation => is_atom(part) && touching,
        Sort::Typ | Sort::Count | Sort::Bound => false,
    }
}

/// Whether the sign iterates the part.
pub(crate) fn may_iterate(sort: Sort, part: Part, mark: Mark) -> bool
    ensures { result ≡ parts.may_iterate sort part mark }
{
    match sort {
        Sort::Expression(_) => is_iteration_sign(mark),
        Sort::Notation => is_type_iteration_sign(mark) && is_type(part),
        Sort::Typ => is_type_iteration_sign(mark),
        Sort::Arithmetic | Sort::Count | Sort::Bound => false,
    }
}

/// Whether it is a bar that opens a length in such a part.
fn opens_length(closing: Closing, sort: Sort) -> bool
    ensures { result ≡ grammar.opens_length closing sort }
{
    match (closing, sort) {
        (Closing::ByBar, Sort::Expression(barred)) => !barred,
        (_, _) => false,
    }
}

/// Whether the token begins a next element of a sequence behind the part.
pub fn follows(sort: Sort, part: Part, shape: Shape) -> bool
    ensures { result ≡ parts.follows sort part shape }
{
    match shape {
        Shape::Single(_) => sort.juxtaposes(),
        Shape::Open(Bracket::Square, _) => false,
        Shape::Open(Bracket::Round, touching) => {
            sort.juxtaposes() && !(is_function(part) && touching)
        }
        Shape::Open(_, _) => sort.juxtaposes(),
        Shape::Close(closing) => opens_length(closing, sort),
        Shape::Dot(_) | Shape::Sign(_) | Shape::Other => false,
    }
}
