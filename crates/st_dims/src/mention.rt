//! What bears on dimensions: occurrences, indices and iterations.

ghost use Rattle.std.specs.Prelude.{◌≡◌};
ghost use Rattle.st_el.specs.declared.expression.Count.{out-Count};
ghost use Rattle.st_dims.specs.Mentions.{must_iterate_at};

use st_el::Count;
use st_num::{Dim, Name, Row, Span};

/// A variable at a place, with the kinds of the iterations round it, outermost first.
#[derive(Drop)]
pub struct Occurrence {
    pub name: Name,
    pub at: Span,
    pub chain: Dim,
}

/// An iteration that has to iterate something, with the number of iterations round it and the
/// variables that occur in its body.
#[derive(Drop)]
pub struct Iteration {
    pub at: Span,
    pub depth: usize,
    pub names: Row<Name>,
}

/// What is mentioned in a rule or clause and bears on dimensions: a variable that occurs, the index
/// of an iteration, or an iteration that has to iterate something.
#[derive(Drop)]
pub enum Mention {
    Occurs(Occurrence),
    Indexes(Name),
    Iterates(Iteration),
}

/// Whether the iteration has to iterate something: all but those that say how often they go.
pub fn must_iterate(count: &Count) -> bool
    ensures { result ≡ must_iterate_at (out-Count count.now) }
{
    match count {
        Count::Star | Count::Plus | Count::Quest => true,
        Count::Times(_) | Count::Below(_, _) => false,
    }
}
