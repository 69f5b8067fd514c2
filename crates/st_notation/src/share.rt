//! What a hole in a sequence takes of the elements that are left.

ghost use Rattle.std.specs.Prelude.{◌≡◌, ◌≤◌, length, take};
ghost use Rattle.std.specs.Option.{option_map};
ghost use Rattle.st_notation.specs.Fits.{takes, one_element, list_takes, option_takes, shared_run};
ghost use Rattle.st_notation.specs.inner.Steps.{plain_share};

use crate::element::before;
use crate::{Filled, Shape};
use st_el::Exp;
use st_il::Template;

/// What fills a hole, and how many elements it takes.
#[derive(Clone, Copy)]
pub struct Share<'a> {
    pub filling: Filled<'a>,
    pub count: usize,
}

/// What a hole of this shape takes, with these parts behind it.
pub fn share_of<'a>(shape: Shape, next: &[Template], elements: &'a [Exp]) -> Option<Share<'a>>
    ensures { option_map plain_share result ≡ takes shape next.now elements.now }
{
    match shape {
        Shape::Plain => one_of(elements),
        Shape::List => list_of(next, elements),
        Shape::Opt => option_of(next, elements),
    }
}

/// The first of the elements, where there is one.
fn one_of<'a>(elements: &'a [Exp]) -> Option<Share<'a>>
    ensures { option_map plain_share result ≡ one_element elements.now }
{
    let first = elements.first()?;
    Some(Share {
        filling: Filled::One(first),
        count: 1,
    })
}

/// What a hole of list type takes, with these parts behind it.
fn list_of<'a>(next: &[Template], elements: &'a [Exp]) -> Option<Share<'a>>
    ensures { option_map plain_share result ≡ list_takes next.now elements.now }
{
    let Some(first) = next.first() else {
        return Some(run_of(elements, elements.len()));
    };
    match first {
        Template::Atom(name) => Some(run_of(elements, before(elements, name))),
        Template::Hole => one_of(elements),
        Template::Seq(_) => one_of(elements),
        Template::Infix(_, _, _) => one_of(elements),
        Template::Bracket(_, _) => one_of(elements),
    }
}

/// The first so many of the elements, as a run.
fn run_of<'a>(elements: &'a [Exp], count: usize) -> Share<'a>
    requires { count ≤ length elements.now }
    ensures { plain_share result ≡ shared_run elements.now count }
{
    Share {
        filling: Filled::Run(&elements[..count]),
        count,
    }
}

/// What a hole of option type takes, with these parts behind it.
fn option_of<'a>(next: &[Template], elements: &'a [Exp]) -> Option<Share<'a>>
    ensures { option_map plain_share result ≡ option_takes next.now elements.now }
{
    if next.is_empty() && elements.is_empty() {
        return Some(Share {
            filling: Filled::Missing,
            count: 0,
        });
    }
    one_of(elements)
}
