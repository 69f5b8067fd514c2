//! Parts of queries that are variables, or iterations that go over variables.

ghost use Rattle.std.specs.Prelude.{◌≡◌, map, IfOk};
ghost use Rattle.st_term.specs.Foreign.{open_place, first_place, first_open};

use st_dims::{Mention, mentions_of};
use st_el::Exp;
use st_num::{NoMemory, Span};
use std::alloc::Global;

/// The place of a variable or of such an iteration.
fn open_place(mention: &Mention) -> Option<Span>
    ensures { result ≡ open_place mention.now }
{
    match mention {
        Mention::Occurs(occurrence) => Some(occurrence.at),
        Mention::Indexes(_) => None,
        Mention::Iterates(iteration) => Some(iteration.at),
    }
}

/// The first of these places.
fn first_place(mentions: &[Mention]) -> Option<Span>
    ensures { result ≡ first_place (map open_place mentions.now) }
{
    for mention in mentions {
        if let Some(at) = open_place(mention) {
            return Some(at);
        }
    }
    None
}

/// The place of the first part of these expressions that is a variable, or an iteration that goes
/// over variables.
pub(crate) fn first_open(alloc: Global, exps: &[Exp]) -> Result<Option<Span>, NoMemory>
    ensures { IfOk result (λ place. place ≡ first_open exps.now) }
{
    let Some((last, others)) = exps.split_last() else {
        return Ok(None);
    };
    let mentions = mentions_of(alloc, others, last, &[])?;
    Ok(first_place(&mentions))
}
