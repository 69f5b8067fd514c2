//! The variables of a rule or clause, counted.

ghost use Rattle.std.specs.Prelude.{◌≡◌, [], ◌∷◌, ◌++◌, List, IfOk};
ghost use Rattle.st_num.specs.declared.token.Token.{Token};
ghost use Rattle.st_parse_builder.specs.Variables.{Occurrence, occurrence, occurrences};
ghost use Rattle.st_parse_builder.specs.Limits.{place_past};
ghost use Rattle.st_parse_builder.specs.inner.Counting.{spelled, Knows, Counted};

use crate::name_of;
use indexmap::IndexSet;
use st_grammar::TokenRef;
use st_num::{NoMemory, Span};
use std::alloc::Global;

/// Takes a name down, and gives its place where there are more names with it than the limit allows.
fn count<'a>(
    token: &TokenRef<'a>,
    limit: usize,
    names: &mut IndexSet<&'a [u8]>,
) -> Result<Option<Span>, NoMemory>
    ensures { IfOk result (λ place. (before : List Occurrence)
        → Knows limit before (spelled names.old.keys)
        → Counted limit (before ++ occurrence token.now ∷ []) (spelled names.new.keys) place) }
{
    let token = token.get();
    names.insert(name_of(&token.kind))?;
    if names.len() > limit {
        return Ok(Some(token.at));
    }
    Ok(None)
}

/// Where the first name occurs that is one more than the limit allows; none where there are no more
/// different names than that.
pub fn place_past(
    alloc: Global,
    seen: &[TokenRef<'_>],
    limit: usize,
) -> Result<Option<Span>, NoMemory>
    ensures { IfOk result (λ place. place ≡ place_past limit (occurrences seen.now)) }
{
    // So few occurrences cannot have more names, and mostly there are no more.
    if seen.len() <= limit {
        return Ok(None);
    }
    let mut names = IndexSet::new(alloc);
    'tokens: for token in seen {
        if let Some(at) = count(token, limit, &mut names)? {
            return Ok(Some(at));
        }
    }
    Ok(None)
}
