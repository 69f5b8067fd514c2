//! What is asked of a small specification beside the form of its text.

ghost use Rattle.std.specs.Prelude.{◌≡◌, ◌↔◌, IsTrue, IfOk};
ghost use Rattle.st_il.specs.Small.{IsSmall};
ghost use Rattle.st_small.specs.inner.Words.{HasWords};

use crate::names::{distinct_atoms, have_distinct_names, have_known_atoms};
use crate::word::{are_upper_words, have_lower_names, is_lower_word, is_upper_word};
use st_il::{Small, is_reserved};
use st_num::{MOST_DEFINITIONS, MOST_PARTS, NoMemory};
use std::alloc::Global;

/// How many atoms a syntax has at most.
const MOST_ATOMS: usize = MOST_PARTS as usize;

/// How many rules a relation has at most, behind the definitions of the syntax and the relation.
const MOST_RULES: usize = MOST_DEFINITIONS as usize - 2;

/// Whether the names of the specification are words of the letters that they are to have.
fn has_words(small: &Small) -> bool
    ensures { IsTrue result ↔ HasWords small.now }
{
    is_lower_word(small.syntax.as_slice())
        && is_upper_word(small.relation.as_slice())
        && are_upper_words(small.atoms.as_slice())
        && have_lower_names(small.rules.as_slice())
}

/// Whether a specification of such words is small.
fn is_small_by_words(alloc: Global, small: &Small) -> Result<bool, NoMemory>
    requires { HasWords small.now }
    ensures { IfOk result (λ answer. IsTrue answer ↔ IsSmall small.now) }
{
    let atoms = small.atoms.as_slice();
    let rules = small.rules.as_slice();
    if atoms.is_empty() || atoms.len() > MOST_ATOMS || rules.len() > MOST_RULES {
        return Ok(false);
    }
    if is_reserved(small.syntax.as_slice()) {
        return Ok(false);
    }
    let Some(set) = distinct_atoms(alloc, atoms)? else {
        return Ok(false);
    };
    if !have_known_atoms(&set, rules) {
        return Ok(false);
    }
    have_distinct_names(alloc, rules)
}

/// Whether the specification is small.
pub fn is_small(alloc: Global, small: &Small) -> Result<bool, NoMemory>
    ensures { IfOk result (λ answer. IsTrue answer ↔ IsSmall small.now) }
{
    if !has_words(small) {
        return Ok(false);
    }
    is_small_by_words(alloc, small)
}
