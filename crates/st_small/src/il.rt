//! Whether an internal language is that of a small specification.

ghost use Rattle.std.specs.Prelude.{◌≡◌, ◌≢◌, ◌↔◌, IsTrue, IfOk, MatchOption};
ghost use Rattle.st_il.specs.declared.small.Small.{Small as Specification};
ghost use Rattle.st_il.specs.Small.{il_of, IsSmallIl};

use crate::part::{atoms_of, relation_of, rules_of, variant_of};
use crate::small::is_small;
use st_il::{Il, Small};
use st_num::NoMemory;
use std::alloc::Global;

/// The specification whose internal language this is, where it has the form of a small one's.
fn small_of(alloc: Global, il: &Il) -> Result<Option<Small>, NoMemory>
    ensures { IfOk result (λ read. MatchOption read ((small : Specification) → il.now ≢ il_of small)
        (λ small. il.now ≡ il_of small)) }
{
    let [syntax, relation, rules @ ..] = il.defs.as_slice() else {
        return Ok(None);
    };
    let Some((syntax, alternatives)) = variant_of(syntax) else {
        return Ok(None);
    };
    let Some(relation) = relation_of(relation, syntax) else {
        return Ok(None);
    };
    let Some(atoms) = atoms_of(alloc, alternatives)? else {
        return Ok(None);
    };
    let Some(rules) = rules_of(alloc, rules, relation, syntax)? else {
        return Ok(None);
    };
    Ok(Some(Small {
        syntax: syntax.copy(alloc)?,
        atoms,
        relation: relation.copy(alloc)?,
        rules,
    }))
}

/// Whether the internal language is that of a small specification.
pub fn is_small_il(alloc: Global, il: &Il) -> Result<bool, NoMemory>
    ensures { IfOk result (λ answer. IsTrue answer ↔ IsSmallIl il.now) }
{
    match small_of(alloc, il)? {
        Some(small) => is_small(alloc, &small),
        None => Ok(false),
    }
}
