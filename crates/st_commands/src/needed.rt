//! Whether a relation, or one that it needs, has a rule with an `otherwise`.

ghost use Rattle.std.specs.Prelude.{◌≡◌, IfOk, MatchBool};
ghost use Rattle.std.specs.List.{list_any};
ghost use Rattle.st_order.specs.Known.{all_now};
ghost use Rattle.st_order.specs.inner.Index.{names_in};
ghost use Rattle.st_search.specs.Searchable.{HasNoOtherwise};
ghost use Rattle.st_commands.specs.inner.Needing.{has_otherwise_under, some_has_otherwise};

use st_il::{Il, RuleDef};
use st_modes::{Rules, citations_of, have_otherwise, reached};
use st_num::{Name, NoMemory};
use st_order::index::at;
use std::alloc::Global;

/// Whether one of these rules has an `otherwise`.
fn some_has_otherwise(rules: &[&RuleDef]) -> bool
    ensures { result ≡ some_has_otherwise (all_now rules.now) }
{
    for i in 0..rules.len() {
        if have_otherwise(rules[i].premises.as_slice()) {
            return true;
        }
    }
    false
}

/// Whether a rule of the relation of this name has an `otherwise`.
fn has_otherwise_under(rules: &Rules, name: &Name) -> bool
    ensures { result ≡ has_otherwise_under rules.now.entries name.now }
{
    match at(rules, name) {
        Some(found) => some_has_otherwise(found.as_slice()),
        None => false,
    }
}

/// Whether a rule of one of the relations of these names has an `otherwise`.
fn one_has_otherwise(rules: &Rules, names: &[&Name]) -> bool
    ensures { result
        ≡ list_any (has_otherwise_under rules.now.entries) (names_in names.now) }
{
    for name in names {
        if has_otherwise_under(rules, *name) {
            return true;
        }
    }
    false
}

/// Whether the relation of a name, or one that it needs, has a rule with an `otherwise`.
pub fn needs_otherwise(alloc: Global, il: &Il, relation: &Name) -> Result<bool, NoMemory>
    ensures { IfOk result (λ needs. MatchBool needs (HasNoOtherwise il.now relation.now → ⊥)
        (HasNoOtherwise il.now relation.now)) }
{
    let citations = citations_of(alloc, il)?;
    if has_otherwise_under(&citations.rules, relation) {
        return Ok(true);
    }
    let needed = reached(alloc, &citations.cited, &citations.cited, relation)?;
    Ok(one_has_otherwise(&citations.rules, needed.as_slice()))
}
