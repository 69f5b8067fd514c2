//! The functions without clauses, and the relations that cannot be searched, that a relation needs.

ghost use Rattle.std.specs.Prelude.{◌≡◌, ◌<◌, ◌&&◌, Some, bytes_eq, length, slice_get, map, find, IfOk};
ghost use Rattle.std.specs.Option.{option_copied};
ghost use Rattle.st_il.specs.declared.definition.RelationDef.{RelationDef};
ghost use Rattle.st_il.specs.Definitions.{relations};
ghost use Rattle.st_semantics.specs.Marks.{IsUnfit};
ghost use Rattle.st_order.specs.inner.Index.{names_in};
ghost use Rattle.st_order.specs.Known.{all_now};
ghost use Rattle.st_modes.specs.inner.Sifted.{Sifted};
ghost use Rattle.st_modes.specs.inner.Needs.{IsIndexed, LacksFunction, NeedsMarked, AreMarked, is_other_in};

use crate::cited_by::citing_relations;
use crate::indexed::Indexed;
use crate::reaching::reached;
use crate::targets::{Firsts, first_targets, first_under};
use indexmap::IndexSet;
use st_il::{FunDef, RelationDef};
use st_num::{Name, NoMemory, Row};
use st_order::index::has;
use st_semantics::Unfit;
use std::alloc::Global;

/// The function at a position.
fn fun_at<'a>(funs: &[&'a FunDef], position: usize) -> &'a FunDef
    requires { position < length funs.now }
    ensures { slice_get (all_now funs.now) position ≡ Some result.now }
{
    funs[position]
}

/// The mark of a relation that needs a function without clauses, if it needs one: it names the
/// first in the order of the source.
pub(crate) fn mark_by_functions(
    alloc: Global,
    indexed: &Indexed,
    relation: &RelationDef,
) -> Result<Option<Unfit>, NoMemory>
    requires { IsIndexed indexed.now }
    ensures { IfOk result (λ mark.
        LacksFunction indexed.now.directions.il.now relation.now.name mark) }
{
    let found = first_under(&indexed.lacks, &indexed.citations.called, &relation.name);
    let Some(number) = found else {
        return Ok(None);
    };
    let lacking = indexed.lacking.as_slice();
    let fun = fun_at(lacking, number);
    Ok(Some(Unfit::U3(fun.name.copy(alloc)?)))
}

/// Whether the name of a relation is one of these, and not this one.
fn is_other_in(names: &IndexSet<&Name>, own: &Name, relation: &RelationDef) -> bool
    ensures { result ≡ is_other_in (names_in names.now.keys) own.now relation.now }
{
    has(names, &relation.name) && *own != relation.name
}

/// The first of some relations whose name is one of these, and not this one.
fn first_relation<'a>(
    names: &IndexSet<&Name>,
    own: &Name,
    relations: &[&'a RelationDef],
) -> Option<&'a RelationDef>
    ensures { option_copied result
        ≡ find (is_other_in (names_in names.now.keys) own.now) (all_now relations.now) }
{
    for relation in relations {
        if is_other_in(names, own, *relation) {
            return Some(*relation);
        }
    }
    None
}

/// The mark of a relation that needs another one with a mark of its own, by a walk from it alone.
fn mark_by_walk(
    alloc: Global,
    indexed: &Indexed,
    unfit: &[&RelationDef],
    relation: &RelationDef,
) -> Result<Option<Unfit>, NoMemory>
    requires indexed { IsIndexed indexed.now }
    requires unfit { Sifted (IsUnfit indexed.now.directions.il.now)
        (relations indexed.now.directions.il.now) (all_now unfit.now) }
    ensures { IfOk result (λ mark.
        NeedsMarked indexed.now.directions.il.now relation.now mark) }
{
    let cited = &indexed.citations.cited;
    let needed = reached(alloc, cited, cited, &relation.name)?;
    match first_relation(&needed, &relation.name, unfit) {
        Some(other) => Ok(Some(Unfit::U4(other.name.copy(alloc)?))),
        None => Ok(None),
    }
}

/// The relations that have a mark of their own, in order, and for the relations that lead to some
/// of these the number of the first one.
#[derive(Drop)]
pub(crate) struct Marked<'a> {
    unfit: Row<&'a RelationDef>,
    firsts: Firsts<'a>,
}

/// The names of relations.
fn names_of<'a>(alloc: Global, relations: &[&'a RelationDef]) -> Result<Row<&'a Name>, NoMemory>
    ensures { IfOk result (λ names.
        names_in names ≡ map (λ (r : RelationDef). r.name) (all_now relations.now)) }
{
    let mut names = Row::new(alloc);
    for i in 0..relations.len() {
        let relation = relations[i];
        names.push(&relation.name)?;
    }
    Ok(names)
}

/// What is looked up of relations that have a mark of their own.
pub(crate) fn marked_of<'a>(
    alloc: Global,
    indexed: &Indexed<'a>,
    unfit: Row<&'a RelationDef>,
) -> Result<Marked<'a>, NoMemory>
    requires { Sifted (IsUnfit indexed.now.directions.il.now)
        (relations indexed.now.directions.il.now) (all_now unfit) }
    ensures { IfOk result (AreMarked indexed.now.directions.il.now) }
{
    let il = indexed.directions.il;
    let citing = citing_relations(alloc, il.defs.as_slice())?;
    let names = names_of(alloc, unfit.as_slice())?;
    let firsts = first_targets(alloc, &citing, names.as_slice())?;
    Ok(Marked { unfit, firsts })
}

/// The relation at a position.
fn relation_at<'a>(relations: &[&'a RelationDef], position: usize) -> &'a RelationDef
    requires { position < length relations.now }
    ensures { slice_get (all_now relations.now) position ≡ Some result.now }
{
    relations[position]
}

/// Whether a relation has the name of another one.
fn is_namesake(one: &RelationDef, other: &RelationDef) -> bool
    ensures { result ≡ bytes_eq one.now.name other.now.name }
{
    one.name == other.name
}

/// The mark of a relation that needs another one with a mark of its own, if it needs one: it names
/// the first in the order of the source.
pub(crate) fn mark_by_relations(
    alloc: Global,
    indexed: &Indexed,
    marked: &Marked,
    relation: &RelationDef,
) -> Result<Option<Unfit>, NoMemory>
    requires indexed { IsIndexed indexed.now }
    requires marked { AreMarked indexed.now.directions.il.now marked.now }
    ensures { IfOk result (λ mark.
        NeedsMarked indexed.now.directions.il.now relation.now mark) }
{
    let found = first_under(&marked.firsts, &indexed.citations.cited, &relation.name);
    let Some(number) = found else {
        return Ok(None);
    };
    let unfit = marked.unfit.as_slice();
    let other = relation_at(unfit, number);
    // Where two relations have one name, as no language does that typing accepts, the other one
    // may be the first, though it does not count.
    if is_namesake(other, relation) {
        let mark = mark_by_walk(alloc, indexed, unfit, relation)?;
        return Ok(mark);
    }
    Ok(Some(Unfit::U4(other.name.copy(alloc)?)))
}
