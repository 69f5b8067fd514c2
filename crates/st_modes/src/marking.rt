//! Why relations cannot be searched.

ghost use Rattle.std.specs.Prelude.{◌≡◌, ◌++◌, ◌∷◌, [], List, All, if◌then◌else◌, IfOk, OnOk};
ghost use Rattle.std.specs.List.{AllZip};
ghost use Rattle.st_il.specs.declared.definition.RelationDef.{RelationDef};
ghost use Rattle.st_semantics.specs.Marks.{HasUnfit};
ghost use Rattle.st_order.specs.Modes.{HasFew, AreModes};
ghost use Rattle.st_order.specs.Known.{all_now};
ghost use Rattle.st_modes.specs.inner.Needs.{IsIndexed, AreMarked};
ghost use Rattle.st_modes.specs.inner.Orders.{HasOrderMark};
ghost use Rattle.st_modes.specs.inner.Marking.{IsOwn, HasItsOwn, relations_told, HasTold};

use crate::all_orders::{Ordered, orders_of};
use crate::indexed::{Indexed, index_il};
use crate::needs::{Marked, mark_by_functions, mark_by_relations, marked_of};
use st_il::{Il, RelationDef};
use st_num::{Name, NoMemory, Row};
use st_order::{Modes, relations_of};
use st_semantics::Unfit;
use std::alloc::Global;

/// A relation, and the mark that it has of its own, if it has one.
#[derive(Drop)]
pub(crate) struct Own<'a> {
    relation: &'a RelationDef,
    mark: Option<Unfit>,
}

/// What is told of some relations: the orders of their rules, the marks that they have of their
/// own, and which of them have one.
#[derive(Drop)]
pub(crate) struct Told<'a> {
    orders: Row<Row<Option<Row<u32>>>>,
    own: Row<Own<'a>>,
    unfit: Row<&'a RelationDef>,
}

/// The mark that a relation has of its own, where it has this one by its direction and its rules.
fn own_mark(
    alloc: Global,
    indexed: &Indexed,
    relation: &RelationDef,
    mark: Option<Unfit>,
) -> Result<Option<Unfit>, NoMemory>
    requires indexed { IsIndexed indexed.now }
    requires mark { HasOrderMark indexed.now.directions.il.now relation.now mark }
    ensures { IfOk result (IsOwn indexed.now.directions.il.now relation.now) }
{
    match mark {
        Some(mark) => Ok(Some(mark)),
        None => {
            let mark = mark_by_functions(alloc, indexed, relation)?;
            Ok(mark)
        }
    }
}

/// Adds a relation that has a mark of its own.
fn push_unfit<'a>(
    is_unfit: bool,
    relation: &'a RelationDef,
    unfit: &mut Row<&'a RelationDef>,
) -> Result<(), NoMemory>
    ensures { OnOk result (all_now unfit.new
        ≡ all_now unfit.old ++ (if is_unfit then relation.now ∷ [] else [])) }
{
    if is_unfit {
        unfit.push(relation)?;
    }
    Ok(())
}

/// Tells the orders and the own mark of a relation.
fn tell<'a>(
    alloc: Global,
    indexed: &Indexed,
    relation: &'a RelationDef,
    told: &mut Told<'a>,
) -> Result<(), NoMemory>
    requires { IsIndexed indexed.now }
    ensures { OnOk result ((rs : List RelationDef)
        → HasTold indexed.now.directions.il.now rs told.old
        → HasTold indexed.now.directions.il.now (rs ++ relation.now ∷ []) told.new) }
{
    let found = orders_of(alloc, indexed, relation)?;
    let Ordered { orders, mark } = found;
    let mark = own_mark(alloc, indexed, relation, mark)?;
    push_unfit(mark.is_some(), relation, &mut told.unfit)?;
    told.orders.push(orders)?;
    told.own.push(Own { relation, mark })?;
    Ok(())
}

/// Tells the orders and the own marks of relations.
fn tell_all<'a>(
    alloc: Global,
    indexed: &Indexed,
    relations: &[&'a RelationDef],
) -> Result<Told<'a>, NoMemory>
    requires { IsIndexed indexed.now }
    ensures { IfOk result (HasTold indexed.now.directions.il.now (all_now relations.now)) }
{
    let mut told = Told {
        orders: Row::new(alloc),
        own: Row::new(alloc),
        unfit: Row::new(alloc),
    };
    for relation in relations {
        tell(alloc, indexed, *relation, &mut told)?;
    }
    Ok(told)
}

/// A name that may be there.
fn copy_name(alloc: Global, name: &Option<Name>) -> Result<Option<Name>, NoMemory>
    ensures { IfOk result (λ copied. copied ≡ name.now) }
{
    match name {
        Some(name) => Ok(Some(name.copy(alloc)?)),
        None => Ok(None),
    }
}

/// The same mark.
fn copy_mark(alloc: Global, mark: &Unfit) -> Result<Unfit, NoMemory>
    ensures { IfOk result (λ copied. copied ≡ mark.now) }
{
    match mark {
        Unfit::U1 => Ok(Unfit::U1),
        Unfit::U2 {
            rule,
            premise,
            variable,
        } => {
            let rule = rule.copy(alloc)?;
            let variable = copy_name(alloc, variable)?;
            let premise = *premise;
            Ok(Unfit::U2 {
                rule,
                premise,
                variable,
            })
        }
        Unfit::U3(fun) => Ok(Unfit::U3(fun.copy(alloc)?)),
        Unfit::U4(relation) => Ok(Unfit::U4(relation.copy(alloc)?)),
    }
}

/// The mark of a relation: its own, or else that by another one which it needs.
fn mark_of(
    alloc: Global,
    indexed: &Indexed,
    marked: &Marked,
    own: &Own,
) -> Result<Option<Unfit>, NoMemory>
    requires indexed { IsIndexed indexed.now }
    requires marked { AreMarked indexed.now.directions.il.now marked.now }
    requires own { HasItsOwn indexed.now.directions.il.now own.now }
    ensures { IfOk result (HasUnfit indexed.now.directions.il.now own.now.relation.now) }
{
    match &own.mark {
        Some(mark) => Ok(Some(copy_mark(alloc, mark)?)),
        None => {
            let mark = mark_by_relations(alloc, indexed, marked, own.relation)?;
            Ok(mark)
        }
    }
}

/// The marks of relations.
fn marks_of(
    alloc: Global,
    indexed: &Indexed,
    marked: &Marked,
    owns: &[Own],
) -> Result<Row<Option<Unfit>>, NoMemory>
    requires indexed { IsIndexed indexed.now }
    requires marked { AreMarked indexed.now.directions.il.now marked.now }
    requires own { All (HasItsOwn indexed.now.directions.il.now) owns.now }
    ensures { IfOk result (AllZip (HasUnfit indexed.now.directions.il.now)
        (relations_told owns.now)) }
{
    let mut marks = Row::new(alloc);
    for own in owns {
        marks.push(mark_of(alloc, indexed, marked, own)?)?;
    }
    Ok(marks)
}

/// The marks of all relations, and the orders of their rules.
pub(crate) fn relation_marks(alloc: Global, il: &Il) -> Result<Modes, NoMemory>
    requires { HasFew il.now }
    ensures { IfOk result (AreModes il.now) }
{
    let indexed = index_il(alloc, il)?;
    let relations = relations_of(alloc, il)?;
    let told = tell_all(alloc, &indexed, relations.as_slice())?;
    let Told { orders, own, unfit } = told;
    let marked = marked_of(alloc, &indexed, unfit)?;
    let marks = marks_of(alloc, &indexed, &marked, own.as_slice())?;
    Ok(Modes { marks, orders })
}
