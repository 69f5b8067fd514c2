//! Premises are taken one after another, each as soon as it can be run.

ghost use Rattle.std.specs.Prelude.{◌≡◌, ◌++◌, ◌<◌, ◌^◌, [], ◌∷◌, length, IfOk, OnOk};
ghost use Rattle.std.specs.List.{enumerate_from};
ghost use Rattle.std.specs.Option.{option_map};
ghost use Rattle.st_semantics.specs.Variables.{prem_vars};
ghost use Rattle.st_semantics.specs.OrderOf.{but_for, next_in, select};
ghost use Rattle.st_order.specs.inner.Index.{names_in, SameNames};
ghost use Rattle.st_order.specs.Known.{AreDirections};
ghost use Rattle.st_order.specs.inner.Classes.{is_kind};
ghost use Rattle.st_order.specs.inner.Selections.{numbered, all_numbered, first_of, Takes, LeadsTo, IsSelection};

use crate::class::{Class, class_of};
use crate::index::{add_all, set_of};
use crate::masks::Directions;
use crate::variables::push_prem_vars;
use indexmap::IndexSet;
use st_il::IlPrem;
use st_num::{Name, NoMemory, Row};
use std::alloc::Global;

/// A premise with its number, counted from 1.
#[derive(Clone, Copy)]
pub(crate) struct Numbered<'a> {
    pub(crate) number: u32,
    pub(crate) premise: &'a IlPrem,
}

/// The numbers of the premises that were taken, in order; those that are left; and what is bound.
#[derive(Drop)]
pub(crate) struct Selection<'a> {
    pub(crate) order: Row<u32>,
    pub(crate) left: Row<Numbered<'a>>,
    pub(crate) bound: IndexSet<&'a Name>,
}

/// Whether the class is this one.
fn is_kind(wanted: Class, class: Option<Class>) -> bool
    ensures { result ≡ is_kind wanted class }
{
    match (wanted, class) {
        (Class::Test, Some(Class::Test)) => true,
        (Class::Equation, Some(Class::Equation)) => true,
        (Class::Goal, Some(Class::Goal)) => true,
        _ => false,
    }
}

/// The premises with their numbers.
fn number_premises(alloc: Global, premises: &[IlPrem]) -> Result<Row<Numbered>, NoMemory>
    requires { length premises.now < 2 ^ 32 }
    ensures { IfOk result (λ row. all_numbered row ≡ enumerate_from 1 premises.now) }
{
    let mut row = Row::new(alloc);
    for i in 0..premises.len() {
        let number = (i + 1) as u32;
        let premise = &premises[i];
        row.push(Numbered { number, premise })?;
    }
    Ok(row)
}

/// The first of these premises that can be run in this class.
fn first_of<'a>(
    alloc: Global,
    directions: &Directions,
    bound: &IndexSet<&'a Name>,
    left: &[Numbered<'a>],
    wanted: Class,
) -> Result<Option<Numbered<'a>>, NoMemory>
    requires { AreDirections directions.now }
    ensures { IfOk result (λ first. option_map numbered first
        ≡ first_of directions.now.il.now (names_in bound.now.keys) wanted (all_numbered left.now)) }
{
    for p in left {
        let class = class_of(alloc, directions, bound, p.premise)?;
        if is_kind(wanted, class) {
            return Ok(Some(*p));
        }
    }
    Ok(None)
}

/// The first test that can be run, else the first equation, else the first goal.
fn next_in<'a>(
    alloc: Global,
    directions: &Directions,
    bound: &IndexSet<&'a Name>,
    left: &[Numbered<'a>],
) -> Result<Option<Numbered<'a>>, NoMemory>
    requires { AreDirections directions.now }
    ensures { IfOk result (λ next. option_map numbered next
        ≡ next_in directions.now.il.now (names_in bound.now.keys) (all_numbered left.now)) }
{
    let test = first_of(alloc, directions, bound, left, Class::Test)?;
    if let Some(test) = test {
        return Ok(Some(test));
    }
    let equation = first_of(alloc, directions, bound, left, Class::Equation)?;
    if let Some(equation) = equation {
        return Ok(Some(equation));
    }
    let goal = first_of(alloc, directions, bound, left, Class::Goal)?;
    Ok(goal)
}

/// The premises but for the one of this number.
fn but_for<'a>(
    alloc: Global,
    number: u32,
    left: &[Numbered<'a>],
) -> Result<Row<Numbered<'a>>, NoMemory>
    ensures { IfOk result (λ row. all_numbered row ≡ but_for number (all_numbered left.now)) }
{
    let mut row = Row::new(alloc);
    for p in left {
        push_if_other(number, *p, &mut row)?;
    }
    Ok(row)
}

/// Adds a premise if it has another number.
fn push_if_other<'a>(
    number: u32,
    p: Numbered<'a>,
    row: &mut Row<Numbered<'a>>,
) -> Result<(), NoMemory>
    ensures { OnOk result (all_numbered row.new
        ≡ all_numbered row.old ++ but_for number (numbered p.entry ∷ [])) }
{
    if p.number != number {
        row.push(p)?;
    }
    Ok(())
}

/// Adds the variables of a premise to those that are bound.
pub fn add_variables<'a>(
    alloc: Global,
    premise: &'a IlPrem,
    bound: &mut IndexSet<&'a Name>,
) -> Result<(), NoMemory>
    ensures { OnOk result
        (SameNames (names_in bound.new.keys) (names_in bound.old.keys ++ prem_vars premise.now)) }
{
    let mut names = Row::new(alloc);
    push_prem_vars(alloc, premise, &mut names)?;
    add_all(bound, names.as_slice())?;
    Ok(())
}

/// Takes a premise.
fn take<'a>(
    alloc: Global,
    next: Numbered<'a>,
    selection: &mut Selection<'a>,
) -> Result<(), NoMemory>
    ensures { OnOk result (Takes selection.old (numbered next.entry) selection.new) }
{
    let left = but_for(alloc, next.number, selection.left.as_slice())?;
    let mut names = Row::new(alloc);
    push_prem_vars(alloc, next.premise, &mut names)?;
    add_all(&mut selection.bound, names.as_slice())?;
    selection.order.push(next.number)?;
    let _old = std::mem::replace(&mut selection.left, left);
    Ok(())
}

/// Takes the next premise, if there is one.
fn take_next<'a>(
    alloc: Global,
    directions: &Directions,
    selection: &mut Selection<'a>,
) -> Result<bool, NoMemory>
    requires { AreDirections directions.now }
    ensures { IfOk result (λ taken.
        LeadsTo directions.now.il.now selection.old selection.new taken) }
{
    let next = next_in(
        alloc,
        directions,
        &selection.bound,
        selection.left.as_slice(),
    )?;
    match next {
        Some(next) => {
            take(alloc, next, selection)?;
            Ok(true)
        }
        None => Ok(false),
    }
}

/// Takes premises of a rule again and again, where these names are bound at first.
pub(crate) fn select<'a>(
    alloc: Global,
    directions: &Directions,
    premises: &'a [IlPrem],
    names: &[&'a Name],
) -> Result<Selection<'a>, NoMemory>
    requires directions { AreDirections directions.now }
    requires few { length premises.now < 2 ^ 32 }
    ensures { IfOk result (λ selection. IsSelection selection
        (select directions.now.il.now (length premises.now) (names_in names.now)
        (enumerate_from 1 premises.now))) }
{
    let order = Row::new(alloc);
    let left = number_premises(alloc, premises)?;
    let bound = set_of(alloc, names)?;
    let mut selection = Selection { order, left, bound };
    for _step in 0..premises.len() {
        let taken = take_next(alloc, directions, &mut selection)?;
        if !taken {
            return Ok(selection);
        }
    }
    Ok(selection)
}
