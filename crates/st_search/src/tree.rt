//! The tree of a rule that was run.

ghost use Rattle.std.specs.Prelude.{◌≡◌, length, IfOk};
ghost use Rattle.st_il.specs.declared.value.Env.{Env};
ghost use Rattle.st_il.specs.Names.{Name};
ghost use Rattle.st_semantics.specs.Environments.{IsOrdered, value_in};
ghost use Rattle.st_search.specs.inner.Trees.{merged, placed, arranged};

use crate::found::{Partial, joined};
use st_il::{Child, Env, RuleDef, Tree, Value, copy_children, copy_env, copy_value};
use st_match::extensions;
use st_num::{NoMemory, Row};
use st_types::TypeTable;
use std::alloc::Global;

/// At each hole the next input, or the next output.
pub(crate) fn merged(
    alloc: Global,
    holes: &[bool],
    ins: &[Value],
    outs: &[Value],
) -> Result<Row<Value>, NoMemory>
    ensures { IfOk result (λ values. values ≡ merged holes.now ins.now outs.now) }
{
    let mut values = Row::new(alloc);
    let mut ins = ins;
    let mut outs = outs;
    for input in holes {
        if *input {
            let Some((first, rest)) = ins.split_first() else {
                return Ok(values);
            };
            values.push(copy_value(alloc, first)?)?;
            ins = rest;
        } else {
            let Some((first, rest)) = outs.split_first() else {
                return Ok(values);
            };
            values.push(copy_value(alloc, first)?)?;
            outs = rest;
        }
    }
    Ok(values)
}

/// What stands for the premise of a number.
fn placed(
    alloc: Global,
    number: usize,
    order: &[u32],
    found: &[Row<Child>],
) -> Result<Row<Child>, NoMemory>
    ensures { IfOk result (λ children. children ≡ placed number order.now found.now) }
{
    let mut rest = found;
    for premise in order {
        let Some((children, others)) = rest.split_first() else {
            return Ok(Row::new(alloc));
        };
        if *premise as usize == number {
            let children = copy_children(alloc, children.as_slice())?;
            return Ok(children);
        }
        rest = others;
    }
    Ok(Row::new(alloc))
}

/// What stands for so many premises, in the order in which they are written.
pub(crate) fn arranged(
    alloc: Global,
    order: &[u32],
    found: &[Row<Child>],
    count: usize,
) -> Result<Row<Child>, NoMemory>
    ensures { IfOk result (λ children. children ≡ arranged order.now found.now count) }
{
    let mut children = Row::new(alloc);
    for i in 0..count {
        let more = placed(alloc, i + 1, order, found)?;
        children = joined(children, more)?;
    }
    Ok(children)
}

/// The same environment in byte order, each variable once: the one that extends it by nothing.
fn in_byte_order(alloc: Global, types: &TypeTable, env: &Env) -> Result<Env, NoMemory>
    ensures { IfOk result (λ made. IsOrdered made
        × ((x : Name) → value_in made x ≡ value_in env.now x)) }
{
    let mut found = extensions(alloc, types, &[], &[], &[], env)?;
    match found.pop() {
        Some(made) => Ok(made),
        None => copy_env(alloc, env),
    }
}

/// Where a rule stands, and what it concludes with.
#[derive(Clone, Copy)]
pub(crate) struct Place<'a> {
    /// The number of its relation.
    pub(crate) relation: u32,
    /// Its number among the rules of the relation.
    pub(crate) number: u32,
    pub(crate) rule: &'a RuleDef,
    /// The order in which its premises are run.
    pub(crate) order: &'a [u32],
    /// Which holes of the relation are inputs.
    pub(crate) holes: &'a [bool],
}

/// The tree of a rule that is run to its end, with these values at the inputs and outputs.
pub(crate) fn tree_of(
    alloc: Global,
    types: &TypeTable,
    place: &Place<'_>,
    ins: &[Value],
    outs: &[Value],
    end: &Partial,
) -> Result<Tree, NoMemory>
    ensures { IfOk result (λ tree. (env : Env) × IsOrdered env
        × ((x : Name) → value_in env x ≡ value_in end.now.env x)
        × (tree ≡ record {
          relation = place.now.relation;
          rule = place.now.number;
          env = env;
          values = merged place.now.holes.now ins.now outs.now;
          children = arranged place.now.order.now end.now.children
              (length place.now.rule.now.premises);
        })) }
{
    let env = in_byte_order(alloc, types, &end.env)?;
    let values = merged(alloc, place.holes, ins, outs)?;
    let count = place.rule.premises.len();
    let children = arranged(alloc, place.order, end.children.as_slice(), count)?;
    Ok(Tree {
        relation: place.relation,
        rule: place.number,
        env,
        values,
        children,
    })
}
