//! Which record types can be joined.

ghost use Rattle.std.specs.Prelude.{◌≡◌, ◌↔◌, ◌++◌, ◌<◌, IsTrue, IfOk, OnOk, length};
ghost use Rattle.st_type_table.specs.Joins.{Joins};
ghost use Rattle.st_type_table.specs.inner.JoinGraph.{position_or_never, waits_in, field_waits, waits_of, join_graph};
ghost use Rattle.st_type_table.specs.inner.Graph.{position_of, AreRanks};
ghost use Rattle.st_any_table.specs.inner.Heads.{head_graph, IsJoining, JoinsHere};

use crate::definitions::Definitions;
use crate::heads::{head_of, meaning_of};
use crate::ranks::{Node, is_ranked};
use st_il::{SyntaxBody, Ty};
use st_num::{Name, NoMemory, Row};
use std::alloc::Global;

/// The number of the first definition of this name, or the number behind all definitions: nothing
/// is there, and so what waits for it waits for ever.
fn position_or_never(defs: &Definitions, name: &Name) -> usize
    ensures { result ≡ position_or_never defs.now (position_of defs.now name.now) }
{
    match defs.position_of(name) {
        Some(position) => position,
        None => defs.len(),
    }
}

/// Appends what a field of this type waits for before it can be joined.
fn push_waits(defs: &Definitions, ty: &Ty, out: &mut Row<usize>) -> Result<(), NoMemory>
    ensures { OnOk result (out.new ≡ out.old ++ waits_in defs.now ty.now) }
{
    match ty {
        Ty::List(_) | Ty::Opt(_) => Ok(()),
        Ty::Name(name) => out.push(position_or_never(defs, name)),
        Ty::Bool | Ty::Nat | Ty::Int | Ty::Text | Ty::Tuple(_) => out.push(defs.len()),
    }
}

/// The definitions that a record of these fields waits for.
fn field_waits(
    alloc: Global,
    defs: &Definitions,
    fields: &[(Name, Ty)],
) -> Result<Row<usize>, NoMemory>
    ensures { IfOk result (λ positions. positions ≡ field_waits defs.now fields.now) }
{
    let mut positions = Row::new(alloc);
    for field in fields {
        push_waits(defs, &field.1, &mut positions)?;
    }
    Ok(positions)
}

/// What a syntax of this body waits for before it can be joined as a field.
fn waits_of(alloc: Global, defs: &Definitions, body: &SyntaxBody) -> Result<Row<usize>, NoMemory>
    ensures { IfOk result (λ positions. positions ≡ waits_of defs.now body.now) }
{
    match body {
        SyntaxBody::Alias(ty) => {
            let mut positions = Row::new(alloc);
            push_waits(defs, ty, &mut positions)?;
            Ok(positions)
        }
        SyntaxBody::Variant(_) => {
            let mut positions = Row::new(alloc);
            positions.push(defs.len())?;
            Ok(positions)
        }
        SyntaxBody::Fields(fields) => field_waits(alloc, defs, fields.as_slice()),
    }
}

/// For each definition the numbers of those that it waits for before it can be joined as a field.
pub(crate) fn join_graph(alloc: Global, defs: &Definitions) -> Result<Row<Node>, NoMemory>
    ensures { IfOk result (λ graph. graph ≡ join_graph defs.now) }
{
    let mut graph = Row::new(alloc);
    for number in 0..defs.len() {
        let positions = waits_of(alloc, defs, &defs.nth(number).body)?;
        graph.push(Some(positions))?;
    }
    Ok(graph)
}

/// Whether the definition of this number is a record that can be joined.
fn is_joining(defs: &Definitions, joins: &[usize], position: usize) -> bool
    requires joins { AreRanks (join_graph defs.now) joins.now }
    requires within { position < length defs.now }
    ensures { IsTrue result ↔ IsJoining defs.now position }
{
    match &defs.nth(position).body {
        SyntaxBody::Fields(_) => is_ranked(joins, position),
        SyntaxBody::Alias(_) => false,
        SyntaxBody::Variant(_) => false,
    }
}

/// Whether the type is the name of a record that can be joined.
fn joins_here(defs: &Definitions, joins: &[usize], ty: &Ty) -> bool
    requires { AreRanks (join_graph defs.now) joins.now }
    ensures { IsTrue result ↔ JoinsHere defs.now ty.now }
{
    match head_of(defs, ty) {
        Some(position) => is_joining(defs, joins, position),
        None => false,
    }
}

/// Whether the type is a record type that can be joined.
pub(crate) fn joins(defs: &Definitions, heads: &[usize], joins: &[usize], ty: &Ty) -> bool
    requires heads { AreRanks (head_graph defs.now) heads.now }
    requires joins { AreRanks (join_graph defs.now) joins.now }
    ensures { IsTrue result ↔ Joins defs.now ty.now }
{
    match meaning_of(defs, heads, ty) {
        Some(meaning) => joins_here(defs, joins, meaning),
        None => false,
    }
}
