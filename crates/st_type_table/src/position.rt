//! Names by the numbers of their definitions, and the names that a body leads to.

ghost use Rattle.std.specs.Prelude.{◌≡◌, ◌++◌, map, OnOk, IfOk};
ghost use Rattle.std.specs.List.{flat_map};
ghost use Rattle.st_type_table.specs.Leads.{names_in, joined, included, leads_to};
ghost use Rattle.st_type_table.specs.inner.Graph.{positions_of, graph_of};

use crate::definitions::Definitions;
use st_il::{Alternative, SyntaxBody, Ty};
use st_num::{Name, NoMemory, Row};
use std::alloc::Global;

/// Appends the names in a type, in order.
#[cycle(names)]
pub(crate) fn push_names(alloc: Global, ty: &Ty, out: &mut Row<Name>) -> Result<(), NoMemory>
    ensures { OnOk result (out.new ≡ out.old ++ names_in ty.now) }
{
    match ty {
        Ty::Bool | Ty::Nat | Ty::Int | Ty::Text => Ok(()),
        Ty::Name(name) => {
            let name = name.copy(alloc)?;
            out.push(name)
        }
        Ty::List(inner) => push_names(alloc, inner.get(), out),
        Ty::Opt(inner) => push_names(alloc, inner.get(), out),
        Ty::Tuple(parts) => push_all_names(alloc, parts.as_slice(), out),
    }
}

/// Appends the names in types, in order.
#[cycle(names)]
pub(crate) fn push_all_names(alloc: Global, tys: &[Ty], out: &mut Row<Name>) -> Result<(), NoMemory>
    ensures { OnOk result (out.new ≡ out.old ++ joined (map names_in tys.now)) }
{
    for ty in tys {
        push_names(alloc, ty, out)?;
    }
    Ok(())
}

/// The names that alternatives include.
fn included_names(alloc: Global, alternatives: &[Alternative]) -> Result<Row<Name>, NoMemory>
    ensures { IfOk result (λ names. names ≡ flat_map included alternatives.now) }
{
    let mut names = Row::new(alloc);
    for alternative in alternatives {
        match alternative {
            Alternative::Case(_, _) => {}
            Alternative::Incl(name) => {
                let name = name.copy(alloc)?;
                names.push(name)?;
            }
        }
    }
    Ok(names)
}

/// The names that a body leads to: those in an alias, and those that a variant includes.
fn lead_names(alloc: Global, body: &SyntaxBody) -> Result<Row<Name>, NoMemory>
    ensures { IfOk result (λ names. names ≡ leads_to body.now) }
{
    match body {
        SyntaxBody::Alias(ty) => {
            let mut names = Row::new(alloc);
            push_names(alloc, ty, &mut names)?;
            Ok(names)
        }
        SyntaxBody::Variant(alternatives) => included_names(alloc, alternatives.as_slice()),
        SyntaxBody::Fields(_) => Ok(Row::new(alloc)),
    }
}

/// The numbers of the definitions of those names that are declared.
fn positions_of(alloc: Global, defs: &Definitions, names: &[Name]) -> Result<Row<usize>, NoMemory>
    ensures { IfOk result (λ positions. positions ≡ positions_of defs.now names.now) }
{
    let mut positions = Row::new(alloc);
    for name in names {
        if let Some(position) = defs.position_of(name) {
            positions.push(position)?;
        }
    }
    Ok(positions)
}

/// For each definition the numbers of those that it leads to.
pub(crate) fn leads_graph(
    alloc: Global,
    defs: &Definitions,
) -> Result<Row<Option<Row<usize>>>, NoMemory>
    ensures { IfOk result (λ graph. graph ≡ graph_of defs.now) }
{
    let mut graph = Row::new(alloc);
    for number in 0..defs.len() {
        let names = lead_names(alloc, &defs.nth(number).body)?;
        let positions = positions_of(alloc, defs, names.as_slice())?;
        graph.push(Some(positions))?;
    }
    Ok(graph)
}
