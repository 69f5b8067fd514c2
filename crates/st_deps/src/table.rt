//! The names that are declared, and what each cites, by their numbers.

ghost use Rattle.std.specs.Prelude.{◌≡◌, ◌++◌, [], length, replicate, option_to_list, IfOk, OnOk};
ghost use Rattle.st_deps.specs.Definitions.{with_name, names_declared, declared_by, declared};
ghost use Rattle.st_deps.specs.Table.{IsTable};
ghost use Rattle.st_deps.specs.inner.Table.{number_in, numbers_of, with_citations, all_citations};

use crate::definition::{declared_by, names_in, owner};
use indexmap::IndexSet;
use st_il::{Il, IlDef};
use st_num::{Name, NoMemory, Row, copy_names};
use std::alloc::Global;

/// Adds the name that a definition declares, unless it is there.
fn add_declared(
    alloc: Global,
    definition: &IlDef,
    names: &mut IndexSet<Name>,
) -> Result<(), NoMemory>
    ensures { OnOk result (names.new.keys ≡ with_name names.old.keys (declared_by definition.now)) }
{
    if let Some(name) = declared_by(alloc, definition)? {
        names.insert(name)?;
    }
    Ok(())
}

/// The names that are declared, each once, in the order of their declarations.
fn names_declared(alloc: Global, defs: &[IlDef]) -> Result<IndexSet<Name>, NoMemory>
    ensures { IfOk result (λ names. names.keys ≡ names_declared [] defs.now) }
{
    let mut names = IndexSet::new(alloc);
    for definition in defs {
        add_declared(alloc, definition, &mut names)?;
    }
    Ok(names)
}

/// The number of a name, where it is declared.
fn number_of(names: &IndexSet<Name>, name: &Name) -> Option<usize>
    ensures { result ≡ number_in names.now.keys name.now }
{
    names.get_index_of(name)
}

/// Adds the number of a name, where it is declared.
fn add_number(names: &IndexSet<Name>, name: &Name, row: &mut Row<usize>) -> Result<(), NoMemory>
    ensures { OnOk result
        (row.new ≡ row.old ++ option_to_list (number_in names.now.keys name.now)) }
{
    if let Some(number) = number_of(names, name) {
        row.push(number)?;
    }
    Ok(())
}

/// Adds the numbers of those names that are declared.
fn add_numbers(names: &IndexSet<Name>, cited: &[Name], row: &mut Row<usize>) -> Result<(), NoMemory>
    ensures { OnOk result (row.new ≡ row.old ++ numbers_of names.now.keys cited.now) }
{
    for name in cited {
        add_number(names, name, row)?;
    }
    Ok(())
}

/// Adds what a definition cites to the row of the name that it belongs to.
fn add_citations(
    alloc: Global,
    names: &IndexSet<Name>,
    definition: &IlDef,
    graph: &mut [Row<usize>],
) -> Result<(), NoMemory>
    requires { length graph.old ≡ length names.now.keys }
    ensures { OnOk result (graph.new ≡ with_citations names.now.keys graph.old definition.now) }
{
    let Some(name) = owner(alloc, definition)? else {
        return Ok(());
    };
    let Some(number) = number_of(names, &name) else {
        return Ok(());
    };
    let cited = names_in(alloc, definition)?;
    add_numbers(names, cited.as_slice(), &mut graph[number])
}

/// So many rows, of which each is empty.
pub(crate) fn empty_rows<T: Drop>(alloc: Global, len: usize) -> Result<Vec<Row<T>>, NoMemory>
    ensures { IfOk result (λ rows. rows.items ≡ replicate len []) }
{
    let mut rows = Vec::new(alloc);
    'rows: while rows.len() < len {
        rows.push(Row::new(alloc))?;
    }
    Ok(rows)
}

/// For each name the numbers of those that it cites.
fn all_citations(
    alloc: Global,
    names: &IndexSet<Name>,
    defs: &[IlDef],
) -> Result<Vec<Row<usize>>, NoMemory>
    ensures { IfOk result (λ graph. graph.items
        ≡ all_citations names.now.keys (replicate (length names.now.keys) []) defs.now) }
{
    let mut graph = empty_rows(alloc, names.len())?;
    for definition in defs {
        add_citations(alloc, names, definition, &mut graph)?;
    }
    Ok(graph)
}

/// The names that are declared, and for each the numbers of those that it cites.
#[derive(Drop)]
pub struct CitationTable {
    pub names: Row<Name>,
    pub rows: Row<Row<usize>>,
}

/// What the definitions of an internal language cite.
pub fn citations(alloc: Global, il: &Il) -> Result<CitationTable, NoMemory>
    ensures names { IfOk result (λ table. table.names ≡ declared il.now) }
    ensures rows { IfOk result (λ table. IsTable il.now table.rows) }
{
    let names = names_declared(alloc, il.defs.as_slice())?;
    let rows = all_citations(alloc, &names, il.defs.as_slice())?;
    let names = copy_names(alloc, names.as_slice())?;
    let rows = Row::from_vec(rows);
    Ok(CitationTable { names, rows })
}
