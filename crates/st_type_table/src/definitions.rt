//! Definitions of syntaxes, found by their names.

ghost use Rattle.std.specs.Prelude.{◌≡◌, ℕ, List, OnOk, IfOk, if◌then◌else◌, Some};
ghost use Rattle.st_num.specs.Names.{same_name};
ghost use Rattle.st_type_table.specs.inner.Index.{number_of, adding, IsIndex};

use indexmap::IndexMap;
use st_il::SyntaxDef;
use st_num::{Name, NoMemory};
use std::alloc::Global;
use std::marker::Model;

/// The number under the name, where there is one.
fn number_of(index: &IndexMap<&Name, usize>, name: &Name) -> Option<usize>
    ensures { result ≡ number_of index.now.entries name.now }
{
    index.get(&name).copied()
}

/// Puts a number under a name.
fn put<'a>(
    index: &mut IndexMap<&'a Name, usize>,
    name: &'a Name,
    number: usize,
) -> Result<(), NoMemory>
    ensures { OnOk result ((q : List ℕ) → number_of index.new.entries q
        ≡ (if same_name q name.now then Some number else number_of index.old.entries q)) }
{
    index.insert(name, number)?;
    Ok(())
}

/// Puts a number under a name, where none stands there.
fn add<'a>(
    index: &mut IndexMap<&'a Name, usize>,
    name: &'a Name,
    number: usize,
) -> Result<(), NoMemory>
    ensures { OnOk result ((q : List ℕ) → number_of index.new.entries q
        ≡ adding (number_of index.old.entries q) (same_name q name.now) number) }
{
    match number_of(index, name) {
        Some(_) => Ok(()),
        None => {
            put(index, name, number)?;
            Ok(())
        }
    }
}

/// The numbers of definitions under their names: of two with one name that of the first.
fn index_of<'a>(alloc: Global, defs: &'a [SyntaxDef]) -> Result<IndexMap<&'a Name, usize>, NoMemory>
    ensures { IfOk result (λ index. IsIndex defs.now index.entries) }
{
    let mut index = IndexMap::new(alloc);
    for k in 0..defs.len() {
        add(&mut index, &defs[k].name, k)?;
    }
    Ok(index)
}

/// Definitions with an index of their names. Contracts see the definitions alone.
#[derive(Drop)]
pub(crate) struct Definitions<'a> {
    all: &'a [SyntaxDef],
    index: IndexMap<&'a Name, usize>,
}

impl<'a> Model for Definitions<'a> {
    ghost use Rattle.std.specs.Prelude.{List};
    ghost use Rattle.std.specs.Coded.{codes};
    ghost use Rattle.st_il.specs.declared.definition.SyntaxDef.{SyntaxDef};
    ghost use Rattle.st_il.specs.contracts.ty.Ty as ty;
    ghost use Rattle.st_type_table.specs.inner.Index.{IsIndex};

    ghost Value = { List SyntaxDef };

    ghost coded = { Prim.hlevel (codes, ty.the_row.coded) };

    ghost view = { λ d. d.all.now };

    ghost invariant = { λ d. IsIndex d.all.now d.index.entries };
}

impl<'a> Definitions<'a> {
    ghost use Rattle.std.specs.Prelude.{◌≡◌, ◌<◌, IfOk, Some, length, slice_get, take};
    ghost use Rattle.st_type_table.specs.inner.Graph.{position_of};

    /// The definitions, with the index that is made of them.
    pub(crate) fn of(alloc: Global, all: &'a [SyntaxDef]) -> Result<Definitions<'a>, NoMemory>
        ensures { IfOk result (λ defs. defs ≡ all.now) }
    {
        let index = index_of(alloc, all)?;
        Ok(Definitions { all, index })
    }

    pub(crate) fn len(&self) -> usize
        ensures { result ≡ length self.now }
    {
        self.all.len()
    }

    /// The definition of this number.
    pub(crate) fn nth(&self, number: usize) -> &'a SyntaxDef
        requires { number < length self.now }
        ensures { slice_get self.now number ≡ Some result.now }
    {
        let all = self.all;
        &all[number]
    }

    /// The number of the first definition of this name.
    pub(crate) fn position_of(&self, name: &Name) -> Option<usize>
        ensures { result ≡ position_of self.now name.now }
    {
        number_of(&self.index, name)
    }

    /// The number of the first definition of this name, of those before the one of a number.
    pub(crate) fn position_before(&self, number: usize, name: &Name) -> Option<usize>
        ensures { result ≡ position_of (take number self.now) name.now }
    {
        match self.position_of(name) {
            Some(position) => {
                if position < number {
                    return Some(position);
                }
                None
            }
            None => None,
        }
    }
}
