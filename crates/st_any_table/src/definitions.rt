//! Definitions of syntaxes, found by their names.

ghost use Rattle.std.specs.Prelude.{◌≡◌, ℕ, List, OnOk, IfOk};
ghost use Rattle.st_num.specs.Names.{same_name};
ghost use Rattle.st_type_table.specs.inner.Index.{adding};
ghost use Rattle.st_type_table.specs.inner.Forms.{number_of};
ghost use Rattle.st_type_table.specs.inner.Numbering.{IsGiven};
ghost use Rattle.st_any_table.specs.inner.Index.{IsIndex};

use indexmap::IndexMap;
use st_il::SyntaxDef;
use st_num::{Name, NoMemory, Row};
use std::alloc::Global;
use std::marker::Model;

/// The numbers of definitions, by their names.
type Index = IndexMap<Name, usize>;

/// The number under the name, where there is one.
fn number_of(index: &Index, name: &Name) -> Option<usize>
    ensures { result ≡ number_of index.now.entries name.now }
{
    index.get(name).copied()
}

/// Puts a number under a name.
fn put(index: &mut Index, name: Name, number: usize) -> Result<(), NoMemory>
    ensures { OnOk result (IsGiven index.old.entries index.new.entries name number) }
{
    match index.insert(name, number) {
        Ok(_) => Ok(()),
        Err(_) => Err(NoMemory),
    }
}

/// Puts a number under a name, where none stands there.
fn add(alloc: Global, index: &mut Index, name: &Name, number: usize) -> Result<(), NoMemory>
    ensures { OnOk result ((q : List ℕ) → number_of index.new.entries q
        ≡ adding (number_of index.old.entries q) (same_name q name.now) number) }
{
    match number_of(index, name) {
        Some(_) => Ok(()),
        None => {
            let name = name.copy(alloc)?;
            put(index, name, number)?;
            Ok(())
        }
    }
}

/// The numbers of definitions under their names: of two with one name that of the first.
fn index_of(alloc: Global, defs: &[SyntaxDef]) -> Result<Index, NoMemory>
    ensures { IfOk result (λ index. IsIndex defs.now index.entries) }
{
    let mut index = IndexMap::new(alloc);
    for k in 0..defs.len() {
        add(alloc, &mut index, &defs[k].name, k)?;
    }
    Ok(index)
}

/// Definitions with an index of their names. Contracts see the definitions alone.
#[derive(Drop)]
pub(crate) struct Definitions {
    all: Row<SyntaxDef>,
    index: Index,
}

impl Model for Definitions {
    ghost use Rattle.std.specs.Prelude.{List};
    ghost use Rattle.std.specs.Coded.{codes};
    ghost use Rattle.st_il.specs.declared.definition.SyntaxDef.{SyntaxDef};
    ghost use Rattle.st_il.specs.contracts.ty.Ty as ty;
    ghost use Rattle.st_any_table.specs.inner.Index.{IsIndex};

    ghost Value = { List SyntaxDef };

    ghost coded = { Prim.hlevel (codes, ty.the_row.coded) };

    ghost view = { λ d. d.all };

    ghost invariant = { λ d. IsIndex d.all d.index.entries };
}

impl Definitions {
    ghost use Rattle.std.specs.Prelude.{◌≡◌, ◌<◌, IfOk, Some, length, slice_get};
    ghost use Rattle.st_type_table.specs.inner.Graph.{position_of};

    /// The definitions, with the index that is made of them.
    pub(crate) fn of(alloc: Global, all: Row<SyntaxDef>) -> Result<Definitions, NoMemory>
        ensures { IfOk result (λ defs. defs ≡ all) }
    {
        let index = index_of(alloc, all.as_slice())?;
        Ok(Definitions { all, index })
    }

    pub(crate) fn len(&self) -> usize
        ensures { result ≡ length self.now }
    {
        self.all.len()
    }

    /// The definition of this number.
    pub(crate) fn nth(&self, number: usize) -> &SyntaxDef
        requires { number < length self.now }
        ensures { slice_get self.now number ≡ Some result.now }
    {
        let all = self.all.as_slice();
        &all[number]
    }

    /// The number of the first definition of this name.
    pub(crate) fn position_of(&self, name: &Name) -> Option<usize>
        ensures { result ≡ position_of self.now name.now }
    {
        number_of(&self.index, name)
    }
}
