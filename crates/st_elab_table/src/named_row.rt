//! Lists of declarations in which a name is found without a look at each of them.

ghost use Rattle.std.specs.Prelude.{◌≡◌, ℕ, List, Some, if◌then◌else◌, find, IfOk, OnOk};
ghost use Rattle.std.specs.Option.{option_copied};
ghost use Rattle.std.specs.Map.{lookup};
ghost use Rattle.st_num.specs.Names.{same_name};
ghost use Rattle.st_elab_table.specs.inner.NameIndex.{IsNameIndex};

use crate::named::Named;
use indexmap::IndexMap;
use st_num::{Name, NoMemory, Row};
use std::alloc::Global;
use std::marker::Model;

/// The number under the name, where there is one.
fn number_of(index: &IndexMap<Name, usize>, name: &Name) -> Option<usize>
    ensures { result ≡ lookup (same_name name.now) index.now.entries }
{
    index.get(name).copied()
}

/// Puts a number under a name.
fn put(index: &mut IndexMap<Name, usize>, name: Name, number: usize) -> Result<(), NoMemory>
    ensures { OnOk result ((q : List ℕ) → lookup (same_name q) index.new.entries
        ≡ (if same_name name q then Some number else lookup (same_name q) index.old.entries)) }
{
    index.insert(name, number)?;
    Ok(())
}

/// The numbers of the items under their names: of several with one name that of the first, since
/// it is put there last.
fn index_of<T: Named>(alloc: Global, items: &[T]) -> Result<IndexMap<Name, usize>, NoMemory>
    ensures { IfOk result (λ index. IsNameIndex T.name items.now items.now index.entries) }
{
    let mut index = IndexMap::new(alloc);
    for i in 0..items.len() {
        let number = items.len() - 1 - i;
        let name = items[number].name().copy(alloc)?;
        put(&mut index, name, number)?;
    }
    Ok(index)
}

/// A list of things that have names, with an index of these. Contracts see the list alone.
#[derive(Drop)]
pub struct NamedRow<T: Named> {
    items: Row<T>,
    index: IndexMap<Name, usize>,
}

impl<T: Named> Model for NamedRow<T> {
    ghost use Rattle.std.specs.Prelude.{List};
    ghost use Rattle.std.specs.Coded.{coded_list};
    ghost use Rattle.st_elab_table.specs.inner.NameIndex.{IsNameIndex};

    ghost Value = { List T };

    ghost coded = { coded_list T.code };

    ghost view = { λ row. row.items };

    ghost invariant = { λ row. IsNameIndex T.name row.items row.items row.index.entries };
}

impl<T: Named> NamedRow<T> {
    /// The items, in their order. Several may have one name.
    pub fn of(alloc: Global, items: Row<T>) -> Result<NamedRow<T>, NoMemory>
        ensures { IfOk result (λ row. row ≡ items) }
    {
        let index = index_of(alloc, items.as_slice())?;
        Ok(NamedRow { items, index })
    }

    pub fn as_slice(&self) -> &[T]
        ensures { result.now ≡ self.now }
    {
        self.items.as_slice()
    }

    /// The first item of this name, in a time that does not grow with their number.
    pub fn first(&self, name: &Name) -> Option<&T>
        ensures { option_copied result ≡ find (λ item. same_name name.now (T.name item)) self.now }
    {
        match number_of(&self.index, name) {
            Some(number) => self.items.get(number),
            None => None,
        }
    }
}
