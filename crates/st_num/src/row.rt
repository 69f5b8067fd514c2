//! Lists as plain data.

ghost use Rattle.std.specs.Prelude.{◌≡◌, [], ◌∷◌, ◌++◌, ◌<◌, length, slice_get, ◌↔◌, IsTrue, IfOk, MatchOption, OnOk, OnErr, OnSome};
ghost use Rattle.std.specs.Option.{option_copied};

use crate::NoMemory;
use std::alloc::Global;
use std::marker::Model;

/// A `Vec` that contracts see as the list of its elements.
#[derive(Debug, Drop)]
pub struct Row<T> {
    items: Vec<T>,
}

/// A text as its bytes: a name, a tag, a field or a literal.
pub type Name = Row<u8>;

impl<T> Model for Row<T> {
    ghost use Rattle.std.specs.Prelude.{List};
    ghost use Rattle.std.specs.Coded.{coded_list};

    ghost Value = { List T };

    ghost coded = { coded_list T.code };

    ghost view = { λ row. row.items.items };
}

impl<T> Row<T> {
    /// An empty row, which takes no memory.
    pub fn new(alloc: Global) -> Row<T>
        ensures { result ≡ [] }
    {
        Row {
            items: Vec::new(alloc),
        }
    }

    /// The elements of a vector. It takes no memory.
    pub fn from_vec(items: Vec<T>) -> Row<T>
        ensures { result ≡ items.items }
    {
        Row { items }
    }

    /// The vector of the elements. It takes no memory.
    pub fn into_vec(self) -> Vec<T>
        ensures { result.items ≡ self }
    {
        let Row { items } = self;
        items
    }

    pub fn as_slice(&self) -> &[T]
        ensures { result.now ≡ self.now }
    {
        self.items.as_slice()
    }

    pub fn len(&self) -> usize
        ensures { result ≡ length self.now }
    {
        self.items.len()
    }

    pub fn is_empty(&self) -> bool
        ensures { IsTrue result ↔ (self.now ≡ []) }
    {
        self.items.is_empty()
    }

    pub fn get(&self, at: usize) -> Option<&T>
        ensures value { option_copied result ≡ slice_get self.now at }
        ensures within { OnSome result (at < length self.now) }
    {
        self.items.get(at)
    }

    /// Takes the last element off.
    pub fn pop(&mut self) -> Option<T>
        ensures { MatchOption result ((self.old ≡ []) × (self.new ≡ []))
            (λ last. self.old ≡ self.new ++ last ∷ []) }
    {
        self.items.pop()
    }
}

impl<T: Drop> Row<T> {
    /// Adds an element at the end.
    pub fn push(&mut self, item: T) -> Result<(), NoMemory>
        ensures ok { OnOk result (self.new ≡ self.old ++ item ∷ []) }
        ensures err { OnErr result (self.new ≡ self.old) }
    {
        self.items.push(item)?;
        Ok(())
    }
}

impl<T: Copy> Row<T> {
    /// The elements of a slice.
    pub fn from_slice(alloc: Global, items: &[T]) -> Result<Row<T>, NoMemory>
        ensures { IfOk result (λ row. row ≡ items.now) }
    {
        let items = Vec::from_slice(alloc, items)?;
        Ok(Row { items })
    }

    /// A row with the same elements.
    pub fn copy(&self, alloc: Global) -> Result<Row<T>, NoMemory>
        ensures { IfOk result (λ row. row ≡ self.now) }
    {
        Row::from_slice(alloc, self.as_slice())
    }
}

/// Adds copies of names behind those that are there.
pub fn add_names(alloc: Global, names: &[Name], copies: &mut Row<Name>) -> Result<(), NoMemory>
    ensures { OnOk result (copies.new ≡ copies.old ++ names.now) }
{
    for name in names {
        copies.push(name.copy(alloc)?)?;
    }
    Ok(())
}

/// The same names again.
pub fn copy_names(alloc: Global, names: &[Name]) -> Result<Row<Name>, NoMemory>
    ensures { IfOk result (λ copies. copies ≡ names.now) }
{
    let mut copies = Row::new(alloc);
    add_names(alloc, names, &mut copies)?;
    Ok(copies)
}
