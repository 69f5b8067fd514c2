//! Definitions of one kind, in order, in which a name is found without a look at each of them.

ghost use Rattle.std.specs.Prelude.{◌≡◌, ℕ, List, bytes_eq, position, IfOk, OnOk};
ghost use Rattle.st_index.specs.Names.{all_now, at};
ghost use Rattle.st_index.specs.inner.Listings.{adding, AreNumbers};

use crate::named::Named;
use crate::names::{at, put};
use indexmap::IndexMap;
use st_num::{Name, NoMemory, Row};
use std::alloc::Global;
use std::marker::Model;

/// Puts a number under a name where none stands there.
fn add_first<'a>(
    numbers: &mut IndexMap<&'a Name, usize>,
    name: &'a Name,
    number: usize,
) -> Result<(), NoMemory>
    ensures { OnOk result ((q : List ℕ) → at numbers.new.entries q
        ≡ adding (at numbers.old.entries q) (bytes_eq q name.now) number) }
{
    match at(numbers, name) {
        Some(_) => Ok(()),
        None => {
            put(numbers, name, number)?;
            Ok(())
        }
    }
}

/// The numbers of definitions under their names: of several with one name that of the first.
fn numbers_of<'a, T: Named>(
    alloc: Global,
    all: &[&'a T],
) -> Result<IndexMap<&'a Name, usize>, NoMemory>
    ensures { IfOk result (λ numbers. AreNumbers T.name (all_now all.now) numbers.entries) }
{
    let mut numbers = IndexMap::new(alloc);
    for k in 0..all.len() {
        let one = all[k];
        add_first(&mut numbers, one.name(), k)?;
    }
    Ok(numbers)
}

/// Definitions of one kind, in order, with the numbers of their names. Contracts see the
/// definitions alone.
#[derive(Drop)]
pub(crate) struct Listing<'a, T: Named> {
    all: Row<&'a T>,
    numbers: IndexMap<&'a Name, usize>,
}

impl<'a, T: Named> Model for Listing<'a, T> {
    ghost use Rattle.std.specs.Prelude.{List};
    ghost use Rattle.std.specs.Coded.{coded_list};
    ghost use Rattle.st_index.specs.Names.{all_now};
    ghost use Rattle.st_index.specs.inner.Listings.{AreNumbers};

    ghost Value = { List T };

    ghost coded = { coded_list T.code };

    ghost view = { λ listing. all_now listing.all };

    ghost invariant = { λ listing.
        AreNumbers T.name (all_now listing.all) listing.numbers.entries };
}

impl<'a, T: Named> Listing<'a, T> {
    ghost use Rattle.std.specs.Prelude.{find};
    ghost use Rattle.std.specs.Option.{option_copied};

    /// These definitions, in their order. Several may have one name.
    pub(crate) fn of(alloc: Global, all: Row<&'a T>) -> Result<Listing<'a, T>, NoMemory>
        ensures { IfOk result (λ listing. listing ≡ all_now all.entry) }
    {
        let numbers = numbers_of(alloc, all.as_slice())?;
        Ok(Listing { all, numbers })
    }

    /// All of them, in order.
    pub(crate) fn as_slice(&self) -> &[&'a T]
        ensures { all_now result.now ≡ self.now }
    {
        self.all.as_slice()
    }

    /// The number of the first of this name.
    pub(crate) fn number_of(&self, name: &Name) -> Option<usize>
        ensures { result ≡ position (λ one. bytes_eq name.now (T.name one)) self.now }
    {
        at(&self.numbers, name).copied()
    }

    /// The first of this name.
    pub(crate) fn first(&self, name: &Name) -> Option<&'a T>
        ensures { option_copied result ≡ find (λ one. bytes_eq name.now (T.name one)) self.now }
    {
        match self.number_of(name) {
            Some(number) => self.all.get(number).copied(),
            None => None,
        }
    }
}
