//! Names, found without a look at each of them.

ghost use Rattle.std.specs.Prelude.{◌≡◌, ℕ, List, true, length, IfOk};
ghost use Rattle.st_num.specs.Names.{is_among};
ghost use Rattle.st_parse_automaton.specs.inner.NameIndexes.{has_key, has_length};

use indexmap::IndexSet;
use st_num::{Name, NoMemory};
use std::alloc::Global;
use std::marker::Model;

/// Names in their order, in which a name is found in a time that does not grow with their number.
/// Only a text that has the length of one of them is looked up, so that the texts that begin a
/// long one cost no more than the names.
#[derive(Drop)]
pub struct NameIndex<'a> {
    names: &'a [Name],
    lengths: IndexSet<usize>,
    distinct: IndexSet<&'a [u8]>,
}

impl<'a> Model for NameIndex<'a> {
    ghost use Rattle.std.specs.Prelude.{ℕ, List};
    ghost use Rattle.st_parse_automaton.specs.inner.NameIndexes.{IsIndex};

    ghost Value = { List (List ℕ) };

    ghost view = { λ index. index.names.now };

    ghost invariant = { λ index.
        IsIndex index.names.now index.lengths.keys index.distinct.keys };
}

/// The lengths of these names, each once.
fn lengths(alloc: Global, names: &[Name]) -> Result<IndexSet<usize>, NoMemory>
    ensures { IfOk result (λ set. (name : List ℕ) → is_among name names.now ≡ true
        → has_length set.keys (length name) ≡ true) }
{
    let mut lengths = IndexSet::new(alloc);
    'names: for name in names {
        lengths.insert(name.len())?;
    }
    Ok(lengths)
}

/// These names, each once.
fn distinct<'a>(alloc: Global, names: &'a [Name]) -> Result<IndexSet<&'a [u8]>, NoMemory>
    ensures { IfOk result (λ set. (name : List ℕ)
        → has_key set.keys name ≡ is_among name names.now) }
{
    let mut distinct = IndexSet::new(alloc);
    'names: for name in names {
        distinct.insert(name.as_slice())?;
    }
    Ok(distinct)
}

impl<'a> NameIndex<'a> {
    /// An index of these names.
    pub fn new(alloc: Global, names: &'a [Name]) -> Result<NameIndex<'a>, NoMemory>
        ensures { IfOk result (λ index. index ≡ names.now) }
    {
        let lengths = lengths(alloc, names)?;
        let distinct = distinct(alloc, names)?;
        Ok(NameIndex {
            names,
            lengths,
            distinct,
        })
    }

    /// Whether the name is one of these.
    #[tactic(auto, using(crate::proofs::NameIndexLemmas::found_by))]
    pub fn contains(&self, name: &[u8]) -> bool
        ensures { result ≡ is_among name.now self.now }
    {
        self.lengths.contains(&name.len()) && self.distinct.contains(name)
    }
}
