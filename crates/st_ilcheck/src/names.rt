//! Names in order, found by hashes.

ghost use Rattle.std.specs.Prelude.{◌≡◌, [], ◌∷◌, ◌++◌, OnOk, OnErr};
ghost use Rattle.st_ilcheck.specs.inner.Names.{names_at, IsCounted, pairs_at, IsKept};

use crate::index::{add_pair, at, has_pair, put};
use indexmap::{IndexMap, IndexSet};
use st_num::{Name, NoMemory};
use std::alloc::Global;
use std::marker::Model;

/// Adds a name behind the others, and counts it.
fn count<'a>(
    listed: &mut Vec<&'a Name>,
    single: &mut IndexMap<&'a Name, bool>,
    name: &'a Name,
) -> Result<(), NoMemory>
    requires { IsCounted (names_at listed.old.items) single.old.entries }
    ensures ok { OnOk result
        (names_at listed.new.items ≡ names_at listed.old.items ++ name.now ∷ []) }
    ensures err { OnErr result (names_at listed.new.items ≡ names_at listed.old.items) }
    ensures counted { IsCounted (names_at listed.new.items) single.new.entries }
{
    let is_first = at(single, name).is_none();
    listed.push(name)?;
    match put(single, name, is_first) {
        Ok(_) => Ok(()),
        Err(failed) => {
            let _name = listed.pop();
            Err(failed)
        }
    }
}

/// Adds a pair of names behind the others.
fn keep<'a>(
    listed: &mut Vec<(&'a Name, &'a Name)>,
    distinct: &mut IndexSet<(&'a Name, &'a Name)>,
    first: &'a Name,
    second: &'a Name,
) -> Result<(), NoMemory>
    requires { IsKept (pairs_at listed.old.items) distinct.old.keys }
    ensures ok { OnOk result (pairs_at listed.new.items
        ≡ pairs_at listed.old.items ++ (first.now, second.now) ∷ []) }
    ensures err { OnErr result (pairs_at listed.new.items ≡ pairs_at listed.old.items) }
    ensures kept { IsKept (pairs_at listed.new.items) distinct.new.keys }
{
    listed.push((first, second))?;
    match add_pair(distinct, first, second) {
        Ok(_) => Ok(()),
        Err(failed) => {
            let _pair = listed.pop();
            Err(failed)
        }
    }
}

/// Names in order, in which a name is found, and found to stand once, in a time that does not grow
/// with their number. Contracts see the names alone.
#[derive(Drop)]
pub(crate) struct Names<'a> {
    listed: Vec<&'a Name>,
    single: IndexMap<&'a Name, bool>,
}

impl<'a> Model for Names<'a> {
    ghost use Rattle.std.specs.Prelude.{ℕ, List};
    ghost use Rattle.st_ilcheck.specs.inner.Names.{names_at, IsCounted};

    ghost Value = { List (List ℕ) };

    ghost view = { λ names. names_at names.listed.items };

    ghost invariant = { λ names. IsCounted (names_at names.listed.items) names.single.entries };
}

impl<'a> Names<'a> {
    ghost use Rattle.std.specs.Prelude.{◌≡◌, ◌↔◌, [], ◌∷◌, ◌++◌, IsTrue, OnOk, length};
    ghost use Rattle.st_il.specs.Names.{has_name};
    ghost use Rattle.st_ilcheck.specs.Declarations.{IsOnceIn};

    /// No names.
    pub(crate) fn new(alloc: Global) -> Names<'a>
        ensures { result ≡ [] }
    {
        Names {
            listed: Vec::new(alloc),
            single: IndexMap::new(alloc),
        }
    }

    /// Adds a name behind the others.
    pub(crate) fn push(&mut self, name: &'a Name) -> Result<(), NoMemory>
        ensures { OnOk result (self.new ≡ self.old ++ name.now ∷ []) }
    {
        count(&mut self.listed, &mut self.single, name)
    }

    pub(crate) fn len(&self) -> usize
        ensures { result ≡ length self.now }
    {
        self.listed.len()
    }

    /// Whether the name is one of these.
    pub(crate) fn has(&self, name: &Name) -> bool
        ensures { result ≡ has_name self.now name.now }
    {
        at(&self.single, name).is_some()
    }

    /// Whether the name is one of these, once.
    pub(crate) fn is_once(&self, name: &Name) -> bool
        ensures { IsTrue result ↔ IsOnceIn self.now name.now }
    {
        at(&self.single, name).unwrap_or(false)
    }
}

/// Pairs of names in order, in which a pair is found in a time that does not grow with their
/// number. Contracts see the pairs alone.
#[derive(Drop)]
pub(crate) struct Pairs<'a> {
    listed: Vec<(&'a Name, &'a Name)>,
    distinct: IndexSet<(&'a Name, &'a Name)>,
}

impl<'a> Model for Pairs<'a> {
    ghost use Rattle.std.specs.Prelude.{ℕ, List};
    ghost use Rattle.st_ilcheck.specs.inner.Names.{pairs_at, IsKept};

    ghost Value = { List (List ℕ × List ℕ) };

    ghost view = { λ pairs. pairs_at pairs.listed.items };

    ghost invariant = { λ pairs. IsKept (pairs_at pairs.listed.items) pairs.distinct.keys };
}

impl<'a> Pairs<'a> {
    ghost use Rattle.std.specs.Prelude.{◌≡◌, [], ◌∷◌, ◌++◌, OnOk};
    ghost use Rattle.st_ilcheck.specs.inner.Names.{is_pair};

    /// No pairs.
    pub(crate) fn new(alloc: Global) -> Pairs<'a>
        ensures { result ≡ [] }
    {
        Pairs {
            listed: Vec::new(alloc),
            distinct: IndexSet::new(alloc),
        }
    }

    /// Adds a pair behind the others.
    pub(crate) fn push(&mut self, first: &'a Name, second: &'a Name) -> Result<(), NoMemory>
        ensures { OnOk result (self.new ≡ self.old ++ (first.now, second.now) ∷ []) }
    {
        keep(&mut self.listed, &mut self.distinct, first, second)
    }

    /// Whether the pair is one of these.
    pub(crate) fn has(&self, first: &Name, second: &Name) -> bool
        ensures { result ≡ is_pair first.now second.now self.now }
    {
        has_pair(&self.distinct, first, second)
    }
}
