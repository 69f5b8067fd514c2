//! An index of the keys of cases, found without a look at each of them.

ghost use Rattle.std.specs.Prelude.{◌≡◌, ◌↔◌, ℕ, IsTrue, MatchOption, OnOk};
ghost use Rattle.std.specs.Map.{lookup};
ghost use Rattle.st_num.specs.Names.{same_name};
ghost use Rattle.st_il.specs.Key.{PlainKey, plain};
ghost use Rattle.st_type_table.specs.inner.KeyIndexes.{HasMark, HasNumber, Gains};

use indexmap::IndexMap;
use st_il::Key;
use st_num::{Mark, Name, NoMemory, Row};
use std::alloc::Global;

/// Keys, each with a number. It has few signs and few brackets, since the language has few.
#[derive(Drop)]
pub(crate) struct KeyIndex {
    signs: Row<(Mark, usize)>,
    brackets: Row<(Mark, usize)>,
    atoms: IndexMap<Name, usize>,
    free: Option<usize>,
}

/// Whether the marks are one.
fn same_mark(one: &Mark, other: &Mark) -> bool
    ensures { IsTrue result ↔ (one.now ≡ other.now) }
{
    *one == *other
}

/// The number of the mark, where it is one of these.
fn number_of_mark(marks: &[(Mark, usize)], mark: &Mark) -> Option<usize>
    ensures { MatchOption result ((n : ℕ) → HasMark marks.now mark.now n → ⊥)
        (λ n. HasMark marks.now mark.now n) }
{
    for one in marks {
        if same_mark(&one.0, mark) {
            return Some(one.1);
        }
    }
    None
}

/// The number of the atom, where it is one of these.
fn number_of_atom(atoms: &IndexMap<Name, usize>, name: &Name) -> Option<usize>
    ensures { result ≡ lookup (same_name name.now) atoms.now.entries }
{
    atoms.get(name).copied()
}

impl KeyIndex {
    pub(crate) fn new(alloc: Global) -> KeyIndex
        ensures { (k : PlainKey) (n : ℕ) → HasNumber result k n → ⊥ }
    {
        let signs = Row::new(alloc);
        let brackets = Row::new(alloc);
        let atoms = IndexMap::new(alloc);
        KeyIndex {
            signs,
            brackets,
            atoms,
            free: None,
        }
    }

    /// The number of a key, where it has one.
    pub(crate) fn number_of(&self, key: &Key) -> Option<usize>
        ensures { MatchOption result ((n : ℕ) → HasNumber self.now (plain key.now) n → ⊥)
            (λ n. HasNumber self.now (plain key.now) n) }
    {
        match key {
            Key::Sign(sign) => number_of_mark(self.signs.as_slice(), sign),
            Key::Bracket(opening) => number_of_mark(self.brackets.as_slice(), opening),
            Key::Atom(name) => number_of_atom(&self.atoms, name),
            Key::Free => self.free,
        }
    }

    /// Adds a key that has no number.
    pub(crate) fn insert(&mut self, alloc: Global, key: &Key, number: usize) -> Result<(), NoMemory>
        requires { (n : ℕ) → HasNumber self.old (plain key.now) n → ⊥ }
        ensures { OnOk result (Gains self.old self.new (plain key.now) number) }
    {
        match key {
            Key::Sign(sign) => {
                self.signs.push((*sign, number))?;
                Ok(())
            }
            Key::Bracket(opening) => {
                self.brackets.push((*opening, number))?;
                Ok(())
            }
            Key::Atom(name) => {
                self.atoms.insert(name.copy(alloc)?, number)?;
                Ok(())
            }
            Key::Free => {
                self.free = Some(number);
                Ok(())
            }
        }
    }
}
