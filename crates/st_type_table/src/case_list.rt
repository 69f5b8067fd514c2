//! Cases with their keys, which are found once.

ghost use Rattle.std.specs.Prelude.{◌≡◌, IfOk};
ghost use Rattle.st_il.specs.Key.{plain};
ghost use Rattle.st_type_table.specs.Keys.{plain_key};
ghost use Rattle.st_type_table.specs.inner.CaseKeys.{plain_kept};

use crate::entry::CaseDef;
use crate::key_index::KeyIndex;
use st_il::{Key, Template, Ty, copy_tys, key_of, template_of};
use st_num::{Mark, Name, NoMemory, Row};
use std::alloc::Global;

/// A key that is kept.
#[derive(Drop)]
pub(crate) enum KeptKey {
    Sign(Mark),
    Bracket(Mark),
    Atom(Name),
    Free,
}

/// The key as it is compared.
fn view<'a>(kept: &'a KeptKey) -> Key<'a>
    ensures { plain result ≡ plain_kept kept.now }
{
    match kept {
        KeptKey::Sign(sign) => Key::Sign(*sign),
        KeptKey::Bracket(opening) => Key::Bracket(*opening),
        KeptKey::Atom(name) => Key::Atom(name),
        KeptKey::Free => Key::Free,
    }
}

/// The key, to be kept.
fn keep(alloc: Global, key: &Key) -> Result<KeptKey, NoMemory>
    ensures { IfOk result (λ kept. plain_kept kept ≡ plain key.now) }
{
    match key {
        Key::Sign(sign) => Ok(KeptKey::Sign(*sign)),
        Key::Bracket(opening) => Ok(KeptKey::Bracket(*opening)),
        Key::Atom(name) => Ok(KeptKey::Atom(name.copy(alloc)?)),
        Key::Free => Ok(KeptKey::Free),
    }
}

/// The key of a template, where there is one.
fn key_or_free<'a>(template: &'a Option<Template>) -> Key<'a>
    ensures { plain result ≡ plain_key template.now }
{
    match template {
        Some(template) => key_of(template),
        None => Key::Free,
    }
}

/// A case with this tag and these types of operands.
fn case_of(alloc: Global, tag: &Name, operands: &[Ty]) -> Result<CaseDef, NoMemory>
    ensures { IfOk result
        (λ case. case ≡ record { tag = tag.now; operands = operands.now }) }
{
    let tag = tag.copy(alloc)?;
    let operands = copy_tys(alloc, operands)?;
    Ok(CaseDef { tag, operands })
}

/// Cases whose keys differ, with the key of each, and an index of the keys.
#[derive(Drop)]
pub(crate) struct CaseList {
    pub(crate) items: Row<CaseDef>,
    keys: Row<KeptKey>,
    pub(crate) index: KeyIndex,
}

impl CaseList {
    ghost use Rattle.std.specs.Prelude.{◌≡◌, ◌<◌, [], length, IfOk, OnOk};
    ghost use Rattle.st_type_table.specs.Keys.{HasKey};
    ghost use Rattle.st_type_table.specs.inner.CaseKeys.{AddsCase, AddsFrom, IsKeyed};

    pub(crate) fn new(alloc: Global) -> CaseList
        ensures none { result.items ≡ [] }
        ensures keyed { IsKeyed result }
    {
        let items = Row::new(alloc);
        let keys = Row::new(alloc);
        let index = KeyIndex::new(alloc);
        CaseList { items, keys, index }
    }

    /// Adds a case with this key where no other has it, and says whether it does.
    fn add_with(
        &mut self,
        alloc: Global,
        key: &Key,
        tag: &Name,
        operands: &[Ty],
    ) -> Result<bool, NoMemory>
        requires keyed { IsKeyed self.old }
        requires key { HasKey tag.now (plain key.now) }
        ensures added { IfOk result (λ added. AddsCase self.old.items self.new.items
            (record { tag = tag.now; operands = operands.now }) added) }
        ensures keyed { OnOk result (IsKeyed self.new) }
    {
        if let Some(_) = self.index.number_of(key) {
            return Ok(false);
        }
        let number = self.items.len();
        self.index.insert(alloc, key, number)?;
        let kept = keep(alloc, key)?;
        self.keys.push(kept)?;
        let case = case_of(alloc, tag, operands)?;
        self.items.push(case)?;
        Ok(true)
    }

    /// Adds a case where its key differs from those of the others, and says whether it does.
    pub(crate) fn add(
        &mut self,
        alloc: Global,
        tag: &Name,
        operands: &[Ty],
    ) -> Result<bool, NoMemory>
        requires { IsKeyed self.old }
        ensures added { IfOk result (λ added. AddsCase self.old.items self.new.items
            (record { tag = tag.now; operands = operands.now }) added) }
        ensures keyed { OnOk result (IsKeyed self.new) }
    {
        let template = template_of(alloc, tag)?;
        let added = self.add_with(alloc, &key_or_free(&template), tag, operands)?;
        Ok(added)
    }

    /// Adds a case of another list where its key differs from those of the others, and says whether
    /// it does.
    pub(crate) fn add_from(
        &mut self,
        alloc: Global,
        other: &CaseList,
        at: usize,
    ) -> Result<bool, NoMemory>
        requires within { at < length other.now.items }
        requires other { IsKeyed other.now }
        requires keyed { IsKeyed self.old }
        ensures added { IfOk result
            (λ added. AddsFrom self.old.items self.new.items other.now.items at added) }
        ensures keyed { OnOk result (IsKeyed self.new) }
    {
        let cases = other.items.as_slice();
        let keys = other.keys.as_slice();
        let case = &cases[at];
        let key = view(&keys[at]);
        let operands = case.operands.as_slice();
        let added = self.add_with(alloc, &key, &case.tag, operands)?;
        Ok(added)
    }
}
