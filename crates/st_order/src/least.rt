//! The least of some names, by bytes.

ghost use Rattle.std.specs.Prelude.{◌≡◌, [], Some, IfOk};
ghost use Rattle.std.specs.Option.{option_copied};
ghost use Rattle.std.specs.Ordering.{is_lt};
ghost use Rattle.st_il.specs.Order.{text_cmp};
ghost use Rattle.st_il.specs.Names.{lesser, least, without};
ghost use Rattle.st_order.specs.inner.Index.{names_in};

use crate::index::push_unknown;
use indexmap::IndexSet;
use st_num::{Name, NoMemory, Row};
use std::alloc::Global;

/// Whether the first name stands before the second one.
fn is_before(first: &Name, second: &Name) -> bool
    ensures { result ≡ is_lt (text_cmp first.now second.now) }
{
    first.cmp(second).is_lt()
}

/// The lesser of a name and another one, where there is another.
fn lesser<'a>(name: &'a Name, other: Option<&'a Name>) -> &'a Name
    ensures { Some result.now ≡ lesser name.now (option_copied other.entry) }
{
    match other {
        Some(other) => if is_before(other, name) { other } else { name },
        None => name,
    }
}

/// The least of the names.
fn least<'a>(names: &[&'a Name]) -> Option<&'a Name>
    ensures { option_copied result ≡ least (names_in names.now) }
{
    let mut found = None;
    for i in 0..names.len() {
        let name = names[names.len() - 1 - i];
        found = Some(lesser(name, found));
    }
    found
}

/// The least of the names that are unknown.
pub(crate) fn least_unknown(
    alloc: Global,
    known: &IndexSet<&Name>,
    names: &[&Name],
) -> Result<Option<Name>, NoMemory>
    ensures { IfOk result (λ found. found
        ≡ least (without (names_in known.now.keys) (names_in names.now))) }
{
    let mut unknown = Row::new(alloc);
    push_unknown(known, names, &mut unknown)?;
    match least(unknown.as_slice()) {
        Some(name) => Ok(Some(name.copy(alloc)?)),
        None => Ok(None),
    }
}
