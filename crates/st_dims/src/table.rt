//! The shortest chain of each name.

ghost use Rattle.std.specs.Prelude.{◌≡◌, ◌++◌, ◌∷◌, [], List, IfOk, OnOk};
ghost use Rattle.std.specs.Option.{option_copied};
ghost use Rattle.st_dims.specs.declared.mention.Occurrence.{Occurrence};
ghost use Rattle.st_dims.specs.declared.mention.Mention.{Mention};
ghost use Rattle.st_dims.specs.Mentions.{occurrences_in};
ghost use Rattle.st_dims.specs.Dimensions.{HasDimensions, IsOrdered, dimension_in};
ghost use Rattle.st_dims.specs.inner.Noting.{is_shorter};

use crate::mention::{Mention, Occurrence};
use st_num::{Dim, Name, NoMemory, Row};
use std::alloc::Global;
use std::collections::BTreeMap;

/// The shortest chain of each name that was met.
pub type Shortest = BTreeMap<Name, Dim>;

/// The shortest chain of this name.
pub fn chain_of<'a>(shortest: &'a Shortest, name: &Name) -> Option<&'a Dim>
    ensures { option_copied result ≡ dimension_in shortest.now.entries name.now }
{
    shortest.get(name)
}

/// Whether the chain of the occurrence is shorter than the one known of its name, if one is.
fn is_shorter(occurrence: &Occurrence, shortest: &Shortest) -> bool
    ensures { result ≡ is_shorter occurrence.now.chain
        (dimension_in shortest.now.entries occurrence.now.name) }
{
    match chain_of(shortest, &occurrence.name) {
        None => true,
        Some(known) => occurrence.chain.as_slice().len() < known.as_slice().len(),
    }
}

/// Takes the chain of an occurrence, where it is shorter than what is known of its name.
fn note(alloc: Global, occurrence: &Occurrence, shortest: &mut Shortest) -> Result<(), NoMemory>
    ensures { OnOk result ((before : List Occurrence)
        → HasDimensions before shortest.old.entries
        → HasDimensions (before ++ occurrence.now ∷ []) shortest.new.entries) }
{
    if is_shorter(occurrence, shortest) {
        let name = occurrence.name.copy(alloc)?;
        let chain = Dim::from_slice(alloc, occurrence.chain.as_slice())?;
        shortest.insert(name, chain)?;
    }
    Ok(())
}

/// Takes what is mentioned into account, where it is the occurrence of a variable.
fn note_mention(alloc: Global, mention: &Mention, shortest: &mut Shortest) -> Result<(), NoMemory>
    ensures { OnOk result ((before : List Mention)
        → HasDimensions (occurrences_in before) shortest.old.entries
        → HasDimensions (occurrences_in (before ++ mention.now ∷ [])) shortest.new.entries) }
{
    match mention {
        Mention::Occurs(occurrence) => note(alloc, occurrence, shortest),
        Mention::Indexes(_) | Mention::Iterates(_) => Ok(()),
    }
}

/// The dimension of each variable.
pub fn dimensions(alloc: Global, mentions: &[Mention]) -> Result<Shortest, NoMemory>
    ensures { IfOk result
        (λ shortest. HasDimensions (occurrences_in mentions.now) shortest.entries) }
{
    let mut shortest = BTreeMap::new(alloc);
    for mention in mentions {
        note_mention(alloc, mention, &mut shortest)?;
    }
    Ok(shortest)
}

/// The names with their dimensions, in the byte order of the names.
pub fn rows(alloc: Global, shortest: Shortest) -> Result<Row<(Name, Dim)>, NoMemory>
    ensures entries { IfOk result (λ table. table ≡ shortest.entries) }
    ensures ordered { IfOk result (λ table. IsOrdered table) }
{
    let mut shortest = shortest;
    let mut table = Vec::with_capacity(alloc, shortest.len())?;
    while let Some(entry) = shortest.pop_first() {
        table.push(entry)?;
    }
    Ok(Row::from_vec(table))
}
