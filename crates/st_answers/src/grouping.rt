//! The text of the groups of definitions.

ghost use Rattle.std.specs.Prelude.{◌≡◌, ◌++◌, List, IfOk, OnOk};
ghost use Rattle.st_deps.specs.Cited.{Name as NameBytes};
ghost use Rattle.st_deps.specs.Definitions.{Cites, declared};
ghost use Rattle.st_deps.specs.Groups.{AreGroups};
ghost use Rattle.st_answers.specs.GroupTexts.{names_text, group_line, groups_text};

use st_deps::groups;
use st_il::Il;
use st_num::{Name, NoMemory, Row};
use std::alloc::Global;

/// Adds names, with a space in front of each.
fn add_names(names: &[Name], bytes: &mut Vec<u8>) -> Result<(), NoMemory>
    ensures { OnOk result (bytes.new.items ≡ bytes.old.items ++ names_text names.now) }
{
    for name in names {
        bytes.extend_from_slice(b" ")?;
        bytes.extend_from_slice(name.as_slice())?;
    }
    Ok(())
}

/// Adds the line of a group.
fn add_line(group: &[Name], bytes: &mut Vec<u8>) -> Result<(), NoMemory>
    ensures { OnOk result (bytes.new.items ≡ bytes.old.items ++ group_line group.now) }
{
    if let [first, others @ ..] = group {
        bytes.extend_from_slice(first.as_slice())?;
        add_names(others, bytes)?;
    }
    bytes.extend_from_slice(b"\n")?;
    Ok(())
}

/// Adds the lines of groups.
fn add_lines(groups: &[Row<Name>], bytes: &mut Vec<u8>) -> Result<(), NoMemory>
    ensures { OnOk result (bytes.new.items ≡ bytes.old.items ++ groups_text groups.now) }
{
    for group in groups {
        add_line(group.as_slice(), bytes)?;
    }
    Ok(())
}

/// The lines of the groups of an internal language.
pub fn groups_printed(alloc: Global, il: &Il) -> Result<Vec<u8>, NoMemory>
    ensures { IfOk result (λ bytes. (groups : List (List NameBytes))
        × AreGroups (Cites il.now) (declared il.now) groups
        × (bytes.items ≡ groups_text groups)) }
{
    let mut bytes = Vec::new(alloc);
    let groups = groups(alloc, il)?;
    add_lines(groups.as_slice(), &mut bytes)?;
    Ok(bytes)
}
