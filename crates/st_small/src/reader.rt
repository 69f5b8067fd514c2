//! Reads small specifications.

ghost use Rattle.std.specs.Prelude.{◌≡◌, IfOk, IfSome, IfNone, Some};
ghost use Rattle.st_il.specs.declared.small.Small.{Small as Specification};
ghost use Rattle.st_small.specs.SmallText.{text_of, IsTextOf};
ghost use Rattle.st_small.specs.inner.SmallForm.{IsOfWords};

mod line;
mod word;

use crate::small::is_small;
use line::{read_atoms, read_relation_line, read_rules, read_syntax_front};
use st_il::Small;
use st_num::{Name, NoMemory};
use std::alloc::Global;

/// The specification whose text the bytes are, whatever its words are.
fn read_form(alloc: Global, bytes: &[u8]) -> Result<Option<Small>, NoMemory>
    ensures read { IfOk result (λ read. IfSome read (λ small. IsOfWords small
        × (bytes.now ≡ text_of small))) }
    ensures only { IfOk result (λ read. (small : Specification) → IsOfWords small
        → bytes.now ≡ text_of small → read ≡ Some small) }
{
    let Some((syntax, rest)) = read_syntax_front(bytes) else {
        return Ok(None);
    };
    let Some((atoms, rest)) = read_atoms(alloc, rest)? else {
        return Ok(None);
    };
    let Some((relation, rest)) = read_relation_line(rest, syntax) else {
        return Ok(None);
    };
    let Some(rules) = read_rules(alloc, rest, relation)? else {
        return Ok(None);
    };
    Ok(Some(Small {
        syntax: Name::from_slice(alloc, syntax)?,
        atoms,
        relation: Name::from_slice(alloc, relation)?,
        rules,
    }))
}

/// Reads a small specification: the one whose text the bytes are, where there is one.
pub fn read_small(alloc: Global, bytes: &[u8]) -> Result<Option<Small>, NoMemory>
    ensures some { IfOk result (λ read. IfSome read (λ small. IsTextOf small bytes.now)) }
    ensures none { IfOk result (λ read. IfNone read
        ((small : Specification) → IsTextOf small bytes.now → ⊥)) }
    ensures only { IfOk result (λ read. (small : Specification) → IsTextOf small bytes.now
        → read ≡ Some small) }
{
    let Some(small) = read_form(alloc, bytes)? else {
        return Ok(None);
    };
    if is_small(alloc, &small)? {
        Ok(Some(small))
    } else {
        Ok(None)
    }
}
