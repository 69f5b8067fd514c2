//! How expressions are printed: as the source has them.

ghost use Rattle.std.specs.Prelude.{◌≡◌, ◌++◌, OnOk, map};
ghost use Rattle.st_prose.specs.Sentences.{listed, exp_text, exps_text, mark_text};

use st_el::print_el;
use st_erase::erase_exp;
use st_il::{IlExp, Iteration, copy_iteration};
use st_index::Index;
use st_num::{Boxed, Name, NoMemory, Row};
use std::alloc::Global;

/// Appends a text as it is.
pub(crate) fn print_word(word: &[u8], out: &mut Vec<u8>) -> Result<(), NoMemory>
    ensures { OnOk result (out.new.items ≡ out.old.items ++ word.now) }
{
    out.extend_from_slice(word)?;
    Ok(())
}

/// Appends names with commas between them.
pub(crate) fn print_names(names: &[Name], out: &mut Vec<u8>) -> Result<(), NoMemory>
    ensures { OnOk result (out.new.items ≡ out.old.items ++ listed names.now) }
{
    let Some((first, others)) = names.split_first() else {
        return print_word(b"nothing", out);
    };
    print_word(first.as_slice(), out)?;
    for name in others {
        print_word(b", ", out)?;
        print_word(name.as_slice(), out)?;
    }
    Ok(())
}

/// Appends an expression.
pub(crate) fn print_exp(
    alloc: Global,
    index: &Index,
    exp: &IlExp,
    out: &mut Vec<u8>,
) -> Result<(), NoMemory>
    ensures { OnOk result (out.new.items ≡ out.old.items ++ exp_text index.now exp.now) }
{
    let source = erase_exp(alloc, index.il(), exp)?;
    print_el(alloc, &source, out)
}

/// Appends expressions with commas between them.
pub(crate) fn print_exps(
    alloc: Global,
    index: &Index,
    exps: &[IlExp],
    out: &mut Vec<u8>,
) -> Result<(), NoMemory>
    ensures { OnOk result (out.new.items ≡ out.old.items ++ exps_text index.now exps.now) }
{
    let Some((first, others)) = exps.split_first() else {
        return print_word(b"nothing", out);
    };
    print_exp(alloc, index, first, out)?;
    for exp in others {
        print_word(b", ", out)?;
        print_exp(alloc, index, exp, out)?;
    }
    Ok(())
}

/// Appends how often a loop goes. That is what stands behind the body of an iteration, and so the
/// whole text of one whose body is a name without letters.
pub(crate) fn print_mark(
    alloc: Global,
    index: &Index,
    how: &Iteration,
    out: &mut Vec<u8>,
) -> Result<(), NoMemory>
    ensures { OnOk result (out.new.items ≡ out.old.items ++ mark_text index.now how.now) }
{
    let body = Boxed::new(alloc, IlExp::Var(Row::new(alloc)))?;
    let how = copy_iteration(alloc, how)?;
    let bare = IlExp::Iter(how, Row::new(alloc), body);
    print_exp(alloc, index, &bare, out)
}
