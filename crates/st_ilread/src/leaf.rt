//! The expressions and the steps of paths that have no expression inside.

ghost use Rattle.std.specs.Prelude.{MatchOption, codes};
ghost use Rattle.st_iltext.specs.Expressions.{exp_tree, segment_tree};
ghost use Rattle.st_iltext.specs.Written.{exp_written, segment_written};
ghost use Rattle.st_iltext.specs.inner.Reading.{IsOf, IsOfNone, Reads};
ghost use Rattle.st_text.specs.Text.{word, list, more};
ghost use Rattle.st_text.specs.Trees.{trees_of};

use crate::name::read_name;
use st_il::{IlExp, PathSeg};
use st_iltext::fault::MALFORMED;
use st_iltext::shape::one;
use st_iltext::type_reader::read_ty;
use st_text::{TextFault, TextTree, read_natural};
use std::alloc::Global;

/// The literal that a word is: a truth value or a number.
pub fn read_literal(bytes: &[u8]) -> Option<IlExp>
    ensures { MatchOption result (IsOfNone exp_tree exp_written (word bytes.now))
        (IsOf exp_tree exp_written (word bytes.now)) }
{
    if bytes == b"true".as_slice() {
        return Some(IlExp::Bool(true));
    }
    if bytes == b"false".as_slice() {
        return Some(IlExp::Bool(false));
    }
    Some(IlExp::Number(read_natural(bytes)?))
}

/// The variable that the parts are.
pub fn read_var(alloc: Global, parts: &[TextTree]) -> Result<IlExp, TextFault>
    ensures { Reads exp_tree exp_written (list (more (word (codes "v")) (trees_of parts.now)))
        result }
{
    let Some(name) = one(parts) else {
        return Err(MALFORMED);
    };
    Ok(IlExp::Var(read_name(alloc, name)?))
}

/// The empty option that the parts are.
pub fn read_empty(alloc: Global, parts: &[TextTree]) -> Result<IlExp, TextFault>
    ensures { Reads exp_tree exp_written (list (more (word (codes "none")) (trees_of parts.now)))
        result }
{
    let Some(ty) = one(parts) else {
        return Err(MALFORMED);
    };
    Ok(IlExp::Empty(read_ty(alloc, ty)?))
}

/// The absent part that the parts are.
pub fn read_absent(alloc: Global, parts: &[TextTree]) -> Result<IlExp, TextFault>
    ensures { Reads exp_tree exp_written (list (more (word (codes "absent")) (trees_of parts.now)))
        result }
{
    let Some(ty) = one(parts) else {
        return Err(MALFORMED);
    };
    Ok(IlExp::Absent(read_ty(alloc, ty)?))
}

/// The step to a field that the parts are.
pub fn read_field_step(alloc: Global, parts: &[TextTree]) -> Result<PathSeg, TextFault>
    ensures { Reads segment_tree segment_written (list (more (word (codes "f")) (trees_of parts.now)))
        result }
{
    let Some(field) = one(parts) else {
        return Err(MALFORMED);
    };
    Ok(PathSeg::Field(read_name(alloc, field)?))
}
