//! The signature of a notation: its tag, and the types of its operands.

ghost use Rattle.std.specs.Prelude.{◌≡◌, [], ◌∷◌, ◌++◌, map, flat_map, IfOk, OnOk};
ghost use Rattle.st_num.specs.Signs.{spelling};
ghost use Rattle.st_il.specs.Template.{tag_of};
ghost use Rattle.st_elab_sig.specs.Types.{ty_of};
ghost use Rattle.st_elab_sig.specs.Signatures.{template_of, holes_of, IsSignature};
ghost use Rattle.st_elab_sig.specs.inner.Words.{words_in, trailed};

use crate::elaborate_typ;
use st_el::{NotNode, Notation};
use st_il::Ty;
use st_num::{Mark, Name, NoMemory, Row};
use std::alloc::Global;

/// What a notation is in the internal language.
#[derive(Drop)]
pub struct Signature {
    pub tag: Name,
    pub operands: Row<Ty>,
}

/// Appends a word and a space.
fn push_word(word: &[u8], tag: &mut Name) -> Result<(), NoMemory>
    ensures { OnOk result (tag.new ≡ tag.old ++ (word.now ++ 32 ∷ [])) }
{
    for byte in word {
        tag.push(*byte)?;
    }
    tag.push(b' ')
}

/// Appends the spelling of a sign, and a space.
fn push_sign(sign: Mark, tag: &mut Name) -> Result<(), NoMemory>
    ensures { OnOk result (tag.new ≡ tag.old ++ (spelling sign ++ 32 ∷ [])) }
{
    push_word(sign.spelling().as_bytes(), tag)
}

/// Appends the words of a notation, with a space behind each.
#[cycle(words)]
fn push_words(notation: &Notation, tag: &mut Name) -> Result<(), NoMemory>
    ensures { OnOk result (tag.new ≡ tag.old ++ trailed (words_in notation.now)) }
{
    match &notation.node {
        NotNode::Atom(name) => push_word(name.as_slice(), tag),
        NotNode::Hole(_) => push_word(b"%", tag),
        NotNode::Seq(parts) => push_parts(parts.as_slice(), tag),
        NotNode::Infix(left, sign, right) => {
            push_words(left.get(), tag)?;
            push_sign(*sign, tag)?;
            push_words(right.get(), tag)
        }
        NotNode::Bracket(opening, inside) => {
            push_sign(*opening, tag)?;
            push_words(inside.get(), tag)?;
            push_sign(opening.closing(), tag)
        }
    }
}

/// Appends the words of each part of a notation, with a space behind each.
#[cycle(words)]
fn push_parts(parts: &[Notation], tag: &mut Name) -> Result<(), NoMemory>
    ensures { OnOk result (tag.new ≡ tag.old ++ trailed (flat_map words_in parts.now)) }
{
    for part in parts {
        push_words(part, tag)?;
    }
    Ok(())
}

/// The words of a notation, with one space between them.
fn tag_of(alloc: Global, notation: &Notation) -> Result<Name, NoMemory>
    ensures { IfOk result (λ tag. tag ≡ tag_of (template_of notation.now)) }
{
    let mut tag = Row::new(alloc);
    push_words(notation, &mut tag)?;
    let _last = tag.pop();
    Ok(tag)
}

/// Appends what the types of a notation are in the internal language.
#[cycle(operands)]
fn push_operands(alloc: Global, notation: &Notation, operands: &mut Row<Ty>) -> Result<(), NoMemory>
    ensures { OnOk result (operands.new ≡ operands.old ++ map ty_of (holes_of notation.now)) }
{
    match &notation.node {
        NotNode::Atom(_) => Ok(()),
        NotNode::Hole(typ) => operands.push(elaborate_typ(alloc, typ)?),
        NotNode::Seq(parts) => push_part_operands(alloc, parts.as_slice(), operands),
        NotNode::Infix(left, _, right) => {
            push_operands(alloc, left.get(), operands)?;
            push_operands(alloc, right.get(), operands)
        }
        NotNode::Bracket(_, inside) => push_operands(alloc, inside.get(), operands),
    }
}

/// Appends what the types of each part of a notation are in the internal language.
#[cycle(operands)]
fn push_part_operands(
    alloc: Global,
    parts: &[Notation],
    operands: &mut Row<Ty>,
) -> Result<(), NoMemory>
    ensures { OnOk result
        (operands.new ≡ operands.old ++ map ty_of (flat_map holes_of parts.now)) }
{
    for part in parts {
        push_operands(alloc, part, operands)?;
    }
    Ok(())
}

/// The tag of a notation, and the types of its operands.
pub fn signature_of(alloc: Global, notation: &Notation) -> Result<Signature, NoMemory>
    ensures { IfOk result (IsSignature notation.now) }
{
    let tag = tag_of(alloc, notation)?;
    let mut operands = Row::new(alloc);
    push_operands(alloc, notation, &mut operands)?;
    Ok(Signature { tag, operands })
}
