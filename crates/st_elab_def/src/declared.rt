//! What the definitions of a source declare, in the internal language.

ghost use Rattle.std.specs.Prelude.{◌≡◌, [], ◌∷◌, ◌++◌, map, flat_map, IfOk, OnOk};
ghost use Rattle.st_el.specs.Erasure.{alternatives_in};
ghost use Rattle.st_il.specs.Template.{tag_of};
ghost use Rattle.st_elab_sig.specs.Types.{ty_of};
ghost use Rattle.st_elab_sig.specs.Signatures.{template_of, holes_of};
ghost use Rattle.st_elab_def.specs.DeclsOf.{type_node, bare_alternative, alternative_of, field_of, body_of, is_input_kind, mode_of, relation_of};
ghost use Rattle.st_elab_def.specs.inner.Gathering.{body_with};

use st_el::{Body, Hint, NotNode, Notation, Typ, TypNode, is_mode};
use st_elab_sig::{Signature, elaborate_typ, elaborate_typs, signature_of};
use st_il::{Alternative, FunDef, IlDef, RelationDef, SyntaxBody, Ty};
use st_num::{Name, NoMemory, Row, Token, TokenKind};
use std::alloc::Global;

/// Adds what a type is as an alternative by itself.
fn push_bare(alloc: Global, typ: &Typ, out: &mut Row<Alternative>) -> Result<(), NoMemory>
    ensures { OnOk result (out.new ≡ out.old ++ bare_alternative (type_node typ.now)) }
{
    match &typ.node {
        TypNode::Name(name) => out.push(Alternative::Incl(name.copy(alloc)?)),
        TypNode::Bool | TypNode::Nat | TypNode::Int | TypNode::Text => Ok(()),
        TypNode::Star(_) | TypNode::Quest(_) | TypNode::Tuple(_) => Ok(()),
    }
}

/// The case of this notation.
fn case_of(alloc: Global, notation: &Notation) -> Result<Alternative, NoMemory>
    ensures { IfOk result (λ case. case
        ≡ Alternative.Case (tag_of (template_of notation.now))
        (map ty_of (holes_of notation.now))) }
{
    let Signature { tag, operands } = signature_of(alloc, notation)?;
    Ok(Alternative::Case(tag, operands))
}

/// Adds what a notation is as an alternative.
fn push_alternative(
    alloc: Global,
    notation: &Notation,
    out: &mut Row<Alternative>,
) -> Result<(), NoMemory>
    ensures { OnOk result (out.new ≡ out.old ++ alternative_of notation.now) }
{
    match &notation.node {
        NotNode::Hole(typ) => push_bare(alloc, typ, out),
        NotNode::Atom(_) | NotNode::Seq(_) => out.push(case_of(alloc, notation)?),
        NotNode::Infix(_, _, _) | NotNode::Bracket(_, _) => out.push(case_of(alloc, notation)?),
    }
}

/// Adds what notations are as alternatives.
fn push_alternatives(
    alloc: Global,
    notations: &[Notation],
    out: &mut Row<Alternative>,
) -> Result<(), NoMemory>
    ensures { OnOk result (out.new ≡ out.old ++ flat_map alternative_of notations.now) }
{
    for notation in notations {
        push_alternative(alloc, notation, out)?;
    }
    Ok(())
}

/// Adds the alternatives of a body.
pub(crate) fn push_body(
    alloc: Global,
    body: &Body,
    out: &mut Row<Alternative>,
) -> Result<(), NoMemory>
    ensures { OnOk result
        (out.new ≡ out.old ++ flat_map alternative_of (alternatives_in body.now)) }
{
    match body {
        Body::Cases { cases, .. } => push_alternatives(alloc, cases.as_slice(), out),
        Body::Alias(_) | Body::Fields(_) => Ok(()),
    }
}

/// The fields of a record.
fn fields_of(alloc: Global, fields: &[(Name, Typ)]) -> Result<Row<(Name, Ty)>, NoMemory>
    ensures { IfOk result (λ out. out ≡ map field_of fields.now) }
{
    let mut out = Row::new(alloc);
    for field in fields {
        let name = field.0.copy(alloc)?;
        out.push((name, elaborate_typ(alloc, &field.1)?))?;
    }
    Ok(out)
}

/// A body that is no list of alternatives, or that of these alternatives.
pub(crate) fn body_with(
    alloc: Global,
    body: &Body,
    parts: Row<Alternative>,
) -> Result<SyntaxBody, NoMemory>
    ensures { IfOk result (λ made. made ≡ body_with body.now parts) }
{
    match body {
        Body::Alias(typ) => Ok(SyntaxBody::Alias(elaborate_typ(alloc, typ)?)),
        Body::Cases { .. } => Ok(SyntaxBody::Variant(parts)),
        Body::Fields(fields) => Ok(SyntaxBody::Fields(fields_of(alloc, fields.as_slice())?)),
    }
}

/// A body in the internal language.
pub(crate) fn body_of(alloc: Global, body: &Body) -> Result<SyntaxBody, NoMemory>
    ensures { IfOk result (λ made. made ≡ body_of body.now) }
{
    match body {
        Body::Alias(typ) => Ok(SyntaxBody::Alias(elaborate_typ(alloc, typ)?)),
        Body::Cases { cases, .. } => {
            let mut parts = Row::new(alloc);
            push_alternatives(alloc, cases.as_slice(), &mut parts)?;
            Ok(SyntaxBody::Variant(parts))
        }
        Body::Fields(fields) => Ok(SyntaxBody::Fields(fields_of(alloc, fields.as_slice())?)),
    }
}

/// Whether the word is `in`.
fn is_input(word: &Token) -> bool
    ensures { result ≡ is_input_kind word.now.kind }
{
    match &word.kind {
        TokenKind::Low(name) => name.as_slice() == b"in".as_slice(),
        _ => false,
    }
}

/// Whether each word of a hint is `in`.
fn inputs_of(alloc: Global, words: &[Token]) -> Result<Row<bool>, NoMemory>
    ensures { IfOk result
        (λ mode. mode ≡ map (λ (word : Token). is_input_kind word.kind) words.now) }
{
    let mut mode = Row::new(alloc);
    for word in words {
        mode.push(is_input(word))?;
    }
    Ok(mode)
}

/// What the first `mode` hint says.
fn mode_of(alloc: Global, hints: &[Hint]) -> Result<Row<bool>, NoMemory>
    ensures { IfOk result (λ mode. mode ≡ mode_of hints.now) }
{
    for hint in hints {
        if is_mode(hint) {
            return inputs_of(alloc, hint.words.as_slice());
        }
    }
    Ok(Row::new(alloc))
}

/// What a relation is.
pub(crate) fn relation_of(
    alloc: Global,
    hints: &[Hint],
    name: &Name,
    notation: &Notation,
) -> Result<RelationDef, NoMemory>
    ensures { IfOk result (λ made. made ≡ relation_of hints.now name.now notation.now) }
{
    let mode = mode_of(alloc, hints)?;
    let name = name.copy(alloc)?;
    let Signature { tag, operands } = signature_of(alloc, notation)?;
    Ok(RelationDef {
        name,
        tag,
        holes: operands,
        mode,
    })
}

/// What a function is.
pub(crate) fn function_of(
    alloc: Global,
    name: &Name,
    params: &[Typ],
    value: &Typ,
) -> Result<FunDef, NoMemory>
    ensures { IfOk result (λ made. made
        ≡ record { name = name.now; params = map ty_of params.now; result = ty_of value.now }) }
{
    let name = name.copy(alloc)?;
    let params = elaborate_typs(alloc, params)?;
    Ok(FunDef {
        name,
        params,
        result: elaborate_typ(alloc, value)?,
    })
}
