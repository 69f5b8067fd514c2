//! Definitions without their places, parentheses and fragments, and with no hints but modes.

ghost use Rattle.std.specs.Prelude.{◌≡◌, ◌++◌, ◌∷◌, [], map, filter, codes, IfOk, OnOk, None};
ghost use Rattle.std.specs.List.{list_any};
ghost use Rattle.st_el.specs.Plain.{plain_exp, plain_typ, plain_notation, plain_prem};
ghost use Rattle.st_el.specs.Erasure.{plain_token, plain_hint, is_mode, kept_hints, plain_body, plain_def_node, plain_def, is_fragment, alternatives_of, alternatives, joined, joined_syntax, joined_at, plain_defs};
ghost use Rattle.st_el.specs.declared.definition.DefNode.TheVariants.{Rule, Clause};

use crate::plain_expression::{plain_exp, plain_exps};
use crate::plain_parts::{plain_notation, plain_notations, plain_prems, plain_typ, plain_typs};
use crate::{Body, Def, DefNode, Exp, Hint, Notation, Prem, Typ};
use st_num::{Name, NoMemory, Row, Span, Token};
use std::alloc::Global;

/// The tokens of a hint, wherever they stood.
fn plain_tokens(alloc: Global, tokens: &[Token]) -> Result<Row<Token>, NoMemory>
    ensures { IfOk result (λ plain. plain ≡ map plain_token tokens.now) }
{
    let mut plain = Row::new(alloc);
    for token in tokens {
        plain.push(Token {
            at: Span::NOWHERE,
            touching: false,
            kind: token.kind.copy(alloc)?,
        })?;
    }
    Ok(plain)
}

/// The hint, wherever its tokens stood.
fn plain_hint(alloc: Global, hint: &Hint) -> Result<Hint, NoMemory>
    ensures { IfOk result (λ plain. plain ≡ plain_hint hint.now) }
{
    let name = hint.name.copy(alloc)?;
    Ok(Hint {
        name,
        words: plain_tokens(alloc, hint.words.as_slice())?,
    })
}

/// Whether the hint says a mode.
pub fn is_mode(hint: &Hint) -> bool
    ensures { result ≡ is_mode hint.now }
{
    hint.name.as_slice() == b"mode".as_slice()
}

/// The `mode` hints among these.
fn plain_modes(alloc: Global, hints: &[Hint]) -> Result<Row<Hint>, NoMemory>
    ensures { IfOk result (λ plain. plain ≡ map plain_hint (filter is_mode hints.now)) }
{
    let mut plain = Row::new(alloc);
    for hint in hints {
        if is_mode(hint) {
            plain.push(plain_hint(alloc, hint)?)?;
        }
    }
    Ok(plain)
}

/// The hints of a definition that are kept: the modes of a relation.
fn kept_hints(alloc: Global, node: &DefNode, hints: &Row<Hint>) -> Result<Row<Hint>, NoMemory>
    ensures { IfOk result (λ kept. kept ≡ kept_hints node.now hints.now) }
{
    match node {
        DefNode::Relation { .. } => plain_modes(alloc, hints.as_slice()),
        DefNode::Syntax { .. }
        | DefNode::Var { .. }
        | DefNode::Rule { .. }
        | DefNode::Fun { .. }
        | DefNode::Clause { .. } => Ok(Row::new(alloc)),
    }
}

/// The fields of a record, with their types made plain.
fn plain_fields(alloc: Global, fields: &[(Name, Typ)]) -> Result<Row<(Name, Typ)>, NoMemory>
    ensures { IfOk result
        (λ plain. plain ≡ map (λ field. (field.0, plain_typ field.1)) fields.now) }
{
    let mut plain = Row::new(alloc);
    for field in fields {
        let name = field.0.copy(alloc)?;
        plain.push((name, plain_typ(alloc, &field.1)?))?;
    }
    Ok(plain)
}

/// The body of a syntax, with its parts made plain.
fn plain_body(alloc: Global, body: &Body) -> Result<Body, NoMemory>
    ensures { IfOk result (λ plain. plain ≡ plain_body body.now) }
{
    match body {
        Body::Alias(typ) => Ok(Body::Alias(plain_typ(alloc, typ)?)),
        Body::Cases {
            before,
            cases,
            after,
        } => Ok(Body::Cases {
            before: *before,
            cases: plain_notations(alloc, cases.as_slice())?,
            after: *after,
        }),
        Body::Fields(fields) => Ok(Body::Fields(plain_fields(alloc, fields.as_slice())?)),
    }
}

/// The rule, with its conclusion and its premises made plain.
fn plain_rule(
    alloc: Global,
    relation: &Name,
    name: &Name,
    conclusion: &Exp,
    premises: &Row<Prem>,
) -> Result<DefNode, NoMemory>
    ensures { IfOk result (λ plain. plain
        ≡ Rule relation.now name.now (plain_exp conclusion.now) (map plain_prem premises.now)) }
{
    Ok(DefNode::Rule {
        relation: relation.copy(alloc)?,
        name: name.copy(alloc)?,
        conclusion: plain_exp(alloc, conclusion)?,
        premises: plain_prems(alloc, premises.as_slice())?,
    })
}

/// The clause, with its arguments, its result and its premises made plain.
fn plain_clause(
    alloc: Global,
    name: &Name,
    args: &Row<Exp>,
    exp: &Exp,
    premises: &Row<Prem>,
) -> Result<DefNode, NoMemory>
    ensures { IfOk result (λ plain. plain
        ≡ Clause name.now (map plain_exp args.now) (plain_exp exp.now)
        (map plain_prem premises.now)) }
{
    Ok(DefNode::Clause {
        name: name.copy(alloc)?,
        args: plain_exps(alloc, args.as_slice())?,
        result: plain_exp(alloc, exp)?,
        premises: plain_prems(alloc, premises.as_slice())?,
    })
}

/// What the definition is, with its parts made plain and no fragment's name.
fn plain_def_node(alloc: Global, node: &DefNode) -> Result<DefNode, NoMemory>
    ensures { IfOk result (λ plain. plain ≡ plain_def_node node.now) }
{
    match node {
        DefNode::Syntax { name, body, .. } => Ok(DefNode::Syntax {
            name: name.copy(alloc)?,
            fragment: None,
            body: plain_body(alloc, body)?,
        }),
        DefNode::Var { name, typ } => Ok(DefNode::Var {
            name: name.copy(alloc)?,
            typ: plain_typ(alloc, typ)?,
        }),
        DefNode::Relation { name, notation } => Ok(DefNode::Relation {
            name: name.copy(alloc)?,
            notation: plain_notation(alloc, notation)?,
        }),
        DefNode::Rule {
            relation,
            name,
            conclusion,
            premises,
        } => plain_rule(alloc, relation, name, conclusion, premises),
        DefNode::Fun {
            name,
            params,
            result: typ,
        } => Ok(DefNode::Fun {
            name: name.copy(alloc)?,
            params: plain_typs(alloc, params.as_slice())?,
            result: plain_typ(alloc, typ)?,
        }),
        DefNode::Clause {
            name,
            args,
            result: exp,
            premises,
        } => plain_clause(alloc, name, args, exp, premises),
    }
}

/// The definition without its place, with its parts made plain and no hints but modes.
fn plain_def(alloc: Global, def: &Def) -> Result<Def, NoMemory>
    ensures { IfOk result (λ plain. plain ≡ plain_def def.now) }
{
    let hints = kept_hints(alloc, &def.node, &def.hints)?;
    Ok(Def {
        at: Span::NOWHERE,
        hints,
        node: plain_def_node(alloc, &def.node)?,
    })
}

/// Whether the definition is a fragment of the syntax of this name.
fn is_fragment(name: &Name, def: &Def) -> bool
    ensures { result ≡ is_fragment name.now def.now }
{
    match &def.node {
        DefNode::Syntax {
            name: other,
            fragment,
            ..
        } => fragment.is_some() && name == other,
        DefNode::Var { .. }
        | DefNode::Relation { .. }
        | DefNode::Rule { .. }
        | DefNode::Fun { .. }
        | DefNode::Clause { .. } => false,
    }
}

/// Whether one of the definitions is a fragment of the syntax of this name.
fn has_fragment(name: &Name, defs: &[Def]) -> bool
    ensures { result ≡ list_any (is_fragment name.now) defs.now }
{
    for def in defs {
        if is_fragment(name, def) {
            return true;
        }
    }
    false
}

/// Adds the notations, made plain.
fn push_notations(
    alloc: Global,
    notations: &[Notation],
    plain: &mut Row<Notation>,
) -> Result<(), NoMemory>
    ensures { OnOk result (plain.new ≡ plain.old ++ map plain_notation notations.now) }
{
    for notation in notations {
        plain.push(plain_notation(alloc, notation)?)?;
    }
    Ok(())
}

/// Adds the alternatives of a definition, made plain; what is no syntax has none.
fn push_alternatives(
    alloc: Global,
    node: &DefNode,
    plain: &mut Row<Notation>,
) -> Result<(), NoMemory>
    ensures { OnOk result (plain.new ≡ plain.old ++ map plain_notation (alternatives_of node.now)) }
{
    match node {
        DefNode::Syntax {
            body: Body::Cases { cases, .. },
            ..
        } => push_notations(alloc, cases.as_slice(), plain),
        _ => Ok(()),
    }
}

/// Adds the alternatives of the fragments of a syntax, made plain.
fn push_fragments(
    alloc: Global,
    name: &Name,
    defs: &[Def],
    plain: &mut Row<Notation>,
) -> Result<(), NoMemory>
    ensures { OnOk result
        (plain.new ≡ plain.old ++ map plain_notation (alternatives name.now defs.now)) }
{
    for def in defs {
        if is_fragment(name, def) {
            push_alternatives(alloc, &def.node, plain)?;
        }
    }
    Ok(())
}

/// The body of a fragment, with the alternatives of later fragments behind its own.
fn joined_body(alloc: Global, body: &Body, name: &Name, behind: &[Def]) -> Result<Body, NoMemory>
    ensures { IfOk result
        (λ plain. plain ≡ plain_body (joined body.now (alternatives name.now behind.now))) }
{
    match body {
        Body::Cases { cases, .. } => {
            let mut plain = plain_notations(alloc, cases.as_slice())?;
            push_fragments(alloc, name, behind, &mut plain)?;
            Ok(Body::Cases {
                before: false,
                cases: plain,
                after: false,
            })
        }
        Body::Alias(_) | Body::Fields(_) => plain_body(alloc, body),
    }
}

/// Adds the definition, made plain; the fragments of a syntax are joined at the first of them.
fn push_joined(
    alloc: Global,
    before: &[Def],
    def: &Def,
    behind: &[Def],
    plain: &mut Row<Def>,
) -> Result<(), NoMemory>
    ensures { OnOk result
        (plain.new ≡ plain.old ++ map plain_def (joined_at before.now def.now behind.now)) }
{
    match &def.node {
        DefNode::Syntax {
            name,
            fragment: Some(_),
            body,
        } => {
            if has_fragment(name, before) {
                return Ok(());
            }
            let node = DefNode::Syntax {
                name: name.copy(alloc)?,
                fragment: None,
                body: joined_body(alloc, body, name, behind)?,
            };
            plain.push(Def {
                at: Span::NOWHERE,
                hints: Row::new(alloc),
                node,
            })
        }
        _ => plain.push(plain_def(alloc, def)?),
    }
}

/// The definitions without places, parentheses, `$( )`, fragments and all hints but the `mode`
/// hints of relations. The fragments of a syntax are joined at the first of them.
pub fn plain(alloc: Global, defs: &Row<Def>) -> Result<Row<Def>, NoMemory>
    ensures { IfOk result (λ plain. plain ≡ plain_defs defs.now) }
{
    let all = defs.as_slice();
    let mut plain = Row::new(alloc);
    for (i, def) in all.iter().enumerate() {
        push_joined(alloc, &all[..i], def, &all[i + 1..], &mut plain)?;
    }
    Ok(plain)
}
