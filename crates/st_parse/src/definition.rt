//! Whole definitions.

ghost use Rattle.std.specs.Prelude.{◌≡◌, IfOk, Some};
ghost use Rattle.st_el.specs.declared.definition.DefNode.TheVariants as def;
ghost use Rattle.st_el.specs.declared.notation.NotNode.{out-NotNode};
ghost use Rattle.st_el.specs.declared.notation.Notation.{out-Notation};
ghost use Rattle.st_parse.specs.inner.Drafts as spec;

use crate::change::DefinitionEnd;
use crate::draft::{Draft, Head, Members, Premises, Sides};
use crate::head::no_hint;
use crate::members::no_members;
use crate::premise::{premises_so_far, whole_premises};
use crate::sides::no_sides;
use st_el::{Body, Def, DefNode, NotNode, Notation, Prem, Typ};
use st_num::{Name, NoMemory, Row, Span};
use std::alloc::Global;

/// An alias, or one alternative without dots.
fn alias_or(alloc: Global, notation: Notation) -> Result<Body, NoMemory>
    ensures { IfOk result (λ body.
        body ≡ spec.alias_or (out-NotNode (out-Notation notation).node) notation) }
{
    let Notation { at, node } = notation;
    match node {
        NotNode::Hole(typ) => Ok(Body::Alias(typ)),
        node => {
            let mut cases = Row::new(alloc);
            cases.push(Notation { at, node })?;
            Ok(Body::Cases {
                before: false,
                cases,
                after: false,
            })
        }
    }
}

/// The body of these alternatives. One without dots that is a type is an alias.
fn body_of(
    alloc: Global,
    before: bool,
    mut cases: Row<Notation>,
    after: bool,
) -> Result<Body, NoMemory>
    ensures { IfOk result (λ body. body ≡ spec.body_of before cases after) }
{
    if before || after || cases.len() != 1 {
        return Ok(Body::Cases {
            before,
            cases,
            after,
        });
    }
    match cases.pop() {
        Some(notation) => alias_or(alloc, notation),
        None => Ok(Body::Cases {
            before,
            cases,
            after,
        }),
    }
}

/// The declaration of a variable, where its type is known.
fn var_of(name: Name, typ: Option<Typ>) -> Option<DefNode>
    ensures { result ≡ spec.var_of name typ }
{
    match typ {
        None => None,
        Some(typ) => Some(DefNode::Var { name, typ }),
    }
}

/// The declaration of a relation, where its one notation is known.
fn relation_of(name: Name, mut notations: Row<Notation>) -> Option<DefNode>
    ensures { result ≡ spec.relation_of name notations }
{
    if notations.len() != 1 {
        return None;
    }
    match notations.pop() {
        None => None,
        Some(notation) => Some(DefNode::Relation { name, notation }),
    }
}

/// The declaration of a function, where the type of its result is known.
fn fun_of(name: Name, params: Row<Typ>, typ: Option<Typ>) -> Option<DefNode>
    ensures { result ≡ spec.fun_of name params typ }
{
    match typ {
        None => None,
        Some(typ) => Some(DefNode::Fun {
            name,
            params,
            result: typ,
        }),
    }
}

/// The name, and the empty one where there is none.
fn or_empty(alloc: Global, name: Option<Name>) -> Name
    ensures { result ≡ spec.or_empty name }
{
    match name {
        None => Row::new(alloc),
        Some(name) => name,
    }
}

/// A rule or a clause, where its conclusion or result is known.
fn rule_of(alloc: Global, head: Head, sides: Sides, premises: Row<Prem>) -> Option<DefNode>
    ensures { result ≡ spec.rule_of head sides sides.exp premises }
{
    let Sides {
        clause,
        args,
        exp,
        ..
    } = sides;
    let Some(exp) = exp else {
        return None;
    };
    if clause {
        return Some(DefNode::Clause {
            name: head.name,
            args,
            result: exp,
            premises,
        });
    }
    Some(DefNode::Rule {
        relation: head.name,
        name: or_empty(alloc, head.id),
        conclusion: exp,
        premises,
    })
}

/// A syntax with these alternatives.
fn cases_of(alloc: Global, head: Head, members: Members, after: bool) -> Result<DefNode, NoMemory>
    ensures { IfOk result (λ node. node ≡ def.Syntax head.name head.id
        (spec.body_of members.dots members.notations after)) }
{
    let body = body_of(alloc, members.dots, members.notations, after)?;
    Ok(DefNode::Syntax {
        name: head.name,
        fragment: head.id,
        body,
    })
}

/// What the open definition is, where it ends so.
fn node_of(
    alloc: Global,
    ending: DefinitionEnd,
    head: Head,
    members: Members,
    sides: Sides,
    premises: Premises,
) -> Result<Option<DefNode>, NoMemory>
    ensures { IfOk result (λ node. node ≡ spec.node_of ending head members sides premises) }
{
    match ending {
        DefinitionEnd::Nothing => Ok(None),
        DefinitionEnd::Fields => Ok(Some(DefNode::Syntax {
            name: head.name,
            fragment: head.id,
            body: Body::Fields(members.fields),
        })),
        DefinitionEnd::Cases(after) => Ok(Some(cases_of(alloc, head, members, after)?)),
        DefinitionEnd::Var => Ok(var_of(head.name, sides.typ)),
        DefinitionEnd::Relation => Ok(relation_of(head.name, members.notations)),
        DefinitionEnd::Fun => Ok(fun_of(head.name, sides.params, sides.typ)),
        DefinitionEnd::Rule => {
            let whole = whole_premises(premises, false)?;
            Ok(rule_of(alloc, head, sides, whole))
        }
        DefinitionEnd::Condition => {
            let whole = whole_premises(premises, true)?;
            Ok(rule_of(alloc, head, sides, whole))
        }
    }
}

/// A definition begins there, behind these.
pub(crate) fn begun(alloc: Global, defs: Row<Def>, at: Span) -> Draft
    ensures { result ≡ spec.begun defs at }
{
    Draft {
        defs,
        head: Head {
            at,
            name: Row::new(alloc),
            id: None,
        },
        hints: Row::new(alloc),
        hint: no_hint(alloc),
        members: no_members(alloc),
        sides: no_sides(alloc),
        premises: premises_so_far(alloc, Row::new(alloc)),
    }
}

/// All definitions, where the open one ends so.
fn ended(alloc: Global, ending: DefinitionEnd, draft: Draft) -> Result<Row<Def>, NoMemory>
    ensures { IfOk result (λ defs. defs ≡ spec.ended ending draft) }
{
    let Draft {
        mut defs,
        head,
        hints,
        members,
        sides,
        premises,
        ..
    } = draft;
    let at = head.at;
    if let Some(node) = node_of(alloc, ending, head, members, sides, premises)? {
        defs.push(Def { at, hints, node })?;
    }
    Ok(defs)
}

/// The open definition ends so, and a next one begins there.
pub(crate) fn turn(
    alloc: Global,
    ending: DefinitionEnd,
    draft: &mut Draft,
    at: Span,
) -> Result<(), NoMemory>
    ensures { IfOk result (λ _. draft.new ≡ spec.begun (spec.ended ending draft.old) at) }
{
    let old = std::mem::replace(draft, begun(alloc, Row::new(alloc), at));
    draft.defs = ended(alloc, ending, old)?;
    Ok(())
}
