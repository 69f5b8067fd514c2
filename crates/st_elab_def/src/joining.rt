//! The declarations of a source, the fragments of each syntax joined at the first one.

ghost use Rattle.std.specs.Prelude.{◌≡◌, [], ◌∷◌, ◌++◌, ℕ, List, Some, None, false, flat_map, if◌then◌else◌, IfOk, OnOk, MatchOption};
ghost use Rattle.st_el.specs.Erasure.{is_fragment_node, joined_at, alternatives_in};
ghost use Rattle.st_el.specs.declared.definition.Def.{Def};
ghost use Rattle.st_num.specs.Names.{same_name};
ghost use Rattle.st_elab_def.specs.DeclsOf.{alternative_of, declared_by};
ghost use Rattle.st_elab_def.specs.Fragments.{joined};
ghost use Rattle.st_elab_def.specs.inner.Gathering.{Gathered, Untaken, gathered_in, declared_fragment, IsFragmentOf};
ghost use Rattle.st_ilcheck.specs.Index.{at};

use crate::declared::{body_of, body_with, function_of, push_body, relation_of};
use indexmap::IndexMap;
use st_el::{Body, Def, DefNode};
use st_elab_sig::elaborate_typ;
use st_il::{Alternative, IlDef, SyntaxDef};
use st_ilcheck::index::put;
use st_num::{Name, NoMemory, Row};
use std::alloc::Global;

/// The alternatives of the fragments of each syntax, by its name; none where they were taken.
type Parts<'a> = IndexMap<&'a Name, Option<Row<Alternative>>>;

/// The alternatives that stood under a name.
fn found_of(alloc: Global, found: Option<Option<Row<Alternative>>>) -> Row<Alternative>
    ensures { result ≡ gathered_in found }
{
    match found {
        Some(Some(parts)) => parts,
        Some(None) | None => Row::new(alloc),
    }
}

/// Adds the alternatives of a fragment to those of its syntax.
fn gather_fragment<'a>(
    alloc: Global,
    name: &'a Name,
    body: &Body,
    parts: &mut Parts<'a>,
) -> Result<(), NoMemory>
    ensures { OnOk result ((q : List ℕ) → at parts.new.entries q
        ≡ (if same_name q name.now
        then Some (Some (gathered_in (at parts.old.entries name.now)
        ++ flat_map alternative_of (alternatives_in body.now)))
        else at parts.old.entries q)) }
{
    let mut all = found_of(alloc, put(parts, name, None)?);
    push_body(alloc, body, &mut all)?;
    let _none = put(parts, name, Some(all))?;
    Ok(())
}

/// The name and the body of a fragment, where the definition is one.
pub(crate) fn as_fragment(node: &DefNode) -> Option<(&Name, &Body)>
    ensures { MatchOption result ((q : List ℕ) → is_fragment_node q node.now ≡ false)
        (λ found. IsFragmentOf node.now found.0.now found.1.now) }
{
    match node {
        DefNode::Syntax {
            name,
            fragment,
            body,
        } => match fragment {
            Some(_piece) => Some((name, body)),
            None => None,
        },
        DefNode::Var { .. } => None,
        DefNode::Relation { .. } => None,
        DefNode::Rule { .. } => None,
        DefNode::Fun { .. } => None,
        DefNode::Clause { .. } => None,
    }
}

/// Adds the alternatives of a definition where it is a fragment.
fn gather<'a>(alloc: Global, node: &'a DefNode, parts: &mut Parts<'a>) -> Result<(), NoMemory>
    ensures { OnOk result ((before : List Def) (def : Def) → def.node ≡ node.now
        → Gathered before parts.old.entries → Gathered (before ++ def ∷ []) parts.new.entries) }
{
    match as_fragment(node) {
        Some(found) => gather_fragment(alloc, found.0, found.1, parts),
        None => Ok(()),
    }
}

/// The alternatives of the fragments of each syntax.
fn gathered<'a>(alloc: Global, defs: &'a [Def]) -> Result<Parts<'a>, NoMemory>
    ensures { IfOk result (λ parts. Gathered defs.now parts.entries) }
{
    let mut parts = IndexMap::new(alloc);
    for def in defs {
        gather(alloc, &def.node, &mut parts)?;
    }
    Ok(parts)
}

/// Adds the syntax of these fragments at the first one.
fn push_fragment<'a>(
    alloc: Global,
    name: &'a Name,
    body: &Body,
    parts: &mut Parts<'a>,
    out: &mut Row<IlDef>,
) -> Result<(), NoMemory>
    ensures taken { OnOk result ((q : List ℕ) → at parts.new.entries q
        ≡ (if same_name q name.now then Some None else at parts.old.entries q)) }
    ensures pushed { OnOk result (out.new
        ≡ out.old ++ declared_fragment name.now body.now (at parts.old.entries name.now)) }
{
    let Some(Some(alternatives)) = put(parts, name, None)? else {
        return Ok(());
    };
    let body = body_with(alloc, body, alternatives)?;
    let name = name.copy(alloc)?;
    out.push(IlDef::Syntax(SyntaxDef { name, body }))
}

/// Adds what a definition declares by itself.
fn push_own(alloc: Global, def: &Def, out: &mut Row<IlDef>) -> Result<(), NoMemory>
    ensures { OnOk result (out.new ≡ out.old ++ declared_by def.now) }
{
    match &def.node {
        DefNode::Syntax { name, body, .. } => {
            let name = name.copy(alloc)?;
            let body = body_of(alloc, body)?;
            out.push(IlDef::Syntax(SyntaxDef { name, body }))
        }
        DefNode::Var { name, typ } => {
            let name = name.copy(alloc)?;
            out.push(IlDef::Var(name, elaborate_typ(alloc, typ)?))
        }
        DefNode::Relation { name, notation } => {
            let relation = relation_of(alloc, def.hints.as_slice(), name, notation)?;
            out.push(IlDef::Relation(relation))
        }
        DefNode::Fun {
            name,
            params,
            result: value,
        } => {
            let fun = function_of(alloc, name, params.as_slice(), value)?;
            out.push(IlDef::Fun(fun))
        }
        DefNode::Rule { .. } | DefNode::Clause { .. } => Ok(()),
    }
}

/// Adds what a definition declares; the fragments of a syntax declare it at the first one.
fn push_declared<'a>(
    alloc: Global,
    def: &'a Def,
    parts: &mut Parts<'a>,
    out: &mut Row<IlDef>,
) -> Result<(), NoMemory>
    ensures pushed { OnOk result ((before behind : List Def)
        → Untaken before (def.now ∷ behind) parts.old.entries
        → out.new ≡ out.old ++ flat_map declared_by (joined_at before def.now behind)) }
    ensures left { OnOk result ((before behind : List Def)
        → Untaken before (def.now ∷ behind) parts.old.entries
        → Untaken (before ++ def.now ∷ []) behind parts.new.entries) }
{
    match as_fragment(&def.node) {
        Some(found) => push_fragment(alloc, found.0, found.1, parts, out),
        None => push_own(alloc, def, out),
    }
}

/// What the definitions declare, in their order, the fragments of each syntax joined.
pub(crate) fn declared(alloc: Global, defs: &[Def]) -> Result<Row<IlDef>, NoMemory>
    ensures { IfOk result (λ out. out ≡ flat_map declared_by (joined defs.now)) }
{
    let mut parts = gathered(alloc, defs)?;
    let mut out = Row::new(alloc);
    for def in defs {
        push_declared(alloc, def, &mut parts, &mut out)?;
    }
    Ok(out)
}
