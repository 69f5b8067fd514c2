//! What types mean, where aliases may go in a circle.

ghost use Rattle.std.specs.Prelude.{◌≡◌, ◌↔◌, ℕ, List, IsTrue, IfOk, MatchOption};
ghost use Rattle.std.specs.Option.{option_copied};
ghost use Rattle.st_il.specs.declared.ty.Ty.{Ty};
ghost use Rattle.st_type_table.specs.Cases.{HasFields};
ghost use Rattle.st_type_table.specs.Meaning.{body_of, named, alias_of, fields_of, Means};
ghost use Rattle.st_type_table.specs.inner.Graph.{AreRanks, one_position};
ghost use Rattle.st_any_table.specs.inner.Heads.{heads_in, heads_of, head_graph, HeadEnds};

use crate::definitions::Definitions;
use crate::ranks::{Node, is_ranked};
use st_il::{SyntaxBody, Ty};
use st_num::{Name, NoMemory, Row};
use std::alloc::Global;

/// The number of the definition of a type that is a name.
pub(crate) fn head_of(defs: &Definitions, ty: &Ty) -> Option<usize>
    ensures { one_position result ≡ heads_in defs.now ty.now }
{
    match ty {
        Ty::Name(name) => defs.position_of(name),
        Ty::Bool | Ty::Nat | Ty::Int | Ty::Text => None,
        Ty::List(_) | Ty::Opt(_) | Ty::Tuple(_) => None,
    }
}

/// The number that there is, or none, as a row.
fn row_of(alloc: Global, position: Option<usize>) -> Result<Row<usize>, NoMemory>
    ensures { IfOk result (λ row. row ≡ one_position position) }
{
    match position {
        Some(position) => {
            let mut row = Row::new(alloc);
            row.push(position)?;
            Ok(row)
        }
        None => Ok(Row::new(alloc)),
    }
}

/// The number of the definition of the name that an alias stands for.
fn heads_of(alloc: Global, defs: &Definitions, body: &SyntaxBody) -> Result<Row<usize>, NoMemory>
    ensures { IfOk result (λ heads. heads ≡ heads_of defs.now body.now) }
{
    match body {
        SyntaxBody::Alias(ty) => row_of(alloc, head_of(defs, ty)),
        SyntaxBody::Variant(_) => Ok(Row::new(alloc)),
        SyntaxBody::Fields(_) => Ok(Row::new(alloc)),
    }
}

/// For each definition the number of the one that it leads to by the top of what it stands for.
pub(crate) fn head_graph(alloc: Global, defs: &Definitions) -> Result<Row<Node>, NoMemory>
    ensures { IfOk result (λ graph. graph ≡ head_graph defs.now) }
{
    let mut graph = Row::new(alloc);
    for number in 0..defs.len() {
        let heads = heads_of(alloc, defs, &defs.nth(number).body)?;
        graph.push(Some(heads))?;
    }
    Ok(graph)
}

/// The body of the first definition of this name.
fn body_of<'a>(defs: &'a Definitions, name: &Name) -> Option<&'a SyntaxBody>
    ensures { option_copied result ≡ body_of defs.now name.now }
{
    match defs.position_of(name) {
        Some(position) => Some(&defs.nth(position).body),
        None => None,
    }
}

/// The body that a type names.
fn body_named<'a>(defs: &'a Definitions, ty: &Ty) -> Option<&'a SyntaxBody>
    ensures { option_copied result ≡ named defs.now ty.now }
{
    match ty {
        Ty::Name(name) => body_of(defs, name),
        Ty::Bool | Ty::Nat | Ty::Int | Ty::Text => None,
        Ty::List(_) | Ty::Opt(_) | Ty::Tuple(_) => None,
    }
}

/// What the type stands for, where it is the name of an alias.
fn alias_of<'a>(defs: &'a Definitions, ty: &Ty) -> Option<&'a Ty>
    ensures { option_copied result ≡ alias_of defs.now ty.now }
{
    match body_named(defs, ty) {
        Some(SyntaxBody::Alias(written)) => Some(written),
        Some(SyntaxBody::Variant(_)) => None,
        Some(SyntaxBody::Fields(_)) => None,
        None => None,
    }
}

/// Whether the way along aliases from the top of the type ends.
fn ends(defs: &Definitions, ranks: &[usize], ty: &Ty) -> bool
    requires { AreRanks (head_graph defs.now) ranks.now }
    ensures { IsTrue result ↔ HeadEnds defs.now ty.now }
{
    match head_of(defs, ty) {
        Some(position) => is_ranked(ranks, position),
        None => true,
    }
}

/// The type without the aliases at its top, where they end.
fn followed<'a>(defs: &'a Definitions, ranks: &[usize], ty: &'a Ty) -> &'a Ty
    requires ranks { AreRanks (head_graph defs.now) ranks.now }
    requires ends { HeadEnds defs.now ty.now }
    ensures { Means defs.now ty.now result.now }
{
    let mut here = ty;
    while let Some(written) = alias_of(defs, here) {
        here = written;
    }
    here
}

/// The type without the aliases at its top, if they end.
pub(crate) fn meaning_of<'a>(defs: &'a Definitions, ranks: &[usize], ty: &'a Ty) -> Option<&'a Ty>
    requires { AreRanks (head_graph defs.now) ranks.now }
    ensures { MatchOption result ((u : Ty) → Means defs.now ty.now u → ⊥)
        (λ meaning. Means defs.now ty.now meaning.now) }
{
    if ends(defs, ranks, ty) {
        return Some(followed(defs, ranks, ty));
    }
    None
}

/// The fields of the type, where it is the name of a record.
fn fields_named<'a>(defs: &'a Definitions, ty: &Ty) -> Option<&'a [(Name, Ty)]>
    ensures { option_copied result ≡ fields_of defs.now ty.now }
{
    match body_named(defs, ty) {
        Some(SyntaxBody::Fields(fields)) => Some(fields.as_slice()),
        Some(SyntaxBody::Alias(_)) => None,
        Some(SyntaxBody::Variant(_)) => None,
        None => None,
    }
}

/// The fields of a record type.
pub(crate) fn fields_of<'a>(
    defs: &'a Definitions,
    ranks: &[usize],
    ty: &Ty,
) -> Option<&'a [(Name, Ty)]>
    requires { AreRanks (head_graph defs.now) ranks.now }
    ensures { MatchOption result
        ((fields : List (List ℕ × Ty)) → HasFields defs.now ty.now fields → ⊥)
        (λ fields. HasFields defs.now ty.now fields.now) }
{
    match meaning_of(defs, ranks, ty) {
        Some(meaning) => fields_named(defs, meaning),
        None => None,
    }
}
