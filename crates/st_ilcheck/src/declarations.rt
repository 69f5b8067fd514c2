//! Whether the names that a definition cites are declared, once, and what it declares is new.

ghost use Rattle.std.specs.Prelude.{◌≡◌, ◌↔◌, ◌<◌, ◌++◌, [], ◌∷◌, IsTrue, IfOk, All, Some, None, length, map, take, slice_get};
ghost use Rattle.st_il.specs.declared.definition.IlDef.{IlDef};
ghost use Rattle.st_il.specs.declared.definition.SyntaxDef.{SyntaxDef};
ghost use Rattle.st_type_table.specs.Breach.{AllHold, conditions_on};
ghost use Rattle.st_type_table.specs.inner.Checking.{part_count};
ghost use Rattle.st_il.specs.Definitions.{syntaxes, syntaxes_in};
ghost use Rattle.st_ilcheck.specs.Declarations.{IsDeclared, AreNamed, IsOnceIn};
ghost use Rattle.st_ilcheck.specs.inner.Declared.{AreDeclared};
ghost use Rattle.st_ilcheck.specs.inner.Cited.{AreCitedOnce, CitesOnce};

use crate::cited::{Citations, cited_by};
use crate::declaring::{Declared, is_new};
use crate::names::Names;
use crate::once::all_once;
use crate::tagged::are_tags;
use st_il::{Il, IlDef, SyntaxBody, SyntaxDef, copy_syntax};
use st_num::{NoMemory, Row};
use st_type_table::{Bodies, Broken};
use std::alloc::Global;

/// The syntaxes with that of a definition behind them, if it is one.
fn with_syntax(
    alloc: Global,
    found: Row<SyntaxDef>,
    def: &IlDef,
) -> Result<Row<SyntaxDef>, NoMemory>
    ensures { IfOk result (λ longer. longer ≡ found ++ syntaxes_in (def.now ∷ [])) }
{
    match def {
        IlDef::Syntax(syntax) => {
            let syntax = copy_syntax(alloc, syntax)?;
            let mut longer = found;
            longer.push(syntax)?;
            Ok(longer)
        }
        IlDef::Var(_, _) | IlDef::Relation(_) | IlDef::Rule(_) => Ok(found),
        IlDef::Fun(_) | IlDef::Clause(_) => Ok(found),
    }
}

/// The syntaxes among definitions.
pub(crate) fn syntaxes_in(alloc: Global, defs: &[IlDef]) -> Result<Row<SyntaxDef>, NoMemory>
    ensures { IfOk result (λ found. found ≡ syntaxes_in defs.now) }
{
    let mut found = Row::new(alloc);
    for def in defs {
        let longer = with_syntax(alloc, found, def)?;
        found = longer;
    }
    Ok(found)
}

/// How many parts a body has.
fn part_count(body: &SyntaxBody) -> usize
    ensures { result ≡ part_count body.now }
{
    match body {
        SyntaxBody::Alias(_) => 1,
        SyntaxBody::Variant(alternatives) => alternatives.len(),
        SyntaxBody::Fields(fields) => fields.len(),
    }
}

/// Whether nothing was found.
fn is_nothing(found: &Option<Broken>) -> bool
    ensures { IsTrue result ↔ (found.now ≡ None) }
{
    match found {
        None => true,
        Some(_) => false,
    }
}

/// Whether the conditions on a syntax hold, behind those with these names.
fn keeps_syntax(
    alloc: Global,
    bodies: &Bodies,
    names: &Names,
    number: usize,
    syntax: &SyntaxDef,
) -> Result<bool, NoMemory>
    requires within { number < length bodies.now }
    requires there { slice_get bodies.now number ≡ Some syntax.now }
    requires names { names.now ≡ map (λ (s : SyntaxDef). s.name) (take number bodies.now) }
    ensures { IfOk result (λ kept. IsTrue kept
        ↔ AllHold bodies.now (conditions_on (take number bodies.now) syntax.now)) }
{
    if names.has(&syntax.name) {
        return Ok(false);
    }
    let found = bodies.check(alloc, number, 0, part_count(&syntax.body))?;
    Ok(is_nothing(&found))
}

/// Whether what a definition declares is not declared before; and of a syntax the conditions on
/// definitions of syntaxes hold, of a relation that on its mode.
fn is_declared(
    alloc: Global,
    il: &Il,
    bodies: &Bodies,
    before: &Declared,
    at: usize,
) -> Result<bool, NoMemory>
    requires within { at < length il.now.defs }
    requires bodies { bodies.now ≡ syntaxes il.now }
    requires before { AreDeclared (take at il.now.defs) before.now }
    ensures { IfOk result (λ kept. (d : IlDef) → slice_get il.now.defs at ≡ Some d
        → IsTrue kept ↔ IsDeclared il.now (take at il.now.defs) d) }
{
    let defs = il.defs.as_slice();
    let def = &defs[at];
    match def {
        IlDef::Syntax(syntax) => {
            let number = before.syntaxes.len();
            let kept = keeps_syntax(alloc, bodies, &before.syntaxes, number, syntax)?;
            Ok(kept)
        }
        _ => Ok(is_new(before, def)),
    }
}

/// Whether the relations and functions that are cited are declared, once.
fn relations_once(whole: &Declared, cited: &Citations) -> bool
    ensures { IsTrue result ↔ (All (IsOnceIn whole.now.relations) cited.now.relations
        × All (IsOnceIn whole.now.functions) cited.now.functions) }
{
    all_once(&whole.relations, cited.relations.as_slice())
        && all_once(&whole.functions, cited.functions.as_slice())
}

/// Whether the names that are cited are declared, once.
fn names_once(whole: &Declared, cited: &Citations) -> bool
    ensures { IsTrue result ↔ (All (IsOnceIn whole.now.syntaxes) cited.now.syntaxes
        × (All (IsOnceIn whole.now.relations) cited.now.relations
        × All (IsOnceIn whole.now.functions) cited.now.functions)) }
{
    all_once(&whole.syntaxes, cited.syntaxes.as_slice()) && relations_once(whole, cited)
}

/// Whether the names that are cited are declared, once, and the tags are templates with as many
/// holes as operands.
fn are_cited_once(alloc: Global, whole: &Declared, cited: &Citations) -> Result<bool, NoMemory>
    ensures { IfOk result (λ kept. IsTrue kept ↔ AreCitedOnce whole.now cited.now) }
{
    if !names_once(whole, cited) {
        return Ok(false);
    }
    let kept = are_tags(alloc, cited.tags.as_slice())?;
    Ok(kept)
}

/// Whether the names that a definition cites are declared, once, and its tags are templates with as
/// many holes as operands. What the language declares is given.
fn cites_once(alloc: Global, il: &Il, whole: &Declared, def: &IlDef) -> Result<bool, NoMemory>
    requires { AreDeclared il.now.defs whole.now }
    ensures { IfOk result (λ kept. IsTrue kept ↔ CitesOnce il.now def.now) }
{
    let cited = cited_by(alloc, def)?;
    let kept = are_cited_once(alloc, whole, &cited)?;
    Ok(kept)
}

/// Whether the definition at this place declares what is new, cites names that are declared once,
/// and has tags that are templates with as many holes as operands. What the language declares is
/// given, and what the definitions before this one do.
pub(crate) fn declarations_kept(
    alloc: Global,
    il: &Il,
    bodies: &Bodies,
    whole: &Declared,
    before: &Declared,
    at: usize,
) -> Result<bool, NoMemory>
    requires within { at < length il.now.defs }
    requires bodies { bodies.now ≡ syntaxes il.now }
    requires whole { AreDeclared il.now.defs whole.now }
    requires before { AreDeclared (take at il.now.defs) before.now }
    ensures { IfOk result (λ kept. (d : IlDef) → slice_get il.now.defs at ≡ Some d
        → IsTrue kept ↔ AreNamed il.now (take at il.now.defs) d) }
{
    let declared = is_declared(alloc, il, bodies, before, at)?;
    if !declared {
        return Ok(false);
    }
    let defs = il.defs.as_slice();
    let kept = cites_once(alloc, il, whole, &defs[at])?;
    Ok(kept)
}
