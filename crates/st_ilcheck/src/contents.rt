//! What stands in expressions: names of syntaxes and functions, tags, indices and variables.

ghost use Rattle.std.specs.Prelude.{◌≡◌, ◌++◌, [], ◌∷◌, map, IfOk, OnOk};
ghost use Rattle.st_il.specs.declared.expression.IlExp.{out-IlExp};
ghost use Rattle.st_semantics.specs.Iterations.{index_of, kind_of, count_of};
ghost use Rattle.st_il.specs.Names.{has_name};
ghost use Rattle.st_type_table.specs.Leads.{names_in, joined as joined_names};
ghost use Rattle.st_ilcheck.specs.Variables.{inside};
ghost use Rattle.st_ilcheck.specs.inner.Contents.{nothing, joined, own_at, within, IsContents, AreContents, IsWithin};
ghost use Rattle.st_semantics.specs.References.{exps_now};

use crate::found::kind_of;
use crate::rows::append;
use st_il::{IlExp, Iteration, Ty};
use st_num::{Kind, Name, NoMemory, Row};
use st_semantics::operands::{count_of, each, operands};
use std::alloc::Global;

/// An occurrence of a variable: its name, and the kinds of the iterations round it, outermost
/// first.
pub(crate) type Occurrence = (Name, Row<Kind>);

/// What stands in expressions. A tag stands with the number of its operands.
#[derive(Drop)]
pub(crate) struct Contents {
    pub(crate) syntaxes: Row<Name>,
    pub(crate) functions: Row<Name>,
    pub(crate) tags: Row<(Name, usize)>,
    pub(crate) indices: Row<Name>,
    pub(crate) occurrences: Row<Occurrence>,
}

/// Nothing.
pub(crate) fn nothing(alloc: Global) -> Contents
    ensures { result ≡ nothing }
{
    Contents {
        syntaxes: Row::new(alloc),
        functions: Row::new(alloc),
        tags: Row::new(alloc),
        indices: Row::new(alloc),
        occurrences: Row::new(alloc),
    }
}

/// What stands in either.
pub(crate) fn join(first: Contents, others: Contents) -> Result<Contents, NoMemory>
    ensures { IfOk result (λ all. all ≡ joined first others) }
{
    let syntaxes = append(first.syntaxes, others.syntaxes)?;
    let functions = append(first.functions, others.functions)?;
    let tags = append(first.tags, others.tags)?;
    let indices = append(first.indices, others.indices)?;
    let occurrences = append(first.occurrences, others.occurrences)?;
    Ok(Contents {
        syntaxes,
        functions,
        tags,
        indices,
        occurrences,
    })
}

/// Appends the names in a type, in order.
#[cycle(names)]
pub(crate) fn add_names(alloc: Global, ty: &Ty, names: &mut Row<Name>) -> Result<(), NoMemory>
    ensures { OnOk result (names.new ≡ names.old ++ names_in ty.now) }
{
    match ty {
        Ty::Bool | Ty::Nat | Ty::Int | Ty::Text => Ok(()),
        Ty::Name(name) => {
            let name = name.copy(alloc)?;
            names.push(name)
        }
        Ty::List(inner) => add_names(alloc, inner.get(), names),
        Ty::Opt(inner) => add_names(alloc, inner.get(), names),
        Ty::Tuple(parts) => add_all_names(alloc, parts.as_slice(), names),
    }
}

/// Appends the names in types, in order.
#[cycle(names)]
fn add_all_names(alloc: Global, tys: &[Ty], names: &mut Row<Name>) -> Result<(), NoMemory>
    ensures { OnOk result (names.new ≡ names.old ++ joined_names (map names_in tys.now)) }
{
    for ty in tys {
        add_names(alloc, ty, names)?;
    }
    Ok(())
}

/// An occurrence of a variable, in no iteration.
fn of_variable(alloc: Global, name: &Name) -> Result<Contents, NoMemory>
    ensures { IfOk result (λ own. own ≡ record {
      syntaxes = [];
      functions = [];
      tags = [];
      indices = [];
      occurrences = (name.now, []) ∷ [];
    }) }
{
    let name = name.copy(alloc)?;
    let mut own = nothing(alloc);
    own.occurrences.push((name, Row::new(alloc)))?;
    Ok(own)
}

/// The name of a syntax.
fn of_syntax(alloc: Global, name: &Name) -> Result<Contents, NoMemory>
    ensures { IfOk result (λ own. own ≡ record {
      syntaxes = name.now ∷ [];
      functions = [];
      tags = [];
      indices = [];
      occurrences = [];
    }) }
{
    let name = name.copy(alloc)?;
    let mut own = nothing(alloc);
    own.syntaxes.push(name)?;
    Ok(own)
}

/// The name of a syntax, and a tag with so many operands.
fn of_case(alloc: Global, name: &Name, tag: &Name, count: usize) -> Result<Contents, NoMemory>
    ensures { IfOk result (λ own. own ≡ record {
      syntaxes = name.now ∷ [];
      functions = [];
      tags = (tag.now, count) ∷ [];
      indices = [];
      occurrences = [];
    }) }
{
    let tag = tag.copy(alloc)?;
    let mut own = of_syntax(alloc, name)?;
    own.tags.push((tag, count))?;
    Ok(own)
}

/// The names in a type.
fn of_type(alloc: Global, ty: &Ty) -> Result<Contents, NoMemory>
    ensures { IfOk result (λ own. own ≡ record {
      syntaxes = names_in ty.now;
      functions = [];
      tags = [];
      indices = [];
      occurrences = [];
    }) }
{
    let mut names = Row::new(alloc);
    add_names(alloc, ty, &mut names)?;
    Ok(Contents {
        syntaxes: names,
        functions: Row::new(alloc),
        tags: Row::new(alloc),
        indices: Row::new(alloc),
        occurrences: Row::new(alloc),
    })
}

/// The name of a function.
fn of_call(alloc: Global, fun: &Name) -> Result<Contents, NoMemory>
    ensures { IfOk result (λ own. own ≡ record {
      syntaxes = [];
      functions = fun.now ∷ [];
      tags = [];
      indices = [];
      occurrences = [];
    }) }
{
    let fun = fun.copy(alloc)?;
    let mut own = nothing(alloc);
    own.functions.push(fun)?;
    Ok(own)
}

/// The index of an iteration, if it has one.
pub(crate) fn of_iteration(alloc: Global, how: &Iteration) -> Result<Contents, NoMemory>
    ensures { IfOk result (λ own. own ≡ record {
      syntaxes = [];
      functions = [];
      tags = [];
      indices = index_of how.now;
      occurrences = [];
    }) }
{
    let mut own = nothing(alloc);
    match how {
        Iteration::Below(index, _) => {
            let index = index.copy(alloc)?;
            own.indices.push(index)?;
            Ok(own)
        }
        Iteration::Star | Iteration::Plus | Iteration::Quest | Iteration::Times(_) => Ok(own),
    }
}

/// What stands in an expression itself, and not in its parts.
fn own(alloc: Global, exp: &IlExp) -> Result<Contents, NoMemory>
    ensures { IfOk result (λ own. own ≡ own_at (out-IlExp exp.now)) }
{
    match exp {
        IlExp::Var(name) => of_variable(alloc, name),
        IlExp::Case(name, tag, parts) => of_case(alloc, name, tag, parts.len()),
        IlExp::Fields(name, _) => of_syntax(alloc, name),
        IlExp::List(ty, _) | IlExp::Empty(ty) => of_type(alloc, ty),
        IlExp::Absent(ty) | IlExp::Up(ty, _) => of_type(alloc, ty),
        IlExp::Call(fun, _) => of_call(alloc, fun),
        IlExp::Iter(how, _, _) => of_iteration(alloc, how),
        _ => Ok(nothing(alloc)),
    }
}

/// Whether the name is the index of the iteration.
fn is_index(how: &Iteration, name: &Name) -> bool
    ensures { result ≡ has_name (index_of how.now) name.now }
{
    match how {
        Iteration::Below(index, _) => name.as_slice() == index.as_slice(),
        Iteration::Star | Iteration::Plus | Iteration::Quest | Iteration::Times(_) => false,
    }
}

/// Kinds with one more before them.
fn deeper(alloc: Global, kind: Kind, kinds: &[Kind]) -> Result<Row<Kind>, NoMemory>
    ensures { IfOk result (λ whole. whole ≡ kind ∷ kinds.now) }
{
    let mut whole = Row::new(alloc);
    whole.push(kind)?;
    let kinds = Row::from_slice(alloc, kinds)?;
    let whole = append(whole, kinds)?;
    Ok(whole)
}

/// The occurrences with one more behind them, which stands in the body of an iteration, unless it
/// is its index.
fn with_inside(
    alloc: Global,
    how: &Iteration,
    found: Row<Occurrence>,
    occurrence: &Occurrence,
) -> Result<Row<Occurrence>, NoMemory>
    ensures { IfOk result (λ longer. longer ≡ found
        ++ inside (index_of how.now) (kind_of how.now) (occurrence.now ∷ [])) }
{
    if is_index(how, &occurrence.0) {
        return Ok(found);
    }
    let name = occurrence.0.copy(alloc)?;
    let kinds = deeper(alloc, kind_of(how), occurrence.1.as_slice())?;
    let mut longer = found;
    longer.push((name, kinds))?;
    Ok(longer)
}

/// The occurrences in the body of an iteration, without those of its index.
fn inside(
    alloc: Global,
    how: &Iteration,
    occurrences: &[Occurrence],
) -> Result<Row<Occurrence>, NoMemory>
    ensures { IfOk result (λ found.
        found ≡ inside (index_of how.now) (kind_of how.now) occurrences.now) }
{
    let mut found = Row::new(alloc);
    for occurrence in occurrences {
        let longer = with_inside(alloc, how, found, occurrence)?;
        found = longer;
    }
    Ok(found)
}

/// What stands in the body of an iteration.
pub(crate) fn within(alloc: Global, how: &Iteration, body: Contents) -> Result<Contents, NoMemory>
    ensures { IfOk result (λ found. found ≡ within how.now body) }
{
    let Contents {
        syntaxes,
        functions,
        tags,
        indices,
        occurrences,
    } = body;
    let occurrences = inside(alloc, how, occurrences.as_slice())?;
    Ok(Contents {
        syntaxes,
        functions,
        tags,
        indices,
        occurrences,
    })
}

/// What stands in an expression.
#[cycle(contents)]
pub(crate) fn contents_of(alloc: Global, exp: &IlExp) -> Result<Contents, NoMemory>
    ensures { IfOk result (λ found. IsContents exp.now found) }
{
    let own = own(alloc, exp)?;
    match exp {
        IlExp::Iter(how, _, body) => {
            let parts = in_iteration(alloc, how, body.get())?;
            let all = join(own, parts)?;
            Ok(all)
        }
        _ => {
            let exps = operands(alloc, exp)?;
            let parts = contents_in(alloc, exps.as_slice())?;
            let all = join(own, parts)?;
            Ok(all)
        }
    }
}

/// What stands in several expressions.
#[cycle(contents)]
pub(crate) fn contents_in(alloc: Global, exps: &[&IlExp]) -> Result<Contents, NoMemory>
    ensures { IfOk result (λ found. AreContents (exps_now exps.now) found) }
{
    let mut found = nothing(alloc);
    for i in 0..exps.len() {
        let more = contents_of(alloc, exps[i])?;
        let longer = join(found, more)?;
        found = longer;
    }
    Ok(found)
}

/// What stands in the count of an iteration and in its body.
#[cycle(contents)]
fn in_iteration(alloc: Global, how: &Iteration, body: &IlExp) -> Result<Contents, NoMemory>
    ensures { IfOk result (λ found. IsWithin how.now body.now found) }
{
    let exps = count_of(alloc, how)?;
    let counted = contents_in(alloc, exps.as_slice())?;
    let found = contents_of(alloc, body)?;
    let inner = within(alloc, how, found)?;
    let all = join(counted, inner)?;
    Ok(all)
}

/// What stands in several expressions.
pub(crate) fn contents_of_all(alloc: Global, exps: &[IlExp]) -> Result<Contents, NoMemory>
    ensures { IfOk result (λ found. AreContents exps.now found) }
{
    let exps = each(alloc, exps)?;
    let found = contents_in(alloc, exps.as_slice())?;
    Ok(found)
}
