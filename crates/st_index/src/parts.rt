//! The syntaxes, relations and functions among the definitions of an internal language.

ghost use Rattle.std.specs.Prelude.{◌≡◌, ◌++◌, ◌∷◌, [], IfOk, OnOk};
ghost use Rattle.st_il.specs.Definitions.{syntaxes_in, relations_in, funs_in};
ghost use Rattle.st_index.specs.Names.{all_now};

use st_il::{FunDef, IlDef, RelationDef, SyntaxDef};
use st_num::{NoMemory, Row};
use std::alloc::Global;

/// Adds a definition that is a syntax.
fn push_syntax<'a>(definition: &'a IlDef, syntaxes: &mut Row<&'a SyntaxDef>) -> Result<(), NoMemory>
    ensures { OnOk result (all_now syntaxes.new
        ≡ all_now syntaxes.old ++ syntaxes_in (definition.now ∷ [])) }
{
    match definition {
        IlDef::Syntax(syntax) => syntaxes.push(syntax),
        IlDef::Var(_, _) | IlDef::Relation(_) | IlDef::Rule(_) => Ok(()),
        IlDef::Fun(_) | IlDef::Clause(_) => Ok(()),
    }
}

/// The syntaxes among some definitions, in order.
pub(crate) fn syntaxes<'a>(alloc: Global, defs: &'a [IlDef]) -> Result<Row<&'a SyntaxDef>, NoMemory>
    ensures { IfOk result (λ syntaxes. all_now syntaxes ≡ syntaxes_in defs.now) }
{
    let mut syntaxes = Row::new(alloc);
    for definition in defs {
        push_syntax(definition, &mut syntaxes)?;
    }
    Ok(syntaxes)
}

/// Adds a definition that is a relation.
fn push_relation<'a>(
    definition: &'a IlDef,
    relations: &mut Row<&'a RelationDef>,
) -> Result<(), NoMemory>
    ensures { OnOk result (all_now relations.new
        ≡ all_now relations.old ++ relations_in (definition.now ∷ [])) }
{
    match definition {
        IlDef::Relation(relation) => relations.push(relation),
        IlDef::Syntax(_) | IlDef::Var(_, _) | IlDef::Rule(_) => Ok(()),
        IlDef::Fun(_) | IlDef::Clause(_) => Ok(()),
    }
}

/// The relations among some definitions, in order.
pub(crate) fn relations<'a>(
    alloc: Global,
    defs: &'a [IlDef],
) -> Result<Row<&'a RelationDef>, NoMemory>
    ensures { IfOk result (λ relations. all_now relations ≡ relations_in defs.now) }
{
    let mut relations = Row::new(alloc);
    for definition in defs {
        push_relation(definition, &mut relations)?;
    }
    Ok(relations)
}

/// Adds a definition that is a function.
fn push_function<'a>(definition: &'a IlDef, functions: &mut Row<&'a FunDef>) -> Result<(), NoMemory>
    ensures { OnOk result (all_now functions.new
        ≡ all_now functions.old ++ funs_in (definition.now ∷ [])) }
{
    match definition {
        IlDef::Fun(fun) => functions.push(fun),
        IlDef::Syntax(_) | IlDef::Var(_, _) | IlDef::Relation(_) => Ok(()),
        IlDef::Rule(_) | IlDef::Clause(_) => Ok(()),
    }
}

/// The functions among some definitions, in order.
pub(crate) fn functions<'a>(alloc: Global, defs: &'a [IlDef]) -> Result<Row<&'a FunDef>, NoMemory>
    ensures { IfOk result (λ functions. all_now functions ≡ funs_in defs.now) }
{
    let mut functions = Row::new(alloc);
    for definition in defs {
        push_function(definition, &mut functions)?;
    }
    Ok(functions)
}
