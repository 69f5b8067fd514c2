//! What definitions of the internal language declare, list by list.

ghost use Rattle.std.specs.Prelude.{◌≡◌, [], ◌∷◌, ◌++◌, flat_map, IfOk, OnOk};
ghost use Rattle.st_elab_law.specs.Agreement.{syntaxes, var_in, fun_in, relation_in};

use st_il::{
    FunDef, IlDef, RelationDef, SyntaxDef, Ty, copy_fun, copy_relation, copy_syntax, copy_ty,
};
use st_num::{Name, NoMemory, Row};
use std::alloc::Global;

/// Adds the definition where it is a syntax.
fn push_syntax(alloc: Global, def: &IlDef, out: &mut Row<SyntaxDef>) -> Result<(), NoMemory>
    ensures { OnOk result (out.new ≡ out.old ++ syntaxes (def.now ∷ [])) }
{
    match def {
        IlDef::Syntax(syntax) => out.push(copy_syntax(alloc, syntax)?),
        IlDef::Var(_, _) | IlDef::Relation(_) | IlDef::Rule(_) => Ok(()),
        IlDef::Fun(_) | IlDef::Clause(_) => Ok(()),
    }
}

/// The syntaxes among definitions.
pub(crate) fn syntaxes_in(alloc: Global, defs: &[IlDef]) -> Result<Row<SyntaxDef>, NoMemory>
    ensures { IfOk result (λ out. out ≡ syntaxes defs.now) }
{
    let mut out = Row::new(alloc);
    for def in defs {
        push_syntax(alloc, def, &mut out)?;
    }
    Ok(out)
}

/// The types that definitions give to names of variables.
pub(crate) fn vars_in(alloc: Global, defs: &[IlDef]) -> Result<Row<(Name, Ty)>, NoMemory>
    ensures { IfOk result (λ out. out ≡ flat_map var_in defs.now) }
{
    let mut out = Row::new(alloc);
    for def in defs {
        if let IlDef::Var(name, ty) = def {
            let name = name.copy(alloc)?;
            out.push((name, copy_ty(alloc, ty)?))?;
        }
    }
    Ok(out)
}

/// The functions among definitions.
pub(crate) fn funs_in(alloc: Global, defs: &[IlDef]) -> Result<Row<FunDef>, NoMemory>
    ensures { IfOk result (λ out. out ≡ flat_map fun_in defs.now) }
{
    let mut out = Row::new(alloc);
    for def in defs {
        if let IlDef::Fun(fun) = def {
            out.push(copy_fun(alloc, fun)?)?;
        }
    }
    Ok(out)
}

/// The relations among definitions.
pub(crate) fn relations_in(alloc: Global, defs: &[IlDef]) -> Result<Row<RelationDef>, NoMemory>
    ensures { IfOk result (λ out. out ≡ flat_map relation_in defs.now) }
{
    let mut out = Row::new(alloc);
    for def in defs {
        if let IlDef::Relation(relation) = def {
            out.push(copy_relation(alloc, relation)?)?;
        }
    }
    Ok(out)
}
