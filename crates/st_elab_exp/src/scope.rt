//! The scope of a rule or clause: its variables with their types and dimensions.

ghost use Rattle.std.specs.Prelude.{◌≡◌, ◌≢◌, ◌∷◌, [], map, None, Some, IfOk};
ghost use Rattle.std.specs.List.{AllByRecursion};
ghost use Rattle.std.specs.Option.{option_to_list};
ghost use Rattle.st_dims.specs.Dimensions.{IsOnlyTable};
ghost use Rattle.st_dims.specs.Breaches.{IsFirst, IsSound};
ghost use Rattle.st_elab_table.specs.declared.decls.Decls.{Decls};
ghost use Rattle.st_elab_table.specs.Variables.{type_of_name};
ghost use Rattle.st_elab_rows.specs.Told.{Told};
ghost use Rattle.st_elab_table.specs.Scopes.{untyped, table_of, HasItsType, IsScope, VariableBreach, listed};
ghost use Rattle.st_elab_exp.specs.inner.Typing.{AreTyped};

use st_dims::{DimFault, Mention, dimensions_of};
use st_elab_rows::variable::type_of_name;
use st_elab_table::{Decls, ExpFault, Scope};
use st_il::{Listed, Ty, copy_ty};
use st_num::{Dim, Name, NoMemory, Row, RuleId, Span};
use std::alloc::Global;

/// The place of an occurrence whose name leads to no type.
fn untyped_at(alloc: Global, decls: &Decls, mention: &Mention) -> Result<Option<Span>, NoMemory>
    ensures { IfOk result (λ found. option_to_list found ≡ untyped decls.now (mention.now ∷ [])) }
{
    match mention {
        Mention::Occurs(occurrence) => match type_of_name(alloc, decls, &occurrence.name)? {
            Some(_) => Ok(None),
            None => Ok(Some(occurrence.at)),
        },
        Mention::Indexes(_) | Mention::Iterates(_) => Ok(None),
    }
}

/// The place of the first occurrence whose name leads to no type.
fn first_untyped(
    alloc: Global,
    decls: &Decls,
    mentions: &[Mention],
) -> Result<Option<Span>, NoMemory>
    ensures { IfOk result (λ found. IsFirst found (untyped decls.now mentions.now)) }
{
    for mention in mentions {
        if let Some(at) = untyped_at(alloc, decls, mention)? {
            return Ok(Some(at));
        }
    }
    Ok(None)
}

/// The dimension of each variable, or the first breach of a rule on dimensions.
fn dimensions(alloc: Global, mentions: &[Mention]) -> Result<Row<(Name, Dim)>, ExpFault>
    ensures { (D : Decls) → untyped D mentions.now ≡ []
        → Told (λ table. IsOnlyTable mentions.now table × IsSound mentions.now table)
        (VariableBreach D mentions.now) result }
{
    match dimensions_of(alloc, mentions) {
        Ok(table) => Ok(table),
        Err(DimFault::I1(at)) => Err(ExpFault::Refused {
            at,
            rule: RuleId::I1,
        }),
        Err(DimFault::I2(at)) => Err(ExpFault::Refused {
            at,
            rule: RuleId::I2,
        }),
        Err(DimFault::Memory) => Err(ExpFault::Memory),
    }
}

/// The type that the name leads to.
fn type_of(alloc: Global, decls: &Decls, name: &Name) -> Result<Ty, NoMemory>
    requires { type_of_name decls.now name.now ≢ None }
    ensures { IfOk result (λ ty. type_of_name decls.now name.now ≡ Some ty) }
{
    match type_of_name(alloc, decls, name)? {
        Some(ty) => Ok(ty),
        None => unreachable!(),
    }
}

/// The variables with their types.
fn typed(
    alloc: Global,
    decls: &Decls,
    table: &[(Name, Dim)],
) -> Result<Row<(Name, Ty, Dim)>, NoMemory>
    requires { AreTyped decls.now table.now }
    ensures table { IfOk result (λ variables. table_of variables ≡ table.now) }
    ensures types { IfOk result (AllByRecursion (HasItsType decls.now)) }
{
    let mut variables = Row::new(alloc);
    for entry in table {
        let ty = type_of(alloc, decls, &entry.0)?;
        let dim = Dim::from_slice(alloc, entry.1.as_slice())?;
        variables.push((entry.0.copy(alloc)?, ty, dim))?;
    }
    Ok(variables)
}

/// The scope of a rule or clause that mentions this, or the first breach at a variable.
pub fn scope_of(alloc: Global, decls: &Decls, mentions: &[Mention]) -> Result<Scope, ExpFault>
    ensures { Told (IsScope decls.now mentions.now) (VariableBreach decls.now mentions.now)
        result }
{
    if let Some(at) = first_untyped(alloc, decls, mentions)? {
        return Err(ExpFault::Refused {
            at,
            rule: RuleId::B3,
        });
    }
    let table = dimensions(alloc, mentions)?;
    let variables = typed(alloc, decls, table.as_slice())?;
    Ok(Scope {
        variables,
        around: Dim::new(alloc),
    })
}

/// The variables, as a rule or clause lists them.
pub fn listed(alloc: Global, scope: &Scope) -> Result<Row<Listed>, NoMemory>
    ensures { IfOk result (λ all. all ≡ map listed scope.now.variables) }
{
    let mut all = Row::new(alloc);
    for variable in scope.variables.as_slice() {
        let name = variable.0.copy(alloc)?;
        let ty = copy_ty(alloc, &variable.1)?;
        let dim = Dim::from_slice(alloc, variable.2.as_slice())?;
        all.push(Listed { name, ty, dim })?;
    }
    Ok(all)
}
