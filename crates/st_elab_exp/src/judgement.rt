//! Judgements: expressions in the notation of a relation.

ghost use Rattle.std.specs.Prelude.{◌≡◌, IfOk};
ghost use Rattle.std.specs.Option.{option_copied};
ghost use Rattle.st_elab_rows.specs.Told.{Told};
ghost use Rattle.st_elab_table.specs.Judgements.{relation_named, case_of, Judged, JudgedBreach};

use crate::inside::check_fillings;
use st_dims::Within;
use st_el::Exp;
use st_elab_rows::choice::fill;
use st_elab_table::{Decls, ExpFault, NamedRow, Scope};
use st_il::{IlExp, RelationDef, copy_tys};
use st_num::{Name, NoMemory, Row, RuleId};
use st_types::CaseDef;
use std::alloc::Global;

/// The relation of this name.
pub fn relation_named<'a>(
    relations: &'a NamedRow<RelationDef>,
    name: &Name,
) -> Option<&'a RelationDef>
    ensures { option_copied result ≡ relation_named relations.now name.now }
{
    relations.first(name)
}

/// The notation of a relation, as that of a case.
fn case_of(alloc: Global, relation: &RelationDef) -> Result<CaseDef, NoMemory>
    ensures { IfOk result (λ case. case ≡ case_of relation.now) }
{
    let tag = relation.tag.copy(alloc)?;
    let operands = copy_tys(alloc, relation.holes.as_slice())?;
    Ok(CaseDef { tag, operands })
}

/// What stands in the holes of the relation where the expression is a judgement of it, or the
/// first breach.
pub fn judged(
    alloc: Global,
    decls: &Decls,
    scope: &Scope,
    within: &Within,
    relation: &RelationDef,
    exp: &Exp,
) -> Result<Row<IlExp>, ExpFault>
    ensures { Told (Judged decls.now scope.now within.now relation.now exp.now)
        (JudgedBreach decls.now scope.now within.now relation.now exp.now) result }
{
    let case = case_of(alloc, relation)?;
    let Some(filled) = fill(alloc, &decls.types, &case, exp)? else {
        return Err(ExpFault::Refused {
            at: exp.at,
            rule: RuleId::Y2,
        });
    };
    let tys = relation.holes.as_slice();
    check_fillings(alloc, decls, scope, within, exp.at, filled.as_slice(), tys)
}
