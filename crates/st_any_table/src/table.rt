//! The table of any syntaxes.

use crate::below::is_below;
use crate::equal::are_equal;
use crate::flats::{first_operands, flat_of_type};
use crate::heads::{fields_of, meaning_of};
use crate::joining::joins;
use crate::survey::{Survey, survey_of};
use st_il::{SyntaxDef, Ty};
use st_num::{Name, NoMemory, Row};
use std::alloc::Global;
use std::marker::Model;

/// Definitions of syntaxes, some of which may break a rule. Contracts see them as they were given.
#[derive(Drop)]
pub struct AnyTable {
    survey: Survey,
}

impl Model for AnyTable {
    ghost use Rattle.std.specs.Prelude.{List};
    ghost use Rattle.std.specs.Coded.{codes};
    ghost use Rattle.st_il.specs.declared.definition.SyntaxDef.{SyntaxDef};
    ghost use Rattle.st_il.specs.contracts.ty.Ty as ty;
    ghost use Rattle.st_any_table.specs.inner.Surveys.{IsSurvey};

    ghost Value = { List SyntaxDef };

    ghost coded = { Prim.hlevel (codes, ty.the_row.coded) };

    ghost view = { λ t. t.survey.defs };

    ghost invariant = { λ t. IsSurvey t.survey };
}

impl AnyTable {
    ghost use Rattle.std.specs.Prelude.{◌≡◌, ◌↔◌, IsTrue, IfOk, List, ℕ, MatchOption};
    ghost use Rattle.st_il.specs.declared.ty.Ty.{Ty};
    ghost use Rattle.st_type_table.specs.Meaning.{Means};
    ghost use Rattle.st_type_table.specs.Cases.{HasFields};
    ghost use Rattle.st_type_table.specs.Joins.{Joins};
    ghost use Rattle.st_type_table.specs.Same.{Same};
    ghost use Rattle.st_type_table.specs.Sub.{Sub};
    ghost use Rattle.st_type_table.specs.inner.TypedLevels.{HasOperands};

    /// The table of these definitions.
    pub fn of(alloc: Global, defs: Row<SyntaxDef>) -> Result<AnyTable, NoMemory>
        ensures { IfOk result (λ table. table ≡ defs) }
    {
        let survey = survey_of(alloc, defs)?;
        Ok(AnyTable { survey })
    }

    /// The type without the aliases at its top, if they end.
    pub fn meaning<'b>(&'b self, ty: &'b Ty) -> Option<&'b Ty>
        ensures { MatchOption result ((u : Ty) → Means self.now ty.now u → ⊥)
            (λ meaning. Means self.now ty.now meaning.now) }
    {
        let heads = self.survey.heads.as_slice();
        meaning_of(&self.survey.defs, heads, ty)
    }

    /// Whether the types are equal through aliases.
    pub fn same(&self, alloc: Global, a: &Ty, b: &Ty) -> Result<bool, NoMemory>
        ensures { IfOk result (λ yes. IsTrue yes ↔ Same self.now a.now b.now) }
    {
        are_equal(alloc, &self.survey, a, b)
    }

    /// Whether the first type is a subtype of the second.
    pub fn is_sub(&self, alloc: Global, lower: &Ty, upper: &Ty) -> Result<bool, NoMemory>
        ensures { IfOk result (λ yes. IsTrue yes ↔ Sub self.now lower.now upper.now) }
    {
        is_below(alloc, &self.survey, lower, upper)
    }

    /// The types of the operands of the case of a variant type with this tag.
    pub fn operands(&self, ty: &Ty, tag: &Name) -> Option<&Row<Ty>>
        ensures { MatchOption result
            ((operands : List Ty) → HasOperands self.now ty.now tag.now operands → ⊥)
            (λ operands. HasOperands self.now ty.now tag.now operands.now) }
    {
        let heads = self.survey.heads.as_slice();
        let flats = self.survey.flats.as_slice();
        let cases = self.survey.cases.as_slice();
        match flat_of_type(&self.survey.defs, heads, flats, ty) {
            Some(numbers) => first_operands(cases, numbers.as_slice(), tag),
            None => None,
        }
    }

    /// The fields of a record type, in declared order.
    pub fn fields(&self, ty: &Ty) -> Option<&[(Name, Ty)]>
        ensures { MatchOption result
            ((fields : List (List ℕ × Ty)) → HasFields self.now ty.now fields → ⊥)
            (λ fields. HasFields self.now ty.now fields.now) }
    {
        let heads = self.survey.heads.as_slice();
        fields_of(&self.survey.defs, heads, ty)
    }

    /// Whether the type is a record type that can be joined, field by field.
    pub fn joinable(&self, ty: &Ty) -> bool
        ensures { IsTrue result ↔ Joins self.now ty.now }
    {
        let heads = self.survey.heads.as_slice();
        let ranks = self.survey.joins.as_slice();
        joins(&self.survey.defs, heads, ranks, ty)
    }
}
