//! The table of the syntaxes.

use crate::build::{are_few, entries_of};
use crate::entry::{CaseDef, Entries};
use crate::fault::TypeFault;
use crate::form::Forms;
use crate::joining::joins;
use crate::meaning::{case_with, cases_of, fields_of, is_declared, meaning_of};
use crate::numbering::forms_of;
use crate::same::same;
use st_il::{Key, SyntaxDef, Ty};
use st_num::{Name, Row};
use std::alloc::Global;
use std::marker::Model;

/// Definitions of syntaxes that break no rule. Contracts see them as they were given.
///
/// A type that is passed names only these syntaxes. No call here takes memory.
#[derive(Drop)]
pub struct TypeTable {
    entries: Entries,
    pub(crate) forms: Forms,
}

impl Model for TypeTable {
    ghost use Rattle.std.specs.Prelude.{List};
    ghost use Rattle.std.specs.Coded.{codes};
    ghost use Rattle.st_il.specs.declared.definition.SyntaxDef.{SyntaxDef};
    ghost use Rattle.st_il.specs.contracts.ty.Ty as ty;
    ghost use Rattle.st_type_table.specs.inner.Kept.{defs_of};
    ghost use Rattle.st_type_table.specs.inner.Forms.{IsTable};

    ghost Value = { List SyntaxDef };

    ghost coded = { Prim.hlevel (codes, ty.the_row.coded) };

    ghost view = { λ t. defs_of t.entries.entries };

    ghost invariant = { λ t. IsTable t.entries.entries t.forms.numbers.entries t.forms.list.keys };
}

impl TypeTable {
    ghost use Rattle.std.specs.Prelude.{◌≡◌, ◌↔◌, ◌<◌, ◌^◌, IsTrue, IfSome, IfNone, IfOk, OnOk, Err, List, ℕ, length, is_some};
    ghost use Rattle.st_type_table.specs.declared.fault.Broken.{Broken};
    ghost use Rattle.st_type_table.specs.Breach.{IsSound, FirstBreach, AllHaveFewParts};
    ghost use Rattle.st_il.specs.declared.ty.Ty.{Ty};
    ghost use Rattle.st_type_table.specs.declared.entry.CaseDef.{CaseDef};
    ghost use Rattle.st_type_table.specs.Meaning.{Means, body_of};
    ghost use Rattle.st_type_table.specs.Cases.{HasCases, HasFields};
    ghost use Rattle.st_il.specs.Key.{plain};
    ghost use Rattle.st_type_table.specs.Keys.{NoneHasKey, IsCaseWith};
    ghost use Rattle.st_type_table.specs.Joins.{Joins};
    ghost use Rattle.st_type_table.specs.Same.{Same};

    /// Whether the definitions, and the parts of each, can be counted by 32 bits.
    pub fn can_build(defs: &Row<SyntaxDef>) -> bool
        ensures { IsTrue result ↔ ((length defs.now < 2 ^ 32) × AllHaveFewParts defs.now) }
    {
        are_few(defs.as_slice())
    }

    /// The table of these definitions; or the first condition on them that is false, by its
    /// definition, part, name and rule. Lists have fewer than 2^32 members.
    pub fn build(alloc: Global, defs: &Row<SyntaxDef>) -> Result<TypeTable, TypeFault>
        requires few { AllHaveFewParts defs.now }
        requires few_definitions { length defs.now < 2 ^ 32 }
        ensures ok { IfOk result (λ table. table ≡ defs.now) }
        ensures sound { OnOk result (IsSound defs.now) }
        ensures refused { (s : ℕ) (b : Broken) → result ≡ Err (TypeFault.Refused s b)
            → FirstBreach defs.now s b }
    {
        match entries_of(alloc, defs.as_slice()) {
            Ok(entries) => {
                let forms = forms_of(alloc, &entries)?;
                Ok(TypeTable { entries, forms })
            }
            Err(fault) => Err(fault),
        }
    }

    /// Whether a syntax has this name.
    pub fn declares(&self, name: &Name) -> bool
        ensures { result ≡ is_some (body_of self.now name.now) }
    {
        is_declared(&self.entries, name)
    }

    /// The type without the aliases at its top.
    pub fn meaning<'a>(&'a self, ty: &'a Ty) -> &'a Ty
        ensures means { Means self.now ty.now result.now }
        ensures one { (t : Ty) → Means self.now ty.now t → t ≡ result.now }
        ensures sound { IsSound self.now }
    {
        meaning_of(&self.entries, ty)
    }

    /// Whether the types are equal through aliases.
    pub fn same(&self, a: &Ty, b: &Ty) -> bool
        ensures exact { IsTrue result ↔ Same self.now a.now b.now }
        ensures sound { IsSound self.now }
    {
        same(self, a, b)
    }

    /// The cases of a variant type, with those of the variants that it names, in order.
    pub fn cases(&self, ty: &Ty) -> Option<&Row<CaseDef>>
        ensures some { IfSome result (λ cases. HasCases self.now ty.now cases.now) }
        ensures none { IfNone result ((cases : List CaseDef) → HasCases self.now ty.now cases → ⊥) }
        ensures one { IfSome result
            (λ cases. (others : List CaseDef) → HasCases self.now ty.now others
            → others ≡ cases.now) }
    {
        cases_of(&self.entries, ty)
    }

    /// The first case of a variant type with this key.
    pub fn case_with(&self, ty: &Ty, key: &Key) -> Option<&CaseDef>
        ensures some { IfSome result
            (λ case. IsCaseWith self.now ty.now (plain key.now) case.now) }
        ensures none { IfNone result ((cases : List CaseDef) → HasCases self.now ty.now cases
            → NoneHasKey (plain key.now) cases) }
    {
        case_with(&self.entries, ty, key)
    }

    /// The fields of a record type, in declared order.
    pub fn fields(&self, ty: &Ty) -> Option<&[(Name, Ty)]>
        ensures some { IfSome result (λ fields. HasFields self.now ty.now fields.now) }
        ensures none { IfNone result
            ((fields : List (List ℕ × Ty)) → HasFields self.now ty.now fields → ⊥) }
        ensures one { IfSome result (λ fields. (others : List (List ℕ × Ty))
            → HasFields self.now ty.now others → others ≡ fields.now) }
    {
        fields_of(&self.entries, ty)
    }

    /// Whether the type is a record type that can be joined, field by field.
    pub fn joinable(&self, ty: &Ty) -> bool
        ensures { IsTrue result ↔ Joins self.now ty.now }
    {
        joins(&self.entries, ty)
    }
}
