//! The language whose expressions are typed, with tables of what it declares.

ghost use Rattle.std.specs.Prelude.{◌≡◌};
ghost use Rattle.std.specs.Option.{option_copied};
ghost use Rattle.st_il.specs.declared.ty.Ty.{out-Ty};
ghost use Rattle.st_ilcheck.specs.inner.Elements.{element_at, is_sequence};

use crate::heads::{functions_by_name, relations_by_name};
use crate::index::at;
use indexmap::IndexMap;
use st_any_table::AnyTable;
use st_il::{FunDef, Il, RelationDef, Ty};
use st_num::{Name, NoMemory, Row};
use std::alloc::Global;
use std::marker::Model;

/// The type of the elements, where the type is written as one of lists.
fn element_of(ty: &Ty) -> Option<&Ty>
    ensures { option_copied result ≡ element_at (out-Ty ty.now) }
{
    match ty {
        Ty::List(element) => Some(element.get()),
        Ty::Bool | Ty::Nat | Ty::Int | Ty::Text => None,
        Ty::Name(_) | Ty::Opt(_) | Ty::Tuple(_) => None,
    }
}

/// Whether the type is written as one of lists or of options.
fn is_sequence(ty: &Ty) -> bool
    ensures { result ≡ is_sequence (out-Ty ty.now) }
{
    match ty {
        Ty::List(_) | Ty::Opt(_) => true,
        Ty::Bool | Ty::Nat | Ty::Int | Ty::Text => false,
        Ty::Name(_) | Ty::Tuple(_) => false,
    }
}

/// A language with a table of its syntaxes, and its functions and relations by their names.
/// Contracts see the language alone.
#[derive(Drop)]
pub(crate) struct Language<'a> {
    il: &'a Il,
    table: &'a AnyTable,
    functions: IndexMap<&'a Name, &'a FunDef>,
    relations: IndexMap<&'a Name, &'a RelationDef>,
}

impl<'a> Model for Language<'a> {
    ghost use Rattle.std.specs.Coded.{codes};
    ghost use Rattle.st_il.specs.declared.definition.Il.{Il};
    ghost use Rattle.st_il.specs.contracts.definition.Il.{the_row as il_row};
    ghost use Rattle.st_ilcheck.specs.inner.Heads.{IsIndexed};

    ghost Value = { Il };

    ghost coded = { Prim.hlevel (codes, il_row.coded) };

    ghost view = { λ l. l.il.now };

    ghost invariant = { λ l.
        IsIndexed l.il.now l.table.now l.functions.entries l.relations.entries };
}

impl<'a> Language<'a> {
    ghost use Rattle.std.specs.Prelude.{◌≡◌, ◌↔◌, IsTrue, IfOk, List, ℕ, MatchOption};
    ghost use Rattle.std.specs.Option.{option_copied};
    ghost use Rattle.st_il.specs.declared.ty.Ty.{Ty};
    ghost use Rattle.st_type_table.specs.Cases.{HasFields};
    ghost use Rattle.st_type_table.specs.Joins.{Joins};
    ghost use Rattle.st_type_table.specs.Same.{Same};
    ghost use Rattle.st_type_table.specs.Sub.{Sub};
    ghost use Rattle.st_il.specs.Definitions.{syntaxes, relation_named};
    ghost use Rattle.st_semantics.specs.Typing.{function_named};
    ghost use Rattle.st_ilcheck.specs.FoundTypes.{IsElementOf};
    ghost use Rattle.st_ilcheck.specs.Rules.{IsListOrOption};
    ghost use Rattle.st_type_table.specs.inner.TypedLevels.{HasOperands};

    /// The language, whose syntaxes are those of the table.
    pub(crate) fn of(
        alloc: Global,
        il: &'a Il,
        table: &'a AnyTable,
    ) -> Result<Language<'a>, NoMemory>
        requires { table.now ≡ syntaxes il.now }
        ensures { IfOk result (λ language. language ≡ il.now) }
    {
        let functions = functions_by_name(alloc, il.defs.as_slice())?;
        let relations = relations_by_name(alloc, il.defs.as_slice())?;
        Ok(Language {
            il,
            table,
            functions,
            relations,
        })
    }

    /// Whether the types are equal through aliases.
    pub(crate) fn same(&self, alloc: Global, a: &Ty, b: &Ty) -> Result<bool, NoMemory>
        ensures { IfOk result (λ yes. IsTrue yes ↔ Same (syntaxes self.now) a.now b.now) }
    {
        self.table.same(alloc, a, b)
    }

    /// Whether the first type is a subtype of the second.
    pub(crate) fn is_sub(&self, alloc: Global, lower: &Ty, upper: &Ty) -> Result<bool, NoMemory>
        ensures { IfOk result (λ yes. IsTrue yes ↔ Sub (syntaxes self.now) lower.now upper.now) }
    {
        self.table.is_sub(alloc, lower, upper)
    }

    /// Whether the type is a record type that can be joined.
    pub(crate) fn joins(&self, ty: &Ty) -> bool
        ensures { IsTrue result ↔ Joins (syntaxes self.now) ty.now }
    {
        self.table.joinable(ty)
    }

    /// The type of the elements, where the type is one of lists.
    pub(crate) fn element<'b>(&'b self, ty: &'b Ty) -> Option<&'b Ty>
        ensures { MatchOption result ((u : Ty) → IsElementOf (syntaxes self.now) ty.now u → ⊥)
            (λ element. IsElementOf (syntaxes self.now) ty.now element.now) }
    {
        match self.table.meaning(ty) {
            Some(meaning) => element_of(meaning),
            None => None,
        }
    }

    /// Whether the type is one of lists or of options.
    pub(crate) fn is_list_or_option(&self, ty: &Ty) -> bool
        ensures { IsTrue result ↔ IsListOrOption (syntaxes self.now) ty.now }
    {
        match self.table.meaning(ty) {
            Some(meaning) => is_sequence(meaning),
            None => false,
        }
    }

    /// The fields of a record type, in declared order.
    pub(crate) fn fields(&self, ty: &Ty) -> Option<&[(Name, Ty)]>
        ensures { MatchOption result
            ((fields : List (List ℕ × Ty)) → HasFields (syntaxes self.now) ty.now fields → ⊥)
            (λ fields. HasFields (syntaxes self.now) ty.now fields.now) }
    {
        self.table.fields(ty)
    }

    /// The types of the operands of the case of a variant type with this tag.
    pub(crate) fn operands(&self, ty: &Ty, tag: &Name) -> Option<&Row<Ty>>
        ensures { MatchOption result ((operands : List Ty)
            → HasOperands (syntaxes self.now) ty.now tag.now operands → ⊥)
            (λ operands. HasOperands (syntaxes self.now) ty.now tag.now operands.now) }
    {
        self.table.operands(ty, tag)
    }

    /// The function of this name.
    pub(crate) fn function(&self, name: &Name) -> Option<&FunDef>
        ensures { option_copied result ≡ function_named self.now name.now }
    {
        at(&self.functions, name)
    }

    /// The relation of this name.
    pub(crate) fn relation(&self, name: &Name) -> Option<&RelationDef>
        ensures { option_copied result ≡ relation_named self.now name.now }
    {
        at(&self.relations, name)
    }
}
