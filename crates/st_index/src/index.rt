//! An internal language by names and numbers.

ghost use Rattle.std.specs.Prelude.{◌≡◌, IfOk};

use crate::groups::{Groups, clauses_by_function, members_of, rules_by_relation};
use crate::listing::Listing;
use crate::parts::{functions, relations, syntaxes};
use st_il::{ClauseDef, FunDef, Il, RelationDef, RuleDef, SyntaxDef};
use st_num::{Name, NoMemory, Row};
use std::alloc::Global;
use std::marker::Model;

/// An internal language with its syntaxes, relations and functions by their names and numbers, the
/// rules of each relation and the clauses of each function. Contracts see the language alone.
#[derive(Drop)]
pub struct Index<'a> {
    il: &'a Il,
    syntaxes: Listing<'a, SyntaxDef>,
    relations: Listing<'a, RelationDef>,
    functions: Listing<'a, FunDef>,
    rules: Groups<'a, RuleDef>,
    clauses: Groups<'a, ClauseDef>,
    no_rules: Row<&'a RuleDef>,
    no_clauses: Row<&'a ClauseDef>,
}

impl<'a> Model for Index<'a> {
    ghost use Rattle.std.specs.Coded.{codes};
    ghost use Rattle.st_il.specs.declared.definition.Il.{Il};
    ghost use Rattle.st_il.specs.contracts.definition.Il.{the_row as il_row};
    ghost use Rattle.st_index.specs.inner.Kept.{IsKept};

    ghost Value = { Il };

    ghost coded = { Prim.hlevel (codes, il_row.coded) };

    ghost view = { λ index. index.il.now };

    ghost invariant = { λ index.
        IsKept index.il.now index.syntaxes index.relations index.functions
        index.rules.entries index.clauses.entries index.no_rules index.no_clauses };
}

/// The index of an internal language, in a time that grows with its size alone.
pub fn index_of<'a>(alloc: Global, il: &'a Il) -> Result<Index<'a>, NoMemory>
    ensures { IfOk result (λ index. index ≡ il.now) }
{
    let defs = il.defs.as_slice();
    let syntaxes = Listing::of(alloc, syntaxes(alloc, defs)?)?;
    let relations = Listing::of(alloc, relations(alloc, defs)?)?;
    let functions = Listing::of(alloc, functions(alloc, defs)?)?;
    let rules = rules_by_relation(alloc, il)?;
    let clauses = clauses_by_function(alloc, il)?;
    Ok(Index {
        il,
        syntaxes,
        relations,
        functions,
        rules,
        clauses,
        no_rules: Row::new(alloc),
        no_clauses: Row::new(alloc),
    })
}

impl<'a> Index<'a> {
    ghost use Rattle.std.specs.Prelude.{MatchOption, None};
    ghost use Rattle.std.specs.Option.{option_copied};
    ghost use Rattle.st_il.specs.Definitions.{syntaxes, relations, relation_named, rules_of, clauses_of};
    ghost use Rattle.st_index.specs.Names.{all_now};
    ghost use Rattle.st_index.specs.Numbers.{functions, syntax_named, function_named, number_of_syntax, number_of_relation, number_of_function, IsFirstSyntax, IsFirstRelation, IsFirstFunction, rules_at, rule_at, clauses_at};

    /// The language.
    pub fn il(&self) -> &'a Il
        ensures { result.now ≡ self.now }
    {
        self.il
    }

    /// All syntaxes, in order.
    pub fn syntaxes(&self) -> &[&'a SyntaxDef]
        ensures { all_now result.now ≡ syntaxes self.now }
    {
        self.syntaxes.as_slice()
    }

    /// The number of the first syntax of this name.
    pub fn number_of_syntax(&self, name: &Name) -> Option<usize>
        ensures number { result ≡ number_of_syntax self.now name.now }
        ensures first { MatchOption result (syntax_named self.now name.now ≡ None)
            (λ number. IsFirstSyntax self.now number name.now) }
    {
        self.syntaxes.number_of(name)
    }

    /// The first syntax of this name.
    pub fn syntax_named(&self, name: &Name) -> Option<&'a SyntaxDef>
        ensures { option_copied result ≡ syntax_named self.now name.now }
    {
        self.syntaxes.first(name)
    }

    /// All relations, in order.
    pub fn relations(&self) -> &[&'a RelationDef]
        ensures { all_now result.now ≡ relations self.now }
    {
        self.relations.as_slice()
    }

    /// The number of the first relation of this name.
    pub fn number_of_relation(&self, name: &Name) -> Option<usize>
        ensures number { result ≡ number_of_relation self.now name.now }
        ensures first { MatchOption result (relation_named self.now name.now ≡ None)
            (λ number. IsFirstRelation self.now number name.now) }
    {
        self.relations.number_of(name)
    }

    /// The first relation of this name.
    pub fn relation_named(&self, name: &Name) -> Option<&'a RelationDef>
        ensures { option_copied result ≡ relation_named self.now name.now }
    {
        self.relations.first(name)
    }

    /// All functions, in order.
    pub fn functions(&self) -> &[&'a FunDef]
        ensures { all_now result.now ≡ functions self.now }
    {
        self.functions.as_slice()
    }

    /// The number of the first function of this name.
    pub fn number_of_function(&self, name: &Name) -> Option<usize>
        ensures number { result ≡ number_of_function self.now name.now }
        ensures first { MatchOption result (function_named self.now name.now ≡ None)
            (λ number. IsFirstFunction self.now number name.now) }
    {
        self.functions.number_of(name)
    }

    /// The first function of this name.
    pub fn function_named(&self, name: &Name) -> Option<&'a FunDef>
        ensures { option_copied result ≡ function_named self.now name.now }
    {
        self.functions.first(name)
    }

    /// The rules of the relation of this name, in order; none where there is no such relation.
    pub fn rules_of(&self, name: &Name) -> &[&'a RuleDef]
        ensures { all_now result.now ≡ rules_of self.now name.now }
    {
        members_of(&self.rules, &self.no_rules, name)
    }

    /// The rules of the relation of this number, in order; none where there is no such relation.
    pub fn rules_at(&self, number: usize) -> &[&'a RuleDef]
        ensures { all_now result.now ≡ rules_at self.now number }
    {
        let Some(relation) = self.relations().get(number) else {
            return self.no_rules.as_slice();
        };
        self.rules_of(&relation.name)
    }

    /// The rule of this number of the relation of a number.
    pub fn rule_at(&self, number: usize, rule: usize) -> Option<&'a RuleDef>
        ensures { option_copied result ≡ rule_at self.now number rule }
    {
        self.rules_at(number).get(rule).copied()
    }

    /// The clauses of the function of this name, in order; none where there is no such function.
    pub fn clauses_of(&self, name: &Name) -> &[&'a ClauseDef]
        ensures { all_now result.now ≡ clauses_of self.now name.now }
    {
        members_of(&self.clauses, &self.no_clauses, name)
    }

    /// The clauses of the function of this number, in order; none where there is no such function.
    pub fn clauses_at(&self, number: usize) -> &[&'a ClauseDef]
        ensures { all_now result.now ≡ clauses_at self.now number }
    {
        let Some(function) = self.functions().get(number) else {
            return self.no_clauses.as_slice();
        };
        self.clauses_of(&function.name)
    }
}
