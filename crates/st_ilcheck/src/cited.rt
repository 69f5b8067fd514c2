//! What definitions cite, and the tags that stand in them.

ghost use Rattle.std.specs.Prelude.{◌≡◌, ◌++◌, [], ◌∷◌, ℕ, List, map, length, IfOk};
ghost use Rattle.std.specs.List.{flat_map};
ghost use Rattle.st_il.specs.declared.ty.Ty.{Ty};
ghost use Rattle.st_type_table.specs.Leads.{names_in};
ghost use Rattle.st_il.specs.Names.{flattened};
ghost use Rattle.st_semantics.specs.Variables.{relations_cited};
ghost use Rattle.st_ilcheck.specs.Declarations.{types_cited, listed_types, alternative_cited, alternative_tags, body_cited, body_tags};
ghost use Rattle.st_ilcheck.specs.inner.Cited.{AreCited};

use crate::contents::add_names;
use crate::premise_contents::{contents_of_clause, contents_of_rule};
use crate::rows::append;
use st_il::{Alternative, ClauseDef, IlDef, IlPrem, Listed, RuleDef, SyntaxBody, Ty};
use st_num::{Name, NoMemory, Row};
use std::alloc::Global;

/// A tag, and the number of operands that it stands with.
pub(crate) type Tagged = (Name, usize);

/// What a definition cites, and the tags that stand in it.
#[derive(Drop)]
pub(crate) struct Citations {
    pub(crate) syntaxes: Row<Name>,
    pub(crate) relations: Row<Name>,
    pub(crate) functions: Row<Name>,
    pub(crate) tags: Row<Tagged>,
}

/// One name.
fn one(alloc: Global, name: &Name) -> Result<Row<Name>, NoMemory>
    ensures { IfOk result (λ names. names ≡ name.now ∷ []) }
{
    let name = name.copy(alloc)?;
    let mut names = Row::new(alloc);
    names.push(name)?;
    Ok(names)
}

/// The names in a type, in order.
fn names_in(alloc: Global, ty: &Ty) -> Result<Row<Name>, NoMemory>
    ensures { IfOk result (λ names. names ≡ names_in ty.now) }
{
    let mut names = Row::new(alloc);
    add_names(alloc, ty, &mut names)?;
    Ok(names)
}

/// The names in several types.
fn types_cited(alloc: Global, tys: &[Ty]) -> Result<Row<Name>, NoMemory>
    ensures { IfOk result (λ names. names ≡ types_cited tys.now) }
{
    let mut names = Row::new(alloc);
    for ty in tys {
        let more = names_in(alloc, ty)?;
        let longer = append(names, more)?;
        names = longer;
    }
    Ok(names)
}

/// The names in the types of variables.
fn listed_cited(alloc: Global, listed: &[Listed]) -> Result<Row<Name>, NoMemory>
    ensures { IfOk result (λ names. names ≡ types_cited (listed_types listed.now)) }
{
    let mut names = Row::new(alloc);
    for variable in listed {
        let more = names_in(alloc, &variable.ty)?;
        let longer = append(names, more)?;
        names = longer;
    }
    Ok(names)
}

/// The names in the types of fields.
fn fields_cited(alloc: Global, fields: &[(Name, Ty)]) -> Result<Row<Name>, NoMemory>
    ensures { IfOk result
        (λ names. names ≡ types_cited (map (λ (f : List ℕ × Ty). f.1) fields.now)) }
{
    let mut names = Row::new(alloc);
    for field in fields {
        let more = names_in(alloc, &field.1)?;
        let longer = append(names, more)?;
        names = longer;
    }
    Ok(names)
}

/// The names in an alternative.
fn alternative_cited(alloc: Global, alternative: &Alternative) -> Result<Row<Name>, NoMemory>
    ensures { IfOk result (λ names. names ≡ alternative_cited alternative.now) }
{
    match alternative {
        Alternative::Case(_, operands) => {
            let names = types_cited(alloc, operands.as_slice())?;
            Ok(names)
        }
        Alternative::Incl(name) => {
            let names = one(alloc, name)?;
            Ok(names)
        }
    }
}

/// The names in alternatives.
fn alternatives_cited(alloc: Global, alternatives: &[Alternative]) -> Result<Row<Name>, NoMemory>
    ensures { IfOk result (λ names. names ≡ flat_map alternative_cited alternatives.now) }
{
    let mut names = Row::new(alloc);
    for alternative in alternatives {
        let more = alternative_cited(alloc, alternative)?;
        let longer = append(names, more)?;
        names = longer;
    }
    Ok(names)
}

/// The names in the body of a syntax.
fn body_cited(alloc: Global, body: &SyntaxBody) -> Result<Row<Name>, NoMemory>
    ensures { IfOk result (λ names. names ≡ body_cited body.now) }
{
    match body {
        SyntaxBody::Alias(ty) => names_in(alloc, ty),
        SyntaxBody::Variant(alternatives) => {
            let names = alternatives_cited(alloc, alternatives.as_slice())?;
            Ok(names)
        }
        SyntaxBody::Fields(fields) => {
            let names = fields_cited(alloc, fields.as_slice())?;
            Ok(names)
        }
    }
}

/// One tag.
fn tagged(alloc: Global, tag: &Name, count: usize) -> Result<Row<Tagged>, NoMemory>
    ensures { IfOk result (λ tags. tags ≡ (tag.now, count) ∷ []) }
{
    let tag = tag.copy(alloc)?;
    let mut tags = Row::new(alloc);
    tags.push((tag, count))?;
    Ok(tags)
}

/// The tag of an alternative, if it has one.
fn alternative_tags(alloc: Global, alternative: &Alternative) -> Result<Row<Tagged>, NoMemory>
    ensures { IfOk result (λ tags. tags ≡ alternative_tags alternative.now) }
{
    match alternative {
        Alternative::Case(tag, operands) => tagged(alloc, tag, operands.len()),
        Alternative::Incl(_) => Ok(Row::new(alloc)),
    }
}

/// The tags of alternatives.
fn alternatives_tags(alloc: Global, alternatives: &[Alternative]) -> Result<Row<Tagged>, NoMemory>
    ensures { IfOk result (λ tags. tags ≡ flat_map alternative_tags alternatives.now) }
{
    let mut tags = Row::new(alloc);
    for alternative in alternatives {
        let more = alternative_tags(alloc, alternative)?;
        let longer = append(tags, more)?;
        tags = longer;
    }
    Ok(tags)
}

/// The tags in the body of a syntax.
fn body_tags(alloc: Global, body: &SyntaxBody) -> Result<Row<Tagged>, NoMemory>
    ensures { IfOk result (λ tags. tags ≡ body_tags body.now) }
{
    match body {
        SyntaxBody::Variant(alternatives) => {
            let tags = alternatives_tags(alloc, alternatives.as_slice())?;
            Ok(tags)
        }
        SyntaxBody::Alias(_) => Ok(Row::new(alloc)),
        SyntaxBody::Fields(_) => Ok(Row::new(alloc)),
    }
}

/// The relation that a premise cites, if it cites one.
fn relations_cited(alloc: Global, premise: &IlPrem) -> Result<Row<Name>, NoMemory>
    ensures { IfOk result (λ names. names ≡ relations_cited premise.now) }
{
    match premise {
        IlPrem::If(_) | IlPrem::Otherwise => Ok(Row::new(alloc)),
        IlPrem::Goal(relation, _) => one(alloc, relation),
        IlPrem::Each(_, _, body) => relations_cited(alloc, body.get()),
    }
}

/// The relations that premises cite.
fn all_relations_cited(alloc: Global, premises: &[IlPrem]) -> Result<Row<Name>, NoMemory>
    ensures { IfOk result (λ names. names ≡ flattened (map relations_cited premises.now)) }
{
    let mut names = Row::new(alloc);
    for premise in premises {
        let more = relations_cited(alloc, premise)?;
        let longer = append(names, more)?;
        names = longer;
    }
    Ok(names)
}

/// What a rule cites.
fn cited_by_rule(alloc: Global, rule: &RuleDef) -> Result<Citations, NoMemory>
    ensures { IfOk result (λ found. AreCited (IlDef.Rule rule.now) found) }
{
    let contents = contents_of_rule(alloc, rule)?;
    let types = listed_cited(alloc, rule.variables.as_slice())?;
    let syntaxes = append(types, contents.syntaxes)?;
    let own = one(alloc, &rule.relation)?;
    let cited = all_relations_cited(alloc, rule.premises.as_slice())?;
    let relations = append(own, cited)?;
    Ok(Citations {
        syntaxes,
        relations,
        functions: contents.functions,
        tags: contents.tags,
    })
}

/// What a clause cites.
fn cited_by_clause(alloc: Global, clause: &ClauseDef) -> Result<Citations, NoMemory>
    ensures { IfOk result (λ found. AreCited (IlDef.Clause clause.now) found) }
{
    let contents = contents_of_clause(alloc, clause)?;
    let types = listed_cited(alloc, clause.variables.as_slice())?;
    let syntaxes = append(types, contents.syntaxes)?;
    let relations = all_relations_cited(alloc, clause.premises.as_slice())?;
    let own = one(alloc, &clause.fun)?;
    let functions = append(own, contents.functions)?;
    Ok(Citations {
        syntaxes,
        relations,
        functions,
        tags: contents.tags,
    })
}

/// These names of syntaxes and these tags, and nothing else.
fn plainly(alloc: Global, syntaxes: Row<Name>, tags: Row<Tagged>) -> Citations
    ensures { result ≡ record { syntaxes = syntaxes; relations = []; functions = []; tags = tags } }
{
    Citations {
        syntaxes,
        relations: Row::new(alloc),
        functions: Row::new(alloc),
        tags,
    }
}

/// What a syntax cites.
fn cited_by_syntax(alloc: Global, body: &SyntaxBody) -> Result<Citations, NoMemory>
    ensures { IfOk result (λ found. found ≡ record {
      syntaxes = body_cited body.now;
      relations = [];
      functions = [];
      tags = body_tags body.now;
    }) }
{
    let syntaxes = body_cited(alloc, body)?;
    let tags = body_tags(alloc, body)?;
    Ok(plainly(alloc, syntaxes, tags))
}

/// What a relation cites.
fn cited_by_relation(alloc: Global, tag: &Name, holes: &[Ty]) -> Result<Citations, NoMemory>
    ensures { IfOk result (λ found. found ≡ record {
      syntaxes = types_cited holes.now;
      relations = [];
      functions = [];
      tags = (tag.now, length holes.now) ∷ [];
    }) }
{
    let syntaxes = types_cited(alloc, holes)?;
    let tags = tagged(alloc, tag, holes.len())?;
    Ok(plainly(alloc, syntaxes, tags))
}

/// What a function cites.
fn cited_by_function(alloc: Global, result_ty: &Ty, params: &[Ty]) -> Result<Citations, NoMemory>
    ensures { IfOk result (λ found. found ≡ record {
      syntaxes = types_cited (result_ty.now ∷ params.now);
      relations = [];
      functions = [];
      tags = [];
    }) }
{
    let own = names_in(alloc, result_ty)?;
    let others = types_cited(alloc, params)?;
    let syntaxes = append(own, others)?;
    Ok(plainly(alloc, syntaxes, Row::new(alloc)))
}

/// What a variable name cites.
fn cited_by_variable(alloc: Global, ty: &Ty) -> Result<Citations, NoMemory>
    ensures { IfOk result (λ found. found ≡ record {
      syntaxes = names_in ty.now;
      relations = [];
      functions = [];
      tags = [];
    }) }
{
    let syntaxes = names_in(alloc, ty)?;
    Ok(plainly(alloc, syntaxes, Row::new(alloc)))
}

/// What a definition cites.
pub(crate) fn cited_by(alloc: Global, def: &IlDef) -> Result<Citations, NoMemory>
    ensures { IfOk result (λ found. AreCited def.now found) }
{
    match def {
        IlDef::Syntax(syntax) => {
            let found = cited_by_syntax(alloc, &syntax.body)?;
            Ok(found)
        }
        IlDef::Var(_, ty) => {
            let found = cited_by_variable(alloc, ty)?;
            Ok(found)
        }
        IlDef::Relation(relation) => {
            let found = cited_by_relation(alloc, &relation.tag, relation.holes.as_slice())?;
            Ok(found)
        }
        IlDef::Rule(rule) => {
            let found = cited_by_rule(alloc, rule)?;
            Ok(found)
        }
        IlDef::Fun(fun) => {
            let found = cited_by_function(alloc, &fun.result, fun.params.as_slice())?;
            Ok(found)
        }
        IlDef::Clause(clause) => {
            let found = cited_by_clause(alloc, clause)?;
            Ok(found)
        }
    }
}
