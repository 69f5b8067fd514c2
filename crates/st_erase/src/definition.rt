//! The source that definitions of the internal language were written as.

ghost use Rattle.std.specs.Prelude.{◌≡◌, map, Some, IfOk};
ghost use Rattle.std.specs.Option.{option_map};
ghost use Rattle.st_erase.specs.Definitions.{erased_field, erased_alternative, erased_body, mode_word, mode_hints, hints_of, tag_of, judged, judgement, prem, erased_prem, erased_rule, erased_clause, erased_node, erased_def};

use crate::Erased;
use crate::expression::{Eraser, case};
use crate::form::unplaced;
use crate::notation::{erased_ty, erased_tys, notation, notation_of, typ};
use st_el::{Body, Def, DefNode, Exp, Hint, Node, NotNode, Notation, Prem, PremNode, Typ, TypNode};
use st_il::{Alternative, ClauseDef, IlDef, IlExp, IlPrem, RuleDef, SyntaxBody, Ty};
use st_num::{Boxed, Name, NoMemory, Row, Span, Token, TokenKind};
use std::alloc::Global;

/// The fields of a record, with their types as they are written.
fn fields(alloc: Global, fields: &[(Name, Ty)]) -> Result<Row<(Name, Typ)>, NoMemory>
    ensures { IfOk result (λ found. found ≡ map erased_field fields.now) }
{
    let mut found = Row::new(alloc);
    for field in fields {
        let name = field.0.copy(alloc)?;
        found.push((name, erased_ty(alloc, &field.1)?))?;
    }
    Ok(found)
}

/// The alternative as it is written: the notation of a case, or the name of what it includes.
fn erased_alternative(alloc: Global, alternative: &Alternative) -> Result<Notation, NoMemory>
    ensures { IfOk result (λ found. found ≡ erased_alternative alternative.now) }
{
    match alternative {
        Alternative::Case(tag, tys) => notation_of(alloc, tag, tys),
        Alternative::Incl(name) => {
            let ty = typ(TypNode::Name(name.copy(alloc)?));
            Ok(notation(NotNode::Hole(ty)))
        }
    }
}

/// The alternatives of a variant as they are written.
fn alternatives(alloc: Global, alternatives: &[Alternative]) -> Result<Row<Notation>, NoMemory>
    ensures { IfOk result (λ found. found ≡ map erased_alternative alternatives.now) }
{
    let mut found = Row::new(alloc);
    for alternative in alternatives {
        found.push(erased_alternative(alloc, alternative)?)?;
    }
    Ok(found)
}

/// The body of a syntax as it is written.
fn erased_body(alloc: Global, body: &SyntaxBody) -> Result<Body, NoMemory>
    ensures { IfOk result (λ found. found ≡ erased_body body.now) }
{
    match body {
        SyntaxBody::Alias(ty) => Ok(Body::Alias(erased_ty(alloc, ty)?)),
        SyntaxBody::Variant(variant) => Ok(Body::Cases {
            before: false,
            cases: alternatives(alloc, variant.as_slice())?,
            after: false,
        }),
        SyntaxBody::Fields(record) => Ok(Body::Fields(fields(alloc, record.as_slice())?)),
    }
}

/// The word that says whether a hole is an input.
fn mode_word(alloc: Global, input: bool) -> Result<Token, NoMemory>
    ensures { IfOk result (λ found. found ≡ mode_word input) }
{
    let word = if input {
        b"in".as_slice()
    } else {
        b"out".as_slice()
    };
    Ok(Token {
        at: Span::NOWHERE,
        touching: false,
        kind: TokenKind::Low(Row::from_slice(alloc, word)?),
    })
}

/// The words of a hint of a mode, one for each hole.
fn mode_words(alloc: Global, mode: &[bool]) -> Result<Row<Token>, NoMemory>
    ensures { IfOk result (λ found. found ≡ map mode_word mode.now) }
{
    let mut words = Row::new(alloc);
    for input in mode {
        words.push(mode_word(alloc, *input)?)?;
    }
    Ok(words)
}

/// The hint of a mode, but none where there is no mode.
fn mode_hints(alloc: Global, mode: &[bool]) -> Result<Row<Hint>, NoMemory>
    ensures { IfOk result (λ found. found ≡ mode_hints mode.now) }
{
    let mut hints = Row::new(alloc);
    if mode.is_empty() {
        return Ok(hints);
    }
    let name = Row::from_slice(alloc, b"mode".as_slice())?;
    hints.push(Hint {
        name,
        words: mode_words(alloc, mode)?,
    })?;
    Ok(hints)
}

/// The tag of the first relation of this name.
fn tag_of<'a>(defs: &'a [IlDef], name: &Name) -> Option<&'a Name>
    ensures { option_map (λ tag. tag.now) result ≡ tag_of name.now defs.now }
{
    for def in defs {
        if let IlDef::Relation(relation) = def {
            if relation.name == *name {
                return Some(&relation.tag);
            }
        }
    }
    None
}

/// A judgement of the named relation.
fn judgement(eraser: &Eraser, name: &Name, exps: &Row<IlExp>) -> Result<Exp, NoMemory>
    ensures { IfOk result (λ found. found ≡ judgement eraser.now.defs.now name.now exps.now) }
{
    let Some(tag) = tag_of(eraser.defs, name) else {
        return Ok(unplaced(Node::Eps));
    };
    let operands = eraser.all(exps)?;
    judged(eraser.alloc, tag, operands)
}

/// The judgement of a relation with this tag.
fn judged(alloc: Global, tag: &Name, operands: Row<Erased>) -> Result<Exp, NoMemory>
    ensures { IfOk result (λ found. found ≡ judged (Some tag.now) operands) }
{
    let found = case(alloc, tag, operands)?.whole(alloc)?;
    Ok(found)
}

/// A premise that stands in no text.
fn prem(node: PremNode) -> Prem
    ensures { result ≡ prem node }
{
    Prem {
        at: Span::NOWHERE,
        node,
    }
}

/// The premise as it is written.
#[cycle(prem)]
fn erased_prem(eraser: &Eraser, premise: &IlPrem) -> Result<Prem, NoMemory>
    ensures { IfOk result (λ found. found ≡ erased_prem eraser.now.defs.now premise.now) }
{
    match premise {
        IlPrem::If(exp) => Ok(prem(PremNode::If(eraser.whole(exp)?))),
        IlPrem::Goal(name, exps) => {
            let found = judgement(eraser, name, exps)?;
            let name = name.copy(eraser.alloc)?;
            Ok(prem(PremNode::Goal(name, found)))
        }
        IlPrem::Otherwise => Ok(prem(PremNode::Otherwise)),
        IlPrem::Each(iteration, _, body) => {
            let body = erased_prem(eraser, body.get())?;
            let body = Boxed::new(eraser.alloc, body)?;
            Ok(prem(PremNode::Each(body, eraser.iteration(iteration)?)))
        }
    }
}

/// The premises as they are written, in order.
fn erased_prems(eraser: &Eraser, premises: &[IlPrem]) -> Result<Row<Prem>, NoMemory>
    ensures { IfOk result
        (λ found. found ≡ map (erased_prem eraser.now.defs.now) premises.now) }
{
    let mut found = Row::new(eraser.alloc);
    for premise in premises {
        found.push(erased_prem(eraser, premise)?)?;
    }
    Ok(found)
}

/// The rule as it is written.
fn erased_rule(eraser: &Eraser, rule: &RuleDef) -> Result<DefNode, NoMemory>
    ensures { IfOk result (λ found. found ≡ erased_rule eraser.now.defs.now rule.now) }
{
    Ok(DefNode::Rule {
        relation: rule.relation.copy(eraser.alloc)?,
        name: rule.name.copy(eraser.alloc)?,
        conclusion: judgement(eraser, &rule.relation, &rule.conclusion)?,
        premises: erased_prems(eraser, rule.premises.as_slice())?,
    })
}

/// The clause of a function as it is written.
fn erased_clause(eraser: &Eraser, clause: &ClauseDef) -> Result<DefNode, NoMemory>
    ensures { IfOk result (λ found. found ≡ erased_clause eraser.now.defs.now clause.now) }
{
    Ok(DefNode::Clause {
        name: clause.fun.copy(eraser.alloc)?,
        args: eraser.wholes(&clause.args)?,
        result: eraser.whole(&clause.result)?,
        premises: erased_prems(eraser, clause.premises.as_slice())?,
    })
}

/// What the definition is, as it is written.
fn erased_node(eraser: &Eraser, def: &IlDef) -> Result<DefNode, NoMemory>
    ensures { IfOk result (λ found. found ≡ erased_node eraser.now.defs.now def.now) }
{
    let alloc = eraser.alloc;
    match def {
        IlDef::Syntax(syntax) => Ok(DefNode::Syntax {
            name: syntax.name.copy(alloc)?,
            fragment: None,
            body: erased_body(alloc, &syntax.body)?,
        }),
        IlDef::Var(name, ty) => Ok(DefNode::Var {
            name: name.copy(alloc)?,
            typ: erased_ty(alloc, ty)?,
        }),
        IlDef::Relation(relation) => Ok(DefNode::Relation {
            name: relation.name.copy(alloc)?,
            notation: notation_of(alloc, &relation.tag, &relation.holes)?,
        }),
        IlDef::Rule(rule) => erased_rule(eraser, rule),
        IlDef::Fun(fun) => Ok(DefNode::Fun {
            name: fun.name.copy(alloc)?,
            params: erased_tys(alloc, &fun.params)?,
            result: erased_ty(alloc, &fun.result)?,
        }),
        IlDef::Clause(clause) => erased_clause(eraser, clause),
    }
}

/// The hints of a definition: the mode of a relation.
fn erased_hints(alloc: Global, def: &IlDef) -> Result<Row<Hint>, NoMemory>
    ensures { IfOk result (λ found. found ≡ hints_of def.now) }
{
    match def {
        IlDef::Relation(relation) => mode_hints(alloc, relation.mode.as_slice()),
        _ => Ok(Row::new(alloc)),
    }
}

/// The definition as it is written.
pub fn erased_def(eraser: &Eraser, def: &IlDef) -> Result<Def, NoMemory>
    ensures { IfOk result (λ found. found ≡ erased_def eraser.now.defs.now def.now) }
{
    let hints = erased_hints(eraser.alloc, def)?;
    Ok(Def {
        at: Span::NOWHERE,
        hints,
        node: erased_node(eraser, def)?,
    })
}
