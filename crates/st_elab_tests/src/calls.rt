//! Each call of elaboration and erasure that can want memory and that the program does not make,
//! made once where there is enough; and the order in which the cases of a variant stand.

use st_dims::dims;
use st_el::{Def, DefNode, Exp, Node, TypNode};
use st_elab_exp::{Decls, NamedRow, Scope, check_exp, infer_exp};
use st_erase::{erase, erase_exp};
use st_il::{Alternative, Il, IlDef, IlExp, SyntaxBody, SyntaxDef, Ty};
use st_num::{Dim, Name, NoMemory, Row, Span};
use st_types::TypeTable;
use std::alloc::Global;
use std::process::Abort;
use std::test::Fail;

// ---- erasure

#[test]
fn an_expression_is_erased(rt: HostRuntime) -> Result<(), Fail> {
    let alloc = rt.alloc();
    let il = Il {
        defs: Row::new(alloc),
    };
    let source = erase_exp(alloc, &il, &IlExp::Number(1))?;
    assert!(rt; matches!(&source.node, Node::Number(1)));
    Ok(())
}

/// `var x : nat`
fn variable(alloc: Global) -> Result<Row<IlDef>, NoMemory> {
    let mut defs = Row::new(alloc);
    defs.push(IlDef::Var(Name::from_slice(alloc, b"x")?, Ty::Nat))?;
    Ok(defs)
}

/// Whether the first definition is `var x : nat`.
fn is_variable(defs: &[Def]) -> bool {
    match defs.first() {
        Some(def) => match &def.node {
            DefNode::Var { name, typ } => {
                name.as_slice() == b"x".as_slice() && matches!(&typ.node, TypNode::Nat)
            }
            _ => false,
        },
        None => false,
    }
}

#[test]
fn a_specification_is_erased(rt: HostRuntime) -> Result<(), Fail> {
    let alloc = rt.alloc();
    let il = Il {
        defs: variable(alloc)?,
    };
    let defs = erase(alloc, &il)?;
    assert!(rt; is_variable(defs.as_slice()));
    Ok(())
}

// ---- expressions

/// An expression without a place in a file.
fn unplaced(node: Node) -> Exp {
    Exp {
        at: Span::NOWHERE,
        node,
    }
}

/// The variable `x`, as the only expression.
fn only_variable(alloc: Global) -> Result<Row<Exp>, NoMemory> {
    let mut exps = Row::new(alloc);
    exps.push(unplaced(Node::Name(Name::from_slice(alloc, b"x")?)))?;
    Ok(exps)
}

#[test]
fn a_variable_has_its_dimension(rt: HostRuntime) -> Result<(), Fail> {
    let exps = only_variable(rt.alloc())?;
    let table = dims(rt.alloc(), &exps, &Row::new(rt.alloc()))?;
    let (name, dim) = table.as_slice().first().ok_or("no variable")?;
    assert!(rt; name.as_slice() == b"x".as_slice() && dim.as_slice().is_empty());
    Ok(())
}

/// Declarations without a type, a variable, a function or a relation.
fn none_declared(alloc: Global) -> Result<Decls, Fail> {
    Ok(Decls {
        types: TypeTable::build(alloc, &Row::new(alloc))?,
        vars: NamedRow::of(alloc, Row::new(alloc))?,
        funs: NamedRow::of(alloc, Row::new(alloc))?,
        relations: NamedRow::of(alloc, Row::new(alloc))?,
    })
}

/// The number 1 is elaborated to itself, at the type of natural numbers and by itself.
fn expect_one(rt: &impl Abort, alloc: Global, decls: &Decls) -> Result<(), Fail> {
    let scope = Scope {
        variables: Row::new(alloc),
        around: Dim::new(alloc),
    };
    let one = unplaced(Node::Number(1));
    let checked = check_exp(alloc, decls, &scope, &one, &Ty::Nat)?;
    assert!(rt; matches!(&checked, IlExp::Number(1)));
    let (inferred, ty) = infer_exp(alloc, decls, &scope, &one)?;
    assert!(rt; matches!(&inferred, IlExp::Number(1)) && matches!(&ty, Ty::Nat));
    Ok(())
}

#[test]
fn an_expression_is_elaborated(rt: HostRuntime) -> Result<(), Fail> {
    let decls = none_declared(rt.alloc())?;
    expect_one(&rt, rt.alloc(), &decls)
}

// ---- cases

fn case(alloc: Global, tag: &[u8]) -> Result<Alternative, NoMemory> {
    Ok(Alternative::Case(Name::from_slice(alloc, tag)?, Row::new(alloc)))
}

/// A syntax of this name and these alternatives.
fn variant(
    alloc: Global,
    name: &[u8],
    alternatives: Row<Alternative>,
) -> Result<SyntaxDef, NoMemory> {
    Ok(SyntaxDef {
        name: Name::from_slice(alloc, name)?,
        body: SyntaxBody::Variant(alternatives),
    })
}

/// `syntax low = | C` and `syntax high = | A | low | B`.
fn including(alloc: Global) -> Result<Row<SyntaxDef>, NoMemory> {
    let mut low = Row::new(alloc);
    low.push(case(alloc, b"C")?)?;
    let mut high = Row::new(alloc);
    high.push(case(alloc, b"A")?)?;
    high.push(Alternative::Incl(Name::from_slice(alloc, b"low")?))?;
    high.push(case(alloc, b"B")?)?;
    let mut defs = Row::new(alloc);
    defs.push(variant(alloc, b"low", low)?)?;
    defs.push(variant(alloc, b"high", high)?)?;
    Ok(defs)
}

/// The tags of the cases of `high`, one behind another.
fn tags_of(alloc: Global, types: &TypeTable) -> Result<Vec<u8>, Fail> {
    let high = Ty::Name(Name::from_slice(alloc, b"high")?);
    let cases = types.cases(&high).ok_or("no variant")?;
    let mut tags = Vec::new(alloc);
    for case in cases.as_slice() {
        tags.extend_from_slice(case.tag.as_slice())?;
    }
    Ok(tags)
}

#[test]
fn the_cases_of_an_included_variant_stand_in_its_place(rt: HostRuntime) -> Result<(), Fail> {
    let defs = including(rt.alloc())?;
    assert!(rt; TypeTable::can_build(&defs));
    let types = TypeTable::build(rt.alloc(), &defs)?;
    let tags = tags_of(rt.alloc(), &types)?;
    assert_eq!(rt; tags.as_slice(), b"ACB".as_slice());
    Ok(())
}
