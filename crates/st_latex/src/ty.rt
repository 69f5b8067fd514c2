//! How types and notations are printed.

ghost use Rattle.std.specs.Prelude.{◌≡◌, ◌++◌, OnOk, map, codes};
ghost use Rattle.st_el.specs.SourceText.{separated};
ghost use Rattle.st_latex.specs.Tokens.{token};
ghost use Rattle.st_latex.specs.Parts.{behind, joined, tuple, arguments, bracketed};
ghost use Rattle.st_latex.specs.Types.{latex_typ, latex_typ_node, latex_notation, latex_not_node};

use crate::token::{print_atom, print_sign, print_token, print_variable};
use st_el::{NotNode, Notation, Typ, TypNode};
use st_num::{Mark, NoMemory};

/// Appends a type.
#[cycle(print_typ)]
pub fn print_typ(typ: &Typ, out: &mut Vec<u8>) -> Result<(), NoMemory>
    ensures { OnOk result (out.new.items ≡ out.old.items ++ latex_typ typ.now) }
{
    print_typ_node(&typ.node, out)
}

/// Appends what a type is.
#[cycle(print_typ)]
fn print_typ_node(node: &TypNode, out: &mut Vec<u8>) -> Result<(), NoMemory>
    ensures { OnOk result (out.new.items ≡ out.old.items ++ latex_typ_node node.now) }
{
    match node {
        TypNode::Bool => print_variable(b"bool", out),
        TypNode::Nat => print_variable(b"nat", out),
        TypNode::Int => print_variable(b"int", out),
        TypNode::Text => print_variable(b"text", out),
        TypNode::Name(name) => print_variable(name.as_slice(), out),
        TypNode::Star(typ) => {
            print_typ(typ.get(), out)?;
            print_token(b"^{\\ast}", out)
        }
        TypNode::Quest(typ) => {
            print_typ(typ.get(), out)?;
            print_token(b"^{?}", out)
        }
        TypNode::Tuple(parts) => print_typs(parts.as_slice(), out),
    }
}

/// Appends types in parentheses, with commas between them.
#[cycle(print_typ)]
fn print_typs(typs: &[Typ], out: &mut Vec<u8>) -> Result<(), NoMemory>
    ensures { OnOk result (out.new.items ≡ out.old.items ++ tuple (map latex_typ typs.now)) }
{
    print_token(b"(", out)?;
    print_listed_typs(typs, out)?;
    print_token(b")", out)
}

/// Appends types with commas between them.
#[cycle(print_typ)]
fn print_listed_typs(typs: &[Typ], out: &mut Vec<u8>) -> Result<(), NoMemory>
    ensures { OnOk result (out.new.items
        ≡ out.old.items ++ separated (token (codes ",")) (map latex_typ typs.now)) }
{
    let Some((first, others)) = typs.split_first() else {
        return Ok(());
    };
    print_typ(first, out)?;
    for typ in others {
        print_token(b",", out)?;
        print_typ(typ, out)?;
    }
    Ok(())
}

/// Appends the types of the parameters of a function, where it has any.
pub fn print_params(typs: &[Typ], out: &mut Vec<u8>) -> Result<(), NoMemory>
    ensures { OnOk result (out.new.items ≡ out.old.items ++ arguments (map latex_typ typs.now)) }
{
    if typs.is_empty() {
        return Ok(());
    }
    print_typs(typs, out)
}

/// Appends a notation.
#[cycle(print_notation)]
pub fn print_notation(notation: &Notation, out: &mut Vec<u8>) -> Result<(), NoMemory>
    ensures { OnOk result (out.new.items ≡ out.old.items ++ latex_notation notation.now) }
{
    print_not_node(&notation.node, out)
}

/// Appends what a notation is.
#[cycle(print_notation)]
fn print_not_node(node: &NotNode, out: &mut Vec<u8>) -> Result<(), NoMemory>
    ensures { OnOk result (out.new.items ≡ out.old.items ++ latex_not_node node.now) }
{
    match node {
        NotNode::Atom(name) => print_atom(name.as_slice(), out),
        NotNode::Hole(typ) => print_typ(typ, out),
        NotNode::Seq(parts) => print_notations(parts.as_slice(), out),
        NotNode::Infix(left, mark, right) => {
            print_notation(left.get(), out)?;
            print_right(*mark, right.get(), out)
        }
        NotNode::Bracket(opening, inside) => {
            print_sign(*opening, out)?;
            print_notation(inside.get(), out)?;
            print_sign(opening.closing(), out)
        }
    }
}

/// Appends a sign and the notation behind it.
#[cycle(print_notation)]
fn print_right(mark: Mark, right: &Notation, out: &mut Vec<u8>) -> Result<(), NoMemory>
    ensures { OnOk result (out.new.items ≡ out.old.items ++ behind mark (latex_notation right.now)) }
{
    if let Mark::Caret = mark {
        print_token(b"^{", out)?;
        print_notation(right, out)?;
        return print_token(b"}", out);
    }
    print_sign(mark, out)?;
    print_notation(right, out)
}

/// Appends notations, one behind another.
#[cycle(print_notation)]
fn print_notations(notations: &[Notation], out: &mut Vec<u8>) -> Result<(), NoMemory>
    ensures { OnOk result
        (out.new.items ≡ out.old.items ++ joined (map latex_notation notations.now)) }
{
    for notation in notations {
        print_notation(notation, out)?;
    }
    Ok(())
}
