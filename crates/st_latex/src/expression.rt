//! How expressions are printed.

ghost use Rattle.std.specs.Prelude.{◌≡◌, ◌++◌, OnOk, map, codes};
ghost use Rattle.st_el.specs.SourceText.{separated};
ghost use Rattle.st_latex.specs.Tokens.{token, atom, dotted, function};
ghost use Rattle.st_latex.specs.Parts.{behind, bracketed, enclosed, joined, tuple, arguments, field_text, record_text};
ghost use Rattle.st_latex.specs.Expressions.{position, latex_exp, latex_node, latex_count, latex_seg, latex_field};

use crate::token::{
    print_atom, print_dotted, print_function, print_number, print_text, print_token, print_truth,
    print_variable, sign_text,
};
use st_el::{Count, Exp, Node, Seg};
use st_num::{Mark, Name, NoMemory};

/// Appends an expression.
#[cycle(print_exp)]
pub fn print_exp(exp: &Exp, out: &mut Vec<u8>) -> Result<(), NoMemory>
    ensures { OnOk result (out.new.items ≡ out.old.items ++ latex_exp exp.now) }
{
    print_node(&exp.node, out)
}

/// Appends what an expression is.
#[cycle(print_exp)]
fn print_node(node: &Node, out: &mut Vec<u8>) -> Result<(), NoMemory>
    ensures { OnOk result (out.new.items ≡ out.old.items ++ latex_node node.now) }
{
    match node {
        Node::Name(name) => print_variable(name.as_slice(), out),
        Node::Atom(name) => print_atom(name.as_slice(), out),
        Node::Bool(value) => print_truth(*value, out),
        Node::Number(n) => print_number(*n, out),
        Node::Text(text) => print_text(text.as_slice(), out),
        Node::Eps => print_token(b"\\epsilon", out),
        Node::Seq(parts) => print_exps(parts.as_slice(), out),
        Node::Infix(left, mark, right) | Node::Binary(left, mark, right) => {
            print_exp(left.get(), out)?;
            print_right(*mark, right.get(), out)
        }
        Node::Not(e) => print_behind(b"\\neg", e.get(), out),
        Node::Neg(e) => print_behind(b"-", e.get(), out),
        Node::Arith(e) | Node::Paren(e) => print_enclosed(b"(", e.get(), b")", out),
        Node::Bracket(opening, e) => print_bracketed(*opening, e.get(), out),
        Node::Tuple(parts) => print_tuple(parts.as_slice(), out),
        Node::Fields(fields) => print_fields(fields.as_slice(), out),
        Node::Dot(e, name) => print_dot(e.get(), name, out),
        Node::At(e, at) => {
            print_exp(e.get(), out)?;
            print_position(at.get(), out)
        }
        Node::Slice(e, from, length) => {
            print_exp(e.get(), out)?;
            print_behind(b"[", from.get(), out)?;
            print_enclosed(b":", length.get(), b"]", out)
        }
        Node::Update(e, path, part) => {
            print_exp(e.get(), out)?;
            print_path(path.as_slice(), out)?;
            print_enclosed(b"=", part.get(), b"]", out)
        }
        Node::Extend(e, path, part) => {
            print_exp(e.get(), out)?;
            print_path(path.as_slice(), out)?;
            print_enclosed(b"\\mathrel{=\\oplus}", part.get(), b"]", out)
        }
        Node::Len(e) => print_enclosed(b"|", e.get(), b"|", out),
        Node::Call(name, args) => print_call(name, args.as_slice(), out),
        Node::Iter(e, count) => {
            print_exp(e.get(), out)?;
            print_count(count, out)
        }
    }
}

/// Appends a token and the expression behind it.
#[cycle(print_exp)]
fn print_behind(written: &[u8], exp: &Exp, out: &mut Vec<u8>) -> Result<(), NoMemory>
    ensures { OnOk result
        (out.new.items ≡ out.old.items ++ (token written.now ++ latex_exp exp.now)) }
{
    print_token(written, out)?;
    print_exp(exp, out)
}

/// Appends an expression between two brackets.
#[cycle(print_exp)]
fn print_enclosed(
    opening: &[u8],
    exp: &Exp,
    closing: &[u8],
    out: &mut Vec<u8>,
) -> Result<(), NoMemory>
    ensures { OnOk result (out.new.items
        ≡ out.old.items ++ enclosed opening.now (latex_exp exp.now) closing.now) }
{
    print_behind(opening, exp, out)?;
    print_token(closing, out)
}

/// Appends an expression in a backquoted bracket.
#[cycle(print_exp)]
fn print_bracketed(opening: Mark, exp: &Exp, out: &mut Vec<u8>) -> Result<(), NoMemory>
    ensures { OnOk result
        (out.new.items ≡ out.old.items ++ bracketed opening (latex_exp exp.now)) }
{
    let closing = sign_text(opening.closing());
    print_enclosed(sign_text(opening), exp, closing, out)
}

/// Appends an expression and the field behind it.
#[cycle(print_exp)]
fn print_dot(exp: &Exp, name: &Name, out: &mut Vec<u8>) -> Result<(), NoMemory>
    ensures { OnOk result
        (out.new.items ≡ out.old.items ++ (latex_exp exp.now ++ dotted name.now)) }
{
    print_exp(exp, out)?;
    print_dotted(name.as_slice(), out)
}

/// Appends a call of a function.
#[cycle(print_exp)]
fn print_call(name: &Name, args: &[Exp], out: &mut Vec<u8>) -> Result<(), NoMemory>
    ensures { OnOk result (out.new.items
        ≡ out.old.items ++ (function name.now ++ arguments (map latex_exp args.now))) }
{
    print_function(name.as_slice(), out)?;
    print_arguments(args, out)
}

/// Appends a position in brackets.
#[cycle(print_exp)]
fn print_position(at: &Exp, out: &mut Vec<u8>) -> Result<(), NoMemory>
    ensures { OnOk result (out.new.items ≡ out.old.items ++ position (latex_exp at.now)) }
{
    print_enclosed(b"[", at, b"]", out)
}

/// Appends a sign and the expression behind it.
#[cycle(print_exp)]
fn print_right(mark: Mark, right: &Exp, out: &mut Vec<u8>) -> Result<(), NoMemory>
    ensures { OnOk result (out.new.items ≡ out.old.items ++ behind mark (latex_exp right.now)) }
{
    if let Mark::Caret = mark {
        return print_enclosed(b"^{", right, b"}", out);
    }
    print_behind(sign_text(mark), right, out)
}

/// Appends expressions, one behind another.
#[cycle(print_exp)]
fn print_exps(parts: &[Exp], out: &mut Vec<u8>) -> Result<(), NoMemory>
    ensures { OnOk result (out.new.items ≡ out.old.items ++ joined (map latex_exp parts.now)) }
{
    for part in parts {
        print_exp(part, out)?;
    }
    Ok(())
}

/// Appends expressions with commas between them.
#[cycle(print_exp)]
fn print_listed(parts: &[Exp], out: &mut Vec<u8>) -> Result<(), NoMemory>
    ensures { OnOk result (out.new.items
        ≡ out.old.items ++ separated (token (codes ",")) (map latex_exp parts.now)) }
{
    let Some((first, others)) = parts.split_first() else {
        return Ok(());
    };
    print_exp(first, out)?;
    for part in others {
        print_behind(b",", part, out)?;
    }
    Ok(())
}

/// Appends expressions in parentheses, with commas between them.
#[cycle(print_exp)]
fn print_tuple(parts: &[Exp], out: &mut Vec<u8>) -> Result<(), NoMemory>
    ensures { OnOk result (out.new.items ≡ out.old.items ++ tuple (map latex_exp parts.now)) }
{
    print_token(b"(", out)?;
    print_listed(parts, out)?;
    print_token(b")", out)
}

/// Appends the arguments of a function, where it has any.
#[cycle(print_exp)]
pub fn print_arguments(args: &[Exp], out: &mut Vec<u8>) -> Result<(), NoMemory>
    ensures { OnOk result (out.new.items ≡ out.old.items ++ arguments (map latex_exp args.now)) }
{
    if args.is_empty() {
        return Ok(());
    }
    print_tuple(args, out)
}

/// Appends a record: its fields in braces, with commas between them.
#[cycle(print_exp)]
fn print_fields(fields: &[(Name, Exp)], out: &mut Vec<u8>) -> Result<(), NoMemory>
    ensures { OnOk result (out.new.items
        ≡ out.old.items ++ record_text (map latex_field fields.now)) }
{
    print_token(b"\\{", out)?;
    print_listed_fields(fields, out)?;
    print_token(b"\\}", out)
}

/// Appends the fields of a record with commas between them.
#[cycle(print_exp)]
fn print_listed_fields(fields: &[(Name, Exp)], out: &mut Vec<u8>) -> Result<(), NoMemory>
    ensures { OnOk result (out.new.items ≡ out.old.items
        ++ separated (token (codes ",")) (map field_text (map latex_field fields.now))) }
{
    let Some((first, others)) = fields.split_first() else {
        return Ok(());
    };
    print_atom(first.0.as_slice(), out)?;
    print_exp(&first.1, out)?;
    for field in others {
        print_next_field(&field.0, &field.1, out)?;
    }
    Ok(())
}

/// Appends a comma and the field behind it.
#[cycle(print_exp)]
fn print_next_field(name: &Name, exp: &Exp, out: &mut Vec<u8>) -> Result<(), NoMemory>
    ensures { OnOk result (out.new.items
        ≡ out.old.items ++ (token (codes ",") ++ (atom name.now ++ latex_exp exp.now))) }
{
    print_token(b",", out)?;
    print_atom(name.as_slice(), out)?;
    print_exp(exp, out)
}

/// Appends the front of the brackets of a change, up to the end of the path.
#[cycle(print_exp)]
fn print_path(path: &[Seg], out: &mut Vec<u8>) -> Result<(), NoMemory>
    ensures { OnOk result (out.new.items
        ≡ out.old.items ++ (token (codes "[") ++ joined (map latex_seg path.now))) }
{
    print_token(b"[", out)?;
    for seg in path {
        print_seg(seg, out)?;
    }
    Ok(())
}

/// Appends a step of a path.
#[cycle(print_exp)]
fn print_seg(seg: &Seg, out: &mut Vec<u8>) -> Result<(), NoMemory>
    ensures { OnOk result (out.new.items ≡ out.old.items ++ latex_seg seg.now) }
{
    match seg {
        Seg::Field(name) => print_dotted(name.as_slice(), out),
        Seg::At(at) => print_position(at, out),
        Seg::Slice(from, length) => {
            print_behind(b"[", from, out)?;
            print_enclosed(b":", length, b"]", out)
        }
    }
}

/// Appends the mark of an iteration.
#[cycle(print_exp)]
pub fn print_count(count: &Count, out: &mut Vec<u8>) -> Result<(), NoMemory>
    ensures { OnOk result (out.new.items ≡ out.old.items ++ latex_count count.now) }
{
    match count {
        Count::Star => print_token(b"^{\\ast}", out),
        Count::Plus => print_token(b"^{+}", out),
        Count::Quest => print_token(b"^{?}", out),
        Count::Times(times) => print_enclosed(b"^{", times.get(), b"}", out),
        Count::Below(index, times) => {
            print_token(b"^{", out)?;
            print_token(b"(", out)?;
            print_variable(index.as_slice(), out)?;
            print_enclosed(b"<", times.get(), b")", out)?;
            print_token(b"}", out)
        }
    }
}
