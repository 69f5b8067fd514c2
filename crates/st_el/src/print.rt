//! How expressions are printed.

ghost use Rattle.std.specs.Prelude.{◌≡◌, ◌++◌, OnOk, OnErr, map, flat_map, codes};
ghost use Rattle.std.specs.Fmt.{decimal};
ghost use Rattle.st_num.specs.Signs.{spelling, level, prefix_level, left_of, closing};
ghost use Rattle.st_el.specs.Contexts.{context_at, operand_before, whole};
ghost use Rattle.st_el.specs.SourceText.{opened, printed, printed_mark, printed_step, printed_field, front, postfix, left_side, blank_behind, elements, listed, fields_text, arguments, truth, source_text};

use crate::context::{Around, Behind, Context, in_parens, left_of, right_of};
use crate::quote::print_quoted;
use crate::wrapping::{behind_of, wrapping};
use crate::{Count, Exp, Node, Seg};
use itoa::Buffer;
use st_num::{Mark, Name, NoMemory};
use std::alloc::Global;

/// How a truth value is written.
fn truth(value: bool) -> &'static [u8]
    ensures { result.now ≡ truth value }
{
    if value { b"true" } else { b"false" }
}

/// Appends a text as it is.
fn print_word(word: &[u8], out: &mut Vec<u8>) -> Result<(), NoMemory>
    ensures { OnOk result (out.new.items ≡ out.old.items ++ word.now) }
{
    out.extend_from_slice(word)?;
    Ok(())
}

/// Appends a number in decimal digits.
fn print_natural(n: u128, out: &mut Vec<u8>) -> Result<(), NoMemory>
    ensures { OnOk result (out.new.items ≡ out.old.items ++ decimal n) }
{
    out.extend_from_slice(Buffer::new().format(n).as_bytes())?;
    Ok(())
}

/// Appends the name of a field between this text and a blank.
fn print_label(before: &[u8], name: &Name, out: &mut Vec<u8>) -> Result<(), NoMemory>
    ensures { OnOk result (out.new.items ≡ out.old.items ++ (before.now ++ name.now ++ codes " ")) }
{
    out.extend_from_slice(before)?;
    out.extend_from_slice(name.as_slice())?;
    out.push(b' ')?;
    Ok(())
}

/// Appends a sign and a blank. There is no blank behind `^`.
fn print_sign(sign: Mark, out: &mut Vec<u8>) -> Result<(), NoMemory>
    ensures { OnOk result (out.new.items ≡ out.old.items ++ (spelling sign ++ blank_behind sign)) }
{
    out.extend_from_slice(sign.spelling().as_bytes())?;
    if !matches!(sign, Mark::Caret) {
        out.push(b' ')?;
    }
    Ok(())
}

/// Appends a dot and the name of a field.
fn print_field(field: &Name, out: &mut Vec<u8>) -> Result<(), NoMemory>
    ensures { OnOk result (out.new.items ≡ out.old.items ++ (codes "." ++ field.now)) }
{
    out.push(b'.')?;
    out.extend_from_slice(field.as_slice())?;
    Ok(())
}

/// Appends the name of a function behind its `$`.
fn print_function(name: &Name, out: &mut Vec<u8>) -> Result<(), NoMemory>
    ensures { OnOk result (out.new.items ≡ out.old.items ++ (codes "$" ++ name.now)) }
{
    out.push(b'$')?;
    out.extend_from_slice(name.as_slice())?;
    Ok(())
}

/// Prints a part in its context.
#[cycle(print)]
fn print_at(exp: &Exp, context: Context, out: &mut Vec<u8>) -> Result<(), NoMemory>
    ensures { OnOk result (out.new.items ≡ out.old.items ++ (printed exp.now).at context) }
{
    let wrapping = wrapping(&exp.node, context);
    out.extend_from_slice(wrapping.opening())?;
    print_front(&exp.node, wrapping.around_in(context.around), out)?;
    print_postfix(&exp.node, out)?;
    out.extend_from_slice(wrapping.ending())?;
    Ok(())
}

/// Prints a part with a text before and behind it.
#[cycle(print)]
fn print_between(
    exp: &Exp,
    context: Context,
    before: &[u8],
    behind: &[u8],
    out: &mut Vec<u8>,
) -> Result<(), NoMemory>
    ensures { OnOk result (out.new.items
        ≡ out.old.items ++ (before.now ++ (printed exp.now).at context ++ behind.now)) }
{
    out.extend_from_slice(before)?;
    print_at(exp, context, out)?;
    out.extend_from_slice(behind)?;
    Ok(())
}

/// Prints a part that stands alone in its context, with a text before and behind it.
#[cycle(print)]
fn print_whole(
    exp: &Exp,
    around: Around,
    before: &[u8],
    behind: &[u8],
    out: &mut Vec<u8>,
) -> Result<(), NoMemory>
    ensures { OnOk result (out.new.items
        ≡ out.old.items ++ (before.now ++ (printed exp.now).at (whole around) ++ behind.now)) }
{
    print_between(exp, Context::whole(around), before, behind, out)
}

/// Prints a sign that has no left side, as it is written here, and the part behind it.
#[cycle(print)]
fn print_behind(
    written: &[u8],
    sign: Mark,
    exp: &Exp,
    around: Around,
    out: &mut Vec<u8>,
) -> Result<(), NoMemory>
    ensures { OnOk result (out.new.items ≡ out.old.items
        ++ (written.now ++ (printed exp.now).at (context_at around (prefix_level sign)))) }
{
    print_word(written, out)?;
    print_at(exp, Context::after(around, sign), out)
}

/// Prints an operand with this behind it.
#[cycle(print)]
fn print_operand(
    exp: &Exp,
    around: Around,
    behind: Behind,
    out: &mut Vec<u8>,
) -> Result<(), NoMemory>
    ensures { OnOk result (out.new.items
        ≡ out.old.items ++ (printed exp.now).at (operand_before around behind)) }
{
    print_at(exp, Context::operand_before(around, behind), out)
}

/// Prints parts in parentheses.
#[cycle(print)]
fn print_tuple(parts: &[Exp], out: &mut Vec<u8>) -> Result<(), NoMemory>
    ensures { OnOk result (out.new.items
        ≡ out.old.items ++ (codes "(" ++ listed (map printed parts.now) ++ codes ")")) }
{
    print_word(b"(", out)?;
    print_listed(parts, out)?;
    print_word(b")", out)
}

/// Prints what stands before a postfix, or the whole where there is none.
#[cycle(print)]
fn print_front(node: &Node, around: Around, out: &mut Vec<u8>) -> Result<(), NoMemory>
    ensures { OnOk result (out.new.items ≡ out.old.items ++ front around (opened node.now)) }
{
    match node {
        Node::Name(name) | Node::Atom(name) => print_word(name.as_slice(), out),
        Node::Bool(value) => print_word(truth(*value), out),
        Node::Number(n) => print_natural(*n, out),
        Node::Text(text) => print_quoted(text.as_slice(), out),
        Node::Eps => print_word(b"eps", out),
        Node::Seq(parts) => print_elements(parts.as_slice(), around, out),
        Node::Infix(left, sign, right) | Node::Binary(left, sign, right) => {
            print_left(left.get(), *sign, around, out)?;
            print_at(right.get(), Context::at(around, right_of(*sign)), out)
        }
        Node::Not(e) => print_behind(b"~ ", Mark::Tilde, e.get(), around, out),
        Node::Neg(e) => print_behind(b"- ", Mark::Minus, e.get(), around, out),
        Node::Arith(e) => print_whole(e.get(), Around::Arithmetic, b"$(", b")", out),
        Node::Paren(e) => print_whole(e.get(), in_parens(around), b"(", b")", out),
        Node::Bracket(sign, e) => {
            let close = sign.closing().spelling().as_bytes();
            print_whole(
                e.get(),
                Around::Brackets,
                sign.spelling().as_bytes(),
                close,
                out,
            )
        }
        Node::Tuple(parts) => print_tuple(parts.as_slice(), out),
        Node::Fields(fields) => print_fields(fields.as_slice(), out),
        Node::Dot(e, _) => print_operand(e.get(), around, Behind::Dot, out),
        Node::At(e, _) | Node::Slice(e, _, _) | Node::Update(e, _, _) | Node::Extend(e, _, _) => {
            print_operand(e.get(), around, Behind::Other, out)
        }
        Node::Len(e) => print_whole(e.get(), Around::Bars, b"|", b"|", out),
        Node::Call(name, _) => print_function(name, out),
        Node::Iter(e, count) => print_operand(e.get(), around, behind_of(count), out),
    }
}

/// Prints what stands behind an operand or a function.
#[cycle(print)]
fn print_postfix(node: &Node, out: &mut Vec<u8>) -> Result<(), NoMemory>
    ensures { OnOk result (out.new.items ≡ out.old.items ++ postfix (opened node.now)) }
{
    let brackets = Context::whole(Around::Brackets);
    match node {
        Node::Dot(_, field) => print_field(field, out),
        Node::At(_, at) => print_between(at.get(), Context::position(), b"[", b"]", out),
        Node::Slice(_, from, length) => {
            print_between(from.get(), Context::position(), b"[", b" : ", out)?;
            print_between(length.get(), Context::position(), b"", b"]", out)
        }
        Node::Update(_, path, part) => {
            print_path(path.as_slice(), out)?;
            print_between(part.get(), brackets, b" = ", b"]", out)
        }
        Node::Extend(_, path, part) => {
            print_path(path.as_slice(), out)?;
            print_between(part.get(), brackets, b" =++ ", b"]", out)
        }
        Node::Iter(_, count) => print_mark(count, out),
        Node::Call(_, args) if args.is_empty() => Ok(()),
        Node::Call(_, args) => print_tuple(args.as_slice(), out),
        _ => Ok(()),
    }
}

/// Prints the left side of a sign and the sign. An absent side has no blank behind it.
#[cycle(print)]
fn print_left(left: &Exp, sign: Mark, around: Around, out: &mut Vec<u8>) -> Result<(), NoMemory>
    ensures { OnOk result (out.new.items ≡ out.old.items
        ++ (left_side ((printed left.now).at (context_at around (left_of (level sign))))
        ++ spelling sign ++ blank_behind sign)) }
{
    let start = out.len();
    print_at(left, Context::at(around, left_of(sign)), out)?;
    if out.len() == start {
        return print_sign(sign, out);
    }
    print_word(b" ", out)?;
    print_sign(sign, out)
}

/// Prints the elements of a sequence.
#[cycle(print)]
fn print_elements(parts: &[Exp], around: Around, out: &mut Vec<u8>) -> Result<(), NoMemory>
    ensures { OnOk result
        (out.new.items ≡ out.old.items ++ elements around (map printed parts.now)) }
{
    let Some((first, others)) = parts.split_first() else {
        return Ok(());
    };
    print_operand(first, around, Behind::Other, out)?;
    for part in others {
        print_between(part, Context::next_element(around), b" ", b"", out)?;
    }
    Ok(())
}

/// Prints parts with commas between them.
#[cycle(print)]
fn print_listed(parts: &[Exp], out: &mut Vec<u8>) -> Result<(), NoMemory>
    ensures { OnOk result (out.new.items ≡ out.old.items ++ listed (map printed parts.now)) }
{
    let Some((first, others)) = parts.split_first() else {
        return Ok(());
    };
    print_at(first, Context::whole(Around::Brackets), out)?;
    for part in others {
        print_between(part, Context::whole(Around::Brackets), b", ", b"", out)?;
    }
    Ok(())
}

/// Prints a record: its fields in braces, with commas between them.
#[cycle(print)]
fn print_fields(fields: &[(Name, Exp)], out: &mut Vec<u8>) -> Result<(), NoMemory>
    ensures { OnOk result (out.new.items ≡ out.old.items
        ++ (codes "{" ++ fields_text (map printed_field fields.now) ++ codes "}")) }
{
    let Some((first, others)) = fields.split_first() else {
        return print_word(b"{}", out);
    };
    print_label(b"{", &first.0, out)?;
    print_at(&first.1, Context::whole(Around::Brackets), out)?;
    for field in others {
        print_label(b", ", &field.0, out)?;
        print_at(&field.1, Context::whole(Around::Brackets), out)?;
    }
    print_word(b"}", out)?;
    Ok(())
}

/// Prints the front of the brackets of a change, up to the end of the path.
#[cycle(print)]
fn print_path(path: &[Seg], out: &mut Vec<u8>) -> Result<(), NoMemory>
    ensures { OnOk result (out.new.items ≡ out.old.items
        ++ (codes "[" ++ flat_map (λ step. step) (map printed_step path.now))) }
{
    out.push(b'[')?;
    for step in path {
        print_step(step, out)?;
    }
    Ok(())
}

/// Prints a step of a path.
#[cycle(print)]
fn print_step(step: &Seg, out: &mut Vec<u8>) -> Result<(), NoMemory>
    ensures { OnOk result (out.new.items ≡ out.old.items ++ printed_step step.now) }
{
    match step {
        Seg::Field(name) => print_field(name, out),
        Seg::At(at) => print_between(at, Context::position(), b"[", b"]", out),
        Seg::Slice(from, length) => {
            print_between(from, Context::position(), b"[", b" : ", out)?;
            print_between(length, Context::position(), b"", b"]", out)
        }
    }
}

/// Prints how often an iteration goes, as it stands behind what is repeated.
#[cycle(print)]
fn print_mark(count: &Count, out: &mut Vec<u8>) -> Result<(), NoMemory>
    ensures { OnOk result (out.new.items ≡ out.old.items ++ (printed_mark count.now).text) }
{
    match count {
        Count::Star => print_word(b"*", out),
        Count::Plus => print_word(b"+", out),
        Count::Quest => print_word(b"?", out),
        Count::Times(times) => print_between(times.get(), Context::count(), b"^", b"", out),
        Count::Below(index, times) => {
            print_word(b"^(", out)?;
            print_word(index.as_slice(), out)?;
            print_between(times.get(), Context::count(), b" < ", b")", out)
        }
    }
}

/// Appends the text of an expression. Where memory is wanting nothing is appended.
pub fn print_el(alloc: Global, exp: &Exp, out: &mut Vec<u8>) -> Result<(), NoMemory>
    ensures ok { OnOk result (out.new.items ≡ out.old.items ++ source_text exp.now) }
    ensures err { OnErr result (out.new.items ≡ out.old.items) }
{
    let mut text = Vec::new(alloc);
    print_at(exp, Context::whole(Around::Brackets), &mut text)?;
    out.extend_from_slice(text.as_slice())?;
    Ok(())
}
