//! How each token is printed: a blank, and then what stands for it in LaTeX.

ghost use Rattle.std.specs.Prelude.{◌≡◌, ◌++◌, OnOk, flat_map};
ghost use Rattle.std.specs.Fmt.{decimal};
ghost use Rattle.st_num.specs.Texts.{escaped};
ghost use Rattle.st_latex.specs.Tokens.{token, sign_text, sign, name_byte, named, variable, atom, dotted, label, function, truth, is_special, text_byte, text};

use itoa::Buffer;
use st_num::{Mark, NoMemory};

/// How a sign is written; `*` and `\` are those of arithmetic.
#[rattlefmt::skip]
pub fn sign_text(sign: Mark) -> &'static [u8]
    ensures { result.now ≡ sign_text sign }
{
    match sign {
        Mark::Turnstile => b"\\vdash",
        Mark::ReverseTurnstile => b"\\dashv",
        Mark::SquigglyArrow => b"\\leadsto",
        Mark::SquigglyArrowStar => b"\\leadsto^{\\ast}",
        Mark::Approximately => b"\\approx",
        Mark::Arrow => b"\\to",
        Mark::Subtype => b"\\mathrel{<:}",
        Mark::Supertype => b"\\mathrel{:>}",
        Mark::PlusPlus => b"\\oplus",
        Mark::ExtendBy => b"\\mathrel{=\\oplus}",
        Mark::Ellipsis => b"\\dots",
        Mark::NotEqual => b"\\neq",
        Mark::LessOrEqual => b"\\leq",
        Mark::GreaterOrEqual => b"\\geq",
        Mark::ElementOf => b"\\in",
        Mark::Tilde => b"\\neg",
        Mark::And => b"\\wedge",
        Mark::Or => b"\\vee",
        Mark::Implies => b"\\Rightarrow",
        Mark::Equivalent => b"\\Leftrightarrow",
        Mark::Star => b"\\cdot",
        Mark::Backslash => b"\\bmod",
        Mark::OpenBrace | Mark::TickBrace => b"\\{",
        Mark::CloseBrace => b"\\}",
        Mark::TickParen | Mark::OpenArith => b"(",
        Mark::TickBracket => b"[",
        Mark::Colon | Mark::Define | Mark::Semicolon | Mark::DotDot | Mark::Equal | Mark::Less
        | Mark::Greater | Mark::Plus | Mark::Minus | Mark::Slash | Mark::Caret | Mark::Question
        | Mark::Bar | Mark::Comma | Mark::DashDash | Mark::OpenParen | Mark::CloseParen
        | Mark::OpenBracket | Mark::CloseBracket => sign.spelling().as_bytes(),
    }
}

/// Appends a token.
pub fn print_token(written: &[u8], out: &mut Vec<u8>) -> Result<(), NoMemory>
    ensures { OnOk result (out.new.items ≡ out.old.items ++ token written.now) }
{
    out.push(b' ')?;
    out.extend_from_slice(written)?;
    Ok(())
}

/// Appends a sign.
pub fn print_sign(mark: Mark, out: &mut Vec<u8>) -> Result<(), NoMemory>
    ensures { OnOk result (out.new.items ≡ out.old.items ++ sign mark) }
{
    print_token(sign_text(mark), out)
}

/// Appends a number.
pub fn print_number(n: u128, out: &mut Vec<u8>) -> Result<(), NoMemory>
    ensures { OnOk result (out.new.items ≡ out.old.items ++ token (decimal n)) }
{
    print_token(Buffer::new().format(n).as_bytes(), out)
}

/// Appends a truth value.
pub fn print_truth(value: bool, out: &mut Vec<u8>) -> Result<(), NoMemory>
    ensures { OnOk result (out.new.items ≡ out.old.items ++ truth value) }
{
    if value {
        print_token(b"\\text{true}", out)
    } else {
        print_token(b"\\text{false}", out)
    }
}

/// Appends a character of a name.
fn print_name_byte(byte: u8, out: &mut Vec<u8>) -> Result<(), NoMemory>
    ensures { OnOk result (out.new.items ≡ out.old.items ++ name_byte byte) }
{
    if byte == b'_' {
        out.extend_from_slice(b"\\_")?;
    } else {
        out.push(byte)?;
    }
    Ok(())
}

/// Appends a name as it stands in the braces of a command.
pub fn print_name(name: &[u8], out: &mut Vec<u8>) -> Result<(), NoMemory>
    ensures { OnOk result (out.new.items ≡ out.old.items ++ flat_map name_byte name.now) }
{
    for byte in name {
        print_name_byte(*byte, out)?;
    }
    Ok(())
}

/// Appends a name in the braces of a command, which is given with its `{`.
fn print_named(command: &[u8], name: &[u8], out: &mut Vec<u8>) -> Result<(), NoMemory>
    ensures { OnOk result
        (out.new.items ≡ out.old.items ++ token (named command.now name.now)) }
{
    print_token(command, out)?;
    print_name(name, out)?;
    out.push(b'}')?;
    Ok(())
}

/// Appends the name of a variable, a syntax or a type.
pub fn print_variable(name: &[u8], out: &mut Vec<u8>) -> Result<(), NoMemory>
    ensures { OnOk result (out.new.items ≡ out.old.items ++ variable name.now) }
{
    print_named(b"\\mathit{", name, out)
}

/// Appends an atom, or the name of a field in a record.
pub fn print_atom(name: &[u8], out: &mut Vec<u8>) -> Result<(), NoMemory>
    ensures { OnOk result (out.new.items ≡ out.old.items ++ atom name.now) }
{
    print_named(b"\\mathsf{", name, out)
}

/// Appends the name of a field behind a dot.
pub fn print_dotted(name: &[u8], out: &mut Vec<u8>) -> Result<(), NoMemory>
    ensures { OnOk result (out.new.items ≡ out.old.items ++ dotted name.now) }
{
    print_named(b".\\mathsf{", name, out)
}

/// Appends the name of a relation, a rule or a fragment.
pub fn print_label(name: &[u8], out: &mut Vec<u8>) -> Result<(), NoMemory>
    ensures { OnOk result (out.new.items ≡ out.old.items ++ label name.now) }
{
    print_named(b"\\text{", name, out)
}

/// Appends the name of a function, without its `$`.
pub fn print_function(name: &[u8], out: &mut Vec<u8>) -> Result<(), NoMemory>
    ensures { OnOk result (out.new.items ≡ out.old.items ++ function name.now) }
{
    print_named(b"\\mathrm{", name, out)
}

/// Whether LaTeX reads the byte otherwise than as itself.
fn is_special(byte: u8) -> bool
    ensures { result ≡ is_special byte }
{
    matches!(
        byte,
        b'\\' | b'{' | b'}' | b'$' | b'&' | b'#' | b'^' | b'_' | b'%' | b'~'
    )
}

/// Appends a byte of a text, by its code where it is special.
fn print_text_byte(byte: u8, out: &mut Vec<u8>) -> Result<(), NoMemory>
    ensures { OnOk result (out.new.items ≡ out.old.items ++ text_byte byte) }
{
    if is_special(byte) {
        out.extend_from_slice(b"\\char")?;
        out.extend_from_slice(Buffer::new().format(byte).as_bytes())?;
        out.push(b' ')?;
    } else {
        out.push(byte)?;
    }
    Ok(())
}

/// Appends a backslash and the letter behind it.
fn print_escape(letter: u8, out: &mut Vec<u8>) -> Result<(), NoMemory>
    ensures { OnOk result
        (out.new.items ≡ out.old.items ++ (text_byte 92 ++ text_byte letter)) }
{
    print_text_byte(b'\\', out)?;
    print_text_byte(letter, out)
}

/// Appends a byte of a text with its escape.
fn print_escaped(byte: u8, out: &mut Vec<u8>) -> Result<(), NoMemory>
    ensures { OnOk result
        (out.new.items ≡ out.old.items ++ flat_map text_byte (escaped byte)) }
{
    match byte {
        b'"' => print_escape(b'"', out),
        b'\\' => print_escape(b'\\', out),
        b'\n' => print_escape(b'n', out),
        b'\t' => print_escape(b't', out),
        _ => print_text_byte(byte, out),
    }
}

/// Appends a text.
pub fn print_text(bytes: &[u8], out: &mut Vec<u8>) -> Result<(), NoMemory>
    ensures { OnOk result (out.new.items ≡ out.old.items ++ text bytes.now) }
{
    print_token(b"\\texttt{", out)?;
    for byte in bytes {
        print_escaped(*byte, out)?;
    }
    out.push(b'}')?;
    Ok(())
}
