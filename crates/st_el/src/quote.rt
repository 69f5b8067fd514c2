//! Texts in their quotes.

ghost use Rattle.std.specs.Prelude.{◌≡◌, ◌++◌, OnOk, flat_map};
ghost use Rattle.st_num.specs.Texts.{escaped, quoted};

use st_num::NoMemory;

/// Appends a byte of a quoted text, with its escape where it has one.
fn print_byte(byte: u8, out: &mut Vec<u8>) -> Result<(), NoMemory>
    ensures { OnOk result (out.new.items ≡ out.old.items ++ escaped byte) }
{
    match byte {
        b'"' => out.extend_from_slice(b"\\\"")?,
        b'\\' => out.extend_from_slice(b"\\\\")?,
        b'\n' => out.extend_from_slice(b"\\n")?,
        b'\t' => out.extend_from_slice(b"\\t")?,
        _ => out.push(byte)?,
    }
    Ok(())
}

/// Appends the inside of a quoted text, with its escapes.
fn print_bytes(text: &[u8], out: &mut Vec<u8>) -> Result<(), NoMemory>
    ensures { OnOk result (out.new.items ≡ out.old.items ++ flat_map escaped text.now) }
{
    for byte in text {
        print_byte(*byte, out)?;
    }
    Ok(())
}

/// Appends the text between quotes, with its escapes.
pub fn print_quoted(text: &[u8], out: &mut Vec<u8>) -> Result<(), NoMemory>
    ensures { OnOk result (out.new.items ≡ out.old.items ++ quoted text.now) }
{
    out.push(b'"')?;
    print_bytes(text, out)?;
    out.push(b'"')?;
    Ok(())
}
