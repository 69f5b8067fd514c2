//! How text trees are printed.

ghost use Rattle.std.specs.Prelude.{◌≡◌, ◌++◌, OnOk, OnErr, flat_map};
ghost use Rattle.st_text.specs.Printing.{IsCutOff};
ghost use Rattle.st_text.specs.Text.{escape_letter, escaped, quoted, text, row_text};
ghost use Rattle.st_text.specs.Trees.{tree_of, trees_of};

use crate::TextTree;
use st_num::NoMemory;

/// The letter that stands for a byte behind a backslash, or 0 for a byte that stands for itself.
fn escape_letter(byte: u8) -> u8
    ensures { result ≡ escape_letter byte }
{
    match byte {
        b'"' | b'\\' => byte,
        b'\n' => b'n',
        b'\t' => b't',
        _ => 0,
    }
}

/// Appends a byte as it is written between quotes.
#[tactic(auto, unfolding(crate::specs::Text::escaped))]
fn print_byte(byte: u8, out: &mut Vec<u8>) -> Result<(), NoMemory>
    ensures ok { OnOk result (out.new.items ≡ out.old.items ++ escaped byte) }
    ensures err { OnErr result (IsCutOff out.old.items (escaped byte) out.new.items) }
{
    let letter = escape_letter(byte);
    if letter == 0 {
        out.push(byte)?;
        return Ok(());
    }
    out.push(b'\\')?;
    out.push(letter)?;
    Ok(())
}

/// Appends the text as it is written between quotes, without these.
fn print_content(text: &[u8], out: &mut Vec<u8>) -> Result<(), NoMemory>
    ensures ok { OnOk result (out.new.items ≡ out.old.items ++ flat_map escaped text.now) }
    ensures err { OnErr result (IsCutOff out.old.items (flat_map escaped text.now) out.new.items) }
{
    for byte in text {
        print_byte(*byte, out)?;
    }
    Ok(())
}

/// Appends the text between quotes, with its escapes.
pub fn print_quoted(text: &[u8], out: &mut Vec<u8>) -> Result<(), NoMemory>
    ensures ok { OnOk result (out.new.items ≡ out.old.items ++ quoted text.now) }
    ensures err { OnErr result (IsCutOff out.old.items (quoted text.now) out.new.items) }
{
    out.push(b'"')?;
    print_content(text, out)?;
    out.push(b'"')?;
    Ok(())
}

/// Appends the text of the tree.
#[cycle(print)]
pub fn print_tree(tree: &TextTree, out: &mut Vec<u8>) -> Result<(), NoMemory>
    ensures ok { OnOk result (out.new.items ≡ out.old.items ++ text (tree_of tree.now)) }
    ensures err { OnErr result (IsCutOff out.old.items (text (tree_of tree.now)) out.new.items) }
{
    match tree {
        TextTree::Word(word) => {
            out.extend_from_slice(word.as_slice())?;
            Ok(())
        }
        TextTree::Quote(text) => print_quoted(text.as_slice(), out),
        TextTree::List(trees) => {
            out.push(b'(')?;
            print_row(trees.as_slice(), out)?;
            out.push(b')')?;
            Ok(())
        }
    }
}

/// Appends the texts of the trees, with one space between them.
#[cycle(print)]
pub fn print_row(trees: &[TextTree], out: &mut Vec<u8>) -> Result<(), NoMemory>
    ensures ok { OnOk result (out.new.items ≡ out.old.items ++ row_text (trees_of trees.now)) }
    ensures err { OnErr result
        (IsCutOff out.old.items (row_text (trees_of trees.now)) out.new.items) }
{
    let Some((first, others)) = trees.split_first() else {
        return Ok(());
    };
    print_tree(first, out)?;
    for tree in others {
        out.push(b' ')?;
        print_tree(tree, out)?;
    }
    Ok(())
}
