//! The order of values, which are written as text trees.

use st_il::{Env, Value, compare, copy_env, copy_value, same_env, same_value};
use st_num::{Boxed, Name, NoMemory, Row};
use st_text::{TextTree, read_integer, read_row};
use std::alloc::Global;
use std::test::Fail;

/// Values of each kind, each before the next: `c` is a case, `f` a record, `t` a tuple, `l` a list
/// and `o` an option.
const ASCENDING: &[u8] = b"false true -10 -9 0 340282366920938463463374607431768211455 \
\"\" \"a\" \"ab\" \"b\" (c \"A\") (c \"A %\" 7) (c \"A %\" 8) (c \"B %\" 0) \
(f \"F\" 9) (f \"G\" 1) (f \"G\" 2) (t 1 9) (t 2 0) (l) (l 1) (l 1 -5) (l 2) (o) (o 3)";

fn word_value(word: &[u8]) -> Value {
    match read_integer(word) {
        Some(number) => Value::Num(number),
        None => Value::Bool(word == b"true".as_slice()),
    }
}

/// The value that is a word or a quoted text.
fn plain_value(alloc: Global, tree: &TextTree) -> Result<Value, NoMemory> {
    match tree {
        TextTree::Word(word) => Ok(word_value(word.as_slice())),
        TextTree::Quote(text) => Ok(Value::Text(text.copy(alloc)?)),
        TextTree::List(_) => Err(NoMemory),
    }
}

fn plain_values(alloc: Global, trees: &[TextTree]) -> Result<Row<Value>, NoMemory> {
    let mut values = Row::new(alloc);
    for tree in trees {
        values.push(plain_value(alloc, tree)?)?;
    }
    Ok(values)
}

fn field(alloc: Global, name: &Name, value: Value) -> Result<Value, NoMemory> {
    let mut fields = Row::new(alloc);
    fields.push((name.copy(alloc)?, value))?;
    Ok(Value::Fields(fields))
}

/// A record of one field, or a case.
fn named(
    alloc: Global,
    kind: &[u8],
    name: &Name,
    operands: &[TextTree],
) -> Result<Value, NoMemory> {
    match (kind, operands) {
        (b"f", [operand]) => field(alloc, name, plain_value(alloc, operand)?),
        _ => {
            let operands = plain_values(alloc, operands)?;
            Ok(Value::Case(name.copy(alloc)?, operands))
        }
    }
}

fn unnamed(alloc: Global, kind: &[u8], operands: &[TextTree]) -> Result<Value, NoMemory> {
    match (kind, operands) {
        (b"t", _) => Ok(Value::Tuple(plain_values(alloc, operands)?)),
        (b"o", [operand]) => {
            let value = plain_value(alloc, operand)?;
            Ok(Value::Opt(Some(Boxed::new(alloc, value)?)))
        }
        (b"o", _) => Ok(Value::Opt(None)),
        _ => Ok(Value::List(plain_values(alloc, operands)?)),
    }
}

fn value_of(alloc: Global, tree: &TextTree) -> Result<Value, NoMemory> {
    let TextTree::List(parts) = tree else {
        return plain_value(alloc, tree);
    };
    match parts.as_slice() {
        [TextTree::Word(kind), TextTree::Quote(name), operands @ ..] => {
            named(alloc, kind.as_slice(), name, operands)
        }
        [TextTree::Word(kind), operands @ ..] => unnamed(alloc, kind.as_slice(), operands),
        _ => Err(NoMemory),
    }
}

/// The values of which this is the text.
fn read_values(alloc: Global, text: &[u8]) -> Result<Row<Value>, NoMemory> {
    let trees = read_row(alloc, text).map_err(|_| NoMemory)?;
    let mut values = Row::new(alloc);
    for tree in trees.as_slice() {
        values.push(value_of(alloc, tree)?)?;
    }
    Ok(values)
}

#[test]
fn values_of_all_kinds_in_order(rt: HostRuntime) -> Result<(), Fail> {
    let values = read_values(rt.alloc(), ASCENDING)?;
    assert!(rt; values.len() == 25);
    for (i, a) in values.as_slice().iter().enumerate() {
        for (j, b) in values.as_slice().iter().enumerate() {
            let same = compare(a, b) == i.cmp(&j) && same_value(a, b) == (i == j);
            assert!(rt; same, "{i} and {j}");
        }
    }
    Ok(())
}

/// A variable `n` of this value.
fn env_of(alloc: Global, value: &Value) -> Result<Env, NoMemory> {
    let mut entries = Row::new(alloc);
    let copy = copy_value(alloc, value)?;
    entries.push((Name::from_slice(alloc, b"n")?, copy))?;
    Ok(Env { entries })
}

#[test]
fn an_environment_is_copied(rt: HostRuntime) -> Result<(), Fail> {
    let env = env_of(rt.alloc(), &Value::Bool(true))?;
    let copy = copy_env(rt.alloc(), &env)?;
    assert!(rt; same_env(&copy, &env));
    Ok(())
}
