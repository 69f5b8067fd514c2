//! In how many ways `val* instr* instr_1*` is a list of instructions, and at once
//! `instr_1* instr* val*` another one.

ghost use Rattle.std.specs.Prelude.{◌≡◌, ◌∷◌, [], IfOk};
ghost use Rattle.st_match_tests.specs.Open.{part_of, IsOpen, AreOpen};

use st_il::{
    Alternative, Env, IlExp, Iteration, ListItem, Listed, SyntaxBody, SyntaxDef, Ty, Value,
};
use st_match::{all_match, matches};
use st_num::{Boxed, Dim, Kind, Name, NoMemory, Num, Row};
use st_types::TypeTable;
use std::alloc::Global;
use std::test::Fail;

fn row_of<T: Drop>(alloc: Global, first: T, second: T, third: T) -> Result<Row<T>, NoMemory>
    ensures { IfOk result (λ row. row ≡ first ∷ second ∷ third ∷ []) }
{
    let mut row = Row::new(alloc);
    row.push(first)?;
    row.push(second)?;
    row.push(third)?;
    Ok(row)
}

fn name(alloc: Global, bytes: &[u8]) -> Result<Name, NoMemory>
    ensures { IfOk result (λ name. name ≡ bytes.now) }
{
    Row::from_slice(alloc, bytes)
}

fn case(alloc: Global, tag: &[u8], operands: Row<Ty>) -> Result<Alternative, NoMemory> {
    Ok(Alternative::Case(name(alloc, tag)?, operands))
}

/// The values of type `val`: numbers.
fn values(alloc: Global) -> Result<SyntaxDef, NoMemory> {
    let mut operands = Row::new(alloc);
    operands.push(Ty::Nat)?;
    let mut cases = Row::new(alloc);
    cases.push(case(alloc, b"CONST %", operands)?)?;
    Ok(SyntaxDef {
        name: name(alloc, b"val")?,
        body: SyntaxBody::Variant(cases),
    })
}

/// The values of type `instr`: those of type `val`, and two more.
fn instructions(alloc: Global) -> Result<SyntaxDef, NoMemory> {
    let mut cases = Row::new(alloc);
    cases.push(Alternative::Incl(name(alloc, b"val")?))?;
    cases.push(case(alloc, b"NOP", Row::new(alloc))?)?;
    cases.push(case(alloc, b"DROP", Row::new(alloc))?)?;
    Ok(SyntaxDef {
        name: name(alloc, b"instr")?,
        body: SyntaxBody::Variant(cases),
    })
}

fn syntaxes(alloc: Global) -> Result<Row<SyntaxDef>, NoMemory> {
    let mut syntaxes = Row::new(alloc);
    syntaxes.push(values(alloc)?)?;
    syntaxes.push(instructions(alloc)?)?;
    Ok(syntaxes)
}

fn types(alloc: Global) -> Result<TypeTable, NoMemory> {
    let syntaxes = syntaxes(alloc)?;
    if !TypeTable::can_build(&syntaxes) {
        return Err(NoMemory);
    }
    match TypeTable::build(alloc, &syntaxes) {
        Ok(types) => Ok(types),
        Err(_) => Err(NoMemory),
    }
}

/// A variable that stands for a list of these.
fn listed(alloc: Global, variable: &[u8], ty: &[u8]) -> Result<Listed, NoMemory> {
    Ok(Listed {
        name: name(alloc, variable)?,
        ty: Ty::Name(name(alloc, ty)?),
        dim: Dim::from_slice(alloc, &[Kind::List])?,
    })
}

fn variables(alloc: Global) -> Result<Row<Listed>, NoMemory> {
    let front = listed(alloc, b"val", b"val")?;
    let middle = listed(alloc, b"instr", b"instr")?;
    let back = listed(alloc, b"instr_1", b"instr")?;
    row_of(alloc, front, middle, back)
}

/// The part of a list that is all elements of a variable.
fn part(alloc: Global, variable: &[u8]) -> Result<ListItem, NoMemory>
    ensures { IfOk result (λ part. part ≡ part_of variable.now) }
{
    let body = IlExp::Var(name(alloc, variable)?);
    let body = Boxed::new(alloc, body)?;
    let mut names = Row::new(alloc);
    names.push(name(alloc, variable)?)?;
    Ok(ListItem::All(IlExp::Iter(Iteration::Star, names, body)))
}

/// The list of all elements of three variables, one behind the other.
fn pattern(alloc: Global, front: &[u8], middle: &[u8], back: &[u8]) -> Result<IlExp, NoMemory>
    ensures { IfOk result IsOpen }
{
    let front = part(alloc, front)?;
    let middle = part(alloc, middle)?;
    let back = part(alloc, back)?;
    let parts = row_of(alloc, front, middle, back)?;
    Ok(IlExp::List(Ty::Nat, parts))
}

/// `C` is `CONST 1`, `N` is `NOP`, and any other letter is `DROP`.
fn instruction(alloc: Global, letter: u8) -> Result<Value, NoMemory> {
    let mut operands = Row::new(alloc);
    match letter {
        b'C' => {
            if let Some(number) = Num::new(false, 1) {
                operands.push(Value::Num(number))?;
            }
            Ok(Value::Case(name(alloc, b"CONST %")?, operands))
        }
        b'N' => Ok(Value::Case(name(alloc, b"NOP")?, operands)),
        _ => Ok(Value::Case(name(alloc, b"DROP")?, operands)),
    }
}

fn list(alloc: Global, letters: &[u8]) -> Result<Value, NoMemory> {
    let mut elements = Row::new(alloc);
    for letter in letters {
        elements.push(instruction(alloc, *letter)?)?;
    }
    Ok(Value::List(elements))
}

/// How many environments match.
fn count(
    alloc: Global,
    types: &TypeTable,
    variables: &[Listed],
    pattern: &IlExp,
    value: &Value,
) -> Result<usize, NoMemory>
    requires { IsOpen pattern.now }
{
    let entries = Row::new(alloc);
    let env = Env { entries };
    let found = matches(alloc, types, variables, pattern, value, &env)?;
    Ok(found.len())
}

fn count_of(
    alloc: Global,
    types: &TypeTable,
    variables: &[Listed],
    pattern: &IlExp,
    letters: &[u8],
) -> Result<usize, NoMemory>
    requires { IsOpen pattern.now }
{
    let value = list(alloc, letters)?;
    count(alloc, types, variables, pattern, &value)
}

fn count_split(
    alloc: Global,
    types: &TypeTable,
    variables: &[Listed],
    letters: &[u8],
) -> Result<usize, NoMemory> {
    let pattern = pattern(alloc, b"val", b"instr", b"instr_1")?;
    count_of(alloc, types, variables, &pattern, letters)
}

fn count_typed(alloc: Global, types: &TypeTable, letters: &[u8]) -> Result<usize, NoMemory> {
    let variables = variables(alloc)?;
    count_split(alloc, types, variables.as_slice(), letters)
}

/// In how many ways the list of these instructions is three, one behind the other.
fn ways(alloc: Global, letters: &[u8]) -> Result<usize, NoMemory> {
    let types = types(alloc)?;
    count_typed(alloc, &types, letters)
}

/// Each row is a list of instructions, and in how many ways it is three lists of which the first has
/// only values.
const WAYS: [(&str, usize); 5] = [("", 1), ("ND", 3), ("CD", 5), ("DC", 3), ("CCN", 9)];

#[test]
fn a_list_is_split_in_each_way_that_the_types_allow(rt: HostRuntime) -> Result<(), Fail> {
    let alloc = rt.alloc();
    for (letters, wanted) in &WAYS {
        let found = ways(alloc, letters.as_bytes())?;
        assert!(&rt; found == *wanted, "{letters}");
    }
    Ok(())
}

fn pair_of<T: Drop>(alloc: Global, first: T, second: T) -> Result<Row<T>, NoMemory>
    ensures { IfOk result (λ row. row ≡ first ∷ second ∷ []) }
{
    let mut row = Row::new(alloc);
    row.push(first)?;
    row.push(second)?;
    Ok(row)
}

/// The list of all elements of the three variables, and that of the same in the reverse order.
fn both_patterns(alloc: Global) -> Result<Row<IlExp>, NoMemory>
    ensures { IfOk result AreOpen }
{
    let forward = pattern(alloc, b"val", b"instr", b"instr_1")?;
    let back = pattern(alloc, b"instr_1", b"instr", b"val")?;
    let both = pair_of(alloc, forward, back)?;
    Ok(both)
}

/// How many environments match all the patterns.
fn count_all(
    alloc: Global,
    types: &TypeTable,
    patterns: &[IlExp],
    values: &[Value],
) -> Result<usize, NoMemory>
    requires { AreOpen patterns.now }
{
    let variables = variables(alloc)?;
    let found = all_match(alloc, types, variables.as_slice(), patterns, values)?;
    Ok(found.len())
}

fn count_both(alloc: Global, types: &TypeTable, values: &[Value]) -> Result<usize, NoMemory> {
    let patterns = both_patterns(alloc)?;
    count_all(alloc, types, patterns.as_slice(), values)
}

fn both_lists(alloc: Global, first: &[u8], second: &[u8]) -> Result<Row<Value>, NoMemory> {
    let first = list(alloc, first)?;
    let second = list(alloc, second)?;
    pair_of(alloc, first, second)
}

/// In how many ways the two lists are the same three, in that order and in the reverse one.
fn ways_of_both(alloc: Global, first: &[u8], second: &[u8]) -> Result<usize, NoMemory> {
    let types = types(alloc)?;
    let values = both_lists(alloc, first, second)?;
    count_both(alloc, &types, values.as_slice())
}

/// Each row is two lists of instructions, and in how many ways the first is three lists and the
/// second the same three in the reverse order.
const WAYS_OF_BOTH: [(&str, &str, usize); 5] = [
    ("", "", 1),
    ("ND", "DN", 1),
    ("ND", "ND", 2),
    ("CD", "DC", 3),
    ("N", "", 0),
];

#[test]
fn two_lists_are_split_at_once(rt: HostRuntime) -> Result<(), Fail> {
    let alloc = rt.alloc();
    for (first, second, wanted) in &WAYS_OF_BOTH {
        let found = ways_of_both(alloc, first.as_bytes(), second.as_bytes())?;
        assert!(&rt; found == *wanted, "{first} {second}");
    }
    Ok(())
}
