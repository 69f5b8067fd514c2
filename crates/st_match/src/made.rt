//! Values that are made, with their limit of height, and the operands that they are made of.

ghost use Rattle.std.specs.Prelude.{◌≡◌, ◌++◌, [], ◌∷◌, IfOk, IfSome, IfNone};
ghost use Rattle.st_semantics.specs.Parts.{limited, made, unary, binary, ternary};
ghost use Rattle.st_match.specs.inner.Operands.{only_one, Without, WithoutThree};

use st_il::{Value, is_within_height};
use st_num::{HIGHEST_VALUE, NoMemory, Row};
use st_semantics::Outcome;

/// A value that is made, where it is not too high.
pub(crate) fn limited(value: Value) -> Outcome
    ensures { result ≡ limited value }
{
    if is_within_height(&value, HIGHEST_VALUE) {
        Outcome::Val(value)
    } else {
        Outcome::Deep
    }
}

/// What an operation made, if it made something.
pub(crate) fn made(value: Option<Value>) -> Outcome
    ensures { result ≡ made value }
{
    match value {
        None => Outcome::NoValue,
        Some(value) => limited(value),
    }
}

/// The one operand, where there is exactly one.
pub(crate) fn only(operands: Row<Value>) -> Option<Value>
    ensures { result ≡ only_one operands }
{
    let mut operands = operands;
    let first = operands.pop()?;
    if operands.is_empty() {
        Some(first)
    } else {
        None
    }
}

/// The two operands, where there are exactly two.
pub(crate) fn two<'a>(operands: &'a [Value]) -> Option<(&'a Value, &'a Value)>
    ensures none { IfNone result (Without operands.now) }
    ensures some { IfSome result (λ both. operands.now ≡ both.0.now ∷ both.1.now ∷ []) }
{
    if operands.len() != 2 {
        return None;
    }
    Some((&operands[0], &operands[1]))
}

/// The first of three operands, and the other two, where there are exactly three.
pub(crate) fn three<'a>(operands: &'a [Value]) -> Option<(&'a Value, (&'a Value, &'a Value))>
    ensures none { IfNone result (WithoutThree operands.now) }
    ensures some { IfSome result
        (λ all. operands.now ≡ all.0.now ∷ all.1.0.now ∷ all.1.1.now ∷ []) }
{
    if operands.len() != 3 {
        return None;
    }
    Some((&operands[0], (&operands[1], &operands[2])))
}

/// The first elements with the others behind them.
pub(crate) fn append<T: Drop>(first: Row<T>, others: Row<T>) -> Result<Row<T>, NoMemory>
    ensures { IfOk result (λ all. all ≡ first ++ others) }
{
    let mut all = first.into_vec();
    let mut others = others.into_vec();
    all.append(&mut others)?;
    Ok(Row::from_vec(all))
}
