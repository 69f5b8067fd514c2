//! Which lists in a pattern have two parts of open length.

ghost use Rattle.std.specs.Prelude.{◌≡◌, ◌∷◌, [], map, nat_lt, if◌then◌else◌};
ghost use Rattle.st_semantics.specs.OpenParts.{open_parts, any_doubly_open, is_doubly_open};
ghost use Rattle.st_modes.specs.inner.Lengths.{lengths, has_literal_count, item_lengths, any_step_doubly_open, segment_lengths};

use st_il::{IlExp, Iteration, ListItem, PathSeg};

/// Whether an expression is a number.
fn is_number(exp: &IlExp) -> bool
    ensures { result ≡ (lengths exp.now).literal }
{
    match exp {
        IlExp::Number(_) => true,
        _ => false,
    }
}

/// Whether an iteration is by `^` with a number as its count.
fn has_literal_count(how: &Iteration) -> bool
    ensures { result ≡ has_literal_count how.now }
{
    match how {
        Iteration::Star | Iteration::Plus | Iteration::Quest => false,
        Iteration::Times(count) | Iteration::Below(_, count) => is_number(count.get()),
    }
}

/// Whether an expression is of fixed length as a part of a list.
#[cycle(fixed)]
fn is_fixed(exp: &IlExp) -> bool
    ensures { result ≡ (lengths exp.now).fixed }
{
    match exp {
        IlExp::Absent(_) => true,
        IlExp::List(_, items) => open_parts(items.as_slice()) == 0,
        IlExp::Cat(x, y) => is_fixed(x.get()) && is_fixed(y.get()),
        IlExp::Up(_, x) => is_fixed(x.get()),
        IlExp::Iter(how, _, _) => has_literal_count(how),
        _ => false,
    }
}

/// How many of the parts of a list are of open length.
#[cycle(fixed)]
fn open_parts(items: &[ListItem]) -> usize
    ensures { result ≡ open_parts (map item_lengths items.now) }
{
    let mut count = 0;
    for item in items {
        count += open_length(item);
    }
    count
}

/// 1 for a part of a list that is of open length, and 0 for any other.
#[cycle(fixed)]
fn open_length(item: &ListItem) -> usize
    ensures { result ≡ (if (item_lengths item.now).fixed then 0 else 1) }
{
    match item {
        ListItem::One(_) => 0,
        ListItem::All(exp) => { if is_fixed(exp) { 0 } else { 1 } }
    }
}

/// Whether two of the parts of a list are of open length.
fn has_two_open(items: &[ListItem]) -> bool
    ensures { result ≡ nat_lt 1 (open_parts (map item_lengths items.now)) }
{
    open_parts(items) > 1
}

/// Whether both sides of a `++` are of open length.
fn are_both_open(left: &IlExp, right: &IlExp) -> bool
    ensures { result ≡ nat_lt 1 (open_parts (lengths left.now ∷ lengths right.now ∷ [])) }
{
    !is_fixed(left) && !is_fixed(right)
}

/// Whether a list in an expression, or a `++` of lists, has two parts of open length.
#[cycle(doubly_open)]
pub(crate) fn is_doubly_open(exp: &IlExp) -> bool
    ensures { result ≡ is_doubly_open exp.now }
{
    match exp {
        IlExp::Bool(_) | IlExp::Number(_) | IlExp::Text(_) | IlExp::Var(_) => false,
        IlExp::Empty(_) | IlExp::Absent(_) => false,
        IlExp::Not(x) | IlExp::Neg(x) | IlExp::Present(x) => is_doubly_open(x.get()),
        IlExp::Len(x) | IlExp::Dot(x, _) | IlExp::Up(_, x) => is_doubly_open(x.get()),
        IlExp::And(x, y)
        | IlExp::Or(x, y)
        | IlExp::Imp(x, y)
        | IlExp::Iff(x, y)
        | IlExp::Add(_, x, y)
        | IlExp::Sub(_, x, y)
        | IlExp::Mul(_, x, y)
        | IlExp::Div(_, x, y)
        | IlExp::Rem(_, x, y)
        | IlExp::Pow(_, x, y)
        | IlExp::Eq(x, y)
        | IlExp::Ne(x, y)
        | IlExp::Lt(x, y)
        | IlExp::Gt(x, y)
        | IlExp::Le(x, y)
        | IlExp::Ge(x, y)
        | IlExp::Member(x, y)
        | IlExp::At(x, y)
        | IlExp::Join(x, y) => is_doubly_open(x.get()) || is_doubly_open(y.get()),
        IlExp::Cat(x, y) => {
            are_both_open(x.get(), y.get()) || is_doubly_open(x.get()) || is_doubly_open(y.get())
        }
        IlExp::Case(_, _, parts) | IlExp::Fields(_, parts) => {
            is_any_doubly_open(parts.as_slice())
        }
        IlExp::Tuple(parts) | IlExp::Call(_, parts) => is_any_doubly_open(parts.as_slice()),
        IlExp::List(_, items) => {
            has_two_open(items.as_slice()) || is_any_item_doubly_open(items.as_slice())
        }
        IlExp::Set(x, path, y) | IlExp::Extend(x, path, y) => {
            if is_doubly_open(x.get()) {
                return true;
            }
            if is_any_step_doubly_open(path.as_slice()) {
                return true;
            }
            is_doubly_open(y.get())
        }
        IlExp::Slice(x, y, z) => {
            is_doubly_open(x.get()) || is_doubly_open(y.get()) || is_doubly_open(z.get())
        }
        IlExp::Iter(_, _, body) => is_doubly_open(body.get()),
    }
}

/// Whether a list in one of some expressions has two parts of open length.
#[cycle(doubly_open)]
fn is_any_doubly_open(exps: &[IlExp]) -> bool
    ensures { result ≡ any_doubly_open (map lengths exps.now) }
{
    for exp in exps {
        if is_doubly_open(exp) {
            return true;
        }
    }
    false
}

/// Whether a list inside a part of a list has two parts of open length.
#[cycle(doubly_open)]
fn is_any_item_doubly_open(items: &[ListItem]) -> bool
    ensures { result ≡ any_doubly_open (map item_lengths items.now) }
{
    for item in items {
        let is = match item {
            ListItem::One(exp) => is_doubly_open(exp),
            ListItem::All(exp) => is_doubly_open(exp),
        };
        if is {
            return true;
        }
    }
    false
}

/// Whether a list in a step of a path has two parts of open length.
#[cycle(doubly_open)]
fn is_any_step_doubly_open(path: &[PathSeg]) -> bool
    ensures { result ≡ any_step_doubly_open path.now }
{
    for segment in path {
        if is_step_doubly_open(segment) {
            return true;
        }
    }
    false
}

/// Whether a list in this step of a path has two parts of open length.
#[cycle(doubly_open)]
fn is_step_doubly_open(segment: &PathSeg) -> bool
    ensures { result ≡ any_doubly_open (segment_lengths segment.now) }
{
    match segment {
        PathSeg::Field(_) => false,
        PathSeg::At(x) => is_doubly_open(x),
        PathSeg::Slice(x, y) => is_doubly_open(x) || is_doubly_open(y),
    }
}
