//! The variables that occur in expressions and premises.

ghost use Rattle.std.specs.Prelude.{◌≡◌, ℕ, List, Bool, map};
ghost use Rattle.st_il.specs.Occurrences.{occurs, occurs_in_count, occurs_in_item, occurs_in_step, in_any, occurs_in_prem};

use crate::{IlExp, IlPrem, Iteration, ListItem, PathSeg};
use st_num::Name;

/// An expression or a premise, in which variables occur.
pub trait HasVariables {
    /// The name occurs as a variable.
    ghost occurs: { Self → List ℕ → Bool };

    /// Whether the name occurs as a variable. An index is none in the body that it belongs to.
    fn has(&self, name: &Name) -> bool
        ensures { result ≡ occurs self.now name.now };
}

impl HasVariables for IlExp {
    ghost occurs = { λ exp name. occurs name exp };

    fn has(&self, name: &Name) -> bool {
        occurs(self, name)
    }
}

impl HasVariables for IlPrem {
    ghost occurs = { λ prem name. occurs_in_prem name prem };

    fn has(&self, name: &Name) -> bool {
        occurs_in_prem(self, name)
    }
}

/// Whether the name occurs as a variable.
#[cycle(occurs)]
fn occurs(exp: &IlExp, name: &Name) -> bool
    ensures { result ≡ occurs name.now exp.now }
{
    match exp {
        IlExp::Bool(_) | IlExp::Number(_) | IlExp::Text(_) => false,
        IlExp::Empty(_) | IlExp::Absent(_) => false,
        IlExp::Var(other) => *name == *other,
        IlExp::Not(x) | IlExp::Neg(x) | IlExp::Present(x) | IlExp::Len(x) => occurs(x.get(), name),
        IlExp::Dot(x, _) | IlExp::Up(_, x) => occurs(x.get(), name),
        IlExp::And(x, y) | IlExp::Or(x, y) => occurs(x.get(), name) || occurs(y.get(), name),
        IlExp::Imp(x, y) | IlExp::Iff(x, y) => occurs(x.get(), name) || occurs(y.get(), name),
        IlExp::Add(_, x, y) | IlExp::Sub(_, x, y) => occurs(x.get(), name) || occurs(y.get(), name),
        IlExp::Mul(_, x, y) | IlExp::Div(_, x, y) => occurs(x.get(), name) || occurs(y.get(), name),
        IlExp::Rem(_, x, y) | IlExp::Pow(_, x, y) => occurs(x.get(), name) || occurs(y.get(), name),
        IlExp::Eq(x, y) | IlExp::Ne(x, y) => occurs(x.get(), name) || occurs(y.get(), name),
        IlExp::Lt(x, y) | IlExp::Gt(x, y) => occurs(x.get(), name) || occurs(y.get(), name),
        IlExp::Le(x, y) | IlExp::Ge(x, y) => occurs(x.get(), name) || occurs(y.get(), name),
        IlExp::Member(x, y) | IlExp::At(x, y) => occurs(x.get(), name) || occurs(y.get(), name),
        IlExp::Cat(x, y) | IlExp::Join(x, y) => occurs(x.get(), name) || occurs(y.get(), name),
        IlExp::Case(_, _, parts) | IlExp::Fields(_, parts) => any_has(parts.as_slice(), name),
        IlExp::Tuple(parts) | IlExp::Call(_, parts) => any_has(parts.as_slice(), name),
        IlExp::List(_, items) => any_item_has(items.as_slice(), name),
        IlExp::Set(x, path, y) | IlExp::Extend(x, path, y) => {
            occurs(x.get(), name) || any_step_has(path.as_slice(), name) || occurs(y.get(), name)
        }
        IlExp::Slice(x, y, z) => {
            occurs(x.get(), name) || occurs(y.get(), name) || occurs(z.get(), name)
        },
        IlExp::Iter(count, _, body) => {
            count_has(count, name) || !is_index(count, name) && occurs(body.get(), name)
        }
    }
}

/// Whether the name occurs as a variable in one of these.
#[cycle(occurs)]
fn any_has(parts: &[IlExp], name: &Name) -> bool
    ensures { result ≡ in_any (map (occurs name.now) parts.now) }
{
    for part in parts {
        if occurs(part, name) {
            return true;
        }
    }
    false
}

/// Whether the name occurs in one of the parts of a list.
#[cycle(occurs)]
fn any_item_has(items: &[ListItem], name: &Name) -> bool
    ensures { result ≡ in_any (map (occurs_in_item name.now) items.now) }
{
    for item in items {
        if item_has(item, name) {
            return true;
        }
    }
    false
}

/// Whether the name occurs in this part of a list.
#[cycle(occurs)]
fn item_has(item: &ListItem, name: &Name) -> bool
    ensures { result ≡ occurs_in_item name.now item.now }
{
    match item {
        ListItem::One(x) | ListItem::All(x) => occurs(x, name),
    }
}

/// Whether the name occurs in one of the steps of a path.
#[cycle(occurs)]
fn any_step_has(path: &[PathSeg], name: &Name) -> bool
    ensures { result ≡ in_any (map (occurs_in_step name.now) path.now) }
{
    for step in path {
        if step_has(step, name) {
            return true;
        }
    }
    false
}

/// Whether the name occurs in this step of a path.
#[cycle(occurs)]
fn step_has(step: &PathSeg, name: &Name) -> bool
    ensures { result ≡ occurs_in_step name.now step.now }
{
    match step {
        PathSeg::Field(_) => false,
        PathSeg::At(x) => occurs(x, name),
        PathSeg::Slice(x, y) => occurs(x, name) || occurs(y, name),
    }
}

/// Whether the name occurs as a variable in the count.
#[cycle(occurs)]
fn count_has(count: &Iteration, name: &Name) -> bool
    ensures { result ≡ (occurs_in_count name.now count.now).in_count }
{
    match count {
        Iteration::Star | Iteration::Plus | Iteration::Quest => false,
        Iteration::Times(x) | Iteration::Below(_, x) => occurs(x.get(), name),
    }
}

/// Whether the name is the index of the iteration.
fn is_index(count: &Iteration, name: &Name) -> bool
    ensures { result ≡ (occurs_in_count name.now count.now).is_index }
{
    match count {
        Iteration::Star | Iteration::Plus | Iteration::Quest | Iteration::Times(_) => false,
        Iteration::Below(index, _) => *name == *index,
    }
}

/// Whether the name occurs as a variable in the premise.
fn occurs_in_prem(prem: &IlPrem, name: &Name) -> bool
    ensures { result ≡ occurs_in_prem name.now prem.now }
{
    match prem {
        IlPrem::If(exp) => occurs(exp, name),
        IlPrem::Goal(_, exps) => any_has(exps.as_slice(), name),
        IlPrem::Otherwise => false,
        IlPrem::Each(count, _, inner) => {
            count_has(count, name) || !is_index(count, name) && occurs_in_prem(inner.get(), name)
        }
    }
}
