//! The source that an expression of the internal language was written as.

ghost use Rattle.std.specs.Prelude.{◌≡◌, [], ◌∷◌, map, IfOk};
ghost use Rattle.st_erase.specs.Places.{whole, count};
ghost use Rattle.st_erase.specs.Erasure.{one, source, list_of, case_by, erased, erased_iteration, erased_item, erased_segment};
ghost use Rattle.st_il.specs.Tags.{template_of};

use crate::filling::filled;
use crate::form::{
    absent, arithmetic, at, binary, call, dot, extension, iterated, lifted, operation, plain_form,
    slice, unplaced, update,
};
use crate::operator::sign_of;
use crate::record::record;
use crate::{Erased, ErasedKind};
use st_el::{Count, Exp, Node, Seg};
use st_il::{IlDef, IlExp, Iteration, ListItem, PathSeg, template_of};
use st_num::{Boxed, Mark, Name, NoMemory, Row};
use std::alloc::Global;

/// What erasure goes by: the definitions, among them those of the records that expressions name.
#[derive(Clone, Copy)]
pub struct Eraser<'a> {
    pub alloc: Global,
    pub defs: &'a [IlDef],
}

impl<'a> Eraser<'a> {
    /// The source of an expression, and what it is to the place where it stands.
    #[cycle(erase)]
    pub fn erased(&self, exp: &IlExp) -> Result<Erased, NoMemory>
        ensures { IfOk result (λ found. found ≡ erased self.now.defs.now exp.now) }
    {
        let sign = sign_of(exp);
        match exp {
            IlExp::Bool(truth) => Ok(plain_form(Node::Bool(*truth))),
            IlExp::Number(number) => Ok(plain_form(Node::Number(*number))),
            IlExp::Text(text) => Ok(plain_form(Node::Text(text.copy(self.alloc)?))),
            IlExp::Var(name) => Ok(plain_form(Node::Name(name.copy(self.alloc)?))),
            IlExp::Not(x) => Ok(plain_form(Node::Not(self.side(x)?))),
            IlExp::And(x, y)
            | IlExp::Or(x, y)
            | IlExp::Imp(x, y)
            | IlExp::Iff(x, y)
            | IlExp::Eq(x, y)
            | IlExp::Ne(x, y)
            | IlExp::Lt(x, y)
            | IlExp::Gt(x, y)
            | IlExp::Le(x, y)
            | IlExp::Ge(x, y)
            | IlExp::Member(x, y)
            | IlExp::Cat(x, y)
            | IlExp::Join(x, y) => Ok(binary(self.side(x)?, sign, self.side(y)?)),
            IlExp::Neg(x) => Ok(arithmetic(Node::Neg(self.operand(x)?))),
            IlExp::Add(_, x, y)
            | IlExp::Sub(_, x, y)
            | IlExp::Mul(_, x, y)
            | IlExp::Div(_, x, y)
            | IlExp::Rem(_, x, y)
            | IlExp::Pow(_, x, y) => Ok(operation(self.operand(x)?, sign, self.operand(y)?)),
            IlExp::Case(_, tag, exps) => case(self.alloc, tag, self.all(exps)?),
            IlExp::Fields(ty, exps) => record(self.alloc, self.defs, ty, self.all(exps)?),
            IlExp::Dot(x, field) => Ok(dot(self.side(x)?, field.copy(self.alloc)?)),
            IlExp::Set(x, path, y) => Ok(update(self.side(x)?, self.path(path)?, self.side(y)?)),
            IlExp::Extend(x, path, y) => {
                Ok(extension(self.side(x)?, self.path(path)?, self.side(y)?))
            }
            IlExp::Tuple(exps) => Ok(plain_form(Node::Tuple(self.wholes(exps)?))),
            IlExp::List(_, items) => self.list(items.as_slice()),
            IlExp::Empty(_) => Ok(plain_form(Node::Eps)),
            IlExp::Present(x) => self.element(x.get()),
            IlExp::Absent(_) => Ok(absent()),
            IlExp::Len(x) => Ok(plain_form(Node::Len(self.side(x)?))),
            IlExp::At(x, y) => Ok(at(self.side(x)?, self.side(y)?)),
            IlExp::Slice(x, y, z) => Ok(slice(self.side(x)?, self.side(y)?, self.side(z)?)),
            IlExp::Call(name, exps) => Ok(call(name.copy(self.alloc)?, self.wholes(exps)?)),
            IlExp::Up(_, inner) => self.erased(inner.get()),
            IlExp::Iter(count, _, x) => Ok(iterated(self.side(x)?, self.iteration(count)?)),
        }
    }

    /// The source of an expression that is no operand of arithmetic.
    #[cycle(erase)]
    pub fn whole(&self, exp: &IlExp) -> Result<Exp, NoMemory>
        ensures { IfOk result (λ found. found ≡ whole (erased self.now.defs.now exp.now)) }
    {
        self.erased(exp)?.whole(self.alloc)
    }

    /// The source of an expression that is no operand of arithmetic, in a box of its own.
    #[cycle(erase)]
    fn side(&self, exp: &Boxed<IlExp>) -> Result<Boxed<Exp>, NoMemory>
        ensures { IfOk result (λ found. found ≡ whole (erased self.now.defs.now exp.now)) }
    {
        let found = self.whole(exp.get())?;
        Boxed::new(self.alloc, found)
    }

    /// The source of an operand of arithmetic.
    #[cycle(erase)]
    fn operand(&self, exp: &Boxed<IlExp>) -> Result<Boxed<Exp>, NoMemory>
        ensures { IfOk result (λ found. found ≡ (erased self.now.defs.now exp.now).exp) }
    {
        let Erased { exp: found, .. } = self.erased(exp.get())?;
        Boxed::new(self.alloc, found)
    }

    /// The expressions erased, in order.
    #[cycle(erase)]
    pub fn all(&self, exps: &Row<IlExp>) -> Result<Row<Erased>, NoMemory>
        ensures { IfOk result (λ found. found ≡ map (erased self.now.defs.now) exps.now) }
    {
        let mut found = Row::new(self.alloc);
        for exp in exps.as_slice() {
            found.push(self.erased(exp)?)?;
        }
        Ok(found)
    }

    /// The sources of expressions that are no operands of arithmetic, in order.
    #[cycle(erase)]
    pub fn wholes(&self, exps: &Row<IlExp>) -> Result<Row<Exp>, NoMemory>
        ensures { IfOk result
            (λ found. found ≡ map whole (map (erased self.now.defs.now) exps.now)) }
    {
        let mut found = Row::new(self.alloc);
        for exp in exps.as_slice() {
            found.push(self.whole(exp)?)?;
        }
        Ok(found)
    }

    /// The source of a path.
    #[cycle(erase)]
    fn path(&self, path: &Row<PathSeg>) -> Result<Row<Seg>, NoMemory>
        ensures { IfOk result
            (λ found. found ≡ map (erased_segment self.now.defs.now) path.now) }
    {
        let mut found = Row::new(self.alloc);
        for segment in path.as_slice() {
            found.push(self.segment(segment)?)?;
        }
        Ok(found)
    }

    /// The source of a step of a path.
    #[cycle(erase)]
    fn segment(&self, segment: &PathSeg) -> Result<Seg, NoMemory>
        ensures { IfOk result (λ found. found ≡ erased_segment self.now.defs.now segment.now) }
    {
        match segment {
            PathSeg::Field(field) => Ok(Seg::Field(field.copy(self.alloc)?)),
            PathSeg::At(at) => Ok(Seg::At(self.whole(at)?)),
            PathSeg::Slice(from, count) => {
                let from = self.whole(from)?;
                Ok(Seg::Slice(from, self.whole(count)?))
            }
        }
    }

    /// The source of a list of these items.
    #[cycle(erase)]
    fn list(&self, items: &[ListItem]) -> Result<Erased, NoMemory>
        ensures { IfOk result
            (λ found. found ≡ list_of (map (erased_item self.now.defs.now) items.now)) }
    {
        match items {
            [] => Ok(plain_form(Node::Eps)),
            [ListItem::One(exp)] => self.element(exp),
            [ListItem::All(exp)] => Ok(Erased {
                exp: self.whole(exp)?,
                kind: ErasedKind::Plain,
            }),
            _ => Ok(Erased {
                exp: unplaced(Node::Seq(self.sources(items)?)),
                kind: ErasedKind::Run,
            }),
        }
    }

    /// The element of a one-element list or option.
    #[cycle(erase)]
    fn element(&self, exp: &IlExp) -> Result<Erased, NoMemory>
        ensures { IfOk result
            (λ found. found ≡ list_of (one (whole (erased self.now.defs.now exp.now)) ∷ [])) }
    {
        let found = self.whole(exp)?;
        Ok(Erased {
            exp: lifted(self.alloc, found)?,
            kind: ErasedKind::Plain,
        })
    }

    /// The sources of the parts of a list.
    #[cycle(erase)]
    fn sources(&self, items: &[ListItem]) -> Result<Row<Exp>, NoMemory>
        ensures { IfOk result
            (λ found. found ≡ map source (map (erased_item self.now.defs.now) items.now)) }
    {
        let mut found = Row::new(self.alloc);
        for item in items {
            found.push(self.item_source(item)?)?;
        }
        Ok(found)
    }

    /// The source of an item of a list.
    #[cycle(erase)]
    fn item_source(&self, item: &ListItem) -> Result<Exp, NoMemory>
        ensures { IfOk result (λ found. found ≡ source (erased_item self.now.defs.now item.now)) }
    {
        match item {
            ListItem::One(exp) => self.whole(exp),
            ListItem::All(exp) => self.whole(exp),
        }
    }

    /// The source of how often an iteration goes.
    #[cycle(erase)]
    pub fn iteration(&self, iteration: &Iteration) -> Result<Count, NoMemory>
        ensures { IfOk result (λ found. found ≡ erased_iteration self.now.defs.now iteration.now) }
    {
        match iteration {
            Iteration::Star => Ok(Count::Star),
            Iteration::Plus => Ok(Count::Plus),
            Iteration::Quest => Ok(Count::Quest),
            Iteration::Times(times) => Ok(Count::Times(self.count(times)?)),
            Iteration::Below(index, times) => {
                let index = index.copy(self.alloc)?;
                Ok(Count::Below(index, self.count(times)?))
            }
        }
    }

    /// The source of the count of an iteration.
    #[cycle(erase)]
    fn count(&self, times: &Boxed<IlExp>) -> Result<Boxed<Exp>, NoMemory>
        ensures { IfOk result (λ found. found ≡ count (erased self.now.defs.now times.now)) }
    {
        let found = self.erased(times.get())?.count(self.alloc)?;
        Boxed::new(self.alloc, found)
    }
}

/// The template of a tag with these operands in its holes.
pub fn case(alloc: Global, tag: &Name, operands: Row<Erased>) -> Result<Erased, NoMemory>
    ensures { IfOk result (λ found. found ≡ case_by (template_of tag.now) operands) }
{
    let Some(template) = template_of(alloc, tag)? else {
        return Ok(plain_form(Node::Eps));
    };
    let exp = filled(alloc, &template, operands)?;
    Ok(Erased {
        exp,
        kind: ErasedKind::Plain,
    })
}
