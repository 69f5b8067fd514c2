//! What stands round a part of an expression or premise.

ghost use Rattle.std.specs.Prelude.{◌≡◌, IfOk};
ghost use Rattle.st_num.specs.Names.{is_among};
ghost use Rattle.st_el.specs.declared.expression.Count.{out-Count};
ghost use Rattle.st_dims.specs.Around.{kind_at, index_at, outside, inside};

use st_el::Count;
use st_num::{Dim, Kind, Name, NoMemory, Row, add_names};
use std::alloc::Global;

/// The kinds of the iterations round a part, outermost first, and their indices.
#[derive(Drop)]
pub struct Within {
    pub kinds: Dim,
    pub indices: Row<Name>,
}

/// Whether an iteration goes over a list or over an option.
pub fn kind_of(count: &Count) -> Kind
    ensures { result ≡ kind_at (out-Count count.now) }
{
    match count {
        Count::Star | Count::Plus | Count::Times(_) | Count::Below(_, _) => Kind::List,
        Count::Quest => Kind::Opt,
    }
}

/// The index of the iteration, where it has one.
pub fn index_of(alloc: Global, count: &Count) -> Result<Row<Name>, NoMemory>
    ensures { IfOk result (λ index. index ≡ index_at (out-Count count.now)) }
{
    let mut indices = Row::new(alloc);
    match count {
        Count::Below(index, _) => indices.push(index.copy(alloc)?)?,
        Count::Star | Count::Plus | Count::Quest | Count::Times(_) => {}
    }
    Ok(indices)
}

/// Whether the name is one of these.
pub fn is_among(name: &Name, names: &[Name]) -> bool
    ensures { result ≡ is_among name.now names.now }
{
    names.contains(name)
}

impl Within {
    /// What stands round a part that is in no iteration.
    pub fn new(alloc: Global) -> Within
        ensures { result ≡ outside }
    {
        Within {
            kinds: Dim::new(alloc),
            indices: Row::new(alloc),
        }
    }

    /// What stands round the body of an iteration that stands here.
    pub fn inside(&self, alloc: Global, count: &Count) -> Result<Within, NoMemory>
        ensures { IfOk result (λ within. within ≡ inside self.now count.now) }
    {
        let mut kinds = Dim::from_slice(alloc, self.kinds.as_slice())?;
        kinds.push(kind_of(count))?;
        let mut indices = Row::new(alloc);
        add_names(alloc, self.indices.as_slice(), &mut indices)?;
        let index = index_of(alloc, count)?;
        add_names(alloc, index.as_slice(), &mut indices)?;
        Ok(Within { kinds, indices })
    }
}
