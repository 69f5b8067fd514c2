//! The dimensions of a rule or clause, and the first place that breaks a rule on them.

ghost use Rattle.std.specs.Prelude.{◌≡◌, ◌∷◌, ◌++◌, [], IfOk, IfErr};
ghost use Rattle.std.specs.Option.{option_to_list};
ghost use Rattle.st_dims.specs.Mentions.{mentions_in, indices_in};
ghost use Rattle.st_dims.specs.Dimensions.{dimension_in, IsOnlyTable};
ghost use Rattle.st_dims.specs.Breaches.{begins_with, is_misplaced, misplaced, is_longer, is_idle, idle, IsFirst, IsSound, IsFault};

use crate::DimFault;
use crate::expression::{mention_exp, mention_exps};
use crate::mention::{Iteration, Mention, Occurrence};
use crate::premise::mention_prems;
use crate::table::{Shortest, chain_of, dimensions, rows};
use crate::within::{Within, is_among};
use st_el::{Exp, Prem};
use st_num::{Dim, Kind, Name, NoMemory, Row, Span};
use std::alloc::Global;

/// What is mentioned in a rule or clause with these parts and premises.
fn mentions_in(alloc: Global, parts: &[Exp], premises: &[Prem]) -> Result<Vec<Mention>, NoMemory>
    ensures { IfOk result (λ mentions. mentions.items ≡ mentions_in parts.now premises.now) }
{
    let outside = Within::new(alloc);
    let mut mentions = Vec::new(alloc);
    mention_exps(alloc, parts, &outside, &mut mentions)?;
    mention_prems(alloc, premises, &outside, &mut mentions)?;
    Ok(mentions)
}

/// What is mentioned in a rule or clause with these premises. Its last part is its conclusion or
/// its result; the others are its arguments.
pub fn mentions_of(
    alloc: Global,
    parts: &[Exp],
    last: &Exp,
    premises: &[Prem],
) -> Result<Vec<Mention>, NoMemory>
    ensures { IfOk result (λ mentions. mentions.items
        ≡ mentions_in (parts.now ++ last.now ∷ []) premises.now) }
{
    let outside = Within::new(alloc);
    let mut mentions = Vec::new(alloc);
    mention_exps(alloc, parts, &outside, &mut mentions)?;
    mention_exp(alloc, last, &outside, &mut mentions)?;
    mention_prems(alloc, premises, &outside, &mut mentions)?;
    Ok(mentions)
}

/// The names of the indices.
fn indices_in(alloc: Global, mentions: &[Mention]) -> Result<Row<Name>, NoMemory>
    ensures { IfOk result (λ indices. indices ≡ indices_in mentions.now) }
{
    let mut indices = Row::new(alloc);
    for mention in mentions {
        match mention {
            Mention::Indexes(name) => indices.push(name.copy(alloc)?)?,
            Mention::Occurs(_) | Mention::Iterates(_) => {}
        }
    }
    Ok(indices)
}

/// Whether the chain begins with the dimension of this name.
fn begins_with(chain: &[Kind], shortest: &Shortest, name: &Name) -> bool
    ensures { result ≡ begins_with chain.now (dimension_in shortest.now.entries name.now) }
{
    match chain_of(shortest, name) {
        None => false,
        Some(dimension) => chain.starts_with(dimension.as_slice()),
    }
}

/// Whether the name is an index, or the chain does not begin with the dimension of the name.
fn is_misplaced(indices: &[Name], shortest: &Shortest, occurrence: &Occurrence) -> bool
    ensures { result ≡ is_misplaced indices.now shortest.now.entries occurrence.now }
{
    if is_among(&occurrence.name, indices) {
        return true;
    }
    !begins_with(occurrence.chain.as_slice(), shortest, &occurrence.name)
}

/// The place of the first misplaced occurrence.
fn first_misplaced(indices: &[Name], shortest: &Shortest, mentions: &[Mention]) -> Option<Span>
    ensures { IsFirst result (misplaced indices.now mentions.now shortest.now.entries) }
{
    for mention in mentions {
        if let Some(at) = misplaced_at(indices, shortest, mention) {
            return Some(at);
        }
    }
    None
}

/// The place of a misplaced occurrence.
fn misplaced_at(indices: &[Name], shortest: &Shortest, mention: &Mention) -> Option<Span>
    ensures { option_to_list result
        ≡ misplaced indices.now (mention.now ∷ []) shortest.now.entries }
{
    match mention {
        Mention::Occurs(occurrence) => {
            if is_misplaced(indices, shortest, occurrence) {
                Some(occurrence.at)
            } else {
                None
            }
        }
        Mention::Indexes(_) | Mention::Iterates(_) => None,
    }
}

/// Whether the dimension of this name has more iterations than this.
fn is_longer(depth: usize, shortest: &Shortest, name: &Name) -> bool
    ensures { result ≡ is_longer depth (dimension_in shortest.now.entries name.now) }
{
    match chain_of(shortest, name) {
        None => false,
        Some(dimension) => depth < dimension.as_slice().len(),
    }
}

/// Whether no variable in the body has more iterations than stand round the iteration.
fn is_idle(shortest: &Shortest, iteration: &Iteration) -> bool
    ensures { result ≡ is_idle shortest.now.entries iteration.now }
{
    for name in iteration.names.as_slice() {
        if is_longer(iteration.depth, shortest, name) {
            return false;
        }
    }
    true
}

/// The place of an iteration that iterates nothing.
fn idle_at(shortest: &Shortest, mention: &Mention) -> Option<Span>
    ensures { option_to_list result ≡ idle (mention.now ∷ []) shortest.now.entries }
{
    match mention {
        Mention::Iterates(iteration) => {
            if is_idle(shortest, iteration) {
                Some(iteration.at)
            } else {
                None
            }
        }
        Mention::Occurs(_) | Mention::Indexes(_) => None,
    }
}

/// The place of the first iteration that iterates nothing.
fn first_idle(shortest: &Shortest, mentions: &[Mention]) -> Option<Span>
    ensures { IsFirst result (idle mentions.now shortest.now.entries) }
{
    for mention in mentions {
        if let Some(at) = idle_at(shortest, mention) {
            return Some(at);
        }
    }
    None
}

/// The dimension of each variable that is mentioned, or the first breach.
pub fn dimensions_of(alloc: Global, mentions: &[Mention]) -> Result<Row<(Name, Dim)>, DimFault>
    ensures dimensions { IfOk result (IsOnlyTable mentions.now) }
    ensures sound { IfOk result (IsSound mentions.now) }
    ensures fault { IfErr result (IsFault mentions.now) }
{
    let indices = indices_in(alloc, mentions)?;
    let shortest = dimensions(alloc, mentions)?;
    let misplaced = first_misplaced(indices.as_slice(), &shortest, mentions);
    let idle = first_idle(&shortest, mentions);
    let table = rows(alloc, shortest)?;
    if let Some(at) = misplaced {
        return Err(DimFault::I1(at));
    }
    if let Some(at) = idle {
        return Err(DimFault::I2(at));
    }
    Ok(table)
}

/// The dimension of each variable of a rule or clause, in the byte order of the names. The parts
/// are its conclusion, or its arguments and result, in the order of the text.
pub fn dims(
    alloc: Global,
    parts: &Row<Exp>,
    premises: &Row<Prem>,
) -> Result<Row<(Name, Dim)>, DimFault>
    ensures dimensions { IfOk result (IsOnlyTable (mentions_in parts.now premises.now)) }
    ensures sound { IfOk result (IsSound (mentions_in parts.now premises.now)) }
    ensures fault { IfErr result (IsFault (mentions_in parts.now premises.now)) }
{
    let mentions = mentions_in(alloc, parts.as_slice(), premises.as_slice())?;
    dimensions_of(alloc, &mentions)
}
