//! What is mentioned in expressions.

ghost use Rattle.std.specs.Prelude.{◌≡◌, ◌++◌, map, flat_map, IfOk, OnOk};
ghost use Rattle.st_dims.specs.Mentions.{count_meaning, body_round, names_in, occurrence, occurrences_in, occurrence_of, iteration, seen_in, mentions_exp, mentions_node, mentions_seg, fields_seen, field_mentions};
ghost use Rattle.st_dims.specs.declared.mention.Mention.TheVariants.{Indexes};

use crate::mention::{Iteration, Mention, Occurrence, must_iterate};
use crate::within::{Within, index_of, is_among};
use st_el::{Count, Exp, Node, Seg};
use st_num::{Dim, Name, NoMemory, Row, Span};
use std::alloc::Global;

/// Adds the variable, unless the name is an index here.
fn add_variable(
    alloc: Global,
    name: &Name,
    at: Span,
    within: &Within,
    mentions: &mut Vec<Mention>,
) -> Result<(), NoMemory>
    ensures { OnOk result
        (mentions.new.items ≡ mentions.old.items ++ occurrence name.now at within.now) }
{
    if is_among(name, within.indices.as_slice()) {
        return Ok(());
    }
    let name = name.copy(alloc)?;
    let chain = Dim::from_slice(alloc, within.kinds.as_slice())?;
    mentions.push(Mention::Occurs(Occurrence { name, at, chain }))?;
    Ok(())
}

/// The names of the variables that occur.
fn names_in(alloc: Global, mentions: &[Mention]) -> Result<Row<Name>, NoMemory>
    ensures { IfOk result (λ names. names ≡ names_in mentions.now) }
{
    let mut names = Row::new(alloc);
    for mention in mentions {
        match mention {
            Mention::Occurs(occurrence) => names.push(occurrence.name.copy(alloc)?)?,
            Mention::Indexes(_) | Mention::Iterates(_) => {}
        }
    }
    Ok(names)
}

/// Adds the iteration with this in its body, where it has to iterate something.
#[tactic(auto, using(crate::proofs::Counts::marked_must))]
fn add_iteration(
    alloc: Global,
    count: &Count,
    at: Span,
    within: &Within,
    body: &[Mention],
    mentions: &mut Vec<Mention>,
) -> Result<(), NoMemory>
    ensures { OnOk result
        (mentions.new.items
        ≡ mentions.old.items ++ iteration (count_meaning count.now) at within.now body.now) }
{
    if must_iterate(count) {
        let depth = within.kinds.as_slice().len();
        let names = names_in(alloc, body)?;
        mentions.push(Mention::Iterates(Iteration { at, depth, names }))?;
    }
    Ok(())
}

/// Adds the names as indices.
fn add_indices(alloc: Global, names: &[Name], mentions: &mut Vec<Mention>) -> Result<(), NoMemory>
    ensures { OnOk result (mentions.new.items ≡ mentions.old.items ++ map Indexes names.now) }
{
    for name in names {
        mentions.push(Mention::Indexes(name.copy(alloc)?))?;
    }
    Ok(())
}

/// Adds an iteration, its index and what is mentioned in its body.
#[tactic(auto, using(crate::proofs::Counts::marked_index))]
pub fn add_body(
    alloc: Global,
    count: &Count,
    at: Span,
    within: &Within,
    mut body: Vec<Mention>,
    mentions: &mut Vec<Mention>,
) -> Result<(), NoMemory>
    ensures { OnOk result (mentions.new.items ≡ mentions.old.items
        ++ iteration (count_meaning count.now) at within.now body.items
        ++ map Indexes (count_meaning count.now).index ++ body.items) }
{
    add_iteration(alloc, count, at, within, &body, mentions)?;
    let index = index_of(alloc, count)?;
    add_indices(alloc, index.as_slice(), mentions)?;
    mentions.append(&mut body)?;
    Ok(())
}

/// Adds what is mentioned in the expression.
#[cycle(mention)]
pub fn mention_exp(
    alloc: Global,
    exp: &Exp,
    within: &Within,
    mentions: &mut Vec<Mention>,
) -> Result<(), NoMemory>
    ensures { OnOk result
        (mentions.new.items ≡ mentions.old.items ++ mentions_exp exp.now within.now) }
{
    mention_node(alloc, &exp.node, exp.at, within, mentions)
}

/// Adds what is mentioned in an expression of this place.
#[cycle(mention)]
fn mention_node(
    alloc: Global,
    node: &Node,
    at: Span,
    within: &Within,
    mentions: &mut Vec<Mention>,
) -> Result<(), NoMemory>
    ensures { OnOk result
        (mentions.new.items ≡ mentions.old.items ++ mentions_node node.now at within.now) }
{
    match node {
        Node::Name(name) => add_variable(alloc, name, at, within, mentions),
        Node::Atom(_) | Node::Bool(_) | Node::Number(_) | Node::Text(_) | Node::Eps => Ok(()),
        Node::Seq(parts) | Node::Tuple(parts) | Node::Call(_, parts) => {
            mention_exps(alloc, parts.as_slice(), within, mentions)
        }
        Node::Infix(left, _, right) | Node::Binary(left, _, right) => {
            mention_exp(alloc, left.get(), within, mentions)?;
            mention_exp(alloc, right.get(), within, mentions)
        }
        Node::Not(inner)
        | Node::Neg(inner)
        | Node::Arith(inner)
        | Node::Paren(inner)
        | Node::Bracket(_, inner)
        | Node::Dot(inner, _)
        | Node::Len(inner) => mention_exp(alloc, inner.get(), within, mentions),
        Node::Fields(fields) => mention_fields(alloc, fields.as_slice(), within, mentions),
        Node::At(whole, from) => {
            mention_exp(alloc, whole.get(), within, mentions)?;
            mention_exp(alloc, from.get(), within, mentions)
        }
        Node::Slice(whole, from, length) => {
            mention_exp(alloc, whole.get(), within, mentions)?;
            mention_exp(alloc, from.get(), within, mentions)?;
            mention_exp(alloc, length.get(), within, mentions)
        }
        Node::Update(whole, path, part) | Node::Extend(whole, path, part) => {
            mention_exp(alloc, whole.get(), within, mentions)?;
            mention_path(alloc, path.as_slice(), within, mentions)?;
            mention_exp(alloc, part.get(), within, mentions)
        }
        Node::Iter(body, count) => {
            let inside = within.inside(alloc, count)?;
            let mut inner = Vec::new(alloc);
            mention_exp(alloc, body.get(), &inside, &mut inner)?;
            add_body(alloc, count, at, within, inner, mentions)?;
            mention_count(alloc, count, within, mentions)
        }
    }
}

/// Adds what is mentioned in the expressions, from left to right.
#[cycle(mention)]
pub fn mention_exps(
    alloc: Global,
    exps: &[Exp],
    within: &Within,
    mentions: &mut Vec<Mention>,
) -> Result<(), NoMemory>
    ensures { OnOk result (mentions.new.items
        ≡ mentions.old.items ++ seen_in (map mentions_exp exps.now) within.now) }
{
    for exp in exps {
        mention_exp(alloc, exp, within, mentions)?;
    }
    Ok(())
}

/// Adds what is mentioned in the fields of a record, from left to right.
#[cycle(mention)]
fn mention_fields(
    alloc: Global,
    fields: &[(Name, Exp)],
    within: &Within,
    mentions: &mut Vec<Mention>,
) -> Result<(), NoMemory>
    ensures { OnOk result (mentions.new.items
        ≡ mentions.old.items ++ fields_seen (map field_mentions fields.now) within.now) }
{
    for field in fields {
        mention_exp(alloc, &field.1, within, mentions)?;
    }
    Ok(())
}

/// Adds what is mentioned in the steps of a path, from left to right.
#[cycle(mention)]
fn mention_path(
    alloc: Global,
    path: &[Seg],
    within: &Within,
    mentions: &mut Vec<Mention>,
) -> Result<(), NoMemory>
    ensures { OnOk result (mentions.new.items
        ≡ mentions.old.items ++ seen_in (map mentions_seg path.now) within.now) }
{
    for seg in path {
        mention_seg(alloc, seg, within, mentions)?;
    }
    Ok(())
}

/// Adds what is mentioned in a step of a path.
#[cycle(mention)]
fn mention_seg(
    alloc: Global,
    seg: &Seg,
    within: &Within,
    mentions: &mut Vec<Mention>,
) -> Result<(), NoMemory>
    ensures { OnOk result
        (mentions.new.items ≡ mentions.old.items ++ mentions_seg seg.now within.now) }
{
    match seg {
        Seg::Field(_) => Ok(()),
        Seg::At(from) => mention_exp(alloc, from, within, mentions),
        Seg::Slice(from, length) => {
            mention_exp(alloc, from, within, mentions)?;
            mention_exp(alloc, length, within, mentions)
        }
    }
}

/// Adds what is mentioned in the count of an iteration.
#[cycle(mention)]
pub fn mention_count(
    alloc: Global,
    count: &Count,
    within: &Within,
    mentions: &mut Vec<Mention>,
) -> Result<(), NoMemory>
    ensures { OnOk result
        (mentions.new.items ≡ mentions.old.items ++ (count_meaning count.now).count within.now) }
{
    match count {
        Count::Star | Count::Plus | Count::Quest => Ok(()),
        Count::Times(times) | Count::Below(_, times) => {
            mention_exp(alloc, times.get(), within, mentions)
        }
    }
}
