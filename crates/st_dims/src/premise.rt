//! What is mentioned in premises.

ghost use Rattle.std.specs.Prelude.{◌≡◌, ◌++◌, map, OnOk};
ghost use Rattle.st_dims.specs.Mentions.{count_meaning, body_round, iteration, seen_in, mentions_exp, mentions_prem, mentions_prem_node};

use crate::expression::{add_body, mention_count, mention_exp};
use crate::mention::Mention;
use crate::within::Within;
use st_el::{Prem, PremNode};
use st_num::{NoMemory, Span};
use std::alloc::Global;

/// Adds what is mentioned in the premise.
#[cycle(mention_prem)]
pub fn mention_prem(
    alloc: Global,
    prem: &Prem,
    within: &Within,
    mentions: &mut Vec<Mention>,
) -> Result<(), NoMemory>
    ensures { OnOk result
        (mentions.new.items ≡ mentions.old.items ++ mentions_prem prem.now within.now) }
{
    mention_prem_node(alloc, &prem.node, prem.at, within, mentions)
}

/// Adds what is mentioned in a premise of this place.
#[cycle(mention_prem)]
#[tactic(auto, using(crate::proofs::Counts::marked_round))]
fn mention_prem_node(
    alloc: Global,
    node: &PremNode,
    at: Span,
    within: &Within,
    mentions: &mut Vec<Mention>,
) -> Result<(), NoMemory>
    ensures { OnOk result
        (mentions.new.items ≡ mentions.old.items ++ mentions_prem_node node.now at within.now) }
{
    match node {
        PremNode::If(exp) => mention_exp(alloc, exp, within, mentions),
        PremNode::Goal(_, exp) => mention_exp(alloc, exp, within, mentions),
        PremNode::Otherwise => Ok(()),
        PremNode::Each(prem, count) => {
            let inside = within.inside(alloc, count)?;
            let mut inner = Vec::new(alloc);
            mention_prem(alloc, prem.get(), &inside, &mut inner)?;
            add_body(alloc, count, at, within, inner, mentions)?;
            mention_count(alloc, count, within, mentions)
        }
    }
}

/// Adds what is mentioned in the premises, in their order.
pub fn mention_prems(
    alloc: Global,
    prems: &[Prem],
    within: &Within,
    mentions: &mut Vec<Mention>,
) -> Result<(), NoMemory>
    ensures { OnOk result (mentions.new.items
        ≡ mentions.old.items ++ seen_in (map mentions_prem prems.now) within.now) }
{
    for prem in prems {
        mention_prem(alloc, prem, within, mentions)?;
    }
    Ok(())
}
