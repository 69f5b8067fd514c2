//! What is known of all definitions together, before their conditions are asked.

ghost use Rattle.std.specs.Prelude.{IfOk};
ghost use Rattle.st_type_table.specs.inner.Survey.{IsSurvey};

use crate::component::component_numbers;
use crate::definitions::Definitions;
use crate::flat::{Flat, flats_of};
use crate::graph::Node;
use crate::position::leads_graph;
use crate::ranking::settle;
use st_num::{NoMemory, Row};
use std::alloc::Global;

/// What was found out about definitions once.
#[derive(Drop)]
pub(crate) struct Survey {
    /// Which definition leads to which.
    pub(crate) graph: Row<Node>,
    /// The number of the component of each: two that lead to each other have one number.
    pub(crate) numbers: Row<usize>,
    /// 0 where a definition does not end, and else more than those of all that it leads to.
    pub(crate) ranks: Row<usize>,
    pub(crate) flats: Row<Flat>,
}

/// What is known of these definitions.
pub(crate) fn survey_of(alloc: Global, defs: &Definitions) -> Result<Survey, NoMemory>
    ensures { IfOk result (λ survey. IsSurvey defs.now survey) }
{
    let graph = leads_graph(alloc, defs)?;
    let numbers = component_numbers(alloc, graph.as_slice())?;
    let ranks = settle(alloc, graph.as_slice())?;
    let flats = flats_of(alloc, defs, ranks.as_slice())?;
    Ok(Survey {
        graph,
        numbers,
        ranks,
        flats,
    })
}
