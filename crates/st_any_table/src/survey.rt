//! What is found out about definitions once.

ghost use Rattle.std.specs.Prelude.{◌≡◌, IfOk};
ghost use Rattle.st_any_table.specs.inner.Surveys.{IsSurvey};

use crate::definitions::Definitions;
use crate::flats::{Flat, Flattened, flats_of};
use crate::heads::head_graph;
use crate::joining::join_graph;
use crate::ranks::settle;
use st_il::SyntaxDef;
use st_num::{NoMemory, Row};
use st_type_table::CaseDef;
use std::alloc::Global;

/// Definitions, and what was found out about them once.
#[derive(Drop)]
pub(crate) struct Survey {
    pub(crate) defs: Definitions,
    /// 0 where the way along aliases from a definition does not end.
    pub(crate) heads: Row<usize>,
    /// More than 0 where a definition can be joined as a field.
    pub(crate) joins: Row<usize>,
    /// The cases that are written.
    pub(crate) cases: Row<CaseDef>,
    /// The numbers of the cases of each definition.
    pub(crate) flats: Row<Flat>,
}

/// What is found out about these definitions.
pub(crate) fn survey_of(alloc: Global, all: Row<SyntaxDef>) -> Result<Survey, NoMemory>
    ensures whole { IfOk result (λ survey. survey.defs ≡ all) }
    ensures right { IfOk result (λ survey. IsSurvey survey) }
{
    let defs = Definitions::of(alloc, all)?;
    let graph = head_graph(alloc, &defs)?;
    let heads = settle(alloc, graph.as_slice())?;
    let waits = join_graph(alloc, &defs)?;
    let joins = settle(alloc, waits.as_slice())?;
    let Flattened { cases, flats } = flats_of(alloc, &defs)?;
    Ok(Survey {
        defs,
        heads,
        joins,
        cases,
        flats,
    })
}
