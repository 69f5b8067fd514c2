//! The answer to a question, by its row, which asks further questions.

ghost use Rattle.st_elab_table.specs.Elaboration.{row};
ghost use Rattle.st_elab_rows.specs.Asking.{LeadsTo, IsAnswer, question};

use crate::checked::checked_row;
use crate::inferred::inferred_row;
use st_elab_rows::asking::{Asking, Context, Found};
use st_elab_rows::elaborator::Elaborator;
use st_elab_table::ExpFault;

/// How many questions may lie inside one another.
const DEPTH: u32 = 10_000;

/// The row of a question.
fn row<E: Elaborator>(
    context: &Context<'_>,
    elaborator: &E,
    asking: &Asking<'_>,
) -> Result<Found, ExpFault>
    requires answers { E.AnswersByTable elaborator.now }
    ensures { LeadsTo context.now (row context.now.decls.now context.now.scope.now
        (question context.now.within.now asking.now)) result }
{
    match *asking {
        Asking::Check(part, ty) => checked_row(context, elaborator, &part, ty),
        Asking::Infer { at, exp } => inferred_row(context, elaborator, at, exp),
    }
}

/// The answer to a question, where so many others may lie inside of it. Each question that it asks
/// has one less of the depth; where none is left, memory is said to be wanting.
fn answer_at_depth(
    context: &Context<'_>,
    asking: &Asking<'_>,
    depth: u32,
) -> Result<Found, ExpFault>
    ensures { IsAnswer context.now asking.now result }
{
    let Some(depth) = depth.checked_sub(1) else {
        return Err(ExpFault::Memory);
    };
    row(
        context,
        &|inner: &Context<'_>, part: &Asking<'_>|
            ensures { IsAnswer inner.now part.now result }
        { answer_at_depth(inner, part, depth) },
        asking,
    )
}

/// The answer to a question. Memory is wanting also where more than 10,000 questions lie inside
/// one another.
pub fn answer(context: &Context<'_>, asking: &Asking<'_>) -> Result<Found, ExpFault>
    ensures { IsAnswer context.now asking.now result }
{
    answer_at_depth(context, asking, DEPTH)
}
