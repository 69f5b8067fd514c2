//! What answers the questions that rows ask.

ghost use Rattle.st_elab_rows.specs.Asking.{IsAnswer, AnswersAll};

use crate::asking::{Asking, Context, Found};
use st_elab_table::ExpFault;

/// What answers questions about parts of an expression.
pub trait Elaborator {
    /// It may be asked, and whatever it is asked it answers as the table says.
    ghost AnswersByTable: { Self → Type 0 };

    /// The answer to the question in this context.
    fn answer(&self, context: &Context<'_>, asking: &Asking<'_>) -> Result<Found, ExpFault>
        requires { AnswersByTable self.now }
        ensures { IsAnswer context.now asking.now result };
}

/// A call answers the questions that it is called with.
impl<F: Fn(&Context<'_>, &Asking<'_>) -> Result<Found, ExpFault>> Elaborator for F {
    ghost AnswersByTable = { λ f. F.IsAlwaysCallable f × AnswersAll (F.post f) };

    fn answer(&self, context: &Context<'_>, asking: &Asking<'_>) -> Result<Found, ExpFault> {
        self(context, asking)
    }
}
