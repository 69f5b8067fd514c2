//! What answers the calls of functions in an expression.

ghost use Rattle.std.specs.Prelude.{◌≡◌, ℕ, List, IfOk};
ghost use Rattle.st_il.specs.declared.value.Value.{Value};
ghost use Rattle.st_semantics.specs.declared.outcome.Outcome.{Outcome};

use st_il::Value;
use st_num::{Name, NoMemory, Row};
use st_semantics::Outcome;

/// What answers calls of functions.
pub trait Caller {
    /// What calls come to: the function, the values of its arguments and the outcome.
    ghost answers: { Self → List ℕ → List Value → Outcome → Type 0 };

    /// It may be called with whatever function and arguments.
    ghost IsCallable: { Self → Type 0 };

    /// What the call comes to.
    fn call(&self, fun: &Name, args: Row<Value>) -> Result<Outcome, NoMemory>
        requires { IsCallable self.now }
        ensures { IfOk result (λ outcome. answers self.now fun.now args outcome) };
}

/// A closure answers the calls that it is called with.
impl<F: Fn(&Name, Row<Value>) -> Result<Outcome, NoMemory>> Caller for F {
    ghost use Rattle.st_match.specs.Answering.{MayAnswer};

    ghost answers = { λ f fun args outcome. MayAnswer (F.post f) fun args outcome };

    ghost IsCallable = { λ f. F.IsAlwaysCallable f };

    fn call(&self, fun: &Name, args: Row<Value>) -> Result<Outcome, NoMemory> {
        self(fun, args)
    }
}

/// A caller that has no functions.
#[derive(Clone, Copy)]
pub struct NoFunctions;

impl Caller for NoFunctions {
    ghost use Rattle.st_semantics.specs.declared.outcome.Outcome.TheVariants.{NoValue};

    ghost answers = { λ caller fun args outcome. outcome ≡ NoValue };

    ghost IsCallable = { λ caller. Unit {0} };

    fn call(&self, _fun: &Name, _args: Row<Value>) -> Result<Outcome, NoMemory> {
        Ok(Outcome::NoValue)
    }
}
