//! Whether an internal language may be judged by: it keeps the typing rules.

ghost use Rattle.std.specs.Prelude.{◌≡◌, ℕ, Option, Err, OnOk};
ghost use Rattle.st_il.specs.declared.type_rule.TypeRule.{TypeRule};
ghost use Rattle.st_semantics.specs.declared.verify_rule.VerifyRule.{VerifyRule};
ghost use Rattle.st_ilcheck.specs.Typed.{Typed};
ghost use Rattle.st_verify.specs.declared.fault.VerifyFault.TheVariants.{Refused};
ghost use Rattle.st_verify.specs.Typing.{IsUntyped};

use crate::fault::VerifyFault;
use st_il::Il;
use st_ilcheck::{IlFault, typed};
use st_semantics::VerifyRule;
use std::alloc::Global;

/// Refuses an internal language that breaks a typing rule, at the line of its first definition that
/// does: in the text each definition has a line of its own.
pub fn judge_language(alloc: Global, il: &Il) -> Result<(), VerifyFault>
    ensures ok { OnOk result (Typed il.now) }
    ensures refused { (rule : VerifyRule) (line : ℕ) (typing : Option TypeRule)
        → result ≡ Err (Refused rule line typing) → IsUntyped il.now rule line typing }
{
    match typed(alloc, il) {
        Ok(()) => Ok(()),
        Err(IlFault::Refused { definition, rule }) => Err(VerifyFault::Refused {
            rule: VerifyRule::V2,
            line: u64::from(definition) + 1,
            typing: Some(rule),
        }),
        Err(IlFault::Memory) => Err(VerifyFault::Memory),
    }
}
