//! The answer where what a source is elaborated to breaks a rule on modes.

ghost use Rattle.std.specs.Prelude.{length, IfOk};
ghost use Rattle.st_elab_def.specs.Elaboration.{IsElaborated};
ghost use Rattle.st_semantics.specs.Breaches.{IsModeBreach};
ghost use Rattle.st_source.specs.inner.Placing.{TellsModeFault, BeginWithin};
ghost use Rattle.st_source.specs.inner.Specifying.{RefusesSource};

use st_answers::{Answer, refused_in};
use st_el::Def;
use st_elab_def::Elaborated;
use st_modes::ModeFault;
use st_num::{NoMemory, RuleId};
use st_words::CommandWord;
use std::alloc::Global;

/// The answer where the definition of this number in the internal language is the first that
/// breaks a rule on modes.
fn unmoded(
    alloc: Global,
    names: &[CommandWord],
    defs: &[Def],
    elaborated: &Elaborated,
    place: u32,
    rule: RuleId,
) -> Result<Answer, NoMemory>
    requires elaborated { IsElaborated defs.now elaborated.now }
    requires begin { BeginWithin (length names.now) defs.now }
    requires first { IsModeBreach elaborated.now.il place rule }
    ensures { IfOk result (RefusesSource names.now defs.now) }
{
    let sources = elaborated.sources.as_slice();
    let number = sources[place as usize];
    let def = &defs[number as usize];
    refused_in(alloc, names, def, def.at, rule)
}

/// The answer where what a source is elaborated to has no modes.
pub fn without_modes(
    alloc: Global,
    names: &[CommandWord],
    defs: &[Def],
    elaborated: &Elaborated,
    fault: ModeFault,
) -> Result<Answer, NoMemory>
    requires elaborated { IsElaborated defs.now elaborated.now }
    requires begin { BeginWithin (length names.now) defs.now }
    requires fault { TellsModeFault elaborated.now.il fault }
    ensures { IfOk result (RefusesSource names.now defs.now) }
{
    match fault {
        ModeFault::Refused { definition, rule } => {
            unmoded(alloc, names, defs, elaborated, definition, rule)
        }
        ModeFault::Memory => Err(NoMemory),
    }
}
