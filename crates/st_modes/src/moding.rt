//! The modes of an internal language.

ghost use Rattle.std.specs.Prelude.{◌≡◌, ◌<◌, ◌^◌, ◌↔◌, IsTrue};
ghost use Rattle.st_order.specs.Modes.{HasFew};
ghost use Rattle.st_modes.specs.Modes.{IsModesAnswer};
ghost use Rattle.st_modes.specs.inner.Few.{HasFewPremises};

use crate::breaches::{ModeBreach, mode_breach};
use crate::fault::ModeFault;
use crate::marking::relation_marks;
use st_il::{Il, IlDef};
use st_order::Modes;
use std::alloc::Global;

/// Whether there are fewer than 2^32.
fn are_few(len: usize) -> bool
    ensures { IsTrue result ↔ (len < 2 ^ 32) }
{
    len <= u32::MAX as usize
}

/// Whether a definition has fewer than 2^32 premises, where it is a rule.
fn has_few_premises(definition: &IlDef) -> bool
    ensures { IsTrue result ↔ HasFewPremises definition.now }
{
    match definition {
        IlDef::Rule(rule) => are_few(rule.premises.len()),
        IlDef::Syntax(_)
        | IlDef::Var(_, _)
        | IlDef::Relation(_)
        | IlDef::Fun(_)
        | IlDef::Clause(_) => true,
    }
}

/// Whether there are fewer than 2^32 definitions, and fewer than 2^32 premises in each rule.
pub fn has_few(il: &Il) -> bool
    ensures { IsTrue result ↔ HasFew il.now }
{
    let defs = il.defs.as_slice();
    for definition in defs {
        let has = has_few_premises(definition);
        if !has {
            return false;
        }
    }
    are_few(defs.len())
}

/// The refusal by the definition that breaks a rule.
fn refused(breach: ModeBreach) -> ModeFault
    ensures { result ≡ ModeFault.Refused breach.definition breach.rule }
{
    let ModeBreach { definition, rule } = breach;
    ModeFault::Refused { definition, rule }
}

/// Tells for each relation whether it can be searched, and for each rule the order of its
/// premises; or which definition breaks which of the rules M1 to M7.
pub fn modes(alloc: Global, il: &Il) -> Result<Modes, ModeFault>
    requires { HasFew il.now }
    ensures { IsModesAnswer il.now result }
{
    let breach = mode_breach(alloc, il)?;
    if let Some(breach) = breach {
        return Err(refused(breach));
    }
    let modes = relation_marks(alloc, il)?;
    Ok(modes)
}
