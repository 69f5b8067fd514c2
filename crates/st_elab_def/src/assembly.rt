//! The internal language of a source, assembled definition by definition.

ghost use Rattle.std.specs.Prelude.{◌≡◌, ◌<◌, ◌^◌, [], List, length, reverse, flat_map};
ghost use Rattle.st_el.specs.declared.definition.Def.{Def};
ghost use Rattle.st_il.specs.declared.definition.IlDef.{IlDef};
ghost use Rattle.st_elab_def.specs.Answers.{Told};
ghost use Rattle.st_elab_def.specs.Breaches.{FirstBreach};
ghost use Rattle.st_elab_def.specs.Definitions.{definitions};
ghost use Rattle.st_elab_def.specs.DeclsOf.{declared_by};
ghost use Rattle.st_elab_def.specs.Fragments.{joined};
ghost use Rattle.st_elab_def.specs.Phases.{on_content, phase};
ghost use Rattle.st_elab_def.specs.inner.Joining.{AreContents};
ghost use Rattle.st_elab_def.specs.inner.Walk.{standing, asked_of};
ghost use Rattle.st_elab_def.specs.inner.Whole.{ComesTo, Adds};

use crate::breach::DefFault;
use crate::contents::content;
use crate::elaborated::Elaborated;
use crate::heads::Known;
use crate::numbered::numbered;
use crate::whole::{is_later, place, reversed};
use indexmap::IndexSet;
use st_el::Def;
use st_elab_table::Decls;
use st_il::{Il, IlDef};
use st_num::{Name, Row};
use std::alloc::Global;

/// What is kept of the definitions so far.
#[derive(Drop)]
struct Assembly<'a> {
    /// The rules, by the names of their relations and their own.
    rules: IndexSet<(&'a Name, &'a Name)>,
    /// The syntaxes with a fragment.
    fragments: IndexSet<&'a Name>,
    /// What the other definitions declare, the last first.
    declared: Row<IlDef>,
    made: Elaborated,
}

impl<'a> Assembly<'a> {
    /// Adds what the definition of this number stands for, or tells its first breach.
    fn add(
        &mut self,
        alloc: Global,
        decls: &Decls,
        known: &Known<'_>,
        number: u32,
        def: &'a Def,
    ) -> Result<(), DefFault>
        ensures { (before behind : List Def) (rest : List IlDef) → number ≡ length before
            → ComesTo decls.now known.now (standing before def.now behind) rest self.old
            → Told (λ done. Adds decls.now (standing before def.now behind) rest self.old self.new)
            (FirstBreach decls.now (asked_of on_content (standing before def.now behind))) result }
    {
        let later = is_later(&mut self.fragments, &def.node)?;
        let made = numbered(number, content(alloc, decls, known, &mut self.rules, def))?;
        place(later, made, number, &mut self.declared, &mut self.made)?;
        Ok(())
    }
}

/// The assembly before the first definition.
fn start<'a>(alloc: Global, declared: Row<IlDef>) -> Assembly<'a>
    ensures rules { result.rules.keys ≡ [] }
    ensures fragments { result.fragments.keys ≡ [] }
    ensures declared { reverse result.declared ≡ declared }
    ensures defs { result.made.il.defs ≡ [] }
    ensures sources { result.made.sources ≡ [] }
{
    let il = Il {
        defs: Row::new(alloc),
    };
    let made = Elaborated {
        il,
        sources: Row::new(alloc),
    };
    Assembly {
        rules: IndexSet::new(alloc),
        fragments: IndexSet::new(alloc),
        declared: reversed(declared),
        made,
    }
}

/// The definitions in the internal language, or the first breach in a rule or clause. What they
/// declare, their fragments joined, comes in.
pub(crate) fn assemble(
    alloc: Global,
    decls: &Decls,
    declared: Row<IlDef>,
    defs: &[Def],
) -> Result<Elaborated, DefFault>
    requires few { length defs.now < 2 ^ 32 }
    requires declared { declared ≡ flat_map declared_by (joined defs.now) }
    ensures { Told (AreContents decls.now (definitions defs.now))
        (FirstBreach decls.now (phase on_content (definitions defs.now))) result }
{
    let known = Known::of(alloc, decls)?;
    let mut assembly = start(alloc, declared);
    for (i, def) in defs.iter().enumerate() {
        assembly.add(alloc, decls, &known, i as u32, def)?;
    }
    Ok(assembly.made)
}
