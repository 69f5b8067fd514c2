//! How the whole internal language is put together, definition by definition.

ghost use Rattle.std.specs.Prelude.{◌≡◌, [], ◌∷◌, ◌++◌, List, reverse, flat_map, None, IfOk, OnOk};
ghost use Rattle.st_el.specs.declared.definition.Def.{Def};
ghost use Rattle.st_il.specs.declared.definition.IlDef.{IlDef};
ghost use Rattle.st_elab_table.specs.declared.decls.Decls.{Decls};
ghost use Rattle.st_elab_def.specs.Definitions.{Definition, number_of};
ghost use Rattle.st_elab_def.specs.DeclsOf.{declared_by};
ghost use Rattle.st_elab_def.specs.Fragments.{is_later};
ghost use Rattle.st_elab_def.specs.inner.Contents.{Makes};
ghost use Rattle.st_elab_def.specs.inner.Joining.{joined_of};
ghost use Rattle.st_elab_def.specs.inner.Whole.{KnowsFragments, with_one, PlacesOne};

use crate::elaborated::Elaborated;
use crate::joining::as_fragment;
use indexmap::IndexSet;
use st_el::DefNode;
use st_il::IlDef;
use st_ilcheck::index::add;
use st_num::{Name, NoMemory, Row};

/// Takes down the syntax of a fragment, and answers whether it was there.
pub(crate) fn is_later<'a>(
    fragments: &mut IndexSet<&'a Name>,
    node: &'a DefNode,
) -> Result<bool, NoMemory>
    ensures later { IfOk result (λ later. (d : Definition) → d.def.node ≡ node.now
        → KnowsFragments d.before fragments.old.keys → later ≡ is_later d) }
    ensures more { OnOk result ((before : List Def) (def : Def) → def.node ≡ node.now
        → KnowsFragments before fragments.old.keys
        → KnowsFragments (before ++ def ∷ []) fragments.new.keys) }
{
    match as_fragment(node) {
        Some(found) => Ok(!add(fragments, found.0)?),
        None => Ok(false),
    }
}

/// Adds a definition, which comes from that of this number.
fn push(def: IlDef, number: u32, out: &mut Elaborated) -> Result<(), NoMemory>
    ensures { OnOk result (out.new ≡ with_one out.old def number) }
{
    out.il.defs.push(def)?;
    out.sources.push(number)
}

/// Adds what is declared next, where the definition of this number is no later fragment.
fn place_declared(
    later: bool,
    number: u32,
    declared: &mut Row<IlDef>,
    out: &mut Elaborated,
) -> Result<(), NoMemory>
    ensures { OnOk result ((D : Decls) (d : Definition) (rest : List IlDef) → later ≡ is_later d
        → number ≡ number_of d → Makes D d None
        → reverse declared.old ≡ flat_map declared_by (joined_of d) ++ rest
        → PlacesOne D d rest declared.new out.old out.new) }
{
    if later {
        return Ok(());
    }
    match declared.pop() {
        Some(def) => push(def, number, out),
        None => Ok(()),
    }
}

/// Adds what the definition of this number stands for: what was made of it, or else what is declared
/// next; a later fragment stands for nothing.
pub(crate) fn place(
    later: bool,
    made: Option<IlDef>,
    number: u32,
    declared: &mut Row<IlDef>,
    out: &mut Elaborated,
) -> Result<(), NoMemory>
    ensures { OnOk result ((D : Decls) (d : Definition) (rest : List IlDef) → later ≡ is_later d
        → number ≡ number_of d → Makes D d made
        → reverse declared.old ≡ flat_map declared_by (joined_of d) ++ rest
        → PlacesOne D d rest declared.new out.old out.new) }
{
    match made {
        Some(content) => push(content, number, out),
        None => place_declared(later, number, declared, out),
    }
}

/// The definitions, the last first.
pub(crate) fn reversed(defs: Row<IlDef>) -> Row<IlDef>
    ensures { result ≡ reverse defs }
{
    let mut items = defs.into_vec();
    items.reverse();
    Row::from_vec(items)
}
