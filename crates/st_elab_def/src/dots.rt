//! The dots of fragments, and which fragment of a syntax is the last.

ghost use Rattle.std.specs.Prelude.{[], ◌≡◌, ◌∷◌, ◌++◌, List, length, IfOk, OnOk};
ghost use Rattle.st_el.specs.declared.definition.Def.{Def};
ghost use Rattle.st_elab_def.specs.Fragments.{begins, ends, dots_suit};
ghost use Rattle.st_ilcheck.specs.Index.{at};
ghost use Rattle.st_elab_def.specs.inner.Last.{is_past, KnowsLast};

use crate::joining::as_fragment;
use indexmap::IndexMap;
use st_el::{Body, Def, DefNode};
use st_ilcheck::index::{at, put};
use st_num::{Name, NoMemory};
use std::alloc::Global;

/// Whether `...` stands before the alternatives.
fn begins(body: &Body) -> bool
    ensures { result ≡ begins body.now }
{
    match body {
        Body::Cases { before, .. } => *before,
        Body::Alias(_) | Body::Fields(_) => false,
    }
}

/// Whether `...` stands behind the alternatives.
fn ends(body: &Body) -> bool
    ensures { result ≡ ends body.now }
{
    match body {
        Body::Cases { after, .. } => *after,
        Body::Alias(_) | Body::Fields(_) => false,
    }
}

/// Whether the dots suit a body with fragments of its syntax before it, or behind it, or both.
pub(crate) fn dots_suit(before: bool, behind: bool, body: &Body) -> bool
    ensures { result ≡ dots_suit before behind body.now }
{
    match (before, behind) {
        (false, false) => !begins(body) && !ends(body),
        (false, true) => ends(body),
        (true, true) => begins(body),
        (true, false) => begins(body) && !ends(body),
    }
}

/// The number of the last fragment of each syntax, by its name.
pub(crate) type Last<'a> = IndexMap<&'a Name, usize>;

/// Takes down the definition of this number where it is a fragment.
fn note<'a>(last: &mut Last<'a>, number: usize, node: &'a DefNode) -> Result<(), NoMemory>
    ensures { OnOk result ((before : List Def) (def : Def) → def.node ≡ node.now
        → length before ≡ number → KnowsLast before last.old.entries
        → KnowsLast (before ++ def ∷ []) last.new.entries) }
{
    match as_fragment(node) {
        Some(found) => {
            let _earlier = put(last, found.0, number)?;
            Ok(())
        }
        None => Ok(()),
    }
}

/// The last fragments of these definitions.
pub(crate) fn last_fragments<'a>(alloc: Global, defs: &'a [Def]) -> Result<Last<'a>, NoMemory>
    ensures { IfOk result (λ last. KnowsLast defs.now last.entries) }
{
    let mut last = IndexMap::new(alloc);
    for (i, def) in defs.iter().enumerate() {
        note(&mut last, i, &def.node)?;
    }
    Ok(last)
}

/// Whether a fragment of the syntax of this name stands behind the definition of this number.
pub(crate) fn goes_on(last: &Last<'_>, name: &Name, number: usize) -> bool
    ensures { result ≡ is_past number (at last.now.entries name.now) }
{
    match at(last, name) {
        Some(found) => number < found,
        None => false,
    }
}
