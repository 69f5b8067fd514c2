//! The phase of signatures: hints say modes, and the names in types are declared.

ghost use Rattle.std.specs.Prelude.{◌≡◌, ◌<◌, ◌^◌, [], ◌∷◌, ◌++◌, length, flat_map, IfOk};
ghost use Rattle.st_elab_table.specs.declared.decls.Decls.{Decls};
ghost use Rattle.st_elab_sig.specs.Signatures.{holes_of};
ghost use Rattle.st_elab_def.specs.Definitions.{Definition, definitions};
ghost use Rattle.st_elab_def.specs.Phases.{names_in, all_declared, on_relation, on_signature, phase};
ghost use Rattle.st_elab_def.specs.inner.Walk.{Checks, ChecksAll};

use crate::breach::DefFault;
use crate::names::{Named, hole_names_of, names_of, push_all_names, push_names};
use crate::numbered::numbered;
use st_el::{Def, DefNode, Notation, Typ};
use st_elab_sig::{mode_of, signature_of};
use st_num::{Fault, NoMemory, Row, RuleId};
use st_types::TypeTable;
use std::alloc::Global;

/// Each of the names is that of a syntax.
fn check_names(types: &TypeTable, names: &[Named]) -> Result<(), Fault>
    ensures { (D : Decls) → D.types ≡ types.now
        → Checks D (all_declared names.now) result }
{
    for named in names {
        if !types.declares(&named.name) {
            return Err(Fault::Refused {
                at: named.at,
                rule: RuleId::B2,
            });
        }
    }
    Ok(())
}

/// How many types stand in a notation.
fn count_of_holes(alloc: Global, notation: &Notation) -> Result<usize, NoMemory>
    ensures { IfOk result (λ count. count ≡ length (holes_of notation.now)) }
{
    let signature = signature_of(alloc, notation)?;
    Ok(signature.operands.len())
}

/// The hints of a relation say its mode, and each name in its types is that of a syntax.
fn check_relation(
    alloc: Global,
    types: &TypeTable,
    def: &Def,
    notation: &Notation,
) -> Result<(), Fault>
    ensures { (D : Decls) → D.types ≡ types.now
        → Checks D (on_relation def.now notation.now) result }
{
    let count = count_of_holes(alloc, notation)?;
    let hints = def.hints.as_slice();
    let Some(_mode) = mode_of(alloc, hints, count)? else {
        return Err(Fault::Refused {
            at: def.at,
            rule: RuleId::B5,
        });
    };
    let names = hole_names_of(alloc, notation)?;
    let named = names.as_slice();
    check_names(types, named)
}

/// Each name in the types of a function is that of a syntax: of its parameters, and its result.
fn check_function(
    alloc: Global,
    types: &TypeTable,
    params: &[Typ],
    value: &Typ,
) -> Result<(), Fault>
    ensures { (D : Decls) → D.types ≡ types.now
        → Checks D (all_declared (flat_map names_in (params.now ++ value.now ∷ []))) result }
{
    let mut names = Row::new(alloc);
    push_all_names(alloc, params, &mut names)?;
    push_names(alloc, value, &mut names)?;
    check_names(types, names.as_slice())
}

/// Each name in the type of a variable is that of a syntax.
fn check_variable(alloc: Global, types: &TypeTable, typ: &Typ) -> Result<(), Fault>
    ensures { (D : Decls) → D.types ≡ types.now
        → Checks D (all_declared (names_in typ.now)) result }
{
    let names = names_of(alloc, typ)?;
    check_names(types, names.as_slice())
}

/// What is asked of the signature of a definition.
fn check_signature(alloc: Global, types: &TypeTable, def: &Def) -> Result<(), Fault>
    ensures { (D : Decls) (d : Definition) → D.types ≡ types.now → d.def ≡ def.now
        → Checks D (on_signature d) result }
{
    match &def.node {
        DefNode::Var { typ, .. } => check_variable(alloc, types, typ),
        DefNode::Relation { notation, .. } => check_relation(alloc, types, def, notation),
        DefNode::Fun {
            params,
            result: value,
            ..
        } => check_function(alloc, types, params.as_slice(), value),
        DefNode::Syntax { .. } | DefNode::Rule { .. } | DefNode::Clause { .. } => Ok(()),
    }
}

/// Whether all signatures are as they should be, or the first that is not.
pub(crate) fn signatures(alloc: Global, types: &TypeTable, defs: &[Def]) -> Result<(), DefFault>
    requires { length defs.now < 2 ^ 32 }
    ensures { (D : Decls) → D.types ≡ types.now
        → ChecksAll D (phase on_signature (definitions defs.now)) result }
{
    for (i, def) in defs.iter().enumerate() {
        numbered(i as u32, check_signature(alloc, types, def))?;
    }
    Ok(())
}
