//! The phase of declarations: nothing is declared twice.

ghost use Rattle.std.specs.Prelude.{◌≡◌, ◌<◌, ◌^◌, [], ◌∷◌, ◌++◌, List, length, not, IfOk, OnOk};
ghost use Rattle.std.specs.List.{list_any};
ghost use Rattle.st_el.specs.declared.definition.Def.{Def};
ghost use Rattle.st_elab_table.specs.declared.decls.Decls.{Decls};
ghost use Rattle.st_elab_def.specs.Definitions.{definitions};
ghost use Rattle.st_elab_def.specs.Declarations.{declare_same};
ghost use Rattle.st_elab_def.specs.Phases.{phase, on_declaration};
ghost use Rattle.st_elab_def.specs.inner.Declaring.{Knows};
ghost use Rattle.st_elab_def.specs.inner.Walk.{ChecksAll};

use crate::breach::{Breach, DefFault};
use indexmap::IndexSet;
use st_el::{Def, DefNode};
use st_ilcheck::index::{add, has};
use st_num::{Name, NoMemory, RuleId};
use std::alloc::Global;

/// The names that definitions declare, by what they declare.
#[derive(Drop)]
struct Declared<'a> {
    /// Syntaxes that are no fragments.
    whole: IndexSet<&'a Name>,
    fragments: IndexSet<&'a Name>,
    vars: IndexSet<&'a Name>,
    relations: IndexSet<&'a Name>,
    funs: IndexSet<&'a Name>,
}

impl<'a> Declared<'a> {
    /// What no definitions declare.
    fn new(alloc: Global) -> Declared<'a>
        ensures { Knows [] result }
    {
        Declared {
            whole: IndexSet::new(alloc),
            fragments: IndexSet::new(alloc),
            vars: IndexSet::new(alloc),
            relations: IndexSet::new(alloc),
            funs: IndexSet::new(alloc),
        }
    }
}

/// Takes down what a definition declares, and answers whether none before declares the same.
fn declare<'a>(declared: &mut Declared<'a>, node: &'a DefNode) -> Result<bool, NoMemory>
    ensures new { IfOk result (λ new. (before : List Def) → Knows before declared.old
        → new ≡ not (list_any (λ other. declare_same node.now other.node) before)) }
    ensures more { OnOk result ((before : List Def) (def : Def) → def.node ≡ node.now
        → Knows before declared.old → Knows (before ++ def ∷ []) declared.new) }
{
    match node {
        DefNode::Syntax { name, fragment, .. } => match fragment {
            None => {
                let in_part = has(&declared.fragments, name);
                let new = add(&mut declared.whole, name)?;
                Ok(new && !in_part)
            }
            Some(_) => {
                let _new = add(&mut declared.fragments, name)?;
                Ok(!has(&declared.whole, name))
            }
        },
        DefNode::Var { name, .. } => add(&mut declared.vars, name),
        DefNode::Relation { name, .. } => add(&mut declared.relations, name),
        DefNode::Fun { name, .. } => add(&mut declared.funs, name),
        DefNode::Rule { .. } | DefNode::Clause { .. } => Ok(true),
    }
}

/// Whether nothing is declared twice, or the first definition that declares what one before it
/// declares.
pub(crate) fn declarations(alloc: Global, defs: &[Def]) -> Result<(), DefFault>
    requires { length defs.now < 2 ^ 32 }
    ensures { (D : Decls) → ChecksAll D (phase on_declaration (definitions defs.now)) result }
{
    let mut declared = Declared::new(alloc);
    for (i, def) in defs.iter().enumerate() {
        if !declare(&mut declared, &def.node)? {
            return Err(DefFault::Refused(Breach {
                definition: i as u32,
                at: def.at,
                rule: RuleId::B1,
            }));
        }
    }
    Ok(())
}
