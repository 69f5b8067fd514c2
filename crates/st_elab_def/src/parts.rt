//! The parts of one syntax, asked where they stand in the source.

ghost use Rattle.std.specs.Prelude.{[], ◌≡◌, ◌<◌, ◌+◌, ◌++◌, List, ℕ, None, true, false, length, map, flat_map};
ghost use Rattle.std.specs.List.{AllByRecursion};
ghost use Rattle.st_il.specs.declared.definition.Alternative.{Alternative};
ghost use Rattle.st_il.specs.declared.definition.SyntaxBody.TheVariants.{Alias, Variant, Fields};
ghost use Rattle.st_type_table.specs.Breach.{FindsAt};
ghost use Rattle.st_elab_rows.specs.Told.{Told};
ghost use Rattle.st_elab_sig.specs.Types.{ty_of};
ghost use Rattle.st_elab_table.specs.declared.decls.Decls.{Decls};
ghost use Rattle.st_elab_def.specs.DeclsOf.{type_node, alternative_of, field_of};
ghost use Rattle.st_elab_def.specs.Phases.{names_in, on_alias_name, on_alternatives, on_fields};
ghost use Rattle.st_elab_def.specs.inner.Bodies.{IsSyntax, own, parts_asked, HaveBeen, BodyPasses};
ghost use Rattle.st_elab_def.specs.inner.Gathering.{body_with};
ghost use Rattle.st_elab_def.specs.inner.Places.{is_nameless, is_bare, IsAlternative, StandBeforeBare};
ghost use Rattle.st_elab_def.specs.inner.Walk.{Checks, AllPassAt, FirstBreachAt};

use crate::places::{alias_place, cases_place, fields_place};
use st_el::{Body, NotNode, Notation, Typ, TypNode};
use st_num::{Fault, Name, NoMemory, RuleId, Span};
use st_type_table::Bodies;
use std::alloc::Global;

/// What was asked so far of a syntax.
#[derive(Clone, Copy)]
pub(crate) struct Begun {
    /// Its number among the syntaxes.
    pub(crate) syntax: usize,
    /// How many of its alternatives were asked.
    pub(crate) alternatives: usize,
}

/// The names in an alias are declared, and none leads back.
fn check_alias(alloc: Global, bodies: &Bodies<'_>, syntax: usize, typ: &Typ) -> Result<(), Fault>
    requires { syntax < length bodies.now }
    ensures { (D : Decls) (name : List ℕ) → D.types ≡ bodies.now
        → IsSyntax D syntax name (Alias (ty_of typ.now))
        → Checks D (flat_map (on_alias_name name) (names_in typ.now)) result }
{
    let found = bodies.check(alloc, syntax, 0, 1)?;
    match found {
        Some(broken) => {
            let at = alias_place(alloc, typ, broken)?;
            let rule = broken.rule;
            Err(Fault::Refused { at, rule })
        }
        None => Ok(()),
    }
}

/// The fields of a record at this place are new, and the names in their types are declared.
fn check_fields(
    alloc: Global,
    bodies: &Bodies<'_>,
    syntax: usize,
    place: Span,
    fields: &[(Name, Typ)],
) -> Result<(), Fault>
    requires { syntax < length bodies.now }
    ensures { (D : Decls) (name : List ℕ) → D.types ≡ bodies.now
        → IsSyntax D syntax name (Fields (map field_of fields.now))
        → Checks D (on_fields place [] fields.now) result }
{
    let found = bodies.check(alloc, syntax, 0, fields.len())?;
    match found {
        Some(broken) => {
            let at = fields_place(alloc, fields, broken, place)?;
            let rule = broken.rule;
            Err(Fault::Refused { at, rule })
        }
        None => Ok(()),
    }
}

/// Whether the type is no name.
fn is_nameless(typ: &Typ) -> bool
    ensures { result ≡ is_nameless (type_node typ.now) }
{
    match &typ.node {
        TypNode::Name(_) => false,
        TypNode::Bool | TypNode::Nat | TypNode::Int | TypNode::Text => true,
        TypNode::Star(_) | TypNode::Quest(_) | TypNode::Tuple(_) => true,
    }
}

/// Whether the notation is a type by itself that is no name.
fn is_bare(notation: &Notation) -> bool
    ensures { result ≡ is_bare notation.now }
{
    match &notation.node {
        NotNode::Hole(typ) => is_nameless(typ),
        NotNode::Atom(_) | NotNode::Seq(_) => false,
        NotNode::Infix(_, _, _) | NotNode::Bracket(_, _) => false,
    }
}

/// How many of the notations stand before the first that is a type by itself and no name.
fn count_before_bare(notations: &[Notation]) -> usize
    ensures { StandBeforeBare notations.now result }
{
    for (i, notation) in notations.iter().enumerate() {
        if is_bare(notation) {
            return i;
        }
    }
    notations.len()
}

/// The alternatives of a syntax from one number up to another pass.
fn check_run(
    alloc: Global,
    bodies: &Bodies<'_>,
    begun: Begun,
    to: usize,
    place: Span,
    cases: &[Notation],
) -> Result<(), Fault>
    requires within { begun.syntax < length bodies.now }
    requires been { FindsAt bodies.now begun.syntax 0 begun.alternatives None }
    ensures { (D : Decls) (name : List ℕ) (before later : List Alternative)
        → D.types ≡ bodies.now → length before ≡ begun.alternatives
        → begun.alternatives + length cases.now ≡ to → AllByRecursion IsAlternative cases.now
        → IsSyntax D begun.syntax name
        (Variant (before ++ (flat_map alternative_of cases.now ++ later)))
        → Told (λ done. AllPassAt D (on_alternatives name before cases.now)
        × HaveBeen D begun.syntax (before ++ flat_map alternative_of cases.now) to)
        (FirstBreachAt D (on_alternatives name before cases.now)) result }
{
    let from = begun.alternatives;
    let found = bodies.check(alloc, begun.syntax, from, to)?;
    match found {
        Some(broken) => {
            let at = cases_place(alloc, cases, from, broken, place)?;
            let rule = broken.rule;
            Err(Fault::Refused { at, rule })
        }
        None => Ok(()),
    }
}

/// The alternatives of a body pass behind those that were asked. Answers how many there are then.
fn check_cases(
    alloc: Global,
    bodies: &Bodies<'_>,
    begun: Begun,
    place: Span,
    cases: &[Notation],
) -> Result<usize, Fault>
    requires within { begun.syntax < length bodies.now }
    requires been { FindsAt bodies.now begun.syntax 0 begun.alternatives None }
    ensures { (D : Decls) (name : List ℕ) (before later : List Alternative)
        → D.types ≡ bodies.now → length before ≡ begun.alternatives
        → IsSyntax D begun.syntax name
        (Variant (before ++ (flat_map alternative_of cases.now ++ later)))
        → Told (λ to. AllPassAt D (on_alternatives name before cases.now)
        × HaveBeen D begun.syntax (before ++ flat_map alternative_of cases.now) to)
        (FirstBreachAt D (on_alternatives name before cases.now)) result }
{
    let count = count_before_bare(cases);
    let Some(to) = begun.alternatives.checked_add(count) else {
        return Err(Fault::Memory);
    };
    let front = &cases[..count];
    check_run(alloc, bodies, begun, to, place, front)?;
    match cases.get(count) {
        Some(notation) => Err(Fault::Refused {
            at: notation.at,
            rule: RuleId::B5,
        }),
        None => Ok(to),
    }
}

/// The parts of the body of a syntax at this place pass behind those that were asked. Answers how
/// many alternatives there are then.
pub(crate) fn check_parts(
    alloc: Global,
    bodies: &Bodies<'_>,
    begun: Begun,
    place: Span,
    body: &Body,
) -> Result<usize, Fault>
    requires within { begun.syntax < length bodies.now }
    requires been { FindsAt bodies.now begun.syntax 0 begun.alternatives None }
    ensures { (D : Decls) (name : List ℕ) (before later : List Alternative)
        → D.types ≡ bodies.now → length before ≡ begun.alternatives
        → IsSyntax D begun.syntax name
        (body_with body.now (before ++ (own body.now ++ later)))
        → Told (BodyPasses D (parts_asked place name before body.now) begun.syntax before body.now)
        (FirstBreachAt D (parts_asked place name before body.now)) result }
{
    match body {
        Body::Alias(typ) => {
            check_alias(alloc, bodies, begun.syntax, typ)?;
            Ok(begun.alternatives)
        }
        Body::Cases { cases, .. } => check_cases(alloc, bodies, begun, place, cases.as_slice()),
        Body::Fields(fields) => {
            check_fields(alloc, bodies, begun.syntax, place, fields.as_slice())?;
            Ok(begun.alternatives)
        }
    }
}
