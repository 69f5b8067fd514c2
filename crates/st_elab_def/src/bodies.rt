//! The phase of bodies: fragments join, and the parts of each syntax are as they should be.

ghost use Rattle.std.specs.Prelude.{◌≡◌, ◌<◌, ◌^◌, ◌++◌, List, ℕ, Option, None, Some, true, length, MatchOption};
ghost use Rattle.st_num.specs.declared.rule.RuleId.TheVariants.{B5};
ghost use Rattle.st_el.specs.declared.definition.DefNode.TheVariants.{Syntax};
ghost use Rattle.st_il.specs.declared.definition.Alternative.{Alternative};
ghost use Rattle.st_type_table.specs.Breach.{FindsAt};
ghost use Rattle.st_elab_rows.specs.Told.{Told};
ghost use Rattle.st_elab_table.specs.Judgements.{broken};
ghost use Rattle.st_elab_table.specs.declared.decls.Decls.{Decls};
ghost use Rattle.st_elab_def.specs.Definitions.{Definition, definitions};
ghost use Rattle.st_elab_def.specs.DeclsOf.{decls_of};
ghost use Rattle.st_elab_def.specs.Fragments.{dots_suit, joins};
ghost use Rattle.st_elab_def.specs.Phases.{phase, on_declaration, on_body};
ghost use Rattle.st_elab_def.specs.Breaches.{AllPass};
ghost use Rattle.st_elab_def.specs.inner.Bodies.{IsSyntax, own, body_asked, BodyPasses, here_of, ComesTo, GoesBy, IsNoSyntax};
ghost use Rattle.st_elab_def.specs.inner.Gathering.{body_with};
ghost use Rattle.st_ilcheck.specs.Index.{at};
ghost use Rattle.st_elab_def.specs.inner.Walk.{FirstBreachAt, ChecksAll};

use crate::breach::DefFault;
use crate::dots::{Last, dots_suit, goes_on, last_fragments};
use crate::numbered::numbered;
use crate::parts::{Begun, check_parts};
use indexmap::IndexMap;
use st_el::{Body, Def, DefNode};
use st_il::SyntaxDef;
use st_ilcheck::index::{at, put};
use st_num::{Fault, Name, Row, RuleId, Span};
use st_type_table::Bodies;
use std::alloc::Global;

/// A source, and its syntaxes with their fragments joined.
#[derive(Drop)]
struct Source<'a> {
    defs: &'a [Def],
    bodies: Bodies<'a>,
    last: Last<'a>,
}

/// How far a walk through a source has come.
#[derive(Drop)]
struct Walk<'a> {
    /// The number of the next syntax.
    next: usize,
    /// The syntaxes with a fragment before.
    begun: IndexMap<&'a Name, Begun>,
}

/// The name of a syntax, that of the fragment and the body, where the definition is one.
fn as_syntax(node: &DefNode) -> Option<(&Name, &Option<Name>, &Body)>
    ensures { MatchOption result (IsNoSyntax node.now)
        (λ found. node.now ≡ Syntax found.0.now found.1.now found.2.now) }
{
    match node {
        DefNode::Syntax {
            name,
            fragment,
            body,
        } => Some((name, fragment, body)),
        DefNode::Var { .. } => None,
        DefNode::Relation { .. } => None,
        DefNode::Rule { .. } => None,
        DefNode::Fun { .. } => None,
        DefNode::Clause { .. } => None,
    }
}

/// The dots of the syntax at this place suit what stands before and behind it.
fn check_dots(place: Span, before: bool, behind: bool, body: &Body) -> Result<(), Fault>
    ensures { Told (λ done. dots_suit before behind body.now ≡ true)
        (λ b. (dots_suit before behind body.now ≡ true → ⊥) × (b ≡ broken place B5)) result }
{
    if dots_suit(before, behind, body) {
        return Ok(());
    }
    Err(Fault::Refused {
        at: place,
        rule: RuleId::B5,
    })
}

/// The dots of the syntax at this place suit, and then its parts pass behind those that were
/// asked. Answers how many alternatives there are then.
fn check_joined(
    alloc: Global,
    bodies: &Bodies<'_>,
    begun: Begun,
    place: Span,
    before: bool,
    behind: bool,
    body: &Body,
) -> Result<usize, Fault>
    requires within { begun.syntax < length bodies.now }
    requires been { FindsAt bodies.now begun.syntax 0 begun.alternatives None }
    ensures { (D : Decls) (d : Definition) (name : List ℕ) (fragment : Option (List ℕ))
        (parts later : List Alternative)
        → D.types ≡ bodies.now → d.def.at ≡ place → length parts ≡ begun.alternatives
        → joins d name fragment body.now ≡ dots_suit before behind body.now
        → (dots_suit before behind body.now ≡ true → IsSyntax D begun.syntax name
        (body_with body.now (parts ++ (own body.now ++ later))))
        → Told
        (BodyPasses D (body_asked d name fragment parts body.now) begun.syntax parts body.now)
        (FirstBreachAt D (body_asked d name fragment parts body.now)) result }
{
    check_dots(place, before, behind, body)?;
    check_parts(alloc, bodies, begun, place, body)
}

impl<'a> Source<'a> {
    /// What is asked of a syntax that is no fragment.
    fn check_whole(
        &self,
        alloc: Global,
        walk: &mut Walk<'a>,
        number: usize,
        def: &Def,
        name: &Name,
        body: &Body,
    ) -> Result<(), Fault>
        requires comes { ComesTo self.now number def.now walk.old }
        requires node { def.now.node ≡ Syntax name.now None body.now }
        ensures { Told (λ done. GoesBy (decls_of self.now.defs.now)
            (here_of self.now.defs.now number def.now) walk.new)
            (FirstBreachAt (decls_of self.now.defs.now)
            (on_body (here_of self.now.defs.now number def.now))) result }
    {
        let begun = Begun {
            syntax: walk.next,
            alternatives: 0,
        };
        walk.next += 1;
        let _whole = check_joined(alloc, &self.bodies, begun, def.at, false, false, body)?;
        Ok(())
    }

    /// What is asked of the first fragment of a syntax.
    fn check_first(
        &self,
        alloc: Global,
        walk: &mut Walk<'a>,
        number: usize,
        def: &Def,
        name: &'a Name,
        body: &Body,
    ) -> Result<(), Fault>
        requires comes { ComesTo self.now number def.now walk.old }
        requires node { (piece : List ℕ) × (def.now.node ≡ Syntax name.now (Some piece) body.now) }
        requires first { at walk.old.begun.entries name.now ≡ None }
        ensures { Told (λ done. GoesBy (decls_of self.now.defs.now)
            (here_of self.now.defs.now number def.now) walk.new)
            (FirstBreachAt (decls_of self.now.defs.now)
            (on_body (here_of self.now.defs.now number def.now))) result }
    {
        let syntax = walk.next;
        let begun = Begun {
            syntax,
            alternatives: 0,
        };
        walk.next += 1;
        let behind = goes_on(&self.last, name, number);
        let alternatives = check_joined(alloc, &self.bodies, begun, def.at, false, behind, body)?;
        let asked = Begun {
            syntax,
            alternatives,
        };
        let _none = put(&mut walk.begun, name, asked)?;
        Ok(())
    }

    /// What is asked of a later fragment of a syntax, of which so much was asked.
    fn check_later(
        &self,
        alloc: Global,
        walk: &mut Walk<'a>,
        number: usize,
        def: &Def,
        name: &'a Name,
        body: &Body,
        begun: Begun,
    ) -> Result<(), Fault>
        requires comes { ComesTo self.now number def.now walk.old }
        requires node { (piece : List ℕ) × (def.now.node ≡ Syntax name.now (Some piece) body.now) }
        requires later { at walk.old.begun.entries name.now ≡ Some begun }
        ensures { Told (λ done. GoesBy (decls_of self.now.defs.now)
            (here_of self.now.defs.now number def.now) walk.new)
            (FirstBreachAt (decls_of self.now.defs.now)
            (on_body (here_of self.now.defs.now number def.now))) result }
    {
        let syntax = begun.syntax;
        let behind = goes_on(&self.last, name, number);
        let alternatives = check_joined(alloc, &self.bodies, begun, def.at, true, behind, body)?;
        let asked = Begun {
            syntax,
            alternatives,
        };
        let _before = put(&mut walk.begun, name, asked)?;
        Ok(())
    }

    /// What is asked of a syntax.
    fn check_syntax(
        &self,
        alloc: Global,
        walk: &mut Walk<'a>,
        number: usize,
        def: &Def,
        name: &'a Name,
        fragment: &Option<Name>,
        body: &Body,
    ) -> Result<(), Fault>
        requires comes { ComesTo self.now number def.now walk.old }
        requires node { def.now.node ≡ Syntax name.now fragment.now body.now }
        ensures { Told (λ done. GoesBy (decls_of self.now.defs.now)
            (here_of self.now.defs.now number def.now) walk.new)
            (FirstBreachAt (decls_of self.now.defs.now)
            (on_body (here_of self.now.defs.now number def.now))) result }
    {
        match fragment {
            None => self.check_whole(alloc, walk, number, def, name, body),
            Some(_piece) => match at(&walk.begun, name) {
                None => self.check_first(alloc, walk, number, def, name, body),
                Some(begun) => self.check_later(alloc, walk, number, def, name, body, begun),
            },
        }
    }

    /// What is asked of the body of a definition, which is nothing where it is no syntax.
    fn check_body(
        &self,
        alloc: Global,
        walk: &mut Walk<'a>,
        number: usize,
        def: &'a Def,
    ) -> Result<(), Fault>
        requires comes { ComesTo self.now number def.now walk.old }
        ensures { Told (λ done. GoesBy (decls_of self.now.defs.now)
            (here_of self.now.defs.now number def.now) walk.new)
            (FirstBreachAt (decls_of self.now.defs.now)
            (on_body (here_of self.now.defs.now number def.now))) result }
    {
        match as_syntax(&def.node) {
            Some(found) => {
                self.check_syntax(alloc, walk, number, def, found.0, found.1, found.2)
            }
            None => Ok(()),
        }
    }
}

/// Whether all bodies are as they should be, or the first breach in one. The syntaxes are those
/// that the source declares, and nothing is declared twice.
pub(crate) fn check_bodies(
    alloc: Global,
    defs: &[Def],
    syntaxes: &Row<SyntaxDef>,
) -> Result<(), DefFault>
    requires few { length defs.now < 2 ^ 32 }
    requires syntaxes { syntaxes.now ≡ (decls_of defs.now).types }
    requires declared { AllPass (decls_of defs.now) (phase on_declaration (definitions defs.now)) }
    ensures { ChecksAll (decls_of defs.now) (phase on_body (definitions defs.now)) result }
{
    let bodies = Bodies::of(alloc, syntaxes)?;
    let last = last_fragments(alloc, defs)?;
    let source = Source { defs, bodies, last };
    let begun = IndexMap::new(alloc);
    let mut walk = Walk { next: 0, begun };
    for (i, def) in defs.iter().enumerate() {
        numbered(i as u32, source.check_body(alloc, &mut walk, i, def))?;
    }
    Ok(())
}
