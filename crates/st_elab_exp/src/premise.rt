//! Premises, elaborated.

ghost use Rattle.std.specs.Prelude.{◌≡◌};
ghost use Rattle.st_el.specs.declared.definition.Prem.{Prem};
ghost use Rattle.st_el.specs.declared.definition.PremNode.TheOpen.{PremNode-F};
ghost use Rattle.st_dims.specs.Around.{inside};
ghost use Rattle.st_elab_rows.specs.Told.{Told};
ghost use Rattle.st_elab_table.specs.Premises.{place_of, node_of, ElabPrem, PremBreach, ElabPrems, PremsBreach};

use crate::inside::{check_count, check_inside};
use crate::judgement::{judged, relation_named};
use st_dims::Within;
use st_el::{Count, Exp, Prem, PremNode};
use st_elab_rows::iteration::iterated;
use st_elab_table::{Decls, ExpFault, Scope};
use st_il::{IlPrem, Ty};
use st_num::{Boxed, Name, Row, RuleId, Span};
use std::alloc::Global;

/// A condition is asked at `bool`.
fn condition(
    alloc: Global,
    decls: &Decls,
    scope: &Scope,
    within: &Within,
    exp: &Exp,
) -> Result<IlPrem, ExpFault>
    ensures { (p : Prem) → node_of p ≡ PremNode-F.If exp.now
        → Told (ElabPrem decls.now scope.now within.now p)
        (PremBreach decls.now scope.now within.now p) result }
{
    let exp = check_inside(alloc, decls, scope, within, exp, &Ty::Bool)?;
    Ok(IlPrem::If(exp.into_inner()))
}

/// A judgement of the named relation, as a premise at this place.
fn goal(
    alloc: Global,
    decls: &Decls,
    scope: &Scope,
    within: &Within,
    at: Span,
    name: &Name,
    exp: &Exp,
) -> Result<IlPrem, ExpFault>
    ensures { (p : Prem) → node_of p ≡ PremNode-F.Goal name.now exp.now → place_of p ≡ at
        → Told (ElabPrem decls.now scope.now within.now p)
        (PremBreach decls.now scope.now within.now p) result }
{
    let Some(relation) = relation_named(&decls.relations, name) else {
        return Err(ExpFault::Refused {
            at,
            rule: RuleId::B2,
        });
    };
    let exps = judged(alloc, decls, scope, within, relation, exp)?;
    Ok(IlPrem::Goal(name.copy(alloc)?, exps))
}

/// An iteration of a premise that is elaborated inside of it. Its count stands outside.
fn each(
    alloc: Global,
    decls: &Decls,
    scope: &Scope,
    within: &Within,
    inner: &Within,
    count: &Count,
    prem: Boxed<IlPrem>,
) -> Result<IlPrem, ExpFault>
    requires { inner.now ≡ inside within.now count.now }
    ensures { (p q : Prem) → node_of p ≡ PremNode-F.Each q count.now
        → ElabPrem decls.now scope.now inner.now q prem
        → Told (ElabPrem decls.now scope.now within.now p)
        (PremBreach decls.now scope.now within.now p) result }
{
    let times = check_count(alloc, decls, scope, within, count)?;
    let names = iterated(alloc, scope, within, inner, prem.get())?;
    Ok(IlPrem::Each(times, names, prem))
}

/// What the premise is, inside of this, or the first breach in it.
fn elaborate_prem(
    alloc: Global,
    decls: &Decls,
    scope: &Scope,
    within: &Within,
    prem: &Prem,
) -> Result<IlPrem, ExpFault>
    ensures { Told (ElabPrem decls.now scope.now within.now prem.now)
        (PremBreach decls.now scope.now within.now prem.now) result }
{
    match &prem.node {
        PremNode::If(exp) => condition(alloc, decls, scope, within, exp),
        PremNode::Goal(name, exp) => goal(alloc, decls, scope, within, prem.at, name, exp),
        PremNode::Otherwise => Ok(IlPrem::Otherwise),
        PremNode::Each(body, count) => {
            let inner = within.inside(alloc, count)?;
            let one = elaborate_prem(alloc, decls, scope, &inner, body.get())?;
            let one = Boxed::new(alloc, one)?;
            each(alloc, decls, scope, within, &inner, count, one)
        }
    }
}

/// What each premise is, or the first breach.
pub fn elaborate_prems(
    alloc: Global,
    decls: &Decls,
    scope: &Scope,
    within: &Within,
    prems: &[Prem],
) -> Result<Row<IlPrem>, ExpFault>
    ensures { Told (ElabPrems decls.now scope.now within.now prems.now)
        (PremsBreach decls.now scope.now within.now prems.now) result }
{
    let mut all = Row::new(alloc);
    for prem in prems {
        let one = elaborate_prem(alloc, decls, scope, within, prem)?;
        all.push(one)?;
    }
    Ok(all)
}
