//! Which of the rules M3, M4, M6 and M7 a clause breaks.

ghost use Rattle.std.specs.Prelude.{◌≡◌, [], true, not, IfOk};
ghost use Rattle.std.specs.List.{list_all};
ghost use Rattle.st_il.specs.declared.definition.Il.{Il};
ghost use Rattle.st_il.specs.Names.{all_known};
ghost use Rattle.st_semantics.specs.Variables.{vars_of};
ghost use Rattle.st_semantics.specs.Patterns.{is_pattern, bound_by};
ghost use Rattle.st_semantics.specs.OpenParts.{is_doubly_open};
ghost use Rattle.st_semantics.specs.Orders.{run_on};
ghost use Rattle.st_semantics.specs.ModeRules.{keeps_m4, keeps_m6};
ghost use Rattle.st_order.specs.inner.Index.{names_in};
ghost use Rattle.st_order.specs.Known.{AreDirections};
ghost use Rattle.st_modes.specs.inner.Breaches.{clause_breach};

use crate::one_open::patterns_have_one_open;
use crate::open_parts::is_doubly_open;
use crate::rule_modes::cite_nothing;
use st_il::{ClauseDef, IlExp, IlPrem};
use st_num::{Name, NoMemory, Row, RuleId};
use st_order::Directions;
use st_order::bindings::push_all_bound;
use st_order::class::{class_of, is_bound};
use st_order::index::{are_known, set_of};
use st_order::selection::add_variables;
use st_order::variables::{push_all_vars, push_prems_vars};
use st_semantics::is_pattern;
use std::alloc::Global;

/// Whether each premise can be run at its written place, where these names are bound at first.
fn run_as_written<'a>(
    alloc: Global,
    directions: &Directions,
    names: &[&'a Name],
    premises: &'a [IlPrem],
) -> Result<bool, NoMemory>
    requires { AreDirections directions.now }
    ensures { IfOk result (λ run. run
        ≡ run_on directions.now.il.now (names_in names.now) premises.now []) }
{
    let mut bound = set_of(alloc, names)?;
    for premise in premises {
        let class = class_of(alloc, directions, &bound, premise)?;
        if class.is_none() {
            return Ok(false);
        }
        add_variables(alloc, premise, &mut bound)?;
    }
    Ok(true)
}

/// Whether each argument is a pattern.
fn are_patterns(args: &[IlExp]) -> bool
    ensures { result ≡ list_all is_pattern args.now }
{
    for arg in args {
        if !is_pattern(arg) {
            return false;
        }
    }
    true
}

/// Whether no list in an argument has two parts of open length.
fn have_one_open(args: &[IlExp]) -> bool
    ensures { result ≡ list_all (λ e. not (is_doubly_open e)) args.now }
{
    for arg in args {
        if is_doubly_open(arg) {
            return false;
        }
    }
    true
}

/// Whether patterns bind these names.
fn bind(alloc: Global, args: &[IlExp], names: &[&Name]) -> Result<bool, NoMemory>
    requires { list_all is_pattern args.now ≡ true }
    ensures { IfOk result (λ binding. binding ≡ all_known (bound_by args.now) (names_in names.now)) }
{
    let mut binding = Row::new(alloc);
    push_all_bound(alloc, args, &mut binding)?;
    let known = set_of(alloc, binding.as_slice())?;
    Ok(are_known(&known, names))
}

/// Whether a clause keeps M4, where these are the variables of its arguments.
fn keeps_m4(alloc: Global, clause: &ClauseDef, names: &[&Name]) -> Result<bool, NoMemory>
    requires { names_in names.now ≡ vars_of clause.now.args }
    ensures { IfOk result (λ keeps. (il : Il) → keeps ≡ keeps_m4 il clause.now) }
{
    let args = clause.args.as_slice();
    if !are_patterns(args) {
        return Ok(false);
    }
    let binding = bind(alloc, args, names)?;
    if !binding {
        return Ok(false);
    }
    if !have_one_open(args) {
        return Ok(false);
    }
    let have = patterns_have_one_open(alloc, names, clause.premises.as_slice())?;
    Ok(have)
}

/// Whether a clause keeps M6.
fn keeps_m6(alloc: Global, clause: &ClauseDef) -> Result<bool, NoMemory>
    ensures { IfOk result (λ keeps. keeps ≡ keeps_m6 clause.now) }
{
    let mut names = Row::new(alloc);
    push_all_vars(alloc, clause.args.as_slice(), &mut names)?;
    push_prems_vars(alloc, clause.premises.as_slice(), &mut names)?;
    let bound = set_of(alloc, names.as_slice())?;
    let is = is_bound(alloc, &bound, &clause.result)?;
    Ok(is)
}

/// The least of M3, M4, M6 and M7 that a clause breaks.
pub(crate) fn clause_breach(
    alloc: Global,
    directions: &Directions,
    clause: &ClauseDef,
) -> Result<Option<RuleId>, NoMemory>
    requires { AreDirections directions.now }
    ensures { IfOk result (λ breach. breach
        ≡ clause_breach directions.now.il.now clause.now) }
{
    let mut names = Row::new(alloc);
    push_all_vars(alloc, clause.args.as_slice(), &mut names)?;
    let names = names.as_slice();
    let premises = clause.premises.as_slice();
    let m3 = run_as_written(alloc, directions, names, premises)?;
    if !m3 {
        return Ok(Some(RuleId::M3));
    }
    let m4 = keeps_m4(alloc, clause, names)?;
    if !m4 {
        return Ok(Some(RuleId::M4));
    }
    let m6 = keeps_m6(alloc, clause)?;
    if !m6 {
        return Ok(Some(RuleId::M6));
    }
    if !cite_nothing(premises) {
        return Ok(Some(RuleId::M7));
    }
    Ok(None)
}
