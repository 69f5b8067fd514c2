//! One step of a run.

ghost use Rattle.std.specs.Prelude.{◌≡◌, ◌⊎◌, length, MatchOption};
ghost use Rattle.std.specs.Option.{option_copied};
ghost use Rattle.st_il.specs.Small.{il_of};
ghost use Rattle.st_commands.specs.inner.Step.{IsAtMost, IsBetter, IsLeastOf, IsNextRule};
ghost use Rattle.st_runs.specs.inner.Reaches.{IsStuck};
ghost use Rattle.st_runs.specs.Transcript.{atom_term};

use st_il::{Small, SmallRule};
use st_num::Name;
use std::cmp::Ordering;

/// Of two rules, the one that goes to the lesser atom.
fn lesser<'a>(one: &'a SmallRule, other: &'a SmallRule) -> &'a SmallRule
    ensures either { (result.now ≡ one.now) ⊎ (result.now ≡ other.now) }
    ensures at_most_one { IsAtMost result.now.to one.now.to }
    ensures at_most_other { IsAtMost result.now.to other.now.to }
{
    match one.to.cmp(&other.to) {
        Ordering::Greater => other,
        _ => one,
    }
}

/// What is least after one rule more.
fn better<'a>(
    best: Option<&'a SmallRule>,
    rule: &'a SmallRule,
    from: &Name,
) -> Option<&'a SmallRule>
    ensures { IsBetter (option_copied best.entry) rule.now from.now (option_copied result) }
{
    if rule.from == *from {
        match best {
            None => Some(rule),
            Some(least) => Some(lesser(least, rule)),
        }
    } else {
        best
    }
}

/// A rule that goes to the least atom.
fn least_step<'a>(rules: &'a [SmallRule], from: &Name) -> Option<&'a SmallRule>
    ensures { IsLeastOf rules.now from.now (length rules.now) (option_copied result) }
{
    let mut best = None;
    for rule in rules {
        best = better(best, rule, from);
    }
    best
}

/// A rule by which the relation goes to the next atom, the least that is derivable; none where it
/// is stuck.
pub fn next_rule<'a>(small: &'a Small, from: &Name) -> Option<&'a SmallRule>
    ensures { MatchOption result
        (IsStuck (il_of small.now) small.now.relation (atom_term from.now))
        (λ rule. IsNextRule small.now from.now rule.now) }
{
    least_step(small.rules.as_slice(), from)
}
