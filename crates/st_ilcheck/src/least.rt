//! The least of some rules.

ghost use Rattle.std.specs.Prelude.{◌≡◌};
ghost use Rattle.st_ilcheck.specs.Least.{number, lesser, least};

use st_il::TypeRule;
use st_num::Row;

/// The number of a rule.
fn number(rule: TypeRule) -> u8
    ensures { result ≡ number rule }
{
    match rule {
        TypeRule::T1 => 1,
        TypeRule::T2 => 2,
        TypeRule::T3 => 3,
        TypeRule::T4 => 4,
        TypeRule::T5 => 5,
        TypeRule::T6 => 6,
        TypeRule::T7 => 7,
        TypeRule::T8 => 8,
        TypeRule::T9 => 9,
        TypeRule::T10 => 10,
        TypeRule::T11 => 11,
        TypeRule::T12 => 12,
        TypeRule::T13 => 13,
        TypeRule::T14 => 14,
    }
}

/// The lesser of two rules, where there are both.
fn lesser(one: Option<TypeRule>, other: Option<TypeRule>) -> Option<TypeRule>
    ensures { result ≡ lesser one other }
{
    match one {
        None => other,
        Some(first) => match other {
            None => Some(first),
            Some(second) => {
                if number(first) <= number(second) {
                    Some(first)
                } else {
                    Some(second)
                }
            }
        },
    }
}

/// The least of some rules, where there are some.
pub(crate) fn least(rules: Row<TypeRule>) -> Option<TypeRule>
    ensures { result ≡ least rules }
{
    let mut left = rules;
    let mut found = None;
    'rules: while let Some(rule) = left.pop() {
        found = lesser(Some(rule), found);
    }
    found
}
