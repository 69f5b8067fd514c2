//! The lines of a small specification at the front of bytes.

ghost use Rattle.std.specs.Prelude.{◌≡◌, ℕ, List, ◌++◌, All, IfOk, IfSome, IsSomeAnd, Some, codes};
ghost use Rattle.std.specs.List.{flat_map};
ghost use Rattle.st_il.specs.declared.small.SmallRule.{SmallRule as Rule};
ghost use Rattle.st_il.specs.Small.{IsLower, IsUpper, IsWordOf};
ghost use Rattle.st_small.specs.SmallText.{alternative_text, relation_line, rule_line};
ghost use Rattle.st_small.specs.inner.SmallForm.{Answers, IsRuleOfWords, rule_of};

use super::word::{Case, behind, read_word, read_word_before};
use st_il::SmallRule;
use st_num::{Name, NoMemory, Row};
use std::alloc::Global;

/// The name of the syntax at the front, and what stands behind its `=`.
pub fn read_syntax_front(bytes: &[u8]) -> Option<(&[u8], &[u8])>
    ensures read { IfSome result (λ r. IsWordOf IsLower r.0.now
        × (bytes.now ≡ codes "syntax " ++ (r.0.now ++ (codes " =" ++ r.1.now)))) }
    ensures only { (syntax rest : List ℕ) → IsWordOf IsLower syntax
        → bytes.now ≡ codes "syntax " ++ (syntax ++ (codes " =" ++ rest))
        → Answers result syntax rest }
{
    let rest = behind(bytes, b"syntax ")?;
    let (syntax, rest) = read_word_before(rest, Case::Lower, b" =")?;
    Some((syntax, rest))
}

/// The atoms of alternatives up to the end of the line, and what stands behind that line.
pub fn read_atoms(alloc: Global, bytes: &[u8]) -> Result<Option<(Row<Name>, &[u8])>, NoMemory>
    ensures read { IfOk result (λ read. IfSome read (λ r. All (IsWordOf IsUpper) r.0
        × (bytes.now ≡ flat_map alternative_text r.0 ++ (codes "\n" ++ r.1.now)))) }
    ensures only { IfOk result (λ read.
        (atoms : List (List ℕ)) (rest : List ℕ) → All (IsWordOf IsUpper) atoms
        → bytes.now ≡ flat_map alternative_text atoms ++ (codes "\n" ++ rest)
        → IsSomeAnd read (λ r. (r.0 ≡ atoms) × (r.1.now ≡ rest))) }
{
    let mut atoms = Row::new(alloc);
    let mut rest = bytes;
    while let Some(alternative) = behind(rest, b" | ") {
        let Some((atom, after)) = read_word(alternative, Case::Upper) else {
            return Ok(None);
        };
        atoms.push(Name::from_slice(alloc, atom)?)?;
        rest = after;
    }
    match behind(rest, b"\n") {
        Some(rest) => Ok(Some((atoms, rest))),
        None => Ok(None),
    }
}

/// The name of the relation over the syntax at the front, and what stands behind its line.
pub fn read_relation_line<'a>(bytes: &'a [u8], syntax: &[u8]) -> Option<(&'a [u8], &'a [u8])>
    ensures read { IfSome result (λ r. IsWordOf IsUpper r.0.now
        × (bytes.now ≡ relation_line r.0.now syntax.now ++ r.1.now)) }
    ensures only { (relation rest : List ℕ) → IsWordOf IsUpper relation
        → bytes.now ≡ relation_line relation syntax.now ++ rest → Answers result relation rest }
{
    let rest = behind(bytes, b"relation ")?;
    let (relation, rest) = read_word_before(rest, Case::Upper, b": ")?;
    let rest = behind(rest, syntax)?;
    let rest = behind(rest, b" ~> ")?;
    let rest = behind(rest, syntax)?;
    let rest = behind(rest, b"\n")?;
    Some((relation, rest))
}

/// The words of a rule line.
#[derive(Clone, Copy)]
struct RuleWords<'a> {
    name: &'a [u8],
    from: &'a [u8],
    to: &'a [u8],
}

/// The words of a rule line of the relation at the front, and what stands behind the line.
fn read_rule_words<'a>(bytes: &'a [u8], relation: &[u8]) -> Option<(RuleWords<'a>, &'a [u8])>
    ensures read { IfSome result (λ r. IsRuleOfWords (rule_of r.0)
        × (bytes.now ≡ rule_line relation.now (rule_of r.0) ++ r.1.now)) }
    ensures only { (rule : Rule) (rest : List ℕ) → IsRuleOfWords rule
        → bytes.now ≡ rule_line relation.now rule ++ rest
        → IsSomeAnd result (λ r. (rule_of r.0 ≡ rule) × (r.1.now ≡ rest)) }
{
    let rest = behind(bytes, b"rule ")?;
    let rest = behind(rest, relation)?;
    let rest = behind(rest, b"/")?;
    let (name, rest) = read_word_before(rest, Case::Lower, b": ")?;
    let (from, rest) = read_word_before(rest, Case::Upper, b" ~> ")?;
    let (to, rest) = read_word_before(rest, Case::Upper, b"\n")?;
    Some((RuleWords { name, from, to }, rest))
}

impl RuleWords<'_> {
    /// The rule of these words.
    fn copy(&self, alloc: Global) -> Result<SmallRule, NoMemory>
        ensures { IfOk result (λ rule. rule ≡ rule_of self.now) }
    {
        Ok(SmallRule {
            name: Name::from_slice(alloc, self.name)?,
            from: Name::from_slice(alloc, self.from)?,
            to: Name::from_slice(alloc, self.to)?,
        })
    }
}

/// The rules of the relation whose lines the bytes are.
pub fn read_rules(
    alloc: Global,
    bytes: &[u8],
    relation: &[u8],
) -> Result<Option<Row<SmallRule>>, NoMemory>
    ensures read { IfOk result (λ read. IfSome read (λ rules. All IsRuleOfWords rules
        × (bytes.now ≡ flat_map (rule_line relation.now) rules))) }
    ensures only { IfOk result (λ read. (rules : List Rule) → All IsRuleOfWords rules
        → bytes.now ≡ flat_map (rule_line relation.now) rules → read ≡ Some rules) }
{
    let mut rules = Row::new(alloc);
    let mut rest = bytes;
    while !rest.is_empty() {
        let Some((rule, after)) = read_rule_words(rest, relation) else {
            return Ok(None);
        };
        rules.push(rule.copy(alloc)?)?;
        rest = after;
    }
    Ok(Some(rules))
}
