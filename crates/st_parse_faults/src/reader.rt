//! The tokens of definitions, one after another.

ghost use Rattle.std.specs.Prelude.{◌≡◌, IfOk, IfSome, IfNone};
ghost use Rattle.st_grammar.specs.Terminals as terminals;
ghost use Rattle.st_parse_faults.specs.DefinitionFaults.{Faultless, FirstFault};

use crate::fault::TokenFault;
use crate::judge::{TokenVerdict, judge_token, nothing_seen};
use st_num::{NoMemory, RuleId, Token};
use st_parse_automaton::{NameIndex, declared_names, may_end, token_class};
use std::alloc::Global;

/// The first token that breaks a rule, or the end where the tokens end too early; none where the
/// tokens are those of definitions and each keeps the limits.
pub fn first_fault(alloc: Global, tokens: &[Token]) -> Result<Option<TokenFault>, NoMemory>
    ensures none { IfOk result (λ found. IfNone found (Faultless tokens.now)) }
    ensures some { IfOk result (λ found.
        IfSome found (λ fault. FirstFault tokens.now (fault.token) (fault.rule))) }
{
    let declared = declared_names(alloc, tokens)?;
    let names = NameIndex::new(alloc, declared.as_slice())?;
    let found = read_tokens(alloc, &names, tokens)?;
    Ok(found)
}

/// The first token that breaks a rule, or the end where the tokens end too early, where these are
/// the names that directly follow the word `var`.
fn read_tokens(
    alloc: Global,
    names: &NameIndex<'_>,
    tokens: &[Token],
) -> Result<Option<TokenFault>, NoMemory>
    requires { names.now ≡ terminals.declared_names tokens.now }
    ensures none { IfOk result (λ found. IfNone found (Faultless tokens.now)) }
    ensures some { IfOk result (λ found.
        IfSome found (λ fault. FirstFault tokens.now (fault.token) (fault.rule))) }
{
    let mut seen = nothing_seen(alloc)?;
    'tokens: for (at, token) in tokens.iter().enumerate() {
        let class = token_class(names, token);
        match judge_token(alloc, seen, token, class)? {
            TokenVerdict::Broken(rule, _) => return Ok(Some(TokenFault { token: at, rule })),
            TokenVerdict::Passed(next, _, _) => seen = next,
        }
    }
    if may_end(&seen.progress) {
        Ok(None)
    } else {
        Ok(Some(TokenFault {
            token: tokens.len(),
            rule: RuleId::S1,
        }))
    }
}
