//! The tokens of definitions, one after another.

ghost use Rattle.std.specs.Prelude.{◌≡◌, IfOk, IfSome, IfNone};
ghost use Rattle.st_grammar.specs.Terminals as terminals;
ghost use Rattle.st_parse_automaton.specs.Refusal.{AreDefinitions, RefusedAt};

use crate::class::{declared_names, token_class};
use crate::definition_automaton::{advance, may_end};
use crate::name_index::NameIndex;
use crate::position::{At, Position, Progress};
use st_num::{NoMemory, Row, Token};
use std::alloc::Global;

/// The number of the first token that no definitions have behind those before it, or of all tokens
/// where they end too early; none where the tokens are those of definitions.
pub fn first_refused(alloc: Global, tokens: &[Token]) -> Result<Option<usize>, NoMemory>
    ensures none { IfOk result (λ found. IfNone found (AreDefinitions tokens.now)) }
    ensures some { IfOk result (λ found. IfSome found (λ k. RefusedAt tokens.now k)) }
{
    let declared = declared_names(alloc, tokens)?;
    let names = NameIndex::new(alloc, declared.as_slice())?;
    let found = read_tokens(alloc, &names, tokens)?;
    Ok(found)
}

/// The number of the first token that no definitions have behind those before it, or of all tokens
/// where they end too early, where these are the names that directly follow the word `var`.
fn read_tokens(
    alloc: Global,
    names: &NameIndex<'_>,
    tokens: &[Token],
) -> Result<Option<usize>, NoMemory>
    requires { names.now ≡ terminals.declared_names tokens.now }
    ensures none { IfOk result (λ found. IfNone found (AreDefinitions tokens.now)) }
    ensures some { IfOk result (λ found. IfSome found (λ k. RefusedAt tokens.now k)) }
{
    let mut progress = Progress::At(At {
        position: Position::Between,
        brackets: Row::new(alloc),
    });
    'tokens: for (at, token) in tokens.iter().enumerate() {
        let Some(step) = advance(alloc, &progress, token_class(names, token), token)? else {
            return Ok(Some(at));
        };
        progress = step.progress;
    }
    if may_end(&progress) {
        Ok(None)
    } else {
        Ok(Some(tokens.len()))
    }
}
