//! The one loop over tokens: each is judged, and then taken.

ghost use Rattle.std.specs.Prelude.{◌≡◌, IfOk};
ghost use Rattle.st_num.specs.declared.fault.Fault.TheVariants as fault;
ghost use Rattle.st_grammar.specs.declared.action.Action.{Action};
ghost use Rattle.st_parse_automaton.specs.inner.Readings.{progress_of};
ghost use Rattle.st_parse_faults.specs.inner.Seen as seen;
ghost use Rattle.st_parse_faults.specs.Place as place;
ghost use Rattle.st_parse.specs.inner.Readers.{Judging, Taking, Ends, fault_of};

use st_grammar::Action;
use st_num::{NoMemory, Row, RuleId, Token};
use st_parse_automaton::{Advance, NameIndex, Progress, TokenClass, may_end, token_class};
use st_parse_faults::{Seen, SyntaxFault, TokenFault, TokenVerdict, place_at};
use std::alloc::Global;

/// What is read, one token after another: definitions, or expressions.
pub(crate) trait Reader<'a> {
    /// This is the verdict on a token of this class, where this is known before it.
    ghost Judges: { Judging };

    /// A token that stands so, leads there and adds these actions makes the latter of what was
    /// kept.
    ghost Takes: { Taking Self };

    /// The verdict on one more token, and the actions that it adds.
    fn judge(
        alloc: Global,
        known: Seen,
        token: &'a Token,
        class: TokenClass,
    ) -> Result<TokenVerdict<'a>, NoMemory>
        requires { seen.SeenKept known }
        ensures verdict { IfOk result (λ verdict. Judges known class token.now verdict) }
        ensures bound { IfOk result (λ verdict. seen.IsBounded verdict) };

    /// Takes a token that stands so and leads there, and adds these actions, which are given up.
    fn take(
        &mut self,
        alloc: Global,
        advance: Advance,
        next: &Progress,
        class: TokenClass,
        token: &'a Token,
        added: &mut Row<Action<'a>>,
    ) -> Result<(), NoMemory>
        ensures { IfOk result
            (λ _. Takes advance next.now class token.now added.old self.old self.new) };
}

/// How far tokens are read, and the fault of the token behind them or of their end.
#[derive(Drop)]
pub(crate) struct Reached {
    pub progress: Progress,
    pub fault: Option<TokenFault>,
}

/// The fault at the token of this number.
pub(crate) fn refused(tokens: &[Token], number: usize, rule: RuleId) -> SyntaxFault
    ensures { result ≡ fault.Refused (place.place_at tokens.now number) rule }
{
    SyntaxFault::Refused {
        at: place_at(tokens, number),
        rule,
    }
}

/// The fault of tokens that end here.
fn end_fault(tokens: &[Token], progress: &Progress) -> Option<TokenFault>
    ensures { result ≡ fault_of tokens.now (progress_of progress.now) }
{
    if may_end(progress) {
        None
    } else {
        Some(TokenFault {
            token: tokens.len(),
            rule: RuleId::S1,
        })
    }
}

/// Reads the tokens up to their end, or to the first that breaks a rule, where this is known before
/// the first, and these names are declared by `var`.
pub(crate) fn read_tokens<'a, R: Reader<'a>>(
    alloc: Global,
    names: &NameIndex<'_>,
    tokens: &'a [Token],
    start: Seen,
    reader: &mut R,
) -> Result<Reached, NoMemory>
    requires { seen.SeenKept start }
    ensures { IfOk result (λ reached. Ends R.Judges R.Takes names.now tokens.now
        start reader.old reached.progress reached.fault reader.new) }
{
    let mut known = start;
    'tokens: for (at, token) in tokens.iter().enumerate() {
        let class = token_class(names, token);
        match R::judge(alloc, known, token, class)? {
            TokenVerdict::Broken(rule, progress) => {
                return Ok(Reached {
                    progress,
                    fault: Some(TokenFault { token: at, rule }),
                });
            }
            TokenVerdict::Passed(next, advance, mut added) => {
                reader.take(alloc, advance, &next.progress, class, token, &mut added)?;
                known = next;
            }
        }
    }
    let fault = end_fault(tokens, &known.progress);
    Ok(Reached {
        progress: known.progress,
        fault,
    })
}
