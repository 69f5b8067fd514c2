//! The definitions of tokens, and the first fault of tokens that mean none.

ghost use Rattle.std.specs.Prelude.{◌≡◌, List, None, Some, IfOk};
ghost use Rattle.st_grammar.specs.Terminals as terminals;
ghost use Rattle.st_parse_automaton.specs.inner.Readings.{progress_of};
ghost use Rattle.st_parse_faults.specs.inner.Seen as seen;
ghost use Rattle.st_parse_builder.specs.Variables.{Occurrence};
ghost use Rattle.st_parse.specs.inner.Work.{Work, ended_defs, MayClose};
ghost use Rattle.st_parse.specs.Source.{Answers};
ghost use Rattle.st_parse.specs.inner.Kept.{Keeps, Tells};
ghost use Rattle.st_parse.specs.inner.Cuts.{Opens, past_in};
ghost use Rattle.st_parse.specs.inner.DefinitionReading.{Begins};
ghost use Rattle.st_parse.specs.inner.Found.{Found};

use crate::kept::{Kept, begun_kept};
use crate::parts::{Parts, no_parts};
use crate::reader::{Reader, read_tokens, refused};
use crate::take::{cut_off, finish, take};
use st_el::Def;
use st_grammar::Action;
use st_num::{NoMemory, Row, RuleId, Token};
use st_parse_automaton::{Advance, At, NameIndex, Position, Progress, TokenClass, declared_names};
use st_parse_faults::{Seen, SyntaxFault, TokenFault, TokenVerdict, judge_token, nothing_counted};
use std::alloc::Global;

/// What is known before the first token.
fn nothing_seen(alloc: Global) -> Result<Seen, NoMemory>
    ensures value { IfOk result (λ next. seen.summary_of next ≡ seen.nothing_summarized) }
    ensures bound { IfOk result (λ next. seen.SeenKept next) }
{
    let progress = Progress::At(At {
        position: Position::Between,
        brackets: Row::new(alloc),
    });
    nothing_counted(alloc, progress, 0)
}

/// The definitions that are read, and the part that is read of the open one.
#[derive(Drop)]
pub(crate) struct DefinitionReader<'a> {
    pub kept: Kept<'a>,
    pub parts: Parts<'a>,
}

/// What is kept before the first token.
fn begun_reader<'a>(alloc: Global) -> DefinitionReader<'a>
    ensures { Begins result }
{
    DefinitionReader {
        kept: begun_kept(alloc),
        parts: no_parts(alloc),
    }
}

impl<'a> Reader<'a> for DefinitionReader<'a> {
    ghost use Rattle.st_parse.specs.inner.DefinitionReading.{JudgesToken, TakesToken};

    ghost Judges = { λ known class token verdict. JudgesToken known class token verdict };

    ghost Takes = { λ advance next class token added old new.
        TakesToken advance next class token added old new };

    fn judge(
        alloc: Global,
        known: Seen,
        token: &'a Token,
        class: TokenClass,
    ) -> Result<TokenVerdict<'a>, NoMemory> {
        judge_token(alloc, known, token, class)
    }

    fn take(
        &mut self,
        alloc: Global,
        advance: Advance,
        next: &Progress,
        class: TokenClass,
        token: &'a Token,
        added: &mut Row<Action<'a>>,
    ) -> Result<(), NoMemory> {
        take(
            alloc,
            advance,
            next,
            class,
            token,
            added,
            &mut self.kept,
            &mut self.parts,
        )
    }
}

/// The first of what was found, in the order of the faults, or the definitions.
fn answer(
    tokens: &[Token],
    fault: Option<TokenFault>,
    kept: Kept<'_>,
) -> Result<Row<Def>, SyntaxFault>
    requires { Found tokens.now fault kept }
    ensures { Answers tokens.now result }
{
    if let Some(at) = kept.variables.past {
        return Err(SyntaxFault::Refused {
            at,
            rule: RuleId::S3,
        });
    }
    if let Some(fault) = fault {
        return Err(refused(tokens, fault.token, fault.rule));
    }
    if let Some(at) = kept.tall {
        return Err(SyntaxFault::Refused {
            at,
            rule: RuleId::S2,
        });
    }
    Ok(kept.draft.defs)
}

/// Nothing more is read: what is open ends, or this fault cuts it off.
fn stop<'a>(
    alloc: Global,
    fault: Option<TokenFault>,
    progress: &Progress,
    kept: &mut Kept<'a>,
    parts: &mut Parts<'a>,
) -> Result<(), NoMemory>
    ensures whole { fault ≡ None → (before : Work) (defs : List Def)
        → Keeps kept.old parts.old before → MayClose (progress_of progress.now) before
        → ended_defs (progress_of progress.now) before ≡ Some defs
        → IfOk result (λ _. Tells kept.new defs) }
    ensures cut { (f : TokenFault) → fault ≡ Some f → (before : Work) (vs : List Occurrence)
        → Keeps kept.old parts.old before → Opens (progress_of progress.now) before vs
        → IfOk result (λ _. kept.new.variables.past ≡ past_in before.draft.defs vs) }
{
    match fault {
        None => finish(alloc, progress, kept, parts),
        Some(_) => cut_off(alloc, progress, kept, parts),
    }
}

/// Reads the tokens, and answers the first fault of one of them or of their end, where these are the
/// names that directly follow the word `var`.
fn read_all<'a>(
    alloc: Global,
    names: &NameIndex<'_>,
    tokens: &'a [Token],
    reader: &mut DefinitionReader<'a>,
) -> Result<Option<TokenFault>, NoMemory>
    ensures { names.now ≡ terminals.declared_names tokens.now → Begins reader.old
        → IfOk result (λ fault. Found tokens.now fault reader.new.kept) }
{
    let start = nothing_seen(alloc)?;
    let reached = read_tokens(alloc, names, tokens, start, reader)?;
    stop(
        alloc,
        reached.fault,
        &reached.progress,
        &mut reader.kept,
        &mut reader.parts,
    )?;
    Ok(reached.fault)
}

/// The definitions that the tokens mean, or the first fault, where these are the names that
/// directly follow the word `var`.
fn read_definitions(
    alloc: Global,
    names: &NameIndex<'_>,
    tokens: &[Token],
) -> Result<Row<Def>, SyntaxFault>
    requires { names.now ≡ terminals.declared_names tokens.now }
    ensures { Answers tokens.now result }
{
    let mut reader = begun_reader(alloc);
    let fault = read_all(alloc, names, tokens, &mut reader)?;
    answer(tokens, fault, reader.kept)
}

/// The definitions that the tokens mean, or the first fault and its place. Variables are asked of
/// all that stands before a token with a fault, and heights where there is no other fault.
pub fn parse(alloc: Global, tokens: &[Token]) -> Result<Row<Def>, SyntaxFault>
    ensures { Answers tokens.now result }
{
    let declared = declared_names(alloc, tokens)?;
    let names = NameIndex::new(alloc, declared.as_slice())?;
    read_definitions(alloc, &names, tokens)
}
