//! What `run` and `next` say of a relation over the files of a specification, and of a term.

ghost use Rattle.std.specs.Prelude.{true, false, ◌≡◌, ◌≤◌, ◌<◌, ◌^◌, None, length, All, IfOk};
ghost use Rattle.st_order.specs.Modes.{HasFew};
ghost use Rattle.st_runs.specs.inner.Searching.{LeadsOn, GivesTyped};
ghost use Rattle.st_search.specs.Searchable.{HasNoOtherwise};
ghost use Rattle.st_semantics.specs.Goals.{AreInputs};
ghost use Rattle.st_semantics.specs.Marks.{HasMark};
ghost use Rattle.st_source.specs.Faults.{source_limit};
ghost use Rattle.st_commands.specs.Searches.{AreInputTypes, RelationSays, SearchGives, RunGives, NextGives, next_depth};
ghost use Rattle.st_commands.specs.inner.Asking.{asks_steps, depth_of, asked_says, CanBeAsked, CanBeSearched, IsDeclared, QuestionSays, TellsTermFault};
ghost use Rattle.st_source.specs.inner.Specifying.{IsAccepted};

use crate::needed::needs_otherwise;
use st_algo::lower;
use st_answers::{Answer, mark_of, not_runnable, number_of, refused_term, unbuilt};
use st_elab_def::decls;
use st_elab_exp::Decls;
use st_il::{Il, Ty, Value};
use st_num::{Fault, Name, NoMemory, Row};
use st_order::masks::mask_under;
use st_order::{Modes, directions_of, relations_of};
use st_runs::{Searching, next, run};
use st_search::{SearchedLanguage, proper, searched_language, typed_languages_are_searchable};
use st_semantics::meaning_of_rules;
use st_source::{Specification, read_specification};
use st_term::{input_types, typed_term};
use st_types::TypeTable;
use st_words::CommandWord;
use std::alloc::Global;

/// What is asked of a relation.
#[derive(Clone, Copy)]
pub enum Asked {
    /// All that is derivable from a term, at this depth.
    Next(u32),
    /// A run with so many steps at most, at this depth.
    Run(u32, u32),
}

/// A relation of a language, which has these declarations and modes, and what is asked of it.
#[derive(Clone, Copy)]
pub struct Question<'a> {
    pub il: &'a Il,
    pub decls: &'a Decls,
    pub modes: &'a Modes,
    pub relation: &'a Name,
    pub asked: Asked,
}

/// Whether the relation is to be run from term to term.
fn asks_steps(asked: Asked) -> bool
    ensures { result ≡ asks_steps asked }
{
    match asked {
        Asked::Next(_) => false,
        Asked::Run(_, _) => true,
    }
}

/// The depth to which goals are followed.
fn depth_of(asked: Asked) -> u32
    ensures { result ≡ depth_of asked }
{
    match asked {
        Asked::Next(depth) => depth,
        Asked::Run(_, depth) => depth,
    }
}

/// The types of the inputs of a declared relation.
fn types_of_inputs(alloc: Global, il: &Il, relation: &Name) -> Result<Row<Ty>, NoMemory>
    requires few { HasFew il.now }
    requires declared { IsDeclared il.now relation.now }
    ensures { IfOk result (AreInputTypes il.now relation.now) }
{
    let directions = directions_of(alloc, il)?;
    let relations = relations_of(alloc, il)?;
    let relations = relations.as_slice();
    let inputs = mask_under(&directions, relation);
    match number_of(relations, relation) {
        Some(number) => input_types(alloc, inputs, relations[number].holes.as_slice()),
        None => unreachable!(),
    }
}

/// Searches a relation of a language that is known from a term.
fn ask_known(
    alloc: Global,
    language: &SearchedLanguage<'_>,
    relation: &Name,
    asked: Asked,
    term: Row<Value>,
) -> Result<Answer, NoMemory>
    requires mark { HasMark language.now false relation.now None }
    requires plain { HasNoOtherwise language.now relation.now }
    requires depth { 1 ≤ depth_of asked }
    requires typed { GivesTyped language.now relation.now }
    requires leads { asks_steps asked ≡ true → LeadsOn language.now relation.now }
    requires term { AreInputs language.now relation.now term }
    ensures { IfOk result (λ answer. asked_says asked relation.now language.now term answer.status
        answer.bytes.items) }
{
    let searching = Searching {
        language,
        relation,
        depth: depth_of(asked),
    };
    match asked {
        Asked::Next(_) => next(alloc, &searching, term.as_slice()),
        Asked::Run(fuel, _) => run(alloc, &searching, fuel, term),
    }
}

/// Searches the relation from a term.
fn ask_term(alloc: Global, question: &Question, term: Row<Value>) -> Result<Answer, NoMemory>
    requires can { CanBeAsked question.now }
    requires searched { CanBeSearched question.now }
    requires term { AreInputs question.now.il.now question.now.relation.now term }
    ensures { IfOk result (λ answer. asked_says question.now.asked question.now.relation.now
        question.now.il.now term answer.status answer.bytes.items) }
{
    typed_languages_are_searchable();
    meaning_of_rules();
    let algos = lower(alloc, question.il, question.modes)?;
    let types = &question.decls.types;
    let language = searched_language(alloc, question.il, types, &algos)?;
    ask_known(alloc, &language, question.relation, question.asked, term)
}

/// The answer where the text of a term has this fault.
fn ask_refused(alloc: Global, fault: Fault) -> Result<Answer, NoMemory>
    ensures { IfOk result (λ answer. TellsTermFault fault answer.status answer.bytes.items) }
{
    match fault {
        Fault::Refused { at, rule } => refused_term(alloc, at, rule),
        Fault::Memory => Err(NoMemory),
    }
}

/// Reads a term, and searches the relation from it.
fn ask_text(alloc: Global, question: &Question, text: &[u8]) -> Result<Answer, NoMemory>
    requires can { CanBeAsked question.now }
    requires searched { CanBeSearched question.now }
    requires few { length text.now < 2 ^ 32 }
    ensures { IfOk result (λ answer. QuestionSays question.now text.now answer.status
        answer.bytes.items) }
{
    let types = types_of_inputs(alloc, question.il, question.relation)?;
    match typed_term(alloc, question.decls, types.as_slice(), text) {
        Ok(term) => ask_term(alloc, question, term),
        Err(fault) => ask_refused(alloc, fault),
    }
}

/// What is said of a relation without a mark, and of the text of a term.
fn ask_unmarked(alloc: Global, question: &Question, text: &[u8]) -> Result<Answer, NoMemory>
    requires can { CanBeAsked question.now }
    requires mark { HasMark question.now.il.now (asks_steps question.now.asked)
        question.now.relation.now None }
    requires few { length text.now < 2 ^ 32 }
    ensures { IfOk result (λ answer. QuestionSays question.now text.now answer.status
        answer.bytes.items) }
{
    let needs = needs_otherwise(alloc, question.il, question.relation)?;
    if needs {
        return unbuilt(alloc);
    }
    ask_text(alloc, question, text)
}

/// What is said of a relation, and of the text of a term.
fn ask_relation(alloc: Global, question: &Question, text: &[u8]) -> Result<Answer, NoMemory>
    requires can { CanBeAsked question.now }
    requires few { length text.now < 2 ^ 32 }
    ensures { IfOk result (λ answer. QuestionSays question.now text.now answer.status
        answer.bytes.items) }
{
    let mark = mark_of(
        alloc,
        question.il,
        &question.decls.types,
        question.modes,
        question.relation,
        asks_steps(question.asked),
    )?;
    match mark {
        Some(mark) => not_runnable(alloc, question.relation, mark.as_slice()),
        None => ask_unmarked(alloc, question, text),
    }
}

/// What is said of a relation of a language whose declarations are not told yet, and of the text of a
/// term.
fn ask_language(
    alloc: Global,
    il: &Il,
    modes: &Modes,
    relation: &Name,
    asked: Asked,
    text: &[u8],
) -> Result<Answer, NoMemory>
    requires accepted { IsAccepted il.now modes.now }
    requires depth { 1 ≤ depth_of asked }
    requires few { length text.now < 2 ^ 32 }
    ensures { IfOk result (λ answer. RelationSays (asks_steps asked) (asked_says asked relation.now)
        il.now relation.now text.now answer.status answer.bytes.items) }
{
    proper(alloc, il)?;
    let decls = decls(alloc, il)?;
    let question = Question {
        il,
        decls: &decls,
        modes,
        relation,
        asked,
    };
    ask_relation(alloc, &question, text)
}

/// What is said of a relation over the files of these names, and of the text of a term.
fn ask_files(
    alloc: Global,
    relation: &Name,
    asked: Asked,
    text: &[u8],
    names: &[CommandWord],
    files: &[Row<u8>],
) -> Result<Answer, NoMemory>
    requires named { length files.now ≡ length names.now }
    requires few { length files.now ≤ 64 }
    requires short { All (λ file. length file ≤ source_limit) files.now }
    requires short_text { length text.now ≤ source_limit }
    requires depth { 1 ≤ depth_of asked }
    ensures { IfOk result (λ answer. SearchGives (asks_steps asked) (asked_says asked relation.now)
        names.now relation.now text.now files.now answer.status answer.bytes.items) }
{
    let specification = read_specification(alloc, names, files)?;
    match specification {
        Specification::Accepted {
            definitions: _,
            elaborated,
            modes,
        } => ask_language(alloc, &elaborated.il, &modes, relation, asked, text),
        Specification::Refused(answer) => Ok(answer),
    }
}

/// Runs a relation of the specification in the files of these names, from the term of a text. No words
/// say a depth of 0; that would be answered as want of memory.
pub fn run_files(
    alloc: Global,
    relation: &str,
    fuel: u32,
    depth: u32,
    text: &[u8],
    names: &[CommandWord],
    files: &[Row<u8>],
) -> Result<Answer, NoMemory>
    requires named { length files.now ≡ length names.now }
    requires few { length files.now ≤ 64 }
    requires short { All (λ file. length file ≤ source_limit) files.now }
    requires short_text { length text.now ≤ source_limit }
    ensures { IfOk result (λ answer. RunGives names.now relation.now text.now files.now fuel depth
        answer.status answer.bytes.items) }
{
    if depth < 1 {
        return Err(NoMemory);
    }
    let relation = Name::from_slice(alloc, relation.as_bytes())?;
    ask_files(
        alloc,
        &relation,
        Asked::Run(fuel, depth),
        text,
        names,
        files,
    )
}

/// The depth to which `next` searches.
fn next_depth() -> u32
    ensures { result ≡ next_depth }
{
    200
}

/// All that a relation of the specification in the files of these names derives from the term of a
/// text.
pub fn next_files(
    alloc: Global,
    relation: &str,
    text: &[u8],
    names: &[CommandWord],
    files: &[Row<u8>],
) -> Result<Answer, NoMemory>
    requires named { length files.now ≡ length names.now }
    requires few { length files.now ≤ 64 }
    requires short { All (λ file. length file ≤ source_limit) files.now }
    requires short_text { length text.now ≤ source_limit }
    ensures { IfOk result (λ answer. NextGives names.now relation.now text.now files.now
        answer.status answer.bytes.items) }
{
    let relation = Name::from_slice(alloc, relation.as_bytes())?;
    ask_files(
        alloc,
        &relation,
        Asked::Next(next_depth()),
        text,
        names,
        files,
    )
}
