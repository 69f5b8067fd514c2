//! What is printed of the files of a specification: its first fault or breach, or what is asked for.

ghost use Rattle.std.specs.Prelude.{◌≡◌, ◌≤◌, length, All, IfOk};
ghost use Rattle.st_iltext.specs.IlText.{il_text};
ghost use Rattle.st_latex.specs.LatexText.{latex_text};
ghost use Rattle.st_order.specs.Modes.{HasFew, AreModes};
ghost use Rattle.st_commands.specs.Checking.{IsProse, Prints, FilesGive, definitions_text};
ghost use Rattle.st_elab_def.specs.declared.elaborated.Elaborated.{Elaborated as Elaboration};
ghost use Rattle.st_source.specs.Faults.{source_limit};

use itoa::Buffer;
use st_algo::lower;
use st_answers::{Answer, Status, groups_printed, orders_printed};
use st_el::Def;
use st_il::Il;
use st_iltext::print_il;
use st_latex::latex;
use st_num::{NoMemory, Row};
use st_order::Modes;
use st_prose::prose;
use st_source::{Specification, read_specification};
use st_words::CommandWord;
use std::alloc::Global;

/// What is printed of a specification without a fault or a breach.
#[derive(Clone, Copy)]
pub enum Printed {
    /// How many definitions it has.
    Count,
    /// Its internal language.
    Language,
    /// The groups of its definitions.
    Groups,
    /// The order in which the premises of each of its rules are run.
    Orders,
    /// Its definitions in LaTeX.
    Latex,
    /// The steps by which its rules and clauses are run, as prose.
    Prose,
}

/// The line with so many definitions.
fn counted(alloc: Global, definitions: u64) -> Result<Vec<u8>, NoMemory>
    ensures { IfOk result (λ bytes. bytes.items ≡ definitions_text definitions) }
{
    let mut buffer = Buffer::new();
    let mut bytes = Vec::from_slice(alloc, b"accepted ")?;
    bytes.extend_from_slice(buffer.format(definitions).as_bytes())?;
    bytes.extend_from_slice(b" definitions\n")?;
    Ok(bytes)
}

/// The text of this internal language.
fn language(alloc: Global, il: &Il) -> Result<Vec<u8>, NoMemory>
    ensures { IfOk result (λ bytes. bytes.items ≡ il_text il.now) }
{
    let mut bytes = Vec::new(alloc);
    print_il(alloc, il, &mut bytes)?;
    Ok(bytes)
}

/// The LaTeX text of these definitions.
fn typeset(alloc: Global, definitions: &[Def]) -> Result<Vec<u8>, NoMemory>
    ensures { IfOk result (λ bytes. bytes.items ≡ latex_text definitions.now) }
{
    let mut bytes = Vec::new(alloc);
    latex(alloc, definitions, &mut bytes)?;
    Ok(bytes)
}

/// The prose of this internal language with its modes.
fn explained(alloc: Global, il: &Il, modes: &Modes) -> Result<Vec<u8>, NoMemory>
    requires { AreModes il.now modes.now }
    ensures { IfOk result (λ bytes. IsProse il.now bytes.items) }
{
    let algos = lower(alloc, il, modes)?;
    let mut bytes = Vec::new(alloc);
    prose(alloc, il, &algos, &mut bytes)?;
    Ok(bytes)
}

/// The answer where a specification of these definitions, with this internal language and its modes,
/// is accepted.
fn accepted(
    alloc: Global,
    printed: Printed,
    definitions: &[Def],
    il: &Il,
    modes: &Modes,
) -> Result<Answer, NoMemory>
    requires few { HasFew il.now }
    requires modes { AreModes il.now modes.now }
    ensures status { IfOk result (λ answer. answer.status ≡ Status.Done) }
    ensures bytes { IfOk result (λ answer. (e : Elaboration) → e.il ≡ il.now
        → Prints printed definitions.now e answer.bytes.items) }
{
    let bytes = match printed {
        Printed::Count => counted(alloc, definitions.len() as u64)?,
        Printed::Language => language(alloc, il)?,
        Printed::Groups => groups_printed(alloc, il)?,
        Printed::Orders => orders_printed(alloc, il, modes)?,
        Printed::Latex => typeset(alloc, definitions)?,
        Printed::Prose => explained(alloc, il, modes)?,
    };
    Ok(Answer {
        status: Status::Done,
        bytes,
    })
}

/// What is said of the files of these names: their first fault or breach, or what is to be printed.
pub fn answer_files(
    alloc: Global,
    printed: Printed,
    names: &[CommandWord],
    files: &[Row<u8>],
) -> Result<Answer, NoMemory>
    requires named { length files.now ≡ length names.now }
    requires few { length files.now ≤ 64 }
    requires short { All (λ file. length file ≤ source_limit) files.now }
    ensures { IfOk result (λ answer. FilesGive printed names.now files.now
        answer.status answer.bytes.items) }
{
    let specification = read_specification(alloc, names, files)?;
    match specification {
        Specification::Accepted {
            definitions,
            elaborated,
            modes,
        } => accepted(
            alloc,
            printed,
            definitions.as_slice(),
            &elaborated.il,
            &modes,
        ),
        Specification::Refused(answer) => Ok(answer),
    }
}
