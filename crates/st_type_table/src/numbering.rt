//! The numbers of the syntaxes of a table, by the forms of what they stand for.

ghost use Rattle.std.specs.Prelude.{◌≡◌, IfOk, OnOk, Some, is_some, map};
ghost use Rattle.std.specs.List.Sorted.{IsNonDecreasingBy};
ghost use Rattle.st_type_table.specs.Leads.{joined, names_in};
ghost use Rattle.st_type_table.specs.Meaning.{aliased};
ghost use Rattle.st_type_table.specs.inner.Forms.{alias_named, number_of, type_number, parts_number, IsOrdered, HasNumber, AreNumbers, AreForms};
ghost use Rattle.st_type_table.specs.inner.Numbering.{body_number, Adds, Numbered, IsGiven, IsNumbered, AllNumbered, AreNamesNumbered, Keeps, AreAllNames};
ghost use Rattle.st_type_table.specs.inner.Kept.{defs_of, rank_of, IsKept};

use crate::entry::Entries;
use crate::form::{Form, FormList, Forms, Numbers};
use indexmap::{IndexMap, IndexSet};
use st_il::{SyntaxBody, Ty};
use st_num::{Name, NoMemory};
use std::alloc::Global;

/// The number of a form, which is added where it is new.
fn add_form(list: &mut FormList, form: Form) -> Result<usize, NoMemory>
    ensures { IfOk result (λ number. Adds list.old.keys list.new.keys form number) }
{
    match list.insert_full(form) {
        Ok((number, _)) => Ok(number),
        Err(_) => Err(NoMemory),
    }
}

/// The number of a name that has one.
fn number_known(numbers: &Numbers, name: &Name) -> usize
    requires { IsNumbered numbers.now.entries name.now }
    ensures { number_of numbers.now.entries name.now ≡ Some result }
{
    match numbers.get(name) {
        Some(number) => *number,
        None => unreachable!(),
    }
}

/// The number of a type whose names have numbers. Its form and those of its parts are added.
#[cycle(add)]
fn add_type(numbers: &Numbers, list: &mut FormList, ty: &Ty) -> Result<usize, NoMemory>
    requires ordered { IsOrdered numbers.now.entries list.old.keys }
    requires ready { AllNumbered numbers.now.entries (names_in ty.now) }
    ensures { IfOk result (λ number. Numbered numbers.now.entries list.old.keys list.new.keys
        (λ forms. type_number numbers.now.entries forms ty.now) number) }
{
    match ty {
        Ty::Bool => add_form(list, Form::Bool),
        Ty::Nat => add_form(list, Form::Nat),
        Ty::Int => add_form(list, Form::Int),
        Ty::Text => add_form(list, Form::Text),
        Ty::Name(name) => Ok(number_known(numbers, name)),
        Ty::List(one) => {
            let part = add_type(numbers, list, one.get())?;
            add_form(list, Form::List(part))
        }
        Ty::Opt(one) => {
            let part = add_type(numbers, list, one.get())?;
            add_form(list, Form::Opt(part))
        }
        Ty::Tuple(parts) => add_parts(numbers, list, parts.as_slice()),
    }
}

/// The number of the tuple of these parts, as of a type.
#[cycle(add)]
fn add_parts(numbers: &Numbers, list: &mut FormList, parts: &[Ty]) -> Result<usize, NoMemory>
    requires ordered { IsOrdered numbers.now.entries list.old.keys }
    requires ready { AllNumbered numbers.now.entries (joined (map names_in parts.now)) }
    ensures { IfOk result (λ number. Numbered numbers.now.entries list.old.keys list.new.keys
        (λ forms. parts_number numbers.now.entries forms parts.now) number) }
{
    let mut rest = add_form(list, Form::Empty)?;
    let mut at = parts.len();
    while at > 0 {
        at -= 1;
        let first = add_type(numbers, list, &parts[at])?;
        rest = add_form(list, Form::Pair(first, rest))?;
    }
    Ok(rest)
}

/// The number of what a syntax is an alias of, or else of a form of its own.
fn body_number(
    alloc: Global,
    numbers: &Numbers,
    list: &mut FormList,
    name: &Name,
    body: &SyntaxBody,
) -> Result<usize, NoMemory>
    requires ordered { IsOrdered numbers.now.entries list.old.keys }
    requires ready { AreNamesNumbered numbers.now.entries (aliased (Some body.now)) }
    ensures { IfOk result (λ number. Numbered numbers.now.entries list.old.keys list.new.keys
        (body_number numbers.now.entries name.now (aliased (Some body.now))) number) }
{
    match body {
        SyntaxBody::Alias(ty) => add_type(numbers, list, ty),
        SyntaxBody::Variant(_) => add_form(list, Form::Own(name.copy(alloc)?)),
        SyntaxBody::Fields(_) => add_form(list, Form::Own(name.copy(alloc)?)),
    }
}

/// Whether the name has a number.
fn has_number(numbers: &Numbers, name: &Name) -> bool
    ensures { result ≡ is_some (number_of numbers.now.entries name.now) }
{
    match numbers.get(name) {
        Some(_) => true,
        None => false,
    }
}

/// Keeps the number under this name.
fn keep_number(numbers: &mut Numbers, name: Name, number: usize) -> Result<(), NoMemory>
    ensures { OnOk result (IsGiven numbers.old.entries numbers.new.entries name number) }
{
    match numbers.insert(name, number) {
        Ok(_) => Ok(()),
        Err(_) => Err(NoMemory),
    }
}

/// Gives the syntax of this name a number, where it has none yet.
fn number_named(
    alloc: Global,
    entries: &Entries,
    name: &Name,
    numbers: &mut Numbers,
    list: &mut FormList,
) -> Result<(), NoMemory>
    requires right { AreNumbers (defs_of entries.now.entries) numbers.old.entries list.old.keys }
    requires ready { AreNamesNumbered numbers.old.entries
        (alias_named (defs_of entries.now.entries) name.now) }
    ensures right { OnOk result
        (AreNumbers (defs_of entries.now.entries) numbers.new.entries list.new.keys) }
    ensures keeps { OnOk result (Keeps numbers.old.entries numbers.new.entries) }
    ensures has { OnOk result (HasNumber (defs_of entries.now.entries) numbers.new.entries name.now) }
{
    if has_number(numbers, name) {
        return Ok(());
    }
    match entries.get(name) {
        Some(entry) => {
            let number = body_number(alloc, numbers, list, name, &entry.body)?;
            keep_number(numbers, name.copy(alloc)?, number)?;
            Ok(())
        }
        None => Ok(()),
    }
}

/// The rank of the syntax of this name.
fn rank_of(entries: &Entries, name: &Name) -> usize
    ensures { result ≡ rank_of entries.now.entries name.now }
{
    match entries.get(name) {
        Some(entry) => entry.rank,
        None => 0,
    }
}

/// The names of all syntaxes, where an alias comes behind those that it names.
fn by_rank<'a>(alloc: Global, entries: &'a Entries) -> Result<Vec<&'a Name>, NoMemory>
    ensures all { IfOk result (λ names. AreAllNames (defs_of entries.now.entries) names.items) }
    ensures ordered { IfOk result
        (λ names. IsNonDecreasingBy (λ b. rank_of entries.now.entries b.now) names.items) }
{
    let keys = entries.keys().as_slice();
    let mut names = Vec::new(alloc);
    for at in 0..keys.len() {
        names.push(&keys[at])?;
    }
    names.sort_by_key(|name| rank_of(entries, name))?;
    Ok(names)
}

/// The numbers of the syntaxes, with the forms that they number.
pub(crate) fn forms_of(alloc: Global, entries: &Entries) -> Result<Forms, NoMemory>
    requires { IsKept entries.now.entries }
    ensures { IfOk result (λ forms.
        AreForms (defs_of entries.now.entries) forms.numbers.entries forms.list.keys) }
{
    let names = by_rank(alloc, entries)?;
    let mut numbers = IndexMap::new(alloc);
    let mut list = IndexSet::new(alloc);
    for at in 0..names.len() {
        number_named(alloc, entries, names[at], &mut numbers, &mut list)?;
    }
    Ok(Forms { numbers, list })
}
