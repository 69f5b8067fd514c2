//! How definitions are printed, without their hints and their first words.

ghost use Rattle.std.specs.Prelude.{◌≡◌, ◌++◌, OnOk, map, codes};
ghost use Rattle.std.specs.Option.{option_copied};
ghost use Rattle.st_el.specs.SourceText.{separated};
ghost use Rattle.st_latex.specs.Tokens.{token, label};
ghost use Rattle.st_latex.specs.Parts.{field_text, record_text};
ghost use Rattle.st_latex.specs.LatexText.{leading, trailing, alternatives_text, declared_field, body, fragment_text, full_name, rule, syntax_text, signature, clause, def_node};

use crate::expression::{print_arguments, print_exp};
use crate::premise::{print_conditions, print_premises};
use crate::token::{
    print_atom, print_function, print_label, print_name, print_token, print_variable,
};
use crate::ty::{print_notation, print_params, print_typ};
use st_el::{Body, DefNode, Exp, Notation, Prem, Typ};
use st_num::{Name, NoMemory};

/// Appends what stands before the first alternative.
fn print_leading(before: bool, alternatives: &[Notation], out: &mut Vec<u8>) -> Result<(), NoMemory>
    ensures { OnOk result (out.new.items ≡ out.old.items ++ leading before alternatives.now) }
{
    if before {
        print_token(b"\\dots", out)?;
        return print_token(b"\\mid", out);
    }
    if alternatives.len() < 2 {
        return Ok(());
    }
    print_token(b"\\mid", out)
}

/// Appends what stands behind the last alternative.
fn print_trailing(after: bool, out: &mut Vec<u8>) -> Result<(), NoMemory>
    ensures { OnOk result (out.new.items ≡ out.old.items ++ trailing after) }
{
    if after {
        print_token(b"\\mid", out)?;
        print_token(b"\\dots", out)?;
    }
    Ok(())
}

/// Appends alternatives with bars between them.
fn print_alternatives(alternatives: &[Notation], out: &mut Vec<u8>) -> Result<(), NoMemory>
    ensures { OnOk result
        (out.new.items ≡ out.old.items ++ alternatives_text alternatives.now) }
{
    let Some((first, others)) = alternatives.split_first() else {
        return Ok(());
    };
    print_notation(first, out)?;
    for alternative in others {
        print_token(b"\\mid", out)?;
        print_notation(alternative, out)?;
    }
    Ok(())
}

/// Appends a declared field: its name and its type.
fn print_field(field: &(Name, Typ), out: &mut Vec<u8>) -> Result<(), NoMemory>
    ensures { OnOk result
        (out.new.items ≡ out.old.items ++ field_text (declared_field field.now)) }
{
    print_atom(field.0.as_slice(), out)?;
    print_typ(&field.1, out)
}

/// Appends declared fields with commas between them.
fn print_listed_fields(fields: &[(Name, Typ)], out: &mut Vec<u8>) -> Result<(), NoMemory>
    ensures { OnOk result (out.new.items ≡ out.old.items
        ++ separated (token (codes ",")) (map field_text (map declared_field fields.now))) }
{
    let Some((first, others)) = fields.split_first() else {
        return Ok(());
    };
    print_field(first, out)?;
    for field in others {
        print_token(b",", out)?;
        print_field(field, out)?;
    }
    Ok(())
}

/// Appends declared fields in braces.
fn print_fields(fields: &[(Name, Typ)], out: &mut Vec<u8>) -> Result<(), NoMemory>
    ensures { OnOk result (out.new.items
        ≡ out.old.items ++ record_text (map declared_field fields.now)) }
{
    print_token(b"\\{", out)?;
    print_listed_fields(fields, out)?;
    print_token(b"\\}", out)
}

/// Appends the body of a syntax.
fn print_body(is: &Body, out: &mut Vec<u8>) -> Result<(), NoMemory>
    ensures { OnOk result (out.new.items ≡ out.old.items ++ body is.now) }
{
    match is {
        Body::Alias(typ) => print_typ(typ, out),
        Body::Cases {
            before,
            cases,
            after,
        } => {
            print_leading(*before, cases.as_slice(), out)?;
            print_alternatives(cases.as_slice(), out)?;
            print_trailing(*after, out)
        }
        Body::Fields(fields) => print_fields(fields.as_slice(), out),
    }
}

/// Appends a fragment behind the name of its syntax.
fn print_fragment(fragment: &Option<Name>, out: &mut Vec<u8>) -> Result<(), NoMemory>
    ensures { OnOk result (out.new.items ≡ out.old.items ++ fragment_text fragment.now) }
{
    match fragment {
        None => Ok(()),
        Some(name) => {
            print_token(b"/", out)?;
            print_label(name.as_slice(), out)
        }
    }
}

/// Appends the full name of a rule.
fn print_full_name(relation: &Name, name: &Name, out: &mut Vec<u8>) -> Result<(), NoMemory>
    ensures { OnOk result (out.new.items ≡ out.old.items ++ label (full_name relation.now name.now)) }
{
    if name.is_empty() {
        return print_label(relation.as_slice(), out);
    }
    print_token(b"\\text{", out)?;
    print_name(relation.as_slice(), out)?;
    out.push(b'/')?;
    print_name(name.as_slice(), out)?;
    out.push(b'}')?;
    Ok(())
}

/// Appends a rule: its premises over its conclusion, and its full name.
fn print_rule(
    relation: &Name,
    name: &Name,
    conclusion: &Exp,
    premises: &[Prem],
    out: &mut Vec<u8>,
) -> Result<(), NoMemory>
    ensures { OnOk result (out.new.items
        ≡ out.old.items ++ rule relation.now name.now conclusion.now premises.now) }
{
    print_token(b"\\frac{", out)?;
    print_premises(premises, out)?;
    print_token(b"}{", out)?;
    print_exp(conclusion, out)?;
    print_token(b"}", out)?;
    print_full_name(relation, name, out)
}

/// Appends a syntax, as it stands behind its first word.
fn print_syntax(
    name: &Name,
    fragment: &Option<Name>,
    is: &Body,
    out: &mut Vec<u8>,
) -> Result<(), NoMemory>
    ensures { OnOk result
        (out.new.items ≡ out.old.items ++ syntax_text name.now fragment.now is.now) }
{
    print_variable(name.as_slice(), out)?;
    print_fragment(fragment, out)?;
    print_token(b"=", out)?;
    print_body(is, out)
}

/// Appends the declaration of a function: its name, its parameters and what it gives.
fn print_signature(
    name: &Name,
    params: &[Typ],
    gives: &Typ,
    out: &mut Vec<u8>,
) -> Result<(), NoMemory>
    ensures { OnOk result
        (out.new.items ≡ out.old.items ++ signature name.now params.now gives.now) }
{
    print_function(name.as_slice(), out)?;
    print_params(params, out)?;
    print_token(b":", out)?;
    print_typ(gives, out)
}

/// Appends a clause of a function: its arguments, what it gives and its premises.
fn print_clause(
    name: &Name,
    args: &[Exp],
    gives: &Exp,
    premises: &[Prem],
    out: &mut Vec<u8>,
) -> Result<(), NoMemory>
    ensures { OnOk result (out.new.items
        ≡ out.old.items ++ clause name.now args.now gives.now premises.now) }
{
    print_function(name.as_slice(), out)?;
    print_arguments(args, out)?;
    print_token(b"=", out)?;
    print_exp(gives, out)?;
    print_conditions(premises, out)
}

/// Appends what a definition is.
pub fn print_def_node(node: &DefNode, out: &mut Vec<u8>) -> Result<(), NoMemory>
    ensures { OnOk result (out.new.items ≡ out.old.items ++ def_node node.now) }
{
    match node {
        DefNode::Syntax {
            name,
            fragment,
            body,
        } => print_syntax(name, fragment, body, out),
        DefNode::Var { name, typ } => {
            print_variable(name.as_slice(), out)?;
            print_token(b":", out)?;
            print_typ(typ, out)
        }
        DefNode::Relation { name, notation } => {
            print_label(name.as_slice(), out)?;
            print_token(b":", out)?;
            print_notation(notation, out)
        }
        DefNode::Rule {
            relation,
            name,
            conclusion,
            premises,
        } => print_rule(relation, name, conclusion, premises.as_slice(), out),
        DefNode::Fun {
            name,
            params,
            result,
        } => print_signature(name, params.as_slice(), result, out),
        DefNode::Clause {
            name,
            args,
            result,
            premises,
        } => print_clause(name, args.as_slice(), result, premises.as_slice(), out),
    }
}
