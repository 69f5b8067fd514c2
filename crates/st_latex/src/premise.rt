//! How premises are printed.

ghost use Rattle.std.specs.Prelude.{◌≡◌, ◌++◌, OnOk, map, codes};
ghost use Rattle.st_el.specs.SourceText.{separated};
ghost use Rattle.st_latex.specs.Tokens.{token};
ghost use Rattle.st_latex.specs.Premises.{latex_prem, latex_prem_node};
ghost use Rattle.st_latex.specs.LatexText.{conditions};

use crate::expression::{print_count, print_exp};
use crate::token::{print_label, print_token};
use st_el::{Prem, PremNode};
use st_num::NoMemory;

/// Appends a premise without its `--`.
#[cycle(print_prem)]
fn print_prem(prem: &Prem, out: &mut Vec<u8>) -> Result<(), NoMemory>
    ensures { OnOk result (out.new.items ≡ out.old.items ++ latex_prem prem.now) }
{
    print_prem_node(&prem.node, out)
}

/// Appends what a premise is.
#[cycle(print_prem)]
fn print_prem_node(node: &PremNode, out: &mut Vec<u8>) -> Result<(), NoMemory>
    ensures { OnOk result (out.new.items ≡ out.old.items ++ latex_prem_node node.now) }
{
    match node {
        PremNode::If(exp) => {
            print_token(b"\\text{if}", out)?;
            print_exp(exp, out)
        }
        PremNode::Goal(name, exp) => {
            print_label(name.as_slice(), out)?;
            print_token(b":", out)?;
            print_exp(exp, out)
        }
        PremNode::Otherwise => print_token(b"\\text{otherwise}", out),
        PremNode::Each(prem, count) => {
            print_token(b"(", out)?;
            print_prem(prem.get(), out)?;
            print_token(b")", out)?;
            print_count(count, out)
        }
    }
}

/// Appends the premises of a rule, without their `--`.
pub fn print_premises(premises: &[Prem], out: &mut Vec<u8>) -> Result<(), NoMemory>
    ensures { OnOk result (out.new.items ≡ out.old.items
        ++ separated (token (codes "\\quad")) (map latex_prem premises.now)) }
{
    let Some((first, others)) = premises.split_first() else {
        return Ok(());
    };
    print_prem(first, out)?;
    for prem in others {
        print_token(b"\\quad", out)?;
        print_prem(prem, out)?;
    }
    Ok(())
}

/// Appends the premises of a clause, each behind its `--`.
pub fn print_conditions(premises: &[Prem], out: &mut Vec<u8>) -> Result<(), NoMemory>
    ensures { OnOk result (out.new.items ≡ out.old.items ++ conditions premises.now) }
{
    for prem in premises {
        print_token(b"--", out)?;
        print_prem(prem, out)?;
    }
    Ok(())
}
