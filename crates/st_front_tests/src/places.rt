//! Where the types of aliases begin.

use crate::told::{Call, expect_all, tell_place};
use st_el::{Body, Def, DefNode, Typ, TypNode};
use st_num::{NoMemory, Row};
use std::test::Fail;

/// Appends the place of a type, and behind it that of what is iterated.
fn tell_typ(typ: &Typ, out: &mut Vec<u8>) -> Result<(), NoMemory> {
    tell_place(typ.at, out)?;
    match &typ.node {
        TypNode::Star(inner) | TypNode::Quest(inner) => {
            out.push(b' ')?;
            tell_place(inner.get().at, out)
        }
        _ => Ok(()),
    }
}

/// Appends the places of the types of aliases.
pub(crate) fn tell_places(defs: &Row<Def>, out: &mut Vec<u8>) -> Result<(), NoMemory> {
    for def in defs.as_slice() {
        if let DefNode::Syntax {
            body: Body::Alias(typ),
            ..
        } = &def.node
        {
            tell_typ(typ, out)?;
        }
    }
    Ok(())
}

/// A type begins with the parentheses before it. One in lone parentheses is itself at its own first
/// token.
const PARENTHESES: [(&str, &str); 2] = [
    ("syntax a = (nat)", "1:13"),
    ("syntax a = (nat)*", "1:12 1:13"),
];

#[test]
fn types_begin_with_their_parentheses(rt: HostRuntime) -> Result<(), Fail> {
    expect_all(&rt, rt.alloc(), Call::Places, &PARENTHESES)
}
