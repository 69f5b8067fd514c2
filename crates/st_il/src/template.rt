//! Templates: notations with their types as holes, and the parts of their tags.

ghost use Rattle.std.specs.Prelude.{◌≡◌, ◌≢◌, ◌↔◌, IsTrue, nat_le, map};
ghost use Rattle.st_num.specs.Signs.{left_of, right_of};
ghost use Rattle.st_il.specs.Height.{highest};
ghost use Rattle.st_il.specs.Notation.{role_of};
ghost use Rattle.st_il.specs.Reading.{sign_level, level_of};
ghost use Rattle.st_il.specs.Template.{template_height};

use st_num::{Boxed, Grouping, Mark, Name, Row};

/// A notation with its types as holes. A sequence has two elements or more, or none where it is
/// the absent left side of `|-`.
#[derive(Drop)]
pub enum Template {
    Atom(Name),
    Hole,
    Seq(Row<Template>),
    Infix(Boxed<Template>, Mark, Boxed<Template>),
    Bracket(Mark, Boxed<Template>),
}

/// A part of a tag. The parts stand with one space between them.
#[derive(Drop)]
pub enum TagPart {
    Hole,
    Atom(Name),
    Sign(Mark),
}

/// The brackets round a part of a notation, of which the opening one stands behind a backquote.
#[derive(Clone, Copy, Debug, PartialEq, Eq)]
pub enum Enclosure {
    Parens,
    Brackets,
    Braces,
}

/// What a sign is for in a notation: it divides two sides, at a level, or it opens or closes an
/// enclosure.
#[derive(Clone, Copy, Debug)]
pub enum Role {
    Divides(u8),
    Opens(Enclosure),
    Closes(Enclosure),
    Other,
}

/// What the sign is for in a notation.
pub fn role_of(sign: Mark) -> Role
    ensures { result ≡ role_of sign }
{
    match sign {
        Mark::TickParen => Role::Opens(Enclosure::Parens),
        Mark::TickBracket => Role::Opens(Enclosure::Brackets),
        Mark::TickBrace => Role::Opens(Enclosure::Braces),
        Mark::CloseParen => Role::Closes(Enclosure::Parens),
        Mark::CloseBracket => Role::Closes(Enclosure::Brackets),
        Mark::CloseBrace => Role::Closes(Enclosure::Braces),
        _ if sign.is_notation() => Role::Divides(sign.level()),
        _ => Role::Other,
    }
}

/// Whether the sign stands in notations.
pub fn has_role(sign: Mark) -> bool
    ensures { IsTrue result ↔ (role_of sign ≢ Role.Other) }
{
    !matches!(role_of(sign), Role::Other)
}

/// The level at which a sign divides, or 0.
pub fn sign_level(sign: Mark) -> u8
    ensures { result ≡ sign_level sign }
{
    match role_of(sign) {
        Role::Divides(level) => level,
        _ => 0,
    }
}

/// How tightly the parts of a template hold together.
pub fn level_of(template: &Template) -> u8
    ensures { result ≡ level_of template.now }
{
    match template {
        Template::Atom(_) | Template::Hole | Template::Bracket(_, _) => 15,
        Template::Seq(_) => 14,
        Template::Infix(_, sign, _) => sign_level(*sign),
    }
}

/// The level that is due at the left of a sign of this level.
pub fn left_of(level: u8) -> u16
    ensures { result ≡ left_of level }
{
    u16::from(level) + u16::from(Grouping::at(level).left_gap())
}

/// The level that is due at the right of a sign of this level.
pub fn right_of(level: u8) -> u16
    ensures { result ≡ right_of level }
{
    u16::from(level) + u16::from(Grouping::at(level).right_gap())
}

/// Whether the template is at most so high.
#[cycle(height)]
pub fn is_within(template: &Template, limit: u32) -> bool
    ensures { result ≡ nat_le (template_height template.now) limit }
{
    if limit == 0 {
        return false;
    }
    match template {
        Template::Atom(_) | Template::Hole => true,
        Template::Seq(parts) => are_within(parts.as_slice(), limit - 1),
        Template::Infix(left, _, right) => {
            is_within(left.get(), limit - 1) && is_within(right.get(), limit - 1)
        }
        Template::Bracket(_, inside) => is_within(inside.get(), limit - 1),
    }
}

/// Whether no template is higher than this.
#[cycle(height)]
fn are_within(parts: &[Template], limit: u32) -> bool
    ensures { result ≡ nat_le (highest (map template_height parts.now)) limit }
{
    for part in parts {
        if !is_within(part, limit) {
            return false;
        }
    }
    true
}
