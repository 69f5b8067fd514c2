//! Tokens of small files, with places counted by hand.

use crate::told::{Call, expect_all};
use st_num::{Mark, TokenKind};
use st_scan::scan;
use std::test::Fail;

const LIGHT: &str = "syntax color = | RED | GREEN | AMBER
relation T: color ~> color
rule T/a: RED ~> GREEN
rule T/b: GREEN ~> AMBER
";

const TOKENS_OF_LIGHT: &str = "1:1+ word syntax
1:8 low color
1:14 sign =
1:16 sign |
1:18 up RED
1:22 sign |
1:24 up GREEN
1:30 sign |
1:32 up AMBER
2:1 word relation
2:10 up T
2:11+ sign :
2:13 low color
2:19 sign ~>
2:22 low color
3:1 word rule
3:6 up T
3:7+ sign /
3:8+ low a
3:9+ sign :
3:11 up RED
3:15 sign ~>
3:18 up GREEN
4:1 word rule
4:6 up T
4:7+ sign /
4:8+ low b
4:9+ sign :
4:11 up GREEN
4:17 sign ~>
4:20 up AMBER
";

#[test]
fn light_has_its_tokens(rt: HostRuntime) -> Result<(), Fail> {
    expect_all(&rt, rt.alloc(), Call::Scan, &[(LIGHT, TOKENS_OF_LIGHT)])
}

const LONGEST: [(&str, &str); 15] = [
    ("", ""),
    (" \t\r\n;; end", ""),
    ("=++=/=", "1:1+ sign =++\n1:4+ sign =/=\n"),
    (
        "...a..b.c",
        "1:1+ sign ...\n1:4+ low a\n1:5+ sign ..\n1:7+ low b\n1:8+ dot c\n",
    ),
    (
        "a;;b\nc;d",
        "1:1+ low a\n2:1 low c\n2:2+ sign ;\n2:3+ low d\n",
    ),
    ("a(;(;;)b;)c", "1:1+ low a\n1:11 low c\n"),
    (
        "$f(.if$if$(",
        "1:1+ fun f\n1:3+ sign (\n1:4+ dot if\n1:7+ fun if\n1:10+ sign $(\n",
    ),
    ("0x12a", "1:1+ number 298\n"),
    ("0xg12a", "1:1+ number 0\n1:2+ low xg12a\n"),
    (
        "Ab A_1' aB ifs",
        "1:1+ mix Ab\n1:4 up A_1'\n1:9 low aB\n1:12 low ifs\n",
    ),
    ("\"é\\n\\t\\\\\\\"\" x", "1:1+ text é\n\t\\\"\n1:13 low x\n"),
    (
        "340282366920938463463374607431768211455",
        "1:1+ number 340282366920938463463374607431768211455\n",
    ),
    (
        "0xFFFFFFFFffffffffFFFFFFFFffffffff",
        "1:1+ number 340282366920938463463374607431768211455\n",
    ),
    ("0012", "1:1+ number 12\n"),
    ("0x0aF", "1:1+ number 175\n"),
];

#[test]
fn tokens_are_the_longest(rt: HostRuntime) -> Result<(), Fail> {
    expect_all(&rt, rt.alloc(), Call::Scan, &LONGEST)
}

const SIGNS: &[u8] = b"|- -| ~>* ~> : <: :> ~~ := ; -> .. ... ++ =++ = =/= < > <= >= <- ~ \
    /\\ \\/ => <=> + - * / \\ ^ ? | , -- ( ) [ ] { } $( `( `[ `{";

/// What `SIGNS` holds, in order.
const MARKS: [Mark; 47] = [
    Mark::Turnstile,
    Mark::ReverseTurnstile,
    Mark::SquigglyArrowStar,
    Mark::SquigglyArrow,
    Mark::Colon,
    Mark::Subtype,
    Mark::Supertype,
    Mark::Approximately,
    Mark::Define,
    Mark::Semicolon,
    Mark::Arrow,
    Mark::DotDot,
    Mark::Ellipsis,
    Mark::PlusPlus,
    Mark::ExtendBy,
    Mark::Equal,
    Mark::NotEqual,
    Mark::Less,
    Mark::Greater,
    Mark::LessOrEqual,
    Mark::GreaterOrEqual,
    Mark::ElementOf,
    Mark::Tilde,
    Mark::And,
    Mark::Or,
    Mark::Implies,
    Mark::Equivalent,
    Mark::Plus,
    Mark::Minus,
    Mark::Star,
    Mark::Slash,
    Mark::Backslash,
    Mark::Caret,
    Mark::Question,
    Mark::Bar,
    Mark::Comma,
    Mark::DashDash,
    Mark::OpenParen,
    Mark::CloseParen,
    Mark::OpenBracket,
    Mark::CloseBracket,
    Mark::OpenBrace,
    Mark::CloseBrace,
    Mark::OpenArith,
    Mark::TickParen,
    Mark::TickBracket,
    Mark::TickBrace,
];

#[test]
fn each_sign_is_a_token(rt: HostRuntime) -> Result<(), Fail> {
    let tokens = scan(rt.alloc(), 7, SIGNS)?;
    assert!(rt; tokens.len() == MARKS.len());
    for (token, wanted) in tokens.iter().zip(&MARKS) {
        let same = matches!(&token.kind, TokenKind::Sign(mark) if *mark == *wanted);
        assert!(rt; same, "{wanted:?}");
    }
    Ok(())
}
