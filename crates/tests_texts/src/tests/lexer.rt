//! Items and tokens, at places that are easily misread.
use chr_lex::fault::{ItemError, Kind};
use chr_lex::{Token, Word, has_bad_byte, next_item, plain_text, tokens};
use std::alloc::Global;
use std::test::*;

/// An item: its line, its bytes, whether it has its end point, and whether a byte is bad.
type ItemRow<'r> = (u32, &'r [u8], bool, bool);

/// Texts with their items.
static ITEMS: [(&[u8], &[ItemRow]); 20] = [
    (b"", &[]),
    (b" \t\r\n% nothing\n/* at\nall */", &[]),
    (b"p.", &[(1, b"p", true, false)]),
    (
        b"p.\r\nq.\n",
        &[(1, b"p", true, false), (2, b"q", true, false)],
    ),
    (
        b"p.% end\nq.%",
        &[(1, b"p", true, false), (2, b"q", true, false)],
    ),
    (
        b"\n\n  p\n.\n.",
        &[(3, b"p\n", true, false), (5, b"", true, false)],
    ),
    (
        b"/* a\n b */ p(1)./* c */ .",
        &[(2, b"p(1).\x01 ", true, false)],
    ),
    (
        b"a.b. c",
        &[(1, b"a.b", true, false), (1, b"c", false, false)],
    ),
    (
        b"p.\n\xff.",
        &[(1, b"p", true, false), (2, b"\x00", true, true)],
    ),
    (b"p \x01.", &[(1, b"p \x00", true, true)]),
    (b"p \x02.", &[(1, b"p \x00", true, true)]),
    (
        b"p /* \xff \x00 */.% \x7f\n",
        &[(1, b"p \x01", true, false)],
    ),
    (b"p\x7e\x7f.", &[(1, b"p\x7e\x00", true, true)]),
    (
        b"p. /*/ q. */ r.",
        &[(1, b"p", true, false), (1, b"r", true, false)],
    ),
    (
        b"p.\n/*/ q.",
        &[(1, b"p", true, false), (2, b"\x02", false, false)],
    ),
    (
        b"p. /**/q. /***/r.",
        &[
            (1, b"p", true, false),
            (1, b"q", true, false),
            (1, b"r", true, false),
        ],
    ),
    (
        b"p.\n /* open\n q. \xff",
        &[(1, b"p", true, false), (2, b"\x02", false, false)],
    ),
    (b"p\n /* open \xff", &[(1, b"p\n \x02", false, false)]),
    (b"p \xff /* open", &[(1, b"p \x00 \x02", false, true)]),
    (
        b"p % /*\n. q /* % \n */.",
        &[(1, b"p  \n", true, false), (2, b"q \x01\n", true, false)],
    ),
];

/// Whether a text without comments has these items, and no others.
fn are_items(plain: &[u8], expected: &[ItemRow]) -> bool {
    let mut line = 1;
    let mut rest = plain;
    for row in expected {
        if line > 1000 || rest.len() >= 1000 {
            return false;
        }
        let Some((item, next_line, after)) = next_item(line, rest) else {
            return false;
        };
        if (item.line, item.text, item.ended, has_bad_byte(item.text)) != *row {
            return false;
        }
        line = next_line;
        rest = after;
    }
    line <= 1000 && rest.len() < 1000 && next_item(line, rest).is_none()
}

/// The same of a text with its comments.
fn has_items(alloc: Global, text: &[u8], expected: &[ItemRow]) -> bool {
    match plain_text(alloc, text) {
        Ok(plain) => are_items(&plain, expected),
        Err(_) => false,
    }
}

#[test]
fn comments_and_items(rt: HostRuntime) {
    for (i, (text, expected)) in ITEMS.iter().enumerate() {
        assert!(rt; has_items(rt.alloc(), text, expected), "row {i}");
    }
}

/// Items with their tokens: the kind and the bytes.
static TOKENS: [(&[u8], &[(&str, &[u8])]); 18] = [
    (b" \r\n", &[]),
    (
        b"aB_1 X_y _ _z",
        &[
            ("name", b"aB_1"),
            ("variable", b"X_y"),
            ("variable", b"_"),
            ("variable", b"_z"),
        ],
    ),
    (
        b"is mod rem isx Mod",
        &[
            ("mark", b"is"),
            ("mark", b"mod"),
            ("mark", b"rem"),
            ("name", b"isx"),
            ("variable", b"Mod"),
        ],
    ),
    (
        b"true @ fail",
        &[("name", b"true"), ("mark", b"@"), ("name", b"fail")],
    ),
    (
        b"007 12a",
        &[("number", b"007"), ("number", b"12"), ("name", b"a")],
    ),
    (
        b"-1 -1",
        &[("below zero", b"1"), ("mark", b"-"), ("number", b"1")],
    ),
    (b"a-1", &[("name", b"a"), ("mark", b"-"), ("number", b"1")]),
    (
        b"X-1",
        &[("variable", b"X"), ("mark", b"-"), ("number", b"1")],
    ),
    (b")-1", &[("mark", b")"), ("mark", b"-"), ("number", b"1")]),
    (b"(-1", &[("mark", b"("), ("below zero", b"1")]),
    (b"is-1", &[("mark", b"is"), ("below zero", b"1")]),
    (
        b"--1 - 1",
        &[
            ("mark", b"-"),
            ("below zero", b"1"),
            ("mark", b"-"),
            ("number", b"1"),
        ],
    ),
    (b"-\x011", &[("mark", b"-"), ("number", b"1")]),
    (
        b"<=>==>=:==\\=\\==",
        &[
            ("mark", b"<=>"),
            ("mark", b"==>"),
            ("mark", b"=:="),
            ("mark", b"=\\="),
            ("mark", b"\\=="),
        ],
    ),
    (
        b":-===<>=//",
        &[
            ("mark", b":-"),
            ("mark", b"=="),
            ("mark", b"=<"),
            ("mark", b">="),
            ("mark", b"//"),
        ],
    ),
    (
        b"<>(),|@\\/+-*",
        &[
            ("mark", b"<"),
            ("mark", b">"),
            ("mark", b"("),
            ("mark", b")"),
            ("mark", b","),
            ("mark", b"|"),
            ("mark", b"@"),
            ("mark", b"\\"),
            ("mark", b"/"),
            ("mark", b"+"),
            ("mark", b"-"),
            ("mark", b"*"),
        ],
    ),
    (b"====>", &[("mark", b"=="), ("mark", b"==>")]),
    (b"/\x01", &[("mark", b"/")]),
];

/// Items that are no tokens.
static NO_TOKENS: [&[u8]; 9] = [
    b"=", b"\"", b"'", b"[", b"a.b", b"<= ", b"a ! b", b"\x02", b"=>",
];

fn kind_of<'a>(token: &Token<'a>) -> (&'static str, &'a [u8]) {
    match token {
        Token::Word(Word::Name(bytes)) => ("name", bytes),
        Token::Word(Word::Variable(bytes)) => ("variable", bytes),
        Token::Word(
            Word::Number {
                negative: false,
                digits,
            },
        ) => ("number", digits),
        Token::Word(
            Word::Number {
                negative: true,
                digits,
            },
        ) => ("below zero", digits),
        Token::Mark(mark) => ("mark", mark.spelling()),
    }
}

/// Whether these are tokens of these kinds and bytes.
fn are_tokens(read: &[Token], expected: &[(&str, &[u8])]) -> bool {
    let mut rest = read;
    for row in expected {
        let [first, after @ ..] = rest else {
            return false;
        };
        if kind_of(first) != *row {
            return false;
        }
        rest = after;
    }
    rest.is_empty()
}

/// Whether an item has these tokens.
fn has_tokens(alloc: Global, text: &[u8], expected: &[(&str, &[u8])]) -> bool {
    match tokens(alloc, text) {
        Ok(read) => are_tokens(&read, expected),
        Err(_) => false,
    }
}

/// Whether an item is no tokens.
fn has_none(alloc: Global, text: &[u8]) -> bool {
    match tokens(alloc, text) {
        Ok(_) => false,
        Err(error) => matches!(error, ItemError::Fault(Kind::Syntax)),
    }
}

#[test]
fn tokens_of_an_item(rt: HostRuntime) {
    for (i, (text, expected)) in TOKENS.iter().enumerate() {
        assert!(rt; has_tokens(rt.alloc(), text, expected), "row {i}");
    }
    for (i, text) in NO_TOKENS.iter().enumerate() {
        assert!(rt; has_none(rt.alloc(), text), "item {i}");
    }
}
