//! Texts with all their tokens. A token is written as its spelling (`name` for an identifier),
//! where it starts and ends, and its column.

use layout_lexer::{Kind, LexFault, Span, Spans, Text, Token, Tokens, spelling, tokens};
use std::alloc::{AllocError, Global};
use std::process::Abort;
use std::test::Fail;

fn word(kind: Kind) -> &'static str {
    match kind {
        Kind::Open => "{",
        Kind::Next => ";",
        Kind::Close => "}",
        Kind::Identifier => "name",
        _ => spelling(kind),
    }
}

fn shown_tokens(alloc: Global, tokens: &[Token]) -> Result<String, AllocError> {
    let mut shown = String::new(alloc);
    for token in tokens {
        if !shown.is_empty() {
            shown.push_str(", ")?;
        }
        let one = format!(in alloc;
            "{} {} {} {}",
            word(token.kind),
            token.start,
            token.end,
            token.column
        )?;
        shown.push_str(&one)?;
    }
    Ok(shown)
}

fn shown(alloc: Global, bytes: &[u8]) -> Result<String, AllocError> {
    match tokens(alloc, bytes) {
        Ok(tokens) => shown_tokens(alloc, tokens.as_slice()),
        Err(fault) => format!(in alloc; "{fault:?}"),
    }
}

fn all_are(rt: &impl Abort, alloc: Global, rows: &[(&str, &str)]) -> Result<(), Fail> {
    for (text, wanted) in rows {
        let found = shown(alloc, text.as_bytes())?;
        assert_eq!(rt; found.as_str(), *wanted, "of {text:?}");
    }
    Ok(())
}

static SIGNS: &[(&str, &str)] = &[
    ("", ""),
    (
        "( ) [ ] , : = @ * < > | ? \\ - -> /\\ \\/ .1 .2 0 1",
        "( 0 1 1, ) 2 3 3, [ 4 5 5, ] 6 7 7, , 8 9 9, : 10 11 11, = 12 13 13, @ 14 15 15, \
         * 16 17 17, < 18 19 19, > 20 21 21, | 22 23 23, ? 24 25 25, \\ 26 27 27, - 28 29 29, \
         -> 30 32 31, /\\ 33 35 34, \\/ 36 38 37, .1 39 41 40, .2 42 44 43, 0 45 46 46, \
         1 47 48 48",
    ),
    (
        "([:@<|",
        "( 0 1 1, [ 1 2 2, : 2 3 3, @ 3 4 4, < 4 5 5, | 5 6 6",
    ),
    (
        "?>*=,])",
        "? 0 1 1, > 1 2 2, * 2 3 3, = 3 4 4, , 4 5 5, ] 5 6 6, ) 6 7 7",
    ),
    ("->", "-> 0 2 1"),
    ("- >", "- 0 1 1, > 2 3 3"),
    ("->>", "-> 0 2 1, > 2 3 3"),
    ("<->", "< 0 1 1, -> 1 3 2"),
    ("-->", ""),
    ("->-", "-> 0 2 1, - 2 3 3"),
    ("->--", "-> 0 2 1"),
    ("-0", "- 0 1 1, 0 1 2 2"),
    ("-.1", "- 0 1 1, .1 1 3 2"),
    ("-\\/", "- 0 1 1, \\/ 1 3 2"),
    ("-/\\", "- 0 1 1, /\\ 1 3 2"),
    ("\\x", "\\ 0 1 1, name 1 2 2"),
    ("\\->", "\\ 0 1 1, -> 1 3 2"),
    ("\\/\\", "\\/ 0 2 1, \\ 2 3 3"),
    ("\\/\\/", "\\/ 0 2 1, \\/ 2 4 3"),
    ("\\\\/", "\\ 0 1 1, \\/ 1 3 2"),
    ("/\\\\", "/\\ 0 2 1, \\ 2 3 3"),
    ("/\\\\/", "/\\ 0 2 1, \\/ 2 4 3"),
    ("/\\/\\", "/\\ 0 2 1, /\\ 2 4 3"),
    ("/\\/", "BadByte(2)"),
    ("/", "BadByte(0)"),
    (".1.2", ".1 0 2 1, .2 2 4 3"),
    (".1.1", ".1 0 2 1, .1 2 4 3"),
    (".10", ".1 0 2 1, 0 2 3 3"),
    (".21", ".2 0 2 1, 1 2 3 3"),
    (".12", "BadByte(2)"),
    (".3", "BadByte(0)"),
    ("x.", "BadByte(1)"),
    ("x.1", "name 0 1 1, .1 1 3 2"),
    ("01", "0 0 1 1, 1 1 2 2"),
    ("1x", "1 0 1 1, name 1 2 2"),
    ("2", "BadByte(0)"),
    ("<1>", "< 0 1 1, 1 1 2 2, > 2 3 3"),
    (
        "a-b->c",
        "name 0 1 1, - 1 2 2, name 2 3 3, -> 3 5 4, name 5 6 6",
    ),
];

#[test]
fn signs_are_the_longest_that_come(rt: HostRuntime) -> Result<(), Fail> {
    all_are(&rt, rt.alloc(), SIGNS)
}

static NAMES: &[(&str, &str)] = &[
    ("x1", "name 0 2 1"),
    (
        "x' x'' _ _'x_1",
        "name 0 2 1, name 3 6 4, name 7 8 8, name 9 14 10",
    ),
    ("'x", "BadByte(0)"),
    (
        "module import PathP comp fill transport Glue glue unglue U",
        "module 0 6 1, import 7 13 8, PathP 14 19 15, comp 20 24 21, fill 25 29 26, \
         transport 30 39 31, Glue 40 44 41, glue 45 49 46, unglue 50 56 51, U 57 58 58",
    ),
    (
        "data hdata split mutual undefined opaque transparent transparent_all",
        "data 0 4 1, hdata 5 10 6, split 11 16 12, mutual 17 23 18, undefined 24 33 25, \
         opaque 34 40 35, transparent 41 52 42, transparent_all 53 68 54",
    ),
    (
        "lets wherever in' module1 Up",
        "name 0 4 1, name 5 13 6, name 14 17 15, name 18 25 19, name 26 28 27",
    ),
    (
        "transparent_al _U Data pathp",
        "name 0 14 1, name 15 17 16, name 18 22 19, name 23 28 24",
    ),
    ("(U)", "( 0 1 1, U 1 2 2, ) 2 3 3"),
    ("comp-fill", "comp 0 4 1, - 4 5 5, fill 5 9 6"),
    ("é = λ", "name 0 2 1, = 3 4 3, name 5 7 5"),
    ("ℕ→", "BadByte(3)"),
    ("ℕ->ℕ", "name 0 3 1, -> 3 5 2, name 5 8 4"),
    ("𝔸 b", "name 0 4 1, name 5 6 3"),
    ("日本 語", "name 0 6 1, name 7 10 4"),
    ("e\u{301} y", "name 0 3 1, name 4 5 4"),
    ("\u{301}", "BadByte(0)"),
    ("x·y", "name 0 4 1"),
    ("·", "BadByte(0)"),
    ("x₁", "BadByte(1)"),
    ("\u{feff}x", "BadByte(0)"),
    ("a\u{a0}b", "BadByte(1)"),
    ("a $", "BadByte(2)"),
];

#[test]
fn names_are_of_any_script(rt: HostRuntime) -> Result<(), Fail> {
    all_are(&rt, rt.alloc(), NAMES)
}

static GAPS: &[(&str, &str)] = &[
    (" \t\r\n", ""),
    ("\tx", "name 1 2 9"),
    ("a\tb", "name 0 1 1, name 2 3 9"),
    ("a\t\tb", "name 0 1 1, name 3 4 17"),
    ("abcdefg\tb", "name 0 7 1, name 8 9 9"),
    ("abcdefgh\tb", "name 0 8 1, name 9 10 17"),
    ("é\tb", "name 0 2 1, name 3 4 9"),
    ("a\r\nb", "name 0 1 1, name 3 4 1"),
    ("a\rb", "name 0 1 1, name 2 3 3"),
    ("a\u{b}b", "BadByte(1)"),
    ("--", ""),
    ("a --", "name 0 1 1"),
    ("a--b", "name 0 1 1"),
    ("a -- b\nc", "name 0 1 1, name 7 8 1"),
    ("-- $ }\n", ""),
    ("-- {-\na", "name 6 7 1"),
    ("-- a\rb", ""),
    ("{--}", ""),
    ("{--}a", "name 4 5 5"),
    ("{-é-}a", "name 6 7 6"),
    ("a{-b-}c", "name 0 1 1, name 6 7 7"),
    ("a{-b\n-}c", "name 0 1 1, name 7 8 3"),
    ("{- --} a", "name 7 8 8"),
    ("{- {- -} a", "name 9 10 10"),
    ("{-} -} a", "name 7 8 8"),
    ("{-}", "OpenComment(0)"),
    ("a {-", "OpenComment(2)"),
    ("{- -", "OpenComment(0)"),
    ("é {- -- -\n}", "OpenComment(3)"),
    ("{- -}-}", "BadByte(6)"),
    ("{", "BadByte(0)"),
    ("a }", "BadByte(2)"),
    ("a ; {-", "BadByte(2)"),
    ("{- ;", "OpenComment(0)"),
    ("{ -}", "BadByte(0)"),
    ("{{- -}", "BadByte(0)"),
];

#[test]
fn space_and_comments_are_passed(rt: HostRuntime) -> Result<(), Fail> {
    all_are(&rt, rt.alloc(), GAPS)
}

static BLOCKS: &[(&str, &str)] = &[
    ("where", "where 0 5 1, { 5 5 6, } 5 5 6"),
    ("where\n", "where 0 5 1, { 6 6 1, } 6 6 1"),
    (
        "where where",
        "where 0 5 1, { 6 6 7, where 6 11 7, { 11 11 12, } 11 11 12, } 11 11 12",
    ),
    ("let\nx", "let 0 3 1, { 4 4 1, name 4 5 1, } 5 5 2"),
    ("a\nb", "name 0 1 1, name 2 3 1"),
    (
        "module M where\na = b\nc = d",
        "module 0 6 1, name 7 8 8, where 9 14 10, { 15 15 1, name 15 16 1, = 17 18 3, \
         name 19 20 5, ; 21 21 1, name 21 22 1, = 23 24 3, name 25 26 5, } 26 26 6",
    ),
    (
        "m where\n a where\n  b where\n   c\nd",
        "name 0 1 1, where 2 7 3, { 9 9 2, name 9 10 2, where 11 16 4, { 19 19 3, name 19 20 3, \
         where 21 26 5, { 30 30 4, name 30 31 4, } 32 32 1, } 32 32 1, } 32 32 1, name 32 33 1",
    ),
    (
        "m where\na where",
        "name 0 1 1, where 2 7 3, { 8 8 1, name 8 9 1, where 10 15 3, { 15 15 8, } 15 15 8, \
         } 15 15 8",
    ),
    (
        "f where\n  g where\n  h",
        "name 0 1 1, where 2 7 3, { 10 10 3, name 10 11 3, where 12 17 5, { 20 20 3, } 20 20 3, \
         ; 20 20 3, name 20 21 3, } 21 21 4",
    ),
    (
        "f where\n  g where\n h",
        "name 0 1 1, where 2 7 3, { 10 10 3, name 10 11 3, where 12 17 5, { 19 19 2, } 19 19 2, \
         } 19 19 2, name 19 20 2",
    ),
    (
        "f where\n    g\n  h",
        "name 0 1 1, where 2 7 3, { 12 12 5, name 12 13 5, } 16 16 3, name 16 17 3",
    ),
    (
        "f where\n g\n   h",
        "name 0 1 1, where 2 7 3, { 9 9 2, name 9 10 2, name 14 15 4, } 15 15 5",
    ),
    (
        "a where b in c",
        "name 0 1 1, where 2 7 3, { 8 8 9, name 8 9 9, in 10 12 11, name 13 14 14, } 14 14 15",
    ),
    (
        "m where\n\ta\n        b",
        "name 0 1 1, where 2 7 3, { 9 9 9, name 9 10 9, ; 19 19 9, name 19 20 9, } 20 20 10",
    ),
    (
        "m where\r\na\r\nb",
        "name 0 1 1, where 2 7 3, { 9 9 1, name 9 10 1, ; 12 12 1, name 12 13 1, } 13 13 2",
    ),
    (
        "m where\n-- c\n{- d -} a\n        b",
        "name 0 1 1, where 2 7 3, { 21 21 9, name 21 22 9, ; 31 31 9, name 31 32 9, } 32 32 10",
    ),
    (
        "m where\n    a {-\n-}  b",
        "name 0 1 1, where 2 7 3, { 12 12 5, name 12 13 5, ; 21 21 5, name 21 22 5, } 22 22 6",
    ),
    (
        "let x in y",
        "let 0 3 1, { 4 4 5, name 4 5 5, } 6 6 7, in 6 8 7, name 9 10 10",
    ),
    (
        "let x\n    y\nin z",
        "let 0 3 1, { 4 4 5, name 4 5 5, ; 10 10 5, name 10 11 5, } 12 12 1, in 12 14 1, \
         name 15 16 4",
    ),
    (
        "let in x",
        "let 0 3 1, { 4 4 5, } 4 4 5, in 4 6 5, name 7 8 8",
    ),
    (
        "let let in in x",
        "let 0 3 1, { 4 4 5, let 4 7 5, { 8 8 9, } 8 8 9, in 8 10 9, } 11 11 12, in 11 13 12, \
         name 14 15 15",
    ),
    (
        "let a where in b",
        "let 0 3 1, { 4 4 5, name 4 5 5, where 6 11 7, { 12 12 13, } 12 12 13, } 12 12 13, \
         in 12 14 13, name 15 16 16",
    ),
    (
        "let a where b in c",
        "let 0 3 1, { 4 4 5, name 4 5 5, where 6 11 7, { 12 12 13, name 12 13 13, } 14 14 15, \
         } 14 14 15, in 14 16 15, name 17 18 18",
    ),
    (
        "let a = let b in c in d",
        "let 0 3 1, { 4 4 5, name 4 5 5, = 6 7 7, let 8 11 9, { 12 12 13, name 12 13 13, \
         } 14 14 15, in 14 16 15, name 17 18 18, } 19 19 20, in 19 21 20, name 22 23 23",
    ),
    (
        "let a\n    b where\n      c\n in d",
        "let 0 3 1, { 4 4 5, name 4 5 5, ; 10 10 5, name 10 11 5, where 12 17 7, { 24 24 7, \
         name 24 25 7, } 27 27 2, } 27 27 2, in 27 29 2, name 30 31 5",
    ),
    (
        "(let x = y) z",
        "( 0 1 1, let 1 4 2, { 5 5 6, name 5 6 6, = 7 8 8, name 9 10 10, ) 10 11 11, \
         name 12 13 13, } 13 13 14",
    ),
    (
        "let é = ℕ\n    λ",
        "let 0 3 1, { 4 4 5, name 4 6 5, = 7 8 7, name 9 12 9, ; 17 17 5, name 17 19 5, } 19 19 6",
    ),
];

#[test]
fn blocks_have_marks(rt: HostRuntime) -> Result<(), Fail> {
    all_are(&rt, rt.alloc(), BLOCKS)
}

fn assert_no_text(rt: &impl Abort, alloc: Global, bytes: &[u8], at: u32) {
    let fault = tokens(alloc, bytes).err();
    assert_eq!(rt; fault, Some(LexFault::NotUtf8(at)), "of {bytes:?}");
}

fn assert_too_long(rt: &impl Abort, alloc: Global, bytes: &[u8]) {
    assert_eq!(rt; tokens(alloc, bytes).err(), Some(LexFault::TooLong));
}

#[test]
fn bytes_that_are_no_text_are_refused(rt: HostRuntime) -> Result<(), Fail> {
    let rows: [(&[u8], u32); 7] = [
        (b"\xff", 0),
        (b"a\xc3", 1),
        (b"a\xc0\x80", 1),
        (b"x = \xe2\x84", 4),
        (b"{-\xed\xa0\x80", 2),
        (b"$ \xff", 2),
        (b"\xf4\x90\x80\x80", 0),
    ];
    for (bytes, at) in rows {
        assert_no_text(&rt, rt.alloc(), bytes, at);
    }
    let long = vec![in rt.alloc(); 0xff_u8; 16_777_217]?;
    assert_too_long(&rt, rt.alloc(), &long);
    Ok(())
}

fn assert_spans_hold(rt: &impl Abort, alloc: Global, span: Span) -> Result<(), Fail> {
    let mut spans = Spans::new(alloc);
    spans.push(span)?;
    assert_eq!(rt; spans.as_slice(), [span].as_slice());
    Ok(())
}

fn assert_tokens_hold(rt: &impl Abort, alloc: Global, token: Token) -> Result<(), Fail> {
    let mut list = Tokens::new(alloc);
    list.push(token)?;
    assert_eq!(rt; list.as_slice(), [token].as_slice());
    Ok(())
}

#[test]
fn lists_and_texts_hold_what_they_are_given(rt: HostRuntime) -> Result<(), Fail> {
    assert_spans_hold(&rt, rt.alloc(), Span { start: 3, end: 5 })?;
    let token = Token {
        kind: Kind::Star,
        start: 1,
        end: 2,
        column: 2,
    };
    assert_tokens_hold(&rt, rt.alloc(), token)?;
    let text = Text::new(rt.alloc(), "ℕ")?;
    assert_eq!(rt; text.as_str(), "ℕ");
    Ok(())
}

fn assert_slice(rt: &impl Abort, bytes: &[u8], start: u32, end: u32, wanted: &[u8]) {
    let span = Span { start, end };
    assert_eq!(rt; span.slice(bytes), wanted, "of {span:?}");
}

#[test]
fn spans_have_bytes(rt: HostRuntime) {
    let rows: [(u32, u32, &[u8]); 6] = [
        (0, 3, b"let"),
        (1, 2, b"e"),
        (2, 2, b""),
        (1, 9, b"et"),
        (7, 9, b""),
        (2, 1, b""),
    ];
    for (start, end, wanted) in rows {
        assert_slice(&rt, b"let", start, end, wanted);
    }
}
