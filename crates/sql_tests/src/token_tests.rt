//! Tokens, their places, and bytes that are none.

use crate::refusals::{refused, repeated};
use sql_tokens::{BadToken, ParseKind, ScriptBad, TokenKind, script_bad, tokens};
use std::alloc::{AllocError, Global};
use std::test::Fail;

const BAD: ParseKind = ParseKind::BadChar;

const OPEN: ParseKind = ParseKind::OpenText;

/// Bytes that are no tokens, and the line and the column at which they begin to be none.
const NO_TOKENS: [(&[u8], u32, u32, ParseKind); 17] = [
    (
        b"CREATE TABLE t (a TEXT);\nINSERT INTO t VALUES ('x);",
        2,
        23,
        OPEN,
    ),
    (b"!", 1, 1, BAD),
    (b"a <! b", 1, 4, BAD),
    (b"@", 1, 1, BAD),
    (b" @q", 1, 2, BAD),
    (b"@ab", 1, 1, BAD),
    (b"@a_", 1, 1, BAD),
    (b"@a1", 1, 1, BAD),
    (b"@A", 1, 1, BAD),
    (b"1 \r?", 1, 4, BAD),
    (b"\n\xc3\xa9", 2, 1, BAD),
    (b"'a' -- \xff ! '\n\t\x00", 2, 2, BAD),
    (b"'", 1, 1, OPEN),
    (b"a'x''", 1, 2, OPEN),
    (b"'\xff", 1, 1, OPEN),
    (b"\n\n  '\xff'", 3, 3, ParseKind::NotUtf8),
    (b"'\xc3''\xa9'", 1, 1, ParseKind::NotUtf8),
];

#[test]
fn bytes_that_are_no_token_are_refused_where_they_begin(rt: HostRuntime) -> Result<(), Fail> {
    for (bytes, line, column, kind) in NO_TOKENS {
        let bad = ScriptBad { line, column, kind };
        assert_eq!(rt; refused(tokens(rt.alloc(), bytes))?, Some(bad), "{bytes:?}");
    }
    Ok(())
}

const LONG_NAME: Option<ParseKind> = Some(ParseKind::LongName);

const LONG_TEXT: Option<ParseKind> = Some(ParseKind::LongText);

/// What repeats so many times behind a front and before a back, and what is wrong with it.
const LENGTHS: [((&[u8], &[u8], &[u8]), usize, Option<ParseKind>); 13] = [
    ((b"", b"a", b""), 64, None),
    ((b"", b"A", b""), 65, LONG_NAME),
    ((b"select", b"_", b"+"), 58, None),
    ((b"select", b"_", b"+"), 59, LONG_NAME),
    ((b"'", b"a", b"'"), 4096, None),
    ((b"'", b"a", b"'"), 4097, LONG_TEXT),
    ((b"'", b"''", b"'"), 4096, None),
    ((b"'", b"''", b"'"), 4097, LONG_TEXT),
    ((b"'", b"\xc3\xa9", b"'"), 2048, None),
    ((b"'", b"\xc3\xa9", b"'"), 2049, LONG_TEXT),
    ((b"'", b"a", b"\xff'"), 4097, Some(ParseKind::NotUtf8)),
    ((b"'\xff", b"a", b""), 4097, Some(ParseKind::OpenText)),
    ((b"", b"0", b"1"), 4097, None),
];

#[test]
fn names_and_texts_have_so_many_bytes_and_no_more(rt: HostRuntime) -> Result<(), Fail> {
    for (parts, count, wanted) in LENGTHS {
        let bytes = repeated(rt.alloc(), parts, count)?;
        let (line, column) = (1, 1);
        let wanted = wanted.map(|kind| ScriptBad { line, column, kind });
        let found = refused(tokens(rt.alloc(), bytes.as_slice()))?;
        assert_eq!(rt; found, wanted, "{count} of {parts:?}");
    }
    Ok(())
}

fn kind_text(alloc: Global, kind: &TokenKind) -> Result<String, AllocError> {
    match kind {
        TokenKind::Name(name) => format!(in alloc; "name {}", name.as_str()),
        TokenKind::Keyword(keyword) => format!(in alloc; "keyword {}", keyword.as_str()),
        TokenKind::Number(number) => format!(in alloc; "number {number}"),
        TokenKind::Text(text) => format!(in alloc; "text {}", text.as_str()),
        TokenKind::Session(session) => format!(in alloc; "session {session}"),
        TokenKind::Sign(sign) => format!(in alloc; "sign {}", sign.as_str()),
    }
}

/// The tokens in words, each with its two places, and a bar behind each.
fn told(alloc: Global, bytes: &[u8]) -> Result<String, Fail> {
    let mut all = String::new(alloc);
    for token in &tokens(alloc, bytes)? {
        let kind = kind_text(alloc, &token.kind)?;
        write!(all, "{} {} {kind}|", token.start, token.end)?;
    }
    Ok(all)
}

const TOLD: [(&[u8], &str); 18] = [
    (b"", ""),
    (b" \t\r\n-- a ' \xff ! 1", ""),
    (
        b"SeLeCt selects _",
        "0 6 keyword select|7 14 name selects|15 16 name _|",
    ),
    (b"1a", "0 1 number 1|1 2 name a|"),
    (b"@a@p;", "0 2 session 1|2 4 session 16|4 5 sign ;|"),
    (
        b"a<>b!=c",
        "0 1 name a|1 3 sign <>|3 4 name b|4 6 sign <>|6 7 name c|",
    ),
    (b"<=<>=>", "0 2 sign <=|2 4 sign <>|4 5 sign =|5 6 sign >|"),
    (b"< > =-", "0 1 sign <|2 3 sign >|4 5 sign =|5 6 sign -|"),
    (
        b"(){},.*+",
        "0 1 sign (|1 2 sign )|2 3 sign {|3 4 sign }|4 5 sign ,|5 6 sign .|6 7 sign *|7 8 sign +|",
    ),
    (
        b"- --\n-1--2\n3",
        "0 1 sign -|5 6 sign -|6 7 number 1|11 12 number 3|",
    ),
    (b"'' 'it''s' ''''", "0 2 text |3 10 text it's|11 15 text '|"),
    (b"'--'", "0 4 text --|"),
    (b"9223372036854775807", "0 19 number 9223372036854775807|"),
    (b"9223372036854775808", "0 19 number 9223372036854775808|"),
    (b"9223372036854775809", "0 19 number 9223372036854775809|"),
    (b"9223372036854775810", "0 19 number 9223372036854775809|"),
    (b"18446744073709551617", "0 20 number 9223372036854775809|"),
    (b"00000000000000000000012", "0 23 number 12|"),
];

#[test]
fn tokens_are_told_with_their_places(rt: HostRuntime) -> Result<(), Fail> {
    for (bytes, wanted) in TOLD {
        assert_eq!(rt; told(rt.alloc(), bytes)?.as_str(), wanted);
    }
    Ok(())
}

#[test]
fn the_place_behind_the_last_byte_has_a_line_too(rt: HostRuntime) {
    let kind = ParseKind::Syntax;
    let cases: [(&[u8], u32, u32); 4] = [
        (b"", 1, 1),
        (b"ab", 1, 3),
        (b"ab\n", 2, 1),
        (b"\n\n a", 3, 3),
    ];
    for (bytes, line, column) in cases {
        let place = bytes.len() as u64;
        let bad = script_bad(bytes, BadToken { place, kind });
        assert_eq!(rt; bad, ScriptBad { line, column, kind }, "{bytes:?}");
    }
}
