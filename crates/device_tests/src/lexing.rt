//! Tests of the tokens of BSDL texts.
use bsdl_lexer::LexFault::{self, Byte, OpenString, TooMany};
use bsdl_lexer::TOKEN_LIMIT;
use device_bench::Source::{Bytes, Filled};
use device_bench::{CaseFault, Source, lexings_hold, tokens_hold};

static FORMS: [(Source, &str); 1] = [(
    Bytes(b"A_1 10 10.5 1e3 1.5E+3 1.5e-3 10. 2e 2e+\n\"a;-- b\" -\t- 1 --- no\nx--y"),
    "Word A_1 1
Number 10 1
Number 10.5 1
Number 1e3 1
Number 1.5E+3 1
Number 1.5e-3 1
Number 10 1
Mark . 1
Number 2 1
Word e 1
Number 2 1
Word e 1
Mark + 1
Text \"a;-- b\" 2
Mark - 2
Mark - 2
Number 1 2
Word x 3
",
)];

#[test]
fn every_form_of_token(rt: HostRuntime) -> Result<(), CaseFault> {
    tokens_hold(rt.alloc(), &FORMS)
}

// All blanks, the first and the last visible ASCII character (`!` and `~`), and bytes just below and above these, which the lexer refuses.
static LETTERS: [(Source, Result<(), LexFault>, usize); 9] = [
    (Bytes(b"a\x0bb\x0cc\td e\rf\ng"), Ok(()), 7),
    (Bytes(b"\x08"), Err(Byte(1)), 0),
    (Bytes(b"\x0e"), Err(Byte(1)), 0),
    (Bytes(b"\x1f"), Err(Byte(1)), 0),
    (Bytes(b"!~"), Ok(()), 2),
    (Bytes(b"\x7f"), Err(Byte(1)), 0),
    // An underscore or a digit may be in a word, but not at its beginning.
    (Bytes(b"a_1 _a 1a"), Ok(()), 5),
    // A string may contain any byte except a quote, a line feed and a carriage return. A comment may contain any byte except a line feed.
    (Bytes(b"\"\x00\x0b\xff\""), Ok(()), 1),
    (Bytes(b"-- \x00\xff\"\r\na"), Ok(()), 1),
];

#[test]
fn blanks_and_marks(rt: HostRuntime) -> Result<(), CaseFault> {
    lexings_hold(rt.alloc(), &LETTERS)
}

static BAD_PLACES: [(Source, Result<(), LexFault>, usize); 9] = [
    (Bytes(b""), Ok(()), 0),
    (Bytes(b" \t\r\n-- \x07\n--"), Ok(()), 0),
    (Bytes(b"a\nb\nc\n\x07d"), Err(Byte(4)), 3),
    (Bytes(b"\x00"), Err(Byte(1)), 0),
    (Bytes(b"a;\xff"), Err(Byte(1)), 2),
    (Bytes(b"a\n\"b"), Err(OpenString(2)), 1),
    (Bytes(b"a\n\"b\n\""), Err(OpenString(2)), 1),
    (Bytes(b"\"b\r\""), Err(OpenString(1)), 0),
    // A carriage return does not end a line.
    (Bytes(b"a\r\x07"), Err(Byte(1)), 1),
];

#[test]
fn bad_places(rt: HostRuntime) -> Result<(), CaseFault> {
    lexings_hold(rt.alloc(), &BAD_PLACES)
}

static MOST: [(Source, Result<(), LexFault>, usize); 3] = [
    (
        Filled {
            lines: 0,
            head: "",
            byte: b',',
            count: TOKEN_LIMIT,
            tail: "",
        },
        Ok(()),
        TOKEN_LIMIT,
    ),
    (
        Filled {
            lines: 0,
            head: "",
            byte: b',',
            count: TOKEN_LIMIT,
            tail: ",",
        },
        Err(TooMany(1)),
        TOKEN_LIMIT,
    ),
    (
        Filled {
            lines: 0,
            head: "",
            byte: b',',
            count: TOKEN_LIMIT,
            tail: "\u{7}",
        },
        Err(Byte(1)),
        TOKEN_LIMIT,
    ),
];

#[test]
fn the_most_tokens(rt: HostRuntime) -> Result<(), CaseFault> {
    lexings_hold(rt.alloc(), &MOST)
}

static BEHIND: [(Source, Result<(), LexFault>, usize); 2] = [
    (
        Filled {
            lines: 0,
            head: "",
            byte: b',',
            count: TOKEN_LIMIT,
            tail: "\n\"",
        },
        Err(OpenString(2)),
        TOKEN_LIMIT,
    ),
    // Blanks and a comment after the last token that the limit allows.
    (
        Filled {
            lines: 0,
            head: "",
            byte: b',',
            count: TOKEN_LIMIT,
            tail: " \n-- more",
        },
        Ok(()),
        TOKEN_LIMIT,
    ),
];

#[test]
fn a_text_after_the_most_tokens(rt: HostRuntime) -> Result<(), CaseFault> {
    lexings_hold(rt.alloc(), &BEHIND)
}
