//! Tokens of small texts.
use psy_base::limits::FILE_BYTES;
use psy_token::laws::one_reading;
use psy_token::{LexFault, lex};
use psy_tree::{Kind, Sign, Token, Word};
use std::alloc::Global;
use std::test::Fail;

/// What a token is, with a name as its bytes.
#[derive(Clone, Copy)]
enum Is {
    Word(Word),
    Name(&'static [u8]),
    Number(u32),
    Sign(Sign),
}

fn matches_kind(kind: &Kind, want: Is) -> bool {
    match (kind, want) {
        (Kind::Word(word), Is::Word(wanted)) => *word == wanted,
        (Kind::Name(name), Is::Name(wanted)) => name.bytes() == wanted,
        (Kind::Number(number), Is::Number(wanted)) => *number == wanted,
        (Kind::Sign(sign), Is::Sign(wanted)) => *sign == wanted,
        _ => false,
    }
}

fn are(tokens: &[Token], want: &[(u32, Is)]) -> bool {
    if tokens.len() != want.len() {
        return false;
    }
    for (token, wanted) in tokens.iter().zip(want.iter()) {
        if token.place != wanted.0 || !matches_kind(&token.kind, wanted.1) {
            return false;
        }
    }
    true
}

fn has_tokens(alloc: Global, text: &[u8], want: &[(u32, Is)]) -> bool {
    if text.len() > FILE_BYTES {
        return false;
    }
    match lex(alloc, text) {
        Ok(tokens) => are(tokens.as_slice(), want),
        Err(_) => false,
    }
}

/// The number and the place of the fault; (0, 0) where there is none.
fn fault_of(alloc: Global, text: &[u8]) -> (u32, u32) {
    if text.len() > FILE_BYTES {
        return (0, 0);
    }
    match lex(alloc, text) {
        Err(LexFault::Lexical { kind, place }) => (kind.number(), place),
        Err(LexFault::Memory) | Ok(_) => (0, 0),
    }
}

#[test]
fn a_program_has_its_tokens(rt: HostRuntime) -> Result<(), Fail> {
    one_reading();
    let tokens = lex(
        rt.alloc(),
        b"tick 10;\n// slow\nclock slow_1 = 2*tick /* twice */ ;",
    )?;
    let want = [
        (0, Is::Word(Word::Tick)),
        (5, Is::Number(10)),
        (7, Is::Sign(Sign::Semicolon)),
        (17, Is::Word(Word::Clock)),
        (23, Is::Name(b"slow_1")),
        (30, Is::Sign(Sign::Assign)),
        (32, Is::Number(2)),
        (33, Is::Sign(Sign::Star)),
        (34, Is::Word(Word::Tick)),
        (51, Is::Sign(Sign::Semicolon)),
    ];
    assert!(rt; are(tokens.as_slice(), want.as_slice()));
    Ok(())
}

const PIECES: [(&[u8], &[(u32, Is)]); 22] = [
    (b"", &[]),
    (b" \t\r\n", &[]),
    (b"// to the end", &[]),
    (b"//a\n;", &[(4, Is::Sign(Sign::Semicolon))]),
    (b"//a\r\n7", &[(5, Is::Number(7))]),
    (b"/**/;", &[(4, Is::Sign(Sign::Semicolon))]),
    (b"/*/**/;", &[(6, Is::Sign(Sign::Semicolon))]),
    (b"/***/*", &[(5, Is::Sign(Sign::Star))]),
    (b"/*//*/;", &[(6, Is::Sign(Sign::Semicolon))]),
    (b"//*/\n;", &[(5, Is::Sign(Sign::Semicolon))]),
    (
        b"a/ /b",
        &[
            (0, Is::Name(b"a")),
            (1, Is::Sign(Sign::Slash)),
            (3, Is::Sign(Sign::Slash)),
            (4, Is::Name(b"b")),
        ],
    ),
    (b"a/**/b", &[(0, Is::Name(b"a")), (5, Is::Name(b"b"))]),
    (b"0", &[(0, Is::Number(0))]),
    (b"0 7", &[(0, Is::Number(0)), (2, Is::Number(7))]),
    (b"2147483647", &[(0, Is::Number(2_147_483_647))]),
    (b"a1", &[(0, Is::Name(b"a1"))]),
    (
        b"_ Tick tick_",
        &[
            (0, Is::Name(b"_")),
            (2, Is::Name(b"Tick")),
            (7, Is::Name(b"tick_")),
        ],
    ),
    (
        b"int int9 int8",
        &[
            (0, Is::Word(Word::Int)),
            (4, Is::Name(b"int9")),
            (9, Is::Word(Word::Int8)),
        ],
    ),
    (
        b"abcdefghijklmnopqrstuvwxyz_01234",
        &[(0, Is::Name(b"abcdefghijklmnopqrstuvwxyz_01234"))],
    ),
    (
        b"a<b",
        &[
            (0, Is::Name(b"a")),
            (1, Is::Sign(Sign::Less)),
            (2, Is::Name(b"b")),
        ],
    ),
    (
        b"-2147483647",
        &[(0, Is::Sign(Sign::Minus)), (1, Is::Number(2_147_483_647))],
    ),
    (b"tick\n", &[(0, Is::Word(Word::Tick))]),
];

#[test]
fn pieces_are_the_longest(rt: HostRuntime) {
    for (i, (text, want)) in PIECES.iter().enumerate() {
        assert!(rt; has_tokens(rt.alloc(), text, want), "case {i}");
    }
}

const SIGNS: [(&[u8], &[(u32, Is)]); 9] = [
    (
        b";{}()[],",
        &[
            (0, Is::Sign(Sign::Semicolon)),
            (1, Is::Sign(Sign::OpenBrace)),
            (2, Is::Sign(Sign::CloseBrace)),
            (3, Is::Sign(Sign::OpenRound)),
            (4, Is::Sign(Sign::CloseRound)),
            (5, Is::Sign(Sign::OpenSquare)),
            (6, Is::Sign(Sign::CloseSquare)),
            (7, Is::Sign(Sign::Comma)),
        ],
    ),
    (
        b"+-*%^~/",
        &[
            (0, Is::Sign(Sign::Plus)),
            (1, Is::Sign(Sign::Minus)),
            (2, Is::Sign(Sign::Star)),
            (3, Is::Sign(Sign::Percent)),
            (4, Is::Sign(Sign::Caret)),
            (5, Is::Sign(Sign::Tilde)),
            (6, Is::Sign(Sign::Slash)),
        ],
    ),
    (
        b"<<=",
        &[(0, Is::Sign(Sign::ShiftLeft)), (2, Is::Sign(Sign::Assign))],
    ),
    (
        b">>=",
        &[(0, Is::Sign(Sign::ShiftRight)), (2, Is::Sign(Sign::Assign))],
    ),
    (
        b"<=<",
        &[(0, Is::Sign(Sign::LessEqual)), (2, Is::Sign(Sign::Less))],
    ),
    (
        b">=>",
        &[
            (0, Is::Sign(Sign::GreaterEqual)),
            (2, Is::Sign(Sign::Greater)),
        ],
    ),
    (
        b"===",
        &[(0, Is::Sign(Sign::Equal)), (2, Is::Sign(Sign::Assign))],
    ),
    (
        b"!==!",
        &[
            (0, Is::Sign(Sign::NotEqual)),
            (2, Is::Sign(Sign::Assign)),
            (3, Is::Sign(Sign::Bang)),
        ],
    ),
    (
        b"&&&|||",
        &[
            (0, Is::Sign(Sign::AmpAmp)),
            (2, Is::Sign(Sign::Amp)),
            (3, Is::Sign(Sign::BarBar)),
            (5, Is::Sign(Sign::Bar)),
        ],
    ),
];

#[test]
fn signs_are_the_longest(rt: HostRuntime) {
    for (i, (text, want)) in SIGNS.iter().enumerate() {
        assert!(rt; has_tokens(rt.alloc(), text, want), "case {i}");
    }
}

const WORDS: [(&[u8], Word); 30] = [
    (b"advance", Word::Advance),
    (b"after", Word::After),
    (b"agent", Word::Agent),
    (b"body", Word::Body),
    (b"budget", Word::Budget),
    (b"clock", Word::Clock),
    (b"depth", Word::Depth),
    (b"else", Word::Else),
    (b"if", Word::If),
    (b"input", Word::Input),
    (b"int", Word::Int),
    (b"int8", Word::Int8),
    (b"int16", Word::Int16),
    (b"int32", Word::Int32),
    (b"int64", Word::Int64),
    (b"keep", Word::Keep),
    (b"max", Word::Max),
    (b"of", Word::Of),
    (b"on", Word::On),
    (b"past", Word::Past),
    (b"processor", Word::Processor),
    (b"ready", Word::Ready),
    (b"return", Word::Return),
    (b"send", Word::Send),
    (b"stream", Word::Stream),
    (b"take", Word::Take),
    (b"temporal", Word::Temporal),
    (b"tick", Word::Tick),
    (b"to", Word::To),
    (b"while", Word::While),
];

#[test]
fn reserved_words_are_no_names(rt: HostRuntime) {
    for (i, (text, word)) in WORDS.iter().enumerate() {
        assert!(rt;
            has_tokens(rt.alloc(), text, [(0, Is::Word(*word))].as_slice()),
            "case {i}"
        );
    }
}

const FAULTS: [(&[u8], (u32, u32)); 30] = [
    (b"tick 10; $", (1, 9)),
    (b"tick 2147483648;", (3, 5)),
    (b"/* ", (4, 0)),
    // at the first and at the last byte of a text
    (b"$", (1, 0)),
    (b"$ tick", (1, 0)),
    (b"abcdefghijklmnopqrstuvwxyz_012345", (2, 0)),
    (b"; abcdefghijklmnopqrstuvwxyz_012345", (2, 2)),
    (b"4294967296", (3, 0)),
    (b"a 9999999999999999999999999999", (3, 2)),
    (b"/*", (4, 0)),
    (b"a; /*", (4, 3)),
    // two faults in one text
    (b"$ /*", (1, 0)),
    (b"/* $", (4, 0)),
    (b"2147483648 $", (3, 0)),
    (b"1a 2147483648", (1, 1)),
    (b"2147483648a", (3, 0)),
    // behind numbers
    (b"0x1", (1, 1)),
    (b"007", (1, 1)),
    (b"1a", (1, 1)),
    (b"12_", (1, 2)),
    (b"00", (1, 1)),
    (b"1abcdefghijklmnopqrstuvwxyz_012345", (1, 1)),
    (b"2147483647a", (1, 10)),
    // comments
    (b"/*/", (4, 0)),
    (b"/**", (4, 0)),
    (b"/* a\n* /", (4, 0)),
    (b"// $\n $", (1, 6)),
    // bytes that begin nothing
    (b"a\x80", (1, 1)),
    (b"\xff", (1, 0)),
    (b"a.b", (1, 1)),
];

#[test]
fn the_first_fault_is_answered(rt: HostRuntime) {
    for (i, (text, want)) in FAULTS.iter().enumerate() {
        assert_eq!(rt; fault_of(rt.alloc(), text), *want, "case {i}");
    }
}

#[test]
fn the_longest_text_is_read(rt: HostRuntime) -> Result<(), Fail> {
    let text = vec![in rt.alloc(); b';'; FILE_BYTES]?;
    let tokens = lex(rt.alloc(), text.as_slice())?;
    assert_eq!(rt; tokens.len(), FILE_BYTES);
    Ok(())
}
