//! The tokens of texts, and the printed faults.
use crate::showing::{display, says};
use std::process::Abort;
use tp_common::memory::Memory;
use tp_syntax::lexer::lex;
use tp_syntax::script_fault::ScriptFault;
use tp_syntax::token::{Placed, Symbol};
use tp_syntax::word::{Word, word_of};

const WORDS: &str = "module type record of port message component in out inout function testcase \
    runs on system var create connect map mtc self start stop halt clear send receive trigger \
    check to from alt else for setverdict none pass inconc fail error all done true false integer \
    boolean charstring complement pattern infinity value sender";

const SHOWN_WORDS: &str = "1 Word(Module); 1 Word(Type); 1 Word(Record); 1 Word(Of); 1 Word(Port); \
    1 Word(Message); 1 Word(Component); 1 Word(In); 1 Word(Out); 1 Word(Inout); \
    1 Word(Function); 1 Word(Testcase); 1 Word(Runs); 1 Word(On); 1 Word(System); \
    1 Word(Var); 1 Word(Create); 1 Word(Connect); 1 Word(Map); 1 Word(Mtc); \
    1 Word(SelfWord); 1 Word(Start); 1 Word(Stop); 1 Word(Halt); 1 Word(Clear); \
    1 Word(Send); 1 Word(Receive); 1 Word(Trigger); 1 Word(Check); 1 Word(To); \
    1 Word(From); 1 Word(Alt); 1 Word(Else); 1 Word(For); 1 Word(Setverdict); \
    1 Word(NoneWord); 1 Word(Pass); 1 Word(Inconc); 1 Word(Fail); 1 Word(Error); \
    1 Word(All); 1 Word(Done); 1 Word(True); 1 Word(False); 1 Word(Integer); \
    1 Word(Boolean); 1 Word(Charstring); 1 Word(Complement); 1 Word(Pattern); \
    1 Word(Infinity); 1 Word(Value); 1 Word(Sender); ";

const LETTERS_64: &str = "abcdefghijklmnopqrstuvwxyzABCDEFGHIJKLMNOPQRSTUVWXYZ0123456789_M";

fn shown_tokens<R: AllocGlobal + Abort>(rt: &R, tokens: &[Placed<'_>]) -> String {
    let mut out = String::new(rt.alloc());
    for Placed { token, line } in tokens {
        write!(out, "{line} {token:?}; ").expect(rt, "memory");
    }
    out
}

fn shown<R: AllocGlobal + Abort>(rt: &R, text: &[u8]) -> String {
    match lex(rt.alloc(), text) {
        Ok(tokens) => shown_tokens(rt, tokens.as_slice()),
        Err(fault) => display(rt, fault),
    }
}

fn check<R: AllocGlobal + Abort>(rt: &R, table: &[(&[u8], &str)]) {
    for (place, (text, want)) in table.iter().enumerate() {
        says(rt, place, shown(rt, *text), *want);
    }
}

#[test]
fn tokens_of_words_numbers_and_texts(rt: HostRuntime) {
    check(
        &rt,
        &[
            (b"", ""),
            (
                b"a b_1\nModule M9_",
                "1 Name(\"a\"); 1 Name(\"b_1\"); 2 Name(\"Module\"); 2 Name(\"M9_\"); ",
            ),
            (b"modules mod", "1 Name(\"modules\"); 1 Name(\"mod\"); "),
            (
                b"module M {",
                "1 Word(Module); 1 Name(\"M\"); 1 Symbol(LeftBrace); ",
            ),
            (
                b"0 7 07 10a",
                "1 Number(0); 1 Number(7); 1 Number(0); 1 Number(7); 1 Number(10); 1 Name(\"a\"); ",
            ),
            (
                b"\"\" \"\"\"\" \"a\"\"b\" \"\\\"",
                "1 Text([]); 1 Text([34]); 1 Text([97, 34, 98]); 1 Text([92]); ",
            ),
            (b"\" ~\"", "1 Text([32, 126]); "),
        ],
    );
}

#[test]
fn tokens_of_symbols(rt: HostRuntime) {
    check(
        &rt,
        &[
            (
                b"{}()[]",
                "1 Symbol(LeftBrace); 1 Symbol(RightBrace); 1 Symbol(LeftParen); 1 Symbol(RightParen); \
                 1 Symbol(LeftBracket); 1 Symbol(RightBracket); ",
            ),
            (
                b",;:.?*-<+",
                "1 Symbol(Comma); 1 Symbol(Semicolon); 1 Symbol(Colon); 1 Symbol(Dot); \
                 1 Symbol(Question); 1 Symbol(Star); 1 Symbol(Minus); 1 Symbol(Less); \
                 1 Symbol(Plus); ",
            ),
            (
                b"..:=->",
                "1 Symbol(DotDot); 1 Symbol(Assign); 1 Symbol(Arrow); ",
            ),
            (
                b"... .: -- ->",
                "1 Symbol(DotDot); 1 Symbol(Dot); 1 Symbol(Dot); 1 Symbol(Colon); 1 Symbol(Minus); \
                 1 Symbol(Minus); 1 Symbol(Arrow); ",
            ),
            (
                b"p.send(integer:-5)",
                "1 Name(\"p\"); 1 Symbol(Dot); 1 Word(Send); 1 Symbol(LeftParen); 1 Word(Integer); \
                 1 Symbol(Colon); 1 Symbol(Minus); 1 Number(5); 1 Symbol(RightParen); ",
            ),
        ],
    );
}

#[test]
fn each_reserved_word(rt: HostRuntime) {
    says(&rt, 0, shown(&rt, WORDS.as_bytes()), SHOWN_WORDS);
}

#[test]
fn words_and_symbols_are_told_apart(rt: HostRuntime) {
    assert_eq!(rt; word_of("sender"), Some(Word::Sender));
    assert_eq!(rt; word_of("senders"), None);
    assert!(rt; Word::To.is(Word::To));
    assert!(rt; !Word::To.is(Word::From));
    assert!(rt; Symbol::Dot.is(Symbol::Dot));
    assert!(rt; !Symbol::Dot.is(Symbol::DotDot));
}

#[test]
fn white_space_and_comments(rt: HostRuntime) {
    check(
        &rt,
        &[
            (b"\t\x0b\x0c\r a\r\n\nb", "1 Name(\"a\"); 3 Name(\"b\"); "),
            (b"a//b\rc\nd", "1 Name(\"a\"); 2 Name(\"d\"); "),
            (b"a//", "1 Name(\"a\"); "),
            (b"// \xff\x7f\"\nb// /*", "2 Name(\"b\"); "),
            (
                b"/**/a/***/b/*/*/c",
                "1 Name(\"a\"); 1 Name(\"b\"); 1 Name(\"c\"); ",
            ),
            (b"a/* // \n\"\n\xff */b", "1 Name(\"a\"); 3 Name(\"b\"); "),
            (b"a/**/\n*/", "refused 10 Syntax line 2"),
        ],
    );
}

#[test]
fn refusals(rt: HostRuntime) {
    check(
        &rt,
        &[
            (b"/*/", "refused 10 Syntax line 1"),
            (b"a\n/* \n *", "refused 10 Syntax line 2"),
            (b"/", "refused 10 Syntax line 1"),
            (b"a /b", "refused 10 Syntax line 1"),
            (b"a\n\n\"b", "refused 10 Syntax line 3"),
            (b"\"a\"\"", "refused 10 Syntax line 1"),
            (b"\n\"a\nb\"", "refused 10 Syntax line 2"),
            (b"\"\x1f\"", "refused 10 Syntax line 1"),
            (b"\"\x7f\"", "refused 10 Syntax line 1"),
            (b"\"\xc3\xa4\"", "refused 10 Syntax line 1"),
            (b"\x7f", "refused 10 Syntax line 1"),
            (b"a\xc3\xa4", "refused 10 Syntax line 1"),
            (b"\n\n\0", "refused 10 Syntax line 3"),
            (b"_a", "refused 10 Syntax line 1"),
            (b":==", "refused 10 Syntax line 1"),
            (b"a > b", "refused 10 Syntax line 1"),
            (b"// a\n#\n\"\n/*", "refused 10 Syntax line 2"),
            (b"9223372036854775808", "1 Number(9223372036854775808); "),
            (b"9223372036854775809", "refused 15 Limit line 1"),
            (b"\n92233720368547758080", "refused 15 Limit line 2"),
            (b"18446744073709551616", "refused 15 Limit line 1"),
            (b"9223372036854775809 $", "refused 15 Limit line 1"),
            (b"$ 9223372036854775809", "refused 10 Syntax line 1"),
        ],
    );
}

#[test]
fn names_at_their_limit(rt: HostRuntime) {
    let want = format!(in rt.alloc(); "1 Name(\"{LETTERS_64}\"); ").expect(&rt, "memory");
    says(&rt, 0, shown(&rt, LETTERS_64.as_bytes()), want.as_str());
    let longer = format!(in rt.alloc(); "\n{LETTERS_64}a").expect(&rt, "memory");
    says(
        &rt,
        1,
        shown(&rt, longer.as_bytes()),
        "refused 15 Limit line 2",
    );
}

const LENGTHS: usize = 101;

type Repeated = (&'static str, &'static str, &'static str);

fn repeated<R: AllocGlobal + Abort>(rt: &R, text: &Repeated, times: usize) -> String {
    let (before, piece, behind) = *text;
    let mut out = String::from_str(rt.alloc(), before).expect(rt, "memory");
    for _ in 0..times {
        out.push_str(piece).expect(rt, "memory");
    }
    out.push_str(behind).expect(rt, "memory");
    out
}

fn answers<R: AllocGlobal + Abort>(rt: &R, text: &Repeated, want: &Repeated, times: usize) {
    let text = repeated(rt, text, times);
    let want = repeated(rt, want, times);
    says(rt, times, shown(rt, text.as_bytes()), want.as_str());
}

fn answers_each<R: AllocGlobal + Abort>(
    rt: &R,
    (first, last): (usize, usize),
    text: Repeated,
    want: Repeated,
) {
    for times in first..last {
        answers(rt, &text, &want, times);
    }
}

const EACH: (usize, usize) = (0, LENGTHS);

const SYNTAX: Repeated = ("refused 10 Syntax line 1", "", "");

const LIMIT: Repeated = ("refused 15 Limit line 1", "", "");

#[test]
fn symbols_of_each_number(rt: HostRuntime) {
    answers_each(&rt, EACH, ("", "+", ""), ("", "1 Symbol(Plus); ", ""));
    answers_each(
        &rt,
        EACH,
        ("", ". ", "."),
        ("1 Symbol(Dot); ", "1 Symbol(Dot); ", ""),
    );
}

#[test]
fn white_space_of_each_length(rt: HostRuntime) {
    answers_each(&rt, EACH, ("", " ", ""), ("", "", ""));
    answers_each(&rt, EACH, ("/*", "/", "*/a"), ("1 Name(\"a\"); ", "", ""));
    for length in 0..LENGTHS {
        let lines = repeated(&rt, &("", "\n", "a"), length);
        let want = format!(in rt.alloc(); "{} Name(\"a\"); ", length + 1).expect(&rt, "memory");
        says(&rt, length, shown(&rt, lines.as_bytes()), want.as_str());
    }
}

#[test]
fn names_of_each_length(rt: HostRuntime) {
    answers_each(&rt, (0, 64), ("a", "_", ""), ("1 Name(\"a", "_", "\"); "));
    answers_each(&rt, (64, LENGTHS), ("a", "_", ""), LIMIT);
}

#[test]
fn charstrings_of_each_length(rt: HostRuntime) {
    answers_each(
        &rt,
        EACH,
        ("\"~", "!", "\""),
        ("1 Text([126", ", 33", "]); "),
    );
    answers_each(
        &rt,
        EACH,
        ("\"~", "\"\"", "\""),
        ("1 Text([126", ", 34", "]); "),
    );
    answers_each(&rt, EACH, ("\"", " ", ""), SYNTAX);
}

#[test]
fn numbers_of_each_length(rt: HostRuntime) {
    answers_each(&rt, (0, 19), ("1", "0", ""), ("1 Number(1", "0", "); "));
    answers_each(&rt, (19, LENGTHS), ("1", "0", ""), LIMIT);
}

fn count<R: AllocGlobal>(rt: &R, text: &[u8]) -> Result<usize, ScriptFault> {
    match lex(rt.alloc(), text) {
        Ok(tokens) => Ok(tokens.len()),
        Err(fault) => Err(fault),
    }
}

#[test]
fn texts_at_their_limit(rt: HostRuntime) {
    let mut text = (vec![in rt.alloc(); b' '; 1_048_576]).expect(&rt, "memory");
    assert!(rt; count(&rt, text.as_slice()) == Ok(0));
    text.push(b' ').expect(&rt, "memory");
    assert!(rt; count(&rt, text.as_slice()) == Err(ScriptFault::limit(0)));
    text[0] = b'#';
    assert!(rt; count(&rt, text.as_slice()) == Err(ScriptFault::limit(0)));
}

#[test]
fn refused_memory(rt: HostRuntime) {
    let text = b"p.send(charstring:\"a\"\"b\") to q; x := \"0123456789\" // end";
    match count(&rt, text.as_slice()) {
        Ok(tokens) => assert_eq!(rt; tokens, 14),
        Err(fault) => assert!(rt; fault == ScriptFault::Memory(Memory)),
    }
}

#[test]
fn prints_faults(rt: HostRuntime) {
    says(
        &rt,
        0,
        display(&rt, ScriptFault::syntax(7)),
        "refused 10 Syntax line 7",
    );
    says(
        &rt,
        1,
        display(&rt, ScriptFault::limit(0)),
        "refused 15 Limit line 0",
    );
    says(
        &rt,
        2,
        display(&rt, ScriptFault::from(Memory)),
        "fault 50 Memory",
    );
}
