// Texts and the programs that they are.

use crate::checks::{holds, holds_at};
use lrc_lang::fault::{FaultKind, ParseFault};
use lrc_lang::parse;
use lrc_program::{Expression, Operator, Program, Statement};
use std::alloc::{AllocError, Global};

/// A spelling that is wanted, how much of it has been shown, and whether all that was shown is of it.
#[derive(Clone, Copy)]
struct Shown<'a> {
    wanted: &'a [u8],
    place: usize,
    agrees: bool,
}

/// Shows a part.
fn put(shown: &mut Shown<'_>, part: &[u8]) {
    for byte in part {
        shown.agrees = shown.agrees && shown.wanted.get(shown.place) == Some(byte);
        shown.place = shown.place.saturating_add(1);
    }
}

/// Shows a number of up to two digits.
fn put_number(shown: &mut Shown<'_>, number: u64) {
    if number > 9 {
        put(shown, &[b'0' + (number / 10 % 10) as u8]);
    }
    put(shown, &[b'0' + (number % 10) as u8]);
}

/// Shows a private name by its number.
fn put_name(shown: &mut Shown<'_>, name: u8) {
    put(shown, b"p");
    put_number(shown, u64::from(name));
}

fn sign_of(operator: Operator) -> &'static [u8] {
    match operator {
        Operator::Add => b"+",
        Operator::Subtract => b"-",
        Operator::Multiply => b"*",
        Operator::Divide => b"/",
        Operator::Remainder => b"%",
        Operator::Equal => b"==",
        Operator::NotEqual => b"!=",
        Operator::Less => b"<",
        Operator::LessOrEqual => b"<=",
        Operator::Greater => b">",
        Operator::GreaterOrEqual => b">=",
    }
}

/// Shows an expression: a sum as (+ a b), a private name by its number as p0.
fn put_expression(shown: &mut Shown<'_>, expression: &Expression) {
    match expression {
        Expression::Number(number) => put_number(shown, *number),
        Expression::Private(name) => put_name(shown, *name),
        Expression::Me => put(shown, b"me"),
        Expression::Nodes => put(shown, b"nodes"),
        Expression::Binary(left, operator, right) => {
            put(shown, b"(");
            put(shown, sign_of(*operator));
            put(shown, b" ");
            put_expression(shown, left);
            put(shown, b" ");
            put_expression(shown, right);
            put(shown, b")");
        }
    }
}

/// Shows a word, and the expression that it is of.
fn put_word(shown: &mut Shown<'_>, word: &[u8], expression: &Expression) {
    put(shown, word);
    put(shown, b" ");
    put_expression(shown, expression);
}

#[cycle(shown)]
fn put_statements(shown: &mut Shown<'_>, statements: &[Statement]) {
    put(shown, b"{");
    for statement in statements {
        put_statement(shown, statement);
        put(shown, b";");
    }
    put(shown, b"}");
}

#[cycle(shown)]
fn put_statement(shown: &mut Shown<'_>, statement: &Statement) {
    match statement {
        Statement::Assign(name, value) => {
            put_name(shown, *name);
            put_word(shown, b" =", value);
        }
        Statement::Read(name, word) => {
            put_name(shown, *name);
            put_word(shown, b" reads", word);
        }
        Statement::Write(word, value) => {
            put_word(shown, b"write", word);
            put_word(shown, b",", value);
        }
        Statement::Acquire(lock) => put_word(shown, b"acquire", lock),
        Statement::Release(lock) => put_word(shown, b"release", lock),
        Statement::Barrier => put(shown, b"barrier"),
        Statement::Print(value) => put_word(shown, b"print", value),
        Statement::If(condition, first, second) => {
            put_word(shown, b"if", condition);
            put_statements(shown, first);
            put_statements(shown, second);
        }
        Statement::While(condition, body) => {
            put_word(shown, b"while", condition);
            put_statements(shown, body);
        }
    }
}

/// Whether these are the numbers of words and locks and the statements of a program.
fn is_shown(program: &Program, counts: (u32, u8), wanted: &[u8]) -> bool {
    let mut shown = Shown {
        wanted,
        place: 0,
        agrees: true,
    };
    put_statements(&mut shown, &program.statements);
    (program.words(), program.locks()) == counts && shown.agrees && shown.place == wanted.len()
}

/// A text with the statements that it is.
type Tree<'a> = (&'a [u8], &'a [u8]);

/// Whether a text is a program with these counts of words and locks, and these statements.
fn is_tree(alloc: Global, counts: (u32, u8), tree: &Tree) -> bool {
    let (text, wanted) = tree;
    match parse(alloc, text) {
        Ok(program) => is_shown(&program, counts, wanted),
        Err(_) => false,
    }
}

const EXPRESSIONS: &[Tree] = &[
    (
        b"words 1; locks 0; print 1 + 2 * 3;",
        b"{print (+ 1 (* 2 3));}",
    ),
    (
        b"words 1; locks 0; print 1 - 2 - 3;",
        b"{print (- (- 1 2) 3);}",
    ),
    (
        b"words 1; locks 0; print 1 - (2 - 3);",
        b"{print (- 1 (- 2 3));}",
    ),
    (
        b"words 1; locks 0; print 8 / 4 % 3;",
        b"{print (% (/ 8 4) 3);}",
    ),
    (
        b"words 1; locks 0; print (1 + 2) * 3;",
        b"{print (* (+ 1 2) 3);}",
    ),
    (
        b"words 1; locks 0; print me + nodes == 007;",
        b"{print (== (+ me nodes) 7);}",
    ),
    (
        b"words 1; locks 0; print 1 < 2 + 3;",
        b"{print (< 1 (+ 2 3));}",
    ),
    (
        b"words 1; locks 0; print (1 <= 2) >= 3;",
        b"{print (>= (<= 1 2) 3);}",
    ),
    (
        b"words 1; locks 0; print 1!=(2>3);",
        b"{print (!= 1 (> 2 3));}",
    ),
    (
        b"words 1; locks 0; print x + Y + x + _y1;",
        b"{print (+ (+ (+ p0 p1) p0) p2);}",
    ),
    (b"words 1; locks 0; print ((((50))));", b"{print 50;}"),
];

#[test]
fn expressions_have_their_trees(rt: HostRuntime) {
    for (place, tree) in EXPRESSIONS.iter().enumerate() {
        holds_at(&rt, place, is_tree(rt.alloc(), (1, 0), tree));
    }
}

const STATEMENTS: &Tree = &(
    b"words 65536;\tlocks 64; # every construct \xff\r
        x = 1; y = [x]; [y] = x + 2; acquire 0; release 63; barrier; print me;
        if x == 1 { print 1; } else { if y { } else { barrier; } print 2; }
        if x { print 3; } while x < nodes { x = x + 1; if 0 { while 1 { } } }",
    b"{p0 = 1;p1 reads p0;write p1, (+ p0 2);acquire 0;release 63;barrier;print me;\
        if (== p0 1){print 1;}{if p1{}{barrier;};print 2;};\
        if p0{print 3;}{};while (< p0 nodes){p0 = (+ p0 1);if 0{while 1{};}{};};}",
);

#[test]
fn statements_have_their_trees(rt: HostRuntime) {
    holds(
        &rt,
        "statements",
        is_tree(rt.alloc(), (65_536, 64), STATEMENTS),
    );
}

/// The line and the kind of a text's fault, if it has one.
type Fault = Option<(u32, FaultKind)>;

/// Whether this is the fault of the text.
fn has_fault(alloc: Global, text: &[u8], wanted: Fault) -> bool {
    match parse(alloc, text) {
        Ok(_program) => wanted.is_none(),
        Err(ParseFault { line, kind }) => wanted == Some((line, kind)),
    }
}

const FAULTS: &[(&[u8], u32, FaultKind)] = &[
    (b"", 1, FaultKind::Unexpected),
    (
        b"words 1; locks 0; x = 18446744073709551616;",
        1,
        FaultKind::BadNumber,
    ),
    (b"words 1; locks 0;\nx = $;", 2, FaultKind::BadByte),
    (b"words 1; locks 0; me = 1;", 1, FaultKind::Unexpected),
    (b"words 65537;", 1, FaultKind::OverLimit),
    (b"words 0;", 1, FaultKind::OverLimit),
    (b"words 1; locks 65;", 1, FaultKind::OverLimit),
    (
        b"words 1; locks 0; print 1 == 2 == 3;",
        1,
        FaultKind::Unexpected,
    ),
    (
        b"words 1; locks 0; if 1 { } else { } else { }",
        1,
        FaultKind::Unexpected,
    ),
    (b"words 1; locks 0;\n\nprint\n1\n", 5, FaultKind::Unexpected),
    (b"words 1; locks 0; }", 1, FaultKind::Unexpected),
    (b"words 1; locks 0; if 1 { ", 1, FaultKind::Unexpected),
    (b"words 1; locks 0; print (1;", 1, FaultKind::Unexpected),
    (b"words 1; locks 0; x = 1a;", 1, FaultKind::BadNumber),
    (b"words 1; locks 0; print 1 ! 2;", 1, FaultKind::BadByte),
    (b"words 99999999999;", 1, FaultKind::OverLimit),
    (b"\r\n#\r!\n0_", 3, FaultKind::BadNumber),
    (b"\n#\n\xc3\xa9", 3, FaultKind::BadByte),
    (b"\n\n\x0b", 3, FaultKind::BadByte),
    (b"\n\n! =", 3, FaultKind::BadByte),
];

#[test]
fn faults_have_their_kind_and_line(rt: HostRuntime) {
    for (place, (text, line, kind)) in FAULTS.iter().enumerate() {
        holds_at(
            &rt,
            place,
            has_fault(rt.alloc(), text, Some((*line, *kind))),
        );
    }
}

const OPEN: &[u8] = b"words 1; locks 0;\n";

/// A name, a text of parts, each so many times, and its fault.
type Large<'a> = (&'a str, &'a [(&'a [u8], usize)], Fault);

fn put_copies(text: &mut Vec<u8>, part: &[u8], count: usize) -> Result<(), AllocError> {
    for _copy in 0..count {
        text.extend_from_slice(part)?;
    }
    Ok(())
}

fn put_parts(text: &mut Vec<u8>, parts: &[(&[u8], usize)]) -> Result<(), AllocError> {
    for (part, count) in parts {
        put_copies(text, part, *count)?;
    }
    Ok(())
}

fn has_large_fault(alloc: Global, parts: &[(&[u8], usize)], fault: Fault) -> bool {
    let mut text = Vec::new(alloc);
    put_parts(&mut text, parts).is_ok() && has_fault(alloc, &text, fault)
}

const TOO_DEEP: Fault = Some((2, FaultKind::TooDeep));

const PRINT: &[u8] = b"words 1; locks 0;\nprint 0";

const OVER_LIMIT: Fault = Some((2, FaultKind::OverLimit));

const TOO_LONG: Fault = Some((1, FaultKind::TooLong));

const SHORT_OPEN: &[u8] = b"words 1;locks 0;";

const LARGE: &[Large] = &[
    (
        "32 branches may be open",
        &[(OPEN, 1), (b"if 1 {", 32), (b"}", 32)],
        None,
    ),
    (
        "33 branches may not",
        &[(OPEN, 1), (b"if 1 {", 33), (b"}", 33)],
        TOO_DEEP,
    ),
    (
        "31 loops and a parenthesis may be open",
        &[
            (OPEN, 1),
            (b"while 1 {", 31),
            (b"print (1);", 1),
            (b"}", 31),
        ],
        None,
    ),
    (
        "32 loops and a parenthesis may not",
        &[
            (OPEN, 1),
            (b"while 1 {", 32),
            (b"print (1);", 1),
            (b"}", 32),
        ],
        TOO_DEEP,
    ),
    (
        "33 parentheses may not",
        &[(b"words 1; locks 0;\nx = ", 1), (b"(", 33)],
        TOO_DEEP,
    ),
    (
        "an expression has 256 operators",
        &[(PRINT, 1), (b" + (1 * 2)", 128), (b";", 1)],
        None,
    ),
    (
        "an expression has not 257 operators",
        &[(PRINT, 1), (b" + 1", 257), (b";", 1)],
        OVER_LIMIT,
    ),
    (
        "several expressions have more",
        &[(OPEN, 1), (b"[1 + 1] = 2 + 2;", 129)],
        None,
    ),
    (
        "a text has 65536 bytes",
        &[(SHORT_OPEN, 1), (b"a=1;", 16_380)],
        None,
    ),
    (
        "a text has not 65537 bytes",
        &[(SHORT_OPEN, 1), (b"a=1;", 16_380), (b"\n", 1)],
        TOO_LONG,
    ),
];

#[test]
fn large_texts_have_their_faults(rt: HostRuntime) {
    for (name, parts, fault) in LARGE {
        holds(&rt, name, has_large_fault(rt.alloc(), parts, *fault));
    }
}

/// Adds so many statements with different names, each of `a` alone.
fn put_names(text: &mut Vec<u8>, count: usize) -> Result<(), AllocError> {
    text.extend_from_slice(OPEN)?;
    for number in 1..=count {
        put_copies(text, b"a", number)?;
        text.extend_from_slice(b" = a;")?;
    }
    Ok(())
}

/// Whether this is the fault of a text with so many different names.
fn has_fault_of_names(alloc: Global, count: usize, fault: Fault) -> bool {
    let mut text = Vec::new(alloc);
    put_names(&mut text, count).is_ok() && has_fault(alloc, &text, fault)
}

const TOO_MANY_NAMES: Fault = Some((2, FaultKind::TooManyNames));

#[test]
fn a_text_has_32_names(rt: HostRuntime) {
    holds(&rt, "32", has_fault_of_names(rt.alloc(), 32, None));
    holds(
        &rt,
        "33",
        has_fault_of_names(rt.alloc(), 33, TOO_MANY_NAMES),
    );
}
