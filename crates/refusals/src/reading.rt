//! The reading of programs and expressions.
use sno_text::{ReadError, read_expression, read_program};
use std::alloc::Global;

/// Programs, most of which are refused late, and the refusal.
const PROGRAMS: [(&[u8], Option<ReadError>); 8] = [
    (
        b" X = 1\n Y = X ('A' | *X) 2 ** 3\nL OUTPUT = F(X,,Y<1,2>) :S(L)F(END)\nL X = 1\nEND\n",
        Some(ReadError::DuplicateLabel { line: 4 }),
    ),
    (
        b"L X = A B C\nM Y = F(X,,2)\nL X = D",
        Some(ReadError::DuplicateLabel { line: 3 }),
    ),
    (
        b"L X = A B C\n Y = 'open\nEND\n",
        Some(ReadError::Syntax { line: 2, code: 1 }),
    ),
    (
        b" X = A B C\n Y = 9223372036854775808\nEND\n",
        Some(ReadError::Syntax { line: 2, code: 2 }),
    ),
    (
        b" X = A | B | C\n Y = F(X,Y,\nEND\n",
        Some(ReadError::Syntax { line: 2, code: 3 }),
    ),
    (
        b"L X = A . B $ C\nEND M\n",
        Some(ReadError::Syntax { line: 2, code: 4 }),
    ),
    (b"L X = A<1,2>\n+ F(X,Y)\n", Some(ReadError::NoEnd)),
    (b"L X = 'A' B\nM Y X = F(X,,Y<1,2>) :S(L)F(M)\nEND\n", None),
];

/// Expressions, and the refusal.
const EXPRESSIONS: [(&[u8], Option<ReadError>); 4] = [
    (b"'A", Some(ReadError::Syntax { line: 1, code: 1 })),
    (
        b"A B C + 9223372036854775808",
        Some(ReadError::Syntax { line: 1, code: 2 }),
    ),
    (
        b"F(A,B,C) D E)",
        Some(ReadError::Syntax { line: 1, code: 3 }),
    ),
    (b"ARBNO('A' | F(A,B<1,2>) . C) $ D *E", None),
];

/// Whether each text is accepted or refused as it must be, or memory was refused first.
pub(crate) fn holds(alloc: Global) -> bool {
    for (text, wanted) in PROGRAMS {
        let told = match refusal_of_program(alloc, text) {
            Some(ReadError::NoMemory) => refusal_of_program(alloc, text),
            told => told,
        };
        if told != wanted {
            return false;
        }
    }
    for (text, wanted) in EXPRESSIONS {
        let told = match refusal_of_expression(alloc, text) {
            Some(ReadError::NoMemory) => refusal_of_expression(alloc, text),
            told => told,
        };
        if told != wanted {
            return false;
        }
    }
    true
}

/// Why a program is refused, where it is.
fn refusal_of_program(alloc: Global, text: &[u8]) -> Option<ReadError> {
    match read_program(alloc, text) {
        Ok(_program) => None,
        Err(refusal) => Some(refusal),
    }
}

/// Why an expression is refused, where it is.
fn refusal_of_expression(alloc: Global, text: &[u8]) -> Option<ReadError> {
    match read_expression(alloc, text) {
        Ok(_read) => None,
        Err(refusal) => Some(refusal),
    }
}
