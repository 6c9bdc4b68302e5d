//! Runs of programs.
use sno_text::{Program, ReadError, read_program};
use snobol::{Device, Limits, Outcome, run};
use std::alloc::{AllocError, Global};

const LIMITS: Limits = Limits {
    statements: 1_000_000,
    match_steps: 1_000_000,
};

/// Room for what a program writes, so that the writer takes no memory.
const ROOM: usize = 64;

/// A program, what it writes, and how it ends.
type Row = (&'static [u8], &'static [u8], Outcome);

/// A deferred part that names itself.
const BRACKETS: Row = (
    b" &ANCHOR = 1\n P = '(' *P ')' | 'X'\n '((X))' P . W :F(END)\n OUTPUT = W\nEND\n",
    b"((X))\n",
    Outcome::Ended,
);

/// Calls within calls; 21! has more than 64 bits.
const FACTORIAL: Row = (
    b" DEFINE('FACT(N)') :(MAIN)\nFACT FACT = EQ(N,0) 1 :S(RETURN)\n FACT = N * FACT(N - 1) :(RETURN)\nMAIN OUTPUT = FACT(20)\n OUTPUT = FACT(21)\nEND\n",
    b"2432902008176640000\n",
    Outcome::Error {
        code: 2,
        statement: 3,
    },
);

/// A match in each start of another.
const INNER: Row = (
    b" DEFINE('F()') :(M)\nF 'XY' LEN(1) . C\n OUTPUT = C\n F = 'B' :(RETURN)\nM 'AAB' *F() . D :F(END)\n OUTPUT = D\nEND\n",
    b"X\nX\nX\nB\n",
    Outcome::Ended,
);

/// A call that fails, whose variables are brought back.
const RESTORED: Row = (
    b" DEFINE('F(A)B') :(M)\nF B = 2\n F = 3 :(FRETURN)\nM A = 'a'\n B = 'b'\n F = 'f'\n F(1) :S(END)\n OUTPUT = F A B\nEND\n",
    b"fab\n",
    Outcome::Ended,
);

/// A replacement in an element of an array.
const ELEMENT: Row = (
    b" A = ARRAY('0:2','ABC')\n OUTPUT = A<1>\n A<1> 'B' = '--'\n OUTPUT = A<1>\n OUTPUT = A<2>\nEND\n",
    b"ABC\nA--C\nABC\n",
    Outcome::Ended,
);

/// Objects of a program's own type, whose fields are set and are targets.
const OBJECTS: Row = (
    b" DATA('NODE(VAL,NEXT)')\n P = NODE('a')\n P = NODE('b',P)\n VAL(P) = VAL(P) VAL(NEXT(P))\n OUTPUT = VAL(P) DATATYPE(P)\n 'XY' LEN(1) . VAL(NEXT(P))\n OUTPUT = VAL(NEXT(P))\n OUTPUT = VAL(NEXT(NEXT(P)))\nEND\n",
    b"baNODE\nX\n",
    Outcome::Error {
        code: 1,
        statement: 8,
    },
);

/// A subject that is lent while its variable changes, and a deferred variable that holds a string.
const LENT: Row = (
    b" S = 'ABCDEFGHIJKLMNOPQRSTUVWXYZ'\n X = 'YZ'\n S LEN(2) $ S *X . T = '-'\n OUTPUT = S\n S = 'ABCDEFGHIJKLMNOPQRSTUVWXYZ'\n S *X . T = '-'\n OUTPUT = S T\nEND\n",
    b"ABCDEFGHIJKLMNOPQRSTUV-\nABCDEFGHIJKLMNOPQRSTUVWX-YZ\n",
    Outcome::Ended,
);

/// Patterns in a statement that are made at each turn, of which parts are the same.
const IN_LINE: Row = (
    b" I = 0\nL I = LT(I,4) I + 1 :F(END)\n 'ABCD' TAB(REMDR(I,2)) LEN(1) . C *(C | 'C') . E\n OUTPUT = C E :(L)\nEND\n",
    b"B\nAB\nBC\nAB\n",
    Outcome::Ended,
);

/// A string that grows where it lies, by a literal, by a string of a variable, by digits, and by several of them.
const GROWN: Row = (
    b" X = DUPL('a',70)\n S = 'bcdefghijklmnopqrstuvwxyz'\n N = 5\n X = X 'b'\n X = X S\n X = X N\n X = X ',' S N\n X LEN(70) =\n OUTPUT = X\nEND\n",
    b"bbcdefghijklmnopqrstuvwxyz5,bcdefghijklmnopqrstuvwxyz5\n",
    Outcome::Ended,
);

/// Whether each program writes what it must and ends as it must, also where it is run again behind a refusal.
pub(crate) fn holds(alloc: Global) -> Result<bool, AllocError> {
    for row in [
        BRACKETS, FACTORIAL, INNER, RESTORED, ELEMENT, OBJECTS, LENT, IN_LINE, GROWN,
    ] {
        if !runs(alloc, row)? {
            return Ok(false);
        }
    }
    Ok(true)
}

fn runs(alloc: Global, row: Row) -> Result<bool, AllocError> {
    let (text, wanted, end) = row;
    let program = match read_program(alloc, text) {
        Ok(program) => program,
        Err(ReadError::NoMemory) => return Err(AllocError),
        Err(_) => return Ok(false),
    };
    let (outcome, written) = run_once(alloc, &program)?;
    if outcome != Outcome::NoMemory {
        return Ok(outcome == end && written.as_slice() == wanted);
    }
    let (outcome, again) = run_once(alloc, &program)?;
    Ok(wanted.starts_with(&written) && outcome == end && again.as_slice() == wanted)
}

/// How a run ends, and what it has written.
fn run_once(alloc: Global, program: &Program) -> Result<(Outcome, Vec<u8>), AllocError> {
    let mut reader = Device::new(b"".as_slice());
    let mut writer = Device::new(Vec::with_capacity(alloc, ROOM)?);
    let outcome = run(alloc, program, &mut reader, &mut writer, LIMITS);
    Ok((outcome, writer.into_inner()))
}
