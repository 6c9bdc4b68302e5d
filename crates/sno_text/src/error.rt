//! Why a text is refused.
use std::alloc::{AllocError, AllocFailed};
use thiserror::Error;

/// Why a text was refused. Lines are counted from 1; its message is the fault line of the command.
#[derive(Clone, Copy, Debug, PartialEq, Eq, Drop, Error)]
pub enum ReadError {
    /// The statement that begins in this line is refused: code 1, a literal is open at the end of a line; 2, an
    /// integer is greater than 9223372036854775807; 3, it isn't of the grammar; 4, `END L` names no label.
    #[error("snobol4: syntax {code} at line {line}")]
    Syntax { line: u32, code: u8 },
    /// An earlier statement has the label of the statement that begins in this line.
    #[error("snobol4: duplicate label at line {line}")]
    DuplicateLabel { line: u32 },
    /// No statement is labelled END.
    #[error("snobol4: no END")]
    NoEnd,
    /// The statement that begins in this line is too long, nests too deep or is one too many; line 0: the text is
    /// too long.
    #[error("snobol4: too large at line {line}")]
    TooLarge { line: u32 },
    /// Memory was refused.
    #[error("snobol4: no memory")]
    NoMemory,
}

impl From<AllocError> for ReadError {
    ghost use Rattle.std.specs.Prelude.{◌≡◌};
    ghost use Rattle.sno_text.specs.declared.error.ReadError.TheVariants.{NoMemory};

    ghost from_gives = { λ _ e. e ≡ NoMemory };

    fn from(_error: AllocError) -> ReadError {
        ReadError::NoMemory
    }
}

impl<T: Drop> From<AllocFailed<T>> for ReadError {
    ghost use Rattle.std.specs.Prelude.{◌≡◌};
    ghost use Rattle.sno_text.specs.declared.error.ReadError.TheVariants.{NoMemory};

    ghost from_gives = { λ _ e. e ≡ NoMemory };

    fn from(_error: AllocFailed<T>) -> ReadError {
        ReadError::NoMemory
    }
}
