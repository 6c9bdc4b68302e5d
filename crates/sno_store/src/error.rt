//! Why a store refuses.

use std::alloc::{AllocError, AllocFailed};

/// Why a store refuses. Of several reasons the first in a call's table is told, and the store is as it was.
#[derive(Clone, Copy, Debug, Drop, PartialEq, Eq)]
pub enum StoreError {
    /// A name is the null string (error 6).
    NullName,
    /// The store holds as much of a kind as it may (error 9).
    Full,
    /// An object is no array, or no table, or a value may be no key (error 1).
    WrongType,
    /// A text is no prototype, or there are more or fewer subscripts than an array has dimensions (error 12).
    BadPrototype,
    /// There are 200 open calls (error 10).
    CallLevel,
    /// Memory was refused.
    NoMemory,
}

impl From<AllocError> for StoreError {
    ghost use Rattle.std.specs.Prelude.{◌≡◌};
    ghost use Rattle.sno_store.specs.declared.error.StoreError.TheVariants.{NoMemory};

    ghost from_gives = { λ _ e. e ≡ NoMemory };

    fn from(_refused: AllocError) -> StoreError {
        StoreError::NoMemory
    }
}

impl<T: Drop> From<AllocFailed<T>> for StoreError {
    ghost use Rattle.std.specs.Prelude.{◌≡◌};
    ghost use Rattle.sno_store.specs.declared.error.StoreError.TheVariants.{NoMemory};

    ghost from_gives = { λ _ e. e ≡ NoMemory };

    fn from(_refused: AllocFailed<T>) -> StoreError {
        StoreError::NoMemory
    }
}
