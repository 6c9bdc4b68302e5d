//! Why a run is over, and why an expression gives no value.
ghost use Rattle.std.specs.Prelude.{◌≡◌};

use crate::errors::{BAD_COUNT, BAD_PROTOTYPE, CALL_LEVEL, DATA_TYPE, NULL_STRING, STORE_FULL};
use sno_io::DeviceFault;
use sno_pattern::BuildError;
use sno_store::StoreError;
use std::alloc::{AllocError, AllocFailed};

/// Why a run is over.
#[derive(Clone, Copy, Debug, Drop, PartialEq, Eq)]
pub enum Stop {
    Error(u8),
    /// An error in the statement with this number.
    ErrorIn { code: u8, statement: u32 },
    NoMemory,
    ReadFault,
    WriteFault,
    /// The program came to its END.
    Ended,
}

/// Why an expression gives no value.
#[derive(Clone, Copy, Debug, Drop, PartialEq, Eq)]
pub enum Exit {
    Failure,
    Halt(Stop),
}

/// The end of a run with an error.
pub fn error(code: u8) -> Exit
    ensures { result ≡ Exit.Halt (Stop.Error code) }
{
    Exit::Halt(Stop::Error(code))
}

impl From<AllocError> for Stop {
    ghost use Rattle.sno_runtime.specs.declared.stops.Stop.TheVariants.{NoMemory};

    ghost from_gives = { λ _ e. e ≡ NoMemory };

    fn from(_error: AllocError) -> Stop {
        Stop::NoMemory
    }
}

impl<T: Drop> From<AllocFailed<T>> for Stop {
    ghost use Rattle.sno_runtime.specs.declared.stops.Stop.TheVariants.{NoMemory};

    ghost from_gives = { λ _ e. e ≡ NoMemory };

    fn from(_error: AllocFailed<T>) -> Stop {
        Stop::NoMemory
    }
}

impl From<DeviceFault> for Stop {
    ghost use Rattle.sno_runtime.specs.declared.stops.Stop.TheVariants.{WriteFault};

    ghost from_gives = { λ _ e. e ≡ WriteFault };

    fn from(_fault: DeviceFault) -> Stop {
        Stop::WriteFault
    }
}

impl From<Stop> for Exit {
    ghost use Rattle.sno_runtime.specs.declared.stops.Exit.TheVariants.{Halt};

    ghost from_gives = { λ stop e. e ≡ Halt stop };

    fn from(stop: Stop) -> Exit {
        Exit::Halt(stop)
    }
}

impl From<AllocError> for Exit {
    ghost use Rattle.sno_runtime.specs.declared.stops.Exit.TheVariants.{Halt};
    ghost use Rattle.sno_runtime.specs.declared.stops.Stop.TheVariants.{NoMemory};

    ghost from_gives = { λ _ e. e ≡ Halt NoMemory };

    fn from(_e: AllocError) -> Exit {
        Exit::Halt(Stop::NoMemory)
    }
}

impl<T: Drop> From<AllocFailed<T>> for Exit {
    ghost use Rattle.sno_runtime.specs.declared.stops.Exit.TheVariants.{Halt};
    ghost use Rattle.sno_runtime.specs.declared.stops.Stop.TheVariants.{NoMemory};

    ghost from_gives = { λ _ e. e ≡ Halt NoMemory };

    fn from(_e: AllocFailed<T>) -> Exit {
        Exit::Halt(Stop::NoMemory)
    }
}

impl From<BuildError> for Exit {
    ghost use Rattle.sno_runtime.specs.inner.Runtime.{exit_of};

    ghost from_gives = { λ refused e. e ≡ exit_of refused };

    fn from(refused: BuildError) -> Exit {
        match refused {
            BuildError::NullSet => error(NULL_STRING),
            BuildError::BadCount => error(BAD_COUNT),
            BuildError::Full => error(STORE_FULL),
            BuildError::NoMemory => Exit::Halt(Stop::NoMemory),
        }
    }
}

impl From<StoreError> for Exit {
    ghost use Rattle.sno_runtime.specs.inner.Runtime.{exit_of_store};

    ghost from_gives = { λ refused e. e ≡ exit_of_store refused };

    fn from(refused: StoreError) -> Exit {
        match refused {
            StoreError::NullName => error(NULL_STRING),
            StoreError::Full => error(STORE_FULL),
            StoreError::WrongType => error(DATA_TYPE),
            StoreError::BadPrototype => error(BAD_PROTOTYPE),
            StoreError::CallLevel => error(CALL_LEVEL),
            StoreError::NoMemory => Exit::Halt(Stop::NoMemory),
        }
    }
}
