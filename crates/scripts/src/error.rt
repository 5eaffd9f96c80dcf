//! Why a script has no replies.

ghost use Rattle.std.specs.Prelude.{◌≡◌};
ghost use Rattle.scripts.specs.Errors.{error_of};

use ids::Refusal;
use std::alloc::{AllocError, AllocFailed};
use std::fmt;
use thiserror::Error;

/// Why a script has no replies.
#[derive(Debug, Drop, Error)]
pub enum ScriptError {
    /// The first bad line, counted from 1, and why it is bad.
    BadLine { line: u64, refusal: Refusal },
    NoMemory,
}

// Written by hand, since no contract says what a derived one prints.
impl fmt::Display for ScriptError {
    ghost use Rattle.std.specs.Prelude.{Some};
    ghost use Rattle.scripts.specs.Errors.{error_text};

    ghost output = { λ e. Some (error_text e) };

    fn fmt<W: fmt::Write>(&self, f: &mut fmt::Formatter<W>) -> fmt::Result {
        match self {
            ScriptError::BadLine { line, refusal } => {
                let number = refusal.number();
                write!(f, "line {line}: E{number}")
            }
            ScriptError::NoMemory => f.write_str("no memory"),
        }
    }
}

impl ScriptError {
    /// The error of the line with this number: it is bad, or allocation failed.
    pub(crate) fn of_line(line: u64, refusal: Refusal) -> ScriptError
        ensures { result ≡ error_of line refusal }
    {
        match refusal {
            Refusal::NoMemory => ScriptError::NoMemory,
            refusal => ScriptError::BadLine { line, refusal },
        }
    }
}

impl From<AllocError> for ScriptError {
    ghost use Rattle.scripts.specs.declared.error.ScriptError.TheVariants.{NoMemory};

    ghost from_gives = { λ _ e. e ≡ NoMemory };

    fn from(_e: AllocError) -> ScriptError {
        ScriptError::NoMemory
    }
}

impl<T: Drop> From<AllocFailed<T>> for ScriptError {
    ghost use Rattle.scripts.specs.declared.error.ScriptError.TheVariants.{NoMemory};

    ghost from_gives = { λ _ e. e ≡ NoMemory };

    fn from(_e: AllocFailed<T>) -> ScriptError {
        ScriptError::NoMemory
    }
}
