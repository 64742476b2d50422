//! Why a task ended early.
use std::alloc::{AllocError, AllocFailed};
use std::io::{self, ErrorKind};
use thiserror::Error;
use wire::Refusal;

/// Why a script ended early.
#[derive(Debug, Drop, Error)]
pub enum Failure {
    /// The text is no script (60): this line, counted from 1, is the first that no script has there.
    #[error("line {0} cannot be read")]
    BadScript(usize),
    /// The reader, or the file, failed (62).
    #[error("{0}")]
    NoFile(io::Error),
    /// Memory ran out (22).
    #[error("out of memory")]
    Memory,
    /// The writer failed, so nothing more can be told.
    #[error("{0}")]
    Output(io::Error),
}

impl Failure {
    ghost use Rattle.std.specs.Prelude.{◌≡◌, ◌⊎◌};
    ghost use Rattle.script_run.specs.Failures.{refusal_of};
    ghost use Rattle.script_run.specs.declared.error.Failure.TheVariants.{Memory, NoFile};

    /// The failure of a file or a reader: out of memory, or no file.
    pub fn of_input(error: io::Error) -> Failure
        ensures { (result ≡ Memory) ⊎ (result ≡ NoFile error) }
    {
        match error.kind() {
            ErrorKind::OutOfMemory => Failure::Memory,
            _ => Failure::NoFile(error),
        }
    }

    /// The refusal that is told of it. A writer that failed can tell none.
    pub fn refusal(&self) -> Option<Refusal>
        ensures { result ≡ refusal_of self.now }
    {
        match self {
            Failure::BadScript(_) => Some(Refusal::BadScript),
            Failure::NoFile(_) => Some(Refusal::NoFile),
            Failure::Memory => Some(Refusal::Memory),
            Failure::Output(_) => None,
        }
    }
}

impl From<AllocError> for Failure {
    ghost use Rattle.std.specs.Prelude.{◌≡◌};
    ghost use Rattle.script_run.specs.declared.error.Failure.TheVariants.{Memory};

    ghost from_gives = { λ _ failure. failure ≡ Memory };

    fn from(_refused: AllocError) -> Self {
        Failure::Memory
    }
}

impl<T: Drop> From<AllocFailed<T>> for Failure {
    ghost use Rattle.std.specs.Prelude.{◌≡◌};
    ghost use Rattle.script_run.specs.declared.error.Failure.TheVariants.{Memory};

    ghost from_gives = { λ _ failure. failure ≡ Memory };

    fn from(_refused: AllocFailed<T>) -> Self {
        Failure::Memory
    }
}
