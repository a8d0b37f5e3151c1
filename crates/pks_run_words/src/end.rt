//! Why words ask for no job.

ghost use Rattle.std.specs.Prelude.{◌≡◌, ◌↔◌};
ghost use Rattle.clap.specs.Words.{kind_of};
ghost use Rattle.clap.specs.declared.error.kind.ErrorKind.TheVariants.{OutOfMemory};
ghost use Rattle.pks_run_words.specs.declared.end.WordsEnd.TheVariants.{Memory};

use clap::error::ErrorKind;
use std::alloc::AllocError;
use thiserror::Error;

/// Why no job was read from the words.
#[derive(Clone, Copy, Debug, PartialEq, Eq, Error)]
pub enum WordsEnd {
    /// The words ask for no job.
    #[error("the words ask for no job")]
    Refused,
    /// Memory ran out.
    #[error("out of memory")]
    Memory,
}

impl From<AllocError> for WordsEnd {
    ghost from_gives = { λ _ end. end ≡ Memory };

    fn from(_: AllocError) -> WordsEnd {
        WordsEnd::Memory
    }
}

/// Every refusal of the command and every request for help, but for want of memory, refuses the words.
impl From<clap::Error> for WordsEnd {
    ghost from_gives = { λ error end. (end ≡ Memory) ↔ (kind_of error ≡ OutOfMemory) };

    fn from(error: clap::Error) -> WordsEnd {
        if error.kind() == ErrorKind::OutOfMemory {
            WordsEnd::Memory
        } else {
            WordsEnd::Refused
        }
    }
}
