//! Refusals.
ghost use Rattle.std.specs.Prelude.{◌≡◌};
ghost use Rattle.pks_reader_shape.specs.Refusals.{plain};
ghost use Rattle.pks_reader_shape.specs.declared.report.Turned.TheVariants.{Memory};

use pks_terms::ids::{ActId, ItemNo};
use std::alloc::AllocError;

/// What a refusal says besides its code and its place (`docs/FORMAT.md`).
#[derive(Clone, Copy)]
pub enum Extra {
    /// Nothing.
    Plain,
    /// An action, and the number of one of its adds, which are counted from 1: the add that has no case (260).
    Effect { action: ActId, number: u32 },
    /// An initial item: the first that the world breaks (311).
    Item(ItemNo),
}

/// Why a file is refused: a code, at the place of a byte (`docs/FORMAT.md`). It is made where the fault is met, and printed as it is.
#[derive(Clone, Copy)]
pub struct Refusal {
    /// The code.
    pub code: u16,
    /// The place, as a number of bytes from the beginning of the text.
    pub at: u32,
    /// What else is said.
    pub extra: Extra,
}

/// An answer in place of what was asked for.
#[derive(Clone, Copy)]
pub enum Turned {
    /// The file is refused.
    Refused(Refusal),
    /// Memory ran out.
    Memory,
}

impl Refusal {
    /// A refusal that says nothing else.
    pub fn plain(at: u32, code: u16) -> Refusal
        ensures { result ≡ plain (at, code) }
    {
        Refusal {
            code,
            at,
            extra: Extra::Plain,
        }
    }
}

impl From<AllocError> for Turned {
    ghost from_gives = { λ _ e. e ≡ Memory };

    fn from(_e: AllocError) -> Turned {
        Turned::Memory
    }
}
