// Words and lists, and the faults of a text.
ghost use Rattle.std.specs.Prelude.{◌≡◌};
ghost use Rattle.pks_text.specs.declared.tree.FormFault.TheVariants.{Memory};

use crate::tokens::Token;
use pks_terms::ids::Span;
use std::alloc::{AllocError, AllocFailed};

/// A word, or a list of forms from its opening parenthesis to behind its closing one (`docs/FORMAT.md`).
#[derive(Drop)]
pub enum Form<'s> {
    Name(Token<'s>),
    List { parts: Vec<Form<'s>>, span: Span },
}

/// The top forms of a text, in order.
#[derive(Drop)]
pub struct Forms<'s> {
    pub top: Vec<Form<'s>>,
}

/// The first fault of a text, at its place, or want of memory (`docs/FORMAT.md`).
#[derive(Clone, Copy, Debug, PartialEq, Eq)]
pub enum FormFault {
    /// A byte that is not allowed where it stands.
    BadByte(u32),
    /// The text ends within a list: the innermost that is open there, at its opening parenthesis.
    Unclosed(u32),
    /// A closing parenthesis that closes nothing.
    Unopened(u32),
    /// A list within twelve others, at its opening parenthesis.
    TooDeep(u32),
    /// Memory ran out.
    Memory,
}

impl From<AllocError> for FormFault {
    ghost from_gives = { λ _ e. e ≡ Memory };

    fn from(_e: AllocError) -> FormFault {
        FormFault::Memory
    }
}

impl<T: Drop> From<AllocFailed<T>> for FormFault {
    ghost from_gives = { λ _ e. e ≡ Memory };

    fn from(_e: AllocFailed<T>) -> FormFault {
        FormFault::Memory
    }
}
