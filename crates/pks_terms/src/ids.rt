//! Numbers of names, in the order of declaration, and places in the source. `docs/FORMAT.md` says what is declared where.

use crate::sequence::Sequence;

/// The number of a type, from 0 in the order of declaration.
#[derive(Clone, Copy, PartialEq, Eq, PartialOrd, Ord)]
pub struct TypeId(pub u8);

/// The number of an object, from 0 in the order of declaration.
#[derive(Clone, Copy, PartialEq, Eq, PartialOrd, Ord)]
pub struct ObjId(pub u16);

/// The number of a predicate, from 0 in the order of declaration.
#[derive(Clone, Copy, PartialEq, Eq, PartialOrd, Ord)]
pub struct PredId(pub u8);

/// The number of a function, from 0 in the order of declaration.
#[derive(Clone, Copy, PartialEq, Eq, PartialOrd, Ord)]
pub struct FnId(pub u8);

/// The number of an action, from 0 in the order of declaration.
#[derive(Clone, Copy, PartialEq, Eq, PartialOrd, Ord)]
pub struct ActId(pub u8);

/// The number of an initial item, from 1 in the order in which they are written.
#[derive(Clone, Copy, PartialEq, Eq, PartialOrd, Ord)]
pub struct ItemNo(pub u32);

/// A part of the source, in bytes from its beginning.
#[derive(Clone, Copy, Debug, PartialEq, Eq)]
pub struct Span {
    /// The place of the first byte.
    pub start: u32,
    /// The place just past the last byte.
    pub end: u32,
}

/// A list of objects.
pub type ObjList = Sequence<ObjId>;
