//! The great limits of files and problems (`docs/FORMAT.md`, 'Limits').

/// The most bytes of an input.
pub const MOST_BYTES: usize = 262_144;

/// The most objects of a problem, which two bytes number.
pub const MOST_OBJECTS: usize = 65_536;

/// The greatest cost of an action.
pub const GREATEST_COST: u32 = 9_999;

/// The most bytes of a line of a dialogue.
pub const LONGEST_LINE: usize = 8_192;
