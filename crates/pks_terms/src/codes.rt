//! The codes of refusals (`docs/FORMAT.md`, 'Refusals').

/// The input has too many bytes.
pub const TOO_MANY_BYTES: u16 = 100;

/// A byte is above 127.
pub const NOT_ASCII: u16 = 101;

/// A byte that no text has.
pub const BAD_BYTE: u16 = 110;

/// The text ends within a list.
pub const UNCLOSED: u16 = 111;

/// A closing parenthesis closes nothing.
pub const UNOPENED: u16 = 112;

/// A list is nested too deep.
pub const TOO_DEEP: u16 = 113;

/// The first form states no version.
pub const NO_VERSION: u16 = 120;

/// The second form isn't a domain.
pub const NO_DOMAIN: u16 = 121;

/// The third form isn't a problem.
pub const NO_PROBLEM: u16 = 122;

/// The fourth form isn't a world, or there is a fifth.
pub const SURPLUS_FORM: u16 = 123;

/// A form of the domain or the problem isn't what the grammar has there.
pub const NOT_IN_GRAMMAR: u16 = 124;

/// A name is too long.
pub const LONG_NAME: u16 = 200;

/// `not` is declared as a predicate.
pub const BARRED_NAME: u16 = 201;

/// A name is declared twice in its kind.
pub const DECLARED_TWICE: u16 = 202;

/// A name isn't declared before its place.
pub const UNDECLARED: u16 = 203;

/// A parameter isn't one of the action's.
pub const UNKNOWN_PARAMETER: u16 = 204;

/// The number of arguments is wrong.
pub const WRONG_COUNT: u16 = 205;

/// A type doesn't fit the needed one.
pub const WRONG_TYPE: u16 = 206;

/// A term is too high.
pub const HIGH_TERM: u16 = 207;

/// A limit on a count or on a cost is passed.
pub const PAST_LIMIT: u16 = 208;

/// No object has a type that fits a function's result type.
pub const EMPTY_TYPE: u16 = 209;

/// A group has a literal twice.
pub const LITERAL_TWICE: u16 = 210;

/// A pattern has a third wildcard.
pub const THIRD_WILDCARD: u16 = 211;

/// An add has no case.
pub const UNJUSTIFIED_ADD: u16 = 260;

/// The initial databases clash.
pub const INITIAL_CLASH: u16 = 270;

/// A form of the world isn't what the grammar has there.
pub const WORLD_NOT_IN_GRAMMAR: u16 = 300;

/// A name of the world isn't declared.
pub const WORLD_UNDECLARED: u16 = 301;

/// A fact of the world has a wrong number of arguments, or a type that doesn't fit.
pub const WORLD_MISFIT: u16 = 302;

/// A place has no value in the world.
pub const VALUE_MISSING: u16 = 303;

/// A place is given a value twice in the world.
pub const VALUE_TWICE: u16 = 304;

/// A run needs a world, and there is none.
pub const WORLD_MISSING: u16 = 310;

/// The world isn't compatible with what is known at the start.
pub const WORLD_INCOMPATIBLE: u16 = 311;

/// An answer isn't fit.
pub const ANSWER_UNFIT: u16 = 320;

/// An answer is missing.
pub const ANSWER_MISSING: u16 = 321;
