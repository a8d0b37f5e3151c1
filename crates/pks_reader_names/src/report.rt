//! The least fault of meaning so far.
ghost use Rattle.std.specs.Option.{ForSome};
ghost use Rattle.pks_reader_shape.specs.Refusals.{IsPlain};

use pks_reader_shape::report::Refusal;

/// The refusal of the least fault so far, which says nothing but its place and its code.
#[derive(Clone, Copy)]
pub struct Report {
    pub(crate) least: Option<Refusal>,
    ghost plain: { ForSome least IsPlain },
}
