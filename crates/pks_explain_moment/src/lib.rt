//! What stands at one moment of a path, each by the number of its line, and how terms come to their normal forms there.
#![tactic(auto)]

mod coming;
mod holding;
mod index;
mod moment;
mod normalizing;
mod placing;
mod pushing;
mod standing;
mod tidying;
mod ways;

pub use coming::Swap;
pub use holding::is_evident;
pub use index::OpenItem;
pub use moment::{MomentLines, missing_as_memory};
pub use normalizing::{LiteralRewrite, NormalForm};
pub use placing::{equal, unequal};
pub use pushing::push;
pub use tidying::{GroupStep, RegionStep};
pub use ways::{are_plainly_apart, with_fixed};
