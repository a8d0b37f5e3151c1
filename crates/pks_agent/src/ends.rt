//! How a dialogue ends early.
use crate::peers::PeerFault;

/// Why a dialogue didn't come to an end of its plan.
#[derive(Clone, Copy)]
pub enum TalkEnd {
    /// The answer with this number, counted from 1, isn't fit or is too long.
    Misfit(u32),
    /// The answer with this number is missing.
    Silent(u32),
    /// The peer failed.
    Failed(PeerFault),
}
