//! A dialogue that leads a caller through a plan by its answers. `docs/FORMAT.md`, "Dialogues", has its lines.
#![tactic(auto)]

mod ahead;
mod answers;
mod asking;
mod desks;
mod dialogue;
mod ends;
mod files;
mod fit;
mod hearing;
pub mod laws;
mod memory;
mod peers;
mod questions;
mod rooms;
mod wire;

pub use ahead::ReadAhead;
pub use answers::Answer;
pub use dialogue::converse;
pub use ends::TalkEnd;
pub use files::read_file_text;
pub use memory::{AnswerList, MemPeer};
pub use peers::{Heard, Peer, PeerFault};
pub use rooms::Room;
pub use wire::{Wire, converse_over};
