//! How a table of proofs is written.
use pks_proof_lines::Reason;

/// One piece of a path, with the item of a file whose formula or term a choice is on.
pub enum Piece {
    /// The action of this number, counted from 0, which has no arguments.
    Act(u8),
    /// The action of this number at one object.
    At(u8, u16),
    /// The formula of a `kw` is taken as true.
    True(&'static str),
    /// The formula of a `kw` is taken as false.
    False(&'static str),
    /// The term of a `kv` is taken to be this object.
    Case(&'static str, u16),
}

/// A line of a proof: its moment, its fact, its reason, and the lines that it cites. A fact is an item of a file: a `kf`, a
/// `kx`, or an `lcw` and, where its list isn't empty, a `kw` of the listed atoms.
pub type Said = (u32, &'static str, Reason, &'static [u32]);

/// A proof, and whether it is to be accepted.
pub struct ProofRow {
    /// The initial items of the problem.
    pub init: &'static str,
    /// The path.
    pub path: &'static [Piece],
    /// The lines of the proof.
    pub lines: &'static [Said],
    /// The literal that the proof is to show.
    pub shows: &'static str,
    /// Whether it is to be accepted.
    pub accepted: bool,
}

/// Proofs over one domain.
pub struct ProofTable {
    /// The text of the file before its problem.
    pub domain: &'static str,
    /// The proofs.
    pub rows: &'static [ProofRow],
}
