//! The entries of an explanation.

use pks_proof_lines::{Path, Proof};
use pks_terms::literal::Literal;
use pks_terms::sequence::Sequence;

/// A literal with the path at whose end it is known, and a proof of it.
#[derive(Drop)]
pub struct ProvedLiteral {
    /// The way from the root of the tree.
    pub path: Path,
    /// What is known at its end.
    pub literal: Literal,
    /// Why it is known.
    pub proof: Proof,
}

/// A literal with the path at whose end it must be known.
#[derive(Drop)]
pub struct Owed {
    /// The way from the root of the tree.
    pub path: Path,
    /// What must be known at its end.
    pub literal: Literal,
}

/// The entries in the order of the printed tree.
pub type Explained = Sequence<ProvedLiteral>;
