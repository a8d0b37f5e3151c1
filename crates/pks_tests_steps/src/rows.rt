//! How the tables of walks are written.
use crate::domains::DomainText;

/// What is to be so after the actions of a walk. A moment is given by initial items of which its databases are the closing.
pub enum Then {
    /// The history has these moments.
    Moments(&'static [&'static str]),
    /// The goal is met, or it isn't.
    Met(bool),
    /// Exactly these are the choices, in this order.
    Choices(&'static [&'static str]),
    /// The sides of a branch show their moments.
    Sides(Sides),
    /// One of these cases, counted from 0, shows these moments.
    Case(&'static str, usize, &'static [&'static str]),
}

/// The sides of a branch. A side without moments is one whose history clashes.
pub struct Sides {
    /// The line of the branch.
    pub branch: &'static str,
    /// The moments where the formula is true.
    pub yes: &'static [&'static str],
    /// The moments where it is false.
    pub no: &'static [&'static str],
    /// The moments of the history at which both are taken.
    pub before: &'static [&'static str],
}

/// A walk through a worked domain, and what it shows.
pub struct WalkRow {
    /// The domain.
    pub domain: &'static DomainText,
    /// Further initial items.
    pub init: &'static str,
    /// The lines of the actions.
    pub actions: &'static [&'static str],
    /// What is to be so after them.
    pub then: Then,
}

/// A row of a table, counted from 0, that doesn't show what it says.
#[derive(Debug, Drop)]
pub struct WrongRow(pub usize);
