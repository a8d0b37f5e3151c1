//! What happens in a run.

use pks_terms::ids::{ActId, ObjId, ObjList};
use pks_terms::literal::Conj;
use pks_terms::sequence::Sequence;
use pks_terms::term::Term;
use pks_world::Seen;

/// How a run ends.
#[derive(Clone, Copy)]
pub enum End {
    /// The plan says that the goal is met.
    Goal,
    /// The plan says that this can't be.
    Impossible,
    /// The plan has no case for the value.
    NoCase,
}

/// One thing that happens.
#[derive(Drop)]
pub enum Event {
    /// The action is done, its arguments having these values in the world before.
    Do(ActId, ObjList),
    /// A sense of the action finds this.
    Saw(Seen),
    /// The plan branches on the conjunction, which is true or false.
    Test(Conj, bool),
    /// The plan has cases for the term, which has this value.
    Case(Term, ObjId),
    /// The run ends.
    End(End),
}

/// What happens, in order.
pub type Run = Sequence<Event>;
