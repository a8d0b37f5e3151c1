//! Proofs: lines along a path, each with a fact at a moment and the reason why it may stand. `docs/REASONS.md` has the
//! reasons.
ghost use Rattle.std.specs.Prelude.{◌≡◌};
ghost use Rattle.pks_terms.specs.Orders.{literal_eq};
ghost use Rattle.pks_terms.specs.Judging.{fact_eq};
ghost use Rattle.pks_proof_lines.specs.ProofViews.{fact_of};

use pks_lcw::Entry;
use pks_terms::choices::{Choice, Side};
use pks_terms::group::Group;
use pks_terms::ids::ItemNo;
use pks_terms::literal::Literal;
use pks_terms::schema::Instance;
use pks_terms::sequence::{NumberList, Sequence};

/// What a line says of its moment.
#[derive(Drop)]
pub enum Fact {
    /// The literal is true.
    Lit(Literal),
    /// Exactly one literal of the group is true.
    Kx(Group),
    /// Each true instance of the entry's pattern is the value of a listed atom.
    Lcw(Entry),
}

/// Why a line may stand. Initial items, and the sides that the path takes, are counted from 1.
#[derive(Clone, Copy)]
pub enum Reason {
    /// The initial item of this number says so.
    Given(ItemNo),
    /// The side that the path takes as its n-th says so.
    Side(u32),
    /// Two terms are the same or evidently differ.
    Same,
    /// One term of a cited fact is replaced by another.
    Swap,
    /// Of a cited group only this member is left.
    Only,
    /// Another member of a cited group is true.
    Others,
    /// Of the objects of a type only this one is left.
    Range,
    /// A cited region shuts the atom out.
    Closed,
    /// So it was one moment before, and the action keeps it.
    Keep,
    /// So it is one moment later, and the action doesn't make it so.
    Back,
    /// An effect of the action makes it so.
    Effect,
    /// An effect of the action must have fired.
    Must,
    /// An effect of the action cannot have fired.
    Cannot,
    /// A region grows by what the action makes true.
    Grow,
    /// The action clears the region.
    Clear,
}

/// A fact at a moment, why it may stand, and the numbers of the lines on which it rests. Lines are counted from 1.
#[derive(Drop)]
pub struct Line {
    /// The moment of which the fact is said: so many actions were done before.
    pub moment: u32,
    /// What is said.
    pub fact: Fact,
    /// Why it may stand.
    pub reason: Reason,
    /// The lines on which it rests.
    pub cites: NumberList,
}

/// The lines of a proof in order.
pub type Proof = Sequence<Line>;

/// One piece of the way that a run takes through a tree.
#[derive(Clone, Copy)]
pub enum Turn {
    /// The action is done.
    Went(Instance),
    /// The side of the choice is taken.
    Took(Choice, Side),
}

/// The way that a run takes through a tree, from the root on.
pub type Path = Sequence<Turn>;

/// Whether the facts are equal. It takes no memory.
#[tactic(auto, unfolding(pks_terms::specs::Orders::literal_eq))]
pub fn same_fact(f: &Fact, g: &Fact) -> bool
    ensures { result ≡ fact_eq (fact_of f.now) (fact_of g.now) }
{
    match f {
        Fact::Lit(l) => match g {
            Fact::Lit(k) => l == k,
            Fact::Kx(_) | Fact::Lcw(_) => false,
        },
        Fact::Kx(a) => match g {
            Fact::Kx(b) => a == b,
            Fact::Lit(_) | Fact::Lcw(_) => false,
        },
        Fact::Lcw(a) => match g {
            Fact::Lcw(b) => a == b,
            Fact::Lit(_) | Fact::Kx(_) => false,
        },
    }
}
