//! Choices: instances of actions, branches and cases; and their sides. `docs/RULES.md` has the rules.
use crate::ids::ObjId;
use crate::literal::Conj;
use crate::schema::Instance;
use crate::sequence::Sequence;
use crate::term::Term;

/// What a plan may go on with.
#[derive(Clone, Copy)]
pub enum Choice {
    /// An action.
    Act(Instance),
    /// A branch on a formula that will be known to be true or false.
    Branch(Conj),
    /// Cases on a term whose value will be known.
    Cases(Term),
}

/// A list of choices.
pub type ChoiceList = Sequence<Choice>;

/// What is assumed of a choice: of a formula that it is true or false, of a term that it is an object.
#[derive(Clone, Copy)]
pub enum Side {
    /// The formula is true.
    True,
    /// The formula is false.
    False,
    /// The value is this object.
    Is(ObjId),
}
