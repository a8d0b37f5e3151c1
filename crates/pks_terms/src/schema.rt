//! Queries, effects, senses, adds, actions and their instances. `docs/RULES.md` says what each means.
ghost use Rattle.std.specs.Prelude.{◌≡◌};

use crate::ids::{ActId, Span, TypeId};
use crate::literal::{Conj, Literal, Pattern, PredAtom};
use crate::sequence::Sequence;
use crate::term::{Inner, Term};

/// A question about what is known. The rule on queries in `docs/RULES.md` says when it is answered.
#[derive(Clone, Copy)]
pub enum Query {
    /// Whether the literal is known.
    K(Literal),
    /// Whether the truth of the conjunction is known.
    Kw(Conj),
    /// Whether the value of the term is known.
    Kv(Term),
    /// Whether `K` isn't answered.
    NotK(Literal),
    /// Whether `Kw` isn't answered.
    NotKw(Conj),
    /// Whether `Kv` isn't answered.
    NotKv(Term),
}

/// What an effect writes into the world.
#[derive(Clone, Copy)]
pub enum Target {
    /// The atom becomes true.
    Set(PredAtom),
    /// The atom becomes false.
    Unset(PredAtom),
    /// Each instance of the pattern becomes false.
    Clear(Pattern),
    /// The place, an application, gets the value.
    Assign { place: Term, value: Term },
}

/// A target that is written where every literal of the condition is true.
#[derive(Clone, Copy)]
pub struct Effect {
    /// The condition, which is empty where there is none.
    pub cond: Conj,
    /// What is written.
    pub target: Target,
}

/// What an action observes in the world that it leads to.
#[derive(Clone, Copy)]
pub enum Sense {
    /// The truth of the conjunction.
    Whether(Conj),
    /// The value of the term.
    Value(Term),
    /// The true instances of the pattern.
    All(Pattern),
}

/// What an add puts into the databases.
#[derive(Clone, Copy)]
pub enum Item {
    /// A known literal.
    Kf(Literal),
    /// A conjunction whose truth will be known.
    Kw(Conj),
    /// A term whose value will be known.
    Kv(Term),
    /// A pattern of whose instances all true ones are known.
    Lcw(Pattern),
}

/// An item that is put in where each of the queries is answered. The rule on justification in `docs/RULES.md` says
/// which adds an action may have.
#[derive(Clone, Copy)]
pub struct Adds {
    /// How many queries are in use.
    pub n: u8,
    /// The queries, and fillers after those in use.
    pub given: [Query; 4],
    /// What is put in.
    pub item: Item,
    /// Where the add stands in the source.
    pub span: Span,
}

/// An action with its arguments.
#[derive(Clone, Copy)]
pub struct Instance {
    /// The action.
    pub act: ActId,
    /// How many arguments are in use.
    pub n: u8,
    /// The arguments, and fillers after those in use.
    pub args: [Inner; 4],
}

/// A list of types.
pub type SortList = Sequence<TypeId>;

/// A list of queries.
pub type QueryList = Sequence<Query>;

/// A list of effects.
pub type EffectList = Sequence<Effect>;

/// A list of senses.
pub type SenseList = Sequence<Sense>;

/// A list of adds.
pub type AddList = Sequence<Adds>;

/// An action of the problem. `docs/RULES.md` says what it does to worlds and to databases.
#[derive(Drop)]
pub struct Schema<'s> {
    /// The action's name, lent from the source.
    pub name: &'s str,
    /// What the action costs.
    pub cost: u32,
    /// The type of each parameter.
    pub params: SortList,
    /// What has to be answered before.
    pub pre: QueryList,
    /// The effects in written order.
    pub effects: EffectList,
    /// The senses in written order.
    pub senses: SenseList,
    /// The adds in written order.
    pub adds: AddList,
}

/// A list of actions.
pub type SchemaList<'s> = Sequence<Schema<'s>>;

/// The filler of an unused place.
impl Default for Query {
    ghost use Rattle.pks_terms.specs.Fillers.{query_filler};

    ghost is_default = { λ q. q ≡ query_filler };

    fn default() -> Query {
        Query::K(Literal::default())
    }
}
