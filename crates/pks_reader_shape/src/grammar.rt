//! What a form may stand for, and what the parts of a list are (`docs/FORMAT.md`).

/// The version of a file.
#[derive(Clone, Copy, Debug, PartialEq, Eq)]
pub enum Version {
    First,
    Second,
}

/// What a form may stand for.
#[derive(Clone, Copy, Debug, PartialEq, Eq)]
pub enum Sort {
    /// No form.
    Nothing,
    /// The word that a list begins with.
    Head,
    /// A name.
    Name,
    /// A variable.
    Variable,
    /// A number.
    Number,
    /// The domain.
    Domain,
    /// The section of types.
    Types,
    /// One type.
    Kind,
    /// The section of objects.
    Objects,
    /// The section of predicates.
    Predicates,
    /// The section of functions.
    Functions,
    /// A type with its objects, or a predicate with the types of its arguments.
    Entry,
    /// A function with the types of its arguments and its result.
    Function,
    /// An action.
    Action,
    /// The cost of an action.
    Cost,
    /// The section of parameters.
    Params,
    /// One parameter.
    Param,
    /// The section of preconditions.
    Pre,
    /// The section of effects.
    Effects,
    /// One effect.
    Effect,
    /// The condition of an effect.
    Condition,
    /// What an effect does.
    Target,
    /// The section of senses.
    Senses,
    /// One sense.
    Sense,
    /// The section of what is then known.
    Knows,
    /// One thing that is then known.
    Add,
    /// The condition of such a thing.
    Given,
    /// One thing that is known.
    Item,
    /// A query.
    Query,
    /// A query that is not negated.
    Plain,
    /// The problem.
    Problem,
    /// The section of what is known at the start.
    Init,
    /// One thing that is known at the start.
    Start,
    /// The section of goals.
    Goal,
    /// One goal.
    Aim,
    /// A literal.
    Literal,
    /// An atom or an equation.
    Positive,
    /// An atom.
    Atom,
    /// A pattern.
    Pattern,
    /// One place of a pattern.
    Slot,
    /// A function with its arguments.
    Place,
    /// A term.
    Term,
    /// A world.
    World,
    /// The section of true atoms.
    True,
    /// The section of values.
    Values,
    /// One value.
    Value,
    /// An atom or a function over objects.
    Fact,
}

/// One part of a list, a part that may be missing, or any number of parts.
#[derive(Clone, Copy, Debug, PartialEq, Eq)]
pub enum Part {
    One(Sort),
    Maybe(Sort),
    Many(Sort),
}
