//! What an effect may do: make an atom or the instances of a pattern true or false, or give a place a value.

use crate::parts::{Parts, argument, arguments, fixed_terms};
use pks_explain_lines::unequal;
use pks_terms::literal::{Atom, Literal, PredAtom};
use pks_terms::schema::Target;
use pks_terms::term::Term;

/// What an effect may do.
#[derive(Clone, Copy)]
pub(crate) struct EffectChange {
    /// Whether a place gets a value.
    is_value: bool,
    /// Whether what is made is true.
    positive: bool,
    /// The number of the predicate or function.
    symbol: u8,
    /// The terms at its places.
    pub parts: Parts,
    /// The value that a place gets, where that matters.
    value: Option<Term>,
}

/// The atom comes to be true, or false.
fn making(a: &PredAtom, positive: bool) -> EffectChange {
    EffectChange {
        is_value: false,
        positive,
        symbol: a.pred.0,
        parts: arguments(a),
        value: None,
    }
}

/// The place, if it is an application, gets the value.
fn assigning(place: &Term, value: Option<Term>) -> Option<EffectChange> {
    let Term::App { fun, .. } = place else {
        return None;
    };
    Some(EffectChange {
        is_value: true,
        positive: true,
        symbol: fun.0,
        parts: [argument(place, 0), argument(place, 1), None],
        value,
    })
}

/// The term, if it is an application, gets another value.
pub(crate) fn changing(t: &Option<Term>) -> Option<EffectChange> {
    match t {
        Some(place) => assigning(place, None),
        None => None,
    }
}

/// The literal comes to be false, where it isn't an equation.
pub(crate) fn denying(l: &Literal) -> Option<EffectChange> {
    match &l.atom {
        Atom::Pred(a) => Some(making(a, !l.positive)),
        Atom::Eq { .. } => None,
    }
}

/// What is done where the target is written.
pub(crate) fn writing(target: &Target) -> Option<EffectChange> {
    match target {
        Target::Set(a) => Some(making(a, true)),
        Target::Unset(a) => Some(making(a, false)),
        Target::Clear(x) => Some(EffectChange {
            is_value: false,
            positive: false,
            symbol: x.pred.0,
            parts: fixed_terms(x),
            value: None,
        }),
        Target::Assign { place, value } => assigning(place, Some(*value)),
    }
}

/// What undoes that.
pub(crate) fn undoing(d: Option<EffectChange>) -> Option<EffectChange> {
    match d {
        Some(d) => Some(EffectChange {
            positive: d.is_value || !d.positive,
            value: None,
            ..d
        }),
        None => None,
    }
}

/// Whether both are done to the same predicate or function, and in the same way.
pub(crate) fn is_alike(x: &EffectChange, y: &EffectChange) -> bool {
    x.is_value == y.is_value && x.positive == y.positive && x.symbol == y.symbol
}

/// That the values differ.
pub(crate) fn values_differ(x: &EffectChange, y: &EffectChange) -> Option<Literal> {
    match (&x.value, &y.value) {
        (Some(t), Some(u)) => Some(unequal(t, u)),
        _ => None,
    }
}
