//! The terms of what an effect writes, and what it writes with others in their stead.

use pks_terms::literal::{Pattern, PredAtom};
use pks_terms::schema::Target;
use pks_terms::term::{Inner, Term, front};

/// Terms, and nothing at the places that are open or not in use.
pub(crate) type Parts = [Option<Term>; 3];

/// The term at the place, if there is one.
fn slot(terms: &[Term], place: usize) -> Option<Term> {
    if place < terms.len() {
        Some(terms[place])
    } else {
        None
    }
}

/// The arguments of the atom.
pub(crate) fn arguments(a: &PredAtom) -> Parts {
    let terms = front(&a.args, a.n);
    [slot(terms, 0), slot(terms, 1), slot(terms, 2)]
}

/// The term at the place of the pattern, if it isn't open.
fn fixed_term(x: &Pattern, place: usize) -> Option<Term> {
    match front(&x.args, x.n).get(place) {
        Some(t) => *t,
        None => None,
    }
}

/// The terms of the pattern.
pub(crate) fn fixed_terms(x: &Pattern) -> Parts {
    [fixed_term(x, 0), fixed_term(x, 1), fixed_term(x, 2)]
}

/// The argument of the term, if it has one there.
pub(crate) fn argument(t: &Term, place: usize) -> Option<Term> {
    let Term::App { n, args, .. } = t else {
        return None;
    };
    match front(args, *n).get(place) {
        Some(arg) => Some(arg.as_term()),
        None => None,
    }
}

/// The terms of the target, of a place its arguments.
pub(crate) fn terms_of(target: &Target) -> Parts {
    match target {
        Target::Set(a) | Target::Unset(a) => arguments(a),
        Target::Clear(x) => fixed_terms(x),
        Target::Assign { place, value } => [argument(place, 0), argument(place, 1), Some(*value)],
    }
}

/// The terms of the target that are replaced in its forms, none of a pattern.
pub(crate) fn whole_terms(target: &Target) -> Parts {
    match target {
        Target::Set(a) | Target::Unset(a) => arguments(a),
        Target::Clear(_) => [None; 3],
        Target::Assign { place, value } => [Some(*place), Some(*value), None],
    }
}

/// The new term, or else the old one.
fn or_term(new: &Option<Term>, old: &Term) -> Term {
    match new {
        Some(t) => *t,
        None => *old,
    }
}

/// The new term, or else the old one, if there is one.
fn or_slot(new: &Option<Term>, old: &Option<Term>) -> Option<Term> {
    match new {
        Some(t) => Some(*t),
        None => *old,
    }
}

/// The new argument where it is an object, or else the old one.
fn or_inner(new: &Option<Term>, old: &Inner) -> Inner {
    match new {
        Some(Term::Obj(d)) => Inner::Obj(*d),
        Some(_) | None => *old,
    }
}

/// The atom with these arguments.
fn atom_with(a: &PredAtom, args: [Term; 3]) -> PredAtom {
    PredAtom {
        pred: a.pred,
        n: a.n,
        args,
    }
}

/// The atom with these in the stead of its arguments.
fn atom_by(a: &PredAtom, new: &Parts) -> PredAtom {
    let first = or_term(&new[0], &a.args[0]);
    let second = or_term(&new[1], &a.args[1]);
    let third = or_term(&new[2], &a.args[2]);
    atom_with(a, [first, second, third])
}

/// The pattern with these in the stead of its terms.
fn pattern_by(x: &Pattern, new: &Parts) -> Pattern {
    let first = or_slot(&new[0], &x.args[0]);
    let second = or_slot(&new[1], &x.args[1]);
    let third = or_slot(&new[2], &x.args[2]);
    Pattern {
        pred: x.pred,
        n: x.n,
        args: [first, second, third],
    }
}

/// The place with the objects among these in the stead of its arguments.
fn place_by(place: &Term, new: &Parts) -> Term {
    match place {
        Term::App { fun, n, args } => Term::App {
            fun: *fun,
            n: *n,
            args: [or_inner(&new[0], &args[0]), or_inner(&new[1], &args[1])],
        },
        Term::Obj(_) | Term::Param(_) => *place,
    }
}

/// The target with these in the stead of its terms.
pub(crate) fn target_by(target: &Target, new: &Parts) -> Target {
    match target {
        Target::Set(a) => Target::Set(atom_by(a, new)),
        Target::Unset(a) => Target::Unset(atom_by(a, new)),
        Target::Clear(x) => Target::Clear(pattern_by(x, new)),
        Target::Assign { place, value } => Target::Assign {
            place: place_by(place, new),
            value: or_term(&new[2], value),
        },
    }
}

/// The target with these: the arguments of an atom, or a place and its value.
pub(crate) fn target_with(target: &Target, terms: &[Term; 3]) -> Target {
    match target {
        Target::Set(a) => Target::Set(atom_with(a, *terms)),
        Target::Unset(a) => Target::Unset(atom_with(a, *terms)),
        Target::Clear(x) => Target::Clear(*x),
        Target::Assign { .. } => Target::Assign {
            place: terms[0],
            value: terms[1],
        },
    }
}
