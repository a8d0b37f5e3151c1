//! Applications in terms and literals, and replacing them. `docs/RULES.md` has the rules on terms and literals.

use crate::pushing::push;
use pks_query_lookup::table::place_of;
use pks_terms::ids::ObjId;
use pks_terms::literal::{Arguments, Atom, Literal, PredAtom, equation};
use pks_terms::term::{Inner, Term};
use std::alloc::{AllocError, Global};

/// The spots in a term where it may be replaced: each of its two arguments, and then the whole.
pub(crate) const SPOTS_OF_TERM: usize = 3;

/// The spots in a literal: those of each of its three terms.
pub(crate) const SPOTS_OF_LITERAL: usize = 9;

/// The equation of two terms. `docs/RULES.md` has the rule on literals.
pub fn equal(t: &Term, u: &Term) -> Literal {
    equation(t, u, true)
}

/// The negated equation of two terms. `docs/RULES.md` has the rule on literals.
pub fn unequal(t: &Term, u: &Term) -> Literal {
    equation(t, u, false)
}

/// The application with another argument at this position.
fn with_argument(t: &Term, position: usize, argument: Inner) -> Term {
    match t {
        Term::Obj(_) | Term::Param(_) => *t,
        Term::App { fun, n, args } => Term::App {
            fun: *fun,
            n: *n,
            args: [
                if position == 0 { argument } else { args[0] },
                if position == 1 { argument } else { args[1] },
            ],
        },
    }
}

/// What may have a value at this spot of the term.
pub(crate) fn place_at(t: &Term, spot: usize) -> Option<Inner> {
    if spot < 2 {
        t.arguments().get(spot).copied()
    } else {
        place_of(t)
    }
}

/// The term with the object at this spot.
pub(crate) fn with_object(t: &Term, spot: usize, d: ObjId) -> Term {
    if spot < 2 {
        with_argument(t, spot, Inner::Obj(d))
    } else {
        Term::Obj(d)
    }
}

/// The terms with another at this position.
pub(crate) fn with_term(terms: &[Term; 3], position: usize, t: &Term) -> [Term; 3] {
    [
        if position == 0 { *t } else { terms[0] },
        if position == 1 { *t } else { terms[1] },
        if position == 2 { *t } else { terms[2] },
    ]
}

/// The atom with other arguments.
pub(crate) fn with_arguments(a: &PredAtom, terms: &[Term; 3]) -> PredAtom {
    PredAtom {
        pred: a.pred,
        n: a.n,
        args: *terms,
    }
}

/// The arguments of the atom by themselves.
pub(crate) fn arguments_of(a: &PredAtom) -> Arguments {
    Arguments {
        n: a.n,
        items: a.args,
    }
}

/// The literal with other arguments, or sides.
pub(crate) fn with_terms(l: &Literal, terms: &[Term; 3]) -> Literal {
    match &l.atom {
        Atom::Pred(a) => Literal {
            atom: Atom::Pred(with_arguments(a, terms)),
            positive: l.positive,
        },
        Atom::Eq { .. } => equation(&terms[0], &terms[1], l.positive),
    }
}

/// The literal with the place, where it stands at this spot, replaced by its value.
pub(crate) fn with_value_at(l: &Literal, spot: usize, place: &Inner, d: ObjId) -> Option<Literal> {
    let given = l.atom.arguments();
    let position = spot / SPOTS_OF_TERM;
    let t = given.terms().get(position)?;
    if place_at(t, spot % SPOTS_OF_TERM)? != *place {
        return None;
    }
    let u = with_object(t, spot % SPOTS_OF_TERM, d);
    Some(with_terms(l, &with_term(&given.items, position, &u)))
}

/// Puts the term, if it is an application.
fn put_application(t: &Term, to: &mut Vec<Term>) -> Result<(), AllocError> {
    match t {
        Term::Obj(_) | Term::Param(_) => Ok(()),
        Term::App { .. } => push(to, *t),
    }
}

/// Puts the applications in the term, the inner ones first.
fn put_applications(t: &Term, to: &mut Vec<Term>) -> Result<(), AllocError> {
    for argument in t.arguments() {
        put_application(&argument.as_term(), to)?;
    }
    put_application(t, to)
}

/// The applications in the literal, term by term, the inner ones first.
pub(crate) fn applications_in(alloc: Global, l: &Literal) -> Result<Vec<Term>, AllocError> {
    let mut applications = Vec::new(alloc);
    for t in l.atom.arguments().terms() {
        put_applications(t, &mut applications)?;
    }
    Ok(applications)
}
