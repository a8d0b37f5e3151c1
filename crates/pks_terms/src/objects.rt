//! Terms and literals that speak of objects alone.
ghost use Rattle.std.specs.Prelude.{◌≡◌, map};
ghost use Rattle.pks_terms.specs.Objects.{is_object, are_objects, is_place, is_of_objects};
ghost use Rattle.pks_terms.specs.Views.{inner_of, term_of, terms_of, literal_of};

use crate::literal::{Atom, Literal};
use crate::term::{Inner, Term, front};

/// Whether the term is an object.
pub fn is_object(t: &Term) -> bool
    ensures { result ≡ is_object (term_of t.now) }
{
    match t {
        Term::Obj(_) => true,
        Term::Param(_) | Term::App { .. } => false,
    }
}

/// Whether each of the terms is an object.
pub fn are_objects(ts: &[Term]) -> bool
    ensures { result ≡ are_objects (terms_of ts.now) }
{
    for t in ts {
        if !is_object(t) {
            return false;
        }
    }
    true
}

/// Whether the argument is an object.
fn is_inner_object(t: &Inner) -> bool
    ensures { result ≡ is_object (inner_of t.now) }
{
    match t {
        Inner::Obj(_) => true,
        Inner::Param(_) | Inner::App { .. } => false,
    }
}

/// Whether each of the arguments is an object.
fn are_inner_objects(ts: &[Inner]) -> bool
    ensures { result ≡ are_objects (map inner_of ts.now) }
{
    for t in ts {
        if !is_inner_object(t) {
            return false;
        }
    }
    true
}

/// Whether the term is a function at objects.
pub fn is_place(t: &Term) -> bool
    ensures { result ≡ is_place (term_of t.now) }
{
    match t {
        Term::Obj(_) | Term::Param(_) => false,
        Term::App { n, args, .. } => are_inner_objects(front(args, *n)),
    }
}

/// Whether the literal is a predicate at objects or the negation of one.
pub fn is_of_objects(l: &Literal) -> bool
    ensures { result ≡ is_of_objects (literal_of l.now) }
{
    match &l.atom {
        Atom::Pred(a) => are_objects(front(&a.args, a.n)),
        Atom::Eq { .. } => false,
    }
}
