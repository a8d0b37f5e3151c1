//! The reasons that speak of what terms can be: `same` and `range`. `docs/REASONS.md` has the rules.
ghost use Rattle.std.specs.Prelude.{◌≡◌, ◌≤◌, ◌+◌, ◌||◌, ◌&&◌, ◌==◌, [], ◌∷◌, length, not, true, false};
ghost use Rattle.std.specs.List.{list_any};
ghost use Rattle.std.specs.Option.{option_map};
ghost use Rattle.pks_terms.specs.declared.limits.TheConstants.{MOST_OBJECTS};
ghost use Rattle.pks_terms.specs.Syntax.{object, Equality};
ghost use Rattle.pks_terms.specs.Orders.{inequation};
ghost use Rattle.pks_terms.specs.Signatures.{fits_type, objects_from, object_is_of, is_foreign, type_of};
ghost use Rattle.pks_terms.specs.Databases.{is_evident};
ghost use Rattle.pks_terms.specs.Judging.{is_cited};
ghost use Rattle.pks_terms.specs.Reasons.{is_same, objects_like, others_ruled_out, is_in_range};
ghost use Rattle.pks_terms.specs.Views.{term_of, types_of, literal_of, signature_of};
ghost use Rattle.pks_proof_cited.specs.CitedViews.{judge_of};

use crate::cited::Cited;
use pks_terms::ids::{ObjId, TypeId};
use pks_terms::literal::{Atom, Literal};
use pks_terms::lookup::{is_foreign, object_is_of};
use pks_terms::problem::Signature;
use pks_terms::term::Term;

/// Whether the terms are two different objects, or an application and an object that isn't one of its result type.
fn are_different(s: &Signature, t: &Term, u: &Term) -> bool
    ensures { result ≡ is_evident (signature_of s.now) Equality (term_of t.now ∷ term_of u.now ∷ []) false }
{
    match t {
        Term::Param(_) => false,
        Term::Obj(d) => match u {
            Term::Param(_) => false,
            Term::Obj(e) => d.0 != e.0,
            Term::App { fun, .. } => is_foreign(s, *fun, *d),
        },
        Term::App { fun, .. } => match u {
            Term::Param(_) | Term::App { .. } => false,
            Term::Obj(e) => is_foreign(s, *fun, *e),
        },
    }
}

/// `same`: whether the literal is an equation of one term with itself, or says that two different objects differ, or an
/// application and an object that isn't one of its result type. It takes no memory.
#[tactic(auto, unfolding(pks_terms::specs::Orders::term_eq))]
pub fn is_same(s: &Signature, l: &Literal) -> bool
    ensures { result ≡ is_same (signature_of s.now) (literal_of l.now) }
{
    match &l.atom {
        Atom::Pred(_) => false,
        Atom::Eq { left, right } => {
            if l.positive {
                left == right
            } else {
                are_different(s, left, right)
            }
        }
    }
}

/// The type of a term: an object's own, or the result type of a declared function.
fn type_of(s: &Signature, t: &Term) -> Option<TypeId>
    ensures { option_map (λ x. x.0) result ≡ type_of (signature_of s.now) (term_of t.now) }
{
    match t {
        Term::Param(_) => None,
        Term::Obj(d) => match s.objects.as_slice().get(d.0 as usize) {
            None => None,
            Some(own) => Some(*own),
        },
        Term::App { fun, .. } => match s.functions.as_slice().get(fun.0 as usize) {
            None => None,
            Some(shape) => Some(shape.result),
        },
    }
}

/// An object with its own type.
#[derive(Clone, Copy)]
struct TypedObject {
    id: ObjId,
    own: TypeId,
}

/// Whether the object isn't of the type, or is `d`, or is cited not to be the term's value.
fn is_ruled_out(
    c: &Cited<'_>,
    s: &Signature,
    t: &Term,
    d: ObjId,
    of: TypeId,
    e: TypedObject,
) -> bool
    ensures { result ≡ (not (fits_type (signature_of s.now) e.own.0 of.0) || ((e.id.0 == d.0) || is_cited (judge_of c.now) c.now.moment (inequation (term_of t.now) (object e.id.0)))) }
{
    !s.fits(e.own, of) || (e.id.0 == d.0 || c.tells_apart(t, &Term::Obj(e.id)))
}

/// Whether each of these objects, counted from 0, that is of the type and isn't `d` is cited not to be the term's value.
#[tactic(auto, using(crate::proofs::Ranging::one_ruled_out))]
fn are_ruled_out(
    c: &Cited<'_>,
    s: &Signature,
    t: &Term,
    d: ObjId,
    of: TypeId,
    owns: &[TypeId],
) -> bool
    requires { length owns.now ≤ MOST_OBJECTS }
    ensures { result ≡ others_ruled_out (judge_of c.now) c.now.moment (term_of t.now) d.0 (objects_from (λ own. fits_type (signature_of s.now) own of.0) 0 (types_of owns.now)) }
{
    let mut at: usize = 0;
    for own in owns {
        let e = TypedObject {
            id: ObjId(at as u16),
            own: *own,
        };
        if !is_ruled_out(c, s, t, d, of, e) {
            return false;
        }
        at += 1;
    }
    true
}

/// Whether the object is one of the term's type, and each other of it is cited not to be the term's value.
fn is_last_left(c: &Cited<'_>, s: &Signature, t: &Term, d: ObjId) -> bool
    requires { length s.now.objects ≤ MOST_OBJECTS }
    ensures { result ≡ (list_any (λ e. e == d.0) (objects_like (signature_of s.now) (term_of t.now)) && others_ruled_out (judge_of c.now) c.now.moment (term_of t.now) d.0 (objects_like (signature_of s.now) (term_of t.now))) }
{
    match type_of(s, t) {
        None => false,
        Some(of) => object_is_of(s, of, d) && are_ruled_out(c, s, t, d, of, s.objects.as_slice()),
    }
}

/// `range`: whether the literal is an equation with an object of the term's type on the right, each other object of that type
/// cited not to be the term's value. It takes no memory.
pub fn is_in_range(c: &Cited<'_>, s: &Signature, l: &Literal) -> bool
    requires { length s.now.objects ≤ MOST_OBJECTS }
    ensures { result ≡ is_in_range (signature_of s.now) (judge_of c.now) c.now.moment (literal_of l.now) }
{
    match &l.atom {
        Atom::Pred(_) => false,
        Atom::Eq { left, right } => {
            if !l.positive {
                return false;
            }
            match right {
                Term::Param(_) | Term::App { .. } => false,
                Term::Obj(d) => is_last_left(c, s, left, *d),
            }
        }
    }
}
