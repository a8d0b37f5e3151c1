//! Whether each place of a signature has a value.
ghost use Rattle.std.specs.Prelude.{◌≡◌, ◌≤◌, [], ◌∷◌, ◌++◌, ◌+◌, map, take, length};
ghost use Rattle.pks_terms.specs.declared.limits.TheConstants.{MOST_OBJECTS};
ghost use Rattle.pks_terms.specs.Sets.{Each};
ghost use Rattle.pks_terms.specs.Views.{object_of, term_of, shape_of, signature_of, types_of};
ghost use Rattle.pks_reader_world.specs.Places.{all_given, have_values, is_full};
ghost use Rattle.pks_reader_world.specs.Views.{given_of};

use crate::naming::NO_OBJECT;
use pks_terms::ids::{FnId, ObjId, TypeId};
use pks_terms::problem::{Shape, Signature};
use pks_terms::term::{Term, application, front};
use std::collections::BTreeSet;

/// Whether the place has a value.
#[tactic(auto, using(pks_terms::proofs::ListLaws::any_alike), unfolding(pks_terms::specs::Orders::term_eq))]
pub(crate) fn is_given(given: &BTreeSet<Term>, at: &Term) -> bool
    ensures { result ≡ given_of given.now (term_of at.now) }
{
    given.contains(at)
}

// The first n objects and one more.
#[tactic(auto, using(std::proofs::lemmas::List::take_more_set))]
fn one_more(n: u8, args: &[ObjId; 2], d: ObjId) -> [ObjId; 2]
    requires { n ≤ 1 }
    ensures { map object_of (take (n + 1) result) ≡ map object_of (take n args.now) ++ object_of d ∷ [] }
{
    if n == 0 { [d, args[1]] } else { [args[0], d] }
}

// The function has a value at the first n objects followed by any objects of the types.
#[tactic(auto, unfolding(pks_terms::specs::Signatures::objects_of))]
fn all_given(
    s: &Signature,
    given: &BTreeSet<Term>,
    fun: FnId,
    n: u8,
    args: &[ObjId; 2],
    types: &[TypeId],
) -> bool
    requires objects { length s.now.objects ≤ MOST_OBJECTS }
    requires few { n + length types.now ≤ 2 }
    ensures { result ≡ all_given (signature_of s.now) (given_of given.now) fun.0 (map object_of (take n args.now)) (types_of types.now) }
{
    match types {
        [] => is_given(given, &application(fun, n, args)),
        [of, rest @ ..] => {
            for (i, own) in s.objects.as_slice().iter().enumerate() {
                let more = one_more(n, args, ObjId(i as u16));
                if s.fits(*own, *of) && !all_given(s, given, fun, n + 1, &more, rest) {
                    return false;
                }
            }
            true
        }
    }
}

// The function has all its values.
fn has_values(s: &Signature, given: &BTreeSet<Term>, fun: FnId, shape: &Shape) -> bool
    requires objects { length s.now.objects ≤ MOST_OBJECTS }
    requires few { length (shape_of shape.now).arguments ≤ 2 }
    ensures { result ≡ all_given (signature_of s.now) (given_of given.now) fun.0 [] (shape_of shape.now).arguments }
{
    let types = front(&shape.args, shape.n);
    all_given(s, given, fun, 0, &[NO_OBJECT, NO_OBJECT], types)
}

/// Each place of the signature has a value.
#[tactic(auto, unfolding(crate::specs::Places::is_full))]
pub(crate) fn is_full(s: &Signature, given: &BTreeSet<Term>) -> bool
    requires objects { length s.now.objects ≤ MOST_OBJECTS }
    requires functions { length s.now.functions ≤ 256 }
    requires few { Each (λ x. length (shape_of x).arguments ≤ 2) s.now.functions }
    ensures { result ≡ is_full (signature_of s.now) (given_of given.now) }
{
    for (f, shape) in s.functions.as_slice().iter().enumerate() {
        if !has_values(s, given, FnId(f as u8), shape) {
            return false;
        }
    }
    true
}
