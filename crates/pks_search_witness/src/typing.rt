//! Whether atoms and places are those of a signature, with objects of the types that are wanted.
ghost use Rattle.std.specs.Prelude.{◌≡◌, map};
ghost use Rattle.pks_terms.specs.Signatures.{object_is_of};
ghost use Rattle.pks_terms.specs.Views.{inner_of, term_of, terms_of, atom_of, types_of, signature_of};
ghost use Rattle.pks_search_witness.specs.Typing.{is_object_of, are_objects_of, is_typed_atom, is_typed_place};

use pks_terms::ids::{FnId, ObjId, TypeId};
use pks_terms::literal::PredAtom;
use pks_terms::lookup::object_is_of;
use pks_terms::problem::Signature;
use pks_terms::term::{Inner, Term, front};

/// Whether the term is an object of the type.
fn term_is_of(s: &Signature, of: TypeId, t: &Term) -> bool
    ensures { result ≡ is_object_of (signature_of s.now) of.0 (term_of t.now) }
{
    match t {
        Term::Obj(d) => object_is_of(s, of, *d),
        Term::Param(_) | Term::App { .. } => false,
    }
}

/// Whether the terms are objects of the types, one by one.
fn terms_are_of(s: &Signature, types: &[TypeId], terms: &[Term]) -> bool
    ensures { result ≡ are_objects_of (signature_of s.now) (types_of types.now) (terms_of terms.now) }
{
    match types {
        [] => terms.is_empty(),
        [of, types @ ..] => match terms {
            [] => false,
            [t, terms @ ..] => term_is_of(s, *of, t) && terms_are_of(s, types, terms),
        },
    }
}

/// Whether the argument is an object of the type.
fn inner_is_of(s: &Signature, of: TypeId, t: &Inner) -> bool
    ensures { result ≡ is_object_of (signature_of s.now) of.0 (inner_of t.now) }
{
    match t {
        Inner::Obj(d) => object_is_of(s, of, *d),
        Inner::Param(_) | Inner::App { .. } => false,
    }
}

/// Whether the arguments are objects of the types, one by one.
fn inners_are_of(s: &Signature, types: &[TypeId], args: &[Inner]) -> bool
    ensures { result ≡ are_objects_of (signature_of s.now) (types_of types.now) (map inner_of args.now) }
{
    match types {
        [] => args.is_empty(),
        [of, types @ ..] => match args {
            [] => false,
            [t, args @ ..] => inner_is_of(s, *of, t) && inners_are_of(s, types, args),
        },
    }
}

/// Whether the atom is of a declared predicate and has objects of its types.
pub(crate) fn is_typed_atom(s: &Signature, a: &PredAtom) -> bool
    ensures { result ≡ is_typed_atom (signature_of s.now) (atom_of a.now) }
{
    match s.predicates.as_slice().get(usize::from(a.pred.0)) {
        Some(shape) => terms_are_of(s, front(&shape.args, shape.n), front(&a.args, a.n)),
        None => false,
    }
}

/// Whether the function at the arguments is a place of the signature, and the object one that it may have as its value.
pub(crate) fn is_typed_place(s: &Signature, fun: FnId, args: &[Inner], d: ObjId) -> bool
    ensures { result ≡ is_typed_place (signature_of s.now) fun.0 (map inner_of args.now) d.0 }
{
    match s.functions.as_slice().get(usize::from(fun.0)) {
        Some(shape) => {
            inners_are_of(s, front(&shape.args, shape.n), args) && object_is_of(s, shape.result, d)
        }
        None => false,
    }
}
