//! What may stand for a parameter. `docs/RULES.md` has the rule on choices.
ghost use Rattle.std.specs.Prelude.{◌≡◌, ◌++◌, ◌≤◌, map, length, IfOk, OnOk, None, option_map, if◌then◌else◌};
ghost use Rattle.std.specs.List.{filter_map};
ghost use Rattle.pks_terms.specs.declared.limits.TheConstants.{MOST_OBJECTS};
ghost use Rattle.pks_terms.specs.Syntax.{Object};
ghost use Rattle.pks_terms.specs.Signatures.{has_type};
ghost use Rattle.pks_terms.specs.Branching.{as_inner, candidates};
ghost use Rattle.pks_terms.specs.Views.{object_of, inner_of, term_of, terms_of, signature_of};
ghost use Rattle.pks_query_lookup.specs.Fives.{five_of};

use pks_kv::Kv;
use pks_query_lookup::five::Five;
use pks_query_lookup::normals::objects;
use pks_terms::ids::{ObjId, TypeId};
use pks_terms::lookup::object_is_of;
use pks_terms::problem::Signature;
use pks_terms::sequence::Sequence;
use pks_terms::term::{Inner, Term};
use std::alloc::{AllocError, Global};

/// What may stand for a parameter, in order.
pub type InnerList = Sequence<Inner>;

/// The term as an argument, where it is an application to objects.
fn as_inner(t: &Term) -> Option<Inner>
    ensures { option_map inner_of result ≡ as_inner (term_of t.now) }
{
    match t {
        Term::Obj(_) | Term::Param(_) => None,
        Term::App { fun, n, args } => match objects(*n, args) {
            None => None,
            Some(args) => Some(Inner::App {
                fun: *fun,
                n: *n,
                args,
            }),
        },
    }
}

/// Whether the term may stand where the type is wanted.
#[tactic(auto, unfolding(pks_terms::specs::Signatures::object_is_of))]
fn has_type(s: &Signature, t: &Term, of: TypeId) -> bool
    ensures { result ≡ has_type (signature_of s.now) (term_of t.now) of.0 }
{
    match t {
        Term::Obj(d) => object_is_of(s, of, *d),
        Term::Param(_) => false,
        Term::App { fun, .. } => match s.functions.as_slice().get(fun.0 as usize) {
            None => false,
            Some(shape) => s.fits(shape.result, of),
        },
    }
}

/// The term as an argument of the type, where it is an application to objects and of that type.
fn candidate(s: &Signature, t: &Term, of: TypeId) -> Option<Inner>
    ensures { option_map inner_of result ≡ (if has_type (signature_of s.now) (term_of t.now) of.0 then as_inner (term_of t.now) else None) }
{
    if has_type(s, t, of) {
        as_inner(t)
    } else {
        None
    }
}

/// Appends the objects as arguments.
#[tactic(auto, using(crate::proofs::Lists::pushing))]
fn push_objects(objects: &[ObjId], to: &mut Vec<Inner>) -> Result<(), AllocError>
    ensures { OnOk result (map inner_of to.new.items ≡ map inner_of to.old.items ++ map Object (map object_of objects.now)) }
{
    for d in objects {
        to.push(Inner::Obj(*d))?;
    }
    Ok(())
}

/// Appends the known values of the type as arguments.
#[tactic(auto, using(crate::proofs::Lists::pushing))]
fn push_values(s: &Signature, kv: &Kv, of: TypeId, to: &mut Vec<Inner>) -> Result<(), AllocError>
    ensures { OnOk result (map inner_of to.new.items ≡ map inner_of to.old.items ++ filter_map (λ t. if has_type (signature_of s.now) t of.0 then as_inner t else None) (terms_of kv.now)) }
{
    for t in kv.items() {
        if let Some(value) = candidate(s, t, of) {
            to.push(value)?;
        }
    }
    Ok(())
}

/// What may stand for a parameter of the type: its objects, and then the known values of that type.
pub(crate) fn candidates(
    alloc: Global,
    s: &Signature,
    five: &Five,
    of: TypeId,
) -> Result<InnerList, AllocError>
    requires { length s.now.objects ≤ MOST_OBJECTS }
    ensures { IfOk result (λ list. map inner_of list ≡ candidates (signature_of s.now) (five_of five.now) of.0) }
{
    let objects = s.objects_of(alloc, of)?;
    let mut list = Vec::new(alloc);
    push_objects(objects.as_slice(), &mut list)?;
    push_values(s, &five.kv, of, &mut list)?;
    Ok(Sequence::of(list))
}
