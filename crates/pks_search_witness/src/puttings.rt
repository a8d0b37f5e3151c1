//! Making literals true in a world, as far as it stays a world of the signature.
ghost use Rattle.std.specs.Prelude.{◌≡◌, OnOk};
ghost use Rattle.pks_terms.specs.Views.{signature_of};
ghost use Rattle.pks_world.specs.First.{IsWorldOf};

use crate::typing::{is_typed_atom, is_typed_place};
use pks_terms::literal::{Atom, Literal, PredAtom};
use pks_terms::problem::Problem;
use pks_terms::term::{Term, front};
use pks_world::World;
use std::alloc::AllocError;

/// Makes the atom true at the values that its arguments have.
pub(crate) fn put_atom(p: &Problem<'_>, a: &PredAtom, w: &mut World) -> Result<(), AllocError>
    requires { IsWorldOf (signature_of p.now.signature) w.old }
    ensures { IsWorldOf (signature_of p.now.signature) w.new }
{
    let at = w.with_values(a);
    if is_typed_atom(&p.signature, &at) {
        w.put_atom(&at)?;
    }
    Ok(())
}

/// Gives the place the value, where it is a place of the signature and the value is an object that it may have.
pub(crate) fn put_value(p: &Problem<'_>, at: &Term, value: &Term, w: &mut World)
    requires { IsWorldOf (signature_of p.now.signature) w.old }
    ensures { IsWorldOf (signature_of p.now.signature) w.new }
{
    if let Term::App { fun, n, args } = at {
        if let Term::Obj(d) = value {
            if is_typed_place(&p.signature, *fun, front(args, *n), *d) {
                w.put_value(at, *d);
            }
        }
    }
}

/// Makes the atom true, or gives the place the value, where the literal says so.
pub(crate) fn put(p: &Problem<'_>, l: &Literal, w: &mut World) -> Result<(), AllocError>
    requires { IsWorldOf (signature_of p.now.signature) w.old }
    ensures { IsWorldOf (signature_of p.now.signature) w.new }
{
    if !l.positive {
        return Ok(());
    }
    match &l.atom {
        Atom::Pred(a) => put_atom(p, a, w)?,
        Atom::Eq { left, right } => put_value(p, left, right, w),
    }
    Ok(())
}
