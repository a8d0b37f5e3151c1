//! Terms, and the terms that stand within them.
ghost use Rattle.std.specs.Prelude.{◌≡◌, [], ◌∷◌, ◌++◌, map, OnOk};
ghost use Rattle.std.specs.List.{flat_map};
ghost use Rattle.pks_terms.specs.Syntax.{Object};
ghost use Rattle.pks_terms.specs.Views.{object_of, inner_of, term_of, terms_of};
ghost use Rattle.pks_query_uses.specs.Occurring.{terms_within, terms_in};

use pks_terms::ids::ObjId;
use pks_terms::term::{Inner, Term, application, front};
use std::alloc::AllocError;

/// Puts the objects as terms after the others.
#[tactic(auto, using(crate::proofs::Lists::read))]
fn put_objects(to: &mut Vec<Term>, ds: &[ObjId]) -> Result<(), AllocError>
    ensures { OnOk result (terms_of to.new.items ≡ terms_of to.old.items ++ map Object (map object_of ds.now)) }
{
    for d in ds {
        to.push(Term::Obj(*d))?;
    }
    Ok(())
}

/// Puts the argument and the objects within it after the others.
#[tactic(auto, using(crate::proofs::Lists::read))]
fn put_argument(to: &mut Vec<Term>, t: &Inner) -> Result<(), AllocError>
    ensures { OnOk result (terms_of to.new.items ≡ terms_of to.old.items ++ terms_within (inner_of t.now)) }
{
    match t {
        Inner::Obj(d) => {
            to.push(Term::Obj(*d))?;
            Ok(())
        }
        Inner::Param(i) => {
            to.push(Term::Param(*i))?;
            Ok(())
        }
        Inner::App { fun, n, args } => {
            to.push(application(*fun, *n, args))?;
            put_objects(to, front(args, *n))?;
            Ok(())
        }
    }
}

#[tactic(auto, using(crate::proofs::Lists::read))]
fn put_arguments(to: &mut Vec<Term>, ts: &[Inner]) -> Result<(), AllocError>
    ensures { OnOk result (terms_of to.new.items ≡ terms_of to.old.items ++ flat_map terms_within (map inner_of ts.now)) }
{
    for t in ts {
        put_argument(to, t)?;
    }
    Ok(())
}

/// Puts the term and those that stand within it after the others.
#[tactic(auto, using(crate::proofs::Lists::read))]
pub(crate) fn put_term(to: &mut Vec<Term>, t: &Term) -> Result<(), AllocError>
    ensures { OnOk result (terms_of to.new.items ≡ terms_of to.old.items ++ terms_in (term_of t.now)) }
{
    to.push(*t)?;
    if let Term::App { n, args, .. } = t {
        put_arguments(to, front(args, *n))?;
    }
    Ok(())
}

/// Puts the terms and those that stand within them after the others.
#[tactic(auto, using(crate::proofs::Lists::read))]
pub(crate) fn put_terms(to: &mut Vec<Term>, ts: &[Term]) -> Result<(), AllocError>
    ensures { OnOk result (terms_of to.new.items ≡ terms_of to.old.items ++ flat_map terms_in (terms_of ts.now)) }
{
    for t in ts {
        put_term(to, t)?;
    }
    Ok(())
}
