//! The forms of terms: with applications replaced by values that the databases give. `docs/RULES.md` has the rule on settling.
ghost use Rattle.std.specs.Prelude.{◌≡◌, ◌∷◌, ◌++◌, map, IfOk, OnOk};
ghost use Rattle.std.specs.List.{flat_map};
ghost use Rattle.pks_terms.specs.Syntax.{Object, Apply};
ghost use Rattle.pks_terms.specs.Settling.{inner_forms, argument_forms, term_forms};
ghost use Rattle.pks_terms.specs.Views.{object_of, inner_of, term_of, terms_of};
ghost use Rattle.pks_kf.specs.Known.{literals_of};
ghost use Rattle.pks_query_lookup.specs.Reading.{first_inners};
ghost use Rattle.pks_postdict_rules.specs.Choosing.{choices_after, with_values};

use pks_query_lookup::normals::{Normals, objects};
use pks_terms::ids::{FnId, ObjId};
use pks_terms::term::{Inner, Term, front};
use std::alloc::{AllocError, Global};

/// The objects that stand for an argument besides itself: the values of an application.
fn values_inside<'a>(by: &'a Normals, t: &Inner) -> &'a [ObjId]
    ensures { inner_of t.now ∷ map Object (map object_of result.now) ≡ inner_forms (literals_of by.now.kf) (inner_of t.now) }
{
    match t {
        Inner::App { fun, n, args } => by.values(*fun, front(args, *n)),
        Inner::Obj(_) | Inner::Param(_) => &[],
    }
}

/// Puts the application after the others, with its arguments from place `at` on in each of their forms.
fn put_applied(
    to: &mut Vec<Term>,
    by: &Normals,
    fun: FnId,
    n: u8,
    args: &[Inner; 2],
    at: u8,
) -> Result<(), AllocError>
    ensures { OnOk result (terms_of to.new.items ≡ terms_of to.old.items ++ map (Apply fun.0) (choices_after (inner_forms (literals_of by.now.kf)) at (first_inners n args.now))) }
{
    if at >= n || at >= 2 {
        to.push(Term::App {
            fun,
            n,
            args: *args,
        })?;
        return Ok(());
    }
    let place = at as usize;
    put_applied(to, by, fun, n, args, at + 1)?;
    for d in values_inside(by, &args[place]) {
        let mut args = *args;
        args[place] = Inner::Obj(*d);
        put_applied(to, by, fun, n, &args, at + 1)?;
    }
    Ok(())
}

/// The objects that stand for a term besides itself: the values of an application to objects.
fn own_values<'a>(by: &'a Normals, t: &Term) -> &'a [ObjId]
    ensures { term_of t.now ∷ map Object (map object_of result.now) ≡ with_values (literals_of by.now.kf) (term_of t.now) }
{
    let Term::App { fun, n, args } = t else {
        return &[];
    };
    match objects(*n, args) {
        Some(own) => by.values(*fun, front(&own, *n)),
        None => &[],
    }
}

/// Puts the term and its values after the others.
fn put_with_values(to: &mut Vec<Term>, by: &Normals, t: &Term) -> Result<(), AllocError>
    ensures { OnOk result (terms_of to.new.items ≡ terms_of to.old.items ++ with_values (literals_of by.now.kf) (term_of t.now)) }
{
    to.push(*t)?;
    for d in own_values(by, t) {
        to.push(Term::Obj(*d))?;
    }
    Ok(())
}

/// Puts each of the terms and its values after the others.
fn put_each_with_values(to: &mut Vec<Term>, by: &Normals, terms: &[Term]) -> Result<(), AllocError>
    ensures { OnOk result (terms_of to.new.items ≡ terms_of to.old.items ++ flat_map (with_values (literals_of by.now.kf)) (terms_of terms.now)) }
{
    for t in terms {
        put_with_values(to, by, t)?;
    }
    Ok(())
}

/// The applications of the function to the arguments in each of their forms. The error is want of memory.
pub(crate) fn applications_of(
    alloc: Global,
    by: &Normals,
    fun: FnId,
    n: u8,
    args: &[Inner; 2],
) -> Result<Vec<Term>, AllocError>
    ensures { IfOk result (λ v. terms_of v.items ≡ map (Apply fun.0) (argument_forms (literals_of by.now.kf) (first_inners n args.now))) }
{
    let mut all = Vec::new(alloc);
    put_applied(&mut all, by, fun, n, args, 0)?;
    Ok(all)
}

/// The forms of the term: its arguments in each of their forms, and then the values of an application to objects. The
/// error is want of memory.
pub(crate) fn term_forms(alloc: Global, by: &Normals, t: &Term) -> Result<Vec<Term>, AllocError>
    ensures { IfOk result (λ v. terms_of v.items ≡ term_forms (literals_of by.now.kf) (term_of t.now)) }
{
    let mut forms = Vec::new(alloc);
    let Term::App { fun, n, args } = t else {
        forms.push(*t)?;
        return Ok(forms);
    };
    let applied = applications_of(alloc, by, *fun, *n, args)?;
    put_each_with_values(&mut forms, by, applied.as_slice())?;
    Ok(forms)
}
