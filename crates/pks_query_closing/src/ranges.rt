//! Values that are the only ones left.
ghost use Rattle.std.specs.Prelude.{◌≡◌, ℕ, ◌<◌, ◌≤◌, ◌+◌, ◌==◌, ◌||◌, ◌&&◌, IsTrue, false, [], ◌∷◌, ◌++◌, map, length, IfOk, OnOk};
ghost use Rattle.std.specs.List.{flat_map, filter};
ghost use Rattle.pks_terms.specs.declared.limits.TheConstants.{MOST_OBJECTS};
ghost use Rattle.pks_terms.specs.Syntax.{object};
ghost use Rattle.pks_terms.specs.Sets.{set_of};
ghost use Rattle.pks_terms.specs.Databases.{normal, holds};
ghost use Rattle.pks_terms.specs.Orders.{inequation, term_cmp};
ghost use Rattle.pks_terms.specs.Closure.{is_last_left, by_range, applications_in, is_application};
ghost use Rattle.pks_terms.specs.Views.{object_of, inner_of, term_of, terms_of, literal_of, signature_of};
ghost use Rattle.pks_kf.specs.Known.{literals_of};
ghost use Rattle.pks_query_lookup.specs.Fives.{five_of};
ghost use Rattle.pks_query_closing.specs.Reading.{value_is, argument_term, occurring};
ghost use Rattle.pks_query_closing.specs.Possible.{may_be, IsOther};

use pks_pmap_set::set::SetOf;
use pks_query_lookup::derived::Derived;
use pks_query_lookup::ranges::range_of;
use pks_terms::ids::ObjId;
use pks_terms::literal::{Literal, equation};
use pks_terms::problem::Signature;
use pks_terms::term::{Inner, Term, application, front};
use std::alloc::{AllocError, Global};

/// Which objects of a range are not shut out.
#[derive(Clone, Copy)]
enum Remaining {
    Nothing,
    One(ObjId),
    More,
}

impl Remaining {
    /// With one more object that is not shut out.
    fn with(self, o: ObjId) -> Remaining
        ensures { (e : ℕ) → may_be result e ≡ ((o.0 == e) && may_be self e) }
    {
        match self {
            Remaining::Nothing => Remaining::One(o),
            Remaining::One(x) => {
                if o == x {
                    Remaining::One(x)
                } else {
                    Remaining::More
                }
            }
            Remaining::More => Remaining::More,
        }
    }

    /// Whether two or more are left.
    fn is_more(self) -> bool
        ensures { IsTrue result → (e : ℕ) → may_be self e ≡ false }
    {
        match self {
            Remaining::Nothing | Remaining::One(_) => false,
            Remaining::More => true,
        }
    }

    /// Whether no object but this one is left.
    fn may_be(self, e: ObjId) -> bool
        ensures { result ≡ may_be self e.0 }
    {
        match self {
            Remaining::Nothing => true,
            Remaining::One(x) => x == e,
            Remaining::More => false,
        }
    }
}

/// Whether the normal form is an object, and another one.
fn is_other(form: &Term, o: ObjId) -> bool
    ensures { IsTrue result → IsOther (term_of form.now) o.0 }
{
    match form {
        Term::Obj(d) => *d != o,
        Term::Param(_) | Term::App { .. } => false,
    }
}

/// Whether the object is shut out as the value of `t`, whose normal form is handed in.
fn is_shut_out(s: &Signature, d: &Derived, t: &Term, form: &Term, o: ObjId) -> bool
    requires { term_of form.now ≡ normal (literals_of d.now.kf) (term_of t.now) }
    ensures { result ≡ holds (signature_of s.now) (five_of d.now) (inequation (term_of t.now) (object o.0)) }
{
    if is_other(form, o) {
        return true;
    }
    d.holds(s, &equation(t, &Term::Obj(o), false))
}

/// Which objects are left when one more is looked at: all that were left, and it too unless it is shut out.
fn left_with(
    s: &Signature,
    d: &Derived,
    t: &Term,
    form: &Term,
    left: Remaining,
    o: ObjId,
) -> Remaining
    requires { term_of form.now ≡ normal (literals_of d.now.kf) (term_of t.now) }
    ensures { (e : ℕ) → may_be result e ≡ (((o.0 == e) || holds (signature_of s.now) (five_of d.now) (inequation (term_of t.now) (object o.0))) && may_be left e) }
{
    if is_shut_out(s, d, t, form, o) {
        return left;
    }
    left.with(o)
}

/// Which objects of the list are not shut out as the value of `t`. It looks no further than the second.
fn remaining_of(s: &Signature, d: &Derived, t: &Term, objects: &[ObjId]) -> Remaining
    ensures { (e : ℕ) → may_be result e ≡ is_last_left (signature_of s.now) (five_of d.now) (term_of t.now) (map object_of objects.now) e }
{
    let form = d.normals().normal(t);
    let mut left = Remaining::Nothing;
    for o in objects {
        left = left_with(s, d, t, &form, left, *o);
        if left.is_more() {
            return left;
        }
    }
    left
}

/// Puts after the others that `t` has a value, for each object that is the only one left.
#[tactic(auto, using(crate::proofs::Lists::read))]
fn put_last(
    to: &mut Vec<Literal>,
    s: &Signature,
    d: &Derived,
    t: &Term,
    objects: &[ObjId],
) -> Result<(), AllocError>
    ensures { OnOk result (map literal_of to.new.items ≡ map literal_of to.old.items ++ map (value_is (term_of t.now)) (filter (is_last_left (signature_of s.now) (five_of d.now) (term_of t.now) (map object_of objects.now)) (map object_of objects.now))) }
{
    let left = remaining_of(s, d, t, objects);
    for e in objects {
        if left.may_be(*e) {
            to.push(equation(t, &Term::Obj(*e), true))?;
        }
    }
    Ok(())
}

/// Puts after the others that `t` has a value, for each object of its range that is the only one left.
pub(crate) fn put_by_range(
    alloc: Global,
    to: &mut Vec<Literal>,
    s: &Signature,
    d: &Derived,
    t: &Term,
) -> Result<(), AllocError>
    requires { length s.now.objects ≤ MOST_OBJECTS }
    ensures { OnOk result (map literal_of to.new.items ≡ map literal_of to.old.items ++ by_range (signature_of s.now) (five_of d.now) (term_of t.now)) }
{
    let objects = range_of(alloc, s, t)?;
    put_last(to, s, d, t, objects.as_slice())
}

/// Puts the argument after the others, where it is an application.
#[tactic(auto, using(crate::proofs::Lists::read))]
fn put_inner(to: &mut Vec<Term>, t: &Inner) -> Result<(), AllocError>
    ensures { OnOk result (terms_of to.new.items ≡ terms_of to.old.items ++ filter is_application (argument_term (inner_of t.now) ∷ [])) }
{
    let Inner::App { fun, n, args } = t else {
        return Ok(());
    };
    to.push(application(*fun, *n, args))?;
    Ok(())
}

#[tactic(auto, using(crate::proofs::Lists::read))]
fn put_inners(to: &mut Vec<Term>, args: &[Inner]) -> Result<(), AllocError>
    ensures { OnOk result (terms_of to.new.items ≡ terms_of to.old.items ++ filter is_application (map argument_term (map inner_of args.now))) }
{
    for t in args {
        put_inner(to, t)?;
    }
    Ok(())
}

/// Puts each application that occurs in the term after the others.
#[tactic(auto, using(crate::proofs::Lists::read))]
fn put_of_term(to: &mut Vec<Term>, t: &Term) -> Result<(), AllocError>
    ensures { OnOk result (terms_of to.new.items ≡ terms_of to.old.items ++ applications_in (term_of t.now)) }
{
    let Term::App { n, args, .. } = t else {
        return Ok(());
    };
    to.push(*t)?;
    put_inners(to, front(args, *n))?;
    Ok(())
}

#[tactic(auto, using(crate::proofs::Lists::read))]
pub(crate) fn put_of_terms(to: &mut Vec<Term>, terms: &[Term]) -> Result<(), AllocError>
    ensures { OnOk result (terms_of to.new.items ≡ terms_of to.old.items ++ flat_map applications_in (terms_of terms.now)) }
{
    for t in terms {
        put_of_term(to, t)?;
    }
    Ok(())
}

/// Each application that occurs in a known literal, as often as it comes.
#[tactic(auto, using(crate::proofs::Lists::read))]
fn occurring(alloc: Global, d: &Derived) -> Result<Vec<Term>, AllocError>
    ensures { IfOk result (λ v. terms_of v.items ≡ occurring (literals_of d.now.kf)) }
{
    let mut all = Vec::new(alloc);
    for l in d.five().kf.items() {
        put_of_terms(&mut all, l.atom.arguments().terms())?;
    }
    Ok(all)
}

/// The set of the applications that occur in known literals.
fn applications(alloc: Global, d: &Derived) -> Result<SetOf<Term>, AllocError>
    ensures { IfOk result (λ set. terms_of set ≡ set_of term_cmp (occurring (literals_of d.now.kf))) }
{
    let all = occurring(alloc, d)?;
    let set = SetOf::of(alloc, all)?;
    Ok(set)
}

/// Puts what is added of each application of a set after the others.
#[tactic(auto, using(crate::proofs::Lists::read))]
fn put_each(
    alloc: Global,
    to: &mut Vec<Literal>,
    s: &Signature,
    d: &Derived,
    set: &SetOf<Term>,
) -> Result<(), AllocError>
    requires { length s.now.objects ≤ MOST_OBJECTS }
    ensures { OnOk result (map literal_of to.new.items ≡ map literal_of to.old.items ++ flat_map (by_range (signature_of s.now) (five_of d.now)) (terms_of set.now)) }
{
    for t in set.items() {
        put_by_range(alloc, to, s, d, t)?;
    }
    Ok(())
}

/// Puts what is added of values that are the only ones left after the others, each application being looked at once.
/// `docs/RULES.md` has the rule. It asks for at most 65,536 objects. The one error is want of memory.
#[tactic(auto, using(crate::proofs::Lists::read))]
pub fn put_by_ranges(
    alloc: Global,
    to: &mut Vec<Literal>,
    s: &Signature,
    d: &Derived,
) -> Result<(), AllocError>
    requires { length s.now.objects ≤ MOST_OBJECTS }
    ensures { OnOk result (map literal_of to.new.items ≡ map literal_of to.old.items ++ flat_map (by_range (signature_of s.now) (five_of d.now)) (set_of term_cmp (occurring (literals_of d.now.kf)))) }
{
    let set = applications(alloc, d)?;
    put_each(alloc, to, s, d, &set)?;
    Ok(())
}
