//! The stable forms of what is so after an effect fires. `docs/RULES.md` has the rule on settling.
ghost use Rattle.std.specs.Prelude.{◌≡◌, true, false, ◌++◌, map, take, IfOk, OnOk};
ghost use Rattle.std.specs.List.{filter, list_all};
ghost use Rattle.pks_terms.specs.Syntax.{Named, term_of as lifted};
ghost use Rattle.pks_terms.specs.Orders.{literal, equation, number_of, arguments_of};
ghost use Rattle.pks_terms.specs.Actions.{Assign, target_at};
ghost use Rattle.pks_terms.specs.Spoiling.{is_stable};
ghost use Rattle.pks_terms.specs.Progress.{has_stable_arguments};
ghost use Rattle.pks_terms.specs.Settling.{stable_forms, target_forms};
ghost use Rattle.pks_terms.specs.ValidProblems.{AssignsToPlace};
ghost use Rattle.pks_terms.specs.Views.{inner_of, term_of, terms_of, atom_of, target_of, literal_of, literals_in};
ghost use Rattle.pks_postdict_rules.specs.Changes.{signature_in, before_in, given_in, effects_by};
ghost use Rattle.pks_postdict_rules.specs.Choosing.{choices_after};
ghost use Rattle.pks_postdict_rules.specs.Targets.{stable_terms, equations_at, IsPlace};

use crate::change::Change;
use crate::forms::{applications_of, term_forms};
use pks_terms::literal::{Atom, Literal, PredAtom, equation};
use pks_terms::schema::Target;
use pks_terms::term::{Inner, Term};
use std::alloc::{AllocError, Global};

/// The terms that are stable.
fn stable_of(alloc: Global, change: &Change<'_>, terms: &[Term]) -> Result<Vec<Term>, AllocError>
    ensures { IfOk result (λ v. terms_of v.items ≡ filter (is_stable (signature_in change.now) (before_in change.now) (effects_by change.now)) (terms_of terms.now)) }
{
    let mut stable = Vec::new(alloc);
    for t in terms {
        if change.is_stable(t) {
            stable.push(*t)?;
        }
    }
    Ok(stable)
}

/// The forms of the term that are stable.
fn stable_terms(alloc: Global, change: &Change<'_>, t: &Term) -> Result<Vec<Term>, AllocError>
    ensures { IfOk result (λ v. terms_of v.items ≡ stable_terms (signature_in change.now) (before_in change.now) (effects_by change.now) (term_of t.now)) }
{
    let forms = term_forms(alloc, change.before.normals(), t)?;
    let stable = stable_of(alloc, change, forms.as_slice())?;
    Ok(stable)
}

/// The atom at other arguments, or its negation.
#[tactic(auto, unfolding(pks_terms::specs::Orders::literal))]
fn with_arguments(a: &PredAtom, args: &[Term; 3], positive: bool) -> Literal
    ensures { literal_of result ≡ literal (Named a.now.pred.0) (terms_of (take a.now.n args.now)) positive }
{
    let atom = PredAtom {
        pred: a.pred,
        n: a.n,
        args: *args,
    };
    Literal {
        atom: Atom::Pred(atom),
        positive,
    }
}

/// Puts the atom at other arguments, or its negation, after the others, with these arguments from place `at` on in each of
/// their stable forms.
fn put_atoms(
    alloc: Global,
    to: &mut Vec<Literal>,
    change: &Change<'_>,
    a: &PredAtom,
    args: &[Term; 3],
    positive: bool,
    at: u8,
) -> Result<(), AllocError>
    ensures { OnOk result (literals_in to.new.items ≡ literals_in to.old.items ++ map (λ ts. literal (Named a.now.pred.0) ts positive) (choices_after (stable_terms (signature_in change.now) (before_in change.now) (effects_by change.now)) at (terms_of (take a.now.n args.now)))) }
{
    if at >= a.n || at >= 3 {
        to.push(with_arguments(a, args, positive))?;
        return Ok(());
    }
    let place = at as usize;
    for t in stable_terms(alloc, change, &args[place])?.as_slice() {
        let mut args = *args;
        args[place] = *t;
        put_atoms(alloc, to, change, a, &args, positive, at + 1)?;
    }
    Ok(())
}

/// Puts the stable forms of the atom or of its negation after the others.
fn put_atom_forms(
    alloc: Global,
    to: &mut Vec<Literal>,
    change: &Change<'_>,
    a: &PredAtom,
    positive: bool,
) -> Result<(), AllocError>
    ensures { OnOk result (literals_in to.new.items ≡ literals_in to.old.items ++ map (λ ts. literal (Named a.now.pred.0) ts positive) (stable_forms (signature_in change.now) (before_in change.now) (effects_by change.now) (atom_of a.now).arguments)) }
{
    put_atoms(alloc, to, change, a, &a.args, positive, 0)?;
    Ok(())
}

/// Whether the arguments are stable.
fn inners_stay(change: &Change<'_>, args: &[Inner]) -> bool
    ensures { result ≡ list_all (is_stable (signature_in change.now) (before_in change.now) (effects_by change.now)) (map lifted (map inner_of args.now)) }
{
    for t in args {
        if !change.is_stable(&t.as_term()) {
            return false;
        }
    }
    true
}

/// Whether the arguments of the place are stable.
fn has_stable_arguments(change: &Change<'_>, place: &Term) -> bool
    ensures { result ≡ has_stable_arguments (signature_in change.now) (before_in change.now) (effects_by change.now) (term_of place.now) }
{
    inners_stay(change, place.arguments())
}

/// Puts the equations of the place with the values after the others.
fn put_equations(to: &mut Vec<Literal>, place: &Term, values: &[Term]) -> Result<(), AllocError>
    ensures { OnOk result (literals_in to.new.items ≡ literals_in to.old.items ++ map (equation (term_of place.now)) (terms_of values.now)) }
{
    for value in values {
        to.push(equation(place, value, true))?;
    }
    Ok(())
}

/// Puts the equations of the places whose arguments are stable with the values after the others.
fn put_equations_at(
    to: &mut Vec<Literal>,
    change: &Change<'_>,
    places: &[Term],
    values: &[Term],
) -> Result<(), AllocError>
    ensures { OnOk result (literals_in to.new.items ≡ literals_in to.old.items ++ equations_at (signature_in change.now) (before_in change.now) (effects_by change.now) (terms_of places.now) (terms_of values.now)) }
{
    for place in places {
        if has_stable_arguments(change, place) {
            put_equations(to, place, values)?;
        }
    }
    Ok(())
}

/// Puts the stable forms of an assignment after the others. The place itself need not be stable.
fn put_assigned(
    alloc: Global,
    to: &mut Vec<Literal>,
    change: &Change<'_>,
    place: &Term,
    value: &Term,
) -> Result<(), AllocError>
    requires { IsPlace (term_of place.now) }
    ensures { OnOk result (literals_in to.new.items ≡ literals_in to.old.items ++ target_forms (signature_in change.now) (before_in change.now) (effects_by change.now) (Assign (number_of (term_of place.now)) (arguments_of (term_of place.now)) (term_of value.now))) }
{
    let Term::App { fun, n, args } = place else {
        return Ok(());
    };
    let places = applications_of(alloc, change.before.normals(), *fun, *n, args)?;
    let values = stable_terms(alloc, change, value)?;
    put_equations_at(to, change, places.as_slice(), values.as_slice())?;
    Ok(())
}

/// Puts the stable forms of what is so after an effect with this target fires after the others: the atom of a `set`, its
/// negation of an `unset`, the equation of an `assign`, and none of a `clear`. The target is taken as written.
pub(crate) fn put_target_forms(
    alloc: Global,
    to: &mut Vec<Literal>,
    change: &Change<'_>,
    target: &Target,
) -> Result<(), AllocError>
    requires { AssignsToPlace target.now }
    ensures { OnOk result (literals_in to.new.items ≡ literals_in to.old.items ++ target_forms (signature_in change.now) (before_in change.now) (effects_by change.now) (target_at (given_in change.now) (target_of target.now))) }
{
    let i = change.effects.instance;
    match target {
        Target::Set(a) => put_atom_forms(alloc, to, change, &a.at(i), true)?,
        Target::Unset(a) => put_atom_forms(alloc, to, change, &a.at(i), false)?,
        Target::Clear(_) => {}
        Target::Assign { place, value } => {
            put_assigned(alloc, to, change, &place.at(i), &value.at(i))?
        }
    }
    Ok(())
}
