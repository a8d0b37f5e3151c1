//! What undoes an effect, and what else may make its target so. `docs/RULES.md` has the rule on settling.
ghost use Rattle.std.specs.Prelude.{◌≡◌, ◌++◌};
ghost use Rattle.std.specs.List.{list_any};
ghost use Rattle.pks_terms.specs.Actions.{effect_at};
ghost use Rattle.pks_terms.specs.Spoiling.{some_may};
ghost use Rattle.pks_terms.specs.Settling.{undoes, assigns_alike, makes_same};
ghost use Rattle.pks_terms.specs.Views.{term_of, target_of, effect_of};
ghost use Rattle.pks_postdict_rules.specs.Changes.{signature_in, before_in, given_in, some_effects};
ghost use Rattle.pks_postdict_rules.specs.Targets.{assigns_so};

use crate::change::{Change, some_of};
use pks_progress_interference::targets::{
    may_change, may_fire, some_changes, some_makes_false, some_makes_true,
};
use pks_terms::schema::{Effect, Target};
use pks_terms::term::{Term, front};

/// Whether one of the later effects that may fire may undo the target, whose arguments are put in. A `clear` undoes a `set`,
/// and nothing undoes a `clear`.
pub(crate) fn can_be_undone(change: &Change<'_>, target: &Target, later: &[Effect]) -> bool
    ensures { result ≡ some_may (signature_in change.now) (before_in change.now) (undoes (signature_in change.now) (before_in change.now) (target_of target.now)) (some_effects change.now later.now) }
{
    let (s, d, later) = (change.signature, change.before, some_of(change, later));
    match target {
        Target::Set(a) => some_makes_false(s, d, a.pred, front(&a.args, a.n), later),
        Target::Unset(a) => some_makes_true(s, d, a.pred, front(&a.args, a.n), later),
        Target::Clear(_) => false,
        Target::Assign { place, .. } => some_changes(s, d, place, later),
    }
}

/// Whether the target is an assignment of a value that does not differ from this one.
fn assigns_alike(change: &Change<'_>, value: &Term, target: &Target) -> bool
    ensures { result ≡ assigns_alike (signature_in change.now) (before_in change.now) (term_of value.now) (target_of target.now) }
{
    match target {
        Target::Assign { value: new, .. } => !change.before.differ(change.signature, new, value),
        Target::Set(_) | Target::Unset(_) | Target::Clear(_) => false,
    }
}

/// Whether the effect may fire and may assign to the place a value that does not differ from this one.
#[tactic(auto, using(crate::proofs::Effects::fires_last))]
fn assigns_so(change: &Change<'_>, place: &Term, value: &Term, e: &Effect) -> bool
    ensures { result ≡ assigns_so (signature_in change.now) (before_in change.now) (term_of place.now) (term_of value.now) (effect_at (given_in change.now) (effect_of e.now)) }
{
    let (s, d) = (change.signature, change.before);
    let target = e.target.at(change.effects.instance);
    may_change(s, d, place, &target)
        && assigns_alike(change, value, &target)
        && may_fire(s, d, &e.at(change.effects.instance))
}

/// Whether one of the effects may fire and may assign to the place a value that does not differ from this one.
fn some_assigns_so(change: &Change<'_>, place: &Term, value: &Term, written: &[Effect]) -> bool
    ensures { result ≡ list_any (assigns_so (signature_in change.now) (before_in change.now) (term_of place.now) (term_of value.now)) (some_effects change.now written.now) }
{
    for e in written {
        if assigns_so(change, place, value, e) {
            return true;
        }
    }
    false
}

/// Whether one of the effects that may fire may make so what the target makes so, whose arguments are put in.
fn is_made_by(change: &Change<'_>, target: &Target, others: &[Effect]) -> bool
    ensures { result ≡ some_may (signature_in change.now) (before_in change.now) (makes_same (signature_in change.now) (before_in change.now) (target_of target.now)) (some_effects change.now others.now) }
{
    let (s, d, effects) = (change.signature, change.before, some_of(change, others));
    match target {
        Target::Set(a) => some_makes_true(s, d, a.pred, front(&a.args, a.n), effects),
        Target::Unset(a) => some_makes_false(s, d, a.pred, front(&a.args, a.n), effects),
        Target::Clear(_) => false,
        Target::Assign { place, value } => some_assigns_so(change, place, value, others),
    }
}

/// Whether one of the effects before or after this one may make so what its target makes so, whose arguments are put in.
#[tactic(auto, using(crate::proofs::Effects::tests))]
pub(crate) fn is_made_otherwise(
    change: &Change<'_>,
    target: &Target,
    earlier: &[Effect],
    later: &[Effect],
) -> bool
    ensures { result ≡ some_may (signature_in change.now) (before_in change.now) (makes_same (signature_in change.now) (before_in change.now) (target_of target.now)) (some_effects change.now earlier.now ++ some_effects change.now later.now) }
{
    is_made_by(change, target, earlier) || is_made_by(change, target, later)
}
