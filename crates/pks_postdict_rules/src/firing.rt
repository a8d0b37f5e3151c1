//! What follows from effects that fire, must have fired, or cannot have fired. `docs/RULES.md` has the rule on settling.
ghost use Rattle.std.specs.Prelude.{◌≡◌, ◌&&◌, [], ◌∷◌, ◌++◌, cond, IfOk, OnOk};
ghost use Rattle.std.specs.List.{flat_map, list_all, list_any};
ghost use Rattle.pks_terms.specs.Actions.{effect_at, target_at};
ghost use Rattle.pks_terms.specs.Databases.{holds};
ghost use Rattle.pks_terms.specs.Sets.{with_later, with_others};
ghost use Rattle.pks_terms.specs.Settling.{target_forms, fired, must_have_fired, cannot_have_fired};
ghost use Rattle.pks_terms.specs.Syntax.{negated};
ghost use Rattle.pks_terms.specs.ValidProblems.{AssignsToPlace, ArePlaced};
ghost use Rattle.pks_terms.specs.Views.{literal_of, literals_in, target_of, effect_of};
ghost use Rattle.pks_query_lookup.specs.Fives.{five_of};
ghost use Rattle.pks_postdict_rules.specs.Changes.{signature_in, before_in, given_in, effects_by, some_effects};
ghost use Rattle.pks_postdict_rules.specs.Targets.{has_turned, is_denied_after, denied_alone};

use crate::change::Change;
use crate::targets::put_target_forms;
use crate::undoing::{can_be_undone, is_made_otherwise};
use pks_query_lookup::derived::Derived;
use pks_terms::literal::Literal;
use pks_terms::schema::{Effect, Target};
use pks_terms::term::front;
use std::alloc::{AllocError, Global};

/// The stable forms of what is so after an effect with this target fires. The error is want of memory.
fn target_forms(
    alloc: Global,
    change: &Change<'_>,
    target: &Target,
) -> Result<Vec<Literal>, AllocError>
    requires { AssignsToPlace target.now }
    ensures { IfOk result (λ v. literals_in v.items ≡ target_forms (signature_in change.now) (before_in change.now) (effects_by change.now) (target_at (given_in change.now) (target_of target.now))) }
{
    let mut forms = Vec::new(alloc);
    put_target_forms(alloc, &mut forms, change, target)?;
    Ok(forms)
}

/// Puts the target of the effect after the others, where the effect fires: all its conditions hold before, and no later
/// effect may undo it.
fn put_fired(
    alloc: Global,
    to: &mut Vec<Literal>,
    change: &Change<'_>,
    e: &Effect,
    later: &[Effect],
) -> Result<(), AllocError>
    requires { AssignsToPlace e.now.target }
    ensures { OnOk result (literals_in to.new.items ≡ literals_in to.old.items ++ fired (signature_in change.now) (effects_by change.now) (before_in change.now) (effect_at (given_in change.now) (effect_of e.now), some_effects change.now later.now)) }
{
    let i = change.effects.instance;
    let cond = e.cond.at(i);
    if change.all_hold(front(&cond.literals, cond.n))
        && !can_be_undone(change, &e.target.at(i), later)
    {
        put_target_forms(alloc, to, change, &e.target)?;
        return Ok(());
    }
    Ok(())
}

/// Puts the targets of the effects that fire after the others.
pub(crate) fn put_all_fired(
    alloc: Global,
    to: &mut Vec<Literal>,
    change: &Change<'_>,
    written: &[Effect],
) -> Result<(), AllocError>
    requires { ArePlaced written.now }
    ensures { OnOk result (literals_in to.new.items ≡ literals_in to.old.items ++ flat_map (fired (signature_in change.now) (effects_by change.now) (before_in change.now)) (with_later (some_effects change.now written.now))) }
{
    match written {
        [] => Ok(()),
        [e, later @ ..] => {
            put_fired(alloc, to, change, e, later)?;
            put_all_fired(alloc, to, change, later)?;
            Ok(())
        }
    }
}

/// Whether the negation of some literal holds before, and the literal afterwards.
fn some_turned(change: &Change<'_>, after: &Derived, literals: &[Literal]) -> bool
    ensures { result ≡ list_any (λ l. holds (signature_in change.now) (before_in change.now) (negated l) && holds (signature_in change.now) (five_of after.now) l) (literals_in literals.now) }
{
    for l in literals {
        if change.denies(l) && after.holds(change.signature, l) {
            return true;
        }
    }
    false
}

/// Whether some stable form of the target was denied before and holds afterwards. The error is want of memory.
fn has_turned(
    alloc: Global,
    change: &Change<'_>,
    after: &Derived,
    target: &Target,
) -> Result<bool, AllocError>
    requires { AssignsToPlace target.now }
    ensures { IfOk result (λ b. b ≡ has_turned (signature_in change.now) (effects_by change.now) (before_in change.now) (five_of after.now) (target_at (given_in change.now) (target_of target.now))) }
{
    let forms = target_forms(alloc, change, target)?;
    Ok(some_turned(change, after, forms.as_slice()))
}

/// Puts the conditions of the effect after the others, where it must have fired: its target has become so, and none of the
/// other effects may have made it so.
fn put_must_have_fired(
    alloc: Global,
    to: &mut Vec<Literal>,
    change: &Change<'_>,
    after: &Derived,
    e: &Effect,
    earlier: &[Effect],
    later: &[Effect],
) -> Result<(), AllocError>
    requires { AssignsToPlace e.now.target }
    ensures { OnOk result (literals_in to.new.items ≡ literals_in to.old.items ++ must_have_fired (signature_in change.now) (effects_by change.now) (before_in change.now) (five_of after.now) (effect_at (given_in change.now) (effect_of e.now), some_effects change.now earlier.now ++ some_effects change.now later.now)) }
{
    let i = change.effects.instance;
    let cond = e.cond.at(i);
    let literals = front(&cond.literals, cond.n);
    if literals.is_empty() {
        return Ok(());
    }
    if !has_turned(alloc, change, after, &e.target)? {
        return Ok(());
    }
    if is_made_otherwise(change, &e.target.at(i), earlier, later) {
        return Ok(());
    }
    to.extend_from_slice(literals)?;
    Ok(())
}

/// Puts the conditions of the effects that must have fired after the others.
pub(crate) fn put_all_must_have_fired(
    alloc: Global,
    to: &mut Vec<Literal>,
    change: &Change<'_>,
    after: &Derived,
    written: &[Effect],
) -> Result<(), AllocError>
    requires { ArePlaced written.now }
    ensures { OnOk result (literals_in to.new.items ≡ literals_in to.old.items ++ flat_map (must_have_fired (signature_in change.now) (effects_by change.now) (before_in change.now) (five_of after.now)) (with_others (some_effects change.now written.now))) }
{
    for k in 0..written.len() {
        let (earlier, later) = (&written[..k], &written[k + 1..]);
        put_must_have_fired(alloc, to, change, after, &written[k], earlier, later)?;
    }
    Ok(())
}

/// Whether some stable form of the target is denied afterwards. The error is want of memory.
fn is_denied_after(
    alloc: Global,
    change: &Change<'_>,
    after: &Derived,
    target: &Target,
) -> Result<bool, AllocError>
    requires { AssignsToPlace target.now }
    ensures { IfOk result (λ b. b ≡ is_denied_after (signature_in change.now) (effects_by change.now) (before_in change.now) (five_of after.now) (target_at (given_in change.now) (target_of target.now))) }
{
    let forms = target_forms(alloc, change, target)?;
    Ok(after.some_denied(change.signature, forms.as_slice()))
}

/// Puts the negation of the condition after the others, where all its fellows hold before.
#[tactic(auto, using(crate::proofs::Effects::tests))]
fn put_denied_alone(
    to: &mut Vec<Literal>,
    change: &Change<'_>,
    l: &Literal,
    earlier: &[Literal],
    later: &[Literal],
) -> Result<(), AllocError>
    ensures { OnOk result (literals_in to.new.items ≡ literals_in to.old.items ++ cond (list_all (holds (signature_in change.now) (before_in change.now)) (literals_in earlier.now ++ literals_in later.now)) (negated (literal_of l.now) ∷ []) []) }
{
    if change.all_hold(earlier) && change.all_hold(later) {
        to.push(l.negated())?;
        return Ok(());
    }
    Ok(())
}

/// The negations of the conditions whose fellows all hold before. The error is want of memory.
fn denied_alone(
    alloc: Global,
    change: &Change<'_>,
    literals: &[Literal],
) -> Result<Vec<Literal>, AllocError>
    ensures { IfOk result (λ v. literals_in v.items ≡ denied_alone (signature_in change.now) (before_in change.now) (literals_in literals.now)) }
{
    let mut denied = Vec::new(alloc);
    for k in 0..literals.len() {
        let (earlier, later) = (&literals[..k], &literals[k + 1..]);
        put_denied_alone(&mut denied, change, &literals[k], earlier, later)?;
    }
    Ok(denied)
}

/// Puts the negation of each condition whose fellows all hold before after the others, where the effect cannot have fired:
/// the negation of its target holds afterwards, and no later effect may have undone it.
fn put_cannot_have_fired(
    alloc: Global,
    to: &mut Vec<Literal>,
    change: &Change<'_>,
    after: &Derived,
    e: &Effect,
    later: &[Effect],
) -> Result<(), AllocError>
    requires { AssignsToPlace e.now.target }
    ensures { OnOk result (literals_in to.new.items ≡ literals_in to.old.items ++ cannot_have_fired (signature_in change.now) (effects_by change.now) (before_in change.now) (five_of after.now) (effect_at (given_in change.now) (effect_of e.now), some_effects change.now later.now)) }
{
    let i = change.effects.instance;
    let cond = e.cond.at(i);
    let denied = denied_alone(alloc, change, front(&cond.literals, cond.n))?;
    if denied.is_empty() {
        return Ok(());
    }
    if !is_denied_after(alloc, change, after, &e.target)? {
        return Ok(());
    }
    if can_be_undone(change, &e.target.at(i), later) {
        return Ok(());
    }
    to.extend_from_slice(denied.as_slice())?;
    Ok(())
}

/// Puts what follows from the effects that cannot have fired after the others.
pub(crate) fn put_all_cannot_have_fired(
    alloc: Global,
    to: &mut Vec<Literal>,
    change: &Change<'_>,
    after: &Derived,
    written: &[Effect],
) -> Result<(), AllocError>
    requires { ArePlaced written.now }
    ensures { OnOk result (literals_in to.new.items ≡ literals_in to.old.items ++ flat_map (cannot_have_fired (signature_in change.now) (effects_by change.now) (before_in change.now) (five_of after.now)) (with_later (some_effects change.now written.now))) }
{
    match written {
        [] => Ok(()),
        [e, later @ ..] => {
            put_cannot_have_fired(alloc, to, change, after, e, later)?;
            put_all_cannot_have_fired(alloc, to, change, after, later)?;
            Ok(())
        }
    }
}
