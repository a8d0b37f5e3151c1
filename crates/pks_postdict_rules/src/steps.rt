//! What a moment gives the next one, and what it gets from it. `docs/RULES.md` has the rules on settling.
ghost use Rattle.std.specs.Prelude.{◌≡◌, ◌++◌, IfOk, OnOk};
ghost use Rattle.pks_terms.specs.Settling.{forward, backward, effects_of};
ghost use Rattle.pks_terms.specs.ValidProblems.{IsValidProblem, ArePlaced};
ghost use Rattle.pks_terms.specs.Views.{instance_of, problem_of, signature_of};
ghost use Rattle.pks_kf.specs.Known.{literals_of};
ghost use Rattle.pks_query_lookup.specs.Fives.{five_of};
ghost use Rattle.pks_postdict_rules.specs.Changes.{signature_in, before_in, effects_by};
ghost use Rattle.pks_postdict_rules.specs.News.{Completes};
ghost use Rattle.pks_postdict_rules.specs.Targets.{given_forward, given_by_conditions, given_backward};

use crate::change::Change;
use crate::firing::{put_all_cannot_have_fired, put_all_fired, put_all_must_have_fired};
use crate::lasting::{put_lasted_news, put_lasting_news};
use pks_progress_interference::effects::Effects;
use pks_query_lookup::derived::Derived;
use pks_terms::literal::Literal;
use pks_terms::lookup::written_effects;
use pks_terms::problem::Problem;
use pks_terms::schema::Instance;
use std::alloc::{AllocError, Global};

/// The effects of the instance, judged by the databases before.
fn change_of<'a>(p: &'a Problem<'_>, i: &'a Instance, before: &'a Derived) -> Change<'a>
    requires { IsValidProblem p.now }
    ensures signature { signature_in result ≡ signature_of p.now.signature }
    ensures before { before_in result ≡ five_of before.now }
    ensures effects { effects_by result ≡ effects_of (problem_of p.now) (instance_of i.now) }
    ensures placed { ArePlaced result.effects.written.now }
{
    let effects = Effects {
        written: written_effects(p, i.act),
        instance: i,
    };
    Change {
        signature: &p.signature,
        before,
        effects,
    }
}

/// The literals that last, but for those that are known afterwards, and the targets of the effects that fire. The error is want
/// of memory.
pub(crate) fn forward_news_by(
    alloc: Global,
    change: &Change<'_>,
    after: &Derived,
) -> Result<Vec<Literal>, AllocError>
    requires { ArePlaced change.now.effects.written.now }
    ensures { IfOk result (λ v. Completes (five_of after.now).kf (literals_of v.items) (given_forward (signature_in change.now) (effects_by change.now) (before_in change.now))) }
{
    let mut news = Vec::new(alloc);
    put_lasting_news(&mut news, change, after)?;
    put_all_fired(alloc, &mut news, change, change.effects.written)?;
    Ok(news)
}

/// Puts the conditions of effects that must have fired, and the negations of conditions of effects that cannot have fired,
/// after the others.
fn put_conditions(
    alloc: Global,
    to: &mut Vec<Literal>,
    change: &Change<'_>,
    after: &Derived,
) -> Result<(), AllocError>
    requires { ArePlaced change.now.effects.written.now }
    ensures { OnOk result (literals_of to.new.items ≡ literals_of to.old.items ++ given_by_conditions (signature_in change.now) (effects_by change.now) (before_in change.now) (five_of after.now)) }
{
    let written = change.effects.written;
    put_all_must_have_fired(alloc, to, change, after, written)?;
    put_all_cannot_have_fired(alloc, to, change, after, written)?;
    Ok(())
}

/// The literals that must have been there, but for those that are known before, the conditions of effects that must have fired,
/// and the negations of conditions of effects that cannot have fired. The error is want of memory.
pub(crate) fn backward_news_by(
    alloc: Global,
    change: &Change<'_>,
    after: &Derived,
) -> Result<Vec<Literal>, AllocError>
    requires { ArePlaced change.now.effects.written.now }
    ensures { IfOk result (λ v. Completes (before_in change.now).kf (literals_of v.items) (given_backward (signature_in change.now) (effects_by change.now) (before_in change.now) (five_of after.now))) }
{
    let mut news = Vec::new(alloc);
    put_lasted_news(&mut news, change, after)?;
    put_conditions(alloc, &mut news, change, after)?;
    Ok(news)
}

/// What a moment gives the next one: the literals that last, but for those that are known afterwards, and the targets of the
/// effects that fire. It asks for a valid problem. The error is want of memory.
pub fn forward_news(
    alloc: Global,
    p: &Problem<'_>,
    i: &Instance,
    before: &Derived,
    after: &Derived,
) -> Result<Vec<Literal>, AllocError>
    requires { IsValidProblem p.now }
    ensures { IfOk result (λ v. Completes (five_of after.now).kf (literals_of v.items) (forward (problem_of p.now) (instance_of i.now) (five_of before.now))) }
{
    let news = forward_news_by(alloc, &change_of(p, i, before), after)?;
    Ok(news)
}

/// What a moment gets from the next one: the literals that must have been there, but for those that are known before, the
/// conditions of effects that must have fired, and the negations of conditions of effects that cannot have fired. It asks for
/// a valid problem. The error is want of memory.
pub fn backward_news(
    alloc: Global,
    p: &Problem<'_>,
    i: &Instance,
    before: &Derived,
    after: &Derived,
) -> Result<Vec<Literal>, AllocError>
    requires { IsValidProblem p.now }
    ensures { IfOk result (λ v. Completes (five_of before.now).kf (literals_of v.items) (backward (problem_of p.now) (instance_of i.now) (five_of before.now) (five_of after.now))) }
{
    let news = backward_news_by(alloc, &change_of(p, i, before), after)?;
    Ok(news)
}
