//! Rounds over the moments of a history, and the last of them. `docs/RULES.md` has the rules on settling.
ghost use Rattle.std.specs.Prelude.{◌≡◌, ◌≤◌, ◌<◌, true, false, List, [], ◌∷◌, ◌++◌, length, IfOk, OnOk};
ghost use Rattle.pks_terms.specs.declared.limits.TheConstants.{MOST_OBJECTS};
ghost use Rattle.pks_terms.specs.Sets.{added, IsOrdered};
ghost use Rattle.pks_terms.specs.Signatures.{Signature as SSignature};
ghost use Rattle.pks_terms.specs.Syntax.{Literal as SLiteral};
ghost use Rattle.pks_terms.specs.Orders.{literal_cmp};
ghost use Rattle.pks_terms.specs.Closure.{additions};
ghost use Rattle.pks_terms.specs.Settling.{forward, backward, from_next, grown, settled_steps, settle_round};
ghost use Rattle.pks_terms.specs.Saturated.{Within};
ghost use Rattle.pks_terms.specs.ValidProblems.{IsValidProblem};
ghost use Rattle.pks_terms.specs.Views.{instance_of, problem_of, signature_of};
ghost use Rattle.pks_kf.specs.Known.{literals_of};
ghost use Rattle.pks_query_lookup.specs.Fives.{five_of};
ghost use Rattle.pks_postdict.specs.Families.{held_of, link_of, links_of, family_of};
ghost use Rattle.pks_postdict_rules.specs.News.{Completes};
ghost use Rattle.pks_postdict.specs.Growing.{IsSparedAlone, IsSparedForward, AreSpared, IsFine, IsGrowth, IsLinkGrowth, AreGrowths, is_unread};
ghost use Rattle.pks_postdict.specs.Lasting.{IsLastFamily};

use crate::family::{Family, Held, Link, Place};
use pks_kf::Kf;
use pks_postdict_rules::steps;
use pks_query_closing::rounds::additions;
use pks_query_lookup::derived::Derived;
use pks_query_lookup::five::Five;
use pks_terms::literal::Literal;
use pks_terms::problem::{Problem, Signature};
use std::alloc::{AllocError, Global};
use std::rc::Rc;

/// What the rules add to a moment, where they are to be read again.
fn own_news(alloc: Global, s: &Signature, place: &Place) -> Result<Vec<Literal>, AllocError>
    requires few { length s.now.objects ≤ MOST_OBJECTS }
    requires spared { IsSparedAlone (signature_of s.now) place.now }
    ensures { IfOk result (λ v. Completes (held_of place.now.held).kf (literals_of v.items) (additions (signature_of s.now) (held_of place.now.held))) }
{
    if !place.is_unread() {
        return Ok(Vec::new(alloc));
    }
    let all = additions(alloc, s, place.held.lookup())?;
    Ok(all)
}

/// What the moment before gives a moment, where it grew.
fn forward_news(
    alloc: Global,
    p: &Problem<'_>,
    before: &Place,
    link: &Link,
) -> Result<Vec<Literal>, AllocError>
    requires valid { IsValidProblem p.now }
    requires spared { IsSparedForward (problem_of p.now) before.now link.now }
    ensures { IfOk result (λ v. Completes (held_of link.now.place.held).kf (literals_of v.items) (forward (problem_of p.now) (instance_of link.now.step) (held_of before.now.held))) }
{
    if !before.grew {
        return Ok(Vec::new(alloc));
    }
    let all = steps::forward_news(
        alloc,
        p,
        &link.step,
        before.held.lookup(),
        link.place.held.lookup(),
    )?;
    Ok(all)
}

/// What a moment gets from the next one, where either grew.
fn backward_news(
    alloc: Global,
    p: &Problem<'_>,
    place: &Place,
    rest: &[Link],
) -> Result<Vec<Literal>, AllocError>
    requires valid { IsValidProblem p.now }
    requires spared { AreSpared (problem_of p.now) place.now rest.now }
    ensures { IfOk result (λ v. Completes (held_of place.now.held).kf (literals_of v.items) (from_next (problem_of p.now) (held_of place.now.held) (links_of rest.now))) }
{
    match rest {
        [] => Ok(Vec::new(alloc)),
        [link, ..] => {
            if !place.grew && !link.place.grew {
                return Ok(Vec::new(alloc));
            }
            let all = steps::backward_news(
                alloc,
                p,
                &link.step,
                place.held.lookup(),
                link.place.held.lookup(),
            )?;
            Ok(all)
        }
    }
}

/// These databases, to look literals up in.
fn held_open(alloc: Global, five: Five) -> Result<Held, AllocError>
    ensures says { IfOk result (λ h. held_of h ≡ five_of five) }
    ensures unread { IfOk result (λ h. is_unread h true ≡ true) }
    ensures fine { (s : SSignature) → IfOk result (IsFine s) }
{
    let derived = Derived::of(alloc, five)?;
    let rc = Rc::new(alloc, derived)?;
    Ok(Held::Grown(rc))
}

/// The moment with these literals known too.
fn with_news(alloc: Global, place: &Place, news: Vec<Literal>) -> Result<Place, AllocError>
    ensures known { IfOk result (λ next. held_of next.held ≡ record (held_of place.now.held) { kf = added literal_cmp (held_of place.now.held).kf (literals_of news.items) }) }
    ensures growth { IfOk result (λ next. IsGrowth place.now next) }
    ensures ordered { OnOk result (IsOrdered literal_cmp (held_of place.now.held).kf) }
{
    let five = place.held.lookup().five();
    let kf = five.kf.with_all(alloc, news)?;
    if kf.len() == five.kf.len() {
        let held = place.held.share()?;
        return Ok(Place { held, grew: false });
    }
    let next = five.with_known(kf)?;
    let held = held_open(alloc, next)?;
    Ok(Place { held, grew: true })
}

/// What a round adds to a later moment.
fn link_news(
    alloc: Global,
    p: &Problem<'_>,
    before: &Place,
    link: &Link,
    rest: &[Link],
) -> Result<Vec<Literal>, AllocError>
    requires valid { IsValidProblem p.now }
    requires spared { AreSpared (problem_of p.now) before.now (link.now ∷ rest.now) }
    ensures { IfOk result (λ v. Completes (held_of link.now.place.held).kf (literals_of v.items) (additions (problem_of p.now).signature (held_of link.now.place.held) ++ (forward (problem_of p.now) (instance_of link.now.step) (held_of before.now.held) ++ from_next (problem_of p.now) (held_of link.now.place.held) (links_of rest.now)))) }
{
    let mut all = own_news(alloc, &p.signature, &link.place)?;
    let before = forward_news(alloc, p, before, link)?;
    let after = backward_news(alloc, p, &link.place, rest)?;
    all.extend_from_slice(&before)?;
    all.extend_from_slice(&after)?;
    Ok(all)
}

/// A later moment after a round.
fn next_link(
    alloc: Global,
    p: &Problem<'_>,
    before: &Place,
    link: &Link,
    rest: &[Link],
) -> Result<Link, AllocError>
    requires valid { IsValidProblem p.now }
    requires spared { AreSpared (problem_of p.now) before.now (link.now ∷ rest.now) }
    ensures link { IfOk result (λ next. link_of next ≡ (instance_of link.now.step, grown (problem_of p.now).signature (held_of link.now.place.held) (forward (problem_of p.now) (instance_of link.now.step) (held_of before.now.held) ++ from_next (problem_of p.now) (held_of link.now.place.held) (links_of rest.now)))) }
    ensures growth { IfOk result (λ next. IsLinkGrowth link.now next) }
{
    let news = link_news(alloc, p, before, link, rest)?;
    let place = with_news(alloc, &link.place, news)?;
    Ok(Link {
        step: link.step,
        place,
    })
}

/// Puts the later moments after a round behind the others.
fn put_next_links(
    alloc: Global,
    to: &mut Vec<Link>,
    p: &Problem<'_>,
    before: &Place,
    later: &[Link],
) -> Result<(), AllocError>
    requires valid { IsValidProblem p.now }
    requires spared { AreSpared (problem_of p.now) before.now later.now }
    ensures links { OnOk result (links_of to.new.items ≡ links_of to.old.items ++ settled_steps (problem_of p.now) (held_of before.now.held) (links_of later.now)) }
    ensures growths { (done : List (Link)) → AreGrowths done to.old.items → OnOk result (AreGrowths (done ++ later.now) to.new.items) }
{
    match later {
        [] => Ok(()),
        [link, rest @ ..] => {
            let next = next_link(alloc, p, before, link, rest)?;
            to.push(next)?;
            put_next_links(alloc, to, p, &link.place, rest)?;
            Ok(())
        }
    }
}

/// The first moment after a round.
fn next_start(alloc: Global, p: &Problem<'_>, family: &Family) -> Result<Place, AllocError>
    requires valid { IsValidProblem p.now }
    requires spared { AreSpared (problem_of p.now) family.now.start family.now.later.items }
    ensures start { IfOk result (λ next. held_of next.held ≡ (settle_round (problem_of p.now) (family_of family.now)).start) }
    ensures growth { IfOk result (λ next. IsGrowth family.now.start next) }
{
    let mut news = own_news(alloc, &p.signature, &family.start)?;
    let after = backward_news(alloc, p, &family.start, family.later.as_slice())?;
    news.extend_from_slice(&after)?;
    let place = with_news(alloc, &family.start, news)?;
    Ok(place)
}

/// The moments after a round.
fn round(alloc: Global, p: &Problem<'_>, family: &Family) -> Result<Family, AllocError>
    requires valid { IsValidProblem p.now }
    requires spared { AreSpared (problem_of p.now) family.now.start family.now.later.items }
    ensures round { IfOk result (λ next. family_of next ≡ settle_round (problem_of p.now) (family_of family.now)) }
    ensures start { IfOk result (λ next. IsGrowth family.now.start next.start) }
    ensures later { IfOk result (λ next. AreGrowths family.now.later.items next.later.items) }
{
    let start = next_start(alloc, p, family)?;
    let mut later = Vec::new(alloc);
    put_next_links(alloc, &mut later, p, &family.start, family.later.as_slice())?;
    Ok(Family { start, later })
}

/// The moments after the last round: the next one leaves them as they are.
pub(crate) fn last_family(
    alloc: Global,
    p: &Problem<'_>,
    family: Family,
) -> Result<Family, AllocError>
    requires valid { IsValidProblem p.now }
    requires spared { AreSpared (problem_of p.now) family.start family.later.items }
    ensures last { IfOk result (λ last. IsLastFamily (problem_of p.now) (family_of family) (family_of last)) }
    ensures spared { IfOk result (λ last. AreSpared (problem_of p.now) last.start last.later.items) }
{
    let mut now = family;
    'rounds: loop {
        let next = round(alloc, p, &now)?;
        if !next.grew() {
            return Ok(now);
        }
        now = next;
    }
}
