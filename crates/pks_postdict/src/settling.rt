//! Settling a history. `docs/RULES.md` has the rules.
ghost use Rattle.std.specs.Prelude.{◌≡◌, ◌≤◌, ◌+◌, ◌++◌, List, map, is_some, length, IfOk};
ghost use Rattle.std.specs.List.{list_any};
ghost use Rattle.pks_terms.specs.Sets.{Each};
ghost use Rattle.pks_terms.specs.Signatures.{HasValues};
ghost use Rattle.pks_terms.specs.Worlds.{World};
ghost use Rattle.pks_terms.specs.Closure.{first_clash, tidied, IsClosed};
ghost use Rattle.pks_terms.specs.Settling.{clashes, tidied_history, with_last, Settles};
ghost use Rattle.pks_terms.specs.Remembering.{IsTrueHistory};
ghost use Rattle.pks_terms.specs.ValidProblems.{IsValidProblem};
ghost use Rattle.pks_terms.specs.Views.{problem_of, signature_of};
ghost use Rattle.pks_terms.specs.Moments.{IsMomentOf, AreMomentsOf};
ghost use Rattle.pks_query_lookup.specs.Fives.{five_of};
ghost use Rattle.pks_postdict.specs.Ends.{state_of, IfAt, IsAtWith, IsLeastOver};
ghost use Rattle.pks_postdict.specs.Families.{held_of, links_of, family_of};
ghost use Rattle.pks_postdict.specs.Growing.{IsFine};
ghost use Rattle.pks_postdict.specs.Read.{IsReadBut};

use crate::family::{Family, Held, Link};
use crate::round::last_family;
use pks_history::histories::History;
use pks_query::databases::Db;
use pks_query_closing::closing::first_clash;
use pks_query_closing::tidied::with_normal_parts;
use pks_terms::problem::{Problem, Signature};
use std::alloc::{AllocError, Global};

/// A settled history, or a clash.
#[derive(Drop)]
pub enum Settled {
    /// The history with all that was learnt of its moments.
    Whole(History),
    /// Some moment clashes.
    Clash,
}

/// Whether the databases of a moment clash: not where they are as they were handed in.
fn place_clashes(s: &Signature, held: &Held) -> bool
    requires { IsFine (signature_of s.now) held.now }
    ensures { result ≡ is_some (first_clash (signature_of s.now) (held_of held.now)) }
{
    match held {
        Held::Closed(_) => false,
        Held::Grown(derived) => first_clash(s, derived).is_some(),
    }
}

/// Whether one of the later moments clashes.
fn some_clashes(s: &Signature, later: &[Link]) -> bool
    requires { Each (λ x. IsFine (signature_of s.now) x.place.held) later.now }
    ensures { result ≡ list_any (λ step. is_some (first_clash (signature_of s.now) step.1)) (links_of later.now) }
{
    for x in later {
        if place_clashes(s, &x.place.held) {
            return true;
        }
    }
    false
}

/// Whether some moment clashes.
fn clashes(s: &Signature, family: &Family) -> bool
    requires start { IsFine (signature_of s.now) family.now.start.held }
    requires later { Each (λ x. IsFine (signature_of s.now) x.place.held) family.now.later.items }
    ensures { result ≡ clashes (signature_of s.now) (family_of family.now) }
{
    place_clashes(s, &family.start.held) || some_clashes(s, family.later.as_slice())
}

/// The databases of a moment at the end of the rounds, in normal form. Those that did not grow are so already.
fn tidy(alloc: Global, s: &Signature, held: &Held) -> Result<Db, AllocError>
    requires values { HasValues (signature_of s.now) }
    requires closed { IsClosed (signature_of s.now) (tidied (held_of held.now)) }
    ensures { IfOk result (λ db. five_of db ≡ tidied (held_of held.now)) }
{
    match held {
        Held::Closed(db) => {
            let _closed = db.parts();
            let same = db.share()?;
            Ok(same)
        }
        Held::Grown(derived) => {
            let five = derived.five().share()?;
            let same = derived.again(five)?;
            let derived = with_normal_parts(alloc, same)?;
            let db = Db::of_closed(alloc, s, derived)?;
            Ok(db)
        }
    }
}

/// The history longer by these moments, each in normal form.
fn with_links(
    alloc: Global,
    s: &Signature,
    h: History,
    later: &[Link],
) -> Result<History, AllocError>
    requires values { HasValues (signature_of s.now) }
    requires closed { Each (λ step. IsClosed (signature_of s.now) (tidied step.1)) (links_of later.now) }
    requires few { length h.steps + length later.now ≤ 16 }
    ensures { IfOk result (λ g. g ≡ record h { steps = h.steps ++ map (λ step. (step.0, tidied step.1)) (links_of later.now) }) }
{
    match later {
        [] => Ok(h),
        [x, rest @ ..] => {
            let db = tidy(alloc, s, &x.place.held)?;
            let h = h.push(alloc, x.step, db)?;
            let all = with_links(alloc, s, h, rest)?;
            Ok(all)
        }
    }
}

/// The history of these moments, each in normal form.
fn whole(alloc: Global, s: &Signature, family: &Family) -> Result<History, AllocError>
    requires values { HasValues (signature_of s.now) }
    requires start { IsClosed (signature_of s.now) (tidied (held_of family.now.start.held)) }
    requires later { Each (λ step. IsClosed (signature_of s.now) (tidied step.1)) (links_of family.now.later.items) }
    requires few { length family.now.later.items ≤ 16 }
    ensures { IfOk result (λ h. h ≡ tidied_history (family_of family.now)) }
{
    let first = tidy(alloc, s, &family.start.held)?;
    let first = History::start(alloc, first)?;
    let all = with_links(alloc, s, first, family.later.as_slice())?;
    Ok(all)
}

/// What `settle` gives, where it is known of all steps but the last `unread` that they bring nothing new: at each of these
/// both moments know all that the rules between them give. So it is of a history that settling gave and to which so many
/// steps were added, and of what is left of it without some first moments. Only what the other steps, the databases handed in
/// and what comes of these bring is read. It asks besides what `settle` asks that this is so. Of what is settled it is so
/// with `unread` 0. The error is want of memory.
pub fn settle_after(
    alloc: Global,
    p: &Problem<'_>,
    h: &History,
    d: Db,
    unread: u32,
) -> Result<Settled, AllocError>
    requires valid { IsValidProblem p.now }
    requires moments { AreMomentsOf (problem_of p.now) h.now }
    requires moment { IsMomentOf (problem_of p.now).signature (five_of d) }
    requires read { IsReadBut (problem_of p.now) unread h.now }
    ensures settles { IfOk result (λ x. Settles (problem_of p.now) (with_last h.now (five_of d)) (state_of x)) }
    ensures moments { IfOk result (λ x. IfAt (AreMomentsOf (problem_of p.now)) (state_of x)) }
    ensures keeps_truth { (w w' : World) → IsTrueHistory (problem_of p.now) w w' (with_last h.now (five_of d)) → IfOk result (λ x. IsAtWith (IsTrueHistory (problem_of p.now) w w') (state_of x)) }
    ensures least { IfOk result (λ x. IfAt (IsLeastOver (problem_of p.now) (with_last h.now (five_of d))) (state_of x)) }
    ensures read { IfOk result (λ x. IfAt (IsReadBut (problem_of p.now) 0) (state_of x)) }
{
    let _moments = h.len();
    let late = if unread == 0 { 1 } else { unread };
    let family = Family::of(alloc, h, d, late)?;
    let last = last_family(alloc, p, family)?;
    if clashes(&p.signature, &last) {
        return Ok(Settled::Clash);
    }
    let all = whole(alloc, &p.signature, &last)?;
    Ok(Settled::Whole(all))
}

/// The history settled with these databases at its last moment (`docs/RULES.md`, "Settling"): the known literals of every
/// moment grow to the least family that the rules of closing and the rules between neighbouring moments add nothing to.
/// `Clash` comes exactly where some moment of that family clashes. It asks for a valid problem and for closed databases of
/// its signature. Where the history with these databases is true of two worlds, there is no clash, and what is settled is
/// true of both. The history handed in stays as it is. The error is want of memory.
pub fn settle(alloc: Global, p: &Problem<'_>, h: &History, d: Db) -> Result<Settled, AllocError>
    requires valid { IsValidProblem p.now }
    requires moments { AreMomentsOf (problem_of p.now) h.now }
    requires moment { IsMomentOf (problem_of p.now).signature (five_of d) }
    ensures settles { IfOk result (λ x. Settles (problem_of p.now) (with_last h.now (five_of d)) (state_of x)) }
    ensures moments { IfOk result (λ x. IfAt (AreMomentsOf (problem_of p.now)) (state_of x)) }
    ensures keeps_truth { (w w' : World) → IsTrueHistory (problem_of p.now) w w' (with_last h.now (five_of d)) → IfOk result (λ x. IsAtWith (IsTrueHistory (problem_of p.now) w w') (state_of x)) }
    ensures least { IfOk result (λ x. IfAt (IsLeastOver (problem_of p.now) (with_last h.now (five_of d))) (state_of x)) }
{
    let moments = h.len();
    let settled = settle_after(alloc, p, h, d, moments)?;
    Ok(settled)
}
