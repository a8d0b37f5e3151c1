//! The moments of a history while it is settled.
ghost use Rattle.std.specs.Prelude.{◌≡◌, ◌<◌, ◌≤◌, ◌-◌, ◌||◌, List, length, take, IfOk};
ghost use Rattle.pks_terms.specs.Signatures.{Signature as SSignature};
ghost use Rattle.pks_terms.specs.Problems.{Problem as SProblem};
ghost use Rattle.pks_terms.specs.Settling.{with_last};
ghost use Rattle.pks_terms.specs.Valid.{IsValid};
ghost use Rattle.pks_terms.specs.Moments.{IsMomentOf, AreMomentsOf};
ghost use Rattle.pks_query_lookup.specs.Fives.{five_of};
ghost use Rattle.pks_postdict.specs.declared.family.Held.TheVariants as held_is;
ghost use Rattle.pks_postdict.specs.Families.{held_of, links_of, family_of};
ghost use Rattle.pks_postdict.specs.Growing.{AreMarked, AreSpared, IsFine, is_unread, some_grew};
ghost use Rattle.pks_postdict.specs.Read.{IsReadBut};

use pks_history::histories::History;
use pks_query::databases::Db;
use pks_query_lookup::derived::Derived;
use pks_terms::schema::Instance;
use std::alloc::{AllocError, Global};
use std::rc::Rc;

/// The databases of a moment.
#[derive(Drop)]
pub(crate) enum Held {
    /// Closed ones, as they were handed in.
    Closed(Db),
    /// What such grew to.
    Grown(Rc<Derived>),
}

/// A moment, and whether its databases grew in the last round. Before the first round those count as grown from which a
/// step goes out that is to be read.
#[derive(Drop)]
pub(crate) struct Place {
    pub(crate) held: Held,
    pub(crate) grew: bool,
}

/// A later moment: the instance that led to it, and its databases.
#[derive(Drop)]
pub(crate) struct Link {
    pub(crate) step: Instance,
    pub(crate) place: Place,
}

/// The moments of a history.
#[derive(Drop)]
pub(crate) struct Family {
    pub(crate) start: Place,
    pub(crate) later: Vec<Link>,
}

impl Held {
    /// Lends what looks literals up.
    pub(crate) fn lookup(&self) -> &Derived
        ensures { five_of result.now ≡ held_of self.now }
    {
        match self {
            Held::Closed(db) => db.lookup(),
            Held::Grown(rc) => rc,
        }
    }

    /// Equal databases, all of whose memory is shared.
    pub(crate) fn share(&self) -> Result<Held, AllocError>
        ensures says { IfOk result (λ same. held_of same ≡ held_of self.now) }
        ensures fine { (s : SSignature) → IsFine s self.now → IfOk result (IsFine s) }
    {
        match self {
            Held::Closed(db) => {
                let db = db.share()?;
                Ok(Held::Closed(db))
            }
            Held::Grown(rc) => {
                let rc = rc.clone()?;
                Ok(Held::Grown(rc))
            }
        }
    }
}

impl Place {
    /// Whether the rules are to be read again: not for closed databases, nor where nothing grew.
    pub(crate) fn is_unread(&self) -> bool
        ensures { result ≡ is_unread self.now.held self.now.grew }
    {
        match &self.held {
            Held::Closed(_) => false,
            Held::Grown(_) => self.grew,
        }
    }
}

/// A moment that no round has looked at.
fn fresh(d: Db, grew: bool) -> Place
    ensures held { result.held ≡ held_is.Closed d }
    ensures grew { result.grew ≡ grew }
{
    Place {
        held: Held::Closed(d),
        grew,
    }
}

/// The first so many later moments, of which the steps out of the last ones are to be read: those behind which `unread` or
/// fewer steps follow.
fn links(
    alloc: Global,
    h: &History,
    count: u32,
    last: u32,
    unread: u32,
) -> Result<Vec<Link>, AllocError>
    requires last { last ≡ length h.now.steps }
    requires count { count ≤ last }
    ensures links { IfOk result (λ v. links_of v.items ≡ take count h.now.steps) }
    ensures marked { IfOk result (λ v. AreMarked unread (last - count) v.items) }
{
    let mut all = Vec::new(alloc);
    for k in 0..count {
        let db = h.at(k + 1).share()?;
        let behind = last - (k + 1);
        all.push(Link {
            step: *h.step(k),
            place: fresh(db, behind <= unread),
        })?;
    }
    Ok(all)
}

/// All later moments, the last one with these databases.
fn later_links(
    alloc: Global,
    h: &History,
    last: u32,
    d: Db,
    unread: u32,
) -> Result<Vec<Link>, AllocError>
    requires later { 0 < last }
    requires last { last ≡ length h.now.steps }
    ensures links { IfOk result (λ v. links_of v.items ≡ (with_last h.now (five_of d)).steps) }
    ensures marked { IfOk result (λ v. AreMarked unread 0 v.items) }
{
    let mut all = links(alloc, h, last - 1, last, unread)?;
    all.push(Link {
        step: *h.step(last - 1),
        place: fresh(d, true),
    })?;
    Ok(all)
}

/// Whether some of these grew in the last round.
fn some_grew(later: &[Link]) -> bool
    ensures { result ≡ some_grew later.now }
{
    for x in later {
        if x.place.grew {
            return true;
        }
    }
    false
}

impl Family {
    /// The moments of the history, the last one with these databases. No round has looked at any. Of the steps all but the
    /// last `unread`, one or more, bring nothing new.
    pub(crate) fn of(alloc: Global, h: &History, d: Db, unread: u32) -> Result<Family, AllocError>
        ensures moments { IfOk result (λ f. family_of f ≡ with_last h.now (five_of d)) }
        ensures spared { (p : SProblem) → IsValid p → AreMomentsOf p h.now → IsMomentOf p.signature (five_of d) → 1 ≤ unread → IsReadBut p unread h.now → IfOk result (λ f. AreSpared p f.start f.later.items) }
    {
        let last = h.len() - 1;
        if last == 0 {
            return Ok(Family {
                start: fresh(d, true),
                later: Vec::new(alloc),
            });
        }
        let first = h.at(0).share()?;
        let later = later_links(alloc, h, last, d, unread)?;
        Ok(Family {
            start: fresh(first, last <= unread),
            later,
        })
    }

    /// Whether some moment grew in the last round.
    pub(crate) fn grew(&self) -> bool
        ensures { result ≡ (self.now.start.grew || some_grew self.now.later.items) }
    {
        self.start.grew || some_grew(self.later.as_slice())
    }
}
