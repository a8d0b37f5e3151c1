//! Histories, whose moments are shared. `docs/RULES.md` says what they are for.
ghost use Rattle.std.specs.Prelude.{◌≡◌, ◌≤◌, ◌<◌, ◌+◌, ◌++◌, [], ◌∷◌, Some, length, IfOk};
ghost use Rattle.pks_terms.specs.Sets.{Each};
ghost use Rattle.pks_terms.specs.Databases.{AreSets};
ghost use Rattle.pks_terms.specs.Settling.{pushed, last_moment, last_of};
ghost use Rattle.pks_terms.specs.Views.{instance_of};
ghost use Rattle.pks_query_lookup.specs.Fives.{five_of};
ghost use Rattle.pks_history.specs.Moments.{moment_of, moments_of, databases_at, instance_after, IsWithoutFirst};

use pks_query::databases::Db;
use pks_terms::schema::Instance;
use std::alloc::{AllocError, Global};
use std::marker::Model;
use std::rc::RcSlice;

/// A later moment: the instance that led to it, and its databases.
#[derive(Drop)]
pub struct Moment {
    pub(crate) step: Instance,
    pub(crate) db: Db,
}

/// The databases at the first moment and at each later one behind the instance that led to it, seen as these. There are 17
/// moments at most. Versions share the databases of their moments, and none changes.
#[derive(Drop)]
pub struct History {
    first: Db,
    later: RcSlice<Moment>,
}

impl Model for History {
    ghost use Rattle.std.specs.Prelude.{◌≤◌, length};
    ghost use Rattle.std.specs.Rc.{rc_slice_items};
    ghost use Rattle.pks_terms.specs.Settling.{History};
    ghost use Rattle.pks_query_lookup.specs.Fives.{five_of};
    ghost use Rattle.pks_history.specs.Moments.{moments_of};

    ghost Value = { History };

    ghost view = { λ h. record { start = five_of h.first; steps = moments_of (rc_slice_items h.later) } };

    ghost invariant = { λ h. length (rc_slice_items h.later) ≤ 16 };
}

/// The same moments, whose databases are shared.
#[tactic(auto, using(pks_query_closing::proofs::Lists::read))]
fn share_moments(alloc: Global, moments: &[Moment]) -> Result<Vec<Moment>, AllocError>
    ensures { IfOk result (λ v. moments_of v.items ≡ moments_of moments.now) }
{
    let mut all = Vec::new(alloc);
    for m in moments {
        let db = m.db.share()?;
        all.push(Moment { step: m.step, db })?;
    }
    Ok(all)
}

/// The databases at the last of the moments, or those before them where there is none.
fn last_of<'h>(first: &'h Db, later: &'h [Moment]) -> &'h Db
    ensures { five_of result.now ≡ last_of (five_of first.now) (moments_of later.now) }
{
    match later {
        [] => first,
        [m, rest @ ..] => last_of(&m.db, rest),
    }
}

/// Each of the five is a set in order.
fn sets_in_order(d: &Db)
    ensures { AreSets (five_of d.now) }
{
    let five = d.parts();
    let _known = five.kf.len();
    let _whether = five.kw.len();
    let _values = five.kv.len();
    let _groups = five.kx.len();
    let _regions = five.lcw.len();
}

/// So at each of the moments.
fn all_in_order(moments: &[Moment])
    ensures { Each (λ step. AreSets step.1) (moments_of moments.now) }
{
    match moments {
        [] => {}
        [m, rest @ ..] => {
            sets_in_order(&m.db);
            all_in_order(rest);
        }
    }
}

impl History {
    /// The history of one moment.
    pub fn start(alloc: Global, d: Db) -> Result<History, AllocError>
        ensures { IfOk result (λ h. h ≡ record { start = five_of d; steps = [] }) }
    {
        let later = RcSlice::from_vec(Vec::new(alloc))?;
        Ok(History { first: d, later })
    }

    /// The history longer by an instance and the databases behind it, which shares all earlier moments. It asks for fewer
    /// than 17 moments.
    pub fn push(&self, alloc: Global, i: Instance, d: Db) -> Result<History, AllocError>
        requires { length self.now.steps < 16 }
        ensures { IfOk result (λ h. h ≡ pushed self.now (instance_of i) (five_of d)) }
    {
        let first = self.first.share()?;
        let mut later = share_moments(alloc, self.later.as_slice())?;
        later.push(Moment { step: i, db: d })?;
        let later = RcSlice::from_vec(later)?;
        Ok(History { first, later })
    }

    /// The history without its first moment, whose databases are shared. It asks for a later moment.
    pub fn without_first(&self, alloc: Global) -> Result<History, AllocError>
        requires { 1 ≤ length self.now.steps }
        ensures { IfOk result (λ rest. IsWithoutFirst self.now rest) }
    {
        match self.later.as_slice() {
            [] => unreachable!(),
            [m, later @ ..] => {
                let first = m.db.share()?;
                let later = RcSlice::from_vec(share_moments(alloc, later)?)?;
                Ok(History { first, later })
            }
        }
    }

    /// The databases at the last moment. It takes no memory.
    pub fn last(&self) -> &Db
        ensures { five_of result.now ≡ last_moment self.now }
    {
        last_of(&self.first, self.later.as_slice())
    }

    /// The databases at a moment, moments counted from 0. It asks that there is such a moment, and takes no memory.
    pub fn at(&self, moment: u32) -> &Db
        requires { moment ≤ length self.now.steps }
        ensures { databases_at self.now moment ≡ Some (five_of result.now) }
    {
        if moment == 0 {
            return &self.first;
        }
        &self.later.as_slice()[moment as usize - 1].db
    }

    /// The instance after a moment, moments counted from 0. It asks that there is a next moment, and takes no memory.
    pub fn step(&self, moment: u32) -> &Instance
        requires { moment < length self.now.steps }
        ensures { instance_after self.now moment ≡ Some (instance_of result.now) }
    {
        &self.later.as_slice()[moment as usize].step
    }

    /// How many moments there are. It takes no memory.
    pub fn len(&self) -> u32
        ensures count { result ≡ length self.now.steps + 1 }
        ensures few { result ≤ 17 }
    {
        self.later.as_slice().len() as u32 + 1
    }

    /// An equal history, all of whose memory is shared. The error is want of memory for one more reference.
    pub fn share(&self) -> Result<History, AllocError>
        ensures { IfOk result (λ same. same ≡ self.now) }
    {
        let first = self.first.share()?;
        let later = self.later.clone()?;
        Ok(History { first, later })
    }

    /// Each set of each moment is in order. It does nothing.
    pub fn in_order(&self)
        ensures start { AreSets self.now.start }
        ensures steps { Each (λ step. AreSets step.1) self.now.steps }
    {
        sets_in_order(&self.first);
        all_in_order(self.later.as_slice());
    }

    /// Lends the later moments.
    pub(crate) fn later(&self) -> &[Moment]
        ensures { moments_of result.now ≡ self.now.steps }
    {
        self.later.as_slice()
    }
}
