//! Where a search is, what it takes along, and what it lets go of.
ghost use Rattle.std.specs.Prelude.{◌≡◌, true, IfOk};
ghost use Rattle.pks_terms.specs.Moments.{AreMomentsOf};
ghost use Rattle.pks_terms.specs.Valid.{IsValid};
ghost use Rattle.pks_terms.specs.Views.{problem_of};
ghost use Rattle.pks_search_nogoods.specs.Failing.{AreRight};
ghost use Rattle.pks_search.specs.Straight.{last_alone, HasTreesWithin, LastFails};
ghost use Rattle.pks_search.specs.Spots.{MayGoOn};

use crate::learned::Learned;
use crate::nearing::is_tight;
use crate::shelves::Shelved;
use pks_history::histories::History;
use pks_history_forget::{are_now, cut};
use pks_search_nogoods::failures::{Failures, Question};
use pks_search_symmetry::Keyed;
use pks_search_witness::{Twins, Witness};
use pks_terms::problem::Problem;
use std::alloc::{AllocError, Global};

/// Where a search is: in a problem, at a history, of whose steps all but the last `unread` bring nothing new, with witnesses and
/// twins, or none of either.
#[derive(Clone, Copy)]
pub(crate) struct Spot<'a, 's> {
    pub(crate) alloc: Global,
    pub(crate) problem: &'a Problem<'s>,
    pub(crate) history: &'a History,
    pub(crate) unread: u32,
    pub(crate) near: &'a [Witness],
    pub(crate) twins: &'a [Twins],
}

/// What a search takes along: what it has learned, and what was learned in problems with fewer aims.
#[derive(Drop)]
pub(crate) struct Notes<'s> {
    pub(crate) own: Learned,
    pub(crate) shelf: Vec<Shelved<'s>>,
}

/// While no more problems with fewer aims than this are kept, there may be one more: three aims leave as many.
const MOST_SHELVED: usize = 7;

impl Notes<'_> {
    /// Whether aims are left out on the way: what fails there serves no images among the failures of other aims, so it is done
    /// where no two objects are alike, and while few problems are kept.
    pub(crate) fn leave_aims_out(&self) -> bool {
        self.own.failures.serve_no_images() && self.shelf.len() <= MOST_SHELVED
    }
}

/// What the first witness and the twins become by an action.
#[derive(Drop)]
pub(crate) struct WorldsAfter {
    pub(crate) first: Vec<Witness>,
    pub(crate) twins: Vec<Twins>,
}

/// The last moment of the history alone.
fn last_alone(alloc: Global, h: &History) -> Result<History, AllocError>
    ensures { IfOk result (λ g. g ≡ last_alone h.now) }
{
    let last = h.last().share()?;
    let only = History::start(alloc, last)?;
    Ok(only)
}

/// What is left of the history: its last moment, where the bound leaves no room for a branch and each aim is one of the last
/// moment, and else what the settled past leaves. The same trees within the depth and the limit are derived from it.
pub(crate) fn left_of(spot: &Spot<'_, '_>, n: u32, limit: u32) -> Result<History, AllocError>
    requires spot { MayGoOn spot.now n }
    ensures { IfOk result (λ rest. HasTreesWithin (problem_of spot.now.problem.now) spot.now.history.now rest n limit) }
{
    if is_tight(spot.near, n.min(limit)) && are_now(spot.problem.goal.as_slice()) {
        return last_alone(spot.alloc, spot.history);
    }
    spot.history.in_order();
    let rest = cut(spot.alloc, spot.problem, spot.history)?;
    Ok(rest)
}

/// Whether nothing but actions has room, as `tight` says, each aim is one of the last moment, and the table tells that this
/// alone has no tree no deeper than `n` that costs at most `limit`. It isn't asked where there is no other moment.
pub(crate) fn last_fails(
    spot: &Spot<'_, '_>,
    tight: bool,
    n: u32,
    limit: u32,
    failures: &mut Failures,
) -> Result<bool, AllocError>
    requires valid { IsValid (problem_of spot.now.problem.now) }
    requires moments { AreMomentsOf (problem_of spot.now.problem.now) spot.now.history.now }
    requires right { AreRight (problem_of spot.now.problem.now) failures.old }
    ensures fails { IfOk result (λ b. b ≡ true → LastFails (problem_of spot.now.problem.now) spot.now.history.now tight n limit) }
    ensures right { AreRight (problem_of spot.now.problem.now) failures.new }
{
    if !tight || spot.history.len() == 1 || !are_now(spot.problem.goal.as_slice()) {
        return Ok(false);
    }
    let only = last_alone(spot.alloc, spot.history)?;
    let key = failures.key_of(spot.alloc, &only)?;
    let asked = Question {
        at: Keyed {
            history: &only,
            key: &key,
        },
        n,
        limit,
    };
    let fails = failures.tells(spot.alloc, spot.problem, &asked);
    Ok(fails)
}
