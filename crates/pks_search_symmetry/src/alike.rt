//! Histories that are images by a renaming that the problem doesn't see, found by their keys.

ghost use Rattle.std.specs.Prelude.{◌≡◌, [], IfOk, IsTrue, slice_get};
ghost use Rattle.pks_terms.specs.Views.{problem_of, types_of};
ghost use Rattle.pks_laws_symmetry.specs.Renamed.{IsRenaming, AreImagesAlong};
ghost use Rattle.pks_laws_symmetry.specs.Fixed.{IsSymmetry};
ghost use Rattle.pks_search_symmetry.specs.Renaming.{image_by, IsTakenBack, AreAlike};
ghost use Rattle.pks_search_symmetry.specs.Keeping.{IsOfProblem};

use crate::classes::Classes;
use crate::fixed::{keeps_goal, keeps_texts};
use crate::images::are_images;
use crate::marks::Marks;
use crate::renaming::object;
use pks_history::histories::History;
use pks_terms::ids::{ObjId, TypeId};
use pks_terms::problem::Problem;
use std::alloc::{AllocError, Global};

/// The most walks over a history by which its objects are told apart.
const WALKS: u32 = 8;

/// What is known of a problem's renamings: the classes of objects that it doesn't tell apart.
#[derive(Drop)]
pub struct Alike {
    classes: Classes,
    // Whether the renaming that moves nothing leaves the problem as it is.
    whole: bool,
}

/// By what the images of a history are found among many: a mark, which is the same for all of them, and the objects that
/// have others in their classes, in an order that images share where their marks tell the objects apart.
#[derive(Drop)]
pub struct HistoryKey {
    /// The mark.
    pub mark: u64,
    /// The objects, class by class, by their marks.
    pub order: Vec<ObjId>,
}

/// A history with its key.
#[derive(Clone, Copy)]
pub struct Keyed<'h> {
    /// The history.
    pub history: &'h History,
    /// Its key.
    pub key: &'h HistoryKey,
}

/// Whether the objects at the two places are of one own type.
fn are_of_one_type(types: &[TypeId], place: usize, other: usize) -> bool
    ensures { IsTrue result → slice_get (types_of types.now) other ≡ slice_get (types_of types.now) place }
{
    match (types.get(place), types.get(other)) {
        (Some(a), Some(b)) => a.0 == b.0,
        _ => false,
    }
}

/// Whether the object at the place is of its image's own type, and each list takes it back where the other takes it from.
fn is_taken_back(types: &[TypeId], to: &[ObjId], back: &[ObjId], place: usize) -> bool
    ensures { IsTrue result → IsTakenBack (types_of types.now) (image_by to.now) (image_by back.now) place }
{
    let d = match u16::try_from(place) {
        Ok(number) => ObjId(number),
        Err(_) => return false,
    };
    let e = object(to, d);
    object(back, e).0 == d.0
        && object(to, object(back, d)).0 == d.0
        && are_of_one_type(types, place, usize::from(e.0))
}

/// Whether the object at each place is of its image's own type, and the lists take back what each other does.
fn takes_back(p: &Problem<'_>, to: &[ObjId], back: &[ObjId]) -> bool
    ensures { IsTrue result → IsRenaming (problem_of p.now).signature (image_by to.now) (image_by back.now) }
{
    let types = p.signature.objects.as_slice();
    if to.len() != types.len() || back.len() != types.len() {
        return false;
    }
    for place in 0..types.len() {
        if !is_taken_back(types, to, back, place) {
            return false;
        }
    }
    true
}

/// Whether the lists are a renaming, there and back, that leaves the problem as it is.
fn is_symmetry(p: &Problem<'_>, to: &[ObjId], back: &[ObjId]) -> bool
    ensures { IsTrue result → IsSymmetry (problem_of p.now) (image_by to.now) (image_by back.now) }
{
    if !takes_back(p, to, back) {
        return false;
    }
    if !keeps_texts(to, p) {
        return false;
    }
    let goal = p.goal.as_slice();
    let there = keeps_goal(to, goal);
    let again = keeps_goal(back, goal);
    there && again
}

/// Whether the renaming that moves nothing leaves the problem as it is.
fn is_whole(p: &Problem<'_>) -> bool
    ensures { IsTrue result → IsSymmetry (problem_of p.now) (image_by []) (image_by []) }
{
    if !keeps_texts(&[], p) {
        return false;
    }
    let goal = p.goal.as_slice();
    keeps_goal(&[], goal)
}

impl Alike {
    /// Whether no two objects are alike, so that a history has no image but itself. It takes no memory. `docs/RULES.md` says when
    /// objects are alike.
    pub fn are_all_alone(&self) -> bool {
        self.classes.is_empty()
    }

    /// What is known of the problem's renamings. The error is want of memory.
    pub fn of(alloc: Global, p: &Problem<'_>) -> Result<Alike, AllocError>
        ensures { IfOk result (IsOfProblem (problem_of p.now)) }
    {
        let classes = Classes::of(alloc, p)?;
        let whole = is_whole(p);
        Ok(Alike { classes, whole })
    }

    /// The key of a history. It takes some walks over it. The error is want of memory.
    pub fn key_of(&self, alloc: Global, h: &History) -> Result<HistoryKey, AllocError> {
        let mut marks = Marks::of(alloc, &self.classes)?;
        let mut order = Vec::new(alloc);
        let mut apart = 0;
        for _ in 0..WALKS {
            marks.see(alloc, h)?;
            if self.classes.is_empty() {
                break;
            }
            let (next, now) = marks.sort_moving(alloc, &self.classes)?;
            order = next;
            if now <= apart {
                break;
            }
            apart = now;
        }
        Ok(HistoryKey {
            mark: marks.total(),
            order,
        })
    }

    // Whether the renaming that takes the one order to the other leaves the problem as it is and takes the one history to
    // the other. The error is want of memory.
    fn are_renamed(
        &self,
        alloc: Global,
        p: &Problem<'_>,
        one: &Keyed<'_>,
        other: &Keyed<'_>,
    ) -> Result<bool, AllocError>
        ensures { IfOk result (λ b. IsTrue b → AreAlike (problem_of p.now) one.now.history.now other.now.history.now) }
    {
        let ours = one.key.order.as_slice();
        let theirs = other.key.order.as_slice();
        let to = self.classes.exchange(alloc, ours, theirs)?;
        let back = self.classes.exchange(alloc, theirs, ours)?;
        if !is_symmetry(p, to.as_slice(), back.as_slice()) {
            return Ok(false);
        }
        let images = are_images(
            alloc,
            to.as_slice(),
            back.as_slice(),
            one.history,
            other.history,
        )?;
        Ok(images)
    }

    /// Whether the renaming that takes the one history's order to the other's leaves the problem as it is and takes the one
    /// history to the other, but for literals that hold anyway. Where memory is wanting it says no.
    pub fn are_alike(
        &self,
        alloc: Global,
        p: &Problem<'_>,
        one: &Keyed<'_>,
        other: &Keyed<'_>,
    ) -> bool
        ensures { IsTrue result → IsOfProblem (problem_of p.now) self.now → AreAlike (problem_of p.now) one.now.history.now other.now.history.now }
    {
        if one.key.order.as_slice() == other.key.order.as_slice() {
            match self.whole_images(alloc, one, other) {
                Ok(whole) => whole,
                Err(_) => false,
            }
        } else {
            match self.are_renamed(alloc, p, one, other) {
                Ok(renamed) => renamed,
                Err(_) => false,
            }
        }
    }

    // The same by the renaming that moves nothing. The error is want of memory.
    fn whole_images(
        &self,
        alloc: Global,
        one: &Keyed<'_>,
        other: &Keyed<'_>,
    ) -> Result<bool, AllocError>
        ensures whole { IfOk result (λ b. IsTrue b → IsTrue self.now.whole) }
        ensures images { IfOk result (λ b. IsTrue b → AreImagesAlong (image_by []) (image_by []) one.now.history.now other.now.history.now) }
    {
        if !self.whole {
            return Ok(false);
        }
        let images = are_images(alloc, &[], &[], one.history, other.history)?;
        Ok(images)
    }
}
