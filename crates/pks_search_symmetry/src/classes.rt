//! Classes of objects that a problem doesn't tell apart: each has one own type, no action's text names one of it, and an
//! exchange of two leaves the goal as it is. No clause says so: they only propose renamings, which are then tested.

use crate::fixed::{keeps_goal, keeps_texts};
use pks_terms::ids::ObjId;
use pks_terms::problem::Problem;
use std::alloc::{AllocError, Global};

/// The most objects, and the most aims, of a problem in which classes are looked for.
const MOST_COMPARED: usize = 256;

const MOST_AIMS: usize = 64;

/// The class of each object, from 1 on, and 0 for one that is alone; and the objects that aren't.
#[derive(Drop)]
pub(crate) struct Classes {
    of: Vec<u16>,
    moving: Vec<ObjId>,
}

/// The object with the number; past the greatest number it is the last one.
fn object_at(number: usize) -> ObjId {
    match u16::try_from(number) {
        Ok(own) => ObjId(own),
        Err(_) => ObjId(u16::MAX),
    }
}

/// The list in which each object stays but for one, which goes to another.
fn list_moving(
    alloc: Global,
    count: usize,
    from: ObjId,
    to: ObjId,
) -> Result<Vec<ObjId>, AllocError> {
    let mut list = Vec::new(alloc);
    for d in 0..count {
        let own = object_at(d);
        list.push(if own == from { to } else { own })?;
    }
    Ok(list)
}

/// The list in which the two objects are exchanged.
fn list_exchanging(
    alloc: Global,
    count: usize,
    a: ObjId,
    b: ObjId,
) -> Result<Vec<ObjId>, AllocError> {
    let mut list = list_moving(alloc, count, a, b)?;
    if let Some(place) = list.get_mut(usize::from(b.0)) {
        *place = a;
    }
    Ok(list)
}

/// Whether no action's text names the object.
fn is_free(alloc: Global, p: &Problem<'_>, d: ObjId) -> Result<bool, AllocError> {
    let count = p.signature.objects.len();
    let elsewhere = ObjId(if d.0 == 0 { 1 } else { 0 });
    let list = list_moving(alloc, count, d, elsewhere)?;
    Ok(keeps_texts(list.as_slice(), p))
}

/// Whether the objects are of one own type and an exchange of them leaves the goal as it is.
fn are_exchanged(alloc: Global, p: &Problem<'_>, a: ObjId, b: ObjId) -> Result<bool, AllocError> {
    let types = p.signature.objects.as_slice();
    if types.get(usize::from(a.0)) != types.get(usize::from(b.0)) {
        return Ok(false);
    }
    let list = list_exchanging(alloc, types.len(), a, b)?;
    Ok(keeps_goal(list.as_slice(), p.goal.as_slice()))
}

/// The class of the object: that of the first member with which it can be exchanged, and else a new one.
fn class_of(
    alloc: Global,
    p: &Problem<'_>,
    d: ObjId,
    firsts: &mut Vec<ObjId>,
) -> Result<u16, AllocError> {
    let mut class: u16 = 0;
    for first in firsts.as_slice() {
        class = class.saturating_add(1);
        if are_exchanged(alloc, p, d, *first)? {
            return Ok(class);
        }
    }
    firsts.push(d)?;
    Ok(class.saturating_add(1))
}

/// How many of the classes are this one.
fn members(classes: &[u16], class: u16) -> usize {
    let mut count: usize = 0;
    for other in classes {
        if *other == class {
            count = count.saturating_add(1);
        }
    }
    count
}

impl Classes {
    /// The classes of the problem's objects. The error is want of memory.
    pub(crate) fn of(alloc: Global, p: &Problem<'_>) -> Result<Classes, AllocError> {
        let count = p.signature.objects.len();
        let mut all: Vec<u16> = Vec::new(alloc);
        let mut firsts = Vec::new(alloc);
        if count <= MOST_COMPARED && p.goal.len() <= MOST_AIMS {
            for number in 0..count {
                let d = object_at(number);
                let class = if is_free(alloc, p, d)? {
                    class_of(alloc, p, d, &mut firsts)?
                } else {
                    0
                };
                all.push(class)?;
            }
        }
        Classes::without_singles(alloc, all.as_slice())
    }

    // The classes of which there is more than one member.
    fn without_singles(alloc: Global, all: &[u16]) -> Result<Classes, AllocError> {
        let mut of = Vec::new(alloc);
        let mut moving = Vec::new(alloc);
        for (number, class) in all.iter().enumerate() {
            let is_alone = *class == 0 || members(all, *class) == 1;
            of.push(if is_alone { 0 } else { *class })?;
            if !is_alone {
                moving.push(object_at(number))?;
            }
        }
        Ok(Classes { of, moving })
    }

    /// Whether each object is alone.
    pub(crate) fn is_empty(&self) -> bool {
        self.moving.is_empty()
    }

    /// The class of each object.
    pub(crate) fn all(&self) -> &[u16] {
        self.of.as_slice()
    }

    /// The objects that aren't alone.
    pub(crate) fn moving(&self) -> &[ObjId] {
        self.moving.as_slice()
    }

    /// The list that takes the objects of the one order to those of the other, place by place. The error is want of memory.
    pub(crate) fn exchange(
        &self,
        alloc: Global,
        ours: &[ObjId],
        theirs: &[ObjId],
    ) -> Result<Vec<ObjId>, AllocError> {
        let mut list = Vec::new(alloc);
        for d in 0..self.of.len() {
            list.push(object_at(d))?;
        }
        for (d, e) in ours.iter().zip(theirs.iter()) {
            if let Some(place) = list.get_mut(usize::from(d.0)) {
                *place = *e;
            }
        }
        Ok(list)
    }
}
