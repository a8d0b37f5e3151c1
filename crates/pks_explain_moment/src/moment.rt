//! What stands at one moment, in maps whose versions share their memory.
ghost use Rattle.std.specs.Prelude.{◌≡◌};
ghost use Rattle.pks_terms.specs.Views.{inner_of, literal_of};
ghost use Rattle.pks_explain_moment.specs.Standing.{line_of, valued};

use crate::index::LineIndex;
use crate::pushing::both;
use pks_lcw::Entry;
use pks_pmap::counting::Steps;
use pks_pmap::map::PMap;
use pks_terms::group::Group;
use pks_terms::ids::ObjId;
use pks_terms::literal::Literal;
use pks_terms::term::{Inner, Term};
use std::alloc::{AllocError, Global};

/// A place and its value, by the line of their equation.
#[derive(Clone, Copy)]
pub struct Valued {
    /// The application to objects.
    pub place: Inner,
    /// Its value.
    pub value: ObjId,
    /// The number of the equation's line.
    pub line: u32,
}

/// The literals that have lines.
#[derive(Drop)]
pub(crate) struct Stated {
    /// The known literals of the database.
    pub known: PMap<Literal, u32>,
    /// Literals that hold and of which a line was made.
    pub shown: PMap<Literal, u32>,
}

/// What stands beside the literals.
#[derive(Drop)]
pub(crate) struct Beside {
    /// The groups.
    pub groups: PMap<Group, u32>,
    /// The closed regions.
    pub regions: PMap<Entry, u32>,
}

/// The applications in known literals.
#[derive(Drop)]
pub(crate) struct Occurring {
    /// The value of each application to objects that has a known one.
    pub values: PMap<Inner, Valued>,
    /// The known literals in which an application to objects occurs, by their lines.
    pub literals: PMap<Inner, PMap<u32, Literal>>,
    /// All that occur.
    pub applications: PMap<Term, ()>,
}

/// What stands at a moment of a path, each with the number of its line.
#[derive(Drop)]
pub struct MomentLines {
    number: usize,
    pub(crate) stated: Stated,
    pub(crate) beside: Beside,
    pub(crate) occurring: Occurring,
    /// What closing has to look at, where this has been made.
    pub(crate) index: Option<LineIndex>,
}

/// Want of memory, answered where a line that should be there is missing. No file is known for which that is so.
pub fn missing_as_memory() -> AllocError {
    AllocError
}

/// Puts the entry into the map.
pub(crate) fn put<K: Ord + Drop, V: Drop>(
    alloc: Global,
    map: &mut PMap<K, V>,
    key: K,
    value: V,
) -> Result<(), AllocError> {
    let mut steps = Steps::new();
    let more = map.insert(alloc, key, value, &mut steps)?;
    *map = more;
    Ok(())
}

/// Drops the entry at the key, where there is one.
pub(crate) fn drop_at<K: Ord + Drop, V: Drop>(
    alloc: Global,
    map: &mut PMap<K, V>,
    key: &K,
) -> Result<(), AllocError> {
    let mut steps = Steps::new();
    let less = map.remove(alloc, key, &mut steps)?;
    *map = less;
    Ok(())
}

/// Closing has to look at all again.
pub(crate) fn forget(index: &mut Option<LineIndex>) {
    *index = None;
}

impl Stated {
    fn share(&self) -> Result<Stated, AllocError> {
        let (known, shown) = both(self.known.share(), self.shown.share())?;
        Ok(Stated { known, shown })
    }
}

impl Beside {
    fn share(&self) -> Result<Beside, AllocError> {
        let (groups, regions) = both(self.groups.share(), self.regions.share())?;
        Ok(Beside { groups, regions })
    }
}

impl Occurring {
    fn share(&self) -> Result<Occurring, AllocError> {
        let found = both(self.values.share(), self.literals.share());
        let ((values, literals), applications) = both(found, self.applications.share())?;
        Ok(Occurring {
            values,
            literals,
            applications,
        })
    }
}

impl MomentLines {
    /// The moment of this number, at which nothing stands.
    pub fn empty(number: usize) -> MomentLines {
        MomentLines {
            number,
            stated: Stated {
                known: PMap::empty(),
                shown: PMap::empty(),
            },
            beside: Beside {
                groups: PMap::empty(),
                regions: PMap::empty(),
            },
            occurring: Occurring {
                values: PMap::empty(),
                literals: PMap::empty(),
                applications: PMap::empty(),
            },
            index: None,
        }
    }

    /// An equal moment, whose maps are shared. What closing has to look at is left out, so that it looks at all. The error is
    /// want of memory.
    pub fn share(&self) -> Result<MomentLines, AllocError> {
        let literals = both(self.stated.share(), self.occurring.share());
        let ((stated, occurring), beside) = both(literals, self.beside.share())?;
        Ok(MomentLines {
            number: self.number,
            stated,
            beside,
            occurring,
            index: None,
        })
    }

    /// How many actions come before it.
    pub fn number(&self) -> usize {
        self.number
    }

    /// The number of the line that says so, if there is one.
    #[tactic(auto, using(crate::proofs::Views::found_get))]
    pub fn line_of(&self, l: &Literal) -> Option<u32>
        ensures { result ≡ line_of self.now (literal_of l.now) }
    {
        match self.stated.known.get(l) {
            Some(line) => Some(*line),
            None => self.stated.shown.get(l).copied(),
        }
    }

    /// The value of the application to objects, by the line of their equation.
    pub(crate) fn value_at(&self, place: &Inner) -> Option<Valued>
        ensures { result ≡ valued self.now (inner_of place.now) }
    {
        self.occurring.values.get(place).copied()
    }

    /// The literal has this line. The error is want of memory.
    pub fn put_shown(&mut self, alloc: Global, l: &Literal, line: u32) -> Result<(), AllocError> {
        put(alloc, &mut self.stated.shown, *l, line)
    }
}
