//! A set in order: the keys of a persistent map.
ghost use Rattle.std.specs.Prelude.{◌≡◌, ◌∷◌, List, [], IfOk, length};
ghost use Rattle.std.specs.Option.{option_map};
ghost use Rattle.std.specs.Fn.{FnReturnsAt};
ghost use Rattle.std.specs.Iterator.{YieldsFirstRef, item_count};
ghost use Rattle.pks_pmap.specs.Keeping.{Keeps};
ghost use Rattle.pks_terms.specs.Sets.{IsOrdered, insert_in, added};
ghost use Rattle.pks_pmap_set.specs.Members.{TakesEach, is_member, first_at_least, keys, rises};

use pks_pmap::counting::Steps;
use pks_pmap::map::{PIter, PMap};
use std::alloc::{AllocError, Global};
use std::cmp::Ordering;
use std::marker::Model;

/// A set in order, seen as the list of its members, each below all later ones. Its versions share their memory.
/// See `docs/RULES.md`, the order of terms and literals.
#[derive(Drop)]
pub struct SetOf<T: Ord> {
    entries: PMap<T, ()>,
}

impl<T: Ord> Model for SetOf<T> {
    ghost use Rattle.std.specs.Prelude.{List};
    ghost use Rattle.pks_pmap_set.specs.Members.{keys};

    ghost Value = { List T };

    ghost view = { λ s. keys s.entries };
}

/// The members of a set in order, seen as those that are left.
#[derive(Drop)]
pub struct Items<'a, T: Ord> {
    entries: PIter<'a, T, ()>,
}

impl<'a, T: Ord> Model for Items<'a, T> {
    ghost use Rattle.std.specs.Prelude.{List};
    ghost use Rattle.pks_pmap_set.specs.Members.{keys};

    ghost Value = { List T };

    ghost view = { λ i. keys i.entries };
}

/// Whether each item is below the next.
fn rises<T: Ord>(items: &[T]) -> bool
    ensures { result ≡ rises T.cmp items.now }
{
    let [first, rest @ ..] = items else {
        return true;
    };
    let mut last = first;
    for item in rest {
        if last.cmp(item) != Ordering::Less {
            return false;
        }
        last = item;
    }
    true
}

impl<T: Ord> SetOf<T> {
    /// The empty set. Takes no memory.
    pub fn empty() -> SetOf<T>
        ensures { result ≡ [] }
    {
        SetOf {
            entries: PMap::empty(),
        }
    }

    /// Lends the map whose keys are the members.
    pub fn map(&self) -> &PMap<T, ()>
        ensures members { keys result.now ≡ self.now }
    {
        &self.entries
    }

    /// Whether the item is a member. Compares it with as many members as the tree is high.
    pub fn has(&self, item: &T) -> bool
        ensures { result ≡ is_member T.cmp item.now self.now }
    {
        self.entries.get(item).is_some()
    }

    /// The first member that is not below the item, or `None` where all are. Compares as `has` does.
    pub fn first_from(&self, item: &T) -> Option<&T>
        ensures { option_map (λ x. x.now) result ≡ first_at_least T.cmp item.now self.now }
    {
        let (first, _) = self.entries.first_from(item)?;
        Some(first)
    }

    /// How many members there are.
    pub fn len(&self) -> usize
        ensures count { result ≡ length self.now }
        ensures ordered { IsOrdered T.cmp self.now }
    {
        self.entries.len()
    }

    /// The members in order.
    pub fn items(&self) -> Items<'_, T>
        ensures members { result ≡ self.now }
        ensures ordered { IsOrdered T.cmp self.now }
    {
        Items {
            entries: self.entries.iter(),
        }
    }
}

impl<T: Ord + Drop> SetOf<T> {
    /// The same set, all of whose memory is shared. The error is want of memory for one more reference.
    pub fn share(&self) -> Result<SetOf<T>, AllocError>
        ensures { IfOk result (λ same. same ≡ self.now) }
    {
        let entries = self.entries.share()?;
        Ok(SetOf { entries })
    }

    /// The set of these items, made in a time that grows as their number. Asks that each is below all later ones.
    pub fn from_ordered(alloc: Global, items: Vec<T>) -> Result<SetOf<T>, AllocError>
        requires { IsOrdered T.cmp items.items }
        ensures { IfOk result (λ set. set ≡ items.items) }
    {
        let mut entries = Vec::with_capacity(alloc, items.len())?;
        for item in items {
            entries.push((item, ()))?;
        }
        let mut steps = Steps::new();
        let entries = PMap::from_ordered(alloc, entries, &mut steps)?;
        Ok(SetOf { entries })
    }

    /// The set with the item in it. Where an equal item is a member, the same set, and nothing is made.
    pub fn add(&self, alloc: Global, item: T) -> Result<SetOf<T>, AllocError>
        ensures { IfOk result (λ set. set ≡ insert_in T.cmp item self.now) }
    {
        let _ordered = self.len();
        if self.has(&item) {
            return self.share();
        }
        let mut steps = Steps::new();
        let entries = self.entries.insert(alloc, item, (), &mut steps)?;
        Ok(SetOf { entries })
    }

    /// The set of these items, which come in any order, equal ones as often as they come. The error is want of memory.
    pub fn of(alloc: Global, items: Vec<T>) -> Result<SetOf<T>, AllocError>
        ensures { IfOk result (λ set. set ≡ added T.cmp [] items.items) }
    {
        let set = SetOf::empty().with_all(alloc, items)?;
        Ok(set)
    }

    /// The set with the items in it, one after another. A list in order is put into the empty set in a time that
    /// grows as its length.
    pub fn with_all(&self, alloc: Global, items: Vec<T>) -> Result<SetOf<T>, AllocError>
        ensures { IfOk result (λ set. set ≡ added T.cmp self.now items.items) }
    {
        if self.len() == 0 && rises(items.as_slice()) {
            return SetOf::from_ordered(alloc, items);
        }
        let mut set = self.share()?;
        for item in items {
            set = set.add(alloc, item)?;
        }
        Ok(set)
    }

    /// The set of the members for which the test answers true. Asks that the test may be called on each member.
    /// Shares each subtree in which all members are kept.
    pub fn kept<F: Fn(&T) -> bool>(&self, alloc: Global, test: F) -> Result<SetOf<T>, AllocError>
        requires { TakesEach F.Fn test self.now }
        ensures { IfOk result (λ set. Keeps (FnReturnsAt F.Fn test) self.now set) }
    {
        let mut steps = Steps::new();
        let entries = self.entries.kept(alloc, test, &mut steps)?;
        Ok(SetOf { entries })
    }
}

impl<'a, T: Ord> Iterator for Items<'a, T> {
    type Item = &'a T;

    ghost next_gives = { YieldsFirstRef (λ s. s) };

    ghost remaining = { item_count (λ s. s) };

    fn next(&mut self) -> Option<&'a T> {
        let (item, _) = self.entries.next()?;
        Some(item)
    }
}
