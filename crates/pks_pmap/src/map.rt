//! The map.
ghost use Rattle.std.specs.Prelude.{◌≡◌, ℕ, ◌+◌, ◌*◌, ◌≤◌, List, [], ◌∷◌, length, IfOk, OnOk, IsNone};
ghost use Rattle.std.specs.Option.{option_map};
ghost use Rattle.std.specs.Iterator.{YieldsFirstBy, item_count};
ghost use Rattle.pks_pmap.specs.Entries.{IsAscending, get, first_from, insert, remove};
ghost use Rattle.pks_pmap.specs.Sides.{IsGreatestHeight, raised, raised_by};
ghost use Rattle.pks_pmap.specs.Keeping.{TakesKeys, AnswersKey, Keeps};

use crate::counting::Steps;
use crate::tree::BalancedTree;
use std::alloc::{AllocError, Global};
use std::marker::Model;
use std::rc::Rc;

/// A map in the order of its keys, seen as the list of its entries. Versions share their nodes and pairs, and none changes.
/// It asks of the keys their order, and of both that they are `Drop` where versions are made.
#[derive(Drop)]
pub struct PMap<K: Ord, V> {
    tree: BalancedTree<K, V>,
}

impl<K: Ord, V> Model for PMap<K, V> {
    ghost use Rattle.std.specs.Prelude.{List};

    ghost Value = { List (K × V) };

    ghost view = { λ m. m.tree.0 };
}

/// The keys and values of a map in the order of the keys, seen as the entries that are left.
#[derive(Drop)]
pub struct PIter<'a, K: Ord, V> {
    tree: &'a BalancedTree<K, V>,
    at: usize,
}

impl<'a, K: Ord, V> Model for PIter<'a, K, V> {
    ghost use Rattle.std.specs.Prelude.{List, drop};

    ghost Value = { List (K × V) };

    ghost view = { λ i. drop i.at i.tree.now.0 };
}

impl<K: Ord, V> PMap<K, V> {
    /// The map with no entries. It takes no memory.
    pub fn empty() -> PMap<K, V>
        ensures { result ≡ [] }
    {
        PMap {
            tree: BalancedTree::empty(),
        }
    }

    /// The value at the key, or `None` where there is none. It compares the key with as many as the tree is high.
    pub fn get(&self, key: &K) -> Option<&V>
        ensures { option_map (λ v. v.now) result ≡ get K.cmp key.now self.now }
    {
        self.tree.get(key)
    }

    /// The first entry whose key is not below this one, or `None` where all are. It compares as `get` does.
    pub fn first_from(&self, key: &K) -> Option<(&K, &V)>
        ensures { option_map (λ p. (p.0.now, p.1.now)) result ≡ first_from K.cmp key.now self.now }
    {
        let pair = self.tree.first_from(key)?;
        Some((&pair.0, &pair.1))
    }

    /// How many entries there are. Their keys ascend strictly.
    pub fn len(&self) -> usize
        ensures count { result ≡ length self.now }
        ensures ascending { IsAscending K.cmp self.now }
    {
        self.tree.len()
    }

    /// The entries in the order of the keys, each found by its place in as many steps as the tree is high.
    pub fn iter(&self) -> PIter<'_, K, V>
        ensures entries { result ≡ self.now }
        ensures ascending { IsAscending K.cmp self.now }
    {
        let _len = self.tree.len();
        PIter {
            tree: &self.tree,
            at: 0,
        }
    }
}

impl<K: Ord + Drop, V: Drop> PMap<K, V> {
    /// The same map, all of whose nodes are shared. It takes one reference.
    pub fn share(&self) -> Result<PMap<K, V>, AllocError>
        ensures { IfOk result (λ map. map ≡ self.now) }
    {
        let tree = self.tree.share()?;
        Ok(PMap { tree })
    }

    /// The map of these entries, in a time that grows as their number. It asks that their keys ascend strictly,
    /// and counts a node for each.
    pub fn from_ordered(
        alloc: Global,
        entries: Vec<(K, V)>,
        steps: &mut Steps,
    ) -> Result<PMap<K, V>, AllocError>
        requires { IsAscending K.cmp entries.items }
        ensures entries { IfOk result (λ map. map ≡ entries.items) }
        ensures counted { OnOk result (steps.new.made ≡ raised_by (length entries.items) steps.old.made) }
    {
        let mut entries = entries;
        let count = entries.len();
        let tree = BalancedTree::build(alloc, &mut entries, count, steps)?;
        Ok(PMap { tree })
    }

    /// The map with the entry in its place, where it takes the place of one with an equal key.
    /// An error is want of memory, and the nodes that were made before it are counted too.
    /// It makes a node at least where it answers a map, and few in a map of many entries.
    pub fn insert(
        &self,
        alloc: Global,
        key: K,
        value: V,
        steps: &mut Steps,
    ) -> Result<PMap<K, V>, AllocError>
        ensures entries { IfOk result (λ map. map ≡ insert K.cmp (key, value) self.now) }
        ensures few { (h : ℕ) → IsGreatestHeight (length self.now) h → steps.new.made ≤ steps.old.made + (2 * h + 2) }
        ensures some { OnOk result (raised steps.old.made ≤ steps.new.made) }
        ensures later { steps.old.made ≤ steps.new.made }
    {
        let pair = Rc::new(alloc, (key, value))?;
        let tree = self.tree.insert(alloc, pair, steps)?;
        Ok(PMap { tree })
    }

    /// The map without the entry at the key. Where there is none it is the same map, and no node is made.
    /// An error is want of memory, and the nodes that were made before it are counted too.
    /// It makes no more nodes than `insert` may.
    pub fn remove(
        &self,
        alloc: Global,
        key: &K,
        steps: &mut Steps,
    ) -> Result<PMap<K, V>, AllocError>
        ensures entries { IfOk result (λ map. map ≡ remove K.cmp key.now self.now) }
        ensures few { (h : ℕ) → IsGreatestHeight (length self.now) h → steps.new.made ≤ steps.old.made + (2 * h + 2) }
        ensures later { steps.old.made ≤ steps.new.made }
        ensures missing { IsNone (get K.cmp key.now self.now) → steps.new.made ≡ steps.old.made }
    {
        if self.tree.get(key).is_none() {
            return self.share();
        }
        let tree = self.tree.remove(alloc, key, steps)?;
        Ok(PMap { tree })
    }

    /// The map of the entries for whose keys the test answers true. It asks that the test may be called on each key.
    /// It shares each subtree in which all entries are kept, so where all are it makes no node.
    pub fn kept<F: Fn(&K) -> bool>(
        &self,
        alloc: Global,
        test: F,
        steps: &mut Steps,
    ) -> Result<PMap<K, V>, AllocError>
        requires { TakesKeys F.Fn test self.now }
        ensures entries { IfOk result (λ map. Keeps (AnswersKey F.Fn test) self.now map) }
        ensures shared { IfOk result (λ map. length map ≡ length self.now → steps.new.made ≡ steps.old.made) }
    {
        let tree = self.tree.kept(alloc, &test, steps)?;
        Ok(PMap { tree })
    }
}

impl<'a, K: Ord, V> Iterator for PIter<'a, K, V> {
    type Item = (&'a K, &'a V);

    ghost next_gives = { YieldsFirstBy (λ p. (p.0.now, p.1.now)) (λ s. s) };

    ghost remaining = { item_count (λ s. s) };

    fn next(&mut self) -> Option<(&'a K, &'a V)> {
        let tree = self.tree;
        if self.at >= tree.len() {
            return None;
        }
        let pair = tree.nth(self.at);
        self.at += 1;
        Some((&pair.0, &pair.1))
    }
}
