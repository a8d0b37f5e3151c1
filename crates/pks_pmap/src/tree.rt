//! A balanced tree, seen as its entries in order and its height.
ghost use Rattle.std.specs.Prelude.{◌≡◌, ℕ, ◌+◌, ◌*◌, ◌^◌, ◌<◌, ◌≤◌, max, [], ◌∷◌, ◌++◌, length, drop, IfOk, OnOk, OnErr, is_ok, if◌then◌else◌};
ghost use Rattle.pks_pmap.specs.Entries.{IsAscending, get, first_from, insert, remove};
ghost use Rattle.std.specs.Option.{option_map};
ghost use Rattle.pks_pmap.specs.Sides.{DifferByAtMost, IsFull, IsBalancing, IsInsertion, IsRemoval, IsTakingFirst, IsGluing, IsJoining, IsBuilt, raised};
ghost use Rattle.pks_pmap.specs.Keeping.{TakesKeys, AnswersKey, IsKeeping};

use crate::counting::Steps;
use std::alloc::{AllocError, Global};
use std::cmp::Ordering;
use std::marker::Model;
use std::rc::Rc;

#[cycle(tree)]
#[derive(Drop)]
pub(crate) struct BalancedTree<K: Ord, V> {
    link: TreeLink<K, V>,
}

#[cycle(tree)]
#[derive(Drop)]
enum TreeLink<K: Ord, V> {
    Leaf,
    Fork(Rc<TreeNode<K, V>>),
}

#[cycle(tree)]
#[derive(Drop)]
struct TreeNode<K: Ord, V> {
    left: BalancedTree<K, V>,
    pair: Rc<(K, V)>,
    right: BalancedTree<K, V>,
    height: usize,
    len: usize,
}

impl<K: Ord, V> Model for BalancedTree<K, V> {
    ghost use Rattle.std.specs.Prelude.{ℕ, List, length};

    ghost Value = { List (K × V) × ℕ };

    ghost use Rattle.pks_pmap.specs.Balance.{entries_and_height, IsBalanced};

    ghost view = { λ t. entries_and_height t.link };

    ghost invariant = { λ t. IsBalanced K.cmp t.link };

    ghost size = { λ d. length d.0 };

    ghost use Rattle.std.proofs.Common.{arith, length-append};

    ghost size_decreases = { λ t h. Prim.grind (arith, length-append) };
}

impl<K: Ord, V> BalancedTree<K, V> {
    pub(crate) fn empty() -> BalancedTree<K, V>
        ensures { result ≡ ([], 0) }
    {
        BalancedTree {
            link: TreeLink::Leaf,
        }
    }

    pub(crate) fn len(&self) -> usize
        ensures count { result ≡ length self.now.0 }
        ensures ascending { IsAscending K.cmp self.now.0 }
        ensures full { IsFull self.now.1 (length self.now.0) }
    {
        match &self.link {
            TreeLink::Leaf => 0,
            TreeLink::Fork(node) => node.len,
        }
    }

    pub(crate) fn get(&self, key: &K) -> Option<&V>
        ensures { option_map (λ v. v.now) result ≡ get K.cmp key.now self.now.0 }
    {
        match &self.link {
            TreeLink::Leaf => None,
            TreeLink::Fork(node) => match key.cmp(&node.pair.0) {
                Ordering::Less => node.left.get(key),
                Ordering::Equal => Some(&node.pair.1),
                Ordering::Greater => node.right.get(key),
            },
        }
    }

    // The first pair whose key is not below the key.
    pub(crate) fn first_from(&self, key: &K) -> Option<&(K, V)>
        ensures { option_map (λ p. p.now) result ≡ first_from K.cmp key.now self.now.0 }
    {
        let TreeLink::Fork(node) = &self.link else {
            return None;
        };
        match key.cmp(&node.pair.0) {
            Ordering::Less => match node.left.first_from(key) {
                Some(first) => Some(first),
                None => Some(&node.pair),
            },
            Ordering::Equal => Some(&node.pair),
            Ordering::Greater => node.right.first_from(key),
        }
    }

    // The pair that has so many before it.
    pub(crate) fn nth(&self, at: usize) -> &(K, V)
        requires { at < length self.now.0 }
        ensures { drop at self.now.0 ≡ result.now ∷ drop (at + 1) self.now.0 }
    {
        let TreeLink::Fork(node) = &self.link else {
            unreachable!()
        };
        let before = node.left.len();
        if at < before {
            return node.left.nth(at);
        }
        if at == before {
            return &node.pair;
        }
        node.right.nth(at - before - 1)
    }

    fn height(&self) -> usize
        ensures is { result ≡ self.now.1 }
        ensures full { IsFull self.now.1 (length self.now.0) }
    {
        match &self.link {
            TreeLink::Leaf => 0,
            TreeLink::Fork(node) => node.height,
        }
    }
}

impl<K: Ord + Drop, V: Drop> BalancedTree<K, V> {
    pub(crate) fn share(&self) -> Result<BalancedTree<K, V>, AllocError>
        ensures { IfOk result (λ t. t ≡ self.now) }
    {
        match &self.link {
            TreeLink::Leaf => Ok(BalancedTree {
                link: TreeLink::Leaf,
            }),
            TreeLink::Fork(node) => {
                let node = node.clone()?;
                Ok(BalancedTree {
                    link: TreeLink::Fork(node),
                })
            }
        }
    }

    // The one maker of nodes.
    fn make(
        alloc: Global,
        left: BalancedTree<K, V>,
        pair: Rc<(K, V)>,
        right: BalancedTree<K, V>,
        steps: &mut Steps,
    ) -> Result<BalancedTree<K, V>, AllocError>
        requires ascending { IsAscending K.cmp (left.0 ++ pair.value ∷ right.0) }
        requires balanced { DifferByAtMost 1 left.1 right.1 }
        ensures made { IfOk result (λ t. t ≡ (left.0 ++ pair.value ∷ right.0, max left.1 right.1 + 1)) }
        ensures raised { OnOk result (steps.new.made ≡ raised steps.old.made) }
        ensures at_most { steps.new.made ≤ steps.old.made + (if is_ok result then 1 else 0) }
        ensures later { steps.old.made ≤ steps.new.made }
    {
        let height = left.height().max(right.height());
        let below = left.len().checked_add(right.len());
        let Some(len) = below.and_then(|n| n.checked_add(1)) else {
            return Err(AllocError);
        };
        let node = Rc::new(
            alloc,
            TreeNode {
                left,
                pair,
                right,
                height: height + 1,
                len,
            },
        )?;
        steps.raise();
        Ok(BalancedTree {
            link: TreeLink::Fork(node),
        })
    }

    // The pair after a left side that is shared.
    fn make_after(
        alloc: Global,
        left: &BalancedTree<K, V>,
        pair: Rc<(K, V)>,
        right: BalancedTree<K, V>,
        steps: &mut Steps,
    ) -> Result<BalancedTree<K, V>, AllocError>
        requires ascending { IsAscending K.cmp (left.now.0 ++ pair.value ∷ right.0) }
        requires balanced { DifferByAtMost 1 left.now.1 right.1 }
        ensures made { IfOk result (λ t. t ≡ (left.now.0 ++ pair.value ∷ right.0, max left.now.1 right.1 + 1)) }
        ensures at_most { steps.new.made ≤ steps.old.made + (if is_ok result then 1 else 0) }
        ensures later { steps.old.made ≤ steps.new.made }
    {
        let left = left.share()?;
        BalancedTree::make(alloc, left, pair, right, steps)
    }

    // The pair before a right side that is shared.
    fn make_before(
        alloc: Global,
        left: BalancedTree<K, V>,
        pair: Rc<(K, V)>,
        right: &BalancedTree<K, V>,
        steps: &mut Steps,
    ) -> Result<BalancedTree<K, V>, AllocError>
        requires ascending { IsAscending K.cmp (left.0 ++ pair.value ∷ right.now.0) }
        requires balanced { DifferByAtMost 1 left.1 right.now.1 }
        ensures made { IfOk result (λ t. t ≡ (left.0 ++ pair.value ∷ right.now.0, max left.1 right.now.1 + 1)) }
        ensures raised { OnOk result (steps.new.made ≡ raised steps.old.made) }
        ensures at_most { steps.new.made ≤ steps.old.made + (if is_ok result then 1 else 0) }
        ensures later { steps.old.made ≤ steps.new.made }
    {
        let right = right.share()?;
        BalancedTree::make(alloc, left, pair, right, steps)
    }

    // A tree of two sides whose heights differ by at most two.
    fn balance(
        alloc: Global,
        left: BalancedTree<K, V>,
        pair: Rc<(K, V)>,
        right: BalancedTree<K, V>,
        steps: &mut Steps,
    ) -> Result<BalancedTree<K, V>, AllocError>
        requires ascending { IsAscending K.cmp (left.0 ++ pair.value ∷ right.0) }
        requires near { DifferByAtMost 2 left.1 right.1 }
        ensures balancing { IfOk result (IsBalancing left pair.value right steps.old.made steps.new.made) }
        ensures at_most { steps.new.made ≤ steps.old.made + (if is_ok result then 3 else 2) }
        ensures later { steps.old.made ≤ steps.new.made }
    {
        let (l, r) = (left.height(), right.height());
        if l.saturating_sub(r) > 1 {
            return BalancedTree::lean_left(alloc, left, pair, right, steps);
        }
        if r.saturating_sub(l) > 1 {
            return BalancedTree::lean_right(alloc, left, pair, right, steps);
        }
        BalancedTree::make(alloc, left, pair, right, steps)
    }

    fn lean_left(
        alloc: Global,
        left: BalancedTree<K, V>,
        pair: Rc<(K, V)>,
        right: BalancedTree<K, V>,
        steps: &mut Steps,
    ) -> Result<BalancedTree<K, V>, AllocError>
        requires ascending { IsAscending K.cmp (left.0 ++ pair.value ∷ right.0) }
        requires two_higher { left.1 ≡ right.1 + 2 }
        ensures balancing { IfOk result (IsBalancing left pair.value right steps.old.made steps.new.made) }
        ensures at_most { steps.new.made ≤ steps.old.made + (if is_ok result then 3 else 2) }
        ensures later { steps.old.made ≤ steps.new.made }
    {
        let TreeLink::Fork(top) = &left.link else {
            unreachable!()
        };
        if top.left.height() >= top.right.height() {
            return top.rotate_right(alloc, pair, right, steps);
        }
        top.rotate_left_right(alloc, pair, right, steps)
    }

    fn lean_right(
        alloc: Global,
        left: BalancedTree<K, V>,
        pair: Rc<(K, V)>,
        right: BalancedTree<K, V>,
        steps: &mut Steps,
    ) -> Result<BalancedTree<K, V>, AllocError>
        requires ascending { IsAscending K.cmp (left.0 ++ pair.value ∷ right.0) }
        requires two_higher { right.1 ≡ left.1 + 2 }
        ensures balancing { IfOk result (IsBalancing left pair.value right steps.old.made steps.new.made) }
        ensures at_most { steps.new.made ≤ steps.old.made + (if is_ok result then 3 else 2) }
        ensures later { steps.old.made ≤ steps.new.made }
    {
        let TreeLink::Fork(top) = &right.link else {
            unreachable!()
        };
        if top.right.height() >= top.left.height() {
            return top.rotate_left(alloc, left, pair, steps);
        }
        top.rotate_right_left(alloc, left, pair, steps)
    }

    pub(crate) fn insert(
        &self,
        alloc: Global,
        pair: Rc<(K, V)>,
        steps: &mut Steps,
    ) -> Result<BalancedTree<K, V>, AllocError>
        ensures inserted { IfOk result (IsInsertion K.cmp pair.value self.now steps.old.made steps.new.made) }
        ensures at_most { steps.new.made ≤ steps.old.made + (2 * self.now.1 + 2) }
        ensures some { OnOk result (raised steps.old.made ≤ steps.new.made) }
        ensures later { steps.old.made ≤ steps.new.made }
        ensures full { IsFull self.now.1 (length self.now.0) }
    {
        let _height = self.height();
        let TreeLink::Fork(node) = &self.link else {
            return BalancedTree::make(
                alloc,
                BalancedTree::empty(),
                pair,
                BalancedTree::empty(),
                steps,
            );
        };
        match pair.0.cmp(&node.pair.0) {
            Ordering::Less => {
                let left = node.left.insert(alloc, pair, steps)?;
                node.balance_with_left(alloc, left, steps)
            }
            Ordering::Equal => node.make_with_pair(alloc, pair, steps),
            Ordering::Greater => {
                let right = node.right.insert(alloc, pair, steps)?;
                node.balance_with_right(alloc, right, steps)
            }
        }
    }

    // The first pair, and the tree without it.
    fn take_first(
        &self,
        alloc: Global,
        steps: &mut Steps,
    ) -> Result<(Rc<(K, V)>, BalancedTree<K, V>), AllocError>
        requires { 0 < length self.now.0 }
        ensures first { IfOk result (λ p. IsTakingFirst self.now p.0.value p.1) }
        ensures at_most { steps.new.made ≤ steps.old.made + 2 * self.now.1 }
        ensures later { steps.old.made ≤ steps.new.made }
    {
        let TreeLink::Fork(node) = &self.link else {
            unreachable!()
        };
        let middle = node.pair.clone()?;
        let right = node.right.share()?;
        if node.left.len() == 0 {
            return Ok((middle, right));
        }
        let (first, left) = node.left.take_first(alloc, steps)?;
        let rest = BalancedTree::balance(alloc, left, middle, right, steps)?;
        Ok((first, rest))
    }

    // A tree of two sides of any heights.
    fn join(
        alloc: Global,
        left: BalancedTree<K, V>,
        pair: Rc<(K, V)>,
        right: BalancedTree<K, V>,
        steps: &mut Steps,
    ) -> Result<BalancedTree<K, V>, AllocError>
        requires { IsAscending K.cmp (left.0 ++ pair.value ∷ right.0) }
        ensures joining { IfOk result (IsJoining left pair.value right) }
        ensures near { DifferByAtMost 2 left.1 right.1 → steps.new.made ≤ steps.old.made + 3 }
        ensures later { steps.old.made ≤ steps.new.made }
    {
        let (l, r) = (left.height(), right.height());
        if l.saturating_sub(r) > 2 {
            let TreeLink::Fork(top) = &left.link else {
                unreachable!()
            };
            let inner = top.right.share()?;
            let inner = BalancedTree::join(alloc, inner, pair, right, steps)?;
            return top.balance_with_right(alloc, inner, steps);
        }
        if r.saturating_sub(l) > 2 {
            let TreeLink::Fork(top) = &right.link else {
                unreachable!()
            };
            let inner = top.left.share()?;
            let inner = BalancedTree::join(alloc, left, pair, inner, steps)?;
            return top.balance_with_left(alloc, inner, steps);
        }
        BalancedTree::balance(alloc, left, pair, right, steps)
    }

    // A tree of two sides with no pair between them.
    fn glue(
        alloc: Global,
        left: &BalancedTree<K, V>,
        right: &BalancedTree<K, V>,
        steps: &mut Steps,
    ) -> Result<BalancedTree<K, V>, AllocError>
        requires { IsAscending K.cmp (left.now.0 ++ right.now.0) }
        ensures gluing { IfOk result (IsGluing left.now right.now) }
        ensures near { DifferByAtMost 1 left.now.1 right.now.1 → steps.new.made ≤ steps.old.made + (2 * right.now.1 + 3) }
        ensures later { steps.old.made ≤ steps.new.made }
    {
        let left = left.share()?;
        if right.len() == 0 {
            return Ok(left);
        }
        let (first, rest) = right.take_first(alloc, steps)?;
        BalancedTree::join(alloc, left, first, rest, steps)
    }

    // The tree of the pairs whose keys pass the test. A side in which all pass is shared.
    pub(crate) fn kept<F: Fn(&K) -> bool>(
        &self,
        alloc: Global,
        test: &F,
        steps: &mut Steps,
    ) -> Result<BalancedTree<K, V>, AllocError>
        requires { TakesKeys F.Fn test.now self.now.0 }
        ensures { IfOk result (IsKeeping (AnswersKey F.Fn test.now) self.now steps.old.made steps.new.made) }
    {
        let TreeLink::Fork(node) = &self.link else {
            return Ok(BalancedTree::empty());
        };
        let left = node.left.kept(alloc, test, steps)?;
        let right = node.right.kept(alloc, test, steps)?;
        if !test(&node.pair.0) {
            return BalancedTree::glue(alloc, &left, &right, steps);
        }
        if left.len() == node.left.len() && right.len() == node.right.len() {
            return self.share();
        }
        let middle = node.pair.clone()?;
        BalancedTree::join(alloc, left, middle, right, steps)
    }

    pub(crate) fn remove(
        &self,
        alloc: Global,
        key: &K,
        steps: &mut Steps,
    ) -> Result<BalancedTree<K, V>, AllocError>
        ensures removed { IfOk result (IsRemoval K.cmp key.now self.now) }
        ensures at_most { steps.new.made ≤ steps.old.made + (2 * self.now.1 + 1) }
        ensures later { steps.old.made ≤ steps.new.made }
        ensures full { IsFull self.now.1 (length self.now.0) }
    {
        let _height = self.height();
        let TreeLink::Fork(node) = &self.link else {
            return Ok(BalancedTree::empty());
        };
        match key.cmp(&node.pair.0) {
            Ordering::Less => {
                let left = node.left.remove(alloc, key, steps)?;
                node.balance_with_left(alloc, left, steps)
            }
            Ordering::Equal => BalancedTree::glue(alloc, &node.left, &node.right, steps),
            Ordering::Greater => {
                let right = node.right.remove(alloc, key, steps)?;
                node.balance_with_right(alloc, right, steps)
            }
        }
    }

    // The tree of the last so many entries, which are taken off the list.
    pub(crate) fn build(
        alloc: Global,
        entries: &mut Vec<(K, V)>,
        count: usize,
        steps: &mut Steps,
    ) -> Result<BalancedTree<K, V>, AllocError>
        requires { IsAscending K.cmp entries.now.items × (count ≤ length entries.now.items) }
        ensures { IfOk result (IsBuilt count entries.old.items entries.new.items steps.old.made steps.new.made) }
    {
        if count == 0 {
            return Ok(BalancedTree::empty());
        }
        let after = count / 2;
        let right = BalancedTree::build(alloc, entries, after, steps)?;
        let Some(entry) = entries.pop() else {
            unreachable!()
        };
        let left = BalancedTree::build(alloc, entries, count - 1 - after, steps)?;
        let pair = Rc::new(alloc, entry)?;
        let tree = BalancedTree::make(alloc, left, pair, right, steps)?;
        Ok(tree)
    }
}

impl<K: Ord + Drop, V: Drop> TreeNode<K, V> {
    // The node's pair between two other sides.
    fn make_around(
        &self,
        alloc: Global,
        left: BalancedTree<K, V>,
        right: BalancedTree<K, V>,
        steps: &mut Steps,
    ) -> Result<BalancedTree<K, V>, AllocError>
        requires ascending { IsAscending K.cmp (left.0 ++ self.now.pair.value ∷ right.0) }
        requires balanced { DifferByAtMost 1 left.1 right.1 }
        ensures made { IfOk result (λ t. t ≡ (left.0 ++ self.now.pair.value ∷ right.0, max left.1 right.1 + 1)) }
        ensures at_most { steps.new.made ≤ steps.old.made + (if is_ok result then 1 else 0) }
        ensures later { steps.old.made ≤ steps.new.made }
    {
        let pair = self.pair.clone()?;
        BalancedTree::make(alloc, left, pair, right, steps)
    }

    // The node with another pair.
    fn make_with_pair(
        &self,
        alloc: Global,
        pair: Rc<(K, V)>,
        steps: &mut Steps,
    ) -> Result<BalancedTree<K, V>, AllocError>
        requires ascending { IsAscending K.cmp (self.now.left.0 ++ pair.value ∷ self.now.right.0) }
        requires balanced { DifferByAtMost 1 self.now.left.1 self.now.right.1 }
        ensures made { IfOk result (λ t. t ≡ (self.now.left.0 ++ pair.value ∷ self.now.right.0, max self.now.left.1 self.now.right.1 + 1)) }
        ensures raised { OnOk result (steps.new.made ≡ raised steps.old.made) }
        ensures at_most { steps.new.made ≤ steps.old.made + (if is_ok result then 1 else 0) }
        ensures later { steps.old.made ≤ steps.new.made }
    {
        let left = self.left.share()?;
        BalancedTree::make_before(alloc, left, pair, &self.right, steps)
    }

    // The node with another left side, which is shared.
    fn make_with_left(
        &self,
        alloc: Global,
        left: &BalancedTree<K, V>,
        steps: &mut Steps,
    ) -> Result<BalancedTree<K, V>, AllocError>
        requires ascending { IsAscending K.cmp (left.now.0 ++ self.now.pair.value ∷ self.now.right.0) }
        requires balanced { DifferByAtMost 1 left.now.1 self.now.right.1 }
        ensures made { IfOk result (λ t. t ≡ (left.now.0 ++ self.now.pair.value ∷ self.now.right.0, max left.now.1 self.now.right.1 + 1)) }
        ensures at_most { steps.new.made ≤ steps.old.made + (if is_ok result then 1 else 0) }
        ensures later { steps.old.made ≤ steps.new.made }
    {
        let left = left.share()?;
        let right = self.right.share()?;
        self.make_around(alloc, left, right, steps)
    }

    // The node with another right side, which is shared.
    fn make_with_right(
        &self,
        alloc: Global,
        right: &BalancedTree<K, V>,
        steps: &mut Steps,
    ) -> Result<BalancedTree<K, V>, AllocError>
        requires ascending { IsAscending K.cmp (self.now.left.0 ++ self.now.pair.value ∷ right.now.0) }
        requires balanced { DifferByAtMost 1 self.now.left.1 right.now.1 }
        ensures made { IfOk result (λ t. t ≡ (self.now.left.0 ++ self.now.pair.value ∷ right.now.0, max self.now.left.1 right.now.1 + 1)) }
        ensures at_most { steps.new.made ≤ steps.old.made + (if is_ok result then 1 else 0) }
        ensures later { steps.old.made ≤ steps.new.made }
    {
        let left = self.left.share()?;
        let right = right.share()?;
        self.make_around(alloc, left, right, steps)
    }

    // The node with another left side, whose height differs from the right one's by at most two.
    fn balance_with_left(
        &self,
        alloc: Global,
        left: BalancedTree<K, V>,
        steps: &mut Steps,
    ) -> Result<BalancedTree<K, V>, AllocError>
        requires ascending { IsAscending K.cmp (left.0 ++ self.now.pair.value ∷ self.now.right.0) }
        requires near { DifferByAtMost 2 left.1 self.now.right.1 }
        ensures balancing { IfOk result (IsBalancing left self.now.pair.value self.now.right steps.old.made steps.new.made) }
        ensures at_most { steps.new.made ≤ steps.old.made + (if is_ok result then 3 else 2) }
        ensures later { steps.old.made ≤ steps.new.made }
    {
        let middle = self.pair.clone()?;
        let right = self.right.share()?;
        BalancedTree::balance(alloc, left, middle, right, steps)
    }

    // The node with another right side, whose height differs from the left one's by at most two.
    fn balance_with_right(
        &self,
        alloc: Global,
        right: BalancedTree<K, V>,
        steps: &mut Steps,
    ) -> Result<BalancedTree<K, V>, AllocError>
        requires ascending { IsAscending K.cmp (self.now.left.0 ++ self.now.pair.value ∷ right.0) }
        requires near { DifferByAtMost 2 self.now.left.1 right.1 }
        ensures balancing { IfOk result (IsBalancing self.now.left self.now.pair.value right steps.old.made steps.new.made) }
        ensures at_most { steps.new.made ≤ steps.old.made + (if is_ok result then 3 else 2) }
        ensures later { steps.old.made ≤ steps.new.made }
    {
        let middle = self.pair.clone()?;
        let left = self.left.share()?;
        BalancedTree::balance(alloc, left, middle, right, steps)
    }

    // The node as the left side of the pair, turned so that it is at the top.
    fn rotate_right(
        &self,
        alloc: Global,
        pair: Rc<(K, V)>,
        right: BalancedTree<K, V>,
        steps: &mut Steps,
    ) -> Result<BalancedTree<K, V>, AllocError>
        requires ascending { IsAscending K.cmp ((self.now.left.0 ++ self.now.pair.value ∷ self.now.right.0) ++ pair.value ∷ right.0) }
        requires inner { DifferByAtMost 1 self.now.right.1 right.1 }
        requires outer { DifferByAtMost 1 self.now.left.1 (max self.now.right.1 right.1 + 1) }
        ensures made { IfOk result (λ t. t ≡ ((self.now.left.0 ++ self.now.pair.value ∷ self.now.right.0) ++ pair.value ∷ right.0, max self.now.left.1 (max self.now.right.1 right.1 + 1) + 1)) }
        ensures at_most { steps.new.made ≤ steps.old.made + (if is_ok result then 2 else 1) }
        ensures later { steps.old.made ≤ steps.new.made }
    {
        let inner = BalancedTree::make_after(alloc, &self.right, pair, right, steps)?;
        let outer = self.left.share()?;
        self.make_around(alloc, outer, inner, steps)
    }

    // The node as the left side of the pair, turned so that its right side is at the top.
    fn rotate_left_right(
        &self,
        alloc: Global,
        pair: Rc<(K, V)>,
        right: BalancedTree<K, V>,
        steps: &mut Steps,
    ) -> Result<BalancedTree<K, V>, AllocError>
        requires ascending { IsAscending K.cmp ((self.now.left.0 ++ self.now.pair.value ∷ self.now.right.0) ++ pair.value ∷ right.0) }
        requires low { self.now.left.1 ≡ right.1 }
        requires high { self.now.right.1 ≡ right.1 + 1 }
        ensures made { IfOk result (λ t. t ≡ ((self.now.left.0 ++ self.now.pair.value ∷ self.now.right.0) ++ pair.value ∷ right.0, right.1 + 2)) }
        ensures at_most { steps.new.made ≤ steps.old.made + (if is_ok result then 3 else 2) }
        ensures later { steps.old.made ≤ steps.new.made }
    {
        let high = &self.right;
        let TreeLink::Fork(middle) = &high.link else {
            unreachable!()
        };
        let before = self.make_with_right(alloc, &middle.left, steps)?;
        let after = BalancedTree::make_after(alloc, &middle.right, pair, right, steps)?;
        middle.make_around(alloc, before, after, steps)
    }

    // The node as the right side of the pair, turned so that it is at the top.
    fn rotate_left(
        &self,
        alloc: Global,
        left: BalancedTree<K, V>,
        pair: Rc<(K, V)>,
        steps: &mut Steps,
    ) -> Result<BalancedTree<K, V>, AllocError>
        requires ascending { IsAscending K.cmp (left.0 ++ pair.value ∷ (self.now.left.0 ++ self.now.pair.value ∷ self.now.right.0)) }
        requires inner { DifferByAtMost 1 left.1 self.now.left.1 }
        requires outer { DifferByAtMost 1 (max left.1 self.now.left.1 + 1) self.now.right.1 }
        ensures made { IfOk result (λ t. t ≡ (left.0 ++ pair.value ∷ (self.now.left.0 ++ self.now.pair.value ∷ self.now.right.0), max (max left.1 self.now.left.1 + 1) self.now.right.1 + 1)) }
        ensures at_most { steps.new.made ≤ steps.old.made + (if is_ok result then 2 else 1) }
        ensures later { steps.old.made ≤ steps.new.made }
    {
        let inner = BalancedTree::make_before(alloc, left, pair, &self.left, steps)?;
        let outer = self.right.share()?;
        self.make_around(alloc, inner, outer, steps)
    }

    // The node as the right side of the pair, turned so that its left side is at the top.
    fn rotate_right_left(
        &self,
        alloc: Global,
        left: BalancedTree<K, V>,
        pair: Rc<(K, V)>,
        steps: &mut Steps,
    ) -> Result<BalancedTree<K, V>, AllocError>
        requires ascending { IsAscending K.cmp (left.0 ++ pair.value ∷ (self.now.left.0 ++ self.now.pair.value ∷ self.now.right.0)) }
        requires high { self.now.left.1 ≡ left.1 + 1 }
        requires low { self.now.right.1 ≡ left.1 }
        ensures made { IfOk result (λ t. t ≡ (left.0 ++ pair.value ∷ (self.now.left.0 ++ self.now.pair.value ∷ self.now.right.0), left.1 + 2)) }
        ensures at_most { steps.new.made ≤ steps.old.made + (if is_ok result then 3 else 2) }
        ensures later { steps.old.made ≤ steps.new.made }
    {
        let high = &self.left;
        let TreeLink::Fork(middle) = &high.link else {
            unreachable!()
        };
        let before = BalancedTree::make_before(alloc, left, pair, &middle.left, steps)?;
        let after = self.make_with_left(alloc, &middle.right, steps)?;
        middle.make_around(alloc, before, after, steps)
    }
}
