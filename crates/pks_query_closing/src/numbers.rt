//! Numbers that are found by keys.
ghost use Rattle.std.specs.Prelude.{◌≤◌, length, IfSome};

use std::alloc::{AllocError, Global};
use std::collections::BTreeMap;

/// For each key the numbers that were put there, in order and each once.
#[derive(Drop)]
pub(crate) struct Numbers<K: Ord> {
    at: BTreeMap<K, Vec<usize>>,
}

/// The numbers that were found, or none.
fn or_none(alloc: Global, found: Option<Vec<usize>>) -> Vec<usize> {
    match found {
        Some(numbers) => numbers,
        None => Vec::new(alloc),
    }
}

/// Where the number is to be put so that the others stay in order, or `None` where it is one of them.
fn insertion_point(numbers: &[usize], k: usize) -> Option<usize>
    ensures { IfSome result (λ i. i ≤ length numbers.now) }
{
    match numbers.last() {
        None => return Some(0),
        Some(last) => {
            if *last < k {
                return Some(numbers.len());
            }
        }
    }
    for i in 0..numbers.len() {
        if numbers[i] == k {
            return None;
        }
        if k < numbers[i] {
            return Some(i);
        }
    }
    Some(numbers.len())
}

/// Puts the number among the others, in order and once.
fn put_in_order(numbers: &mut Vec<usize>, k: usize) -> Result<(), AllocError> {
    if let Some(i) = insertion_point(numbers.as_slice(), k) {
        numbers.insert(i, k)?;
    }
    Ok(())
}

impl<K: Ord + Copy + Drop> Numbers<K> {
    /// None. It takes no memory.
    pub(crate) fn new(alloc: Global) -> Numbers<K> {
        Numbers {
            at: BTreeMap::new(alloc),
        }
    }

    /// Puts the number at the key. The error is want of memory.
    pub(crate) fn put(&mut self, alloc: Global, key: &K, k: usize) -> Result<(), AllocError> {
        let mut numbers = or_none(alloc, self.at.remove(key));
        put_in_order(&mut numbers, k)?;
        self.at.insert(*key, numbers)?;
        Ok(())
    }

    /// Puts the number at each of the keys. The error is want of memory.
    pub(crate) fn put_at_all(
        &mut self,
        alloc: Global,
        keys: &[K],
        k: usize,
    ) -> Result<(), AllocError> {
        for key in keys {
            self.put(alloc, key, k)?;
        }
        Ok(())
    }

    /// The numbers at the key. The error is want of memory.
    pub(crate) fn at(&self, alloc: Global, key: &K) -> Result<Vec<usize>, AllocError> {
        match self.at.get(key) {
            None => Ok(Vec::new(alloc)),
            Some(numbers) => {
                let same = Vec::from_slice(alloc, numbers.as_slice())?;
                Ok(same)
            }
        }
    }

    /// Whether there are none. It takes no memory.
    pub(crate) fn is_empty(&self) -> bool {
        self.at.len() == 0
    }
}
