//! Single items put behind others.
ghost use Rattle.std.specs.Prelude.{◌≡◌, OnOk, [], ◌∷◌, ◌++◌};

use std::alloc::{AllocError, Global};
use std::collections::{BTreeMap, BTreeSet};

/// Puts the item behind the others. The error is want of memory.
pub fn push<T: Drop>(to: &mut Vec<T>, item: T) -> Result<(), AllocError>
    ensures { OnOk result (to.new.items ≡ to.old.items ++ item ∷ []) }
{
    to.push(item)?;
    Ok(())
}

/// The set has the value.
pub(crate) fn put_in<V: Ord + Copy>(set: &mut BTreeSet<V>, value: V) -> Result<(), AllocError> {
    set.insert(value)?;
    Ok(())
}

/// The map has the values at the key, where it had none.
fn put_at<K: Ord + Copy, V: Drop>(
    map: &mut BTreeMap<K, Vec<V>>,
    key: K,
    values: Vec<V>,
) -> Result<(), AllocError> {
    map.insert(key, values)?;
    Ok(())
}

fn or_none<V>(alloc: Global, found: Option<Vec<V>>) -> Vec<V> {
    match found {
        Some(items) => items,
        None => Vec::new(alloc),
    }
}

/// Puts the value behind those at the key.
pub(crate) fn put_behind<K: Ord + Copy, V: Drop>(
    alloc: Global,
    map: &mut BTreeMap<K, Vec<V>>,
    key: K,
    value: V,
) -> Result<(), AllocError> {
    let mut values = or_none(alloc, map.remove(&key));
    push(&mut values, value)?;
    put_at(map, key, values)
}

/// The slice with another item at this place.
pub(crate) fn with_item<T: Copy>(
    alloc: Global,
    items: &[T],
    place: usize,
    item: T,
) -> Result<Vec<T>, AllocError> {
    let mut all = Vec::from_slice(alloc, items)?;
    if let Some(own) = all.get_mut(place) {
        *own = item;
    }
    Ok(all)
}

/// Both of what two calls answer, or the first error.
pub(crate) fn both<A: Drop, B: Drop>(
    first: Result<A, AllocError>,
    second: Result<B, AllocError>,
) -> Result<(A, B), AllocError> {
    let first = first?;
    let second = second?;
    Ok((first, second))
}
