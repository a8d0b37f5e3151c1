use pks_pmap::{PMap, Steps};
use std::alloc::{AllocError, Global};
use std::test::Fail;

// Whether a map lists these entries.
fn lists<K: Ord, V: PartialEq>(map: &PMap<K, V>, entries: &[(K, V)]) -> bool {
    let mut at = 0;
    for (key, value) in map.iter() {
        match entries.get(at) {
            Some(entry) if entry.0 == *key && entry.1 == *value => {}
            _ => return false,
        }
        at = at.saturating_add(1);
    }
    at == entries.len()
}

#[derive(Drop)]
struct Versions<K: Ord, V> {
    map: PMap<K, V>,
    shared: PMap<K, V>,
    without: PMap<K, V>,
    same: PMap<K, V>,
}

// The map of three entries, one that shares it, that without a key, and that without a key that is missing.
fn versions_of<K: Ord + Drop, V: Drop>(
    alloc: Global,
    map: PMap<K, V>,
    gone: &K,
    missing: &K,
) -> Result<Versions<K, V>, AllocError> {
    let mut steps = Steps::new();
    let shared = map.share()?;
    let without = shared.remove(alloc, gone, &mut steps)?;
    let same = without.remove(alloc, missing, &mut steps)?;
    Ok(Versions {
        map,
        shared,
        without,
        same,
    })
}

fn three<K: Ord + Drop, V: Drop>(
    alloc: Global,
    first: (K, V),
    second: (K, V),
    third: (K, V),
) -> Result<PMap<K, V>, AllocError> {
    let mut steps = Steps::new();
    let map = PMap::empty();
    let map = map.insert(alloc, first.0, first.1, &mut steps)?;
    let map = map.insert(alloc, second.0, second.1, &mut steps)?;
    map.insert(alloc, third.0, third.1, &mut steps)
}

#[test]
fn old_versions_stay(rt: HostRuntime) -> Result<(), Fail> {
    let alloc = rt.alloc();
    let map = three(alloc, (5, 50), (3, 30), (9, 90))?;
    let v = versions_of(alloc, map, &3, &7)?;
    assert!(rt; lists::<u32, u32>(&v.same, &[(5, 50), (9, 90)]));
    assert!(rt; lists(&v.without, &[(5, 50), (9, 90)]));
    assert!(rt; lists(&v.map, &[(3, 30), (5, 50), (9, 90)]));
    assert!(rt; lists(&v.shared, &[(3, 30), (5, 50), (9, 90)]));
    Ok(())
}

// A key and a value that have no Clone.
#[derive(Drop, PartialEq, Eq, PartialOrd, Ord)]
struct Key {
    number: u32,
}

#[derive(Drop, PartialEq)]
struct Mark {
    number: u32,
}

fn entry(key: u32, mark: u32) -> (Key, Mark) {
    (Key { number: key }, Mark { number: mark })
}

#[test]
fn old_versions_stay_without_clone(rt: HostRuntime) -> Result<(), Fail> {
    let alloc = rt.alloc();
    let map = three(alloc, entry(5, 50), entry(3, 30), entry(9, 90))?;
    let v = versions_of(alloc, map, &Key { number: 3 }, &Key { number: 7 })?;
    let two = [entry(5, 50), entry(9, 90)];
    let three = [entry(3, 30), entry(5, 50), entry(9, 90)];
    assert!(rt; lists(&v.same, &two));
    assert!(rt; lists(&v.without, &two));
    assert!(rt; lists(&v.map, &three));
    assert!(rt; lists(&v.shared, &three));
    Ok(())
}

// How many numbers are put in one after another.
const NUMBERS: u32 = 10_000;

// The numbers below `NUMBERS` put in one after another.
fn filled_map(
    alloc: Global,
    falling: bool,
    steps: &mut Steps,
) -> Result<PMap<u32, u32>, AllocError> {
    let mut map = PMap::empty();
    for number in 0..NUMBERS {
        let key = if falling {
            NUMBERS - 1 - number
        } else {
            number
        };
        map = map.insert(alloc, key, key, steps)?;
    }
    Ok(map)
}

// Whether the keys are the numbers below `NUMBERS`.
fn counts_up(map: &PMap<u32, u32>) -> bool {
    let mut next: u32 = 0;
    for (key, _) in map.iter() {
        if *key != next {
            return false;
        }
        next = next.saturating_add(1);
    }
    next == NUMBERS
}

#[test]
fn ten_thousand_in_either_order(rt: HostRuntime) -> Result<(), Fail> {
    let alloc = rt.alloc();
    let mut steps = Steps::new();
    let rising = filled_map(alloc, false, &mut steps)?;
    let falling = filled_map(alloc, true, &mut steps)?;
    let mut none = Steps::new();
    let all = rising.kept(alloc, |_| true, &mut none)?;
    assert!(rt; counts_up(&rising));
    assert!(rt; counts_up(&falling));
    assert!(rt; counts_up(&all));
    // Each insert makes a path of a tree of height 14 at most, and two more nodes at a rotation.
    assert!(rt; steps.made <= 320_000);
    assert_eq!(rt; none.made, 0);
    assert!(rt; all.first_from(&(NUMBERS - 1)) == Some((&(NUMBERS - 1), &(NUMBERS - 1))));
    Ok(())
}
