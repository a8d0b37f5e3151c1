//! Tables of the values that known literals give. `docs/RULES.md` has the rule on normal forms.
ghost use Rattle.std.specs.Prelude.{◌≡◌, ◌≤◌, ◌<◌, [], ◌∷◌, map, take, length, IfOk, OnOk, IfSome, IsNone};
ghost use Rattle.std.specs.Option.{option_map};
ghost use Rattle.std.specs.BTreeMap.{get};
ghost use Rattle.pks_terms.specs.Syntax.{Apply};
ghost use Rattle.pks_terms.specs.Databases.{told, least, values_at};
ghost use Rattle.pks_terms.specs.Views.{object_of, inner_of, literal_of};
ghost use Rattle.pks_kf.specs.Known.{literals_of};
ghost use Rattle.pks_query_lookup.specs.Reading.{lower};
ghost use Rattle.pks_query_lookup.specs.Tables.{IsKey, told_of, found_objects, objects_at, values_in, Puts, Adds, AreShort, IsTableOf};

use crate::normals::objects;
use pks_kf::Kf;
use pks_terms::ids::{FnId, ObjId};
use pks_terms::literal::{Atom, Literal};
use pks_terms::term::{Inner, Term};
use std::alloc::{AllocError, Global};
use std::collections::BTreeMap;

/// At each place that has values, these in the order of the literals.
pub(crate) type Table = BTreeMap<Inner, Vec<ObjId>>;

fn key(fun: FnId, n: u8, args: &[ObjId; 2]) -> Inner
    ensures place { inner_of result ≡ Apply fun.0 (map object_of (take n args.now)) }
    ensures short { IsKey result }
{
    Inner::App {
        fun,
        n,
        args: *args,
    }
}

/// The place that a term is: a function at objects. `None` for any other term. It takes no memory. `docs/RULES.md`, section 1.
pub fn place_of(t: &Term) -> Option<Inner>
    ensures key { IfSome result IsKey }
{
    match t {
        Term::App { fun, n, args } => {
            let own = objects(*n, args)?;
            Some(key(*fun, *n, &own))
        }
        _ => None,
    }
}

/// The place and the value of a literal that gives one (`docs/RULES.md`, section 1). It takes no memory.
#[tactic(auto, unfolding(pks_terms::specs::Databases::told))]
pub fn place_and_value(l: &Literal) -> Option<(Inner, ObjId)>
    ensures told { option_map told_of result ≡ told (literal_of l.now).relation (literal_of l.now).arguments (literal_of l.now).positive }
    ensures key { IfSome result (λ p. IsKey p.0) }
{
    if !l.positive {
        return None;
    }
    match &l.atom {
        Atom::Eq {
            left: Term::App { fun, n, args },
            right: Term::Obj(d),
        } => {
            let own = objects(*n, args)?;
            Some((key(*fun, *n, &own), *d))
        }
        _ => None,
    }
}

/// The objects that were found, or a list of none.
fn or_none(alloc: Global, found: Option<Vec<ObjId>>) -> Vec<ObjId>
    ensures { map object_of result.items ≡ found_objects found }
{
    match found {
        Some(objects) => objects,
        None => Vec::new(alloc),
    }
}

/// Puts the object after those at the key.
fn put(alloc: Global, table: &mut Table, key: Inner, d: ObjId) -> Result<(), AllocError>
    ensures { OnOk result (Puts table.old table.new key d) }
{
    let found = table.remove(&key);
    let mut objects = or_none(alloc, found);
    objects.push(d)?;
    table.insert(key, objects)?;
    Ok(())
}

/// Puts in the value that the literal gives, if it gives one.
fn add(alloc: Global, table: &mut Table, l: &Literal) -> Result<(), AllocError>
    ensures adds { OnOk result (Adds table.old table.new (literal_of l.now ∷ [])) }
    ensures short { AreShort (literal_of l.now ∷ []) }
{
    match place_and_value(l) {
        None => Ok(()),
        Some((key, d)) => {
            put(alloc, table, key, d)?;
            Ok(())
        }
    }
}

/// The table of the known literals.
pub(crate) fn table_of(alloc: Global, kf: &Kf) -> Result<Table, AllocError>
    ensures { IfOk result (λ t. IsTableOf (literals_of kf.now) t) }
{
    let mut table = BTreeMap::new(alloc);
    for l in kf.items() {
        add(alloc, &mut table, l)?;
    }
    Ok(table)
}

/// The key of the function at the objects, where there are two at most.
pub(crate) fn key_of(fun: FnId, at: &[ObjId]) -> Option<Inner>
    ensures place { IfSome result (λ k. inner_of k ≡ Apply fun.0 (map object_of at.now)) }
    ensures none { IsNone result → 2 < length at.now }
{
    match at {
        [] => Some(key(fun, 0, &[ObjId(0), ObjId(0)])),
        [d] => Some(key(fun, 1, &[*d, ObjId(0)])),
        [d, e] => Some(key(fun, 2, &[*d, *e])),
        [_, _, _, ..] => None,
    }
}

/// The objects at the key, or none.
pub(crate) fn objects_at<'t>(table: &'t Table, key: &Inner) -> &'t [ObjId]
    ensures { map object_of result.now ≡ objects_at table.now key.now }
{
    match table.get(key) {
        Some(objects) => objects.as_slice(),
        None => &[],
    }
}

/// The lower of two values, where there are two.
fn lower(a: Option<ObjId>, b: Option<ObjId>) -> Option<ObjId>
    ensures { option_map object_of result ≡ lower (option_map object_of a) (option_map object_of b) }
{
    match (a, b) {
        (None, b) => b,
        (a, None) => a,
        (Some(d), Some(e)) => Some(if e.0 < d.0 { e } else { d }),
    }
}

/// The least of the objects, or `None` where there is none.
pub(crate) fn least_of(objects: &[ObjId]) -> Option<ObjId>
    ensures { option_map object_of result ≡ least (map object_of objects.now) }
{
    let mut best = None;
    for d in objects {
        best = lower(best, Some(*d));
    }
    best
}
