//! Lists that are kept at terms.
ghost use Rattle.std.specs.Prelude.{◌≡◌, [], ◌∷◌, IfOk, OnOk};
ghost use Rattle.pks_terms.specs.Sets.{set_of};
ghost use Rattle.pks_terms.specs.Orders.{term_cmp};
ghost use Rattle.pks_terms.specs.Views.{term_of, terms_of};
ghost use Rattle.pks_query_uses.specs.Indexes.{found_items, items_at, Puts, PutsOnce, IsIndexOf};

use crate::items::Indexed;
use pks_pmap_set::set::{Items, SetOf};
use pks_terms::term::Term;
use std::alloc::{AllocError, Global};
use std::collections::BTreeMap;

/// At each term a list.
pub(crate) type Index<T> = BTreeMap<Term, Vec<T>>;

/// What was found, or a list of nothing.
pub(crate) fn or_none<T: Drop>(alloc: Global, found: Option<Vec<T>>) -> Vec<T>
    ensures { result.items ≡ found_items found }
{
    match found {
        Some(items) => items,
        None => Vec::new(alloc),
    }
}

/// Puts the item after those at the term.
fn put<T: Drop>(alloc: Global, index: &mut Index<T>, t: Term, x: T) -> Result<(), AllocError>
    ensures { OnOk result (Puts index.old index.new (term_of t ∷ []) x) }
{
    let found = index.remove(&t);
    let mut items = or_none(alloc, found);
    items.push(x)?;
    index.insert(t, items)?;
    Ok(())
}

/// Puts the item after those at each of the terms.
fn put_at_each<T: Indexed>(
    alloc: Global,
    index: &mut Index<T>,
    ts: &SetOf<Term>,
    x: &T,
) -> Result<(), AllocError>
    ensures { OnOk result (Puts index.old index.new (terms_of ts.now) x.now) }
{
    for t in ts.items() {
        let same = x.again()?;
        put(alloc, index, *t, same)?;
    }
    Ok(())
}

/// The terms that occur in the item, each once.
pub(crate) fn terms_of<T: Indexed>(alloc: Global, x: &T) -> Result<SetOf<Term>, AllocError>
    ensures { IfOk result (λ ts. terms_of ts ≡ set_of term_cmp (T.terms x.now)) }
{
    let mut all = Vec::new(alloc);
    x.put(&mut all)?;
    let ts = SetOf::of(alloc, all)?;
    Ok(ts)
}

/// Puts the item after those at each term that occurs in it.
fn put_item<T: Indexed>(alloc: Global, index: &mut Index<T>, x: &T) -> Result<(), AllocError>
    ensures { OnOk result (PutsOnce index.old index.new (T.terms x.now) x.now) }
{
    let ts = terms_of(alloc, x)?;
    put_at_each(alloc, index, &ts, x)?;
    Ok(())
}

/// At each term those of the items in which it occurs, in order.
pub(crate) fn index_of<T: Indexed + Ord>(
    alloc: Global,
    items: Items<'_, T>,
) -> Result<Index<T>, AllocError>
    ensures { IfOk result (λ m. IsIndexOf T.terms items.entry m) }
{
    let mut index = BTreeMap::new(alloc);
    for x in items {
        put_item(alloc, &mut index, x)?;
    }
    Ok(index)
}

/// What the index has at the term.
pub(crate) fn at<'m, T>(index: &'m Index<T>, t: &Term) -> &'m [T]
    ensures { result.now ≡ items_at index.now t.now }
{
    match index.get(t) {
        Some(items) => items.as_slice(),
        None => &[],
    }
}
