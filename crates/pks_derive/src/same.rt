//! When two adds are equal.

ghost use Rattle.std.specs.Prelude.{◌≡◌, map};
ghost use Rattle.std.specs.List.{list_any};
ghost use Rattle.std.specs.Cmp.Lexicographic.{pointwise};
ghost use Rattle.pks_terms.specs.Shapes.{same_plain, same_truth, same_query, same_item, same_add};
ghost use Rattle.pks_terms.specs.Views.{query_of, item_of, add_of};
ghost use Rattle.pks_justify.specs.Cases.{adds_of};

use pks_terms::schema::{Adds, Item, Query};
use pks_terms::term::front;

/// The same is asked, whether or not it is denied.
#[tactic(auto, unfolding(pks_terms::specs::Orders::literal_eq, pks_terms::specs::Orders::term_eq))]
fn same_plain(q: &Query, r: &Query) -> bool
    ensures { result ≡ same_plain (query_of q.now).asks (query_of r.now).asks }
{
    match q {
        Query::K(l) | Query::NotK(l) => match r {
            Query::K(m) | Query::NotK(m) => l == m,
            Query::Kw(_) | Query::NotKw(_) | Query::Kv(_) | Query::NotKv(_) => false,
        },
        Query::Kw(c) | Query::NotKw(c) => match r {
            Query::Kw(b) | Query::NotKw(b) => c == b,
            Query::K(_) | Query::NotK(_) | Query::Kv(_) | Query::NotKv(_) => false,
        },
        Query::Kv(t) | Query::NotKv(t) => match r {
            Query::Kv(u) | Query::NotKv(u) => t == u,
            Query::K(_) | Query::NotK(_) | Query::Kw(_) | Query::NotKw(_) => false,
        },
    }
}

/// Both are denied, or neither is.
fn same_truth(q: &Query, r: &Query) -> bool
    ensures { result ≡ same_truth (query_of q.now).denied (query_of r.now).denied }
{
    match q {
        Query::K(_) | Query::Kw(_) | Query::Kv(_) => match r {
            Query::K(_) | Query::Kw(_) | Query::Kv(_) => true,
            Query::NotK(_) | Query::NotKw(_) | Query::NotKv(_) => false,
        },
        Query::NotK(_) | Query::NotKw(_) | Query::NotKv(_) => match r {
            Query::K(_) | Query::Kw(_) | Query::Kv(_) => false,
            Query::NotK(_) | Query::NotKw(_) | Query::NotKv(_) => true,
        },
    }
}

fn same_queries(given: &[Query], other: &[Query]) -> bool
    ensures { result ≡ pointwise same_query (map query_of given.now) (map query_of other.now) }
{
    match given {
        [] => other.is_empty(),
        [q, qs @ ..] => match other {
            [] => false,
            [r, rs @ ..] => (same_plain(q, r) && same_truth(q, r)) && same_queries(qs, rs),
        },
    }
}

#[tactic(auto, unfolding(pks_terms::specs::Orders::literal_eq, pks_terms::specs::Orders::term_eq))]
fn same_item(a: &Item, b: &Item) -> bool
    ensures { result ≡ same_item (item_of a.now) (item_of b.now) }
{
    match a {
        Item::Kf(l) => match b {
            Item::Kf(m) => l == m,
            Item::Kw(_) | Item::Kv(_) | Item::Lcw(_) => false,
        },
        Item::Kw(c) => match b {
            Item::Kw(d) => c == d,
            Item::Kf(_) | Item::Kv(_) | Item::Lcw(_) => false,
        },
        Item::Kv(t) => match b {
            Item::Kv(u) => t == u,
            Item::Kf(_) | Item::Kw(_) | Item::Lcw(_) => false,
        },
        Item::Lcw(x) => match b {
            Item::Lcw(y) => x == y,
            Item::Kf(_) | Item::Kw(_) | Item::Kv(_) => false,
        },
    }
}

fn same_add(a: &Adds, b: &Adds) -> bool
    ensures { result ≡ same_add (add_of a.now) (add_of b.now) }
{
    same_item(&a.item, &b.item) && same_queries(front(&a.given, a.n), front(&b.given, b.n))
}

/// Whether the add is equal to one of these.
pub(crate) fn is_among(add: &Adds, adds: &[Adds]) -> bool
    ensures { result ≡ list_any (same_add (add_of add.now)) (adds_of adds.now) }
{
    for one in adds {
        if same_add(add, one) {
            return true;
        }
    }
    false
}
