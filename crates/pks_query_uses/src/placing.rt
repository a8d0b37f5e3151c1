//! A literal put in its place at each of several terms.
ghost use Rattle.std.specs.Prelude.{◌≡◌, List, [], ◌∷◌, OnOk};
ghost use Rattle.std.specs.List.{list_any};
ghost use Rattle.pks_terms.specs.Sets.{IsOrdered, insert_in};
ghost use Rattle.pks_terms.specs.Orders.{literal_cmp, literal_eq};
ghost use Rattle.pks_terms.specs.Views.{term_of, terms_of, literal_of, literals_in};
ghost use Rattle.pks_query_uses.specs.Indexes.{PutsIn};

use crate::index::{Index, or_none};
use pks_pmap_set::set::SetOf;
use pks_terms::group::put_in_order;
use pks_terms::literal::Literal;
use pks_terms::term::Term;
use std::alloc::{AllocError, Global};

/// Whether an equal literal is among these.
#[tactic(auto, unfolding(pks_terms::specs::Orders::literal_eq))]
fn has(ls: &[Literal], l: &Literal) -> bool
    ensures { result ≡ list_any (literal_eq (literal_of l.now)) (literals_in ls.now) }
{
    for m in ls {
        if *l == *m {
            return true;
        }
    }
    false
}

/// Puts the literal in its place, unless it is there.
fn put_in_place(ls: &mut Vec<Literal>, l: &Literal) -> Result<(), AllocError>
    ensures { OnOk result (IsOrdered literal_cmp (literals_in ls.old.items) → literals_in ls.new.items ≡ insert_in literal_cmp (literal_of l.now) (literals_in ls.old.items)) }
{
    if has(ls.as_slice(), l) {
        return Ok(());
    }
    put_in_order(ls, *l)?;
    Ok(())
}

/// Puts the literal in its place at the term.
fn put_at(alloc: Global, index: &mut Index<Literal>, t: Term, l: &Literal) -> Result<(), AllocError>
    ensures { OnOk result (PutsIn index.old index.new (term_of t ∷ []) (literal_of l.now)) }
{
    let found = index.remove(&t);
    let mut ls = or_none(alloc, found);
    put_in_place(&mut ls, l)?;
    index.insert(t, ls)?;
    Ok(())
}

/// Puts the literal in its place at each of the terms.
pub(crate) fn put_at_all(
    alloc: Global,
    index: &mut Index<Literal>,
    ts: &SetOf<Term>,
    l: &Literal,
) -> Result<(), AllocError>
    ensures { OnOk result (PutsIn index.old index.new (terms_of ts.now) (literal_of l.now)) }
{
    for t in ts.items() {
        put_at(alloc, index, *t, l)?;
    }
    Ok(())
}
