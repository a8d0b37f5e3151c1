//! The text of adds.

ghost use Rattle.std.specs.Prelude.{◌≡◌, ◌++◌, map, OnOk};
ghost use Rattle.std.specs.List.{join_with_byte};
ghost use Rattle.pks_terms.specs.Printed.{plain_text, query_text, item_text, add_text};
ghost use Rattle.pks_terms.specs.Views.{names_of, query_of, item_of, add_of};

use pks_plan::{Wording, print_list, put};
use pks_terms::problem::Problem;
use pks_terms::schema::{Adds, Item, Query};
use pks_terms::term::front;
use std::alloc::AllocError;

/// Whether the query is denied.
fn is_denied(q: &Query) -> bool
    ensures { result ≡ (query_of q.now).denied }
{
    match q {
        Query::K(_) | Query::Kw(_) | Query::Kv(_) => false,
        Query::NotK(_) | Query::NotKw(_) | Query::NotKv(_) => true,
    }
}

/// What a query asks, whether or not it is denied.
#[tactic(auto, using(pks_plan::proofs::Appended::printed))]
fn print_asked(
    p: &Problem<'_>,
    parameters: &[&str],
    q: &Query,
    out: &mut Vec<u8>,
) -> Result<(), AllocError>
    ensures { OnOk result (out.new.items ≡ out.old.items ++ plain_text (names_of p.now) (map (λ t. t.now) parameters.now) (query_of q.now).asks) }
{
    let w = Wording(p, Some(parameters));
    match q {
        Query::K(l) | Query::NotK(l) => print_list(&w, b"k", &[*l], out)?,
        Query::Kw(c) | Query::NotKw(c) => print_list(&w, b"kw", front(&c.literals, c.n), out)?,
        Query::Kv(t) | Query::NotKv(t) => print_list(&w, b"kv", &[*t], out)?,
    }
    Ok(())
}

/// A query.
#[tactic(auto, using(pks_plan::proofs::Appended::printed))]
fn print_query(
    p: &Problem<'_>,
    parameters: &[&str],
    q: &Query,
    out: &mut Vec<u8>,
) -> Result<(), AllocError>
    ensures { OnOk result (out.new.items ≡ out.old.items ++ query_text (names_of p.now) (map (λ t. t.now) parameters.now) (query_of q.now)) }
{
    if is_denied(q) {
        put(out, b"(not-derived ")?;
        print_asked(p, parameters, q, out)?;
        put(out, b")")?;
    } else {
        print_asked(p, parameters, q, out)?;
    }
    Ok(())
}

/// Queries with one blank between.
#[tactic(auto, using(pks_plan::proofs::Appended::printed, pks_plan::proofs::Appended::with_blanks))]
fn print_queries(
    p: &Problem<'_>,
    parameters: &[&str],
    queries: &[Query],
    out: &mut Vec<u8>,
) -> Result<(), AllocError>
    ensures { OnOk result (out.new.items ≡ out.old.items ++ join_with_byte 32 (map (query_text (names_of p.now) (map (λ t. t.now) parameters.now)) (map query_of queries.now))) }
{
    if let Some((first, rest)) = queries.split_first() {
        print_query(p, parameters, first, out)?;
        for query in rest {
            put(out, b" ")?;
            print_query(p, parameters, query, out)?;
        }
    }
    Ok(())
}

/// What an add puts in.
#[tactic(auto, using(pks_plan::proofs::Appended::printed))]
fn print_item(
    p: &Problem<'_>,
    parameters: &[&str],
    item: &Item,
    out: &mut Vec<u8>,
) -> Result<(), AllocError>
    ensures { OnOk result (out.new.items ≡ out.old.items ++ item_text (names_of p.now) (map (λ t. t.now) parameters.now) (item_of item.now)) }
{
    let w = Wording(p, Some(parameters));
    match item {
        Item::Kf(l) => print_list(&w, b"kf", &[*l], out)?,
        Item::Kw(c) => print_list(&w, b"kw", front(&c.literals, c.n), out)?,
        Item::Kv(t) => print_list(&w, b"kv", &[*t], out)?,
        Item::Lcw(x) => print_list(&w, b"lcw", &[*x], out)?,
    }
    Ok(())
}

/// An add, as a file has it.
#[tactic(auto, unfolding(pks_terms::specs::Printed::add_text))]
pub(crate) fn print_add(
    p: &Problem<'_>,
    parameters: &[&str],
    add: &Adds,
    out: &mut Vec<u8>,
) -> Result<(), AllocError>
    ensures { OnOk result (out.new.items ≡ out.old.items ++ add_text (names_of p.now) (map (λ t. t.now) parameters.now) (add_of add.now)) }
{
    let given = front(&add.given, add.n);
    match given {
        [] => print_item(p, parameters, &add.item, out)?,
        [_first, _others @ ..] => {
            put(out, b"(if (")?;
            print_queries(p, parameters, given, out)?;
            put(out, b") ")?;
            print_item(p, parameters, &add.item, out)?;
            put(out, b")")?;
        }
    }
    Ok(())
}
