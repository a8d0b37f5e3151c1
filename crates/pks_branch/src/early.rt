//! What can be asked of an action before all of its parameters have arguments.
ghost use Rattle.std.specs.Prelude.{◌≡◌, ◌≤◌, map, take, length};
ghost use Rattle.std.specs.List.{list_all};
ghost use Rattle.pks_terms.specs.Views.{inner_of, term_of, literal_of, literals_in, query_of, given_of, signature_of};
ghost use Rattle.pks_query_lookup.specs.Fives.{five_of};
ghost use Rattle.pks_branch.specs.Early.{inner_is_early, term_is_early, literal_is_early, plain_is_early, is_barred_by, is_barred};

use pks_query::databases::Db;
use pks_terms::literal::Literal;
use pks_terms::problem::Signature;
use pks_terms::schema::{Instance, Query};
use pks_terms::term::{Inner, Term, front};

/// Whether only the first `n` parameters stand in the argument.
fn inner_is_early(t: &Inner, n: u8) -> bool
    ensures { result ≡ inner_is_early n (inner_of t.now) }
{
    match t {
        Inner::Obj(_) => true,
        Inner::App { .. } => true,
        Inner::Param(i) => *i < n,
    }
}

/// Whether only the first `n` parameters stand in the arguments.
fn are_early(ts: &[Inner], n: u8) -> bool
    ensures { result ≡ list_all (inner_is_early n) (map inner_of ts.now) }
{
    for t in ts {
        if !inner_is_early(t, n) {
            return false;
        }
    }
    true
}

/// Whether only the first `n` parameters stand in the term.
fn term_is_early(t: &Term, n: u8) -> bool
    ensures { result ≡ term_is_early n (term_of t.now) }
{
    match t {
        Term::Obj(_) => true,
        Term::Param(i) => *i < n,
        Term::App { n: count, args, .. } => are_early(front(args, *count), n),
    }
}

/// Whether only the first `n` parameters stand in the terms.
fn terms_are_early(ts: &[Term], n: u8) -> bool
    ensures { result ≡ list_all (term_is_early n) (map term_of ts.now) }
{
    for t in ts {
        if !term_is_early(t, n) {
            return false;
        }
    }
    true
}

/// Whether only the first `n` parameters stand in the literal.
fn literal_is_early(l: &Literal, n: u8) -> bool
    ensures { result ≡ literal_is_early n (literal_of l.now) }
{
    let arguments = l.atom.arguments();
    terms_are_early(arguments.terms(), n)
}

/// Whether only the first `n` parameters stand in the literals.
fn literals_are_early(ls: &[Literal], n: u8) -> bool
    ensures { result ≡ list_all (literal_is_early n) (literals_in ls.now) }
{
    for l in ls {
        if !literal_is_early(l, n) {
            return false;
        }
    }
    true
}

/// Whether only the first `n` parameters stand in the query.
fn query_is_early(q: &Query, n: u8) -> bool
    ensures { result ≡ plain_is_early n (query_of q.now).asks }
{
    match q {
        Query::K(l) | Query::NotK(l) => literal_is_early(l, n),
        Query::Kw(c) | Query::NotKw(c) => literals_are_early(front(&c.literals, c.n), n),
        Query::Kv(t) | Query::NotKv(t) => term_is_early(t, n),
    }
}

/// Whether the first arguments suffice to ask the query.
fn can_be_asked(q: &Query, args: &[Inner; 4], n: u8) -> bool
    requires { n ≤ 4 }
    ensures { result ≡ plain_is_early (length (map inner_of (take n args.now))) (query_of q.now).asks }
{
    let _args = args;
    query_is_early(q, n)
}

/// Whether the arguments so far suffice to ask the precondition, and it isn't answered.
fn is_barred_by(s: &Signature, d: &Db, q: &Query, given: &Instance) -> bool
    requires { given.now.n ≤ 4 }
    ensures { result ≡ is_barred_by (signature_of s.now) (five_of d.now) (given_of given.now) (query_of q.now) }
{
    can_be_asked(q, &given.args, given.n) && !d.answers(s, &q.at(given))
}

/// Whether some precondition isn't answered, whatever arguments follow those so far.
pub(crate) fn is_barred(s: &Signature, d: &Db, pre: &[Query], given: &Instance) -> bool
    requires { given.now.n ≤ 4 }
    ensures { result ≡ is_barred (signature_of s.now) (five_of d.now) (map query_of pre.now) (given_of given.now) }
{
    match pre {
        [] => false,
        [q, rest @ ..] => is_barred_by(s, d, q, given) || is_barred(s, d, rest, given),
    }
}
