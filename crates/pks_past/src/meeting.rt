//! When the goal is met at a history. `docs/RULES.md` has the rule.
ghost use Rattle.std.specs.Prelude.{◌≡◌, List, map};
ghost use Rattle.std.specs.List.{list_all, list_any};
ghost use Rattle.pks_terms.specs.Aims.{is_met, met, moments};
ghost use Rattle.pks_terms.specs.Queries.{answers};
ghost use Rattle.pks_terms.specs.Views.{aim_of, problem_of, query_of, signature_of};

use pks_history::histories::History;
use pks_terms::problem::{Aim, Problem, Signature};
use pks_terms::schema::Query;

/// Whether the query is answered at every moment.
fn is_always(s: &Signature, h: &History, q: &Query) -> bool
    ensures { result ≡ list_all (λ d. answers (signature_of s.now) d (query_of q.now)) (moments h.now) }
{
    for moment in 0..h.len() {
        if !h.at(moment).answers(s, q) {
            return false;
        }
    }
    true
}

/// Whether the query is answered at some moment.
fn is_once(s: &Signature, h: &History, q: &Query) -> bool
    ensures { result ≡ list_any (λ d. answers (signature_of s.now) d (query_of q.now)) (moments h.now) }
{
    for moment in 0..h.len() {
        if h.at(moment).answers(s, q) {
            return true;
        }
    }
    false
}

/// Whether the aim is met at the history.
fn is_met(s: &Signature, h: &History, aim: &Aim) -> bool
    ensures { result ≡ is_met (signature_of s.now) h.now (aim_of aim.now) }
{
    match aim {
        Aim::Now(q) => h.last().answers(s, q),
        Aim::AtStart(q) => h.at(0).answers(s, q),
        Aim::Always(q) => is_always(s, h, q),
        Aim::Once(q) => is_once(s, h, q),
    }
}

/// Whether each of the aims is.
fn are_met(s: &Signature, h: &History, aims: &[Aim]) -> bool
    ensures { result ≡ list_all (is_met (signature_of s.now) h.now) (map aim_of aims.now) }
{
    for aim in aims {
        if !is_met(s, h, aim) {
            return false;
        }
    }
    true
}

/// Whether every aim is met at the history: a plain one at the last moment, the others at the first, at every and at some
/// moment. It takes no memory.
#[tactic(auto, unfolding(pks_terms::specs::Aims::met))]
pub fn met(p: &Problem<'_>, h: &History) -> bool
    ensures { result ≡ met (problem_of p.now) h.now }
{
    are_met(&p.signature, h, p.goal.as_slice())
}
