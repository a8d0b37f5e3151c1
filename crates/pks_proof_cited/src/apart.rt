//! Terms that differ: two objects, or terms that are cited to differ.
ghost use Rattle.std.specs.Prelude.{◌≡◌, map};
ghost use Rattle.std.specs.Option.{option_map};
ghost use Rattle.pks_terms.specs.Syntax.{term_of as lifted};
ghost use Rattle.pks_terms.specs.Views.{inner_of, term_of, terms_of};
ghost use Rattle.pks_terms.specs.Reasons.{are_cited_apart, some_cited_apart, fixed_cited_apart};
ghost use Rattle.pks_proof_cited.specs.CitedViews.{judge_of};

use crate::cited::Cited;
use pks_terms::term::{Inner, Term, are_two_objects};

fn are_apart(c: &Cited<'_>, t: &Term, u: &Term) -> bool
    ensures { result ≡ are_cited_apart (judge_of c.now) c.now.moment (term_of t.now) (term_of u.now) }
{
    c.tells_apart(t, u) || are_two_objects(t, u)
}

/// Whether at some position the terms are two different objects, or cited to differ. It takes no memory.
pub fn some_apart(c: &Cited<'_>, ts: &[Term], us: &[Term]) -> bool
    ensures { result ≡ some_cited_apart (judge_of c.now) c.now.moment (terms_of ts.now) (terms_of us.now) }
{
    match ts {
        [] => false,
        [t, ts @ ..] => match us {
            [] => false,
            [u, us @ ..] => are_apart(c, t, u) || some_apart(c, ts, us),
        },
    }
}

/// Whether at some fixed slot the terms are two different objects, or cited to differ. It takes no memory.
pub fn some_fixed_apart(c: &Cited<'_>, slots: &[Option<Term>], us: &[Term]) -> bool
    ensures { result ≡ fixed_cited_apart (judge_of c.now) c.now.moment (map (option_map term_of) slots.now) (terms_of us.now) }
{
    match slots {
        [] => false,
        [slot, slots @ ..] => match us {
            [] => false,
            [u, us @ ..] => match slot {
                Some(t) => are_apart(c, t, u) || some_fixed_apart(c, slots, us),
                None => some_fixed_apart(c, slots, us),
            },
        },
    }
}

fn are_inners_apart(c: &Cited<'_>, t: &Inner, u: &Inner) -> bool
    ensures { result ≡ are_cited_apart (judge_of c.now) c.now.moment (lifted (inner_of t.now)) (lifted (inner_of u.now)) }
{
    are_apart(c, &t.as_term(), &u.as_term())
}

/// Whether at some position the arguments are two different objects, or cited to differ. It takes no memory.
pub fn some_inners_apart(c: &Cited<'_>, ts: &[Inner], us: &[Inner]) -> bool
    ensures { result ≡ some_cited_apart (judge_of c.now) c.now.moment (map lifted (map inner_of ts.now)) (map lifted (map inner_of us.now)) }
{
    match ts {
        [] => false,
        [t, ts @ ..] => match us {
            [] => false,
            [u, us @ ..] => are_inners_apart(c, t, u) || some_inners_apart(c, ts, us),
        },
    }
}
