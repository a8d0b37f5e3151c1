//! What holds at a moment. `docs/RULES.md` has the rule.
ghost use Rattle.std.specs.Prelude.{◌≡◌, false, [], ◌∷◌};
ghost use Rattle.pks_terms.specs.Reasons.{is_same};
ghost use Rattle.pks_terms.specs.Syntax.{Equality};
ghost use Rattle.pks_terms.specs.Databases.{is_evident};
ghost use Rattle.pks_terms.specs.Views.{term_of, literal_of, signature_of};
ghost use Rattle.pks_explain_moment.specs.Standing.{stands, holds_plainly};

use crate::moment::MomentLines;
use crate::placing::unequal;
use pks_lcw::Entry;
use pks_terms::literal::{Atom, Literal, Pattern, PredAtom};
use pks_terms::lookup::is_foreign;
use pks_terms::problem::Signature;
use pks_terms::term::{Term, are_two_objects, front};

/// The greatest number of arguments of an atom.
pub(crate) const MOST_ARGUMENTS: usize = 3;

fn are_evidently_different(s: &Signature, left: &Term, right: &Term) -> bool
    ensures { result ≡ is_evident (signature_of s.now) Equality (term_of left.now ∷ term_of right.now ∷ []) false }
{
    match (left, right) {
        (Term::Obj(d), Term::Obj(e)) => *d != *e,
        (Term::Obj(d), Term::App { fun, .. }) => is_foreign(s, *fun, *d),
        (Term::App { fun, .. }, Term::Obj(d)) => is_foreign(s, *fun, *d),
        _ => false,
    }
}

/// Whether the literal is so of terms alone. It takes no memory.
#[tactic(auto, unfolding(pks_terms::specs::Orders::term_eq))]
pub fn is_evident(s: &Signature, l: &Literal) -> bool
    ensures { result ≡ is_same (signature_of s.now) (literal_of l.now) }
{
    match &l.atom {
        Atom::Pred(_) => false,
        Atom::Eq { left, right } => {
            if l.positive {
                *left == *right
            } else {
                are_evidently_different(s, left, right)
            }
        }
    }
}

/// The argument at this position.
pub(crate) fn argument(a: &PredAtom, position: usize) -> Option<Term> {
    front(&a.args, a.n).get(position).copied()
}

/// The arguments of the two atoms at this position.
pub(crate) fn pair_at(a: &PredAtom, b: &PredAtom, position: usize) -> Option<(Term, Term)> {
    Some((argument(a, position)?, argument(b, position)?))
}

/// The fixed term of the pattern at this position, and the argument of the atom.
fn fixed_at(p: &Pattern, a: &PredAtom, position: usize) -> Option<(Term, Term)> {
    let slot = *front(&p.args, p.n).get(position)?;
    Some((slot?, argument(a, position)?))
}

impl MomentLines {
    /// Whether the literal has a line or is evident.
    fn stands(&self, s: &Signature, l: &Literal) -> bool
        ensures { result ≡ stands (signature_of s.now) self.now (literal_of l.now) }
    {
        self.line_of(l).is_some() || is_evident(s, l)
    }

    /// Whether the literal has a line, or its normal form has one or is evident.
    fn holds_plainly(&self, s: &Signature, l: &Literal) -> bool
        ensures { result ≡ holds_plainly (signature_of s.now) self.now (literal_of l.now) }
    {
        self.line_of(l).is_some() || self.stands(s, &self.normal_literal(l))
    }

    /// Whether the terms are known to be different. It takes no memory.
    pub fn are_different(&self, s: &Signature, t: &Term, u: &Term) -> bool {
        are_two_objects(t, u) || self.holds_plainly(s, &unequal(t, u))
    }

    /// The difference of the arguments at this position, if it is known.
    pub(crate) fn difference_at(
        &self,
        s: &Signature,
        a: &PredAtom,
        b: &PredAtom,
        position: usize,
    ) -> Option<Literal> {
        let (t, u) = pair_at(a, b, position)?;
        if self.are_different(s, &t, &u) {
            Some(unequal(&t, &u))
        } else {
            None
        }
    }

    /// Whether the arguments are known to be different at some position.
    fn some_different(&self, s: &Signature, a: &PredAtom, b: &PredAtom) -> bool {
        for position in 0..MOST_ARGUMENTS {
            if self.difference_at(s, a, b, position).is_some() {
                return true;
            }
        }
        false
    }

    /// Whether the position is open, or has the normal form of the argument.
    fn fits_at(&self, p: &Pattern, a: &PredAtom, position: usize) -> bool {
        match fixed_at(p, a, position) {
            Some((u, t)) => self.normal(&u) == self.normal(&t),
            None => true,
        }
    }

    /// Whether each fixed position has the normal form of its argument.
    fn fits(&self, p: &Pattern, a: &PredAtom) -> bool {
        for position in 0..MOST_ARGUMENTS {
            if !self.fits_at(p, a, position) {
                return false;
            }
        }
        true
    }

    /// Whether the atom is listed and isn't known to differ from itself.
    fn is_listed(&self, s: &Signature, a: &PredAtom, region: &Entry) -> bool {
        region.list.has(a) && !self.some_different(s, a, a)
    }

    fn all_different(&self, s: &Signature, a: &PredAtom, others: &[PredAtom]) -> bool {
        for b in others {
            if !self.some_different(s, a, b) {
                return false;
            }
        }
        true
    }

    fn shuts_out(&self, s: &Signature, region: &Entry, a: &PredAtom) -> bool {
        region.pattern.pred == a.pred
            && self.fits(&region.pattern, a)
            && !self.is_listed(s, a, region)
            && self.all_different(s, a, region.list.as_slice())
    }

    /// The first region that shuts the atom out, and its line.
    pub fn shutting_out(&self, s: &Signature, a: &PredAtom) -> Option<(&Entry, u32)> {
        for (region, line) in self.beside.regions.iter() {
            if self.shuts_out(s, region, a) {
                return Some((region, *line));
            }
        }
        None
    }

    /// Whether the literal denies an atom that a region shuts out.
    fn is_outside(&self, s: &Signature, l: &Literal) -> bool {
        match &l.atom {
            Atom::Pred(a) => !l.positive && self.shutting_out(s, a).is_some(),
            Atom::Eq { .. } => false,
        }
    }

    /// Whether the literal holds: whether its normal form is known or evident, or a region shuts it out. It takes no memory.
    /// `docs/RULES.md` has the rule.
    pub fn holds(&self, s: &Signature, l: &Literal) -> bool {
        self.holds_plainly(s, l) || self.is_outside(s, &self.normal_literal(l))
    }
}
