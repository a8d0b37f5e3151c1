//! Asking closed databases. `docs/RULES.md` has the rule on queries.
ghost use Rattle.std.specs.Prelude.{◌≡◌, ◌||◌, true, false, is_some, IsTrue, [], ◌∷◌};
ghost use Rattle.pks_terms.specs.Signatures.{Signature as Sig};
ghost use Rattle.pks_terms.specs.Syntax.{as_object, negated};
ghost use Rattle.pks_terms.specs.Worlds.{World, value_of, true_in, all_true_in};
ghost use Rattle.pks_terms.specs.Meaning.{IsTrueOf};
ghost use Rattle.pks_terms.specs.Databases.{normal, holds};
ghost use Rattle.pks_terms.specs.Queries.{known_value, is_member, has_known_sides, is_decided, known_whether, answers};
ghost use Rattle.pks_terms.specs.Orders.{term_cmp, conj_cmp};
ghost use Rattle.pks_terms.specs.Views.{literal_of, literals_in, conj_of, query_of, term_of, terms_of, signature_of};
ghost use Rattle.std.specs.List.{list_any, list_all};
ghost use Rattle.pks_laws.specs.Lookup.{is_among};
ghost use Rattle.pks_laws.specs.Saying.{IsSaidOf};
ghost use Rattle.pks_kw.specs.Formulas.{formulas_of};
ghost use Rattle.pks_kf.specs.Known.{literals_of};
ghost use Rattle.pks_query_lookup.specs.Fives.{five_of};

use crate::databases::Db;
use pks_kv::Kv;
use pks_kw::Kw;
use pks_query_closing::forms::normal_conj;
use pks_terms::literal::{Atom, Conj, Literal};
use pks_terms::problem::Signature;
use pks_terms::schema::Query;
use pks_terms::term::{Term, front};

/// Whether the term is one of the set.
#[tactic(auto, using(crate::proofs::Found::is_term_among))]
fn has_value(kv: &Kv, form: &Term) -> bool
    ensures { result ≡ is_among term_cmp (term_of form.now) (terms_of kv.now) }
{
    kv.has(form)
}

/// Whether the formula is one of the set.
#[tactic(auto, using(crate::proofs::Found::is_formula_among))]
fn has_formula(kw: &Kw, form: &Conj) -> bool
    ensures { result ≡ is_among conj_cmp (conj_of form.now) (formulas_of kw.now) }
{
    kw.has(form)
}

impl Db {
    /// Whether the literal is derived. Then it is true in any two worlds of which the databases are true. It takes no
    /// memory.
    pub fn known(&self, s: &Signature, l: &Literal) -> bool
        ensures tells { result ≡ holds (signature_of s.now) (five_of self.now) (literal_of l.now) }
        ensures so { IsTrue result → (w w' : World) → IsTrueOf (signature_of s.now) w w' (five_of self.now) → (true_in w (literal_of l.now) ≡ true) × (true_in w' (literal_of l.now) ≡ true) }
    {
        self.lookup().holds(s, l)
    }

    /// Whether the literal is derived false. It takes no memory.
    pub fn denies(&self, s: &Signature, l: &Literal) -> bool
        ensures { result ≡ holds (signature_of s.now) (five_of self.now) (negated (literal_of l.now)) }
    {
        self.lookup().denies(s, l)
    }

    /// The normal form of the term. It takes no memory.
    pub fn normal(&self, t: &Term) -> Term
        ensures { term_of result ≡ normal (literals_of self.now.kf) (term_of t.now) }
    {
        self.lookup().normals().normal(t)
    }

    /// Whether the normal form is an object or the term of a known value.
    fn is_value(&self, form: &Term) -> bool
        ensures { result ≡ (is_some (as_object (term_of form.now)) || is_among term_cmp (term_of form.now) (terms_of self.now.kv)) }
    {
        match form {
            Term::Obj(_) => true,
            Term::Param(_) | Term::App { .. } => has_value(&self.parts().kv, form),
        }
    }

    /// Whether the value of the term is known. Then any two worlds of which the databases are true agree on it. It takes
    /// no memory.
    pub fn known_value(&self, t: &Term) -> bool
        ensures tells { result ≡ known_value (five_of self.now) (term_of t.now) }
        ensures so { IsTrue result → (s : Sig) (w w' : World) → IsTrueOf s w w' (five_of self.now) → value_of w (term_of t.now) ≡ value_of w' (term_of t.now) }
    {
        let _five = self.parts();
        self.is_value(&self.normal(t))
    }

    /// Whether the formula is a member up to normal form.
    fn is_member(&self, c: &Conj) -> bool
        ensures { result ≡ is_member (five_of self.now) (conj_of c.now) }
    {
        let five = self.parts();
        let form = normal_conj(self.lookup().normals(), c);
        has_formula(&five.kw, &form)
    }

    /// Whether the literal alone is a member up to normal form.
    fn is_alone(&self, l: &Literal) -> bool
        ensures { result ≡ is_member (five_of self.now) (literal_of l.now ∷ []) }
    {
        self.is_member(&Conj::empty().with(l))
    }

    /// Whether it is an equation between two terms whose values are known.
    fn has_known_sides(&self, l: &Literal) -> bool
        ensures { result ≡ has_known_sides (five_of self.now) (literal_of l.now).relation (literal_of l.now).arguments }
    {
        match &l.atom {
            Atom::Pred(_) => false,
            Atom::Eq { left, right } => self.known_value(left) && self.known_value(right),
        }
    }

    /// Whether the literal alone is known to be true or false.
    #[tactic(auto, unfolding(pks_terms::specs::Queries::is_decided))]
    fn is_decided(&self, s: &Signature, l: &Literal) -> bool
        ensures { result ≡ is_decided (signature_of s.now) (five_of self.now) (literal_of l.now) }
    {
        (self.known(s, l) || self.denies(s, l))
            || ((self.is_alone(l) || self.is_alone(&l.negated())) || self.has_known_sides(l))
    }

    /// Whether one of the literals is derived false.
    pub fn some_denied(&self, s: &Signature, ls: &[Literal]) -> bool
        ensures { result ≡ list_any (λ l. holds (signature_of s.now) (five_of self.now) (negated l)) (literals_in ls.now) }
    {
        self.lookup().some_denied(s, ls)
    }

    /// Whether each of the literals alone is known to be true or false.
    fn all_decided(&self, s: &Signature, ls: &[Literal]) -> bool
        ensures { result ≡ list_all (is_decided (signature_of s.now) (five_of self.now)) (literals_in ls.now) }
    {
        match ls {
            [] => true,
            [l, ls @ ..] => self.is_decided(s, l) && self.all_decided(s, ls),
        }
    }

    /// Whether the formula is a member, or one of its literals is derived false, or each is known to be true or false.
    #[tactic(auto, unfolding(pks_terms::specs::Queries::known_whether))]
    fn tells_whether(&self, s: &Signature, c: &Conj) -> bool
        ensures { result ≡ known_whether (signature_of s.now) (five_of self.now) (conj_of c.now) }
    {
        let literals = front(&c.literals, c.n);
        self.is_member(c) || (self.some_denied(s, literals) || self.all_decided(s, literals))
    }

    /// Whether the formula is known to be true or false. Then any two worlds of which the databases are true agree on it.
    /// It takes no memory.
    pub fn known_whether(&self, s: &Signature, c: &Conj) -> bool
        ensures tells { result ≡ known_whether (signature_of s.now) (five_of self.now) (conj_of c.now) }
        ensures so { IsTrue result → (w w' : World) → IsTrueOf (signature_of s.now) w w' (five_of self.now) → all_true_in w (conj_of c.now) ≡ all_true_in w' (conj_of c.now) }
    {
        self.tells_whether(s, c)
    }

    /// Whether the query is answered, or a denied one isn't.
    fn tells(&self, s: &Signature, q: &Query) -> bool
        ensures { result ≡ answers (signature_of s.now) (five_of self.now) (query_of q.now) }
    {
        match q {
            Query::K(l) => self.known(s, l),
            Query::Kw(c) => self.known_whether(s, c),
            Query::Kv(t) => self.known_value(t),
            Query::NotK(l) => !self.known(s, l),
            Query::NotKw(c) => !self.known_whether(s, c),
            Query::NotKv(t) => !self.known_value(t),
        }
    }

    /// Whether the query is answered. What an answered one says is so in any two worlds of which the databases are true,
    /// unless it is a denied one, which says nothing of worlds. It takes no memory.
    pub fn answers(&self, s: &Signature, q: &Query) -> bool
        ensures tells { result ≡ answers (signature_of s.now) (five_of self.now) (query_of q.now) }
        ensures so { IsTrue result → (query_of q.now).denied ≡ false → (w w' : World) → IsTrueOf (signature_of s.now) w w' (five_of self.now) → IsSaidOf w w' (query_of q.now).asks }
    {
        self.tells(s, q)
    }
}
