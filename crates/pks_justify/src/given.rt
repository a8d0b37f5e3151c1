// The queries that are answered where an add is applied.
ghost use Rattle.std.specs.Prelude.{◌≡◌, false, map, List, [], ◌∷◌};
ghost use Rattle.std.specs.List.{list_any, list_all};
ghost use Rattle.std.specs.Option.{option_map_or};
ghost use Rattle.pks_terms.specs.Justified.{asks_known, asks_whether, asks_value, is_given, is_given_whether, is_given_value, is_given_either_way, are_given};
ghost use Rattle.pks_terms.specs.Views.{term_of, literal_of, literals_in, conj_of, query_of, schema_of, add_of};
ghost use Rattle.pks_terms.specs.Justified.{given_of};
ghost use Rattle.pks_justify.specs.Asked.{is_asked, asks_for, given_view};

use pks_terms::literal::{Conj, Literal};
use pks_terms::schema::{Adds, Query, Schema};
use pks_terms::term::{Term, front};

/// The queries of an add and the preconditions of its action.
#[derive(Clone, Copy)]
pub struct Premises<'a> {
    /// The queries of the add.
    pub own: &'a [Query],
    /// The preconditions of the action.
    pub pre: &'a [Query],
}

/// What a query may ask for.
#[derive(Clone, Copy)]
pub enum QuerySubject<'a> {
    Known(&'a Literal),
    Whether(&'a Conj),
    Value(&'a Term),
}

/// The queries that are answered where the add is applied (`docs/RULES.md`, "Justified adds"). It takes no memory.
pub fn queries_of<'a>(schema: &'a Schema<'_>, add: &'a Adds) -> Premises<'a>
    ensures { given_view result ≡ given_of (schema_of schema.now) (add_of add.now) }
{
    Premises {
        own: front(&add.given, add.n),
        pre: schema.pre.as_slice(),
    }
}

#[tactic(auto, unfolding(pks_terms::specs::Orders::literal_eq))]
fn asks_known(q: &Query, l: &Literal) -> bool
    ensures { result ≡ is_asked (asks_known (literal_of l.now)) (query_of q.now) }
{
    match q {
        Query::K(m) => m == l,
        Query::Kw(_) | Query::Kv(_) | Query::NotK(_) | Query::NotKw(_) | Query::NotKv(_) => false,
    }
}

fn asks_whether(q: &Query, c: &Conj) -> bool
    ensures { result ≡ is_asked (asks_whether (conj_of c.now)) (query_of q.now) }
{
    match q {
        Query::Kw(b) => b == c,
        Query::K(_) | Query::Kv(_) | Query::NotK(_) | Query::NotKw(_) | Query::NotKv(_) => false,
    }
}

#[tactic(auto, unfolding(pks_terms::specs::Orders::term_eq))]
fn asks_value(q: &Query, t: &Term) -> bool
    ensures { result ≡ is_asked (asks_value (term_of t.now)) (query_of q.now) }
{
    match q {
        Query::Kv(u) => u == t,
        Query::K(_) | Query::Kw(_) | Query::NotK(_) | Query::NotKw(_) | Query::NotKv(_) => false,
    }
}

fn asks(q: &Query, fact: QuerySubject<'_>) -> bool
    ensures { result ≡ is_asked (asks_for fact.entry) (query_of q.now) }
{
    match fact {
        QuerySubject::Known(l) => asks_known(q, l),
        QuerySubject::Whether(c) => asks_whether(q, c),
        QuerySubject::Value(t) => asks_value(q, t),
    }
}

fn some_asks(queries: &[Query], fact: QuerySubject<'_>) -> bool
    ensures { result ≡ list_any (is_asked (asks_for fact.entry)) (map query_of queries.now) }
{
    for q in queries {
        if asks(q, fact) {
            return true;
        }
    }
    false
}

// The formula of this one literal.
fn alone(l: &Literal) -> Conj
    ensures { conj_of result ≡ literal_of l.now ∷ [] }
{
    Conj::empty().with(l)
}

impl<'a> Premises<'a> {
    #[tactic(auto, using(crate::proofs::Asking::given_any))]
    fn gives(&self, fact: QuerySubject<'_>) -> bool
        ensures { result ≡ list_any (asks_for fact.entry) (given_view self.now) }
    {
        some_asks(self.own, fact) || some_asks(self.pre, fact)
    }

    /// `k` of the literal is given.
    #[tactic(auto, unfolding(pks_terms::specs::Justified::is_given))]
    pub fn knows(&self, l: &Literal) -> bool
        ensures { result ≡ is_given (given_view self.now) (literal_of l.now) }
    {
        self.gives(QuerySubject::Known(l))
    }

    /// `kw` of the formula is given.
    #[tactic(auto, unfolding(pks_terms::specs::Justified::is_given_whether))]
    pub fn knows_whether(&self, c: &Conj) -> bool
        ensures { result ≡ is_given_whether (given_view self.now) (conj_of c.now) }
    {
        self.gives(QuerySubject::Whether(c))
    }

    /// `kv` of the term is given.
    #[tactic(auto, unfolding(pks_terms::specs::Justified::is_given_value))]
    pub fn knows_value(&self, t: &Term) -> bool
        ensures { result ≡ is_given_value (given_view self.now) (term_of t.now) }
    {
        self.gives(QuerySubject::Value(t))
    }

    fn knows_alone(&self, l: &Literal) -> bool
        ensures { result ≡ is_given_whether (given_view self.now) (literal_of l.now ∷ []) }
    {
        self.knows_whether(&alone(l))
    }

    /// `k` of the literal or of its negation, or `kw` of one of these alone is given.
    pub fn knows_either_way(&self, l: &Literal) -> bool
        ensures { result ≡ is_given_either_way (given_view self.now) (literal_of l.now) }
    {
        let negation = l.negated();
        let known = self.knows(l) || self.knows(&negation);
        known || (self.knows_alone(l) || self.knows_alone(&negation))
    }

    /// `k` of each literal is given.
    pub fn knows_all(&self, literals: &[Literal]) -> bool
        ensures { result ≡ are_given (given_view self.now) (literals_in literals.now) }
    {
        for l in literals {
            if !self.knows(l) {
                return false;
            }
        }
        true
    }

    /// Each literal is given either way.
    pub fn knows_each_either_way(&self, literals: &[Literal]) -> bool
        ensures { result ≡ list_all (is_given_either_way (given_view self.now)) (literals_in literals.now) }
    {
        for l in literals {
            if !self.knows_either_way(l) {
                return false;
            }
        }
        true
    }
}
