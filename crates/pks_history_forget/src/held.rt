//! What databases answer for good: what literals that are known tell. `docs/RULES.md` says when it does.
ghost use Rattle.std.specs.Prelude.{◌≡◌, ◌||◌};
ghost use Rattle.std.specs.List.{list_all};
ghost use Rattle.pks_terms.specs.Databases.{holds};
ghost use Rattle.pks_terms.specs.Syntax.{negated};
ghost use Rattle.pks_terms.specs.Views.{literals_in, query_of, signature_of};
ghost use Rattle.pks_query_lookup.specs.Fives.{five_of};
ghost use Rattle.pks_laws_forget.specs.Fewer.{is_held};

use pks_query::databases::Db;
use pks_terms::literal::Literal;
use pks_terms::problem::Signature;
use pks_terms::schema::Query;
use pks_terms::term::front;

/// Whether each of the literals is derived true or false.
fn are_told(s: &Signature, d: &Db, literals: &[Literal]) -> bool
    ensures { result ≡ list_all (λ l. holds (signature_of s.now) (five_of d.now) l || holds (signature_of s.now) (five_of d.now) (negated l)) (literals_in literals.now) }
{
    for l in literals {
        if !(d.known(s, l) || d.denies(s, l)) {
            return false;
        }
    }
    true
}

/// Whether the query asks for a literal that the databases know, or about a formula that literals decide: then they answer it
/// for good, since what they know only grows. It takes no memory.
pub fn is_held(s: &Signature, d: &Db, q: &Query) -> bool
    ensures { result ≡ is_held (signature_of s.now) (five_of d.now) (query_of q.now) }
{
    match q {
        Query::K(l) => d.known(s, l),
        Query::Kw(c) => {
            let literals = front(&c.literals, c.n);
            d.some_denied(s, literals) || are_told(s, d, literals)
        }
        Query::Kv(_) | Query::NotK(_) | Query::NotKw(_) | Query::NotKv(_) => false,
    }
}
