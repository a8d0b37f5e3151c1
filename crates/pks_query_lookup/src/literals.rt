//! Normal forms of literals, and those that give values. `docs/RULES.md` has the rule.
ghost use Rattle.std.specs.Prelude.{◌≡◌, true, is_some};
ghost use Rattle.pks_terms.specs.Databases.{told, normal_literal};
ghost use Rattle.pks_terms.specs.Views.{literal_of};
ghost use Rattle.pks_kf.specs.Known.{literals_of};

use crate::normals::Normals;
use crate::table::place_and_value;
use pks_terms::literal::Literal;
use pks_terms::objects::is_of_objects;

/// Whether the literal gives the value at a place. It takes no memory.
pub fn gives_value(l: &Literal) -> bool
    ensures { result ≡ is_some (told (literal_of l.now).relation (literal_of l.now).arguments (literal_of l.now).positive) }
{
    match place_and_value(l) {
        Some(_) => true,
        None => false,
    }
}

/// The literal without its negation, which is affirmed. It takes no memory. `docs/RULES.md`, section 1.
pub fn affirmed(l: &Literal) -> Literal
    ensures { literal_of result ≡ record { relation = (literal_of l.now).relation; arguments = (literal_of l.now).arguments; positive = true } }
{
    Literal {
        atom: l.atom,
        positive: true,
    }
}

impl Normals {
    /// The normal form of a literal, the sides of an equation in order. It takes no memory.
    #[tactic(auto, unfolding(pks_terms::specs::Databases::normal_literal))]
    pub fn normal_literal(&self, l: &Literal) -> Literal
        ensures { literal_of result ≡ normal_literal (literals_of self.now.kf) (literal_of l.now) }
    {
        if is_of_objects(l) {
            return *l;
        }
        l.atom
            .with(&self.normal_arguments(&l.atom.arguments()), l.positive)
    }
}
