//! The effects of an action with its arguments, judged by the databases before.
ghost use Rattle.std.specs.Prelude.{◌≡◌};
ghost use Rattle.std.specs.List.{list_all};
ghost use Rattle.pks_terms.specs.Databases.{holds};
ghost use Rattle.pks_terms.specs.Spoiling.{is_stable, spoils};
ghost use Rattle.pks_terms.specs.Syntax.{negated};
ghost use Rattle.pks_terms.specs.Views.{term_of, literal_of, literals_in};
ghost use Rattle.pks_progress_interference.specs.EffectViews.{effects_in};
ghost use Rattle.pks_postdict_rules.specs.Changes.{signature_in, before_in, effects_by, some_effects};

use pks_progress_interference::effects::Effects;
use pks_progress_interference::spoiled::{is_stable, spoils};
use pks_query_lookup::derived::Derived;
use pks_terms::literal::Literal;
use pks_terms::problem::Signature;
use pks_terms::schema::Effect;
use pks_terms::term::Term;

/// The effects of an action with its arguments, and the databases by which what they may do is judged.
#[derive(Clone, Copy)]
pub(crate) struct Change<'a> {
    /// The signature of the problem.
    pub signature: &'a Signature,
    /// The databases before.
    pub before: &'a Derived,
    /// The effects.
    pub effects: Effects<'a>,
}

/// Some of the effects of the change.
pub(crate) fn some_of<'b>(change: &'b Change<'_>, written: &'b [Effect]) -> Effects<'b>
    ensures { effects_in result ≡ some_effects change.now written.now }
{
    Effects {
        written,
        instance: change.effects.instance,
    }
}

impl Change<'_> {
    /// Whether the literal holds before.
    pub(crate) fn holds(&self, l: &Literal) -> bool
        ensures { result ≡ holds (signature_in self.now) (before_in self.now) (literal_of l.now) }
    {
        self.before.holds(self.signature, l)
    }

    /// Whether each of the literals holds before.
    pub(crate) fn all_hold(&self, literals: &[Literal]) -> bool
        ensures { result ≡ list_all (holds (signature_in self.now) (before_in self.now)) (literals_in literals.now) }
    {
        for l in literals {
            if !self.holds(l) {
                return false;
            }
        }
        true
    }

    /// Whether the negation of the literal holds before.
    pub(crate) fn denies(&self, l: &Literal) -> bool
        ensures { result ≡ holds (signature_in self.now) (before_in self.now) (negated (literal_of l.now)) }
    {
        self.before.denies(self.signature, l)
    }

    /// Whether no effect may change the value of an application in the term.
    pub(crate) fn is_stable(&self, t: &Term) -> bool
        ensures { result ≡ is_stable (signature_in self.now) (before_in self.now) (effects_by self.now) (term_of t.now) }
    {
        is_stable(self.signature, self.before, self.effects, t)
    }

    /// Whether the effects spoil the literal.
    pub(crate) fn spoils(&self, l: &Literal) -> bool
        ensures { result ≡ spoils (signature_in self.now) (before_in self.now) (effects_by self.now) (literal_of l.now) }
    {
        spoils(self.signature, self.before, self.effects, l)
    }
}
