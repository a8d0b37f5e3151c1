//! The known literals that adds give.
ghost use Rattle.std.specs.Prelude.{◌≡◌, ℕ, ◌∷◌, [], ◌&&◌, map, take};
ghost use Rattle.std.specs.List.{list_any};
ghost use Rattle.pks_terms.specs.Sets.{with_later};
ghost use Rattle.pks_terms.specs.Databases.{inner_normal};
ghost use Rattle.pks_terms.specs.Justified.{is_place, makes_so};
ghost use Rattle.pks_terms.specs.Progress.{has_place, has_stable_arguments, place_at, added_equation, if_stable};
ghost use Rattle.pks_terms.specs.ValidProblems.{IsApplication, AssignsToPlace};
ghost use Rattle.pks_terms.specs.Views.{inner_of, term_of, terms_of, literal_of, target_of, effect_of, add_of};
ghost use Rattle.pks_kf.specs.Known.{literals_of};
ghost use Rattle.pks_justify.specs.Asked.{given_view};
ghost use Rattle.pks_justify.specs.Effects.{effects_of};
ghost use Rattle.pks_justify.specs.Places.{AssignToPlaces};
ghost use Rattle.pks_progress_adds.specs.Deeds.{signature_in, five_in, schema_in, chosen_in, effects_in, AssignsToPlaces, listed, with_normal_arguments, literals_from};

use crate::deed::Deed;
use pks_justify::{Premises, is_same, makes_so, queries_of};
use pks_query_lookup::normals::Normals;
use pks_terms::literal::{Atom, Literal, equation};
use pks_terms::schema::{Adds, Effect, Item, Target};
use pks_terms::term::{Inner, Term};

fn normal_inners(by: &Normals, args: &[Inner; 2]) -> [Inner; 2]
    ensures { (n : ℕ) → map inner_of (take n result) ≡ map (inner_normal (literals_of by.now.kf)) (map inner_of (take n args.now)) }
{
    [by.normal_inner(&args[0]), by.normal_inner(&args[1])]
}

fn with_normal_arguments(by: &Normals, t: &Term) -> Term
    ensures { term_of result ≡ with_normal_arguments (literals_of by.now.kf) (term_of t.now) }
{
    match t {
        Term::Obj(_) | Term::Param(_) => *t,
        Term::App { fun, n, args } => Term::App {
            fun: *fun,
            n: *n,
            args: normal_inners(by, args),
        },
    }
}

/// The term is the place that is assigned.
fn is_place(t: &Term, target: &Target) -> bool
    requires { AssignsToPlace target.now }
    ensures { result ≡ is_place (term_of t.now) (target_of target.now) }
{
    match target {
        Target::Assign { place, .. } => is_same(place, t),
        Target::Set(_) | Target::Unset(_) | Target::Clear(_) => false,
    }
}

/// The term is the place of an assignment, one of these, that makes the literal so.
fn some_assigns(g: &Premises<'_>, l: &Literal, t: &Term, effects: &[Effect]) -> bool
    requires { AssignToPlaces effects.now }
    ensures { result ≡ list_any (λ p. is_place (term_of t.now) p.0.target && makes_so (given_view g.now) (literal_of l.now) p) (with_later (effects_of effects.now)) }
{
    match effects {
        [] => false,
        [e, later @ ..] => (is_place(t, &e.target) && makes_so(g, l, e, later))
            || some_assigns(g, l, t, later),
    }
}

impl Deed<'_, '_> {
    /// The assigned application with its arguments put in and in normal form.
    pub fn place(&self, t: &Term) -> Term
        requires { IsApplication t.now }
        ensures { term_of result ≡ place_at (five_in self.now).kf (chosen_in self.now) (term_of t.now) }
    {
        with_normal_arguments(self.normals(), &t.at(self.chosen))
    }

    /// The arguments of the application are stable.
    pub fn has_stable_arguments(&self, t: &Term) -> bool
        ensures { result ≡ has_stable_arguments (signature_in self.now) (five_in self.now) (effects_in self.now) (term_of t.now) }
    {
        self.inners_are_stable(t.arguments())
    }

    fn has_place(&self, a: &Adds, l: &Literal, t: &Term) -> bool
        requires { AssignsToPlaces self.now }
        ensures { result ≡ has_place (schema_in self.now) (add_of a.now) (literal_of l.now) (term_of t.now) }
    {
        let given = queries_of(self.schema, a);
        some_assigns(&given, l, t, self.schema.effects.as_slice())
    }

    fn if_stable(&self, l: &Literal) -> Option<Literal>
        ensures { map literal_of (listed result) ≡ if_stable (signature_in self.now) (five_in self.now) (effects_in self.now) (literal_of l.now) }
    {
        if self.are_stable(l.atom.arguments().terms()) {
            Some(*l)
        } else {
            None
        }
    }

    fn equation(&self, a: &Adds, l: &Literal, left: &Term, right: &Term) -> Option<Literal>
        requires { AssignsToPlaces self.now }
        ensures { map literal_of (listed result) ≡ added_equation (signature_in self.now) (five_in self.now) (effects_in self.now) (chosen_in self.now) (schema_in self.now) (add_of a.now) (literal_of l.now) (term_of left.now ∷ term_of right.now ∷ []) }
    {
        if !self.has_place(a, l, left) {
            return None;
        }
        let place = self.place(left);
        let value = self.normals().normal(&right.at(self.chosen));
        if self.has_stable_arguments(&place) && self.is_stable(&value) {
            Some(equation(&place, &value, true))
        } else {
            None
        }
    }

    /// The known literal that the add gives, if any.
    pub fn literal(&self, a: &Adds) -> Option<Literal>
        requires { AssignsToPlaces self.now }
        ensures { map literal_of (listed result) ≡ literals_from self.now (add_of a.now) }
    {
        let Item::Kf(l) = &a.item else {
            return None;
        };
        match &l.atom {
            Atom::Pred(_) => self.if_stable(&self.normals().normal_literal(&l.at(self.chosen))),
            Atom::Eq { left, right } => self.equation(a, l, left, right),
        }
    }
}
