//! The formulas that adds give.
ghost use Rattle.std.specs.Prelude.{◌≡◌, ◌∷◌, [], map};
ghost use Rattle.std.specs.List.{list_all};
ghost use Rattle.pks_terms.specs.Spoiling.{are_stable};
ghost use Rattle.pks_terms.specs.Progress.{is_sensed, added_formula};
ghost use Rattle.pks_terms.specs.Views.{literals_in, conj_of, add_of};
ghost use Rattle.pks_kw.specs.Formulas.{formulas_of};
ghost use Rattle.pks_justify.specs.Cases.{case_view};
ghost use Rattle.pks_progress_adds.specs.Deeds.{signature_in, five_in, chosen_in, normals_in, effects_in, AssignsToPlaces, listed, formulas_from};

use crate::deed::Deed;
use pks_justify::{Case, case_in};
use pks_query_closing::forms::normal_conj;
use pks_terms::literal::{Conj, Literal};
use pks_terms::schema::{Adds, Item};
use pks_terms::term::front;

/// The case is one of a sensed add.
pub fn is_sensed(case: Case) -> bool
    ensures { result ≡ is_sensed (case_view case) }
{
    match case {
        Case::J3 | Case::J4 | Case::J6 => true,
        Case::J1 | Case::J2 | Case::J5 | Case::J7 | Case::J8 => false,
    }
}

impl Deed<'_, '_> {
    fn literals_are_stable(&self, ls: &[Literal]) -> bool
        ensures { result ≡ list_all (λ l. are_stable (signature_in self.now) (five_in self.now) (effects_in self.now) l.arguments) (literals_in ls.now) }
    {
        for l in ls {
            if !self.are_stable(l.atom.arguments().terms()) {
                return false;
            }
        }
        true
    }

    /// A sensed add has the arguments in normal form and the rest as written; a world add is taken in normal form.
    fn formula_by(&self, case: Case, c: &Conj) -> Option<Conj>
        ensures { formulas_of (listed result) ≡ added_formula (signature_in self.now) (five_in self.now) (effects_in self.now) (chosen_in self.now) (normals_in self.now) (case_view case) (conj_of c.now) }
    {
        if is_sensed(case) {
            if self.has_stable_in_all(front(&c.literals, c.n)) {
                Some(c.at(self.normal))
            } else {
                None
            }
        } else {
            let form = normal_conj(self.normals(), &c.at(self.chosen));
            if self.literals_are_stable(front(&form.literals, form.n)) {
                Some(form)
            } else {
                None
            }
        }
    }

    /// The formula that the add gives, if any.
    pub fn formula(&self, a: &Adds) -> Option<Conj>
        requires { AssignsToPlaces self.now }
        ensures { formulas_of (listed result) ≡ formulas_from self.now (add_of a.now) }
    {
        let Item::Kw(c) = &a.item else {
            return None;
        };
        match case_in(self.schema, a) {
            Some(case) => self.formula_by(case, c),
            None => None,
        }
    }
}
