//! The terms of known values that adds give.
ghost use Rattle.std.specs.Prelude.{◌≡◌, false, Some, ◌∷◌, [], map};
ghost use Rattle.pks_terms.specs.Actions.{ItemKv};
ghost use Rattle.pks_terms.specs.Justified.{item_case, given_of, case_of};
ghost use Rattle.pks_terms.specs.Progress.{is_sensed, added_value};
ghost use Rattle.pks_terms.specs.ValidProblems.{IsApplication};
ghost use Rattle.pks_terms.specs.Views.{term_of, terms_of, add_of};
ghost use Rattle.pks_justify.specs.Cases.{case_view};
ghost use Rattle.pks_progress_adds.specs.Deeds.{signature_in, five_in, schema_in, chosen_in, normals_in, effects_in, AssignsToPlaces, listed, values_from};

use crate::deed::Deed;
use crate::formulas::is_sensed;
use pks_justify::{Case, case_in};
use pks_terms::schema::{Adds, Item};
use pks_terms::term::Term;

impl Deed<'_, '_> {
    fn value_by(&self, case: Case, t: &Term) -> Option<Term>
        requires { is_sensed (case_view case) ≡ false → IsApplication t.now }
        ensures { terms_of (listed result) ≡ added_value (signature_in self.now) (five_in self.now) (effects_in self.now) (chosen_in self.now) (normals_in self.now) (case_view case) (term_of t.now) }
    {
        if is_sensed(case) {
            if self.has_stable_in(t) {
                Some(t.at(self.normal))
            } else {
                None
            }
        } else {
            let place = self.place(t);
            if self.has_stable_arguments(&place) {
                Some(place)
            } else {
                None
            }
        }
    }

    /// The term that the add gives, if any.
    pub fn value(&self, a: &Adds) -> Option<Term>
        requires { AssignsToPlaces self.now }
        ensures { terms_of (listed result) ≡ values_from self.now (add_of a.now) }
    {
        let Item::Kv(t) = &a.item else {
            return None;
        };
        match case_in(self.schema, a) {
            Some(case) => self.value_by(case, t),
            None => None,
        }
    }
}
