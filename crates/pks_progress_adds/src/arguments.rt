//! The arguments that stand for the parameters of an item.
ghost use Rattle.std.specs.Prelude.{◌≡◌, ℕ, List, [], map};
ghost use Rattle.std.specs.List.{list_all, flat_map};
ghost use Rattle.pks_terms.specs.Actions.{argument};
ghost use Rattle.pks_terms.specs.Spoiling.{is_stable};
ghost use Rattle.pks_terms.specs.Syntax.{term_of as lifted};
ghost use Rattle.pks_terms.specs.Progress.{form_parameters, parameters_in, conj_parameters, arguments_stable};
ghost use Rattle.pks_terms.specs.Views.{inner_of, term_of, terms_of, literal_of, literals_in};
ghost use Rattle.pks_progress_adds.specs.Deeds.{signature_in, five_in, normals_in, effects_in};

use crate::deed::Deed;
use pks_terms::literal::Literal;
use pks_terms::term::{Inner, Term};

impl Deed<'_, '_> {
    /// The argument in normal form that stands for the parameter is stable.
    fn has_stable(&self, parameter: u8) -> bool
        ensures { result ≡ is_stable (signature_in self.now) (five_in self.now) (effects_in self.now) (lifted (argument (normals_in self.now) parameter)) }
    {
        self.is_stable(&Term::Param(parameter).at(self.normal))
    }

    #[tactic(auto, using(crate::proofs::Lists::read))]
    fn has_stable_inside(&self, t: &Inner) -> bool
        ensures { result ≡ arguments_stable (signature_in self.now) (five_in self.now) (effects_in self.now) (normals_in self.now) (form_parameters (λ d. []) (inner_of t.now)) }
    {
        match t {
            Inner::Param(parameter) => self.has_stable(*parameter),
            Inner::Obj(_) | Inner::App { .. } => true,
        }
    }

    #[tactic(auto, using(crate::proofs::Lists::read))]
    fn has_stable_inners(&self, ts: &[Inner]) -> bool
        ensures { result ≡ arguments_stable (signature_in self.now) (five_in self.now) (effects_in self.now) (normals_in self.now) (flat_map (form_parameters (λ d. [])) (map inner_of ts.now)) }
    {
        for t in ts {
            if !self.has_stable_inside(t) {
                return false;
            }
        }
        true
    }

    /// Each argument in normal form that stands for a parameter of the term is stable.
    pub fn has_stable_in(&self, t: &Term) -> bool
        ensures { result ≡ arguments_stable (signature_in self.now) (five_in self.now) (effects_in self.now) (normals_in self.now) (parameters_in (term_of t.now)) }
    {
        match t {
            Term::Obj(_) => true,
            Term::Param(parameter) => self.has_stable(*parameter),
            Term::App { .. } => self.has_stable_inners(t.arguments()),
        }
    }

    #[tactic(auto, using(crate::proofs::Lists::read))]
    fn has_stable_terms(&self, ts: &[Term]) -> bool
        ensures { result ≡ arguments_stable (signature_in self.now) (five_in self.now) (effects_in self.now) (normals_in self.now) (flat_map parameters_in (terms_of ts.now)) }
    {
        for t in ts {
            if !self.has_stable_in(t) {
                return false;
            }
        }
        true
    }

    fn has_stable_sides(&self, l: &Literal) -> bool
        ensures { result ≡ arguments_stable (signature_in self.now) (five_in self.now) (effects_in self.now) (normals_in self.now) (flat_map parameters_in (literal_of l.now).arguments) }
    {
        self.has_stable_terms(l.atom.arguments().terms())
    }

    /// Each argument in normal form that stands for a parameter of the literals is stable.
    #[tactic(auto, using(crate::proofs::Lists::read))]
    pub fn has_stable_in_all(&self, ls: &[Literal]) -> bool
        ensures { result ≡ arguments_stable (signature_in self.now) (five_in self.now) (effects_in self.now) (normals_in self.now) (conj_parameters (literals_in ls.now)) }
    {
        for l in ls {
            if !self.has_stable_sides(l) {
                return false;
            }
        }
        true
    }
}
