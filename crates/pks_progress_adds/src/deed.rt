//! An action as it is done: its text, its arguments, and the databases before it.
ghost use Rattle.std.specs.Prelude.{◌≡◌, ℕ, map, take, length};
ghost use Rattle.std.specs.List.{list_all};
ghost use Rattle.pks_terms.specs.Databases.{inner_normal};
ghost use Rattle.pks_terms.specs.Queries.{answers};
ghost use Rattle.pks_terms.specs.Actions.{query_at};
ghost use Rattle.pks_terms.specs.Spoiling.{is_stable, are_stable};
ghost use Rattle.pks_terms.specs.Syntax.{term_of as lifted};
ghost use Rattle.pks_terms.specs.Views.{inner_of, term_of, terms_of, given_of, query_of, add_of};
ghost use Rattle.pks_kf.specs.Known.{literals_of};
ghost use Rattle.pks_progress_interference.specs.EffectViews.{effects_in as effects_written};
ghost use Rattle.pks_progress_adds.specs.Deeds.{signature_in, five_in, chosen_in, effects_in, is_applied};

use pks_progress_interference::effects::Effects;
use pks_progress_interference::spoiled::{are_stable, is_stable};
use pks_query::databases::Db;
use pks_query_lookup::normals::Normals;
use pks_terms::problem::Signature;
use pks_terms::schema::{Adds, Instance, Query, Schema};
use pks_terms::term::{Inner, Term, front};

/// An action as it is done.
#[derive(Clone, Copy)]
pub struct Deed<'a, 's> {
    /// What is declared.
    pub signature: &'a Signature,
    /// The databases before it.
    pub before: &'a Db,
    /// Its text.
    pub schema: &'a Schema<'s>,
    /// Its arguments as chosen.
    pub chosen: &'a Instance,
    /// The same in normal form.
    pub normal: &'a Instance,
}

fn normal_arguments(by: &Normals, args: &[Inner; 4]) -> [Inner; 4]
    ensures { (n : ℕ) → map inner_of (take n result) ≡ map (inner_normal (literals_of by.now.kf)) (map inner_of (take n args.now)) }
{
    [
        by.normal_inner(&args[0]),
        by.normal_inner(&args[1]),
        by.normal_inner(&args[2]),
        by.normal_inner(&args[3]),
    ]
}

/// The instance with its arguments in normal form.
pub fn normal_instance(by: &Normals, i: &Instance) -> Instance
    ensures { given_of result ≡ map (inner_normal (literals_of by.now.kf)) (given_of i.now) }
{
    Instance {
        act: i.act,
        n: i.n,
        args: normal_arguments(by, &i.args),
    }
}

impl Deed<'_, '_> {
    fn effects(&self) -> Effects<'_>
        ensures { effects_written result ≡ effects_in self.now }
    {
        Effects {
            written: self.schema.effects.as_slice(),
            instance: self.chosen,
        }
    }

    /// Lends what makes normal forms by the databases before.
    pub fn normals(&self) -> &Normals
        ensures { result.now ≡ self.now.before.now }
    {
        self.before.lookup().normals()
    }

    /// The term is stable.
    pub fn is_stable(&self, t: &Term) -> bool
        ensures { result ≡ is_stable (signature_in self.now) (five_in self.now) (effects_in self.now) (term_of t.now) }
    {
        is_stable(self.signature, self.before.lookup(), self.effects(), t)
    }

    /// Each term is stable.
    pub fn are_stable(&self, ts: &[Term]) -> bool
        ensures { result ≡ are_stable (signature_in self.now) (five_in self.now) (effects_in self.now) (terms_of ts.now) }
    {
        are_stable(self.signature, self.before.lookup(), self.effects(), ts)
    }

    /// Each argument of an application is stable.
    pub fn inners_are_stable(&self, ts: &[Inner]) -> bool
        ensures { result ≡ are_stable (signature_in self.now) (five_in self.now) (effects_in self.now) (map lifted (map inner_of ts.now)) }
    {
        for t in ts {
            if !self.is_stable(&t.as_term()) {
                return false;
            }
        }
        true
    }

    fn are_answered(&self, queries: &[Query]) -> bool
        ensures { result ≡ list_all (λ q. answers (signature_in self.now) (five_in self.now) (query_at (chosen_in self.now) q)) (map query_of queries.now) }
    {
        for q in queries {
            if !self.before.answers(self.signature, &q.at(self.chosen)) {
                return false;
            }
        }
        true
    }

    /// The add's own queries are answered.
    pub fn is_applied(&self, a: &Adds) -> bool
        ensures { result ≡ is_applied self.now (add_of a.now) }
    {
        self.are_answered(front(&a.given, a.n))
    }
}
