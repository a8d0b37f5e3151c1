//! Whether a renaming leaves the actions' texts and the goal as they are.

ghost use Rattle.std.specs.Prelude.{◌≡◌, ℕ, IsTrue, map, length, option_map};
ghost use Rattle.pks_terms.specs.Sets.{Each, IsIn};
ghost use Rattle.pks_terms.specs.Problems.{Aim as SAim};
ghost use Rattle.pks_terms.specs.Views.{object_of, inner_of, term_of, literal_of, conj_of, atom_of, pattern_of, query_of, target_of, effect_of, item_of, add_of, schema_of, aim_of, problem_of};
ghost use Rattle.pks_laws_symmetry.specs.Renamed.{renamed_aim};
ghost use Rattle.pks_laws_symmetry.specs.Fixed.{IsFixedInner, IsFixedTerm, IsFixedLiteral, IsFixedConj, IsFixedSlot, IsFixedPattern, IsFixedPlain, IsFixedTarget, IsFixedEffect, IsFixedItem, AreFixedQueries, IsFixedSchema};
ghost use Rattle.pks_search_symmetry.specs.Renaming.{image_by};

use crate::renaming::{object, query};
use pks_terms::ids::ObjId;
use pks_terms::literal::{Conj, Literal, Pattern, PredAtom};
use pks_terms::problem::{Aim, Problem};
use pks_terms::schema::{Adds, Effect, Item, Query, Schema, Target};
use pks_terms::term::{Inner, Term, front};

/// What a text is looked at with: the renaming, and the number of the action's parameters.
#[derive(Drop)]
pub(crate) struct Look<'t> {
    pub(crate) to: &'t [ObjId],
    pub(crate) parameters: usize,
}

impl<'t> Look<'t> {
    fn object(&self, d: ObjId) -> bool
        ensures { IsTrue result → image_by self.now.to.now (object_of d) ≡ object_of d }
    {
        object(self.to, d).0 == d.0
    }

    fn objects(&self, ds: &[ObjId]) -> bool
        ensures { IsTrue result → Each (λ d. image_by self.now.to.now d ≡ d) (map object_of ds.now) }
    {
        for d in ds {
            if !self.object(*d) {
                return false;
            }
        }
        true
    }

    fn inner(&self, t: &Inner) -> bool
        ensures { IsTrue result → IsFixedInner (image_by self.now.to.now) self.now.parameters (inner_of t.now) }
    {
        match t {
            Inner::Obj(d) => self.object(*d),
            Inner::Param(i) => usize::from(*i) < self.parameters,
            Inner::App { n, args, .. } => self.objects(front(args, *n)),
        }
    }

    fn inners(&self, ts: &[Inner]) -> bool
        ensures { IsTrue result → Each (IsFixedInner (image_by self.now.to.now) self.now.parameters) (map inner_of ts.now) }
    {
        for t in ts {
            if !self.inner(t) {
                return false;
            }
        }
        true
    }

    fn term(&self, t: &Term) -> bool
        ensures { IsTrue result → IsFixedTerm (image_by self.now.to.now) self.now.parameters (term_of t.now) }
    {
        match t {
            Term::Obj(d) => self.object(*d),
            Term::Param(i) => usize::from(*i) < self.parameters,
            Term::App { n, args, .. } => self.inners(front(args, *n)),
        }
    }

    fn terms(&self, ts: &[Term]) -> bool
        ensures { IsTrue result → Each (IsFixedTerm (image_by self.now.to.now) self.now.parameters) (map term_of ts.now) }
    {
        for t in ts {
            if !self.term(t) {
                return false;
            }
        }
        true
    }

    fn literal(&self, l: &Literal) -> bool
        ensures { IsTrue result → IsFixedLiteral (image_by self.now.to.now) self.now.parameters (literal_of l.now) }
    {
        self.terms(l.atom.arguments().terms())
    }

    fn literals(&self, ls: &[Literal]) -> bool
        ensures { IsTrue result → IsFixedConj (image_by self.now.to.now) self.now.parameters (map literal_of ls.now) }
    {
        for l in ls {
            if !self.literal(l) {
                return false;
            }
        }
        true
    }

    fn conj(&self, c: &Conj) -> bool
        ensures { IsTrue result → IsFixedConj (image_by self.now.to.now) self.now.parameters (conj_of c.now) }
    {
        self.literals(front(&c.literals, c.n))
    }

    fn atom(&self, a: &PredAtom) -> bool
        ensures { IsTrue result → Each (IsFixedTerm (image_by self.now.to.now) self.now.parameters) (atom_of a.now).arguments }
    {
        self.terms(front(&a.args, a.n))
    }

    fn slot(&self, slot: &Option<Term>) -> bool
        ensures { IsTrue result → IsFixedSlot (image_by self.now.to.now) self.now.parameters (option_map term_of slot.now) }
    {
        match slot {
            Some(t) => self.term(t),
            None => true,
        }
    }

    fn slots(&self, slots: &[Option<Term>]) -> bool
        ensures { IsTrue result → Each (IsFixedSlot (image_by self.now.to.now) self.now.parameters) (map (option_map term_of) slots.now) }
    {
        for slot in slots {
            if !self.slot(slot) {
                return false;
            }
        }
        true
    }

    fn pattern(&self, x: &Pattern) -> bool
        ensures { IsTrue result → IsFixedPattern (image_by self.now.to.now) self.now.parameters (pattern_of x.now) }
    {
        self.slots(front(&x.args, x.n))
    }

    fn query(&self, q: &Query) -> bool
        ensures { IsTrue result → IsFixedPlain (image_by self.now.to.now) self.now.parameters (query_of q.now).asks }
    {
        match q {
            Query::K(l) | Query::NotK(l) => self.literal(l),
            Query::Kw(c) | Query::NotKw(c) => self.conj(c),
            Query::Kv(t) | Query::NotKv(t) => self.term(t),
        }
    }

    fn queries(&self, qs: &[Query]) -> bool
        ensures { IsTrue result → AreFixedQueries (image_by self.now.to.now) self.now.parameters (map query_of qs.now) }
    {
        for q in qs {
            if !self.query(q) {
                return false;
            }
        }
        true
    }

    fn target(&self, x: &Target) -> bool
        ensures { IsTrue result → IsFixedTarget (image_by self.now.to.now) self.now.parameters (target_of x.now) }
    {
        match x {
            Target::Set(a) | Target::Unset(a) => self.atom(a),
            Target::Clear(x) => self.pattern(x),
            Target::Assign { place, value } => self.term(place) && self.term(value),
        }
    }

    fn effect(&self, e: &Effect) -> bool
        ensures { IsTrue result → IsFixedEffect (image_by self.now.to.now) self.now.parameters (effect_of e.now) }
    {
        self.conj(&e.cond) && self.target(&e.target)
    }

    fn effects(&self, es: &[Effect]) -> bool
        ensures { IsTrue result → Each (IsFixedEffect (image_by self.now.to.now) self.now.parameters) (map effect_of es.now) }
    {
        for e in es {
            if !self.effect(e) {
                return false;
            }
        }
        true
    }

    fn item(&self, x: &Item) -> bool
        ensures { IsTrue result → IsFixedItem (image_by self.now.to.now) self.now.parameters (item_of x.now) }
    {
        match x {
            Item::Kf(l) => self.literal(l),
            Item::Kw(c) => self.conj(c),
            Item::Kv(t) => self.term(t),
            Item::Lcw(x) => self.pattern(x),
        }
    }

    fn add(&self, a: &Adds) -> bool
        ensures { IsTrue result → AreFixedQueries (image_by self.now.to.now) self.now.parameters (add_of a.now).given × IsFixedItem (image_by self.now.to.now) self.now.parameters (add_of a.now).item }
    {
        self.queries(front(&a.given, a.n)) && self.item(&a.item)
    }

    fn adds(&self, all: &[Adds]) -> bool
        ensures { IsTrue result → Each (λ a. AreFixedQueries (image_by self.now.to.now) self.now.parameters a.given × IsFixedItem (image_by self.now.to.now) self.now.parameters a.item) (map add_of all.now) }
    {
        for a in all {
            if !self.add(a) {
                return false;
            }
        }
        true
    }

    fn schema(&self, sc: &Schema<'_>) -> bool
        ensures { IsTrue result → self.now.parameters ≡ length (schema_of sc.now).parameters → IsFixedSchema (image_by self.now.to.now) (schema_of sc.now) }
    {
        self.queries(sc.pre.as_slice())
            && self.effects(sc.effects.as_slice())
            && self.adds(sc.adds.as_slice())
    }
}

/// Whether the action's text is its own image.
fn keeps_text(to: &[ObjId], sc: &Schema<'_>) -> bool
    ensures { IsTrue result → IsFixedSchema (image_by to.now) (schema_of sc.now) }
{
    let look = Look {
        to,
        parameters: sc.params.len(),
    };
    look.schema(sc)
}

fn keeps_each(to: &[ObjId], schemas: &[Schema<'_>]) -> bool
    ensures { IsTrue result → Each (IsFixedSchema (image_by to.now)) (map schema_of schemas.now) }
{
    match schemas {
        [] => true,
        [sc, rest @ ..] => keeps_text(to, sc) && keeps_each(to, rest),
    }
}

/// Whether each action's text is its own image.
pub(crate) fn keeps_texts(to: &[ObjId], p: &Problem<'_>) -> bool
    ensures { IsTrue result → Each (IsFixedSchema (image_by to.now)) (problem_of p.now).schemas }
{
    keeps_each(to, p.schemas.as_slice())
}

fn same_literal(l: &Literal, m: &Literal) -> bool
    ensures { IsTrue result → literal_of l.now ≡ literal_of m.now }
{
    l == m
}

fn same_conj(c: &Conj, b: &Conj) -> bool
    ensures { IsTrue result → conj_of c.now ≡ conj_of b.now }
{
    c == b
}

fn same_term(t: &Term, u: &Term) -> bool
    ensures { IsTrue result → term_of t.now ≡ term_of u.now }
{
    t == u
}

/// Whether the queries are the same. It answers no where they differ, and takes no memory. `docs/RULES.md`, queries.
pub fn same_query(q: &Query, r: &Query) -> bool
    ensures { IsTrue result → query_of q.now ≡ query_of r.now }
{
    match (q, r) {
        (Query::K(l), Query::K(m)) | (Query::NotK(l), Query::NotK(m)) => same_literal(l, m),
        (Query::Kw(c), Query::Kw(b)) | (Query::NotKw(c), Query::NotKw(b)) => same_conj(c, b),
        (Query::Kv(t), Query::Kv(u)) | (Query::NotKv(t), Query::NotKv(u)) => same_term(t, u),
        _ => false,
    }
}

/// Whether the second aim is the image of the first.
fn is_image(to: &[ObjId], a: &Aim, b: &Aim) -> bool
    ensures { IsTrue result → renamed_aim (image_by to.now) (aim_of a.now) ≡ aim_of b.now }
{
    match (a, b) {
        (Aim::Now(q), Aim::Now(r)) => same_query(&query(to, q), r),
        (Aim::AtStart(q), Aim::AtStart(r)) => same_query(&query(to, q), r),
        (Aim::Always(q), Aim::Always(r)) => same_query(&query(to, q), r),
        (Aim::Once(q), Aim::Once(r)) => same_query(&query(to, q), r),
        _ => false,
    }
}

fn has_image(to: &[ObjId], a: &Aim, goal: &[Aim]) -> bool
    ensures { IsTrue result → IsIn (renamed_aim (image_by to.now) (aim_of a.now)) (map aim_of goal.now) }
{
    match goal {
        [] => false,
        [b, rest @ ..] => is_image(to, a, b) || has_image(to, a, rest),
    }
}

/// Whether the image of an aim of the goal is an aim of it.
fn has_own_image(to: &[ObjId], a: &Aim, goal: &[Aim]) -> bool
    requires { IsIn (aim_of a.now) (map aim_of goal.now) }
    ensures { IsTrue result → IsIn (renamed_aim (image_by to.now) (aim_of a.now)) (map aim_of goal.now) }
{
    is_image(to, a, a) || has_image(to, a, goal)
}

/// Whether the image of each of these aims of the goal is an aim of it.
fn have_images(to: &[ObjId], some: &[Aim], goal: &[Aim]) -> bool
    requires { (a : SAim) → IsIn a (map aim_of some.now) → IsIn a (map aim_of goal.now) }
    ensures { IsTrue result → (a : SAim) → IsIn a (map aim_of some.now) → IsIn (renamed_aim (image_by to.now) a) (map aim_of goal.now) }
{
    match some {
        [] => true,
        [a, rest @ ..] => has_own_image(to, a, goal) && have_images(to, rest, goal),
    }
}

/// Whether the image of each aim is an aim.
pub(crate) fn keeps_goal(to: &[ObjId], goal: &[Aim]) -> bool
    ensures { IsTrue result → (a : SAim) → IsIn a (map aim_of goal.now) → IsIn (renamed_aim (image_by to.now) a) (map aim_of goal.now) }
{
    have_images(to, goal, goal)
}
