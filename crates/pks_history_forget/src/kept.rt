//! What of databases is kept by a step, or surely changed. The effects are those of the step, its arguments put in.
ghost use Rattle.std.specs.Prelude.{◌≡◌, ◌&&◌, ◌||◌, map};
ghost use Rattle.std.specs.List.{list_all, list_any, flat_map};
ghost use Rattle.std.specs.Option.{option_map};
ghost use Rattle.std.specs.Ordering.{is_eq};
ghost use Rattle.pks_terms.specs.Databases.{entry_cmp};
ghost use Rattle.pks_terms.specs.Orders.{conj_cmp};
ghost use Rattle.pks_terms.specs.Progress.{fixed_terms, entry_terms};
ghost use Rattle.pks_terms.specs.Syntax.{negated};
ghost use Rattle.pks_terms.specs.Views.{term_of, literal_of, literals_in, effect_of};
ghost use Rattle.pks_kf.specs.Known.{literals_of};
ghost use Rattle.pks_kx.specs.Groups.{groups_of};
ghost use Rattle.pks_lcw.specs.Entries.{atoms_of, entry_of, entries_of};
ghost use Rattle.pks_query_lookup.specs.Fives.{five_of};
ghost use Rattle.pks_laws_forget.specs.Transparent.{gives_value, left_of, is_elsewhere};
ghost use Rattle.pks_laws_forget.specs.Testing.{has, is_written, is_assigned, is_untouched, is_left, is_kept, lasts_as_group, lasts_as_region};
ghost use Rattle.pks_terms.specs.ValidProblems.{ArePlaced};
ghost use Rattle.pks_terms.specs.Objects.{are_objects, is_of_objects};

use crate::effects::{has, is_assigned, is_written};
use crate::kept_copies::is_kept_copy;
use crate::objects::{are_of_objects, gives_value};
use crate::touching::{are_elsewhere, are_left, is_untouched};
use pks_lcw::Entry;
use pks_query_lookup::derived::Derived;
use pks_query_lookup::five::Five;
use pks_terms::group::Group;
use pks_terms::literal::{Atom, Literal, PredAtom};
use pks_terms::objects::{are_objects, is_object, is_of_objects};
use pks_terms::schema::Effect;
use pks_terms::term::{Term, front};

/// Whether the literal is of a predicate at objects, and known after or written.
fn is_kept_atom(before: &Five, after: &Five, effects: &[Effect], l: &Literal) -> bool
    requires { ArePlaced effects.now }
    ensures { result ≡ (is_of_objects (literal_of l.now) && (has (five_of after.now) (literal_of l.now) || is_written (five_of before.now) (map effect_of effects.now) (literal_of l.now))) }
{
    is_of_objects(l) && (has(after, l) || is_written(before, effects, l))
}

/// Whether the literal is of a place, and this is assigned, or the literal is known after and other places alone are
/// assigned.
fn is_kept_value(before: &Five, after: &Five, effects: &[Effect], l: &Literal) -> bool
    requires { ArePlaced effects.now }
    ensures { result ≡ (gives_value (literal_of l.now).relation (literal_of l.now).arguments && (is_assigned (five_of before.now) (map effect_of effects.now) (left_of (literal_of l.now)) || (has (five_of after.now) (literal_of l.now) && list_all (λ e. is_elsewhere (left_of (literal_of l.now)) e.target) (map effect_of effects.now)))) }
{
    match &l.atom {
        Atom::Pred(_) => false,
        Atom::Eq { left, right } => {
            gives_value(left, right)
                && (is_assigned(before, effects, left)
                    || (has(after, l) && are_elsewhere(left, effects)))
        }
    }
}

/// Whether the literal lasts or is surely changed.
pub(crate) fn is_kept(before: &Derived, after: &Five, effects: &[Effect], l: &Literal) -> bool
    requires { ArePlaced effects.now }
    ensures { result ≡ is_kept (five_of before.now) (five_of after.now) (map effect_of effects.now) (literal_of l.now) }
{
    is_kept_atom(before.five(), after, effects, l)
        || is_kept_value(before.five(), after, effects, l)
        || (is_untouched(effects, l) && has(after, l))
        || is_kept_copy(before, after, effects, l)
}

/// Whether each known literal lasts or is surely changed.
pub(crate) fn literals_last(before: &Derived, after: &Five, effects: &[Effect]) -> bool
    requires { ArePlaced effects.now }
    ensures { result ≡ list_all (is_kept (five_of before.now) (five_of after.now) (map effect_of effects.now)) (literals_of before.now.kf) }
{
    for l in before.five().kf.items() {
        if !is_kept(before, after, effects, l) {
            return false;
        }
    }
    true
}

fn are_spent(d: &Five, ls: &[Literal]) -> bool
    ensures { result ≡ list_all (λ m. has (five_of d.now) m || has (five_of d.now) (negated m)) (literals_in ls.now) }
{
    for l in ls {
        if !(has(d, l) || has(d, &l.negated())) {
            return false;
        }
    }
    true
}

/// Whether the group is one of the databases.
#[tactic(auto, using(crate::proofs::Found::is_group_among))]
pub(crate) fn has_group(d: &Five, g: &Group) -> bool
    ensures { result ≡ list_any (λ h. is_eq (conj_cmp (literals_in g.now) h)) (groups_of d.now.kx) }
{
    d.kx.has(g)
}

/// Whether the group speaks of objects alone.
pub(crate) fn is_group_of_objects(g: &Group) -> bool
    ensures { result ≡ list_all is_of_objects (literals_in g.now) }
{
    are_of_objects(g.as_slice())
}

/// Whether it is known of each literal of the group whether it is true.
fn is_spent(d: &Five, g: &Group) -> bool
    ensures { result ≡ list_all (λ m. has (five_of d.now) m || has (five_of d.now) (negated m)) (literals_in g.now) }
{
    are_spent(d, g.as_slice())
}

/// Whether the group stands after and each effect leaves each of its literals as it is.
fn stands(after: &Five, effects: &[Effect], g: &Group) -> bool
    ensures { result ≡ (list_any (λ h. is_eq (conj_cmp (literals_in g.now) h)) (groups_of after.now.kx) && list_all (is_left (map effect_of effects.now)) (literals_in g.now)) }
{
    has_group(after, g) && are_left(effects, g.as_slice())
}

/// Whether the group stands so, or it is known of each of its literals whether it is true.
fn lasts_as_group(before: &Five, after: &Five, effects: &[Effect], g: &Group) -> bool
    ensures { result ≡ lasts_as_group (five_of before.now) (five_of after.now) (map effect_of effects.now) (literals_in g.now) }
{
    is_group_of_objects(g) && (stands(after, effects, g) || is_spent(before, g))
}

/// Whether so each group.
pub(crate) fn groups_last(before: &Five, after: &Five, effects: &[Effect]) -> bool
    ensures { result ≡ list_all (lasts_as_group (five_of before.now) (five_of after.now) (map effect_of effects.now)) (groups_of before.now.kx) }
{
    for g in before.kx.items() {
        if !lasts_as_group(before, after, effects, g) {
            return false;
        }
    }
    true
}

fn slots_are_objects(slots: &[Option<Term>]) -> bool
    ensures { result ≡ are_objects (fixed_terms (map (option_map term_of) slots.now)) }
{
    for slot in slots {
        if let Some(t) = slot {
            if !is_object(t) {
                return false;
            }
        }
    }
    true
}

#[tactic(auto, using(crate::proofs::Found::all))]
fn atoms_are_of_objects(atoms: &[PredAtom]) -> bool
    ensures { result ≡ are_objects (flat_map (λ a. a.arguments) (atoms_of atoms.now)) }
{
    for a in atoms {
        if !are_objects(front(&a.args, a.n)) {
            return false;
        }
    }
    true
}

/// Whether the region speaks of objects alone.
#[tactic(auto, using(crate::proofs::Found::all))]
fn is_region_of_objects(r: &Entry) -> bool
    ensures { result ≡ are_objects (entry_terms (entry_of r.now)) }
{
    slots_are_objects(front(&r.pattern.args, r.pattern.n))
        && atoms_are_of_objects(r.list.as_slice())
}

/// Whether the region is one of the databases.
#[tactic(auto, using(crate::proofs::Found::is_region_among))]
fn has_region(d: &Five, r: &Entry) -> bool
    ensures { result ≡ list_any (λ q. is_eq (entry_cmp (entry_of r.now) q)) (entries_of d.now.lcw) }
{
    d.lcw.has(r)
}

/// Whether the region speaks of objects alone and stands after.
fn lasts_as_region(after: &Five, r: &Entry) -> bool
    ensures { result ≡ lasts_as_region (five_of after.now) (entry_of r.now) }
{
    is_region_of_objects(r) && has_region(after, r)
}

/// Whether so each region.
pub(crate) fn regions_last(before: &Five, after: &Five) -> bool
    ensures { result ≡ list_all (lasts_as_region (five_of after.now)) (entries_of before.now.lcw) }
{
    for r in before.lcw.items() {
        if !lasts_as_region(after, r) {
            return false;
        }
    }
    true
}
