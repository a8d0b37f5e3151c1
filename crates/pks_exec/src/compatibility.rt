//! Whether a world is one in which a problem may begin.
ghost use Rattle.std.specs.Prelude.{◌≡◌, ◌≤◌, ◌<◌, ◌+◌, ◌^◌, ◌↔◌, ℕ, [], ◌∷◌, ◌++◌, map, length, option_map, Some, None, IsTrue, IsNone, IfSome};
ghost use Rattle.std.specs.List.{list_any};
ghost use Rattle.pks_terms.specs.declared.limits.TheConstants.{MOST_OBJECTS};
ghost use Rattle.pks_terms.specs.Sets.{Each, exactly_one};
ghost use Rattle.pks_terms.specs.Syntax.{affirmed};
ghost use Rattle.pks_terms.specs.Worlds.{value_of, true_in};
ghost use Rattle.pks_terms.specs.Databases.{same_objects};
ghost use Rattle.pks_terms.specs.Meaning.{IsWorld, Meets};
ghost use Rattle.pks_terms.specs.Problems.{initial_entry, initial, IsCompatible};
ghost use Rattle.pks_terms.specs.Answers.{Keeps, IsFirstBroken};
ghost use Rattle.pks_terms.specs.Views.{term_of, terms_of, atom_of, literal_of, literals_in, pattern_of, start_of, signature_of, problem_of};
ghost use Rattle.pks_world.specs.Contents.{world_of};
ghost use Rattle.pks_world.specs.Few.{few_of};
ghost use Rattle.pks_exec.specs.Instances.{is_value, lists, is_listed, is_told, is_region, all_instances};

use pks_terms::ids::{ItemNo, ObjId, PredId};
use pks_terms::literal::{Atom, Literal, Pattern, PredAtom, positive_literal};
use pks_terms::problem::{Init, InitItem, Problem};
use pks_terms::term::{Term, front};
use pks_world::{Few, World};

/// Whether the terms have the same values, one by one.
fn same_values(w: &World, ts: &[Term], us: &[Term]) -> bool
    ensures { result ≡ same_objects (map (value_of (world_of w.now)) (terms_of ts.now)) (map (value_of (world_of w.now)) (terms_of us.now)) }
{
    match ts {
        [] => us.is_empty(),
        [t, ts @ ..] => match us {
            [] => false,
            [u, us @ ..] => w.value(t) == w.value(u) && same_values(w, ts, us),
        },
    }
}

/// Whether the literal is an atom with the same value as this one.
fn is_value(w: &World, l: &Literal, a: &PredAtom) -> bool
    ensures { result ≡ is_value (world_of w.now) a.now.pred.0 (map (value_of (world_of w.now)) (atom_of a.now).arguments) (literal_of l.now) }
{
    match &l.atom {
        Atom::Pred(b) => {
            b.pred == a.pred
                && l.positive
                && same_values(w, front(&b.args, b.n), front(&a.args, a.n))
        }
        Atom::Eq { .. } => false,
    }
}

/// Whether the item says that an atom with the same value is true.
fn lists(w: &World, start: &Init, a: &PredAtom) -> bool
    ensures { result ≡ lists (world_of w.now) a.now.pred.0 (map (value_of (world_of w.now)) (atom_of a.now).arguments) (start_of start.now) }
{
    match start {
        Init::Kf(l) => is_value(w, l, a),
        Init::Kw(_) | Init::Kv(_) | Init::Kx(_) | Init::Lcw(_) => false,
    }
}

/// Whether some initial item does.
fn is_listed(p: &Problem<'_>, w: &World, a: &PredAtom) -> bool
    ensures { result ≡ is_listed (problem_of p.now) (world_of w.now) a.now.pred.0 (map (value_of (world_of w.now)) (atom_of a.now).arguments) }
{
    for item in p.init.as_slice() {
        if lists(w, &item.start, a) {
            return true;
        }
    }
    false
}

/// Whether the predicate isn't true of the objects, or some initial item says that it is.
fn is_told(p: &Problem<'_>, w: &World, pred: PredId, objects: &Few) -> bool
    ensures { result ≡ is_told (problem_of p.now) (world_of w.now) pred.0 (few_of objects.now) }
{
    let a = objects.atom(pred);
    !w.holds(&positive_literal(&a)) || is_listed(p, w, &a)
}

/// Whether each true instance of the slots behind these objects is told of.
#[cycle(instances)]
fn tells_all(
    p: &Problem<'_>,
    w: &World,
    pred: PredId,
    slots: &[Option<Term>],
    objects: &Few,
) -> bool
    requires objects { length p.now.signature.objects ≤ MOST_OBJECTS }
    requires few { objects.now.n + length slots.now ≤ 3 }
    ensures { result ≡ all_instances (world_of w.now) (length p.now.signature.objects) (is_told (problem_of p.now) (world_of w.now) pred.0) (few_of objects.now) (map (option_map term_of) slots.now) }
{
    match slots {
        [] => is_told(p, w, pred, objects),
        [slot, rest @ ..] => match slot {
            Some(t) => tells_all(p, w, pred, rest, &objects.with(w.value(t))),
            None => tells_each(p, w, pred, rest, objects),
        },
    }
}

/// Whether each true instance of the slots behind these objects and one more is told of.
#[cycle(instances)]
fn tells_each(
    p: &Problem<'_>,
    w: &World,
    pred: PredId,
    slots: &[Option<Term>],
    objects: &Few,
) -> bool
    requires objects { length p.now.signature.objects ≤ MOST_OBJECTS }
    requires few { objects.now.n + 1 + length slots.now ≤ 3 }
    ensures { result ≡ all_instances (world_of w.now) (length p.now.signature.objects) (is_told (problem_of p.now) (world_of w.now) pred.0) (few_of objects.now) (None ∷ map (option_map term_of) slots.now) }
{
    for d in 0..p.signature.objects.len() {
        if !tells_all(p, w, pred, slots, &objects.with(ObjId(d as u16))) {
            return false;
        }
    }
    true
}

/// The slots in use.
fn slots_in(x: &Pattern) -> &[Option<Term>]
    ensures slots { map (option_map term_of) result.now ≡ (pattern_of x.now).slots }
    ensures few { length result.now ≤ 3 }
{
    front(&x.args, x.n)
}

/// Whether each true instance of the pattern is the value of an atom that the start says to be true.
fn meets(p: &Problem<'_>, w: &World, x: &Pattern) -> bool
    requires { length p.now.signature.objects ≤ MOST_OBJECTS }
    ensures { IsWorld (signature_of p.now.signature) (world_of w.now) → IsTrue result ↔ Meets (world_of w.now) (initial_entry (initial (problem_of p.now)).kf (pattern_of x.now)) }
{
    tells_all(p, w, x.pred, slots_in(x), &Few::none())
}

/// Whether some literal is true.
fn some_holds(w: &World, literals: &[Literal]) -> bool
    ensures { result ≡ list_any (true_in (world_of w.now)) (literals_in literals.now) }
{
    for l in literals {
        if w.holds(l) {
            return true;
        }
    }
    false
}

/// Whether exactly one literal is true, literals counted by place.
fn one_holds(w: &World, literals: &[Literal]) -> bool
    ensures { result ≡ exactly_one (true_in (world_of w.now)) (literals_in literals.now) }
{
    for (k, l) in literals.iter().enumerate() {
        if w.holds(l) {
            return !some_holds(w, &literals[k + 1..]);
        }
    }
    false
}

/// Whether the world keeps the initial item.
fn keeps(p: &Problem<'_>, w: &World, start: &Init) -> bool
    requires { length p.now.signature.objects ≤ MOST_OBJECTS }
    ensures { IsWorld (signature_of p.now.signature) (world_of w.now) → IsTrue result ↔ Keeps (problem_of p.now) (world_of w.now) (start_of start.now) }
{
    match start {
        Init::Kf(l) => w.holds(l),
        Init::Kw(_) | Init::Kv(_) => true,
        Init::Kx(group) => one_holds(w, group.as_slice()),
        Init::Lcw(x) => meets(p, w, x),
    }
}

/// Whether the item is the region of this pattern.
fn is_region(x: &Pattern, start: &Init) -> bool
    ensures { result ≡ is_region (pattern_of x.now) (start_of start.now) }
{
    match start {
        Init::Lcw(y) => *y == *x,
        Init::Kf(_) | Init::Kw(_) | Init::Kv(_) | Init::Kx(_) => false,
    }
}

/// Whether some item is.
fn has_region(x: &Pattern, items: &[InitItem]) -> bool
    ensures { result ≡ list_any (is_region (pattern_of x.now)) (map (λ i. start_of i.start) items.now) }
{
    for item in items {
        if is_region(x, &item.start) {
            return true;
        }
    }
    false
}

/// Whether the world keeps the initial item, where it keeps those before it. A region that stands there already isn't looked at
/// again.
fn keeps_next(p: &Problem<'_>, w: &World, before: &[InitItem], start: &Init) -> bool
    requires { length p.now.signature.objects ≤ MOST_OBJECTS }
    ensures { IsWorld (signature_of p.now.signature) (world_of w.now) → Each (Keeps (problem_of p.now) (world_of w.now)) (map (λ i. start_of i.start) before.now) → IsTrue result ↔ Keeps (problem_of p.now) (world_of w.now) (start_of start.now) }
{
    match start {
        Init::Lcw(x) => has_region(x, before) || keeps(p, w, start),
        Init::Kf(_) | Init::Kw(_) | Init::Kv(_) | Init::Kx(_) => keeps(p, w, start),
    }
}

/// The first initial item that the world breaks, the items counted from 1 as written: a literal that is false, a group of which not exactly
/// one literal is true, a region that the world doesn't meet. There is none exactly where the world is compatible. It asks that objects and
/// items can be numbered, and says this of worlds of the signature. It takes no memory. `docs/RULES.md`, databases.
pub fn compatible(p: &Problem<'_>, w: &World) -> Option<ItemNo>
    requires objects { length p.now.signature.objects ≤ MOST_OBJECTS }
    requires numbered { length p.now.init < 2 ^ 32 }
    ensures first { IsWorld (signature_of p.now.signature) (world_of w.now) → IfSome result (λ n. IsFirstBroken (problem_of p.now) (world_of w.now) (problem_of p.now).init 1 n.0) }
    ensures only { IsWorld (signature_of p.now.signature) (world_of w.now) → (n : ℕ) → IsFirstBroken (problem_of p.now) (world_of w.now) (problem_of p.now).init 1 n → option_map (λ i. i.0) result ≡ Some n }
    ensures none { IsWorld (signature_of p.now.signature) (world_of w.now) → IsNone result ↔ IsCompatible (problem_of p.now) (world_of w.now) }
{
    let items = p.init.as_slice();
    for (k, item) in items.iter().enumerate() {
        if !keeps_next(p, w, &items[..k], &item.start) {
            return Some(ItemNo(k as u32 + 1));
        }
    }
    None
}
