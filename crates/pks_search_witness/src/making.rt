//! Making worlds in which a problem may begin.
ghost use Rattle.std.specs.Prelude.{◌≤◌, ◌+◌, length, OnOk, IfOk, IfSome};
ghost use Rattle.pks_terms.specs.declared.limits.TheConstants.{MOST_OBJECTS};
ghost use Rattle.pks_terms.specs.Sets.{Each};
ghost use Rattle.pks_terms.specs.Problems.{IsCompatible};
ghost use Rattle.pks_terms.specs.ValidProblems.{IsValidProblem};
ghost use Rattle.pks_terms.specs.Views.{signature_of, problem_of};
ghost use Rattle.pks_world.specs.Contents.{world_of};
ghost use Rattle.pks_world.specs.First.{IsWorldOf};

use crate::puttings::{put, put_atom, put_value};
use pks_exec::compatible;
use pks_terms::ids::ObjId;
use pks_terms::literal::{Atom, Literal, equation};
use pks_terms::problem::{Aim, Init, Problem};
use pks_terms::schema::Query;
use pks_terms::term::{Term, front};
use pks_world::World;
use std::alloc::{AllocError, Global};

/// How many worlds are made at most.
const MOST_WORLDS: usize = 4;

/// How many initial items a problem may have for a witness to be made.
const MOST_ITEMS: usize = 500;

/// How many objects.
const FEW_OBJECTS: usize = 256;

/// How many places a signature may have, since each action copies the world.
const MOST_PLACES: u64 = 500;

/// How a world is made: which of the values and members that serve is taken, and whether one that the goal asks for serves.
#[derive(Clone, Copy)]
pub(crate) struct Making {
    pub(crate) turn: usize,
    pub(crate) shuns: bool,
}

/// How many places there are.
fn count_places(alloc: Global, p: &Problem<'_>) -> Result<u64, AllocError>
    requires { length p.now.signature.objects ≤ MOST_OBJECTS }
{
    let mut all: u64 = 0;
    for shape in p.signature.functions.as_slice() {
        let mut own: u64 = 1;
        for of in front(&shape.args, shape.n) {
            let objects = p.signature.objects_of(alloc, *of)?;
            own = own.saturating_mul(objects.len() as u64);
        }
        all = all.saturating_add(own);
    }
    Ok(all)
}

/// Whether the literal is an initial one.
fn is_known(p: &Problem<'_>, l: &Literal) -> bool {
    for item in p.init.as_slice() {
        if let Init::Kf(k) = &item.start {
            if *k == *l {
                return true;
            }
        }
    }
    false
}

/// The literal that an aim asks for at the end.
fn literal_asked(a: &Aim) -> Option<Literal> {
    match a {
        Aim::Now(Query::K(l)) => Some(*l),
        _ => None,
    }
}

/// Whether the goal asks for the literal.
fn is_asked(p: &Problem<'_>, l: &Literal) -> bool {
    for a in p.goal.as_slice() {
        if let Some(k) = literal_asked(a) {
            if k == *l {
                return true;
            }
        }
    }
    false
}

/// Whether the goal asks for some literal at the end.
fn asks_some(p: &Problem<'_>) -> bool {
    for a in p.goal.as_slice() {
        if literal_asked(a).is_some() {
            return true;
        }
    }
    false
}

/// Makes the initial equations true.
fn put_equations(p: &Problem<'_>, w: &mut World) -> Result<(), AllocError>
    requires { IsWorldOf (signature_of p.now.signature) w.old }
    ensures { OnOk result (IsWorldOf (signature_of p.now.signature) w.new) }
{
    for item in p.init.as_slice() {
        if let Init::Kf(l) = &item.start {
            if let Atom::Eq { .. } = &l.atom {
                put(p, l, w)?;
            }
        }
    }
    Ok(())
}

/// Makes the initial atoms true.
fn put_atoms(p: &Problem<'_>, w: &mut World) -> Result<(), AllocError>
    requires { IsWorldOf (signature_of p.now.signature) w.old }
    ensures { OnOk result (IsWorldOf (signature_of p.now.signature) w.new) }
{
    for item in p.init.as_slice() {
        if let Init::Kf(l) = &item.start {
            if let Atom::Pred(_) = &l.atom {
                put(p, l, w)?;
            }
        }
    }
    Ok(())
}

/// Whether the place may have the value, as far as initial literals and, where it shuns the goal, the goal's say.
fn may_have(p: &Problem<'_>, at: &Term, d: ObjId, shuns: bool) -> bool {
    let value = Term::Obj(d);
    !is_known(p, &equation(at, &value, false))
        && !(shuns && is_asked(p, &equation(at, &value, true)))
}

/// Gives the place the first value that it may have, or one that is as many further as the turn says, or else the last.
fn give_other(p: &Problem<'_>, at: &Term, way: Making, w: &mut World)
    requires objects { length p.now.signature.objects ≤ MOST_OBJECTS }
    requires world { IsWorldOf (signature_of p.now.signature) w.old }
    ensures { IsWorldOf (signature_of p.now.signature) w.new }
{
    let mut skips = way.turn;
    for d in 0..p.signature.objects.len() {
        let d = ObjId(d as u16);
        if may_have(p, at, d, way.shuns) {
            put_value(p, at, &Term::Obj(d), w);
            if w.value(at) == d {
                if skips == 0 {
                    return;
                }
                skips -= 1;
            }
        }
    }
}

/// Gives the place of the equation, where that is denied and yet true, another value.
fn turn_away(p: &Problem<'_>, l: &Literal, way: Making, w: &mut World)
    requires objects { length p.now.signature.objects ≤ MOST_OBJECTS }
    requires world { IsWorldOf (signature_of p.now.signature) w.old }
    ensures { IsWorldOf (signature_of p.now.signature) w.new }
{
    if let Atom::Eq { left, .. } = &l.atom {
        if !l.positive && !w.holds(l) {
            give_other(p, left, way, w);
        }
    }
}

/// Gives each place that has a value which is denied another one.
fn turn_away_all(p: &Problem<'_>, way: Making, w: &mut World)
    requires objects { length p.now.signature.objects ≤ MOST_OBJECTS }
    requires world { IsWorldOf (signature_of p.now.signature) w.old }
    ensures { IsWorldOf (signature_of p.now.signature) w.new }
{
    for item in p.init.as_slice() {
        if let Init::Kf(l) = &item.start {
            turn_away(p, l, way, w);
        }
    }
}

/// Makes the goal's literal false, where it is true and isn't an initial one.
fn shun(p: &Problem<'_>, l: &Literal, way: Making, w: &mut World) -> Result<(), AllocError>
    requires objects { length p.now.signature.objects ≤ MOST_OBJECTS }
    requires world { IsWorldOf (signature_of p.now.signature) w.old }
    ensures { OnOk result (IsWorldOf (signature_of p.now.signature) w.new) }
{
    if is_known(p, l) || !w.holds(l) {
        return Ok(());
    }
    match &l.atom {
        Atom::Pred(a) => {
            if !l.positive {
                put_atom(p, a, w)?;
            }
        }
        Atom::Eq { left, right } => {
            if l.positive {
                give_other(p, left, way, w);
            } else {
                put_value(p, left, right, w);
            }
        }
    }
    Ok(())
}

/// Makes the goal's literals false where that is easy.
fn shun_goal(p: &Problem<'_>, way: Making, w: &mut World) -> Result<(), AllocError>
    requires objects { length p.now.signature.objects ≤ MOST_OBJECTS }
    requires world { IsWorldOf (signature_of p.now.signature) w.old }
    ensures { OnOk result (IsWorldOf (signature_of p.now.signature) w.new) }
{
    for a in p.goal.as_slice() {
        if let Some(l) = literal_asked(a) {
            shun(p, &l, way, w)?;
        }
    }
    Ok(())
}

/// Makes the first of the literals true that may be.
fn put_first(
    p: &Problem<'_>,
    literals: &[Literal],
    shuns: bool,
    w: &mut World,
) -> Result<bool, AllocError>
    requires { IsWorldOf (signature_of p.now.signature) w.old }
    ensures { OnOk result (IsWorldOf (signature_of p.now.signature) w.new) }
{
    for l in literals {
        if !is_known(p, &l.negated()) && !(shuns && is_asked(p, l)) {
            put(p, l, w)?;
            if w.holds(l) {
                return Ok(true);
            }
        }
    }
    Ok(false)
}

/// Makes the first literal of the group true that may be, those from the place on coming before the others.
fn put_from(
    p: &Problem<'_>,
    group: &[Literal],
    place: usize,
    shuns: bool,
    w: &mut World,
) -> Result<bool, AllocError>
    requires place { place ≤ length group.now }
    requires world { IsWorldOf (signature_of p.now.signature) w.old }
    ensures { OnOk result (IsWorldOf (signature_of p.now.signature) w.new) }
{
    if put_first(p, &group[place..], shuns, w)? {
        return Ok(true);
    }
    put_first(p, &group[..place], shuns, w)
}

/// Whether some literal is true.
fn some_holds(w: &World, literals: &[Literal]) -> bool {
    for l in literals {
        if w.holds(l) {
            return true;
        }
    }
    false
}

/// Makes one literal of the group true, where none is: those from the place on come before the others.
fn put_one(
    p: &Problem<'_>,
    group: &[Literal],
    place: usize,
    shuns: bool,
    w: &mut World,
) -> Result<(), AllocError>
    requires place { place ≤ length group.now }
    requires world { IsWorldOf (signature_of p.now.signature) w.old }
    ensures { OnOk result (IsWorldOf (signature_of p.now.signature) w.new) }
{
    if some_holds(w, group) {
        return Ok(());
    }
    let is_put = put_from(p, group, place, shuns, w)?;
    if !is_put {
        put_from(p, group, place, false, w)?;
    }
    Ok(())
}

/// The place in the group, which has so many before it, at which the choice begins: each turn begins further on in later groups.
fn place_in(group: &[Literal], turn: usize, before: usize) -> usize
    ensures { result ≤ length group.now }
{
    if group.is_empty() {
        return 0;
    }
    turn.saturating_mul(before.saturating_add(1)) % group.len()
}

/// Makes one literal of each group true of which none is.
fn put_groups(p: &Problem<'_>, way: Making, w: &mut World) -> Result<(), AllocError>
    requires { IsWorldOf (signature_of p.now.signature) w.old }
    ensures { OnOk result (IsWorldOf (signature_of p.now.signature) w.new) }
{
    let mut before: usize = 0;
    for item in p.init.as_slice() {
        if let Init::Kx(group) = &item.start {
            let literals = group.as_slice();
            put_one(
                p,
                literals,
                place_in(literals, way.turn, before),
                way.shuns,
                w,
            )?;
            before = before.saturating_add(1);
        }
    }
    Ok(())
}

/// A world made from what is known at the start, the goal being false in it where it shuns it and that is easy, and the literal true,
/// where there is one.
fn make_world(
    alloc: Global,
    p: &Problem<'_>,
    way: Making,
    also: &Option<Literal>,
) -> Result<World, AllocError>
    requires { IsValidProblem p.now }
    ensures { IfOk result (IsWorldOf (signature_of p.now.signature)) }
{
    let mut w = World::first(alloc, p)?;
    put_equations(p, &mut w)?;
    turn_away_all(p, way, &mut w);
    if way.shuns {
        shun_goal(p, way, &mut w)?;
    }
    put_atoms(p, &mut w)?;
    if let Some(l) = also {
        put(p, l, &mut w)?;
    }
    put_groups(p, way, &mut w)?;
    Ok(w)
}

/// Such a world, where the problem may begin in it.
fn make_compatible(
    alloc: Global,
    p: &Problem<'_>,
    way: Making,
    also: &Option<Literal>,
) -> Result<Option<World>, AllocError>
    requires { IsValidProblem p.now }
    ensures { IfOk result (λ o. IfSome o (λ w. IsCompatible (problem_of p.now) (world_of w))) }
{
    let w = make_world(alloc, p, way, also)?;
    if compatible(p, &w).is_none() {
        return Ok(Some(w));
    }
    Ok(None)
}

/// The world of the turn in which the goal is false where that is easily so, or else one where it may be true, or none. The literal
/// is made true, where there is one and that is easy.
pub(crate) fn found_by(
    alloc: Global,
    p: &Problem<'_>,
    turn: usize,
    also: &Option<Literal>,
) -> Result<Option<World>, AllocError>
    requires { IsValidProblem p.now }
    ensures { IfOk result (λ o. IfSome o (λ w. IsCompatible (problem_of p.now) (world_of w))) }
{
    match make_compatible(alloc, p, Making { turn, shuns: true }, also)? {
        Some(w) => Ok(Some(w)),
        None => make_compatible(alloc, p, Making { turn, shuns: false }, also),
    }
}

/// Whether the world is one of these.
fn is_among(worlds: &[World], w: &World) -> bool {
    for x in worlds {
        if x.same(w) {
            return true;
        }
    }
    false
}

/// Adds the world of the turn, if there is one and it isn't there yet.
fn add_found(
    alloc: Global,
    p: &Problem<'_>,
    turn: usize,
    worlds: &mut Vec<World>,
) -> Result<(), AllocError>
    requires valid { IsValidProblem p.now }
    requires compatible { Each (λ w. IsCompatible (problem_of p.now) (world_of w)) worlds.old.items }
    ensures compatible { OnOk result (Each (λ w. IsCompatible (problem_of p.now) (world_of w)) worlds.new.items) }
    ensures few { OnOk result (length worlds.new.items ≤ length worlds.old.items + 1) }
{
    let Some(w) = found_by(alloc, p, turn, &None)? else {
        return Ok(());
    };
    if is_among(worlds.as_slice(), &w) {
        return Ok(());
    }
    worlds.push(w)?;
    Ok(())
}

/// Whether the problem isn't too large for worlds of it to be taken along.
pub(crate) fn is_small(alloc: Global, p: &Problem<'_>) -> Result<bool, AllocError>
    requires { length p.now.signature.objects ≤ MOST_OBJECTS }
{
    if p.init.len() > MOST_ITEMS || p.signature.objects.len() > FEW_OBJECTS {
        return Ok(false);
    }
    let places = count_places(alloc, p)?;
    Ok(places <= MOST_PLACES)
}

/// At most four worlds in which the problem may begin, as different as they are quickly made, or none where none was found quickly, or
/// they are no use. The goal is false in them where that is easily so. It asks for a valid problem. The error is want of memory.
pub fn witnesses_of(alloc: Global, p: &Problem<'_>) -> Result<Vec<World>, AllocError>
    requires { IsValidProblem p.now }
    ensures compatible { IfOk result (λ ws. Each (λ w. IsCompatible (problem_of p.now) (world_of w)) ws.items) }
    ensures few { IfOk result (λ ws. length ws.items ≤ 4) }
{
    let mut worlds = Vec::new(alloc);
    if !asks_some(p) || !is_small(alloc, p)? {
        return Ok(worlds);
    }
    for turn in 0..MOST_WORLDS {
        add_found(alloc, p, turn, &mut worlds)?;
    }
    Ok(worlds)
}
