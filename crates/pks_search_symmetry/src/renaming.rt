//! Images by a renaming, which is a list that has for each object the one in its place; an object past its end stays.

ghost use Rattle.std.specs.Prelude.{◌≡◌, ◌≤◌, ◌+◌, ℕ, IfOk, IsTrue, map, take, length, option_map};
ghost use Rattle.pks_terms.specs.Sets.{added, set_of};
ghost use Rattle.pks_terms.specs.Orders.{literal_cmp, atom_cmp};
ghost use Rattle.pks_terms.specs.Views.{object_of, inner_of, term_of, arguments_in, literal_of, literals_in, conj_of, atom_of, pattern_of, instance_of, query_of};
ghost use Rattle.pks_lcw.specs.Entries.{atoms_of, entry_of};
ghost use Rattle.pks_laws_symmetry.specs.Renamed.{renamed_inner, renamed_term, renamed_literal, renamed_conj, renamed_group, renamed_atom, renamed_pattern, renamed_entry, renamed_instance, renamed_query};
ghost use Rattle.pks_search_symmetry.specs.Renaming.{image_by};

use pks_lcw::{AtomSet, Entry};
use pks_terms::group::{Group, put_in_order};
use pks_terms::ids::ObjId;
use pks_terms::literal::{Arguments, Conj, Literal, Pattern, PredAtom};
use pks_terms::schema::{Instance, Query};
use pks_terms::term::{Inner, Term, front};
use std::alloc::{AllocError, Global};

/// The object in the place of this one.
pub(crate) fn object(to: &[ObjId], d: ObjId) -> ObjId
    ensures { object_of result ≡ image_by to.now (object_of d) }
{
    match to.get(usize::from(d.0)) {
        Some(e) => *e,
        None => d,
    }
}

fn objects(to: &[ObjId], ds: &[ObjId; 2]) -> [ObjId; 2]
    ensures { (n : ℕ) → map object_of (take n result) ≡ map (image_by to.now) (map object_of (take n ds.now)) }
{
    [object(to, ds[0]), object(to, ds[1])]
}

/// The argument with the images of its objects.
pub(crate) fn inner(to: &[ObjId], t: &Inner) -> Inner
    ensures { inner_of result ≡ renamed_inner (image_by to.now) (inner_of t.now) }
{
    match t {
        Inner::Obj(d) => Inner::Obj(object(to, *d)),
        Inner::Param(_) => *t,
        Inner::App { fun, n, args } => Inner::App {
            fun: *fun,
            n: *n,
            args: objects(to, args),
        },
    }
}

fn inners(to: &[ObjId], ts: &[Inner; 2]) -> [Inner; 2]
    ensures { (n : ℕ) → map inner_of (take n result) ≡ map (renamed_inner (image_by to.now)) (map inner_of (take n ts.now)) }
{
    [inner(to, &ts[0]), inner(to, &ts[1])]
}

/// The term with the images of its objects.
pub(crate) fn term(to: &[ObjId], t: &Term) -> Term
    ensures { term_of result ≡ renamed_term (image_by to.now) (term_of t.now) }
{
    match t {
        Term::Obj(d) => Term::Obj(object(to, *d)),
        Term::Param(_) => *t,
        Term::App { fun, n, args } => Term::App {
            fun: *fun,
            n: *n,
            args: inners(to, args),
        },
    }
}

fn terms(to: &[ObjId], ts: &[Term; 3]) -> [Term; 3]
    ensures { (n : ℕ) → map term_of (take n result) ≡ map (renamed_term (image_by to.now)) (map term_of (take n ts.now)) }
{
    [term(to, &ts[0]), term(to, &ts[1]), term(to, &ts[2])]
}

fn arguments(to: &[ObjId], given: &Arguments) -> Arguments
    ensures count { result.n ≡ given.now.n }
    ensures terms { arguments_in result ≡ map (renamed_term (image_by to.now)) (arguments_in given.now) }
{
    Arguments {
        n: given.n,
        items: terms(to, &given.items),
    }
}

/// The literal's image, the sides of an equation in order again.
#[tactic(auto, unfolding(pks_laws_symmetry::specs::Renamed::renamed_literal))]
pub(crate) fn literal(to: &[ObjId], l: &Literal) -> Literal
    ensures { literal_of result ≡ renamed_literal (image_by to.now) (literal_of l.now) }
{
    let arguments = arguments(to, &l.atom.arguments());
    l.atom.with(&arguments, l.positive)
}

/// The set with the images of these literals put in. It asks that there is room.
fn with_images(to: &[ObjId], all: Conj, ls: &[Literal]) -> Conj
    requires { all.n + length ls.now ≤ 4 }
    ensures { conj_of result ≡ added literal_cmp (conj_of all) (map (renamed_literal (image_by to.now)) (literals_in ls.now)) }
{
    match ls {
        [] => all,
        [l, ls @ ..] => with_images(to, all.with(&literal(to, l)), ls),
    }
}

/// The set of the images.
pub(crate) fn conj(to: &[ObjId], c: &Conj) -> Conj
    ensures { conj_of result ≡ renamed_conj (image_by to.now) (conj_of c.now) }
{
    with_images(to, Conj::empty(), front(&c.literals, c.n))
}

/// The images in order. The error is want of memory.
pub(crate) fn group(alloc: Global, to: &[ObjId], g: &Group) -> Result<Group, AllocError>
    ensures { IfOk result (λ image. literals_in image ≡ renamed_group (image_by to.now) (literals_in g.now)) }
{
    let mut all = Vec::new(alloc);
    for l in g.as_slice() {
        put_in_order(&mut all, literal(to, l))?;
    }
    let image = Group::of(alloc, all.as_slice())?;
    Ok(image)
}

fn atom(to: &[ObjId], a: &PredAtom) -> PredAtom
    ensures { atom_of result ≡ renamed_atom (image_by to.now) (atom_of a.now) }
{
    PredAtom {
        pred: a.pred,
        n: a.n,
        args: terms(to, &a.args),
    }
}

fn slot(to: &[ObjId], slot: Option<Term>) -> Option<Term>
    ensures { option_map term_of result ≡ option_map (renamed_term (image_by to.now)) (option_map term_of slot) }
{
    match slot {
        Some(t) => Some(term(to, &t)),
        None => None,
    }
}

fn slots(to: &[ObjId], slots: &[Option<Term>; 3]) -> [Option<Term>; 3]
    ensures { (n : ℕ) → map (option_map term_of) (take n result) ≡ map (option_map (renamed_term (image_by to.now))) (map (option_map term_of) (take n slots.now)) }
{
    [slot(to, slots[0]), slot(to, slots[1]), slot(to, slots[2])]
}

fn pattern(to: &[ObjId], x: &Pattern) -> Pattern
    ensures { pattern_of result ≡ renamed_pattern (image_by to.now) (pattern_of x.now) }
{
    Pattern {
        pred: x.pred,
        n: x.n,
        args: slots(to, &x.args),
    }
}

#[tactic(auto, using(pks_query_lookup::proofs::Lists::read))]
fn atoms(alloc: Global, to: &[ObjId], list: &[PredAtom]) -> Result<Vec<PredAtom>, AllocError>
    ensures { IfOk result (λ v. atoms_of v.items ≡ map (renamed_atom (image_by to.now)) (atoms_of list.now)) }
{
    let mut all = Vec::new(alloc);
    for a in list {
        all.push(atom(to, a))?;
    }
    Ok(all)
}

/// The list of the images: equal ones merge.
fn image_list(alloc: Global, to: &[ObjId], list: &AtomSet) -> Result<AtomSet, AllocError>
    ensures { IfOk result (λ set. atoms_of set ≡ set_of atom_cmp (map (renamed_atom (image_by to.now)) (atoms_of list.now))) }
{
    let members = list.as_slice();
    let all = atoms(alloc, to, members)?;
    let set = AtomSet::of(alloc, all)?;
    Ok(set)
}

/// The region's image. The error is want of memory.
pub(crate) fn region(alloc: Global, to: &[ObjId], r: &Entry) -> Result<Entry, AllocError>
    ensures { IfOk result (λ image. entry_of image ≡ renamed_entry (image_by to.now) (entry_of r.now)) }
{
    let pattern = pattern(to, &r.pattern);
    let list = image_list(alloc, to, &r.list)?;
    Ok(Entry { pattern, list })
}

#[tactic(auto, using(crate::proofs::Going::inner_tied))]
fn is_inner(to: &[ObjId], t: &Inner, u: &Inner) -> bool
    ensures { IsTrue result → renamed_inner (image_by to.now) (inner_of t.now) ≡ inner_of u.now }
{
    inner(to, t) == *u
}

fn are_inners(to: &[ObjId], ts: &[Inner], us: &[Inner]) -> bool
    ensures { IsTrue result → map (renamed_inner (image_by to.now)) (map inner_of ts.now) ≡ map inner_of us.now }
{
    match ts {
        [] => match us {
            [] => true,
            [_, ..] => false,
        },
        [t, ts @ ..] => match us {
            [] => false,
            [u, us @ ..] => is_inner(to, t, u) && are_inners(to, ts, us),
        },
    }
}

/// Whether the second instance is the image of the first.
pub(crate) fn is_instance(to: &[ObjId], i: &Instance, j: &Instance) -> bool
    ensures { IsTrue result → renamed_instance (image_by to.now) (instance_of i.now) ≡ instance_of j.now }
{
    i.act.0 == j.act.0 && are_inners(to, front(&i.args, i.n), front(&j.args, j.n))
}

/// The query's image.
pub(crate) fn query(to: &[ObjId], q: &Query) -> Query
    ensures { query_of result ≡ renamed_query (image_by to.now) (query_of q.now) }
{
    match q {
        Query::K(l) => Query::K(literal(to, l)),
        Query::Kw(c) => Query::Kw(conj(to, c)),
        Query::Kv(t) => Query::Kv(term(to, t)),
        Query::NotK(l) => Query::NotK(literal(to, l)),
        Query::NotKw(c) => Query::NotKw(conj(to, c)),
        Query::NotKv(t) => Query::NotKv(term(to, t)),
    }
}
