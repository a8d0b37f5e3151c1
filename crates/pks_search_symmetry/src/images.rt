//! Whether databases and histories are each other's images but for literals that hold anyway.

ghost use Rattle.std.specs.Prelude.{◌≡◌, ◌≤◌, true, [], ◌∷◌, length, drop, IfOk};
ghost use Rattle.std.specs.List.{list_all};
ghost use Rattle.pks_terms.specs.Syntax.{Equality};
ghost use Rattle.pks_terms.specs.Orders.{literal_cmp};
ghost use Rattle.pks_terms.specs.Views.{term_of, terms_of, literal_of, literals_in, conj_of};
ghost use Rattle.pks_kf.specs.Known.{literals_of};
ghost use Rattle.pks_kw.specs.Formulas.{formulas_of};
ghost use Rattle.pks_kx.specs.Groups.{groups_of};
ghost use Rattle.pks_lcw.specs.Entries.{entry_of, entries_of};
ghost use Rattle.pks_query_lookup.specs.Fives.{five_of};
ghost use Rattle.pks_laws_symmetry.specs.Trivial.{is_so, is_trivial};
ghost use Rattle.pks_laws_symmetry.specs.Renamed.{renamed_literal, GoesTo, AreImages, AreImageSteps, AreImagesAlong};
ghost use Rattle.pks_search_symmetry.specs.Renaming.{image_by};
ghost use Rattle.pks_search_symmetry.specs.Going.{is_one_of, literal_goes, formula_goes, value_goes, group_goes, region_goes, all_go};

use crate::renaming::{conj, group, is_instance, literal, region, term};
use pks_history::histories::History;
use pks_lcw::Entry;
use pks_query_lookup::five::Five;
use pks_terms::group::Group;
use pks_terms::ids::ObjId;
use pks_terms::literal::{Atom, Conj, Literal};
use pks_terms::term::Term;
use std::alloc::{AllocError, Global};

fn is_so(t: &Term, u: &Term, positive: bool) -> bool
    ensures { result ≡ is_so Equality (term_of t.now ∷ term_of u.now ∷ []) positive }
{
    match t {
        Term::Param(_) | Term::App { .. } => false,
        Term::Obj(d) => match u {
            Term::Param(_) | Term::App { .. } => false,
            Term::Obj(e) => { if positive { d.0 == e.0 } else { !(d.0 == e.0) } }
        },
    }
}

/// Whether the literal holds anyway: an object is itself, or isn't another one.
pub(crate) fn is_trivial(l: &Literal) -> bool
    ensures { result ≡ is_trivial (literal_of l.now) }
{
    match &l.atom {
        Atom::Pred(_) => false,
        Atom::Eq { left, right } => is_so(left, right, l.positive),
    }
}

fn has_image(to: &[ObjId], e: &Five, l: &Literal) -> bool
    ensures { result ≡ is_one_of literal_cmp (renamed_literal (image_by to.now) (literal_of l.now)) (five_of e.now).kf }
{
    e.kf.has(&literal(to, l))
}

fn literal_goes(to: &[ObjId], e: &Five, l: &Literal) -> bool
    ensures { result ≡ literal_goes (image_by to.now) (five_of e.now) (literal_of l.now) }
{
    is_trivial(l) || has_image(to, e, l)
}

fn known_go(to: &[ObjId], d: &Five, e: &Five) -> bool
    ensures { result ≡ list_all (literal_goes (image_by to.now) (five_of e.now)) (literals_of d.now.kf) }
{
    for l in d.kf.items() {
        if !literal_goes(to, e, l) {
            return false;
        }
    }
    true
}

fn formula_goes(to: &[ObjId], e: &Five, c: &Conj) -> bool
    ensures { result ≡ formula_goes (image_by to.now) (five_of e.now) (conj_of c.now) }
{
    e.kw.has(&conj(to, c))
}

fn formulas_go(to: &[ObjId], d: &Five, e: &Five) -> bool
    ensures { result ≡ list_all (formula_goes (image_by to.now) (five_of e.now)) (formulas_of d.now.kw) }
{
    for c in d.kw.items() {
        if !formula_goes(to, e, c) {
            return false;
        }
    }
    true
}

fn value_goes(to: &[ObjId], e: &Five, t: &Term) -> bool
    ensures { result ≡ value_goes (image_by to.now) (five_of e.now) (term_of t.now) }
{
    e.kv.has(&term(to, t))
}

fn values_go(to: &[ObjId], d: &Five, e: &Five) -> bool
    ensures { result ≡ list_all (value_goes (image_by to.now) (five_of e.now)) (terms_of d.now.kv) }
{
    for t in d.kv.items() {
        if !value_goes(to, e, t) {
            return false;
        }
    }
    true
}

fn group_goes(alloc: Global, to: &[ObjId], e: &Five, g: &Group) -> Result<bool, AllocError>
    ensures { IfOk result (λ b. b ≡ group_goes (image_by to.now) (five_of e.now) (literals_in g.now)) }
{
    let image = group(alloc, to, g)?;
    Ok(e.kx.has(&image))
}

fn groups_go(alloc: Global, to: &[ObjId], d: &Five, e: &Five) -> Result<bool, AllocError>
    ensures { IfOk result (λ b. b ≡ list_all (group_goes (image_by to.now) (five_of e.now)) (groups_of d.now.kx)) }
{
    for g in d.kx.items() {
        let goes = group_goes(alloc, to, e, g)?;
        if !goes {
            return Ok(false);
        }
    }
    Ok(true)
}

fn region_goes(alloc: Global, to: &[ObjId], e: &Five, r: &Entry) -> Result<bool, AllocError>
    ensures { IfOk result (λ b. b ≡ region_goes (image_by to.now) (five_of e.now) (entry_of r.now)) }
{
    let image = region(alloc, to, r)?;
    Ok(e.lcw.has(&image))
}

fn regions_go(alloc: Global, to: &[ObjId], d: &Five, e: &Five) -> Result<bool, AllocError>
    ensures { IfOk result (λ b. b ≡ list_all (region_goes (image_by to.now) (five_of e.now)) (entries_of d.now.lcw)) }
{
    for r in d.lcw.items() {
        let goes = region_goes(alloc, to, e, r)?;
        if !goes {
            return Ok(false);
        }
    }
    Ok(true)
}

fn all_go(alloc: Global, to: &[ObjId], d: &Five, e: &Five) -> Result<bool, AllocError>
    ensures { IfOk result (λ b. b ≡ all_go (image_by to.now) (five_of d.now) (five_of e.now)) }
{
    if !values_go(to, d, e) || !formulas_go(to, d, e) || !known_go(to, d, e) {
        return Ok(false);
    }
    let groups = groups_go(alloc, to, d, e)?;
    if !groups {
        return Ok(false);
    }
    let regions = regions_go(alloc, to, d, e)?;
    Ok(regions)
}

/// Whether each member of the first five has its image in the second, but for literals that hold anyway.
fn go(alloc: Global, to: &[ObjId], d: &Five, e: &Five) -> Result<bool, AllocError>
    ensures { IfOk result (λ b. b ≡ true → GoesTo (image_by to.now) (five_of d.now) (five_of e.now)) }
{
    let goes = all_go(alloc, to, d, e)?;
    Ok(goes)
}

/// Whether the databases are each other's images. The error is want of memory.
fn go_both(
    alloc: Global,
    to: &[ObjId],
    back: &[ObjId],
    d: &Five,
    e: &Five,
) -> Result<bool, AllocError>
    ensures { IfOk result (λ b. b ≡ true → AreImages (image_by to.now) (image_by back.now) (five_of d.now) (five_of e.now)) }
{
    let goes = go(alloc, to, d, e)?;
    if !goes {
        return Ok(false);
    }
    let comes = go(alloc, back, e, d)?;
    Ok(comes)
}

/// Whether the moments behind this one are each other's images, behind instances that are. The error is want of memory.
fn later_images(
    alloc: Global,
    to: &[ObjId],
    back: &[ObjId],
    h: &History,
    k: &History,
    moment: u32,
) -> Result<bool, AllocError>
    requires same { length h.now.steps ≡ length k.now.steps }
    requires there { moment ≤ length h.now.steps }
    ensures { IfOk result (λ b. b ≡ true → AreImageSteps (image_by to.now) (image_by back.now) (drop moment h.now.steps) (drop moment k.now.steps)) }
{
    let many = h.len();
    let next = moment + 1;
    if next == many {
        return Ok(true);
    }
    if !is_instance(to, h.step(moment), k.step(moment)) {
        return Ok(false);
    }
    let databases = go_both(alloc, to, back, h.at(next).parts(), k.at(next).parts())?;
    if !databases {
        return Ok(false);
    }
    let later = later_images(alloc, to, back, h, k, next)?;
    Ok(later)
}

/// Whether the histories are each other's images. The error is want of memory.
pub(crate) fn are_images(
    alloc: Global,
    to: &[ObjId],
    back: &[ObjId],
    h: &History,
    k: &History,
) -> Result<bool, AllocError>
    ensures { IfOk result (λ b. b ≡ true → AreImagesAlong (image_by to.now) (image_by back.now) h.now k.now) }
{
    if h.len() != k.len() {
        return Ok(false);
    }
    let databases = go_both(alloc, to, back, h.at(0).parts(), k.at(0).parts())?;
    if !databases {
        return Ok(false);
    }
    let later = later_images(alloc, to, back, h, k, 0)?;
    Ok(later)
}
