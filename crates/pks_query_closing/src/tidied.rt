//! What is kept of databases whose known literals are closed. `docs/RULES.md` has the rule.
ghost use Rattle.std.specs.Prelude.{◌≡◌, List, [], ◌∷◌, ◌++◌, map, IfOk, OnOk, IsTrue};
ghost use Rattle.std.specs.List.{filter, list_all};
ghost use Rattle.pks_terms.specs.Sets.{set_of};
ghost use Rattle.pks_terms.specs.Databases.{normal, entry_cmp};
ghost use Rattle.pks_terms.specs.Orders.{term_cmp, conj_cmp};
ghost use Rattle.pks_terms.specs.Closure.{is_application, normal_conj, normal_group, normal_entry, tidied};
ghost use Rattle.pks_terms.specs.Views.{term_of, terms_of};
ghost use Rattle.pks_kf.specs.Known.{literals_of};
ghost use Rattle.pks_kw.specs.Formulas.{formulas_of};
ghost use Rattle.pks_kx.specs.Groups.{groups_of};
ghost use Rattle.pks_lcw.specs.Entries.{entries_of};
ghost use Rattle.pks_query_lookup.specs.Fives.{five_of};
ghost use Rattle.pks_query_closing.specs.Own.{is_own_formula, is_own_application, is_own_group};

use crate::forms::{normal_conj, normal_entry, normal_group};
use crate::own::{is_own_application, is_own_formula, is_own_group, is_own_region};
use pks_kv::Kv;
use pks_kw::Kw;
use pks_kx::Kx;
use pks_lcw::{Entry, Lcw};
use pks_query_lookup::derived::Derived;
use pks_query_lookup::five::Five;
use pks_terms::group::Group;
use pks_terms::literal::Conj;
use pks_terms::term::Term;
use std::alloc::{AllocError, Global};
use std::mem::drop;

#[tactic(auto, using(crate::proofs::Lists::read))]
fn normal_formulas(alloc: Global, d: &Derived) -> Result<Vec<Conj>, AllocError>
    ensures { IfOk result (λ v. formulas_of v.items ≡ map (normal_conj (literals_of d.now.kf)) (formulas_of d.now.kw)) }
{
    let mut all = Vec::new(alloc);
    for c in d.five().kw.items() {
        all.push(normal_conj(d.normals(), c))?;
    }
    Ok(all)
}

/// Whether each formula is its own normal form.
fn are_own_formulas(d: &Derived) -> bool
    ensures { result ≡ list_all (is_own_formula (literals_of d.now.kf)) (formulas_of d.now.kw) }
{
    for c in d.five().kw.items() {
        if !is_own_formula(d.normals(), c) {
            return false;
        }
    }
    true
}

fn formulas(alloc: Global, d: &Derived) -> Result<Kw, AllocError>
    ensures { IfOk result (λ set. formulas_of set ≡ set_of conj_cmp (map (normal_conj (literals_of d.now.kf)) (formulas_of d.now.kw))) }
{
    let members = &d.five().kw;
    let _ordered = members.len();
    if are_own_formulas(d) {
        let same = members.share()?;
        return Ok(same);
    }
    let all = normal_formulas(alloc, d)?;
    let set = Kw::of(alloc, all)?;
    Ok(set)
}

/// Puts the term after the others, where it is an application.
#[tactic(auto, using(crate::proofs::Lists::read))]
fn put_application(to: &mut Vec<Term>, t: Term) -> Result<(), AllocError>
    ensures { OnOk result (terms_of to.new.items ≡ terms_of to.old.items ++ filter is_application (term_of t ∷ [])) }
{
    match t {
        Term::Obj(_) | Term::Param(_) => {}
        Term::App { .. } => to.push(t)?,
    }
    Ok(())
}

#[tactic(auto, using(crate::proofs::Lists::read))]
fn normal_values(alloc: Global, d: &Derived) -> Result<Vec<Term>, AllocError>
    ensures { IfOk result (λ v. terms_of v.items ≡ filter is_application (map (normal (literals_of d.now.kf)) (terms_of d.now.kv))) }
{
    let mut all = Vec::new(alloc);
    for t in d.five().kv.items() {
        put_application(&mut all, d.normals().normal(t))?;
    }
    Ok(all)
}

/// Whether each term is an application and its own normal form.
fn are_own_values(d: &Derived) -> bool
    ensures { result ≡ list_all (is_own_application (literals_of d.now.kf)) (terms_of d.now.kv) }
{
    for t in d.five().kv.items() {
        if !is_own_application(d.normals(), t) {
            return false;
        }
    }
    true
}

fn values(alloc: Global, d: &Derived) -> Result<Kv, AllocError>
    ensures { IfOk result (λ set. terms_of set ≡ set_of term_cmp (filter is_application (map (normal (literals_of d.now.kf)) (terms_of d.now.kv)))) }
{
    let members = &d.five().kv;
    let _ordered = members.len();
    if are_own_values(d) {
        let same = members.share()?;
        return Ok(same);
    }
    let all = normal_values(alloc, d)?;
    let set = Kv::of(alloc, all)?;
    Ok(set)
}

#[tactic(auto, using(crate::proofs::Lists::read))]
fn normal_groups(alloc: Global, d: &Derived) -> Result<Vec<Group>, AllocError>
    ensures { IfOk result (λ v. groups_of v.items ≡ map (normal_group (literals_of d.now.kf)) (groups_of d.now.kx)) }
{
    let mut all = Vec::new(alloc);
    for g in d.five().kx.items() {
        let group = normal_group(alloc, d.normals(), g)?;
        all.push(group)?;
    }
    Ok(all)
}

/// Whether each group is its own normal form.
fn are_own_groups(d: &Derived) -> bool
    ensures { result ≡ list_all (is_own_group (literals_of d.now.kf)) (groups_of d.now.kx) }
{
    for g in d.five().kx.items() {
        if !is_own_group(d.normals(), g) {
            return false;
        }
    }
    true
}

fn groups(alloc: Global, d: &Derived) -> Result<Kx, AllocError>
    ensures { IfOk result (λ set. groups_of set ≡ set_of conj_cmp (map (normal_group (literals_of d.now.kf)) (groups_of d.now.kx))) }
{
    let members = &d.five().kx;
    let _ordered = members.len();
    if are_own_groups(d) {
        let same = members.share()?;
        return Ok(same);
    }
    let all = normal_groups(alloc, d)?;
    let set = Kx::of(alloc, all)?;
    Ok(set)
}

#[tactic(auto, using(crate::proofs::Lists::read))]
fn normal_entries(alloc: Global, d: &Derived) -> Result<Vec<Entry>, AllocError>
    ensures { IfOk result (λ v. entries_of v.items ≡ map (normal_entry (literals_of d.now.kf)) (entries_of d.now.lcw)) }
{
    let mut all = Vec::new(alloc);
    for e in d.five().lcw.items() {
        let entry = normal_entry(alloc, d.normals(), e)?;
        all.push(entry)?;
    }
    Ok(all)
}

/// Whether each region is its own normal form.
fn are_own_regions(d: &Derived) -> bool
    ensures { IsTrue result → map (normal_entry (literals_of d.now.kf)) (entries_of d.now.lcw) ≡ entries_of d.now.lcw }
{
    for e in d.five().lcw.items() {
        if !is_own_region(d.normals(), e) {
            return false;
        }
    }
    true
}

fn regions(alloc: Global, d: &Derived) -> Result<Lcw, AllocError>
    ensures { IfOk result (λ set. entries_of set ≡ set_of entry_cmp (map (normal_entry (literals_of d.now.kf)) (entries_of d.now.lcw))) }
{
    let members = &d.five().lcw;
    let _ordered = members.len();
    if are_own_regions(d) {
        let same = members.share()?;
        return Ok(same);
    }
    let all = normal_entries(alloc, d)?;
    let set = Lcw::of(alloc, all)?;
    Ok(set)
}

/// The five with formulas, terms, groups and regions in normal form, and without the terms that come to be objects.
#[tactic(auto, unfolding(pks_terms::specs::Closure::tidied))]
fn tidied_five(alloc: Global, d: &Derived) -> Result<Five, AllocError>
    ensures known { IfOk result (λ five. literals_of five.kf ≡ literals_of d.now.kf) }
    ensures five { IfOk result (λ five. five_of five ≡ tidied (five_of d.now)) }
{
    let kf = d.five().kf.share()?;
    let kw = formulas(alloc, d)?;
    let kv = values(alloc, d)?;
    let kx = groups(alloc, d)?;
    let lcw = regions(alloc, d)?;
    Ok(Five {
        kf,
        kw,
        kv,
        kx,
        lcw,
    })
}

/// The tidied databases beside these.
fn tidied_beside(alloc: Global, d: &Derived) -> Result<Derived, AllocError>
    ensures { IfOk result (λ e. five_of e ≡ tidied (five_of d.now)) }
{
    let five = tidied_five(alloc, d)?;
    let tidied = d.again(five)?;
    Ok(tidied)
}

/// The databases with formulas, terms, groups and regions in normal form, and without the terms that come to be objects.
/// The one error is want of memory.
pub fn with_normal_parts(alloc: Global, d: Derived) -> Result<Derived, AllocError>
    ensures { IfOk result (λ e. five_of e ≡ tidied (five_of d)) }
{
    let tidied = tidied_beside(alloc, &d);
    drop(d);
    tidied
}
