//! The world of a file.
ghost use Rattle.std.specs.Prelude.{◌≡◌, None, Some, map, IfOk, IfErr, OnOk};
ghost use Rattle.pks_terms.specs.Valid.{IsValidSignature};
ghost use Rattle.pks_terms.specs.Views.{signature_of};
ghost use Rattle.pks_text.specs.FormViews.{form_view, forms_view};
ghost use Rattle.pks_reader_shape.specs.Files.{world_shape_fault};
ghost use Rattle.pks_reader_names.specs.Scopes.{signature_in};
ghost use Rattle.pks_reader_names.specs.Parts.{behind_head};
ghost use Rattle.pks_reader_names.specs.Views.{scope_view};
ghost use Rattle.pks_world.specs.Contents.{world_of};
ghost use Rattle.pks_world.specs.Counts.{WorldCounts};
ghost use Rattle.pks_world.specs.First.{IsWorldOf};
ghost use Rattle.pks_reader_world.specs.Stated.{world_in, contents_fault, parts_at, place_at, declared_by, world_fault, world_by};
ghost use Rattle.pks_reader_world.specs.Views.{IsRefusal};

use crate::facts::facts;
use crate::places::is_full;
use indexmap::IndexMap;
use pks_reader_declared::declarations;
use pks_reader_names::parts::behind_head;
use pks_reader_names::report::Report;
use pks_reader_names::scope::Scope;
use pks_reader_shape::report::{Refusal, Turned};
use pks_reader_shape::shape::{top_at, version_of, world_shape_fault};
use pks_terms::codes::{VALUE_MISSING, WORLD_MISSING};
use pks_terms::problem::Problem;
use pks_text::{Form, Forms, place_of};
use pks_world::World;
use std::alloc::Global;

// The parts behind the head of the top form with this number.
fn parts_at<'f, 's>(top: &'f [Form<'s>], i: usize) -> &'f [Form<'s>]
    ensures { forms_view result.now ≡ parts_at (map form_view top.now) i }
{
    if top.len() <= i {
        return &[];
    }
    behind_head(&top[i])
}

// Its place.
fn place_at(top: &[Form<'_>], i: usize) -> u32
    ensures { result ≡ place_at (map form_view top.now) i }
{
    match top_at(top, i) {
        None => 0,
        Some(form) => place_of(form),
    }
}

// The world that a list states, which has the shape of one.
#[tactic(auto, unfolding(crate::specs::Stated::contents_fault), using(crate::proofs::Refused::this_found, crate::proofs::Refused::this_plain, pks_reader_shape::proofs::Refusing::none_refused))]
fn world_of_form(
    alloc: Global,
    p: &Problem<'_>,
    scope: &Scope<'_, '_>,
    form: &Form<'_>,
) -> Result<World, Turned>
    requires valid { IsValidSignature (signature_of p.now.signature) }
    requires stated { signature_of p.now.signature ≡ signature_in (scope_view scope.now) }
    ensures says { IfOk result (λ w. world_of w ≡ world_in (scope_view scope.now) (behind_head (form_view form.now))) }
    ensures of_signature { IfOk result (IsWorldOf (signature_of p.now.signature)) }
    ensures counts { IfOk result WorldCounts }
    ensures fine { OnOk result (contents_fault (scope_view scope.now) (form_view form.now) ≡ None) }
    ensures refused { IfErr result (IsRefusal (contents_fault (scope_view scope.now) (form_view form.now))) }
{
    let mut report = Report::new();
    let mut world = World::first(alloc, p)?;
    let given = facts(alloc, &mut report, scope, &mut world, behind_head(form))?;
    if let Some(refusal) = report.refusal() {
        return Err(Turned::Refused(refusal));
    }
    if !is_full(&p.signature, &given) {
        return Err(Turned::Refused(Refusal::plain(place_of(form), VALUE_MISSING)));
    }
    Ok(world)
}

/// The world that a file states, by its top forms. It asks that the problem was read from these forms: its signature is valid, and
/// is what they declare.
///
/// `Refused` has the first fault of the file's world, and comes exactly where there is one, unless memory is wanting: 310
/// where there is no world, 300 for its shape, then 301, 302 and 304 for its facts, and then 303. `docs/FORMAT.md`.
#[tactic(auto, unfolding(crate::specs::Stated::world_fault, crate::specs::Stated::world_by, crate::specs::Stated::declared_by), using(crate::proofs::Refused::this_found, crate::proofs::Refused::this_plain, pks_reader_shape::proofs::Refusing::none_refused))]
pub fn read_world(alloc: Global, p: &Problem<'_>, forms: &Forms<'_>) -> Result<World, Turned>
    requires valid { IsValidSignature (signature_of p.now.signature) }
    requires stated { signature_of p.now.signature ≡ signature_in (declared_by (map form_view forms.now.top.items)) }
    ensures says { IfOk result (λ w. world_of w ≡ world_by (map form_view forms.now.top.items)) }
    ensures of_signature { IfOk result (IsWorldOf (signature_of p.now.signature)) }
    ensures counts { IfOk result WorldCounts }
    ensures fine { OnOk result (world_fault (map form_view forms.now.top.items) ≡ None) }
    ensures refused { IfErr result (IsRefusal (world_fault (map form_view forms.now.top.items))) }
{
    let top = forms.top.as_slice();
    match top_at(top, 3) {
        None => Err(Turned::Refused(Refusal::plain(place_at(top, 2), WORLD_MISSING))),
        Some(form) => {
            if let Some(refusal) = world_shape_fault(top) {
                return Err(Turned::Refused(refusal));
            }
            let domain = declarations(alloc, version_of(top).number(), parts_at(top, 1))?;
            let none = IndexMap::new(alloc);
            let scope = Scope {
                declared: &domain.declared,
                parameters: &none,
            };
            match world_of_form(alloc, p, &scope, form) {
                Ok(world) => Ok(world),
                Err(turned) => Err(turned),
            }
        }
    }
}
