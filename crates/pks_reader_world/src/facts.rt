//! The facts of a world: what is wrong with them, and the world that they state while nothing is.
ghost use Rattle.std.specs.Prelude.{◌≡◌, ℕ, [], ◌++◌, None, OnOk, IfOk, slice_get, option_map, map, codes};
ghost use Rattle.pks_terms.specs.Views.{object_of, shape_of, types_of, term_of};
ghost use Rattle.pks_text.specs.FormViews.{form_view, forms_view};
ghost use Rattle.pks_reader_names.specs.Parts.{each, section};
ghost use Rattle.pks_reader_names.specs.Declarations.{first_in, second_in};
ghost use Rattle.pks_reader_names.specs.Meaning.{all_noted};
ghost use Rattle.pks_reader_names.specs.Views.{found_of, scope_view};
ghost use Rattle.pks_world.specs.Contents.{world_of};
ghost use Rattle.pks_reader_world.specs.Naming.{object_named, atom_named, place_named};
ghost use Rattle.pks_reader_world.specs.Facts.{object_faults, objects_faults, fact_faults, true_faults, none_given, once_given, again, value_faults, given_with, values_faults, given_by, world_faults};
ghost use Rattle.pks_reader_world.specs.Filling.{with_atom, with_facts, with_entry, with_entries, with_all};
ghost use Rattle.pks_reader_world.specs.Typing.{IsAtom, IsValue, IsReady};
ghost use Rattle.pks_reader_world.specs.Views.{given_of};

use crate::naming::{atom_named, object_named, place_named};
use crate::places::is_given;
use pks_reader_declared::{first_in, second_in};
use pks_reader_names::parts::{behind_head, parts_of, section, text_of};
use pks_reader_names::report::Report;
use pks_reader_names::scope::{Scope, wanted_by};
use pks_reader_shape::walk::head_of;
use pks_terms::codes::{VALUE_TWICE, WORLD_MISFIT, WORLD_UNDECLARED};
use pks_terms::ids::TypeId;
use pks_terms::problem::Shape;
use pks_terms::term::{Term, front};
use pks_text::{Form, place_of};
use pks_world::World;
use std::alloc::{AllocError, Global};
use std::collections::BTreeSet;

// A word for an object.
fn object(report: &mut Report, scope: &Scope<'_, '_>, wanted: Option<u8>, word: &Form<'_>)
    ensures { found_of report.new ≡ all_noted (found_of report.old) (object_faults (scope_view scope.now) wanted (form_view word.now)) }
{
    match scope.object(text_of(word)) {
        None => report.note(place_of(word), WORLD_UNDECLARED),
        Some(own) => {
            if let Some(wanted) = wanted {
                report.require(scope.fits(own, wanted), place_of(word), WORLD_MISFIT);
            }
        }
    }
}

// The type that is wanted at a place.
fn wanted_at(wanted: &[TypeId], i: usize) -> Option<u8>
    ensures { result ≡ slice_get (types_of wanted.now) i }
{
    Some(wanted.get(i)?.0)
}

// Words for objects.
#[tactic(auto, using(pks_reader_names::proofs::Noting::drop_view, pks_reader_names::proofs::Noting::noted_both, crate::proofs::Typed::first_object))]
fn objects(report: &mut Report, scope: &Scope<'_, '_>, wanted: &[TypeId], words: &[Form<'_>])
    ensures { found_of report.new ≡ all_noted (found_of report.old) (objects_faults (scope_view scope.now) (types_of wanted.now) (forms_view words.now)) }
{
    for i in 0..words.len() {
        object(report, scope, wanted_at(wanted, i), &words[i]);
    }
}

// The words of a fact, by the shape that is declared for its head.
#[tactic(auto, using(pks_reader_names::proofs::Noting::noted_both, pks_reader_names::proofs::FormLists::counted))]
fn fact(report: &mut Report, scope: &Scope<'_, '_>, shape: Option<&Shape>, form: &Form<'_>)
    ensures { found_of report.new ≡ all_noted (found_of report.old) (fact_faults (scope_view scope.now) (option_map (λ x. shape_of x.now) shape.entry) (form_view form.now)) }
{
    let words = behind_head(form);
    match shape {
        None => report.note(place_of(first_in(form)), WORLD_UNDECLARED),
        Some(shape) => {
            let counted = front(&shape.args, shape.n).len() == words.len();
            report.require(counted, place_of(form), WORLD_MISFIT);
        }
    }
    objects(report, scope, wanted_by(shape), words);
}

// ---- what is true

// The words of an atom.
fn atom(report: &mut Report, scope: &Scope<'_, '_>, form: &Form<'_>)
    ensures { found_of report.new ≡ all_noted (found_of report.old) (true_faults (scope_view scope.now) (form_view form.now)) }
{
    let shape = scope.predicate(head_of(parts_of(form)));
    fact(report, scope, shape, form);
}

// Makes the atom of a fact true.
fn put_atom(world: &mut World, scope: &Scope<'_, '_>, form: &Form<'_>) -> Result<(), AllocError>
    requires typed { IsAtom (scope_view scope.now) (form_view form.now) }
    requires ready { IsReady (scope_view scope.now) world.old }
    ensures says { OnOk result (world_of world.new ≡ with_atom (world_of world.old) (atom_named (scope_view scope.now) (form_view form.now))) }
    ensures ready { IsReady (scope_view scope.now) world.new }
{
    if let Some(atom) = atom_named(scope, form) {
        world.put_atom(&atom)?;
    }
    Ok(())
}

// An atom that is true: its faults, and where none was found so far, that it is true in the world.
fn truth(
    report: &mut Report,
    scope: &Scope<'_, '_>,
    world: &mut World,
    form: &Form<'_>,
) -> Result<(), AllocError>
    requires ready { IsReady (scope_view scope.now) world.old }
    ensures faults { OnOk result (found_of report.new ≡ all_noted (found_of report.old) (true_faults (scope_view scope.now) (form_view form.now))) }
    ensures says { found_of report.new ≡ None → OnOk result (world_of world.new ≡ with_atom (world_of world.old) (atom_named (scope_view scope.now) (form_view form.now))) }
    ensures ready { IsReady (scope_view scope.now) world.new }
{
    atom(report, scope, form);
    if report.refusal().is_none() {
        put_atom(world, scope, form)?;
    }
    Ok(())
}

// The atoms that are true.
fn truths(
    report: &mut Report,
    scope: &Scope<'_, '_>,
    world: &mut World,
    forms: &[Form<'_>],
) -> Result<(), AllocError>
    requires ready { IsReady (scope_view scope.now) world.old }
    ensures faults { OnOk result (found_of report.new ≡ all_noted (found_of report.old) (each (true_faults (scope_view scope.now)) (forms_view forms.now))) }
    ensures says { found_of report.new ≡ None → OnOk result (world_of world.new ≡ with_facts (scope_view scope.now) (world_of world.old) (forms_view forms.now)) }
    ensures ready { OnOk result (IsReady (scope_view scope.now) world.new) }
{
    for form in forms {
        truth(report, scope, world, form)?;
    }
    Ok(())
}

// ---- values

// The type of the values of a function.
fn result_of(shape: Option<&Shape>) -> Option<u8>
    ensures { result ≡ option_map (λ x. x.result) (option_map (λ x. shape_of x.now) shape.entry) }
{
    Some(shape?.result.0)
}

// The place, where it is known, has a value from here on, and had none before.
fn give(
    report: &mut Report,
    given: &mut BTreeSet<Term>,
    place: Option<Term>,
    at: u32,
) -> Result<(), AllocError>
    ensures faults { OnOk result (found_of report.new ≡ all_noted (found_of report.old) (again (given_of given.old) (option_map term_of place) at)) }
    ensures given { OnOk result (given_of given.new ≡ once_given (given_of given.old) (option_map term_of place)) }
{
    if let Some(place) = place {
        if is_given(given, &place) {
            report.note(at, VALUE_TWICE);
        }
        given.insert(place)?;
    }
    Ok(())
}

// The words of a place and of its value, and that the place has one from here on.
#[tactic(auto, using(pks_reader_names::proofs::Noting::noted_both), unfolding(crate::specs::Facts::value_faults))]
fn entry(
    report: &mut Report,
    scope: &Scope<'_, '_>,
    given: &mut BTreeSet<Term>,
    place: Option<Term>,
    form: &Form<'_>,
) -> Result<(), AllocError>
    requires { option_map term_of place ≡ place_named (scope_view scope.now) (first_in (form_view form.now)) }
    ensures faults { OnOk result (found_of report.new ≡ all_noted (found_of report.old) (value_faults (scope_view scope.now) (given_of given.old) (form_view form.now))) }
    ensures given { OnOk result (given_of given.new ≡ given_with (scope_view scope.now) (given_of given.old) (form_view form.now)) }
{
    let head = first_in(form);
    let shape = scope.function(head_of(parts_of(head)));
    fact(report, scope, shape, head);
    give(report, given, place, place_of(head))?;
    object(report, scope, result_of(shape), second_in(form));
    Ok(())
}

// Gives a place, which the entry names, the value that it names.
fn put_value(world: &mut World, scope: &Scope<'_, '_>, place: Option<Term>, entry: &Form<'_>)
    requires typed { IsValue (scope_view scope.now) (form_view entry.now) }
    requires place { option_map term_of place ≡ place_named (scope_view scope.now) (first_in (form_view entry.now)) }
    requires ready { IsReady (scope_view scope.now) world.old }
    ensures says { world_of world.new ≡ with_entry (scope_view scope.now) (world_of world.old) (form_view entry.now) }
    ensures ready { IsReady (scope_view scope.now) world.new }
{
    if let Some(place) = place {
        if let Some(value) = object_named(scope, second_in(entry)) {
            world.put_value(&place, value);
        }
    }
}

// A place and its value: its faults, that the place has a value from here on, and where no fault was found so far, that it
// has this one in the world.
fn value(
    report: &mut Report,
    scope: &Scope<'_, '_>,
    given: &mut BTreeSet<Term>,
    world: &mut World,
    form: &Form<'_>,
) -> Result<(), AllocError>
    requires ready { IsReady (scope_view scope.now) world.old }
    ensures faults { OnOk result (found_of report.new ≡ all_noted (found_of report.old) (value_faults (scope_view scope.now) (given_of given.old) (form_view form.now))) }
    ensures given { OnOk result (given_of given.new ≡ given_with (scope_view scope.now) (given_of given.old) (form_view form.now)) }
    ensures says { found_of report.new ≡ None → OnOk result (world_of world.new ≡ with_entry (scope_view scope.now) (world_of world.old) (form_view form.now)) }
    ensures ready { IsReady (scope_view scope.now) world.new }
{
    let place = place_named(scope, first_in(form));
    entry(report, scope, given, place, form)?;
    if report.refusal().is_none() {
        put_value(world, scope, place, form);
    }
    Ok(())
}

// Places and their values.
fn values(
    report: &mut Report,
    scope: &Scope<'_, '_>,
    given: &mut BTreeSet<Term>,
    world: &mut World,
    forms: &[Form<'_>],
) -> Result<(), AllocError>
    requires ready { IsReady (scope_view scope.now) world.old }
    ensures faults { OnOk result (found_of report.new ≡ all_noted (found_of report.old) (values_faults (scope_view scope.now) (given_of given.old) (forms_view forms.now))) }
    ensures given { OnOk result (given_of given.new ≡ given_by (scope_view scope.now) (given_of given.old) (forms_view forms.now)) }
    ensures says { found_of report.new ≡ None → OnOk result (world_of world.new ≡ with_entries (scope_view scope.now) (world_of world.old) (forms_view forms.now)) }
    ensures ready { OnOk result (IsReady (scope_view scope.now) world.new) }
{
    for form in forms {
        value(report, scope, given, world, form)?;
    }
    Ok(())
}

// ---- both sections

/// The faults of a world, by the parts behind its head, and the places that have a value. Where no fault was found, the facts
/// are put into the world. `AllocError` comes for want of memory alone.
pub(crate) fn facts(
    alloc: Global,
    report: &mut Report,
    scope: &Scope<'_, '_>,
    world: &mut World,
    forms: &[Form<'_>],
) -> Result<BTreeSet<Term>, AllocError>
    requires ready { IsReady (scope_view scope.now) world.old }
    ensures faults { OnOk result (found_of report.new ≡ all_noted (found_of report.old) (world_faults (scope_view scope.now) (forms_view forms.now))) }
    ensures given { IfOk result (λ given. given_of given ≡ given_by (scope_view scope.now) none_given (section (codes "values") (forms_view forms.now))) }
    ensures says { found_of report.new ≡ None → OnOk result (world_of world.new ≡ with_all (scope_view scope.now) (world_of world.old) (forms_view forms.now)) }
    ensures ready { OnOk result (IsReady (scope_view scope.now) world.new) }
{
    let mut given = BTreeSet::new(alloc);
    truths(report, scope, world, section("true", forms))?;
    values(report, scope, &mut given, world, section("values", forms))?;
    Ok(given)
}
