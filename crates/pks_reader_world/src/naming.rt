//! What the words of facts name.
ghost use Rattle.std.specs.Prelude.{◌≡◌, ◌≤◌, ◌^◌, ◌∷◌, map, take, length, option_map, IfSome};
ghost use Rattle.pks_terms.specs.Counts.{AtomCounts};
ghost use Rattle.pks_terms.specs.Valid.{IsValidSignature};
ghost use Rattle.pks_terms.specs.Views.{object_of, shape_of, term_of, atom_of};
ghost use Rattle.pks_text.specs.FormViews.{form_view};
ghost use Rattle.pks_reader_shape.specs.Walk.{head_of};
ghost use Rattle.pks_reader_names.specs.Scopes.{signature_in};
ghost use Rattle.pks_reader_names.specs.Parts.{parts_of};
ghost use Rattle.pks_reader_names.specs.Tables.{number_of};
ghost use Rattle.pks_reader_names.specs.Views.{names_of, seen, scope_view};
ghost use Rattle.pks_world.specs.Contents.{ground};
ghost use Rattle.pks_reader_world.specs.Naming.{object_named, atom_named, place_named};

use indexmap::IndexMap;
use pks_reader_names::parts::{behind_head, parts_of, text_of};
use pks_reader_names::scope::{Scope, number};
use pks_reader_shape::walk::head_of;
use pks_terms::ids::{FnId, ObjId, PredId};
use pks_terms::literal::PredAtom;
use pks_terms::problem::Shape;
use pks_terms::term::{Term, application};
use pks_text::Form;

/// What stands behind the objects in use.
pub(crate) const NO_OBJECT: ObjId = ObjId(0);

/// The object that a word names.
#[tactic(auto, using(crate::proofs::Typed::entries_length))]
pub(crate) fn object_named(scope: &Scope<'_, '_>, word: &Form<'_>) -> Option<ObjId>
    requires { IsValidSignature (signature_in (scope_view scope.now)) }
    ensures { option_map object_of result ≡ object_named (scope_view scope.now) (form_view word.now) }
{
    match number(&scope.declared.objects, text_of(word)) {
        None => None,
        Some(n) => Some(ObjId(n as u16)),
    }
}

// The number of the name that a fact begins with.
#[tactic(auto, using(pks_reader_problem::proofs::Seen::length_seen, pks_reader_names::proofs::Entries::number_seen))]
fn head_named(table: &IndexMap<&str, Shape>, fact: &Form<'_>) -> Option<u8>
    requires { length (seen shape_of (names_of table.now)) ≤ 2 ^ 8 }
    ensures { result ≡ number_of (seen shape_of (names_of table.now)) (head_of (parts_of (form_view fact.now))) }
{
    match number(table, head_of(parts_of(fact))) {
        None => None,
        Some(n) => Some(n as u8),
    }
}

// The predicate at the first n of these objects.
fn ground(pred: u8, n: u8, args: [ObjId; 3]) -> PredAtom
    requires { n ≤ 3 }
    ensures says { atom_of result ≡ ground pred (map object_of (take n args)) }
    ensures counts { AtomCounts result }
{
    let [a, b, c] = args;
    PredAtom {
        pred: PredId(pred),
        n,
        args: [Term::Obj(a), Term::Obj(b), Term::Obj(c)],
    }
}

/// The atom that a fact names.
#[tactic(auto, using(crate::proofs::Typed::entries_length))]
pub(crate) fn atom_named(scope: &Scope<'_, '_>, fact: &Form<'_>) -> Option<PredAtom>
    requires { IsValidSignature (signature_in (scope_view scope.now)) }
    ensures says { option_map atom_of result ≡ atom_named (scope_view scope.now) (form_view fact.now) }
    ensures counts { IfSome result AtomCounts }
{
    let pred = head_named(&scope.declared.predicates, fact)?;
    match behind_head(fact) {
        [] => Some(ground(pred, 0, [NO_OBJECT, NO_OBJECT, NO_OBJECT])),
        [a] => {
            let a = object_named(scope, a)?;
            Some(ground(pred, 1, [a, NO_OBJECT, NO_OBJECT]))
        }
        [a, b] => {
            let a = object_named(scope, a)?;
            let b = object_named(scope, b)?;
            Some(ground(pred, 2, [a, b, NO_OBJECT]))
        }
        [a, b, c, more @ ..] => {
            let a = object_named(scope, a)?;
            let b = object_named(scope, b)?;
            let c = object_named(scope, c)?;
            match more {
                [] => Some(ground(pred, 3, [a, b, c])),
                [_, ..] => None,
            }
        }
    }
}

/// The place that a fact names.
#[tactic(auto, using(crate::proofs::Typed::entries_length))]
pub(crate) fn place_named(scope: &Scope<'_, '_>, fact: &Form<'_>) -> Option<Term>
    requires { IsValidSignature (signature_in (scope_view scope.now)) }
    ensures { option_map term_of result ≡ place_named (scope_view scope.now) (form_view fact.now) }
{
    let fun = FnId(head_named(&scope.declared.functions, fact)?);
    match behind_head(fact) {
        [] => Some(application(fun, 0, &[NO_OBJECT, NO_OBJECT])),
        [a] => {
            let a = object_named(scope, a)?;
            Some(application(fun, 1, &[a, NO_OBJECT]))
        }
        [a, b, more @ ..] => {
            let a = object_named(scope, a)?;
            let b = object_named(scope, b)?;
            match more {
                [] => Some(application(fun, 2, &[a, b])),
                [_, ..] => None,
            }
        }
    }
}
