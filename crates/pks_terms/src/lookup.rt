//! What a problem declares under a number. Nothing here takes memory.
ghost use Rattle.std.specs.Prelude.{◌≡◌, map};
ghost use Rattle.pks_terms.specs.Signatures.{object_is_of, is_foreign};
ghost use Rattle.pks_terms.specs.Problems.{schema_of};
ghost use Rattle.pks_terms.specs.Printed.{name_in, relation_text};
ghost use Rattle.pks_terms.specs.ValidProblems.{ArePlaced, IsValidProblem};
ghost use Rattle.pks_terms.specs.Views.{relation_of, effect_of, signature_of, names_of, problem_of};

use crate::ids::{ActId, FnId, ObjId, PredId, TypeId};
use crate::literal::Atom;
use crate::problem::{Problem, Signature};
use crate::schema::Effect;

/// The name of an object, or no text where it isn't declared.
pub fn object_name<'s>(p: &Problem<'s>, object: ObjId) -> &'s str
    ensures { result.now ≡ name_in (names_of p.now).objects object.0 }
{
    match p.names.objects.as_slice().get(usize::from(object.0)) {
        Some(name) => *name,
        None => "",
    }
}

/// The name of a predicate, or no text where it isn't declared.
pub fn predicate_name<'s>(p: &Problem<'s>, pred: PredId) -> &'s str
    ensures { result.now ≡ name_in (names_of p.now).predicates pred.0 }
{
    match p.names.predicates.as_slice().get(usize::from(pred.0)) {
        Some(name) => *name,
        None => "",
    }
}

/// The name of a function, or no text where it isn't declared.
pub fn function_name<'s>(p: &Problem<'s>, fun: FnId) -> &'s str
    ensures { result.now ≡ name_in (names_of p.now).functions fun.0 }
{
    match p.names.functions.as_slice().get(usize::from(fun.0)) {
        Some(name) => *name,
        None => "",
    }
}

/// The name of an action, or no text where it isn't declared.
pub fn action_name<'s>(p: &Problem<'s>, act: ActId) -> &'s str
    ensures { result.now ≡ name_in (names_of p.now).actions act.0 }
{
    match p.schemas.as_slice().get(usize::from(act.0)) {
        Some(schema) => schema.name,
        None => "",
    }
}

/// The predicate's name, or the sign of equality.
pub fn relation_text<'s>(p: &Problem<'s>, atom: &Atom) -> &'s str
    ensures { result.now ≡ relation_text (names_of p.now) (relation_of atom.now) }
{
    match atom {
        Atom::Pred(a) => predicate_name(p, a.pred),
        Atom::Eq { .. } => "=",
    }
}

/// The effects of an action as written, none where it isn't declared.
pub fn written_effects<'a>(p: &'a Problem<'_>, act: ActId) -> &'a [Effect]
    ensures says { map effect_of result.now ≡ (schema_of (problem_of p.now) act.0).effects }
    ensures placed { IsValidProblem p.now → ArePlaced result.now }
{
    match p.schemas.as_slice().get(usize::from(act.0)) {
        Some(schema) => schema.effects.as_slice(),
        None => &[],
    }
}

/// Whether the object is one of the type: its own type fits it.
#[tactic(auto, unfolding(crate::specs::Signatures::object_is_of))]
pub fn object_is_of(s: &Signature, of: TypeId, d: ObjId) -> bool
    ensures { result ≡ object_is_of (signature_of s.now) of.0 d.0 }
{
    match s.objects.as_slice().get(usize::from(d.0)) {
        Some(own) => s.fits(*own, of),
        None => false,
    }
}

/// Whether the object is not one of the function's result type.
#[tactic(auto, unfolding(crate::specs::Signatures::is_foreign))]
pub fn is_foreign(s: &Signature, fun: FnId, d: ObjId) -> bool
    ensures { result ≡ is_foreign (signature_of s.now) fun.0 d.0 }
{
    match s.functions.as_slice().get(usize::from(fun.0)) {
        Some(shape) => !object_is_of(s, shape.result, d),
        None => false,
    }
}
