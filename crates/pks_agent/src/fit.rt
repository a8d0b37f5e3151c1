//! Which answers are fit.
ghost use Rattle.std.specs.Prelude.{◌≡◌, ◌≤◌, ◌+◌, List, length, option_map};
ghost use Rattle.pks_terms.specs.declared.limits.TheConstants.{MOST_OBJECTS};
ghost use Rattle.pks_terms.specs.Syntax.{Apply, Inner as InnerTerm};
ghost use Rattle.pks_terms.specs.Signatures.{fits_type, objects_from, objects_of, range_of};
ghost use Rattle.pks_terms.specs.Printed.{name_in};
ghost use Rattle.pks_terms.specs.Talk.{truth_told, object_named};
ghost use Rattle.pks_terms.specs.Views.{object_of, types_of, signature_of, names_of, term_of};
ghost use Rattle.pks_terms.specs.Jobs.{same_text};

use pks_terms::ids::{FnId, ObjId, TypeId};
use pks_terms::lookup::object_name;
use pks_terms::problem::Problem;
use pks_terms::term::Term;

/// Whether the texts are the same.
fn same(a: &[u8], b: &[u8]) -> bool
    ensures { result ≡ same_text a.now b.now }
{
    a == b
}

/// The truth that the answer tells.
pub(crate) fn truth(answer: &[u8]) -> Option<bool>
    ensures { result ≡ truth_told answer.now }
{
    if same(answer, b"true") {
        Some(true)
    } else if same(answer, b"false") {
        Some(false)
    } else {
        None
    }
}

/// Whether the answer names the object.
fn names(p: &Problem<'_>, object: ObjId, answer: &[u8]) -> bool
    ensures { result ≡ same_text (name_in (names_of p.now).objects object.0) answer.now }
{
    same(object_name(p, object).as_bytes(), answer)
}

/// The first object of the type, from number `n` on, that the answer names.
fn named_from(
    p: &Problem<'_>,
    of: TypeId,
    n: usize,
    owns: &[TypeId],
    answer: &[u8],
) -> Option<ObjId>
    requires { n + length owns.now ≤ MOST_OBJECTS }
    ensures { option_map object_of result ≡ object_named (names_of p.now) (objects_from (λ own. fits_type (signature_of p.now.signature) own of.0) n (types_of owns.now)) answer.now }
{
    match owns {
        [] => None,
        [own, rest @ ..] => {
            let object = ObjId(n as u16);
            if p.signature.fits(*own, of) && names(p, object, answer) {
                Some(object)
            } else {
                named_from(p, of, n + 1, rest, answer)
            }
        }
    }
}

/// The object of the function's result type that the answer names.
#[tactic(auto, unfolding(pks_terms::specs::Signatures::objects_of))]
fn named_value(p: &Problem<'_>, fun: FnId, answer: &[u8]) -> Option<ObjId>
    requires { length p.now.signature.objects ≤ MOST_OBJECTS }
    ensures { (ts : List InnerTerm) → option_map object_of result ≡ object_named (names_of p.now) (range_of {A = InnerTerm} (signature_of p.now.signature) (Apply fun.0 ts)) answer.now }
{
    match p.signature.functions.as_slice().get(usize::from(fun.0)) {
        Some(shape) => named_from(p, shape.result, 0, p.signature.objects.as_slice(), answer),
        None => None,
    }
}

/// The object that the answer names, where it may be the value of the term.
pub(crate) fn value(p: &Problem<'_>, t: &Term, answer: &[u8]) -> Option<ObjId>
    requires { length p.now.signature.objects ≤ MOST_OBJECTS }
    ensures { option_map object_of result ≡ object_named (names_of p.now) (range_of (signature_of p.now.signature) (term_of t.now)) answer.now }
{
    match t {
        Term::Obj(object) => if names(p, *object, answer) {
            Some(*object)
        } else {
            None
        },
        Term::Param(_) => None,
        Term::App { fun, .. } => named_value(p, *fun, answer),
    }
}
