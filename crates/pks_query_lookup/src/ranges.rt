//! The objects that a term may have as its value.
ghost use Rattle.std.specs.Prelude.{◌≡◌, ◌≤◌, [], ◌∷◌, map, length, IfOk};
ghost use Rattle.pks_terms.specs.declared.limits.TheConstants.{MOST_OBJECTS};
ghost use Rattle.pks_terms.specs.Signatures.{range_of};
ghost use Rattle.pks_terms.specs.Views.{object_of, term_of, signature_of};

use pks_terms::ids::ObjId;
use pks_terms::problem::Signature;
use pks_terms::term::Term;
use std::alloc::{AllocError, Global};

/// The objects that may be the value of the term, in order: itself, or those of the function's result type.
/// It asks for at most 65,536 objects.
pub fn range_of(alloc: Global, s: &Signature, t: &Term) -> Result<Vec<ObjId>, AllocError>
    requires { length s.now.objects ≤ MOST_OBJECTS }
    ensures { IfOk result (λ v. map object_of v.items ≡ range_of (signature_of s.now) (term_of t.now)) }
{
    match t {
        Term::Obj(d) => {
            let own = vec![in alloc; *d]?;
            Ok(own)
        }
        Term::Param(_) => Ok(Vec::new(alloc)),
        Term::App { fun, .. } => match s.functions.as_slice().get(fun.0 as usize) {
            None => Ok(Vec::new(alloc)),
            Some(shape) => s.objects_of(alloc, shape.result),
        },
    }
}
