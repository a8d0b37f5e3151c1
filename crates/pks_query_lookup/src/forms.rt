//! The normal forms of known literals. `docs/RULES.md` has the rule.
ghost use Rattle.std.specs.Prelude.{◌≡◌, map, IfOk};
ghost use Rattle.pks_terms.specs.Views.{literal_of};
ghost use Rattle.pks_kf.specs.Known.{literals_of};
ghost use Rattle.pks_query_lookup.specs.Forms.{is_normal, other_forms, AreForms};

use crate::normals::Normals;
use pks_kf::Kf;
use pks_terms::literal::Literal;
use pks_terms::objects::is_of_objects;
use std::alloc::{AllocError, Global};

/// Whether the literal is its own normal form.
#[tactic(auto, unfolding(pks_terms::specs::Orders::literal_eq), using(crate::proofs::OwnForms::own_is_normal))]
fn is_normal(normals: &Normals, l: &Literal) -> bool
    ensures { result ≡ is_normal (literals_of normals.now.kf) (literal_of l.now) }
{
    is_of_objects(l) || normals.normal_literal(l) == *l
}

/// The normal forms of the known literals that are not their own.
fn other_forms(alloc: Global, normals: &Normals) -> Result<Vec<Literal>, AllocError>
    ensures { IfOk result (λ v. map literal_of v.items ≡ other_forms (literals_of normals.now.kf) (literals_of normals.now.kf)) }
{
    let mut forms = Vec::new(alloc);
    for k in normals.five().kf.items() {
        if !is_normal(normals, k) {
            forms.push(normals.normal_literal(k))?;
        }
    }
    Ok(forms)
}

/// The set of the normal forms of the known literals. It shares with these each part of their tree in which all are their
/// own normal forms.
pub(crate) fn forms_of(alloc: Global, normals: &Normals) -> Result<Kf, AllocError>
    ensures { IfOk result (λ forms. AreForms (literals_of normals.now.kf) (literals_of forms)) }
{
    let others = other_forms(alloc, normals)?;
    let own = normals.five().kf.kept(alloc, |k| is_normal(normals, k))?;
    let forms = own.with_all(alloc, others)?;
    Ok(forms)
}
