//! Effects with their targets in normal form. `docs/RULES.md` has the rule on normal forms.
ghost use Rattle.std.specs.Prelude.{◌≡◌, ℕ, map, IfOk};
ghost use Rattle.pks_terms.specs.Databases.{inner_normal};
ghost use Rattle.pks_terms.specs.Orders.{number_of, arguments_of};
ghost use Rattle.pks_terms.specs.ValidProblems.{IsApplication, AssignsToPlace, ArePlaced};
ghost use Rattle.pks_terms.specs.Views.{term_of, target_of, effect_of};
ghost use Rattle.pks_kf.specs.Known.{literals_of};
ghost use Rattle.pks_query_lookup.specs.Reading.{first_inners};
ghost use Rattle.pks_laws_forget.specs.Transparent.{normal_target, with_normal};

use pks_query_lookup::atoms::normal_atom;
use pks_query_lookup::normals::Normals;
use pks_terms::schema::{Effect, Target};
use pks_terms::term::{Inner, Term};
use std::alloc::{AllocError, Global};

fn normal_inners(by: &Normals, args: &[Inner; 2]) -> [Inner; 2]
    ensures { (n : ℕ) → first_inners n result ≡ map (inner_normal (literals_of by.now.kf)) (first_inners n args.now) }
{
    [by.normal_inner(&args[0]), by.normal_inner(&args[1])]
}

/// The place of an assignment: the function stays, and its arguments come in normal form.
fn normal_place(by: &Normals, place: &Term) -> Term
    ensures number { number_of (term_of result) ≡ number_of (term_of place.now) }
    ensures arguments { arguments_of (term_of result) ≡ map (inner_normal (literals_of by.now.kf)) (arguments_of (term_of place.now)) }
    ensures placed { IsApplication place.now → IsApplication result }
{
    match place {
        Term::Obj(_) | Term::Param(_) => *place,
        Term::App { fun, n, args } => Term::App {
            fun: *fun,
            n: *n,
            args: normal_inners(by, args),
        },
    }
}

/// The target, its arguments and what it assigns in normal form.
fn normal_target(by: &Normals, x: &Target) -> Target
    ensures says { target_of result ≡ normal_target (literals_of by.now.kf) (target_of x.now) }
    ensures placed { AssignsToPlace x.now → AssignsToPlace result }
{
    match x {
        Target::Set(a) => Target::Set(normal_atom(by, a)),
        Target::Unset(a) => Target::Unset(normal_atom(by, a)),
        Target::Clear(y) => Target::Clear(*y),
        Target::Assign { place, value } => Target::Assign {
            place: normal_place(by, place),
            value: by.normal(value),
        },
    }
}

fn with_normal(by: &Normals, e: &Effect) -> Effect
    ensures says { effect_of result ≡ with_normal (literals_of by.now.kf) (effect_of e.now) }
    ensures placed { AssignsToPlace e.now.target → AssignsToPlace result.target }
{
    Effect {
        cond: e.cond,
        target: normal_target(by, &e.target),
    }
}

/// The effects with their targets in normal form. The error is want of memory.
pub(crate) fn in_normal_form(
    alloc: Global,
    by: &Normals,
    written: &[Effect],
) -> Result<Vec<Effect>, AllocError>
    requires { ArePlaced written.now }
    ensures says { IfOk result (λ v. map effect_of v.items ≡ map (with_normal (literals_of by.now.kf)) (map effect_of written.now)) }
    ensures placed { IfOk result (λ v. ArePlaced v.items) }
{
    let mut effects = Vec::new(alloc);
    for e in written {
        effects.push(with_normal(by, e))?;
    }
    Ok(effects)
}
