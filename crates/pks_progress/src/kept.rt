//! What an action leaves of databases. `docs/RULES.md`, "Progression".
ghost use Rattle.std.specs.Prelude.{◌≡◌, ◌&&◌, not, map, IfOk};
ghost use Rattle.std.specs.List.{filter};
ghost use Rattle.pks_terms.specs.Progress.{is_untouched};
ghost use Rattle.pks_terms.specs.Spoiling.{is_stable, spoils};
ghost use Rattle.pks_terms.specs.Syntax.{negated};
ghost use Rattle.pks_terms.specs.Views.{conj_of, literal_of, literals_in, signature_of, term_of, terms_of};
ghost use Rattle.pks_kf.specs.Known.{literals_of};
ghost use Rattle.pks_kw.specs.Formulas.{formulas_of};
ghost use Rattle.pks_kx.specs.Groups.{groups_of};
ghost use Rattle.pks_query_lookup.specs.Fives.{five_of};
ghost use Rattle.pks_progress_interference.specs.EffectViews.{effects_in};
ghost use Rattle.pks_progress.specs.Kept.{kept_after};

use crate::regions::kept_regions;
use pks_kf::Kf;
use pks_kv::Kv;
use pks_kw::Kw;
use pks_kx::Kx;
use pks_progress_interference::effects::Effects;
use pks_progress_interference::spoiled::{is_stable, spoils};
use pks_query_lookup::derived::Derived;
use pks_query_lookup::five::Five;
use pks_terms::literal::{Conj, Literal};
use pks_terms::problem::Signature;
use pks_terms::term::front;
use std::alloc::{AllocError, Global};

fn is_untouched(s: &Signature, d: &Derived, es: Effects<'_>, literals: &[Literal]) -> bool
    ensures { result ≡ is_untouched (signature_of s.now) (five_of d.now) (effects_in es.entry) (literals_in literals.now) }
{
    for l in literals {
        if !(!spoils(s, d, es, l) && !spoils(s, d, es, &l.negated())) {
            return false;
        }
    }
    true
}

fn is_formula_untouched(s: &Signature, d: &Derived, es: Effects<'_>, c: &Conj) -> bool
    ensures { result ≡ is_untouched (signature_of s.now) (five_of d.now) (effects_in es.entry) (conj_of c.now) }
{
    is_untouched(s, d, es, front(&c.literals, c.n))
}

/// The literals that the effects don't spoil. They share each part of the tree in which none is spoiled.
fn kept_literals(
    alloc: Global,
    s: &Signature,
    d: &Derived,
    es: Effects<'_>,
) -> Result<Kf, AllocError>
    ensures { IfOk result (λ kf. literals_of kf ≡ filter (λ l. not (spoils (signature_of s.now) (five_of d.now) (effects_in es.entry) l)) (literals_of d.now.kf)) }
{
    let kept = d.five().kf.kept(alloc, |l| !spoils(s, d, es, l))?;
    Ok(kept)
}

/// The formulas of which no literal is spoiled, and the negation of none.
fn kept_formulas(
    alloc: Global,
    s: &Signature,
    d: &Derived,
    es: Effects<'_>,
) -> Result<Kw, AllocError>
    ensures { IfOk result (λ kw. formulas_of kw ≡ filter (is_untouched (signature_of s.now) (five_of d.now) (effects_in es.entry)) (formulas_of d.now.kw)) }
{
    let kept = d
        .five()
        .kw
        .kept(alloc, |c| is_formula_untouched(s, d, es, c))?;
    Ok(kept)
}

/// The stable terms.
fn kept_terms(alloc: Global, s: &Signature, d: &Derived, es: Effects<'_>) -> Result<Kv, AllocError>
    ensures { IfOk result (λ kv. terms_of kv ≡ filter (is_stable (signature_of s.now) (five_of d.now) (effects_in es.entry)) (terms_of d.now.kv)) }
{
    let kept = d.five().kv.kept(alloc, |t| is_stable(s, d, es, t))?;
    Ok(kept)
}

/// The groups of which no literal is spoiled, and the negation of none.
fn kept_groups(alloc: Global, s: &Signature, d: &Derived, es: Effects<'_>) -> Result<Kx, AllocError>
    ensures { IfOk result (λ kx. groups_of kx ≡ filter (is_untouched (signature_of s.now) (five_of d.now) (effects_in es.entry)) (groups_of d.now.kx)) }
{
    let kept = d
        .five()
        .kx
        .kept(alloc, |g| is_untouched(s, d, es, g.as_slice()))?;
    Ok(kept)
}

/// What of the known literals and of the formulas lasts.
fn kept_sentences(
    alloc: Global,
    s: &Signature,
    d: &Derived,
    es: Effects<'_>,
) -> Result<(Kf, Kw), AllocError>
    ensures literals { IfOk result (λ kept. literals_of kept.0 ≡ (kept_after (signature_of s.now) (five_of d.now) (effects_in es.entry)).kf) }
    ensures formulas { IfOk result (λ kept. formulas_of kept.1 ≡ (kept_after (signature_of s.now) (five_of d.now) (effects_in es.entry)).kw) }
{
    let kf = kept_literals(alloc, s, d, es)?;
    let kw = kept_formulas(alloc, s, d, es)?;
    Ok((kf, kw))
}

/// What of the terms and of the groups lasts.
fn kept_sides(
    alloc: Global,
    s: &Signature,
    d: &Derived,
    es: Effects<'_>,
) -> Result<(Kv, Kx), AllocError>
    ensures terms { IfOk result (λ kept. terms_of kept.0 ≡ (kept_after (signature_of s.now) (five_of d.now) (effects_in es.entry)).kv) }
    ensures groups { IfOk result (λ kept. groups_of kept.1 ≡ (kept_after (signature_of s.now) (five_of d.now) (effects_in es.entry)).kx) }
{
    let kv = kept_terms(alloc, s, d, es)?;
    let kx = kept_groups(alloc, s, d, es)?;
    Ok((kv, kx))
}

/// What of the five lasts.
pub(crate) fn kept_after(
    alloc: Global,
    s: &Signature,
    d: &Derived,
    es: Effects<'_>,
) -> Result<Five, AllocError>
    ensures { IfOk result (λ five. five_of five ≡ kept_after (signature_of s.now) (five_of d.now) (effects_in es.entry)) }
{
    let (kf, kw) = kept_sentences(alloc, s, d, es)?;
    let (kv, kx) = kept_sides(alloc, s, d, es)?;
    let lcw = kept_regions(alloc, s, d, es)?;
    Ok(Five {
        kf,
        kw,
        kv,
        kx,
        lcw,
    })
}
