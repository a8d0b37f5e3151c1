//! The databases after an action, before they are closed, and whether closing is at its end there. `docs/RULES.md`,
//! "Progression".
ghost use Rattle.std.specs.Prelude.{◌≡◌, true, false, length, IsTrue, IfOk};
ghost use Rattle.std.specs.List.{list_any};
ghost use Rattle.pks_terms.specs.Sets.{Each, IsOrdered};
ghost use Rattle.pks_terms.specs.Syntax.{negated};
ghost use Rattle.pks_terms.specs.Databases.{holds};
ghost use Rattle.pks_terms.specs.Orders.{literal_cmp};
ghost use Rattle.pks_terms.specs.Signatures.{HasValues};
ghost use Rattle.pks_terms.specs.Closure.{IsClosed};
ghost use Rattle.pks_terms.specs.Moments.{IsInOrder};
ghost use Rattle.pks_terms.specs.Views.{signature_of};
ghost use Rattle.pks_kf.specs.Known.{literals_of};
ghost use Rattle.pks_query_lookup.specs.Fives.{five_of};
ghost use Rattle.pks_query_lookup.specs.Tables.{GiveAlike};
ghost use Rattle.pks_query_lookup.specs.Forms.{HasItsForms};
ghost use Rattle.pks_progress_interference.specs.EffectViews.{effects_in};
ghost use Rattle.pks_progress.specs.Ahead.{assign_nothing, PutsIn, BringsNothing, IsStill, five_ahead, IsAhead};

use crate::loose::{assign_nothing, bring_nothing};
use pks_progress_interference::effects::Effects;
use pks_query_lookup::derived::Derived;
use pks_query_lookup::five::Five;
use pks_terms::literal::Literal;
use pks_terms::problem::Signature;
use std::alloc::{AllocError, Global};

/// The databases after an action, before they are closed.
#[derive(Drop)]
pub(crate) enum Ahead {
    /// The rules add nothing to them, and nothing clashes.
    Still(Derived),
    /// The rules may add something, or something may clash.
    Grown(Five),
}

/// What lasts of databases, the literals that adds give, and both together.
#[derive(Drop)]
pub(crate) struct PutIn {
    pub(crate) kept: Five,
    pub(crate) literals: Vec<Literal>,
    pub(crate) five: Five,
}

/// Whether there is no new region, and each of the literals was known or is loose.
fn brings_nothing(kept: &Five, literals: &[Literal], five: &Five) -> bool
    ensures tells { IsTrue result → BringsNothing (five_of kept.now) (literals_of literals.now) (five_of five.now) }
    ensures ordered { IsOrdered literal_cmp (literals_of kept.now.kf) }
{
    let _known = kept.kf.len();
    five.lcw.len() == kept.lcw.len() && bring_nothing(&kept.kf, &kept.kx, literals)
}

/// Reads the databases beside those before these effects, where the values are the same.
fn read(alloc: Global, d: &Derived, es: Effects<'_>, five: Five) -> Result<Derived, AllocError>
    requires forms { HasItsForms (literals_of five.kf) }
    requires values { assign_nothing (effects_in es) ≡ true → GiveAlike (literals_of five.kf) (literals_of d.now.kf) }
    ensures { IfOk result (λ e. e ≡ five) }
{
    if assign_nothing(es) {
        let next = d.beside(five)?;
        return Ok(next);
    }
    let next = Derived::of_normal(alloc, five)?;
    Ok(next)
}

/// Whether closing is at its end at these databases, to which the rules add nothing: it is where they deny none of the
/// literals.
fn still_or_denied(
    alloc: Global,
    s: &Signature,
    d: &Derived,
    es: Effects<'_>,
    literals: &[Literal],
    five: Five,
) -> Result<Ahead, AllocError>
    requires forms { HasItsForms (literals_of five.kf) }
    requires values { assign_nothing (effects_in es) ≡ true → GiveAlike (literals_of five.kf) (literals_of d.now.kf) }
    requires still { list_any (λ l. holds (signature_of s.now) (five_of five) (negated l)) (literals_of literals.now) ≡ false → IsStill (signature_of s.now) (five_of five) }
    ensures five { IfOk result (λ a. five_ahead a ≡ five_of five) }
    ensures still { IfOk result (λ a. IsAhead (signature_of s.now) a) }
{
    let next = read(alloc, d, es, five)?;
    if next.some_denied(s, literals) {
        return Ok(Ahead::Grown(next.into_five()));
    }
    Ok(Ahead::Still(next))
}

/// Whether closing is at its end where the literals are put into what these effects leave of closed databases.
pub(crate) fn grown_or_still(
    alloc: Global,
    s: &Signature,
    d: &Derived,
    es: Effects<'_>,
    put: PutIn,
) -> Result<Ahead, AllocError>
    requires values { HasValues (signature_of s.now) }
    requires closed { IsClosed (signature_of s.now) (five_of d.now) }
    requires sides { Each IsInOrder (literals_of d.now.kf) }
    requires puts { PutsIn (signature_of s.now) (five_of d.now) (effects_in es) (five_of put.kept) (literals_of put.literals.items) (five_of put.five) }
    ensures five { IfOk result (λ a. five_ahead a ≡ five_of put.five) }
    ensures still { IfOk result (λ a. IsAhead (signature_of s.now) a) }
{
    let PutIn {
        kept,
        literals,
        five,
    } = put;
    if !brings_nothing(&kept, literals.as_slice(), &five) {
        return Ok(Ahead::Grown(five));
    }
    still_or_denied(alloc, s, d, es, literals.as_slice(), five)
}
