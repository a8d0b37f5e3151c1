//! What adds give, one after another.
ghost use Rattle.std.specs.Prelude.{◌≡◌, ◌++◌, [], IfOk, OnOk};
ghost use Rattle.pks_terms.specs.Views.{terms_of, add_of};
ghost use Rattle.pks_kf.specs.Known.{literals_of};
ghost use Rattle.pks_kw.specs.Formulas.{formulas_of};
ghost use Rattle.pks_lcw.specs.Entries.{entries_of};
ghost use Rattle.pks_progress_adds.specs.Deeds.{AssignsToPlaces, listed, literals_from, formulas_from, values_from, regions_from, if_applied, given_by};

use crate::deed::Deed;
use pks_lcw::Entry;
use pks_terms::literal::{Conj, Literal};
use pks_terms::schema::Adds;
use pks_terms::term::Term;
use std::alloc::{AllocError, Global};

/// What the adds of an action give, before it is put into the databases.
#[derive(Drop)]
pub struct Gains {
    /// Known literals.
    pub kf: Vec<Literal>,
    /// Formulas whose truth will be known.
    pub kw: Vec<Conj>,
    /// Terms whose values will be known.
    pub kv: Vec<Term>,
    /// Regions of which all true instances are known.
    pub lcw: Vec<Entry>,
}

impl Gains {
    /// Nothing. It takes no memory.
    pub fn none(alloc: Global) -> Gains
        ensures literals { result.kf.items ≡ [] }
        ensures formulas { result.kw.items ≡ [] }
        ensures values { result.kv.items ≡ [] }
        ensures regions { result.lcw.items ≡ [] }
    {
        Gains {
            kf: Vec::new(alloc),
            kw: Vec::new(alloc),
            kv: Vec::new(alloc),
            lcw: Vec::new(alloc),
        }
    }
}

/// Puts the item, if there is one, after the others.
#[tactic(auto, using(crate::proofs::Lists::read))]
fn push<T: Drop>(to: &mut Vec<T>, item: Option<T>) -> Result<(), AllocError>
    ensures { OnOk result (to.new.items ≡ to.old.items ++ listed item) }
{
    if let Some(item) = item {
        to.push(item)?;
    }
    Ok(())
}

/// Puts what the add gives, if it is applied, after the others.
#[tactic(auto, using(crate::proofs::Lists::read))]
fn apply(deed: &Deed<'_, '_>, a: &Adds, gains: &mut Gains) -> Result<(), AllocError>
    requires { AssignsToPlaces deed.now }
    ensures literals { OnOk result (literals_of gains.new.kf.items ≡ literals_of gains.old.kf.items ++ if_applied literals_from deed.now (add_of a.now)) }
    ensures formulas { OnOk result (formulas_of gains.new.kw.items ≡ formulas_of gains.old.kw.items ++ if_applied formulas_from deed.now (add_of a.now)) }
    ensures values { OnOk result (terms_of gains.new.kv.items ≡ terms_of gains.old.kv.items ++ if_applied values_from deed.now (add_of a.now)) }
    ensures regions { OnOk result (entries_of gains.new.lcw.items ≡ entries_of gains.old.lcw.items ++ if_applied regions_from deed.now (add_of a.now)) }
{
    if deed.is_applied(a) {
        push(&mut gains.kf, deed.literal(a))?;
        push(&mut gains.kw, deed.formula(a))?;
        push(&mut gains.kv, deed.value(a))?;
        push(&mut gains.lcw, deed.region(a))?;
    }
    Ok(())
}

/// What these adds of the action give.
pub fn gains_of(alloc: Global, deed: &Deed<'_, '_>, adds: &[Adds]) -> Result<Gains, AllocError>
    requires { AssignsToPlaces deed.now }
    ensures literals { IfOk result (λ g. literals_of g.kf.items ≡ given_by literals_from deed.now adds.now) }
    ensures formulas { IfOk result (λ g. formulas_of g.kw.items ≡ given_by formulas_from deed.now adds.now) }
    ensures values { IfOk result (λ g. terms_of g.kv.items ≡ given_by values_from deed.now adds.now) }
    ensures regions { IfOk result (λ g. entries_of g.lcw.items ≡ given_by regions_from deed.now adds.now) }
{
    let mut gains = Gains::none(alloc);
    for a in adds {
        apply(deed, a, &mut gains)?;
    }
    Ok(gains)
}
