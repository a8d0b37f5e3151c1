//! What exclusive groups add.
ghost use Rattle.std.specs.Prelude.{◌≡◌, ℕ, not, ◌&&◌, List, [], ◌∷◌, ◌++◌, map, OnOk, if◌then◌else◌};
ghost use Rattle.std.specs.List.{list_all, flat_map};
ghost use Rattle.pks_terms.specs.Syntax.{negated};
ghost use Rattle.pks_terms.specs.Databases.{holds};
ghost use Rattle.pks_terms.specs.Closure.{by_group, by_member};
ghost use Rattle.pks_terms.specs.Views.{literal_of, signature_of};
ghost use Rattle.pks_kx.specs.Groups.{groups_of};
ghost use Rattle.pks_query_lookup.specs.Fives.{five_of};

use pks_query_lookup::derived::Derived;
use pks_terms::literal::Literal;
use pks_terms::problem::Signature;
use std::alloc::AllocError;

/// Whether the negations of all these hold.
#[tactic(auto, using(crate::proofs::Members::members))]
fn all_denied(s: &Signature, d: &Derived, ls: &[Literal]) -> bool
    ensures { result ≡ list_all (λ m. holds (signature_of s.now) (five_of d.now) (negated m)) (map literal_of ls.now) }
{
    for l in ls {
        if !d.denies(s, l) {
            return false;
        }
    }
    true
}

/// Puts the negations of these after the others.
#[tactic(auto, using(crate::proofs::Members::members))]
fn put_negated(to: &mut Vec<Literal>, ls: &[Literal]) -> Result<(), AllocError>
    ensures { OnOk result (map literal_of to.new.items ≡ map literal_of to.old.items ++ map negated (map literal_of ls.now)) }
{
    for l in ls {
        to.push(l.negated())?;
    }
    Ok(())
}

/// Puts the member after the others, where the negations of all other members hold.
#[tactic(auto, using(crate::proofs::Members::members))]
fn put_forced(
    to: &mut Vec<Literal>,
    s: &Signature,
    d: &Derived,
    l: &Literal,
    before: &[Literal],
    after: &[Literal],
) -> Result<(), AllocError>
    ensures { OnOk result (map literal_of to.new.items ≡ map literal_of to.old.items ++ (if list_all (λ m. holds (signature_of s.now) (five_of d.now) (negated m)) (map literal_of before.now ++ map literal_of after.now) then literal_of l.now ∷ [] else [])) }
{
    if all_denied(s, d, before) && all_denied(s, d, after) {
        to.push(*l)?;
        return Ok(());
    }
    Ok(())
}

/// Puts the negations of the other members after the others, where the member holds.
#[tactic(auto, using(crate::proofs::Members::members))]
fn put_others(
    to: &mut Vec<Literal>,
    s: &Signature,
    d: &Derived,
    l: &Literal,
    before: &[Literal],
    after: &[Literal],
) -> Result<(), AllocError>
    ensures { OnOk result (map literal_of to.new.items ≡ map literal_of to.old.items ++ (if holds (signature_of s.now) (five_of d.now) (literal_of l.now) then map negated (map literal_of before.now ++ map literal_of after.now) else [])) }
{
    if d.holds(s, l) {
        put_negated(to, before)?;
        put_negated(to, after)?;
        return Ok(());
    }
    Ok(())
}

/// Puts what the rules give of one member after the others.
#[tactic(auto, using(crate::proofs::Members::members))]
fn put_by_member(
    to: &mut Vec<Literal>,
    s: &Signature,
    d: &Derived,
    l: &Literal,
    before: &[Literal],
    after: &[Literal],
) -> Result<(), AllocError>
    ensures { OnOk result (map literal_of to.new.items ≡ map literal_of to.old.items ++ by_member (signature_of s.now) (five_of d.now) (literal_of l.now, map literal_of before.now ++ map literal_of after.now)) }
{
    put_forced(to, s, d, l, before, after)?;
    put_others(to, s, d, l, before, after)?;
    Ok(())
}

/// Puts what the rules give of a group after the others. The one error is want of memory.
#[tactic(auto, unfolding(pks_terms::specs::Closure::by_group))]
pub(crate) fn put_by_group(
    to: &mut Vec<Literal>,
    s: &Signature,
    d: &Derived,
    g: &[Literal],
) -> Result<(), AllocError>
    ensures { OnOk result (map literal_of to.new.items ≡ map literal_of to.old.items ++ by_group (signature_of s.now) (five_of d.now) (map literal_of g.now)) }
{
    for i in 0..g.len() {
        let (before, rest) = g.split_at(i);
        let Some((l, after)) = rest.split_first() else {
            return Ok(());
        };
        put_by_member(to, s, d, l, before, after)?;
    }
    Ok(())
}

/// Puts what the groups add after the others: the member of which all others are denied, and the negations of the others,
/// where one holds. `docs/RULES.md` has the rule. The one error is want of memory.
#[tactic(auto, using(crate::proofs::Members::members))]
pub fn put_by_groups(to: &mut Vec<Literal>, s: &Signature, d: &Derived) -> Result<(), AllocError>
    ensures { OnOk result (map literal_of to.new.items ≡ map literal_of to.old.items ++ flat_map (by_group (signature_of s.now) (five_of d.now)) (groups_of d.now.kx)) }
{
    for g in d.five().kx.items() {
        put_by_group(to, s, d, g.as_slice())?;
    }
    Ok(())
}
