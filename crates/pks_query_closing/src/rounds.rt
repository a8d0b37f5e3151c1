//! Rounds: what they add, and the last of them. `docs/RULES.md` has the rules.
ghost use Rattle.std.specs.Prelude.{◌≡◌, ◌≤◌, ◌<◌, ◌^◌, List, [], ◌∷◌, ◌++◌, map, length, Option, Some, None, IfOk};
ghost use Rattle.pks_terms.specs.declared.limits.TheConstants.{MOST_OBJECTS};
ghost use Rattle.pks_terms.specs.Sets.{added};
ghost use Rattle.pks_terms.specs.Syntax.{Literal as SLiteral};
ghost use Rattle.pks_terms.specs.Orders.{literal_cmp};
ghost use Rattle.pks_terms.specs.Closure.{additions, round};
ghost use Rattle.pks_terms.specs.Views.{literal_of, signature_of};
ghost use Rattle.pks_kf.specs.Known.{literals_of};
ghost use Rattle.pks_query_lookup.specs.Fives.{five_of};
ghost use Rattle.pks_query_closing.specs.Rounds.{HaveSameMembers, added_once, IsNextRound, IsLastRound};

use crate::groups::put_by_groups;
use crate::ranges::put_by_ranges;
use crate::steps::by_values;
use pks_kf::Kf;
use pks_query_lookup::derived::Derived;
use pks_query_lookup::five::Five;
use pks_terms::literal::Literal;
use pks_terms::problem::Signature;
use std::alloc::{AllocError, Global};
use std::mem::drop;

#[tactic(auto, using(crate::proofs::Members::members))]
fn added_once(alloc: Global, s: &Signature, d: &Derived) -> Result<Vec<Literal>, AllocError>
    requires { length s.now.objects ≤ MOST_OBJECTS }
    ensures { IfOk result (λ v. literals_of v.items ≡ added_once (signature_of s.now) (five_of d.now)) }
{
    let mut all = by_values(alloc, d.normals())?;
    put_by_groups(&mut all, s, d)?;
    put_by_ranges(alloc, &mut all, s, d)?;
    Ok(all)
}

/// What the rules add to the known literals: by known values, by groups, and by the last value left. Put into the known
/// literals, also with more of them, they give what all additions give. It asks for at most 65,536 objects. The one error
/// is want of memory.
pub fn additions(alloc: Global, s: &Signature, d: &Derived) -> Result<Vec<Literal>, AllocError>
    requires { length s.now.objects ≤ MOST_OBJECTS }
    ensures members { IfOk result (λ v. HaveSameMembers (literals_of v.items) (additions (signature_of s.now) (five_of d.now))) }
    ensures with_more { IfOk result (λ v. (more : List SLiteral) → added literal_cmp (literals_of d.now.kf) (literals_of v.items ++ more) ≡ added literal_cmp (literals_of d.now.kf) (additions (signature_of s.now) (five_of d.now) ++ more)) }
    ensures round { IfOk result (λ v. added literal_cmp (literals_of d.now.kf) (literals_of v.items) ≡ (round (signature_of s.now) (five_of d.now)).kf) }
{
    let _known = d.five().kf.len();
    let all = added_once(alloc, s, d)?;
    Ok(all)
}

/// The known literals after one more round.
fn known_after(alloc: Global, s: &Signature, d: &Derived) -> Result<Kf, AllocError>
    requires { length s.now.objects ≤ MOST_OBJECTS }
    ensures { IfOk result (λ kf. literals_of kf ≡ (round (signature_of s.now) (five_of d.now)).kf) }
{
    let more = additions(alloc, s, d)?;
    let kf = d.five().kf.with_all(alloc, more)?;
    Ok(kf)
}

/// The five after one more round, or `None` where a round changes nothing. It asks for at most 65,536 objects.
pub(crate) fn next_round(
    alloc: Global,
    s: &Signature,
    d: &Derived,
) -> Result<Option<Five>, AllocError>
    requires { length s.now.objects ≤ MOST_OBJECTS }
    ensures { IfOk result (λ o. IsNextRound (signature_of s.now) d.now o) }
{
    let kf = known_after(alloc, s, d)?;
    let five = d.five();
    if kf.len() == five.kf.len() {
        return Ok(None);
    }
    let next = five.with_known(kf)?;
    Ok(Some(next))
}

/// The databases after the last round: the next one equals it. It asks for at most 65,536 objects. The one error is want
/// of memory.
pub fn last_round(alloc: Global, s: &Signature, five: Five) -> Result<Derived, AllocError>
    requires { length s.now.objects ≤ MOST_OBJECTS }
    ensures { IfOk result (λ d. IsLastRound (signature_of s.now) (five_of five) (five_of d)) }
{
    let mut d = Derived::of(alloc, five)?;
    'rounds: loop {
        match next_round(alloc, s, &d) {
            Err(error) => {
                drop(d);
                return Err(error);
            }
            Ok(None) => return Ok(d),
            Ok(Some(next)) => {
                drop(d);
                d = Derived::of(alloc, next)?;
            }
        }
    }
}
