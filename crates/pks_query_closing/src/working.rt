//! Rounds between which a work list puts in what follows by values, ranges and groups, and that end where a clash is seen.
ghost use Rattle.std.specs.Prelude.{◌≡◌, ◌≤◌, length, IfOk};
ghost use Rattle.pks_terms.specs.declared.limits.TheConstants.{MOST_OBJECTS};
ghost use Rattle.pks_terms.specs.Signatures.{HasValues};
ghost use Rattle.pks_terms.specs.Views.{signature_of};
ghost use Rattle.pks_query_lookup.specs.Fives.{five_of};
ghost use Rattle.pks_query_closing.specs.Working.{GrowsTo, IsWorked};

use crate::carrying::carry;
use crate::clashing::values_clash;
use crate::rounds::next_round;
use pks_query_lookup::derived::Derived;
use pks_query_lookup::five::Five;
use pks_terms::problem::Signature;
use std::alloc::{AllocError, Global};
use std::mem::drop;

/// The databases with what follows from them by what the old ones don't have.
fn grow(alloc: Global, s: &Signature, old: &Derived, five: Five) -> Result<Derived, AllocError>
    requires few { length s.now.objects ≤ MOST_OBJECTS }
    requires values { HasValues (signature_of s.now) }
    ensures { IfOk result (λ e. GrowsTo (signature_of s.now) (five_of five) (five_of e)) }
{
    let more = carry(alloc, s, old, five)?;
    let next = Derived::of(alloc, more)?;
    Ok(next)
}

/// All that follows by the rules, or `None` where a clash of values is seen on the way. It asks for at most 65,536 objects,
/// and for an object of each function's result type. The error is want of memory.
pub(crate) fn work_out(
    alloc: Global,
    s: &Signature,
    five: Five,
) -> Result<Option<Derived>, AllocError>
    requires few { length s.now.objects ≤ MOST_OBJECTS }
    requires values { HasValues (signature_of s.now) }
    ensures { IfOk result (λ o. IsWorked (signature_of s.now) (five_of five) o) }
{
    let _known = five.kf.len();
    let mut d = Derived::of(alloc, five)?;
    'rounds: loop {
        if values_clash(s, &d) {
            drop(d);
            return Ok(None);
        }
        match next_round(alloc, s, &d) {
            Err(error) => {
                drop(d);
                return Err(error);
            }
            Ok(None) => return Ok(Some(d)),
            Ok(Some(next)) => {
                let grown = grow(alloc, s, &d, next);
                drop(d);
                d = grown?;
            }
        }
    }
}
