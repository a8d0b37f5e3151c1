//! Closing, and clashes. `docs/RULES.md` has the rules.
ghost use Rattle.std.specs.Prelude.{◌≡◌, ◌≤◌, List, [], ◌∷◌, map, length, Some, IfOk, IfErr};
ghost use Rattle.std.specs.List.{find};
ghost use Rattle.std.specs.Option.{option_map};
ghost use Rattle.pks_terms.specs.declared.limits.TheConstants.{MOST_OBJECTS};
ghost use Rattle.pks_terms.specs.Databases.{Five as SFive};
ghost use Rattle.pks_terms.specs.Orders.{literal_cmp};
ghost use Rattle.pks_terms.specs.Sets.{IsOrdered};
ghost use Rattle.pks_terms.specs.Worlds.{World};
ghost use Rattle.pks_terms.specs.Meaning.{IsTrueOf};
ghost use Rattle.pks_terms.specs.Signatures.{HasValues};
ghost use Rattle.pks_terms.specs.Valid.{AreOf};
ghost use Rattle.pks_terms.specs.Closure.{first_clash, Closes, Next, Clash};
ghost use Rattle.pks_terms.specs.Views.{literal_of, signature_of};
ghost use Rattle.pks_terms.specs.Moments.{AreInOrder, IsMomentOf};
ghost use Rattle.pks_query_lookup.specs.Fives.{five_of};
ghost use Rattle.pks_query_closing.specs.Closing.{IfClash};
ghost use Rattle.pks_query_closing.specs.Working.{EndsWith, IsWorked};
ghost use Rattle.pks_query_closing.specs.declared.closing.CloseEnd.TheVariants.{Memory};

use crate::clashing::least_clash;
use crate::rounds::last_round;
use crate::tidied::with_normal_parts;
use crate::working::work_out;
use pks_query_lookup::derived::Derived;
use pks_query_lookup::five::Five;
use pks_terms::literal::Literal;
use pks_terms::problem::Signature;
use std::alloc::{AllocError, Global};
use std::mem::drop;

/// Why databases have no closed form.
#[derive(Drop)]
pub enum CloseEnd {
    /// The least literal that is known and derived false.
    Clash(Literal),
    /// Memory ran out.
    Memory,
}

impl From<AllocError> for CloseEnd {
    ghost from_gives = { λ _ e. e ≡ Memory };

    fn from(_error: AllocError) -> CloseEnd {
        CloseEnd::Memory
    }
}

/// The least known literal of which the negation holds, or `None` where there is none. It takes no memory.
#[tactic(auto, unfolding(pks_terms::specs::Closure::first_clash))]
pub fn first_clash(s: &Signature, d: &Derived) -> Option<Literal>
    ensures { option_map literal_of result ≡ first_clash (signature_of s.now) (five_of d.now) }
{
    for l in d.five().kf.items() {
        if d.denies(s, l) {
            return Some(*l);
        }
    }
    None
}

/// The databases closed: rounds until one changes nothing, then normal forms. It asks for at most 65,536 objects. The
/// error is `Clash` with the least literal that is known and derived false, exactly where there is one after the last
/// round, and `Memory` where memory runs out.
pub fn close(alloc: Global, s: &Signature, five: Five) -> Result<Derived, CloseEnd>
    requires { length s.now.objects ≤ MOST_OBJECTS }
    ensures closes { IfOk result (λ d. Closes (signature_of s.now) (five_of five) (Next (five_of d))) }
    ensures clashes { IfErr result (IfClash (λ l. Closes (signature_of s.now) (five_of five) (Clash (literal_of l)))) }
    ensures keeps_truth { IfOk result (λ d. (w w' : World) → IsTrueOf (signature_of s.now) w w' (five_of five) → IsTrueOf (signature_of s.now) w w' (five_of d)) }
    ensures true_of_none { IfErr result (IfClash (λ _. (w w' : World) → IsTrueOf (signature_of s.now) w w' (five_of five) → ⊥)) }
    ensures moment { IfOk result (λ d. HasValues (signature_of s.now) → AreOf (signature_of s.now) (five_of five) → AreInOrder (five_of five) → IsMomentOf (signature_of s.now) (five_of d)) }
{
    let last = last_round(alloc, s, five)?;
    let clash = least_clash(alloc, s, &last)?;
    match clash {
        Some(l) => {
            drop(last);
            Err(CloseEnd::Clash(l))
        }
        None => {
            let d = with_normal_parts(alloc, last)?;
            Ok(d)
        }
    }
}

/// The last databases with normal parts, or `None` where one of their known literals is derived false. The error is want of memory.
fn tidied_unless_clash(
    alloc: Global,
    s: &Signature,
    last: Derived,
) -> Result<Option<Derived>, AllocError>
    requires { HasValues (signature_of s.now) }
    ensures { IfOk result (λ o. (d : SFive) → IsOrdered literal_cmp d.kf → IsWorked (signature_of s.now) d (Some last) → EndsWith (Closes (signature_of s.now) d) o) }
{
    let _known = last.five().kf.len();
    match least_clash(alloc, s, &last) {
        Ok(None) => {
            let d = with_normal_parts(alloc, last)?;
            Ok(Some(d))
        }
        Ok(Some(_clash)) => {
            drop(last);
            Ok(None)
        }
        Err(error) => {
            drop(last);
            Err(error)
        }
    }
}

/// The databases closed, or `None` where there is a clash, which isn't named: it is seen where two values of one place, or
/// a value and its denial, come to be known. It asks for at most 65,536 objects, and for an object of each function's
/// result type. The error is want of memory.
pub fn close_unless_clash(
    alloc: Global,
    s: &Signature,
    five: Five,
) -> Result<Option<Derived>, AllocError>
    requires few { length s.now.objects ≤ MOST_OBJECTS }
    requires values { HasValues (signature_of s.now) }
    ensures { IfOk result (λ o. EndsWith (Closes (signature_of s.now) (five_of five)) o) }
{
    let _start = five.kf.len();
    match work_out(alloc, s, five)? {
        None => Ok(None),
        Some(last) => tidied_unless_clash(alloc, s, last),
    }
}
