//! Clashes: those of values, which are seen before a round makes more of them, and the least. `docs/RULES.md` has the rules.
ghost use Rattle.std.specs.Prelude.{◌≡◌, true, IsTrue, IfOk};
ghost use Rattle.std.specs.Option.{option_map};
ghost use Rattle.std.specs.List.{find};
ghost use Rattle.pks_terms.specs.Syntax.{negated};
ghost use Rattle.pks_terms.specs.Databases.{holds};
ghost use Rattle.pks_terms.specs.Closure.{first_clash};
ghost use Rattle.pks_terms.specs.Views.{literal_of, signature_of};
ghost use Rattle.pks_query_lookup.specs.Fives.{five_of};
ghost use Rattle.pks_lcw.specs.Entries.{entries_of};
ghost use Rattle.pks_query_closing.specs.Listing.{StandFor};
ghost use Rattle.pks_query_closing.specs.Working.{SomeDenied};

use crate::listing::{denies, kinds};
use pks_lcw::Entry;
use pks_query_lookup::derived::Derived;
use pks_query_lookup::literals::gives_value;
use pks_terms::literal::Literal;
use pks_terms::problem::Signature;
use std::alloc::{AllocError, Global};

/// Whether the literal gives a value, and its negation holds.
fn is_denied_value(s: &Signature, d: &Derived, l: &Literal) -> bool
    ensures { IsTrue result → holds (signature_of s.now) (five_of d.now) (negated (literal_of l.now)) ≡ true }
{
    gives_value(l) && d.denies(s, l)
}

/// Whether the negation of a known literal that gives a value holds. It takes no memory.
pub(crate) fn values_clash(s: &Signature, d: &Derived) -> bool
    ensures { IsTrue result → SomeDenied (signature_of s.now) (five_of d.now) }
{
    for l in d.five().kf.items() {
        if is_denied_value(s, d, l) {
            return true;
        }
    }
    false
}

/// The first known literal of which the negation holds, with regions that stand for all.
#[tactic(auto, unfolding(pks_terms::specs::Closure::first_clash))]
fn first_denied(s: &Signature, d: &Derived, kinds: &[Entry]) -> Option<Literal>
    requires { StandFor (entries_of kinds.now) (entries_of d.now.lcw) }
    ensures { option_map literal_of result ≡ first_clash (signature_of s.now) (five_of d.now) }
{
    for l in d.five().kf.items() {
        if denies(s, d, kinds, l) {
            return Some(*l);
        }
    }
    None
}

/// The least known literal of which the negation holds, or `None` where there is none. A literal that the regions list isn't
/// looked for in each of them. The error is want of memory.
pub(crate) fn least_clash(
    alloc: Global,
    s: &Signature,
    d: &Derived,
) -> Result<Option<Literal>, AllocError>
    ensures { IfOk result (λ o. option_map literal_of o ≡ first_clash (signature_of s.now) (five_of d.now)) }
{
    let kinds = kinds(alloc, &d.five().lcw)?;
    Ok(first_denied(s, d, kinds.as_slice()))
}
