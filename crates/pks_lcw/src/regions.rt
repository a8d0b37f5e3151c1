//! Entries: patterns with the atoms that are known to fit them.
ghost use Rattle.std.specs.Prelude.{◌≡◌, ℕ, List, [], map, Some, refl, IfOk};
ghost use Rattle.std.specs.Ordering.{on, eq_by_cmp};
ghost use Rattle.std.specs.Cmp.Lexicographic.{slice_cmp};
ghost use Rattle.std.specs.Cmp.{partial_equiv_from_equiv, partial_order_from_agreeing_total};
ghost use Rattle.std.proofs.lemmas.Cmp.{on_total, eq_by_cmp_equiv};
ghost use Rattle.pks_terms.specs.Orders.{atom_cmp};
ghost use Rattle.pks_terms.specs.Databases.{entry_cmp};
ghost use Rattle.pks_terms.specs.Totality.{entry_cmp_total};
ghost use Rattle.pks_lcw.specs.Entries.{atoms_of, entry_of};

use crate::atoms::AtomSet;
use pks_terms::literal::Pattern;
use std::alloc::AllocError;
use std::cmp::Ordering;

/// A closed region: each true instance of the pattern is the value of a listed atom.
/// Entries are ordered by pattern, then atom by atom, a prefix first; `docs/RULES.md` has the order.
#[derive(Drop)]
pub struct Entry {
    pub pattern: Pattern,
    pub list: AtomSet,
}

impl Entry {
    /// An equal entry, whose list is shared.
    pub fn share(&self) -> Result<Entry, AllocError>
        ensures { IfOk result (λ same. same ≡ self.now) }
    {
        let list = self.list.share()?;
        Ok(Entry {
            pattern: self.pattern,
            list,
        })
    }
}

/// The order of lists: atom by atom, a prefix first.
fn cmp_lists(a: &AtomSet, b: &AtomSet) -> Ordering
    ensures { result ≡ slice_cmp atom_cmp (atoms_of a.now) (atoms_of b.now) }
{
    a.as_slice().cmp(&b.as_slice())
}

impl PartialEq for Entry {
    ghost eq = { on entry_of (eq_by_cmp entry_cmp) };

    ghost laws = { partial_equiv_from_equiv (eq_by_cmp_equiv (on_total entry_of entry_cmp_total)) };

    fn eq(&self, other: &Entry) -> bool {
        self.cmp(other) == Ordering::Equal
    }
}

impl Eq for Entry {
    ghost laws = { eq_by_cmp_equiv (on_total entry_of entry_cmp_total) };
}

impl PartialOrd for Entry {
    ghost partial_cmp = { λ x y. Some (entry_cmp (entry_of x) (entry_of y)) };

    ghost laws = { partial_order_from_agreeing_total (on entry_of entry_cmp) (on_total entry_of entry_cmp_total) (λ x y. refl) (λ x y. refl) };

    fn partial_cmp(&self, other: &Entry) -> Option<Ordering> {
        Some(self.cmp(other))
    }
}

impl Ord for Entry {
    ghost cmp = { on entry_of entry_cmp };

    ghost total = { on_total entry_of entry_cmp_total };

    ghost matches_partial_cmp = { λ x y. refl };

    ghost matches_eq = { λ x y. refl };

    fn cmp(&self, other: &Entry) -> Ordering {
        match self.pattern.cmp(&other.pattern) {
            Ordering::Equal => cmp_lists(&self.list, &other.list),
            unequal => unequal,
        }
    }
}
