//! The regions that adds give.
ghost use Rattle.std.specs.Prelude.{◌≡◌, map};
ghost use Rattle.std.specs.Option.{option_map};
ghost use Rattle.pks_terms.specs.Spoiling.{are_stable};
ghost use Rattle.pks_terms.specs.Progress.{fixed_terms, added_region};
ghost use Rattle.pks_terms.specs.Views.{term_of, pattern_of, add_of};
ghost use Rattle.pks_lcw.specs.Entries.{entries_of};
ghost use Rattle.pks_progress_adds.specs.Deeds.{signature_in, five_in, chosen_in, effects_in, listed, regions_from};

use crate::deed::Deed;
use pks_lcw::{AtomSet, Entry};
use pks_query_closing::forms::normal_pattern;
use pks_terms::literal::Pattern;
use pks_terms::schema::{Adds, Item};
use pks_terms::term::{Term, front};

impl Deed<'_, '_> {
    /// The terms at the fixed places are stable.
    fn fixed_are_stable(&self, slots: &[Option<Term>]) -> bool
        ensures { result ≡ are_stable (signature_in self.now) (five_in self.now) (effects_in self.now) (fixed_terms (map (option_map term_of) slots.now)) }
    {
        for slot in slots {
            if let Some(t) = slot {
                if !self.is_stable(t) {
                    return false;
                }
            }
        }
        true
    }

    fn region_of(&self, x: &Pattern) -> Option<Entry>
        ensures { entries_of (listed result) ≡ added_region (signature_in self.now) (five_in self.now) (effects_in self.now) (chosen_in self.now) (pattern_of x.now) }
    {
        let pattern = normal_pattern(self.normals(), &x.at(self.chosen));
        if self.fixed_are_stable(front(&pattern.args, pattern.n)) {
            let list = AtomSet::empty();
            Some(Entry { pattern, list })
        } else {
            None
        }
    }

    /// The region that the add gives, if any.
    pub fn region(&self, a: &Adds) -> Option<Entry>
        ensures { entries_of (listed result) ≡ regions_from self.now (add_of a.now) }
    {
        match &a.item {
            Item::Lcw(x) => self.region_of(x),
            Item::Kf(_) | Item::Kw(_) | Item::Kv(_) => None,
        }
    }
}
