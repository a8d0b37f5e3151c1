//! The index of databases: for each term the literals, groups and regions in which it occurs.
ghost use Rattle.std.specs.Prelude.{◌≡◌, IfOk};
ghost use Rattle.std.specs.List.{filter};
ghost use Rattle.pks_terms.specs.Sets.{insert_in};
ghost use Rattle.pks_terms.specs.Orders.{literal_cmp};
ghost use Rattle.pks_terms.specs.Databases.{Five as SFive};
ghost use Rattle.pks_terms.specs.Views.{term_of, literal_of};
ghost use Rattle.pks_kf.specs.Known.{literals_of};
ghost use Rattle.pks_kx.specs.Groups.{groups_of};
ghost use Rattle.pks_lcw.specs.Entries.{entries_of};
ghost use Rattle.pks_query_lookup.specs.Fives.{five_of};
ghost use Rattle.pks_query_uses.specs.Occurring.{in_literal, in_group, in_entry, is_among};
ghost use Rattle.pks_query_uses.specs.Words.{AreUsesOf};

use crate::index::{Index, at, index_of, terms_of};
use crate::placing::put_at_all;
use pks_lcw::Entry;
use pks_query_lookup::five::Five;
use pks_terms::group::Group;
use pks_terms::literal::Literal;
use pks_terms::term::Term;
use std::alloc::{AllocError, Global};

/// For each term the known literals, the groups and the regions in which it occurs: it is one of their terms, or stands
/// within one. The terms of a region are those at its fixed places and in its listed atoms.
#[derive(Drop)]
pub struct Uses {
    literals: Index<Literal>,
    groups: Index<Group>,
    entries: Index<Entry>,
}

impl Uses {
    /// The index of the databases. The error is want of memory.
    pub fn of(alloc: Global, five: &Five) -> Result<Uses, AllocError>
        ensures { IfOk result (λ u. AreUsesOf (five_of five.now) u) }
    {
        let _known = five.kf.len();
        let literals = index_of(alloc, five.kf.items())?;
        let groups = index_of(alloc, five.kx.items())?;
        let entries = index_of(alloc, five.lcw.items())?;
        Ok(Uses {
            literals,
            groups,
            entries,
        })
    }

    /// The index with the literal among its literals, and all else as before. The error is want of memory.
    pub fn add(self, alloc: Global, l: Literal) -> Result<Uses, AllocError>
        ensures { IfOk result (λ u. (d : SFive) → AreUsesOf d self → AreUsesOf (record d { kf = insert_in literal_cmp (literal_of l) d.kf }) u) }
    {
        let ts = terms_of(alloc, &l)?;
        let mut uses = self;
        put_at_all(alloc, &mut uses.literals, &ts, &l)?;
        Ok(uses)
    }

    /// The literals in which the term occurs, in order and each once. It takes no memory.
    pub fn literals(&self, t: &Term) -> &[Literal]
        ensures { (d : SFive) → AreUsesOf d self.now → literals_of result.now ≡ filter (λ l. is_among (term_of t.now) (in_literal l)) d.kf }
    {
        at(&self.literals, t)
    }

    /// The groups in which the term occurs, in order and each once. It takes no memory.
    pub fn groups(&self, t: &Term) -> &[Group]
        ensures { (d : SFive) → AreUsesOf d self.now → groups_of result.now ≡ filter (λ g. is_among (term_of t.now) (in_group g)) d.kx }
    {
        at(&self.groups, t)
    }

    /// The regions in which the term occurs, in order and each once. It takes no memory.
    pub fn entries(&self, t: &Term) -> &[Entry]
        ensures { (d : SFive) → AreUsesOf d self.now → entries_of result.now ≡ filter (λ e. is_among (term_of t.now) (in_entry e)) d.lcw }
    {
        at(&self.entries, t)
    }
}
