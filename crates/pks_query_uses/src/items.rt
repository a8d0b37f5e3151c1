//! The terms of literals, groups and regions.
ghost use Rattle.std.specs.Prelude.{◌≡◌, List, [], ◌∷◌, ◌++◌, map, take, IfOk, OnOk};
ghost use Rattle.std.specs.List.{flat_map};
ghost use Rattle.std.specs.Option.{option_map};
ghost use Rattle.pks_terms.specs.Syntax.{Term as STerm};
ghost use Rattle.pks_terms.specs.Views.{term_of, terms_of, literal_of, literals_in, atom_of};
ghost use Rattle.pks_lcw.specs.Entries.{atoms_of, entry_of};
ghost use Rattle.pks_query_uses.specs.Occurring.{in_literal, in_group, in_slot, in_atom, in_entry};

use crate::terms::{put_term, put_terms};
use pks_lcw::Entry;
use pks_terms::group::Group;
use pks_terms::literal::{Literal, PredAtom};
use pks_terms::term::{Term, front};
use std::alloc::AllocError;

/// What terms occur in.
pub(crate) trait Indexed: Drop {
    /// The terms that occur in it.
    ghost terms: { Self → List STerm };

    /// Puts the terms that occur in it after the others.
    fn put(&self, to: &mut Vec<Term>) -> Result<(), AllocError>
        ensures { OnOk result (terms_of to.new.items ≡ terms_of to.old.items ++ terms self.now) };

    /// An equal one. The error is want of memory.
    fn again(&self) -> Result<Self, AllocError>
        ensures { IfOk result (λ same. same ≡ self.now) };
}

fn put_literal(to: &mut Vec<Term>, l: &Literal) -> Result<(), AllocError>
    ensures { OnOk result (terms_of to.new.items ≡ terms_of to.old.items ++ in_literal (literal_of l.now)) }
{
    put_terms(to, l.atom.arguments().terms())?;
    Ok(())
}

#[tactic(auto, using(crate::proofs::Lists::read))]
fn put_group(to: &mut Vec<Term>, g: &[Literal]) -> Result<(), AllocError>
    ensures { OnOk result (terms_of to.new.items ≡ terms_of to.old.items ++ in_group (literals_in g.now)) }
{
    for l in g {
        put_literal(to, l)?;
    }
    Ok(())
}

#[tactic(auto, using(crate::proofs::Lists::read))]
fn put_slot(to: &mut Vec<Term>, slot: &Option<Term>) -> Result<(), AllocError>
    ensures { OnOk result (terms_of to.new.items ≡ terms_of to.old.items ++ in_slot (option_map term_of slot.now)) }
{
    if let Some(t) = slot {
        put_term(to, t)?;
        return Ok(());
    }
    Ok(())
}

#[tactic(auto, using(crate::proofs::Lists::read))]
fn put_slots(to: &mut Vec<Term>, slots: &[Option<Term>]) -> Result<(), AllocError>
    ensures { OnOk result (terms_of to.new.items ≡ terms_of to.old.items ++ flat_map in_slot (map (option_map term_of) slots.now)) }
{
    for slot in slots {
        put_slot(to, slot)?;
    }
    Ok(())
}

#[tactic(auto, using(crate::proofs::Lists::read))]
fn put_atoms(to: &mut Vec<Term>, atoms: &[PredAtom]) -> Result<(), AllocError>
    ensures { OnOk result (terms_of to.new.items ≡ terms_of to.old.items ++ flat_map in_atom (atoms_of atoms.now)) }
{
    for a in atoms {
        put_terms(to, front(&a.args, a.n))?;
    }
    Ok(())
}

#[tactic(auto, using(crate::proofs::Lists::read))]
fn put_entry(to: &mut Vec<Term>, e: &Entry) -> Result<(), AllocError>
    ensures { OnOk result (terms_of to.new.items ≡ terms_of to.old.items ++ in_entry (entry_of e.now)) }
{
    put_slots(to, front(&e.pattern.args, e.pattern.n))?;
    put_atoms(to, e.list.as_slice())?;
    Ok(())
}

impl Indexed for Literal {
    ghost terms = { λ l. in_literal (literal_of l) };

    fn put(&self, to: &mut Vec<Term>) -> Result<(), AllocError> {
        put_literal(to, self)
    }

    fn again(&self) -> Result<Literal, AllocError> {
        Ok(*self)
    }
}

impl Indexed for Group {
    ghost terms = { λ g. in_group (literals_in g) };

    fn put(&self, to: &mut Vec<Term>) -> Result<(), AllocError> {
        put_group(to, self.as_slice())
    }

    fn again(&self) -> Result<Group, AllocError> {
        self.copy()
    }
}

impl Indexed for Entry {
    ghost terms = { λ e. in_entry (entry_of e) };

    fn put(&self, to: &mut Vec<Term>) -> Result<(), AllocError> {
        put_entry(to, self)
    }

    fn again(&self) -> Result<Entry, AllocError> {
        self.share()
    }
}
