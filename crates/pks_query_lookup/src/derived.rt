//! Looking up literals. `docs/RULES.md` has the rule.
ghost use Rattle.std.specs.Prelude.{◌≡◌, ◌||◌, [], ◌∷◌, map, Some, None, is_some, IfOk, IsTrue, false};
ghost use Rattle.std.specs.Option.{option_map};
ghost use Rattle.std.specs.List.{list_any, list_all};
ghost use Rattle.pks_terms.specs.Syntax.{Equality, negated};
ghost use Rattle.pks_terms.specs.Databases.{told, normal, is_known, is_evident, is_plain, differ, some_differ, fits, is_shut_out, is_closed_off, holds};
ghost use Rattle.pks_terms.specs.Orders.{inequation, literal_cmp};
ghost use Rattle.pks_terms.specs.Sets.{insert_in};
ghost use Rattle.pks_terms.specs.Views.{term_of, terms_of, literal_of, literals_in, atom_of, signature_of};
ghost use Rattle.pks_kf.specs.Known.{literals_of};
ghost use Rattle.pks_lcw.specs.Entries.{atoms_of, entry_of, entries_of};
ghost use Rattle.pks_query_lookup.specs.Fives.{five_of};
ghost use Rattle.pks_query_lookup.specs.Tables.{GiveAlike};
ghost use Rattle.pks_query_lookup.specs.Apart.{are_apart};
ghost use Rattle.pks_query_lookup.specs.Forms.{HasItsForms};

use crate::five::Five;
use crate::forms::forms_of;
use crate::literals::gives_value;
use crate::normals::Normals;
use pks_kf::Kf;
use pks_lcw::{AtomSet, Entry};
use pks_terms::literal::{Atom, Literal, PredAtom, equation};
use pks_terms::lookup::is_foreign;
use pks_terms::objects::is_of_objects;
use pks_terms::problem::Signature;
use pks_terms::term::{Term, are_two_objects, front};
use std::alloc::{AllocError, Global};
use std::marker::Model;

/// Databases in which literals are looked up, seen as those databases.
#[derive(Drop)]
pub struct Derived {
    normals: Normals,
    forms: Kf,
}

impl Model for Derived {
    ghost use Rattle.pks_kf.specs.Known.{literals_of};
    ghost use Rattle.pks_query_lookup.specs.declared.five.Five.{Five};
    ghost use Rattle.pks_query_lookup.specs.Forms.{AreForms};

    ghost Value = { Five };

    ghost view = { λ d. d.normals };

    ghost invariant = { λ d. AreForms (literals_of d.normals.kf) (literals_of d.forms) };
}

/// Of the normal forms of the terms of an equation: the same on both sides; or, on those of a negated one, two different
/// objects, or an application and an object that is not one of its result type.
fn are_evident(s: &Signature, terms: &[Term], positive: bool) -> bool
    ensures { result ≡ is_evident (signature_of s.now) Equality (terms_of terms.now) positive }
{
    match terms {
        [left, rest @ ..] => match rest {
            [right, more @ ..] => match more {
                [] => is_evident_of(s, left, right, positive),
                [_, ..] => false,
            },
            [] => false,
        },
        [] => false,
    }
}

#[tactic(auto, unfolding(pks_terms::specs::Orders::term_eq))]
fn is_evident_of(s: &Signature, left: &Term, right: &Term, positive: bool) -> bool
    ensures { result ≡ is_evident (signature_of s.now) Equality (term_of left.now ∷ term_of right.now ∷ []) positive }
{
    if positive {
        return *left == *right;
    }
    match (left, right) {
        (Term::Obj(d), Term::Obj(e)) => *d != *e,
        (Term::Obj(d), Term::App { fun, .. }) => is_foreign(s, *fun, *d),
        (Term::App { fun, .. }, Term::Obj(d)) => is_foreign(s, *fun, *d),
        _ => false,
    }
}

/// Whether the terms are two different objects at some position.
fn are_apart(ts: &[Term], us: &[Term]) -> bool
    ensures { result ≡ are_apart (terms_of ts.now) (terms_of us.now) }
{
    match ts {
        [] => false,
        [t, ts @ ..] => match us {
            [] => false,
            [u, us @ ..] => are_two_objects(t, u) || are_apart(ts, us),
        },
    }
}

impl Derived {
    /// Reads the databases.
    pub fn of(alloc: Global, five: Five) -> Result<Derived, AllocError>
        ensures { IfOk result (λ d. d ≡ five) }
    {
        let normals = Normals::of(alloc, five)?;
        let forms = forms_of(alloc, &normals)?;
        Ok(Derived { normals, forms })
    }

    /// Reads other databases with the same known literals. What was read of these is shared. The error is want of memory
    /// for further references.
    pub fn again(&self, five: Five) -> Result<Derived, AllocError>
        requires { literals_of five.kf ≡ literals_of self.now.kf }
        ensures { IfOk result (λ d. d ≡ five) }
    {
        let forms = self.forms.share()?;
        let normals = self.normals.beside(five)?;
        Ok(Derived { normals, forms })
    }

    /// Reads other databases, whose known literals give the same values as these, and have the normal form of each that is
    /// known. The error is want of memory for further references.
    pub fn beside(&self, five: Five) -> Result<Derived, AllocError>
        requires values { GiveAlike (literals_of five.kf) (literals_of self.now.kf) }
        requires forms { HasItsForms (literals_of five.kf) }
        ensures { IfOk result (λ d. d ≡ five) }
    {
        let forms = five.kf.share()?;
        let normals = self.normals.beside(five)?;
        Ok(Derived { normals, forms })
    }

    /// Reads databases whose known literals have the normal form of each that is known.
    pub fn of_normal(alloc: Global, five: Five) -> Result<Derived, AllocError>
        requires { HasItsForms (literals_of five.kf) }
        ensures { IfOk result (λ d. d ≡ five) }
    {
        let forms = five.kf.share()?;
        let normals = Normals::of(alloc, five)?;
        Ok(Derived { normals, forms })
    }

    /// The databases with one more known literal.
    fn five_with(&self, alloc: Global, l: &Literal) -> Result<Five, AllocError>
        ensures { IfOk result (λ five. five_of five ≡ record (five_of self.now) { kf = insert_in literal_cmp (literal_of l.now) (literals_of self.now.kf) }) }
    {
        let five = self.five();
        let kf = five.kf.add(alloc, *l)?;
        let next = five.with_known(kf)?;
        Ok(next)
    }

    /// Reads the databases with one more known literal, which gives no value at a place. What was read of these is shared.
    fn with_plain(&self, alloc: Global, l: &Literal, five: Five) -> Result<Derived, AllocError>
        requires none { is_some (told (literal_of l.now).relation (literal_of l.now).arguments (literal_of l.now).positive) ≡ false }
        requires five { five_of five ≡ record (five_of self.now) { kf = insert_in literal_cmp (literal_of l.now) (literals_of self.now.kf) } }
        ensures { IfOk result (λ d. d ≡ five) }
    {
        let forms = self.forms.add(alloc, self.normals.normal_literal(l))?;
        let normals = self.normals.beside(five)?;
        Ok(Derived { normals, forms })
    }

    /// Reads the databases with one more known literal. Where this gives no value at a place, what was read of these is
    /// shared, and it takes no longer than to put two literals in; else all are read again. The error is want of memory.
    pub fn with(&self, alloc: Global, l: &Literal) -> Result<Derived, AllocError>
        ensures { IfOk result (λ d. five_of d ≡ record (five_of self.now) { kf = insert_in literal_cmp (literal_of l.now) (literals_of self.now.kf) }) }
    {
        let five = self.five_with(alloc, l)?;
        if gives_value(l) {
            let next = Derived::of(alloc, five)?;
            return Ok(next);
        }
        let next = self.with_plain(alloc, l, five)?;
        Ok(next)
    }

    /// Lends the databases. It takes no memory.
    pub fn five(&self) -> &Five
        ensures { result.now ≡ self.now }
    {
        self.normals.five()
    }

    /// Gives the databases back. It takes no memory.
    pub fn into_five(self) -> Five
        ensures { result ≡ self }
    {
        self.normals.into_five()
    }

    /// Lends what makes normal forms. It takes no memory.
    pub fn normals(&self) -> &Normals
        ensures { result.now ≡ self.now }
    {
        &self.normals
    }

    /// Whether a known literal has the same normal form. It takes no memory, and compares this form with as many as the
    /// logarithm of the number of known literals.
    #[tactic(auto, unfolding(pks_terms::specs::Databases::is_known))]
    pub fn is_known(&self, l: &Literal) -> bool
        ensures { result ≡ is_known (literals_of self.now.kf) (literal_of l.now) }
    {
        if is_of_objects(l) {
            return self.forms.has(l);
        }
        self.forms.has(&self.normals.normal_literal(l))
    }

    /// Whether the literal is evident from the normal forms of its terms.
    fn is_evident(&self, s: &Signature, l: &Literal) -> bool
        ensures { result ≡ is_evident (signature_of s.now) (literal_of l.now).relation (map (normal (literals_of self.now.kf)) (literal_of l.now).arguments) (literal_of l.now).positive }
    {
        match &l.atom {
            Atom::Pred(_) => false,
            Atom::Eq { .. } => {
                let arguments = self.normals.normal_arguments(&l.atom.arguments());
                are_evident(s, arguments.terms(), l.positive)
            }
        }
    }

    /// Whether the literal is known up to normal form, or evident from the normal forms of its terms. It takes no memory.
    #[tactic(auto, unfolding(pks_terms::specs::Databases::is_plain))]
    pub fn is_plain(&self, s: &Signature, l: &Literal) -> bool
        ensures { result ≡ is_plain (signature_of s.now) (literals_of self.now.kf) (literal_of l.now) }
    {
        self.is_evident(s, l) || self.is_known(l)
    }

    /// Whether the two terms are different: whether their inequation holds. It takes no memory.
    #[tactic(auto, unfolding(pks_terms::specs::Databases::differ))]
    pub fn differ(&self, s: &Signature, t: &Term, u: &Term) -> bool
        ensures { result ≡ differ (signature_of s.now) (literals_of self.now.kf) (term_of t.now) (term_of u.now) }
    {
        self.is_plain(s, &equation(t, u, false))
    }

    /// Whether the terms differ at some position. It takes no memory.
    pub fn some_differ(&self, s: &Signature, ts: &[Term], us: &[Term]) -> bool
        ensures { result ≡ some_differ (signature_of s.now) (literals_of self.now.kf) (terms_of ts.now) (terms_of us.now) }
    {
        are_apart(ts, us) || self.differ_by_known(s, ts, us)
    }

    /// Whether the terms differ at some position, each position looked up.
    fn differ_by_known(&self, s: &Signature, ts: &[Term], us: &[Term]) -> bool
        ensures { result ≡ some_differ (signature_of s.now) (literals_of self.now.kf) (terms_of ts.now) (terms_of us.now) }
    {
        match ts {
            [] => false,
            [t, ts @ ..] => match us {
                [] => false,
                [u, us @ ..] => self.differ(s, t, u) || self.differ_by_known(s, ts, us),
            },
        }
    }

    /// Whether each fixed position has the normal form of its argument.
    #[tactic(auto, unfolding(pks_terms::specs::Orders::term_eq))]
    fn fits(&self, slots: &[Option<Term>], args: &[Term]) -> bool
        ensures { result ≡ fits (literals_of self.now.kf) (map (option_map term_of) slots.now) (terms_of args.now) }
    {
        match (slots, args) {
            ([], []) => true,
            ([None, slots @ ..], [_, args @ ..]) => self.fits(slots, args),
            ([Some(u), slots @ ..], [t, args @ ..]) => {
                self.normals.normal(u) == self.normals.normal(t) && self.fits(slots, args)
            }
            _ => false,
        }
    }

    /// Whether each atom of the list differs from these arguments.
    fn all_differ(&self, s: &Signature, atoms: &[PredAtom], args: &[Term]) -> bool
        ensures { result ≡ list_all (λ a. some_differ (signature_of s.now) (literals_of self.now.kf) a.arguments (terms_of args.now)) (atoms_of atoms.now) }
    {
        for a in atoms {
            if !self.some_differ(s, front(&a.args, a.n), args) {
                return false;
            }
        }
        true
    }

    /// Whether the atom is listed and does not differ from itself. It is compared with as many as the logarithm of their
    /// number.
    fn is_listed(&self, s: &Signature, a: &PredAtom, list: &AtomSet) -> bool
        ensures { IsTrue result → list_all (λ b. some_differ (signature_of s.now) (literals_of self.now.kf) b.arguments (atom_of a.now).arguments) (atoms_of list.now) ≡ false }
    {
        let args = front(&a.args, a.n);
        list.has(a) && !self.some_differ(s, args, args)
    }

    /// Whether the region tells that the atom is false.
    fn is_shut_out(&self, s: &Signature, a: &PredAtom, region: &Entry) -> bool
        ensures { result ≡ is_shut_out (signature_of s.now) (literals_of self.now.kf) a.now.pred.0 (atom_of a.now).arguments (entry_of region.now) }
    {
        let args = front(&a.args, a.n);
        region.pattern.pred.0 == a.pred.0
            && self.fits(front(&region.pattern.args, region.pattern.n), args)
            && !self.is_listed(s, a, &region.list)
            && self.all_differ(s, region.list.as_slice(), args)
    }

    /// Whether some region tells that the atom is false.
    fn is_outside(&self, s: &Signature, a: &PredAtom) -> bool
        ensures { result ≡ list_any (is_shut_out (signature_of s.now) (literals_of self.now.kf) a.now.pred.0 (atom_of a.now).arguments) (entries_of self.now.lcw) }
    {
        for region in self.five().lcw.items() {
            if self.is_shut_out(s, a, region) {
                return true;
            }
        }
        false
    }

    /// Whether the literal is the negation of an atom that some region shuts out.
    fn is_closed_off(&self, s: &Signature, l: &Literal) -> bool
        ensures { result ≡ is_closed_off (signature_of s.now) (five_of self.now) (literal_of l.now).relation (literal_of l.now).arguments (literal_of l.now).positive }
    {
        if l.positive {
            return false;
        }
        match &l.atom {
            Atom::Pred(a) => self.is_outside(s, a),
            Atom::Eq { .. } => false,
        }
    }

    /// Whether the literal holds. It takes no memory.
    #[tactic(auto, unfolding(pks_terms::specs::Databases::holds))]
    pub fn holds(&self, s: &Signature, l: &Literal) -> bool
        ensures { result ≡ holds (signature_of s.now) (five_of self.now) (literal_of l.now) }
    {
        self.is_plain(s, l) || self.is_closed_off(s, l)
    }

    /// Whether the negation of the literal holds: whether it is false as far as the databases tell. It takes no memory.
    pub fn denies(&self, s: &Signature, l: &Literal) -> bool
        ensures { result ≡ holds (signature_of s.now) (five_of self.now) (negated (literal_of l.now)) }
    {
        self.holds(s, &l.negated())
    }

    /// Whether the negation of some of the literals holds. It takes no memory.
    pub fn some_denied(&self, s: &Signature, ls: &[Literal]) -> bool
        ensures { result ≡ list_any (λ l. holds (signature_of s.now) (five_of self.now) (negated l)) (literals_in ls.now) }
    {
        for l in ls {
            if self.denies(s, l) {
                return true;
            }
        }
        false
    }
}
