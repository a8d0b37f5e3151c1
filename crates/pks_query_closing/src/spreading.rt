//! What follows by one group, and by the range of one application. `docs/RULES.md` has the rules.
ghost use Rattle.std.specs.Prelude.{◌≡◌, ◌≤◌, List, [], ◌∷◌, ◌++◌, map, length, IfOk, OnOk, IfSome};
ghost use Rattle.pks_terms.specs.declared.limits.TheConstants.{MOST_OBJECTS};
ghost use Rattle.pks_terms.specs.Sets.{IsIn, added};
ghost use Rattle.pks_terms.specs.Saturated.{Within};
ghost use Rattle.pks_terms.specs.Orders.{literal_cmp};
ghost use Rattle.pks_terms.specs.Views.{literal_of, term_of, terms_of, signature_of};
ghost use Rattle.pks_kf.specs.Known.{literals_of};
ghost use Rattle.pks_query_lookup.specs.Fives.{five_of};
ghost use Rattle.pks_query_closing.specs.Carrying.{GoesOn, GivesBy, IsAmong};

use crate::carrying::Carrying;
use crate::groups::put_by_group;
use crate::ranges::{put_by_range, put_of_terms};
use pks_kf::Kf;
use pks_query_lookup::derived::Derived;
use pks_query_lookup::ranges::range_of;
use pks_terms::literal::{Atom, Literal, PredAtom, equation};
use pks_terms::problem::Signature;
use pks_terms::term::Term;
use std::alloc::{AllocError, Global};
use std::mem::drop;

impl Carrying {
    /// The databases with these literals alone as the known ones.
    fn with_alone(&self, alloc: Global, values: Vec<Literal>) -> Result<Derived, AllocError>
        ensures { IfOk result (λ d. five_of d ≡ record (five_of self.now.five) { kf = added literal_cmp [] (literals_of values.items) }) }
    {
        let kf = Kf::of(alloc, values)?;
        let five = self.five.with_known(kf)?;
        let d = Derived::of(alloc, five)?;
        Ok(d)
    }

    /// Puts the literal after the others, if it is known.
    fn put_known(&self, to: &mut Vec<Literal>, l: &Literal) -> Result<(), AllocError>
        ensures { OnOk result (Within (literals_of to.old.items) (literals_of self.now.five.kf) → Within (literals_of to.new.items) (literals_of self.now.five.kf)) }
    {
        if !self.five.kf.has(l) {
            return Ok(());
        }
        to.push(*l)?;
        Ok(())
    }

    /// Puts after the others the literal's form and the negation of that, if they are known.
    fn put_settling(
        &self,
        to: &mut Vec<Literal>,
        l: &Literal,
        numbers: &mut Vec<usize>,
    ) -> Result<(), AllocError>
        ensures { OnOk result (Within (literals_of to.old.items) (literals_of self.now.five.kf) → Within (literals_of to.new.items) (literals_of self.now.five.kf)) }
    {
        let form = self.standing.form(l, numbers)?;
        self.put_known(to, &form)?;
        self.put_known(to, &form.negated())?;
        Ok(())
    }

    /// Puts after the others that the terms are different, with places replaced by their values, if that is known.
    fn put_different(
        &self,
        to: &mut Vec<Literal>,
        t: &Term,
        u: &Term,
        numbers: &mut Vec<usize>,
    ) -> Result<(), AllocError>
        ensures { OnOk result (Within (literals_of to.old.items) (literals_of self.now.five.kf) → Within (literals_of to.new.items) (literals_of self.now.five.kf)) }
    {
        let t = self.standing.term_form(t, numbers)?;
        let u = self.standing.term_form(u, numbers)?;
        self.put_known(to, &equation(&t, &u, false))?;
        Ok(())
    }

    /// Puts after the others what is known to tell the atoms apart.
    fn put_apart(
        &self,
        to: &mut Vec<Literal>,
        a: &PredAtom,
        b: &PredAtom,
        numbers: &mut Vec<usize>,
    ) -> Result<(), AllocError>
        ensures { OnOk result (Within (literals_of to.old.items) (literals_of self.now.five.kf) → Within (literals_of to.new.items) (literals_of self.now.five.kf)) }
    {
        if a.pred.0 != b.pred.0 {
            return Ok(());
        }
        for i in 0..3_usize {
            self.put_different(to, &a.args[i], &b.args[i], numbers)?;
        }
        Ok(())
    }

    /// Puts after the others what is known to tell the literal's atom from these.
    fn put_all_apart(
        &self,
        to: &mut Vec<Literal>,
        l: &Literal,
        atoms: &[PredAtom],
        numbers: &mut Vec<usize>,
    ) -> Result<(), AllocError>
        ensures { OnOk result (Within (literals_of to.old.items) (literals_of self.now.five.kf) → Within (literals_of to.new.items) (literals_of self.now.five.kf)) }
    {
        let Atom::Pred(a) = &l.atom else {
            return Ok(());
        };
        for b in atoms {
            self.put_apart(to, a, b, numbers)?;
        }
        Ok(())
    }

    /// The known literals that settle these, and tell their atoms from the others.
    fn settling(
        &self,
        alloc: Global,
        members: &[Literal],
        atoms: &[PredAtom],
    ) -> Result<Vec<Literal>, AllocError>
        ensures { IfOk result (λ v. Within (literals_of self.now.listed.items) (literals_of self.now.five.kf) → Within (literals_of v.items) (literals_of self.now.five.kf)) }
    {
        let mut numbers = Vec::new(alloc);
        let mut forms = Vec::new(alloc);
        for l in members {
            self.put_settling(&mut forms, l, &mut numbers)?;
            self.put_all_apart(&mut forms, l, atoms, &mut numbers)?;
        }
        let mut all = self.literals(alloc, numbers.as_slice())?;
        all.extend_from_slice(forms.as_slice())?;
        Ok(all)
    }

    /// What the rules give of the group of this number, by the known literals that settle its own.
    fn given_by_group(
        &self,
        alloc: Global,
        s: &Signature,
        k: usize,
    ) -> Result<Vec<Literal>, AllocError>
        ensures { IfOk result (λ v. GivesBy (signature_of s.now) self.now (map literal_of v.items)) }
    {
        let mut more = Vec::new(alloc);
        let Some(group) = self.groups.as_slice().get(k) else {
            return Ok(more);
        };
        let atoms = self.touched.beside(alloc, k)?;
        let known = self.settling(alloc, group.as_slice(), atoms.as_slice())?;
        let d = self.with_alone(alloc, known)?;
        let put = put_by_group(&mut more, s, &d, group.as_slice());
        drop(d);
        put?;
        Ok(more)
    }

    /// Puts in what the rules give of the group of this number.
    pub(crate) fn put_group_in(
        &mut self,
        alloc: Global,
        s: &Signature,
        k: usize,
    ) -> Result<(), AllocError>
        ensures { OnOk result (GoesOn (signature_of s.now) self.old self.new) }
    {
        let more = self.given_by_group(alloc, s, k)?;
        self.put_all_in(alloc, more.as_slice())?;
        Ok(())
    }

    /// Whether the application has no value, and all that it may be but one at most are denied.
    fn may_be_last(&self, alloc: Global, s: &Signature, t: &Term) -> Result<bool, AllocError>
        requires { length s.now.objects ≤ MOST_OBJECTS }
    {
        if self.standing.has_value(t) {
            return Ok(false);
        }
        let mut one_is_left = false;
        for o in range_of(alloc, s, t)?.as_slice() {
            if !self.five.kf.has(&equation(t, &Term::Obj(*o), false)) {
                if one_is_left {
                    return Ok(false);
                }
                one_is_left = true;
            }
        }
        Ok(true)
    }

    /// What the range of the term gives, by the known literals of these numbers, and this one.
    fn given_by_range(
        &self,
        alloc: Global,
        s: &Signature,
        numbers: &[usize],
        l: &Literal,
        t: &Term,
    ) -> Result<Vec<Literal>, AllocError>
        requires few { length s.now.objects ≤ MOST_OBJECTS }
        requires among { IsAmong (term_of t.now) (literal_of l.now) }
        ensures { IfOk result (λ v. IsIn (literal_of l.now) (literals_of self.now.listed.items) → GivesBy (signature_of s.now) self.now (map literal_of v.items)) }
    {
        let mut more = Vec::new(alloc);
        let mut known = self.literals(alloc, numbers)?;
        known.push(*l)?;
        let d = self.with_alone(alloc, known)?;
        let put = put_by_range(alloc, &mut more, s, &d, t);
        drop(d);
        put?;
        Ok(more)
    }

    /// The first of these applications that may be last, if there is one.
    fn first_last(
        &self,
        alloc: Global,
        s: &Signature,
        terms: &[Term],
    ) -> Result<Option<Term>, AllocError>
        requires { length s.now.objects ≤ MOST_OBJECTS }
        ensures { IfOk result (λ o. IfSome o (λ t. IsIn (term_of t) (terms_of terms.now))) }
    {
        for k in 0..terms.len() {
            let Some(t) = terms.get(k) else {
                return Ok(None);
            };
            if self.may_be_last(alloc, s, t)? {
                return Ok(Some(*t));
            }
        }
        Ok(None)
    }

    /// The first application in the literal that may be last, if there is one.
    fn last_within(
        &self,
        alloc: Global,
        s: &Signature,
        l: &Literal,
    ) -> Result<Option<Term>, AllocError>
        requires { length s.now.objects ≤ MOST_OBJECTS }
        ensures { IfOk result (λ o. IfSome o (λ t. IsAmong (term_of t) (literal_of l.now))) }
    {
        let mut applications = Vec::new(alloc);
        put_of_terms(&mut applications, l.atom.arguments().terms())?;
        let first = self.first_last(alloc, s, applications.as_slice())?;
        Ok(first)
    }

    /// Where an application in the literal has no value and one object at most is left for it, puts in what its range gives.
    pub(crate) fn put_range_in(
        &mut self,
        alloc: Global,
        s: &Signature,
        l: &Literal,
    ) -> Result<(), AllocError>
        requires { length s.now.objects ≤ MOST_OBJECTS }
        ensures { OnOk result (IsIn (literal_of l.now) (literals_of self.old.listed.items) → GoesOn (signature_of s.now) self.old self.new) }
    {
        let Some(t) = self.last_within(alloc, s, l)? else {
            return Ok(());
        };
        let numbers = self.standing.denials(alloc, &t)?;
        let more = self.given_by_range(alloc, s, numbers.as_slice(), l, &t)?;
        self.put_all_in(alloc, more.as_slice())?;
        Ok(())
    }
}
