//! What follows by values, by groups and by ranges, put in one after another by a work list: where a place comes to have a
//! value, the literals in which it stands are looked at again. `docs/RULES.md` has the rules.
ghost use Rattle.std.specs.Prelude.{◌≡◌, ◌≤◌, List, [], ◌∷◌, ◌++◌, map, length, IfOk, OnOk, IfSome};
ghost use Rattle.pks_terms.specs.declared.limits.TheConstants.{MOST_OBJECTS};
ghost use Rattle.pks_terms.specs.Databases.{Five as SFive};
ghost use Rattle.pks_terms.specs.Sets.{IsIn};
ghost use Rattle.pks_terms.specs.Saturated.{Within};
ghost use Rattle.pks_terms.specs.Signatures.{Signature as SSignature, HasValues};
ghost use Rattle.pks_terms.specs.Views.{literal_of, signature_of};
ghost use Rattle.pks_kf.specs.Known.{literals_of};
ghost use Rattle.pks_kx.specs.Groups.{groups_of};
ghost use Rattle.pks_query_lookup.specs.Fives.{five_of};
ghost use Rattle.pks_query_closing.specs.Working.{GrowsTo};
ghost use Rattle.pks_query_closing.specs.Carrying.{Lists, Puts, Carries, GoesOn, IsReached, Starts};

use crate::standing::{Standing, different_terms, valued_place};
use crate::steps::put_by_value;
use crate::touched::Touched;
use pks_kf::Kf;
use pks_kv::Kv;
use pks_kw::Kw;
use pks_kx::Kx;
use pks_lcw::Lcw;
use pks_query_lookup::derived::Derived;
use pks_query_lookup::five::Five;
use pks_query_lookup::literals::gives_value;
use pks_query_lookup::normals::Normals;
use pks_terms::group::Group;
use pks_terms::literal::Literal;
use pks_terms::problem::Signature;
use std::alloc::{AllocError, Global};
use std::mem::drop;

/// Databases, some of whose known literals are listed. The work list is those that are listed from some number on, and the
/// groups that wait.
#[derive(Drop)]
pub(crate) struct Carrying {
    pub(crate) five: Five,
    pub(crate) listed: Vec<Literal>,
    pub(crate) standing: Standing,
    pub(crate) groups: Vec<Group>,
    pub(crate) touched: Touched,
}

/// What makes normal forms by these literals alone.
fn normals_of(alloc: Global, values: Vec<Literal>) -> Result<Normals, AllocError>
    ensures { IfOk result (λ n. Within (literals_of n.kf) (literals_of values.items)) }
{
    let kf = Kf::of(alloc, values)?;
    let five = Five {
        kf,
        kw: Kw::empty(),
        kv: Kv::empty(),
        kx: Kx::empty(),
        lcw: Lcw::empty(),
    };
    let by = Normals::of(alloc, five)?;
    Ok(by)
}

impl Carrying {
    /// Lists the literal.
    fn list(&mut self, alloc: Global, l: &Literal) -> Result<(), AllocError>
        ensures known { OnOk result (self.new.five ≡ self.old.five) }
        ensures groups { OnOk result (self.new.groups ≡ self.old.groups) }
        ensures listed { OnOk result (self.new.listed.items ≡ self.old.listed.items ++ l.now ∷ []) }
    {
        self.standing.put(alloc, l, self.listed.len())?;
        self.listed.push(*l)?;
        Ok(())
    }

    /// Makes the groups to be found by the listed literals.
    fn find(&mut self, alloc: Global) -> Result<(), AllocError>
        ensures { OnOk result (Lists [] self.old self.new) }
    {
        self.touched.find(
            alloc,
            &self.standing,
            self.groups.as_slice(),
            &self.five.lcw,
        )?;
        Ok(())
    }

    /// Lists the literal, where the old databases don't have it, or where they do, as is asked for.
    fn list_if(
        &mut self,
        alloc: Global,
        old: &Derived,
        new: bool,
        l: &Literal,
    ) -> Result<(), AllocError>
        ensures { OnOk result (Lists (literal_of l.now ∷ []) self.old self.new) }
    {
        if is_old(old, l) == new {
            return Ok(());
        }
        self.list(alloc, l)?;
        Ok(())
    }

    /// Puts the literal in, and on the work list, unless it is known.
    fn put_in(&mut self, alloc: Global, l: &Literal) -> Result<(), AllocError>
        ensures { OnOk result (Puts (literal_of l.now ∷ []) self.old self.new) }
    {
        if self.five.kf.has(l) {
            return Ok(());
        }
        self.five.kf = self.five.kf.add(alloc, *l)?;
        self.list(alloc, l)?;
        Ok(())
    }

    /// Puts the literals in.
    pub(crate) fn put_all_in(&mut self, alloc: Global, ls: &[Literal]) -> Result<(), AllocError>
        ensures { OnOk result (Puts (map literal_of ls.now) self.old self.new) }
    {
        for l in ls {
            self.put_in(alloc, l)?;
        }
        Ok(())
    }

    /// Puts in the literal with one application replaced by an object that is its value.
    fn put_forms_in(&mut self, alloc: Global, by: &Normals, l: &Literal) -> Result<(), AllocError>
        ensures { OnOk result (Carries (literal_of l.now ∷ literals_of by.now.kf) self.old self.new) }
    {
        let mut forms = Vec::new(alloc);
        put_by_value(alloc, &mut forms, by, l)?;
        self.put_all_in(alloc, forms.as_slice())?;
        Ok(())
    }

    /// The listed literal of this number.
    fn literal(&self, k: usize) -> Option<Literal>
        ensures { IfSome result (λ l. IsIn (literal_of l) (literals_of self.now.listed.items)) }
    {
        match self.listed.as_slice().get(k) {
            Some(l) => Some(*l),
            None => None,
        }
    }

    /// Puts the listed literal of this number after the others.
    fn put_literal(&self, to: &mut Vec<Literal>, k: usize) -> Result<(), AllocError>
        ensures { OnOk result (Within (literals_of to.old.items) (literals_of self.now.listed.items) → Within (literals_of to.new.items) (literals_of self.now.listed.items)) }
    {
        let Some(l) = self.literal(k) else {
            return Ok(());
        };
        to.push(l)?;
        Ok(())
    }

    /// The listed literals of these numbers.
    pub(crate) fn literals(
        &self,
        alloc: Global,
        numbers: &[usize],
    ) -> Result<Vec<Literal>, AllocError>
        ensures { IfOk result (λ v. Within (literals_of v.items) (literals_of self.now.listed.items)) }
    {
        let mut found = Vec::new(alloc);
        for k in numbers {
            self.put_literal(&mut found, *k)?;
        }
        Ok(found)
    }

    /// What makes normal forms by the listed literals of these numbers alone.
    fn normals_by(&self, alloc: Global, numbers: &[usize]) -> Result<Normals, AllocError>
        ensures { IfOk result (λ n. Within (literals_of n.kf) (literals_of self.now.listed.items)) }
    {
        let values = self.literals(alloc, numbers)?;
        let by = normals_of(alloc, values)?;
        Ok(by)
    }

    /// Puts in what the values of the literal's own places give of it.
    fn put_own_forms_in(&mut self, alloc: Global, l: &Literal) -> Result<(), AllocError>
        ensures { OnOk result (Carries (literal_of l.now ∷ []) self.old self.new) }
    {
        let numbers = self.standing.values_in(alloc, l)?;
        if numbers.len() == 0 {
            return Ok(());
        }
        let by = self.normals_by(alloc, numbers.as_slice())?;
        let put = self.put_forms_in(alloc, &by, l);
        drop(by);
        put?;
        Ok(())
    }

    /// Puts in what the values give of the literal of this number.
    fn put_touched_in(&mut self, alloc: Global, by: &Normals, k: usize) -> Result<(), AllocError>
        ensures { OnOk result (Carries (literals_of by.now.kf) self.old self.new) }
    {
        let Some(l) = self.literal(k) else {
            return Ok(());
        };
        self.put_forms_in(alloc, by, &l)?;
        Ok(())
    }

    /// Puts in what the values give of the literals of these numbers.
    fn put_all_touched_in(
        &mut self,
        alloc: Global,
        by: &Normals,
        numbers: &[usize],
    ) -> Result<(), AllocError>
        ensures { OnOk result (Carries (literals_of by.now.kf) self.old self.new) }
    {
        for k in numbers {
            self.put_touched_in(alloc, by, *k)?;
        }
        Ok(())
    }

    /// Where the literal gives the value of a place, puts in what this gives of the literals in which the place stands.
    fn put_forms_by(&mut self, alloc: Global, l: &Literal) -> Result<(), AllocError>
        ensures { OnOk result (Carries (literal_of l.now ∷ []) self.old self.new) }
    {
        let Some(place) = valued_place(l) else {
            return Ok(());
        };
        let numbers = self.standing.at(alloc, &place)?;
        let by = normals_of(alloc, vec![in alloc; *l]?)?;
        let put = self.put_all_touched_in(alloc, &by, numbers.as_slice());
        drop(by);
        put?;
        Ok(())
    }

    /// Lets the groups wait that the literal touches.
    fn touch(&mut self, alloc: Global, l: &Literal) -> Result<(), AllocError>
        ensures { OnOk result (Lists [] self.old self.new) }
    {
        self.touched
            .touch(alloc, &self.standing, self.groups.as_slice(), l)?;
        Ok(())
    }

    /// Looks at the literal of this number.
    fn look_at(&mut self, alloc: Global, s: &Signature, k: usize) -> Result<(), AllocError>
        requires { length s.now.objects ≤ MOST_OBJECTS }
        ensures { OnOk result (GoesOn (signature_of s.now) self.old self.new) }
    {
        let Some(l) = self.literal(k) else {
            return Ok(());
        };
        self.put_own_forms_in(alloc, &l)?;
        self.put_forms_by(alloc, &l)?;
        self.put_range_in(alloc, s, &l)?;
        self.touch(alloc, &l)?;
        Ok(())
    }

    /// Looks at the literals from this number on, and at those that are put in then, as long as no place has two values.
    fn look_from(&mut self, alloc: Global, s: &Signature, from: usize) -> Result<(), AllocError>
        requires { length s.now.objects ≤ MOST_OBJECTS }
        ensures { OnOk result (GoesOn (signature_of s.now) self.old self.new) }
    {
        let mut k = from;
        while k < self.listed.len() && !self.standing.clashes() {
            self.look_at(alloc, s, k)?;
            k += 1;
        }
        Ok(())
    }

    /// The number of a group that waits no longer, as long as no place has two values.
    fn next(&mut self) -> Option<usize>
        ensures { Lists [] self.old self.new }
    {
        if self.standing.clashes() {
            return None;
        }
        self.touched.next()
    }

    /// Looks at the literals from this number on, and at the groups that they touch, and so on. Each atom is settled once,
    /// so the turns are enough; what they leave is left to the rounds.
    fn work(&mut self, alloc: Global, s: &Signature, from: usize) -> Result<(), AllocError>
        requires { length s.now.objects ≤ MOST_OBJECTS }
        ensures { OnOk result (GoesOn (signature_of s.now) self.old self.new) }
    {
        let mut from = from;
        for _ in 0..self.groups.len().saturating_mul(33).saturating_add(1) {
            self.look_from(alloc, s, from)?;
            from = self.listed.len();
            let Some(k) = self.next() else {
                return Ok(());
            };
            self.put_group_in(alloc, s, k)?;
        }
        Ok(())
    }

    /// The databases with what follows by the literals from this number on.
    fn after_work(&mut self, alloc: Global, s: &Signature, from: usize) -> Result<Five, AllocError>
        requires { length s.now.objects ≤ MOST_OBJECTS }
        ensures { IfOk result (λ e. (d : SFive) → HasValues (signature_of s.now) → IsReached (signature_of s.now) d self.old → GrowsTo (signature_of s.now) d (five_of e)) }
    {
        self.work(alloc, s, from)?;
        let five = self.five.share()?;
        Ok(five)
    }
}

/// Whether the old databases have the literal.
fn is_old(old: &Derived, l: &Literal) -> bool {
    old.five().kf.has(l)
}

/// Whether the literal gives or denies a value, or has other forms by the values of the old databases.
fn may_bring_more(old: &Derived, l: &Literal) -> bool {
    gives_value(l) || different_terms(l).is_some() || old.normals().normal_literal(l) != *l
}

/// Whether some of the literals may bring more by values, and the old databases don't have it.
fn some_new_may(old: &Derived, kf: &Kf) -> bool {
    for l in kf.items() {
        if may_bring_more(old, l) && !is_old(old, l) {
            return true;
        }
    }
    false
}

/// The groups one after another.
fn group_list(alloc: Global, kx: &Kx) -> Result<Vec<Group>, AllocError>
    ensures { IfOk result (λ v. v.items ≡ kx.now) }
{
    let mut all = Vec::new(alloc);
    for g in kx.items() {
        let group = g.copy()?;
        all.push(group)?;
    }
    Ok(all)
}

/// The databases, of whose literals none is listed.
fn without_list(alloc: Global, five: Five) -> Result<Carrying, AllocError>
    ensures { IfOk result (λ c. Starts five c) }
{
    let groups = group_list(alloc, &five.kx)?;
    Ok(Carrying {
        five,
        listed: Vec::new(alloc),
        standing: Standing::new(alloc),
        groups,
        touched: Touched::new(alloc),
    })
}

/// Lists those of the known literals that the old databases have, or the others.
fn list_all(
    alloc: Global,
    old: &Derived,
    kf: &Kf,
    new: bool,
    to: &mut Carrying,
) -> Result<(), AllocError>
    ensures { OnOk result (Lists (literals_of kf.now) to.old to.new) }
{
    for l in kf.items() {
        to.list_if(alloc, old, new, l)?;
    }
    Ok(())
}

/// The databases, of whose literals all are listed, those that the old databases don't have last, and the number of the first
/// of these.
fn with_list(alloc: Global, old: &Derived, five: Five) -> Result<(Carrying, usize), AllocError>
    ensures { IfOk result (λ p. (s : SSignature) → IsReached s (five_of five) p.0) }
{
    let kf = five.kf.share()?;
    let mut carrying = without_list(alloc, five)?;
    list_all(alloc, old, &kf, false, &mut carrying)?;
    carrying.find(alloc)?;
    let from = carrying.listed.len();
    list_all(alloc, old, &kf, true, &mut carrying)?;
    Ok((carrying, from))
}

/// The databases with what follows from them by what the old ones don't have. It is not all where a second value of a place
/// comes to be known. It asks for at most 65,536 objects. The error is want of memory.
pub(crate) fn carry(
    alloc: Global,
    s: &Signature,
    old: &Derived,
    five: Five,
) -> Result<Five, AllocError>
    requires few { length s.now.objects ≤ MOST_OBJECTS }
    requires values { HasValues (signature_of s.now) }
    ensures { IfOk result (λ e. GrowsTo (signature_of s.now) (five_of five) (five_of e)) }
{
    if five.kx.len() == 0 && !some_new_may(old, &five.kf) {
        return Ok(five);
    }
    let (mut carrying, from) = with_list(alloc, old, five)?;
    let next = carrying.after_work(alloc, s, from);
    drop(carrying);
    next
}
