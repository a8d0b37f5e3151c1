//! Closed databases. `docs/RULES.md` has the rule on closing.
ghost use Rattle.std.specs.Prelude.{◌≡◌, ◌≤◌, length, None, IfOk, IfErr, IfSome, IsSomeAnd};
ghost use Rattle.pks_terms.specs.declared.limits.TheConstants.{MOST_OBJECTS};
ghost use Rattle.pks_terms.specs.Signatures.{HasValues};
ghost use Rattle.pks_terms.specs.Worlds.{World};
ghost use Rattle.pks_terms.specs.Meaning.{IsTrueOf};
ghost use Rattle.pks_terms.specs.Closure.{first_clash, Closes, IsClosed, Next, Clash};
ghost use Rattle.pks_terms.specs.Saturated.{IsSaturated};
ghost use Rattle.pks_terms.specs.Problems.{initial, StartAlike};
ghost use Rattle.pks_terms.specs.Valid.{AreOf};
ghost use Rattle.pks_terms.specs.ValidProblems.{IsValidProblem};
ghost use Rattle.pks_terms.specs.Views.{literal_of, signature_of, problem_of};
ghost use Rattle.pks_terms.specs.Moments.{AreInOrder, IsMomentOf};
ghost use Rattle.pks_query_lookup.specs.Fives.{five_of};
ghost use Rattle.pks_query_closing.specs.Closing.{IfClash};
ghost use Rattle.pks_query_closing.specs.Working.{EndsWith};
ghost use Rattle.pks_query.specs.Closed.{AreClosed};
ghost use Rattle.pks_query.specs.Steps.{outcome_of, IfNext, IsNextWith};

use crate::initial::initial;
use pks_query_closing::closing::{CloseEnd, close, close_unless_clash};
use pks_query_closing::tidied::with_normal_parts;
use pks_query_lookup::derived::Derived;
use pks_query_lookup::five::Five;
use pks_query_lookup::normals::behind_rc;
use pks_terms::literal::Literal;
use pks_terms::problem::{Problem, Signature};
use std::alloc::{AllocError, Global};
use std::marker::Model;
use std::rc::Rc;

/// Closed databases without a clash, seen as those databases. They do not keep the signature by which they are closed.
#[derive(Drop)]
pub struct Db {
    derived: Rc<Derived>,
}

impl Model for Db {
    ghost use Rattle.pks_query_lookup.specs.declared.five.Five.{Five};
    ghost use Rattle.pks_query_lookup.specs.Fives.{five_of};
    ghost use Rattle.pks_query.specs.Closed.{AreClosed};

    ghost Value = { Five };

    ghost view = { λ d. d.derived.value };

    ghost invariant = { λ d. AreClosed (five_of d.derived.value) };
}

/// What a step makes of databases: the next ones, or the least literal that is derived false.
#[derive(Drop)]
pub enum Step {
    /// The closed databases.
    Next(Db),
    /// The least literal that is derived false.
    Clash(Literal),
}

impl Db {
    /// The databases that the five become by closing. It asks for at most 65,536 objects, and for an object of each
    /// function's result type. The error is the least literal that is derived false, or want of memory.
    pub fn close(alloc: Global, s: &Signature, five: Five) -> Result<Db, CloseEnd>
        requires few { length s.now.objects ≤ MOST_OBJECTS }
        requires values { HasValues (signature_of s.now) }
        ensures closes { IfOk result (λ db. Closes (signature_of s.now) (five_of five) (Next (five_of db))) }
        ensures clashes { IfErr result (IfClash (λ l. Closes (signature_of s.now) (five_of five) (Clash (literal_of l)))) }
        ensures moment { AreOf (signature_of s.now) (five_of five) → AreInOrder (five_of five) → IfOk result (λ db. IsMomentOf (signature_of s.now) (five_of db)) }
        ensures keeps_truth { (w w' : World) → IsTrueOf (signature_of s.now) w w' (five_of five) → IfOk result (λ db. IsTrueOf (signature_of s.now) w w' (five_of db)) }
        ensures no_clash { (w w' : World) → IsTrueOf (signature_of s.now) w w' (five_of five) → IfErr result (IfClash (λ l. ⊥)) }
    {
        let same = five.share()?;
        if let Some(db) = Db::close_unless_clash(alloc, s, same)? {
            return Ok(db);
        }
        Db::close_by_rounds(alloc, s, five)
    }

    // The same by plain rounds, which name a clash.
    fn close_by_rounds(alloc: Global, s: &Signature, five: Five) -> Result<Db, CloseEnd>
        requires few { length s.now.objects ≤ MOST_OBJECTS }
        requires values { HasValues (signature_of s.now) }
        ensures closes { IfOk result (λ db. Closes (signature_of s.now) (five_of five) (Next (five_of db))) }
        ensures clashes { IfErr result (IfClash (λ l. Closes (signature_of s.now) (five_of five) (Clash (literal_of l)))) }
        ensures moment { AreOf (signature_of s.now) (five_of five) → AreInOrder (five_of five) → IfOk result (λ db. IsMomentOf (signature_of s.now) (five_of db)) }
        ensures keeps_truth { (w w' : World) → IsTrueOf (signature_of s.now) w w' (five_of five) → IfOk result (λ db. IsTrueOf (signature_of s.now) w w' (five_of db)) }
        ensures no_clash { (w w' : World) → IsTrueOf (signature_of s.now) w w' (five_of five) → IfErr result (IfClash (λ l. ⊥)) }
    {
        match close(alloc, s, five) {
            Ok(derived) => {
                let derived = behind_rc(alloc, derived)?;
                Ok(Db { derived })
            }
            Err(end) => Err(end),
        }
    }

    /// The same where a clash needn't be named: the databases that the five become by closing, or `None` where there is a
    /// clash, which is seen as soon as two values of one place, or a value and its denial, come to be known. The error is
    /// want of memory.
    pub fn close_unless_clash(
        alloc: Global,
        s: &Signature,
        five: Five,
    ) -> Result<Option<Db>, AllocError>
        requires few { length s.now.objects ≤ MOST_OBJECTS }
        requires values { HasValues (signature_of s.now) }
        ensures ends { IfOk result (λ o. EndsWith (Closes (signature_of s.now) (five_of five)) o) }
        ensures moment { AreOf (signature_of s.now) (five_of five) → AreInOrder (five_of five) → IfOk result (λ o. IfSome o (λ db. IsMomentOf (signature_of s.now) (five_of db))) }
        ensures keeps_truth { (w w' : World) → IsTrueOf (signature_of s.now) w w' (five_of five) → IfOk result (λ o. IsSomeAnd o (λ db. IsTrueOf (signature_of s.now) w w' (five_of db))) }
    {
        match close_unless_clash(alloc, s, five)? {
            None => Ok(None),
            Some(derived) => {
                let db = Db::of_closed(alloc, s, derived)?;
                Ok(Some(db))
            }
        }
    }

    /// The databases that these become by closing, where the rules add nothing to them and nothing clashes. It asks for an
    /// object of each function's result type. The error is want of memory.
    pub fn close_saturated(alloc: Global, s: &Signature, derived: Derived) -> Result<Db, AllocError>
        requires values { HasValues (signature_of s.now) }
        requires saturated { IsSaturated (signature_of s.now) (five_of derived) }
        requires fine { first_clash (signature_of s.now) (five_of derived) ≡ None }
        ensures { IfOk result (λ db. Closes (signature_of s.now) (five_of derived) (Next (five_of db))) }
    {
        let _known = derived.five().kf.len();
        let whole = with_normal_parts(alloc, derived)?;
        let db = Db::of_closed(alloc, s, whole)?;
        Ok(db)
    }

    /// What the five become by closing, as a step. It asks for what `close` does. Where the five are true of two worlds there
    /// is no clash. The error is want of memory.
    pub fn close_to_step(alloc: Global, s: &Signature, five: Five) -> Result<Step, AllocError>
        requires few { length s.now.objects ≤ MOST_OBJECTS }
        requires values { HasValues (signature_of s.now) }
        ensures closes { IfOk result (λ o. Closes (signature_of s.now) (five_of five) (outcome_of o)) }
        ensures moment { AreOf (signature_of s.now) (five_of five) → AreInOrder (five_of five) → IfOk result (λ o. IfNext (IsMomentOf (signature_of s.now)) (outcome_of o)) }
        ensures keeps_truth { (w w' : World) → IsTrueOf (signature_of s.now) w w' (five_of five) → IfOk result (λ o. IsNextWith (IsTrueOf (signature_of s.now) w w') (outcome_of o)) }
    {
        match Db::close(alloc, s, five) {
            Ok(next) => Ok(Step::Next(next)),
            Err(CloseEnd::Clash(l)) => Ok(Step::Clash(l)),
            Err(CloseEnd::Memory) => Err(AllocError),
        }
    }

    /// The databases that the problem's initial items become by closing. It asks for a valid problem. The error is the
    /// least literal that is derived false, or want of memory.
    pub fn first(alloc: Global, p: &Problem) -> Result<Db, CloseEnd>
        requires { IsValidProblem p.now }
        ensures closes { IfOk result (λ db. Closes (problem_of p.now).signature (initial (problem_of p.now)) (Next (five_of db))) }
        ensures clashes { IfErr result (IfClash (λ l. Closes (problem_of p.now).signature (initial (problem_of p.now)) (Clash (literal_of l)))) }
        ensures moment { IfOk result (λ db. IsMomentOf (problem_of p.now).signature (five_of db)) }
        ensures keeps_truth { (w w' : World) → StartAlike (problem_of p.now) w w' → IfOk result (λ db. IsTrueOf (problem_of p.now).signature w w' (five_of db)) }
        ensures no_clash { (w w' : World) → StartAlike (problem_of p.now) w w' → IfErr result (IfClash (λ l. ⊥)) }
    {
        let five = initial(alloc, p)?;
        Db::close(alloc, &p.signature, five)
    }

    /// The same where a clash needn't be named: the databases that the problem's initial items become by closing, or `None`
    /// where there is a clash. It asks for a valid problem. The error is want of memory.
    pub fn first_unless_clash(alloc: Global, p: &Problem) -> Result<Option<Db>, AllocError>
        requires { IsValidProblem p.now }
        ensures { IfOk result (λ o. EndsWith (Closes (problem_of p.now).signature (initial (problem_of p.now))) o) }
    {
        let five = initial(alloc, p)?;
        let first = Db::close_unless_clash(alloc, &p.signature, five)?;
        Ok(first)
    }

    /// The databases that were closed otherwise, as the moments of a settled history are. It asks that they are closed by the
    /// signature, and for an object of each function's result type. The error is want of memory.
    pub fn of_closed(alloc: Global, s: &Signature, derived: Derived) -> Result<Db, AllocError>
        requires values { HasValues (signature_of s.now) }
        requires closed { IsClosed (signature_of s.now) (five_of derived) }
        ensures { IfOk result (λ db. db ≡ derived) }
    {
        let _s = s;
        let derived = behind_rc(alloc, derived)?;
        Ok(Db { derived })
    }

    /// Lends the five. It takes no memory.
    pub fn parts(&self) -> &Five
        ensures lent { result.now ≡ self.now }
        ensures closed { AreClosed (five_of self.now) }
    {
        self.derived.five()
    }

    /// Lends what looks literals up. It takes no memory.
    pub fn lookup(&self) -> &Derived
        ensures { result.now ≡ self.now }
    {
        &self.derived
    }

    /// Equal databases, all of whose memory is shared. The error is want of memory for one more reference.
    pub fn share(&self) -> Result<Db, AllocError>
        ensures { IfOk result (λ same. same ≡ self.now) }
    {
        let derived = self.derived.clone()?;
        Ok(Db { derived })
    }
}
