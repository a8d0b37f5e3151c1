//! Normal forms of terms. `docs/RULES.md` has the rule.
ghost use Rattle.std.specs.Prelude.{◌≡◌, ℕ, List, [], ◌∷◌, map, Some, None, take, IfOk};
ghost use Rattle.std.specs.Option.{option_map};
ghost use Rattle.pks_terms.specs.Syntax.{as_object};
ghost use Rattle.pks_terms.specs.Sets.{all_some};
ghost use Rattle.pks_terms.specs.Databases.{values_at, least, applied, inner_normal, normal};
ghost use Rattle.pks_terms.specs.Views.{object_of, inner_of, term_of, arguments_in};
ghost use Rattle.pks_kf.specs.Known.{literals_of};
ghost use Rattle.pks_query_lookup.specs.Fives.{five_of};
ghost use Rattle.pks_query_lookup.specs.Reading.{first_objects, first_inners};
ghost use Rattle.pks_query_lookup.specs.Tables.{GiveAlike};

use crate::five::Five;
use crate::table::{Table, key_of, least_of, objects_at, table_of};
use pks_terms::ids::{FnId, ObjId};
use pks_terms::literal::Arguments;
use pks_terms::term::{Inner, Term, front};
use std::alloc::{AllocError, Global};
use std::marker::Model;
use std::rc::Rc;

/// Databases by whose known literals normal forms are made, seen as those databases.
#[derive(Drop)]
pub struct Normals {
    five: Five,
    table: Rc<Table>,
}

impl Model for Normals {
    ghost use Rattle.pks_kf.specs.Known.{literals_of};
    ghost use Rattle.pks_query_lookup.specs.declared.five.Five.{Five};
    ghost use Rattle.pks_query_lookup.specs.Tables.{IsTableOf};

    ghost Value = { Five };

    ghost view = { λ n. n.five };

    ghost invariant = { λ n. IsTableOf (literals_of n.five.kf) n.table.value };
}

/// The objects that the first `n` arguments are.
pub fn objects(n: u8, args: &[Inner; 2]) -> Option<[ObjId; 2]>
    ensures { option_map (first_objects n) result ≡ all_some (map as_object (first_inners n args.now)) }
{
    let first = if n > 0 { object(&args[0])? } else { ObjId(0) };
    let second = if n > 1 { object(&args[1])? } else { ObjId(0) };
    Some([first, second])
}

fn object(t: &Inner) -> Option<ObjId>
    ensures { option_map object_of result ≡ as_object (inner_of t.now) }
{
    match t {
        Inner::Obj(d) => Some(*d),
        Inner::Param(_) | Inner::App { .. } => None,
    }
}

/// The value behind a count of references. The error is want of memory.
pub fn behind_rc<T: Drop>(alloc: Global, value: T) -> Result<Rc<T>, AllocError>
    ensures { IfOk result (λ rc. rc.value ≡ value) }
{
    let rc = Rc::new(alloc, value)?;
    Ok(rc)
}

impl Normals {
    /// Reads the known literals of the five.
    pub fn of(alloc: Global, five: Five) -> Result<Normals, AllocError>
        ensures { IfOk result (λ n. n ≡ five) }
    {
        let table = table_of(alloc, &five.kf)?;
        let table = behind_rc(alloc, table)?;
        Ok(Normals { five, table })
    }

    /// Reads another five whose known literals give the same values as these. It shares the table of them. The error is
    /// want of memory for one more reference.
    pub fn beside(&self, five: Five) -> Result<Normals, AllocError>
        requires { GiveAlike (literals_of five.kf) (literals_of self.now.kf) }
        ensures { IfOk result (λ n. n ≡ five) }
    {
        let table = self.table.clone()?;
        Ok(Normals { five, table })
    }

    /// Lends the five. It takes no memory.
    pub fn five(&self) -> &Five
        ensures { result.now ≡ self.now }
    {
        &self.five
    }

    /// Gives the five back. It takes no memory.
    pub fn into_five(self) -> Five
        ensures { result ≡ self }
    {
        self.five
    }

    /// Lends the objects that the known literals give as the value of the function at the objects, in the order of the
    /// literals. It takes no memory, and compares the place with as many as their logarithm.
    pub fn values(&self, fun: FnId, at: &[ObjId]) -> &[ObjId]
        ensures { map object_of result.now ≡ values_at (literals_of self.now.kf) fun.0 (map object_of at.now) }
    {
        let table: &Table = &self.table;
        match key_of(fun, at) {
            Some(key) => objects_at(table, &key),
            None => &[],
        }
    }

    /// The objects that `values` lends.
    pub fn values_at(
        &self,
        alloc: Global,
        fun: FnId,
        at: &[ObjId],
    ) -> Result<Vec<ObjId>, AllocError>
        ensures { IfOk result (λ v. map object_of v.items ≡ values_at (literals_of self.now.kf) fun.0 (map object_of at.now)) }
    {
        let values = Vec::from_slice(alloc, self.values(fun, at))?;
        Ok(values)
    }

    /// The least of them, or `None` where there is none. It takes no memory.
    pub fn least_value(&self, fun: FnId, at: &[ObjId]) -> Option<ObjId>
        ensures { option_map object_of result ≡ least (values_at (literals_of self.now.kf) fun.0 (map object_of at.now)) }
    {
        least_of(self.values(fun, at))
    }

    /// The normal form of an argument.
    #[tactic(auto, using(crate::proofs::Lists::read))]
    pub fn normal_inner(&self, t: &Inner) -> Inner
        ensures { inner_of result ≡ inner_normal (literals_of self.now.kf) (inner_of t.now) }
    {
        match t {
            Inner::App { fun, n, args } => match self.least_value(*fun, front(args, *n)) {
                Some(d) => Inner::Obj(d),
                None => *t,
            },
            Inner::Obj(_) | Inner::Param(_) => *t,
        }
    }

    fn normal_inners(&self, args: &[Inner; 2]) -> [Inner; 2]
        ensures { (n : ℕ) → first_inners n result ≡ map (inner_normal (literals_of self.now.kf)) (first_inners n args.now) }
    {
        [self.normal_inner(&args[0]), self.normal_inner(&args[1])]
    }

    /// The application, or the least value that the literals give at it.
    fn value_or_app(&self, fun: FnId, n: u8, args: [Inner; 2]) -> Term
        ensures { term_of result ≡ applied as_object (literals_of self.now.kf) fun.0 (first_inners n args) }
    {
        let Some(own) = objects(n, &args) else {
            return Term::App { fun, n, args };
        };
        match self.least_value(fun, front(&own, n)) {
            Some(d) => Term::Obj(d),
            None => Term::App { fun, n, args },
        }
    }

    /// The normal form of a term. It takes no memory.
    #[tactic(auto, unfolding(pks_terms::specs::Databases::normal))]
    pub fn normal(&self, t: &Term) -> Term
        ensures { term_of result ≡ normal (literals_of self.now.kf) (term_of t.now) }
    {
        match t {
            Term::App { fun, n, args } => self.value_or_app(*fun, *n, self.normal_inners(args)),
            Term::Obj(_) | Term::Param(_) => *t,
        }
    }

    /// The normal forms of arguments. It takes no memory.
    pub fn normal_arguments(&self, given: &Arguments) -> Arguments
        ensures count { result.n ≡ given.now.n }
        ensures terms { arguments_in result ≡ map (normal (literals_of self.now.kf)) (arguments_in given.now) }
    {
        Arguments {
            n: given.n,
            items: [
                self.normal(&given.items[0]),
                self.normal(&given.items[1]),
                self.normal(&given.items[2]),
            ],
        }
    }
}
