//! The first world of a problem.
ghost use Rattle.std.specs.Prelude.{◌≡◌, ◌≤◌, ◌^◌, [], ◌∷◌, map, true, IfOk, OnOk, length, Some, if◌then◌else◌};
ghost use Rattle.pks_terms.specs.declared.limits.TheConstants.{MOST_OBJECTS};
ghost use Rattle.pks_terms.specs.Counts.{TermCounts};
ghost use Rattle.pks_terms.specs.Syntax.{place};
ghost use Rattle.pks_terms.specs.Orders.{term_eq};
ghost use Rattle.pks_terms.specs.Sets.{Each};
ghost use Rattle.pks_terms.specs.Signatures.{objects_of};
ghost use Rattle.pks_terms.specs.Valid.{IsValidSignature};
ghost use Rattle.pks_terms.specs.Views.{object_of, term_of, types_of, shape_of, signature_of};
ghost use Rattle.pks_world.specs.Contents.{world_of};
ghost use Rattle.pks_world.specs.Counts.{KeptCounts, WorldCounts};
ghost use Rattle.pks_world.specs.First.{first_of, first_world, IsWorldOf, Writes, is_in_row, is_in_rows, argument_range, WritesOnly, WritesAll, AreLeast, AreFilled};

use crate::worlds::{World, at_objects};
use pks_terms::ids::{FnId, ObjId, TypeId};
use pks_terms::problem::{Problem, Signature};
use pks_terms::term::{Term, front};
use std::alloc::{AllocError, Global};
use std::collections::{BTreeMap, BTreeSet};

/// The least object of the type, or object 0 where there is none.
#[tactic(auto, unfolding(pks_terms::specs::Signatures::objects_of))]
fn least_of(s: &Signature, of: TypeId) -> ObjId
    requires { length s.now.objects ≤ MOST_OBJECTS }
    ensures { result.0 ≡ first_of (objects_of (signature_of s.now) of.0) }
{
    for (i, own) in s.objects.as_slice().iter().enumerate() {
        if s.fits(*own, of) {
            return ObjId(i as u16);
        }
    }
    ObjId(0)
}

/// The least value of each function.
fn least_values(alloc: Global, s: &Signature) -> Result<Vec<ObjId>, AllocError>
    requires { length s.now.objects ≤ MOST_OBJECTS }
    ensures { IfOk result (λ v. map object_of v.items ≡ map (λ x. first_of (objects_of (signature_of s.now) x.result.0)) s.now.functions) }
{
    let mut values = Vec::new(alloc);
    for shape in s.functions.as_slice() {
        values.push(least_of(s, shape.result))?;
    }
    Ok(values)
}

/// The objects that may be the argument of this number, and object 0 where there is no such argument.
fn argument_range(
    alloc: Global,
    s: &Signature,
    types: &[TypeId],
    number: usize,
) -> Result<Vec<ObjId>, AllocError>
    requires { length s.now.objects ≤ MOST_OBJECTS }
    ensures { IfOk result (λ v. map object_of v.items ≡ argument_range (signature_of s.now) (types_of types.now) number) }
{
    match types.get(number) {
        Some(of) => {
            let objects = s.objects_of(alloc, *of)?;
            Ok(objects)
        }
        None => {
            let objects = vec![in alloc; ObjId(0)]?;
            Ok(objects)
        }
    }
}

/// Gives the place this value.
#[tactic(auto, unfolding(pks_terms::specs::Orders::term_eq))]
fn keep(values: &mut BTreeMap<Term, ObjId>, at: Term, d: ObjId) -> Result<(), AllocError>
    ensures says { OnOk result (Writes (term_eq (term_of at)) d.0 values.old.entries values.new.entries) }
    ensures counts { TermCounts at → KeptCounts values.old.entries → OnOk result (KeptCounts values.new.entries) }
{
    values.insert(at, d)?;
    Ok(())
}

/// Gives the places of the function at `first` and each of `seconds` this value.
fn keep_row(
    values: &mut BTreeMap<Term, ObjId>,
    fun: FnId,
    n: u8,
    first: ObjId,
    seconds: &[ObjId],
    d: ObjId,
) -> Result<(), AllocError>
    ensures says { OnOk result (Writes (is_in_row fun.0 n first seconds.now) d.0 values.old.entries values.new.entries) }
    ensures counts { n ≤ 2 → KeptCounts values.old.entries → OnOk result (KeptCounts values.new.entries) }
{
    for second in seconds {
        keep(values, at_objects(fun, n, &[first, *second]), d)?;
    }
    Ok(())
}

/// Gives the places of the function at each of `firsts` and each of `seconds` this value.
fn keep_rows(
    values: &mut BTreeMap<Term, ObjId>,
    fun: FnId,
    n: u8,
    firsts: &[ObjId],
    seconds: &[ObjId],
    d: ObjId,
) -> Result<(), AllocError>
    ensures says { OnOk result (Writes (is_in_rows fun.0 n firsts.now seconds.now) d.0 values.old.entries values.new.entries) }
    ensures counts { n ≤ 2 → KeptCounts values.old.entries → OnOk result (KeptCounts values.new.entries) }
{
    for first in firsts {
        keep_row(values, fun, n, *first, seconds, d)?;
    }
    Ok(())
}

/// Gives each place of the function, whose arguments are of these types, this value.
fn fill(
    alloc: Global,
    s: &Signature,
    fun: FnId,
    types: &[TypeId],
    d: ObjId,
    values: &mut BTreeMap<Term, ObjId>,
) -> Result<(), AllocError>
    requires { length s.now.objects ≤ MOST_OBJECTS }
    ensures only { OnOk result (WritesOnly fun.0 d.0 values.old.entries values.new.entries) }
    ensures all { length types.now ≤ 2 → OnOk result (WritesAll (signature_of s.now) fun.0 (types_of types.now) d.0 values.new.entries) }
    ensures counts { KeptCounts values.old.entries → OnOk result (KeptCounts values.new.entries) }
{
    let firsts = argument_range(alloc, s, types, 0)?;
    let seconds = argument_range(alloc, s, types, 1)?;
    keep_rows(values, fun, types.len().min(2) as u8, &firsts, &seconds, d)?;
    Ok(())
}

/// The least value for each place of the signature.
fn all_values(alloc: Global, s: &Signature) -> Result<BTreeMap<Term, ObjId>, AllocError>
    requires objects { length s.now.objects ≤ MOST_OBJECTS }
    requires functions { length s.now.functions ≤ 256 }
    ensures least { IfOk result (λ m. AreLeast (signature_of s.now) m.entries) }
    ensures filled { Each (λ x. length (shape_of x).arguments ≤ 2) s.now.functions → IfOk result (λ m. AreFilled (signature_of s.now) (length s.now.functions) m.entries) }
    ensures counts { IfOk result (λ m. KeptCounts m.entries) }
{
    let mut values = BTreeMap::new(alloc);
    for (f, shape) in s.functions.as_slice().iter().enumerate() {
        let types = front(&shape.args, shape.n);
        let least = least_of(s, shape.result);
        fill(alloc, s, FnId(f as u8), types, least, &mut values)?;
    }
    Ok(values)
}

impl World {
    /// The world in which no atom is true and each place has the least object of its result type. It asks that objects and functions can be
    /// numbered. `AllocError` comes for want of memory alone. `docs/RULES.md`, worlds.
    pub fn first(alloc: Global, p: &Problem<'_>) -> Result<World, AllocError>
        requires objects { length p.now.signature.objects ≤ MOST_OBJECTS }
        requires functions { length p.now.signature.functions ≤ 256 }
        ensures world { IfOk result (λ w. world_of w ≡ first_world (signature_of p.now.signature)) }
        ensures of_signature { IsValidSignature (signature_of p.now.signature) → IfOk result (IsWorldOf (signature_of p.now.signature)) }
        ensures counts { IfOk result WorldCounts }
    {
        let values = all_values(alloc, &p.signature)?;
        let others = least_values(alloc, &p.signature)?;
        Ok(World {
            atoms: BTreeSet::new(alloc),
            values,
            others,
        })
    }
}
