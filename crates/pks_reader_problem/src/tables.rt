//! What is declared, and the names of what is.
ghost use Rattle.std.specs.Prelude.{◌≡◌, ◌≤◌, map, length, option_map, IfOk};
ghost use Rattle.std.specs.Map.{keys_of};
ghost use Rattle.pks_terms.specs.Sets.{Each};
ghost use Rattle.pks_terms.specs.Views.{types_of, shape_of, signature_of};
ghost use Rattle.pks_reader_names.specs.Tables.{entries_of};
ghost use Rattle.pks_reader_names.specs.Scopes.{signature_in};
ghost use Rattle.pks_reader_names.specs.Views.{names_of, seen};
ghost use Rattle.pks_reader_declared.specs.Views.{declared_view};
ghost use Rattle.pks_reader_problem.specs.Sizes.{IsSmall, IsCounted, AreCounted};

use indexmap::IndexMap;
use pks_reader_names::scope::Declared;
use pks_terms::ids::TypeId;
use pks_terms::problem::{NameList, ParentList, Shape, ShapeList, Signature};
use pks_terms::schema::SortList;
use pks_terms::term::front;
use std::alloc::{AllocError, Global};

/// The names of a table, in the order of the file. The one error is want of memory.
#[tactic(auto, using(crate::proofs::Growing::pushed, crate::proofs::Growing::to_the_end, crate::proofs::Seen::keys_shown))]
pub fn names<'s, X>(alloc: Global, table: &IndexMap<&'s str, X>) -> Result<NameList<'s>, AllocError>
    ensures { IfOk result (λ names. map (λ t. t.now) names ≡ keys_of (names_of table.now)) }
{
    let mut names = Vec::new(alloc);
    for name in table.keys() {
        names.push(*name)?;
    }
    Ok(NameList::of(names))
}

/// The types that are said of names, in the order of the file. The one error is want of memory.
#[tactic(auto, using(crate::proofs::Growing::pushed, crate::proofs::Growing::to_the_end, crate::proofs::Seen::entries_shown))]
pub fn sorts(alloc: Global, table: &IndexMap<&str, u8>) -> Result<SortList, AllocError>
    ensures { IfOk result (λ sorts. types_of sorts ≡ entries_of (names_of table.now)) }
{
    let mut sorts = Vec::new(alloc);
    for own in table.values() {
        sorts.push(TypeId(*own))?;
    }
    Ok(SortList::of(sorts))
}

fn parent(said: &Option<u8>) -> Option<TypeId>
    ensures { option_map (λ t. t.0) result ≡ said.now }
{
    match said {
        None => None,
        Some(up) => Some(TypeId(*up)),
    }
}

// The parents of types.
#[tactic(auto, using(crate::proofs::Growing::pushed, crate::proofs::Growing::to_the_end, crate::proofs::Seen::entries_shown))]
fn parents(alloc: Global, table: &IndexMap<&str, Option<u8>>) -> Result<ParentList, AllocError>
    ensures { IfOk result (λ parents. map (option_map (λ t. t.0)) parents ≡ entries_of (names_of table.now)) }
{
    let mut parents = Vec::new(alloc);
    for said in table.values() {
        parents.push(parent(said))?;
    }
    Ok(ParentList::of(parents))
}

// The shape, its count being that of the arguments.
#[tactic(auto, using(crate::proofs::Counted::counted_same, crate::proofs::Counted::counted_length))]
fn with_count(shape: &Shape) -> Shape
    ensures says { shape_of result ≡ shape_of shape.now }
    ensures counted { IsCounted result }
{
    let n = front(&shape.args, shape.n).len() as u8;
    Shape {
        n,
        args: shape.args,
        result: shape.result,
    }
}

// The shapes of predicates or functions.
#[tactic(auto, using(crate::proofs::Growing::pushed, crate::proofs::Growing::each_pushed, crate::proofs::Growing::to_the_end, crate::proofs::Seen::shapes_shown))]
fn shapes(alloc: Global, table: &IndexMap<&str, Shape>) -> Result<ShapeList, AllocError>
    ensures says { IfOk result (λ shapes. map shape_of shapes ≡ entries_of (seen shape_of (names_of table.now))) }
    ensures counted { IfOk result (λ shapes. Each IsCounted shapes) }
{
    let mut shapes = Vec::new(alloc);
    for shape in table.values() {
        shapes.push(with_count(shape))?;
    }
    Ok(ShapeList::of(shapes))
}

fn count_types(table: &IndexMap<&str, Option<u8>>) -> usize
    ensures { result ≡ length (names_of table.now) }
{
    table.len()
}

/// The signature of what is declared. The one error is want of memory.
pub fn signature(alloc: Global, declared: &Declared<'_>) -> Result<Signature, AllocError>
    requires { IsSmall (declared_view declared.now) }
    ensures says { IfOk result (λ s. signature_of s ≡ signature_in (declared_view declared.now)) }
    ensures counted { IfOk result (λ s. AreCounted s) }
{
    let parents = parents(alloc, &declared.types)?;
    let objects = sorts(alloc, &declared.objects)?;
    let predicates = shapes(alloc, &declared.predicates)?;
    let functions = shapes(alloc, &declared.functions)?;
    Ok(Signature {
        types: count_types(&declared.types) as u8,
        parents,
        objects,
        predicates,
        functions,
    })
}
