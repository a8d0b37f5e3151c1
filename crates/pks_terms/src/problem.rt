//! Signatures, names and problems. `docs/RULES.md` says what they mean and when they are valid, `docs/FORMAT.md` how they
//! are written.
ghost use Rattle.std.specs.Prelude.{◌≡◌, ◌≤◌, map, length, IfOk};
ghost use Rattle.pks_terms.specs.declared.limits.TheConstants.{MOST_OBJECTS};
ghost use Rattle.pks_terms.specs.Signatures.{parent_of, fits_type, objects_of};
ghost use Rattle.pks_terms.specs.Views.{object_of, signature_of};

use crate::group::Group;
use crate::ids::{ObjId, Span, TypeId};
use crate::literal::{Conj, Literal, Pattern};
use crate::schema::{Query, SchemaList, SortList};
use crate::sequence::Sequence;
use crate::term::Term;
use std::alloc::{AllocError, Global};

/// The declared arguments of a predicate or a function, and the type of a function's result.
#[derive(Clone, Copy)]
pub struct Shape {
    /// How many arguments there are.
    pub n: u8,
    /// The type of each argument, and type 0 at unused places.
    pub args: [TypeId; 3],
    /// The type of the result, and type 0 for a predicate.
    pub result: TypeId,
}

/// A list of shapes.
pub type ShapeList = Sequence<Shape>;

/// The parent of each type, or nothing for a type without a parent.
pub type ParentList = Sequence<Option<TypeId>>;

/// The declared types, objects, predicates and functions, each in the order of declaration.
#[derive(Drop)]
pub struct Signature {
    /// How many types there are.
    pub types: u8,
    /// The parent of each type.
    pub parents: ParentList,
    /// The type of each object.
    pub objects: SortList,
    /// The arguments of each predicate.
    pub predicates: ShapeList,
    /// The arguments and the result of each function.
    pub functions: ShapeList,
}

impl Signature {
    /// The parent, which is an earlier type.
    fn parent(&self, own: u8) -> Option<u8>
        ensures { result ≡ parent_of (signature_of self.now) own }
    {
        match self.parents.as_slice().get(usize::from(own)) {
            Some(Some(up)) => { if up.0 < own { Some(up.0) } else { None } }
            _ => None,
        }
    }

    /// Whether the type is the other one or below it: the other one is its parent, its parent's parent and so on. A parent
    /// that isn't an earlier type counts as none.
    pub fn fits(&self, t: TypeId, of: TypeId) -> bool
        ensures { result ≡ fits_type (signature_of self.now) t.0 of.0 }
    {
        let mut own = t.0;
        loop {
            if own == of.0 {
                return true;
            }
            match self.parent(own) {
                Some(up) => own = up,
                None => return false,
            }
        }
    }

    /// The objects of the type, in order: those whose own type fits it. It asks for at most 65,536 objects. The one error is
    /// want of memory.
    #[tactic(auto, unfolding(crate::specs::Signatures::objects_of))]
    pub fn objects_of(&self, alloc: Global, of: TypeId) -> Result<Vec<ObjId>, AllocError>
        requires { length self.now.objects ≤ MOST_OBJECTS }
        ensures { IfOk result (λ v. map object_of v.items ≡ objects_of (signature_of self.now) of.0) }
    {
        let mut objects = Vec::new(alloc);
        for (i, own) in self.objects.as_slice().iter().enumerate() {
            if self.fits(*own, of) {
                objects.push(ObjId(i as u16))?;
            }
        }
        Ok(objects)
    }
}

/// A list of names.
pub type NameList<'s> = Sequence<&'s str>;

/// The names of the parameters, one list for each action.
pub type ParamNames<'s> = Sequence<NameList<'s>>;

/// The declared names, lent from the source, each kind in the order of declaration. The name of an action stands in its
/// schema.
#[derive(Drop)]
pub struct Names<'s> {
    /// The names of the types.
    pub types: NameList<'s>,
    /// The names of the objects.
    pub objects: NameList<'s>,
    /// The names of the predicates.
    pub predicates: NameList<'s>,
    /// The names of the functions.
    pub functions: NameList<'s>,
    /// The names of the parameters of each action, without their question marks.
    pub params: ParamNames<'s>,
}

/// What is known at the start.
#[derive(Drop)]
pub enum Init {
    /// The literal is known.
    Kf(Literal),
    /// It will be known whether the conjunction is true.
    Kw(Conj),
    /// The value of the term will be known.
    Kv(Term),
    /// Exactly one literal of the group is true.
    Kx(Group),
    /// All true instances of the pattern are known.
    Lcw(Pattern),
}

/// An initial item.
#[derive(Drop)]
pub struct InitItem {
    /// What is known.
    pub start: Init,
    /// Where the item stands in the source.
    pub span: Span,
}

/// A list of initial items.
pub type InitList = Sequence<InitItem>;

/// A query of the goal, and the moments of a plan at which it is asked.
#[derive(Clone, Copy)]
pub enum Aim {
    /// At the end.
    Now(Query),
    /// At the start.
    AtStart(Query),
    /// At every moment.
    Always(Query),
    /// At one moment at least.
    Once(Query),
}

/// A list of aims.
pub type AimList = Sequence<Aim>;

/// What a file states, but for its world. A problem of version 1 has no parents, cost 1 everywhere and aims at the end
/// alone.
#[derive(Drop)]
pub struct Problem<'s> {
    /// 1 or 2.
    pub version: u8,
    /// What is declared.
    pub signature: Signature,
    /// The declared names.
    pub names: Names<'s>,
    /// The actions in the order of declaration.
    pub schemas: SchemaList<'s>,
    /// The initial items in written order.
    pub init: InitList,
    /// Where the initial items stand in the source; empty where there is no such section.
    pub init_span: Span,
    /// Where the problem's section stands in the source.
    pub problem_span: Span,
    /// The aims in written order.
    pub goal: AimList,
}
