//! Copies of what a problem is made of.
ghost use Rattle.std.specs.Prelude.{◌≡◌, IfOk};

use pks_terms::problem::{Init, InitItem, InitList, NameList, Names, ParamNames, Signature};
use pks_terms::schema::{Schema, SchemaList};
use pks_terms::sequence::Sequence;
use std::alloc::{AllocError, Global};

/// An equal list.
fn same_list<T: Copy>(alloc: Global, list: &Sequence<T>) -> Result<Sequence<T>, AllocError>
    ensures { IfOk result (λ copy. copy ≡ list.now) }
{
    let items = Vec::from_slice(alloc, list.as_slice())?;
    Ok(Sequence::of(items))
}

/// An equal signature.
pub(crate) fn same_signature(alloc: Global, s: &Signature) -> Result<Signature, AllocError>
    ensures { IfOk result (λ copy. copy ≡ s.now) }
{
    Ok(Signature {
        types: s.types,
        parents: same_list(alloc, &s.parents)?,
        objects: same_list(alloc, &s.objects)?,
        predicates: same_list(alloc, &s.predicates)?,
        functions: same_list(alloc, &s.functions)?,
    })
}

/// An equal action.
fn same_schema<'s>(alloc: Global, x: &Schema<'s>) -> Result<Schema<'s>, AllocError>
    ensures { IfOk result (λ copy. copy ≡ x.now) }
{
    Ok(Schema {
        name: x.name,
        cost: x.cost,
        params: same_list(alloc, &x.params)?,
        pre: same_list(alloc, &x.pre)?,
        effects: same_list(alloc, &x.effects)?,
        senses: same_list(alloc, &x.senses)?,
        adds: same_list(alloc, &x.adds)?,
    })
}

/// Equal actions.
pub(crate) fn same_schemas<'s>(
    alloc: Global,
    schemas: &[Schema<'s>],
) -> Result<SchemaList<'s>, AllocError>
    ensures { IfOk result (λ copy. copy ≡ schemas.now) }
{
    let mut copies = Vec::new(alloc);
    for x in schemas {
        let copy = same_schema(alloc, x)?;
        copies.push(copy)?;
    }
    Ok(Sequence::of(copies))
}

/// The parameters' names again.
fn same_params<'s>(alloc: Global, params: &[NameList<'s>]) -> Result<ParamNames<'s>, AllocError>
    ensures { IfOk result (λ copy. copy ≡ params.now) }
{
    let mut copies = Vec::new(alloc);
    for names in params {
        let copy: NameList<'s> = same_list(alloc, names)?;
        copies.push(copy)?;
    }
    Ok(Sequence::of(copies))
}

/// The names again.
pub(crate) fn same_names<'s>(alloc: Global, names: &Names<'s>) -> Result<Names<'s>, AllocError>
    ensures { IfOk result (λ copy. copy ≡ names.now) }
{
    Ok(Names {
        types: same_list(alloc, &names.types)?,
        objects: same_list(alloc, &names.objects)?,
        predicates: same_list(alloc, &names.predicates)?,
        functions: same_list(alloc, &names.functions)?,
        params: same_params(alloc, names.params.as_slice())?,
    })
}

/// An equal initial item.
fn same_item(item: &InitItem) -> Result<InitItem, AllocError>
    ensures { IfOk result (λ copy. copy ≡ item.now) }
{
    let start = match &item.start {
        Init::Kf(l) => Init::Kf(*l),
        Init::Kw(c) => Init::Kw(*c),
        Init::Kv(t) => Init::Kv(*t),
        Init::Kx(g) => Init::Kx(g.copy()?),
        Init::Lcw(x) => Init::Lcw(*x),
    };
    Ok(InitItem {
        start,
        span: item.span,
    })
}

/// Equal initial items.
pub(crate) fn same_init(alloc: Global, init: &[InitItem]) -> Result<InitList, AllocError>
    ensures { IfOk result (λ copy. copy ≡ init.now) }
{
    let mut copies = Vec::new(alloc);
    for item in init {
        let copy = same_item(item)?;
        copies.push(copy)?;
    }
    Ok(Sequence::of(copies))
}
