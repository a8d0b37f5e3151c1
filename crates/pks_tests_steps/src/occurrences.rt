//! Where terms occur in closed databases. The literals are those of initial items as they are written.
use crate::domains::ALIAS;
use crate::walks::{first, read, text};
use pks_query::Uses;
use pks_terms::literal::Literal;
use pks_terms::problem::Init;
use pks_terms::term::Term;
use std::alloc::Global;
use std::test::Fail;

/// The known literals among initial items, as they are written.
fn written_literals(alloc: Global, init: &str) -> Result<Vec<Literal>, Fail> {
    let text = text(alloc, &ALIAS, init)?;
    let p = read(alloc, text.as_str())?;
    let mut all = Vec::new(alloc);
    for item in p.init.as_slice() {
        if let Init::Kf(l) = &item.start {
            all.push(*l)?;
        }
    }
    Ok(all)
}

/// The index of the closed databases of these initial items.
fn uses_of(alloc: Global, init: &str) -> Result<Uses, Fail> {
    let text = text(alloc, &ALIAS, init)?;
    let p = read(alloc, text.as_str())?;
    let d = first(alloc, &p)?;
    let uses = Uses::of(alloc, d.parts())?;
    Ok(uses)
}

/// The place of the key, and the literal that says it is there.
fn key_at_place(alloc: Global) -> Result<(Term, Literal), Fail> {
    let all = written_literals(alloc, "(kf (at key (where)))")?;
    match all.as_slice().first() {
        Some(l) => Ok((l.atom.arguments().items[1], *l)),
        None => Err(Fail::new("there is no such literal")),
    }
}

/// Whether the literals in which the term occurs are these, and no group and no region has it.
fn occurs_in(alloc: Global, uses: &Uses, t: &Term, literals: &str) -> Result<bool, Fail> {
    let wanted = written_literals(alloc, literals)?;
    Ok(
        uses.literals(t) == wanted.as_slice()
            && uses.groups(t).is_empty()
            && uses.entries(t).is_empty(),
    )
}

#[test]
fn where_the_place_of_the_key_occurs(rt: HostRuntime) -> Result<(), Fail> {
    let alloc = rt.alloc();
    let uses = uses_of(alloc, "(kf (at key hall)) (kf (not (= (where) hall)))")?;
    let (place, at_place) = key_at_place(alloc)?;
    assert!(rt;
        occurs_in(
            alloc,
            &uses,
            &place,
            "(kf (not (= (where) hall))) (kf (= (where) den))"
        )?
    );
    let longer = uses.add(alloc, at_place)?;
    assert!(rt;
        occurs_in(
            alloc,
            &longer,
            &place,
            "(kf (at key (where))) (kf (not (= (where) hall))) (kf (= (where) den))"
        )?
    );
    Ok(())
}
