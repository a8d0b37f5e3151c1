//! Each table, and a long proof.
use crate::judging::{first_wrong, is_long_accepted};
use crate::{actions, moments, places, regions, terms, typed};
use std::test::Fail;
use std::time::{Duration, Instant};

#[test]
fn an_open_door(rt: HostRuntime) -> Result<(), Fail> {
    assert_eq!(rt; first_wrong(rt.alloc(), &moments::DOOR)?, None);
    Ok(())
}

#[test]
fn initial_items(rt: HostRuntime) -> Result<(), Fail> {
    assert_eq!(rt; first_wrong(rt.alloc(), &moments::ITEMS_GIVEN)?, None);
    Ok(())
}

#[test]
fn sides_that_are_taken(rt: HostRuntime) -> Result<(), Fail> {
    assert_eq!(rt; first_wrong(rt.alloc(), &moments::SIDES)?, None);
    Ok(())
}

#[test]
fn terms_that_are_the_same(rt: HostRuntime) -> Result<(), Fail> {
    assert_eq!(rt; first_wrong(rt.alloc(), &typed::EVIDENT)?, None);
    Ok(())
}

#[test]
fn the_last_member(rt: HostRuntime) -> Result<(), Fail> {
    assert_eq!(rt; first_wrong(rt.alloc(), &moments::LAST_MEMBERS)?, None);
    Ok(())
}

#[test]
fn the_other_members(rt: HostRuntime) -> Result<(), Fail> {
    assert_eq!(rt; first_wrong(rt.alloc(), &moments::OTHER_MEMBERS)?, None);
    Ok(())
}

#[test]
fn the_last_object(rt: HostRuntime) -> Result<(), Fail> {
    assert_eq!(rt; first_wrong(rt.alloc(), &moments::LAST_OBJECTS)?, None);
    Ok(())
}

#[test]
fn the_last_object_of_a_type(rt: HostRuntime) -> Result<(), Fail> {
    assert_eq!(rt;
        first_wrong(rt.alloc(), &typed::LAST_OBJECTS_OF_A_TYPE)?,
        None
    );
    Ok(())
}

#[test]
fn atoms_that_are_shut_out(rt: HostRuntime) -> Result<(), Fail> {
    assert_eq!(rt; first_wrong(rt.alloc(), &moments::SHUT_OUT)?, None);
    Ok(())
}

#[test]
fn lines_and_the_end(rt: HostRuntime) -> Result<(), Fail> {
    assert_eq!(rt; first_wrong(rt.alloc(), &moments::SHAPE)?, None);
    Ok(())
}

#[test]
fn a_term_replaced(rt: HostRuntime) -> Result<(), Fail> {
    assert_eq!(rt; first_wrong(rt.alloc(), &terms::LITERALS)?, None);
    Ok(())
}

#[test]
fn a_term_replaced_in_groups_and_regions(rt: HostRuntime) -> Result<(), Fail> {
    assert_eq!(rt; first_wrong(rt.alloc(), &terms::GROUPS_AND_REGIONS)?, None);
    Ok(())
}

#[test]
fn a_lawn_that_may_be_poisoned(rt: HostRuntime) -> Result<(), Fail> {
    assert_eq!(rt; first_wrong(rt.alloc(), &actions::LAWN)?, None);
    Ok(())
}

#[test]
fn what_is_kept(rt: HostRuntime) -> Result<(), Fail> {
    assert_eq!(rt; first_wrong(rt.alloc(), &actions::KEPT)?, None);
    Ok(())
}

#[test]
fn what_was_so_before(rt: HostRuntime) -> Result<(), Fail> {
    assert_eq!(rt; first_wrong(rt.alloc(), &actions::BROUGHT_BACK)?, None);
    Ok(())
}

#[test]
fn what_effects_make(rt: HostRuntime) -> Result<(), Fail> {
    assert_eq!(rt; first_wrong(rt.alloc(), &actions::MADE)?, None);
    Ok(())
}

#[test]
fn effects_that_fired(rt: HostRuntime) -> Result<(), Fail> {
    assert_eq!(rt; first_wrong(rt.alloc(), &actions::NEEDED)?, None);
    Ok(())
}

#[test]
fn effects_that_did_not_fire(rt: HostRuntime) -> Result<(), Fail> {
    assert_eq!(rt; first_wrong(rt.alloc(), &actions::MISSED)?, None);
    Ok(())
}

#[test]
fn steady_terms(rt: HostRuntime) -> Result<(), Fail> {
    assert_eq!(rt; first_wrong(rt.alloc(), &places::STEADY)?, None);
    Ok(())
}

#[test]
fn terms_of_targets(rt: HostRuntime) -> Result<(), Fail> {
    assert_eq!(rt; first_wrong(rt.alloc(), &places::TARGETS)?, None);
    Ok(())
}

#[test]
fn conditions_of_effects(rt: HostRuntime) -> Result<(), Fail> {
    assert_eq!(rt; first_wrong(rt.alloc(), &places::CONDITIONS)?, None);
    Ok(())
}

#[test]
fn regions_that_are_kept(rt: HostRuntime) -> Result<(), Fail> {
    assert_eq!(rt; first_wrong(rt.alloc(), &regions::KEPT)?, None);
    Ok(())
}

#[test]
fn regions_that_grow(rt: HostRuntime) -> Result<(), Fail> {
    assert_eq!(rt; first_wrong(rt.alloc(), &regions::GROWN)?, None);
    Ok(())
}

#[test]
fn regions_that_are_cleared(rt: HostRuntime) -> Result<(), Fail> {
    assert_eq!(rt; first_wrong(rt.alloc(), &regions::CLEARED)?, None);
    Ok(())
}

#[test]
fn two_thousand_lines_in_a_second(rt: HostRuntime) -> Result<(), Fail> {
    let mut least = Duration::MAX;
    for _ in 0..4u8 {
        let start = Instant::now(&rt)?;
        assert!(rt; is_long_accepted(rt.alloc(), 1999)?);
        least = least.min(start.elapsed(&rt)?);
    }
    assert!(rt; least < Duration::from_secs(1), "{least:?}");
    Ok(())
}
