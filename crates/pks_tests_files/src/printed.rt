//! Printed texts of items and patterns.
use crate::files::{EIGHT, ITEMS};
use crate::texts::{Printed, are_printed, is_sensed};
use std::test::Fail;

const TEXTS: &[Printed] = &[
    Printed(0, "(q b)"),
    Printed(3, "(p b) (r)"),
    Printed(5, "(g)"),
    Printed(9, "(q _)"),
    Printed(11, "(not (= (f) b))"),
    Printed(12, "(s _ (f))"),
];

#[test]
fn texts_of_items(rt: HostRuntime) -> Result<(), Fail> {
    are_printed(rt.alloc(), ITEMS, TEXTS)
}

#[test]
fn text_of_a_sensed_pattern(rt: HostRuntime) -> Result<(), Fail> {
    assert!(rt; is_sensed(rt.alloc(), EIGHT, 3, "(p _)")?);
    Ok(())
}
