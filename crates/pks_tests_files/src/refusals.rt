//! Refusals of texts.
use pks_reader::{Turned, read_problem};
use pks_terms::codes::TOO_MANY_BYTES;
use pks_terms::limits::MOST_BYTES;
use std::alloc::Global;
use std::test::Fail;

/// A text, and the place and the code of its refusal; zeros where there is none.
pub struct Refused(pub &'static str, pub u32, pub u16);

/// The place and the code of the refusal; zeros where there is none.
pub fn refusal_of(alloc: Global, text: &str) -> (u32, u16) {
    if text.len() > MOST_BYTES {
        return (0, TOO_MANY_BYTES);
    }
    match read_problem(alloc, text) {
        Ok(_problem) => (0, 0),
        Err(Turned::Refused(refusal)) => (refusal.at, refusal.code),
        Err(Turned::Memory) => (0, 1),
    }
}

/// Whether the text is refused so.
fn is_refused(alloc: Global, row: &Refused) -> bool {
    refusal_of(alloc, row.0) == (row.1, row.2)
}

/// Fails at the first text that isn't refused so.
pub fn are_refused(alloc: Global, rows: &[Refused]) -> Result<(), Fail> {
    for row in rows {
        if !is_refused(alloc, row) {
            return Err(Fail::new(row.0));
        }
    }
    Ok(())
}
