//! Printed texts of a file's items and actions.
use crate::reading::read;
use pks_plan::{print_conj, print_literal, print_pattern, print_term};
use pks_terms::problem::{Init, Problem};
use pks_terms::schema::Sense;
use std::alloc::{AllocError, Global};
use std::test::Fail;

/// The text of an initial item's formula, term or pattern.
fn start_text(alloc: Global, p: &Problem<'_>, start: &Init) -> Result<Vec<u8>, AllocError> {
    let mut out = Vec::new(alloc);
    match start {
        Init::Kf(l) => print_literal(p, l, &mut out)?,
        Init::Kw(c) => print_conj(p, c, &mut out)?,
        Init::Kv(t) => print_term(p, t, &mut out)?,
        Init::Lcw(x) => print_pattern(p, x, &mut out)?,
        Init::Kx(_) => {}
    }
    Ok(out)
}

/// The same of the item at this place, items counted from 0.
fn init_text(alloc: Global, p: &Problem<'_>, number: usize) -> Result<Vec<u8>, Fail> {
    match p.init.as_slice().get(number) {
        Some(item) => {
            let text = start_text(alloc, p, &item.start)?;
            Ok(text)
        }
        None => Err(Fail::new("there is no such item")),
    }
}

/// The same of a file's items; a group has no text.
fn item_text(alloc: Global, text: &str, number: usize) -> Result<Vec<u8>, Fail> {
    let p = read(alloc, text)?;
    let printed = init_text(alloc, &p, number)?;
    Ok(printed)
}

/// An item, counted from 0, and its text.
pub struct Printed(pub usize, pub &'static str);

fn is_printed(alloc: Global, text: &str, row: &Printed) -> Result<bool, Fail> {
    let printed = item_text(alloc, text, row.0)?;
    Ok(printed.as_slice() == row.1.as_bytes())
}

/// Fails at the first item of a file that has another text.
pub fn are_printed(alloc: Global, text: &str, rows: &[Printed]) -> Result<(), Fail> {
    for row in rows {
        if !is_printed(alloc, text, row)? {
            return Err(Fail::new(row.1));
        }
    }
    Ok(())
}

/// The text of the pattern that an action senses.
fn sensed_text(alloc: Global, p: &Problem<'_>, senses: &[Sense]) -> Result<Vec<u8>, Fail> {
    match senses {
        [Sense::All(x)] => {
            let mut out = Vec::new(alloc);
            print_pattern(p, x, &mut out)?;
            Ok(out)
        }
        _ => Err(Fail::new("the action senses no pattern")),
    }
}

/// The same of the action at this place, actions counted from 0.
fn schema_text(alloc: Global, p: &Problem<'_>, number: usize) -> Result<Vec<u8>, Fail> {
    match p.schemas.as_slice().get(number) {
        Some(schema) => sensed_text(alloc, p, schema.senses.as_slice()),
        None => Err(Fail::new("there is no such action")),
    }
}

/// The text of the pattern that an action of a file senses.
fn pattern_text(alloc: Global, text: &str, number: usize) -> Result<Vec<u8>, Fail> {
    let p = read(alloc, text)?;
    let printed = schema_text(alloc, &p, number)?;
    Ok(printed)
}

/// Whether the action of a file senses the pattern of this text.
pub fn is_sensed(alloc: Global, text: &str, number: usize, pattern: &str) -> Result<bool, Fail> {
    let printed = pattern_text(alloc, text, number)?;
    Ok(printed.as_slice() == pattern.as_bytes())
}
