//! Words and lists at their places, and the first faults of texts.
use pks_terms::ids::Span;
use pks_terms::limits::MOST_BYTES;
use pks_text::FormFault::{BadByte, TooDeep, Unclosed, Unopened};
use pks_text::{Form, FormFault, forms, line_column};
use std::alloc::{AllocError, Global};
use std::test::Fail;

/// A text, and its fault, if it has one.
struct Faulty(&'static str, Option<FormFault>);

/// The fault of the text, where it has one.
fn fault_of(alloc: Global, text: &str) -> Option<FormFault> {
    if text.len() > MOST_BYTES {
        return None;
    }
    forms(alloc, text).err()
}

/// Fails at the first text that has another fault.
fn have_faults(alloc: Global, rows: &[Faulty]) -> Result<(), Fail> {
    for row in rows {
        if fault_of(alloc, row.0) != row.1 {
            return Err(Fail::new(row.0));
        }
    }
    Ok(())
}

const FAULTS: &[Faulty] = &[
    Faulty("", None),
    Faulty(" \t\r\n; a comment at the end, ( and # in it", None),
    Faulty("a?b -= 1", None),
    Faulty("((((((((((((a))))))))))))", None),
    Faulty("(((((((((((((a)))))))))))))", Some(TooDeep(12))),
    Faulty("(((((((((((((", Some(TooDeep(12))),
    Faulty("((((((((((((", Some(Unclosed(11))),
    Faulty(
        "(pks 1) (domain) (problem (goal (k (p)))) #",
        Some(BadByte(42)),
    ),
    Faulty("; \u{1}", Some(BadByte(2))),
    Faulty("(pks 1))", Some(Unopened(7))),
    Faulty("a) #", Some(Unopened(1))),
    Faulty("(a #", Some(BadByte(3))),
    Faulty("(a (b) (c", Some(Unclosed(7))),
    Faulty("(a (b)", Some(Unclosed(0))),
];

#[test]
fn the_first_fault_from_the_left_is_given(rt: HostRuntime) -> Result<(), Fail> {
    have_faults(rt.alloc(), FAULTS)
}

/// The parts of a list.
fn parts_of<'f, 's>(form: &'f Form<'s>) -> &'f [Form<'s>] {
    match form {
        Form::Name(_) => &[],
        Form::List { parts, .. } => parts,
    }
}

fn is_at(span: &Span, start: u32, end: u32) -> bool {
    span.start == start && span.end == end
}

/// Whether the form is this word, or a list where the word is empty, at this place.
fn is_placed(form: &Form<'_>, word: &str, start: u32, end: u32) -> bool {
    match form {
        Form::Name(token) => token.text == word && is_at(&token.span, start, end),
        Form::List { span, .. } => word.is_empty() && is_at(span, start, end),
    }
}

const NESTED: &str = "(a ;x\n (b)) c";

/// Whether the parts of the first form of `NESTED` are at their places.
fn are_parts_placed(parts: &[Form<'_>]) -> bool {
    match parts {
        [a, list] => {
            is_placed(a, "a", 1, 2) && is_placed(list, "", 7, 10) && parts_of(list).len() == 1
        }
        _ => false,
    }
}

/// Whether the forms of `NESTED` are at their places.
fn are_placed(top: &[Form<'_>]) -> bool {
    match top {
        [list, c] => {
            is_placed(list, "", 0, 11)
                && are_parts_placed(parts_of(list))
                && is_placed(c, "c", 12, 13)
        }
        _ => false,
    }
}

/// The same of a text's forms.
fn are_placed_in(alloc: Global, text: &str) -> bool {
    if text.len() > MOST_BYTES {
        return false;
    }
    match forms(alloc, text) {
        Ok(read) => are_placed(read.top.as_slice()),
        Err(_) => false,
    }
}

/// A place in `NESTED`, its line and its column.
struct TextPlace(u32, u32, u32);

const PLACES: &[TextPlace] = &[
    TextPlace(0, 1, 1),
    TextPlace(5, 1, 6),
    TextPlace(6, 2, 1),
    TextPlace(13, 2, 8),
];

/// Whether the place in the text has this line and column.
fn has_column(text: &str, row: &TextPlace) -> bool {
    if text.len() > MOST_BYTES || text.len() < row.0 as usize {
        return false;
    }
    line_column(text, row.0) == (row.1, row.2)
}

#[test]
fn words_and_lists_are_at_their_places(rt: HostRuntime) {
    assert!(rt; are_placed_in(rt.alloc(), NESTED));
    for row in PLACES {
        assert!(rt; has_column(NESTED, row), "at {}", row.0);
    }
}

/// A piece, how often it is repeated, and how many top forms that text has; none where it has a fault.
struct Repeated(&'static str, usize, Option<usize>);

/// The number of top forms.
fn forms_in(alloc: Global, text: &str) -> Option<usize> {
    if text.len() > MOST_BYTES {
        return None;
    }
    match forms(alloc, text) {
        Ok(read) => Some(read.top.len()),
        Err(_) => None,
    }
}

/// Whether the text has so many top forms.
fn is_read(alloc: Global, row: &Repeated) -> Result<bool, AllocError> {
    let text = row.0.repeat(alloc, row.1)?;
    Ok(forms_in(alloc, text.as_str()) == row.2)
}

/// Fails at the first piece whose text has fewer top forms or more.
fn are_read(alloc: Global, rows: &[Repeated]) -> Result<(), Fail> {
    for row in rows {
        if !is_read(alloc, row)? {
            return Err(Fail::new(row.0));
        }
    }
    Ok(())
}

const LONGEST: &[Repeated] = &[
    Repeated(";", MOST_BYTES, Some(0)),
    Repeated("(", MOST_BYTES, None),
    Repeated("a ", 131072, Some(131072)),
    Repeated("()", 131072, Some(131072)),
    Repeated("((((((((((((\n))))))))))))\n", 10082, Some(10082)),
];

#[test]
fn a_longest_text_is_read(rt: HostRuntime) -> Result<(), Fail> {
    are_read(rt.alloc(), LONGEST)
}
