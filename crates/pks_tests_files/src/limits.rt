//! Each limit on a count, at the limit and one past it, and the longest names.
use crate::refusals::{Refused, are_refused, refusal_of};
use pks_terms::codes::{
    BARRED_NAME, DECLARED_TWICE, LONG_NAME, PAST_LIMIT, TOO_DEEP, UNCLOSED, UNDECLARED, WRONG_COUNT,
};
use std::alloc::{AllocError, Global};
use std::test::Fail;

const FOUR_TYPES: &str = "(pks 1) (domain (types t1 t2 t3 t4) (objects (t1 a))";

const SEVENTEEN: &str =
    "(pks 1) (domain (predicates (p1) (p2) (p3) (p4) (p5) (p6) (p7) (p8) (p9) (p10) (p11) (p12)
  (p13) (p14) (p15) (p16) (p17))";

/// A list of numbered parts, and how many of them there may be.
struct CountLimit {
    /// The text before the first part.
    front: (&'static str, &'static str),
    /// What stands before the number of a part, and behind it.
    part: (&'static str, &'static str),
    /// The text behind the last part.
    back: &'static str,
    most: u16,
    /// How far behind the beginning of the first part too many its refusal stands.
    shift: u16,
}

/// A part with this in the place of its number.
fn part_of(alloc: Global, row: &CountLimit, middle: &str) -> Result<String, AllocError> {
    let mut part = String::from_str(alloc, row.part.0)?;
    part.push_str(middle)?;
    part.push_str(row.part.1)?;
    Ok(part)
}

fn push_part(alloc: Global, row: &CountLimit, k: u16, text: &mut String) -> Result<(), AllocError> {
    let number = format!(in alloc; "{k}")?;
    let part = part_of(alloc, row, number.as_str())?;
    text.push_str(part.as_str())?;
    Ok(())
}

/// The text with as many parts as there may be and then a last one, and where that begins.
fn text_of(alloc: Global, row: &CountLimit, last: &str) -> Result<(String, usize), AllocError> {
    let mut text = String::from_str(alloc, row.front.0)?;
    text.push_str(row.front.1)?;
    for k in 1..=row.most {
        push_part(alloc, row, k, &mut text)?;
    }
    let begin = text.len();
    text.push_str(last)?;
    text.push_str(row.back)?;
    Ok((text, begin))
}

/// Whether as many parts as there may be are taken.
fn is_taken(alloc: Global, row: &CountLimit) -> Result<bool, AllocError> {
    let (text, _begin) = text_of(alloc, row, "")?;
    Ok(refusal_of(alloc, text.as_str()) == (0, 0))
}

/// Whether the text with this last part is refused with this code at the name of that part.
fn is_refused(alloc: Global, row: &CountLimit, last: &str, code: u16) -> Result<bool, AllocError> {
    let (text, begin) = text_of(alloc, row, last)?;
    let (at, found) = refusal_of(alloc, text.as_str());
    let placed = (at as usize).checked_sub(begin) == Some(usize::from(row.shift));
    Ok(placed && found == code)
}

/// The same of a last part with this in the place of its number.
fn is_named_refused(
    alloc: Global,
    row: &CountLimit,
    middle: &str,
    code: u16,
) -> Result<bool, AllocError> {
    let last = part_of(alloc, row, middle)?;
    is_refused(alloc, row, last.as_str(), code)
}

/// Whether the next part is refused as one too many.
fn is_next_refused(alloc: Global, row: &CountLimit) -> Result<bool, AllocError> {
    let next = u32::from(row.most) + 1;
    let number = format!(in alloc; "{next}")?;
    is_named_refused(alloc, row, number.as_str(), PAST_LIMIT)
}

/// Whether so many parts are taken, and one more is refused at its place.
fn is_limit(alloc: Global, row: &CountLimit) -> Result<bool, AllocError> {
    Ok(is_taken(alloc, row)? && is_next_refused(alloc, row)?)
}

/// Whether the first name past the limit is refused as any other, where it stands twice and where it has 65 bytes.
fn is_asked_past(alloc: Global, row: &CountLimit) -> Result<bool, AllocError> {
    let long = with_name(alloc, "", 64, "")?;
    Ok(
        is_named_refused(alloc, row, "1", DECLARED_TWICE)?
            && is_named_refused(alloc, row, long.as_str(), LONG_NAME)?,
    )
}

/// Fails at the first list that takes fewer parts or more.
fn are_limits(alloc: Global, rows: &[CountLimit]) -> Result<(), Fail> {
    for row in rows {
        if !is_limit(alloc, row)? {
            return Err(Fail::new(row.front.1));
        }
    }
    Ok(())
}

/// Fails at the first list whose first name past the limit isn't refused as any other.
fn are_asked_past(alloc: Global, rows: &[CountLimit]) -> Result<(), Fail> {
    for row in rows {
        if !is_asked_past(alloc, row)? {
            return Err(Fail::new(row.front.1));
        }
    }
    Ok(())
}

const DECLARED: &[CountLimit] = &[
    CountLimit {
        front: ("(pks 1) (domain", " (types"),
        part: (" t", ""),
        back: ") (predicates (p))) (problem (goal (k (p))))",
        most: 16,
        shift: 1,
    },
    CountLimit {
        front: ("(pks 1) (domain", " (types t) (objects (t"),
        part: (" c", ""),
        back: ")) (predicates (p))) (problem (goal (k (p))))",
        most: 64,
        shift: 1,
    },
    CountLimit {
        front: ("(pks 1) (domain", " (types t) (objects"),
        part: (" (t c", ")"),
        back: ") (predicates (p))) (problem (goal (k (p))))",
        most: 64,
        shift: 4,
    },
    CountLimit {
        front: ("(pks 2) (domain", " (types t) (objects (t"),
        part: (" c", ""),
        back: ")) (predicates (p))) (problem (goal (k (p))))",
        most: 256,
        shift: 1,
    },
    CountLimit {
        front: ("(pks 1) (domain", " (predicates"),
        part: (" (p", ")"),
        back: ")) (problem (goal (k (p1))))",
        most: 32,
        shift: 2,
    },
    CountLimit {
        front: (FOUR_TYPES, " (functions"),
        part: (" (f", " t1)"),
        back: ")) (problem (goal (kv (f1))))",
        most: 32,
        shift: 2,
    },
    CountLimit {
        front: ("(pks 1) (domain", " (predicates (p))"),
        part: (" (action a", ")"),
        back: ") (problem (goal (k (p))))",
        most: 64,
        shift: 9,
    },
    CountLimit {
        front: (FOUR_TYPES, " (predicates (p)) (action a (params"),
        part: (" (?x", " t1)"),
        back: "))) (problem (goal (k (p))))",
        most: 4,
        shift: 2,
    },
];

#[test]
fn declared_names_are_counted(rt: HostRuntime) -> Result<(), Fail> {
    are_limits(rt.alloc(), DECLARED)?;
    are_asked_past(rt.alloc(), DECLARED)
}

/// A part behind as many as there may be, and the code of its refusal.
struct Last {
    list: &'static CountLimit,
    part: &'static str,
    code: u16,
}

const TYPES: CountLimit = CountLimit {
    front: ("(pks 2) (domain (types", ""),
    part: (" t", ""),
    back: ") (predicates (p))) (problem (goal (k (p))))",
    most: 16,
    shift: 2,
};

const PREDICATES: CountLimit = CountLimit {
    front: ("(pks 1) (domain (predicates", ""),
    part: (" (p", ")"),
    back: ")) (problem (goal (k (p1))))",
    most: 32,
    shift: 2,
};

const ARGUMENTS_OF_ONE: CountLimit = CountLimit {
    front: ("(pks 1) (domain (types t1 t2 t3) (predicates (p) (q", ""),
    part: (" t", ""),
    back: "))) (problem (goal (k (p))))",
    most: 3,
    shift: 1,
};

const LITERALS: CountLimit = CountLimit {
    front: (
        "(pks 1) (domain (predicates (p1) (p2) (p3) (p4))) (problem (goal (kw",
        "",
    ),
    part: (" (p", ")"),
    back: ")))",
    most: 4,
    shift: 1,
};

const LASTS: &[Last] = &[
    Last {
        list: &TYPES,
        part: " (t0 u)",
        code: PAST_LIMIT,
    },
    Last {
        list: &TYPES,
        part: " (t1 u)",
        code: DECLARED_TWICE,
    },
    Last {
        list: &PREDICATES,
        part: " (not)",
        code: BARRED_NAME,
    },
    Last {
        list: &ARGUMENTS_OF_ONE,
        part: " u",
        code: UNDECLARED,
    },
    Last {
        list: &LITERALS,
        part: " (p1 a)",
        code: WRONG_COUNT,
    },
];

/// Fails at the first part that isn't refused so.
fn are_last(alloc: Global, rows: &[Last]) -> Result<(), Fail> {
    for row in rows {
        if !is_refused(alloc, row.list, row.part, row.code)? {
            return Err(Fail::new(row.part));
        }
    }
    Ok(())
}

#[test]
fn first_parts_past_a_limit_are_asked(rt: HostRuntime) -> Result<(), Fail> {
    are_last(rt.alloc(), LASTS)
}

const ARGUMENTS: &[CountLimit] = &[
    CountLimit {
        front: (FOUR_TYPES, " (predicates (q) (p"),
        part: (" t", ""),
        back: "))) (problem (goal (k (q))))",
        most: 3,
        shift: 1,
    },
    CountLimit {
        front: (FOUR_TYPES, " (functions (g t1) (f"),
        part: (" t", ""),
        back: " t1))) (problem (goal (kv (g))))",
        most: 2,
        shift: 1,
    },
];

#[test]
fn arguments_are_counted(rt: HostRuntime) -> Result<(), Fail> {
    are_limits(rt.alloc(), ARGUMENTS)
}

const OF_AN_ACTION: &[CountLimit] = &[
    CountLimit {
        front: (SEVENTEEN, " (action a (pre"),
        part: (" (k (p", "))"),
        back: "))) (problem (goal (k (p1))))",
        most: 16,
        shift: 1,
    },
    CountLimit {
        front: (SEVENTEEN, " (action a (effects"),
        part: (" (set (p", "))"),
        back: "))) (problem (goal (k (p1))))",
        most: 16,
        shift: 1,
    },
    CountLimit {
        front: (SEVENTEEN, " (action a (senses"),
        part: (" (sense (p", "))"),
        back: "))) (problem (goal (k (p1))))",
        most: 16,
        shift: 1,
    },
    CountLimit {
        front: (SEVENTEEN, " (action a (knows"),
        part: (" (kf (p", "))"),
        back: "))) (problem (goal (k (p1))))",
        most: 16,
        shift: 1,
    },
    CountLimit {
        front: (SEVENTEEN, " (action a (effects (when ("),
        part: (" (p", ")"),
        back: ") (set (p1)))))) (problem (goal (k (p1))))",
        most: 4,
        shift: 1,
    },
    CountLimit {
        front: (SEVENTEEN, " (action a (senses (sense"),
        part: (" (p", ")"),
        back: ")))) (problem (goal (k (p1))))",
        most: 4,
        shift: 1,
    },
    CountLimit {
        front: (SEVENTEEN, " (action a (knows (kw"),
        part: (" (p", ")"),
        back: ")))) (problem (goal (k (p1))))",
        most: 4,
        shift: 1,
    },
    CountLimit {
        front: (SEVENTEEN, " (action a (knows (if ("),
        part: (" (k (p", "))"),
        back: ") (kf (p1)))))) (problem (goal (k (p1))))",
        most: 4,
        shift: 1,
    },
    CountLimit {
        front: (SEVENTEEN, " (action a (pre (kw"),
        part: (" (p", ")"),
        back: ")))) (problem (goal (k (p1))))",
        most: 4,
        shift: 1,
    },
];

#[test]
fn parts_of_an_action_are_counted(rt: HostRuntime) -> Result<(), Fail> {
    are_limits(rt.alloc(), OF_AN_ACTION)
}

const OF_A_PROBLEM: &[CountLimit] = &[
    CountLimit {
        front: (SEVENTEEN, ") (problem (init (kw"),
        part: (" (p", ")"),
        back: ")) (goal (k (p1))))",
        most: 4,
        shift: 1,
    },
    CountLimit {
        front: (SEVENTEEN, ") (problem (init (kx"),
        part: (" (p", ")"),
        back: ")) (goal (k (p1))))",
        most: 16,
        shift: 1,
    },
    CountLimit {
        front: (SEVENTEEN, ") (problem (goal (kw"),
        part: (" (p", ")"),
        back: ")))",
        most: 4,
        shift: 1,
    },
    CountLimit {
        front: (SEVENTEEN, ") (problem (goal"),
        part: (" (k (p", "))"),
        back: "))",
        most: 16,
        shift: 1,
    },
];

#[test]
fn parts_of_a_problem_are_counted(rt: HostRuntime) -> Result<(), Fail> {
    are_limits(rt.alloc(), OF_A_PROBLEM)
}

/// The text with a name of so many bytes in its middle.
fn with_name(alloc: Global, front: &str, n: u32, back: &str) -> Result<String, AllocError> {
    let mut text = String::from_str(alloc, front)?;
    for _ in 0..n {
        text.push_str("n")?;
    }
    text.push_str(back)?;
    Ok(text)
}

/// A place for a name.
struct Named {
    /// The text before the name.
    front: &'static str,
    /// The text behind it.
    back: &'static str,
    /// How many bytes before the name the place of its refusal is.
    sign: usize,
}

/// The refusal of the text with a name of so many bytes.
fn refusal_with(alloc: Global, row: &Named, n: u32) -> Result<(u32, u16), AllocError> {
    let text = with_name(alloc, row.front, n, row.back)?;
    Ok(refusal_of(alloc, text.as_str()))
}

/// Whether a name of 64 bytes is taken there, and one of 65 is refused at its place.
fn is_longest(alloc: Global, row: &Named) -> Result<bool, AllocError> {
    let (at, code) = refusal_with(alloc, row, 65)?;
    let placed = row.front.len().checked_sub(at as usize) == Some(row.sign);
    Ok(refusal_with(alloc, row, 64)? == (0, 0) && code == LONG_NAME && placed)
}

/// Fails at the first place where that isn't so.
fn are_longest(alloc: Global, rows: &[Named]) -> Result<(), Fail> {
    for row in rows {
        if !is_longest(alloc, row)? {
            return Err(Fail::new(row.front));
        }
    }
    Ok(())
}

const NAMES: &[Named] = &[
    Named {
        front: "(pks 1) (domain (types ",
        back: ") (predicates (p))) (problem (goal (k (p))))",
        sign: 0,
    },
    Named {
        front: "(pks 1) (domain (types t) (objects (t ",
        back: ")) (predicates (p))) (problem (goal (k (p))))",
        sign: 0,
    },
    Named {
        front: "(pks 1) (domain (predicates (p) (",
        back: "))) (problem (goal (k (p))))",
        sign: 0,
    },
    Named {
        front: "(pks 1) (domain (types t) (objects (t a)) (functions (f t) (",
        back: " t))) (problem (goal (kv (f))))",
        sign: 0,
    },
    Named {
        front: "(pks 1) (domain (predicates (p)) (action ",
        back: ")) (problem (goal (k (p))))",
        sign: 0,
    },
    Named {
        front: "(pks 1) (domain (types t) (predicates (p)) (action a (params (?",
        back: " t)))) (problem (goal (k (p))))",
        sign: 1,
    },
];

#[test]
fn names_have_at_most_64_bytes(rt: HostRuntime) -> Result<(), Fail> {
    are_longest(rt.alloc(), NAMES)
}

const GREATEST: &[Refused] = &[
    Refused(
        "(pks 2) (domain (predicates (p)) (action a (cost 9999))) (problem (goal (k (p))))",
        0,
        0,
    ),
    Refused(
        "(pks 2) (domain (predicates (p)) (action a (cost 10000))) (problem (goal (k (p))))",
        49,
        PAST_LIMIT,
    ),
    Refused(
        "(pks 1) (domain (types t) (objects (t a)) (predicates (p t t t))) (problem (init (lcw (p _ a _))) (goal (k (p a a a))))",
        0,
        0,
    ),
    Refused("((((((((((((", 11, UNCLOSED),
    Refused("(((((((((((((", 12, TOO_DEEP),
];

#[test]
fn greatest_texts_are_taken(rt: HostRuntime) -> Result<(), Fail> {
    are_refused(rt.alloc(), GREATEST)
}
