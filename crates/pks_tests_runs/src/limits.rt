//! Each limit on a count, at the limit and one past it, and the longest names and input.
use crate::files::DOOR;
use crate::rows::{Check, all_so};
use crate::runs::{Answered, NOTHING, is_said, run_over};
use pks_run::Status;
use pks_run::Status::{Done, Refused};
use pks_terms::codes::{LONG_NAME, PAST_LIMIT};
use pks_terms::limits::MOST_BYTES;
use std::alloc::{AllocError, Global};
use std::test::Fail;

const FOUR_TYPES: &str = "(pks 1) (domain (types t1 t2 t3 t4) (objects (t1 a))";

const SEVENTEEN: &str =
    "(pks 1) (domain (predicates (p1) (p2) (p3) (p4) (p5) (p6) (p7) (p8) (p9) (p10) (p11) (p12) (p13) (p14) (p15) (p16) (p17))";

/// A list of numbered parts, and how many of them there may be.
struct PartLimit {
    /// The text before the first part.
    front: (&'static str, &'static str),
    /// What stands before the number of a part, and behind it.
    part: (&'static str, &'static str),
    /// The text behind the last part.
    back: &'static str,
    most: u16,
    /// How far behind the beginning of the first part too many its refusal stands.
    shift: u16,
}

/// The line of a refusal of a text of one line.
fn refusal(alloc: Global, at: usize, code: u16) -> Result<String, AllocError> {
    let column = at.saturating_add(1);
    format!(in alloc; "refused 1:{column} {code}\n")
}

/// The text with so many parts, and where it would go on.
fn text_of(alloc: Global, row: &PartLimit, count: u16) -> Result<(String, usize), AllocError> {
    let mut text = String::from_str(alloc, row.front.0)?;
    text.push_str(row.front.1)?;
    let mut begin = text.len();
    for k in 1..=count {
        begin = text.len();
        text.push_str(&format!(in alloc; "{}{k}{}", row.part.0, row.part.1)?)?;
    }
    text.push_str(row.back)?;
    Ok((text, begin))
}

impl Check for PartLimit {
    /// Whether so many parts are accepted, and one more is refused at its place.
    fn is_so(&self, alloc: Global) -> Result<bool, Fail> {
        let (fitting, _last) = text_of(alloc, self, self.most)?;
        let (longer, last) = text_of(alloc, self, self.most.saturating_add(1))?;
        let at = last.saturating_add(usize::from(self.shift));
        let line = refusal(alloc, at, PAST_LIMIT)?;
        Ok(is_said(alloc, &fitting, "accepted\n")? && is_said(alloc, &longer, &line)?)
    }
}

const DECLARED: &[PartLimit] = &[
    PartLimit {
        front: ("(pks 1) (domain", " (types"),
        part: (" t", ""),
        back: ") (predicates (p))) (problem (goal (k (p))))",
        most: 16,
        shift: 1,
    },
    PartLimit {
        front: ("(pks 1) (domain", " (types t) (objects (t"),
        part: (" c", ""),
        back: ")) (predicates (p))) (problem (goal (k (p))))",
        most: 64,
        shift: 1,
    },
    PartLimit {
        front: ("(pks 1) (domain", " (types t) (objects"),
        part: (" (t c", ")"),
        back: ") (predicates (p))) (problem (goal (k (p))))",
        most: 64,
        shift: 4,
    },
    PartLimit {
        front: ("(pks 2) (domain", " (types t) (objects (t"),
        part: (" c", ""),
        back: ")) (predicates (p))) (problem (goal (k (p))))",
        most: 256,
        shift: 1,
    },
    PartLimit {
        front: ("(pks 1) (domain", " (predicates"),
        part: (" (p", ")"),
        back: ")) (problem (goal (k (p1))))",
        most: 32,
        shift: 2,
    },
    PartLimit {
        front: (FOUR_TYPES, " (functions"),
        part: (" (f", " t1)"),
        back: ")) (problem (goal (kv (f1))))",
        most: 32,
        shift: 2,
    },
    PartLimit {
        front: ("(pks 1) (domain", " (predicates (p))"),
        part: (" (action a", ")"),
        back: ") (problem (goal (k (p))))",
        most: 64,
        shift: 9,
    },
    PartLimit {
        front: (FOUR_TYPES, " (predicates (p)) (action a (params"),
        part: (" (?x", " t1)"),
        back: "))) (problem (goal (k (p))))",
        most: 4,
        shift: 2,
    },
    PartLimit {
        front: (FOUR_TYPES, " (predicates (q) (p"),
        part: (" t", ""),
        back: "))) (problem (goal (k (q))))",
        most: 3,
        shift: 1,
    },
    PartLimit {
        front: (FOUR_TYPES, " (functions (g t1) (f"),
        part: (" t", ""),
        back: " t1))) (problem (goal (kv (g))))",
        most: 2,
        shift: 1,
    },
];

#[test]
fn declared_names_are_counted(rt: HostRuntime) -> Result<(), Fail> {
    all_so(rt.alloc(), DECLARED)
}

const OF_AN_ACTION: &[PartLimit] = &[
    PartLimit {
        front: (SEVENTEEN, " (action a (pre"),
        part: (" (k (p", "))"),
        back: "))) (problem (goal (k (p1))))",
        most: 16,
        shift: 1,
    },
    PartLimit {
        front: (SEVENTEEN, " (action a (effects"),
        part: (" (set (p", "))"),
        back: "))) (problem (goal (k (p1))))",
        most: 16,
        shift: 1,
    },
    PartLimit {
        front: (SEVENTEEN, " (action a (senses"),
        part: (" (sense (p", "))"),
        back: "))) (problem (goal (k (p1))))",
        most: 16,
        shift: 1,
    },
    PartLimit {
        front: (
            SEVENTEEN,
            " (action a (senses (sense (p1)) (sense (p2)) (sense (p3)) (sense (p4)) (sense (p5)) (sense (p6)) (sense (p7)) (sense (p8)) (sense (p9)) (sense (p10)) (sense (p11)) (sense (p12)) (sense (p13)) (sense (p14)) (sense (p15)) (sense (p16))) (knows",
        ),
        part: (" (kw (p", "))"),
        back: "))) (problem (goal (k (p1))))",
        most: 16,
        shift: 1,
    },
    PartLimit {
        front: (SEVENTEEN, " (action a (effects (when ("),
        part: (" (p", ")"),
        back: ") (set (p1)))))) (problem (goal (k (p1))))",
        most: 4,
        shift: 1,
    },
    PartLimit {
        front: (SEVENTEEN, " (action a (senses (sense"),
        part: (" (p", ")"),
        back: ")))) (problem (goal (k (p1))))",
        most: 4,
        shift: 1,
    },
    PartLimit {
        front: (
            SEVENTEEN,
            " (action a (senses (sense (p1) (p2) (p3) (p4))) (knows (kw",
        ),
        part: (" (p", ")"),
        back: ")))) (problem (goal (k (p1))))",
        most: 4,
        shift: 1,
    },
    PartLimit {
        front: (SEVENTEEN, " (action a (effects (set (p1))) (knows (if ("),
        part: (" (k (p", "))"),
        back: ") (kf (p1)))))) (problem (goal (k (p1))))",
        most: 4,
        shift: 1,
    },
    PartLimit {
        front: (SEVENTEEN, " (action a (pre (kw"),
        part: (" (p", ")"),
        back: ")))) (problem (goal (k (p1))))",
        most: 4,
        shift: 1,
    },
];

#[test]
fn parts_of_an_action_are_counted(rt: HostRuntime) -> Result<(), Fail> {
    all_so(rt.alloc(), OF_AN_ACTION)
}

const OF_A_PROBLEM: &[PartLimit] = &[
    PartLimit {
        front: (SEVENTEEN, ") (problem (init (kw"),
        part: (" (p", ")"),
        back: ")) (goal (k (p1))))",
        most: 4,
        shift: 1,
    },
    PartLimit {
        front: (SEVENTEEN, ") (problem (init (kx"),
        part: (" (p", ")"),
        back: ")) (goal (k (p1))))",
        most: 16,
        shift: 1,
    },
    PartLimit {
        front: (SEVENTEEN, ") (problem (goal (kw"),
        part: (" (p", ")"),
        back: ")))",
        most: 4,
        shift: 1,
    },
    PartLimit {
        front: (SEVENTEEN, ") (problem (goal"),
        part: (" (k (p", "))"),
        back: "))",
        most: 16,
        shift: 1,
    },
];

#[test]
fn parts_of_a_problem_are_counted(rt: HostRuntime) -> Result<(), Fail> {
    all_so(rt.alloc(), OF_A_PROBLEM)
}

/// The text with a name of so many bytes in its middle.
fn with_name(alloc: Global, front: &str, n: u32, back: &str) -> Result<String, AllocError> {
    let mut text = String::from_str(alloc, front)?;
    for _ in 0..n {
        text.push_str("n")?;
    }
    text.push_str(back)?;
    Ok(text)
}

/// What stands before a name and behind it, and how many bytes before the name its refusal stands.
struct NameLimit(&'static str, &'static str, usize);

impl Check for NameLimit {
    /// Whether a name of 64 bytes is accepted, and one of 65 is refused at its place.
    fn is_so(&self, alloc: Global) -> Result<bool, Fail> {
        let longest = with_name(alloc, self.0, 64, self.1)?;
        let longer = with_name(alloc, self.0, 65, self.1)?;
        let line = refusal(alloc, self.0.len().saturating_sub(self.2), LONG_NAME)?;
        Ok(is_said(alloc, &longest, "accepted\n")? && is_said(alloc, &longer, &line)?)
    }
}

const NAMES: &[NameLimit] = &[
    NameLimit(
        "(pks 1) (domain (types ",
        ") (predicates (p))) (problem (goal (k (p))))",
        0,
    ),
    NameLimit(
        "(pks 1) (domain (types t) (objects (t ",
        ")) (predicates (p))) (problem (goal (k (p))))",
        0,
    ),
    NameLimit(
        "(pks 1) (domain (predicates (p) (",
        "))) (problem (goal (k (p))))",
        0,
    ),
    NameLimit(
        "(pks 1) (domain (types t) (objects (t a)) (functions (f t) (",
        " t))) (problem (goal (kv (f))))",
        0,
    ),
    NameLimit(
        "(pks 1) (domain (predicates (p)) (action ",
        ")) (problem (goal (k (p))))",
        0,
    ),
    NameLimit(
        "(pks 1) (domain (types t) (predicates (p)) (action a (params (?",
        " t)))) (problem (goal (k (p))))",
        1,
    ),
];

#[test]
fn names_have_at_most_64_bytes(rt: HostRuntime) -> Result<(), Fail> {
    all_so(rt.alloc(), NAMES)
}

const OTHERS: &[Answered] = &[
    Answered(
        "check",
        "(pks 2) (domain (predicates (p)) (action a (cost 9999))) (problem (goal (k (p))))",
        Done,
        "accepted\n",
    ),
    Answered(
        "check",
        "(pks 2) (domain (predicates (p)) (action a (cost 10000))) (problem (goal (k (p))))",
        Refused,
        "refused 1:50 208\n",
    ),
    Answered(
        "check",
        "(pks 1) (domain (types t) (objects (t a)) (predicates (p t t t))) (problem (init (lcw (p _ a _))) (goal (k (p a a a))))",
        Done,
        "accepted\n",
    ),
    Answered(
        "check",
        "(pks 1) (domain (types t) (objects (t a)) (predicates (p t t t))) (problem (init (lcw (p _ _ _))) (goal (k (p a a a))))",
        Refused,
        "refused 1:94 211\n",
    ),
    Answered(
        "check",
        "(pks 1) (domain (types t) (objects (t a)) (predicates (p t t t)) (action c (effects (clear (p _ a _))))) (problem (goal (k (p a a a))))",
        Done,
        "accepted\n",
    ),
    Answered(
        "check",
        "(pks 1) (domain (types t) (objects (t a)) (predicates (p t t t)) (action c (effects (clear (p _ _ _))))) (problem (goal (k (p a a a))))",
        Refused,
        "refused 1:99 211\n",
    ),
    Answered(
        "check",
        "(pks 1) (domain (types t) (objects (t a)) (predicates (p t t t)) (action c (senses (sense-all (p _ a _))))) (problem (goal (k (p a a a))))",
        Done,
        "accepted\n",
    ),
    Answered(
        "check",
        "(pks 1) (domain (types t) (objects (t a)) (predicates (p t t t)) (action c (senses (sense-all (p _ _ _))))) (problem (goal (k (p a a a))))",
        Refused,
        "refused 1:102 211\n",
    ),
    Answered("check", "((((((((((((", Refused, "refused 1:12 111\n"),
    Answered("check", "(((((((((((((", Refused, "refused 1:13 113\n"),
];

#[test]
fn other_limits(rt: HostRuntime) -> Result<(), Fail> {
    all_so(rt.alloc(), OTHERS)
}

/// The door, and blanks up to so many bytes.
fn padded_door(alloc: Global, len: usize) -> Result<Vec<u8>, AllocError> {
    let mut bytes = DOOR.as_bytes().to_vec(alloc)?;
    for _ in bytes.len()..len {
        bytes.push(b' ')?;
    }
    Ok(bytes)
}

/// How long the padded door is, the status and the whole answer.
struct Padded(usize, Status, &'static str);

impl Check for Padded {
    fn is_so(&self, alloc: Global) -> Result<bool, Fail> {
        let input = padded_door(alloc, self.0)?;
        let (status, written) = run_over(alloc, "check", input.as_slice(), NOTHING)?;
        Ok(status == self.1 && written.as_slice() == self.2.as_bytes())
    }
}

const INPUTS: &[Padded] = &[
    Padded(MOST_BYTES, Done, "accepted\n"),
    Padded(MOST_BYTES + 1, Refused, "refused 1:1 100\n"),
];

#[test]
fn inputs_have_a_greatest_length(rt: HostRuntime) -> Result<(), Fail> {
    all_so(rt.alloc(), INPUTS)
}
