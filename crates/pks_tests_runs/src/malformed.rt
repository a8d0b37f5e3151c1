//! Files that are refused, their worlds among them, by whole runs.
use crate::files::{DOOR, LAWN, SAFE};
use crate::rows::{Check, all_so};
use crate::runs::{Answered, Followed, NOTHING, run_over};
use pks_run::Status::{Done, Refused};
use std::alloc::{AllocError, Global};
use std::test::Fail;

const MALFORMED: &[Answered] = &[
    Answered(
        "check",
        "(pks 1) (domain) (problem (goal (k (p)))) #",
        Refused,
        "refused 1:43 110\n",
    ),
    Answered("check", "(pks 1))", Refused, "refused 1:8 112\n"),
    Answered("check", "(((((((((((((", Refused, "refused 1:13 113\n"),
    Answered(
        "check",
        "(pks 3) (domain) (problem (goal (k (p))))",
        Refused,
        "refused 1:1 120\n",
    ),
    Answered(
        "check",
        "(pks 1) (problem (goal))",
        Refused,
        "refused 1:9 121\n",
    ),
    Answered("check", "(pks 1) (domain)", Refused, "refused 1:17 122\n"),
    Answered(
        "check",
        "(pks 1) (domain) (problem) (world) (world)",
        Refused,
        "refused 1:36 123\n",
    ),
    Answered(
        "check",
        "(pks 1) (domain) (problem)",
        Refused,
        "refused 1:18 124\n",
    ),
    Answered(
        "check",
        "(pks 1) (domain (predicates (not))) (problem (goal (k (p))))",
        Refused,
        "refused 1:30 201\n",
    ),
    Answered(
        "check",
        "(pks 1) (domain (predicates (p) (p))) (problem (goal (k (p))))",
        Refused,
        "refused 1:34 202\n",
    ),
    Answered(
        "check",
        "(pks 1) (domain (predicates (p))) (problem (goal (k (p ?x))))",
        Refused,
        "refused 1:53 205\n",
    ),
    Answered(
        "check",
        "(pks 1) (domain (types s t) (objects (s a) (t b)) (predicates (p s))) (problem (goal (k (p b))))",
        Refused,
        "refused 1:92 206\n",
    ),
    Answered(
        "check",
        "(pks 1) (domain (types t) (functions (f t))) (problem (goal (kv (f))))",
        Refused,
        "refused 1:41 209\n",
    ),
    Answered(
        "check",
        "(pks 1) (domain (predicates (p) (q))) (problem (init (kx (p) (q) (p))) (goal (k (p))))",
        Refused,
        "refused 1:66 210\n",
    ),
    Answered(
        "check",
        "(pks 1) (domain (types t) (predicates (p t t t))) (problem (init (lcw (p _ _ _))) (goal (k (p))))",
        Refused,
        "refused 1:78 211\n",
    ),
];

#[test]
fn malformed_files(rt: HostRuntime) -> Result<(), Fail> {
    all_so(rt.alloc(), MALFORMED)
}

/// Bytes, and what `check` says of them.
struct Bytes(&'static [u8], &'static str);

impl Check for Bytes {
    fn is_so(&self, alloc: Global) -> Result<bool, Fail> {
        let (_, written) = run_over(alloc, "check", self.0, NOTHING)?;
        Ok(written.as_slice() == self.1.as_bytes())
    }
}

const ABOVE_127: &[Bytes] = &[
    Bytes(b"\xe9", "refused 1:1 101\n"),
    Bytes(
        b"(pks 1)\n(domain (predicates (open)) ; \xe9)\n",
        "refused 2:31 101\n",
    ),
    Bytes(b")\n\xff", "refused 2:1 101\n"),
];

#[test]
fn bytes_above_127(rt: HostRuntime) -> Result<(), Fail> {
    all_so(rt.alloc(), ABOVE_127)
}

/// What is said of the front of the door of this length; of the others that a list isn't closed.
fn said_of_front(len: usize) -> &'static str {
    match len {
        0 => "refused 1:1 120\n",
        7 => "refused 1:8 121\n",
        8 => "refused 2:1 121\n",
        36 => "refused 2:29 122\n",
        37 => "refused 3:1 122\n",
        83 | 84 => "accepted\n",
        _ => " 111\n",
    }
}

/// The length of the first front of the door of which something else is said.
fn wrong_front(alloc: Global, door: &[u8]) -> Result<Option<usize>, AllocError> {
    for len in 0..=door.len() {
        let (_, written) = run_over(alloc, "check", &door[..len], NOTHING)?;
        if !written.as_slice().ends_with(said_of_front(len).as_bytes()) {
            return Ok(Some(len));
        }
    }
    Ok(None)
}

#[test]
fn fronts_of_the_door(rt: HostRuntime) -> Result<(), Fail> {
    assert_eq!(rt; wrong_front(rt.alloc(), DOOR.as_bytes())?, None);
    Ok(())
}

const CUPS: &str =
    "(pks 2)\n(domain (types thing (cup thing)) (objects (cup c) (thing t)) (predicates (whole cup)) (functions (under thing cup)))\n(problem (goal (k (= (under t) c))))\n";

const FAULTY_WORLDS: &[Followed] = &[
    Followed(
        "check",
        DOOR,
        "(world (true (open open)))",
        Refused,
        "refused 4:14 302\n",
    ),
    Followed(
        "check",
        DOOR,
        "(world (true (not)))",
        Refused,
        "refused 4:15 301\n",
    ),
    Followed(
        "check",
        DOOR,
        "(world (true open))",
        Refused,
        "refused 4:14 300\n",
    ),
    Followed(
        "check",
        DOOR,
        "(world (values) (true))",
        Refused,
        "refused 4:17 300\n",
    ),
    Followed(
        "check",
        DOOR,
        "(world (true (shut) open))",
        Refused,
        "refused 4:21 300\n",
    ),
    Followed(
        "check",
        DOOR,
        "(world (true (not) p))",
        Refused,
        "refused 4:20 300\n",
    ),
    Followed("check", DOOR, "(world)", Done, "accepted\n"),
    Followed(
        "check",
        LAWN,
        "(world (true (alive) (alive)))",
        Done,
        "accepted\n",
    ),
    Followed(
        "check",
        SAFE,
        "(world (values ((combo) c9)))",
        Refused,
        "refused 12:25 301\n",
    ),
    Followed(
        "check",
        SAFE,
        "(world (values ((combo) c3) ((combo) c4)))",
        Refused,
        "refused 12:30 304\n",
    ),
    Followed(
        "check",
        SAFE,
        "(world (values ((combo) c3) ((combo) c9)))",
        Refused,
        "refused 12:30 304\n",
    ),
    Followed(
        "check",
        CUPS,
        "(world (values ((under c) c) ((under t) c)))",
        Done,
        "accepted\n",
    ),
    Followed(
        "check",
        CUPS,
        "(world (values ((under c) c)))",
        Refused,
        "refused 4:1 303\n",
    ),
    Followed(
        "check",
        CUPS,
        "(world (values ((under c) t)))",
        Refused,
        "refused 4:27 302\n",
    ),
    Followed(
        "check",
        CUPS,
        "(world (values ((under d) t)))",
        Refused,
        "refused 4:24 301\n",
    ),
    Followed(
        "check",
        CUPS,
        "(world (true (whole t)))",
        Refused,
        "refused 4:21 302\n",
    ),
];

#[test]
fn faults_of_worlds(rt: HostRuntime) -> Result<(), Fail> {
    all_so(rt.alloc(), FAULTY_WORLDS)
}
