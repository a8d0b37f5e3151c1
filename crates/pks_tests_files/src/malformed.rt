//! Texts and their refusals: a table of each code, and of what comes first.
use crate::refusals::{Refused, are_refused, refusal_of};
use pks_terms::codes::{
    BAD_BYTE, BARRED_NAME, DECLARED_TWICE, EMPTY_TYPE, HIGH_TERM, LITERAL_TWICE, NO_DOMAIN,
    NO_PROBLEM, NO_VERSION, NOT_IN_GRAMMAR, PAST_LIMIT, SURPLUS_FORM, THIRD_WILDCARD, TOO_DEEP,
    UNCLOSED, UNDECLARED, UNKNOWN_PARAMETER, UNOPENED, WRONG_COUNT, WRONG_TYPE,
};
use std::alloc::Global;
use std::test::Fail;

const SHAPES: &[Refused] = &[
    // the text, and the top forms
    Refused("(pks 1) (domain) (problem (goal (k (p)))) #", 42, BAD_BYTE),
    Refused("(pks 1))", 7, UNOPENED),
    Refused("(((((((((((((", 12, TOO_DEEP),
    Refused("(pks 3) (domain) (problem (goal (k (p))))", 0, NO_VERSION),
    Refused("(pks 1) (problem (goal))", 8, NO_DOMAIN),
    Refused("(pks 1) (domain)", 16, NO_PROBLEM),
    Refused(
        "(pks 1) (domain) (problem) (world) (world)",
        35,
        SURPLUS_FORM,
    ),
    Refused("(pks 1) (domain) (problem) w", 27, SURPLUS_FORM),
    Refused("(pks 1 1) (domain) (problem (goal (k (p))))", 0, NO_VERSION),
    Refused("(pks 1) (Domain) (problem (goal (k (p))))", 8, NO_DOMAIN),
    // the text before the shape, and the shape before the meaning
    Refused("(pks 3) (domain) #", 17, BAD_BYTE),
    Refused(
        "(pks 1) (domain (predicates (p) (p))) (problem (goal (kx (p))))",
        53,
        NOT_IN_GRAMMAR,
    ),
    // the parts of a list before what stands within them, and heads
    Refused("(pks 1) (domain) (problem)", 17, NOT_IN_GRAMMAR),
    Refused(
        "(pks 1) (domain) (problem (init (bad)))",
        17,
        NOT_IN_GRAMMAR,
    ),
    Refused("(pks 1) (domain) (problem (foo))", 26, NOT_IN_GRAMMAR),
    Refused("(pks 1) (domain) (problem (init) x)", 33, NOT_IN_GRAMMAR),
    Refused(
        "(pks 1) (domain) (problem (goal (k (p))) (init))",
        41,
        NOT_IN_GRAMMAR,
    ),
    Refused(
        "(pks 1) (domain (types a) (types b)) (problem (goal (k (p))))",
        26,
        NOT_IN_GRAMMAR,
    ),
    Refused(
        "(pks 1) (domain (objects) (types b)) (problem (goal (k (p))))",
        26,
        NOT_IN_GRAMMAR,
    ),
    Refused(
        "(pks 1) (domain (types a) (bad)) (problem (goal (k (p))))",
        26,
        NOT_IN_GRAMMAR,
    ),
    Refused(
        "(pks 1) (domain (action (params ()))) (problem (goal (k (p))))",
        24,
        NOT_IN_GRAMMAR,
    ),
    Refused(
        "(pks 1) (domain (action)) (problem (goal (k (p))))",
        16,
        NOT_IN_GRAMMAR,
    ),
    Refused(
        "(pks 1) (domain (action a (params (?x)))) (problem (goal (k (p))))",
        34,
        NOT_IN_GRAMMAR,
    ),
    Refused(
        "(pks 1) (domain) (problem (init (kx (p))) (goal (k (p))))",
        32,
        NOT_IN_GRAMMAR,
    ),
    Refused(
        "(pks 1) (domain) (problem (goal (k (p) (q))))",
        32,
        NOT_IN_GRAMMAR,
    ),
    Refused("(pks 1) (domain) (problem (goal))", 26, NOT_IN_GRAMMAR),
    Refused(
        "(pks 1) (domain) (problem (goal (k (1 a))))",
        36,
        NOT_IN_GRAMMAR,
    ),
    Refused(
        "(pks 1) (domain) (problem (goal (k ((p)))))",
        36,
        NOT_IN_GRAMMAR,
    ),
    Refused(
        "(pks 1) (domain) (problem (goal (k ())))",
        35,
        NOT_IN_GRAMMAR,
    ),
    Refused(
        "(pks 1) (domain) (problem (goal (k (not (not (p))))))",
        40,
        NOT_IN_GRAMMAR,
    ),
    Refused(
        "(pks 1) (domain) (problem (goal (k (= a))))",
        35,
        NOT_IN_GRAMMAR,
    ),
    Refused(
        "(pks 1) (domain) (problem (goal (k a?b)))",
        35,
        NOT_IN_GRAMMAR,
    ),
    Refused(
        "(pks 1) (domain (action a (effects (set (not (p)))))) (problem (goal (k (p))))",
        40,
        NOT_IN_GRAMMAR,
    ),
    Refused(
        "(pks 1) (domain (action a (effects (set (= a b))))) (problem (goal (k (p))))",
        41,
        NOT_IN_GRAMMAR,
    ),
    Refused(
        "(pks 1) (domain (action a (effects (set (p _))))) (problem (goal (k (p))))",
        43,
        NOT_IN_GRAMMAR,
    ),
    Refused(
        "(pks 1) (domain (action a (knows (kf (p) (q))))) (problem (goal (k (p))))",
        33,
        NOT_IN_GRAMMAR,
    ),
    Refused(
        "(pks 1) (domain (action a (pre (bad)))) (problem (goal (k (p))))",
        31,
        NOT_IN_GRAMMAR,
    ),
    // what the second version adds
    Refused(
        "(pks 1) (domain (types a (b a))) (problem (goal (k (p))))",
        25,
        NOT_IN_GRAMMAR,
    ),
    Refused(
        "(pks 1) (domain (action a (cost 9))) (problem (goal (k (p))))",
        26,
        NOT_IN_GRAMMAR,
    ),
    Refused(
        "(pks 1) (domain) (problem (goal (once (k (p)))))",
        32,
        NOT_IN_GRAMMAR,
    ),
    Refused(
        "(pks 2) (domain (types a (b a c))) (problem (goal (k (p))))",
        25,
        NOT_IN_GRAMMAR,
    ),
    Refused(
        "(pks 2) (domain (action a (cost 09))) (problem (goal (k (p))))",
        32,
        NOT_IN_GRAMMAR,
    ),
    Refused(
        "(pks 2) (domain (action a (params) (cost 9))) (problem (goal (k (p))))",
        35,
        NOT_IN_GRAMMAR,
    ),
    Refused(
        "(pks 2) (domain) (problem (goal (once (not-derived (k (p))))))",
        38,
        NOT_IN_GRAMMAR,
    ),
    Refused(
        "(pks 1) (domain (types t (s t))) (problem (goal (kv (f))))",
        25,
        NOT_IN_GRAMMAR,
    ),
];

#[test]
fn texts_and_their_shapes_are_refused_at_their_places(rt: HostRuntime) -> Result<(), Fail> {
    are_refused(rt.alloc(), SHAPES)
}

const MEANINGS: &[Refused] = &[
    // what the grammar has, refused for its meaning alone
    Refused(
        "(pks 1) (domain) (problem (goal (k (not (= a b))) (kv f) (kw (p) (not (q)))))",
        43,
        UNDECLARED,
    ),
    Refused(
        "(pks 1) (domain (action a (knows (lcw (not _ ?x)) (kv (not))))) (problem (init) (goal (kv (not a))))",
        39,
        UNDECLARED,
    ),
    Refused(
        "(pks 1) (domain) (problem (goal (k (p)))) (world (true (not)) (values ((f a) b)))",
        36,
        UNDECLARED,
    ),
    Refused(
        "(pks 2) (domain (types a (b a)) (action c (cost 10000))) (problem (goal (at-start (k (p))) (always (kv f)) (once (kw (p))) (k (p))))",
        48,
        PAST_LIMIT,
    ),
    // each code, and files without a fault
    Refused(
        "(pks 1) (domain (predicates (not))) (problem (goal (k (p))))",
        29,
        BARRED_NAME,
    ),
    Refused(
        "(pks 1) (domain (predicates (p) (p))) (problem (goal (k (p))))",
        33,
        DECLARED_TWICE,
    ),
    Refused(
        "(pks 1)\n(domain (predicates (open)))\n(problem (init (kf (open))) (goal (k (opem))))\n",
        75,
        UNDECLARED,
    ),
    Refused(
        "(pks 1) (domain (predicates (p) (q))) (problem (init (kx (p) (zz))) (goal (k (p))))",
        62,
        UNDECLARED,
    ),
    Refused(
        "(pks 2) (domain (types (a a))) (problem (goal (k (p))))",
        26,
        UNDECLARED,
    ),
    Refused(
        "(pks 1) (domain (types t) (objects (t a)) (predicates (p t))) (problem (goal (k (p ?x))))",
        83,
        UNKNOWN_PARAMETER,
    ),
    Refused(
        "(pks 1) (domain (predicates (p))) (problem (goal (k (p ?x))))",
        52,
        WRONG_COUNT,
    ),
    Refused(
        "(pks 1) (domain (types s t) (objects (s a) (t b)) (predicates (p s))) (problem (goal (k (p b))))",
        91,
        WRONG_TYPE,
    ),
    Refused(
        "(pks 1) (domain (types s t) (objects (s a) (t b))) (problem (goal (k (= a b))))",
        74,
        WRONG_TYPE,
    ),
    Refused(
        "(pks 1) (domain (types t) (objects (t a)) (functions (f t t))) (problem (goal (kv (f (f (f a))))))",
        82,
        HIGH_TERM,
    ),
    Refused(
        "(pks 2) (domain (predicates (p)) (action a (cost 10000) (effects (set (p))))) (problem (goal (k (p))))",
        49,
        PAST_LIMIT,
    ),
    Refused(
        "(pks 1) (domain (types t1 t2 t3 r) (objects (r o)) (predicates (p)) (functions (f t1 t2 t3 r))) (problem (goal (k (p))))",
        88,
        PAST_LIMIT,
    ),
    Refused(
        "(pks 1) (domain (types t) (predicates (p)) (action act (params (?x1 t) (?x2 t) (?x3 t) (?x4 t) (?x5 t)))) (problem (goal (k (p))))",
        96,
        PAST_LIMIT,
    ),
    Refused(
        "(pks 1) (domain (predicates (p)) (action act (senses (sense (p) (p) (p) (p) (p))))) (problem (goal (k (p))))",
        76,
        PAST_LIMIT,
    ),
    Refused(
        "(pks 1) (domain (types t) (functions (f t))) (problem (goal (kv (f))))",
        40,
        EMPTY_TYPE,
    ),
    Refused(
        "(pks 1) (domain (predicates (p) (q))) (problem (init (kx (p) (q) (p))) (goal (k (p))))",
        65,
        LITERAL_TWICE,
    ),
    Refused(
        "(pks 1) (domain (types t) (objects (t a b)) (functions (f t))) (problem (init (kx (= (f) a) (= a (f)))) (goal (kv (f))))",
        92,
        LITERAL_TWICE,
    ),
    Refused(
        "(pks 1) (domain (types t) (predicates (p t t t))) (problem (init (lcw (p _ _ _))) (goal (k (p))))",
        77,
        THIRD_WILDCARD,
    ),
    Refused(
        "(pks 1)\n(domain (predicates (open)))\n(problem (init (kf (open))) (goal (k (open))))\n",
        0,
        0,
    ),
    Refused(
        "(pks 2) (domain (types t (s t)) (objects (s a) (t b)) (functions (f t))) (problem (goal (k (= a b)) (k (= b a))))",
        0,
        0,
    ),
    Refused(
        "(pks 2) (domain (predicates (p)) (action a (cost 9999) (effects (set (p))))) (problem (goal (always (k (p)))))",
        0,
        0,
    ),
    Refused(
        "(pks 2) (domain (types t (s t)) (objects (s a)) (functions (f t))) (problem (goal (once (kv (f)))))",
        0,
        0,
    ),
];

#[test]
fn meanings_are_refused_at_their_places(rt: HostRuntime) -> Result<(), Fail> {
    are_refused(rt.alloc(), MEANINGS)
}

const DOOR: &str =
    "(pks 1)\n(domain (predicates (open)))\n(problem (init (kf (open))) (goal (k (open))))\n";

/// The code of the refusal of so many first bytes of the door's file.
fn code_of_prefix(n: usize) -> u16 {
    match n {
        0 => NO_VERSION,
        7 | 8 => NO_DOMAIN,
        36 | 37 => NO_PROBLEM,
        83 | 84 => 0,
        _ => UNCLOSED,
    }
}

/// Whether so many first bytes are refused with that code, and a form that is missing at their end.
fn is_prefix_refused(alloc: Global, file: &str, n: usize) -> bool {
    if !file.is_char_boundary(n) {
        return false;
    }
    let (at, code) = refusal_of(alloc, &file[..n]);
    code == code_of_prefix(n) && (code < NO_VERSION || at as usize == n)
}

#[test]
fn each_prefix_of_a_file_has_its_refusal(rt: HostRuntime) {
    assert_eq!(rt; DOOR.len(), 84);
    for n in 0..=84 {
        assert!(rt; is_prefix_refused(rt.alloc(), DOOR, n), "at {n}");
    }
}
