//! Adds with and without a case.
use crate::justifying::{Add, have_cases, have_other_cases};
use pks_justify::Case;
use std::test::Fail;

const LITERALS: &[Add] = &[
    Add("(effects (set (p a)))", "(kf (p a))", Some(Case::J1)),
    Add(
        "(effects (unset (p b)))",
        "(kf (not (p b)))",
        Some(Case::J1),
    ),
    Add("(effects (unset (p b)))", "(kf (p b))", None),
    Add("(effects (when ((r)) (set (p a))))", "(kf (p a))", None),
    Add(
        "(effects (when ((r)) (set (p a))))",
        "(if ((k (r))) (kf (p a)))",
        Some(Case::J1),
    ),
    Add(
        "(effects (when ((r)) (set (p a))))",
        "(if ((k (not (r)))) (kf (p a)))",
        None,
    ),
    Add(
        "(effects (when ((r)) (set (p a))))",
        "(if ((not-derived (k (r)))) (kf (p a)))",
        None,
    ),
    Add("(effects (set (p ?x)) (unset (p ?y)))", "(kf (p ?x))", None),
    Add(
        "(effects (set (p a)) (unset (p b)))",
        "(kf (p a))",
        Some(Case::J1),
    ),
    Add(
        "(effects (set (p ?x)) (unset (p ?y)))",
        "(if ((k (not (= ?x ?y)))) (kf (p ?x)))",
        Some(Case::J1),
    ),
    Add("(effects (set (p a)) (clear (p _)))", "(kf (p a))", None),
    Add(
        "(effects (clear (p _)) (set (p a)))",
        "(kf (p a))",
        Some(Case::J1),
    ),
    Add(
        "(effects (assign (f) ?x))",
        "(kf (= (f) ?x))",
        Some(Case::J2),
    ),
    Add(
        "(effects (assign (f) ?x) (assign (f) ?x))",
        "(kf (= (f) ?x))",
        Some(Case::J2),
    ),
    Add(
        "(effects (assign (f) ?x) (assign (f) a))",
        "(kf (= (f) ?x))",
        None,
    ),
];

#[test]
fn cases_of_literals(rt: HostRuntime) -> Result<(), Fail> {
    have_cases(rt.alloc(), LITERALS)
}

const FORMULAS: &[Add] = &[
    Add(
        "(senses (sense (r) (p a)))",
        "(kw (r) (p a))",
        Some(Case::J3),
    ),
    Add("(senses (sense (r) (p a)))", "(kw (p a))", None),
    Add("(senses (sense-all (p _)))", "(kw (p a))", Some(Case::J4)),
    Add(
        "(senses (sense-all (p _)))",
        "(kw (not (p ?x)))",
        Some(Case::J4),
    ),
    Add("(senses (sense-all (p _)))", "(kw (p (g)))", None),
    Add(
        "(pre (kw (r))) (effects (when ((r)) (set (p a))))",
        "(if ((kw (p a))) (kw (p a)))",
        Some(Case::J5),
    ),
    Add(
        "(pre (kw (r))) (effects (when ((r)) (set (p a))))",
        "(kw (p a))",
        None,
    ),
    Add(
        "(effects (when ((r)) (set (p a))))",
        "(if ((kw (p a))) (kw (p a)))",
        None,
    ),
    Add(
        "(pre (kw (r))) (effects (when ((r)) (set (p a))) (set (p b)))",
        "(if ((kw (p a))) (kw (p a)))",
        None,
    ),
    Add(
        "(pre (kw (r))) (effects (when ((r)) (set (p a))) (clear (p _)))",
        "(if ((kw (p a))) (kw (p a)))",
        None,
    ),
];

#[test]
fn cases_of_formulas(rt: HostRuntime) -> Result<(), Fail> {
    have_cases(rt.alloc(), FORMULAS)
}

const VALUES_AND_REGIONS: &[Add] = &[
    Add("(senses (sense-value (g)))", "(kv (g))", Some(Case::J6)),
    Add("(senses (sense-value (g)))", "(kv (f))", None),
    Add(
        "(effects (assign (f) (g)))",
        "(if ((kv (g))) (kv (f)))",
        Some(Case::J7),
    ),
    Add("(effects (assign (f) (g)))", "(kv (f))", None),
    Add(
        "(effects (when ((r)) (assign (f) (g))))",
        "(if ((kv (g))) (kv (f)))",
        None,
    ),
    Add(
        "(effects (assign (f) (g)) (assign (f) (g)))",
        "(if ((kv (g))) (kv (f)))",
        Some(Case::J7),
    ),
    Add("(effects (clear (p _)))", "(lcw (p _))", Some(Case::J8)),
    Add("(effects (clear (p _)) (set (p b)))", "(lcw (p _))", None),
    Add(
        "(effects (set (p b)) (clear (p _)))",
        "(lcw (p _))",
        Some(Case::J8),
    ),
];

#[test]
fn cases_of_values_and_regions(rt: HostRuntime) -> Result<(), Fail> {
    have_cases(rt.alloc(), VALUES_AND_REGIONS)
}

/// Adds of another action, which makes r true.
const ELSEWHERE: &[Add] = &[
    Add("(effects (set (p ?x)))", "(kf (p ?x))", Some(Case::J1)),
    Add("(effects (set (p ?x)))", "(kf (p ?y))", None),
    Add("(effects (set (p ?x)))", "(kf (r))", None),
    Add(
        "(effects (assign (f) ?y))",
        "(kf (= (f) ?y))",
        Some(Case::J2),
    ),
    Add("(senses (sense-value (g)))", "(kv (g))", Some(Case::J6)),
];

#[test]
fn cases_in_an_action_without_the_add(rt: HostRuntime) -> Result<(), Fail> {
    have_other_cases(rt.alloc(), ELSEWHERE)
}
