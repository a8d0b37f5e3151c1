//! Files whose answer would be another one if a failed search were taken to tell of a history that isn't the image of its own,
//! and one that the search ends with in time since it tells of all images.
use crate::rows::all_so;
use crate::runs::Answered;
use pks_run::Status::{Done, NoPlan};
use std::test::Fail;

/// Twenty lamps that nothing tells apart, and a goal that no action makes known, though the bound can't tell.
const ALIKE_LAMPS: &str = "(pks 1)
(domain (types lamp) (objects (lamp a b c d e f g h i j k l m n o p q r s t)) (predicates (lit lamp) (hidden))
  (action light (params (?l lamp)) (pre (not-derived (k (lit ?l)))) (effects (set (lit ?l))) (knows (kf (lit ?l)))))
(problem (goal (kw (hidden))))
";

/// Which of two steps was made at an earlier moment tells which look comes to what.
const OTHER_STEP: &str = "(pks 1)
(domain (types o) (objects (o x y)) (predicates (m o) (c) (e) (d))
  (action pb (params (?o o)) (pre (k (m ?o))) (effects (when ((e)) (set (d)))))
  (action pa (params (?o o)) (pre (k (m ?o))) (effects (when ((c)) (set (d)))))
  (action look (senses (sense (d))) (knows (kw (d))))
  (action see (params (?o o)) (senses (sense (m ?o))) (knows (kw (m ?o)))))
(problem (init (kx (m x) (m y)) (kf (not (d)))) (goal (kw (c))))
";

const OTHER_STEP_PLAN: &str = "plan depth 5
(see x)
branch (m x)
true
  (pa x)
  (look)
  branch (d)
  true
    goal
  false
    goal
false
  (pa y)
  (look)
  branch (d)
  true
    goal
  false
    goal
";

/// Cases on an object that the term names.
const NAMED_CASE: &str = "(pks 1)
(domain (types o) (objects (o x y z)) (predicates (done)) (functions (f o o))
  (action go (params (?a o)) (pre (k (= (f ?a) ?a))) (effects (set (done))) (knows (kf (done)))))
(problem (init (kv (f x)) (kv (f y)) (kv (f z))) (goal (k (done))))
";

/// A region is of one object alone.
const OTHER_REGION: &str = "(pks 1)
(domain (types o) (objects (o y x)) (predicates (q o) (done))
  (action act (params (?a o)) (pre (k (not (q ?a)))) (effects (set (done))) (knows (kf (done)))))
(problem (init (lcw (q x))) (goal (k (done))))
";

/// An object of a type below another one can do what the other can't.
const OTHER_TYPE: &str = "(pks 2)
(domain (types thing (tool thing)) (objects (thing a) (tool b)) (predicates (marked thing) (done))
  (action mark (params (?x thing)) (effects (set (marked ?x))) (knows (kf (marked ?x))))
  (action use (params (?x tool)) (pre (k (marked ?x))) (effects (set (done))) (knows (kf (done)))))
(problem (goal (k (done))))
";

/// An action names an object.
const NAMED_BY_ACTION: &str = "(pks 1)
(domain (types thing) (objects (thing a b)) (predicates (marked thing) (done))
  (action mark (params (?x thing)) (effects (set (marked ?x))) (knows (kf (marked ?x))))
  (action use (pre (k (marked b))) (effects (set (done))) (knows (kf (done)))))
(problem (goal (k (done))))
";

/// The goal names an object.
const NAMED_BY_GOAL: &str = "(pks 1)
(domain (types thing) (objects (thing a b)) (predicates (marked thing) (used thing))
  (action mark (params (?x thing)) (effects (set (marked ?x))) (knows (kf (marked ?x))))
  (action use (params (?x thing)) (pre (k (marked ?x))) (effects (set (used ?x))) (knows (kf (used ?x)))))
(problem (goal (k (used b))))
";

const COMPARED: &[Answered] = &[
    Answered("plan 4", OTHER_STEP, NoPlan, "none to depth 4\n"),
    Answered("plan 5", OTHER_STEP, Done, OTHER_STEP_PLAN),
    Answered("plan 4", NAMED_CASE, NoPlan, "none to depth 4\n"),
    Answered(
        "plan 2",
        OTHER_REGION,
        Done,
        "plan depth 1\n(act x)\ngoal\n",
    ),
    Answered(
        "plan 2",
        OTHER_TYPE,
        Done,
        "plan depth 2\n(mark b)\n(use b)\ngoal\n",
    ),
    Answered(
        "plan 2",
        NAMED_BY_ACTION,
        Done,
        "plan depth 2\n(mark b)\n(use)\ngoal\n",
    ),
    Answered(
        "plan 2",
        NAMED_BY_GOAL,
        Done,
        "plan depth 2\n(mark b)\n(use b)\ngoal\n",
    ),
];

#[test]
fn what_looks_alike_is_compared(rt: HostRuntime) -> Result<(), Fail> {
    all_so(rt.alloc(), COMPARED)
}

const IN_TIME: &[Answered] = &[Answered("plan 16", ALIKE_LAMPS, NoPlan, "none to depth 16\n")];

#[test]
fn alike_objects_are_not_tried_one_by_one(rt: HostRuntime) -> Result<(), Fail> {
    all_so(rt.alloc(), IN_TIME)
}
