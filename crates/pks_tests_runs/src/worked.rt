//! Worked files by whole runs: words and a file in, text and a status out.
use crate::files::{
    ALIAS, ALIAS_NOT_HALL, BOTH, BOXES, BOXES_PLAN, COIN, COIN_PLAN, CRATE, CRATE_NOT_B1,
    CRATE_OF_VERSION_1, CRATE_PLAN, DIG, DOOR, DOOR_OPEM, DOOR_WITHOUT_INIT, DOOR_WORLD, EIGHT,
    EIGHT_PLAN, EMPTY_PLAN, ERRAND, ERRAND_PLAN, GO_PLAN, GROUPS, GROUPS_PLAN, HOUSE, HOUSE_PLAN,
    HOUSE_WORLD, HOUSE_WORLD_EXEC, JUMP_PLAN, LAMP, LAMP_PLAN, LAWN, LAWN_ALWAYS, LAWN_AT_START,
    LAWN_AT_START_OF_VERSION_1, LAWN_PLAN, LAWN_WITHOUT_INIT, LAWN_WORLD_ALIVE,
    LAWN_WORLD_ALIVE_EXEC, LAWN_WORLD_ALIVE_POISON, LAWN_WORLD_ALIVE_POISON_EXEC,
    LAWN_WORLD_POISON, MOVE, MOVE_PLAN, NEXT, NEXT_WITHOUT_ASSIGN, NONE_BROKEN, ONE_DENIED,
    ONE_NOT_LISTED, PAIR, PAIR_PLAN, PAIR_WITHOUT_P, RESTED_LAWN, RESTED_LAWN_PLAN, SAFE,
    SAFE_PLAN, SAFE_WITHOUT_READ, SAFE_WORLD_C3, SAFE_WORLD_C3_EXEC, SAFE_WORLD_EMPTY, SWEEP_PLAN,
    THIN_DIG, TOLLS, TOLLS_OF_VERSION_1, TOLLS_WITHOUT_COSTS, TUBS, TUBS_GOAL_B1,
    TUBS_GOAL_B1_PLAN, TUBS_PLAN, TWO_OF_A_GROUP, TWO_TOLLS_PLAN, TYPES_IN_TWO_LISTS, UNCLOSED,
    USAGE, VAULT_16, VAULT_17, VAULT_17_NOT_C17, VAULT_PLAN,
};
use crate::rows::all_so;
use crate::runs::Answered;
use pks_run::Status::{Done, NoPlan, Refused, Words};
use std::test::Fail;

const WORKED: &[Answered] = &[
    Answered("plan 0", DOOR, Done, EMPTY_PLAN),
    Answered("plan 0", DOOR_WITHOUT_INIT, NoPlan, "none to depth 0\n"),
    Answered("plan 2", SAFE, Done, SAFE_PLAN),
    Answered("plan 4", SAFE_WITHOUT_READ, NoPlan, "none to depth 4\n"),
    Answered("plan 3", LAWN, Done, LAWN_PLAN),
    Answered("plan 3", LAWN_WITHOUT_INIT, NoPlan, "none to depth 3\n"),
    Answered("plan 2", ALIAS, NoPlan, "none to depth 2\n"),
    Answered("plan 2", ALIAS_NOT_HALL, Done, SWEEP_PLAN),
    Answered("plan 1", NEXT, NoPlan, "none to depth 1\n"),
    Answered("plan 1", NEXT_WITHOUT_ASSIGN, Done, GO_PLAN),
    Answered("plan 4", BOXES, Done, BOXES_PLAN),
    Answered("plan 2", VAULT_16, Done, VAULT_PLAN),
    Answered("plan 2", VAULT_17, NoPlan, "none to depth 2\n"),
    Answered("plan 2", VAULT_17_NOT_C17, Done, VAULT_PLAN),
    Answered("plan 1", PAIR, Done, PAIR_PLAN),
    Answered("plan 1", PAIR_WITHOUT_P, NoPlan, "none to depth 1\n"),
    Answered("plan 1", GROUPS, Done, GROUPS_PLAN),
    Answered("plan 2", TUBS, Done, TUBS_PLAN),
    Answered("plan 2", TUBS_GOAL_B1, NoPlan, "none to depth 2\n"),
    Answered("plan 3", TUBS_GOAL_B1, Done, TUBS_GOAL_B1_PLAN),
    Answered("plan 5", HOUSE, Done, HOUSE_PLAN),
    Answered("plan 1", EIGHT, Done, EIGHT_PLAN),
];

#[test]
fn worked_rows(rt: HostRuntime) -> Result<(), Fail> {
    all_so(rt.alloc(), WORKED)
}

const RUN: &[Answered] = &[
    Answered(
        "exec 3",
        LAWN_WORLD_ALIVE_POISON,
        Done,
        LAWN_WORLD_ALIVE_POISON_EXEC,
    ),
    Answered("exec 3", LAWN_WORLD_ALIVE, Done, LAWN_WORLD_ALIVE_EXEC),
    Answered(
        "exec 3",
        LAWN_WORLD_POISON,
        Refused,
        "refused 7:1 311 item 1\n",
    ),
    Answered("exec 2", SAFE, Refused, "refused 11:1 310\n"),
    Answered("exec 2", SAFE_WORLD_EMPTY, Refused, "refused 12:1 303\n"),
    Answered("exec 2", SAFE_WORLD_C3, Done, SAFE_WORLD_C3_EXEC),
    Answered("exec 5", HOUSE_WORLD, Done, HOUSE_WORLD_EXEC),
];

#[test]
fn worked_runs(rt: HostRuntime) -> Result<(), Fail> {
    all_so(rt.alloc(), RUN)
}

const REFUSALS: &[Answered] = &[
    Answered("plan 0", "", Refused, "refused 1:1 120\n"),
    Answered("check", UNCLOSED, Refused, "refused 2:9 111\n"),
    Answered(
        "check",
        DIG,
        Refused,
        "refused 6:21 260 action dig effect 2\n",
    ),
    Answered("plan 3", BOTH, Refused, "refused 3:10 270\n"),
    Answered("check", TYPES_IN_TWO_LISTS, Refused, "refused 1:27 124\n"),
    Answered("check", DOOR_OPEM, Refused, "refused 3:39 203\n"),
    Answered("check", EIGHT, Done, "accepted\n"),
];

#[test]
fn worked_refusals(rt: HostRuntime) -> Result<(), Fail> {
    all_so(rt.alloc(), REFUSALS)
}

const USED: &[Answered] = &[
    Answered(
        "bench 40",
        "",
        Done,
        "bench 40 bytes 31762 depth 2 nodes 3\n",
    ),
    Answered("bench 1", "", Done, "bench 1 bytes 352 depth 2 nodes 3\n"),
    Answered(
        "bench 64",
        "",
        Done,
        "bench 64 bytes 81346 depth 2 nodes 3\n",
    ),
    Answered("plan 17", "", Words, USAGE),
    Answered("check 3", "", Words, USAGE),
    Answered("plan", "", Words, USAGE),
    Answered("plan 007", "", Words, USAGE),
    Answered("solve 2", "", Words, USAGE),
];

#[test]
fn usage_and_bench(rt: HostRuntime) -> Result<(), Fail> {
    all_so(rt.alloc(), USED)
}

const LEARNT: &[Answered] = &[
    Answered("plan 3", LAWN_AT_START, Done, LAWN_PLAN),
    Answered("plan 3", LAWN_ALWAYS, NoPlan, "none to depth 3\n"),
    Answered("plan 4", RESTED_LAWN, Done, RESTED_LAWN_PLAN),
];

#[test]
fn what_is_learnt_of_the_past(rt: HostRuntime) -> Result<(), Fail> {
    all_so(rt.alloc(), LEARNT)
}

const ERRANDS: &[Answered] = &[
    Answered("plan 1", ERRAND, NoPlan, "none to depth 1\n"),
    Answered("plan 2", ERRAND, Done, ERRAND_PLAN),
];

#[test]
fn what_is_asked_of_some_moment(rt: HostRuntime) -> Result<(), Fail> {
    all_so(rt.alloc(), ERRANDS)
}

const ONE_FEATURE: &[Answered] = &[
    Answered("plan 1", LAMP, NoPlan, "none to depth 1\n"),
    Answered("plan 2", LAMP, Done, LAMP_PLAN),
    Answered(
        "check",
        THIN_DIG,
        Refused,
        "refused 3:51 260 action dig effect 2\n",
    ),
    Answered(
        "plan 2",
        THIN_DIG,
        Refused,
        "refused 3:51 260 action dig effect 2\n",
    ),
    Answered("plan 1", MOVE, Done, MOVE_PLAN),
    Answered("plan 1", COIN, Done, COIN_PLAN),
    Answered(
        "check",
        LAWN_AT_START_OF_VERSION_1,
        Refused,
        "refused 6:36 124\n",
    ),
];

#[test]
fn files_of_one_feature(rt: HostRuntime) -> Result<(), Fail> {
    all_so(rt.alloc(), ONE_FEATURE)
}

const PRICED: &[Answered] = &[
    Answered("plan 1", CRATE, Done, CRATE_PLAN),
    Answered("plan 0", CRATE_NOT_B1, Done, EMPTY_PLAN),
    Answered("check", CRATE_OF_VERSION_1, Refused, "refused 3:16 124\n"),
    Answered("plan 1", TOLLS, Done, JUMP_PLAN),
    Answered("plan 2", TOLLS, Done, TWO_TOLLS_PLAN),
    Answered("check", TOLLS_OF_VERSION_1, Refused, "refused 4:16 124\n"),
    Answered("plan 2", TOLLS_WITHOUT_COSTS, Done, JUMP_PLAN),
];

#[test]
fn parents_and_costs(rt: HostRuntime) -> Result<(), Fail> {
    all_so(rt.alloc(), PRICED)
}

const BROKEN: &[Answered] = &[
    Answered(
        "exec 0",
        TWO_OF_A_GROUP,
        Refused,
        "refused 4:1 311 item 2\n",
    ),
    Answered(
        "exec 0",
        ONE_NOT_LISTED,
        Refused,
        "refused 4:1 311 item 3\n",
    ),
    Answered("exec 0", ONE_DENIED, Refused, "refused 4:1 311 item 4\n"),
    Answered("exec 0", NONE_BROKEN, NoPlan, "none to depth 0\n"),
];

#[test]
fn worlds_that_break_an_item(rt: HostRuntime) -> Result<(), Fail> {
    all_so(rt.alloc(), BROKEN)
}

const ONE_LESS: &[Answered] = &[
    Answered("plan 1", SAFE, NoPlan, "none to depth 1\n"),
    Answered("plan 2", LAWN, NoPlan, "none to depth 2\n"),
    Answered("plan 3", BOXES, NoPlan, "none to depth 3\n"),
    Answered("plan 1", VAULT_16, NoPlan, "none to depth 1\n"),
    Answered("plan 4", HOUSE, NoPlan, "none to depth 4\n"),
    Answered("plan 3", RESTED_LAWN, NoPlan, "none to depth 3\n"),
];

#[test]
fn one_depth_less_is_too_few(rt: HostRuntime) -> Result<(), Fail> {
    all_so(rt.alloc(), ONE_LESS)
}

const DENIED: &str =
    "(pks 1)\n(domain (predicates (p) (q)))\n(problem (init (kf (not (p))) (kf (q))) (goal (k (q)) (k (not (p)))))\n";

const SHUT_WORLD: &str =
    "(pks 1)\n(domain (predicates (open)))\n(problem (init (kf (open))) (goal (k (open))))\n(world (true (shut)))\n";

const EMPTY_WORLD: &str =
    "(pks 1)\n(domain (predicates (open)))\n(problem (init (kf (open))) (goal (k (open))))\n(world)\n";

const ELSEWHERE: &str =
    "(pks 1)\n(domain (types place) (objects (place hall den)) (functions (where place)))\n(problem (init (kf (not (= (where) hall)))) (goal (k (= (where) den))))\n";

const ONE_OBJECT: &str =
    "(pks 1)\n(domain (types t) (objects (t a)) (predicates (p t)) (functions (f t)))\n(problem (init (kf (p (f)))) (goal (k (p a)) (kv (f))))\n";

const OUTSIDE: &str =
    "(pks 2)\n(domain (types thing (box thing)) (objects (thing a) (box b c)) (functions (f box)))\n(problem (goal (k (not (= (f) a)))))\n";

const CLOSED: &str =
    "(pks 1)\n(domain (types t) (objects (t a b)) (predicates (p t)))\n(problem (init (kf (p a)) (lcw (p _))) (goal (k (not (p b)))))\n";

const LISTED: &str =
    "(pks 1)\n(domain (types t) (objects (t a b)) (predicates (p t)))\n(problem (init (kf (p a)) (lcw (p _))) (goal (k (not (p a)))))\n";

const KNOWN_PAIR: &str =
    "(pks 1)\n(domain (predicates (p) (q)))\n(problem (init (kw (p) (q)) (kf (p))) (goal (kw (p) (q))))\n";

const GROUP: &str =
    "(pks 1)\n(domain (predicates (p) (q) (r)))\n(problem (init (kx (p) (q) (r)) (kf (not (p))) (kf (not (r)))) (goal (k (q))))\n";

/// An add without a case comes before a clash, and a clash before a fault of the world.
const THREE_FAULTS: &str =
    "(pks 1)\n(domain\n  (predicates (p) (q) (r))\n  (action dig\n    (effects (set (p)) (when ((r)) (set (q))))\n    (knows (kf (p)) (kf (q)) (kf (r)))))\n(problem (init (kf (p)) (kf (not (p)))) (goal (k (q))))\n(world (true (s)))\n";

const FURTHER: &[Answered] = &[
    Answered("plan 16", DOOR_WITHOUT_INIT, NoPlan, "none to depth 16\n"),
    Answered("plan 16", DENIED, Done, EMPTY_PLAN),
    Answered("bench 65", "", Words, USAGE),
    Answered("check", SHUT_WORLD, Refused, "refused 4:15 301\n"),
    Answered("check", DOOR_WORLD, Done, "accepted\n"),
    Answered("check", LAWN_WORLD_POISON, Done, "accepted\n"),
    Answered("exec 3", SHUT_WORLD, Refused, "refused 4:15 301\n"),
    Answered(
        "check",
        THREE_FAULTS,
        Refused,
        "refused 6:21 260 action dig effect 2\n",
    ),
    Answered("check", "é", Refused, "refused 1:1 101\n"),
    Answered("exec 0", DOOR, Refused, "refused 3:1 310\n"),
    Answered("exec 0", DOOR_WORLD, Done, "run\ngoal\n"),
    Answered("exec 0", EMPTY_WORLD, Refused, "refused 4:1 311 item 1\n"),
    Answered("plan 0", ELSEWHERE, Done, EMPTY_PLAN),
    Answered("plan 0", ONE_OBJECT, Done, EMPTY_PLAN),
    Answered("plan 0", OUTSIDE, Done, EMPTY_PLAN),
    Answered("plan 0", CLOSED, Done, EMPTY_PLAN),
    Answered("plan 0", LISTED, NoPlan, "none to depth 0\n"),
    Answered("plan 0", KNOWN_PAIR, Done, EMPTY_PLAN),
    Answered("plan 0", GROUP, Done, EMPTY_PLAN),
    Answered("-- check", DOOR, Done, "accepted\n"),
];

#[test]
fn words_and_worlds(rt: HostRuntime) -> Result<(), Fail> {
    all_so(rt.alloc(), FURTHER)
}
