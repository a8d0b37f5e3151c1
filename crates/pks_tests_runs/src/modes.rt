//! What the modes beside planning and running print, by whole runs.
use crate::files::{
    BOTH, DIG, DOOR, GROUPS, LAWN, LAWN_PLAN, LAWN_WORLD_POISON, SAFE, TUBS, USAGE,
};
use crate::rows::all_so;
use crate::runs::Answered;
use pks_run::Status::{Done, NoPlan, Refused, Words};
use std::test::Fail;

const LAWN_RECALL: &str = "plan depth 3
(pour)
(look)
branch (alive)
true
  goal
false
  goal
leaf 1
moment 0
(alive)
(not (poison))
moment 1
(alive)
(not (poison))
moment 2
(alive)
(not (poison))
leaf 2
moment 0
(alive)
(poison)
moment 1
(not (alive))
(poison)
moment 2
(not (alive))
(poison)
";

const GROUPS_RECALL: &str = "plan depth 1
branch (r)
true
  impossible
false
  goal
leaf 1
impossible
leaf 2
moment 0
(not (r))
";

const DOOR_RECALL: &str = "plan depth 0
goal
leaf 1
moment 0
(open)
";

/// A vault with two keys.
const VAULT: &str = "(pks 1)
(domain
  (types num)
  (objects (num c1 c2))
  (predicates (key num) (ajar))
  (functions (combo num))
  (action press (params (?x num)) (pre (k (= (combo) ?x)) (k (key ?x)))
    (effects (set (ajar))) (knows (kf (ajar)))))
(problem (init (kv (combo)) (kf (key c1)) (kf (key c2))) (goal (k (ajar))))
";

const VAULT_RECALL: &str = "plan depth 2
cases (combo)
case c1
  (press c1)
  goal
case c2
  (press c2)
  goal
leaf 1
moment 0
(key c1)
(key c2)
(= c1 c1)
(= (combo) c1)
moment 1
(key c1)
(key c2)
(ajar)
(= c1 c1)
(= (combo) c1)
leaf 2
moment 0
(key c1)
(key c2)
(= c2 c2)
(= (combo) c2)
moment 1
(key c1)
(key c2)
(ajar)
(= c2 c2)
(= (combo) c2)
";

const RECALLED: &[Answered] = &[
    Answered("recall 3", LAWN, Done, LAWN_RECALL),
    Answered("recall 3", LAWN_WORLD_POISON, Done, LAWN_RECALL),
    Answered("recall 2", LAWN, NoPlan, "none to depth 2\n"),
    Answered("recall 1", GROUPS, Done, GROUPS_RECALL),
    Answered("recall 0", DOOR, Done, DOOR_RECALL),
    Answered("recall 2", VAULT, Done, VAULT_RECALL),
    Answered("recall 3", BOTH, Refused, "refused 3:10 270\n"),
    Answered(
        "recall 2",
        DIG,
        Refused,
        "refused 6:21 260 action dig effect 2\n",
    ),
    Answered("recall 17", DOOR, Words, USAGE),
    Answered("recall", DOOR, Words, USAGE),
];

#[test]
fn what_each_leaf_recalls(rt: HostRuntime) -> Result<(), Fail> {
    all_so(rt.alloc(), RECALLED)
}

const DOOR_EXPLAIN: &str = "plan depth 0
goal
known (open)
1 moment 0 (open) given 1
";

const GROUPS_EXPLAIN: &str = "plan depth 1
branch (r)
true
  impossible
false
  goal
known (not (r))
1 moment 0 (not (r)) side 1
";

const VAULT_EXPLAIN: &str = "plan depth 2
cases (combo)
case c1
  (press c1)
  goal
case c2
  (press c2)
  goal
known (= (combo) c1)
1 moment 0 (= (combo) c1) side 1
known (key c1)
1 moment 0 (key c1) given 2
known (ajar)
1 moment 1 (ajar) effect
known (= (combo) c2)
1 moment 0 (= (combo) c2) side 1
known (key c2)
1 moment 0 (key c2) given 3
known (ajar)
1 moment 1 (ajar) effect
";

/// The lawn, and seed that may be sown where there is known to be poison.
const SOWN: &str = "(pks 1)
(domain
  (predicates (alive) (poison))
  (action pour (effects (when ((poison)) (unset (alive)))))
  (action look (senses (sense (alive))) (knows (kw (alive))))
  (action sow (pre (k (poison))) (effects (set (alive))) (knows (kf (alive)))))
(problem (init (kf (alive))) (goal (kw (poison)) (k (alive))))
";

const SOWN_EXPLAIN: &str = "plan depth 4
(pour)
(look)
branch (alive)
true
  goal
false
  (sow)
  goal
known (alive)
1 moment 2 (alive) side 1
known (poison)
1 moment 0 (alive) given 1
2 moment 2 (not (alive)) side 1
3 moment 1 (not (alive)) back by 2
4 moment 0 (poison) must by 1 3
5 moment 1 (poison) keep by 4
6 moment 2 (poison) keep by 5
known (alive)
1 moment 3 (alive) effect
";

const EXPLAINED: &[Answered] = &[
    Answered("explain 0", DOOR, Done, DOOR_EXPLAIN),
    Answered("explain 3", LAWN, Done, LAWN_PLAN),
    Answered("explain 3", LAWN_WORLD_POISON, Done, LAWN_PLAN),
    Answered("explain 2", LAWN, NoPlan, "none to depth 2\n"),
    Answered("explain 1", GROUPS, Done, GROUPS_EXPLAIN),
    Answered("explain 2", VAULT, Done, VAULT_EXPLAIN),
    Answered("explain 4", SOWN, Done, SOWN_EXPLAIN),
    Answered("explain 3", BOTH, Refused, "refused 3:10 270\n"),
    Answered(
        "explain 2",
        DIG,
        Refused,
        "refused 6:21 260 action dig effect 2\n",
    ),
    Answered("explain 17", DOOR, Words, USAGE),
    Answered("explain 03", DOOR, Words, USAGE),
    Answered("explain", DOOR, Words, USAGE),
];

#[test]
fn what_a_plan_rests_on(rt: HostRuntime) -> Result<(), Fail> {
    all_so(rt.alloc(), EXPLAINED)
}

const LAWN_DERIVE: &str = "action pour
(if ((k (poison))) (kf (not (alive))))
(if ((kw (poison)) (kw (alive))) (kw (alive)))
action look
(kw (alive))
";

const SAFE_DERIVE: &str = "action read
(kv (combo))
action dial
(if ((k (= (combo) ?x))) (kf (open)))
(if ((kw (= (combo) ?x)) (kw (open))) (kw (open)))
";

const TUBS_DERIVE: &str = "action empty-all
(lcw (full _))
action splash
(if ((k (wet))) (kf (full b1)))
(if ((kw (wet)) (kw (full b1))) (kw (full b1)))
(kf (splashed))
";

/// An action whose first effect may be undone by the second, which sets what the third sets too, and whose value isn't known.
const UNDONE: &str = "(pks 1)
(domain
  (types t)
  (objects (t a b))
  (predicates (p t) (q))
  (functions (f t) (g t))
  (action act (params (?x t))
    (effects (set (p ?x)) (unset (p a)) (set (q)) (set (q)) (assign (f) (g)))
    (senses (sense (q) (p b)) (sense-all (p _)))))
(problem (goal (k (q))))
";

const UNDONE_DERIVE: &str = "action act
(kf (not (p a)))
(kf (q))
(kf (= (g) (f)))
(if ((kv (g))) (kv (f)))
(kw (p b) (q))
";

const DERIVED: &[Answered] = &[
    Answered("derive", LAWN, Done, LAWN_DERIVE),
    Answered("derive", DOOR, Done, ""),
    Answered("derive", SAFE, Done, SAFE_DERIVE),
    Answered("derive", TUBS, Done, TUBS_DERIVE),
    Answered("derive", UNDONE, Done, UNDONE_DERIVE),
    Answered("derive", BOTH, Refused, "refused 3:10 270\n"),
    Answered(
        "derive",
        DIG,
        Refused,
        "refused 6:21 260 action dig effect 2\n",
    ),
    Answered("derive 3", LAWN, Words, USAGE),
];

#[test]
fn what_actions_tell_by_their_text(rt: HostRuntime) -> Result<(), Fail> {
    all_so(rt.alloc(), DERIVED)
}

const LAWN_SHARED: &str = "plan depth 3 nodes 4
1 goal
2 branch (alive) true 1 false 1
3 (look) then 2
4 (pour) then 3
";

const GROUPS_SHARED: &str = "plan depth 1 nodes 3
1 impossible
2 goal
3 branch (r) true 1 false 2
";

const VAULT_SHARED: &str = "plan depth 2 nodes 4
1 goal
2 (press c1) then 1
3 (press c2) then 1
4 cases (combo) c1 2 c2 3
";

const SHARED: &[Answered] = &[
    Answered("shared 3", LAWN, Done, LAWN_SHARED),
    Answered("shared 2", LAWN, NoPlan, "none to depth 2\n"),
    Answered("shared 0", DOOR, Done, "plan depth 0 nodes 1\n1 goal\n"),
    Answered("shared 1", GROUPS, Done, GROUPS_SHARED),
    Answered("shared 2", VAULT, Done, VAULT_SHARED),
    Answered("shared 3", BOTH, Refused, "refused 3:10 270\n"),
    Answered("shared", DOOR, Words, USAGE),
];

#[test]
fn plans_whose_equal_parts_stand_once(rt: HostRuntime) -> Result<(), Fail> {
    all_so(rt.alloc(), SHARED)
}
