//! Files in which it is open whether an effect fires, or in which a literal names what several steps write: the answer would be
//! another one if such steps changed places, or if one were left out, where it plays a part.
use crate::rows::all_so;
use crate::runs::Answered;
use pks_run::Status::{Done, NoPlan};
use std::test::Fail;

/// A region whose pattern has a place comes to shut out what was true before and was unset: a look after it tells where
/// the place is not.
const WIPED: &str = "(pks 1)
(domain (types t) (objects (t a b)) (predicates (q t) (c) (done)) (functions (f t))
  (action wipe (effects (unset (q b)) (set (done))) (knows (kf (not (q b))) (kf (done))))
  (action look (senses (sense (= (f) b))) (knows (kw (= (f) b)))))
(problem (init (lcw (q (f))) (kf (q a)) (kx (q b) (c)) (kf (not (c)))) (goal (k (done)) (k (not (= (f) b)))))
";

const WIPED_PLAN: &str = "plan depth 3
(wipe)
(look)
branch (= (f) b)
true
  impossible
false
  goal
";

/// An assignment that never fires stands beside one of which it is open whether it does.
const NEVER_ASSIGNED: &str = "(pks 1)
(domain (types t) (objects (t a b d)) (predicates (c) (x) (y) (done)) (functions (f t))
  (action act (effects (when ((c)) (assign (f) a)) (when ((x) (y)) (assign (f) b)) (set (done))) (knows (kf (done))))
  (action look (senses (sense (= (f) a))) (knows (kw (= (f) a)))))
(problem (init (kf (not (c))) (kf (not (= (f) a)))) (goal (k (done)) (k (not (= (f) a)))))
";

const NEVER_ASSIGNED_PLAN: &str = "plan depth 3
(act)
(look)
branch (= (f) a)
true
  impossible
false
  goal
";

/// What was set under a condition that a region holds is unset before the region is lost.
const HELD_CONDITION: &str = "(pks 1)
(domain (types t) (objects (t a b d)) (predicates (q t) (p) (r) (done)) (functions (f t))
  (action act (effects (when ((not (q a))) (set (p)))))
  (action over (effects (unset (p))) (knows (kf (not (p)))))
  (action look (senses (sense (r))) (knows (kw (r))))
  (action drop (effects (set (q (f))) (assign (f) b) (set (done))) (knows (kf (done)))))
(problem (init (lcw (q _)) (kf (not (p))) (kf (not (= (f) a)))) (goal (k (done)) (k (not (p))) (k (not (q a)))))
";

const HELD_CONDITION_PLAN: &str = "plan depth 5
(act)
(over)
(look)
(drop)
branch (r)
true
  goal
false
  goal
";

/// A literal that names a place and what was unset there: the look tells where the place is not.
const READ_PLACE: &str = "(pks 1)
(domain (types t) (objects (t a b d)) (predicates (q t) (done)) (functions (f t))
  (action act (effects (unset (q a)) (set (done))) (knows (kf (not (q a))) (kf (done))))
  (action look (senses (sense (= (f) b))) (knows (kw (= (f) b)))))
(problem (init (kf (q (f))) (kf (not (q b)))) (goal (k (done)) (k (not (= (f) b)))))
";

const READ_PLACE_PLAN: &str = "plan depth 3
(act)
(look)
branch (= (f) b)
true
  impossible
false
  goal
";

/// Two actions set the same, one of them under a condition that holds of itself, so their order plays a part.
const SURE_CONDITION: &str = "(pks 1)
(domain (types t) (objects (t a)) (predicates (c) (r) (s) (d1) (d2)) (functions (f t))
  (action a1 (effects (when ((c)) (set (r))) (set (d1))) (knows (kf (d1))))
  (action a2 (effects (when ((= (f) (f))) (set (r))) (set (d2))) (knows (kf (d2))))
  (action look (senses (sense (s))) (knows (kw (s)))))
(problem (init (kf (not (r)))) (goal (k (d1)) (k (d2)) (k (= (f) a))))
";

const SURE_CONDITION_PLAN: &str = "plan depth 4
(a2)
(a1)
(look)
branch (s)
true
  goal
false
  goal
";

/// What the action makes so is a condition of its next time, so that three times are not two.
const THREE_TIMES: &str = "(pks 1)
(domain (predicates (p) (r) (s) (v) (g))
  (action act (effects (when ((p)) (set (r))) (when ((r)) (set (s))) (when ((s)) (set (v)))))
  (action fin (pre (k (not (p)))) (effects (set (g))) (knows (kf (g))))
  (action fix (pre (k (v))) (effects (set (g))) (knows (kf (g))))
  (action look (senses (sense (v))) (knows (kw (v)))))
(problem (goal (k (g))))
";

const THREE_TIMES_PLAN: &str = "plan depth 6
(act)
(act)
(act)
(look)
branch (v)
true
  (fix)
  goal
false
  (fin)
  goal
";

/// An aim of some moment that the action touches: it was met before the first step, or is met at the end.
const TOUCHED_AIM: &str = "(pks 2)
(domain (types t) (objects (t a b)) (predicates (q t) (done)) (functions (f t))
  (action act (effects (assign (f) b) (set (done))) (knows (kf (= (f) b)) (kf (done))))
  (action look (senses (sense (q a))) (knows (kw (q a))))
  (action put (pre (k (not (q a)))) (effects (set (q (f)))) (knows (kf (q (f))))))
(problem (init (kf (= (f) a))) (goal (k (done)) (once (k (q (f))))))
";

const TOUCHED_AIM_PLAN: &str = "plan depth 4
(act)
(look)
branch (q a)
true
  goal
false
  (put)
  goal
";

/// A region is lost where the place that its literal names is assigned, so the order of the two actions plays a part.
const NAMED_PLACE: &str = "(pks 1)
(domain (types t) (objects (t a b d)) (predicates (q t) (c) (r) (s) (d1) (d2)) (functions (f t))
  (action a2 (effects (when ((c)) (assign (f) b)) (set (d2))) (knows (kf (d2))))
  (action a1 (effects (when ((not (q a))) (set (r))) (set (d1))) (knows (kf (d1))))
  (action look (senses (sense (s))) (knows (kw (s)))))
(problem (init (lcw (q _)) (kf (q (f))) (kf (not (= (f) a)))) (goal (k (d1)) (k (d2)) (k (r))))
";

const NAMED_PLACE_PLAN: &str = "plan depth 4
(a1)
(a2)
(look)
branch (s)
true
  goal
false
  goal
";

/// Two actions write what one literal names; no order of them helps.
const NAMED_BY_BOTH: &str = "(pks 1)
(domain (types t) (objects (t a b d)) (predicates (q t) (c) (y) (done)) (functions (f t))
  (action act (effects (when ((c)) (set (q a)))))
  (action see (senses (sense (q (f)))) (knows (kw (q (f)))))
  (action move (effects (assign (f) d) (set (done))) (knows (kf (= (f) d)) (kf (done))))
  (action look (senses (sense (y))) (knows (kw (y)))))
(problem (init (kx (= (f) b) (y))) (goal (k (done)) (kw (y)) (kw (q b))))
";

const UNDECIDED: &[Answered] = &[
    Answered("plan 2", WIPED, NoPlan, "none to depth 2\n"),
    Answered("plan 3", WIPED, Done, WIPED_PLAN),
    Answered("plan 2", NEVER_ASSIGNED, NoPlan, "none to depth 2\n"),
    Answered("plan 3", NEVER_ASSIGNED, Done, NEVER_ASSIGNED_PLAN),
    Answered("plan 4", HELD_CONDITION, NoPlan, "none to depth 4\n"),
    Answered("plan 5", HELD_CONDITION, Done, HELD_CONDITION_PLAN),
    Answered("plan 2", READ_PLACE, NoPlan, "none to depth 2\n"),
    Answered("plan 3", READ_PLACE, Done, READ_PLACE_PLAN),
    Answered("plan 3", SURE_CONDITION, NoPlan, "none to depth 3\n"),
    Answered("plan 4", SURE_CONDITION, Done, SURE_CONDITION_PLAN),
    Answered("plan 5", THREE_TIMES, NoPlan, "none to depth 5\n"),
    Answered("plan 6", THREE_TIMES, Done, THREE_TIMES_PLAN),
    Answered("plan 3", TOUCHED_AIM, NoPlan, "none to depth 3\n"),
    Answered("plan 4", TOUCHED_AIM, Done, TOUCHED_AIM_PLAN),
    Answered("plan 3", NAMED_PLACE, NoPlan, "none to depth 3\n"),
    Answered("plan 4", NAMED_PLACE, Done, NAMED_PLACE_PLAN),
    Answered("plan 6", NAMED_BY_BOTH, NoPlan, "none to depth 6\n"),
];

#[test]
fn what_undecided_steps_tell_is_kept(rt: HostRuntime) -> Result<(), Fail> {
    all_so(rt.alloc(), UNDECIDED)
}
