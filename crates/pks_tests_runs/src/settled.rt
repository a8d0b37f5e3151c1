//! Files whose answer would be another one if the search let go of too much of the past, and files that it ends with in time
//! since it lets go of some, since it keeps a table of failures, and since it doesn't look where nothing can be.
use crate::rows::all_so;
use crate::runs::Answered;
use pks_run::Status::{Done, NoPlan};
use std::test::Fail;

/// Whether the effect fired isn't known when it is done: a look at its condition tells it later, and so what the region has.
const OPEN_CONDITION: &str = "(pks 1)
(domain (types t) (objects (t a b)) (predicates (q t) (c) (done))
  (action act (effects (when ((c)) (set (q a))) (set (done))) (knows (kf (done))))
  (action see (pre (k (done))) (senses (sense (c))) (knows (kw (c))))
  (action look (pre (k (not (c)))) (senses (sense (q a))) (knows (kw (q a))))
  (action fix (pre (k (c))) (effects (unset (q a))) (knows (kf (not (q a))))))
(problem (init (lcw (q _))) (goal (k (done)) (k (not (q a)))))
";

const OPEN_CONDITION_PLAN: &str = "plan depth 5
(act)
(see)
branch (c)
true
  (fix)
  goal
false
  (look)
  branch (q a)
  true
    impossible
  false
    goal
";

/// What a place was isn't known when it is assigned, and is learnt later.
const UNKNOWN_PLACE: &str = "(pks 1)
(domain (types t) (objects (t a b d)) (predicates (q t)) (functions (h t) (f t))
  (action act (effects (assign (f) a)) (knows (kf (= (f) a)))))
(problem (init (kf (q (f))) (kf (= (f) (h))) (kv (h))) (goal (k (= (f) a)) (k (q (h)))))
";

const UNKNOWN_PLACE_PLAN: &str = "plan depth 2
(act)
cases (h)
case a
  goal
case b
  goal
case d
  goal
";

/// A condition that is so by a region alone doesn't stay so when the region is lost.
const LOST_REGION: &str = "(pks 1)
(domain (types t) (objects (t a b d)) (predicates (q t) (p) (r) (done)) (functions (f t))
  (action act (effects (when ((not (q a))) (set (p)))) (knows (if ((k (not (q a)))) (kf (p)))))
  (action look (senses (sense (r))) (knows (kw (r))))
  (action drop (effects (set (q (f))) (assign (f) b) (set (done))) (knows (kf (done)))))
(problem (init (lcw (q _)) (kf (not (p))) (kf (not (= (f) a)))) (goal (k (done)) (k (p)) (k (not (q a)))))
";

const LOST_REGION_PLAN: &str = "plan depth 4
(act)
(look)
(drop)
branch (r)
true
  goal
false
  goal
";

/// One place may have been assigned twice, and the values that it was given aren't known: it is learnt later that they are
/// equal, and that can't be.
const TWO_VALUES: &str = "(pks 1)
(domain (types t) (objects (t a b d)) (predicates (c) (done)) (functions (g t) (h t) (f t))
  (action act
    (effects (when ((c)) (assign (f) (g))) (assign (f) (h)) (set (done)))
    (knows (kf (= (f) (h))) (kf (done))))
  (action look (senses (sense (= (f) (g)))) (knows (kw (= (f) (g))))))
(problem
  (init (kf (= (f) a)) (kf (not (c))) (kf (not (= (g) (h)))) (kf (not (= (g) a))))
  (goal (k (done)) (k (not (= (f) (g))))))
";

const TWO_VALUES_PLAN: &str = "plan depth 3
(act)
(look)
branch (= (f) (g))
true
  impossible
false
  goal
";

/// Ten lamps, each told apart by its place: 3,628,800 orders in which to light them, and 1,024 ways in which they may be lit. The goal
/// asks for what no action tells. It asks for no literal, so no bound is counted.
const LAMPS: &str = "(pks 1)
(domain (types lamp) (objects (lamp a b c d e f g h i j)) (predicates (lit lamp) (left lamp lamp) (dawn))
  (action light (params (?l lamp)) (effects (set (lit ?l))) (knows (kf (lit ?l)))))
(problem
  (init (kf (left a b)) (kf (left b c)) (kf (left c d)) (kf (left d e)) (kf (left e f)) (kf (left f g))
    (kf (left g h)) (kf (left h i)) (kf (left i j)) (kf (not (lit a))) (kf (not (lit b))) (kf (not (lit c)))
    (kf (not (lit d))) (kf (not (lit e))) (kf (not (lit f))) (kf (not (lit g))) (kf (not (lit h)))
    (kf (not (lit i))) (kf (not (lit j))))
  (goal (kw (dawn))))
";

/// Eight lamps and a lamplighter, of whom it isn't known where he is at the start.
const LAMPLIGHTER: &str = "(pks 1)
(domain (types lamp) (objects (lamp a b c d e f g h)) (predicates (lit lamp) (left lamp lamp) (dawn)) (functions (at lamp))
  (action light (params (?l lamp)) (effects (set (lit ?l)) (assign (at) ?l)) (knows (kf (lit ?l)) (kf (= (at) ?l)))))
(problem
  (init (kf (left a b)) (kf (left b c)) (kf (left c d)) (kf (left d e)) (kf (left e f)) (kf (left f g))
    (kf (left g h)) (kf (not (lit a))) (kf (not (lit b))) (kf (not (lit c))) (kf (not (lit d)))
    (kf (not (lit e))) (kf (not (lit f))) (kf (not (lit g))) (kf (not (lit h))))
  (goal (kw (dawn))))
";

/// Whether it is full is never known, so the past stays open; but the 720 orders in which the gauges may be read come to the
/// same.
const GAUGES: &str = "(pks 1)
(domain (types gauge) (objects (gauge a b c d e f)) (predicates (high gauge) (hot) (full) (lit))
  (action fire (effects (when ((hot)) (set (full))) (set (lit))) (knows (kf (lit))))
  (action read (params (?g gauge)) (pre (k (lit))) (senses (sense (high ?g))) (knows (kw (high ?g)))))
(problem
  (init (kf (not (lit))))
  (goal (kw (high a)) (kw (high b)) (kw (high c)) (kw (high d)) (kw (high e)) (kw (high f))))
";

const GAUGES_PLAN: &str = "plan depth 7
(fire)
(read a)
(read b)
(read c)
(read d)
(read e)
(read f)
goal
";

/// Eleven formulas to branch on, in any order, and a goal that none of them tells. It asks for no literal, so no bound is counted.
const ELEVEN: &str = "(pks 1)
(domain (predicates (p1) (p2) (p3) (p4) (p5) (p6) (p7) (p8) (p9) (p10) (p11) (g)))
(problem (init (kw (p1)) (kw (p2)) (kw (p3)) (kw (p4)) (kw (p5)) (kw (p6))
  (kw (p7)) (kw (p8)) (kw (p9)) (kw (p10)) (kw (p11))) (goal (kw (g))))
";

/// Twenty lamps, each told apart by its place, and a goal that no action makes true.
const NO_LAMP: &str = "(pks 1)
(domain (types lamp) (objects (lamp a b c d e f g h i j k l m n o p q r s t))
  (predicates (lit lamp) (left lamp lamp) (dawn))
  (action light (params (?l lamp)) (effects (set (lit ?l))) (knows (kf (lit ?l)))))
(problem
  (init (kf (left a b)) (kf (left b c)) (kf (left c d)) (kf (left d e)) (kf (left e f)) (kf (left f g))
    (kf (left g h)) (kf (left h i)) (kf (left i j)) (kf (left j k)) (kf (left k l)) (kf (left l m))
    (kf (left m n)) (kf (left n o)) (kf (left o p)) (kf (left p q)) (kf (left q r))
    (kf (left r s)) (kf (left s t)))
  (goal (k (dawn))))
";

/// To remove a file wherever it is, of four directories, and to be where one was. Where one was is known at the start.
const LEAVE_AS_FOUND: &str = "(pks 2)
(domain (types dir file) (objects (dir d1 d2 d3 d4) (file old)) (predicates (in file dir)) (functions (pwd dir))
  (action cd (params (?d dir)) (effects (assign (pwd) ?d)) (knows (kf (= (pwd) ?d)) (kv (pwd))))
  (action ls (params (?f file)) (senses (sense (in ?f (pwd)))) (knows (kw (in ?f (pwd)))))
  (action rm (params (?f file)) (pre (k (in ?f (pwd)))) (effects (unset (in ?f (pwd)))) (knows (kf (not (in ?f (pwd)))))))
(problem
  (init (kf (= (pwd) d1)) (kx (in old d1) (in old d2) (in old d3) (in old d4)))
  (goal (k (not (in old d1))) (k (not (in old d2))) (k (not (in old d3))) (k (not (in old d4)))
    (k (= (pwd) d1)) (at-start (k (= (pwd) d1)))))
";

const LEAVE_AS_FOUND_PLAN: &str = "plan depth 11
(cd d2)
(ls old)
(cd d3)
(ls old)
(cd d4)
(ls old)
branch (in old d2)
true
  (cd d2)
  (rm old)
  (cd d1)
  goal
false
  branch (in old d3)
  true
    (cd d3)
    (rm old)
    (cd d1)
    goal
  false
    branch (in old d4)
    true
      (rm old)
      (cd d1)
      goal
    false
      (cd d1)
      (rm old)
      goal
";

const KEPT: &[Answered] = &[
    Answered("plan 4", OPEN_CONDITION, NoPlan, "none to depth 4\n"),
    Answered("plan 5", OPEN_CONDITION, Done, OPEN_CONDITION_PLAN),
    Answered("plan 1", UNKNOWN_PLACE, NoPlan, "none to depth 1\n"),
    Answered("plan 2", UNKNOWN_PLACE, Done, UNKNOWN_PLACE_PLAN),
    Answered("plan 3", LOST_REGION, NoPlan, "none to depth 3\n"),
    Answered("plan 4", LOST_REGION, Done, LOST_REGION_PLAN),
    Answered("plan 2", TWO_VALUES, NoPlan, "none to depth 2\n"),
    Answered("plan 3", TWO_VALUES, Done, TWO_VALUES_PLAN),
];

#[test]
fn what_the_past_may_tell_is_kept(rt: HostRuntime) -> Result<(), Fail> {
    all_so(rt.alloc(), KEPT)
}

const SAME_ORDERS: &[Answered] = &[
    Answered("plan 10", LAMPS, NoPlan, "none to depth 10\n"),
    Answered("plan 8", LAMPLIGHTER, NoPlan, "none to depth 8\n"),
    Answered("plan 7", GAUGES, Done, GAUGES_PLAN),
];

/// The lamps and the lamplighter take about a second of a processor each; where nothing of the past is let go of, several minutes.
#[test]
fn orders_that_come_to_the_same(rt: HostRuntime) -> Result<(), Fail> {
    all_so(rt.alloc(), SAME_ORDERS)
}

const MET_AT_START: &[Answered] = &[Answered("plan 16", LEAVE_AS_FOUND, Done, LEAVE_AS_FOUND_PLAN)];

#[test]
fn an_aim_that_is_met_keeps_no_past(rt: HostRuntime) -> Result<(), Fail> {
    all_so(rt.alloc(), MET_AT_START)
}

/// Two aims of the start are met on the way, the one before the other or after it, and each room is shut where it wasn't.
const SHUT_BEHIND: &str = "(pks 2)
(domain (types room) (objects (room a b)) (predicates (closed room))
  (action look (params (?r room)) (senses (sense (closed ?r))) (knows (kw (closed ?r))))
  (action shut (params (?r room)) (effects (set (closed ?r))) (knows (kf (closed ?r)))))
(problem (init) (goal (at-start (kw (closed a))) (at-start (kw (closed b))) (k (closed a)) (k (closed b))))
";

const SHUT_BEHIND_PLAN: &str = "plan depth 6
(look a)
(look b)
branch (closed a)
true
  branch (closed b)
  true
    goal
  false
    (shut b)
    goal
false
  (shut a)
  branch (closed b)
  true
    goal
  false
    (shut b)
    goal
";

/// Each of three rooms is to be shut once, and none at the end, while no two may be shut at a time.
const SHUT_IN_TURN: &str = "(pks 2)
(domain (types room) (objects (room a b c)) (predicates (closed room) (locked))
  (action shut (params (?r room)) (pre (k (not (closed a))) (k (not (closed b))) (k (not (closed c)))) (effects (set (closed ?r))) (knows (kf (closed ?r))))
  (action open (params (?r room)) (pre (k (closed ?r))) (effects (unset (closed ?r))) (knows (kf (not (closed ?r)))))
  (action look (senses (sense (locked))) (knows (kw (locked)))))
(problem (init (kf (not (closed a))) (kf (not (closed b))) (kf (not (closed c))))
  (goal (once (k (closed a))) (once (k (closed b))) (once (k (closed c))) (k (not (closed a))) (k (not (closed b))) (k (not (closed c)))))
";

const SHUT_IN_TURN_PLAN: &str = "plan depth 6
(shut a)
(open a)
(shut b)
(open b)
(shut c)
(open c)
goal
";

/// The same of two rooms of which one is to be shut in the end and the other open, so that they aren't alike.
const APART_BEHIND: &str = "(pks 2)
(domain (types room) (objects (room a b)) (predicates (closed room))
  (action look (params (?r room)) (senses (sense (closed ?r))) (knows (kw (closed ?r))))
  (action shut (params (?r room)) (effects (set (closed ?r))) (knows (kf (closed ?r))))
  (action open (params (?r room)) (effects (unset (closed ?r))) (knows (kf (not (closed ?r))))))
(problem (init) (goal (at-start (kw (closed a))) (at-start (kw (closed b))) (k (closed a)) (k (not (closed b)))))
";

const APART_BEHIND_PLAN: &str = "plan depth 6
(look a)
(look b)
branch (closed a)
true
  branch (closed b)
  true
    (open b)
    goal
  false
    goal
false
  (shut a)
  branch (closed b)
  true
    (open b)
    goal
  false
    goal
";

/// One room is to be shut once, the other open, each then as it was, and a third shut throughout.
const APART_IN_TURN: &str = "(pks 2)
(domain (types room) (objects (room a b c)) (predicates (closed room))
  (action shut (params (?r room)) (effects (set (closed ?r))) (knows (kf (closed ?r))))
  (action open (params (?r room)) (pre (k (closed ?r))) (effects (unset (closed ?r))) (knows (kf (not (closed ?r))))))
(problem (init (kf (not (closed a))) (kf (closed b)) (kf (closed c)))
  (goal (once (k (closed a))) (once (k (not (closed b)))) (always (k (closed c))) (k (not (closed a))) (k (closed b))))
";

const APART_IN_TURN_PLAN: &str = "plan depth 4
(shut a)
(open a)
(open b)
(shut b)
goal
";

const MET_ON_THE_WAY: &[Answered] = &[
    Answered("plan 5", SHUT_BEHIND, NoPlan, "none to depth 5\n"),
    Answered("plan 16", SHUT_BEHIND, Done, SHUT_BEHIND_PLAN),
    Answered("plan 5", SHUT_IN_TURN, NoPlan, "none to depth 5\n"),
    Answered("plan 16", SHUT_IN_TURN, Done, SHUT_IN_TURN_PLAN),
    Answered("plan 5", APART_BEHIND, NoPlan, "none to depth 5\n"),
    Answered("plan 16", APART_BEHIND, Done, APART_BEHIND_PLAN),
    Answered("plan 3", APART_IN_TURN, NoPlan, "none to depth 3\n"),
    Answered("plan 16", APART_IN_TURN, Done, APART_IN_TURN_PLAN),
];

#[test]
fn aims_that_are_met_on_the_way_ask_no_more(rt: HostRuntime) -> Result<(), Fail> {
    all_so(rt.alloc(), MET_ON_THE_WAY)
}

/// Whether it is lit is to be known throughout: a look behind the gust tells it of the moment before, but only once it is asked for.
const LIT_THROUGHOUT: &str = "(pks 2)
(domain (predicates (lit) (wind) (done))
  (action gust (effects (when ((wind)) (unset (lit))) (set (done))) (knows (kf (done))))
  (action look (senses (sense (lit))) (knows (kw (lit)))))
(problem (init (kf (lit))) (goal (k (done)) (always (kw (lit)))))
";

const LIT_THROUGHOUT_PLAN: &str = "plan depth 3
(gust)
(look)
branch (lit)
true
  goal
false
  goal
";

/// It is to be lit throughout, which lighting it again leaves so, and a gust may not.
const LIT_AGAIN: &str = "(pks 2)
(domain (predicates (lit) (wind) (warm) (done))
  (action light (effects (set (lit)) (set (warm))) (knows (kf (lit)) (kf (warm))))
  (action gust (pre (k (warm))) (effects (when ((wind)) (unset (lit))) (set (done))) (knows (kf (done))))
  (action feel (senses (sense (wind))) (knows (kw (wind))))
  (action shelter (effects (unset (wind))) (knows (kf (not (wind))))))
(problem (init (kf (lit))) (goal (k (done)) (always (k (lit)))))
";

const LIT_AGAIN_PLAN: &str = "plan depth 3
(light)
(shelter)
(gust)
goal
";

const MET_THROUGHOUT: &[Answered] = &[
    Answered("plan 2", LIT_THROUGHOUT, NoPlan, "none to depth 2\n"),
    Answered("plan 16", LIT_THROUGHOUT, Done, LIT_THROUGHOUT_PLAN),
    Answered("plan 2", LIT_AGAIN, NoPlan, "none to depth 2\n"),
    Answered("plan 16", LIT_AGAIN, Done, LIT_AGAIN_PLAN),
];

#[test]
fn aims_that_each_moment_meets_keep_no_past(rt: HostRuntime) -> Result<(), Fail> {
    all_so(rt.alloc(), MET_THROUGHOUT)
}

/// What is asked of some moment is of a place that a step assigns: what is learnt of it later tells it of that moment.
const ONCE_THERE: &str = "(pks 2)
(domain (types t) (objects (t a b)) (predicates (q t) (done)) (functions (f t))
  (action act (effects (assign (f) b) (set (done))) (knows (kf (= (f) b)) (kf (done))))
  (action look (senses (sense (q a))) (knows (kw (q a))))
  (action put (pre (k (not (q a)))) (effects (set (q (f)))) (knows (kf (q (f))))))
(problem (init (kf (= (f) a))) (goal (k (done)) (once (k (q (f))))))
";

const ONCE_THERE_PLAN: &str = "plan depth 4
(act)
(look)
branch (q a)
true
  goal
false
  (put)
  goal
";

/// Whether it was lit at the start isn't told by lighting it, nor by a look whose answer nobody asks for.
const LIT_AT_START: &str = "(pks 2)
(domain (predicates (lit))
  (action on (effects (set (lit))) (knows (kf (lit))))
  (action look (senses (sense (lit))) (knows (kw (lit)))))
(problem (goal (k (lit)) (at-start (kw (lit)))))
";

const LIT_AT_START_PLAN: &str = "plan depth 3
(look)
branch (lit)
true
  goal
false
  (on)
  goal
";

/// After a look it is known whether it is lit, which wasn't so at the start before the branch.
const SHUT_AND_LOOK: &str = "(pks 2)
(domain (predicates (lit) (shut))
  (action shut (effects (set (shut))) (knows (kf (shut))))
  (action look (senses (sense (lit))) (knows (kw (lit)))))
(problem (goal (k (shut)) (at-start (kw (lit)))))
";

const SHUT_AND_LOOK_PLAN: &str = "plan depth 3
(shut)
(look)
branch (lit)
true
  goal
false
  goal
";

/// It is lit between two moments at which it isn't.
const LIT_ONCE: &str = "(pks 2)
(domain (predicates (lit) (shut))
  (action shut (effects (set (shut))) (knows (kf (shut))))
  (action on (effects (set (lit))) (knows (kf (lit))))
  (action off (effects (unset (lit))) (knows (kf (not (lit))))))
(problem (init (kf (not (lit)))) (goal (k (shut)) (once (k (lit))) (k (not (lit)))))
";

const LIT_ONCE_PLAN: &str = "plan depth 3
(shut)
(on)
(off)
goal
";

/// One of two lamps was lit: when both are put out before a look, nobody can tell which.
const LAMPS_OUT: &str = "(pks 2)
(domain (types lamp) (objects (lamp a b)) (predicates (lit lamp))
  (action off (params (?l lamp)) (effects (unset (lit ?l))) (knows (kf (not (lit ?l)))))
  (action look (params (?l lamp)) (senses (sense (lit ?l))) (knows (kw (lit ?l)))))
(problem (init (kx (lit a) (lit b))) (goal (k (not (lit a))) (k (not (lit b))) (at-start (kw (lit b)))))
";

const LAMPS_OUT_PLAN: &str = "plan depth 3
(look a)
branch (lit a)
true
  (off a)
  goal
false
  (off b)
  goal
";

const OVER_TIME: &[Answered] = &[
    Answered("plan 3", ONCE_THERE, NoPlan, "none to depth 3\n"),
    Answered("plan 4", ONCE_THERE, Done, ONCE_THERE_PLAN),
    Answered("plan 2", LIT_AT_START, NoPlan, "none to depth 2\n"),
    Answered("plan 3", LIT_AT_START, Done, LIT_AT_START_PLAN),
    Answered("plan 2", LAMPS_OUT, NoPlan, "none to depth 2\n"),
    Answered("plan 3", LAMPS_OUT, Done, LAMPS_OUT_PLAN),
    Answered("plan 2", SHUT_AND_LOOK, NoPlan, "none to depth 2\n"),
    Answered("plan 3", SHUT_AND_LOOK, Done, SHUT_AND_LOOK_PLAN),
    Answered("plan 2", LIT_ONCE, NoPlan, "none to depth 2\n"),
    Answered("plan 3", LIT_ONCE, Done, LIT_ONCE_PLAN),
];

#[test]
fn aims_over_time_are_answered_as_before(rt: HostRuntime) -> Result<(), Fail> {
    all_so(rt.alloc(), OVER_TIME)
}

/// No switch opens what is shut.
const SWITCHES: &str = "(pks 2)
(domain (types room) (objects (room hall study attic cellar porch)) (predicates (lit room) (shut))
  (action on (params (?r room)) (pre (not-derived (k (lit ?r)))) (effects (set (lit ?r))) (knows (kf (lit ?r))))
  (action off (params (?r room)) (pre (not-derived (k (not (lit ?r))))) (effects (unset (lit ?r))) (knows (kf (not (lit ?r))))))
(problem (init (kf (shut))) (goal (k (lit hall)) (always (k (shut))) (once (k (not (shut))))))
";

const SHUT_FOR_GOOD: &[Answered] = &[Answered("plan 16", SWITCHES, NoPlan, "none to depth 16\n")];

/// A twentieth of a second of a processor; where the past is kept, each action more takes seven times as long, at depth 8 five
/// seconds.
#[test]
fn aims_over_time_keep_little_past(rt: HostRuntime) -> Result<(), Fail> {
    all_so(rt.alloc(), SHUT_FOR_GOOD)
}

/// The same formulas, and a literal that no action makes true: here the bound tells that there is no plan.
const ELEVEN_AND_A_LITERAL: &str = "(pks 1)
(domain (predicates (p1) (p2) (p3) (p4) (p5) (p6) (p7) (p8) (p9) (p10) (p11)
  (g)))
(problem (init (kw (p1)) (kw (p2)) (kw (p3)) (kw (p4)) (kw (p5)) (kw (p6))
  (kw (p7)) (kw (p8)) (kw (p9)) (kw (p10)) (kw (p11))) (goal (k (g))))
";

const FAILED: &[Answered] = &[
    Answered("plan 11", ELEVEN, NoPlan, "none to depth 11\n"),
    Answered(
        "plan 11",
        ELEVEN_AND_A_LITERAL,
        NoPlan,
        "none to depth 11\n",
    ),
];

/// A second and a half of a processor; where the tables tell nothing, more than a minute.
#[test]
fn what_failed_is_not_searched_again(rt: HostRuntime) -> Result<(), Fail> {
    all_so(rt.alloc(), FAILED)
}

const IMPOSSIBLE: &[Answered] = &[Answered("plan 16", NO_LAMP, NoPlan, "none to depth 16\n")];

/// A hundredth of a second of a processor; where the bound rules nothing out, more than a minute.
#[test]
fn what_cannot_be_is_not_looked_for(rt: HostRuntime) -> Result<(), Fail> {
    all_so(rt.alloc(), IMPOSSIBLE)
}
