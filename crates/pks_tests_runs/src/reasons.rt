//! Explanations, for each reason some that need it: a maker that gives up where a reason is needed answers want of memory.
use crate::rows::{Check, all_so};
use crate::runs::{Ails, NOTHING, run_over};
use pks_run::Status;
use std::alloc::Global;
use std::test::Fail;

/// Words, a file, and parts of lines that the explanation must have, which `docs/REASONS.md` leaves no other way to.
struct Reasoned(&'static str, &'static str, &'static [&'static str]);

/// Whether the part stands in the text.
fn stands_in(part: &[u8], text: &[u8]) -> bool {
    for from in 0..text.len() {
        if text[from..].starts_with(part) {
            return true;
        }
    }
    false
}

impl Check for Reasoned {
    fn is_so(&self, alloc: Global) -> Result<bool, Fail> {
        let ails = Ails {
            room: 2_000,
            ..NOTHING
        };
        let (status, text) = run_over(alloc, self.0, self.1.as_bytes(), ails)?;
        let mut all = status == Status::Done;
        for part in self.2 {
            all = all && stands_in(part.as_bytes(), text.as_slice());
        }
        Ok(all)
    }
}

/// A known member of a group, and one before it that is denied.
const MEMBER_BEFORE: &str = "(pks 1)
(domain (types t) (objects (t a b c)) (predicates (p t)))
(problem (init (kx (p a) (p b) (p c)) (kf (p b))) (goal (k (not (p a)))))
";

/// A known member of a group, and one behind it that is denied.
const MEMBER_BEHIND: &str = "(pks 1)
(domain (types t) (objects (t a b c)) (predicates (p t)))
(problem (init (kx (p a) (p b) (p c)) (kf (p b))) (goal (k (not (p c)))))
";

/// A group of which all but the middle member are denied.
const LAST_MEMBER: &str = "(pks 1)
(domain (predicates (p) (q) (r)))
(problem (init (kx (p) (q) (r)) (kf (not (p))) (kf (not (r)))) (goal (k (q))))
";

/// Two places of which one is looked into: each side of the branch owes where the thing is.
const TWO_SIDES: &str = "(pks 1)
(domain (types t) (objects (t a b)) (predicates (at t) (got))
  (action look (senses (sense (at a))) (knows (kw (at a))))
  (action grab (params (?x t)) (pre (k (at ?x))) (effects (set (got))) (knows (kf (got)))))
(problem (init (kx (at a) (at b))) (goal (k (got))))
";

/// A place with three objects of which two are excluded.
const LAST_OBJECT: &str = "(pks 1)
(domain (types t) (objects (t a b c)) (functions (f t)))
(problem (init (kf (not (= (f) a))) (kf (not (= (f) c)))) (goal (k (= (f) b))))
";

/// A place of which an object is excluded at the start, and another by a look.
const LAST_OBJECT_SEEN: &str = "(pks 1)
(domain (types t) (objects (t a b c)) (predicates (q)) (functions (f t))
  (action look (senses (sense (= (f) a))) (knows (kw (= (f) a))))
  (action open (params (?x t)) (pre (k (= (f) ?x))) (effects (set (q))) (knows (kf (q)))))
(problem (init (kf (not (= (f) c)))) (goal (k (q))))
";

/// A fact of an object, asked of the term whose value it is.
const VALUE_PUT_IN: &str = "(pks 1)
(domain (types t) (objects (t a b)) (predicates (p t)) (functions (f t)))
(problem (init (kf (= (f) a)) (kf (p a))) (goal (k (p (f)))))
";

/// A term with a value, which is no other object.
const ANOTHER_VALUE: &str = "(pks 1)
(domain (types t) (objects (t a b)) (predicates (p t)) (functions (f t)))
(problem (init (kf (= (f) a))) (goal (k (not (= (f) b)))))
";

/// What is evident of objects.
const EVIDENT: &str = "(pks 1)
(domain (types t) (objects (t a b)) (functions (f t)))
(problem (init (kf (= (f) a))) (goal (k (= a a)) (k (not (= a b)))))
";

/// A region with one atom, and another one denied.
const REGION: &str = "(pks 1)
(domain (types t) (objects (t a b)) (predicates (p t)))
(problem (init (kf (p a)) (lcw (p _))) (goal (k (not (p b)))))
";

/// A region whose term gets its value by two equations.
const REGION_BY_EQUATIONS: &str = "(pks 1)
(domain (types t) (objects (t a b)) (predicates (p t)) (functions (f t) (h t)))
(problem (init (kf (= (f) (h))) (kf (= (h) a)) (lcw (p (f)))) (goal (k (not (p (h))))))
";

/// A region with the atom of a place, and another one denied, since the place is known to be another object.
const REGION_AT_A_PLACE: &str = "(pks 1)
(domain (types t) (objects (t a b c)) (predicates (p t)) (functions (f t)))
(problem (init (kf (p (f))) (kf (not (= (f) b))) (lcw (p _))) (goal (k (not (p b)))))
";

/// A region with the atom of a place, of which a group tells what it isn't: so an object is shut out of the region, and by that of a
/// further group.
const SHUT_OUT_BY_A_GROUP: &str = "(pks 1)
(domain (types t) (objects (t a b c)) (predicates (p t) (q) (r)) (functions (f t)))
(problem (init (kf (p (f))) (lcw (p _)) (kx (p c) (r)) (kx (= (f) c) (q)) (kf (q))) (goal (k (r))))
";

/// An empty region of atoms of three arguments, and one with a place at the second and at the third.
const REGION_AT_THE_THIRD: &str = "(pks 1)
(domain (types t) (objects (t a b)) (predicates (p t t t)) (functions (f t)))
(problem (init (kf (= (f) a)) (lcw (p b _ a))) (goal (k (not (p b (f) (f))))))
";

/// A region to which an action brings an atom.
const REGION_GROWS: &str = "(pks 1)
(domain (types t) (objects (t a b c)) (predicates (p t) (q))
  (action put (effects (set (p b)) (set (q))) (knows (kf (q)) (kf (p b)))))
(problem (init (kf (p a)) (lcw (p _))) (goal (k (q)) (k (not (p c)))))
";

/// An empty region to which an action brings the atom of its argument.
const EMPTY_REGION_GROWS: &str = "(pks 1)
(domain (types t) (objects (t a b c)) (predicates (p t) (done))
  (action put (params (?x t)) (pre (k (not (= ?x c)))) (effects (set (p ?x)) (set (done))) (knows (kf (done)))))
(problem (init (lcw (p _))) (goal (k (done)) (k (not (p c)))))
";

/// A region that an action clears.
const CLEARED: &str = "(pks 1)
(domain (types tub) (objects (tub b1 b2)) (predicates (full tub))
  (action empty-all (effects (clear (full _))) (knows (lcw (full _)))))
(problem (goal (k (not (full b2)))))
";

/// A region that an action clears at its argument.
const CLEARED_AT_AN_ARGUMENT: &str = "(pks 1)
(domain (types t) (objects (t a b)) (predicates (in t t) (done))
  (action empty (params (?x t)) (effects (clear (in ?x _)) (set (done))) (knows (lcw (in ?x _)) (kf (done)))))
(problem (goal (k (not (in b a))) (k (done))))
";

/// Whether something was poison shows by what it did: on one side an effect cannot have fired, on the other it must have.
const POURED: &str = "(pks 1)
(domain (predicates (alive) (poison) (safe))
  (action pour (effects (when ((poison)) (unset (alive)))))
  (action look (senses (sense (alive))) (knows (kw (alive))))
  (action praise (pre (k (not (poison)))) (effects (set (safe))) (knows (kf (safe))))
  (action warn (pre (k (poison))) (effects (set (safe))) (knows (kf (safe)))))
(problem (init (kf (alive))) (goal (k (safe))))
";

/// A fact that an effect would undo whose condition is known not to hold.
const KEPT_BY_A_CONDITION: &str = "(pks 1)
(domain (predicates (p) (q) (r))
  (action go (effects (when ((r)) (unset (p))) (set (q))) (knows (kf (q)))))
(problem (init (kf (p)) (kf (not (r)))) (goal (k (q)) (k (p))))
";

/// A fact that an effect would undo at a term that is known to be another object.
const KEPT_BY_A_DIFFERENCE: &str = "(pks 1)
(domain (types t) (objects (t a b)) (predicates (p t) (q)) (functions (f t))
  (action wipe (effects (unset (p (f))) (set (q))) (knows (kf (q)))))
(problem (init (kf (p a)) (kf (not (= (f) a)))) (goal (k (q)) (k (p a))))
";

/// A fact that two actions and the goal ask for, at three moments.
const TWICE: &str = "(pks 1)
(domain (predicates (p) (q) (r))
  (action one (pre (k (p))) (effects (set (q))) (knows (kf (q))))
  (action two (pre (k (p)) (k (q))) (effects (set (r))) (knows (kf (r)))))
(problem (init (kf (p))) (goal (k (r)) (k (p))))
";

/// A lamp that a broken wire puts out: seen lit, the wire isn't broken; seen dark, it is.
const DIMMED: &str = "(pks 1)
(domain (predicates (broken) (lit) (reported))
  (action touch (effects (when ((broken)) (unset (lit)))))
  (action look (senses (sense (lit))) (knows (kw (lit))))
  (action praise (pre (k (not (broken)))) (effects (set (reported))) (knows (kf (reported))))
  (action complain (pre (k (broken))) (effects (set (reported))) (knows (kf (reported)))))
(problem (init (kf (lit))) (goal (k (reported))))
";

const BY_CLOSING: &[Reasoned] = &[
    Reasoned(
        "explain 0",
        MEMBER_BEFORE,
        &["moment 0 (not (p a)) others by"],
    ),
    Reasoned(
        "explain 0",
        MEMBER_BEHIND,
        &["moment 0 (not (p c)) others by"],
    ),
    Reasoned("explain 0", LAST_MEMBER, &["moment 0 (q) only by"]),
    Reasoned(
        "explain 3",
        TWO_SIDES,
        &["moment 1 (at a) side 1", "moment 1 (at b) only by"],
    ),
    Reasoned("explain 0", LAST_OBJECT, &["moment 0 (= (f) b) range by"]),
    Reasoned(
        "explain 3",
        LAST_OBJECT_SEEN,
        &["moment 1 (= (f) a) side 1", "moment 1 (= (f) b) range by"],
    ),
    Reasoned("explain 0", VALUE_PUT_IN, &["moment 0 (p (f)) swap by"]),
    Reasoned(
        "explain 0",
        ANOTHER_VALUE,
        &[
            "moment 0 (not (= b a)) same",
            "moment 0 (not (= (f) b)) swap by",
        ],
    ),
    Reasoned(
        "explain 0",
        EVIDENT,
        &["moment 0 (= a a) same", "moment 0 (not (= b a)) same"],
    ),
];

#[test]
fn what_closing_finds_is_explained(rt: HostRuntime) -> Result<(), Fail> {
    all_so(rt.alloc(), BY_CLOSING)
}

const BY_REGIONS: &[Reasoned] = &[
    Reasoned("explain 0", REGION, &["moment 0 (not (p b)) closed by"]),
    Reasoned(
        "explain 0",
        REGION_AT_A_PLACE,
        &[
            "moment 0 (not (= (f) b)) given 2",
            "moment 0 (not (p b)) closed by",
        ],
    ),
    Reasoned(
        "explain 0",
        SHUT_OUT_BY_A_GROUP,
        &["moment 0 (not (p c)) closed by", "moment 0 (r) only by"],
    ),
    Reasoned(
        "explain 0",
        REGION_AT_THE_THIRD,
        &[
            "moment 0 (not (p b (f) a)) closed by",
            "moment 0 (not (p b (f) (f))) swap by",
        ],
    ),
    Reasoned(
        "explain 0",
        REGION_BY_EQUATIONS,
        &[
            "moment 0 (= (f) a) swap by",
            "moment 0 (lcw (p a)) swap by",
            "moment 0 (not (p a)) closed by",
            "moment 0 (not (p (h))) swap by",
        ],
    ),
    Reasoned(
        "explain 1",
        REGION_GROWS,
        &[
            "moment 1 (lcw (p _) (p a) (p b)) grow by",
            "moment 1 (not (p c)) closed by",
        ],
    ),
    Reasoned(
        "explain 1",
        EMPTY_REGION_GROWS,
        &[
            "moment 1 (lcw (p _) (p a)) grow by",
            "moment 1 (not (p c)) closed by",
        ],
    ),
    Reasoned(
        "explain 1",
        CLEARED,
        &[
            "moment 1 (lcw (full _)) clear",
            "moment 1 (not (full b2)) closed by",
        ],
    ),
    Reasoned(
        "explain 1",
        CLEARED_AT_AN_ARGUMENT,
        &[
            "moment 1 (lcw (in b _)) clear",
            "moment 1 (not (in b a)) closed by",
        ],
    ),
];

#[test]
fn what_regions_tell_is_explained(rt: HostRuntime) -> Result<(), Fail> {
    all_so(rt.alloc(), BY_REGIONS)
}

/// An effect of two conditions of which one is known: where it didn't fire, the other is false, and where it did, true.
const OPENED: &str = "(pks 1)
(domain (predicates (alive) (poison) (open) (done))
  (action pour (effects (when ((open) (poison)) (unset (alive)))))
  (action look (senses (sense (alive))) (knows (kw (alive))))
  (action drink (pre (k (not (poison)))) (effects (set (done))) (knows (kf (done))))
  (action tell (pre (k (poison))) (effects (set (done))) (knows (kf (done)))))
(problem (init (kf (alive)) (kf (open))) (goal (k (done))))
";

/// Two effects that kill, of which the first is known not to fire: so the second must have.
const NO_FROST: &str = "(pks 1)
(domain (predicates (alive) (poison) (frost) (done))
  (action pour (effects (when ((frost)) (unset (alive))) (when ((poison)) (unset (alive)))))
  (action look (senses (sense (alive))) (knows (kw (alive))))
  (action drink (pre (k (not (poison)))) (effects (set (done))) (knows (kf (done))))
  (action tell (pre (k (poison))) (effects (set (done))) (knows (kf (done)))))
(problem (init (kf (alive)) (kf (not (frost)))) (goal (k (done))))
";

/// One action assigns a place twice, the second time under a condition that nobody knows: what was assigned first may be undone.
const ASSIGNED_TWICE: &str = "(pks 1)
(domain (types t) (objects (t a b c)) (predicates (w) (q t) (done)) (functions (f t))
  (action turn (effects (assign (f) a) (when ((w)) (assign (f) b)) (set (done))) (knows (kf (done))))
  (action read (senses (sense-value (f))) (knows (kv (f)))))
(problem (init (kf (q a)) (kf (q b)) (kf (q c))) (goal (k (done)) (k (q (f)))))
";

/// A group of which a member has a place whose value changes. With the value put in it is kept, and so tells of the other member.
const SWAPPED_GROUP: &str = "(pks 1)
(domain (types t) (objects (t a b)) (predicates (p t) (q) (told)) (functions (f t))
  (action turn (effects (assign (f) b)) (knows (kf (= (f) b))))
  (action look (pre (k (= (f) b))) (senses (sense (p a))) (knows (kw (p a))))
  (action say (pre (k (q))) (effects (set (told))) (knows (kf (told))))
  (action hush (pre (k (p a))) (effects (set (told))) (knows (kf (told)))))
(problem (init (kf (= (f) a)) (kx (p (f)) (q))) (goal (k (told))))
";

const BY_ACTIONS: &[Reasoned] = &[
    Reasoned(
        "explain 4",
        SWAPPED_GROUP,
        &[
            "moment 0 (kx (p a) (q)) swap by",
            "moment 2 (kx (p a) (q)) keep by",
            "moment 2 (q) only by",
        ],
    ),
    Reasoned(
        "explain 3",
        ASSIGNED_TWICE,
        &["moment 2 (= (f) b) side 1", "moment 2 (q (f)) swap by"],
    ),
    Reasoned(
        "explain 4",
        POURED,
        &[
            "moment 0 (not (poison)) cannot by",
            "moment 0 (poison) must by",
            "moment 1 (alive) back by",
            "moment 1 (not (alive)) back by",
            "moment 2 (poison) keep by",
        ],
    ),
    Reasoned("explain 1", KEPT_BY_A_CONDITION, &["moment 1 (p) keep by"]),
    Reasoned(
        "explain 1",
        KEPT_BY_A_DIFFERENCE,
        &["moment 1 (p a) keep by"],
    ),
    Reasoned(
        "explain 2",
        TWICE,
        &[
            "moment 0 (p) given 1",
            "moment 1 (p) keep by",
            "moment 2 (p) keep by",
            "moment 1 (q) effect",
            "moment 2 (r) effect",
        ],
    ),
    Reasoned(
        "explain 4",
        DIMMED,
        &[
            "moment 0 (not (broken)) cannot by",
            "moment 0 (broken) must by",
        ],
    ),
    Reasoned(
        "explain 4",
        OPENED,
        &[
            "moment 0 (open) given 2",
            "moment 0 (not (poison)) cannot by",
            "moment 0 (poison) must by",
        ],
    ),
    Reasoned(
        "explain 4",
        NO_FROST,
        &[
            "moment 0 (not (frost)) given 2",
            "moment 0 (not (poison)) cannot by",
            "moment 0 (poison) must by",
        ],
    ),
];

#[test]
fn what_actions_keep_and_tell_is_explained(rt: HostRuntime) -> Result<(), Fail> {
    all_so(rt.alloc(), BY_ACTIONS)
}

/// A light that has two lines at one moment, by the switch and kept from before. What keeps it further on rests on the first, which then
/// stands for both: a line that nothing cites would not be accepted.
const TWO_LINES: &str = "(pks 1)
(domain (types t) (objects (t a b c d e f g h i j k)) (predicates (p t) (wired) (charged) (lit) (hot) (broken) (told))
  (action switch (effects (when ((wired)) (set (lit)))) (knows (if ((k (wired))) (kf (lit)))))
  (action test (pre (k (lit)))
    (effects (when ((lit) (broken)) (set (hot))) (when ((broken)) (unset (lit))) (when ((charged)) (set (lit))))
    (senses (sense (hot))) (knows (kw (hot)) (if ((k (charged))) (kf (lit)))))
  (action warn (pre (k (hot))) (effects (set (told))) (knows (kf (told))))
  (action praise (pre (k (not (hot))) (k (lit))) (effects (set (told))) (knows (kf (told)))))
(problem (init (lcw (p _)) (kx (lit) (hot)) (kx (wired) (p a) (p b) (p c))
    (kx (charged) (p a) (p b) (p c) (p d) (p e) (p f) (p g) (p h) (p i) (p j) (p k)))
  (goal (k (told))))
";

const BY_FEWEST_LINES: &[Reasoned] = &[Reasoned(
    "explain 4",
    TWO_LINES,
    &[
        "\n7 moment 1 (lit) effect by 6\n8 moment 2 (not (hot)) side 1\n",
        "\n9 moment 1 (not (broken)) cannot by 7 8\n10 moment 2 (lit) keep by 7 9\n",
    ],
)];

#[test]
fn a_fact_with_two_lines_is_told_once(rt: HostRuntime) -> Result<(), Fail> {
    all_so(rt.alloc(), BY_FEWEST_LINES)
}
