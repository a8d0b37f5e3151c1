//! The worked files, and the texts that they give.

pub const DOOR: &str = "(pks 1)
(domain (predicates (open)))
(problem (init (kf (open))) (goal (k (open))))
";

pub const DOOR_WORLD: &str = "(pks 1)
(domain (predicates (open)))
(problem (init (kf (open))) (goal (k (open))))
(world (true (open)))
";

pub const DOOR_WITHOUT_INIT: &str = "(pks 1)
(domain (predicates (open)))
(problem (goal (k (open))))
";

pub const UNCLOSED: &str = "(pks 1)
(domain (types a
";

pub const SAFE: &str = "(pks 1)
(domain
  (types num)
  (objects (num c1 c2 c3 c4 c5))
  (predicates (open))
  (functions (combo num))
  (action read (senses (sense-value (combo))) (knows (kv (combo))))
  (action dial (params (?x num))
    (effects (when ((= ?x (combo))) (set (open))))
    (knows (if ((k (= ?x (combo)))) (kf (open))))))
(problem (goal (k (open))))
";

pub const SAFE_WITHOUT_READ: &str = "(pks 1)
(domain
  (types num)
  (objects (num c1 c2 c3 c4 c5))
  (predicates (open))
  (functions (combo num))
  (action dial (params (?x num))
    (effects (when ((= ?x (combo))) (set (open))))
    (knows (if ((k (= ?x (combo)))) (kf (open))))))
(problem (goal (k (open))))
";

pub const LAWN: &str = "(pks 1)
(domain
  (predicates (alive) (poison))
  (action pour (effects (when ((poison)) (unset (alive)))))
  (action look (senses (sense (alive))) (knows (kw (alive)))))
(problem (init (kf (alive))) (goal (kw (poison))))
";

pub const LAWN_WITHOUT_INIT: &str = "(pks 1)
(domain
  (predicates (alive) (poison))
  (action pour (effects (when ((poison)) (unset (alive)))))
  (action look (senses (sense (alive))) (knows (kw (alive)))))
(problem (goal (kw (poison))))
";

pub const ALIAS: &str = "(pks 1)
(domain
  (types place thing)
  (objects (place hall den) (thing key))
  (predicates (at thing place) (done))
  (functions (where place))
  (action sweep (effects (unset (at key (where))) (set (done)))
    (knows (kf (done)))))
(problem (init (kf (at key hall))) (goal (k (done)) (k (at key hall))))
";

pub const ALIAS_NOT_HALL: &str = "(pks 1)
(domain
  (types place thing)
  (objects (place hall den) (thing key))
  (predicates (at thing place) (done))
  (functions (where place))
  (action sweep (effects (unset (at key (where))) (set (done)))
    (knows (kf (done)))))
(problem (init (kf (at key hall)) (kf (not (= (where) hall)))) (goal (k (done)) (k (at key hall))))
";

pub const NEXT: &str = "(pks 1)
(domain
  (types room)
  (objects (room r1 r2))
  (predicates (at room))
  (functions (next room))
  (action go (params (?r room)) (effects (set (at ?r)) (assign (next) r1))
    (knows (kf (at ?r)))))
(problem (init (kv (next))) (goal (k (at (next)))))
";

pub const NEXT_WITHOUT_ASSIGN: &str = "(pks 1)
(domain
  (types room)
  (objects (room r1 r2))
  (predicates (at room))
  (functions (next room))
  (action go (params (?r room)) (effects (set (at ?r)))
    (knows (kf (at ?r)))))
(problem (init (kv (next))) (goal (k (at (next)))))
";

pub const BOXES: &str = "(pks 1)
(domain
  (types box)
  (objects (box b1 b2 b3))
  (predicates (in box) (lid-off box))
  (action peek (params (?b box)) (pre (k (lid-off ?b)))
    (senses (sense (in ?b))) (knows (kw (in ?b)))))
(problem
  (init (kx (in b1) (in b2) (in b3)) (kf (lid-off b1)) (kf (lid-off b2)))
  (goal (kw (in b1)) (kw (in b2)) (kw (in b3))))
";

pub const VAULT_16: &str = "(pks 1)
(domain
  (types num)
  (objects (num c1 c2 c3 c4 c5 c6 c7 c8 c9 c10 c11 c12 c13 c14 c15 c16))
  (predicates (key num) (ajar))
  (functions (combo num))
  (action press (params (?x num)) (pre (k (= (combo) ?x)) (k (key ?x)))
    (effects (set (ajar))) (knows (kf (ajar)))))
(problem (init (kv (combo)) (kf (key c1)) (kf (key c2)) (kf (key c3)) (kf (key c4)) (kf (key c5)) (kf (key c6)) (kf (key c7)) (kf (key c8)) (kf (key c9)) (kf (key c10)) (kf (key c11)) (kf (key c12)) (kf (key c13)) (kf (key c14)) (kf (key c15)) (kf (key c16))) (goal (k (ajar))))
";

pub const VAULT_17: &str = "(pks 1)
(domain
  (types num)
  (objects (num c1 c2 c3 c4 c5 c6 c7 c8 c9 c10 c11 c12 c13 c14 c15 c16 c17))
  (predicates (key num) (ajar))
  (functions (combo num))
  (action press (params (?x num)) (pre (k (= (combo) ?x)) (k (key ?x)))
    (effects (set (ajar))) (knows (kf (ajar)))))
(problem (init (kv (combo)) (kf (key c1)) (kf (key c2)) (kf (key c3)) (kf (key c4)) (kf (key c5)) (kf (key c6)) (kf (key c7)) (kf (key c8)) (kf (key c9)) (kf (key c10)) (kf (key c11)) (kf (key c12)) (kf (key c13)) (kf (key c14)) (kf (key c15)) (kf (key c16)) (kf (key c17))) (goal (k (ajar))))
";

pub const VAULT_17_NOT_C17: &str = "(pks 1)
(domain
  (types num)
  (objects (num c1 c2 c3 c4 c5 c6 c7 c8 c9 c10 c11 c12 c13 c14 c15 c16 c17))
  (predicates (key num) (ajar))
  (functions (combo num))
  (action press (params (?x num)) (pre (k (= (combo) ?x)) (k (key ?x)))
    (effects (set (ajar))) (knows (kf (ajar)))))
(problem (init (kv (combo)) (kf (key c1)) (kf (key c2)) (kf (key c3)) (kf (key c4)) (kf (key c5)) (kf (key c6)) (kf (key c7)) (kf (key c8)) (kf (key c9)) (kf (key c10)) (kf (key c11)) (kf (key c12)) (kf (key c13)) (kf (key c14)) (kf (key c15)) (kf (key c16)) (kf (key c17)) (kf (not (= (combo) c17)))) (goal (k (ajar))))
";

pub const PAIR: &str = "(pks 1)
(domain (predicates (p) (q)))
(problem (init (kw (p) (q)) (kf (p))) (goal (kw (q))))
";

pub const PAIR_WITHOUT_P: &str = "(pks 1)
(domain (predicates (p) (q)))
(problem (init (kw (p) (q))) (goal (kw (q))))
";

pub const GROUPS: &str = "(pks 1)
(domain (predicates (r) (x) (u) (y) (v)))
(problem
  (init (kx (r) (x) (u)) (kx (r) (y) (v)) (kx (x) (y)) (kw (r)))
  (goal (k (not (r)))))
";

pub const DIG: &str = "(pks 1)
(domain
  (predicates (p) (q) (r))
  (action dig
    (effects (set (p)) (when ((r)) (set (q))))
    (knows (kf (p)) (kf (q)) (kf (r)))))
(problem (goal (k (q))))
";

pub const TUBS: &str = "(pks 1)
(domain
  (types tub)
  (objects (tub b1 b2))
  (predicates (full tub) (wet) (splashed))
  (action empty-all (effects (clear (full _))) (knows (lcw (full _))))
  (action splash (pre (k (not (full b2))))
    (effects (when ((wet)) (set (full b1))) (set (splashed)))
    (knows (kf (splashed)))))
(problem (goal (k (splashed)) (k (not (full b2)))))
";

pub const TUBS_GOAL_B1: &str = "(pks 1)
(domain
  (types tub)
  (objects (tub b1 b2))
  (predicates (full tub) (wet) (splashed))
  (action empty-all (effects (clear (full _))) (knows (lcw (full _))))
  (action splash (pre (k (not (full b2))))
    (effects (when ((wet)) (set (full b1))) (set (splashed)))
    (knows (kf (splashed)))))
(problem (goal (k (splashed)) (k (not (full b1)))))
";

pub const LAWN_WORLD_ALIVE_POISON: &str = "(pks 1)
(domain
  (predicates (alive) (poison))
  (action pour (effects (when ((poison)) (unset (alive)))))
  (action look (senses (sense (alive))) (knows (kw (alive)))))
(problem (init (kf (alive))) (goal (kw (poison))))
(world (true (alive) (poison)))
";

pub const LAWN_WORLD_ALIVE: &str = "(pks 1)
(domain
  (predicates (alive) (poison))
  (action pour (effects (when ((poison)) (unset (alive)))))
  (action look (senses (sense (alive))) (knows (kw (alive)))))
(problem (init (kf (alive))) (goal (kw (poison))))
(world (true (alive)))
";

pub const LAWN_WORLD_POISON: &str = "(pks 1)
(domain
  (predicates (alive) (poison))
  (action pour (effects (when ((poison)) (unset (alive)))))
  (action look (senses (sense (alive))) (knows (kw (alive)))))
(problem (init (kf (alive))) (goal (kw (poison))))
(world (true (poison)))
";

pub const BOTH: &str = "(pks 1)
(domain (predicates (p)))
(problem (init (kf (p)) (kf (not (p)))) (goal (k (p))))
";

pub const HOUSE: &str = "(pks 1)
(domain
  (types room item)
  (objects (room kitchen hall study) (item cup key book lamp letter box))
  (predicates (lost item) (portable item) (lidded item) (written item)
    (held item) (opened item) (lit room) (urgent))
  (functions (here room) (loc item room))
  (action go (params (?r room))
    (effects (assign (here) ?r)) (knows (kf (= (here) ?r))))
  (action locate (params (?i item)) (pre (k (lost ?i)))
    (senses (sense-value (loc ?i))) (knows (kv (loc ?i))))
  (action look-for (params (?i item)) (pre (k (lost ?i)))
    (senses (sense (= (loc ?i) (here)))) (knows (kw (= (loc ?i) (here)))))
  (action take (params (?i item))
    (pre (k (portable ?i)) (k (= (loc ?i) (here))))
    (effects (set (held ?i))) (knows (kf (held ?i))))
  (action put (params (?i item)) (pre (k (held ?i)))
    (effects (unset (held ?i)) (assign (loc ?i) (here)))
    (knows (kf (not (held ?i))) (kf (= (loc ?i) (here)))))
  (action lift (params (?i item))
    (pre (k (lidded ?i)) (k (= (loc ?i) (here))))
    (effects (set (opened ?i))) (knows (kf (opened ?i))))
  (action shut (params (?i item)) (pre (k (opened ?i)))
    (effects (unset (opened ?i))) (knows (kf (not (opened ?i)))))
  (action switch (pre (k (not (lit (here)))))
    (effects (set (lit (here)))) (knows (kf (lit (here)))))
  (action read (params (?i item)) (pre (k (written ?i)) (k (held ?i)))
    (senses (sense (urgent))) (knows (kw (urgent)))))
(problem
  (init (kf (lost cup)) (kf (portable cup)) (kf (portable book))
    (kf (lidded box)) (kf (written book)) (kf (written letter))
    (kf (= (here) hall)) (kf (not (= (loc cup) kitchen)))
    (kf (= (loc book) study)) (kf (= (loc lamp) hall))
    (kf (= (loc letter) kitchen)) (kf (= (loc box) study))
    (kf (not (held cup))) (kf (not (lit hall))))
  (goal (k (= (loc cup) kitchen)) (k (not (held cup)))))
";

pub const SAFE_WORLD_EMPTY: &str = "(pks 1)
(domain
  (types num)
  (objects (num c1 c2 c3 c4 c5))
  (predicates (open))
  (functions (combo num))
  (action read (senses (sense-value (combo))) (knows (kv (combo))))
  (action dial (params (?x num))
    (effects (when ((= ?x (combo))) (set (open))))
    (knows (if ((k (= ?x (combo)))) (kf (open))))))
(problem (goal (k (open))))
(world)
";

pub const SAFE_WORLD_C3: &str = "(pks 1)
(domain
  (types num)
  (objects (num c1 c2 c3 c4 c5))
  (predicates (open))
  (functions (combo num))
  (action read (senses (sense-value (combo))) (knows (kv (combo))))
  (action dial (params (?x num))
    (effects (when ((= ?x (combo))) (set (open))))
    (knows (if ((k (= ?x (combo)))) (kf (open))))))
(problem (goal (k (open))))
(world (values ((combo) c3)))
";

pub const TYPES_IN_TWO_LISTS: &str = "(pks 1) (domain (types a) (types b)) (problem (goal (k (p))))
";

pub const DOOR_OPEM: &str = "(pks 1)
(domain (predicates (open)))
(problem (init (kf (open))) (goal (k (opem))))
";

pub const EIGHT: &str = "(pks 1)
(domain
  (types t)
  (objects (t a b))
  (predicates (p t) (q t) (r))
  (functions (f t) (g t))
  (action j1 (params (?x t)) (effects (set (p ?x))) (knows (kf (p ?x))))
  (action j2 (params (?x t)) (effects (assign (f) ?x))
    (knows (kf (= (f) ?x))))
  (action j3 (senses (sense (r) (p a))) (knows (kw (r) (p a))))
  (action j4 (senses (sense-all (p _))) (knows (kw (p a))))
  (action j5 (pre (kw (r))) (effects (when ((r)) (set (p a))))
    (knows (if ((kw (p a))) (kw (p a)))))
  (action j6 (senses (sense-value (g))) (knows (kv (g))))
  (action j7 (effects (assign (f) (g))) (knows (if ((kv (g))) (kv (f)))))
  (action j8 (effects (clear (q _))) (knows (lcw (q _)))))
(problem (goal (kw (r) (p a))))
";

pub const HOUSE_WORLD: &str = "(pks 1)
(domain
  (types room item)
  (objects (room kitchen hall study) (item cup key book lamp letter box))
  (predicates (lost item) (portable item) (lidded item) (written item)
    (held item) (opened item) (lit room) (urgent))
  (functions (here room) (loc item room))
  (action go (params (?r room))
    (effects (assign (here) ?r)) (knows (kf (= (here) ?r))))
  (action locate (params (?i item)) (pre (k (lost ?i)))
    (senses (sense-value (loc ?i))) (knows (kv (loc ?i))))
  (action look-for (params (?i item)) (pre (k (lost ?i)))
    (senses (sense (= (loc ?i) (here)))) (knows (kw (= (loc ?i) (here)))))
  (action take (params (?i item))
    (pre (k (portable ?i)) (k (= (loc ?i) (here))))
    (effects (set (held ?i))) (knows (kf (held ?i))))
  (action put (params (?i item)) (pre (k (held ?i)))
    (effects (unset (held ?i)) (assign (loc ?i) (here)))
    (knows (kf (not (held ?i))) (kf (= (loc ?i) (here)))))
  (action lift (params (?i item))
    (pre (k (lidded ?i)) (k (= (loc ?i) (here))))
    (effects (set (opened ?i))) (knows (kf (opened ?i))))
  (action shut (params (?i item)) (pre (k (opened ?i)))
    (effects (unset (opened ?i))) (knows (kf (not (opened ?i)))))
  (action switch (pre (k (not (lit (here)))))
    (effects (set (lit (here)))) (knows (kf (lit (here)))))
  (action read (params (?i item)) (pre (k (written ?i)) (k (held ?i)))
    (senses (sense (urgent))) (knows (kw (urgent)))))
(problem
  (init (kf (lost cup)) (kf (portable cup)) (kf (portable book))
    (kf (lidded box)) (kf (written book)) (kf (written letter))
    (kf (= (here) hall)) (kf (not (= (loc cup) kitchen)))
    (kf (= (loc book) study)) (kf (= (loc lamp) hall))
    (kf (= (loc letter) kitchen)) (kf (= (loc box) study))
    (kf (not (held cup))) (kf (not (lit hall))))
  (goal (k (= (loc cup) kitchen)) (k (not (held cup)))))
(world
  (true (lost cup) (portable cup) (portable book) (lidded box)
    (written book) (written letter))
  (values ((here) hall) ((loc cup) study) ((loc key) hall)
    ((loc book) study) ((loc lamp) hall) ((loc letter) kitchen)
    ((loc box) study)))
";

pub const USAGE: &str =
    "usage: pks check | plan DEPTH | exec DEPTH | bench N | recall DEPTH | agent DEPTH | explain DEPTH | derive | shared DEPTH\n";

pub const EMPTY_PLAN: &str = "plan depth 0
goal
";

pub const SAFE_PLAN: &str = "plan depth 2
(read)
(dial (combo))
goal
";

pub const LAWN_PLAN: &str = "plan depth 3
(pour)
(look)
branch (alive)
true
  goal
false
  goal
";

pub const SWEEP_PLAN: &str = "plan depth 1
(sweep)
goal
";

pub const GO_PLAN: &str = "plan depth 1
(go (next))
goal
";

pub const BOXES_PLAN: &str = "plan depth 4
(peek b1)
(peek b2)
branch (in b1)
true
  goal
false
  branch (in b2)
  true
    goal
  false
    goal
";

pub const VAULT_PLAN: &str = "plan depth 2
cases (combo)
case c1
  (press c1)
  goal
case c2
  (press c2)
  goal
case c3
  (press c3)
  goal
case c4
  (press c4)
  goal
case c5
  (press c5)
  goal
case c6
  (press c6)
  goal
case c7
  (press c7)
  goal
case c8
  (press c8)
  goal
case c9
  (press c9)
  goal
case c10
  (press c10)
  goal
case c11
  (press c11)
  goal
case c12
  (press c12)
  goal
case c13
  (press c13)
  goal
case c14
  (press c14)
  goal
case c15
  (press c15)
  goal
case c16
  (press c16)
  goal
";

pub const PAIR_PLAN: &str = "plan depth 1
branch (p) (q)
true
  goal
false
  goal
";

pub const GROUPS_PLAN: &str = "plan depth 1
branch (r)
true
  impossible
false
  goal
";

pub const TUBS_PLAN: &str = "plan depth 2
(empty-all)
(splash)
goal
";

pub const TUBS_GOAL_B1_PLAN: &str = "plan depth 3
(empty-all)
(splash)
(empty-all)
goal
";

pub const LAWN_WORLD_ALIVE_POISON_EXEC: &str = "run
do (pour)
do (look)
whether (alive) false
branch (alive) false
goal
";

pub const LAWN_WORLD_ALIVE_EXEC: &str = "run
do (pour)
do (look)
whether (alive) true
branch (alive) true
goal
";

pub const HOUSE_PLAN: &str = "plan depth 5
(locate cup)
(go (loc cup))
(take cup)
(go kitchen)
(put cup)
goal
";

pub const SAFE_WORLD_C3_EXEC: &str = "run
do (read)
value (combo) c3
do (dial c3)
goal
";

pub const EIGHT_PLAN: &str = "plan depth 1
(j3)
goal
";

pub const HOUSE_WORLD_EXEC: &str = "run
do (locate cup)
value (loc cup) study
do (go study)
do (take cup)
do (go kitchen)
do (put cup)
goal
";

pub const LAWN_AT_START: &str = "(pks 2)
(domain
  (predicates (alive) (poison))
  (action pour (effects (when ((poison)) (unset (alive)))))
  (action look (senses (sense (alive))) (knows (kw (alive)))))
(problem (init (kf (alive))) (goal (at-start (kw (poison)))))
";

pub const LAWN_ALWAYS: &str = "(pks 2)
(domain
  (predicates (alive) (poison))
  (action pour (effects (when ((poison)) (unset (alive)))))
  (action look (senses (sense (alive))) (knows (kw (alive)))))
(problem (init (kf (alive))) (goal (always (k (alive))) (kw (poison))))
";

/// Whoever is at home has been to the shop.
pub const ERRAND: &str = "(pks 2)
(domain
  (types place)
  (objects (place home shop))
  (functions (here place))
  (action go (params (?p place)) (effects (assign (here) ?p)) (knows (kf (= (here) ?p)))))
(problem (init (kf (= (here) home))) (goal (once (k (= (here) shop))) (k (= (here) home))))
";

pub const ERRAND_PLAN: &str = "plan depth 2
(go shop)
(go home)
goal
";

/// What is seen is two moments after the pouring.
pub const RESTED_LAWN: &str = "(pks 2)
(domain
  (predicates (alive) (poison) (rested))
  (action pour (effects (when ((poison)) (unset (alive)))))
  (action rest (effects (set (rested))) (knows (kf (rested))))
  (action look (pre (k (rested))) (senses (sense (alive))) (knows (kw (alive)))))
(problem (init (kf (alive))) (goal (at-start (kw (poison)))))
";

pub const RESTED_LAWN_PLAN: &str = "plan depth 4
(pour)
(rest)
(look)
branch (alive)
true
  goal
false
  goal
";

pub const LAMP: &str = "(pks 1)
(domain (predicates (up) (lit))
  (action climb (effects (set (up))) (knows (kf (up))))
  (action light (pre (k (up))) (effects (set (lit))) (knows (kf (lit)))))
(problem (goal (k (lit))))
";

pub const THIN_DIG: &str = "(pks 1)
(domain (predicates (p) (q))
  (action dig (effects (set (p))) (knows (kf (p)) (kf (q)))))
(problem (goal (k (q))))
";

pub const MOVE: &str = "(pks 1)
(domain
  (types room)
  (objects (room a b))
  (functions (here room))
  (action go (params (?r room)) (effects (assign (here) ?r))
    (knows (kf (= (here) ?r)))))
(problem (init (kf (= (here) a))) (goal (k (= (here) b))))
";

pub const COIN: &str = "(pks 1)
(domain
  (predicates (heads))
  (action look (senses (sense (heads))) (knows (kw (heads)))))
(problem (goal (kw (heads))))
";

pub const CRATE: &str = "(pks 2)
(domain
  (types thing (box thing) (bag thing))
  (objects (box b1 b2) (bag g1))
  (predicates (got thing))
  (functions (spot box))
  (action grab (params (?x thing))
    (effects (set (got ?x))) (knows (kf (got ?x)))))
(problem (init (kv (spot))) (goal (k (got (spot)))))
";

pub const CRATE_NOT_B1: &str = "(pks 2)
(domain
  (types thing (box thing) (bag thing))
  (objects (box b1 b2) (bag g1))
  (predicates (got thing))
  (functions (spot box))
  (action grab (params (?x thing))
    (effects (set (got ?x))) (knows (kf (got ?x)))))
(problem (init (kf (not (= (spot) b1)))) (goal (k (= (spot) b2))))
";

pub const CRATE_OF_VERSION_1: &str = "(pks 1)
(domain
  (types thing (box thing) (bag thing))
  (objects (box b1 b2) (bag g1))
  (predicates (got thing))
  (functions (spot box))
  (action grab (params (?x thing))
    (effects (set (got ?x))) (knows (kf (got ?x)))))
(problem (init (kv (spot))) (goal (k (got (spot)))))
";

pub const TOLLS: &str = "(pks 2)
(domain
  (predicates (a) (g))
  (action jump (cost 9) (effects (set (g))) (knows (kf (g))))
  (action first (cost 2) (effects (set (a))) (knows (kf (a))))
  (action then (pre (k (a))) (effects (set (g))) (knows (kf (g)))))
(problem (goal (k (g))))
";

pub const TOLLS_OF_VERSION_1: &str = "(pks 1)
(domain
  (predicates (a) (g))
  (action jump (cost 9) (effects (set (g))) (knows (kf (g))))
  (action first (cost 2) (effects (set (a))) (knows (kf (a))))
  (action then (pre (k (a))) (effects (set (g))) (knows (kf (g)))))
(problem (goal (k (g))))
";

pub const TOLLS_WITHOUT_COSTS: &str = "(pks 1)
(domain
  (predicates (a) (g))
  (action jump (effects (set (g))) (knows (kf (g))))
  (action first (effects (set (a))) (knows (kf (a))))
  (action then (pre (k (a))) (effects (set (g))) (knows (kf (g)))))
(problem (goal (k (g))))
";

pub const LAWN_AT_START_OF_VERSION_1: &str = "(pks 1)
(domain
  (predicates (alive) (poison))
  (action pour (effects (when ((poison)) (unset (alive)))))
  (action look (senses (sense (alive))) (knows (kw (alive)))))
(problem (init (kf (alive))) (goal (at-start (kw (poison)))))
";

pub const LAMP_PLAN: &str = "plan depth 2
(climb)
(light)
goal
";

pub const MOVE_PLAN: &str = "plan depth 1
(go b)
goal
";

pub const COIN_PLAN: &str = "plan depth 1
(look)
goal
";

pub const CRATE_PLAN: &str = "plan depth 1
(grab (spot))
goal
";

pub const JUMP_PLAN: &str = "plan depth 1
(jump)
goal
";

pub const TWO_TOLLS_PLAN: &str = "plan depth 2
(first)
(then)
goal
";

pub const TWO_OF_A_GROUP: &str = "(pks 1)
(domain (types t) (objects (t a b c)) (predicates (r) (p t) (q t)))
(problem (init (kw (r)) (kx (p a) (p b)) (lcw (q _)) (kf (q a))) (goal (k (r))))
(world (true (p a) (p b)))
";

pub const ONE_NOT_LISTED: &str = "(pks 1)
(domain (types t) (objects (t a b c)) (predicates (r) (p t) (q t)))
(problem (init (kw (r)) (kx (p a) (p b)) (lcw (q _)) (kf (q a))) (goal (k (r))))
(world (true (p b) (q a) (q b)))
";

pub const ONE_DENIED: &str = "(pks 1)
(domain (types t) (objects (t a b c)) (predicates (r) (p t) (q t)))
(problem (init (kw (r)) (kx (p a) (p b)) (lcw (q _)) (kf (q a))) (goal (k (r))))
(world (true (p b)))
";

pub const NONE_BROKEN: &str = "(pks 1)
(domain (types t) (objects (t a b c)) (predicates (r) (p t) (q t)))
(problem (init (kw (r)) (kx (p a) (p b)) (lcw (q _)) (kf (q a))) (goal (k (r))))
(world (true (p a) (q a)))
";
