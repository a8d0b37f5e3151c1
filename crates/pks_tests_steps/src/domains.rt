//! The worked domains.

/// A file but for its initial items: the text before them, and the goal.
pub struct DomainText {
    /// The text before the problem.
    pub text: &'static str,
    /// Initial items that every moment has.
    pub known: &'static str,
    /// The aims.
    pub goal: &'static str,
}

pub const ALIAS: DomainText = DomainText {
    text: "(pks 1)
(domain
  (types place thing)
  (objects (place hall den) (thing key))
  (predicates (at thing place) (done))
  (functions (where place))
  (action sweep (effects (unset (at key (where))) (set (done)))
    (knows (kf (done)))))
",
    known: "",
    goal: "(k (done)) (k (at key hall))",
};

pub const NEXT: DomainText = DomainText {
    text: "(pks 1)
(domain
  (types room)
  (objects (room r1 r2))
  (predicates (at room))
  (functions (next room))
  (action go (params (?r room)) (effects (set (at ?r)) (assign (next) r1))
    (knows (kf (at ?r)))))
",
    known: "",
    goal: "(k (at (next)))",
};

pub const NEXT_WITHOUT_ASSIGN: DomainText = DomainText {
    text: "(pks 1)
(domain
  (types room)
  (objects (room r1 r2))
  (predicates (at room))
  (functions (next room))
  (action go (params (?r room)) (effects (set (at ?r)))
    (knows (kf (at ?r)))))
",
    known: "",
    goal: "(k (at (next)))",
};

pub const SAFE: DomainText = DomainText {
    text: "(pks 1)
(domain
  (types num)
  (objects (num c1 c2 c3 c4 c5))
  (predicates (open))
  (functions (combo num))
  (action read (senses (sense-value (combo))) (knows (kv (combo))))
  (action dial (params (?x num))
    (effects (when ((= ?x (combo))) (set (open))))
    (knows (if ((k (= ?x (combo)))) (kf (open))))))
",
    known: "",
    goal: "(k (open))",
};

const TUBS_TEXT: &str = "(pks 1)
(domain
  (types tub)
  (objects (tub b1 b2))
  (predicates (full tub) (wet) (splashed))
  (action empty-all (effects (clear (full _))) (knows (lcw (full _))))
  (action splash (pre (k (not (full b2))))
    (effects (when ((wet)) (set (full b1))) (set (splashed)))
    (knows (kf (splashed)))))
";

pub const TUBS: DomainText = DomainText {
    text: TUBS_TEXT,
    known: "",
    goal: "(k (splashed)) (k (not (full b2)))",
};

/// The tubs, where it is asked that the first one is empty.
pub const TUBS_FIRST_EMPTY: DomainText = DomainText {
    text: TUBS_TEXT,
    known: "",
    goal: "(k (not (full b1)))",
};

pub const LAWN: DomainText = DomainText {
    text: "(pks 1)
(domain
  (predicates (alive) (poison))
  (action pour (effects (when ((poison)) (unset (alive)))))
  (action look (senses (sense (alive))) (knows (kw (alive)))))
",
    known: "",
    goal: "(kw (poison))",
};

/// Two objects, of which two predicates and a function tell. There are no actions.
pub const LETTERS: DomainText = DomainText {
    text: "(pks 1)
(domain
  (types t)
  (objects (t a b))
  (predicates (p t) (q t))
  (functions (f t)))
",
    known: "",
    goal: "(k (p a))",
};

/// A lawn whose poison kills only together with the sun.
pub const SUNNY_LAWN: DomainText = DomainText {
    text: "(pks 1)
(domain
  (predicates (alive) (poison) (sun))
  (action pour (effects (when ((poison) (sun)) (unset (alive)))))
  (action look (senses (sense (alive))) (knows (kw (alive)))))
",
    known: "(kx (poison) (sun)) ",
    goal: "(k (alive))",
};

pub const VAULT_16: DomainText = DomainText {
    text: "(pks 1)
(domain
  (types num)
  (objects (num c1 c2 c3 c4 c5 c6 c7 c8 c9 c10 c11 c12 c13 c14 c15 c16))
  (predicates (key num) (ajar))
  (functions (combo num))
  (action press (params (?x num)) (pre (k (= (combo) ?x)) (k (key ?x)))
    (effects (set (ajar))) (knows (kf (ajar)))))
",
    known: "(kf (key c1)) (kf (key c2)) (kf (key c3)) (kf (key c4)) (kf (key c5)) (kf (key c6)) (kf (key c7)) (kf (key c8)) (kf (key c9)) (kf (key c10)) (kf (key c11)) (kf (key c12)) (kf (key c13)) (kf (key c14)) (kf (key c15)) (kf (key c16)) ",
    goal: "(k (ajar))",
};

pub const VAULT_17: DomainText = DomainText {
    text: "(pks 1)
(domain
  (types num)
  (objects (num c1 c2 c3 c4 c5 c6 c7 c8 c9 c10 c11 c12 c13 c14 c15 c16 c17))
  (predicates (key num) (ajar))
  (functions (combo num))
  (action press (params (?x num)) (pre (k (= (combo) ?x)) (k (key ?x)))
    (effects (set (ajar))) (knows (kf (ajar)))))
",
    known: "(kf (key c1)) (kf (key c2)) (kf (key c3)) (kf (key c4)) (kf (key c5)) (kf (key c6)) (kf (key c7)) (kf (key c8)) (kf (key c9)) (kf (key c10)) (kf (key c11)) (kf (key c12)) (kf (key c13)) (kf (key c14)) (kf (key c15)) (kf (key c16)) (kf (key c17)) ",
    goal: "(k (ajar))",
};

pub const HOUSE: DomainText = DomainText {
    text: "(pks 1)
(domain
  (types room item)
  (objects (room kitchen hall study) (item cup key book lamp letter box))
  (predicates (lost item) (portable item) (lidded item) (written item)
    (held item) (opened item) (lit room) (urgent))
  (functions (here room) (loc item room))
  (action go (params (?r room))
    (effects (assign (here) ?r)) (knows (kf (= (here) ?r))))
  (action locate (params (?i item)) (pre (k (lost ?i)))
    (senses (sense-value (loc ?i))) (knows (kv (loc ?i))))
  (action look-for (params (?i item)) (pre (k (lost ?i)))
    (senses (sense (= (loc ?i) (here)))) (knows (kw (= (loc ?i) (here)))))
  (action take (params (?i item))
    (pre (k (portable ?i)) (k (= (loc ?i) (here))))
    (effects (set (held ?i))) (knows (kf (held ?i))))
  (action put (params (?i item)) (pre (k (held ?i)))
    (effects (unset (held ?i)) (assign (loc ?i) (here)))
    (knows (kf (not (held ?i))) (kf (= (loc ?i) (here)))))
  (action lift (params (?i item))
    (pre (k (lidded ?i)) (k (= (loc ?i) (here))))
    (effects (set (opened ?i))) (knows (kf (opened ?i))))
  (action shut (params (?i item)) (pre (k (opened ?i)))
    (effects (unset (opened ?i))) (knows (kf (not (opened ?i)))))
  (action switch (pre (k (not (lit (here)))))
    (effects (set (lit (here)))) (knows (kf (lit (here)))))
  (action read (params (?i item)) (pre (k (written ?i)) (k (held ?i)))
    (senses (sense (urgent))) (knows (kw (urgent)))))
",
    known: "(kf (lost cup)) (kf (portable cup)) (kf (portable book)) (kf (lidded box)) (kf (written book))
(kf (written letter)) (kf (= (loc book) study)) (kf (= (loc lamp) hall)) (kf (= (loc letter) kitchen))
(kf (= (loc box) study)) (kf (not (lit hall)))
",
    goal: "(k (= (loc cup) kitchen)) (k (not (held cup)))",
};

/// The generated file with one object.
pub const ONE: &str = "(pks 1)
(domain
(types num)
(objects (num c1))
(predicates (open) (seen num num))
(functions (combo num))
(action read (senses (sense-value (combo))) (knows (kv (combo))))
(action dial (params (?x num)) (effects (when ((= ?x (combo))) (set (open)))) (knows (if ((k (= ?x (combo)))) (kf (open))))))
(problem
(init
(kf (seen c1 c1))
)
(goal (k (open))))
";
