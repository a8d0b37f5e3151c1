//! Proofs about what actions make of literals and groups.
use crate::rows::Piece::{Act, False, True};
use crate::rows::{Piece, ProofRow, ProofTable};
use pks_proof_lines::Reason::{Back, Cannot, Effect, Given, Keep, Must, Only, Side};
use pks_terms::ids::ItemNo;

const GARDEN: &str = "(pks 1)
(domain
  (predicates (alive) (poison) (sun) (frost) (cure))
  (action look (senses (sense (alive))) (knows (kw (alive))))
  (action pour (effects (when ((poison)) (unset (alive)))))
  (action bake (effects (when ((poison) (sun)) (unset (alive)))))
  (action chill (effects (when ((poison)) (unset (alive))) (when ((frost)) (unset (alive)))))
  (action treat (effects (when ((poison)) (unset (alive))) (when ((cure)) (set (alive)))))
  (action heal (effects (when ((cure)) (set (alive))) (when ((poison)) (unset (alive)))))
  (action plant (effects (set (alive))))
  (action feed (effects (when ((cure)) (set (alive)))))
  (action replant (effects (unset (alive)) (set (alive)))))
";

const LOOK: Piece = Act(0);

const POUR: Piece = Act(1);

const BAKE: Piece = Act(2);

const CHILL: Piece = Act(3);

const TREAT: Piece = Act(4);

const HEAL: Piece = Act(5);

const PLANT: Piece = Act(6);

const FEED: Piece = Act(7);

const REPLANT: Piece = Act(8);

const ALIVE: Piece = True("(kw (alive))");

const DEAD: Piece = False("(kw (alive))");

/// A lawn that is alive, and what may be in the can is poured on it.
pub const LAWN: ProofTable = ProofTable {
    domain: GARDEN,
    rows: &[ProofRow {
        init: "(kf (alive))",
        path: &[POUR],
        lines: &[
            (0, "(kf (alive))", Given(ItemNo(1)), &[]),
            (1, "(kf (alive))", Keep, &[1]),
        ],
        shows: "(alive)",
        accepted: false,
    }],
};

const SOUND: &str = "(kf (alive)) (kf (not (poison)))";

const ONE_OF_TWO: &str = "(kx (alive) (sun)) (kf (not (sun))) (kf (not (cure)))";

pub const KEPT: ProofTable = ProofTable {
    domain: GARDEN,
    rows: &[
        ProofRow {
            init: SOUND,
            path: &[POUR],
            lines: &[
                (0, "(kf (alive))", Given(ItemNo(1)), &[]),
                (0, "(kf (not (poison)))", Given(ItemNo(2)), &[]),
                (1, "(kf (alive))", Keep, &[1, 2]),
            ],
            shows: "(alive)",
            accepted: true,
        },
        ProofRow {
            init: SOUND,
            path: &[POUR],
            lines: &[
                (0, "(kf (alive))", Given(ItemNo(1)), &[]),
                (1, "(kf (alive))", Keep, &[1]),
            ],
            shows: "(alive)",
            accepted: false,
        },
        ProofRow {
            init: SOUND,
            path: &[POUR],
            lines: &[
                (0, "(kf (not (poison)))", Given(ItemNo(2)), &[]),
                (1, "(kf (alive))", Keep, &[1]),
            ],
            shows: "(alive)",
            accepted: false,
        },
        ProofRow {
            init: SOUND,
            path: &[BAKE],
            lines: &[
                (0, "(kf (alive))", Given(ItemNo(1)), &[]),
                (0, "(kf (not (poison)))", Given(ItemNo(2)), &[]),
                (1, "(kf (alive))", Keep, &[1, 2]),
            ],
            shows: "(alive)",
            accepted: true,
        },
        ProofRow {
            init: SOUND,
            path: &[CHILL],
            lines: &[
                (0, "(kf (alive))", Given(ItemNo(1)), &[]),
                (0, "(kf (not (poison)))", Given(ItemNo(2)), &[]),
                (1, "(kf (alive))", Keep, &[1, 2]),
            ],
            shows: "(alive)",
            accepted: false,
        },
        ProofRow {
            init: "(kf (alive)) (kf (poison))",
            path: &[POUR],
            lines: &[
                (0, "(kf (alive))", Given(ItemNo(1)), &[]),
                (0, "(kf (poison))", Given(ItemNo(2)), &[]),
                (1, "(kf (alive))", Keep, &[1, 2]),
            ],
            shows: "(alive)",
            accepted: false,
        },
        ProofRow {
            init: "(kf (not (alive)))",
            path: &[POUR],
            lines: &[
                (0, "(kf (not (alive)))", Given(ItemNo(1)), &[]),
                (1, "(kf (not (alive)))", Keep, &[1]),
            ],
            shows: "(not (alive))",
            accepted: true,
        },
        ProofRow {
            init: "(kf (not (alive)))",
            path: &[PLANT],
            lines: &[
                (0, "(kf (not (alive)))", Given(ItemNo(1)), &[]),
                (1, "(kf (not (alive)))", Keep, &[1]),
            ],
            shows: "(not (alive))",
            accepted: false,
        },
        ProofRow {
            init: "(kf (alive))",
            path: &[LOOK, LOOK],
            lines: &[
                (0, "(kf (alive))", Given(ItemNo(1)), &[]),
                (2, "(kf (alive))", Keep, &[1]),
            ],
            shows: "(alive)",
            accepted: false,
        },
        ProofRow {
            init: "(kf (alive))",
            path: &[],
            lines: &[
                (0, "(kf (alive))", Given(ItemNo(1)), &[]),
                (0, "(kf (alive))", Keep, &[1]),
            ],
            shows: "(alive)",
            accepted: false,
        },
        ProofRow {
            init: ONE_OF_TWO,
            path: &[LOOK],
            lines: &[
                (0, "(kx (alive) (sun))", Given(ItemNo(1)), &[]),
                (1, "(kx (alive) (sun))", Keep, &[1]),
                (0, "(kf (not (sun)))", Given(ItemNo(2)), &[]),
                (1, "(kf (not (sun)))", Keep, &[3]),
                (1, "(kf (alive))", Only, &[2, 4]),
            ],
            shows: "(alive)",
            accepted: true,
        },
        ProofRow {
            init: ONE_OF_TWO,
            path: &[POUR],
            lines: &[
                (0, "(kx (alive) (sun))", Given(ItemNo(1)), &[]),
                (1, "(kx (alive) (sun))", Keep, &[1]),
                (0, "(kf (not (sun)))", Given(ItemNo(2)), &[]),
                (1, "(kf (not (sun)))", Keep, &[3]),
                (1, "(kf (alive))", Only, &[2, 4]),
            ],
            shows: "(alive)",
            accepted: false,
        },
        ProofRow {
            init: ONE_OF_TWO,
            path: &[FEED],
            lines: &[
                (0, "(kx (alive) (sun))", Given(ItemNo(1)), &[]),
                (1, "(kx (alive) (sun))", Keep, &[1]),
                (0, "(kf (not (sun)))", Given(ItemNo(2)), &[]),
                (1, "(kf (not (sun)))", Keep, &[3]),
                (1, "(kf (alive))", Only, &[2, 4]),
            ],
            shows: "(alive)",
            accepted: false,
        },
        ProofRow {
            init: ONE_OF_TWO,
            path: &[FEED],
            lines: &[
                (0, "(kx (alive) (sun))", Given(ItemNo(1)), &[]),
                (0, "(kf (not (cure)))", Given(ItemNo(3)), &[]),
                (1, "(kx (alive) (sun))", Keep, &[1, 2]),
                (0, "(kf (not (sun)))", Given(ItemNo(2)), &[]),
                (1, "(kf (not (sun)))", Keep, &[4]),
                (1, "(kf (alive))", Only, &[3, 5]),
            ],
            shows: "(alive)",
            accepted: true,
        },
    ],
};

pub const BROUGHT_BACK: ProofTable = ProofTable {
    domain: GARDEN,
    rows: &[
        ProofRow {
            init: "",
            path: &[LOOK, ALIVE],
            lines: &[
                (1, "(kf (alive))", Side(1), &[]),
                (0, "(kf (alive))", Back, &[1]),
                (1, "(kf (alive))", Keep, &[2]),
            ],
            shows: "(alive)",
            accepted: true,
        },
        ProofRow {
            init: "",
            path: &[PLANT, ALIVE],
            lines: &[
                (1, "(kf (alive))", Side(1), &[]),
                (0, "(kf (alive))", Back, &[1]),
                (1, "(kf (alive))", Keep, &[2]),
            ],
            shows: "(alive)",
            accepted: false,
        },
        ProofRow {
            init: "",
            path: &[FEED, ALIVE],
            lines: &[
                (1, "(kf (alive))", Side(1), &[]),
                (0, "(kf (alive))", Back, &[1]),
                (1, "(kf (alive))", Keep, &[2]),
            ],
            shows: "(alive)",
            accepted: false,
        },
        ProofRow {
            init: "(kf (not (cure)))",
            path: &[FEED, ALIVE],
            lines: &[
                (1, "(kf (alive))", Side(1), &[]),
                (0, "(kf (not (cure)))", Given(ItemNo(1)), &[]),
                (0, "(kf (alive))", Back, &[1, 2]),
                (1, "(kf (alive))", Keep, &[3]),
            ],
            shows: "(alive)",
            accepted: true,
        },
        ProofRow {
            init: "",
            path: &[FEED, DEAD],
            lines: &[
                (1, "(kf (not (alive)))", Side(1), &[]),
                (0, "(kf (not (alive)))", Back, &[1]),
                (0, "(kf (not (cure)))", Cannot, &[1]),
                (1, "(kf (not (alive)))", Keep, &[2, 3]),
            ],
            shows: "(not (alive))",
            accepted: true,
        },
        ProofRow {
            init: "",
            path: &[LOOK, LOOK, ALIVE],
            lines: &[
                (2, "(kf (alive))", Side(1), &[]),
                (0, "(kf (alive))", Back, &[1]),
                (1, "(kf (alive))", Keep, &[2]),
                (2, "(kf (alive))", Keep, &[3]),
            ],
            shows: "(alive)",
            accepted: false,
        },
        ProofRow {
            init: "(kf (alive))",
            path: &[LOOK],
            lines: &[
                (0, "(kf (alive))", Given(ItemNo(1)), &[]),
                (1, "(kf (alive))", Back, &[1]),
            ],
            shows: "(alive)",
            accepted: false,
        },
    ],
};

const POISONED: &str = "(kf (poison)) (kf (sun)) (kf (not (cure)))";

pub const MADE: ProofTable = ProofTable {
    domain: GARDEN,
    rows: &[
        ProofRow {
            init: "",
            path: &[PLANT],
            lines: &[(1, "(kf (alive))", Effect, &[])],
            shows: "(alive)",
            accepted: true,
        },
        ProofRow {
            init: "",
            path: &[PLANT],
            lines: &[(1, "(kf (not (alive)))", Effect, &[])],
            shows: "(not (alive))",
            accepted: false,
        },
        ProofRow {
            init: "",
            path: &[PLANT],
            lines: &[(1, "(kf (sun))", Effect, &[])],
            shows: "(sun)",
            accepted: false,
        },
        ProofRow {
            init: POISONED,
            path: &[POUR],
            lines: &[
                (0, "(kf (poison))", Given(ItemNo(1)), &[]),
                (1, "(kf (not (alive)))", Effect, &[1]),
            ],
            shows: "(not (alive))",
            accepted: true,
        },
        ProofRow {
            init: POISONED,
            path: &[POUR],
            lines: &[(1, "(kf (not (alive)))", Effect, &[])],
            shows: "(not (alive))",
            accepted: false,
        },
        ProofRow {
            init: POISONED,
            path: &[BAKE],
            lines: &[
                (0, "(kf (poison))", Given(ItemNo(1)), &[]),
                (0, "(kf (sun))", Given(ItemNo(2)), &[]),
                (1, "(kf (not (alive)))", Effect, &[1, 2]),
            ],
            shows: "(not (alive))",
            accepted: true,
        },
        ProofRow {
            init: POISONED,
            path: &[BAKE],
            lines: &[
                (0, "(kf (poison))", Given(ItemNo(1)), &[]),
                (1, "(kf (not (alive)))", Effect, &[1]),
            ],
            shows: "(not (alive))",
            accepted: false,
        },
        ProofRow {
            init: POISONED,
            path: &[TREAT],
            lines: &[
                (0, "(kf (poison))", Given(ItemNo(1)), &[]),
                (1, "(kf (not (alive)))", Effect, &[1]),
            ],
            shows: "(not (alive))",
            accepted: false,
        },
        ProofRow {
            init: POISONED,
            path: &[TREAT],
            lines: &[
                (0, "(kf (poison))", Given(ItemNo(1)), &[]),
                (0, "(kf (not (cure)))", Given(ItemNo(3)), &[]),
                (1, "(kf (not (alive)))", Effect, &[1, 2]),
            ],
            shows: "(not (alive))",
            accepted: true,
        },
        ProofRow {
            init: POISONED,
            path: &[HEAL],
            lines: &[
                (0, "(kf (poison))", Given(ItemNo(1)), &[]),
                (1, "(kf (not (alive)))", Effect, &[1]),
            ],
            shows: "(not (alive))",
            accepted: true,
        },
        ProofRow {
            init: "",
            path: &[REPLANT],
            lines: &[(1, "(kf (alive))", Effect, &[])],
            shows: "(alive)",
            accepted: true,
        },
        ProofRow {
            init: "",
            path: &[REPLANT],
            lines: &[(1, "(kf (not (alive)))", Effect, &[])],
            shows: "(not (alive))",
            accepted: false,
        },
    ],
};

const GREEN: &str = "(kf (alive)) (kf (not (frost))) (kf (not (poison)))";

pub const NEEDED: ProofTable = ProofTable {
    domain: GARDEN,
    rows: &[
        ProofRow {
            init: GREEN,
            path: &[POUR, DEAD],
            lines: &[
                (0, "(kf (alive))", Given(ItemNo(1)), &[]),
                (1, "(kf (not (alive)))", Side(1), &[]),
                (0, "(kf (poison))", Must, &[1, 2]),
                (1, "(kf (poison))", Keep, &[3]),
            ],
            shows: "(poison)",
            accepted: true,
        },
        ProofRow {
            init: GREEN,
            path: &[POUR, DEAD],
            lines: &[
                (1, "(kf (not (alive)))", Side(1), &[]),
                (0, "(kf (poison))", Must, &[1]),
                (1, "(kf (poison))", Keep, &[2]),
            ],
            shows: "(poison)",
            accepted: false,
        },
        ProofRow {
            init: GREEN,
            path: &[POUR, DEAD],
            lines: &[
                (0, "(kf (alive))", Given(ItemNo(1)), &[]),
                (0, "(kf (poison))", Must, &[1]),
                (1, "(kf (poison))", Keep, &[2]),
            ],
            shows: "(poison)",
            accepted: false,
        },
        ProofRow {
            init: GREEN,
            path: &[POUR, DEAD],
            lines: &[
                (0, "(kf (alive))", Given(ItemNo(1)), &[]),
                (1, "(kf (not (alive)))", Side(1), &[]),
                (0, "(kf (sun))", Must, &[1, 2]),
                (1, "(kf (sun))", Keep, &[3]),
            ],
            shows: "(sun)",
            accepted: false,
        },
        ProofRow {
            init: GREEN,
            path: &[BAKE, DEAD],
            lines: &[
                (0, "(kf (alive))", Given(ItemNo(1)), &[]),
                (1, "(kf (not (alive)))", Side(1), &[]),
                (0, "(kf (sun))", Must, &[1, 2]),
                (1, "(kf (sun))", Keep, &[3]),
            ],
            shows: "(sun)",
            accepted: true,
        },
        ProofRow {
            init: GREEN,
            path: &[CHILL, DEAD],
            lines: &[
                (0, "(kf (alive))", Given(ItemNo(1)), &[]),
                (1, "(kf (not (alive)))", Side(1), &[]),
                (0, "(kf (poison))", Must, &[1, 2]),
                (1, "(kf (poison))", Keep, &[3]),
            ],
            shows: "(poison)",
            accepted: false,
        },
        ProofRow {
            init: GREEN,
            path: &[CHILL, DEAD],
            lines: &[
                (0, "(kf (alive))", Given(ItemNo(1)), &[]),
                (1, "(kf (not (alive)))", Side(1), &[]),
                (0, "(kf (not (frost)))", Given(ItemNo(2)), &[]),
                (0, "(kf (poison))", Must, &[1, 2, 3]),
                (1, "(kf (poison))", Keep, &[4]),
            ],
            shows: "(poison)",
            accepted: true,
        },
        ProofRow {
            init: GREEN,
            path: &[CHILL, DEAD],
            lines: &[
                (0, "(kf (alive))", Given(ItemNo(1)), &[]),
                (1, "(kf (not (alive)))", Side(1), &[]),
                (0, "(kf (frost))", Must, &[1, 2]),
                (1, "(kf (frost))", Keep, &[3]),
            ],
            shows: "(frost)",
            accepted: false,
        },
        ProofRow {
            init: GREEN,
            path: &[CHILL, DEAD],
            lines: &[
                (0, "(kf (alive))", Given(ItemNo(1)), &[]),
                (1, "(kf (not (alive)))", Side(1), &[]),
                (0, "(kf (not (poison)))", Given(ItemNo(3)), &[]),
                (0, "(kf (frost))", Must, &[1, 2, 3]),
                (1, "(kf (frost))", Keep, &[4]),
            ],
            shows: "(frost)",
            accepted: true,
        },
        ProofRow {
            init: GREEN,
            path: &[TREAT, DEAD],
            lines: &[
                (0, "(kf (alive))", Given(ItemNo(1)), &[]),
                (1, "(kf (not (alive)))", Side(1), &[]),
                (0, "(kf (poison))", Must, &[1, 2]),
                (1, "(kf (poison))", Keep, &[3]),
            ],
            shows: "(poison)",
            accepted: true,
        },
    ],
};

const SUNNY: &str = "(kf (sun)) (kf (alive)) (kf (not (cure)))";

pub const MISSED: ProofTable = ProofTable {
    domain: GARDEN,
    rows: &[
        ProofRow {
            init: SUNNY,
            path: &[POUR, ALIVE],
            lines: &[
                (1, "(kf (alive))", Side(1), &[]),
                (0, "(kf (not (poison)))", Cannot, &[1]),
                (1, "(kf (not (poison)))", Keep, &[2]),
            ],
            shows: "(not (poison))",
            accepted: true,
        },
        ProofRow {
            init: SUNNY,
            path: &[POUR, ALIVE],
            lines: &[
                (0, "(kf (alive))", Given(ItemNo(2)), &[]),
                (0, "(kf (not (poison)))", Cannot, &[1]),
                (1, "(kf (not (poison)))", Keep, &[2]),
            ],
            shows: "(not (poison))",
            accepted: false,
        },
        ProofRow {
            init: SUNNY,
            path: &[POUR, ALIVE],
            lines: &[
                (1, "(kf (alive))", Side(1), &[]),
                (0, "(kf (not (frost)))", Cannot, &[1]),
                (1, "(kf (not (frost)))", Keep, &[2]),
            ],
            shows: "(not (frost))",
            accepted: false,
        },
        ProofRow {
            init: SUNNY,
            path: &[POUR, ALIVE],
            lines: &[
                (1, "(kf (alive))", Side(1), &[]),
                (0, "(kf (poison))", Cannot, &[1]),
                (1, "(kf (poison))", Keep, &[2]),
            ],
            shows: "(poison)",
            accepted: false,
        },
        ProofRow {
            init: SUNNY,
            path: &[BAKE, ALIVE],
            lines: &[
                (1, "(kf (alive))", Side(1), &[]),
                (0, "(kf (sun))", Given(ItemNo(1)), &[]),
                (0, "(kf (not (poison)))", Cannot, &[1, 2]),
                (1, "(kf (not (poison)))", Keep, &[3]),
            ],
            shows: "(not (poison))",
            accepted: true,
        },
        ProofRow {
            init: SUNNY,
            path: &[BAKE, ALIVE],
            lines: &[
                (1, "(kf (alive))", Side(1), &[]),
                (0, "(kf (not (poison)))", Cannot, &[1]),
                (1, "(kf (not (poison)))", Keep, &[2]),
            ],
            shows: "(not (poison))",
            accepted: false,
        },
        ProofRow {
            init: SUNNY,
            path: &[BAKE, ALIVE],
            lines: &[
                (1, "(kf (alive))", Side(1), &[]),
                (0, "(kf (not (sun)))", Cannot, &[1]),
                (1, "(kf (not (sun)))", Keep, &[2]),
            ],
            shows: "(not (sun))",
            accepted: false,
        },
        ProofRow {
            init: SUNNY,
            path: &[TREAT, ALIVE],
            lines: &[
                (1, "(kf (alive))", Side(1), &[]),
                (0, "(kf (not (poison)))", Cannot, &[1]),
                (1, "(kf (not (poison)))", Keep, &[2]),
            ],
            shows: "(not (poison))",
            accepted: false,
        },
        ProofRow {
            init: SUNNY,
            path: &[TREAT, ALIVE],
            lines: &[
                (1, "(kf (alive))", Side(1), &[]),
                (0, "(kf (not (cure)))", Given(ItemNo(3)), &[]),
                (0, "(kf (not (poison)))", Cannot, &[1, 2]),
                (1, "(kf (not (poison)))", Keep, &[3]),
            ],
            shows: "(not (poison))",
            accepted: true,
        },
        ProofRow {
            init: SUNNY,
            path: &[HEAL, ALIVE],
            lines: &[
                (1, "(kf (alive))", Side(1), &[]),
                (0, "(kf (not (poison)))", Cannot, &[1]),
                (1, "(kf (not (poison)))", Keep, &[2]),
            ],
            shows: "(not (poison))",
            accepted: true,
        },
    ],
};
