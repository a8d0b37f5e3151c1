//! Proofs about what actions make of closed regions.
use crate::rows::Piece::Act;
use crate::rows::{Piece, ProofRow, ProofTable};
use pks_proof_lines::Reason::{Clear, Closed, Given, Grow, Keep};
use pks_terms::ids::ItemNo;

const TUBS: &str = "(pks 1)
(domain
  (types tub)
  (objects (tub one two))
  (predicates (full tub) (piped tub tub) (wet))
  (functions (last tub))
  (action rest)
  (action fill (effects (set (full one))))
  (action drain (effects (unset (full one))))
  (action splash (effects (when ((wet)) (set (full one)))))
  (action top (effects (set (full (last))) (assign (last) one)))
  (action choose (effects (assign (last) one)))
  (action empty-all (effects (clear (full _))))
  (action rinse (effects (when ((wet)) (clear (full _)))))
  (action refill (effects (clear (full _)) (set (full one))))
  (action spill (effects (clear (full _)) (when ((wet)) (set (full one)))))
  (action restart (effects (set (full one)) (clear (full _))))
  (action cut (effects (clear (piped (last) _)) (assign (last) one))))
";

const REST: Piece = Act(0);

const FILL: Piece = Act(1);

const DRAIN: Piece = Act(2);

const SPLASH: Piece = Act(3);

const TOP: Piece = Act(4);

const CHOOSE: Piece = Act(5);

const EMPTY_ALL: Piece = Act(6);

const RINSE: Piece = Act(7);

const REFILL: Piece = Act(8);

const SPILL: Piece = Act(9);

const RESTART: Piece = Act(10);

const CUT: Piece = Act(11);

const DRY: &str = "(lcw (full _)) (kf (not (wet))) (kf (= (last) two)) (lcw (piped (last) _))";

const ONE_FULL: &str = "(kf (full one)) (lcw (full _)) (kf (= (last) two))";

pub const KEPT: ProofTable = ProofTable {
    domain: TUBS,
    rows: &[
        ProofRow {
            init: DRY,
            path: &[REST],
            lines: &[
                (0, "(lcw (full _))", Given(ItemNo(1)), &[]),
                (1, "(lcw (full _))", Keep, &[1]),
                (1, "(kf (not (full two)))", Closed, &[2]),
            ],
            shows: "(not (full two))",
            accepted: true,
        },
        ProofRow {
            init: DRY,
            path: &[FILL],
            lines: &[
                (0, "(lcw (full _))", Given(ItemNo(1)), &[]),
                (1, "(lcw (full _))", Keep, &[1]),
                (1, "(kf (not (full two)))", Closed, &[2]),
            ],
            shows: "(not (full two))",
            accepted: false,
        },
        ProofRow {
            init: DRY,
            path: &[DRAIN],
            lines: &[
                (0, "(lcw (full _))", Given(ItemNo(1)), &[]),
                (1, "(lcw (full _))", Keep, &[1]),
                (1, "(kf (not (full two)))", Closed, &[2]),
            ],
            shows: "(not (full two))",
            accepted: true,
        },
        ProofRow {
            init: DRY,
            path: &[SPLASH],
            lines: &[
                (0, "(lcw (full _))", Given(ItemNo(1)), &[]),
                (1, "(lcw (full _))", Keep, &[1]),
                (1, "(kf (not (full two)))", Closed, &[2]),
            ],
            shows: "(not (full two))",
            accepted: false,
        },
        ProofRow {
            init: DRY,
            path: &[SPLASH],
            lines: &[
                (0, "(lcw (full _))", Given(ItemNo(1)), &[]),
                (0, "(kf (not (wet)))", Given(ItemNo(2)), &[]),
                (1, "(lcw (full _))", Keep, &[1, 2]),
                (1, "(kf (not (full two)))", Closed, &[3]),
            ],
            shows: "(not (full two))",
            accepted: true,
        },
        ProofRow {
            init: DRY,
            path: &[CHOOSE],
            lines: &[
                (0, "(lcw (piped (last) _))", Given(ItemNo(4)), &[]),
                (1, "(lcw (piped (last) _))", Keep, &[1]),
                (1, "(kf (not (piped (last) one)))", Closed, &[2]),
            ],
            shows: "(not (piped (last) one))",
            accepted: false,
        },
        ProofRow {
            init: DRY,
            path: &[FILL],
            lines: &[
                (0, "(lcw (piped (last) _))", Given(ItemNo(4)), &[]),
                (1, "(lcw (piped (last) _))", Keep, &[1]),
                (1, "(kf (not (piped (last) one)))", Closed, &[2]),
            ],
            shows: "(not (piped (last) one))",
            accepted: true,
        },
    ],
};

pub const GROWN: ProofTable = ProofTable {
    domain: TUBS,
    rows: &[
        ProofRow {
            init: DRY,
            path: &[FILL],
            lines: &[
                (0, "(lcw (full _))", Given(ItemNo(1)), &[]),
                (1, "(lcw (full _)) (kw (full one))", Grow, &[1]),
                (1, "(kf (not (full two)))", Closed, &[2]),
            ],
            shows: "(not (full two))",
            accepted: true,
        },
        ProofRow {
            init: DRY,
            path: &[FILL],
            lines: &[
                (0, "(lcw (full _))", Given(ItemNo(1)), &[]),
                (1, "(lcw (full _))", Grow, &[1]),
                (1, "(kf (not (full two)))", Closed, &[2]),
            ],
            shows: "(not (full two))",
            accepted: false,
        },
        ProofRow {
            init: DRY,
            path: &[FILL],
            lines: &[
                (0, "(lcw (full _))", Given(ItemNo(1)), &[]),
                (1, "(lcw (full _)) (kw (full two))", Grow, &[1]),
                (1, "(kf (not (full one)))", Closed, &[2]),
            ],
            shows: "(not (full one))",
            accepted: false,
        },
        ProofRow {
            init: ONE_FULL,
            path: &[FILL],
            lines: &[
                (0, "(lcw (full _)) (kw (full one))", Given(ItemNo(2)), &[]),
                (1, "(lcw (full _)) (kw (full one))", Grow, &[1]),
                (1, "(kf (not (full two)))", Closed, &[2]),
            ],
            shows: "(not (full two))",
            accepted: true,
        },
        ProofRow {
            init: ONE_FULL,
            path: &[DRAIN],
            lines: &[
                (0, "(lcw (full _)) (kw (full one))", Given(ItemNo(2)), &[]),
                (1, "(lcw (full _))", Grow, &[1]),
                (1, "(kf (not (full one)))", Closed, &[2]),
            ],
            shows: "(not (full one))",
            accepted: false,
        },
        ProofRow {
            init: DRY,
            path: &[SPLASH],
            lines: &[
                (0, "(lcw (full _))", Given(ItemNo(1)), &[]),
                (0, "(kf (not (wet)))", Given(ItemNo(2)), &[]),
                (1, "(lcw (full _))", Grow, &[1, 2]),
                (1, "(kf (not (full one)))", Closed, &[3]),
            ],
            shows: "(not (full one))",
            accepted: true,
        },
        ProofRow {
            init: DRY,
            path: &[SPLASH],
            lines: &[
                (0, "(lcw (full _))", Given(ItemNo(1)), &[]),
                (0, "(kf (not (wet)))", Given(ItemNo(2)), &[]),
                (1, "(lcw (full _)) (kw (full one))", Grow, &[1, 2]),
                (1, "(kf (not (full two)))", Closed, &[3]),
            ],
            shows: "(not (full two))",
            accepted: false,
        },
        ProofRow {
            init: DRY,
            path: &[TOP],
            lines: &[
                (0, "(lcw (full _))", Given(ItemNo(1)), &[]),
                (0, "(kf (= (last) two))", Given(ItemNo(3)), &[]),
                (1, "(lcw (full _)) (kw (full two))", Grow, &[1, 2]),
                (1, "(kf (not (full one)))", Closed, &[3]),
            ],
            shows: "(not (full one))",
            accepted: true,
        },
        ProofRow {
            init: DRY,
            path: &[TOP],
            lines: &[
                (0, "(lcw (full _))", Given(ItemNo(1)), &[]),
                (1, "(lcw (full _)) (kw (full two))", Grow, &[1]),
                (1, "(kf (not (full one)))", Closed, &[2]),
            ],
            shows: "(not (full one))",
            accepted: false,
        },
        ProofRow {
            init: DRY,
            path: &[FILL],
            lines: &[
                (0, "(lcw (piped (last) _))", Given(ItemNo(4)), &[]),
                (1, "(lcw (piped (last) _))", Grow, &[1]),
                (1, "(kf (not (piped (last) one)))", Closed, &[2]),
            ],
            shows: "(not (piped (last) one))",
            accepted: true,
        },
        ProofRow {
            init: DRY,
            path: &[CHOOSE],
            lines: &[
                (0, "(lcw (piped (last) _))", Given(ItemNo(4)), &[]),
                (1, "(lcw (piped (last) _))", Grow, &[1]),
                (1, "(kf (not (piped (last) one)))", Closed, &[2]),
            ],
            shows: "(not (piped (last) one))",
            accepted: false,
        },
        ProofRow {
            init: DRY,
            path: &[],
            lines: &[
                (0, "(lcw (full _))", Given(ItemNo(1)), &[]),
                (0, "(lcw (full _))", Grow, &[1]),
                (0, "(kf (not (full two)))", Closed, &[2]),
            ],
            shows: "(not (full two))",
            accepted: false,
        },
    ],
};

pub const CLEARED: ProofTable = ProofTable {
    domain: TUBS,
    rows: &[
        ProofRow {
            init: DRY,
            path: &[EMPTY_ALL],
            lines: &[
                (1, "(lcw (full _))", Clear, &[]),
                (1, "(kf (not (full one)))", Closed, &[1]),
            ],
            shows: "(not (full one))",
            accepted: true,
        },
        ProofRow {
            init: DRY,
            path: &[FILL],
            lines: &[
                (1, "(lcw (full _))", Clear, &[]),
                (1, "(kf (not (full two)))", Closed, &[1]),
            ],
            shows: "(not (full two))",
            accepted: false,
        },
        ProofRow {
            init: DRY,
            path: &[EMPTY_ALL],
            lines: &[
                (1, "(lcw (full _)) (kw (full one))", Clear, &[]),
                (1, "(kf (not (full two)))", Closed, &[1]),
            ],
            shows: "(not (full two))",
            accepted: false,
        },
        ProofRow {
            init: DRY,
            path: &[EMPTY_ALL],
            lines: &[
                (1, "(lcw (full one))", Clear, &[]),
                (1, "(kf (not (full one)))", Closed, &[1]),
            ],
            shows: "(not (full one))",
            accepted: false,
        },
        ProofRow {
            init: "(kf (wet))",
            path: &[RINSE],
            lines: &[
                (0, "(kf (wet))", Given(ItemNo(1)), &[]),
                (1, "(lcw (full _))", Clear, &[1]),
                (1, "(kf (not (full one)))", Closed, &[2]),
            ],
            shows: "(not (full one))",
            accepted: false,
        },
        ProofRow {
            init: DRY,
            path: &[REFILL],
            lines: &[
                (1, "(lcw (full _))", Clear, &[]),
                (1, "(kf (not (full two)))", Closed, &[1]),
            ],
            shows: "(not (full two))",
            accepted: false,
        },
        ProofRow {
            init: DRY,
            path: &[SPILL],
            lines: &[
                (1, "(lcw (full _))", Clear, &[]),
                (1, "(kf (not (full two)))", Closed, &[1]),
            ],
            shows: "(not (full two))",
            accepted: false,
        },
        ProofRow {
            init: DRY,
            path: &[SPILL],
            lines: &[
                (0, "(kf (not (wet)))", Given(ItemNo(2)), &[]),
                (1, "(lcw (full _))", Clear, &[1]),
                (1, "(kf (not (full two)))", Closed, &[2]),
            ],
            shows: "(not (full two))",
            accepted: true,
        },
        ProofRow {
            init: DRY,
            path: &[RESTART],
            lines: &[
                (1, "(lcw (full _))", Clear, &[]),
                (1, "(kf (not (full one)))", Closed, &[1]),
            ],
            shows: "(not (full one))",
            accepted: true,
        },
        ProofRow {
            init: DRY,
            path: &[CUT],
            lines: &[
                (1, "(lcw (piped (last) _))", Clear, &[]),
                (1, "(kf (not (piped (last) one)))", Closed, &[1]),
            ],
            shows: "(not (piped (last) one))",
            accepted: false,
        },
        ProofRow {
            init: DRY,
            path: &[CUT],
            lines: &[
                (0, "(kf (= (last) two))", Given(ItemNo(3)), &[]),
                (1, "(lcw (piped two _))", Clear, &[1]),
                (1, "(kf (not (piped two one)))", Closed, &[2]),
            ],
            shows: "(not (piped two one))",
            accepted: true,
        },
        ProofRow {
            init: DRY,
            path: &[CUT],
            lines: &[
                (1, "(lcw (piped two _))", Clear, &[]),
                (1, "(kf (not (piped two one)))", Closed, &[1]),
            ],
            shows: "(not (piped two one))",
            accepted: false,
        },
    ],
};
