//! Proofs about terms whose values actions change.
use crate::rows::Piece::{Act, At, False, True};
use crate::rows::{Piece, ProofRow, ProofTable};
use pks_proof_lines::Reason::{Back, Cannot, Effect, Given, Keep, Must, Only, Same, Side, Swap};
use pks_terms::ids::ItemNo;

const PLACES: &str = "(pks 1)
(domain
  (types room item)
  (objects (room hall den) (item cup book))
  (predicates (at room) (sun) (rain))
  (functions (next room) (here room) (held item) (loc item room))
  (action rest)
  (action mark (effects (set (at (next)))))
  (action go (effects (set (at (next))) (assign (next) hall)))
  (action turn (effects (assign (next) hall)))
  (action put (effects (assign (loc (held)) hall)))
  (action follow (effects (assign (here) (next)) (assign (next) hall)))
  (action visit (effects (when ((sun)) (set (at (next)))) (assign (next) hall)))
  (action drift (effects (when ((sun)) (assign (here) hall)) (when ((rain)) (assign (here) den))))
  (action carry (params (?i item)) (effects (assign (loc ?i) (here)))))
";

const REST: Piece = Act(0);

const MARK: Piece = Act(1);

const GO: Piece = Act(2);

const TURN: Piece = Act(3);

const PUT: Piece = Act(4);

const FOLLOW: Piece = Act(5);

const VISIT: Piece = Act(6);

const DRIFT: Piece = Act(7);

const CARRY_BOOK: Piece = At(8, 3);

const NEXT: &str = "(kf (at (next))) (kf (= (next) den))";

const CUP: &str = "(kf (= (loc cup) den)) (kf (not (= (held) cup)))";

/// What is kept of terms that an action may change.
pub const STEADY: ProofTable = ProofTable {
    domain: PLACES,
    rows: &[
        ProofRow {
            init: NEXT,
            path: &[REST],
            lines: &[
                (0, "(kf (at (next)))", Given(ItemNo(1)), &[]),
                (1, "(kf (at (next)))", Keep, &[1]),
            ],
            shows: "(at (next))",
            accepted: true,
        },
        ProofRow {
            init: NEXT,
            path: &[TURN],
            lines: &[
                (0, "(kf (at (next)))", Given(ItemNo(1)), &[]),
                (1, "(kf (at (next)))", Keep, &[1]),
            ],
            shows: "(at (next))",
            accepted: false,
        },
        ProofRow {
            init: NEXT,
            path: &[TURN],
            lines: &[
                (0, "(kf (at (next)))", Given(ItemNo(1)), &[]),
                (0, "(kf (= (next) den))", Given(ItemNo(2)), &[]),
                (0, "(kf (at den))", Swap, &[1, 2]),
                (1, "(kf (at den))", Keep, &[3]),
            ],
            shows: "(at den)",
            accepted: true,
        },
        ProofRow {
            init: CUP,
            path: &[PUT],
            lines: &[
                (0, "(kf (= (loc cup) den))", Given(ItemNo(1)), &[]),
                (1, "(kf (= (loc cup) den))", Keep, &[1]),
            ],
            shows: "(= (loc cup) den)",
            accepted: false,
        },
        ProofRow {
            init: CUP,
            path: &[PUT],
            lines: &[
                (0, "(kf (= (loc cup) den))", Given(ItemNo(1)), &[]),
                (0, "(kf (not (= (held) cup)))", Given(ItemNo(2)), &[]),
                (1, "(kf (= (loc cup) den))", Keep, &[1, 2]),
            ],
            shows: "(= (loc cup) den)",
            accepted: true,
        },
        ProofRow {
            init: CUP,
            path: &[CARRY_BOOK],
            lines: &[
                (0, "(kf (= (loc cup) den))", Given(ItemNo(1)), &[]),
                (1, "(kf (= (loc cup) den))", Keep, &[1]),
            ],
            shows: "(= (loc cup) den)",
            accepted: true,
        },
        ProofRow {
            init: "(kf (= (loc book) den))",
            path: &[CARRY_BOOK],
            lines: &[
                (0, "(kf (= (loc book) den))", Given(ItemNo(1)), &[]),
                (1, "(kf (= (loc book) den))", Keep, &[1]),
            ],
            shows: "(= (loc book) den)",
            accepted: false,
        },
        ProofRow {
            init: "(kf (= (next) den))",
            path: &[REST, True("(kw (at (next)))")],
            lines: &[
                (1, "(kf (at (next)))", Side(1), &[]),
                (0, "(kf (at (next)))", Back, &[1]),
                (0, "(kf (= (next) den))", Given(ItemNo(1)), &[]),
                (0, "(kf (at den))", Swap, &[2, 3]),
                (1, "(kf (at den))", Keep, &[4]),
            ],
            shows: "(at den)",
            accepted: true,
        },
        ProofRow {
            init: "(kf (= (next) den))",
            path: &[TURN, True("(kw (at (next)))")],
            lines: &[
                (1, "(kf (at (next)))", Side(1), &[]),
                (0, "(kf (at (next)))", Back, &[1]),
                (0, "(kf (= (next) den))", Given(ItemNo(1)), &[]),
                (0, "(kf (at den))", Swap, &[2, 3]),
                (1, "(kf (at den))", Keep, &[4]),
            ],
            shows: "(at den)",
            accepted: false,
        },
        ProofRow {
            init: "(kx (at hall) (at (next))) (kf (not (at hall)))",
            path: &[TURN],
            lines: &[
                (0, "(kx (at hall) (at (next)))", Given(ItemNo(1)), &[]),
                (1, "(kx (at hall) (at (next)))", Keep, &[1]),
                (0, "(kf (not (at hall)))", Given(ItemNo(2)), &[]),
                (1, "(kf (not (at hall)))", Keep, &[3]),
                (1, "(kf (at (next)))", Only, &[2, 4]),
            ],
            shows: "(at (next))",
            accepted: false,
        },
    ],
};

const HELD: &str = "(kf (= (held) cup)) (kf (= (loc cup) (loc book)))";

/// Targets with terms that an action may change, or that are replaced.
pub const TARGETS: ProofTable = ProofTable {
    domain: PLACES,
    rows: &[
        ProofRow {
            init: "",
            path: &[MARK],
            lines: &[(1, "(kf (at (next)))", Effect, &[])],
            shows: "(at (next))",
            accepted: true,
        },
        ProofRow {
            init: "",
            path: &[GO],
            lines: &[(1, "(kf (at (next)))", Effect, &[])],
            shows: "(at (next))",
            accepted: false,
        },
        ProofRow {
            init: "(kf (= (next) den))",
            path: &[GO],
            lines: &[
                (0, "(kf (= (next) den))", Given(ItemNo(1)), &[]),
                (1, "(kf (at den))", Effect, &[1]),
            ],
            shows: "(at den)",
            accepted: true,
        },
        ProofRow {
            init: "(kf (= (next) den))",
            path: &[GO],
            lines: &[(1, "(kf (at den))", Effect, &[])],
            shows: "(at den)",
            accepted: false,
        },
        ProofRow {
            init: "(kf (= (next) den))",
            path: &[GO],
            lines: &[
                (0, "(kf (= (next) den))", Given(ItemNo(1)), &[]),
                (1, "(kf (at hall))", Effect, &[1]),
            ],
            shows: "(at hall)",
            accepted: false,
        },
        ProofRow {
            init: "",
            path: &[TURN],
            lines: &[(1, "(kf (= (next) hall))", Effect, &[])],
            shows: "(= (next) hall)",
            accepted: true,
        },
        ProofRow {
            init: "",
            path: &[TURN],
            lines: &[(1, "(kf (= (next) den))", Effect, &[])],
            shows: "(= (next) den)",
            accepted: false,
        },
        ProofRow {
            init: "",
            path: &[FOLLOW],
            lines: &[(1, "(kf (= (here) (next)))", Effect, &[])],
            shows: "(= (here) (next))",
            accepted: false,
        },
        ProofRow {
            init: "(kf (= (next) den))",
            path: &[FOLLOW],
            lines: &[
                (0, "(kf (= (next) den))", Given(ItemNo(1)), &[]),
                (1, "(kf (= (here) den))", Effect, &[1]),
            ],
            shows: "(= (here) den)",
            accepted: true,
        },
        ProofRow {
            init: "",
            path: &[CARRY_BOOK],
            lines: &[(1, "(kf (= (loc book) (here)))", Effect, &[])],
            shows: "(= (loc book) (here))",
            accepted: true,
        },
        ProofRow {
            init: "",
            path: &[CARRY_BOOK],
            lines: &[(1, "(kf (= (loc cup) (here)))", Effect, &[])],
            shows: "(= (loc cup) (here))",
            accepted: false,
        },
        ProofRow {
            init: HELD,
            path: &[PUT],
            lines: &[
                (0, "(kf (= (held) cup))", Given(ItemNo(1)), &[]),
                (1, "(kf (= (loc cup) hall))", Effect, &[1]),
            ],
            shows: "(= (loc cup) hall)",
            accepted: true,
        },
        ProofRow {
            init: HELD,
            path: &[PUT],
            lines: &[(1, "(kf (= (loc cup) hall))", Effect, &[])],
            shows: "(= (loc cup) hall)",
            accepted: false,
        },
        ProofRow {
            init: HELD,
            path: &[PUT],
            lines: &[
                (0, "(kf (= (held) cup))", Given(ItemNo(1)), &[]),
                (0, "(kf (= (loc cup) (loc book)))", Given(ItemNo(2)), &[]),
                (1, "(kf (= (loc book) hall))", Effect, &[1, 2]),
            ],
            shows: "(= (loc book) hall)",
            accepted: false,
        },
    ],
};

const DEN_NEXT: &str = "(kf (not (at den))) (kf (= (next) den)) (kf (not (at (next))))";

const NOT_HALL: &str = "(kf (not (= (here) hall)))";

/// Conditions of effects whose targets have terms that the action may change.
pub const CONDITIONS: ProofTable = ProofTable {
    domain: PLACES,
    rows: &[
        ProofRow {
            init: DEN_NEXT,
            path: &[VISIT, True("(kw (at den))")],
            lines: &[
                (0, "(kf (not (at den)))", Given(ItemNo(1)), &[]),
                (1, "(kf (at den))", Side(1), &[]),
                (0, "(kf (= (next) den))", Given(ItemNo(2)), &[]),
                (0, "(kf (sun))", Must, &[1, 2, 3]),
                (1, "(kf (sun))", Keep, &[4]),
            ],
            shows: "(sun)",
            accepted: true,
        },
        ProofRow {
            init: DEN_NEXT,
            path: &[VISIT, True("(kw (at den))")],
            lines: &[
                (0, "(kf (not (at den)))", Given(ItemNo(1)), &[]),
                (1, "(kf (at den))", Side(1), &[]),
                (0, "(kf (sun))", Must, &[1, 2]),
                (1, "(kf (sun))", Keep, &[3]),
            ],
            shows: "(sun)",
            accepted: false,
        },
        ProofRow {
            init: DEN_NEXT,
            path: &[VISIT, True("(kw (at (next)))")],
            lines: &[
                (0, "(kf (not (at (next))))", Given(ItemNo(3)), &[]),
                (1, "(kf (at (next)))", Side(1), &[]),
                (0, "(kf (sun))", Must, &[1, 2]),
                (1, "(kf (sun))", Keep, &[3]),
            ],
            shows: "(sun)",
            accepted: false,
        },
        ProofRow {
            init: DEN_NEXT,
            path: &[VISIT, False("(kw (at den))")],
            lines: &[
                (1, "(kf (not (at den)))", Side(1), &[]),
                (0, "(kf (= (next) den))", Given(ItemNo(2)), &[]),
                (0, "(kf (not (sun)))", Cannot, &[1, 2]),
                (1, "(kf (not (sun)))", Keep, &[3]),
            ],
            shows: "(not (sun))",
            accepted: true,
        },
        ProofRow {
            init: DEN_NEXT,
            path: &[VISIT, False("(kw (at den))")],
            lines: &[
                (1, "(kf (not (at den)))", Side(1), &[]),
                (0, "(kf (not (sun)))", Cannot, &[1]),
                (1, "(kf (not (sun)))", Keep, &[2]),
            ],
            shows: "(not (sun))",
            accepted: false,
        },
        ProofRow {
            init: DEN_NEXT,
            path: &[VISIT, False("(kw (at (next)))")],
            lines: &[
                (1, "(kf (not (at (next))))", Side(1), &[]),
                (0, "(kf (not (sun)))", Cannot, &[1]),
                (1, "(kf (not (sun)))", Keep, &[2]),
            ],
            shows: "(not (sun))",
            accepted: false,
        },
        ProofRow {
            init: NOT_HALL,
            path: &[DRIFT, True("(kw (= (here) hall))")],
            lines: &[
                (0, "(kf (not (= (here) hall)))", Given(ItemNo(1)), &[]),
                (1, "(kf (= (here) hall))", Side(1), &[]),
                (0, "(kf (not (= hall den)))", Same, &[]),
                (0, "(kf (sun))", Must, &[1, 2, 3]),
                (1, "(kf (sun))", Keep, &[4]),
            ],
            shows: "(sun)",
            accepted: true,
        },
        ProofRow {
            init: NOT_HALL,
            path: &[DRIFT, True("(kw (= (here) hall))")],
            lines: &[
                (0, "(kf (not (= (here) hall)))", Given(ItemNo(1)), &[]),
                (1, "(kf (= (here) hall))", Side(1), &[]),
                (0, "(kf (sun))", Must, &[1, 2]),
                (1, "(kf (sun))", Keep, &[3]),
            ],
            shows: "(sun)",
            accepted: false,
        },
    ],
};
