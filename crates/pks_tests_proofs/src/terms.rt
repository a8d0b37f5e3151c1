//! Proofs in which a term is replaced by another.
use crate::rows::Piece::Act;
use crate::rows::{ProofRow, ProofTable};
use pks_proof_lines::Reason::{Closed, Given, Keep, Only, Swap};
use pks_terms::ids::ItemNo;

const ROOMS: &str = "(pks 1)
(domain
  (types room)
  (objects (room hall den attic))
  (predicates (lit room) (near room room))
  (functions (here room) (home room) (next room room))
  (action rest))
";

const HALL_LIT: &str = "(kf (lit hall)) (kf (= (here) hall))";

pub const LITERALS: ProofTable = ProofTable {
    domain: ROOMS,
    rows: &[
        ProofRow {
            init: HALL_LIT,
            path: &[],
            lines: &[
                (0, "(kf (lit hall))", Given(ItemNo(1)), &[]),
                (0, "(kf (= (here) hall))", Given(ItemNo(2)), &[]),
                (0, "(kf (lit (here)))", Swap, &[1, 2]),
            ],
            shows: "(lit (here))",
            accepted: true,
        },
        ProofRow {
            init: "(kf (lit (here))) (kf (= (here) hall))",
            path: &[],
            lines: &[
                (0, "(kf (lit (here)))", Given(ItemNo(1)), &[]),
                (0, "(kf (= (here) hall))", Given(ItemNo(2)), &[]),
                (0, "(kf (lit hall))", Swap, &[1, 2]),
            ],
            shows: "(lit hall)",
            accepted: true,
        },
        ProofRow {
            init: HALL_LIT,
            path: &[],
            lines: &[
                (0, "(kf (lit hall))", Given(ItemNo(1)), &[]),
                (0, "(kf (lit (here)))", Swap, &[1]),
            ],
            shows: "(lit (here))",
            accepted: false,
        },
        ProofRow {
            init: "(kf (lit hall)) (kf (= (here) den))",
            path: &[],
            lines: &[
                (0, "(kf (lit hall))", Given(ItemNo(1)), &[]),
                (0, "(kf (= (here) den))", Given(ItemNo(2)), &[]),
                (0, "(kf (lit (here)))", Swap, &[1, 2]),
            ],
            shows: "(lit (here))",
            accepted: false,
        },
        ProofRow {
            init: HALL_LIT,
            path: &[],
            lines: &[
                (0, "(kf (lit hall))", Given(ItemNo(1)), &[]),
                (0, "(kf (= (here) hall))", Given(ItemNo(2)), &[]),
                (0, "(kf (not (lit (here))))", Swap, &[1, 2]),
            ],
            shows: "(not (lit (here)))",
            accepted: false,
        },
        ProofRow {
            init: "(kf (near hall hall)) (kf (= (here) hall))",
            path: &[],
            lines: &[
                (0, "(kf (near hall hall))", Given(ItemNo(1)), &[]),
                (0, "(kf (= (here) hall))", Given(ItemNo(2)), &[]),
                (0, "(kf (near hall (here)))", Swap, &[1, 2]),
            ],
            shows: "(near hall (here))",
            accepted: true,
        },
        ProofRow {
            init: "(kf (near hall hall)) (kf (= (here) hall))",
            path: &[],
            lines: &[
                (0, "(kf (near hall hall))", Given(ItemNo(1)), &[]),
                (0, "(kf (= (here) hall))", Given(ItemNo(2)), &[]),
                (0, "(kf (near (here) (here)))", Swap, &[1, 2]),
            ],
            shows: "(near (here) (here))",
            accepted: false,
        },
        ProofRow {
            init: "(kf (lit (next hall))) (kf (= (here) hall))",
            path: &[],
            lines: &[
                (0, "(kf (lit (next hall)))", Given(ItemNo(1)), &[]),
                (0, "(kf (= (here) hall))", Given(ItemNo(2)), &[]),
                (0, "(kf (lit (next (here))))", Swap, &[1, 2]),
            ],
            shows: "(lit (next (here)))",
            accepted: true,
        },
        ProofRow {
            init: "(kf (not (= (here) den))) (kf (= (home) (here)))",
            path: &[],
            lines: &[
                (0, "(kf (not (= (here) den)))", Given(ItemNo(1)), &[]),
                (0, "(kf (= (home) (here)))", Given(ItemNo(2)), &[]),
                (0, "(kf (not (= (home) den)))", Swap, &[1, 2]),
            ],
            shows: "(not (= (home) den))",
            accepted: true,
        },
        ProofRow {
            init: HALL_LIT,
            path: &[Act(0)],
            lines: &[
                (0, "(kf (lit hall))", Given(ItemNo(1)), &[]),
                (1, "(kf (lit hall))", Keep, &[1]),
                (0, "(kf (= (here) hall))", Given(ItemNo(2)), &[]),
                (1, "(kf (= (here) hall))", Keep, &[3]),
                (1, "(kf (lit (here)))", Swap, &[2, 4]),
            ],
            shows: "(lit (here))",
            accepted: true,
        },
        ProofRow {
            init: HALL_LIT,
            path: &[Act(0)],
            lines: &[
                (0, "(kf (lit hall))", Given(ItemNo(1)), &[]),
                (1, "(kf (lit hall))", Keep, &[1]),
                (0, "(kf (= (here) hall))", Given(ItemNo(2)), &[]),
                (1, "(kf (lit (here)))", Swap, &[2, 3]),
            ],
            shows: "(lit (here))",
            accepted: false,
        },
    ],
};

const ONE_LIT: &str = "(kx (lit hall) (lit den)) (kf (= (here) hall)) (kf (not (lit den)))";

const LISTED: &str = "(kf (lit hall)) (lcw (lit _)) (kf (= (here) hall)) (kf (not (= (here) den)))";

const NEAR: &str = "(lcw (near hall _)) (kf (= (here) hall)) (kf (= (home) den))";

pub const GROUPS_AND_REGIONS: ProofTable = ProofTable {
    domain: ROOMS,
    rows: &[
        ProofRow {
            init: ONE_LIT,
            path: &[],
            lines: &[
                (0, "(kx (lit hall) (lit den))", Given(ItemNo(1)), &[]),
                (0, "(kf (= (here) hall))", Given(ItemNo(2)), &[]),
                (0, "(kx (lit den) (lit (here)))", Swap, &[1, 2]),
                (0, "(kf (not (lit den)))", Given(ItemNo(3)), &[]),
                (0, "(kf (lit (here)))", Only, &[3, 4]),
            ],
            shows: "(lit (here))",
            accepted: true,
        },
        ProofRow {
            init: ONE_LIT,
            path: &[],
            lines: &[
                (0, "(kx (lit hall) (lit den))", Given(ItemNo(1)), &[]),
                (0, "(kx (lit den) (lit (here)))", Swap, &[1]),
                (0, "(kf (not (lit den)))", Given(ItemNo(3)), &[]),
                (0, "(kf (lit (here)))", Only, &[2, 3]),
            ],
            shows: "(lit (here))",
            accepted: false,
        },
        ProofRow {
            init: LISTED,
            path: &[],
            lines: &[
                (0, "(lcw (lit _)) (kw (lit hall))", Given(ItemNo(2)), &[]),
                (0, "(kf (= (here) hall))", Given(ItemNo(3)), &[]),
                (0, "(lcw (lit _)) (kw (lit (here)))", Swap, &[1, 2]),
                (0, "(kf (not (= (here) den)))", Given(ItemNo(4)), &[]),
                (0, "(kf (not (lit den)))", Closed, &[3, 4]),
            ],
            shows: "(not (lit den))",
            accepted: true,
        },
        ProofRow {
            init: LISTED,
            path: &[],
            lines: &[
                (0, "(lcw (lit _)) (kw (lit hall))", Given(ItemNo(2)), &[]),
                (0, "(lcw (lit _)) (kw (lit (here)))", Swap, &[1]),
                (0, "(kf (not (= (here) den)))", Given(ItemNo(4)), &[]),
                (0, "(kf (not (lit den)))", Closed, &[2, 3]),
            ],
            shows: "(not (lit den))",
            accepted: false,
        },
        ProofRow {
            init: NEAR,
            path: &[],
            lines: &[
                (0, "(lcw (near hall _))", Given(ItemNo(1)), &[]),
                (0, "(kf (= (here) hall))", Given(ItemNo(2)), &[]),
                (0, "(lcw (near (here) _))", Swap, &[1, 2]),
                (0, "(kf (not (near (here) attic)))", Closed, &[3]),
            ],
            shows: "(not (near (here) attic))",
            accepted: true,
        },
        ProofRow {
            init: NEAR,
            path: &[],
            lines: &[
                (0, "(lcw (near hall _))", Given(ItemNo(1)), &[]),
                (0, "(kf (= (home) den))", Given(ItemNo(3)), &[]),
                (0, "(lcw (near (home) _))", Swap, &[1, 2]),
                (0, "(kf (not (near (home) attic)))", Closed, &[3]),
            ],
            shows: "(not (near (home) attic))",
            accepted: false,
        },
    ],
};
