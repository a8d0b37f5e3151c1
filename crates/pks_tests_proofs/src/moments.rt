//! Proofs about one moment: of what is given, of sides that are taken, of groups and of closed regions; and what every proof
//! must be like.
use crate::rows::Piece::{Act, Case, False, True};
use crate::rows::{ProofRow, ProofTable};
use pks_proof_lines::Reason::{Closed, Given, Keep, Only, Others, Range, Same, Side};
use pks_terms::ids::ItemNo;

const ROOMS: &str = "(pks 1)
(domain
  (types room)
  (objects (room hall den attic))
  (predicates (lit room) (near room room) (cold) (wet) (dark) (warm))
  (functions (here room) (home room) (next room room))
  (action rest))
";

/// The door that is known to be open.
pub const DOOR: ProofTable = ProofTable {
    domain: "(pks 1)\n(domain (predicates (open)))\n",
    rows: &[
        ProofRow {
            init: "(kf (open))",
            path: &[],
            lines: &[(0, "(kf (open))", Given(ItemNo(1)), &[])],
            shows: "(open)",
            accepted: true,
        },
        ProofRow {
            init: "(kf (open))",
            path: &[],
            lines: &[(0, "(kf (open))", Given(ItemNo(2)), &[])],
            shows: "(open)",
            accepted: false,
        },
    ],
};

const ITEMS: &str =
    "(kf (cold)) (kx (wet) (dark)) (kf (lit hall)) (lcw (lit _)) (kw (warm)) (kf (not (dark)))";

pub const ITEMS_GIVEN: ProofTable = ProofTable {
    domain: ROOMS,
    rows: &[
        ProofRow {
            init: ITEMS,
            path: &[],
            lines: &[(0, "(kf (cold))", Given(ItemNo(1)), &[])],
            shows: "(cold)",
            accepted: true,
        },
        ProofRow {
            init: ITEMS,
            path: &[],
            lines: &[(0, "(kf (cold))", Given(ItemNo(0)), &[])],
            shows: "(cold)",
            accepted: false,
        },
        ProofRow {
            init: ITEMS,
            path: &[],
            lines: &[(0, "(kf (cold))", Given(ItemNo(3)), &[])],
            shows: "(cold)",
            accepted: false,
        },
        ProofRow {
            init: ITEMS,
            path: &[],
            lines: &[(0, "(kf (not (cold)))", Given(ItemNo(1)), &[])],
            shows: "(not (cold))",
            accepted: false,
        },
        ProofRow {
            init: ITEMS,
            path: &[Act(0)],
            lines: &[(1, "(kf (cold))", Given(ItemNo(1)), &[])],
            shows: "(cold)",
            accepted: false,
        },
        ProofRow {
            init: ITEMS,
            path: &[],
            lines: &[
                (0, "(kx (wet) (dark))", Given(ItemNo(2)), &[]),
                (0, "(kf (not (dark)))", Given(ItemNo(6)), &[]),
                (0, "(kf (wet))", Only, &[1, 2]),
            ],
            shows: "(wet)",
            accepted: true,
        },
        ProofRow {
            init: ITEMS,
            path: &[],
            lines: &[
                (0, "(kx (warm) (dark))", Given(ItemNo(2)), &[]),
                (0, "(kf (not (dark)))", Given(ItemNo(6)), &[]),
                (0, "(kf (warm))", Only, &[1, 2]),
            ],
            shows: "(warm)",
            accepted: false,
        },
        ProofRow {
            init: ITEMS,
            path: &[],
            lines: &[
                (0, "(lcw (lit _)) (kw (lit hall))", Given(ItemNo(4)), &[]),
                (0, "(kf (not (lit den)))", Closed, &[1]),
            ],
            shows: "(not (lit den))",
            accepted: true,
        },
        ProofRow {
            init: ITEMS,
            path: &[],
            lines: &[
                (0, "(lcw (lit _))", Given(ItemNo(4)), &[]),
                (0, "(kf (not (lit den)))", Closed, &[1]),
            ],
            shows: "(not (lit den))",
            accepted: false,
        },
        ProofRow {
            init: ITEMS,
            path: &[],
            lines: &[(0, "(kf (warm))", Given(ItemNo(5)), &[])],
            shows: "(warm)",
            accepted: false,
        },
    ],
};

const TWO_OF_THREE: &str = "(kf (cold)) (kf (dark))";

pub const SIDES: ProofTable = ProofTable {
    domain: ROOMS,
    rows: &[
        ProofRow {
            init: "",
            path: &[True("(kw (cold) (wet))")],
            lines: &[(0, "(kf (wet))", Side(1), &[])],
            shows: "(wet)",
            accepted: true,
        },
        ProofRow {
            init: "",
            path: &[True("(kw (cold) (wet))")],
            lines: &[(0, "(kf (dark))", Side(1), &[])],
            shows: "(dark)",
            accepted: false,
        },
        ProofRow {
            init: "",
            path: &[True("(kw (cold) (wet))")],
            lines: &[(0, "(kf (not (wet)))", Side(1), &[])],
            shows: "(not (wet))",
            accepted: false,
        },
        ProofRow {
            init: TWO_OF_THREE,
            path: &[False("(kw (cold) (wet) (dark))")],
            lines: &[
                (0, "(kf (cold))", Given(ItemNo(1)), &[]),
                (0, "(kf (dark))", Given(ItemNo(2)), &[]),
                (0, "(kf (not (wet)))", Side(1), &[1, 2]),
            ],
            shows: "(not (wet))",
            accepted: true,
        },
        ProofRow {
            init: TWO_OF_THREE,
            path: &[False("(kw (cold) (wet) (dark))")],
            lines: &[
                (0, "(kf (cold))", Given(ItemNo(1)), &[]),
                (0, "(kf (not (wet)))", Side(1), &[1]),
            ],
            shows: "(not (wet))",
            accepted: false,
        },
        ProofRow {
            init: TWO_OF_THREE,
            path: &[False("(kw (cold) (wet) (dark))")],
            lines: &[
                (0, "(kf (dark))", Given(ItemNo(2)), &[]),
                (0, "(kf (not (wet)))", Side(1), &[1]),
            ],
            shows: "(not (wet))",
            accepted: false,
        },
        ProofRow {
            init: "",
            path: &[False("(kw (cold))")],
            lines: &[(0, "(kf (not (cold)))", Side(1), &[])],
            shows: "(not (cold))",
            accepted: true,
        },
        ProofRow {
            init: "",
            path: &[False("(kw (cold))")],
            lines: &[(0, "(kf (cold))", Side(1), &[])],
            shows: "(cold)",
            accepted: false,
        },
        ProofRow {
            init: "",
            path: &[False("(kw (cold) (wet))")],
            lines: &[(0, "(kf (not (cold)))", Side(1), &[])],
            shows: "(not (cold))",
            accepted: false,
        },
        ProofRow {
            init: "",
            path: &[Case("(kv (here))", 1)],
            lines: &[(0, "(kf (= (here) den))", Side(1), &[])],
            shows: "(= (here) den)",
            accepted: true,
        },
        ProofRow {
            init: "",
            path: &[Case("(kv (here))", 1)],
            lines: &[(0, "(kf (= (here) hall))", Side(1), &[])],
            shows: "(= (here) hall)",
            accepted: false,
        },
        ProofRow {
            init: "",
            path: &[True("(kw (cold))"), True("(kw (wet))")],
            lines: &[(0, "(kf (wet))", Side(2), &[])],
            shows: "(wet)",
            accepted: true,
        },
        ProofRow {
            init: "",
            path: &[True("(kw (cold))"), True("(kw (wet))")],
            lines: &[(0, "(kf (wet))", Side(1), &[])],
            shows: "(wet)",
            accepted: false,
        },
        ProofRow {
            init: "",
            path: &[True("(kw (cold))"), True("(kw (wet))")],
            lines: &[(0, "(kf (wet))", Side(3), &[])],
            shows: "(wet)",
            accepted: false,
        },
        ProofRow {
            init: "",
            path: &[Act(0), True("(kw (cold))")],
            lines: &[(1, "(kf (cold))", Side(1), &[])],
            shows: "(cold)",
            accepted: true,
        },
        ProofRow {
            init: "",
            path: &[True("(kw (cold))"), Act(0)],
            lines: &[(1, "(kf (cold))", Side(1), &[])],
            shows: "(cold)",
            accepted: false,
        },
    ],
};

const ONE_OF_THREE: &str = "(kx (cold) (wet) (dark)) (kf (not (cold))) (kf (not (dark)))";

pub const LAST_MEMBERS: ProofTable = ProofTable {
    domain: ROOMS,
    rows: &[
        ProofRow {
            init: ONE_OF_THREE,
            path: &[],
            lines: &[
                (0, "(kx (cold) (wet) (dark))", Given(ItemNo(1)), &[]),
                (0, "(kf (not (cold)))", Given(ItemNo(2)), &[]),
                (0, "(kf (not (dark)))", Given(ItemNo(3)), &[]),
                (0, "(kf (wet))", Only, &[1, 2, 3]),
            ],
            shows: "(wet)",
            accepted: true,
        },
        ProofRow {
            init: ONE_OF_THREE,
            path: &[],
            lines: &[
                (0, "(kx (cold) (wet) (dark))", Given(ItemNo(1)), &[]),
                (0, "(kf (not (cold)))", Given(ItemNo(2)), &[]),
                (0, "(kf (wet))", Only, &[1, 2]),
            ],
            shows: "(wet)",
            accepted: false,
        },
        ProofRow {
            init: ONE_OF_THREE,
            path: &[],
            lines: &[
                (0, "(kx (cold) (wet) (dark))", Given(ItemNo(1)), &[]),
                (0, "(kf (not (dark)))", Given(ItemNo(3)), &[]),
                (0, "(kf (wet))", Only, &[1, 2]),
            ],
            shows: "(wet)",
            accepted: false,
        },
        ProofRow {
            init: ONE_OF_THREE,
            path: &[],
            lines: &[
                (0, "(kx (cold) (wet) (dark))", Given(ItemNo(1)), &[]),
                (0, "(kf (not (cold)))", Given(ItemNo(2)), &[]),
                (0, "(kf (not (dark)))", Given(ItemNo(3)), &[]),
                (0, "(kf (warm))", Only, &[1, 2, 3]),
            ],
            shows: "(warm)",
            accepted: false,
        },
        ProofRow {
            init: ONE_OF_THREE,
            path: &[],
            lines: &[
                (0, "(kf (not (cold)))", Given(ItemNo(2)), &[]),
                (0, "(kf (not (dark)))", Given(ItemNo(3)), &[]),
                (0, "(kf (wet))", Only, &[1, 2]),
            ],
            shows: "(wet)",
            accepted: false,
        },
    ],
};

const THE_COLD_ONE: &str = "(kx (cold) (wet) (dark)) (kf (cold))";

pub const OTHER_MEMBERS: ProofTable = ProofTable {
    domain: ROOMS,
    rows: &[
        ProofRow {
            init: THE_COLD_ONE,
            path: &[],
            lines: &[
                (0, "(kx (cold) (wet) (dark))", Given(ItemNo(1)), &[]),
                (0, "(kf (cold))", Given(ItemNo(2)), &[]),
                (0, "(kf (not (dark)))", Others, &[1, 2]),
            ],
            shows: "(not (dark))",
            accepted: true,
        },
        ProofRow {
            init: THE_COLD_ONE,
            path: &[],
            lines: &[
                (0, "(kx (cold) (wet) (dark))", Given(ItemNo(1)), &[]),
                (0, "(kf (not (dark)))", Others, &[1]),
            ],
            shows: "(not (dark))",
            accepted: false,
        },
        ProofRow {
            init: THE_COLD_ONE,
            path: &[],
            lines: &[
                (0, "(kx (cold) (wet) (dark))", Given(ItemNo(1)), &[]),
                (0, "(kf (cold))", Given(ItemNo(2)), &[]),
                (0, "(kf (not (cold)))", Others, &[1, 2]),
            ],
            shows: "(not (cold))",
            accepted: false,
        },
        ProofRow {
            init: THE_COLD_ONE,
            path: &[],
            lines: &[
                (0, "(kx (cold) (wet) (dark))", Given(ItemNo(1)), &[]),
                (0, "(kf (cold))", Given(ItemNo(2)), &[]),
                (0, "(kf (not (warm)))", Others, &[1, 2]),
            ],
            shows: "(not (warm))",
            accepted: false,
        },
        ProofRow {
            init: THE_COLD_ONE,
            path: &[],
            lines: &[
                (0, "(kx (cold) (wet) (dark))", Given(ItemNo(1)), &[]),
                (0, "(kf (cold))", Given(ItemNo(2)), &[]),
                (0, "(kf (dark))", Others, &[1, 2]),
            ],
            shows: "(dark)",
            accepted: false,
        },
    ],
};

const NOWHERE: &str =
    "(kf (not (= (here) hall))) (kf (not (= (here) den))) (kf (not (= (here) attic)))";

pub const LAST_OBJECTS: ProofTable = ProofTable {
    domain: ROOMS,
    rows: &[
        ProofRow {
            init: NOWHERE,
            path: &[],
            lines: &[
                (0, "(kf (not (= (here) hall)))", Given(ItemNo(1)), &[]),
                (0, "(kf (not (= (here) den)))", Given(ItemNo(2)), &[]),
                (0, "(kf (= (here) attic))", Range, &[1, 2]),
            ],
            shows: "(= (here) attic)",
            accepted: true,
        },
        ProofRow {
            init: NOWHERE,
            path: &[],
            lines: &[
                (0, "(kf (not (= (here) hall)))", Given(ItemNo(1)), &[]),
                (0, "(kf (= (here) attic))", Range, &[1]),
            ],
            shows: "(= (here) attic)",
            accepted: false,
        },
        ProofRow {
            init: NOWHERE,
            path: &[],
            lines: &[
                (0, "(kf (not (= (here) den)))", Given(ItemNo(2)), &[]),
                (0, "(kf (= (here) attic))", Range, &[1]),
            ],
            shows: "(= (here) attic)",
            accepted: false,
        },
        ProofRow {
            init: NOWHERE,
            path: &[],
            lines: &[
                (0, "(kf (not (= (here) den)))", Given(ItemNo(2)), &[]),
                (0, "(kf (not (= (here) attic)))", Given(ItemNo(3)), &[]),
                (0, "(kf (= (here) hall))", Range, &[1, 2]),
            ],
            shows: "(= (here) hall)",
            accepted: true,
        },
        ProofRow {
            init: NOWHERE,
            path: &[],
            lines: &[
                (0, "(kf (not (= (here) den)))", Given(ItemNo(2)), &[]),
                (0, "(kf (= (here) hall))", Range, &[1]),
            ],
            shows: "(= (here) hall)",
            accepted: false,
        },
        ProofRow {
            init: NOWHERE,
            path: &[],
            lines: &[
                (0, "(kf (not (= (here) hall)))", Given(ItemNo(1)), &[]),
                (0, "(kf (not (= (here) den)))", Given(ItemNo(2)), &[]),
                (0, "(kf (= (home) attic))", Range, &[1, 2]),
            ],
            shows: "(= (home) attic)",
            accepted: false,
        },
    ],
};

const HALL_LIT: &str = "(kf (lit hall)) (lcw (lit _)) (kf (not (= (here) hall)))";

const TWO_LIT: &str =
    "(kf (lit hall)) (kf (lit den)) (lcw (lit _)) (kf (not (= (here) hall))) (kf (not (= (here) den)))";

pub const SHUT_OUT: ProofTable = ProofTable {
    domain: ROOMS,
    rows: &[
        ProofRow {
            init: HALL_LIT,
            path: &[],
            lines: &[
                (0, "(lcw (lit _)) (kw (lit hall))", Given(ItemNo(2)), &[]),
                (0, "(kf (not (lit den)))", Closed, &[1]),
            ],
            shows: "(not (lit den))",
            accepted: true,
        },
        ProofRow {
            init: HALL_LIT,
            path: &[],
            lines: &[
                (0, "(lcw (lit _)) (kw (lit hall))", Given(ItemNo(2)), &[]),
                (0, "(kf (not (lit hall)))", Closed, &[1]),
            ],
            shows: "(not (lit hall))",
            accepted: false,
        },
        ProofRow {
            init: HALL_LIT,
            path: &[],
            lines: &[
                (0, "(lcw (lit _)) (kw (lit hall))", Given(ItemNo(2)), &[]),
                (0, "(kf (lit den))", Closed, &[1]),
            ],
            shows: "(lit den)",
            accepted: false,
        },
        ProofRow {
            init: HALL_LIT,
            path: &[],
            lines: &[
                (0, "(lcw (lit _)) (kw (lit hall))", Given(ItemNo(2)), &[]),
                (0, "(kf (not (lit (here))))", Closed, &[1]),
            ],
            shows: "(not (lit (here)))",
            accepted: false,
        },
        ProofRow {
            init: HALL_LIT,
            path: &[],
            lines: &[
                (0, "(lcw (lit _)) (kw (lit hall))", Given(ItemNo(2)), &[]),
                (0, "(kf (not (= (here) hall)))", Given(ItemNo(3)), &[]),
                (0, "(kf (not (lit (here))))", Closed, &[1, 2]),
            ],
            shows: "(not (lit (here)))",
            accepted: true,
        },
        ProofRow {
            init: TWO_LIT,
            path: &[],
            lines: &[
                (
                    0,
                    "(lcw (lit _)) (kw (lit hall) (lit den))",
                    Given(ItemNo(3)),
                    &[],
                ),
                (0, "(kf (not (lit attic)))", Closed, &[1]),
            ],
            shows: "(not (lit attic))",
            accepted: true,
        },
        ProofRow {
            init: TWO_LIT,
            path: &[],
            lines: &[
                (
                    0,
                    "(lcw (lit _)) (kw (lit hall) (lit den))",
                    Given(ItemNo(3)),
                    &[],
                ),
                (0, "(kf (not (lit den)))", Closed, &[1]),
            ],
            shows: "(not (lit den))",
            accepted: false,
        },
        ProofRow {
            init: TWO_LIT,
            path: &[],
            lines: &[
                (
                    0,
                    "(lcw (lit _)) (kw (lit hall) (lit den))",
                    Given(ItemNo(3)),
                    &[],
                ),
                (0, "(kf (not (lit hall)))", Closed, &[1]),
            ],
            shows: "(not (lit hall))",
            accepted: false,
        },
        ProofRow {
            init: TWO_LIT,
            path: &[],
            lines: &[
                (
                    0,
                    "(lcw (lit _)) (kw (lit hall) (lit den))",
                    Given(ItemNo(3)),
                    &[],
                ),
                (0, "(kf (not (= (here) hall)))", Given(ItemNo(4)), &[]),
                (0, "(kf (not (lit (here))))", Closed, &[1, 2]),
            ],
            shows: "(not (lit (here)))",
            accepted: false,
        },
        ProofRow {
            init: TWO_LIT,
            path: &[],
            lines: &[
                (
                    0,
                    "(lcw (lit _)) (kw (lit hall) (lit den))",
                    Given(ItemNo(3)),
                    &[],
                ),
                (0, "(kf (not (= (here) den)))", Given(ItemNo(5)), &[]),
                (0, "(kf (not (lit (here))))", Closed, &[1, 2]),
            ],
            shows: "(not (lit (here)))",
            accepted: false,
        },
        ProofRow {
            init: "(lcw (near hall _))",
            path: &[],
            lines: &[
                (0, "(lcw (near hall _))", Given(ItemNo(1)), &[]),
                (0, "(kf (not (near hall den)))", Closed, &[1]),
            ],
            shows: "(not (near hall den))",
            accepted: true,
        },
        ProofRow {
            init: "(lcw (near hall _))",
            path: &[],
            lines: &[
                (0, "(lcw (near hall _))", Given(ItemNo(1)), &[]),
                (0, "(kf (not (near den hall)))", Closed, &[1]),
            ],
            shows: "(not (near den hall))",
            accepted: false,
        },
    ],
};

/// What is asked of all proofs: which lines are cited, and how a proof ends.
pub const SHAPE: ProofTable = ProofTable {
    domain: ROOMS,
    rows: &[
        ProofRow {
            init: "(kf (cold))",
            path: &[],
            lines: &[
                (0, "(kf (= hall hall))", Same, &[]),
                (0, "(kf (cold))", Given(ItemNo(1)), &[1]),
            ],
            shows: "(cold)",
            accepted: true,
        },
        ProofRow {
            init: "(kf (cold))",
            path: &[],
            lines: &[
                (0, "(kf (= hall hall))", Same, &[]),
                (0, "(kf (cold))", Given(ItemNo(1)), &[]),
            ],
            shows: "(cold)",
            accepted: false,
        },
        ProofRow {
            init: "(kf (cold))",
            path: &[],
            lines: &[(0, "(kf (cold))", Given(ItemNo(1)), &[1])],
            shows: "(cold)",
            accepted: false,
        },
        ProofRow {
            init: "(kf (cold))",
            path: &[],
            lines: &[(0, "(kf (cold))", Given(ItemNo(1)), &[0])],
            shows: "(cold)",
            accepted: false,
        },
        ProofRow {
            init: "(kf (cold))",
            path: &[],
            lines: &[
                (0, "(kf (= hall hall))", Same, &[2]),
                (0, "(kf (cold))", Given(ItemNo(1)), &[1]),
            ],
            shows: "(cold)",
            accepted: false,
        },
        ProofRow {
            init: "(kf (cold))",
            path: &[],
            lines: &[(0, "(kf (cold))", Given(ItemNo(1)), &[])],
            shows: "(wet)",
            accepted: false,
        },
        ProofRow {
            init: "(kf (cold))",
            path: &[],
            lines: &[],
            shows: "(cold)",
            accepted: false,
        },
        ProofRow {
            init: "(kf (cold))",
            path: &[],
            lines: &[
                (1, "(kf (= hall hall))", Same, &[]),
                (0, "(kf (cold))", Given(ItemNo(1)), &[1]),
            ],
            shows: "(cold)",
            accepted: false,
        },
        ProofRow {
            init: "(kf (cold))",
            path: &[Act(0)],
            lines: &[(0, "(kf (cold))", Given(ItemNo(1)), &[])],
            shows: "(cold)",
            accepted: false,
        },
        ProofRow {
            init: "(kf (cold))",
            path: &[Act(0)],
            lines: &[
                (0, "(kf (cold))", Given(ItemNo(1)), &[]),
                (1, "(kf (cold))", Keep, &[1]),
            ],
            shows: "(cold)",
            accepted: true,
        },
    ],
};
