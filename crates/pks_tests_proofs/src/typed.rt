//! Proofs of what terms are, and of what their types leave.
use crate::rows::{ProofRow, ProofTable};
use pks_proof_lines::Reason::{Given, Range, Same};
use pks_terms::ids::ItemNo;

const BOXES: &str = "(pks 2)
(domain
  (types thing (box thing))
  (objects (thing stone) (box red blue))
  (functions (held box)))
";

pub const EVIDENT: ProofTable = ProofTable {
    domain: BOXES,
    rows: &[
        ProofRow {
            init: "",
            path: &[],
            lines: &[(0, "(kf (= red red))", Same, &[])],
            shows: "(= red red)",
            accepted: true,
        },
        ProofRow {
            init: "",
            path: &[],
            lines: &[(0, "(kf (= (held) (held)))", Same, &[])],
            shows: "(= (held) (held))",
            accepted: true,
        },
        ProofRow {
            init: "",
            path: &[],
            lines: &[(0, "(kf (not (= red blue)))", Same, &[])],
            shows: "(not (= red blue))",
            accepted: true,
        },
        ProofRow {
            init: "",
            path: &[],
            lines: &[(0, "(kf (not (= (held) stone)))", Same, &[])],
            shows: "(not (= (held) stone))",
            accepted: true,
        },
        ProofRow {
            init: "",
            path: &[],
            lines: &[(0, "(kf (= red blue))", Same, &[])],
            shows: "(= red blue)",
            accepted: false,
        },
        ProofRow {
            init: "",
            path: &[],
            lines: &[(0, "(kf (not (= red red)))", Same, &[])],
            shows: "(not (= red red))",
            accepted: false,
        },
        ProofRow {
            init: "",
            path: &[],
            lines: &[(0, "(kf (not (= (held) red)))", Same, &[])],
            shows: "(not (= (held) red))",
            accepted: false,
        },
        ProofRow {
            init: "",
            path: &[],
            lines: &[(0, "(kf (= (held) red))", Same, &[])],
            shows: "(= (held) red)",
            accepted: false,
        },
    ],
};

/// The objects of a term's type alone are ranged over.
pub const LAST_OBJECTS_OF_A_TYPE: ProofTable = ProofTable {
    domain: BOXES,
    rows: &[
        ProofRow {
            init: "(kf (not (= (held) red)))",
            path: &[],
            lines: &[
                (0, "(kf (not (= (held) red)))", Given(ItemNo(1)), &[]),
                (0, "(kf (= (held) blue))", Range, &[1]),
            ],
            shows: "(= (held) blue)",
            accepted: true,
        },
        ProofRow {
            init: "(kf (not (= (held) red))) (kf (not (= (held) blue)))",
            path: &[],
            lines: &[
                (0, "(kf (not (= (held) red)))", Given(ItemNo(1)), &[]),
                (0, "(kf (not (= (held) blue)))", Given(ItemNo(2)), &[]),
                (0, "(kf (= (held) stone))", Range, &[1, 2]),
            ],
            shows: "(= (held) stone)",
            accepted: false,
        },
    ],
};
