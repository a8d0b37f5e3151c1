//! The worked steps.
use crate::domains::{
    ALIAS, HOUSE, LAWN, NEXT, NEXT_WITHOUT_ASSIGN, ONE, SAFE, SUNNY_LAWN, TUBS, TUBS_FIRST_EMPTY,
    VAULT_16, VAULT_17,
};
use crate::rows::Then::{Case, Choices, Met, Moments};
use crate::rows::{Sides, Then, WalkRow};
use crate::walks::{all_shown, is_accepted};
use pks_run_bench::generate;
use std::test::Fail;

const SWEEPING: &[WalkRow] = &[
    WalkRow {
        domain: &ALIAS,
        init: "(kf (at key hall))",
        actions: &["(sweep)"],
        then: Moments(&["(kf (at key hall))", "(kf (done))"]),
    },
    WalkRow {
        domain: &ALIAS,
        init: "(kf (at key hall)) (kf (= (where) hall))",
        actions: &["(sweep)"],
        then: Moments(&[
            "(kf (at key hall)) (kf (= (where) hall))",
            "(kf (= (where) hall)) (kf (done))",
        ]),
    },
    WalkRow {
        domain: &ALIAS,
        init: "(kf (at key hall)) (kf (not (= (where) hall)))",
        actions: &["(sweep)"],
        then: Moments(&[
            "(kf (at key hall)) (kf (not (= (where) hall)))",
            "(kf (at key hall)) (kf (= (where) den)) (kf (not (= (where) hall))) (kf (done))",
        ]),
    },
];

#[test]
fn sweeping_where_the_key_may_be(rt: HostRuntime) -> Result<(), Fail> {
    all_shown(rt.alloc(), SWEEPING)
}

const GOING: &[WalkRow] = &[
    WalkRow {
        domain: &NEXT,
        init: "(kv (next))",
        actions: &["(go (next))"],
        then: Moments(&["(kv (next))", ""]),
    },
    WalkRow {
        domain: &NEXT,
        init: "(kv (next))",
        actions: &["(go r1)"],
        then: Moments(&["(kv (next))", "(kf (at r1))"]),
    },
    WalkRow {
        domain: &NEXT,
        init: "(kf (= (next) r2))",
        actions: &["(go r1)"],
        then: Moments(&["(kf (= (next) r2))", "(kf (at r1)) (kf (= r2 r2))"]),
    },
    WalkRow {
        domain: &NEXT,
        init: "(kf (at (next))) (kf (= (next) r2))",
        actions: &["(go r1)"],
        then: Moments(&[
            "(kf (at (next))) (kf (= (next) r2))",
            "(kf (at r1)) (kf (at r2)) (kf (= r2 r2))",
        ]),
    },
    WalkRow {
        domain: &NEXT_WITHOUT_ASSIGN,
        init: "(kv (next))",
        actions: &["(go (next))"],
        then: Moments(&["(kv (next))", "(kv (next)) (kf (at (next)))"]),
    },
];

#[test]
fn going_to_what_changes(rt: HostRuntime) -> Result<(), Fail> {
    all_shown(rt.alloc(), GOING)
}

const DIALLING: &[WalkRow] = &[
    WalkRow {
        domain: &SAFE,
        init: "",
        actions: &["(read)", "(dial (combo))"],
        then: Moments(&["", "(kv (combo))", "(kf (open)) (kv (combo))"]),
    },
    WalkRow {
        domain: &SAFE,
        init: "(kv (combo))",
        actions: &["(dial c1)"],
        then: Moments(&["(kv (combo))", "(kv (combo))"]),
    },
    WalkRow {
        domain: &SAFE,
        init: "(kf (not (open)))",
        actions: &["(dial c1)"],
        then: Moments(&["(kf (not (open)))", ""]),
    },
    WalkRow {
        domain: &SAFE,
        init: "(kf (not (open))) (kf (not (= (combo) c1)))",
        actions: &["(dial c1)"],
        then: Moments(&[
            "(kf (not (open))) (kf (not (= (combo) c1)))",
            "(kf (not (open))) (kf (not (= (combo) c1)))",
        ]),
    },
    WalkRow {
        domain: &SAFE,
        init: "(kf (= (combo) c1))",
        actions: &["(dial c1)"],
        then: Moments(&["(kf (= (combo) c1))", "(kf (= (combo) c1)) (kf (open))"]),
    },
];

#[test]
fn dialling_a_number(rt: HostRuntime) -> Result<(), Fail> {
    all_shown(rt.alloc(), DIALLING)
}

const EMPTYING: &[WalkRow] = &[
    WalkRow {
        domain: &TUBS,
        init: "",
        actions: &["(empty-all)"],
        then: Moments(&["", "(lcw (full _))"]),
    },
    WalkRow {
        domain: &TUBS,
        init: "(kf (full b1)) (kf (full b2))",
        actions: &["(empty-all)"],
        then: Moments(&["(kf (full b1)) (kf (full b2))", "(lcw (full _))"]),
    },
    WalkRow {
        domain: &TUBS,
        init: "(kf (not (wet)))",
        actions: &["(empty-all)", "(splash)"],
        then: Moments(&[
            "(kf (not (wet)))",
            "(kf (not (wet))) (lcw (full _))",
            "(kf (not (wet))) (kf (splashed)) (lcw (full _))",
        ]),
    },
    WalkRow {
        domain: &TUBS,
        init: "(kf (full b1)) (lcw (full _))",
        actions: &["(splash)"],
        then: Moments(&[
            "(kf (full b1)) (lcw (full _))",
            "(kf (full b1)) (kf (splashed)) (lcw (full _))",
        ]),
    },
];

#[test]
fn emptying_and_splashing(rt: HostRuntime) -> Result<(), Fail> {
    all_shown(rt.alloc(), EMPTYING)
}

const FILLING: &[WalkRow] = &[
    WalkRow {
        domain: &TUBS_FIRST_EMPTY,
        init: "",
        actions: &["(empty-all)"],
        then: Met(true),
    },
    WalkRow {
        domain: &TUBS,
        init: "",
        actions: &["(empty-all)", "(splash)"],
        then: Met(true),
    },
    WalkRow {
        domain: &TUBS_FIRST_EMPTY,
        init: "",
        actions: &["(empty-all)", "(splash)"],
        then: Met(false),
    },
];

#[test]
fn a_splash_may_fill_the_first_tub(rt: HostRuntime) -> Result<(), Fail> {
    all_shown(rt.alloc(), FILLING)
}

const FETCHING: &[WalkRow] = &[WalkRow {
    domain: &HOUSE,
    init: "(kf (= (here) hall)) (kf (not (= (loc cup) kitchen))) (kf (not (held cup)))",
    actions: &[
        "(locate cup)",
        "(go (loc cup))",
        "(take cup)",
        "(go kitchen)",
        "(put cup)",
    ],
    then: Moments(&[
        "(kf (= (here) hall)) (kf (not (= (loc cup) kitchen))) (kf (not (held cup)))",
        "(kf (= (here) hall)) (kf (not (= (loc cup) kitchen))) (kf (not (held cup))) (kv (loc cup))",
        "(kf (= (loc cup) (here))) (kf (not (= (loc cup) kitchen))) (kf (not (held cup))) (kv (loc cup))",
        "(kf (= (loc cup) (here))) (kf (not (= (loc cup) kitchen))) (kf (held cup)) (kv (loc cup))",
        "(kf (= (here) kitchen)) (kf (not (= (loc cup) kitchen))) (kf (held cup)) (kv (loc cup))",
        "(kf (= (here) kitchen)) (kf (= (loc cup) kitchen)) (kf (not (held cup)))",
    ]),
}];

#[test]
fn bringing_the_cup_home(rt: HostRuntime) -> Result<(), Fail> {
    all_shown(rt.alloc(), FETCHING)
}

const NUMBERS: &[WalkRow] = &[
    WalkRow {
        domain: &SAFE,
        init: "",
        actions: &[],
        then: Choices(&[
            "(read)",
            "(dial c1)",
            "(dial c2)",
            "(dial c3)",
            "(dial c4)",
            "(dial c5)",
        ]),
    },
    WalkRow {
        domain: &SAFE,
        init: "",
        actions: &["(read)"],
        then: Choices(&[
            "(read)",
            "(dial c1)",
            "(dial c2)",
            "(dial c3)",
            "(dial c4)",
            "(dial c5)",
            "(dial (combo))",
            "cases (combo)",
        ]),
    },
];

#[test]
fn choices_of_numbers(rt: HostRuntime) -> Result<(), Fail> {
    all_shown(rt.alloc(), NUMBERS)
}

const PLACES: &[WalkRow] = &[
    WalkRow {
        domain: &NEXT,
        init: "(kv (next))",
        actions: &[],
        then: Choices(&["(go r1)", "(go r2)", "(go (next))", "cases (next)"]),
    },
    WalkRow {
        domain: &LAWN,
        init: "(kf (alive))",
        actions: &["(pour)", "(look)"],
        then: Choices(&["(pour)", "(look)", "branch (alive)"]),
    },
];

#[test]
fn choices_of_places_and_formulas(rt: HostRuntime) -> Result<(), Fail> {
    all_shown(rt.alloc(), PLACES)
}

const SIXTEEN_LEFT: &[WalkRow] = &[
    WalkRow {
        domain: &VAULT_16,
        init: "(kv (combo))",
        actions: &[],
        then: Choices(&["cases (combo)"]),
    },
    WalkRow {
        domain: &VAULT_17,
        init: "(kv (combo))",
        actions: &[],
        then: Choices(&[]),
    },
    WalkRow {
        domain: &VAULT_17,
        init: "(kv (combo)) (kf (not (= (combo) c17)))",
        actions: &[],
        then: Choices(&["cases (combo)"]),
    },
];

#[test]
fn at_most_sixteen_are_left(rt: HostRuntime) -> Result<(), Fail> {
    all_shown(rt.alloc(), SIXTEEN_LEFT)
}

const ALIVE_AND_WELL: &str = "(kf (alive)) (kf (not (poison)))";

const POISONED: &[WalkRow] = &[WalkRow {
    domain: &LAWN,
    init: "(kf (alive))",
    actions: &["(pour)", "(look)"],
    then: Then::Sides(Sides {
        branch: "branch (alive)",
        yes: &[ALIVE_AND_WELL, ALIVE_AND_WELL, ALIVE_AND_WELL],
        no: &[
            "(kf (alive)) (kf (poison))",
            "(kf (not (alive))) (kf (poison))",
            "(kf (not (alive))) (kf (poison))",
        ],
        before: &["(kf (alive))", "", "(kw (alive))"],
    }),
}];

#[test]
fn what_a_look_tells_of_the_poison(rt: HostRuntime) -> Result<(), Fail> {
    all_shown(rt.alloc(), POISONED)
}

const UNKNOWN: &[WalkRow] = &[WalkRow {
    domain: &LAWN,
    init: "",
    actions: &["(pour)", "(look)"],
    then: Then::Sides(Sides {
        branch: "branch (alive)",
        yes: &[ALIVE_AND_WELL, ALIVE_AND_WELL, ALIVE_AND_WELL],
        no: &["", "(kf (not (alive)))", "(kf (not (alive)))"],
        before: &["", "", "(kw (alive))"],
    }),
}];

#[test]
fn what_a_look_tells_of_an_unknown_lawn(rt: HostRuntime) -> Result<(), Fail> {
    all_shown(rt.alloc(), UNKNOWN)
}

const CARRIED: &[WalkRow] = &[WalkRow {
    domain: &LAWN,
    init: "",
    actions: &["(look)", "(look)"],
    then: Then::Sides(Sides {
        branch: "branch (alive)",
        yes: &["(kf (alive))", "(kf (alive)) (kw (alive))", "(kf (alive))"],
        no: &[
            "(kf (not (alive)))",
            "(kf (not (alive))) (kw (alive))",
            "(kf (not (alive)))",
        ],
        before: &["", "(kw (alive))", "(kw (alive))"],
    }),
}];

#[test]
fn a_literal_is_carried_back_two_steps(rt: HostRuntime) -> Result<(), Fail> {
    all_shown(rt.alloc(), CARRIED)
}

const IMPOSSIBLE: &[WalkRow] = &[WalkRow {
    domain: &SUNNY_LAWN,
    init: "(kf (alive))",
    actions: &["(pour)", "(look)"],
    then: Then::Sides(Sides {
        branch: "branch (alive)",
        yes: &["(kf (alive))", "(kf (alive))", "(kf (alive))"],
        no: &[],
        before: &["(kf (alive))", "", "(kw (alive))"],
    }),
}];

#[test]
fn a_history_that_could_not_be(rt: HostRuntime) -> Result<(), Fail> {
    all_shown(rt.alloc(), IMPOSSIBLE)
}

const LOST: &str = "(kf (= (here) hall)) (kf (not (= (loc cup) kitchen))) (kf (not (held cup)))";

const IN_HALL: &str =
    "(kf (= (here) hall)) (kf (not (= (loc cup) kitchen))) (kf (not (held cup))) (kf (= (loc cup) hall))";

const IN_STUDY: &str =
    "(kf (= (here) hall)) (kf (not (= (loc cup) kitchen))) (kf (not (held cup))) (kf (not (= (loc cup) hall))) (kf (= (loc cup) study))";

const LOOKING: &[WalkRow] = &[WalkRow {
    domain: &HOUSE,
    init: LOST,
    actions: &["(look-for cup)"],
    then: Then::Sides(Sides {
        branch: "branch (= (loc cup) hall)",
        yes: &[IN_HALL, IN_HALL],
        no: &[IN_STUDY, IN_STUDY],
        before: &[
            LOST,
            "(kf (= (here) hall)) (kf (not (= (loc cup) kitchen))) (kf (not (held cup))) (kw (= (loc cup) hall))",
        ],
    }),
}];

#[test]
fn looking_for_the_cup(rt: HostRuntime) -> Result<(), Fail> {
    all_shown(rt.alloc(), LOOKING)
}

const TOLD: &[WalkRow] = &[
    WalkRow {
        domain: &SAFE,
        init: "",
        actions: &["(read)"],
        then: Case(
            "cases (combo)",
            1,
            &["(kf (= (combo) c2))", "(kf (= (combo) c2))"],
        ),
    },
    WalkRow {
        domain: &VAULT_16,
        init: "(kv (combo))",
        actions: &[],
        then: Case("cases (combo)", 2, &["(kf (= (combo) c3))"]),
    },
];

#[test]
fn what_a_number_tells_of_the_past(rt: HostRuntime) -> Result<(), Fail> {
    all_shown(rt.alloc(), TOLD)
}

#[test]
fn the_generated_file_of_one_object(rt: HostRuntime) -> Result<(), Fail> {
    let bytes = generate(rt.alloc(), 1)?;
    assert!(rt; bytes.as_slice() == ONE.as_bytes());
    Ok(())
}

#[test]
fn generated_files_are_accepted(rt: HostRuntime) -> Result<(), Fail> {
    for n in 1..=64 {
        assert!(rt; is_accepted(rt.alloc(), n)?, "with {n} objects");
    }
    Ok(())
}
