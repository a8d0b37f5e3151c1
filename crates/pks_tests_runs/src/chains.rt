//! Chains, in which each known literal follows from the one before it. The time of a test is enough for them only where closing
//! goes on from what is new.
use crate::rows::{Check, all_so};
use crate::runs::{NOTHING, is_said, run_over};
use pks_run::Status::Done;
use std::alloc::{AllocError, Global};
use std::test::Fail;

/// A chain over the pairs of 64 objects.
struct Chain {
    declared: &'static str,
    /// The item that begins it.
    first: &'static str,
    /// How many links it has.
    links: u16,
    /// What stands before each pair of a link, which is that of the link's number or, with a 1, the next one.
    link: &'static [(&'static str, u16)],
    /// What stands behind the last pair of a link.
    end: &'static str,
}

/// The objects of the pair of this number.
fn pair(alloc: Global, k: u16) -> Result<String, AllocError> {
    let (first, second) = (k / 64, k % 64);
    format!(in alloc; "c{first} c{second}")
}

/// Puts the link of this number after the text.
fn put_link(alloc: Global, text: &mut String, chain: &Chain, k: u16) -> Result<(), AllocError> {
    for (before, next) in chain.link {
        text.push_str(before)?;
        text.push_str(&pair(alloc, k.saturating_add(*next))?)?;
    }
    text.push_str(chain.end)?;
    Ok(())
}

/// The names of the objects and of the functions.
const LETTERS: [&str; 20] = [
    "a", "b", "c", "d", "e", "f", "g", "h", "i", "j", "k", "l", "m", "n", "o", "p", "q", "r", "s",
    "t",
];

/// The letter of this number, from the front again behind the last.
fn letter(k: u16) -> &'static str {
    match LETTERS.get(usize::from(k % 20)) {
        Some(name) => name,
        None => "",
    }
}

/// The atom of the triple of letters of this number: the first is a function at the other two.
fn triple(alloc: Global, k: u16) -> Result<String, AllocError> {
    let (first, second, third) = (letter(k / 400), letter(k / 20), letter(k));
    format!(in alloc; "(p ({first} {second} {third}))")
}

/// What stands before the groups.
const OF_TRIPLES: &str = "(pks 1)
(domain (types num two)
  (objects (num a b c d e f g h i j k l m n o p q r s t) (two y z))
  (predicates (p two))
  (functions (a num num two) (b num num two) (c num num two) (d num num two)
    (e num num two) (f num num two) (g num num two) (h num num two)
    (i num num two) (j num num two) (k num num two) (l num num two)
    (m num num two) (n num num two) (o num num two) (p num num two)
    (q num num two) (r num num two) (s num num two) (t num num two)))
(problem (init (kw (p (t t t)))
";

const OF_TRIPLES_PLAN: &str = "plan depth 1
branch (p (t t t))
true
  goal
false
  goal
";

/// A file of 8,000 triples, of which each but the last is in a group with the next: both sides of the one branch go through them all.
fn triples_text(alloc: Global) -> Result<String, AllocError> {
    let mut text = String::from_str(alloc, OF_TRIPLES)?;
    for k in 0..7_999_u16 {
        text.push_str("(kx ")?;
        text.push_str(&triple(alloc, k)?)?;
        text.push_str(" ")?;
        text.push_str(&triple(alloc, k.saturating_add(1))?)?;
        text.push_str(")\n")?;
    }
    text.push_str(") (goal (kw (p (a a a)))))\n")?;
    Ok(text)
}

/// The file of the chain.
fn text_of(alloc: Global, chain: &Chain) -> Result<String, AllocError> {
    let mut text = String::from_str(
        alloc,
        "(pks 2) (domain (types t u v w) (objects (u o) (v y z) (w l m n) (t",
    )?;
    for k in 0..64_u16 {
        text.push_str(&format!(in alloc; " c{k}")?)?;
    }
    text.push_str(")) (predicates (p t t) (q t t v) (r u t t) (s t t t)) ")?;
    text.push_str(chain.declared)?;
    text.push_str(") (problem (init ")?;
    text.push_str(chain.first)?;
    for k in 0..chain.links {
        put_link(alloc, &mut text, chain, k)?;
    }
    text.push_str(") (goal (k (p c0 c0))))")?;
    Ok(text)
}

impl Check for Chain {
    fn is_so(&self, alloc: Global) -> Result<bool, Fail> {
        let text = text_of(alloc, self)?;
        Ok(is_said(alloc, &text, "accepted\n")?)
    }
}

const CHAINS: &[Chain] = &[
    Chain {
        declared: "",
        first: "(kf (p c0 c0))",
        links: 4_000,
        link: &[(" (kx (p ", 0), (") (p ", 1)],
        end: "))",
    },
    Chain {
        declared: "(functions (f t t t))",
        first: "(kf (= (f c0 c0) c0))",
        links: 4_000,
        link: &[(" (kf (= (f ", 0), (") (f ", 1)],
        end: ")))",
    },
];

const BY_RANGES: Chain = Chain {
    declared: "(functions (f t t v))",
    first: "(kf (not (= (f c0 c0) y)))",
    links: 4_000,
    link: &[(" (kx (= (f ", 0), (") z) (= (f ", 1)],
    end: ") y))",
};

const BY_REGIONS: Chain = Chain {
    declared: "(functions (f t t v))",
    first: "(kf (= (f c0 c0) y))",
    links: 2_000,
    link: &[
        (" (lcw (q ", 0),
        (" (f ", 0),
        ("))) (kx (q ", 0),
        (" y) (= (f ", 1),
    ],
    end: ") y))",
};

// The region shuts its atom out from the start, and then the group's other members come to be known.
const BY_SHUT_OUT_MEMBERS: Chain = Chain {
    declared: "(functions (f t t v))",
    first: "(kf (p c0 c0))",
    links: 1_200,
    link: &[
        (" (kf (= (f ", 0),
        (") y)) (lcw (q ", 0),
        (" (f ", 0),
        ("))) (kx (q ", 0),
        (" y) (not (p ", 0),
        (")) (p ", 1),
    ],
    end: "))",
};

// Of three objects one is denied from the start.
const BY_RANGES_OF_THREE: Chain = Chain {
    declared: "(functions (f t t w))",
    first: "(kf (not (= (f c0 c0) l)))",
    links: 3_000,
    link: &[
        (" (kf (not (= (f ", 0),
        (") m))) (kx (= (f ", 0),
        (") n) (= (f ", 1),
    ],
    end: ") l))",
};

// What becomes known has a place whose value was known before.
const BY_OWN_VALUES: Chain = Chain {
    declared: "(functions (f t t v))",
    first: "(kf (p c0 c0))",
    links: 2_500,
    link: &[
        (" (kf (= (f ", 0),
        (") y)) (kx (p ", 0),
        (") (q ", 0),
        (" (f ", 0),
        ("))) (kx (q ", 0),
        (" y) (p ", 1),
    ],
    end: "))",
};

// What a value makes of a group's member was known before.
const BY_VALUES_IN_GROUPS: Chain = Chain {
    declared: "(functions (f t t v))",
    first: "(kf (= (f c0 c0) y))",
    links: 3_000,
    link: &[
        (" (kf (not (q ", 0),
        (" y))) (kx (q ", 0),
        (" (f ", 0),
        (")) (= (f ", 1),
    ],
    end: ") y))",
};

// What becomes known is what a value makes of a group's member: one that was known from the start, or came to be known.
const BY_FORMS_IN_GROUPS: &[Chain] = &[
    Chain {
        declared: "(functions (f t t v))",
        first: "(kf (p c0 c0))",
        links: 2_500,
        link: &[
            (" (kf (= (f ", 0),
            (") y)) (kx (p ", 0),
            (") (q ", 0),
            (" y)) (kx (q ", 0),
            (" (f ", 0),
            (")) (p ", 1),
        ],
        end: "))",
    },
    Chain {
        declared: "(functions (f t t v))",
        first: "(kf (= (f c0 c0) y))",
        links: 2_000,
        link: &[
            (" (kx (= (f ", 0),
            (") y) (p ", 0),
            (")) (kx (not (p ", 0),
            (")) (q ", 0),
            (" y)) (kx (q ", 0),
            (" (f ", 0),
            (")) (= (f ", 1),
        ],
        end: ") y))",
    },
];

/// Chains by applications for which one object is left: that of their type, or that of two which isn't denied.
const BY_LAST_LEFT: &[Chain] = &[
    Chain {
        declared: "(functions (f t t u))",
        first: "(kf (r (f c0 c0) c0 c0))",
        links: 4_000,
        link: &[(" (kx (not (r o ", 0), (")) (r (f ", 1), (") ", 1)],
        end: "))",
    },
    Chain {
        declared: "(functions (f t v) (g t t t))",
        first: "(kf (not (= (f (g c0 c0)) y)))",
        links: 4_000,
        link: &[(" (kx (not (= (f (g ", 0), (")) z)) (not (= (f (g ", 1)],
        end: ")) y)))",
    },
];

/// Chains by atoms that a region shuts out: a place in the one that it lists has another value, or not that one; or the region
/// is at a place itself, and lists none.
const UNDER_A_REGION: &[Chain] = &[
    Chain {
        declared: "(functions (f t t t))",
        first: "(lcw (s c1 _ _)) (kf (= (f c0 c0) c0))",
        links: 3_800,
        link: &[
            (" (kf (s (f ", 0),
            (") ", 0),
            (")) (kx (s c1 ", 0),
            (") (= (f ", 1),
        ],
        end: ") c0))",
    },
    Chain {
        declared: "(functions (f t t t))",
        first: "(lcw (s c1 _ _)) (kf (not (= (f c0 c0) c1)))",
        links: 3_500,
        link: &[
            (" (kf (s (f ", 0),
            (") ", 0),
            (")) (kx (s c1 ", 0),
            (") (not (= (f ", 1),
        ],
        end: ") c1)))",
    },
    Chain {
        declared: "(functions (f t t t) (h t))",
        first: "(lcw (s (h) _ _)) (kf (= (h) c1)) (kf (= (f c0 c0) c1))",
        links: 3_500,
        link: &[(" (kx (s (f ", 0), (") ", 0), (") (= (f ", 1)],
        end: ") c1))",
    },
    Chain {
        declared: "(functions (f t t) (g t t t))",
        first: "(lcw (s c1 _ _)) (kf (not (= (f c2) c1))) (kf (= (g c0 c0) c2))",
        links: 3_000,
        link: &[
            (" (kf (s (f (g ", 0),
            (")) ", 0),
            (")) (kx (s c1 ", 0),
            (") (= (g ", 1),
        ],
        end: ") c2))",
    },
];

// A place comes to have twelve values at once, and stands four times in each of the other literals.
const OF_MANY_VALUES: Chain = Chain {
    declared: "(functions (g t) (f t t t) (h t t v))",
    first: "(kf (p c0 c0))
(kx (p c0 c0) (not (= (g) c1))) (kx (p c0 c0) (not (= (g) c2))) (kx (p c0 c0) (not (= (g) c3)))
(kx (p c0 c0) (not (= (g) c4))) (kx (p c0 c0) (not (= (g) c5))) (kx (p c0 c0) (not (= (g) c6)))
(kx (p c0 c0) (not (= (g) c7))) (kx (p c0 c0) (not (= (g) c8))) (kx (p c0 c0) (not (= (g) c9)))
(kx (p c0 c0) (not (= (g) c10))) (kx (p c0 c0) (not (= (g) c11))) (kx (p c0 c0) (not (= (g) c12)))",
    links: 3_000,
    link: &[(" (kf (q (f (g) (g)) (f ", 0)],
    end: ") (h (g) (g))))",
};

/// Two groups over the same places, which come to have values one after another.
const OVER_THE_SAME_PLACES: &str =
    "(pks 1) (domain (types t) (objects (t a b c)) (predicates (p t t t) (q) (r))
  (functions (x0 t) (x1 t) (x2 t) (x3 t) (x4 t) (x5 t) (x6 t) (x7 t) (x8 t)
    (x9 t) (x10 t) (x11 t) (x12 t) (x13 t) (x14 t) (x15 t) (x16 t) (x17 t)
    (x18 t) (x19 t) (x20 t) (x21 t) (x22 t) (x23 t) (x24 t) (x25 t) (x26 t)))
(problem (init (kf (= (x0) a))
  (kx (not (= (x0) a)) (= (x1) a)) (kx (not (= (x1) a)) (= (x2) a)) (kx (not (= (x2) a)) (= (x3) a))
  (kx (not (= (x3) a)) (= (x4) a)) (kx (not (= (x4) a)) (= (x5) a)) (kx (not (= (x5) a)) (= (x6) a))
  (kx (not (= (x6) a)) (= (x7) a)) (kx (not (= (x7) a)) (= (x8) a)) (kx (not (= (x8) a)) (= (x9) a))
  (kx (not (= (x9) a)) (= (x10) a)) (kx (not (= (x10) a)) (= (x11) a)) (kx (not (= (x11) a)) (= (x12) a))
  (kx (not (= (x12) a)) (= (x13) a)) (kx (not (= (x13) a)) (= (x14) a)) (kx (not (= (x14) a)) (= (x15) a))
  (kx (not (= (x15) a)) (= (x16) a)) (kx (not (= (x16) a)) (= (x17) a)) (kx (not (= (x17) a)) (= (x18) a))
  (kx (not (= (x18) a)) (= (x19) a)) (kx (not (= (x19) a)) (= (x20) a)) (kx (not (= (x20) a)) (= (x21) a))
  (kx (not (= (x21) a)) (= (x22) a)) (kx (not (= (x22) a)) (= (x23) a)) (kx (not (= (x23) a)) (= (x24) a))
  (kx (not (= (x24) a)) (= (x25) a)) (kx (not (= (x25) a)) (= (x26) a))
  (kx (p (x0) (x1) (x2)) (p (x0) (x3) (x4)) (p (x0) (x5) (x6)) (p (x0) (x7) (x8))
    (p (x0) (x9) (x10)) (p (x0) (x11) (x12)) (p (x0) (x13) (x14)) (p (x0) (x15) (x16))
    (p (x0) (x17) (x18)) (p (x0) (x19) (x20)) (p (x0) (x21) (x22)) (p (x0) (x23) (x24))
    (p (x0) (x25) (x26)) (q))
  (kx (p (x0) (x1) (x2)) (p (x0) (x3) (x4)) (p (x0) (x5) (x6)) (p (x0) (x7) (x8))
    (p (x0) (x9) (x10)) (p (x0) (x11) (x12)) (p (x0) (x13) (x14)) (p (x0) (x15) (x16))
    (p (x0) (x17) (x18)) (p (x0) (x19) (x20)) (p (x0) (x21) (x22)) (p (x0) (x23) (x24))
    (p (x0) (x25) (x26)) (r)))
  (goal (k (q))))
";

#[test]
fn chains_are_closed_from_what_is_new(rt: HostRuntime) -> Result<(), Fail> {
    all_so(rt.alloc(), CHAINS)
}

#[test]
fn a_chain_by_ranges_is_closed_from_what_is_new(rt: HostRuntime) -> Result<(), Fail> {
    assert!(rt; BY_RANGES.is_so(rt.alloc())?);
    Ok(())
}

#[test]
fn a_chain_by_regions_is_closed_from_what_is_new(rt: HostRuntime) -> Result<(), Fail> {
    assert!(rt; BY_REGIONS.is_so(rt.alloc())?);
    Ok(())
}

#[test]
fn a_chain_by_shut_out_members_is_closed_from_what_is_new(rt: HostRuntime) -> Result<(), Fail> {
    assert!(rt; BY_SHUT_OUT_MEMBERS.is_so(rt.alloc())?);
    Ok(())
}

#[test]
fn a_chain_by_ranges_of_three_is_closed_from_what_is_new(rt: HostRuntime) -> Result<(), Fail> {
    assert!(rt; BY_RANGES_OF_THREE.is_so(rt.alloc())?);
    Ok(())
}

#[test]
fn a_chain_by_values_known_before_is_closed_from_what_is_new(rt: HostRuntime) -> Result<(), Fail> {
    assert!(rt; BY_OWN_VALUES.is_so(rt.alloc())?);
    Ok(())
}

#[test]
fn a_chain_by_values_in_groups_is_closed_from_what_is_new(rt: HostRuntime) -> Result<(), Fail> {
    assert!(rt; BY_VALUES_IN_GROUPS.is_so(rt.alloc())?);
    Ok(())
}

#[test]
fn chains_by_forms_in_groups_are_closed_from_what_is_new(rt: HostRuntime) -> Result<(), Fail> {
    all_so(rt.alloc(), BY_FORMS_IN_GROUPS)
}

#[test]
fn chains_by_the_last_object_left_are_closed_from_what_is_new(rt: HostRuntime) -> Result<(), Fail> {
    all_so(rt.alloc(), BY_LAST_LEFT)
}

#[test]
fn chains_under_a_region_are_closed_from_what_is_new(rt: HostRuntime) -> Result<(), Fail> {
    all_so(rt.alloc(), UNDER_A_REGION)
}

#[test]
fn a_place_of_two_values_ends_closing_at_once(rt: HostRuntime) -> Result<(), Fail> {
    let text = text_of(rt.alloc(), &OF_MANY_VALUES)?;
    assert!(rt; is_said(rt.alloc(), &text, "refused 1:416 270\n")?);
    Ok(())
}

/// A few hundredths of a second; where a group is listed again at each place with each value, hours.
#[test]
fn groups_are_listed_once_at_their_places(rt: HostRuntime) -> Result<(), Fail> {
    assert!(rt; is_said(rt.alloc(), OVER_THE_SAME_PLACES, "accepted\n")?);
    Ok(())
}

/// Under a second of a processor; by whole rounds each side looks at 64 million groups.
#[test]
fn both_sides_go_through_a_chain_of_triples(rt: HostRuntime) -> Result<(), Fail> {
    let alloc = rt.alloc();
    let text = triples_text(alloc)?;
    let (status, written) = run_over(alloc, "plan 1", text.as_bytes(), NOTHING)?;
    assert!(rt; status == Done && written.as_slice() == OF_TRIPLES_PLAN.as_bytes());
    Ok(())
}
