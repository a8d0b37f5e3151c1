// The grammar of files: what the lists of a sort are.
ghost use Rattle.std.specs.Prelude.{◌≡◌, map, Some};
ghost use Rattle.pks_reader_shape.specs.Grammar.{lists, only, plain, atom_or};
ghost use Rattle.pks_reader_shape.specs.GrammarViews.{headed_view, lists_view};

use crate::grammar::Part::{Many, Maybe, One};
use crate::grammar::{Part, Sort, Version};

/// A list with a head, which is its first part.
#[derive(Clone, Copy)]
pub struct Headed {
    pub head: &'static str,
    pub parts: &'static [Part],
}

/// The lists of a sort: those with fixed heads, those that have none, and the heads that such a list may not have.
#[derive(Clone, Copy)]
pub struct Lists {
    pub fixed: &'static [Headed],
    pub other: Option<&'static [Part]>,
    pub barred: &'static [&'static str],
}

// A list with a head, by its other parts.
macro_rules! headed {
    ($head:literal $(, $part:ident $sort:ident)*) => {
        Headed {
            head: $head,
            parts: &[One(Sort::Head) $(, $part(Sort::$sort))*],
        }
    };
}

const SET: Headed = headed!("set", One Atom);

const UNSET: Headed = headed!("unset", One Atom);

const CLEAR: Headed = headed!("clear", One Pattern);

const ASSIGN: Headed = headed!("assign", One Place, One Term);

const KF: Headed = headed!("kf", One Literal);

const KW: Headed = headed!("kw", One Literal, Many Literal);

const KV_PLACE: Headed = headed!("kv", One Place);

const LCW: Headed = headed!("lcw", One Pattern);

const K: Headed = headed!("k", One Literal);

const KV_TERM: Headed = headed!("kv", One Term);

const EQUATION: Headed = headed!("=", One Term, One Term);

// Lists with these heads and no others.
fn only(fixed: &'static [Headed]) -> Lists
    ensures { lists_view result ≡ only (map headed_view fixed.now) }
{
    Lists {
        fixed,
        other: None,
        barred: &[],
    }
}

// Lists without a fixed head.
fn plain(parts: &'static [Part]) -> Lists
    ensures { lists_view result ≡ plain parts.now }
{
    Lists {
        fixed: &[],
        other: Some(parts),
        barred: &[],
    }
}

// Lists with these heads, and atoms.
fn atom_or(fixed: &'static [Headed]) -> Lists
    ensures { lists_view result ≡ atom_or (map headed_view fixed.now) }
{
    Lists {
        fixed,
        other: Some(&[One(Sort::Name), Many(Sort::Term)]),
        barred: &["not"],
    }
}

/// The lists of a sort.
#[tactic(auto, unfolding(crate::specs::Grammar::lists))]
pub fn lists_of(version: Version, sort: Sort) -> Lists
    ensures { lists_view result ≡ lists version sort }
{
    match sort {
        Sort::Domain => only(&[headed!("domain",
                Maybe Types, Maybe Objects, Maybe Predicates, Maybe Functions, Many Action)]),
        Sort::Types => only(&[headed!("types", Many Kind)]),
        Sort::Kind => match version {
            Version::First => only(&[]),
            Version::Second => plain(&[One(Sort::Name), One(Sort::Name)]),
        },
        Sort::Objects => only(&[headed!("objects", Many Entry)]),
        Sort::Predicates => only(&[headed!("predicates", Many Entry)]),
        Sort::Functions => only(&[headed!("functions", Many Function)]),
        Sort::Entry | Sort::Fact => plain(&[One(Sort::Name), Many(Sort::Name)]),
        Sort::Function => plain(&[One(Sort::Name), One(Sort::Name), Many(Sort::Name)]),
        Sort::Action => match version {
            Version::First => only(&[headed!("action", One Name,
                    Maybe Params, Maybe Pre, Maybe Effects, Maybe Senses, Maybe Knows)]),
            Version::Second => only(&[headed!("action", One Name, Maybe Cost,
                    Maybe Params, Maybe Pre, Maybe Effects, Maybe Senses, Maybe Knows)]),
        },
        Sort::Cost => only(&[headed!("cost", One Number)]),
        Sort::Params => only(&[headed!("params", Many Param)]),
        Sort::Param => plain(&[One(Sort::Variable), One(Sort::Name)]),
        Sort::Pre => only(&[headed!("pre", Many Query)]),
        Sort::Effects => only(&[headed!("effects", Many Effect)]),
        Sort::Effect => only(&[
            headed!("when", One Condition, One Target),
            SET,
            UNSET,
            CLEAR,
            ASSIGN,
        ]),
        Sort::Condition => plain(&[One(Sort::Literal), Many(Sort::Literal)]),
        Sort::Target => only(&[SET, UNSET, CLEAR, ASSIGN]),
        Sort::Senses => only(&[headed!("senses", Many Sense)]),
        Sort::Sense => only(&[
            headed!("sense", One Literal, Many Literal),
            headed!("sense-value", One Place),
            headed!("sense-all", One Pattern),
        ]),
        Sort::Knows => only(&[headed!("knows", Many Add)]),
        Sort::Add => only(&[headed!("if", One Given, One Item), KF, KW, KV_PLACE, LCW]),
        Sort::Given => plain(&[One(Sort::Query), Many(Sort::Query)]),
        Sort::Item => only(&[KF, KW, KV_PLACE, LCW]),
        Sort::Query => only(&[headed!("not-derived", One Plain), K, KW, KV_TERM]),
        Sort::Plain => only(&[K, KW, KV_TERM]),
        Sort::Problem => only(&[headed!("problem", Maybe Init, One Goal)]),
        Sort::Init => only(&[headed!("init", Many Start)]),
        Sort::Start => only(&[
            headed!("kx", One Literal, One Literal, Many Literal),
            KF,
            KW,
            KV_PLACE,
            LCW,
        ]),
        Sort::Goal => only(&[headed!("goal", One Aim, Many Aim)]),
        Sort::Aim => match version {
            Version::First => only(&[K, KW, KV_TERM]),
            Version::Second => only(&[
                headed!("at-start", One Plain),
                headed!("always", One Plain),
                headed!("once", One Plain),
                K,
                KW,
                KV_TERM,
            ]),
        },
        Sort::Literal => atom_or(&[headed!("not", One Positive), EQUATION]),
        Sort::Positive => atom_or(&[EQUATION]),
        Sort::Atom => atom_or(&[]),
        Sort::Pattern => plain(&[One(Sort::Name), Many(Sort::Slot)]),
        Sort::Slot | Sort::Place | Sort::Term => plain(&[One(Sort::Name), Many(Sort::Term)]),
        Sort::World => only(&[headed!("world", Maybe True, Maybe Values)]),
        Sort::True => only(&[headed!("true", Many Fact)]),
        Sort::Values => only(&[headed!("values", Many Value)]),
        Sort::Value => plain(&[One(Sort::Fact), One(Sort::Name)]),
        Sort::Nothing | Sort::Head | Sort::Name | Sort::Variable | Sort::Number => only(&[]),
    }
}
