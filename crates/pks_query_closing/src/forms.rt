//! Normal forms of formulas, groups, patterns and regions. `docs/RULES.md` has the rule.
ghost use Rattle.std.specs.Prelude.{◌≡◌, ℕ, ◌≤◌, ◌+◌, List, [], ◌∷◌, ◌++◌, map, take, length, IfOk};
ghost use Rattle.std.specs.Option.{option_map};
ghost use Rattle.pks_terms.specs.Sets.{added};
ghost use Rattle.pks_terms.specs.Databases.{normal, normal_literal};
ghost use Rattle.pks_terms.specs.Orders.{literal_cmp};
ghost use Rattle.pks_terms.specs.Closure.{normal_conj, normal_group, normal_pattern, normal_entry};
ghost use Rattle.pks_terms.specs.Views.{term_of, literals_in, conj_of, pattern_of};
ghost use Rattle.pks_kf.specs.Known.{literals_of};
ghost use Rattle.pks_lcw.specs.Entries.{entry_of};

use pks_lcw::Entry;
use pks_query_lookup::atoms::normal_list;
use pks_query_lookup::normals::Normals;
use pks_terms::group::{Group, put_in_order};
use pks_terms::literal::{Conj, Literal, Pattern};
use pks_terms::term::{Term, front};
use std::alloc::{AllocError, Global};

/// The set with the normal forms of these literals put in: equal ones merge. It asks that there is room.
fn with_normals(by: &Normals, all: Conj, ls: &[Literal]) -> Conj
    requires { all.n + length ls.now ≤ 4 }
    ensures says { conj_of result ≡ added literal_cmp (conj_of all) (map (normal_literal (literals_of by.now.kf)) (literals_in ls.now)) }
    ensures count { result.n ≤ 4 }
{
    match ls {
        [] => all,
        [l, ls @ ..] => with_normals(by, all.with(&by.normal_literal(l)), ls),
    }
}

/// The set of the normal forms of the literals: equal ones merge. It takes no memory.
pub fn normal_conj(by: &Normals, c: &Conj) -> Conj
    ensures says { conj_of result ≡ normal_conj (literals_of by.now.kf) (conj_of c.now) }
    ensures count { result.n ≤ 4 }
{
    with_normals(by, Conj::empty(), front(&c.literals, c.n))
}

/// The normal forms of the literals in order, equal ones as often as they come. The one error is want of memory.
pub fn normal_group(alloc: Global, by: &Normals, g: &Group) -> Result<Group, AllocError>
    ensures { IfOk result (λ group. literals_in group ≡ normal_group (literals_of by.now.kf) (literals_in g.now)) }
{
    let mut all = Vec::new(alloc);
    for l in g.as_slice() {
        put_in_order(&mut all, by.normal_literal(l))?;
    }
    let group = Group::of(alloc, all.as_slice())?;
    Ok(group)
}

fn normal_slot(by: &Normals, slot: Option<Term>) -> Option<Term>
    ensures { option_map term_of result ≡ option_map (normal (literals_of by.now.kf)) (option_map term_of slot) }
{
    match slot {
        Some(t) => Some(by.normal(&t)),
        None => None,
    }
}

fn normal_slots(by: &Normals, slots: &[Option<Term>; 3]) -> [Option<Term>; 3]
    ensures { (n : ℕ) → map (option_map term_of) (take n result) ≡ map (option_map (normal (literals_of by.now.kf))) (map (option_map term_of) (take n slots.now)) }
{
    [
        normal_slot(by, slots[0]),
        normal_slot(by, slots[1]),
        normal_slot(by, slots[2]),
    ]
}

/// The pattern with its fixed terms in normal form. Open places stay open. It takes no memory.
pub fn normal_pattern(by: &Normals, p: &Pattern) -> Pattern
    ensures { pattern_of result ≡ normal_pattern (literals_of by.now.kf) (pattern_of p.now) }
{
    Pattern {
        pred: p.pred,
        n: p.n,
        args: normal_slots(by, &p.args),
    }
}

/// The region with its fixed terms and its listed atoms in normal form: equal atoms merge. The one error is want of memory.
pub fn normal_entry(alloc: Global, by: &Normals, e: &Entry) -> Result<Entry, AllocError>
    ensures { IfOk result (λ entry. entry_of entry ≡ normal_entry (literals_of by.now.kf) (entry_of e.now)) }
{
    let pattern = normal_pattern(by, &e.pattern);
    let list = normal_list(alloc, by, &e.list)?;
    Ok(Entry { pattern, list })
}
