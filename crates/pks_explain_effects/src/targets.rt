//! What effects write, and the literals that they make so.
ghost use Rattle.std.specs.Prelude.{IsTrue};
ghost use Rattle.pks_terms.specs.ValidProblems.{AssignsToPlace};

use pks_explain_lines::equal;
use pks_justify::{makes_so, queries_of};
use pks_terms::literal::{Atom, Literal, PredAtom, atom_literal};
use pks_terms::schema::{Adds, Instance, Schema, Target};
use pks_terms::term::Term;

/// The target that makes the atom true, or false.
fn target_of(a: &PredAtom, positive: bool) -> Target {
    if positive {
        Target::Set(*a)
    } else {
        Target::Unset(*a)
    }
}

/// That the place, if it is an application, has the value.
fn equation_made(place: &Term, value: &Term) -> Option<Literal> {
    match place {
        Term::App { .. } => Some(equal(place, value)),
        Term::Obj(_) | Term::Param(_) => None,
    }
}

/// What is so after the target is written. `None` of a pattern, and where the place isn't an application.
pub fn literal_made(target: &Target) -> Option<Literal> {
    match target {
        Target::Set(a) => Some(atom_literal(a, true)),
        Target::Unset(a) => Some(atom_literal(a, false)),
        Target::Assign { place, value } => equation_made(place, value),
        Target::Clear(_) => None,
    }
}

/// Whether the targets are the same.
pub(crate) fn same_target(x: &Target, y: &Target) -> bool {
    match (x, y) {
        (Target::Set(a), Target::Set(b)) => a == b,
        (Target::Unset(a), Target::Unset(b)) => a == b,
        (Target::Clear(a), Target::Clear(b)) => a == b,
        (
            Target::Assign { place, value },
            Target::Assign {
                place: to,
                value: new,
            },
        ) => place == to && value == new,
        _ => false,
    }
}

/// Whether the target assigns to this term, which is an application.
fn assigns_to(target: &Target, t: &Term) -> bool
    ensures { IsTrue result → AssignsToPlace target.now }
{
    match target {
        Target::Set(_) | Target::Unset(_) | Target::Clear(_) => false,
        Target::Assign { place, .. } => match place {
            Term::Obj(_) | Term::Param(_) => false,
            Term::App { .. } => place == t,
        },
    }
}

/// Whether the term is the place of an assignment that makes the equation so. `docs/RULES.md`, "Progression", has the rule.
fn has_place(schema: &Schema<'_>, add: &Adds, l: &Literal, t: &Term) -> bool {
    let given = queries_of(schema, add);
    let effects = schema.effects.as_slice();
    for k in 0..effects.len() {
        let e = &effects[k];
        if assigns_to(&e.target, t) && makes_so(&given, l, e, &effects[k + 1..]) {
            return true;
        }
    }
    false
}

/// The assignment by which the equation is made so, with the instance's arguments put in.
fn assignment_added(left: &Term, right: &Term, i: &Instance) -> Target {
    Target::Assign {
        place: left.at(i),
        value: right.at(i),
    }
}

/// The target by which the add's literal is made so, with the instance's arguments put in. `None` of an equation whose left
/// side isn't assigned to.
pub fn target_added(schema: &Schema<'_>, add: &Adds, l: &Literal, i: &Instance) -> Option<Target> {
    match &l.atom {
        Atom::Pred(a) => Some(target_of(&a.at(i), l.positive)),
        Atom::Eq { left, right } => {
            if has_place(schema, add, l, left) {
                Some(assignment_added(left, right, i))
            } else {
                None
            }
        }
    }
}
