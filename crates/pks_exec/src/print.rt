//! The text of a run.
ghost use Rattle.std.specs.Prelude.{◌≡◌, ◌∷◌, ◌++◌, map, codes, IfOk, OnOk};
ghost use Rattle.std.specs.List.{flat_map};
ghost use Rattle.pks_terms.specs.Syntax.{affirmed};
ghost use Rattle.pks_terms.specs.Printed.{name_in, line, truth_text, inner_text, objects_text, term_text, conj_text, instance_text, seen_text, end_text, event_text, run_text};
ghost use Rattle.pks_terms.specs.Views.{term_of, literal_of, conj_of, names_of};
ghost use Rattle.pks_world.specs.Contents.{ground};
ghost use Rattle.pks_world.specs.Observed.{objects_in, seen_of};
ghost use Rattle.pks_exec.specs.Runs.{argument_of, ending_of, event_of};

use crate::runs::{End, Event, Run};
use pks_plan::{print_conj, print_literal, print_pattern, print_term, put};
use pks_terms::ids::{ActId, ObjId, PredId};
use pks_terms::literal::{Atom, Conj, Literal, PredAtom};
use pks_terms::lookup::action_name;
use pks_terms::problem::Problem;
use pks_terms::term::Term;
use pks_world::Seen;
use std::alloc::{AllocError, Global};

/// A truth value.
fn truth_word(b: bool) -> &'static str
    ensures { result.now ≡ truth_text b }
{
    if b { "true" } else { "false" }
}

/// How a run ended, as it is printed. It takes no memory.
pub fn end_words(end: End) -> &'static str
    ensures { result.now ≡ end_text (ending_of end) }
{
    match end {
        End::Goal => "goal",
        End::Impossible => "impossible",
        End::NoCase => "no case",
    }
}

/// Appends each object's name behind a blank.
#[tactic(auto, unfolding(pks_terms::specs::Printed::term_text))]
fn print_objects(p: &Problem<'_>, objects: &[ObjId], out: &mut Vec<u8>) -> Result<(), AllocError>
    ensures { OnOk result (out.new.items ≡ out.old.items ++ flat_map (λ part. 32 ∷ part) (map (inner_text (names_of p.now)) (map argument_of objects.now))) }
{
    for object in objects {
        put(out, b" ")?;
        print_term(p, &Term::Obj(*object), out)?;
    }
    Ok(())
}

/// Appends an action at objects.
#[tactic(auto, unfolding(pks_terms::specs::Printed::instance_text))]
fn print_step(
    p: &Problem<'_>,
    act: ActId,
    objects: &[ObjId],
    out: &mut Vec<u8>,
) -> Result<(), AllocError>
    ensures { OnOk result (out.new.items ≡ out.old.items ++ instance_text (names_of p.now) (record { action = act.0; arguments = map argument_of objects.now })) }
{
    put(out, b"(")?;
    put(out, action_name(p, act).as_bytes())?;
    print_objects(p, objects, out)?;
    put(out, b")")?;
    Ok(())
}

/// The predicate at the objects of the atom.
fn at_objects(pred: PredId, a: &PredAtom) -> Literal
    ensures { literal_of result ≡ affirmed (ground pred.0 (objects_in a.now)) }
{
    Literal {
        atom: Atom::Pred(PredAtom {
            pred,
            n: a.n,
            args: [
                Term::Obj(ObjId(a.args[0].number())),
                Term::Obj(ObjId(a.args[1].number())),
                Term::Obj(ObjId(a.args[2].number())),
            ],
        }),
        positive: true,
    }
}

/// Appends the predicate at the objects of the atom.
#[tactic(auto, using(crate::proofs::Telling::atom_told))]
fn print_atom(
    p: &Problem<'_>,
    pred: PredId,
    a: &PredAtom,
    out: &mut Vec<u8>,
) -> Result<(), AllocError>
    ensures { OnOk result (out.new.items ≡ out.old.items ++ objects_text (names_of p.now) pred.0 (objects_in a.now)) }
{
    print_literal(p, &at_objects(pred, a), out)?;
    Ok(())
}

/// Appends the predicate at the objects of each atom, behind a blank.
fn print_atoms(
    p: &Problem<'_>,
    pred: PredId,
    atoms: &[PredAtom],
    out: &mut Vec<u8>,
) -> Result<(), AllocError>
    ensures { OnOk result (out.new.items ≡ out.old.items ++ flat_map (λ ds. 32 ∷ objects_text (names_of p.now) pred.0 ds) (map objects_in atoms.now)) }
{
    for a in atoms {
        put(out, b" ")?;
        print_atom(p, pred, a, out)?;
    }
    Ok(())
}

/// Appends a conjunction and its truth behind a blank.
fn print_truth(p: &Problem<'_>, c: &Conj, b: bool, out: &mut Vec<u8>) -> Result<(), AllocError>
    ensures { OnOk result (out.new.items ≡ out.old.items ++ (conj_text (names_of p.now) (conj_of c.now) ++ (codes " " ++ truth_text b))) }
{
    print_conj(p, c, out)?;
    put(out, b" ")?;
    put(out, truth_word(b).as_bytes())?;
    Ok(())
}

/// Appends a term and its value behind a blank.
#[tactic(auto, unfolding(pks_terms::specs::Printed::term_text))]
fn print_value(p: &Problem<'_>, t: &Term, d: ObjId, out: &mut Vec<u8>) -> Result<(), AllocError>
    ensures { OnOk result (out.new.items ≡ out.old.items ++ (term_text (names_of p.now) (term_of t.now) ++ (codes " " ++ name_in (names_of p.now).objects d.0))) }
{
    print_term(p, t, out)?;
    put(out, b" ")?;
    print_term(p, &Term::Obj(d), out)?;
    Ok(())
}

/// Appends what was seen.
fn print_seen(p: &Problem<'_>, seen: &Seen, out: &mut Vec<u8>) -> Result<(), AllocError>
    ensures { OnOk result (out.new.items ≡ out.old.items ++ seen_text (names_of p.now) (seen_of seen.now)) }
{
    match seen {
        Seen::Whether(c, b) => {
            put(out, b"whether ")?;
            print_truth(p, c, *b, out)?;
        }
        Seen::Value(t, d) => {
            put(out, b"value ")?;
            print_value(p, t, *d, out)?;
        }
        Seen::All(x, atoms) => {
            put(out, b"all ")?;
            print_pattern(p, x, out)?;
            print_atoms(p, x.pred, atoms.as_slice(), out)?;
        }
    }
    Ok(())
}

/// Appends an event.
fn print_event(p: &Problem<'_>, event: &Event, out: &mut Vec<u8>) -> Result<(), AllocError>
    ensures { OnOk result (out.new.items ≡ out.old.items ++ event_text (names_of p.now) (event_of event.now)) }
{
    match event {
        Event::Do(act, objects) => {
            put(out, b"do ")?;
            print_step(p, *act, objects.as_slice(), out)?;
        }
        Event::Saw(seen) => print_seen(p, seen, out)?,
        Event::Test(c, b) => {
            put(out, b"branch ")?;
            print_truth(p, c, *b, out)?;
        }
        Event::Case(t, d) => {
            put(out, b"case ")?;
            print_value(p, t, *d, out)?;
        }
        Event::End(end) => put(out, end_words(*end).as_bytes())?,
    }
    Ok(())
}

/// Appends a line for each event.
fn print_events(p: &Problem<'_>, events: &[Event], out: &mut Vec<u8>) -> Result<(), AllocError>
    ensures { OnOk result (out.new.items ≡ out.old.items ++ flat_map (λ event. line (event_text (names_of p.now) event)) (map event_of events.now)) }
{
    for event in events {
        print_event(p, event, out)?;
        put(out, b"\n")?;
    }
    Ok(())
}

/// The text of a run: the line `run`, and a line for each event (docs/FORMAT.md, "Printed texts"). It errs only where memory runs out.
#[tactic(auto, unfolding(pks_terms::specs::Printed::run_text))]
pub fn print_run(alloc: Global, p: &Problem<'_>, r: &Run) -> Result<Vec<u8>, AllocError>
    ensures { IfOk result (λ text. text.items ≡ run_text (names_of p.now) (map event_of r.now)) }
{
    let mut text = Vec::new(alloc);
    put(&mut text, b"run\n")?;
    print_events(p, r.as_slice(), &mut text)?;
    Ok(text)
}
