//! The text of explanations.
ghost use Rattle.std.specs.Prelude.{◌≡◌, ◌++◌, ◌∷◌, map, decimal, OnOk, IfOk};
ghost use Rattle.std.specs.List.{flat_map};
ghost use Rattle.pks_terms.specs.Branching.{numbered};
ghost use Rattle.pks_terms.specs.Printed.{line, literal_text, atom_text};
ghost use Rattle.pks_terms.specs.Views.{names_of, literals_in, atom_of};
ghost use Rattle.pks_terms.specs.Explained.{known_fact_text, reason_text, cites_text, proof_line_text, entry_text, explained_text};
ghost use Rattle.pks_lcw.specs.Entries.{atoms_of};
ghost use Rattle.pks_proof_lines.specs.ProofViews.{fact_of, reason_of, line_of, lines_of};
ghost use Rattle.pks_explain.specs.EntryViews.{entry_of, entries_of};

use crate::entries::{Explained, ProvedLiteral};
use pks_plan::{print_literal, print_pattern, put, put_number};
use pks_proof_lines::{Fact, Line, Reason};
use pks_terms::literal::{Atom, Literal, PredAtom};
use pks_terms::problem::Problem;
use std::alloc::{AllocError, Global};

/// Appends an atom.
#[tactic(auto, unfolding(pks_terms::specs::Printed::literal_text))]
fn print_atom(p: &Problem<'_>, a: &PredAtom, out: &mut Vec<u8>) -> Result<(), AllocError>
    ensures { OnOk result (out.new.items ≡ out.old.items ++ atom_text (names_of p.now) (atom_of a.now)) }
{
    let l = Literal {
        atom: Atom::Pred(*a),
        positive: true,
    };
    print_literal(p, &l, out)?;
    Ok(())
}

/// Appends the atoms in order, each behind a blank.
fn print_atoms(p: &Problem<'_>, atoms: &[PredAtom], out: &mut Vec<u8>) -> Result<(), AllocError>
    ensures { OnOk result (out.new.items ≡ out.old.items ++ flat_map (λ part. 32 ∷ part) (map (atom_text (names_of p.now)) (atoms_of atoms.now))) }
{
    for a in atoms {
        put(out, b" ")?;
        print_atom(p, a, out)?;
    }
    Ok(())
}

/// Appends the literals in order, each behind a blank.
fn print_literals(p: &Problem<'_>, ls: &[Literal], out: &mut Vec<u8>) -> Result<(), AllocError>
    ensures { OnOk result (out.new.items ≡ out.old.items ++ flat_map (λ part. 32 ∷ part) (map (literal_text (names_of p.now)) (literals_in ls.now))) }
{
    for l in ls {
        put(out, b" ")?;
        print_literal(p, l, out)?;
    }
    Ok(())
}

/// Appends a fact: a literal, a group as the list `kx`, a region as the list `lcw`.
#[tactic(auto, using(crate::proofs::Texts::appended), unfolding(pks_terms::specs::Explained::known_fact_text))]
fn print_fact(p: &Problem<'_>, f: &Fact, out: &mut Vec<u8>) -> Result<(), AllocError>
    ensures { OnOk result (out.new.items ≡ out.old.items ++ known_fact_text (names_of p.now) (fact_of f.now)) }
{
    match f {
        Fact::Lit(l) => print_literal(p, l, out)?,
        Fact::Kx(g) => {
            put(out, b"(kx")?;
            print_literals(p, g.as_slice(), out)?;
            put(out, b")")?;
        }
        Fact::Lcw(r) => {
            put(out, b"(lcw ")?;
            print_pattern(p, &r.pattern, out)?;
            print_atoms(p, r.list.as_slice(), out)?;
            put(out, b")")?;
        }
    }
    Ok(())
}

/// Appends a word, a blank and a number.
#[tactic(auto, using(crate::proofs::Texts::appended))]
fn put_numbered(out: &mut Vec<u8>, word: &[u8], n: u64) -> Result<(), AllocError>
    ensures { OnOk result (out.new.items ≡ out.old.items ++ (word.now ++ decimal n)) }
{
    put(out, word)?;
    put_number(out, n)?;
    Ok(())
}

/// Appends a reason, with its number where it has one.
#[tactic(auto, using(crate::proofs::Texts::appended), unfolding(pks_terms::specs::Explained::reason_text))]
fn print_reason(reason: &Reason, out: &mut Vec<u8>) -> Result<(), AllocError>
    ensures { OnOk result (out.new.items ≡ out.old.items ++ reason_text (reason_of reason.now)) }
{
    match reason {
        Reason::Given(n) => put_numbered(out, b"given ", n.0 as u64)?,
        Reason::Side(n) => put_numbered(out, b"side ", *n as u64)?,
        Reason::Same => put(out, b"same")?,
        Reason::Swap => put(out, b"swap")?,
        Reason::Only => put(out, b"only")?,
        Reason::Others => put(out, b"others")?,
        Reason::Range => put(out, b"range")?,
        Reason::Closed => put(out, b"closed")?,
        Reason::Keep => put(out, b"keep")?,
        Reason::Back => put(out, b"back")?,
        Reason::Effect => put(out, b"effect")?,
        Reason::Must => put(out, b"must")?,
        Reason::Cannot => put(out, b"cannot")?,
        Reason::Grow => put(out, b"grow")?,
        Reason::Clear => put(out, b"clear")?,
    }
    Ok(())
}

/// Appends the numbers in order, each behind a blank.
fn print_numbers(numbers: &[u32], out: &mut Vec<u8>) -> Result<(), AllocError>
    ensures { OnOk result (out.new.items ≡ out.old.items ++ flat_map (λ c. 32 ∷ decimal c) numbers.now) }
{
    for n in numbers {
        put(out, b" ")?;
        put_number(out, *n as u64)?;
    }
    Ok(())
}

/// Appends what is cited, or nothing where nothing is.
#[tactic(auto, using(crate::proofs::Texts::appended), unfolding(pks_terms::specs::Explained::cites_text))]
fn print_cites(cites: &[u32], out: &mut Vec<u8>) -> Result<(), AllocError>
    ensures { OnOk result (out.new.items ≡ out.old.items ++ cites_text cites.now) }
{
    match cites {
        [] => {}
        [_, ..] => {
            put(out, b" by")?;
            print_numbers(cites, out)?;
        }
    }
    Ok(())
}

/// Appends a line of a proof, without its end.
#[tactic(auto, using(crate::proofs::Texts::appended), unfolding(pks_terms::specs::Explained::proof_line_text))]
fn print_words(
    p: &Problem<'_>,
    number: usize,
    x: &Line,
    out: &mut Vec<u8>,
) -> Result<(), AllocError>
    ensures { OnOk result (out.new.items ≡ out.old.items ++ proof_line_text (names_of p.now) number (line_of x.now)) }
{
    put_number(out, number as u64)?;
    put_numbered(out, b" moment ", x.moment as u64)?;
    put(out, b" ")?;
    print_fact(p, &x.fact, out)?;
    put(out, b" ")?;
    print_reason(&x.reason, out)?;
    print_cites(x.cites.as_slice(), out)?;
    Ok(())
}

/// Appends a line of a proof.
#[tactic(auto, using(crate::proofs::Texts::appended))]
fn print_line(p: &Problem<'_>, number: usize, x: &Line, out: &mut Vec<u8>) -> Result<(), AllocError>
    ensures { OnOk result (out.new.items ≡ out.old.items ++ line (proof_line_text (names_of p.now) number (line_of x.now))) }
{
    print_words(p, number, x, out)?;
    put(out, b"\n")?;
    Ok(())
}

/// Appends the lines of a proof, numbered from 1.
fn print_lines(p: &Problem<'_>, lines: &[Line], out: &mut Vec<u8>) -> Result<(), AllocError>
    ensures { OnOk result (out.new.items ≡ out.old.items ++ flat_map (λ q. line (proof_line_text (names_of p.now) q.0 q.1)) (numbered 1 (lines_of lines.now))) }
{
    for i in 0..lines.len() {
        print_line(p, i + 1, &lines[i], out)?;
    }
    Ok(())
}

/// Appends an entry: the literal, and its proof.
#[tactic(auto, using(crate::proofs::Texts::appended), unfolding(pks_terms::specs::Explained::entry_text))]
fn print_entry(p: &Problem<'_>, e: &ProvedLiteral, out: &mut Vec<u8>) -> Result<(), AllocError>
    ensures { OnOk result (out.new.items ≡ out.old.items ++ entry_text (names_of p.now) (entry_of e.now)) }
{
    put(out, b"known ")?;
    print_literal(p, &e.literal, out)?;
    put(out, b"\n")?;
    print_lines(p, e.proof.as_slice(), out)?;
    Ok(())
}

/// Appends the entries in order.
fn print_entries(
    p: &Problem<'_>,
    entries: &[ProvedLiteral],
    out: &mut Vec<u8>,
) -> Result<(), AllocError>
    ensures { OnOk result (out.new.items ≡ out.old.items ++ flat_map (entry_text (names_of p.now)) (entries_of entries.now)) }
{
    for e in entries {
        print_entry(p, e, out)?;
    }
    Ok(())
}

/// The text of an explanation: for each entry a line with the literal that is known, and then a line for each of its proof,
/// behind its number (`docs/FORMAT.md`, "Printed texts"). The one error is want of memory.
#[tactic(auto, unfolding(pks_terms::specs::Explained::explained_text))]
pub fn print_explained(alloc: Global, p: &Problem<'_>, e: &Explained) -> Result<Vec<u8>, AllocError>
    ensures { IfOk result (λ text. text.items ≡ explained_text (names_of p.now) (entries_of e.now)) }
{
    let mut text = Vec::new(alloc);
    print_entries(p, e.as_slice(), &mut text)?;
    Ok(text)
}
