//! The text of leaves.
ghost use Rattle.std.specs.Prelude.{◌≡◌, ◌++◌, map, OnOk, IfOk};
ghost use Rattle.std.specs.List.{flat_map};
ghost use Rattle.pks_terms.specs.Aims.{moments};
ghost use Rattle.pks_terms.specs.Branching.{numbered};
ghost use Rattle.pks_terms.specs.Printed.{line, literal_text};
ghost use Rattle.pks_terms.specs.Recalled.{moment_text, state_text, leaf_text, recall_text};
ghost use Rattle.pks_terms.specs.Views.{names_of, literal_of};
ghost use Rattle.pks_kf.specs.Known.{literals_of};
ghost use Rattle.pks_query_lookup.specs.Fives.{five_of};
ghost use Rattle.pks_history_replay.specs.Walking.{state_of};

use pks_history::histories::History;
use pks_history_replay::State;
use pks_kf::Kf;
use pks_plan::{print_literal, put, put_number};
use pks_query::databases::Db;
use pks_terms::literal::Literal;
use pks_terms::problem::Problem;
use std::alloc::{AllocError, Global};

/// Appends a literal on a line.
fn print_line(p: &Problem<'_>, l: &Literal, out: &mut Vec<u8>) -> Result<(), AllocError>
    ensures { OnOk result (out.new.items ≡ out.old.items ++ line (literal_text (names_of p.now) (literal_of l.now))) }
{
    print_literal(p, l, out)?;
    put(out, b"\n")?;
    Ok(())
}

/// Appends the literals in order, each on a line.
fn print_known(p: &Problem<'_>, kf: &Kf, out: &mut Vec<u8>) -> Result<(), AllocError>
    ensures { OnOk result (out.new.items ≡ out.old.items ++ flat_map (λ l. line (literal_text (names_of p.now) l)) (literals_of kf.now)) }
{
    for l in kf.items() {
        print_line(p, l, out)?;
    }
    Ok(())
}

/// Appends a moment: its number, and what is known of it.
fn print_moment(p: &Problem<'_>, number: u32, d: &Db, out: &mut Vec<u8>) -> Result<(), AllocError>
    ensures { OnOk result (out.new.items ≡ out.old.items ++ moment_text (names_of p.now) (number, five_of d.now)) }
{
    put(out, b"moment ")?;
    put_number(out, number as u64)?;
    put(out, b"\n")?;
    print_known(p, &d.parts().kf, out)?;
    Ok(())
}

/// Appends the moments, numbered from 0.
fn print_moments(p: &Problem<'_>, h: &History, out: &mut Vec<u8>) -> Result<(), AllocError>
    ensures { OnOk result (out.new.items ≡ out.old.items ++ flat_map (moment_text (names_of p.now)) (numbered 0 (moments h.now))) }
{
    for moment in 0..h.len() {
        print_moment(p, moment, h.at(moment), out)?;
    }
    Ok(())
}

/// Appends what is known at a state, or that it is impossible.
fn print_state(p: &Problem<'_>, x: &State, out: &mut Vec<u8>) -> Result<(), AllocError>
    ensures { OnOk result (out.new.items ≡ out.old.items ++ state_text (names_of p.now) (state_of x.now)) }
{
    match x {
        State::At(h) => print_moments(p, h, out)?,
        State::Stopped => put(out, b"impossible\n")?,
    }
    Ok(())
}

/// Appends a leaf: its number, and what is known there.
fn print_leaf(
    p: &Problem<'_>,
    number: usize,
    x: &State,
    out: &mut Vec<u8>,
) -> Result<(), AllocError>
    ensures { OnOk result (out.new.items ≡ out.old.items ++ leaf_text (names_of p.now) (number, state_of x.now)) }
{
    put(out, b"leaf ")?;
    put_number(out, number as u64)?;
    put(out, b"\n")?;
    print_state(p, x, out)?;
    Ok(())
}

/// The text of the leaves, numbered from 1.
#[tactic(auto, unfolding(pks_terms::specs::Recalled::recall_text))]
pub(crate) fn print_leaves(
    alloc: Global,
    p: &Problem<'_>,
    leaves: &[State],
) -> Result<Vec<u8>, AllocError>
    ensures { IfOk result (λ text. text.items ≡ recall_text (names_of p.now) (map state_of leaves.now)) }
{
    let mut text = Vec::new(alloc);
    for i in 0..leaves.len() {
        print_leaf(p, i + 1, &leaves[i], &mut text)?;
    }
    Ok(text)
}
