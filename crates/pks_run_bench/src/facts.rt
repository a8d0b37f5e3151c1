//! The objects and the facts of the generated file.

ghost use Rattle.std.specs.Prelude.{◌≡◌, ◌++◌, ◌∷◌, ◌≤◌, OnOk};
ghost use Rattle.std.specs.List.{flat_map};
ghost use Rattle.pks_terms.specs.Printed.{numbered_object, numbers_from, fact_line, fact_lines};

use crate::bytes::{put, put_object};
use std::alloc::AllocError;

/// The objects, each behind a blank.
pub(crate) fn put_objects(text: &mut Vec<u8>, n: u8) -> Result<(), AllocError>
    requires { n ≤ 64 }
    ensures { OnOk result (text.new.items ≡ text.old.items ++ flat_map (λ i. 32 ∷ numbered_object i) (numbers_from 1 n)) }
{
    for i in 1..n + 1 {
        put(text, b" ")?;
        put_object(text, i)?;
    }
    Ok(())
}

/// One fact.
#[tactic(auto, using(crate::proofs::Numbered::appended))]
fn put_fact(text: &mut Vec<u8>, i: u8, j: u8) -> Result<(), AllocError>
    ensures { OnOk result (text.new.items ≡ text.old.items ++ fact_line i j) }
{
    put(text, b"(kf (seen ")?;
    put_object(text, i)?;
    put(text, b" ")?;
    put_object(text, j)?;
    put(text, b"))\n")?;
    Ok(())
}

/// The facts of one object with each.
fn put_row(text: &mut Vec<u8>, i: u8, n: u8) -> Result<(), AllocError>
    requires { n ≤ 64 }
    ensures { OnOk result (text.new.items ≡ text.old.items ++ flat_map (fact_line i) (numbers_from 1 n)) }
{
    for j in 1..n + 1 {
        put_fact(text, i, j)?;
    }
    Ok(())
}

/// The facts of each object with each.
pub(crate) fn put_facts(text: &mut Vec<u8>, n: u8) -> Result<(), AllocError>
    requires { n ≤ 64 }
    ensures { OnOk result (text.new.items ≡ text.old.items ++ fact_lines n) }
{
    for i in 1..n + 1 {
        put_row(text, i, n)?;
    }
    Ok(())
}
