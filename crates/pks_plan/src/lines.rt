//! The lines of a plan.

ghost use Rattle.std.specs.Prelude.{◌≡◌, ◌++◌, codes, decimal, OnOk, OnErr};
ghost use Rattle.pks_terms.specs.Printed.{name_in, line, term_text, conj_text, instance_text};
ghost use Rattle.pks_terms.specs.Views.{names_of, term_of, conj_of, instance_of};
ghost use Rattle.pks_plan.specs.Appending.{AppendsPart};
ghost use Rattle.pks_plan.specs.Indents.{indent};

use crate::bytes::{put, put_number};
use crate::parts::{PrintedPart, Wording};
use crate::text::{print_conj, print_instance, print_term};
use pks_terms::ids::ObjId;
use pks_terms::literal::Conj;
use pks_terms::problem::Problem;
use pks_terms::schema::Instance;
use pks_terms::term::Term;
use std::alloc::AllocError;

/// Two blanks for each level.
fn print_indent(level: u8, out: &mut Vec<u8>) -> Result<(), AllocError>
    ensures ok { OnOk result (out.new.items ≡ out.old.items ++ indent level) }
    ensures err { OnErr result (AppendsPart out.old.items out.new.items (indent level)) }
{
    for _ in 0..level {
        put(out, b"  ")?;
    }
    Ok(())
}

/// The beginning of a line.
#[tactic(auto, using(crate::proofs::Appended::appended))]
fn begin_line(level: u8, word: &[u8], out: &mut Vec<u8>) -> Result<(), AllocError>
    ensures ok { OnOk result (out.new.items ≡ out.old.items ++ (indent level ++ word.now)) }
    ensures err { OnErr result (AppendsPart out.old.items out.new.items (indent level ++ word.now)) }
{
    print_indent(level, out)?;
    put(out, word)?;
    Ok(())
}

/// A line of a word.
#[tactic(auto, using(crate::proofs::Appended::appended))]
pub(crate) fn word_line(level: u8, word: &[u8], out: &mut Vec<u8>) -> Result<(), AllocError>
    ensures ok { OnOk result (out.new.items ≡ out.old.items ++ line (indent level ++ word.now)) }
    ensures err { OnErr result (AppendsPart out.old.items out.new.items (line (indent level ++ word.now))) }
{
    begin_line(level, word, out)?;
    put(out, b"\n")?;
    Ok(())
}

/// The line of an action.
#[tactic(auto, using(crate::proofs::Appended::appended))]
pub(crate) fn step_line(
    p: &Problem<'_>,
    level: u8,
    step: &Instance,
    out: &mut Vec<u8>,
) -> Result<(), AllocError>
    ensures ok { OnOk result (out.new.items ≡ out.old.items ++ line (indent level ++ instance_text (names_of p.now) (instance_of step.now))) }
    ensures err { OnErr result (AppendsPart out.old.items out.new.items (line (indent level ++ instance_text (names_of p.now) (instance_of step.now)))) }
{
    print_indent(level, out)?;
    print_instance(p, step, out)?;
    put(out, b"\n")?;
    Ok(())
}

/// The line of a branch.
#[tactic(auto, using(crate::proofs::Appended::appended))]
pub(crate) fn branch_line(
    p: &Problem<'_>,
    level: u8,
    test: &Conj,
    out: &mut Vec<u8>,
) -> Result<(), AllocError>
    ensures ok { OnOk result (out.new.items ≡ out.old.items ++ line (indent level ++ (codes "branch " ++ conj_text (names_of p.now) (conj_of test.now)))) }
    ensures err { OnErr result (AppendsPart out.old.items out.new.items (line (indent level ++ (codes "branch " ++ conj_text (names_of p.now) (conj_of test.now))))) }
{
    begin_line(level, b"branch ", out)?;
    print_conj(p, test, out)?;
    put(out, b"\n")?;
    Ok(())
}

/// The line of cases.
#[tactic(auto, using(crate::proofs::Appended::appended))]
pub(crate) fn cases_line(
    p: &Problem<'_>,
    level: u8,
    term: &Term,
    out: &mut Vec<u8>,
) -> Result<(), AllocError>
    ensures ok { OnOk result (out.new.items ≡ out.old.items ++ line (indent level ++ (codes "cases " ++ term_text (names_of p.now) (term_of term.now)))) }
    ensures err { OnErr result (AppendsPart out.old.items out.new.items (line (indent level ++ (codes "cases " ++ term_text (names_of p.now) (term_of term.now))))) }
{
    begin_line(level, b"cases ", out)?;
    print_term(p, term, out)?;
    put(out, b"\n")?;
    Ok(())
}

/// The line of one case.
#[tactic(auto, using(crate::proofs::Appended::appended))]
pub(crate) fn case_line(
    p: &Problem<'_>,
    level: u8,
    object: ObjId,
    out: &mut Vec<u8>,
) -> Result<(), AllocError>
    ensures ok { OnOk result (out.new.items ≡ out.old.items ++ line (indent level ++ (codes "case " ++ name_in (names_of p.now).objects object.0))) }
    ensures err { OnErr result (AppendsPart out.old.items out.new.items (line (indent level ++ (codes "case " ++ name_in (names_of p.now).objects object.0)))) }
{
    begin_line(level, b"case ", out)?;
    object.print(&Wording(p, None), out)?;
    put(out, b"\n")?;
    Ok(())
}

/// The first line.
#[tactic(auto, using(crate::proofs::Appended::appended))]
pub(crate) fn depth_line(depth: u32, out: &mut Vec<u8>) -> Result<(), AllocError>
    ensures ok { OnOk result (out.new.items ≡ out.old.items ++ line (codes "plan depth " ++ decimal depth)) }
    ensures err { OnErr result (AppendsPart out.old.items out.new.items (line (codes "plan depth " ++ decimal depth))) }
{
    put(out, b"plan depth ")?;
    put_number(out, depth as u64)?;
    put(out, b"\n")?;
    Ok(())
}
