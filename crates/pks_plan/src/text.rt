//! The text of terms, literals, conjunctions, patterns and actions.

ghost use Rattle.std.specs.Prelude.{◌≡◌, ◌++◌, map, OnOk, OnErr};
ghost use Rattle.pks_terms.specs.Printed.{name_in, term_text, literal_text, conj_text, pattern_text, instance_text};
ghost use Rattle.pks_terms.specs.Views.{names_of, term_of, literal_of, conj_of, pattern_of, instance_of};
ghost use Rattle.pks_plan.specs.Appending.{AppendsPart};
ghost use Rattle.pks_plan.specs.Written.{parameters_of, parameter_text};

use crate::bytes::put;
use crate::parts::{PrintedPart, Wording, print_list, print_parts};
use pks_terms::ids::ObjId;
use pks_terms::literal::{Atom, Conj, Literal, Pattern};
use pks_terms::lookup::{action_name, function_name, object_name, predicate_name, relation_text};
use pks_terms::problem::Problem;
use pks_terms::schema::Instance;
use pks_terms::term::{Inner, Term, front};
use std::alloc::AllocError;

/// The name of a parameter, or no text where there is none.
fn parameter_name<'s>(parameters: &[&'s str], parameter: u8) -> &'s str
    ensures { result.now ≡ name_in (map (λ t. t.now) parameters.now) parameter }
{
    match parameters.get(usize::from(parameter)) {
        Some(name) => *name,
        None => "",
    }
}

/// A parameter's name behind a question mark, where parameters have names.
#[tactic(auto, using(crate::proofs::Appended::appended))]
fn print_parameter(w: &Wording<'_>, parameter: u8, out: &mut Vec<u8>) -> Result<(), AllocError>
    ensures ok { OnOk result (out.new.items ≡ out.old.items ++ parameter_text (parameters_of w.now) parameter) }
    ensures err { OnErr result (AppendsPart out.old.items out.new.items (parameter_text (parameters_of w.now) parameter)) }
{
    if let Some(names) = w.1 {
        put(out, b"?")?;
        put(out, parameter_name(names, parameter).as_bytes())?;
    }
    Ok(())
}

impl PrintedPart for ObjId {
    ghost use Rattle.pks_terms.specs.Printed.{name_in};
    ghost use Rattle.pks_terms.specs.Views.{names_of};

    ghost text = { λ w d. name_in (names_of w.0.now).objects d.0 };

    fn print(&self, w: &Wording<'_>, out: &mut Vec<u8>) -> Result<(), AllocError> {
        put(out, object_name(w.0, *self).as_bytes())?;
        Ok(())
    }
}

impl PrintedPart for Inner {
    ghost use Rattle.pks_terms.specs.Views.{inner_of};
    ghost use Rattle.pks_plan.specs.Written.{written_inner};

    ghost text = { λ w t. written_inner w (inner_of t) };

    #[tactic(auto, using(crate::proofs::Appended::printed, crate::proofs::Forms::forms))]
    fn print(&self, w: &Wording<'_>, out: &mut Vec<u8>) -> Result<(), AllocError> {
        match self {
            Inner::Obj(object) => object.print(w, out)?,
            Inner::Param(i) => print_parameter(w, *i, out)?,
            Inner::App { fun, n, args } => {
                let name = function_name(w.0, *fun);
                print_list(w, name.as_bytes(), front(args, *n), out)?
            }
        }
        Ok(())
    }
}

impl PrintedPart for Term {
    ghost use Rattle.pks_terms.specs.Views.{term_of};
    ghost use Rattle.pks_plan.specs.Written.{written_term};

    ghost text = { λ w t. written_term w (term_of t) };

    #[tactic(auto, using(crate::proofs::Appended::printed, crate::proofs::Forms::forms))]
    fn print(&self, w: &Wording<'_>, out: &mut Vec<u8>) -> Result<(), AllocError> {
        match self {
            Term::Obj(object) => object.print(w, out)?,
            Term::Param(i) => print_parameter(w, *i, out)?,
            Term::App { fun, n, args } => {
                let name = function_name(w.0, *fun);
                print_list(w, name.as_bytes(), front(args, *n), out)?
            }
        }
        Ok(())
    }
}

impl PrintedPart for Option<Term> {
    ghost use Rattle.std.specs.Prelude.{option_map};
    ghost use Rattle.pks_terms.specs.Views.{term_of};
    ghost use Rattle.pks_plan.specs.Written.{written_slot};

    ghost text = { λ w slot. written_slot w (option_map term_of slot) };

    fn print(&self, w: &Wording<'_>, out: &mut Vec<u8>) -> Result<(), AllocError> {
        match self {
            Some(t) => t.print(w, out)?,
            None => put(out, b"_")?,
        }
        Ok(())
    }
}

impl PrintedPart for Atom {
    ghost use Rattle.std.specs.Prelude.{map};
    ghost use Rattle.pks_terms.specs.Printed.{listed, relation_text};
    ghost use Rattle.pks_terms.specs.Views.{names_of, relation_of, sides_of};
    ghost use Rattle.pks_plan.specs.Written.{written_term};

    ghost text = { λ w a. listed (relation_text (names_of w.0.now) (relation_of a)) (map (written_term w) (sides_of a)) };

    #[tactic(auto, using(crate::proofs::Appended::printed))]
    fn print(&self, w: &Wording<'_>, out: &mut Vec<u8>) -> Result<(), AllocError> {
        let arguments = self.arguments();
        let head = relation_text(w.0, self);
        print_list(w, head.as_bytes(), arguments.terms(), out)?;
        Ok(())
    }
}

impl PrintedPart for Literal {
    ghost use Rattle.pks_terms.specs.Views.{literal_of};
    ghost use Rattle.pks_plan.specs.Written.{written_literal};

    ghost text = { λ w l. written_literal w (literal_of l) };

    #[tactic(auto, using(crate::proofs::Appended::appended))]
    fn print(&self, w: &Wording<'_>, out: &mut Vec<u8>) -> Result<(), AllocError> {
        if self.positive {
            self.atom.print(w, out)?;
        } else {
            print_list(w, b"not", &[self.atom], out)?;
        }
        Ok(())
    }
}

impl PrintedPart for Pattern {
    ghost use Rattle.pks_terms.specs.Views.{pattern_of};
    ghost use Rattle.pks_plan.specs.Written.{written_pattern};

    ghost text = { λ w x. written_pattern w (pattern_of x) };

    #[tactic(auto, using(crate::proofs::Appended::printed))]
    fn print(&self, w: &Wording<'_>, out: &mut Vec<u8>) -> Result<(), AllocError> {
        let name = predicate_name(w.0, self.pred);
        print_list(w, name.as_bytes(), front(&self.args, self.n), out)?;
        Ok(())
    }
}

/// Appends a term: an object as its name, an application as `(f t u)` (docs/FORMAT.md, "Printed texts"). A parameter has no
/// text. Where memory runs out a beginning of the text was appended.
#[tactic(auto, unfolding(pks_terms::specs::Printed::term_text))]
pub fn print_term(p: &Problem<'_>, t: &Term, out: &mut Vec<u8>) -> Result<(), AllocError>
    ensures ok { OnOk result (out.new.items ≡ out.old.items ++ term_text (names_of p.now) (term_of t.now)) }
    ensures err { OnErr result (AppendsPart out.old.items out.new.items (term_text (names_of p.now) (term_of t.now))) }
{
    t.print(&Wording(p, None), out)?;
    Ok(())
}

/// Appends a literal: an atom as `(p t u)`, an equation as `(= t u)` with its sides as they stand, a negation as
/// `(not ..)` (docs/FORMAT.md, "Printed texts"). Where memory runs out a beginning of the text was appended.
#[tactic(auto, unfolding(pks_terms::specs::Printed::literal_text, pks_terms::specs::Printed::term_text))]
pub fn print_literal(p: &Problem<'_>, l: &Literal, out: &mut Vec<u8>) -> Result<(), AllocError>
    ensures ok { OnOk result (out.new.items ≡ out.old.items ++ literal_text (names_of p.now) (literal_of l.now)) }
    ensures err { OnErr result (AppendsPart out.old.items out.new.items (literal_text (names_of p.now) (literal_of l.now))) }
{
    l.print(&Wording(p, None), out)?;
    Ok(())
}

/// Appends a conjunction: its literals in order, with one blank between (docs/FORMAT.md, "Printed texts"). Where memory runs
/// out a beginning of the text was appended.
#[tactic(auto, using(crate::proofs::Appended::appended, crate::proofs::Appended::with_blanks), unfolding(pks_terms::specs::Printed::conj_text, pks_terms::specs::Printed::literal_text, pks_terms::specs::Printed::term_text))]
pub fn print_conj(p: &Problem<'_>, c: &Conj, out: &mut Vec<u8>) -> Result<(), AllocError>
    ensures ok { OnOk result (out.new.items ≡ out.old.items ++ conj_text (names_of p.now) (conj_of c.now)) }
    ensures err { OnErr result (AppendsPart out.old.items out.new.items (conj_text (names_of p.now) (conj_of c.now))) }
{
    let w = Wording(p, None);
    if let Some((first, rest)) = front(&c.literals, c.n).split_first() {
        first.print(&w, out)?;
        print_parts(&w, rest, out)?;
    }
    Ok(())
}

/// Appends a pattern, as an atom with `_` at its wildcards (docs/FORMAT.md, "Printed texts"). Where memory runs out a
/// beginning of the text was appended.
#[tactic(auto, using(crate::proofs::Forms::slots), unfolding(pks_terms::specs::Printed::pattern_text, pks_terms::specs::Printed::term_text))]
pub fn print_pattern(p: &Problem<'_>, x: &Pattern, out: &mut Vec<u8>) -> Result<(), AllocError>
    ensures ok { OnOk result (out.new.items ≡ out.old.items ++ pattern_text (names_of p.now) (pattern_of x.now)) }
    ensures err { OnErr result (AppendsPart out.old.items out.new.items (pattern_text (names_of p.now) (pattern_of x.now))) }
{
    x.print(&Wording(p, None), out)?;
    Ok(())
}

/// Appends an action with its arguments, as `(name t u)` (docs/FORMAT.md, "Printed texts"). Where memory runs out a beginning
/// of the text was appended.
#[tactic(auto, using(crate::proofs::Appended::printed), unfolding(pks_terms::specs::Printed::instance_text))]
pub fn print_instance(p: &Problem<'_>, i: &Instance, out: &mut Vec<u8>) -> Result<(), AllocError>
    ensures ok { OnOk result (out.new.items ≡ out.old.items ++ instance_text (names_of p.now) (instance_of i.now)) }
    ensures err { OnErr result (AppendsPart out.old.items out.new.items (instance_text (names_of p.now) (instance_of i.now))) }
{
    let name = action_name(p, i.act);
    print_list(&Wording(p, None), name.as_bytes(), front(&i.args, i.n), out)?;
    Ok(())
}
