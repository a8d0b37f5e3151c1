//! What the reason of a line may rely on: the facts of the lines that it cites, each at its moment.
ghost use Rattle.std.specs.Prelude.{◌≡◌, map, slice_get, false};
ghost use Rattle.std.specs.List.{list_any};
ghost use Rattle.std.specs.Option.{option_map, option_map_or, option_and_then};
ghost use Rattle.pks_terms.specs.Orders.{literal_eq, inequation};
ghost use Rattle.pks_terms.specs.Syntax.{negated};
ghost use Rattle.pks_terms.specs.Views.{term_of, literal_of, literals_in};
ghost use Rattle.pks_terms.specs.Proofs.{nth};
ghost use Rattle.pks_terms.specs.Judging.{fact_eq, fact_then, relies, is_cited, are_cited, by_cited};
ghost use Rattle.pks_terms.specs.Rewriting.{is_equation};
ghost use Rattle.pks_proof_lines.specs.ProofViews.{fact_of, line_of, lines_of};
ghost use Rattle.pks_proof_cited.specs.CitedViews.{judge_of};

use pks_proof_lines::lines::same_fact;
use pks_proof_lines::{Fact, Line};
use pks_terms::literal::{Literal, equation};
use pks_terms::term::Term;

/// What is cited at a moment.
#[derive(Clone, Copy)]
pub struct Cited<'a> {
    /// The lines of the proof, counted from 1.
    pub lines: &'a [Line],
    /// The cited numbers.
    pub numbers: &'a [u32],
    /// The moment.
    pub moment: u64,
}

/// The line at an index.
pub fn line_at(lines: &[Line], index: usize) -> Option<&Line>
    ensures { option_map (λ x. line_of x.now) result ≡ slice_get (lines_of lines.now) index }
{
    lines.get(index)
}

/// The line of a number, counted from 1.
#[tactic(auto, using(crate::proofs::Citing::nth_before))]
fn numbered_line(lines: &[Line], number: u32) -> Option<&Line>
    ensures { option_map (λ x. line_of x.now) result ≡ nth (lines_of lines.now) number }
{
    if number == 0 {
        return None;
    }
    line_at(lines, number as usize - 1)
}

/// The fact of the line of a number, where the line is of the moment.
pub fn fact_at(lines: &[Line], moment: u64, number: u32) -> Option<&Fact>
    ensures { option_map (λ f. fact_of f.now) result ≡ option_and_then (fact_then moment) (nth (lines_of lines.now) number) }
{
    match numbered_line(lines, number) {
        Some(line) => {
            if u64::from(line.moment) == moment {
                Some(&line.fact)
            } else {
                None
            }
        }
        None => None,
    }
}

/// Whether the line of the number says the fact of the moment.
fn says(lines: &[Line], moment: u64, number: u32, fact: &Fact) -> bool
    ensures { result ≡ option_map_or (fact_eq (fact_of fact.now)) (option_and_then (fact_then moment) (nth (lines_of lines.now) number)) false }
{
    match fact_at(lines, moment, number) {
        Some(cited) => same_fact(fact, cited),
        None => false,
    }
}

/// Whether one of the lines of these numbers says the fact of the moment.
#[tactic(auto, using(crate::proofs::Citing::any_cited))]
fn some_says(lines: &[Line], moment: u64, numbers: &[u32], fact: &Fact) -> bool
    ensures { result ≡ relies (by_cited (lines_of lines.now) numbers.now) moment (fact_of fact.now) }
{
    for n in numbers {
        if says(lines, moment, *n, fact) {
            return true;
        }
    }
    false
}

impl Cited<'_> {
    /// Whether the fact is cited. It takes no memory.
    pub fn relies(&self, fact: &Fact) -> bool
        ensures { result ≡ relies (judge_of self.now) self.now.moment (fact_of fact.now) }
    {
        some_says(self.lines, self.moment, self.numbers, fact)
    }

    /// Whether the literal is cited. It takes no memory.
    pub fn has(&self, l: &Literal) -> bool
        ensures { result ≡ is_cited (judge_of self.now) self.now.moment (literal_of l.now) }
    {
        self.relies(&Fact::Lit(*l))
    }

    /// Whether the equation of the terms is cited. It takes no memory.
    pub fn equates(&self, t: &Term, u: &Term) -> bool
        ensures { result ≡ is_equation (judge_of self.now) self.now.moment (term_of t.now) (term_of u.now) }
    {
        self.has(&equation(t, u, true))
    }

    /// Whether it is cited that the terms differ. It takes no memory.
    pub fn tells_apart(&self, t: &Term, u: &Term) -> bool
        ensures { result ≡ is_cited (judge_of self.now) self.now.moment (inequation (term_of t.now) (term_of u.now)) }
    {
        self.has(&equation(t, u, false))
    }
}

/// Whether each of the literals is cited. It takes no memory.
pub fn are_cited(c: &Cited<'_>, ls: &[Literal]) -> bool
    ensures { result ≡ are_cited (judge_of c.now) c.now.moment (literals_in ls.now) }
{
    for l in ls {
        if !c.has(l) {
            return false;
        }
    }
    true
}

/// Whether the negation of each of the literals is cited. It takes no memory.
pub fn are_denied(c: &Cited<'_>, ls: &[Literal]) -> bool
    ensures { result ≡ are_cited (judge_of c.now) c.now.moment (map negated (literals_in ls.now)) }
{
    for l in ls {
        if !c.has(&l.negated()) {
            return false;
        }
    }
    true
}

/// Whether one of the literals is cited. It takes no memory.
pub fn some_cited(c: &Cited<'_>, ls: &[Literal]) -> bool
    ensures { result ≡ list_any (is_cited (judge_of c.now) c.now.moment) (literals_in ls.now) }
{
    for l in ls {
        if c.has(l) {
            return true;
        }
    }
    false
}

/// Whether the negation of one of the literals is cited. It takes no memory.
pub fn some_denied(c: &Cited<'_>, ls: &[Literal]) -> bool
    ensures { result ≡ list_any (λ l. is_cited (judge_of c.now) c.now.moment (negated l)) (literals_in ls.now) }
{
    for l in ls {
        if c.has(&l.negated()) {
            return true;
        }
    }
    false
}

/// Whether the literal is one of these. It takes no memory.
#[tactic(auto, unfolding(pks_terms::specs::Orders::literal_eq))]
pub fn is_one_of(l: &Literal, ls: &[Literal]) -> bool
    ensures { result ≡ list_any (literal_eq (literal_of l.now)) (literals_in ls.now) }
{
    for k in ls {
        if l == k {
            return true;
        }
    }
    false
}
