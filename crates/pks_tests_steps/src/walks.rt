//! Walks through a worked domain: the history after actions that are named by their lines, and what is known at its moments.
ghost use Rattle.std.specs.Prelude.{◌≡◌, ◌≤◌, ◌+◌, length, IfOk};
ghost use Rattle.pks_terms.specs.Sets.{IsIn};
ghost use Rattle.pks_terms.specs.Branching.{IsMember, choices, left};
ghost use Rattle.pks_terms.specs.Typed.{AllJustified};
ghost use Rattle.pks_terms.specs.ValidProblems.{IsValidProblem};
ghost use Rattle.pks_terms.specs.Settling.{last_moment};
ghost use Rattle.pks_terms.specs.Views.{object_of, problem_of, term_of};
ghost use Rattle.pks_terms.specs.Moments.{AreMomentsOf, IsMomentOf};
ghost use Rattle.pks_laws.specs.OfSignature.{IsSideOf};
ghost use Rattle.pks_query_lookup.specs.Fives.{five_of};
ghost use Rattle.pks_terms.specs.ChoiceViews.{choice_of, side_of};
ghost use Rattle.pks_history_replay.specs.Walking.{HasRoom};

use crate::domains::DomainText;
use crate::rows::{Sides, Then, WalkRow, WrongRow};
use pks_branch::assuming::assume;
use pks_branch::choosing::choices;
use pks_branch::leaving::left;
use pks_history::histories::History;
use pks_justify::justify;
use pks_past::meeting::met;
use pks_plan::{print_conj, print_instance, print_term};
use pks_postdict::settling::{Settled, settle};
use pks_progress::progressing::progress;
use pks_query::databases::{Db, Step};
use pks_reader::read_problem;
use pks_run_bench::generate;
use pks_terms::choices::{Choice, Side};
use pks_terms::ids::ObjId;
use pks_terms::limits::MOST_BYTES;
use pks_terms::problem::Problem;
use pks_terms::term::Term;
use std::alloc::{AllocError, Global};
use std::test::Fail;

/// The text of the domain's file with these initial items.
pub(crate) fn text(alloc: Global, domain: &DomainText, init: &str) -> Result<String, AllocError> {
    format!(in alloc;
        "{}(problem (init {}{init}) (goal {}))\n",
        domain.text, domain.known, domain.goal
    )
}

/// The problem of a file, all of whose adds are justified.
pub(crate) fn read<'s>(alloc: Global, text: &'s str) -> Result<Problem<'s>, Fail>
    ensures valid { IfOk result (λ p. IsValidProblem p) }
    ensures justified { IfOk result (λ p. AllJustified (problem_of p)) }
{
    if text.len() > MOST_BYTES {
        return Err(Fail::new("the file is too long"));
    }
    let Ok(p) = read_problem(alloc, text) else {
        return Err(Fail::new("the file is refused"));
    };
    match justify(&p) {
        Ok(()) => Ok(p),
        Err(_) => Err(Fail::new("an add isn't justified")),
    }
}

/// The first databases.
pub(crate) fn first(alloc: Global, p: &Problem<'_>) -> Result<Db, Fail>
    requires { IsValidProblem p.now }
    ensures { IfOk result (λ d. IsMomentOf (problem_of p.now).signature (five_of d)) }
{
    match Db::first(alloc, p) {
        Ok(d) => Ok(d),
        Err(_) => Err(Fail::new("the first databases clash")),
    }
}

/// Prints a choice: an action, or a branch or cases with their words.
fn print(p: &Problem<'_>, c: &Choice, out: &mut Vec<u8>) -> Result<(), AllocError> {
    match c {
        Choice::Act(step) => print_instance(p, step, out),
        Choice::Branch(test) => {
            out.extend_from_slice(b"branch ")?;
            print_conj(p, test, out)
        }
        Choice::Cases(term) => {
            out.extend_from_slice(b"cases ")?;
            print_term(p, term, out)
        }
    }
}

/// Whether this is the line of a choice.
fn is_line(alloc: Global, p: &Problem<'_>, c: &Choice, line: &str) -> Result<bool, AllocError> {
    let mut out = Vec::new(alloc);
    print(p, c, &mut out)?;
    Ok(out.as_slice() == line.as_bytes())
}

/// The choice of this line.
#[tactic(auto, using(crate::proofs::Walking::in_list))]
fn find_choice(alloc: Global, p: &Problem<'_>, all: &[Choice], wanted: &str) -> Result<Choice, Fail>
    ensures { IfOk result (λ c. IsIn c all.now) }
{
    for k in 0..all.len() {
        if is_line(alloc, p, &all[k], wanted)? {
            return Ok(all[k]);
        }
    }
    Err(Fail::new("there is no such choice"))
}

/// The choice of this line at the last moment.
pub(crate) fn choice_of_line(
    alloc: Global,
    p: &Problem<'_>,
    h: &History,
    wanted: &str,
) -> Result<Choice, Fail>
    requires { IsValidProblem p.now }
    ensures { IfOk result (λ c. IsIn (choice_of c) (choices (problem_of p.now) (last_moment h.now))) }
{
    let all = choices(alloc, p, h.last())?;
    let c = find_choice(alloc, p, all.as_slice(), wanted)?;
    Ok(c)
}

/// The history longer by an action.
fn act(alloc: Global, p: &Problem<'_>, h: &History, wanted: &str) -> Result<History, Fail>
    requires valid { IsValidProblem p.now }
    requires justified { AllJustified (problem_of p.now) }
    requires room { HasRoom (problem_of p.now) 1 h.now }
    ensures moments { IfOk result (λ g. AreMomentsOf (problem_of p.now) g) }
    ensures longer { IfOk result (λ g. length g.steps ≡ length h.now.steps + 1) }
{
    let Choice::Act(step) = choice_of_line(alloc, p, h, wanted)? else {
        return Err(Fail::new("the choice is no action"));
    };
    let Step::Next(d) = progress(alloc, p, h.last(), &step)? else {
        return Err(Fail::new("the next databases clash"));
    };
    let longer = h.push(alloc, step, d)?;
    Ok(longer)
}

/// The history longer by these actions.
fn longer(alloc: Global, p: &Problem<'_>, h: History, actions: &[&str]) -> Result<History, Fail>
    requires valid { IsValidProblem p.now }
    requires justified { AllJustified (problem_of p.now) }
    requires room { HasRoom (problem_of p.now) (length actions.now) h }
    ensures moments { IfOk result (λ g. AreMomentsOf (problem_of p.now) g) }
{
    match actions {
        [] => Ok(h),
        [action, rest @ ..] => {
            let next = act(alloc, p, &h, action)?;
            longer(alloc, p, next, rest)
        }
    }
}

/// The history of these actions, at most 16, from the first databases.
pub(crate) fn history_after(
    alloc: Global,
    p: &Problem<'_>,
    actions: &[&str],
) -> Result<History, Fail>
    requires valid { IsValidProblem p.now }
    requires justified { AllJustified (problem_of p.now) }
    ensures moments { IfOk result (λ g. AreMomentsOf (problem_of p.now) g) }
{
    if actions.len() > 16 {
        return Err(Fail::new("there are too many actions"));
    }
    let d = first(alloc, p)?;
    let h = History::start(alloc, d)?;
    longer(alloc, p, h, actions)
}

/// The history settled on a side, or none where it clashes.
fn take_side(
    alloc: Global,
    p: &Problem<'_>,
    h: &History,
    c: &Choice,
    side: Side,
) -> Result<Option<History>, Fail>
    requires valid { IsValidProblem p.now }
    requires moments { AreMomentsOf (problem_of p.now) h.now }
    requires member { IsMember (last_moment h.now) (choice_of c.now) }
    requires side { IsSideOf (problem_of p.now).signature (choice_of c.now) (side_of side) }
{
    let Step::Next(d) = assume(alloc, p, h.last(), c, side)? else {
        return Err(Fail::new("the side clashes"));
    };
    match settle(alloc, p, h, d)? {
        Settled::Whole(settled) => Ok(Some(settled)),
        Settled::Clash => Ok(None),
    }
}

/// The history settled on a side of a branch, or none where it clashes.
fn take_branch(
    alloc: Global,
    p: &Problem<'_>,
    h: &History,
    wanted: &str,
    so: bool,
) -> Result<Option<History>, Fail>
    requires valid { IsValidProblem p.now }
    requires moments { AreMomentsOf (problem_of p.now) h.now }
{
    let c = choice_of_line(alloc, p, h, wanted)?;
    let Choice::Branch(_) = c else {
        return Err(Fail::new("the choice is no branch"));
    };
    let side = if so { Side::True } else { Side::False };
    take_side(alloc, p, h, &c, side)
}

/// One of the objects that the term may have, counted from 0.
#[tactic(auto, using(crate::proofs::Walking::in_list))]
fn object_left(
    alloc: Global,
    p: &Problem<'_>,
    h: &History,
    term: &Term,
    case: usize,
) -> Result<ObjId, Fail>
    requires { IsValidProblem p.now }
    ensures { IfOk result (λ o. IsIn (object_of o) (left (problem_of p.now).signature (last_moment h.now) (term_of term.now))) }
{
    let objects = left(alloc, p, h.last(), term)?;
    if objects.len() <= case {
        return Err(Fail::new("there is no such case"));
    }
    Ok(objects.as_slice()[case])
}

/// The history settled on one of the cases, counted from 0, or none where it clashes.
fn take_case(
    alloc: Global,
    p: &Problem<'_>,
    h: &History,
    wanted: &str,
    case: usize,
) -> Result<Option<History>, Fail>
    requires valid { IsValidProblem p.now }
    requires moments { AreMomentsOf (problem_of p.now) h.now }
{
    let c = choice_of_line(alloc, p, h, wanted)?;
    let Choice::Cases(term) = c else {
        return Err(Fail::new("the choice has no cases"));
    };
    let object = object_left(alloc, p, h, &term, case)?;
    take_side(alloc, p, h, &c, Side::Is(object))
}

/// Whether the databases are the first ones of a problem.
fn are_first(alloc: Global, p: &Problem<'_>, d: &Db) -> Result<bool, Fail>
    requires { IsValidProblem p.now }
{
    let expected = first(alloc, p)?;
    Ok(expected.same(d))
}

/// Whether the databases are the first ones of a file.
fn are_read(alloc: Global, text: &str, d: &Db) -> Result<bool, Fail> {
    let p = read(alloc, text)?;
    are_first(alloc, &p, d)
}

/// Whether the databases are those of these initial items.
fn is_of(alloc: Global, domain: &DomainText, d: &Db, init: &str) -> Result<bool, Fail> {
    let text = text(alloc, domain, init)?;
    are_read(alloc, text.as_str(), d)
}

/// Whether the databases of the history's moments are those of these initial items.
fn are_of(alloc: Global, domain: &DomainText, h: &History, moments: &[&str]) -> Result<bool, Fail> {
    if h.len() as usize != moments.len() {
        return Ok(false);
    }
    for k in 0..h.len() {
        if !is_of(alloc, domain, h.at(k), moments[k as usize])? {
            return Ok(false);
        }
    }
    Ok(true)
}

/// The same of a history that may have clashed, which has no moments then.
fn whole_of(
    alloc: Global,
    domain: &DomainText,
    h: Option<History>,
    moments: &[&str],
) -> Result<bool, Fail> {
    match h {
        None => Ok(moments.is_empty()),
        Some(h) => are_of(alloc, domain, &h, moments),
    }
}

/// Whether exactly these are the lines of the choices.
fn are_lines(alloc: Global, p: &Problem<'_>, all: &[Choice], lines: &[&str]) -> Result<bool, Fail> {
    if all.len() != lines.len() {
        return Ok(false);
    }
    for k in 0..lines.len() {
        if !is_line(alloc, p, &all[k], lines[k])? {
            return Ok(false);
        }
    }
    Ok(true)
}

/// Whether exactly these are the choices at the last moment.
fn offers(alloc: Global, p: &Problem<'_>, h: &History, lines: &[&str]) -> Result<bool, Fail>
    requires { IsValidProblem p.now }
{
    let all = choices(alloc, p, h.last())?;
    are_lines(alloc, p, all.as_slice(), lines)
}

/// Whether the side of a branch shows these moments.
fn is_side(
    alloc: Global,
    domain: &DomainText,
    p: &Problem<'_>,
    h: &History,
    side: (&str, bool),
    moments: &[&str],
) -> Result<bool, Fail>
    requires valid { IsValidProblem p.now }
    requires moments { AreMomentsOf (problem_of p.now) h.now }
{
    let settled = take_branch(alloc, p, h, side.0, side.1)?;
    whole_of(alloc, domain, settled, moments)
}

/// Whether the sides of a branch show their moments. Both are taken at one history, which stays as it was.
fn shows(
    alloc: Global,
    domain: &DomainText,
    p: &Problem<'_>,
    h: &History,
    sides: &Sides,
) -> Result<bool, Fail>
    requires valid { IsValidProblem p.now }
    requires moments { AreMomentsOf (problem_of p.now) h.now }
{
    let branch = sides.branch;
    Ok(
        is_side(alloc, domain, p, h, (branch, true), sides.yes)?
            && is_side(alloc, domain, p, h, (branch, false), sides.no)?
            && are_of(alloc, domain, h, sides.before)?,
    )
}

/// Whether one of the cases, counted from 0, shows these moments.
fn tells(
    alloc: Global,
    domain: &DomainText,
    p: &Problem<'_>,
    h: &History,
    case: (&str, usize),
    moments: &[&str],
) -> Result<bool, Fail>
    requires valid { IsValidProblem p.now }
    requires moments { AreMomentsOf (problem_of p.now) h.now }
{
    let settled = take_case(alloc, p, h, case.0, case.1)?;
    whole_of(alloc, domain, settled, moments)
}

/// Whether what is to be so after the actions of a walk is so.
fn is_so(alloc: Global, p: &Problem<'_>, h: &History, walk: &WalkRow) -> Result<bool, Fail>
    requires valid { IsValidProblem p.now }
    requires moments { AreMomentsOf (problem_of p.now) h.now }
{
    match &walk.then {
        Then::Moments(moments) => are_of(alloc, walk.domain, h, moments),
        Then::Met(is_met) => Ok(met(p, h) == *is_met),
        Then::Choices(lines) => offers(alloc, p, h, lines),
        Then::Sides(sides) => shows(alloc, walk.domain, p, h, sides),
        Then::Case(cases, case, moments) => {
            tells(alloc, walk.domain, p, h, (cases, *case), moments)
        }
    }
}

/// Whether it is so after the actions in this problem.
fn is_so_after(alloc: Global, p: &Problem<'_>, walk: &WalkRow) -> Result<bool, Fail>
    requires valid { IsValidProblem p.now }
    requires justified { AllJustified (problem_of p.now) }
{
    let h = history_after(alloc, p, walk.actions)?;
    is_so(alloc, p, &h, walk)
}

/// Whether it is so in the problem of this text.
fn is_so_in(alloc: Global, text: &str, walk: &WalkRow) -> Result<bool, Fail> {
    let p = read(alloc, text)?;
    is_so_after(alloc, &p, walk)
}

/// Whether it is so in the walk's own file.
fn is_shown(alloc: Global, walk: &WalkRow) -> Result<bool, Fail> {
    let text = text(alloc, walk.domain, walk.init)?;
    is_so_in(alloc, text.as_str(), walk)
}

/// Fails at the first row, counted from 0, that doesn't show what it says.
pub fn all_shown(alloc: Global, walks: &[WalkRow]) -> Result<(), Fail> {
    for (row, walk) in walks.iter().enumerate() {
        if !is_shown(alloc, walk)? {
            return Err(Fail::from(WrongRow(row)));
        }
    }
    Ok(())
}

/// Whether this is the text of a file with so many objects, whose adds are justified.
fn has_objects(alloc: Global, text: &str, n: usize) -> Result<bool, Fail> {
    let p = read(alloc, text)?;
    Ok(p.signature.objects.len() == n)
}

/// Whether the generated file with this many objects is read, and its adds are justified.
pub fn is_accepted(alloc: Global, n: u8) -> Result<bool, Fail>
    requires least { 1 ≤ n }
    requires most { n ≤ 64 }
{
    let bytes = generate(alloc, n)?;
    match str::from_utf8(bytes.as_slice()) {
        Ok(text) => has_objects(alloc, text, usize::from(n)),
        Err(_) => Ok(false),
    }
}
