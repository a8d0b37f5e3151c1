//! Reads the proofs of a table, and has them judged.
ghost use Rattle.std.specs.Prelude.{◌≤◌, length, IfOk};
ghost use Rattle.pks_terms.specs.declared.limits.TheConstants.{MOST_OBJECTS};

use crate::rows::{Piece, ProofRow, ProofTable, Said};
use pks_lcw::Entry;
use pks_lcw::atoms::AtomSet;
use pks_proof::accepts;
use pks_proof_lines::{Fact, Line, Path, Proof, Reason, Turn};
use pks_reader::read_problem;
use pks_terms::choices::{Choice, Side};
use pks_terms::ids::{ActId, ItemNo, ObjId};
use pks_terms::limits::{MOST_BYTES, MOST_OBJECTS};
use pks_terms::literal::{Atom, Conj, Literal, Pattern};
use pks_terms::problem::{Aim, Init, InitItem, Problem};
use pks_terms::schema::{Instance, Query};
use pks_terms::sequence::Sequence;
use pks_terms::term::{Inner, Term, front};
use std::alloc::{AllocError, Global};
use std::test::Fail;

/// A file whose one action does nothing.
const WAITING: &str =
    "(pks 1)\n(domain (predicates (open)) (action wait))\n(problem (init (kf (open))) (goal (k (open))))\n";

/// The items of a file that are left to be taken.
#[derive(Drop)]
struct Sheet<'a> {
    rest: &'a [InitItem],
}

impl<'a> Sheet<'a> {
    fn next(&mut self) -> Result<&'a Init, Fail> {
        match self.rest {
            [] => Err(Fail::new("an item is missing")),
            [item, rest @ ..] => {
                self.rest = rest;
                Ok(&item.start)
            }
        }
    }

    fn formula(&mut self) -> Result<Conj, Fail> {
        match self.next()? {
            Init::Kw(c) => Ok(*c),
            _ => Err(Fail::new("the item is no formula")),
        }
    }

    fn term(&mut self) -> Result<Term, Fail> {
        match self.next()? {
            Init::Kv(t) => Ok(*t),
            _ => Err(Fail::new("the item is no term")),
        }
    }

    /// The atoms of a formula that stands next, and none where no formula does.
    fn next_atoms(&mut self, alloc: Global) -> Result<AtomSet, Fail> {
        match self.rest {
            [] => Ok(AtomSet::empty()),
            [item, rest @ ..] => match &item.start {
                Init::Kw(c) => {
                    self.rest = rest;
                    atoms_of(alloc, c)
                }
                _ => Ok(AtomSet::empty()),
            },
        }
    }

    fn region(&mut self, alloc: Global, pattern: Pattern) -> Result<Fact, Fail> {
        let list = self.next_atoms(alloc)?;
        Ok(Fact::Lcw(Entry { pattern, list }))
    }

    fn fact(&mut self, alloc: Global) -> Result<Fact, Fail> {
        match self.next()? {
            Init::Kf(l) => Ok(Fact::Lit(*l)),
            Init::Kx(group) => {
                let group = group.copy()?;
                Ok(Fact::Kx(group))
            }
            Init::Lcw(pattern) => self.region(alloc, *pattern),
            _ => Err(Fail::new("the item is no fact")),
        }
    }
}

fn atoms_of(alloc: Global, formula: &Conj) -> Result<AtomSet, Fail> {
    let mut atoms = AtomSet::empty();
    for l in front(&formula.literals, formula.n) {
        match &l.atom {
            Atom::Pred(a) => atoms = atoms.add(alloc, *a)?,
            Atom::Eq { .. } => return Err(Fail::new("an equation is listed")),
        }
    }
    Ok(atoms)
}

/// The text of the domain's file with these initial items and the goal to know the literal.
fn text(alloc: Global, domain: &str, init: &str, goal: &str) -> Result<String, AllocError> {
    let mut text = String::from_str(alloc, domain)?;
    text.push_str("(problem (init ")?;
    text.push_str(init)?;
    text.push_str(") (goal (k ")?;
    text.push_str(goal)?;
    text.push_str(")))\n")?;
    Ok(text)
}

/// The items of the choices on the path, and then those of the facts.
fn items(alloc: Global, row: &ProofRow) -> Result<String, AllocError> {
    let mut text = String::new(alloc);
    for piece in row.path {
        match piece {
            Piece::Act(_) | Piece::At(_, _) => {}
            Piece::True(item) | Piece::False(item) | Piece::Case(item, _) => text.push_str(item)?,
        }
    }
    for line in row.lines {
        text.push_str(line.1)?;
    }
    Ok(text)
}

/// The problem of a file.
fn read<'s>(alloc: Global, text: &'s str) -> Result<Problem<'s>, Fail>
    ensures { IfOk result (λ p. length p.signature.objects ≤ MOST_OBJECTS) }
{
    if text.len() > MOST_BYTES {
        return Err(Fail::new("the file is too long"));
    }
    let Ok(p) = read_problem(alloc, text) else {
        return Err(Fail::new("the file is refused"));
    };
    if p.signature.objects.len() > MOST_OBJECTS {
        return Err(Fail::new("there are too many objects"));
    }
    Ok(p)
}

fn turn_of_act(act: u8, n: u8, object: u16) -> Turn {
    Turn::Went(Instance {
        act: ActId(act),
        n,
        args: [Inner::Obj(ObjId(object)); 4],
    })
}

fn turn(sheet: &mut Sheet<'_>, piece: &Piece) -> Result<Turn, Fail> {
    match piece {
        Piece::Act(act) => Ok(turn_of_act(*act, 0, 0)),
        Piece::At(act, object) => Ok(turn_of_act(*act, 1, *object)),
        Piece::True(_) => Ok(Turn::Took(Choice::Branch(sheet.formula()?), Side::True)),
        Piece::False(_) => Ok(Turn::Took(Choice::Branch(sheet.formula()?), Side::False)),
        Piece::Case(_, object) => {
            let side = Side::Is(ObjId(*object));
            Ok(Turn::Took(Choice::Cases(sheet.term()?), side))
        }
    }
}

fn path(alloc: Global, sheet: &mut Sheet<'_>, pieces: &[Piece]) -> Result<Path, Fail> {
    let mut path = Vec::new(alloc);
    for piece in pieces {
        let turn = turn(sheet, piece)?;
        path.push(turn)?;
    }
    Ok(Sequence::of(path))
}

fn line(alloc: Global, sheet: &mut Sheet<'_>, said: &Said) -> Result<Line, Fail> {
    let cites = said.3.to_vec(alloc)?;
    let fact = sheet.fact(alloc)?;
    Ok(Line {
        moment: said.0,
        fact,
        reason: said.2,
        cites: Sequence::of(cites),
    })
}

fn proof(alloc: Global, sheet: &mut Sheet<'_>, lines: &[Said]) -> Result<Proof, Fail> {
    let mut proof = Vec::new(alloc);
    for said in lines {
        let line = line(alloc, sheet, said)?;
        proof.push(line)?;
    }
    Ok(Sequence::of(proof))
}

/// The literal that is to be known.
fn goal(p: &Problem<'_>) -> Result<Literal, Fail> {
    match p.goal.as_slice() {
        [Aim::Now(Query::K(l))] => Ok(*l),
        _ => Err(Fail::new("the goal is no literal")),
    }
}

/// Whether the proof on the sheet is accepted for the sheet's goal.
fn is_shown(
    alloc: Global,
    p: &Problem<'_>,
    sheet: &Problem<'_>,
    row: &ProofRow,
) -> Result<bool, Fail>
    requires { length p.now.signature.objects ≤ MOST_OBJECTS }
{
    let mut left = Sheet {
        rest: sheet.init.as_slice(),
    };
    let path = path(alloc, &mut left, row.path)?;
    let proof = proof(alloc, &mut left, row.lines)?;
    let l = goal(sheet)?;
    Ok(accepts(p, &path, &proof, &l))
}

/// Whether the proof of a row is accepted.
fn is_accepted(alloc: Global, domain: &str, row: &ProofRow) -> Result<bool, Fail> {
    let file = text(alloc, domain, row.init, row.shows)?;
    let items = items(alloc, row)?;
    let sheet = text(alloc, domain, items.as_str(), row.shows)?;
    let p = read(alloc, file.as_str())?;
    let sheet = read(alloc, sheet.as_str())?;
    is_shown(alloc, &p, &sheet, row)
}

/// The first row, counted from 0, that is judged otherwise than it says.
pub fn first_wrong(alloc: Global, table: &ProofTable) -> Result<Option<usize>, Fail> {
    for (k, row) in table.rows.iter().enumerate() {
        if is_accepted(alloc, table.domain, row)? != row.accepted {
            return Ok(Some(k));
        }
    }
    Ok(None)
}

/// The line that brings the literal to the next moment, or back from it.
fn there_or_back(alloc: Global, l: &Literal, number: u32) -> Result<Line, Fail> {
    let cites = [number].to_vec(alloc)?;
    let moment = number % 2;
    let reason = if moment == 1 {
        Reason::Keep
    } else {
        Reason::Back
    };
    Ok(Line {
        moment,
        fact: Fact::Lit(*l),
        reason,
        cites: Sequence::of(cites),
    })
}

/// The proof of so many lines after the first, in which a given literal is kept by an action, brought back, and so on.
fn long_proof(alloc: Global, l: &Literal, more: u32) -> Result<Proof, Fail> {
    let mut proof = Vec::new(alloc);
    proof.push(Line {
        moment: 0,
        fact: Fact::Lit(*l),
        reason: Reason::Given(ItemNo(1)),
        cites: Sequence::of(Vec::new(alloc)),
    })?;
    for number in 1..=more {
        let line = there_or_back(alloc, l, number)?;
        proof.push(line)?;
    }
    Ok(Sequence::of(proof))
}

/// Whether a long proof is accepted, with so many lines after the first.
pub fn is_long_accepted(alloc: Global, more: u32) -> Result<bool, Fail> {
    let p = read(alloc, WAITING)?;
    let l = goal(&p)?;
    let path = [turn_of_act(0, 0, 0)].to_vec(alloc)?;
    let proof = long_proof(alloc, &l, more)?;
    Ok(accepts(&p, &Sequence::of(path), &proof, &l))
}
