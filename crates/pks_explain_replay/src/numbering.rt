//! Of lines those on which one rests, each fact once, and a proof of these.

use pks_explain_lines::{Lines, missing_as_memory};
use pks_proof_lines::lines::same_fact;
use pks_proof_lines::{Fact, Line, Proof};
use pks_terms::literal::Literal;
use pks_terms::sequence::Sequence;
use std::alloc::{AllocError, Global};

/// The lines on which one rests. Of those with one fact at one moment one stands for all: of a literal the line by which the
/// table knows it, where it rests on that, else the first.
#[derive(Drop)]
pub(crate) struct Rests {
    /// For each line the one that stands for it.
    firsts: Vec<u32>,
    /// Which lines it rests on, itself among them.
    marks: Vec<bool>,
}

/// The place of the line of this number.
fn place_of(number: u32) -> Option<usize> {
    (number as usize).checked_sub(1)
}

/// Whether the line of this number is marked.
fn is_marked(marks: &[bool], number: u32) -> bool {
    let Some(place) = place_of(number) else {
        return false;
    };
    match marks.get(place) {
        Some(marked) => *marked,
        None => false,
    }
}

/// The line that stands for the one of this number.
fn first_for(firsts: &[u32], number: u32) -> u32 {
    let Some(place) = place_of(number) else {
        return number;
    };
    match firsts.get(place) {
        Some(first) => *first,
        None => number,
    }
}

/// Marks the line of this number, where there is one.
fn mark(marks: &mut Vec<bool>, number: u32) {
    if 0 < number && number as usize <= marks.len() {
        marks[number as usize - 1] = true;
    }
}

/// Marks what stands for the lines that the one of this number cites, where it is marked itself.
fn mark_cited(marks: &mut Vec<bool>, lines: &Lines<'_>, firsts: &[u32], number: u32) {
    if !is_marked(marks.as_slice(), number) {
        return;
    }
    if let Some(line) = lines.line(number) {
        for c in line.cites.as_slice() {
            mark(marks, first_for(firsts, *c));
        }
    }
}

/// Which lines the one of this number rests on, itself among them, where these stand for the others.
fn lines_below(
    alloc: Global,
    lines: &Lines<'_>,
    firsts: &[u32],
    last: u32,
) -> Result<Vec<bool>, AllocError> {
    let mut marks = vec![in alloc; false; last as usize]?;
    mark(&mut marks, first_for(firsts, last));
    for done in 0..last {
        mark_cited(&mut marks, lines, firsts, last - done);
    }
    Ok(marks)
}

/// Whether the line of this number has the same moment and the same literal as the other one.
fn says_same(lines: &Lines<'_>, number: u32, line: &Line) -> bool {
    match lines.line(number) {
        Some(other) => other.moment == line.moment && same_fact(&other.fact, &line.fact),
        None => false,
    }
}

/// The first of these lines with the same moment and fact as this one, if there is one.
fn same_among(lines: &Lines<'_>, numbers: &[u32], line: &Line) -> Option<u32> {
    for number in numbers {
        if says_same(lines, *number, line) {
            return Some(*number);
        }
    }
    None
}

/// The line by which the table knows the literal at the moment, where it is marked and none of the later ones.
fn known_before(
    lines: &Lines<'_>,
    marks: &[bool],
    number: u32,
    m: u32,
    l: &Literal,
) -> Option<u32> {
    match lines.line_of(m as usize, l) {
        Some(own) if own <= number && is_marked(marks, own) => Some(own),
        Some(_) | None => None,
    }
}

/// The first of the lines that were made again with the moment and fact of this one, which joins them where there is none.
fn first_again(
    lines: &Lines<'_>,
    number: u32,
    line: &Line,
    again: &mut Vec<u32>,
) -> Result<u32, AllocError> {
    if let Some(first) = same_among(lines, again.as_slice(), line) {
        return Ok(first);
    }
    again.push(number)?;
    Ok(number)
}

/// The line that stands for the one of this number: of literals the one by which the table knows it, where that is marked
/// and comes first, else the first of those that were made again.
fn first_of(
    lines: &Lines<'_>,
    marks: &[bool],
    number: u32,
    again: &mut Vec<u32>,
) -> Result<u32, AllocError> {
    let Some(line) = lines.line(number) else {
        return Err(missing_as_memory());
    };
    let Fact::Lit(l) = &line.fact else {
        return Ok(number);
    };
    match known_before(lines, marks, number, line.moment, l) {
        Some(own) => Ok(own),
        None => first_again(lines, number, line, again),
    }
}

/// The line that stands for the one of this number where it is marked.
fn first_if_marked(
    lines: &Lines<'_>,
    marks: &[bool],
    number: u32,
    again: &mut Vec<u32>,
) -> Result<u32, AllocError> {
    if is_marked(marks, number) {
        first_of(lines, marks, number, again)
    } else {
        Ok(number)
    }
}

/// For each of the first lines, so many, the one that stands for it where it is marked.
fn firsts_of(
    alloc: Global,
    lines: &Lines<'_>,
    marks: &[bool],
    last: u32,
) -> Result<Vec<u32>, AllocError> {
    let mut firsts = Vec::new(alloc);
    let mut again = Vec::new(alloc);
    for before in 0..last {
        let first = first_if_marked(lines, marks, before + 1, &mut again)?;
        firsts.push(first)?;
    }
    Ok(firsts)
}

/// The lines on which the one of this number rests. The error is want of memory, or a line that isn't found.
pub(crate) fn rests_of(alloc: Global, lines: &Lines<'_>, last: u32) -> Result<Rests, AllocError> {
    let used = lines_below(alloc, lines, &[], last)?;
    let firsts = firsts_of(alloc, lines, used.as_slice(), last)?;
    let marks = lines_below(alloc, lines, firsts.as_slice(), last)?;
    Ok(Rests { firsts, marks })
}

/// The number of each line among those that are marked.
fn ranks_of(alloc: Global, marks: &[bool]) -> Result<Vec<u32>, AllocError> {
    let mut ranks = Vec::new(alloc);
    let mut rank: u32 = 0;
    for marked in marks {
        if *marked {
            rank = rank.saturating_add(1);
        }
        ranks.push(rank)?;
    }
    Ok(ranks)
}

/// An equal fact.
fn copy_of(f: &Fact) -> Result<Fact, AllocError> {
    match f {
        Fact::Lit(l) => Ok(Fact::Lit(*l)),
        Fact::Kx(g) => Ok(Fact::Kx(g.copy()?)),
        Fact::Lcw(e) => Ok(Fact::Lcw(e.share()?)),
    }
}

impl Rests {
    /// How many lines there are.
    pub fn count(&self) -> usize {
        let mut count: usize = 0;
        for marked in self.marks.as_slice() {
            if *marked {
                count = count.saturating_add(1);
            }
        }
        count
    }

    /// The numbers among the lines of those that are cited, in order and each once.
    fn new_cites(
        &self,
        alloc: Global,
        ranks: &[u32],
        cites: &[u32],
    ) -> Result<Vec<u32>, AllocError> {
        let mut numbers = Vec::new(alloc);
        for c in cites {
            let first = first_for(self.firsts.as_slice(), *c);
            numbers.push(first_for(ranks, first))?;
        }
        numbers.sort()?;
        numbers.dedup();
        Ok(numbers)
    }

    /// The line, what it cites numbered anew.
    fn renumber(&self, alloc: Global, ranks: &[u32], line: &Line) -> Result<Line, AllocError> {
        let cites = self.new_cites(alloc, ranks, line.cites.as_slice())?;
        Ok(Line {
            moment: line.moment,
            fact: copy_of(&line.fact)?,
            reason: line.reason,
            cites: Sequence::of(cites),
        })
    }

    /// The proof that these lines are. The error is want of memory.
    pub fn proof(&self, alloc: Global, lines: &[Line]) -> Result<Proof, AllocError> {
        let ranks = ranks_of(alloc, self.marks.as_slice())?;
        let mut kept = Vec::new(alloc);
        for (place, line) in lines.iter().enumerate() {
            if let Some(true) = self.marks.as_slice().get(place) {
                kept.push(self.renumber(alloc, ranks.as_slice(), line)?)?;
            }
        }
        Ok(Sequence::of(kept))
    }
}
