//! Literals that come to be known at a moment, and what the known values make of them.

use crate::moment::{MomentLines, Valued, forget, put};
use crate::placing::{SPOTS_OF_LITERAL, applications_in, with_value_at};
use crate::pushing::push;
use pks_pmap::map::PMap;
use pks_query_lookup::table::{place_and_value, place_of};
use pks_terms::literal::Literal;
use pks_terms::term::{Inner, Term};
use std::alloc::{AllocError, Global};

/// A literal that comes of another one by a replacement.
#[derive(Clone, Copy)]
pub struct Swap {
    /// What comes of it.
    pub literal: Literal,
    /// The line of the other one.
    pub line: u32,
    /// The line of the equation.
    pub equation: u32,
}

/// A literal and its line.
#[derive(Clone, Copy)]
struct Lined {
    literal: Literal,
    line: u32,
}

fn with_line(l: &Literal, line: u32) -> Lined {
    Lined { literal: *l, line }
}

/// The map at the key, or an empty one.
fn shared_at(
    map: &PMap<Inner, PMap<u32, Literal>>,
    key: &Inner,
) -> Result<PMap<u32, Literal>, AllocError> {
    match map.get(key) {
        Some(inner) => inner.share(),
        None => Ok(PMap::empty()),
    }
}

/// Puts what comes of the literal by the value at this spot, if anything does.
fn put_swap(x: &Lined, spot: usize, by: &Valued, to: &mut Vec<Swap>) -> Result<(), AllocError> {
    match with_value_at(&x.literal, spot, &by.place, by.value) {
        None => Ok(()),
        Some(literal) => push(
            to,
            Swap {
                literal,
                line: x.line,
                equation: by.line,
            },
        ),
    }
}

/// Puts what comes of the literal by the value.
fn put_swaps(x: &Lined, by: &Valued, to: &mut Vec<Swap>) -> Result<(), AllocError> {
    for spot in 0..SPOTS_OF_LITERAL {
        put_swap(x, spot, by, to)?;
    }
    Ok(())
}

/// Puts what comes of the literals, found by their lines, by the value.
fn put_all_swaps(
    literals: &PMap<u32, Literal>,
    by: &Valued,
    to: &mut Vec<Swap>,
) -> Result<(), AllocError> {
    for (line, literal) in literals.iter() {
        put_swaps(&with_line(literal, *line), by, to)?;
    }
    Ok(())
}

impl MomentLines {
    /// The application occurs in the literal.
    fn put_occurring(&mut self, alloc: Global, t: &Term, x: &Lined) -> Result<(), AllocError> {
        let Some(place) = place_of(t) else {
            return Ok(());
        };
        let mut literals = shared_at(&self.occurring.literals, &place)?;
        put(alloc, &mut literals, x.line, x.literal)?;
        put(alloc, &mut self.occurring.literals, place, literals)
    }

    /// The literal, in which these occur, is a known one.
    fn put_known(
        &mut self,
        alloc: Global,
        x: &Lined,
        applications: &[Term],
    ) -> Result<(), AllocError> {
        for t in applications {
            self.put_occurring(alloc, t, x)?;
        }
        put(alloc, &mut self.stated.known, x.literal, x.line)
    }

    /// The place has this value, and the answer is whether it had none before.
    fn put_value(&mut self, alloc: Global, by: &Valued) -> Result<bool, AllocError> {
        let is_new = self.value_at(&by.place).is_none();
        put(alloc, &mut self.occurring.values, by.place, *by)?;
        if is_new {
            forget(&mut self.index);
        }
        Ok(is_new)
    }

    /// Puts what comes of the known literals in which the place occurs.
    fn put_by_value(&self, by: &Valued, to: &mut Vec<Swap>) -> Result<(), AllocError> {
        match self.occurring.literals.get(&by.place) {
            Some(literals) => put_all_swaps(literals, by, to),
            None => Ok(()),
        }
    }

    /// Puts what comes of all known literals by this one, if it gives a place its first value.
    fn put_by_equation(
        &mut self,
        alloc: Global,
        x: &Lined,
        to: &mut Vec<Swap>,
    ) -> Result<(), AllocError> {
        let Some((place, value)) = place_and_value(&x.literal) else {
            return Ok(());
        };
        let line = x.line;
        let by = Valued { place, value, line };
        if self.put_value(alloc, &by)? {
            return self.put_by_value(&by, to);
        }
        Ok(())
    }

    /// Puts what comes of the literal by the value of the application.
    fn put_by_application(
        &self,
        x: &Lined,
        t: &Term,
        to: &mut Vec<Swap>,
    ) -> Result<(), AllocError> {
        let Some(place) = place_of(t) else {
            return Ok(());
        };
        match self.value_at(&place) {
            Some(by) => put_swaps(x, &by, to),
            None => Ok(()),
        }
    }

    /// The literal, in which these occur, comes to be known, and what comes of it and of others by it is put behind the
    /// others.
    fn take(
        &mut self,
        alloc: Global,
        x: &Lined,
        applications: &[Term],
        to: &mut Vec<Swap>,
    ) -> Result<(), AllocError> {
        self.put_known(alloc, x, applications)?;
        self.touch(alloc, &x.literal, applications)?;
        self.put_by_equation(alloc, x, to)?;
        for t in applications {
            self.put_by_application(x, t, to)?;
        }
        Ok(())
    }

    /// The literal comes to be known, by this line, and what comes of it and of others by it is put behind the others. The
    /// error is want of memory.
    pub fn take_in(
        &mut self,
        alloc: Global,
        l: &Literal,
        line: u32,
        to: &mut Vec<Swap>,
    ) -> Result<(), AllocError> {
        let applications = applications_in(alloc, l)?;
        self.take(alloc, &with_line(l, line), applications.as_slice(), to)
    }
}
