//! Where among listed literals places stand, and which of these give their values.

use crate::numbers::Numbers;
use pks_query_lookup::table::{place_and_value, place_of};
use pks_terms::ids::ObjId;
use pks_terms::literal::{Arguments, Atom, Literal};
use pks_terms::term::{Inner, Term, front};
use std::alloc::{AllocError, Global};
use std::collections::BTreeMap;

/// For each place the numbers of the literals in which it stands, and of one that gives its value; and for each application
/// the numbers of those that deny it a value.
#[derive(Drop)]
pub(crate) struct Standing {
    numbers: Numbers<Inner>,
    denials: Numbers<Term>,
    values: BTreeMap<Inner, (usize, ObjId)>,
    clashes: bool,
}

/// The place of which the literal gives the value. It takes no memory.
pub(crate) fn valued_place(l: &Literal) -> Option<Inner> {
    let (place, _) = place_and_value(l)?;
    Some(place)
}

/// The terms that the literal says to be different. It takes no memory.
pub(crate) fn different_terms(l: &Literal) -> Option<(Term, Term)> {
    match &l.atom {
        Atom::Eq { left, right } if !l.positive => Some((*left, *right)),
        _ => None,
    }
}

/// Puts the places among the arguments after the others.
fn put_places_among(to: &mut Vec<Inner>, args: &[Inner]) -> Result<(), AllocError> {
    for t in args {
        if let Inner::App { .. } = t {
            to.push(*t)?;
        }
    }
    Ok(())
}

/// Puts the places in the term after the others.
fn put_places_in(to: &mut Vec<Inner>, t: &Term) -> Result<(), AllocError> {
    let Term::App { n, args, .. } = t else {
        return Ok(());
    };
    put_places_among(to, front(args, *n))?;
    if let Some(place) = place_of(t) {
        to.push(place)?;
    }
    Ok(())
}

/// The places in the literal.
fn places_in(alloc: Global, l: &Literal) -> Result<Vec<Inner>, AllocError> {
    let mut places = Vec::new(alloc);
    for t in l.atom.arguments().terms() {
        put_places_in(&mut places, t)?;
    }
    Ok(places)
}

impl Standing {
    /// Of no literals. It takes no memory.
    pub(crate) fn new(alloc: Global) -> Standing {
        Standing {
            numbers: Numbers::new(alloc),
            denials: Numbers::new(alloc),
            values: BTreeMap::new(alloc),
            clashes: false,
        }
    }

    /// Whether a place has two values. It takes no memory.
    pub(crate) fn clashes(&self) -> bool {
        self.clashes
    }

    /// Puts the number of the literal at each of its places. The error is want of memory.
    pub(crate) fn put(&mut self, alloc: Global, l: &Literal, k: usize) -> Result<(), AllocError> {
        let places = places_in(alloc, l)?;
        self.numbers.put_at_all(alloc, places.as_slice(), k)?;
        if let Some((t, Term::Obj(_))) = different_terms(l) {
            return self.denials.put(alloc, &t, k);
        }
        let Some((place, d)) = place_and_value(l) else {
            return Ok(());
        };
        if self.values.insert(place, (k, d))?.is_some() {
            self.clashes = true;
        }
        Ok(())
    }

    /// The numbers of the literals in which the place stands. The error is want of memory.
    pub(crate) fn at(&self, alloc: Global, place: &Inner) -> Result<Vec<usize>, AllocError> {
        self.numbers.at(alloc, place)
    }

    /// The numbers of the literals that deny the application a value. The error is want of memory.
    pub(crate) fn denials(&self, alloc: Global, t: &Term) -> Result<Vec<usize>, AllocError> {
        self.denials.at(alloc, t)
    }

    /// Whether the term is a place that has a value. It takes no memory.
    pub(crate) fn has_value(&self, t: &Term) -> bool {
        match place_of(t) {
            Some(place) => self.values.get(&place).is_some(),
            None => false,
        }
    }

    /// The value of the place, the number of the literal that gives it being put after the others.
    pub(crate) fn value(
        &self,
        place: &Inner,
        to: &mut Vec<usize>,
    ) -> Result<Option<ObjId>, AllocError> {
        match self.values.get(place) {
            None => Ok(None),
            Some((k, d)) => {
                to.push(*k)?;
                Ok(Some(*d))
            }
        }
    }

    /// The numbers of literals that give the values of places in this one. The error is want of memory.
    pub(crate) fn values_in(&self, alloc: Global, l: &Literal) -> Result<Vec<usize>, AllocError> {
        let mut found = Vec::new(alloc);
        for place in places_in(alloc, l)?.as_slice() {
            let _value = self.value(place, &mut found)?;
        }
        Ok(found)
    }

    fn inner_form(&self, t: &Inner, to: &mut Vec<usize>) -> Result<Inner, AllocError> {
        match self.value(t, to)? {
            Some(d) => Ok(Inner::Obj(d)),
            None => Ok(*t),
        }
    }

    /// The term with each place replaced by its value, and the numbers of the literals that give these after the others. The
    /// error is want of memory.
    pub(crate) fn term_form(&self, t: &Term, to: &mut Vec<usize>) -> Result<Term, AllocError> {
        let Term::App { fun, n, args } = t else {
            return Ok(*t);
        };
        let (fun, n) = (*fun, *n);
        let args = [
            self.inner_form(&args[0], to)?,
            self.inner_form(&args[1], to)?,
        ];
        let form = Term::App { fun, n, args };
        if let Some(place) = place_of(&form) {
            if let Some(d) = self.value(&place, to)? {
                return Ok(Term::Obj(d));
            }
        }
        Ok(form)
    }

    /// The literal with each place replaced by its value, and the numbers of the literals that give these after the others.
    /// The error is want of memory.
    pub(crate) fn form(&self, l: &Literal, to: &mut Vec<usize>) -> Result<Literal, AllocError> {
        let given = l.atom.arguments();
        let items = [
            self.term_form(&given.items[0], to)?,
            self.term_form(&given.items[1], to)?,
            self.term_form(&given.items[2], to)?,
        ];
        Ok(l.atom.with(&Arguments { n: given.n, items }, l.positive))
    }
}
