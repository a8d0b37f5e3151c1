//! Marks of objects in a history: numbers made of all that is said of an object, without its name, so that the images of a
//! history give an object's image the same mark. No clause says what a mark is: it only proposes what is then compared.

use crate::classes::Classes;
use crate::images::is_trivial;
use pks_history::histories::History;
use pks_lcw::Entry;
use pks_query_lookup::five::Five;
use pks_terms::ids::ObjId;
use pks_terms::literal::{Atom, Conj, Literal, PredAtom};
use pks_terms::marks::mix;
use pks_terms::schema::Instance;
use pks_terms::term::{Inner, Term, front};
use std::alloc::{AllocError, Global};

/// The mark of each object so far, what a walk over a history says of each, and the mark of the whole.
#[derive(Drop)]
pub(crate) struct Marks {
    of: Vec<u64>,
    sums: Vec<u64>,
    total: u64,
}

/// As many times nothing.
fn nothings(alloc: Global, count: usize) -> Result<Vec<u64>, AllocError> {
    let mut all = Vec::new(alloc);
    for _ in 0..count {
        all.push(0)?;
    }
    Ok(all)
}

/// The sort of an object among others: its class, its mark and its number.
type Rank = (u16, u64, u16);

/// How many of the objects in order differ from the one before them by class or mark.
fn told_apart(all: &[Rank]) -> usize {
    let mut count: usize = 0;
    let mut last = (0, 0);
    for (class, mark, _) in all {
        if (*class, *mark) != last {
            count = count.saturating_add(1);
            last = (*class, *mark);
        }
    }
    count
}

impl Marks {
    /// The marks before a walk: of an object that is alone its number, and else its class. The error is want of memory.
    pub(crate) fn of(alloc: Global, classes: &Classes) -> Result<Marks, AllocError> {
        let mut of = Vec::new(alloc);
        for (number, class) in classes.all().iter().enumerate() {
            let mark = if *class == 0 {
                number as u64
            } else {
                0x10_0000 + u64::from(*class)
            };
            of.push(mark)?;
        }
        let sums = Vec::new(alloc);
        Ok(Marks { of, sums, total: 0 })
    }

    /// The mark of the whole.
    pub(crate) fn total(&self) -> u64 {
        self.total
    }

    /// Mixes what the last walk said of each object into its mark, and this into the mark of the whole, and gives the objects
    /// that aren't alone by class and mark, and how many are told apart. The error is want of memory.
    pub(crate) fn sort_moving(
        &mut self,
        alloc: Global,
        classes: &Classes,
    ) -> Result<(Vec<ObjId>, usize), AllocError> {
        let mut all: Vec<Rank> = Vec::new(alloc);
        for d in classes.moving() {
            let place = usize::from(d.0);
            let said = self.sums.get(place).copied().unwrap_or(0);
            let class = classes.all().get(place).copied().unwrap_or(0);
            let mark = mix(self.object(*d), said);
            if let Some(own) = self.of.get_mut(place) {
                *own = mark;
            }
            self.total = self.total.wrapping_add(mark);
            all.push((class, mark, d.0))?;
        }
        all.sort_unstable();
        let mut order = Vec::new(alloc);
        for (_, _, number) in all.as_slice() {
            order.push(ObjId(*number))?;
        }
        let apart = told_apart(all.as_slice());
        Ok((order, apart))
    }

    fn object(&self, d: ObjId) -> u64 {
        match self.of.get(usize::from(d.0)) {
            Some(mark) => *mark,
            None => u64::from(d.0),
        }
    }

    fn inner(&self, mark: u64, t: &Inner) -> u64 {
        match t {
            Inner::Obj(d) => mix(mark, self.object(*d)),
            Inner::Param(i) => mix(mark, 0x1_0000 + u64::from(*i)),
            Inner::App { fun, n, args } => {
                let mut mark = mix(mark, 0x2_0000 + u64::from(fun.0));
                for d in front(args, *n) {
                    mark = mix(mark, self.object(*d));
                }
                mark
            }
        }
    }

    fn inners(&self, mark: u64, ts: &[Inner]) -> u64 {
        let mut mark = mark;
        for t in ts {
            mark = self.inner(mark, t);
        }
        mark
    }

    fn term(&self, mark: u64, t: &Term) -> u64 {
        match t {
            Term::Obj(d) => mix(mark, self.object(*d)),
            Term::Param(i) => mix(mark, 0x1_0000 + u64::from(*i)),
            Term::App { fun, n, args } => {
                self.inners(mix(mark, 0x3_0000 + u64::from(fun.0)), front(args, *n))
            }
        }
    }

    fn atom(&self, mark: u64, a: &PredAtom) -> u64 {
        let mut mark = mix(mark, 0x4_0000 + u64::from(a.pred.0));
        for t in front(&a.args, a.n) {
            mark = self.term(mark, t);
        }
        mark
    }

    // The sides of an equation count alike, since an image may turn them.
    fn literal(&self, mark: u64, l: &Literal) -> u64 {
        let mark = mix(mark, u64::from(l.positive));
        match &l.atom {
            Atom::Pred(a) => self.atom(mark, a),
            Atom::Eq { left, right } => mix(
                mark,
                self.term(0x5_0000, left)
                    .wrapping_add(self.term(0x5_0000, right)),
            ),
        }
    }

    fn literals(&self, mark: u64, ls: &[Literal]) -> u64 {
        let mut sum: u64 = 0;
        for l in ls {
            sum = sum.wrapping_add(self.literal(0x6_0000, l));
        }
        mix(mark, sum)
    }

    // ---- what is said of each object

    fn say_object(&mut self, d: ObjId, word: u64) {
        if let Some(sum) = self.sums.get_mut(usize::from(d.0)) {
            *sum = sum.wrapping_add(word);
        }
    }

    fn say_inner(&mut self, t: &Inner, word: u64) {
        match t {
            Inner::Obj(d) => self.say_object(*d, word),
            Inner::Param(_) => {}
            Inner::App { n, args, .. } => {
                let mut word = mix(word, 1);
                for d in front(args, *n) {
                    self.say_object(*d, word);
                    word = mix(word, 2);
                }
            }
        }
    }

    fn say_inners(&mut self, ts: &[Inner], word: u64) {
        let mut word = word;
        for t in ts {
            self.say_inner(t, word);
            word = mix(word, 3);
        }
    }

    fn say_term(&mut self, t: &Term, word: u64) {
        match t {
            Term::Obj(d) => self.say_object(*d, word),
            Term::Param(_) => {}
            Term::App { n, args, .. } => self.say_inners(front(args, *n), mix(word, 4)),
        }
    }

    fn say_atom(&mut self, a: &PredAtom, word: u64) {
        let mut word = word;
        for t in front(&a.args, a.n) {
            self.say_term(t, word);
            word = mix(word, 5);
        }
    }

    fn say_literal(&mut self, l: &Literal, word: u64) {
        match &l.atom {
            Atom::Pred(a) => self.say_atom(a, word),
            Atom::Eq { left, right } => {
                let left_word = mix(word, self.term(0x7_0000, left));
                let right_word = mix(word, self.term(0x7_0000, right));
                self.say_term(left, left_word);
                self.say_term(right, right_word);
            }
        }
    }

    fn say_literals(&mut self, ls: &[Literal], word: u64) {
        for l in ls {
            let own = self.literal(word, l);
            self.say_literal(l, own);
        }
    }

    fn count(&mut self, word: u64) {
        self.total = self.total.wrapping_add(word);
    }

    // ---- a walk over a history

    fn see_known(&mut self, d: &Five, place: u64) {
        for l in d.kf.items() {
            if !is_trivial(l) {
                let word = self.literal(mix(place, 1), l);
                self.count(word);
                self.say_literal(l, word);
            }
        }
    }

    fn see_formulas(&mut self, d: &Five, place: u64) {
        for c in d.kw.items() {
            let literals = front(&c.literals, c.n);
            let word = self.literals(mix(place, 2), literals);
            self.count(word);
            self.say_literals(literals, word);
        }
    }

    fn see_values(&mut self, d: &Five, place: u64) {
        for t in d.kv.items() {
            let word = self.term(mix(place, 3), t);
            self.count(word);
            self.say_term(t, word);
        }
    }

    fn see_groups(&mut self, d: &Five, place: u64) {
        for g in d.kx.items() {
            let word = self.literals(mix(place, 4), g.as_slice());
            self.count(word);
            self.say_literals(g.as_slice(), word);
        }
    }

    fn region(&self, mark: u64, r: &Entry) -> u64 {
        let mut mark = mix(mark, u64::from(r.pattern.pred.0));
        for slot in front(&r.pattern.args, r.pattern.n) {
            mark = match slot {
                Some(t) => self.term(mark, t),
                None => mix(mark, 0x8_0000),
            };
        }
        let mut sum: u64 = 0;
        for a in r.list.as_slice() {
            sum = sum.wrapping_add(self.atom(0x9_0000, a));
        }
        mix(mark, sum)
    }

    fn say_region(&mut self, r: &Entry, word: u64) {
        let mut place = word;
        for slot in front(&r.pattern.args, r.pattern.n) {
            if let Some(t) = slot {
                self.say_term(t, place);
            }
            place = mix(place, 6);
        }
        for a in r.list.as_slice() {
            let own = self.atom(word, a);
            self.say_atom(a, own);
        }
    }

    fn see_regions(&mut self, d: &Five, place: u64) {
        for r in d.lcw.items() {
            let word = self.region(mix(place, 5), r);
            self.count(word);
            self.say_region(r, word);
        }
    }

    fn see_instance(&mut self, i: &Instance, place: u64) {
        let args = front(&i.args, i.n);
        let word = self.inners(mix(place, 0xa_0000 + u64::from(i.act.0)), args);
        self.count(word);
        self.say_inners(args, word);
    }

    fn see_moment(&mut self, d: &Five, place: u64) {
        self.see_known(d, place);
        self.see_formulas(d, place);
        self.see_values(d, place);
        self.see_groups(d, place);
        self.see_regions(d, place);
    }

    /// Walks over the history: what it says of each object goes into the sums, and all of it into the total. The error is
    /// want of memory.
    pub(crate) fn see(&mut self, alloc: Global, h: &History) -> Result<(), AllocError> {
        self.sums = nothings(alloc, self.of.len())?;
        self.total = 0;
        self.see_moment(h.at(0).parts(), 0xb_0000);
        for moment in 1..h.len() {
            let place = mix(0xb_0000, u64::from(moment));
            self.see_instance(h.step(moment - 1), place);
            self.see_moment(h.at(moment).parts(), place);
        }
        Ok(())
    }
}
