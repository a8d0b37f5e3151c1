//! Normal forms at a moment, with the equations that lead to them. `docs/RULES.md` has the rule.
ghost use Rattle.std.specs.Prelude.{◌≡◌, ℕ, map, Some, IfOk, OnOk};
ghost use Rattle.pks_terms.specs.Views.{inner_of, term_of, arguments_in, literal_of};
ghost use Rattle.pks_query_lookup.specs.Reading.{first_inners};
ghost use Rattle.pks_explain_moment.specs.Standing.{inner_normal, applied, normal, normal_literal, last_of};

use crate::moment::{MomentLines, Valued};
use crate::placing::{
    SPOTS_OF_LITERAL, SPOTS_OF_TERM, equal, place_at, with_object, with_term, with_terms,
};
use crate::pushing::push;
use pks_query_lookup::normals::objects;
use pks_terms::ids::FnId;
use pks_terms::literal::{Arguments, Literal};
use pks_terms::term::{Inner, Term};
use std::alloc::{AllocError, Global};

/// A term as it is read at a moment, and the equations by which it came to be so.
#[derive(Drop)]
pub struct NormalForm {
    /// What the term has become.
    pub term: Term,
    /// The equations, each known at the moment.
    pub by: Vec<Literal>,
}

/// One replacement of an application in a term by its value.
#[derive(Clone, Copy)]
pub(crate) struct TermRewrite {
    /// What comes of the term.
    pub term: Term,
    /// The application and its value.
    pub by: Valued,
}

/// One replacement of an application in terms by its value.
#[derive(Clone, Copy)]
pub(crate) struct Move {
    /// What comes of the terms.
    pub items: [Term; 3],
    /// The number of the equation's line.
    pub equation: u32,
}

/// A literal on its way to another one, and the number of the line of the equation by which it came to be so, which is 0 for
/// the first.
#[derive(Clone, Copy)]
pub struct LiteralRewrite {
    /// What it has become.
    pub literal: Literal,
    /// The line of the equation, known at the moment.
    pub equation: u32,
}

/// The equation of the place and its value.
fn equation_of(by: &Valued) -> Literal {
    equal(&by.place.as_term(), &Term::Obj(by.value))
}

/// What the literal becomes.
fn rewrite_of(l: &Literal, x: &Move) -> LiteralRewrite {
    LiteralRewrite {
        literal: with_terms(l, &x.items),
        equation: x.equation,
    }
}

/// Puts the literal in the place of the last one of the chain.
#[tactic(auto, using(crate::proofs::Chains::last_of_push))]
fn end_in(chain: &mut Vec<LiteralRewrite>, l: Literal) -> Result<(), AllocError>
    ensures { OnOk result (last_of chain.new.items ≡ Some (literal_of l)) }
{
    let equation = match chain.pop() {
        Some(last) => last.equation,
        None => 0,
    };
    let end = LiteralRewrite {
        literal: l,
        equation,
    };
    push(chain, end)?;
    Ok(())
}

/// The literal as it is.
pub(crate) fn first_of_chain(l: &Literal) -> LiteralRewrite {
    LiteralRewrite {
        literal: *l,
        equation: 0,
    }
}

impl NormalForm {
    /// The term as it is.
    fn of(alloc: Global, t: &Term) -> NormalForm {
        NormalForm {
            term: *t,
            by: Vec::new(alloc),
        }
    }

    /// The form after one more step.
    fn go(&mut self, step: &TermRewrite) -> Result<(), AllocError> {
        self.term = step.term;
        push(&mut self.by, equation_of(&step.by))
    }

    fn copy(&self, alloc: Global) -> Result<NormalForm, AllocError> {
        let by = Vec::from_slice(alloc, self.by.as_slice())?;
        Ok(NormalForm {
            term: self.term,
            by,
        })
    }

    /// Another form, which is this one and one more step.
    fn then(&self, alloc: Global, step: &TermRewrite) -> Result<NormalForm, AllocError> {
        let mut form = self.copy(alloc)?;
        form.go(step)?;
        Ok(form)
    }
}

impl MomentLines {
    fn normal_inner(&self, t: &Inner) -> Inner
        ensures { inner_of result ≡ inner_normal self.now (inner_of t.now) }
    {
        match self.value_at(t) {
            Some(by) => Inner::Obj(by.value),
            None => *t,
        }
    }

    fn normal_inners(&self, args: &[Inner; 2]) -> [Inner; 2]
        ensures { (n : ℕ) → first_inners n result ≡ map (inner_normal self.now) (first_inners n args.now) }
    {
        [self.normal_inner(&args[0]), self.normal_inner(&args[1])]
    }

    /// The application, or its value where it has one.
    fn value_or_app(&self, fun: FnId, n: u8, args: [Inner; 2]) -> Term
        ensures { term_of result ≡ applied self.now fun.0 (first_inners n args) }
    {
        let Some(own) = objects(n, &args) else {
            return Term::App { fun, n, args };
        };
        match self.value_at(&Inner::App { fun, n, args: own }) {
            Some(by) => Term::Obj(by.value),
            None => Term::App { fun, n, args },
        }
    }

    /// The normal form of a term.
    pub(crate) fn normal(&self, t: &Term) -> Term
        ensures { term_of result ≡ normal self.now (term_of t.now) }
    {
        match t {
            Term::Obj(_) | Term::Param(_) => *t,
            Term::App { fun, n, args } => self.value_or_app(*fun, *n, self.normal_inners(args)),
        }
    }

    /// The normal forms of arguments.
    fn normal_arguments(&self, given: &Arguments) -> Arguments
        ensures count { result.n ≡ given.now.n }
        ensures terms { arguments_in result ≡ map (normal self.now) (arguments_in given.now) }
    {
        Arguments {
            n: given.n,
            items: [
                self.normal(&given.items[0]),
                self.normal(&given.items[1]),
                self.normal(&given.items[2]),
            ],
        }
    }

    /// The normal form of a literal.
    pub(crate) fn normal_literal(&self, l: &Literal) -> Literal
        ensures { literal_of result ≡ normal_literal self.now (literal_of l.now) }
    {
        l.atom
            .with(&self.normal_arguments(&l.atom.arguments()), l.positive)
    }

    /// The replacement at this spot of the term.
    fn step(&self, t: &Term, spot: usize) -> Option<TermRewrite> {
        let by = self.value_at(&place_at(t, spot)?)?;
        let term = with_object(t, spot, by.value);
        Some(TermRewrite { term, by })
    }

    /// The first step of a term on its way to its normal form.
    pub(crate) fn first_step(&self, t: &Term) -> Option<TermRewrite> {
        for spot in 0..SPOTS_OF_TERM {
            if let Some(step) = self.step(t, spot) {
                return Some(step);
            }
        }
        None
    }

    /// All steps of a term on its way to its normal form, the arguments first.
    pub(crate) fn steps(&self, alloc: Global, t: &Term) -> Result<Vec<TermRewrite>, AllocError> {
        let mut steps = Vec::new(alloc);
        let mut now = *t;
        for spot in 0..SPOTS_OF_TERM {
            if let Some(step) = self.step(&now, spot) {
                now = step.term;
                push(&mut steps, step)?;
            }
        }
        Ok(steps)
    }

    /// The replacement at this spot of the terms.
    fn move_at(&self, given: &Arguments, spot: usize) -> Option<Move> {
        let position = spot / SPOTS_OF_TERM;
        let t = given.terms().get(position)?;
        let step = self.step(t, spot % SPOTS_OF_TERM)?;
        Some(Move {
            items: with_term(&given.items, position, &step.term),
            equation: step.by.line,
        })
    }

    /// The first step of terms on their way to their normal forms.
    pub(crate) fn first_move(&self, given: &Arguments) -> Option<Move> {
        for spot in 0..SPOTS_OF_LITERAL {
            if let Some(x) = self.move_at(given, spot) {
                return Some(x);
            }
        }
        None
    }

    /// What the literal becomes first on its way to its normal form.
    pub(crate) fn first_link(&self, l: &Literal) -> Option<LiteralRewrite> {
        let x = self.first_move(&l.atom.arguments())?;
        Some(rewrite_of(l, &x))
    }

    /// Puts what the literal becomes at each spot on its way to its normal form.
    fn put_links(&self, l: &Literal, to: &mut Vec<LiteralRewrite>) -> Result<(), AllocError> {
        let mut given = l.atom.arguments();
        for spot in 0..SPOTS_OF_LITERAL {
            if let Some(x) = self.move_at(&given, spot) {
                given.items = x.items;
                push(to, rewrite_of(l, &x))?;
            }
        }
        Ok(())
    }

    /// The literal, and what it becomes on its way to its normal form, which is the last. The error is want of memory.
    pub fn chain_down(&self, alloc: Global, l: &Literal) -> Result<Vec<LiteralRewrite>, AllocError>
        ensures { IfOk result (λ chain. last_of chain.items ≡ Some (normal_literal self.now (literal_of l.now))) }
    {
        let mut chain = Vec::new(alloc);
        push(&mut chain, first_of_chain(l))?;
        self.put_links(l, &mut chain)?;
        end_in(&mut chain, self.normal_literal(l))?;
        Ok(chain)
    }

    /// The form after one step at this spot, if there is one.
    fn next_form(
        &self,
        alloc: Global,
        form: &NormalForm,
        spot: usize,
    ) -> Result<Option<NormalForm>, AllocError> {
        let Some(step) = self.step(&form.term, spot) else {
            return Ok(None);
        };
        let form = form.then(alloc, &step)?;
        Ok(Some(form))
    }

    /// The forms after one step at this spot, of those in which there is one.
    fn next_forms(
        &self,
        alloc: Global,
        forms: &[NormalForm],
        spot: usize,
    ) -> Result<Vec<NormalForm>, AllocError> {
        let mut next = Vec::new(alloc);
        for form in forms {
            if let Some(more) = self.next_form(alloc, form, spot)? {
                push(&mut next, more)?;
            }
        }
        Ok(next)
    }

    /// Puts each form after one step at this spot behind the others.
    fn put_forms(
        &self,
        alloc: Global,
        spot: usize,
        forms: &mut Vec<NormalForm>,
    ) -> Result<(), AllocError> {
        let mut next = self.next_forms(alloc, forms.as_slice(), spot)?;
        forms.append(&mut next)
    }

    fn put_step(&self, spot: usize, form: &mut NormalForm) -> Result<(), AllocError> {
        match self.step(&form.term, spot) {
            Some(step) => form.go(&step),
            None => Ok(()),
        }
    }

    /// The normal form of a term: each place in it, the inner ones first, has become its value where one is known. The error
    /// is want of memory. `docs/RULES.md` has the rule.
    pub fn normal_form(&self, alloc: Global, t: &Term) -> Result<NormalForm, AllocError> {
        let mut form = NormalForm::of(alloc, t);
        for spot in 0..SPOTS_OF_TERM {
            self.put_step(spot, &mut form)?;
        }
        Ok(form)
    }

    /// The forms of a term, itself first: any of its arguments replaced by their values, and then the whole. The error is
    /// want of memory.
    pub fn forms(&self, alloc: Global, t: &Term) -> Result<Vec<NormalForm>, AllocError> {
        let mut forms = Vec::new(alloc);
        push(&mut forms, NormalForm::of(alloc, t))?;
        for spot in 0..SPOTS_OF_TERM {
            self.put_forms(alloc, spot, &mut forms)?;
        }
        Ok(forms)
    }
}
