// A text as forms.
ghost use Rattle.std.specs.Prelude.{◌≡◌, ◌≤◌, ◌<◌, ◌+◌, ◌∷◌, ◌++◌, [], List, ℕ, length, Some, OnOk, IfOk, IfErr, IsOk};
ghost use Rattle.pks_terms.specs.declared.limits.TheConstants.{MOST_BYTES};
ghost use Rattle.pks_text.specs.declared.tree.FormFault.TheVariants.{Memory};
ghost use Rattle.pks_text.specs.Forms.{Spells, SpellsNoOther};
ghost use Rattle.pks_text.specs.Faults.{IsFirstFault, IsFaultOf, IsAnswered};
ghost use Rattle.pks_text.specs.FormViews.{forms_view, fault_of, AreSlices};
ghost use Rattle.pks_text.specs.declared.tree.FormFault.{FormFault};

use crate::tokens::{LexFault, Token, Tokens};
use crate::tree::{Form, FormFault, Forms};
use pks_terms::ids::Span;
use std::alloc::Global;
use std::mem::replace;

// What stands before a list that is open, and the place of the list.
#[derive(Drop)]
pub struct Open<'s> {
    parts: Vec<Form<'s>>,
    start: u32,
}

// The lists that are open, and what was read of the innermost.
#[derive(Drop)]
pub struct Pile<'s> {
    outer: Vec<Open<'s>>,
    parts: Vec<Form<'s>>,
}

impl<'s> Pile<'s> {
    ghost use Rattle.pks_text.specs.Forms.{Said, Opens, Closes, forms_marks};
    ghost use Rattle.pks_text.specs.Faults.{opened};
    ghost use Rattle.pks_text.specs.FormViews.{marks_of, places_of, words_of, words_in, spoken, mark_of, forms_view, IsTurned, IsOpen};
    ghost use Rattle.std.specs.List.{flat_map};

    // A word.
    #[tactic(auto, using(crate::proofs::Piles::said))]
    fn say(&mut self, token: Token<'s>) -> Result<(), FormFault>
        ensures marks { OnOk result (marks_of self.new ≡ marks_of self.old ++ Said token.entry.text.now token.entry.span.start ∷ []) }
        ensures places { OnOk result (places_of self.new ≡ places_of self.old) }
        ensures words { OnOk result (words_of self.new ≡ words_of self.old ++ token.entry ∷ []) }
        ensures err { IfErr result (λ e. e ≡ Memory) }
    {
        self.parts.push(Form::Name(token))?;
        Ok(())
    }

    // An opening parenthesis.
    #[tactic(auto, using(crate::proofs::Piles::open_count))]
    fn open(&mut self, alloc: Global, at: u32) -> Result<(), FormFault>
        ensures marks { OnOk result (marks_of self.new ≡ marks_of self.old ++ Opens at ∷ []) }
        ensures places { OnOk result (opened (places_of self.old) (Opens at) ≡ Some (places_of self.new)) }
        ensures words { OnOk result (words_of self.new ≡ words_of self.old) }
        ensures err { IfErr result (λ e. IsTurned (places_of self.old) (Opens at) e) }
    {
        if self.outer.len() >= 12 {
            return Err(FormFault::TooDeep(at));
        }
        let parts = replace(&mut self.parts, Vec::new(alloc));
        self.outer.push(Open { parts, start: at })?;
        Ok(())
    }

    // A closing parenthesis.
    fn close(&mut self, at: u32) -> Result<(), FormFault>
        requires { at < MOST_BYTES }
        ensures marks { OnOk result (marks_of self.new ≡ marks_of self.old ++ Closes (at + 1) ∷ []) }
        ensures places { OnOk result (opened (places_of self.old) (Closes (at + 1)) ≡ Some (places_of self.new)) }
        ensures words { OnOk result (words_of self.new ≡ words_of self.old) }
        ensures err { IfErr result (λ e. IsTurned (places_of self.old) (Closes (at + 1)) e) }
    {
        match self.outer.pop() {
            None => Err(FormFault::Unopened(at)),
            Some(open) => {
                let parts = replace(&mut self.parts, open.parts);
                let span = Span {
                    start: open.start,
                    end: at + 1,
                };
                self.parts.push(Form::List { parts, span })?;
                Ok(())
            }
        }
    }

    fn take(&mut self, alloc: Global, token: Token<'s>) -> Result<(), FormFault>
        requires { token.span.start < MOST_BYTES }
        ensures marks { OnOk result (marks_of self.new ≡ marks_of self.old ++ mark_of token.entry ∷ []) }
        ensures places { OnOk result (opened (places_of self.old) (mark_of token.entry) ≡ Some (places_of self.new)) }
        ensures words { OnOk result (words_of self.new ≡ words_of self.old ++ spoken token.entry) }
        ensures err { IfErr result (λ e. IsTurned (places_of self.old) (mark_of token.entry) e) }
    {
        if token.text == "(" {
            self.open(alloc, token.span.start)
        } else if token.text == ")" {
            self.close(token.span.start)
        } else {
            self.say(token)
        }
    }

    // The forms, where no list is open.
    fn end(self) -> Result<Forms<'s>, FormFault>
        ensures marks { IfOk result (λ fs. marks_of self.entry ≡ forms_marks (forms_view fs.top.items)) }
        ensures places { OnOk result (places_of self.entry ≡ []) }
        ensures words { IfOk result (λ fs. words_of self.entry ≡ flat_map words_in fs.top.items) }
        ensures err { IfErr result (λ e. IsOpen (places_of self.entry) e) }
    {
        let Pile { outer, parts } = self;
        let mut outer = outer;
        match outer.pop() {
            None => Ok(Forms { top: parts }),
            Some(open) => Err(FormFault::Unclosed(open.start)),
        }
    }
}

fn form_fault(fault: LexFault) -> FormFault
    ensures { result ≡ fault_of fault }
{
    match fault {
        LexFault::BadByte(at) => FormFault::BadByte(at),
    }
}

/// The forms that a text spells, or its first fault from the left (`docs/FORMAT.md`). The text has at most 262,144 bytes.
///
/// Every fault of `FormFault` but `Memory` comes exactly where it is the first of the text; `Memory` may come at any text.
pub fn forms<'s>(alloc: Global, source: &'s str) -> Result<Forms<'s>, FormFault>
    requires { length source.now ≤ MOST_BYTES }

    // The forms are those that the text spells, and it spells no others.
    ensures spelled { IfOk result (λ fs. Spells source.now (forms_view fs.top.items)) }
    ensures alone { IfOk result (λ fs. SpellsNoOther source.now (forms_view fs.top.items)) }

    // Each word is lent from the text: it is the slice at its span.
    ensures slices { IfOk result (λ fs. AreSlices source.now fs.top.items) }

    // A fault is the first of the text, and where there is one the answer is that fault, or want of memory.
    ensures fault { IfErr result (λ e. IsFaultOf source.now e) }
    ensures only { (fault : FormFault) → IsFirstFault source.now fault → IfErr result (IsAnswered fault) × (IsOk result → ⊥) }
{
    let mut tokens = Tokens::new(source);
    let mut pile = Pile {
        outer: Vec::new(alloc),
        parts: Vec::new(alloc),
    };
    loop {
        match tokens.next() {
            None => return pile.end(),
            Some(Err(fault)) => return Err(form_fault(fault)),
            Some(Ok(token)) => match pile.take(alloc, token) {
                Ok(()) => {}
                Err(fault) => return Err(fault),
            },
        }
    }
}
