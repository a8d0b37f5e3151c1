// Keeping the least fault of meaning.
ghost use Rattle.std.specs.Prelude.{◌≡◌, ℕ, List, [], ◌∷◌, None, if◌then◌else◌};
ghost use Rattle.pks_reader_shape.specs.Refusals.{refusing};
ghost use Rattle.pks_reader_names.specs.Tables.{too_long};
ghost use Rattle.pks_reader_names.specs.Meaning.{is_before, noted, all_noted};
ghost use Rattle.pks_reader_names.specs.Views.{found_of};

use crate::report::Report;
use pks_reader_shape::report::Refusal;
use pks_terms::codes::LONG_NAME;

fn is_before(f: Refusal, g: Refusal) -> bool
    ensures { result ≡ is_before (f.at, f.code) (g.at, g.code) }
{
    f.at < g.at || (f.at == g.at && f.code < g.code)
}

impl Report {
    /// Nothing was found.
    pub fn new() -> Report
        ensures { found_of result ≡ None }
    {
        Report { least: None }
    }

    /// The refusal of the least fault, where one was found.
    #[tactic(auto, using(crate::proofs::Noting::plain_least))]
    pub fn refusal(&self) -> Option<Refusal>
        ensures { result ≡ refusing (found_of self.now) }
    {
        self.least
    }

    /// Keeps the fault where it comes before the one that was kept.
    pub fn note(&mut self, at: u32, code: u16)
        ensures { found_of self.new ≡ noted (found_of self.old) (at, code) }
    {
        let fault = Refusal::plain(at, code);
        match self.least {
            None => self.least = Some(fault),
            Some(other) => {
                if is_before(fault, other) {
                    self.least = Some(fault);
                }
            }
        }
    }

    /// A name of more than 64 bytes.
    pub fn too_long(&mut self, name: &str, at: u32)
        ensures { found_of self.new ≡ all_noted (found_of self.old) (too_long name.now at) }
    {
        if name.len() > 64 {
            self.note(at, LONG_NAME);
        }
    }

    /// What must hold: the fault of this code, at this place, where it doesn't.
    pub fn require(&mut self, holds: bool, at: u32, code: u16)
        ensures { found_of self.new ≡ all_noted (found_of self.old) (if holds then [] else (at, code) ∷ []) }
    {
        if !holds {
            self.note(at, code);
        }
    }
}
