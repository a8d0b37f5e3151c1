//! Reading an input.
ghost use Rattle.std.specs.Prelude.{◌≡◌, ◌≤◌, ℕ, map, length, IsOk, IfOk, IfErr};
ghost use Rattle.pks_terms.specs.declared.codes.TheConstants.{NOT_ASCII};
ghost use Rattle.pks_terms.specs.declared.limits.TheConstants.{MOST_BYTES};
ghost use Rattle.pks_terms.specs.Answers as answers;
ghost use Rattle.pks_terms.specs.Problems as stating;
ghost use Rattle.pks_terms.specs.ValidProblems.{IsValidProblem};
ghost use Rattle.pks_terms.specs.Views.{problem_of};
ghost use Rattle.pks_text.specs.Forms.{Spells};
ghost use Rattle.pks_text.specs.FormViews.{form_view, forms_view};
ghost use Rattle.pks_reader_shape.specs.Files as shaping;
ghost use Rattle.pks_reader_problem.specs.Spans.{named_of};
ghost use Rattle.pks_reader_problem.specs.Stated.{Named};
ghost use Rattle.pks_reader_shape.specs.declared.report.Turned.TheVariants.{Memory};
ghost use Rattle.pks_reader.specs.Files.{AreRefused, FormsState};
ghost use Rattle.pks_reader.specs.Texts.{Reads, States, IsRefused};
ghost use Rattle.pks_reader_shape.specs.Refusals.{Turns};
ghost use Rattle.pks_reader.specs.Inputs.{first_high, IsFaulty, IsRead};
ghost use Rattle.pks_reader.specs.Views.{file_of, IsWhole};

use crate::{Refusal, Turned, problem_of, text_refused};
use pks_terms::codes::NOT_ASCII;
use pks_terms::problem::Problem;
use pks_text::{Forms, forms};
use std::alloc::Global;

/// A file without a fault up to meaning: its text, the forms that the text spells, and the problem that they state, lent
/// from the text (`docs/FORMAT.md`).
#[derive(Drop)]
pub struct InputFile<'s> {
    /// The whole text.
    pub source: &'s str,
    /// Its forms.
    pub forms: Forms<'s>,
    /// The problem.
    pub problem: Problem<'s>,
}

// The first byte above 127.
fn first_high(input: &[u8]) -> Option<u32>
    requires { length input.now ≤ MOST_BYTES }
    ensures { result ≡ first_high input.now }
{
    let mut at = 0;
    for byte in input {
        if *byte > 127 {
            return Some(at);
        }
        at += 1;
    }
    None
}

// The refusal of a byte above 127.
fn high_refusal(at: u32) -> Turned
    ensures { Turns (λ f. f ≡ (at, NOT_ASCII)) result }
{
    Turned::Refused(Refusal::plain(at, NOT_ASCII))
}

// The file of these forms, or their first fault, of shape or meaning.
fn read_forms<'s>(alloc: Global, source: &'s str, forms: Forms<'s>) -> Result<InputFile<'s>, Turned>
    requires short { length source.now ≤ MOST_BYTES }
    requires spelled { Spells source.now (forms_view forms.top.items) }
    ensures source { IfOk result (λ f. f.source.now ≡ source.now) }
    ensures forms { IfOk result (λ f. f.forms.top.items ≡ forms.entry.top.items) }
    ensures states { IfOk result (λ f. FormsState (map form_view forms.entry.top.items) (problem_of f.problem) (named_of f.problem)) }
    ensures valid { IfOk result (λ f. IsValidProblem f.problem) }
    ensures refused { IfErr result (Turns (AreRefused (length source.now) (map form_view forms.entry.top.items))) }
    ensures only_stated { (p : stating.Problem) (n : Named) → FormsState (map form_view forms.entry.top.items) p n → IfOk result (λ f. (problem_of f.problem ≡ p) × (named_of f.problem ≡ n)) × IfErr result (λ e. e ≡ Memory) }
    ensures only_refused { (fault : shaping.Fault) → AreRefused (length source.now) (map form_view forms.entry.top.items) fault → (IsOk result → ⊥) × IfErr result (Turns (λ g. g ≡ fault)) }
{
    match problem_of(alloc, source, &forms) {
        Ok(problem) => Ok(InputFile {
            source,
            forms,
            problem,
        }),
        Err(turned) => Err(turned),
    }
}

// The file of a text, or its first fault, of text, shape or meaning.
fn read_text<'s>(alloc: Global, source: &'s str) -> Result<InputFile<'s>, Turned>
    requires { length source.now ≤ MOST_BYTES }
    ensures source { IfOk result (λ f. f.source.now ≡ source.now) }
    ensures text { IfOk result (λ f. Reads source.now (forms_view f.forms.top.items)) }
    ensures states { IfOk result (λ f. FormsState (map form_view f.forms.top.items) (problem_of f.problem) (named_of f.problem)) }
    ensures valid { IfOk result (λ f. IsValidProblem f.problem) }
    ensures refused { IfErr result (Turns (IsRefused source.now)) }
    ensures only_stated { (p : stating.Problem) (n : Named) → States source.now p n → IfOk result (λ f. (problem_of f.problem ≡ p) × (named_of f.problem ≡ n)) × IfErr result (λ e. e ≡ Memory) }
    ensures only_refused { (fault : shaping.Fault) → IsRefused source.now fault → (IsOk result → ⊥) × IfErr result (Turns (λ g. g ≡ fault)) }
{
    match forms(alloc, source) {
        Ok(forms) => read_forms(alloc, source, forms),
        Err(fault) => Err(text_refused(fault)),
    }
}

/// The file that an input is, or its first fault: a byte above 127 (101), or one of text (110 to 113), of shape (120 to 124)
/// or of meaning (200 to 211), as `docs/FORMAT.md` says. It asks that the input isn't too long, which would be its first fault
/// (100).
///
/// `Refused` comes exactly where there is a fault, says where it is and nothing else; `Memory` may come at any input.
pub fn read_file<'s>(alloc: Global, input: &'s [u8]) -> Result<InputFile<'s>, Turned>
    requires { length input.now ≤ MOST_BYTES }

    // The input reads as the file, whose parts fit together.
    ensures reads { IfOk result (λ f. IsRead input.now (file_of f)) }
    ensures source { IfOk result (λ f. f.source.now ≡ input.now) }
    ensures whole { IfOk result (λ f. IsWhole f) }

    // A refusal is the first fault of the input.
    ensures faulty { IfErr result (Turns (IsFaulty input.now)) }

    // Where the input reads as a file, the answer is that file or want of memory; where it has a fault, it is that fault or want of memory.
    ensures only_read { (f : answers.File) → IsRead input.now f → IfOk result (λ g. file_of g ≡ f) × IfErr result (λ e. e ≡ Memory) }
    ensures only_faulty { (fault : shaping.Fault) → IsFaulty input.now fault → (IsOk result → ⊥) × IfErr result (Turns (λ g. g ≡ fault)) }
{
    match first_high(input) {
        Some(at) => Err(high_refusal(at)),
        None => match std::str::from_utf8(input) {
            Ok(source) => read_text(alloc, source),
            Err(_) => unreachable!(),
        },
    }
}
