//! A text to its problem.
ghost use Rattle.std.specs.Prelude.{◌≡◌, ◌≤◌, ◌<◌, map, length, slice_get, Some, None, IsOk, IfOk, IfErr, OnOk};
ghost use Rattle.pks_terms.specs.declared.limits.TheConstants.{MOST_BYTES};
ghost use Rattle.pks_terms.specs.Sets.{Each};
ghost use Rattle.pks_terms.specs.Counts.{SignatureCounts, ProblemCounts};
ghost use Rattle.pks_terms.specs.Problems as stating;
ghost use Rattle.pks_terms.specs.ValidProblems.{AssignsToPlace, IsValidProblem};
ghost use Rattle.pks_terms.specs.Views.{problem_of};
ghost use Rattle.pks_text.specs.Forms.{Spells};
ghost use Rattle.pks_text.specs.FormViews.{form_view, forms_view};
ghost use Rattle.pks_reader_shape.specs.Files as shaping;
ghost use Rattle.pks_reader_shape.specs.Files.{number_of};
ghost use Rattle.pks_reader_names.specs.Parts.{behind_head};
ghost use Rattle.pks_reader_declared.specs.FirstFault.{meaning_fault};
ghost use Rattle.pks_reader_problem.specs.Sizes.{AreCounted};
ghost use Rattle.pks_reader_problem.specs.Spans.{named_of};
ghost use Rattle.pks_reader_problem.specs.Stated.{Named, problem_in, named_in};
ghost use Rattle.pks_reader_shape.specs.declared.report.Turned.TheVariants.{Memory};
ghost use Rattle.pks_reader_shape.specs.Refusals.{Turns};
ghost use Rattle.pks_reader.specs.Files.{AreRefused, FormsState};
ghost use Rattle.pks_reader.specs.Texts.{IsRefused, States};

use crate::refusal::text_refused;
use pks_reader_names::parts::behind_head;
use pks_reader_problem::problem;
use pks_reader_shape::grammar::Version;
use pks_reader_shape::report::Turned;
use pks_reader_shape::shape::{shape_fault, version_of};
use pks_terms::problem::Problem;
use pks_text::{Form, Forms, forms};
use std::alloc::Global;

// The problem that a domain and a problem of the grammar state, or their first fault of meaning.
fn problem_of_forms<'s>(
    alloc: Global,
    version: Version,
    domain: &Form<'s>,
    form: &Form<'s>,
) -> Result<Problem<'s>, Turned>
    ensures faultless { OnOk result (meaning_fault (number_of version) (behind_head (form_view domain.now)) (behind_head (form_view form.now)) ≡ None) }
    ensures says { IfOk result (λ p. problem_of p ≡ problem_in (number_of version) (behind_head (form_view domain.now)) (behind_head (form_view form.now))) }
    ensures named { IfOk result (λ p. named_of p ≡ named_in (number_of version) (behind_head (form_view domain.now)) (form_view form.now)) }
    ensures counted { IfOk result (λ p. AreCounted p.signature) }
    ensures counts { IfOk result (λ p. SignatureCounts p.signature → ProblemCounts p) }
    ensures places { IfOk result (λ p. Each (λ x. Each (λ e. AssignsToPlace e.target) x.effects) p.schemas) }
    ensures refused { IfErr result (Turns (λ f. meaning_fault (number_of version) (behind_head (form_view domain.now)) (behind_head (form_view form.now)) ≡ Some f)) }
{
    let number = version.number();
    let stated = problem(alloc, number, behind_head(domain), form)?;
    Ok(stated)
}

// One of the top forms.
fn form_at<'f, 's>(top: &'f [Form<'s>], i: usize) -> &'f Form<'s>
    requires { i < length top.now }
    ensures { slice_get (map form_view top.now) i ≡ Some (form_view result.now) }
{
    &top[i]
}

/// The problem that forms state, or their first fault, of shape (120 to 124) or of meaning (200 to 211), as
/// `docs/FORMAT.md` says. `forms` are those that `source` spells, which has at most 262,144 bytes.
///
/// `Refused` comes exactly where there is a fault, and the problem is valid; `Memory` may come at any forms.
#[tactic(auto, using(pks_reader_world::proofs::Refused::this_found, pks_reader_world::proofs::Refused::this_plain, pks_reader_shape::proofs::Refusing::none_refused))]
pub fn problem_of<'s>(
    alloc: Global,
    source: &'s str,
    forms: &Forms<'s>,
) -> Result<Problem<'s>, Turned>
    requires short { length source.now ≤ MOST_BYTES }
    requires spelled { Spells source.now (forms_view forms.now.top.items) }

    // The problem is the one that the forms state, and it is valid.
    ensures stated { IfOk result (λ p. FormsState (map form_view forms.now.top.items) (problem_of p) (named_of p)) }
    ensures valid { IfOk result (λ p. IsValidProblem p) }

    // A refusal is that of the forms.
    ensures refused { IfErr result (Turns (AreRefused (length source.now) (map form_view forms.now.top.items))) }

    // Where the forms state a problem, the answer is that problem or want of memory; where they are refused, it is that refusal or want of memory.
    ensures only_stated { (p : stating.Problem) (n : Named) → FormsState (map form_view forms.now.top.items) p n → IfOk result (λ q. (problem_of q ≡ p) × (named_of q ≡ n)) × IfErr result (λ e. e ≡ Memory) }
    ensures only_refused { (fault : shaping.Fault) → AreRefused (length source.now) (map form_view forms.now.top.items) fault → (IsOk result → ⊥) × IfErr result (Turns (λ f. f ≡ fault)) }
{
    let top = forms.top.as_slice();
    match shape_fault(source.len() as u32, top) {
        Some(refusal) => Err(Turned::Refused(refusal)),
        None => problem_of_forms(alloc, version_of(top), form_at(top, 1), form_at(top, 2)),
    }
}

/// The problem that a text of at most 262,144 bytes states, or its first fault, of text (110 to 113), of shape (120 to 124)
/// or of meaning (200 to 211), as `docs/FORMAT.md` says.
///
/// The names are words of the text and lent from it, and each span is the place of what it names, as `States` has them. What
/// stands in places of an array that aren't in use is not said.
///
/// `Refused` comes exactly where there is a fault, and the problem is valid; `Memory` may come at any text.
pub fn read_problem<'s>(alloc: Global, source: &'s str) -> Result<Problem<'s>, Turned>
    requires { length source.now ≤ MOST_BYTES }

    // The problem is the one that the text states, and it is valid.
    ensures stated { IfOk result (λ p. States source.now (problem_of p) (named_of p)) }
    ensures valid { IfOk result (λ p. IsValidProblem p) }

    // A refusal is that of the text.
    ensures refused { IfErr result (Turns (IsRefused source.now)) }

    // Where the text states a problem, the answer is that problem or want of memory; where it is refused, it is that refusal or want of memory.
    ensures only_stated { (p : stating.Problem) (n : Named) → States source.now p n → IfOk result (λ q. (problem_of q ≡ p) × (named_of q ≡ n)) × IfErr result (λ e. e ≡ Memory) }
    ensures only_refused { (fault : shaping.Fault) → IsRefused source.now fault → (IsOk result → ⊥) × IfErr result (Turns (λ f. f ≡ fault)) }
{
    match forms(alloc, source) {
        Ok(read) => problem_of(alloc, source, &read),
        Err(fault) => Err(text_refused(fault)),
    }
}
