//! Modes.

ghost use Rattle.std.specs.Prelude.{◌≡◌, ◌↔◌, [], ◌∷◌, ◌++◌, codes, decimal, option_map, Some, IsTrue, IfSome, IfNone};
ghost use Rattle.pks_terms.specs.Jobs.{IsInBounds, number_of_job};
ghost use Rattle.pks_run_words.specs.Command.{text_of, given};
ghost use Rattle.pks_run_words.specs.JobViews.{AreSpelled, AreWordsOf, AreNoWords, job_of};

use crate::job::Job;
use crate::number::number_of;

/// The job of a mode with a number, whatever the bounds of the number.
#[tactic(auto, using(crate::proofs::Spelling::no_mode))]
fn with_number(mode: &str, number: u8) -> Option<Job>
    ensures found { IfSome result (λ job. AreSpelled (mode.now ∷ decimal number ∷ []) (job_of job)) }
    ensures number { IfSome result (λ job. number_of_job (job_of job) ≡ Some number) }
    ensures none { IfNone result (AreNoWords (mode.now ∷ decimal number ∷ [])) }
{
    match mode {
        "plan" => Some(Job::Plan(number)),
        "exec" => Some(Job::Exec(number)),
        "bench" => Some(Job::Bench(number)),
        "recall" => Some(Job::Recall(number)),
        "agent" => Some(Job::Agent(number)),
        "explain" => Some(Job::Explain(number)),
        "shared" => Some(Job::Shared(number)),
        _ => None,
    }
}

/// Whether the number of the job is within its bounds.
fn is_in_bounds(job: Job) -> bool
    ensures { IsTrue result ↔ IsInBounds (job_of job) }
{
    match job {
        Job::Check | Job::Derive => true,
        Job::Plan(n)
        | Job::Exec(n)
        | Job::Recall(n)
        | Job::Agent(n)
        | Job::Explain(n)
        | Job::Shared(n) => n <= 16,
        Job::Bench(n) => 1 <= n && n <= 64,
    }
}

/// The job of a mode with a number.
fn numbered_job(mode: &str, number: u8) -> Option<Job>
    ensures found { IfSome result (λ job. AreWordsOf (mode.now ∷ decimal number ∷ []) (job_of job)) }
    ensures none { IfNone result (AreNoWords (mode.now ∷ decimal number ∷ [])) }
{
    let job = with_number(mode, number)?;
    if is_in_bounds(job) { Some(job) } else { None }
}

/// The job of a mode without a number.
#[tactic(auto, using(crate::proofs::Spelling::no_bare_job))]
fn bare(mode: &str) -> Option<Job>
    ensures found { IfSome result (λ job. AreWordsOf (mode.now ∷ []) (job_of job)) }
    ensures none { IfNone result (AreNoWords (mode.now ∷ [])) }
{
    match mode {
        "check" => Some(Job::Check),
        "derive" => Some(Job::Derive),
        _ => None,
    }
}

/// The job of a mode with or without a number.
pub(crate) fn job_for(mode: &str, number: Option<&str>) -> Option<Job>
    ensures found { IfSome result (λ job. AreWordsOf (given mode.now (option_map text_of number.entry)) (job_of job)) }
    ensures none { IfNone result (AreNoWords (given mode.now (option_map text_of number.entry))) }
{
    match number {
        Some(word) => numbered_job(mode, number_of(word)?),
        None => bare(mode),
    }
}
