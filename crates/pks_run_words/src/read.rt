//! The job that words ask for.

ghost use Rattle.std.specs.Prelude.{◌≡◌, ℕ, List, Option, map, option_map, string_bytes, IfOk, IsErrOf};
ghost use Rattle.pks_run_words.specs.Command.{HasWords, text_of};
ghost use Rattle.pks_run_words.specs.JobViews.{AskForOne, AskNoJob, job_of};

use crate::command::command;
use crate::end::WordsEnd;
use crate::job::Job;
use crate::modes::job_for;
use std::alloc::Global;

/// The mode and the number.
fn mode_and_number<'a>(
    alloc: Global,
    words: &'a [String],
) -> Result<(&'a str, Option<&'a str>), WordsEnd>
    ensures ok { IfOk result (λ r. HasWords (map string_bytes words.entry.now) r.0.now (option_map text_of r.1)) }
    ensures refused { IsErrOf result WordsEnd.Refused → (mode : List ℕ) (number : Option (List ℕ)) → HasWords (map string_bytes words.entry.now) mode number → ⊥ }
{
    let matches = command(alloc)?.try_get_matches_from(words)?;
    match matches.get_str("mode") {
        Some(mode) => Ok((mode, matches.get_str("number"))),
        None => Err(WordsEnd::Refused),
    }
}

/// The job that the words ask for, the first of which is the program's name (docs/FORMAT.md, "Words and statuses").
/// It answers `Refused` exactly where they ask for no job, and `Memory` where memory ran out, which may come before
/// the other answers.
pub fn read_words(alloc: Global, words: &[String]) -> Result<Job, WordsEnd>
    ensures ok { IfOk result (λ job. AskForOne (map string_bytes words.now) (job_of job)) }
    ensures refused { IsErrOf result WordsEnd.Refused → AskNoJob (map string_bytes words.now) }
{
    let (mode, number) = mode_and_number(alloc, words)?;
    match job_for(mode, number) {
        Some(job) => Ok(job),
        None => Err(WordsEnd::Refused),
    }
}
