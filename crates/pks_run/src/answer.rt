// The answer to a job and an input.
ghost use Rattle.std.specs.Prelude.{◌≡◌, ◌≤◌, [], length, IfOk};
ghost use Rattle.pks_terms.specs.declared.codes.TheConstants.{TOO_MANY_BYTES};
ghost use Rattle.pks_terms.specs.declared.limits.TheConstants.{MOST_BYTES};
ghost use Rattle.pks_terms.specs.Printed.{Text, refusal_text};
ghost use Rattle.pks_terms.specs.Jobs.{IsInBounds, usage_text};
ghost use Rattle.pks_terms.specs.Answers.{refusal, text_for, Reading, ReadAs};
ghost use Rattle.pks_run_words.specs.JobViews.{modes, job_of};
ghost use Rattle.pks_reader.specs.Inputs.{line_and_column, IsRead, Reads};
ghost use Rattle.pks_reader.specs.Views.{file_of, IsWhole};
ghost use Rattle.pks_run_answer.specs.Replies.{IsAbout};
ghost use Rattle.pks_run.specs.Answer.{IsReplyTo};
ghost use Rattle.pks_run.specs.Opening.{OpensAs};
ghost use Rattle.pks_run.specs.Replied.{status_for};

use crate::status::Status;
use pks_reader::{InputFile, Refusal, Turned, read_file};
use pks_run_answer::line::refusal_line;
use pks_run_answer::reply::{Verdict, reply_about};
use pks_run_words::Job;
use pks_terms::codes::TOO_MANY_BYTES;
use std::alloc::{AllocError, Global};
use std::mem::drop;

// The status that says what a reply says of the job.
fn status_for(verdict: Verdict) -> Status
    ensures { result ≡ status_for verdict }
{
    match verdict {
        Verdict::Done => Status::Done,
        Verdict::NoPlan => Status::NoPlan,
        Verdict::Refused => Status::Refused,
    }
}

// The line of a refusal of an input, which says nothing but its place and its code.
fn refusal_of(alloc: Global, input: &[u8], r: Refusal) -> Result<Vec<u8>, AllocError>
    requires { length input.now ≤ MOST_BYTES }
    ensures { IfOk result (λ text. text.items ≡ refusal_text (refusal (line_and_column input.now r.at) r.code [])) }
{
    let text = refusal_line(alloc, input, r, "")?;
    Ok(text)
}

// What a text is as an input: a file, or refused with this line.
#[derive(Drop)]
pub enum Opened<'t> {
    File(InputFile<'t>),
    Refused(Vec<u8>),
}

// Reads a text as an input.
pub fn open<'t>(alloc: Global, text: &'t [u8]) -> Result<Opened<'t>, AllocError>
    requires { length text.now ≤ MOST_BYTES }
    ensures { IfOk result (OpensAs text.now) }
{
    match read_file(alloc, text) {
        Ok(file) => Ok(Opened::File(file)),
        Err(Turned::Refused(r)) => Ok(Opened::Refused(refusal_of(alloc, text, r)?)),
        Err(Turned::Memory) => Err(AllocError),
    }
}

// What is answered to words that ask for no job.
pub fn usage(alloc: Global) -> Result<Vec<u8>, AllocError>
    ensures { IfOk result (λ text. text.items ≡ usage_text modes) }
{
    let text =
        b"usage: pks check | plan DEPTH | exec DEPTH | bench N | recall DEPTH | agent DEPTH | explain DEPTH | derive | shared DEPTH\n".to_vec(
            alloc,
        )?;
    Ok(text)
}

// What is answered to an input of too many bytes, at the first of them.
pub fn too_long(alloc: Global) -> Result<Vec<u8>, AllocError>
    ensures { IfOk result (λ text. text.items ≡ refusal_text (refusal (line_and_column [] 0) TOO_MANY_BYTES [])) }
{
    let text = refusal_of(alloc, &[], Refusal::plain(0, TOO_MANY_BYTES))?;
    Ok(text)
}

// The answer about a text that reads as this file.
fn about_file(
    alloc: Global,
    job: Job,
    input: &[u8],
    file: &InputFile<'_>,
) -> Result<(Status, Vec<u8>), AllocError>
    requires whole { IsWhole file.now }
    requires bounds { IsInBounds (job_of job) }
    requires about { IsAbout (job_of job) input.now }
    requires source { file.now.source.now ≡ input.now }
    requires read { IsRead input.now (file_of file.now) }
    requires one { (x : Reading) → Reads input.now x → x ≡ ReadAs (file_of file.now) }
    ensures { IfOk result (λ a. (given : Text) → text_for (job_of job) given ≡ input.now → IsReplyTo (job_of job) given a.0 a.1.items) }
{
    let (verdict, text) = reply_about(alloc, job, file)?;
    Ok((status_for(verdict), text))
}

// An equal line.
fn same_line(alloc: Global, line: &[u8]) -> Result<Vec<u8>, AllocError>
    ensures { IfOk result (λ copy. copy.items ≡ line.now) }
{
    let copy = Vec::from_slice(alloc, line)?;
    Ok(copy)
}

// The answer about a text of which it is known what it is as an input.
fn about_input(
    alloc: Global,
    job: Job,
    input: &[u8],
    opened: &Opened<'_>,
) -> Result<(Status, Vec<u8>), AllocError>
    requires bounds { IsInBounds (job_of job) }
    requires about { IsAbout (job_of job) input.now }
    requires opens { OpensAs input.now opened.now }
    ensures { IfOk result (λ a. (given : Text) → text_for (job_of job) given ≡ input.now → IsReplyTo (job_of job) given a.0 a.1.items) }
{
    match opened {
        Opened::File(file) => about_file(alloc, job, input, file),
        Opened::Refused(line) => {
            let text = same_line(alloc, line.as_slice())?;
            Ok((Status::Refused, text))
        }
    }
}

// The answer to a job about a text.
pub fn answer(alloc: Global, job: Job, input: &[u8]) -> Result<(Status, Vec<u8>), AllocError>
    requires short { length input.now ≤ MOST_BYTES }
    requires bounds { IsInBounds (job_of job) }
    requires about { IsAbout (job_of job) input.now }
    ensures { IfOk result (λ a. (given : Text) → text_for (job_of job) given ≡ input.now → IsReplyTo (job_of job) given a.0 a.1.items) }
{
    let opened = open(alloc, input)?;
    let answer = about_input(alloc, job, input, &opened);
    drop(opened);
    answer
}
