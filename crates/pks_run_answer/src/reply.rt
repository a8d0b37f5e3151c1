//! The reply to a job about a file that was read. `docs/FORMAT.md` has all texts.
ghost use Rattle.std.specs.Prelude.{◌≡◌, Some, IsSome, IfOk};
ghost use Rattle.pks_terms.specs.Printed.{accepted_text};
ghost use Rattle.pks_terms.specs.Jobs.{IsInBounds};
ghost use Rattle.pks_query_lookup.specs.Fives.{five_of};
ghost use Rattle.pks_run_words.specs.JobViews.{job_of};
ghost use Rattle.pks_reader.specs.Views.{file_of, IsWhole};
ghost use Rattle.pks_run_answer.specs.Accepting.{Accepts};
ghost use Rattle.pks_run_answer.specs.Replies.{IsReply, IsAbout, RepliesTo};

use crate::accept::{Accepted, accept};
use crate::line::file_line;
use crate::plans::{BENCH_DEPTH, Product, plan};
use pks_derive::derive;
use pks_reader::{InputFile, Turned};
use pks_run_words::Job;
use pks_world::World;
use std::alloc::{AllocError, Global};

/// What a reply says of the job.
#[derive(Clone, Copy)]
pub enum Verdict {
    /// It is done.
    Done,
    /// There is no plan.
    NoPlan,
    /// The file is refused.
    Refused,
}

/// The world that a run is in.
fn world_of_run<'w>(world: &'w Option<World>) -> &'w World
    requires { IsSome world.now }
    ensures { world.now ≡ Some result.now }
{
    match world {
        Some(w) => w,
        None => unreachable!(),
    }
}

/// That the file is accepted.
fn accepted_text(alloc: Global) -> Result<Vec<u8>, AllocError>
    ensures { IfOk result (λ text. text.items ≡ accepted_text) }
{
    let text = b"accepted\n".to_vec(alloc)?;
    Ok(text)
}

/// The reply where the file is accepted.
fn conclude(
    alloc: Global,
    job: Job,
    f: &InputFile<'_>,
    accepted: Accepted,
) -> Result<(Verdict, Vec<u8>), AllocError>
    requires whole { IsWhole f.now }
    requires bounds { IsInBounds (job_of job) }
    requires about { IsAbout (job_of job) f.now.source.now }
    requires accepts { Accepts (job_of job) (file_of f.now) (five_of accepted.first) accepted.world }
    ensures { IfOk result (λ a. IsReply (job_of job) (file_of f.now) a.0 a.1.items) }
{
    let Accepted { first, world } = accepted;
    match job {
        Job::Check => Ok((Verdict::Done, accepted_text(alloc)?)),
        Job::Plan(depth) => plan(alloc, &f.problem, Product::Plain, first, depth),
        Job::Exec(depth) => plan(
            alloc,
            &f.problem,
            Product::Run(world_of_run(&world)),
            first,
            depth,
        ),
        Job::Bench(n) => {
            let line = Product::BenchLine(n, f.source.as_bytes());
            plan(alloc, &f.problem, line, first, BENCH_DEPTH)
        }
        Job::Recall(depth) => plan(alloc, &f.problem, Product::Recalled, first, depth),
        Job::Agent(_) => unreachable!(),
        Job::Explain(depth) => plan(alloc, &f.problem, Product::Explained, first, depth),
        Job::Derive => Ok((Verdict::Done, derive(alloc, &f.problem)?)),
        Job::Shared(depth) => plan(alloc, &f.problem, Product::Shared, first, depth),
    }
}

/// The reply to a job about the file.
fn reply_to_job(
    alloc: Global,
    job: Job,
    f: &InputFile<'_>,
) -> Result<(Verdict, Vec<u8>), AllocError>
    requires whole { IsWhole f.now }
    requires bounds { IsInBounds (job_of job) }
    requires about { IsAbout (job_of job) f.now.source.now }
    ensures { IfOk result (λ a. IsReply (job_of job) (file_of f.now) a.0 a.1.items) }
{
    match accept(alloc, job, f) {
        Ok(accepted) => conclude(alloc, job, f, accepted),
        Err(Turned::Refused(r)) => Ok((Verdict::Refused, file_line(alloc, f, r)?)),
        Err(Turned::Memory) => Err(AllocError),
    }
}

/// The reply to a job about a file as `read_file` gives it: its verdict and its text, as `docs/FORMAT.md` says, and no
/// other reply fits, but that an explanation may have other proofs of the same literals. A plan that is printed or run is good
/// in every compatible world, and what its histories know of earlier moments was so then, as is what is told of them or shown.
/// It asks for a job whose number is within its bounds, and, for `bench`, for the generated file;
/// a dialogue hangs on its answers too, and has [`lead_about`](crate::leads::lead_about). It errs only where memory runs out.
pub fn reply_about(
    alloc: Global,
    job: Job,
    f: &InputFile<'_>,
) -> Result<(Verdict, Vec<u8>), AllocError>
    requires whole { IsWhole f.now }
    requires bounds { IsInBounds (job_of job) }
    requires about { IsAbout (job_of job) f.now.source.now }
    ensures { IfOk result (λ a. RepliesTo (job_of job) (file_of f.now) a.0 a.1.items) }
{
    let answer = reply_to_job(alloc, job, f)?;
    Ok(answer)
}
