//! What the words behind the program's name ask for.
use crate::rows::{Check, all_so};
use crate::runs::words_of;
use pks_run_words::Job::{Agent, Bench, Derive, Exec, Explain, Plan, Recall, Shared};
use pks_run_words::WordsEnd::Refused;
use pks_run_words::{Job, WordsEnd, read_words};
use std::alloc::Global;
use std::test::Fail;

/// Words, and the job that they ask for.
struct Asked(&'static str, Result<Job, WordsEnd>);

impl Check for Asked {
    fn is_so(&self, alloc: Global) -> Result<bool, Fail> {
        let words = words_of(alloc, self.0)?;
        Ok(read_words(alloc, words.as_slice()) == self.1)
    }
}

const JOBS: &[Asked] = &[
    Asked("plan -- 4", Ok(Plan(4))),
    Asked("exec 16 --", Ok(Exec(16))),
    Asked("bench 64", Ok(Bench(64))),
    Asked("check 3", Err(Refused)),
    Asked("plan", Err(Refused)),
    Asked("plan 007", Err(Refused)),
    Asked("plan -- -4", Err(Refused)),
    Asked("plan 4 -- --", Err(Refused)),
    Asked("-", Err(Refused)),
    Asked("", Err(Refused)),
    Asked("--help", Err(Refused)),
    Asked("plan --version", Err(Refused)),
    Asked("recall 3", Ok(Recall(3))),
    Asked("recall", Err(Refused)),
    Asked("agent 0", Ok(Agent(0))),
    Asked("agent 16", Ok(Agent(16))),
    Asked("agent 17", Err(Refused)),
    Asked("agent", Err(Refused)),
    Asked("derive", Ok(Derive)),
    Asked("derive 3", Err(Refused)),
    Asked("shared 16", Ok(Shared(16))),
    Asked("shared 17", Err(Refused)),
    Asked("explain 0", Ok(Explain(0))),
    Asked("explain 16", Ok(Explain(16))),
    Asked("explain 17", Err(Refused)),
    Asked("explain 03", Err(Refused)),
    Asked("explain", Err(Refused)),
];

#[test]
fn jobs_of_words(rt: HostRuntime) -> Result<(), Fail> {
    all_so(rt.alloc(), JOBS)
}
