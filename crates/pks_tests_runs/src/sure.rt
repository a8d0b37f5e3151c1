//! A run over a source and a sink that never fail.
ghost use Rattle.std.specs.Prelude.{◌≡◌, ◌⊎◌, ℕ, List, map, string_bytes};
ghost use Rattle.pks_io.specs.Memory.{sure_left};
ghost use Rattle.pks_run.specs.Answer.{IsAnswer};
ghost use Rattle.pks_run.specs.declared.status.Status.{Status};

use crate::files::DOOR;
use crate::runs::words_of;
use pks_io::{SureSink, SureSource};
use pks_run::{Status, run};
use std::alloc::{AllocError, Global};
use std::test::Fail;

/// Over a source and a sink that never fail the answer's status is given, unless memory runs out.
fn run_surely(
    alloc: Global,
    words: &[String],
    source: &mut SureSource,
    sink: &mut SureSink,
) -> Status
    ensures { (result ≡ Status.Memory) ⊎ ((text : List ℕ) × IsAnswer (map string_bytes words.now) (sure_left source.old) result text) }
{
    run(alloc, words, source, sink)
}

/// How such a run of these words over a file ends.
fn end_of(alloc: Global, words: &str, file: &str) -> Result<Status, AllocError> {
    let words = words_of(alloc, words)?;
    let mut source = SureSource::new(file.as_bytes().to_vec(alloc)?, 8);
    let mut sink = SureSink::new();
    Ok(run_surely(alloc, words.as_slice(), &mut source, &mut sink))
}

#[test]
fn memory_is_not_the_answer(rt: HostRuntime) -> Result<(), Fail> {
    assert_eq!(rt; end_of(rt.alloc(), "plan 0", DOOR)?, Status::Done);
    Ok(())
}
