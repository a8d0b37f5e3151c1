// From words and streams to the number with which the program ends.
ghost use Rattle.std.specs.Prelude.{◌≡◌, map, string_bytes, IfOk, IfErr, OnErr};
ghost use Rattle.std.specs.Process.{exit_status};
ghost use Rattle.std.specs.IoError.{error_kind};
ghost use Rattle.std.specs.declared.io.ErrorKind.TheVariants.{OutOfMemory};
ghost use Rattle.pks_run.specs.Runs.{EndsRun};

use crate::status::{Status, exit_of};
use crate::top::run;
use pks_io::{Sink, Source};
use std::alloc::Global;
use std::io;
use std::process::ExitCode;

// Does what the words ask for, and says the number of the status with which that ended.
fn run_to_number<S: Source, K: Sink>(
    alloc: Global,
    words: &[String],
    source: &mut S,
    sink: &mut K,
) -> u8
    ensures { EndsRun S.left S.faults K.written K.faults (map string_bytes words.now) source.old source.new sink.old sink.new result }
{
    exit_of(run(alloc, words, source, sink))
}

// The number where the environment gave no words.
fn number_without_words(error: io::Error) -> u8
    ensures memory { error_kind error ≡ OutOfMemory → result ≡ 6 }
    ensures other { (error_kind error ≡ OutOfMemory → ⊥) → result ≡ 7 }
{
    if error.kind() == io::ErrorKind::OutOfMemory {
        exit_of(Status::Memory)
    } else {
        7
    }
}

/// Does what the words of the environment ask for, as [`run`] does, and says how the program ends: with the number of the status
/// (`docs/FORMAT.md`, "Words and statuses"), of which all that [`run`] says is so.
///
/// Where the environment gave no words the source isn't read and nothing is written, and the program ends with 6 where memory was wanting for
/// them, and else with 7.
pub fn run_to_exit<S: Source, K: Sink>(
    alloc: Global,
    words: io::Result<Vec<String>>,
    source: &mut S,
    sink: &mut K,
) -> ExitCode
    ensures ends { IfOk words (λ given. EndsRun S.left S.faults K.written K.faults (map string_bytes given.items) source.old source.new sink.old sink.new (exit_status result)) }
    ensures memory { IfErr words (λ error. error_kind error ≡ OutOfMemory → exit_status result ≡ 6) }
    ensures other { IfErr words (λ error. (error_kind error ≡ OutOfMemory → ⊥) → exit_status result ≡ 7) }
    ensures untouched { OnErr words ((source.new ≡ source.old) × (sink.new ≡ sink.old)) }
{
    match words {
        Ok(given) => ExitCode::from(run_to_number(alloc, given.as_slice(), source, sink)),
        Err(error) => ExitCode::from(number_without_words(error)),
    }
}
