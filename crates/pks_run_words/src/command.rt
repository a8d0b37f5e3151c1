//! The command: a mode and a number.

ghost use Rattle.std.specs.Prelude.{◌≡◌, IfOk};
ghost use Rattle.clap.specs.Words.{app_of};
ghost use Rattle.pks_run_words.specs.Command.{two_words};

use clap::{Arg, Command};
use std::alloc::{AllocError, Global};

/// The command: it has two positional words, the first required, and no options, not even one for help.
pub(crate) fn command<'a>(alloc: Global) -> Result<Command<'a>, AllocError>
    ensures { IfOk result (λ c. app_of c ≡ two_words) }
{
    let mode = Arg::new(alloc, "mode").required(true);
    let number = Arg::new(alloc, "number");
    let plain = Command::new(alloc, "pks").disable_help_flag(true);
    let command = plain.arg(mode)?.arg(number)?;
    Ok(command)
}
