//! The world of a file that was read.
ghost use Rattle.std.specs.Prelude.{◌≡◌, Some, None, map, option_map, slice_get, IfOk, IfErr, IfSome};
ghost use Rattle.pks_terms.specs.Views.{signature_of};
ghost use Rattle.pks_text.specs.FormViews.{form_view};
ghost use Rattle.pks_world.specs.Counts.{WorldCounts};
ghost use Rattle.pks_world.specs.First.{IsWorldOf};
ghost use Rattle.pks_reader.specs.Views.{file_of, stated_as, IsWhole, IsBadWorld};

use crate::input::InputFile;
use crate::{Turned, read_world};
use pks_text::{Form, Forms};
use pks_world::World;
use std::alloc::Global;

/// The form of the world, which is the fourth.
pub fn world_form<'f, 's>(forms: &'f Forms<'s>) -> Option<&'f Form<'s>>
    ensures { option_map (λ f. form_view f.now) result ≡ slice_get (map form_view forms.now.top.items) 3 }
{
    forms.top.as_slice().get(3)
}

/// The world that a file states, or that it states none. It asks for a file as `read_file` gives it.
///
/// A refusal is that of the first fault of the world, with its code 300 to 304, and says nothing else; it comes exactly where there
/// is one, unless memory is wanting. `docs/FORMAT.md`.
pub fn stated_world(alloc: Global, f: &InputFile<'_>) -> Result<Option<World>, Turned>
    requires { IsWhole f.now }
    ensures says { IfOk result (λ w. (file_of f.now).world ≡ stated_as w) }
    ensures of_signature { IfOk result (λ w. IfSome w (IsWorldOf (signature_of f.now.problem.signature))) }
    ensures counts { IfOk result (λ w. IfSome w WorldCounts) }
    ensures refused { IfErr result (IsBadWorld f.now) }
{
    match world_form(&f.forms) {
        None => Ok(None),
        Some(_form) => {
            let world = read_world(alloc, &f.problem, &f.forms)?;
            Ok(Some(world))
        }
    }
}
