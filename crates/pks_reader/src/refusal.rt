//! Refusals of texts.
ghost use Rattle.std.specs.Prelude.{◌≡◌, Some};
ghost use Rattle.pks_text.specs.declared.tree.FormFault.TheVariants as text;
ghost use Rattle.pks_reader_shape.specs.declared.report.Turned.TheVariants.{Memory};
ghost use Rattle.pks_reader_shape.specs.Refusals.{Turns};
ghost use Rattle.pks_reader.specs.Texts.{coded};

use pks_reader_shape::report::{Refusal, Turned};
use pks_terms::codes::{BAD_BYTE, TOO_DEEP, UNCLOSED, UNOPENED};
use pks_text::FormFault;

/// The refusal of a fault of a text, with its code from 110 to 113 (`docs/FORMAT.md`), or want of memory.
pub fn text_refused(fault: FormFault) -> Turned
    ensures refused { Turns (λ f. coded fault ≡ Some f) result }
    ensures memory { result ≡ Memory → fault ≡ text.Memory }
{
    match fault {
        FormFault::BadByte(at) => Turned::Refused(Refusal::plain(at, BAD_BYTE)),
        FormFault::Unclosed(at) => Turned::Refused(Refusal::plain(at, UNCLOSED)),
        FormFault::Unopened(at) => Turned::Refused(Refusal::plain(at, UNOPENED)),
        FormFault::TooDeep(at) => Turned::Refused(Refusal::plain(at, TOO_DEEP)),
        FormFault::Memory => Turned::Memory,
    }
}
