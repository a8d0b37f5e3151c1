//! Lists in parentheses.

ghost use Rattle.std.specs.Prelude.{◌≡◌, ◌++◌, ◌∷◌, map, OnOk, OnErr};
ghost use Rattle.std.specs.List.{flat_map};
ghost use Rattle.pks_terms.specs.Printed.{listed};
ghost use Rattle.pks_plan.specs.Appending.{AppendsPart};

use crate::bytes::put;
use pks_terms::problem::Problem;
use std::alloc::AllocError;

/// The names with which parts are printed: those of a problem, and those of the parameters of an action, without their
/// question marks. Where the latter are left out a parameter has no text.
#[derive(Drop)]
pub struct Wording<'w>(pub &'w Problem<'w>, pub Option<&'w [&'w str]>);

/// What stands in a list.
pub trait PrintedPart {
    ghost use Rattle.std.specs.Prelude.{List, ℕ};
    ghost use Rattle.pks_plan.specs.declared.parts.Wording.{Wording};

    ghost text: { Wording → Self → List ℕ };

    /// Appends the text, or where memory runs out a beginning of it.
    fn print(&self, w: &Wording<'_>, out: &mut Vec<u8>) -> Result<(), AllocError>
        ensures ok { OnOk result (out.new.items ≡ out.old.items ++ text w.now self.now) }
        ensures err { OnErr result (AppendsPart out.old.items out.new.items (text w.now self.now)) };
}

/// Each part behind a blank.
#[tactic(auto, using(crate::proofs::Appended::appended))]
pub(crate) fn print_parts<T: PrintedPart>(
    w: &Wording<'_>,
    parts: &[T],
    out: &mut Vec<u8>,
) -> Result<(), AllocError>
    ensures ok { OnOk result (out.new.items ≡ out.old.items ++ flat_map (λ part. 32 ∷ part) (map (T.text w.now) parts.now)) }
    ensures err { OnErr result (AppendsPart out.old.items out.new.items (flat_map (λ part. 32 ∷ part) (map (T.text w.now) parts.now))) }
{
    for part in parts {
        put(out, b" ")?;
        part.print(w, out)?;
    }
    Ok(())
}

/// Appends a list in parentheses: the head, and each part behind a blank. Where memory runs out a beginning of the text
/// was appended.
#[tactic(auto, using(crate::proofs::Appended::appended))]
pub fn print_list<T: PrintedPart>(
    w: &Wording<'_>,
    head: &[u8],
    parts: &[T],
    out: &mut Vec<u8>,
) -> Result<(), AllocError>
    ensures ok { OnOk result (out.new.items ≡ out.old.items ++ listed head.now (map (T.text w.now) parts.now)) }
    ensures err { OnErr result (AppendsPart out.old.items out.new.items (listed head.now (map (T.text w.now) parts.now))) }
{
    put(out, b"(")?;
    put(out, head)?;
    print_parts(w, parts, out)?;
    put(out, b")")?;
    Ok(())
}
