//! Bytes behind bytes.

ghost use Rattle.std.specs.Prelude.{◌≡◌, ◌++◌, OnOk};
ghost use Rattle.pks_terms.specs.Printed.{numbered_object};

use itoa::Buffer;
use std::alloc::AllocError;

/// Appends the bytes.
pub(crate) fn put(text: &mut Vec<u8>, bytes: &[u8]) -> Result<(), AllocError>
    ensures { OnOk result (text.new.items ≡ text.old.items ++ bytes.now) }
{
    text.extend_from_slice(bytes)?;
    Ok(())
}

/// Appends the name of an object.
#[tactic(auto, using(crate::proofs::Numbered::appended))]
pub(crate) fn put_object(text: &mut Vec<u8>, number: u8) -> Result<(), AllocError>
    ensures { OnOk result (text.new.items ≡ text.old.items ++ numbered_object number) }
{
    let mut buffer = Buffer::new();
    put(text, b"c")?;
    put(text, buffer.format(number).as_bytes())?;
    Ok(())
}
