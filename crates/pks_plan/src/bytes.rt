//! Bytes behind bytes.

ghost use Rattle.std.specs.Prelude.{◌≡◌, ◌++◌, decimal, OnOk, OnErr};
ghost use Rattle.pks_plan.specs.Appending.{AppendsPart};

use itoa::Buffer;
use std::alloc::AllocError;

/// Appends the bytes, or where memory runs out a beginning of them.
pub fn put(out: &mut Vec<u8>, bytes: &[u8]) -> Result<(), AllocError>
    ensures ok { OnOk result (out.new.items ≡ out.old.items ++ bytes.now) }
    ensures err { OnErr result (AppendsPart out.old.items out.new.items bytes.now) }
{
    out.extend_from_slice(bytes)?;
    Ok(())
}

/// Appends the number's digits, or where memory runs out a beginning of them.
pub fn put_number(out: &mut Vec<u8>, n: u64) -> Result<(), AllocError>
    ensures ok { OnOk result (out.new.items ≡ out.old.items ++ decimal n) }
    ensures err { OnErr result (AppendsPart out.old.items out.new.items (decimal n)) }
{
    let mut buffer = Buffer::new();
    put(out, buffer.format(n).as_bytes())?;
    Ok(())
}
