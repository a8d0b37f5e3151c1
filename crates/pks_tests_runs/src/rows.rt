//! Tables, whose rows say what is so.
use std::alloc::Global;
use std::test::Fail;

/// A row of a table.
pub(crate) trait Check {
    /// Whether what the row says is so.
    fn is_so(&self, alloc: Global) -> Result<bool, Fail>;
}

/// A row, counted from 0, that says what isn't so.
#[derive(Debug, Drop)]
pub(crate) struct WrongCheck(pub usize);

/// Fails at the first row that says what isn't so.
pub(crate) fn all_so<R: Check>(alloc: Global, rows: &[R]) -> Result<(), Fail> {
    for (k, row) in rows.iter().enumerate() {
        if !row.is_so(alloc)? {
            return Err(Fail::from(WrongCheck(k)));
        }
    }
    Ok(())
}
