// Places of forms, and lines and columns.
ghost use Rattle.std.specs.Prelude.{◌≡◌, ◌≤◌, length};
ghost use Rattle.pks_terms.specs.declared.limits.TheConstants.{MOST_BYTES};
ghost use Rattle.pks_text.specs.FormViews.{form_view};
ghost use Rattle.pks_text.specs.Forms.{place_of};
ghost use Rattle.pks_text.specs.Lines.{line_column_behind, line_column_of};

use crate::tree::Form;

/// The place of a form: that of its word, or of its opening parenthesis (`docs/FORMAT.md`).
pub fn place_of(form: &Form<'_>) -> u32
    ensures { result ≡ place_of (form_view form.now) }
{
    match form {
        Form::Name(token) => token.span.start,
        Form::List { span, .. } => span.start,
    }
}

/// The line and the column of what stands behind these bytes: lines count from 1 by line feeds, columns from 1 by bytes
/// (`docs/FORMAT.md`). There are at most 262,144 bytes.
pub fn line_column_behind(front: &[u8]) -> (u32, u32)
    requires { length front.now ≤ MOST_BYTES }
    ensures { result ≡ line_column_behind front.now }
{
    let mut line = 0;
    let mut column = 0;
    for byte in front {
        if *byte == b'\n' {
            line += 1;
            column = 0;
        } else {
            column += 1;
        }
    }
    (line + 1, column + 1)
}

/// The line and the column of a byte: lines count from 1 by line feeds, columns from 1 by bytes (`docs/FORMAT.md`).
///
/// The text has at most 262,144 bytes, and `at` is the place of one of them or the end of the text.
#[tactic(auto, unfolding(crate::specs::Lines::line_column_of))]
pub fn line_column(source: &str, at: u32) -> (u32, u32)
    requires small { length source.now ≤ MOST_BYTES }
    requires within { at ≤ length source.now }
    ensures { result ≡ line_column_of source.now at }
{
    line_column_behind(&source.as_bytes()[..at as usize])
}
