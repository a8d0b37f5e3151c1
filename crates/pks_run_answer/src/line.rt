//! The lines of refusals.
ghost use Rattle.std.specs.Prelude.{◌≡◌, ◌≤◌, ◌++◌, codes, decimal, string_bytes, length, IfOk, OnOk};
ghost use Rattle.std.specs.List.{flat_map};
ghost use Rattle.pks_terms.specs.declared.limits.TheConstants.{MOST_BYTES};
ghost use Rattle.pks_terms.specs.Printed.{Refusal as Printed, name_in, refusal_text};
ghost use Rattle.pks_terms.specs.Answers.{refusal};
ghost use Rattle.pks_terms.specs.Views.{names_of};
ghost use Rattle.pks_reader.specs.Inputs.{line_and_column};
ghost use Rattle.pks_reader.specs.Views.{IsWhole};
ghost use Rattle.pks_run_answer.specs.Accepting.{rest_of, printed_of};

use itoa::Buffer;
use pks_reader::{Extra, InputFile, Refusal, place};
use pks_terms::ids::{ActId, ItemNo};
use pks_terms::lookup::action_name;
use pks_terms::problem::Problem;
use std::alloc::{AllocError, Global};

/// The parts of a line of refusal, one behind another: what stands in it for its line, its column and its code, and the rest.
pub fn refusal_parts<'t>(
    line: &'t str,
    column: &'t str,
    code: &'t str,
    rest: &'t str,
) -> [&'t [u8]; 8]
    ensures { (r : Printed) → line.now ≡ decimal r.line → column.now ≡ decimal r.column → code.now ≡ decimal r.code → rest.now ≡ r.rest → flat_map (λ part. part.now) result ≡ refusal_text r }
{
    [
        b"refused ".as_slice(),
        line.as_bytes(),
        b":".as_slice(),
        column.as_bytes(),
        b" ".as_slice(),
        code.as_bytes(),
        rest.as_bytes(),
        b"\n".as_slice(),
    ]
}

/// Appends the parts.
fn add_parts(text: &mut Vec<u8>, parts: &[&[u8]]) -> Result<(), AllocError>
    ensures { OnOk result (text.new.items ≡ text.old.items ++ flat_map (λ part. part.now) parts.now) }
{
    match parts {
        [] => Ok(()),
        [part, rest @ ..] => {
            text.extend_from_slice(part)?;
            add_parts(text, rest)?;
            Ok(())
        }
    }
}

/// The line of a refusal of an input of at most 262,144 bytes: the line and the column of its place, its code, and the rest
/// (`docs/FORMAT.md`, refusals). It errs only where memory runs out.
pub fn refusal_line(
    alloc: Global,
    input: &[u8],
    r: Refusal,
    rest: &str,
) -> Result<Vec<u8>, AllocError>
    requires { length input.now ≤ MOST_BYTES }
    ensures { IfOk result (λ text. text.items ≡ refusal_text (refusal (line_and_column input.now r.at) r.code rest.now)) }
{
    let (line, column) = place(input, r.at);
    let mut lines = Buffer::new();
    let mut columns = Buffer::new();
    let mut codes = Buffer::new();
    let parts = refusal_parts(
        lines.format(line),
        columns.format(column),
        codes.format(r.code),
        rest,
    );
    let mut text = Vec::new(alloc);
    add_parts(&mut text, &parts)?;
    Ok(text)
}

/// What a refusal says of an add: its action, and its number in the action.
fn add_rest(
    alloc: Global,
    p: &Problem<'_>,
    action: ActId,
    number: u32,
) -> Result<String, AllocError>
    ensures { IfOk result (λ text. string_bytes text ≡ codes " action " ++ (name_in (names_of p.now).actions action.0 ++ (codes " effect " ++ decimal number))) }
{
    let name = action_name(p, action);
    format!(in alloc; " action {name} effect {number}")
}

/// What a refusal says of an initial item: its number.
fn item_rest(alloc: Global, item: ItemNo) -> Result<String, AllocError>
    ensures { IfOk result (λ text. string_bytes text ≡ codes " item " ++ decimal item.0) }
{
    let number = item.0;
    format!(in alloc; " item {number}")
}

/// What a refusal says behind its code.
fn rest(alloc: Global, p: &Problem<'_>, extra: Extra) -> Result<String, AllocError>
    ensures { IfOk result (λ text. string_bytes text ≡ rest_of (names_of p.now) extra) }
{
    match extra {
        Extra::Plain => Ok(String::new(alloc)),
        Extra::Effect { action, number } => add_rest(alloc, p, action, number),
        Extra::Item(item) => item_rest(alloc, item),
    }
}

/// The line that refuses a file.
pub(crate) fn file_line(alloc: Global, f: &InputFile<'_>, r: Refusal) -> Result<Vec<u8>, AllocError>
    requires { IsWhole f.now }
    ensures { IfOk result (λ text. text.items ≡ refusal_text (printed_of f.now r)) }
{
    let rest = rest(alloc, &f.problem, r.extra)?;
    let text = refusal_line(alloc, f.source.as_bytes(), r, rest.as_str())?;
    Ok(text)
}
