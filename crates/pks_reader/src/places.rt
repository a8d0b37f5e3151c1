//! Places in an input: the bytes that refusals name, and their lines and columns.
ghost use Rattle.std.specs.Prelude.{◌≡◌, ◌≤◌, length, map, slice_get};
ghost use Rattle.std.specs.Option.{option_map_or};
ghost use Rattle.pks_terms.specs.declared.limits.TheConstants.{MOST_BYTES};
ghost use Rattle.pks_text.specs.Forms.{place_of};
ghost use Rattle.pks_text.specs.FormViews.{form_view};
ghost use Rattle.pks_reader_problem.specs.Spans.{bytes_in, adds_in};
ghost use Rattle.pks_reader.specs.Inputs.{line_and_column, add_begins};
ghost use Rattle.pks_reader.specs.Views.{file_of, place_at, IsAt};

use crate::input::InputFile;
use crate::world::world_form;
use pks_terms::ids::ActId;
use pks_terms::schema::{Adds, Schema};
use pks_text::{line_column_behind, place_of};

/// The line and the column of a byte of an input of at most 262,144 bytes, or, where `at` is greater, of its end. Lines count
/// from 1 by line feeds, columns from 1 by bytes (`docs/FORMAT.md`).
#[tactic(auto, unfolding(pks_text::specs::Lines::line_column_of))]
pub fn place(input: &[u8], at: u32) -> (u32, u32)
    requires { length input.now ≤ MOST_BYTES }
    ensures { place_at result ≡ line_and_column input.now at }
{
    let end = (at as usize).min(input.len());
    line_column_behind(&input[..end])
}

// Where the add with this number begins, among those of one action.
fn begins_among(adds: &[Adds], i: usize) -> u32
    ensures { result ≡ option_map_or (λ b. b.0) (slice_get (map (λ a. bytes_in a.span) adds.now) i) 0 }
{
    match adds.get(i) {
        None => 0,
        Some(add) => add.span.start,
    }
}

// Where an add begins.
fn add_begins(schemas: &[Schema<'_>], action: ActId, number: u32) -> u32
    ensures { result ≡ add_begins (map adds_in schemas.now) action.0 number }
{
    if number == 0 {
        return 0;
    }
    match schemas.get(action.0 as usize) {
        None => 0,
        Some(schema) => begins_among(schema.adds.as_slice(), (number - 1) as usize),
    }
}

/// The byte at which an add of an action begins; adds are counted from 1.
pub fn add_at(f: &InputFile<'_>, action: ActId, number: u32) -> u32
    ensures { IsAt f.now result ((file_of f.now).add_at action.0 number) }
{
    add_begins(f.problem.schemas.as_slice(), action, number)
}

/// The byte at which the initial items begin; the first one where there are none.
pub fn init_at(f: &InputFile<'_>) -> u32
    ensures { IsAt f.now result (file_of f.now).init_at }
{
    f.problem.init_span.start
}

/// The byte at which the problem begins.
pub fn problem_at(f: &InputFile<'_>) -> u32
    ensures { IsAt f.now result (file_of f.now).problem_at }
{
    f.problem.problem_span.start
}

/// The byte at which the world begins; the first one where there is none.
pub fn world_at(f: &InputFile<'_>) -> u32
    ensures { IsAt f.now result (file_of f.now).world_at }
{
    match world_form(&f.forms) {
        None => 0,
        Some(form) => place_of(form),
    }
}
