//! The room for the lines of actions.
ghost use Rattle.std.specs.Prelude.{◌≡◌, ◌≤◌, ◌+◌, ◌*◌, ◌++◌, ◌∷◌, map, length, vec_len, vec_capacity, IfOk, OnOk};
ghost use Rattle.std.specs.List.{flat_map};
ghost use Rattle.pks_terms.specs.Sets.{Each};
ghost use Rattle.pks_terms.specs.Printed.{inner_text};
ghost use Rattle.pks_terms.specs.Talk.{do_text};
ghost use Rattle.pks_terms.specs.Views.{inner_of, names_of};
ghost use Rattle.pks_agent.specs.Rooms.{IsSpoken, FitsActions, IsDesk, IsLongest};

use pks_terms::ids::ActId;
use pks_terms::lookup::{action_name, object_name};
use pks_terms::problem::Problem;
use pks_terms::schema::Schema;
use pks_terms::term::Inner;
use std::alloc::{AllocError, Global};

/// The arguments of an action as they are answered, and its line.
#[derive(Drop)]
pub(crate) struct Desk {
    pub(crate) arguments: Vec<Inner>,
    pub(crate) line: Vec<u8>,
}

/// Appends the bytes, for which there is room.
fn put(line: &mut Vec<u8>, bytes: &[u8])
    requires { vec_len line.old + length bytes.now ≤ vec_capacity line.old }
    ensures items { line.new.items ≡ line.old.items ++ bytes.now }
    ensures capacity { vec_capacity line.old ≤ vec_capacity line.new }
{
    line.extend_from_slice(bytes).unwrap();
}

/// Appends an object's name. A parameter has no text.
fn put_argument(p: &Problem<'_>, t: &Inner, line: &mut Vec<u8>)
    requires spoken { IsSpoken (inner_of t.now) }
    requires room { vec_len line.old + length (inner_text (names_of p.now) (inner_of t.now)) ≤ vec_capacity line.old }
    ensures items { line.new.items ≡ line.old.items ++ inner_text (names_of p.now) (inner_of t.now) }
    ensures capacity { vec_capacity line.old ≤ vec_capacity line.new }
{
    match t {
        Inner::Obj(object) => put(line, object_name(p, *object).as_bytes()),
        Inner::Param(_) => {}
        Inner::App { .. } => unreachable!(),
    }
}

/// Appends each argument behind a blank.
fn put_arguments(p: &Problem<'_>, arguments: &[Inner], line: &mut Vec<u8>)
    requires spoken { Each IsSpoken (map inner_of arguments.now) }
    requires room { vec_len line.old + length (flat_map (λ part. 32 ∷ part) (map (inner_text (names_of p.now)) (map inner_of arguments.now))) ≤ vec_capacity line.old }
    ensures items { line.new.items ≡ line.old.items ++ flat_map (λ part. 32 ∷ part) (map (inner_text (names_of p.now)) (map inner_of arguments.now)) }
    ensures capacity { vec_capacity line.old ≤ vec_capacity line.new }
{
    match arguments {
        [] => {}
        [t, rest @ ..] => {
            put(line, b" ");
            put_argument(p, t, line);
            put_arguments(p, rest, line);
        }
    }
}

/// Makes the line of an action with these arguments.
#[tactic(auto, unfolding(pks_terms::specs::Printed::instance_text))]
pub(crate) fn action_line(p: &Problem<'_>, action: ActId, arguments: &[Inner], line: &mut Vec<u8>)
    requires spoken { Each IsSpoken (map inner_of arguments.now) }
    requires room { length (do_text (names_of p.now) action.0 (map inner_of arguments.now)) ≤ vec_capacity line.old }
    ensures text { line.new.items ≡ do_text (names_of p.now) action.0 (map inner_of arguments.now) }
    ensures capacity { vec_capacity line.old ≤ vec_capacity line.new }
{
    line.clear();
    put(line, b"do (");
    put(line, action_name(p, action).as_bytes());
    put_arguments(p, arguments, line);
    put(line, b")");
}

/// The longest of the names, or no text where there is none.
fn longest_name<'s>(names: &[&'s str]) -> &'s str
    ensures { IsLongest (map (λ name. name.now) names.now) result.now }
{
    match names {
        [] => "",
        [name, rest @ ..] => {
            let other = longest_name(rest);
            if name.len() < other.len() {
                other
            } else {
                *name
            }
        }
    }
}

/// The longest name of an action, or no text where there is none.
fn longest_action<'s>(schemas: &[Schema<'s>]) -> &'s str
    ensures { IsLongest (map (λ x. x.name.now) schemas.now) result.now }
{
    match schemas {
        [] => "",
        [schema, rest @ ..] => {
            let other = longest_action(rest);
            if schema.name.len() < other.len() {
                other
            } else {
                schema.name
            }
        }
    }
}

/// Appends the bytes behind a blank.
fn add_part(line: &mut Vec<u8>, bytes: &[u8]) -> Result<(), AllocError>
    ensures { OnOk result (vec_len line.new ≡ vec_len line.old + 1 + length bytes.now) }
{
    line.extend_from_slice(b" ")?;
    line.extend_from_slice(bytes)?;
    Ok(())
}

/// Appends the bytes twice, each time behind a blank.
fn add_two(line: &mut Vec<u8>, bytes: &[u8]) -> Result<(), AllocError>
    ensures { OnOk result (vec_len line.new ≡ vec_len line.old + 2 * (1 + length bytes.now)) }
{
    add_part(line, bytes)?;
    add_part(line, bytes)?;
    Ok(())
}

/// Appends the bytes four times, each time behind a blank.
fn add_four(line: &mut Vec<u8>, bytes: &[u8]) -> Result<(), AllocError>
    ensures { OnOk result (vec_len line.new ≡ vec_len line.old + 4 * (1 + length bytes.now)) }
{
    add_two(line, bytes)?;
    add_two(line, bytes)?;
    Ok(())
}

/// Appends a line of an action with this name and four arguments with this one.
fn add_line(line: &mut Vec<u8>, action: &[u8], object: &[u8]) -> Result<(), AllocError>
    ensures { OnOk result (vec_len line.new ≡ vec_len line.old + (length action.now + 4 * (1 + length object.now) + 5)) }
{
    line.extend_from_slice(b"do (")?;
    line.extend_from_slice(action)?;
    add_four(line, object)?;
    line.extend_from_slice(b")")?;
    Ok(())
}

/// A line with room for that of each action: at least as long as the longest of them.
fn longest_line(alloc: Global, p: &Problem<'_>) -> Result<Vec<u8>, AllocError>
    ensures { IfOk result (λ line. FitsActions (names_of p.now) (vec_capacity line)) }
{
    let object = longest_name(p.names.objects.as_slice()).as_bytes();
    let action = longest_action(p.schemas.as_slice()).as_bytes();
    let mut line = Vec::new(alloc);
    add_line(&mut line, action, object)?;
    Ok(line)
}

impl Desk {
    /// Room for the arguments and the line of each action.
    pub(crate) fn new(alloc: Global, p: &Problem<'_>) -> Result<Desk, AllocError>
        ensures { IfOk result (λ desk. IsDesk (names_of p.now) desk) }
    {
        Ok(Desk {
            arguments: Vec::with_capacity(alloc, 4)?,
            line: longest_line(alloc, p)?,
        })
    }
}
