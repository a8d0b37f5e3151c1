//! What is declared, and the types of terms (`docs/FORMAT.md`).
ghost use Rattle.std.specs.Prelude.{◌≡◌, ℕ, List, [], map, Option, option_map, unwrap_or, slice_get, option_and_then, length, ◌<◌, IfSome};
ghost use Rattle.pks_terms.specs.Signatures.{parent_of, fits_type};
ghost use Rattle.pks_terms.specs.Views.{shape_of, types_of};
ghost use Rattle.pks_text.specs.FormViews.{form_view};
ghost use Rattle.pks_reader_names.specs.Tables.{entry_of, entries_of, number_of};
ghost use Rattle.pks_reader_names.specs.Scopes.{signature_in, fits, type_of, name_in};
ghost use Rattle.pks_reader_names.specs.Terms.{wanted_by};
ghost use Rattle.pks_reader_names.specs.Views.{names_of, scope_view};

use indexmap::IndexMap;
use pks_reader_shape::walk::head_of;
use pks_reader_shape::words::is_variable;
use pks_terms::ids::TypeId;
use pks_terms::problem::Shape;
use pks_terms::term::front;
use pks_text::Form;

/// The names that the sections of a domain declare, in order, each with what is said of it.
#[derive(Drop)]
pub struct Declared<'s> {
    pub types: IndexMap<&'s str, Option<u8>>,
    pub objects: IndexMap<&'s str, u8>,
    pub predicates: IndexMap<&'s str, Shape>,
    pub functions: IndexMap<&'s str, Shape>,
}

/// What is declared at a place: the names of the domain, and the parameters of an action.
#[derive(Drop)]
pub struct Scope<'d, 's> {
    pub declared: &'d Declared<'s>,
    pub parameters: &'d IndexMap<&'s str, u8>,
}

/// What is said of a name.
pub fn entry<'t, X>(table: &'t IndexMap<&str, X>, name: &str) -> Option<&'t X>
    ensures { option_map (λ a. a.now) result ≡ entry_of (names_of table.now) name.now }
{
    table.get(name)
}

/// The number of a name.
pub fn number<X>(table: &IndexMap<&str, X>, name: &str) -> Option<usize>
    ensures number { result ≡ number_of (names_of table.now) name.now }
    ensures within { IfSome result (λ n. n < length (names_of table.now)) }
{
    table.get_index_of(name)
}

/// What stands behind the `?` of a parameter.
pub fn name_in(text: &str) -> &str
    ensures { result.now ≡ name_in text.now }
{
    match text.strip_prefix("?") {
        Some(name) => name,
        None => text,
    }
}

/// The types of the arguments of a predicate or a function, none where it isn't declared.
pub fn wanted_by(shape: Option<&Shape>) -> &[TypeId]
    ensures { types_of result.now ≡ wanted_by (option_map (λ x. shape_of x.now) shape.entry) }
{
    match shape {
        None => &[],
        Some(shape) => front(&shape.args, shape.n),
    }
}

fn count_at(entry: Option<&u8>) -> Option<u8>
    ensures { result ≡ option_map (λ a. a.now) entry.entry }
{
    match entry {
        None => None,
        Some(own) => Some(*own),
    }
}

// What is said of the type with a number.
fn said_at<'t>(types: &'t IndexMap<&str, Option<u8>>, own: u8) -> Option<&'t Option<u8>>
    ensures { option_map (λ a. a.now) result ≡ slice_get (entries_of (names_of types.now)) own }
{
    match types.get_index(usize::from(own)) {
        Some((_, said)) => Some(said),
        None => None,
    }
}

// The parent that is said of a type.
fn parent_said(said: Option<&Option<u8>>) -> Option<u8>
    ensures { result ≡ option_and_then (λ o. o) (option_map (λ a. a.now) said.entry) }
{
    match said {
        Some(parent) => *parent,
        None => None,
    }
}

impl<'d, 's> Scope<'d, 's> {
    /// The type of an object.
    pub fn object(&self, name: &str) -> Option<u8>
        ensures { result ≡ entry_of (scope_view self.now).objects name.now }
    {
        count_at(entry(&self.declared.objects, name))
    }

    /// The type of a parameter.
    pub fn parameter(&self, name: &str) -> Option<u8>
        ensures { result ≡ entry_of (scope_view self.now).parameters name.now }
    {
        count_at(entry(self.parameters, name))
    }

    /// The shape of a predicate.
    pub fn predicate(&self, name: &str) -> Option<&Shape>
        ensures { option_map (λ x. shape_of x.now) result ≡ entry_of (scope_view self.now).predicates name.now }
    {
        entry(&self.declared.predicates, name)
    }

    /// The shape of a function.
    pub fn function(&self, name: &str) -> Option<&Shape>
        ensures { option_map (λ x. shape_of x.now) result ≡ entry_of (scope_view self.now).functions name.now }
    {
        entry(&self.declared.functions, name)
    }

    /// The parent of a type, which is an earlier type.
    fn parent(&self, own: u8) -> Option<u8>
        ensures { result ≡ parent_of (signature_in (scope_view self.now)) own }
    {
        match parent_said(said_at(&self.declared.types, own)) {
            Some(up) => { if up < own { Some(up) } else { None } }
            None => None,
        }
    }

    /// Whether the type is the other one or below it.
    pub fn fits(&self, own: u8, wanted: u8) -> bool
        ensures { result ≡ fits (scope_view self.now) own wanted }
    {
        let mut own = own;
        loop {
            if own == wanted {
                return true;
            }
            match self.parent(own) {
                Some(up) => own = up,
                None => return false,
            }
        }
    }

    /// The type of a term, where what it names is declared.
    pub fn type_of(&self, form: &Form<'s>) -> Option<u8>
        ensures { result ≡ type_of (scope_view self.now) (form_view form.now) }
    {
        match form {
            Form::Name(token) => {
                if is_variable(token.text.as_bytes()) {
                    self.parameter(name_in(token.text))
                } else {
                    self.object(token.text)
                }
            }
            Form::List { parts, .. } => match self.function(head_of(parts)) {
                None => None,
                Some(shape) => Some(shape.result.0),
            },
        }
    }
}
