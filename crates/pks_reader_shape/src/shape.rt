//! The shape of a whole file (`docs/FORMAT.md`).

ghost use Rattle.std.specs.Prelude.{◌≡◌, ◌↔◌, ◌∷◌, [], IsNone, map, option_map, slice_get, List};
ghost use Rattle.pks_terms.specs.declared.codes.TheConstants.{NO_VERSION, SURPLUS_FORM};
ghost use Rattle.pks_text.specs.Forms.{place_of};
ghost use Rattle.pks_text.specs.FormViews.{form_view, forms_view};
ghost use Rattle.pks_reader_shape.specs.Files.{is_word, are_words, is_list_of, stated, is_version, version_of, number_of, or_else, top_fault, rest_fault, shape_fault, walk_fault, world_shape_fault};
ghost use Rattle.pks_reader_shape.specs.Refusals.{refusing};
ghost use Rattle.pks_reader_shape.specs.Language.{IsFile};
ghost use Rattle.pks_reader_shape.specs.Walk.{is_headed};

use crate::grammar::{Sort, Version};
use crate::report::Refusal;
use crate::walk::{fault_in, is_headed};
use pks_terms::codes::{
    NO_DOMAIN, NO_PROBLEM, NO_VERSION, NOT_IN_GRAMMAR, SURPLUS_FORM, WORLD_NOT_IN_GRAMMAR,
};
use pks_text::{Form, place_of};

impl Version {
    /// The number of the version.
    pub fn number(self) -> u8
        ensures { result ≡ number_of self }
    {
        match self {
            Version::First => 1,
            Version::Second => 2,
        }
    }
}

fn is_word(text: &str, form: &Form<'_>) -> bool
    ensures { result ≡ is_word text.now (form_view form.now) }
{
    matches!(form, Form::Name(token) if token.text == text)
}

fn are_words(first: &str, second: &str, parts: &[Form<'_>]) -> bool
    ensures { result ≡ are_words (first.now ∷ second.now ∷ []) (forms_view parts.now) }
{
    match parts {
        [] => false,
        [a, rest @ ..] => match rest {
            [] => false,
            [b, rest @ ..] => is_word(first, a) && (is_word(second, b) && rest.is_empty()),
        },
    }
}

// Whether the form is a list of these two words.
fn is_pair(first: &str, second: &str, form: &Form<'_>) -> bool
    ensures { result ≡ is_list_of (first.now ∷ second.now ∷ []) (form_view form.now) }
{
    matches!(form, Form::List { parts, .. } if are_words(first, second, parts))
}

// The version that the form states.
#[tactic(auto, unfolding(crate::specs::Files::stated))]
fn stated_version(form: &Form<'_>) -> Option<Version>
    ensures { result ≡ stated (form_view form.now) }
{
    if is_pair("pks", "1", form) {
        Some(Version::First)
    } else if is_pair("pks", "2", form) {
        Some(Version::Second)
    } else {
        None
    }
}

/// The version of a file with these top forms, by the first of them: the first version where that states none.
pub fn version_of(top: &[Form<'_>]) -> Version
    ensures { result ≡ version_of (map form_view top.now) }
{
    match top {
        [first, ..] => stated_version(first).unwrap_or(Version::First),
        [] => Version::First,
    }
}

/// The first fault, or the later one where there is none.
pub fn or_else(first: Option<Refusal>, later: Option<Refusal>) -> Option<Refusal>
    ensures { result ≡ or_else first later }
{
    first.or(later)
}

fn version_fault(end: u32, form: Option<&Form<'_>>) -> Option<Refusal>
    ensures { result ≡ refusing (top_fault NO_VERSION is_version end (option_map (λ f. form_view f.now) form.entry)) }
{
    match form {
        None => Some(Refusal::plain(end, NO_VERSION)),
        Some(form) if stated_version(form).is_some() => None,
        Some(form) => Some(Refusal::plain(place_of(form), NO_VERSION)),
    }
}

fn head_fault(code: u16, head: &str, end: u32, form: Option<&Form<'_>>) -> Option<Refusal>
    ensures { result ≡ refusing (top_fault code (is_headed head.now) end (option_map (λ f. form_view f.now) form.entry)) }
{
    match form {
        None => Some(Refusal::plain(end, code)),
        Some(form) if is_headed(head, form) => None,
        Some(form) => Some(Refusal::plain(place_of(form), code)),
    }
}

fn rest_fault(fourth: Option<&Form<'_>>, fifth: Option<&Form<'_>>) -> Option<Refusal>
    ensures { result ≡ refusing (rest_fault (option_map (λ f. form_view f.now) fourth.entry) (option_map (λ f. form_view f.now) fifth.entry)) }
{
    let form = fourth?;
    if !is_headed("world", form) {
        return Some(Refusal::plain(place_of(form), SURPLUS_FORM));
    }
    Some(Refusal::plain(place_of(fifth?), SURPLUS_FORM))
}

/// The top form with a number, counted from 0, or nothing where there are fewer. It takes no memory.
pub fn top_at<'f, 's>(top: &'f [Form<'s>], i: usize) -> Option<&'f Form<'s>>
    ensures { option_map (λ f. form_view f.now) result ≡ slice_get (map form_view top.now) i }
{
    top.get(i)
}

fn walk_fault(code: u16, version: Version, sort: Sort, form: Option<&Form<'_>>) -> Option<Refusal>
    ensures { result ≡ refusing (walk_fault code version sort (option_map (λ f. form_view f.now) form.entry)) }
{
    let at = fault_in(version, sort, form?)?;
    Some(Refusal::plain(at, code))
}

// The tests of a file's shape in their order.
#[tactic(auto, unfolding(crate::specs::Files::shape_fault), using(crate::proofs::Refusing::both_refusing))]
fn first_fault(end: u32, top: &[Form<'_>]) -> Option<Refusal>
    ensures { result ≡ refusing (shape_fault end (map form_view top.now)) }
{
    let version = version_of(top);
    let walked = or_else(
        walk_fault(NOT_IN_GRAMMAR, version, Sort::Domain, top_at(top, 1)),
        walk_fault(NOT_IN_GRAMMAR, version, Sort::Problem, top_at(top, 2)),
    );
    let rest = or_else(rest_fault(top_at(top, 3), top_at(top, 4)), walked);
    let problem = or_else(head_fault(NO_PROBLEM, "problem", end, top_at(top, 2)), rest);
    let domain = or_else(
        head_fault(NO_DOMAIN, "domain", end, top_at(top, 1)),
        problem,
    );
    or_else(version_fault(end, top_at(top, 0)), domain)
}

/// The first fault of shape, with its code from 120 to 124, of a text of `end` bytes that spells these top forms. There is
/// none exactly where they are a version, a domain and a problem of the grammar, and then maybe a list headed `world`.
pub fn shape_fault(end: u32, top: &[Form<'_>]) -> Option<Refusal>
    ensures fault { result ≡ refusing (shape_fault end (map form_view top.now)) }
    ensures none { IsNone result ↔ IsFile (map form_view top.now) }
{
    first_fault(end, top)
}

/// The first form of the world, where there is one, that is not what the grammar has at its place, with the code 300.
pub fn world_shape_fault(top: &[Form<'_>]) -> Option<Refusal>
    ensures { result ≡ refusing (world_shape_fault (map form_view top.now)) }
{
    let (version, world) = (version_of(top), top_at(top, 3));
    walk_fault(WORLD_NOT_IN_GRAMMAR, version, Sort::World, world)
}
