//! The walk over forms, and the first that is not what the grammar has at its place (`docs/FORMAT.md`).

ghost use Rattle.std.specs.Prelude.{◌≡◌, ◌↔◌, IsNone, map, option_map};
ghost use Rattle.pks_text.specs.FormViews.{form_view, forms_view};
ghost use Rattle.pks_reader_shape.specs.Grammar.{is_allowed, production, head_of_section, is_among, with_head};
ghost use Rattle.pks_reader_shape.specs.GrammarViews.{headed_view};
ghost use Rattle.pks_reader_shape.specs.Language.{IsOf};
ghost use Rattle.pks_reader_shape.specs.Walk.{head_of, is_headed, sort_at, parts_after, is_wanting, lacks, is_fixed, is_miscounted, fault_in, fault_among};

use crate::grammar::{Part, Sort, Version};
use crate::table::{Headed, lists_of};
use crate::words::{is_name, is_number, is_variable};
use pks_text::Form;

// Whether the word may stand where the sort is wanted.
#[tactic(auto, unfolding(crate::specs::Grammar::is_allowed))]
fn is_allowed(sort: Sort, text: &str) -> bool
    ensures { result ≡ is_allowed sort text.now }
{
    let bytes = text.as_bytes();
    match sort {
        Sort::Head => true,
        Sort::Name | Sort::Kind => is_name(bytes),
        Sort::Variable => is_variable(bytes),
        Sort::Number => is_number(bytes),
        Sort::Term => is_name(bytes) || is_variable(bytes),
        Sort::Slot => (is_name(bytes) || is_variable(bytes)) || text == "_",
        _ => false,
    }
}

fn is_among(head: &str, heads: &[&str]) -> bool
    ensures { result ≡ is_among head.now (map (λ h. h.now) heads.now) }
{
    for other in heads {
        if head == *other {
            return true;
        }
    }
    false
}

fn with_head(
    head: &str,
    fixed: &'static [Headed],
    otherwise: Option<&'static [Part]>,
) -> Option<&'static [Part]>
    ensures { option_map (λ ps. ps.now) result ≡ with_head head.now (map headed_view fixed.now) (option_map (λ ps. ps.now) otherwise.entry) }
{
    for one in fixed {
        if head == one.head {
            return Some(one.parts);
        }
    }
    otherwise
}

// The parts of a list of the sort, by its head.
#[tactic(auto, unfolding(crate::specs::Grammar::production))]
fn production(version: Version, sort: Sort, head: &str) -> Option<&'static [Part]>
    ensures { option_map (λ ps. ps.now) result ≡ production version sort head.now }
{
    let all = lists_of(version, sort);
    let otherwise = if is_among(head, all.barred) {
        None
    } else {
        all.other
    };
    with_head(head, all.fixed, otherwise)
}

#[tactic(auto, unfolding(crate::specs::Grammar::head_of_section))]
fn head_of_section(version: Version, sort: Sort) -> &'static str
    ensures { result.now ≡ head_of_section version sort }
{
    match lists_of(version, sort).fixed {
        [first, ..] => first.head,
        [] => "",
    }
}

/// The word that the parts of a list begin with, or no bytes where they do not begin with a word.
pub fn head_of<'s>(parts: &[Form<'s>]) -> &'s str
    ensures { result.now ≡ head_of (forms_view parts.now) }
{
    match parts.first() {
        Some(Form::Name(token)) => token.text,
        _ => "",
    }
}

/// Whether the form is a list that begins with this word.
pub fn is_headed(head: &str, form: &Form<'_>) -> bool
    ensures { result ≡ is_headed head.now (form_view form.now) }
{
    matches!(form, Form::List { parts, .. } if head_of(parts) == head)
}

// The sort for which the next part stands, and the parts that may come behind it.
fn next_part<'p>(version: Version, parts: &'p [Part], form: &Form<'_>) -> (Sort, &'p [Part])
    ensures sort { result.0 ≡ sort_at version parts.now (form_view form.now) }
    ensures rest { result.1.now ≡ parts_after version parts.now (form_view form.now) }
{
    for (i, part) in parts.iter().enumerate() {
        match part {
            Part::One(sort) => return (*sort, &parts[i + 1..]),
            Part::Many(sort) => return (*sort, &parts[i..]),
            Part::Maybe(sort) => {
                if is_headed(head_of_section(version, *sort), form) {
                    return (*sort, &parts[i + 1..]);
                }
            }
        }
    }
    (Sort::Nothing, &[])
}

fn is_wanting(parts: &[Part]) -> bool
    ensures { result ≡ is_wanting parts.now }
{
    for part in parts {
        if let Part::One(_) = part {
            return true;
        }
    }
    false
}

fn is_fixed(parts: &[Part]) -> bool
    ensures { result ≡ is_fixed parts.now }
{
    for part in parts {
        match part {
            Part::One(_) => {}
            Part::Many(_) | Part::Maybe(_) => return false,
        }
    }
    true
}

fn lacks(version: Version, parts: &[Part], forms: &[Form<'_>]) -> bool
    ensures { result ≡ lacks version parts.now (forms_view forms.now) }
{
    let mut rest = parts;
    for form in forms {
        rest = next_part(version, rest, form).1;
    }
    is_wanting(rest)
}

#[tactic(auto, using(crate::proofs::Counts::count_view))]
fn is_miscounted(version: Version, parts: &[Part], forms: &[Form<'_>]) -> bool
    ensures { result ≡ is_miscounted version parts.now (forms_view forms.now) }
{
    lacks(version, parts, forms) || (is_fixed(parts) && parts.len() < forms.len())
}

// The place of the first fault in a form of the sort.
#[cycle(walking)]
#[tactic(auto, unfolding(crate::specs::Walk::fault_in))]
fn walk_form(version: Version, sort: Sort, form: &Form<'_>) -> Option<u32>
    ensures { result ≡ fault_in version sort (form_view form.now) }
{
    match form {
        Form::Name(token) if is_allowed(sort, token.text) => None,
        Form::Name(token) => Some(token.span.start),
        Form::List { parts, span } => match production(version, sort, head_of(parts)) {
            Some(wanted) if !is_miscounted(version, wanted, parts) => {
                walk_parts(version, wanted, parts)
            }
            _ => Some(span.start),
        },
    }
}

// The place of the first fault in the parts of a list.
#[cycle(walking)]
#[tactic(auto, unfolding(crate::specs::Walk::fault_among))]
fn walk_parts(version: Version, parts: &[Part], forms: &[Form<'_>]) -> Option<u32>
    ensures { result ≡ fault_among version parts.now (forms_view forms.now) }
{
    let mut rest = parts;
    for form in forms {
        let (sort, after) = next_part(version, rest, form);
        let fault = walk_form(version, sort, form);
        if fault.is_some() {
            return fault;
        }
        rest = after;
    }
    None
}

/// The place of the first form, from the left and each list before its parts, that is not what the grammar has at its place
/// where a form of the sort is wanted. There is none exactly where the form is of the sort.
pub fn fault_in(version: Version, sort: Sort, form: &Form<'_>) -> Option<u32>
    ensures place { result ≡ fault_in version sort (form_view form.now) }
    ensures none { IsNone result ↔ IsOf version sort (form_view form.now) }
{
    walk_form(version, sort, form)
}
