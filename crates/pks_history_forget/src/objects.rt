//! Literals that speak of objects alone.
ghost use Rattle.std.specs.Prelude.{◌≡◌, ◌&&◌, is_some};
ghost use Rattle.std.specs.List.{list_all};
ghost use Rattle.pks_terms.specs.Syntax.{as_object};
ghost use Rattle.pks_terms.specs.Views.{term_of, literals_in};
ghost use Rattle.pks_terms.specs.Objects.{is_of_objects, is_place};

use pks_terms::literal::Literal;
use pks_terms::objects::{is_object, is_of_objects, is_place};
use pks_terms::term::Term;

/// Whether one side of an equation is a place and the other an object.
pub(crate) fn gives_value(left: &Term, right: &Term) -> bool
    ensures { result ≡ (is_place (term_of left.now) && is_some (as_object (term_of right.now))) }
{
    is_place(left) && is_object(right)
}

/// Whether each of the literals is of a predicate at objects.
pub(crate) fn are_of_objects(ls: &[Literal]) -> bool
    ensures { result ≡ list_all is_of_objects (literals_in ls.now) }
{
    for l in ls {
        if !is_of_objects(l) {
            return false;
        }
    }
    true
}
