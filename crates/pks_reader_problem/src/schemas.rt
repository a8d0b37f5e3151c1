//! What an action states where its parameters are declared, and the faults of its sections.
ghost use Rattle.std.specs.Prelude.{◌≡◌, ◌≤◌, ◌+◌, ◌*◌, ◌-◌, map, take, codes, OnOk, IfOk};
ghost use Rattle.pks_terms.specs.Sets.{Each};
ghost use Rattle.pks_terms.specs.Counts.{SchemaCounts};
ghost use Rattle.pks_terms.specs.ValidProblems.{AssignsToPlace};
ghost use Rattle.pks_terms.specs.Views.{schema_of};
ghost use Rattle.pks_text.specs.FormViews.{forms_view};
ghost use Rattle.pks_reader_names.specs.Parts.{section};
ghost use Rattle.pks_reader_names.specs.Declarations.{parts_section};
ghost use Rattle.pks_reader_names.specs.Meaning.{all_noted};
ghost use Rattle.pks_reader_names.specs.Views.{found_of, scope_view};
ghost use Rattle.pks_reader_problem.specs.Sizes.{IsSmall};
ghost use Rattle.pks_reader_problem.specs.Spans.{bytes_in};
ghost use Rattle.pks_reader_problem.specs.Stated.{all, numeral, cost_in, stated_in, bytes_of};

use crate::lists::{adds, effects, queries, senses};
use crate::tables::sorts;
use pks_reader_names::parts::{section, text_of};
use pks_reader_names::report::Report;
use pks_reader_names::scope::Scope;
use pks_terms::schema::Schema;
use pks_text::Form;
use std::alloc::{AllocError, Global};

// One digit more.
fn step(n: u32, byte: u8) -> u32
    requires { n ≤ 300000 }
    ensures { result ≡ n * 10 + (byte - 48) }
{
    n * 10 + u32::from(byte.saturating_sub(48))
}

// The number with these digits, of which there are at most four.
fn numeral(bytes: &[u8]) -> u32
    ensures { result ≡ numeral 0 (take 4 bytes.now) }
{
    match bytes {
        [] => 0,
        [a, rest @ ..] => {
            let one = step(0, *a);
            match rest {
                [] => one,
                [b, rest @ ..] => {
                    let two = step(one, *b);
                    match rest {
                        [] => two,
                        [c, rest @ ..] => {
                            let three = step(two, *c);
                            match rest {
                                [] => three,
                                [d, _rest @ ..] => step(three, *d),
                            }
                        }
                    }
                }
            }
        }
    }
}

// The cost that is written, or 1.
fn cost(forms: &[Form<'_>]) -> u32
    ensures { result ≡ cost_in (forms_view forms.now) }
{
    match forms {
        [] => 1,
        [word, _rest @ ..] => numeral(text_of(word).as_bytes()),
    }
}

/// The action that the parts of its list state, where its parameters are declared, and the faults of the sections that may
/// name these. The one error is want of memory.
#[tactic(auto, using(pks_reader_names::proofs::Noting::noted_both), unfolding(crate::specs::Stated::stated_in, pks_reader_names::specs::Declarations::parts_section))]
pub fn schema<'s>(
    alloc: Global,
    report: &mut Report,
    scope: &Scope<'_, 's>,
    name: &'s str,
    forms: &[Form<'s>],
) -> Result<Schema<'s>, AllocError>
    requires { IsSmall (scope_view scope.now) }
    ensures faults { OnOk result (found_of report.new ≡ all_noted (found_of report.old) (parts_section (scope_view scope.now) (forms_view forms.now))) }
    ensures says { IfOk result (λ x. schema_of x ≡ stated_in (scope_view scope.now) (forms_view forms.now)) }
    ensures name { IfOk result (λ x. x.name.now ≡ name.now) }
    ensures counts { IfOk result (λ x. SchemaCounts x) }
    ensures places { IfOk result (λ x. Each (λ e. AssignsToPlace e.target) x.effects) }
    ensures spans { IfOk result (λ x. map (λ a. bytes_in a.span) x.adds ≡ all bytes_of (section (codes "knows") (forms_view forms.now))) }
{
    let params = sorts(alloc, scope.parameters)?;
    let pre = queries(alloc, report, scope, section("pre", forms))?;
    let effects = effects(alloc, report, scope, section("effects", forms))?;
    let senses = senses(alloc, report, scope, section("senses", forms))?;
    let adds = adds(alloc, report, scope, section("knows", forms))?;
    Ok(Schema {
        name,
        cost: cost(section("cost", forms)),
        params,
        pre,
        effects,
        senses,
        adds,
    })
}
