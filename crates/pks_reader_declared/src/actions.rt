//! The parameters of an action, and the actions of a domain.
ghost use Rattle.std.specs.Prelude.{◌≡◌, ◌++◌, ◌≤◌, length, OnOk, IfOk};
ghost use Rattle.pks_text.specs.FormViews.{form_view, forms_view};
ghost use Rattle.pks_reader_names.specs.Tables.{declare};
ghost use Rattle.pks_reader_names.specs.Parts.{only, behind_head};
ghost use Rattle.pks_reader_names.specs.Declarations.{first_in, name_of, name_faults, table_from, entries_faults, type_faults, parameter_in, parameters_in, parameters_section, actions_among};
ghost use Rattle.pks_reader_names.specs.Meaning.{all_noted};
ghost use Rattle.pks_reader_names.specs.Views.{found_of, names_of};

use crate::declaring::{
    Types, check_name, declare, first_in, name_of, only_type, past_first_names, second_in,
    type_named,
};
use indexmap::IndexMap;
use pks_reader_names::parts::{behind_head, first_forms};
use pks_reader_names::report::Report;
use pks_reader_shape::walk::is_headed;
use pks_text::Form;
use std::alloc::{AllocError, Global};

#[tactic(auto, using(pks_reader_names::proofs::Noting::noted_both))]
fn parameter_entry<'s>(
    report: &mut Report,
    types: &Types<'s>,
    table: &mut IndexMap<&'s str, u8>,
    form: &Form<'s>,
) -> Result<(), AllocError>
    requires { length (names_of types.now) ≤ 16 }
    ensures faults { OnOk result (found_of report.new ≡ all_noted (found_of report.old) (name_faults (names_of table.old) (first_in (form_view form.now)) ++ only (type_faults (names_of types.now)) (behind_head (form_view form.now)))) }
    ensures table { OnOk result (names_of table.new ≡ declare (names_of table.old) (name_of (first_in (form_view form.now))) (parameter_in (names_of types.now) (form_view form.now))) }
{
    let word = first_in(form);
    check_name(report, table, word);
    only_type(report, types, behind_head(form));
    declare(table, name_of(word), type_named(types, second_in(form)))?;
    Ok(())
}

#[tactic(auto, using(pks_reader_names::proofs::Noting::noted_step, pks_reader_names::proofs::Noting::drop_view))]
fn parameter_entries<'s>(
    report: &mut Report,
    types: &Types<'s>,
    table: &mut IndexMap<&'s str, u8>,
    forms: &[Form<'s>],
) -> Result<(), AllocError>
    requires { length (names_of types.now) ≤ 16 }
    ensures faults { OnOk result (found_of report.new ≡ all_noted (found_of report.old) (entries_faults first_in (parameter_in (names_of types.now)) (λ f. only (type_faults (names_of types.now)) (behind_head f)) (names_of table.old) (forms_view forms.now))) }
    ensures table { OnOk result (names_of table.new ≡ table_from first_in (parameter_in (names_of types.now)) (names_of table.old) (forms_view forms.now)) }
{
    for form in forms {
        parameter_entry(report, types, table, form)?;
    }
    Ok(())
}

/// The parameters of an action, and their faults. Memory may be wanting.
#[tactic(auto, using(pks_reader_names::proofs::Noting::noted_both), unfolding(pks_reader_names::specs::Declarations::parameters_section))]
pub fn parameters<'s>(
    alloc: Global,
    report: &mut Report,
    types: &Types<'s>,
    forms: &[Form<'s>],
) -> Result<IndexMap<&'s str, u8>, AllocError>
    requires { length (names_of types.now) ≤ 16 }
    ensures faults { OnOk result (found_of report.new ≡ all_noted (found_of report.old) (parameters_section (names_of types.now) (forms_view forms.now))) }
    ensures table { IfOk result (λ table. names_of table ≡ parameters_in (names_of types.now) (forms_view forms.now)) }
{
    let mut table = IndexMap::new(alloc);
    parameter_entries(report, types, &mut table, first_forms(4, forms))?;
    past_first_names(report, &table, 4, forms);
    Ok(table)
}

/// The actions, which are the last sections of a domain.
pub fn actions_among<'f, 's>(forms: &'f [Form<'s>]) -> &'f [Form<'s>]
    ensures { forms_view result.now ≡ actions_among (forms_view forms.now) }
{
    for i in 0..forms.len() {
        if is_headed("action", &forms[i]) {
            return &forms[i..];
        }
    }
    &[]
}
