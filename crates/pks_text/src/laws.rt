//! The law that no text is left out, the clause of a function that does nothing. Texts are in `docs/FORMAT.md`.

ghost use Rattle.std.specs.Prelude.{◌⊎◌, ℕ, List};
ghost use Rattle.pks_text.specs.Forms.{Forms, Spells};
ghost use Rattle.pks_text.specs.Faults.{IsFirstFault};
ghost use Rattle.pks_text.specs.declared.tree.FormFault.{FormFault};

/// Each text spells forms and has no fault, or has a first fault.
pub fn each_text_spells_forms_or_has_a_fault()
    ensures { (text : List ℕ) → ((fs : Forms) × Spells text fs × ((fault : FormFault) → IsFirstFault text fault → ⊥)) ⊎ ((fault : FormFault) × IsFirstFault text fault) }
{}
