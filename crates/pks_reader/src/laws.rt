//! Laws, each the clause of a function that does nothing (`docs/FORMAT.md`).
ghost use Rattle.std.specs.Prelude.{◌≡◌};
ghost use Rattle.pks_terms.specs.Printed.{Text};
ghost use Rattle.pks_terms.specs.Answers.{File};
ghost use Rattle.pks_reader.specs.Inputs.{IsRead};

/// An input reads as one file.
#[tactic(auto, using(crate::proofs::Once::one_file))]
pub fn inputs_are_one_file()
    ensures { (input : Text) (f g : File) → IsRead input f → IsRead input g → f ≡ g }
{}
