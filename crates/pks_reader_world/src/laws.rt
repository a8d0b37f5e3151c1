//! Laws, each the clause of a function that does nothing (`docs/FORMAT.md`).
ghost use Rattle.std.specs.Prelude.{◌≡◌, ◌↔◌, true, [], codes};
ghost use Rattle.pks_terms.specs.Signatures.{Signature};
ghost use Rattle.pks_text.specs.Forms.{Forms};
ghost use Rattle.pks_reader_names.specs.Scopes.{Scope};
ghost use Rattle.pks_reader_names.specs.Parts.{section};
ghost use Rattle.pks_laws_reader.specs.Facts.{EachForm};
ghost use Rattle.pks_reader_world.specs.Facts.{Given, world_faults};
ghost use Rattle.pks_reader_world.specs.Stated.{world_in};
ghost use Rattle.pks_reader_world.specs.Typing.{HasItsValue};
ghost use Rattle.pks_reader_world.specs.Places.{is_full, IsFull};

/// The walk over the places of a signature finds none without a value exactly where each place has one.
pub fn full_sections_give_each_place_a_value()
    ensures { (s : Signature) (given : Given) → (is_full s given ≡ true) ↔ IsFull s given }
{}

/// In a world without a fault each place that is listed has the value that is listed for it.
pub fn faultless_worlds_have_the_listed_values()
    ensures { (s : Scope) (fs : Forms) → world_faults s fs ≡ [] → EachForm (HasItsValue s (world_in s fs)) (section (codes "values") fs) }
{}
