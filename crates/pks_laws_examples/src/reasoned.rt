//! Worked proofs: which are accepted, and how an explanation prints, each computed and the clause of a function that does nothing.

ghost use Rattle.std.specs.Prelude.{◌≡◌, true, false, [], ◌∷◌, codes};
ghost use Rattle.pks_terms.specs.Syntax.{affirmed, negated};
ghost use Rattle.pks_terms.specs.Actions.{Set, Unset, Clear, Assign};
ghost use Rattle.pks_terms.specs.Problems.{StartKf, StartKx, StartLcw};
ghost use Rattle.pks_terms.specs.Branching.{AsTrue, AsFalse};
ghost use Rattle.pks_terms.specs.Trees.{Goal, Do};
ghost use Rattle.pks_terms.specs.Proofs.{FactKx, Went, BySame, ByKeep, ByEffect, ByGrow};
ghost use Rattle.pks_terms.specs.Accepting.{accepts};
ghost use Rattle.pks_terms.specs.Explained.{owed, IsExplained, known_fact_text, explained_text};
ghost use Rattle.pks_laws_examples.specs.Worked.{equal, unequal, alive, poison, lawn, lawn_names, full, second_tub, splashed, empty_all, splash, tubs};
ghost use Rattle.pks_laws_examples.specs.Reasoned.{open_door, door, door_given, door_entry, door_names, poured, seen, alive_kept, poison_found, no_poison_found, poison_entry, shelf_names, proved, always, cup, pan, picked, shelved, door_open, any_shelved, only_shelved, shelf, acted, pan_or_door, door_by_only, pan_by_others, cup_by_range, put_by_effect, pan_by_grow, pan_by_clear, cup_by_keep};

/// The door is open by the first initial item; there is no second.
pub fn door_is_open_by_the_first_item()
    ensures { (accepts door [] (door_given 1) open_door ≡ true) × (accepts door [] (door_given 2) open_door ≡ false) }
{}

/// Where nothing is done one literal is owed, and the proof of it is a line.
pub fn door_is_explained()
    ensures { IsExplained door Goal (door_entry ∷ []) × (explained_text door_names (door_entry ∷ []) ≡ codes "known (open)\n1 moment 0 (open) given 1\n") }
{}

/// That the lawn is still alive after pouring isn't shown: the effect isn't barred.
pub fn pouring_is_not_barred()
    ensures { accepts lawn poured alive_kept alive ≡ false }
{}

/// Where the lawn was seen dead there was poison, and where it was seen alive there was none.
pub fn looking_shows_the_past()
    ensures { (accepts lawn (seen AsFalse) poison_found poison ≡ true) × (accepts lawn (seen AsTrue) no_poison_found (negated poison) ≡ true) × (accepts lawn (seen AsTrue) poison_found poison ≡ false) }
{}

/// The text of the proof that there was poison.
pub fn poison_as_printed()
    ensures { explained_text lawn_names (poison_entry ∷ []) ≡ codes "known (poison)\n1 moment 0 (alive) given 1\n2 moment 2 (not (alive)) side 1\n3 moment 1 (not (alive)) back by 2\n4 moment 0 (poison) must by 1 3\n5 moment 1 (poison) keep by 4\n6 moment 2 (poison) keep by 5\n" }
{}

/// A group and a region print as lists.
pub fn groups_and_regions_as_printed()
    ensures { (known_fact_text shelf_names (FactKx pan_or_door) ≡ codes "(kx (shelved pan) (open))") × (known_fact_text shelf_names (only_shelved (shelved cup ∷ shelved picked ∷ [])) ≡ codes "(lcw (shelved _) (shelved cup) (shelved (picked)))") }
{}

/// A plan owes the preconditions of its actions, each before its action, and its goals.
pub fn second_tub_owes_three()
    ensures { owed (tubs second_tub) [] (Do empty_all (Do splash Goal)) ≡ (Went empty_all ∷ [], negated (full second_tub)) ∷ (Went empty_all ∷ Went splash ∷ [], splashed) ∷ (Went empty_all ∷ Went splash ∷ [], negated (full second_tub)) ∷ [] }
{}

/// Groups and regions.
pub fn shelf_tells_of_the_door()
    ensures { (accepts (shelf (StartKx pan_or_door ∷ StartLcw any_shelved ∷ []) []) [] door_by_only door_open ≡ true)
        × (accepts (shelf (StartKx pan_or_door ∷ StartKf door_open ∷ []) []) [] pan_by_others (negated (affirmed (shelved pan))) ≡ true) }
{}

/// The last object that is left is the value, where all others are cited to be none.
pub fn cup_is_left()
    ensures { (accepts (shelf (StartKf (unequal picked pan) ∷ StartKf (affirmed (shelved picked)) ∷ []) []) [] (cup_by_range (1 ∷ [])) (affirmed (shelved cup)) ≡ true)
        × (accepts (shelf (StartKf (unequal picked pan) ∷ StartKf (affirmed (shelved picked)) ∷ []) []) [] (cup_by_range []) (affirmed (shelved cup)) ≡ false) }
{}

/// What is put on the shelf is there, where later effects are barred from undoing it; of another thing they are. Said of what is picked it must be steady.
pub fn put_on_the_shelf()
    ensures { (accepts (shelf (StartKf (equal picked cup) ∷ []) (always (Set (shelved picked)) ∷ [])) acted (put_by_effect cup) (affirmed (shelved cup)) ≡ true)
        × (accepts (shelf (StartKf (equal picked cup) ∷ []) (always (Set (shelved picked)) ∷ always (Unset (shelved pan)) ∷ [])) acted (put_by_effect cup) (affirmed (shelved cup)) ≡ true)
        × (accepts (shelf (StartKf (equal picked cup) ∷ []) (always (Set (shelved picked)) ∷ always (Clear any_shelved) ∷ [])) acted (put_by_effect cup) (affirmed (shelved cup)) ≡ false)
        × (accepts (shelf (StartKf (equal picked cup) ∷ []) (always (Set (shelved picked)) ∷ always (Assign 0 [] pan) ∷ [])) acted (put_by_effect cup) (affirmed (shelved cup)) ≡ true)
        × (accepts (shelf (StartKf (equal picked cup) ∷ []) (always (Set (shelved picked)) ∷ always (Assign 0 [] pan) ∷ [])) acted (put_by_effect picked) (affirmed (shelved picked)) ≡ false) }
{}

/// A value that is assigned is the value then, and the old one isn't kept, as it is where nothing is assigned.
pub fn picked_anew()
    ensures { (accepts (shelf (StartKf (equal picked cup) ∷ []) (always (Assign 0 [] pan) ∷ [])) acted (proved 1 (equal picked pan) ByEffect [] ∷ []) (equal picked pan) ≡ true)
        × (accepts (shelf (StartKf (equal picked cup) ∷ []) (always (Assign 0 [] pan) ∷ [])) acted cup_by_keep (equal picked cup) ≡ false)
        × (accepts (shelf (StartKf (equal picked cup) ∷ []) (always (Set (shelved picked)) ∷ [])) acted cup_by_keep (equal picked cup) ≡ true) }
{}

/// A region grows by what is put into it, and isn't kept.
pub fn shelf_grows()
    ensures { (accepts (shelf (StartKf (equal picked cup) ∷ StartLcw any_shelved ∷ []) (always (Set (shelved picked)) ∷ [])) acted (pan_by_grow (only_shelved (shelved cup ∷ [])) ByGrow) (negated (affirmed (shelved pan))) ≡ true)
        × (accepts (shelf (StartKf (equal picked cup) ∷ StartLcw any_shelved ∷ []) (always (Set (shelved picked)) ∷ [])) acted (pan_by_grow (only_shelved []) ByGrow) (negated (affirmed (shelved pan))) ≡ false)
        × (accepts (shelf (StartKf (equal picked cup) ∷ StartLcw any_shelved ∷ []) (always (Set (shelved picked)) ∷ [])) acted (pan_by_grow (only_shelved []) ByKeep) (negated (affirmed (shelved pan))) ≡ false) }
{}

/// A region that is cleared is empty, where no later effect fills it.
pub fn shelf_is_cleared()
    ensures { (accepts (shelf [] (always (Clear any_shelved) ∷ [])) acted pan_by_clear (negated (affirmed (shelved pan))) ≡ true)
        × (accepts (shelf [] (always (Clear any_shelved) ∷ always (Set (shelved pan)) ∷ [])) acted pan_by_clear (negated (affirmed (shelved pan))) ≡ false) }
{}

/// Two things differ.
pub fn pan_is_no_cup()
    ensures { (accepts (shelf [] []) [] (proved 0 (unequal pan cup) BySame [] ∷ []) (unequal pan cup) ≡ true) × (accepts (shelf [] []) [] (proved 0 (unequal pan pan) BySame [] ∷ []) (unequal pan pan) ≡ false) }
{}
