//! The laws of derived adds, each the clause of a function that does nothing.

ghost use Rattle.std.specs.Prelude.{◌≡◌, List};
ghost use Rattle.pks_terms.specs.Sets.{IsIn};
ghost use Rattle.pks_terms.specs.Worlds.{World};
ghost use Rattle.pks_terms.specs.Databases.{Five};
ghost use Rattle.pks_terms.specs.Meaning.{IsTrueOf};
ghost use Rattle.pks_terms.specs.Closure.{Outcome, Next};
ghost use Rattle.pks_terms.specs.Actions.{Add, Schema, Instance};
ghost use Rattle.pks_terms.specs.Progress.{Progress};
ghost use Rattle.pks_terms.specs.Problems.{Problem, schema_of};
ghost use Rattle.pks_terms.specs.Typed.{IsTyped, AreJustified};
ghost use Rattle.pks_terms.specs.Branching.{instances};
ghost use Rattle.pks_terms.specs.Knowledge.{grounded, after_action, observations};
ghost use Rattle.pks_terms.specs.Shapes.{with_derived_adds};
ghost use Rattle.pks_derive.specs.Replacing.{with_adds};

/// Each derived add has a case in the action that has these adds in place of its own (`docs/RULES.md`, "Justified adds").
pub fn derived_adds_are_justified()
    ensures { (sc : Schema) → AreJustified (with_derived_adds sc) }
{}

/// An action that is a choice keeps databases true of two worlds in which the same is seen after it, and doesn't clash,
/// whatever adds with a case stand in place of its own (`docs/RULES.md`, "Justified adds").
pub fn adds_with_a_case_keep_truth()
    ensures { (p : Problem) (w w' : World) (d : Five) (i : Instance) (adds : List Add) (o : Outcome) → IsTyped p → IsTrueOf p.signature w w' d → IsIn i (instances p d) → AreJustified (with_adds (schema_of p i.action) adds) → observations p (after_action p w (grounded w i)) (grounded w i) ≡ observations p (after_action p w' (grounded w' i)) (grounded w' i) → Progress p.signature d (with_adds (schema_of p i.action) adds) i o → (e : Five) × (o ≡ Next e) × IsTrueOf p.signature (after_action p w (grounded w i)) (after_action p w' (grounded w' i)) e }
{}

/// So it does with the derived adds in place of its own (`docs/RULES.md`, "Justified adds").
pub fn derived_adds_keep_truth()
    ensures { (p : Problem) (w w' : World) (d : Five) (i : Instance) (o : Outcome) → IsTyped p → IsTrueOf p.signature w w' d → IsIn i (instances p d) → observations p (after_action p w (grounded w i)) (grounded w i) ≡ observations p (after_action p w' (grounded w' i)) (grounded w' i) → Progress p.signature d (with_derived_adds (schema_of p i.action)) i o → (e : Five) × (o ≡ Next e) × IsTrueOf p.signature (after_action p w (grounded w i)) (after_action p w' (grounded w' i)) e }
{}
