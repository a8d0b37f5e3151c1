//! The laws, each the clause of a function that does nothing.

ghost use Rattle.std.specs.Prelude.{◌≡◌, option_map, true, false, [], ◌∷◌, ℕ};
ghost use Rattle.pks_terms.specs.Syntax.{object, Equality};
ghost use Rattle.pks_terms.specs.Moments.{AreMomentsOf};
ghost use Rattle.pks_terms.specs.Problems.{Problem};
ghost use Rattle.pks_terms.specs.Searching.{root_choice};
ghost use Rattle.pks_terms.specs.Settling.{History, At};
ghost use Rattle.pks_terms.specs.Trees.{Tree, Derives, depth, cost};
ghost use Rattle.pks_terms.specs.Valid.{IsValid};
ghost use Rattle.pks_laws_forget.specs.Transparent.{AreSetsAlong};
ghost use Rattle.pks_laws_symmetry.specs.Trivial.{is_so};
ghost use Rattle.pks_laws_symmetry.specs.Renamed.{renamed_choice, AreImagesAlong};
ghost use Rattle.pks_laws_symmetry.specs.Fixed.{IsSymmetry};

/// Where a renaming leaves the actions' texts and the goal as they are, a tree derived at a history has an image in a tree
/// derived at the history's image: as deep, as dear, and with the image of the choice at its root.
pub fn images_have_equal_trees()
    ensures { (p : Problem) (f g : ℕ → ℕ) (h k : History) (t : Tree) → IsValid p → IsSymmetry p f g → AreImagesAlong f g h k → AreMomentsOf p h → AreMomentsOf p k → AreSetsAlong h → AreSetsAlong k → Derives p (At h) t
        → (u : Tree) × Derives p (At k) u × (depth u ≡ depth t) × (cost p u ≡ cost p t) × (root_choice u ≡ option_map (renamed_choice f) (root_choice t)) }
{}

/// An object is itself and not another one; that it is another one is no trivial literal, nor that it isn't itself.
pub fn of_two_objects_one_sign_is_trivial()
    ensures { (is_so Equality (object 3 ∷ object 3 ∷ []) true ≡ true) × (is_so Equality (object 3 ∷ object 5 ∷ []) false ≡ true) × (is_so Equality (object 3 ∷ object 5 ∷ []) true ≡ false) × (is_so Equality (object 3 ∷ object 3 ∷ []) false ≡ false) }
{}
