//! The laws on ends, each the clause of a function that does nothing.

ghost use Rattle.std.specs.Prelude.{◌↔◌, ◌≡◌, ℕ, Option};
ghost use Rattle.pks_terms.specs.Sets.{Each};
ghost use Rattle.pks_terms.specs.Moments.{AreMomentsOf};
ghost use Rattle.pks_terms.specs.Problems.{Problem};
ghost use Rattle.pks_terms.specs.Settling.{History, At, last_moment};
ghost use Rattle.pks_terms.specs.Trees.{Tree, Derives, IsBestAt};
ghost use Rattle.pks_terms.specs.Valid.{IsValid};
ghost use Rattle.pks_terms.specs.Versions.{IsNow};
ghost use Rattle.pks_laws_forget.specs.Looks.{IsLook, AreWithout};
ghost use Rattle.pks_laws_forget.specs.Transparent.{AreSetsAlong};
ghost use Rattle.pks_laws_forget.specs.Ends.{IsAtObjects, KeepsAtObjects, IsAlong, AddsNoRegion, HasObjectGroups, HaveSameEnds};

/// Where each aim is one of the last moment, and groups and regions speak of objects alone at each moment and whatever is done, histories with
/// the same last databases and the same ends have the same derived trees.
pub fn equal_ends_give_equal_trees()
    ensures { (p : Problem) (h g : History) (t : Tree) → IsValid p → Each IsNow p.goal → KeepsAtObjects p IsAtObjects → AreMomentsOf p h → AreSetsAlong h → IsAlong IsAtObjects h → AreMomentsOf p g → AreSetsAlong g → IsAlong IsAtObjects g →
        last_moment h ≡ last_moment g → HaveSameEnds p h g → (Derives p (At h) t ↔ Derives p (At g) t) }
{}

/// And so the same best tree of at most a depth.
pub fn equal_ends_give_equal_plans()
    ensures { (p : Problem) (h g : History) (n : ℕ) (o : Option Tree) → IsValid p → Each IsNow p.goal → KeepsAtObjects p IsAtObjects → AreMomentsOf p h → AreSetsAlong h → IsAlong IsAtObjects h → AreMomentsOf p g → AreSetsAlong g → IsAlong IsAtObjects g →
        last_moment h ≡ last_moment g → HaveSameEnds p h g → (IsBestAt p (At h) n o ↔ IsBestAt p (At g) n o) }
{}

/// Where there are no regions and no action adds one, it is enough that groups speak of objects alone at each moment of the two.
pub fn equal_ends_without_regions_give_equal_trees()
    ensures { (p : Problem) (h g : History) (t : Tree) → IsValid p → Each IsNow p.goal → AddsNoRegion p → AreMomentsOf p h → AreSetsAlong h → IsAlong HasObjectGroups h → AreMomentsOf p g → AreSetsAlong g → IsAlong HasObjectGroups g →
        last_moment h ≡ last_moment g → HaveSameEnds p h g → (Derives p (At h) t ↔ Derives p (At g) t) }
{}

/// And so for the best tree of at most a depth.
pub fn equal_ends_without_regions_give_equal_plans()
    ensures { (p : Problem) (h g : History) (n : ℕ) (o : Option Tree) → IsValid p → Each IsNow p.goal → AddsNoRegion p → AreMomentsOf p h → AreSetsAlong h → IsAlong HasObjectGroups h → AreMomentsOf p g → AreSetsAlong g → IsAlong HasObjectGroups g →
        last_moment h ≡ last_moment g → HaveSameEnds p h g → (IsBestAt p (At h) n o ↔ IsBestAt p (At g) n o) }
{}

/// A history without some moments before looks has the same last databases and the same ends.
pub fn looks_keep_ends()
    ensures { (p : Problem) (h g : History) → IsValid p → AreMomentsOf p h → AreSetsAlong h → AreWithout (IsLook p) h.start h.steps g.start g.steps → (last_moment h ≡ last_moment g) × HaveSameEnds p h g }
{}
