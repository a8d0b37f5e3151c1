//! Disjunctive landmarks: literals of which one is true wherever the goal is met; how many are unmet, and how many of them one action may
//! meet.
ghost use Rattle.std.specs.Prelude.{◌≡◌, map, not};
ghost use Rattle.std.specs.List.{list_any};
ghost use Rattle.pks_terms.specs.Views.{literal_of, literals_in, effect_of};
ghost use Rattle.pks_world.specs.Contents.{world_of};
ghost use Rattle.pks_search_distance.specs.Counted.{may_meet};
ghost use Rattle.pks_search_distance.specs.Gained.{ground_action_of};
ghost use Rattle.pks_search_distance.specs.Landmarks.{is_met, unmet_marks, is_of_mark, may_reach, reaches, most_reached};
ghost use Rattle.pks_search_distance.specs.Marked.{landmark_of, landmarks_of};

use crate::ground_actions::GroundAction;
use crate::wanted::may_meet;
use pks_terms::literal::Literal;
use pks_terms::schema::Effect;
use pks_world::World;

/// Literals of which one is true wherever the goal is met.
#[derive(Drop)]
pub(crate) struct Landmark {
    pub(crate) literals: Vec<Literal>,
}

/// Whether one of the literals is true in the world.
fn is_met(w: &World, literals: &[Literal]) -> bool
    ensures { result ≡ is_met (world_of w.now) (literals_in literals.now) }
{
    for l in literals {
        if w.holds(l) {
            return true;
        }
    }
    false
}

/// Whether the landmark is unmet in the world.
fn is_unmet(w: &World, c: &Landmark) -> bool
    ensures { result ≡ not (is_met (world_of w.now) (landmark_of c.now)) }
{
    !is_met(w, c.literals.as_slice())
}

/// How many of the landmarks are unmet in the world.
#[tactic(auto, using(crate::proofs::Marks::counted_unmet))]
pub(crate) fn unmet_marks(w: &World, marks: &[Landmark]) -> usize
    ensures { result ≡ unmet_marks (world_of w.now) (landmarks_of marks.now) }
{
    marks.iter().filter(|c| is_unmet(w, *c)).count()
}

/// Whether the literal is one of these.
#[tactic(auto, unfolding(pks_terms::specs::Orders::literal_eq))]
pub(crate) fn is_one_of(literals: &[Literal], l: &Literal) -> bool
    ensures { result ≡ is_of_mark (literal_of l.now) (literals_in literals.now) }
{
    for k in literals {
        if *k == *l {
            return true;
        }
    }
    false
}

/// Whether one of the first literals is one of the second.
fn asks_one(pre: &[Literal], literals: &[Literal]) -> bool
    ensures { result ≡ list_any (λ l. is_of_mark l (literals_in literals.now)) (literals_in pre.now) }
{
    for l in pre {
        if is_one_of(literals, l) {
            return true;
        }
    }
    false
}

/// Whether the effects may make one of the literals true.
fn some_met(effects: &[Effect], literals: &[Literal]) -> bool
    ensures { result ≡ list_any (may_meet (map effect_of effects.now)) (literals_in literals.now) }
{
    for l in literals {
        if may_meet(effects, l) {
            return true;
        }
    }
    false
}

/// Whether the ground action may meet the landmark where it is unmet.
pub(crate) fn may_reach(x: &GroundAction, literals: &[Literal]) -> bool
    ensures { result ≡ may_reach (ground_action_of x.now) (literals_in literals.now) }
{
    !asks_one(x.pre.as_slice(), literals) && some_met(x.effects.as_slice(), literals)
}

/// The same of a landmark.
fn reaches_it(x: &GroundAction, c: &Landmark) -> bool
    ensures { result ≡ may_reach (ground_action_of x.now) (landmark_of c.now) }
{
    may_reach(x, c.literals.as_slice())
}

/// How many of the landmarks the ground action may meet.
#[tactic(auto, using(crate::proofs::Marks::counted_reaches))]
pub(crate) fn reaches(x: &GroundAction, marks: &[Landmark]) -> usize
    ensures { result ≡ reaches (ground_action_of x.now) (landmarks_of marks.now) }
{
    marks.iter().filter(|c| reaches_it(x, *c)).count()
}

/// The most of them that one of the ground actions may meet.
pub(crate) fn most_reached(ground_actions: &[GroundAction], marks: &[Landmark]) -> usize
    ensures { result ≡ most_reached (map ground_action_of ground_actions.now) (landmarks_of marks.now) }
{
    match ground_actions {
        [] => 0,
        [ground_action, rest @ ..] => reaches(ground_action, marks).max(most_reached(rest, marks)),
    }
}
