//! Which landmarks are counted: each goal literal alone, and from there back over preconditions that the actions which meet one ask for.
ghost use Rattle.std.specs.Prelude.{◌≡◌, ◌≤◌, ◌⊎◌, [], ◌∷◌, map, length, true, false, IfOk, OnOk, IfSome};
ghost use Rattle.pks_terms.specs.Views.{literal_of, literals_in};
ghost use Rattle.pks_search_distance.specs.Gained.{ground_action_of};
ghost use Rattle.pks_search_distance.specs.Landmarks.{asks, is_of_mark, has_plain, some_lacks, is_light, AddsMarks, AddsBehind, AreAsking, IsWider};
ghost use Rattle.pks_search_distance.specs.Marked.{landmark_of, landmarks_of};
ghost use Rattle.pks_search_distance.specs.declared.marking.TheConstants.{MOST_LITERALS};

use crate::ground_actions::GroundAction;
use crate::landmarks::{Landmark, is_one_of, may_reach, most_reached, reaches};
use crate::wanted::is_plain;
use pks_terms::literal::Literal;
use std::alloc::{AllocError, Global};

/// How much ground actions times literals may be for landmarks to be looked for.
const MOST_WORK: usize = 10_000;

/// How many literals a landmark may have.
const MOST_LITERALS: usize = 32;

/// How many preconditions are tried.
const MOST_TRIES: usize = 4;

/// How far a goal literal is gone back from.
const MOST_STEPS: usize = 4;

/// The literal alone.
fn alone(alloc: Global, l: &Literal) -> Result<Landmark, AllocError>
    ensures { IfOk result (λ c. landmark_of c ≡ literal_of l.now ∷ []) }
{
    let literals = vec![in alloc; *l]?;
    Ok(Landmark { literals })
}

/// Adds the literal, where it isn't there yet.
#[tactic(auto, using(crate::proofs::Gathering::wider_itself, crate::proofs::Gathering::wider_push, crate::proofs::Gathering::added_push))]
fn add_once(l: &Literal, to: &mut Vec<Literal>) -> Result<(), AllocError>
    ensures wider { OnOk result (IsWider (literals_in to.old.items) (literals_in to.new.items)) }
    ensures added { OnOk result (is_of_mark (literal_of l.now) (literals_in to.new.items) ≡ true) }
{
    if !is_one_of(to.as_slice(), l) {
        to.push(*l)?;
    }
    Ok(())
}

/// Adds the precondition at the place, if there is a plain one and room for it; answers whether there is.
#[tactic(auto, using(crate::proofs::Gathering::wider_itself))]
fn add_pre(x: &GroundAction, place: usize, to: &mut Vec<Literal>) -> Result<bool, AllocError>
    ensures wider { OnOk result (IsWider (literals_in to.old.items) (literals_in to.new.items)) }
    ensures asked { IfOk result (λ b. b ≡ true → asks (ground_action_of x.now) (literals_in to.new.items) ≡ true) }
    ensures lacking { IfOk result (λ b. b ≡ false → (has_plain (ground_action_of x.now) place ≡ false) ⊎ (MOST_LITERALS ≤ length to.new.items)) }
{
    let Some(l) = x.pre.as_slice().get(place) else {
        return Ok(false);
    };
    if !is_plain(&l.atom) || to.len() >= MOST_LITERALS {
        return Ok(false);
    }
    add_once(l, to)?;
    Ok(true)
}

/// Adds the precondition at the place of each ground action that may meet the landmark; answers whether each has one and there is room.
#[tactic(auto, using(crate::proofs::Gathering::wider_itself, crate::proofs::Gathering::wider_on))]
fn add_pres(
    ground_actions: &[GroundAction],
    literals: &[Literal],
    place: usize,
    to: &mut Vec<Literal>,
) -> Result<bool, AllocError>
    ensures wider { OnOk result (IsWider (literals_in to.old.items) (literals_in to.new.items)) }
    ensures asked { IfOk result (λ b. b ≡ true → AreAsking (map ground_action_of ground_actions.now) (literals_in literals.now) (literals_in to.new.items)) }
    ensures lacking { IfOk result (λ b. b ≡ false → (some_lacks (map ground_action_of ground_actions.now) (literals_in literals.now) place ≡ true) ⊎ (MOST_LITERALS ≤ length to.new.items)) }
{
    let [x, rest @ ..] = ground_actions else {
        return Ok(true);
    };
    if may_reach(x, literals) {
        let is_there = add_pre(x, place, to)?;
        if !is_there {
            return Ok(false);
        }
    }
    let others = add_pres(rest, literals, place, to)?;
    Ok(others)
}

/// The landmark with the precondition at the place of each ground action that may meet it, if each has one.
fn with_preconditions(
    alloc: Global,
    ground_actions: &[GroundAction],
    c: &Landmark,
    place: usize,
) -> Result<Option<Landmark>, AllocError>
    ensures wider { IfOk result (λ o. IfSome o (λ d. IsWider (landmark_of c.now) (landmark_of d))) }
    ensures asked { IfOk result (λ o. IfSome o (λ d. AreAsking (map ground_action_of ground_actions.now) (landmark_of c.now) (landmark_of d))) }
{
    let old = c.literals.as_slice();
    let mut literals = old.to_vec(alloc)?;
    let all = add_pres(ground_actions, old, place, &mut literals)?;
    if !all || literals.len() == old.len() {
        return Ok(None);
    }
    Ok(Some(Landmark { literals }))
}

/// Whether some ground action may meet the landmark, and none that may do so may meet so many of the others.
fn is_light(ground_actions: &[GroundAction], marks: &[Landmark], c: &Landmark, most: usize) -> bool
    ensures { result ≡ is_light (map ground_action_of ground_actions.now) (landmarks_of marks.now) (landmark_of c.now) most }
{
    let mut is_reached = false;
    for x in ground_actions {
        if may_reach(x, c.literals.as_slice()) {
            if reaches(x, marks) >= most {
                return false;
            }
            is_reached = true;
        }
    }
    is_reached
}

/// The landmark gone back by one precondition, where none of the ground actions may then meet more than `most`.
fn wider(
    alloc: Global,
    ground_actions: &[GroundAction],
    marks: &[Landmark],
    c: &Landmark,
    most: usize,
) -> Result<Option<Landmark>, AllocError>
    ensures wider { IfOk result (λ o. IfSome o (λ d. IsWider (landmark_of c.now) (landmark_of d))) }
    ensures asked { IfOk result (λ o. IfSome o (λ d. AreAsking (map ground_action_of ground_actions.now) (landmark_of c.now) (landmark_of d))) }
    ensures light { IfOk result (λ o. IfSome o (λ d. is_light (map ground_action_of ground_actions.now) (landmarks_of marks.now) (landmark_of d) most ≡ true)) }
{
    for place in 0..MOST_TRIES {
        if let Some(d) = with_preconditions(alloc, ground_actions, c, place)? {
            if is_light(ground_actions, marks, &d, most) {
                return Ok(Some(d));
            }
        }
    }
    Ok(None)
}

/// The same landmark once more.
fn copy_landmark(alloc: Global, c: &Landmark) -> Result<Landmark, AllocError>
    ensures { IfOk result (λ d. landmark_of d ≡ landmark_of c.now) }
{
    let literals = c.literals.as_slice().to_vec(alloc)?;
    Ok(Landmark { literals })
}

/// Adds the landmarks that are found going back from the landmark, as many as there are steps.
#[tactic(auto, using(crate::proofs::Gathering::behind_none))]
fn add_chain(
    alloc: Global,
    ground_actions: &[GroundAction],
    c: &Landmark,
    most: usize,
    steps: usize,
    to: &mut Vec<Landmark>,
) -> Result<(), AllocError>
    ensures { OnOk result (AddsBehind (landmark_of c.now) (landmarks_of to.old.items) (landmarks_of to.new.items)) }
{
    if steps == 0 {
        return Ok(());
    }
    let Some(next) = wider(alloc, ground_actions, to.as_slice(), c, most)? else {
        return Ok(());
    };
    let again = copy_landmark(alloc, &next)?;
    to.push(again)?;
    add_chain(alloc, ground_actions, &next, most, steps - 1, to)?;
    Ok(())
}

/// Adds each of the literals alone.
#[tactic(auto, using(crate::proofs::Gathering::marks_none))]
fn add_alone(alloc: Global, wanted: &[Literal], to: &mut Vec<Landmark>) -> Result<(), AllocError>
    ensures { OnOk result (AddsMarks (literals_in wanted.now) (landmarks_of to.old.items) (landmarks_of to.new.items)) }
{
    if let [l, rest @ ..] = wanted {
        let one = alone(alloc, l)?;
        to.push(one)?;
        add_alone(alloc, rest, to)?;
    }
    Ok(())
}

/// Adds those that are found going back from each of the literals.
#[tactic(auto, using(crate::proofs::Gathering::marks_none))]
fn add_chains(
    alloc: Global,
    ground_actions: &[GroundAction],
    wanted: &[Literal],
    most: usize,
    to: &mut Vec<Landmark>,
) -> Result<(), AllocError>
    ensures { OnOk result (AddsMarks (literals_in wanted.now) (landmarks_of to.old.items) (landmarks_of to.new.items)) }
{
    if let [l, rest @ ..] = wanted {
        let one = alone(alloc, l)?;
        add_chain(alloc, ground_actions, &one, most, MOST_STEPS, to)?;
        add_chains(alloc, ground_actions, rest, most, to)?;
    }
    Ok(())
}

/// The landmarks that are counted beside the goal's literals, these among them: none where there are no others.
pub(crate) fn landmarks_for(
    alloc: Global,
    ground_actions: &[GroundAction],
    wanted: &[Literal],
) -> Result<Vec<Landmark>, AllocError>
    ensures { IfOk result (λ cs. AddsMarks (literals_in wanted.now) [] (landmarks_of cs.items)) }
{
    let none = Vec::new(alloc);
    if ground_actions.len().saturating_mul(wanted.len()) > MOST_WORK {
        return Ok(none);
    }
    let mut marks = Vec::new(alloc);
    add_alone(alloc, wanted, &mut marks)?;
    let most = most_reached(ground_actions, marks.as_slice());
    add_chains(alloc, ground_actions, wanted, most, &mut marks)?;
    if marks.len() == wanted.len() {
        return Ok(none);
    }
    Ok(marks)
}
