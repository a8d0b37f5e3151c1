//! The dialogue of a plan.
ghost use Rattle.std.specs.Prelude.{◌≡◌, ◌≤◌, ◌<◌, ◌+◌, ◌*◌, ◌^◌, ℕ, IfSome, IfOk, OnOk, length};
ghost use Rattle.pks_terms.specs.declared.limits.TheConstants.{MOST_OBJECTS};
ghost use Rattle.pks_terms.specs.Trees.{depth, chain_depth};
ghost use Rattle.pks_terms.specs.Talk.{ending, talk, talk_from, talk_case};
ghost use Rattle.pks_terms.specs.Views.{instance_of, signature_of, names_of};
ghost use Rattle.pks_plan.specs.TreeViews.{tree_of, chain_of};
ghost use Rattle.pks_exec.specs.Runs.{ending_of};
ghost use Rattle.pks_agent.specs.Leading.{moment, Led, HasTalkCause, IsSafe, IsLed, Tells, Does};
ghost use Rattle.pks_agent.specs.Rooms.{argument_questions, argument_count, questions_of, case_questions, texts_in, Opens, IsDesk, IsRoomOf};

use crate::asking::{ask_each, ask_truth, ask_value};
use crate::desks::{Desk, action_line};
use crate::ends::TalkEnd;
use crate::peers::Peer;
use crate::questions::{behind, behind_arguments};
use crate::rooms::Room;
use pks_exec::{End, end_words};
use pks_plan::{CaseChain, Tree};
use pks_terms::ids::ObjId;
use pks_terms::problem::Problem;
use pks_terms::schema::Instance;
use pks_terms::term::front;

/// Tells a line.
fn tell<P: Peer>(peer: &mut P, text: &[u8]) -> Result<(), TalkEnd>
    ensures { (k : ℕ) → Tells text.now k result (moment P.answers P.said P.sends P.receipts P.kept P.sure peer.old) (moment P.answers P.said P.sends P.receipts P.kept P.sure peer.new) }
{
    match peer.tell(text) {
        Ok(()) => Ok(()),
        Err(fault) => Err(TalkEnd::Failed(fault)),
    }
}

/// Tells an end, and ends with it.
fn tell_end<P: Peer>(end: End, peer: &mut P) -> Result<End, TalkEnd>
    ensures { IsLed (moment P.answers P.said P.sends P.receipts P.kept P.sure peer.old) (moment P.answers P.said P.sends P.receipts P.kept P.sure peer.new) result (ending (ending_of end)) }
{
    match tell(peer, end_words(end).as_bytes()) {
        Ok(()) => Ok(end),
        Err(stop) => Err(stop),
    }
}

/// Asks for the values of the arguments, and then tells the action. Says the number of the next answer.
fn act<P: Peer>(
    p: &Problem<'_>,
    step: &Instance,
    questions: &[Vec<u8>],
    desk: &mut Desk,
    peer: &mut P,
    k: u32,
) -> Result<u32, TalkEnd>
    requires objects { length p.now.signature.objects ≤ MOST_OBJECTS }
    requires questions { Opens (texts_in questions.now) (argument_questions (names_of p.now) (instance_of step.now).arguments) }
    requires desk { IsDesk (names_of p.now) desk.old }
    requires numbers { k + 4 < 2 ^ 32 }
    ensures leads { Does (signature_of p.now.signature) (names_of p.now) (instance_of step.now) k
        (k + argument_count (instance_of step.now).arguments) result (moment P.answers P.said P.sends P.receipts P.kept P.sure peer.old) (moment P.answers P.said P.sends P.receipts P.kept P.sure peer.new) }
    ensures next { IfOk result (λ next. next ≡ k + argument_count (instance_of step.now).arguments) }
    ensures few { IfOk result (λ next. next ≤ k + 4) }
    ensures desk { OnOk result (IsDesk (names_of p.now) desk.new) }
{
    desk.arguments.clear();
    match ask_each(
        p,
        front(&step.args, step.n),
        questions,
        &mut desk.arguments,
        peer,
        k,
    ) {
        Ok(next) => {
            action_line(p, step.act, desk.arguments.as_slice(), &mut desk.line);
            match tell(peer, desk.line.as_slice()) {
                Ok(()) => Ok(next),
                Err(stop) => Err(stop),
            }
        }
        Err(stop) => Err(stop),
    }
}

/// The cases of a term and the value that was told, of which one case is wanted.
#[derive(Clone, Copy)]
struct Sought<'k> {
    cases: &'k CaseChain,
    value: ObjId,
}

/// Leads the dialogue of the tree, whose first answer has the number `k`.
#[cycle(dialogue)]
fn walk<P: Peer>(
    p: &Problem<'_>,
    t: &Tree,
    questions: &[Vec<u8>],
    desk: &mut Desk,
    peer: &mut P,
    k: u32,
) -> Result<End, TalkEnd>
    requires objects { length p.now.signature.objects ≤ MOST_OBJECTS }
    requires questions { Opens (texts_in questions.now) (questions_of (names_of p.now) (tree_of t.now)) }
    requires desk { IsDesk (names_of p.now) desk.old }
    requires numbers { k + 4 * depth (tree_of t.now) < 2 ^ 32 }
    ensures { IsLed (moment P.answers P.said P.sends P.receipts P.kept P.sure peer.old) (moment P.answers P.said P.sends P.receipts P.kept P.sure peer.new) result
        (talk_from (signature_of p.now.signature) (names_of p.now) (tree_of t.now) k) }
{
    match t {
        Tree::Goal => tell_end(End::Goal, peer),
        Tree::Impossible => tell_end(End::Impossible, peer),
        Tree::Act { step, next } => {
            match act(p, step, questions, desk, peer, k) {
                Ok(asked) => {
                    let others = behind_arguments(front(&step.args, step.n), questions);
                    walk(p, next, others, desk, peer, asked)
                }
                Err(stop) => Err(stop),
            }
        }
        Tree::Branch { yes, no, .. } => {
            match ask_truth(peer, questions[0].as_slice(), k) {
                Ok(true) => walk(p, yes, &questions[1..], desk, peer, k + 1),
                Ok(false) => {
                    let others = behind(yes, &questions[1..]);
                    walk(p, no, others, desk, peer, k + 1)
                }
                Err(stop) => Err(stop),
            }
        }
        Tree::Cases { term, cases } => {
            match ask_value(p, term, peer, questions[0].as_slice(), k) {
                Ok(value) => {
                    let sought = Sought { cases, value };
                    walk_case(p, sought, &questions[1..], desk, peer, k + 1)
                }
                Err(stop) => Err(stop),
            }
        }
    }
}

/// Leads the dialogue of the value's case.
#[cycle(dialogue)]
fn walk_case<P: Peer>(
    p: &Problem<'_>,
    sought: Sought<'_>,
    questions: &[Vec<u8>],
    desk: &mut Desk,
    peer: &mut P,
    k: u32,
) -> Result<End, TalkEnd>
    requires objects { length p.now.signature.objects ≤ MOST_OBJECTS }
    requires questions { Opens (texts_in questions.now) (case_questions (names_of p.now) (chain_of sought.cases.now)) }
    requires desk { IsDesk (names_of p.now) desk.old }
    requires numbers { k + 4 * chain_depth (chain_of sought.cases.now) < 2 ^ 32 }
    ensures { IsLed (moment P.answers P.said P.sends P.receipts P.kept P.sure peer.old) (moment P.answers P.said P.sends P.receipts P.kept P.sure peer.new) result
        (talk_case (signature_of p.now.signature) (names_of p.now) (chain_of sought.entry.cases.now) sought.entry.value.0 k) }
{
    match sought.cases {
        CaseChain::Empty => tell_end(End::NoCase, peer),
        CaseChain::More { object, tree, rest } => {
            if *object == sought.value {
                walk(p, tree, questions, desk, peer, k)
            } else {
                let others = behind(tree, questions);
                let later = Sought {
                    cases: rest,
                    value: sought.value,
                };
                walk_case(p, later, others, desk, peer, k)
            }
        }
    }
}

/// Leads a caller through the tree by its answers (`docs/FORMAT.md`, "Dialogues"), and takes no memory. It asks that the room was made of
/// the problem and the tree, and that objects can be numbered.
///
/// Where the peer tells its answers, the text said is the lines of the dialogue that comes of them, or where the peer failed a front of
/// these. `Misfit` comes exactly where the answer with its number isn't fit or is too long, `Silent` exactly where it is missing, `Failed` only
/// where that count of the peer's faults rose, which stands still else, and only where a line has more than 8,192 bytes or there are more
/// lines than calls of the peer that surely don't fail. The answers that are left are those that the dialogue doesn't take; of one that is
/// too long the end may be left, and where sending failed they are those that no line before asked for.
#[tactic(auto, unfolding(pks_terms::specs::Talk::talk))]
pub fn converse<P: Peer>(
    p: &Problem<'_>,
    t: &Tree,
    peer: &mut P,
    room: &mut Room,
) -> Result<End, TalkEnd>
    requires objects { length p.now.signature.objects ≤ MOST_OBJECTS }
    requires room { IsRoomOf (names_of p.now) (tree_of t.now) room.old }
    ensures led { IfSome (P.answers peer.old) (λ answers. Led (P.said peer.old) (P.said peer.new) answers (P.answers peer.new) result (talk (signature_of p.now.signature) (names_of p.now) (tree_of t.now) answers)) }
    ensures safe { IfSome (P.answers peer.old) (λ answers. IsSafe (P.sure peer.old) result (talk (signature_of p.now.signature) (names_of p.now) (tree_of t.now) answers)) }
    ensures cause { HasTalkCause (P.sends peer.old) (P.sends peer.new) (P.receipts peer.old) (P.receipts peer.new) result }
    ensures kept { P.kept peer.new ≡ P.kept peer.old }
{
    walk(p, t, room.questions.as_slice(), &mut room.desk, peer, 1)
}
