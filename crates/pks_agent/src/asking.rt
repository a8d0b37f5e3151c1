//! Questions, and what is told as an answer.
ghost use Rattle.std.specs.Prelude.{◌≡◌, ◌≤◌, ◌+◌, ◌^◌, ◌<◌, ◌++◌, ◌∷◌, [], map, length, vec_len, vec_capacity, IfSome, IfOk, OnOk};
ghost use Rattle.pks_terms.specs.declared.limits.TheConstants.{MOST_OBJECTS};
ghost use Rattle.pks_terms.specs.Sets.{Each};
ghost use Rattle.pks_terms.specs.Syntax.{Inner};
ghost use Rattle.pks_terms.specs.Signatures.{range_of};
ghost use Rattle.pks_terms.specs.Printed.{Text};
ghost use Rattle.pks_terms.specs.Talk.{truth_told, object_named, asking};
ghost use Rattle.pks_terms.specs.Views.{object_of, inner_of, term_of, signature_of, names_of};
ghost use Rattle.pks_agent.specs.Answers.{answer_text};
ghost use Rattle.pks_agent.specs.Asking.{IsAsked, HasTold};
ghost use Rattle.pks_agent.specs.Leading.{moment, Leads, each_behind};
ghost use Rattle.pks_agent.specs.Rooms.{argument_questions, argument_count, texts_in, Opens, IsSpoken};

use crate::answers::Answer;
use crate::ends::TalkEnd;
use crate::fit;
use crate::peers::{Heard, Peer};
use pks_terms::ids::ObjId;
use pks_terms::problem::Problem;
use pks_terms::term::{Inner, Term};

/// Asks the question and takes its answer, the one with the number `k`.
fn ask<P: Peer>(peer: &mut P, question: &[u8], k: u32, into: &mut Answer) -> Result<(), TalkEnd>
    ensures { IsAsked (moment P.answers P.said P.sends P.receipts P.kept P.sure peer.old) (moment P.answers P.said P.sends P.receipts P.kept P.sure peer.new) question.now k (answer_text into.new) result }
{
    match peer.ask(question, into) {
        Ok(Heard::Line) => Ok(()),
        Ok(Heard::Long) => Err(TalkEnd::Misfit(k)),
        Ok(Heard::End) => Err(TalkEnd::Silent(k)),
        Err(fault) => Err(TalkEnd::Failed(fault)),
    }
}

/// Asks for a truth.
pub(crate) fn ask_truth<P: Peer>(peer: &mut P, question: &[u8], k: u32) -> Result<bool, TalkEnd>
    ensures { Leads (λ b. b) (asking truth_told question.now) k (k + 1) result (moment P.answers P.said P.sends P.receipts P.kept P.sure peer.old) (moment P.answers P.said P.sends P.receipts P.kept P.sure peer.new) }
{
    let mut answer = Answer::empty();
    ask(peer, question, k, &mut answer)?;
    match fit::truth(answer.text()) {
        Some(truth) => Ok(truth),
        None => Err(TalkEnd::Misfit(k)),
    }
}

/// Asks for the value of the term.
pub(crate) fn ask_value<P: Peer>(
    p: &Problem<'_>,
    t: &Term,
    peer: &mut P,
    question: &[u8],
    k: u32,
) -> Result<ObjId, TalkEnd>
    requires { length p.now.signature.objects ≤ MOST_OBJECTS }
    ensures { Leads object_of (asking (object_named (names_of p.now) (range_of (signature_of p.now.signature) (term_of t.now))) question.now) k (k + 1) result (moment P.answers P.said P.sends P.receipts P.kept P.sure peer.old) (moment P.answers P.said P.sends P.receipts P.kept P.sure peer.new) }
{
    let mut answer = Answer::empty();
    ask(peer, question, k, &mut answer)?;
    match fit::value(p, t, answer.text()) {
        Some(object) => Ok(object),
        None => Err(TalkEnd::Misfit(k)),
    }
}

/// Adds the argument to those before it, and asks for its value where it is an application. Says the number of the next answer.
fn ask_argument<P: Peer>(
    p: &Problem<'_>,
    t: &Inner,
    questions: &[Vec<u8>],
    told: &mut Vec<Inner>,
    peer: &mut P,
    k: u32,
) -> Result<u32, TalkEnd>
    requires objects { length p.now.signature.objects ≤ MOST_OBJECTS }
    requires questions { Opens (texts_in questions.now) (argument_questions (names_of p.now) (inner_of t.now ∷ [])) }
    requires room { vec_len told.old < vec_capacity told.old }
    requires spoken { Each IsSpoken (map inner_of told.old.items) }
    requires numbers { k + 1 < 2 ^ 32 }
    ensures leads { Leads (λ next. map inner_of told.new.items) (each_behind (signature_of p.now.signature) (names_of p.now) (map inner_of told.old.items) (inner_of t.now ∷ []))
        k (k + argument_count (inner_of t.now ∷ [])) result (moment P.answers P.said P.sends P.receipts P.kept P.sure peer.old) (moment P.answers P.said P.sends P.receipts P.kept P.sure peer.new) }
    ensures next { IfOk result (λ next. next ≡ k + argument_count (inner_of t.now ∷ [])) }
    ensures few { IfOk result (λ next. next ≤ k + 1) }
    ensures spoken { OnOk result (Each IsSpoken (map inner_of told.new.items)) }
    ensures count { OnOk result (vec_len told.new ≡ vec_len told.old + 1) }
    ensures room { OnOk result (vec_capacity told.new ≡ vec_capacity told.old) }
{
    match t {
        Inner::App { .. } => match ask_value(p, &t.as_term(), peer, questions[0].as_slice(), k) {
            Ok(object) => {
                told.push_reserved(Inner::Obj(object));
                Ok(k + 1)
            }
            Err(stop) => Err(stop),
        },
        Inner::Obj(_) | Inner::Param(_) => {
            told.push_reserved(*t);
            Ok(k)
        }
    }
}

/// Adds the arguments to those before them, and asks for the value of each that is an application. Says the number of the next answer.
pub(crate) fn ask_each<P: Peer>(
    p: &Problem<'_>,
    arguments: &[Inner],
    questions: &[Vec<u8>],
    told: &mut Vec<Inner>,
    peer: &mut P,
    k: u32,
) -> Result<u32, TalkEnd>
    requires objects { length p.now.signature.objects ≤ MOST_OBJECTS }
    requires questions { Opens (texts_in questions.now) (argument_questions (names_of p.now) (map inner_of arguments.now)) }
    requires room { vec_len told.old + length arguments.now ≤ vec_capacity told.old }
    requires spoken { Each IsSpoken (map inner_of told.old.items) }
    requires numbers { k + length arguments.now < 2 ^ 32 }
    ensures leads { Leads (λ next. map inner_of told.new.items) (each_behind (signature_of p.now.signature) (names_of p.now) (map inner_of told.old.items) (map inner_of arguments.now))
        k (k + argument_count (map inner_of arguments.now)) result (moment P.answers P.said P.sends P.receipts P.kept P.sure peer.old) (moment P.answers P.said P.sends P.receipts P.kept P.sure peer.new) }
    ensures told { IfOk result (λ next. HasTold arguments.now k next told.old told.new) }
{
    if arguments.is_empty() {
        return Ok(k);
    }
    match ask_argument(p, &arguments[0], questions, told, peer, k) {
        Ok(next) => ask_each(
            p,
            &arguments[1..],
            &questions[(next - k) as usize..],
            told,
            peer,
            next,
        ),
        Err(stop) => Err(stop),
    }
}
