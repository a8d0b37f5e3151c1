//! The next answer of an input.
ghost use Rattle.std.specs.Prelude.{◌≡◌, ◌≤◌, ◌<◌, ◌∷◌, ◌++◌, [], true, false, IsTrue, OnOk, IsErrOf, length};
ghost use Rattle.pks_io.specs.Causes.{Rose};
ghost use Rattle.pks_agent.specs.Answers.{answer_text};
ghost use Rattle.pks_agent.specs.Hearing.{Hears};
ghost use Rattle.pks_agent.specs.Streams.{coming, has_no_feed, answers_behind, answers_coming};

use crate::ahead::ReadAhead;
use crate::answers::Answer;
use crate::peers::{Heard, PeerFault};
use pks_io::Source;

/// Takes what is left of the next answer, which begins with what is held. It is taken up to its line feed, or up to 65 bytes.
#[tactic(auto, using(crate::proofs::Streams::heard_last, crate::proofs::Streams::heard_line, crate::proofs::Streams::heard_long, crate::proofs::Streams::heard_more, crate::proofs::Lines::no_feed_more))]
fn hear_on<S: Source>(
    ahead: &mut ReadAhead,
    source: &mut S,
    into: &mut Answer,
) -> Result<Heard, PeerFault>
    requires no_feed { IsTrue (has_no_feed (answer_text into.old)) }
    ensures hears { Hears (answers_behind (answer_text into.old) (coming ahead.old (S.left source.old))) (answers_coming (coming ahead.new (S.left source.new))) (answer_text into.new) result }
    ensures later { S.faults source.old ≤ S.faults source.new }
    ensures quiet { OnOk result (S.faults source.new ≡ S.faults source.old) }
    ensures fault { IsErrOf result PeerFault.Receive → Rose (S.faults source.old) (S.faults source.new) }
    ensures other { IsErrOf result PeerFault.Send → ⊥ }
{
    match ahead.next(source) {
        Err(_) => Err(PeerFault::Receive),
        Ok(None) => {
            if into.is_empty() {
                Ok(Heard::End)
            } else {
                Ok(Heard::Line)
            }
        }
        Ok(Some(byte)) => {
            if byte == b'\n' {
                Ok(Heard::Line)
            } else if into.push(byte) {
                hear_on(ahead, source, into)
            } else {
                Ok(Heard::Long)
            }
        }
    }
}

/// Takes the next answer. The source is asked only while the answer isn't whole.
#[tactic(auto, using(crate::proofs::Streams::heard_from_none))]
pub(crate) fn hear<S: Source>(
    ahead: &mut ReadAhead,
    source: &mut S,
    into: &mut Answer,
) -> Result<Heard, PeerFault>
    ensures hears { Hears (answers_coming (coming ahead.old (S.left source.old))) (answers_coming (coming ahead.new (S.left source.new))) (answer_text into.new) result }
    ensures later { S.faults source.old ≤ S.faults source.new }
    ensures quiet { OnOk result (S.faults source.new ≡ S.faults source.old) }
    ensures fault { IsErrOf result PeerFault.Receive → Rose (S.faults source.old) (S.faults source.new) }
    ensures other { IsErrOf result PeerFault.Send → ⊥ }
{
    *into = Answer::empty();
    hear_on(ahead, source, into)
}
