//! A peer in memory that fails at chosen calls.
ghost use Rattle.std.specs.Prelude.{◌≡◌, ◌≤◌, ◌*◌, ◌↔◌, ◌++◌, ◌∷◌, [], min, length, vec_len, vec_capacity, Some, true, false, IsTrue, IsErr, IfOk, OnOk, OnErr, Contains};
ghost use Rattle.std.specs.Io.KnownBytes.{Appends};
ghost use Rattle.pks_io.specs.Writing.{AppendsFront};
ghost use Rattle.pks_terms.specs.Printed.{line};
ghost use Rattle.pks_agent.specs.Answers.{answer_text};
ghost use Rattle.pks_agent.specs.Hearing.{Stay, Hears, HasPeerCause, IsServed};
ghost use Rattle.pks_agent.specs.Rooms.{texts_in};

use crate::answers::Answer;
use crate::peers::{Heard, Peer, PeerFault};
use pks_terms::limits::LONGEST_LINE;
use pks_terms::sequence::Sequence;
use std::alloc::{AllocError, Global};

/// A list of answers.
pub type AnswerList = Sequence<Vec<u8>>;

// Whether a call is one of those that fail.
fn is_listed(failing: &[u32], call: u32) -> bool
    ensures { IsTrue result ↔ Contains failing.now call }
{
    failing.iter().any(|n| *n == call)
}

/// Answers in memory, and the lines of at most 96 calls, each of at most 8,192 bytes. It fails exactly at the listed calls, at longer
/// lines and from call 97 on.
#[derive(Drop)]
pub struct MemPeer {
    answers: AnswerList,
    taken: usize,
    failing: Vec<u32>,
    calls: u32,
    text: Vec<u8>,
    sends: u64,
    receipts: u64,
    ghost few: { vec_len text ≤ min calls 96 * 8193 },
    ghost reserved: { 96 * 8193 ≤ vec_capacity text },
}

impl MemPeer {
    ghost use Rattle.pks_agent.specs.Memory.{peer_text, peer_answers, peer_failing, peer_calls, peer_sends, peer_receipts, next_call, Fails};

    /// Gives these answers, and fails at the calls whose numbers, from 1, are listed. It takes the memory for all that may be said; an
    /// `Err` is want of memory.
    pub fn new(alloc: Global, answers: AnswerList, failing: Vec<u32>) -> Result<MemPeer, AllocError>
        ensures answers { IfOk result (λ x. peer_answers x ≡ texts_in answers) }
        ensures text { IfOk result (λ x. peer_text x ≡ []) }
        ensures failing { IfOk result (λ x. peer_failing x ≡ failing.items) }
        ensures calls { IfOk result (λ x. peer_calls x ≡ 0) }
        ensures sends { IfOk result (λ x. peer_sends x ≡ 0) }
        ensures receipts { IfOk result (λ x. peer_receipts x ≡ 0) }
    {
        let text = Vec::with_capacity(alloc, 96 * 8193)?;
        Ok(MemPeer {
            answers,
            taken: 0,
            failing,
            calls: 0,
            text,
            sends: 0,
            receipts: 0,
        })
    }

    /// The text said so far.
    pub fn text(&self) -> &[u8]
        ensures { result.now ≡ peer_text self.now }
    {
        &self.text
    }

    // Counts a call, and says its line, but where the call fails.
    fn say(&mut self, text: &[u8]) -> bool
        ensures said { IsTrue result → peer_text self.new ≡ peer_text self.old ++ line text.now }
        ensures unsaid { result ≡ false → peer_text self.new ≡ peer_text self.old }
        ensures fails { result ≡ false ↔ Fails (peer_failing self.old) (next_call (peer_calls self.old)) text.now }
        ensures calls { peer_calls self.new ≡ next_call (peer_calls self.old) }
        ensures answers { peer_answers self.new ≡ peer_answers self.old }
        ensures failing { peer_failing self.new ≡ peer_failing self.old }
        ensures sends { peer_sends self.new ≡ peer_sends self.old }
        ensures receipts { peer_receipts self.new ≡ peer_receipts self.old }
    {
        self.calls = self.calls.saturating_add(1);
        if is_listed(&self.failing, self.calls) || text.len() > LONGEST_LINE || self.calls > 96 {
            return false;
        }
        self.text.extend_from_slice(text).unwrap();
        self.text.extend_from_slice(b"\n").unwrap();
        true
    }

    // Takes the next answer.
    fn take(&mut self, into: &mut Answer) -> Heard
        ensures hears { Hears (Some (peer_answers self.old)) (Some (peer_answers self.new)) (answer_text into.new) (Ok result) }
        ensures text { peer_text self.new ≡ peer_text self.old }
        ensures calls { peer_calls self.new ≡ peer_calls self.old }
        ensures failing { peer_failing self.new ≡ peer_failing self.old }
        ensures sends { peer_sends self.new ≡ peer_sends self.old }
        ensures receipts { peer_receipts self.new ≡ peer_receipts self.old }
    {
        match self.answers.as_slice().get(self.taken) {
            None => Heard::End,
            Some(answer) => {
                if answer.len() > 64 {
                    return Heard::Long;
                }
                into.hold(answer.as_slice());
                self.taken += 1;
                Heard::Line
            }
        }
    }
}

impl Peer for MemPeer {
    ghost use Rattle.pks_agent.specs.Memory.{peer_text, peer_answers, peer_failing, peer_calls, peer_sends, peer_receipts, peer_kept, peer_sure, next_call, Fails, raised};

    ghost answers = { λ x. Some (peer_answers x) };

    ghost said = { λ x. Some (peer_text x) };

    ghost sends = { peer_sends };

    ghost receipts = { peer_receipts };

    ghost kept = { peer_kept };

    ghost sure = { peer_sure };

    #[tactic(auto, using(crate::proofs::Serving::served_well, crate::proofs::Serving::served_not))]
    fn tell(&mut self, text: &[u8]) -> Result<(), PeerFault>
        ensures ok { OnOk result (Appends (Some (peer_text self.old)) (Some (peer_text self.new)) (line text.now)) }
        ensures err { OnErr result (AppendsFront (Some (peer_text self.old)) (Some (peer_text self.new)) (line text.now)) }
        ensures answers { Stay (Some (peer_answers self.old)) (Some (peer_answers self.new)) }
        ensures cause { HasPeerCause (peer_sends self.old) (peer_sends self.new) (peer_receipts self.old) (peer_receipts self.new) result }
        ensures kept { peer_kept self.new ≡ peer_kept self.old }
        ensures served { IsServed (peer_sure self.old) (peer_sure self.new) text.now result }

        // It fails exactly there, and the fault is counted and nothing else is.
        ensures fails { IsErr result ↔ Fails (peer_failing self.old) (next_call (peer_calls self.old)) text.now }
        ensures calls { peer_calls self.new ≡ next_call (peer_calls self.old) }
        ensures failing { peer_failing self.new ≡ peer_failing self.old }
        ensures counted { OnErr result (peer_sends self.new ≡ raised (peer_sends self.old)) }
        ensures receipts { peer_receipts self.new ≡ peer_receipts self.old }
    {
        if self.say(text) {
            return Ok(());
        }
        self.sends = self.sends.saturating_add(1);
        Err(PeerFault::Send)
    }

    #[tactic(auto, using(crate::proofs::Serving::served_well, crate::proofs::Serving::served_not))]
    fn ask(&mut self, text: &[u8], into: &mut Answer) -> Result<Heard, PeerFault>
        ensures ok { OnOk result (Appends (Some (peer_text self.old)) (Some (peer_text self.new)) (line text.now)) }
        ensures err { OnErr result (AppendsFront (Some (peer_text self.old)) (Some (peer_text self.new)) (line text.now)) }
        ensures hears { Hears (Some (peer_answers self.old)) (Some (peer_answers self.new)) (answer_text into.new) result }
        ensures cause { HasPeerCause (peer_sends self.old) (peer_sends self.new) (peer_receipts self.old) (peer_receipts self.new) result }
        ensures kept { peer_kept self.new ≡ peer_kept self.old }
        ensures served { IsServed (peer_sure self.old) (peer_sure self.new) text.now result }

        // It fails exactly there, and the fault is counted and nothing else is.
        ensures fails { IsErr result ↔ Fails (peer_failing self.old) (next_call (peer_calls self.old)) text.now }
        ensures calls { peer_calls self.new ≡ next_call (peer_calls self.old) }
        ensures failing { peer_failing self.new ≡ peer_failing self.old }
        ensures counted { OnErr result (peer_receipts self.new ≡ raised (peer_receipts self.old)) }
        ensures sends { peer_sends self.new ≡ peer_sends self.old }
    {
        if self.say(text) {
            return Ok(self.take(into));
        }
        self.receipts = self.receipts.saturating_add(1);
        Err(PeerFault::Receive)
    }
}
