//! A source and a sink as a peer.
ghost use Rattle.std.specs.Prelude.{◌≡◌, ◌≤◌, [], ◌∷◌, IfSome, OnOk, OnErr, length};
ghost use Rattle.std.specs.Io.KnownBytes.{Appends};
ghost use Rattle.pks_terms.specs.declared.limits.TheConstants.{MOST_OBJECTS};
ghost use Rattle.pks_io.specs.Causes.{HasCause};
ghost use Rattle.pks_io.specs.Writing.{AppendsFront};
ghost use Rattle.pks_terms.specs.Printed.{line};
ghost use Rattle.pks_terms.specs.Talk.{talk};
ghost use Rattle.pks_terms.specs.Views.{signature_of, names_of};
ghost use Rattle.pks_plan.specs.TreeViews.{tree_of};
ghost use Rattle.pks_agent.specs.Leading.{Led, HasTalkCause};
ghost use Rattle.pks_agent.specs.Rooms.{IsRoomOf};
ghost use Rattle.pks_agent.specs.Streams.{ahead_of, coming, answers_coming};
ghost use Rattle.pks_agent.specs.declared.ahead.ReadAhead.{ReadAhead};

use crate::ahead::ReadAhead;
use crate::answers::Answer;
use crate::dialogue::converse;
use crate::ends::TalkEnd;
use crate::hearing::hear;
use crate::peers::{Heard, Peer, PeerFault};
use crate::rooms::Room;
use pks_exec::End;
use pks_io::{Sink, SinkFailed, Source, write_all};
use pks_plan::Tree;
use pks_terms::problem::Problem;

/// A caller who is told lines through a sink and whose answers come from a source, each up to a line feed. A line is given to the sink
/// whole, and only then is the source asked for the answer.
#[derive(Drop)]
pub struct Wire<'a, 'b, S, K> {
    ahead: ReadAhead,
    source: &'a mut S,
    sink: &'b mut K,
}

/// Writes the line and a line feed.
fn say<K: Sink>(sink: &mut K, text: &[u8]) -> Result<(), SinkFailed>
    ensures ok { OnOk result (Appends (K.written sink.old) (K.written sink.new) (line text.now)) }
    ensures err { OnErr result (AppendsFront (K.written sink.old) (K.written sink.new) (line text.now)) }
    ensures cause { HasCause (K.faults sink.old) (K.faults sink.new) result }
    ensures quiet { OnOk result (K.faults sink.new ≡ K.faults sink.old) }
{
    match write_all(sink, text) {
        Ok(()) => write_all(sink, b"\n"),
        Err(failed) => Err(failed),
    }
}

impl<'a, 'b, S: Source, K: Sink> Wire<'a, 'b, S, K> {
    /// A caller at the source and the sink, whose answers begin with what `read_file_text` read ahead from that source.
    pub fn over(ahead: ReadAhead, source: &'a mut S, sink: &'b mut K) -> Wire<'a, 'b, S, K>
        ensures ahead { result.ahead ≡ ahead }
        ensures same_source { result.source.ghost_name ≡ source.entry.ghost_name }
        ensures source { result.source.now ≡ source.old }
        ensures same_sink { result.sink.ghost_name ≡ sink.entry.ghost_name }
        ensures sink { result.sink.now ≡ sink.old }
    {
        Wire {
            ahead,
            source,
            sink,
        }
    }
}

impl<S: Source, K: Sink> Peer for Wire<'_, '_, S, K> {
    ghost answers = { λ w. answers_coming (coming w.ahead (S.left w.source.now)) };

    ghost said = { λ w. K.written w.sink.now };

    ghost sends = { λ w. K.faults w.sink.now };

    ghost receipts = { λ w. S.faults w.source.now };

    ghost kept = { λ w. w.source.ghost_name ∷ w.sink.ghost_name ∷ [] };

    ghost sure = { λ w. 0 };

    fn tell(&mut self, text: &[u8]) -> Result<(), PeerFault> {
        match say(self.sink, text) {
            Ok(()) => Ok(()),
            Err(_) => Err(PeerFault::Send),
        }
    }

    fn ask(&mut self, text: &[u8], into: &mut Answer) -> Result<Heard, PeerFault> {
        match say(self.sink, text) {
            Ok(()) => hear(&mut self.ahead, self.source, into),
            Err(_) => Err(PeerFault::Send),
        }
    }
}

/// Leads the dialogue of a wire.
fn converse_on<S: Source, K: Sink>(
    p: &Problem<'_>,
    t: &Tree,
    wire: &mut Wire<'_, '_, S, K>,
    room: &mut Room,
) -> Result<End, TalkEnd>
    requires objects { length p.now.signature.objects ≤ MOST_OBJECTS }
    requires room { IsRoomOf (names_of p.now) (tree_of t.now) room.old }
    ensures led { IfSome (answers_coming (coming wire.old.ahead (S.left wire.old.source.now))) (λ answers. Led (K.written wire.old.sink.now) (K.written wire.new.sink.now)
        answers (answers_coming (coming wire.new.ahead (S.left wire.new.source.now))) result (talk (signature_of p.now.signature) (names_of p.now) (tree_of t.now) answers)) }
    ensures cause { HasTalkCause (K.faults wire.old.sink.now) (K.faults wire.new.sink.now) (S.faults wire.old.source.now) (S.faults wire.new.source.now) result }
    ensures few { length (ahead_of wire.new.ahead) ≤ 512 }
    ensures same_source { wire.new.source.ghost_name ≡ wire.old.source.ghost_name }
    ensures same_sink { wire.new.sink.ghost_name ≡ wire.old.sink.ghost_name }
{
    let ended = converse(p, t, wire, room);
    wire.ahead.stays_small();
    ended
}

/// Leads a caller through the tree, as [`converse`] does: what it is told goes to the sink, and its answers come from what was read ahead and
/// then from the source.
///
/// Where the source tells the bytes that are left, the text that is written is the lines of the dialogue that comes of these answers,
/// or after a fault a front of these. `Failed` comes only where the count of that side rose, which stands still else. What was read ahead, at
/// most 512 bytes, and what the source has left are then the other answers; of one that is too long the end may be left, where writing
/// failed they are those that no line before asked for, and where reading failed nothing is known of them.
pub fn converse_over<S: Source, K: Sink>(
    p: &Problem<'_>,
    t: &Tree,
    ahead: ReadAhead,
    source: &mut S,
    sink: &mut K,
    room: &mut Room,
) -> Result<End, TalkEnd>
    requires objects { length p.now.signature.objects ≤ MOST_OBJECTS }
    requires room { IsRoomOf (names_of p.now) (tree_of t.now) room.old }
    ensures led { IfSome (answers_coming (coming ahead (S.left source.old))) (λ answers. (kept : ReadAhead) × (length (ahead_of kept) ≤ 512) × Led (K.written sink.old) (K.written sink.new)
        answers (answers_coming (coming kept (S.left source.new))) result (talk (signature_of p.now.signature) (names_of p.now) (tree_of t.now) answers)) }
    ensures cause { HasTalkCause (K.faults sink.old) (K.faults sink.new) (S.faults source.old) (S.faults source.new) result }
{
    let mut wire = Wire::over(ahead, source, sink);
    converse_on(p, t, &mut wire, room)
}
