//! Who answers, by what was said, by the answers that are left and by two counts of faults.
ghost use Rattle.std.specs.Prelude.{◌≡◌, ℕ, List, Option, OnOk, OnErr};
ghost use Rattle.std.specs.Borrow.{GName};
ghost use Rattle.std.specs.Io.KnownBytes.{Appends};
ghost use Rattle.pks_io.specs.Writing.{AppendsFront};
ghost use Rattle.pks_terms.specs.Printed.{Text, line};
ghost use Rattle.pks_agent.specs.Answers.{answer_text};
ghost use Rattle.pks_agent.specs.Hearing.{Stay, Hears, HasPeerCause, IsServed};

use crate::answers::Answer;

/// What failed.
#[derive(Clone, Copy, PartialEq, Eq)]
pub enum PeerFault {
    /// A line was not said whole: the count of sending rose.
    Send,
    /// No answer was taken: the count of receiving rose.
    Receive,
}

/// What came of a question.
#[derive(Clone, Copy, PartialEq, Eq)]
pub enum Heard {
    /// The next answer was taken.
    Line,
    /// The next answer has more than 64 bytes; it was taken, or a front of it.
    Long,
    /// No answer is left.
    End,
}

/// A caller that is told lines and answers questions.
pub trait Peer {
    /// The answers that are left, where the peer tells them.
    ghost answers: { Self → Option (List Text) };

    /// The text said so far, where the peer tells it.
    ghost said: { Self → Option Text };

    /// A count of the faults of sending. One that stands at 2^64 - 1 is read as risen.
    ghost sends: { Self → ℕ };

    /// A count of the faults of receiving.
    ghost receipts: { Self → ℕ };

    /// The places that the peer borrows, which stay the same.
    ghost kept: { Self → List GName };

    /// How many more calls surely don't fail, where no line has more than 8,192 bytes.
    ghost sure: { Self → ℕ };

    /// Says the line and a line feed, or where it fails a front of them. The answers stay as they are. Neither count
    /// falls, each fault comes only where its count rose, and a count stands still where its fault isn't answered.
    fn tell(&mut self, text: &[u8]) -> Result<(), PeerFault>
        ensures ok { OnOk result (Appends (said self.old) (said self.new) (line text.now)) }
        ensures err { OnErr result (AppendsFront (said self.old) (said self.new) (line text.now)) }
        ensures answers { Stay (answers self.old) (answers self.new) }
        ensures cause { HasPeerCause (sends self.old) (sends self.new) (receipts self.old) (receipts self.new) result }
        ensures served { IsServed (sure self.old) (sure self.new) text.now result }
        ensures kept { kept self.new ≡ kept self.old };

    /// Says the line and a line feed, and takes the next answer. `Long` comes exactly where that has more than 64
    /// bytes, `End` exactly where none is left. Where sending fails a front of the text was said and the answers
    /// stay; after `Long` the end of that answer may be left before the others; where receiving fails nothing is known of those left.
    fn ask(&mut self, text: &[u8], into: &mut Answer) -> Result<Heard, PeerFault>
        ensures ok { OnOk result (Appends (said self.old) (said self.new) (line text.now)) }
        ensures err { OnErr result (AppendsFront (said self.old) (said self.new) (line text.now)) }
        ensures hears { Hears (answers self.old) (answers self.new) (answer_text into.new) result }
        ensures cause { HasPeerCause (sends self.old) (sends self.new) (receipts self.old) (receipts self.new) result }
        ensures served { IsServed (sure self.old) (sure self.new) text.now result }
        ensures kept { kept self.new ≡ kept self.old };
}
