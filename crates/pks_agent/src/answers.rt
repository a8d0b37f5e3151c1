//! One answer.
ghost use Rattle.std.specs.Prelude.{◌≡◌, ◌≤◌, ◌<◌, ◌↔◌, ◌∷◌, ◌++◌, [], false, IsTrue, length};
ghost use Rattle.pks_agent.specs.Answers.{answer_text};

use pks_terms::term::front;

/// An answer of at most 64 bytes: the first `n` of these.
#[derive(Clone, Copy)]
pub struct Answer {
    /// How many bytes are in use.
    pub n: u8,
    /// The bytes, and fillers after those in use.
    pub bytes: [u8; 64],
}

impl Answer {
    /// The empty answer.
    pub fn empty() -> Answer
        ensures { answer_text result ≡ [] }
    {
        Answer {
            n: 0,
            bytes: [0; 64],
        }
    }

    /// The bytes in use.
    pub fn text(&self) -> &[u8]
        ensures text { result.now ≡ answer_text self.now }
        ensures short { length result.now ≤ 64 }
    {
        front(&self.bytes, self.n)
    }

    /// Holds these bytes, of which there are at most 64.
    pub fn hold(&mut self, text: &[u8])
        requires { length text.now ≤ 64 }
        ensures { answer_text self.new ≡ text.now }
    {
        self.bytes[..text.len()].copy_from_slice(text);
        self.n = text.len() as u8;
    }

    /// Whether it holds no byte.
    #[tactic(auto, using(crate::proofs::Streams::none_taken, crate::proofs::Streams::none_held))]
    pub(crate) fn is_empty(&self) -> bool
        ensures { IsTrue result ↔ answer_text self.now ≡ [] }
    {
        self.n == 0
    }

    /// Holds one more byte, where there is room.
    #[tactic(auto, using(crate::proofs::Streams::held_more, crate::proofs::Streams::held_few, crate::proofs::Streams::held_all))]
    pub(crate) fn push(&mut self, byte: u8) -> bool
        ensures held { IsTrue result → answer_text self.new ≡ answer_text self.old ++ byte ∷ [] }
        ensures room { IsTrue result → length (answer_text self.old) < 64 }
        ensures full { result ≡ false → 64 ≤ length (answer_text self.old) }
    {
        let at = usize::from(self.n);
        if at >= 64 {
            return false;
        }
        self.bytes[at] = byte;
        self.n += 1;
        true
    }
}
