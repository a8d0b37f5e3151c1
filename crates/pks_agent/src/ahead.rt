//! Bytes that were read ahead.
ghost use Rattle.std.specs.Prelude.{◌≡◌, ◌≤◌, ◌-◌, ◌∷◌, [], take, drop, length, IfSome, IsNone, IfOk, OnOk};
ghost use Rattle.std.specs.Io.KnownBytes.{Consumes, IsAtEnd};
ghost use Rattle.pks_io.specs.Causes.{HasCause};
ghost use Rattle.pks_agent.specs.Streams.{ahead_of, coming, GivesByte};

use pks_io::{Failed, Source};

/// The bytes that were read from a source and not taken.
#[derive(Drop)]
pub struct ReadAhead {
    bytes: [u8; 512],
    at: usize,
    end: usize,
}

/// What is left of an array of 512 bytes has no more.
#[tactic(auto, using(crate::proofs::Streams::few_left))]
fn few_left(bytes: &[u8; 512], at: usize, end: usize)
    ensures { length (take (end - at) (drop at bytes.now)) ≤ 512 }
{}

impl ReadAhead {
    /// At most 512 bytes are read ahead, whatever was read and taken.
    pub(crate) fn stays_small(&self)
        ensures { length (ahead_of self.now) ≤ 512 }
    {
        few_left(&self.bytes, self.at, self.end)
    }

    /// No bytes.
    pub(crate) fn none() -> ReadAhead
        ensures { ahead_of result ≡ [] }
    {
        ReadAhead {
            bytes: [0; 512],
            at: 0,
            end: 0,
        }
    }

    /// Bytes that the source gives, at least one where it has one.
    #[tactic(auto, using(crate::proofs::Streams::read_ahead, crate::proofs::Streams::read_none))]
    fn read<S: Source>(source: &mut S) -> Result<ReadAhead, Failed>
        ensures bytes { IfOk result (λ x. Consumes (S.left source.old) (S.left source.new) (ahead_of x)) }
        ensures end { IfOk result (λ x. ahead_of x ≡ [] → IsAtEnd (S.left source.new)) }
        ensures cause { HasCause (S.faults source.old) (S.faults source.new) result }
        ensures quiet { OnOk result (S.faults source.new ≡ S.faults source.old) }
    {
        let mut bytes = [0u8; 512];
        let end = source.read(&mut bytes)?;
        Ok(ReadAhead { bytes, at: 0, end })
    }

    /// The next byte that was read.
    #[tactic(auto, using(crate::proofs::Streams::next_ahead, crate::proofs::Streams::none_ahead, crate::proofs::Streams::none_behind))]
    fn pop(&mut self) -> Option<u8>
        ensures some { IfSome result (λ b. ahead_of self.old ≡ b ∷ ahead_of self.new) }
        ensures none { IsNone result → (ahead_of self.old ≡ []) × (ahead_of self.new ≡ []) }
    {
        if self.at >= self.end || self.at >= 512 {
            return None;
        }
        let byte = self.bytes[self.at];
        self.at += 1;
        Some(byte)
    }

    /// The next byte. The source is asked only where none was read ahead.
    #[tactic(auto, using(crate::proofs::Streams::popped, crate::proofs::Streams::read_popped, crate::proofs::Streams::read_ended))]
    pub(crate) fn next<S: Source>(&mut self, source: &mut S) -> Result<Option<u8>, Failed>
        ensures byte { GivesByte (coming self.old (S.left source.old)) (coming self.new (S.left source.new)) result }
        ensures cause { HasCause (S.faults source.old) (S.faults source.new) result }
        ensures quiet { OnOk result (S.faults source.new ≡ S.faults source.old) }
        ensures spared { (ahead_of self.old ≡ [] → ⊥) → source.new ≡ source.old }
    {
        match self.pop() {
            Some(byte) => Ok(Some(byte)),
            None => {
                *self = ReadAhead::read(source)?;
                Ok(self.pop())
            }
        }
    }
}
