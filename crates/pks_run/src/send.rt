// Writing a whole answer.
ghost use Rattle.std.specs.Prelude.{◌≡◌, ◌⊎◌, ◌≤◌};
ghost use Rattle.std.specs.Io.KnownBytes.{Appends};
ghost use Rattle.pks_io.specs.Causes.{Rose};
ghost use Rattle.pks_io.specs.Writing.{AppendsFront};
ghost use Rattle.pks_run.specs.Answer.{IsAnswered};
ghost use Rattle.pks_run.specs.declared.status.Status.{Status};

use crate::status::Status;
use pks_io::{Sink, write_all};

// Writes an answer.
pub fn send<K: Sink>(sink: &mut K, text: &[u8], status: Status) -> Status
    requires { IsAnswered status }
    ensures whole { IsAnswered result → (result ≡ status) × Appends (K.written sink.old) (K.written sink.new) text.now }
    ensures fault { result ≡ Status.WriteFault → Rose (K.faults sink.old) (K.faults sink.new) × AppendsFront (K.written sink.old) (K.written sink.new) text.now }
    ensures either { (result ≡ status) ⊎ (result ≡ Status.WriteFault) }
    ensures later { K.faults sink.old ≤ K.faults sink.new }
    ensures quiet { (result ≡ Status.WriteFault → ⊥) → K.faults sink.new ≡ K.faults sink.old }
{
    match write_all(sink, text) {
        Ok(()) => status,
        Err(_) => Status::WriteFault,
    }
}
