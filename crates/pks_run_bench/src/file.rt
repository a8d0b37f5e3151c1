//! The generated file.

ghost use Rattle.std.specs.Prelude.{◌≡◌, ◌≤◌, IfOk};
ghost use Rattle.pks_terms.specs.Printed.{generated};

use crate::bytes::put;
use crate::facts::{put_facts, put_objects};
use std::alloc::{AllocError, Global};

const TO_OBJECTS: &[u8] = b"(pks 1)\n(domain\n(types num)\n(objects (num";

const TO_FACTS: &[u8] = b"))\n\
(predicates (open) (seen num num))\n\
(functions (combo num))\n\
(action read (senses (sense-value (combo))) (knows (kv (combo))))\n\
(action dial (params (?x num)) (effects (when ((= ?x (combo))) (set (open)))) (knows (if ((k (= ?x (combo)))) (kf (open))))))\n\
(problem\n\
(init\n";

const TO_END: &[u8] = b")\n(goal (k (open))))\n";

/// The file with this many objects, in which the value of a dial is read and then dialled (docs/FORMAT.md, "The
/// generated file"). It asks for a number from 1 to 64, and errs only where memory runs out.
pub fn generate(alloc: Global, n: u8) -> Result<Vec<u8>, AllocError>
    requires least { 1 ≤ n }
    requires most { n ≤ 64 }
    ensures { IfOk result (λ text. text.items ≡ generated n) }
{
    let mut text = Vec::new(alloc);
    put(&mut text, TO_OBJECTS)?;
    put_objects(&mut text, n)?;
    put(&mut text, TO_FACTS)?;
    put_facts(&mut text, n)?;
    put(&mut text, TO_END)?;
    Ok(text)
}
