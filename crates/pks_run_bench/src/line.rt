//! The line of a plan over the generated file.

ghost use Rattle.std.specs.Prelude.{◌≡◌, ◌≤◌, ◌<◌, ◌^◌, IfOk};
ghost use Rattle.pks_terms.specs.Printed.{bench_text, generated, nodes_of};
ghost use Rattle.pks_terms.specs.Trees.{depth};
ghost use Rattle.pks_plan.specs.TreeViews.{tree_of};

use crate::size::nodes;
use pks_plan::{Tree, depth};
use std::alloc::{AllocError, Global};

/// The line that tells of a plan over the generated file: the file's number of objects, its bytes, the plan's depth
/// and how many nodes it has (docs/FORMAT.md, "Printed texts"). It asks for the file's text, and for a plan of depth at most
/// 16 whose nodes can be counted, and errs only where memory runs out.
pub fn bench_line(alloc: Global, n: u8, file: &[u8], t: &Tree) -> Result<Vec<u8>, AllocError>
    requires file { file.now ≡ generated n }
    requires depth { depth (tree_of t.now) ≤ 16 }
    requires nodes { nodes_of (tree_of t.now) < 2 ^ 64 }
    ensures { IfOk result (λ line. line.items ≡ bench_text n (tree_of t.now)) }
{
    let bytes = file.len();
    let depth = depth(t);
    let nodes = nodes(t);
    let line = format!(in alloc; "bench {n} bytes {bytes} depth {depth} nodes {nodes}\n")?;
    Ok(line.into_bytes())
}
