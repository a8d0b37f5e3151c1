//! The laws of nodes, each the clause of a function that does nothing.

ghost use Rattle.std.specs.Prelude.{◌≡◌, [], List};
ghost use Rattle.pks_terms.specs.Trees.{Tree, depth};
ghost use Rattle.pks_terms.specs.Nodes.{Node, IsShared, last_depth};

/// There is one list of nodes of a tree. `docs/RULES.md` has the rule on trees.
pub fn there_is_one_list_of_nodes()
    ensures { (t : Tree) (xs ys : List Node) → IsShared t xs → IsShared t ys → xs ≡ ys }
{}

/// The depth of the last node, which the text of nodes begins with, is the depth of the tree.
pub fn the_depth_of_the_last_node_is_the_trees()
    ensures { (t : Tree) (nodes : List Node) → IsShared t nodes → last_depth [] 0 nodes ≡ depth t }
{}
