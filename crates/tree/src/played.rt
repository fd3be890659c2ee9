// Plays a tree.
ghost use Rattle.std.specs.Prelude.{◌≡◌, is_ok, OnOk, OnErr};
ghost use Rattle.channel.specs.declared.device.Call.TheVariants.{Restart};
ghost use Rattle.pile.specs.Runs.{Promised};
ghost use Rattle.tree.specs.Nesting.{is_joined};
ghost use Rattle.tree.specs.Trees.{tree_nest, tree_timing, TreeMade};
ghost use Rattle.tree.specs.Stack.{tree_view, TopJoins, tree_kind, call_makes, Untouched};

use crate::stack::TreeCall;
use crate::state::Tree;
use pile::played::play;

// The top of the tree joins no two lines.
#[derive(Clone, Copy, PartialEq, Eq, Debug)]
pub struct NotAPile;

// Resets a tree whose top joins two lines and makes these calls, one after the other: the promise is kept.
// Any other tree is no pile, and is left as it is.
pub fn play_tree(tree: &mut Tree<'_>, calls: &[TreeCall]) -> Result<(), NotAPile>
    ensures pile { is_ok result ≡ is_joined (tree_nest tree.old) }
    ensures same { OnErr result (Untouched tree.old tree.new) }
    ensures promised { OnOk result (Promised TopJoins tree_view tree_timing tree_kind call_makes (TreeMade Restart) calls.now tree.old tree.new) }
{
    if !tree.is_pile() {
        return Err(NotAPile);
    }
    play(tree, calls);
    Ok(())
}
