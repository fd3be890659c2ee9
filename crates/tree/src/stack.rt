// A tree whose top joins two lines is a pile.
ghost use Rattle.std.specs.Prelude.{◌≡◌};
ghost use Rattle.channel.specs.declared.device.Call.TheVariants.{Restart};
ghost use Rattle.tree.specs.Trees.{tree_timing, TreeMade};
ghost use Rattle.tree.specs.Ordered.{tree_fits};
ghost use Rattle.tree.specs.Stack.{tree_view, TopJoins, tree_kind, tree_answer, call_makes};

use crate::refusal::TreeRefusal;
use crate::state::Tree;
use channel::device::QDevice;
use pile::own::{QCall, own_call};
use pile::pile::Pile;
use words::name::Name;

// The calls of a tree in a run; a reset is none of them.
#[derive(Clone, Copy)]
pub enum TreeCall {
    Own(QCall),
    Job { name: Name, jobs: u16 },
}

impl Pile for Tree<'_> {
    type Call = TreeCall;

    type Refusal = TreeRefusal;

    ghost view = { tree_view };

    ghost timing = { tree_timing };

    ghost ordered = { TopJoins };

    ghost piled = { TopJoins };

    ghost kind = { tree_kind };

    ghost answers = { λ c t r. r ≡ tree_answer c t };

    ghost makes = { call_makes };

    ghost resets = { TreeMade Restart };

    ghost fits = { tree_fits };

    fn restart(&mut self) {
        self.reset();
    }

    fn make(&mut self, call: TreeCall) -> Result<(), TreeRefusal> {
        match call {
            TreeCall::Own(call) => own_call(self, call).map_err(TreeRefusal::from),
            TreeCall::Job { name, jobs } => {
                self.job(name.as_bytes(), jobs).map_err(TreeRefusal::from)
            }
        }
    }
}
