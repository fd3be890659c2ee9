// Why a tree refuses a call.
ghost use Rattle.std.specs.Prelude.{◌≡◌};
ghost use Rattle.tree.specs.Refusals.{tree_refusal_number};
ghost use Rattle.tree.specs.declared.refusal.TreeRefusal.TheVariants as refused;

use channel::device::Refusal;
use leaves::worker::JobRefusal;

// A refused call changes nothing.
#[derive(Clone, Copy, PartialEq, Eq, Debug)]
pub enum TreeRefusal {
    // as on any device
    Device(Refusal),
    // a job call, as at a work leaf
    Job(JobRefusal),
}

impl From<Refusal> for TreeRefusal {
    ghost from_gives = { λ refusal r. r ≡ refused.Device refusal };

    fn from(refusal: Refusal) -> TreeRefusal {
        TreeRefusal::Device(refusal)
    }
}

impl From<JobRefusal> for TreeRefusal {
    ghost from_gives = { λ refusal r. r ≡ refused.Job refusal };

    fn from(refusal: JobRefusal) -> TreeRefusal {
        TreeRefusal::Job(refusal)
    }
}

// A refusal's number.
impl From<TreeRefusal> for u8 {
    ghost from_gives = { λ why n. n ≡ tree_refusal_number why };

    fn from(why: TreeRefusal) -> u8 {
        match why {
            TreeRefusal::Device(why) => u8::from(why),
            TreeRefusal::Job(why) => u8::from(why),
        }
    }
}
