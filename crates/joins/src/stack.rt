// A distributor or sequencer is a pile: the promise holds of it over any two devices.
ghost use Rattle.std.specs.Prelude.{◌≡◌};
ghost use Rattle.channel.specs.declared.device.Call.TheVariants.{Restart};
ghost use Rattle.pile.specs.OfQ.{q_kind, q_answer, q_makes};
ghost use Rattle.joins.specs.Join.{join_means, join_time, JoinOrder, join_makes};
ghost use Rattle.joins.specs.Shows.{join_view, join_fits};

use crate::join::Join;
use crate::rule::Rule;
use channel::device::{QDevice, Refusal};
use pile::own::{QCall, own_call};
use pile::pile::Pile;

impl<R: Rule, A: QDevice, B: QDevice> Pile for Join<R, A, B> {
    type Call = QCall;

    type Refusal = Refusal;

    ghost view = { join_view A.QDevice B.QDevice };

    ghost timing = { join_time R.Rule A.QDevice B.QDevice };

    ghost ordered = { JoinOrder R.Rule A.QDevice B.QDevice };

    ghost piled = { λ _. Unit {0} };

    ghost kind = { q_kind };

    ghost answers = { λ c j r. r ≡ q_answer c (join_means A.QDevice B.QDevice j).phase };

    ghost makes = { q_makes (join_means A.QDevice B.QDevice) (join_makes R.Rule A.QDevice B.QDevice) };

    ghost resets = { join_makes R.Rule A.QDevice B.QDevice Restart };

    ghost fits = { join_fits A.in_order B.in_order };

    fn restart(&mut self) {
        self.reset();
    }

    fn make(&mut self, call: QCall) -> Result<(), Refusal> {
        own_call(self, call)
    }
}
