// The own calls of a pile whose upper end is a Q-Channel.
ghost use Rattle.std.specs.Prelude.{◌≡◌, is_ok};
ghost use Rattle.pile.specs.OfQ.{q_view, q_kind, q_answer, q_makes};
ghost use Rattle.pile.specs.Calls.{Called, Timed};

use channel::device::{QDevice, Refusal};

// Lower, raise and step; a reset is no call of a run.
#[derive(Clone, Copy, PartialEq, Eq, Debug)]
pub enum QCall {
    Lower,
    Raise,
    Step,
}

// Makes one of these calls on any device.
pub fn own_call<D: QDevice>(device: &mut D, call: QCall) -> Result<(), Refusal>
    ensures answer { result ≡ q_answer call (D.means device.old).phase }
    ensures exact { q_makes D.means D.makes call (is_ok result) device.old device.new }
    ensures called { D.ordered device.old → Called (q_kind call) (is_ok result) (q_view (D.means device.old)) (q_view (D.means device.new)) }
    ensures timed { D.ordered device.old → Timed (q_kind call) (is_ok result) (q_view (D.means device.old)).at (q_view (D.means device.new)).at (D.timing device.old) (D.timing device.new) }
    ensures kept { D.ordered device.old → D.ordered device.new }
{
    match call {
        QCall::Lower => device.lower(),
        QCall::Raise => device.raise(),
        QCall::Step => {
            device.step();
            Ok(())
        }
    }
}
