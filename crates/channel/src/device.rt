// The Q device: what an implementation means, and what its calls do to that.
ghost use Rattle.std.specs.Prelude.{◌≡◌};
ghost use Rattle.channel.specs.Phases.{levels_of};
ghost use Rattle.channel.specs.Means.{Means};
ghost use Rattle.channel.specs.Calls.{refusal_number, lower_answer, raise_answer, Lowered, Raised, Stepped, Reset};
ghost use Rattle.channel.specs.Ends.{end_of};
ghost use Rattle.channel.specs.Timing.{Timing, Charged, Ticked};
ghost use Rattle.channel.specs.Device.{InOrder};
ghost use Rattle.channel.specs.declared.device.Call.{Call};
ghost use Rattle.channel.specs.declared.device.Call.TheVariants.{Lower, Raise, Step, Restart};

use crate::end::QEnd;
use crate::phase::Phase;
use crate::signals::Signals;

// Why a device refuses a call. A refused call changes nothing.
#[derive(Clone, Copy, PartialEq, Eq, Debug)]
pub enum Refusal {
    // lower elsewhere than at Run
    LowerNotAtRun = 20,
    // raise elsewhere than at Stopped or Denied
    RaiseNotHeld = 21,
}

// A refusal's number.
impl From<Refusal> for u8 {
    ghost from_gives = { λ why n. n ≡ refusal_number why };

    fn from(why: Refusal) -> u8 {
        why as u8
    }
}

// The calls that change a device, for the contracts. A reset is none of a run, so a run has its own (`QCall`).
#[derive(Clone, Copy, PartialEq, Eq, Debug)]
pub enum Call {
    Lower,
    Raise,
    Step,
    Restart,
}

// A device at the lower end of a Q-Channel.
pub trait QDevice {
    // phase, leaves from left to right, denier
    ghost means: { Self → Means };

    // bound, and steps left in an open phase
    ghost timing: { Self → Timing };

    // the implementation's own part of being in order, where its type does not hold it
    ghost ordered: { Self → Type 0 };

    // what a call makes of the whole value, to the last field
    ghost makes: { Call → Self → Self → Type 0 };

    fn phase(&self) -> Phase
        ensures { result ≡ (means self.now).phase };

    // The tag of the first leaf that denied the latest request, if one did.
    fn denier(&self) -> Option<u32>
        ensures { result ≡ (means self.now).denier };

    // Phase and denier as one.
    fn end(&self) -> QEnd
        ensures { result ≡ end_of (means self.now) }
    {
        QEnd {
            phase: self.phase(),
            denier: self.denier(),
        }
    }

    // QREQn, QACCEPTn, QDENY.
    fn levels(&self) -> (bool, bool, bool)
        ensures { result ≡ levels_of (means self.now).phase }
    {
        self.phase().levels()
    }

    // Asks for a stop.
    fn lower(&mut self) -> Result<(), Refusal>
        ensures answer { result ≡ lower_answer (means self.old).phase }
        ensures exact { makes Lower self.old self.new }
        ensures order { ordered self.old → Lowered (means self.old) (means self.new) }
        ensures pace { Charged result (timing self.old) (timing self.new) }
        ensures kept { ordered self.old → ordered self.new };

    // Wakes a stopped device, or takes a denied request back.
    fn raise(&mut self) -> Result<(), Refusal>
        ensures answer { result ≡ raise_answer (means self.old).phase }
        ensures exact { makes Raise self.old self.new }
        ensures order { ordered self.old → Raised (means self.old) (means self.new) }
        ensures pace { Charged result (timing self.old) (timing self.new) }
        ensures kept { ordered self.old → ordered self.new };

    // Lets one step pass.
    fn step(&mut self)
        ensures exact { makes Step self.old self.new }
        ensures order { ordered self.old → Stepped (means self.old) (means self.new) }
        ensures pace { ordered self.old → Ticked (means self.old).phase (means self.new).phase (timing self.old) (timing self.new) }
        ensures kept { ordered self.old → ordered self.new };

    // Leads from anything to Stopped, in order.
    fn reset(&mut self)
        ensures exact { makes Restart self.old self.new }
        ensures order { Reset (means self.old) (means self.new) }
        ensures pace { (timing self.new).bound ≡ (timing self.old).bound }
        ensures kept { ordered self.new };

    // in order: phase, leaves and denier agree, and steps are left
    ghost in_order: { (d : Self) → ordered d → InOrder means timing d };
}
