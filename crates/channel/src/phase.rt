// The six phases of a Q-Channel, their numbers and levels, and the changes between them.
ghost use Rattle.std.specs.Prelude.{◌≡◌};
ghost use Rattle.std.proofs.Common.{rules};
ghost use Rattle.channel.specs.Phases.{number_of, levels_of, allowed, Single};
ghost use Rattle.channel.specs.declared.phase.Phase.{Phase};

use crate::signals::Signals;

// Where a channel stands. The controller drives QREQn, the device QACCEPTn and QDENY.
#[derive(Clone, Copy, PartialEq, Eq, Debug)]
pub enum Phase {
    Run,
    Request,
    Stopped,
    Exit,
    Denied,
    Continue,
}

// The phase's number, from 0.
impl From<Phase> for u8 {
    ghost from_gives = { λ phase n. n ≡ number_of phase };

    fn from(phase: Phase) -> u8 {
        phase as u8
    }
}

impl Signals for Phase {
    ghost levels = { levels_of };

    ghost allowed = { allowed };

    ghost edges = { let single : (p q : Phase) → Single p q = Prim.search rules in single };

    // QREQn, QACCEPTn and QDENY.
    fn levels(self) -> (bool, bool, bool) {
        match self {
            Phase::Run => (true, true, false),
            Phase::Request => (false, true, false),
            Phase::Stopped => (false, false, false),
            Phase::Exit => (true, false, false),
            Phase::Denied => (false, true, true),
            Phase::Continue => (true, true, true),
        }
    }

    fn allows(self, next: Phase) -> bool {
        matches!(
            (self, next),
            (Phase::Run, Phase::Request)
                | (Phase::Request, Phase::Stopped | Phase::Denied)
                | (Phase::Stopped, Phase::Exit)
                | (Phase::Denied, Phase::Continue)
                | (Phase::Exit | Phase::Continue, Phase::Run)
        )
    }
}
