// The six phases of a P-Channel, their numbers and levels, and the changes between them.
ghost use Rattle.std.specs.Prelude.{◌≡◌};
ghost use Rattle.std.proofs.Common.{rules};
ghost use Rattle.channel.specs.PPhases.{p_number, p_levels, p_allowed, PSingle};
ghost use Rattle.channel.specs.declared.pphase.PPhase.{PPhase};

use crate::signals::Signals;

// Where a P-Channel stands. The controller drives PREQ, the device PACCEPT and PDENY.
#[derive(Clone, Copy, PartialEq, Eq, Debug)]
pub enum PPhase {
    Stable,
    Request,
    Accept,
    Complete,
    Denied,
    Continue,
}

// The phase's number, from 0.
impl From<PPhase> for u8 {
    ghost from_gives = { λ phase n. n ≡ p_number phase };

    fn from(phase: PPhase) -> u8 {
        phase as u8
    }
}

impl Signals for PPhase {
    ghost levels = { p_levels };

    ghost allowed = { p_allowed };

    ghost edges = { let single : (p q : PPhase) → PSingle p q = Prim.search rules in single };

    // PREQ, PACCEPT and PDENY.
    fn levels(self) -> (bool, bool, bool) {
        match self {
            PPhase::Stable => (false, false, false),
            PPhase::Request => (true, false, false),
            PPhase::Accept => (true, true, false),
            PPhase::Complete => (false, true, false),
            PPhase::Denied => (true, false, true),
            PPhase::Continue => (false, false, true),
        }
    }

    fn allows(self, next: PPhase) -> bool {
        matches!(
            (self, next),
            (PPhase::Stable, PPhase::Request)
                | (PPhase::Request, PPhase::Accept | PPhase::Denied)
                | (PPhase::Accept, PPhase::Complete)
                | (PPhase::Denied, PPhase::Continue)
                | (PPhase::Complete | PPhase::Continue, PPhase::Stable)
        )
    }
}
