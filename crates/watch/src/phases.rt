// What is watched of a phase, of either channel.
ghost use Rattle.std.specs.Prelude.{◌≡◌, ℕ, Bool, Option};
ghost use Rattle.watch.specs.declared.tally.Ending.{Ending};
ghost use Rattle.watch.specs.Phases.{open_test, p_open_test, ending_of, p_ending_of};

use crate::tally::Ending;
use channel::phase::Phase;
use channel::pphase::PPhase;
use channel::signals::Signals;

pub trait WatchedPhase: Signals {
    ghost opens: { Self → Bool };

    ghost ending: { Self → Option ℕ → Ending };

    // Whether a phase ends by itself.
    fn is_open(self) -> bool
        ensures { result ≡ opens self };

    // How a request stands at a phase, with the denier then.
    fn ending(self, denier: Option<u32>) -> Ending
        ensures { result ≡ ending self denier };
}

impl WatchedPhase for Phase {
    ghost opens = { open_test };

    ghost ending = { ending_of };

    fn is_open(self) -> bool {
        matches!(self, Phase::Request | Phase::Exit | Phase::Continue)
    }

    fn ending(self, denier: Option<u32>) -> Ending {
        match self {
            Phase::Stopped => Ending::Accepted,
            Phase::Denied => Ending::Denied { by: denier },
            _ => Ending::Unanswered,
        }
    }
}

impl WatchedPhase for PPhase {
    ghost opens = { p_open_test };

    ghost ending = { p_ending_of };

    fn is_open(self) -> bool {
        matches!(self, PPhase::Request | PPhase::Complete | PPhase::Continue)
    }

    fn ending(self, denier: Option<u32>) -> Ending {
        match self {
            PPhase::Accept => Ending::Accepted,
            PPhase::Denied => Ending::Denied { by: denier },
            _ => Ending::Unanswered,
        }
    }
}
