// The lower end of a Q-Channel: where it stands, and who denied.
ghost use Rattle.std.specs.Prelude.{◌≡◌};
ghost use Rattle.channel.specs.Calls.{lower_answer, raise_answer};
ghost use Rattle.channel.specs.Ends.{at_rest, end_lowered, end_raised};

use crate::device::Refusal;
use crate::phase::Phase;

#[derive(Clone, Copy, PartialEq, Eq, Debug)]
pub struct QEnd {
    pub phase: Phase,
    // the tag of the first leaf that denied the latest request, if one did
    pub denier: Option<u32>,
}

impl QEnd {
    // At Stopped, with no denier.
    pub fn at_rest() -> Self
        ensures { result ≡ at_rest }
    {
        QEnd {
            phase: Phase::Stopped,
            denier: None,
        }
    }

    // Asks for a stop, at Run.
    pub fn lower(&mut self) -> Result<(), Refusal>
        ensures answer { result ≡ lower_answer self.old.phase }
        ensures end { self.new ≡ end_lowered self.old }
    {
        match self.phase {
            Phase::Run => {
                *self = QEnd {
                    phase: Phase::Request,
                    denier: None,
                };
                Ok(())
            }
            _ => Err(Refusal::LowerNotAtRun),
        }
    }

    // Wakes at Stopped, takes the request back at Denied.
    pub fn raise(&mut self) -> Result<(), Refusal>
        ensures answer { result ≡ raise_answer self.old.phase }
        ensures end { self.new ≡ end_raised self.old }
    {
        self.phase = match self.phase {
            Phase::Stopped => Phase::Exit,
            Phase::Denied => Phase::Continue,
            _ => return Err(Refusal::RaiseNotHeld),
        };
        Ok(())
    }
}
