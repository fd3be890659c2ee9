// A leaf that answers after a fixed number of steps and denies every K-th request.
ghost use Rattle.leaves.specs.Alone.{ToldAt, ToldAt-prop};
ghost use Rattle.leaves.specs.Left.{LeftAt, LeftAt-prop};

use crate::delays::Delays;
use channel::device::{QDevice, Refusal};
use channel::end::QEnd;
use channel::phase::Phase;

#[derive(Clone, Copy)]
pub struct Timed {
    tag: u32,
    delays: Delays,
    // every how many accepted lowers one is denied; none with 0, as a text gives it
    every: u8,
    // accepted lowers since making or reset, modulo `every`
    count: u8,
    end: QEnd,
    // steps left in an open phase, else 0
    left: u8,
    ghost in_time: { LeftAt end.phase delays left } by { LeftAt-prop end.phase delays left },
    ghost told: { ToldAt end.phase tag end.denier } by { ToldAt-prop end.phase tag end.denier },
}

impl Timed {
    ghost use Rattle.std.specs.Prelude.{◌≡◌, max};
    ghost use Rattle.leaves.specs.Timed.{made};
    ghost use Rattle.leaves.specs.EveryKth.{DeniesEvery};

    // A leaf that answers a request at step D, leaves Exit at step E, and denies
    // every K-th accepted lower, none with K of 0. D and E of 0 become 1. It starts at Stopped.
    #[tactic(auto, using(crate::proofs::Cadence::denies_every))]
    pub fn new(tag: u32, d: u8, e: u8, k: u8) -> Self
        ensures made { result ≡ made tag result.delays k }
        ensures delays { (result.delays.answer ≡ max d 1) × (result.delays.wake ≡ max e 1) }
        ensures every { DeniesEvery k result }
    {
        Timed {
            tag,
            delays: Delays::new(d, e),
            every: k,
            count: 0,
            end: QEnd::at_rest(),
            left: 0,
        }
    }
}

impl QDevice for Timed {
    ghost use Rattle.leaves.specs.Timed.{timed_means, timed_timing, timed_makes};
    ghost use Rattle.leaves.specs.Ordered.{timed_in_order};

    ghost means = { timed_means };

    ghost timing = { timed_timing };

    ghost ordered = { λ _. Unit {0} };

    ghost makes = { timed_makes };

    ghost in_order = { λ d _. timed_in_order d };

    fn phase(&self) -> Phase {
        self.end.phase // of its own channel
    }

    fn denier(&self) -> Option<u32> {
        self.end.denier // of the latest request
    }

    fn lower(&mut self) -> Result<(), Refusal> {
        self.end.lower()?;
        let next = self.count.saturating_add(1);
        self.count = if next < self.every { next } else { 0 };
        self.left = self.delays.answer;
        Ok(())
    }

    fn raise(&mut self) -> Result<(), Refusal> {
        self.end.raise()?;
        self.left = match self.end.phase {
            Phase::Exit => self.delays.wake,
            _ => 1,
        };
        Ok(())
    }

    fn step(&mut self) {
        match self.end.phase {
            Phase::Request | Phase::Exit if self.left > 1 => {
                self.left -= 1;
            }
            Phase::Request => {
                self.left = 0;
                if self.every > 0 && self.count == 0 {
                    self.end = QEnd {
                        phase: Phase::Denied,
                        denier: Some(self.tag),
                    };
                } else {
                    self.end.phase = Phase::Stopped;
                }
            }
            Phase::Exit | Phase::Continue => {
                self.left = 0;
                self.end.phase = Phase::Run;
            }
            _ => {}
        }
    }

    fn reset(&mut self) {
        self.count = 0;
        self.end = QEnd::at_rest();
        self.left = 0;
    }
}
